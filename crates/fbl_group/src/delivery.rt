//! Deliveries.

ghost use Rattle.std.specs.Prelude.{◌≡◌, ◌<◌, IfOk, IfErr, OnErr, None, vec_len};
ghost use Rattle.fbl_group.specs.Deliveries.{front_message};
ghost use Rattle.fbl_group.specs.Deliveries.{deliver_refusal, IsDeliverRefusal, IsPlanned, Delivers, Delivered, MayTakeIn, TakesIn, record_at};
ghost use Rattle.fbl_group.specs.Refusals.{of_commit as of_commit_refusal};

mod commit;
mod ticket;

use crate::answers::Receipted;
use crate::group::Group;
use crate::refusals::{CommitRefusal, DeliverRefusal};
use fbl_member::{MemberRec, Wire};
use fbl_trace::{Behaviour, Event, Member, Outcome};
use std::alloc::AllocError;
pub use ticket::{Done, run_step};

impl<B: Behaviour> Group<B> {
    /// Delivers to one member the front of its channel from another: takes its ticket, makes its step and commits it. The
    /// member takes in what the message carries, notes the receipt's determinant and makes the behaviour's step, whose
    /// messages go to the ends of their channels.
    pub fn deliver(
        &mut self,
        to: Member,
        from: Member,
    ) -> Result<Receipted<B::State>, DeliverRefusal>
        ensures delivered { IfOk result (λ answer. (deliver_refusal B.next self.old to from ≡ None)
            × Delivers B.next self.old self.new to from answer) }
        ensures refused { IfErr result (IsDeliverRefusal (deliver_refusal B.next self.old to from)) }
        ensures unchanged { OnErr result (self.new ≡ self.old) }
    {
        let ticket = self.take(to, from)?;
        match self.commit(&run_step::<B>(ticket)) {
            Ok(receipted) => Ok(receipted),
            Err(refusal) => Err(of_commit(refusal)),
        }
    }

    /// Moves the front of the step's channel to its receiver, or changes nothing where memory runs out.
    pub(crate) fn settle(&mut self, done: &Done<B>) -> Result<Receipted<B::State>, AllocError>
        requires { IsPlanned B.next done.now.ticket.note self.old done.now.ticket.from done.now.ticket.to done.now.outcome }
        ensures delivered { IfOk result (Delivered B.next self.old self.new
            (front_message done.now.ticket.note self.old done.now.ticket.from
            done.now.ticket.to)) }
        ensures unchanged { OnErr result (self.new ≡ self.old) }
    {
        let to = done.ticket.to;
        let from = done.ticket.from;
        let sends = done.outcome.sends.as_slice();
        let Ok(()) = self.channels.reserve_from(to, sends, &mut self.trace) else {
            return Err(AllocError);
        };
        let wire = self.channels.front(from, to).unwrap();
        let ssn = wire.ssn();
        let carried = wire.carried().len() as u32;
        let n = self.config.members();
        let f = self.config.f();
        let Ok((rsn, made)) = take_in::<B>(&mut self.members, to, n, f, wire, &done.outcome) else {
            return Err(AllocError);
        };
        self.trace
            .push_reserved(Event::Receipt { to, rsn, from, ssn });
        self.channels.take_and_send(from, to, made, &mut self.trace);
        self.receipts_ever += 1;
        Ok(Receipted {
            rsn,
            carried,
            state: done.outcome.state,
        })
    }
}

/// Lets the receiver take the message in, in a group of `n` members of whom `f` may be lost. Answers the number of the receipt, and the
/// messages of the step. Where memory runs out nothing changes.
fn take_in<B: Behaviour>(
    members: &mut Vec<MemberRec<B::State, B::Note>>,
    to: Member,
    n: u8,
    f: u8,
    wire: &Wire<B::Note>,
    outcome: &Outcome<B::State, B::Note>,
) -> Result<(u32, Vec<Wire<B::Note>>), AllocError>
    requires place { to < vec_len members.old }
    requires may { MayTakeIn B.next n to outcome.now wire.now (record_at B.next members.old.items to) }
    ensures taken { IfOk result (λ made. TakesIn B.next f to outcome.now wire.now members.old.items
        members.new.items made.0 made.1.items) }
    ensures unchanged { OnErr result (members.new.items ≡ members.old.items) }
{
    let member = &mut members[usize::from(to.number())];
    let made = member.receive::<B>(to, n, f, wire, outcome)?;
    let rsn = member.received();
    Ok((rsn, made))
}

/// The refusal of the commit of a step whose ticket was just taken, as one of a delivery: what was just taken is not stale.
fn of_commit(refusal: CommitRefusal) -> DeliverRefusal
    ensures { result ≡ of_commit_refusal refusal }
{
    match refusal {
        CommitRefusal::Memory => DeliverRefusal::Memory,
        _ => DeliverRefusal::Full,
    }
}
