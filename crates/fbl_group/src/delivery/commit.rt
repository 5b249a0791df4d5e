//! Steps that are made apart from the record: a ticket is taken, and the step is committed later.

ghost use Rattle.std.specs.Prelude.{◌≡◌, ◌↔◌, ◌+◌, ◌<◌, ◌≤◌, IsTrue, IfOk, IfErr, IfSome, IfNone, OnOk, OnErr, None, Some};
ghost use Rattle.fbl_member.specs.Members.{Message};
ghost use Rattle.fbl_group.specs.Deliveries.{front as front_of};
ghost use Rattle.fbl_group.specs.Deliveries.{Delivers, IsPlanned, has_no_room, take_refusal, IsTicket, IsCurrent, MayCommit, RefusesCommit};

use crate::answers::Receipted;
use crate::delivery::Done;
use crate::group::Group;
use crate::refusals::{CommitRefusal, TakeRefusal};
use fbl_member::{MemberRec, Wire};
use fbl_trace::{Behaviour, Content, Exact, Member, Ticket};
use std::alloc::AllocError;

impl<B: Behaviour> Group<B> {
    /// What the step of a delivery to one member from another is made from. Nothing changes, and the message stays in
    /// its channel.
    #[tactic(auto, using(std::proofs::lemmas::Bool::Decides::nat_tests))]
    pub fn take(&self, to: Member, from: Member) -> Result<Ticket<B::State, B::Note>, TakeRefusal>
        ensures taken { IfOk result (λ ticket. (take_refusal self.now to from ≡ None)
            × ((v : Message B.Note) × (front_of self.now from to ≡ Some v)
            × IsTicket self.now v ticket)) }
        ensures ends { IfOk result (λ ticket. (ticket.to ≡ to) × (ticket.from ≡ from)) }
        ensures refused { IfErr result (λ refusal. take_refusal self.now to from ≡ Some refusal) }
    {
        let n = self.size();
        if to.number() >= n || from.number() >= n {
            return Err(TakeRefusal::BadMember);
        }
        if self.down().count() != 0 {
            return Err(TakeRefusal::Down);
        }
        let Some(wire) = self.front(from, to) else {
            return Err(TakeRefusal::Empty);
        };
        let member = self.record(to);
        Ok(Ticket {
            n,
            to,
            from,
            state: member.state(),
            rsn: member.received() + 1,
            ssn: wire.ssn(),
            note: wire.note(),
        })
    }

    /// Does what the delivery of the ticket's message does, with a step that was made apart from the record. After a
    /// refusal the group is unchanged, and the step may be committed again.
    pub fn commit(&mut self, done: &Done<B>) -> Result<Receipted<B::State>, CommitRefusal>
        ensures delivered { IfOk result (λ answer. MayCommit B.next self.old done.now.ticket
            × Delivers B.next self.old self.new done.now.ticket.to done.now.ticket.from answer) }
        ensures refused { IfErr result (RefusesCommit B.next self.old done.now.ticket) }
        ensures unchanged { OnErr result (self.new ≡ self.old) }
    {
        self.plan_commit(done)?;
        match self.settle(done) {
            Ok(receipted) => Ok(receipted),
            Err(AllocError) => Err(CommitRefusal::Memory),
        }
    }

    fn front(&self, from: Member, to: Member) -> Option<&Wire<B::Note>>
        requires from { from < self.now.config.members }
        requires to { to < self.now.config.members }
        ensures some { IfSome result (λ wire. front_of self.now from to ≡ Some wire.now) }
        ensures none { IfNone result (front_of self.now from to ≡ None) }
    {
        self.channels.front(from, to)
    }

    /// Whether nothing but lack of memory refuses the commit. Nothing changes.
    #[tactic(auto, using(std::proofs::lemmas::Bool::Decides::nat_tests))]
    pub fn plan_commit(&self, done: &Done<B>) -> Result<(), CommitRefusal>
        ensures planned { OnOk result (MayCommit B.next self.now done.now.ticket
            × IsPlanned B.next done.now.ticket.note self.now done.now.ticket.from
            done.now.ticket.to done.now.outcome) }
        ensures refused { IfErr result (RefusesCommit B.next self.now done.now.ticket) }
    {
        let ticket = &done.ticket;
        if self.down().count() != 0 {
            return Err(CommitRefusal::Down);
        }
        if self.size() != ticket.n {
            return Err(CommitRefusal::Stale);
        }
        let Some(wire) = self.front(ticket.from, ticket.to) else {
            return Err(CommitRefusal::Stale);
        };
        let member = self.record(ticket.to);
        if !is_current(member, wire, ticket) {
            return Err(CommitRefusal::Stale);
        }
        let sends = done.outcome.sends.len();
        if is_full(
            self.config().limit(),
            self.trace().len(),
            self.receipts_ever(),
            sends,
        ) {
            return Err(CommitRefusal::Full);
        }
        Ok(())
    }
}

fn is_current<S: Exact, N: Content>(
    member: &MemberRec<S, N>,
    wire: &Wire<N>,
    ticket: &Ticket<S, N>,
) -> bool
    ensures { IsTrue result ↔ IsCurrent member.now wire.now ticket.now }
{
    *member.state_ref() == ticket.state
        && u64::from(member.received()) + 1 == u64::from(ticket.rsn)
        && wire.ssn() == ticket.ssn
        && *wire.note_ref() == ticket.note
}

fn is_full(limit: u32, len: usize, ever: u64, sends: usize) -> bool
    requires len { len ≤ 8192 }
    requires sends { sends ≤ 4 }
    ensures { result ≡ has_no_room limit len ever sends }
{
    (limit as usize) < len + 1 + sends || ever == u64::MAX
}
