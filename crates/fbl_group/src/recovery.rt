//! Recovery of the members that are down.

ghost use Rattle.std.specs.Prelude.{◌≡◌, ℕ, ◌<◌, length, IfOk, IfErr, OnErr, OnOk, map};
ghost use Rattle.std.specs.FinSet as set;
ghost use Rattle.fbl_trace.specs.Events.{mark_of};
ghost use Rattle.fbl_law.specs.Groups.{knowledge, receipts};
ghost use Rattle.fbl_law.specs.Promises.{GainsHolders, RecordsFirst};
ghost use Rattle.fbl_group.specs.Strikes.{AreSentAgain, Recovers, IsReady, IsRecoverRefusal, lost_receipts};
ghost use Rattle.fbl_group.specs.Theorem.{Restores};

mod rebuilt;
mod replay;
mod resend;

use crate::answers::Recovered;
use crate::group::Group;
use crate::refusals::RecoverRefusal;
use fbl_trace::{Behaviour, Event, MemberSet};
use rebuilt::Rebuilt;
use std::alloc::AllocError;

impl<B: Behaviour> Group<B> {
    /// Recovers the members that are down: each begins at its checkpoint and is put at the fold of the receipts that a
    /// survivor's table or a checkpoint has, in their order, and knows what the survivors and these checkpoints know.
    /// Receipts that neither has are undone, with all that came after them at their member, and each message on a channel
    /// with an end that was down is sent again, unless its receiver has had it. Survivors, the channels between them and
    /// the checkpoints stay as they are. After a refusal nothing has changed: where memory ran out the members are still
    /// down, and `recover` may be called again.
    #[tactic(auto, using(crate::proofs::Reading::nobody_counted))]
    pub fn recover(&mut self) -> Result<Recovered, RecoverRefusal>
        ensures recovered { IfOk result (λ answer. ¬ (self.old.down ≡ set.empty) × Recovers B.next self.old self.new answer) }
        ensures restored { OnOk result (Restores B.next self.old self.new) }
        ensures undone { IfOk result (λ answer. answer.undone ≡ length (lost_receipts self.old)) }
        ensures first { RecordsFirst (knowledge self.old) }
        ensures holders { OnOk result (GainsHolders (knowledge self.old) (knowledge self.new)) }
        ensures refused { IfErr result (IsRecoverRefusal self.old) }
        ensures unchanged { OnErr result (self.new ≡ self.old) }
    {
        // what holds of each group, and so of the recovered one
        self.promises();
        if self.down().count() == 0 {
            return Err(RecoverRefusal::NotDown);
        }
        match self.bring_back() {
            Ok(recovered) => Ok(recovered),
            Err(AllocError) => Err(RecoverRefusal::Memory),
        }
    }

    /// Makes all that the recovery needs, and then puts it in place.
    fn bring_back(&mut self) -> Result<Recovered, AllocError>
        ensures recovered { IfOk result (λ answer. Recovers B.next self.old self.new answer) }
        ensures unchanged { OnErr result (self.new ≡ self.old) }
    {
        match self.rebuild() {
            Ok(mut rebuilt) => self.put_in_place(&mut rebuilt),
            Err(AllocError) => Err(AllocError),
        }
    }

    /// Sends again what is lost, puts the records that were rebuilt in their places, and cuts the trace.
    fn put_in_place(&mut self, rebuilt: &mut Rebuilt<B>) -> Result<Recovered, AllocError>
        requires ready { IsReady B.next self.old rebuilt.old.records.items rebuilt.old.replayed }
        requires down { rebuilt.old.down ≡ self.old.down }
        ensures recovered { IfOk result (λ answer. Recovers B.next self.old self.new answer) }
        ensures unchanged { OnErr result (self.new ≡ self.old) }
    {
        let mut again = self.resend(rebuilt.records.as_slice())?;
        let n = self.config.members();
        let replayed = rebuilt.replayed;
        let resent = again.messages(n) as u32;
        let before = self.receipt_count();
        let events = self.trace.len();
        rebuilt.cut(&mut self.trace);
        let undone = before - receipts_left(self.trace.as_slice(), events, before);
        rebuilt.put_back(&mut self.members, n);
        self.channels.replace(&mut again, self.down, n);
        self.down = MemberSet::empty();
        self.undone_ever += undone;
        Ok(Recovered {
            replayed,
            resent,
            undone: undone as u32,
        })
    }
}

/// How many receipts are left in a trace that had `events` events, `before` of them receipts. Where none was dropped, they are not
/// counted again.
fn receipts_left<N: Copy>(trace: &[Event<N>], events: usize, before: u64) -> u64
    requires { length trace.now ≡ events → length (receipts (map mark_of trace.now)) ≡ before }
    ensures { result ≡ length (receipts (map mark_of trace.now)) }
{
    if trace.len() == events {
        return before;
    }
    let marks = trace.iter().map(|event| event.mark());
    marks.filter_map(|mark| mark.determinant()).count() as u64
}
