//! Checkpoints: a member's record is kept where no strike empties it, and a recovery of the member begins there.

ghost use Rattle.std.specs.Prelude.{◌≡◌, ℕ, ◌<◌, ◌≤◌, IfErr, OnErr, OnOk, None};
ghost use Rattle.std.specs.FinSet as set;
ghost use Rattle.fbl_trace.specs.declared.trace.Determinant.{Determinant};
ghost use Rattle.fbl_trace.specs.Events.{receipt_of};
ghost use Rattle.fbl_trace.specs.Precedence.{Has};
ghost use Rattle.fbl_law.specs.Knowledge.{IsRecorded};
ghost use Rattle.fbl_law.specs.Groups.{member_checkpoint, knowledge, marks, IsCheckpointFold};
ghost use Rattle.fbl_law.specs.GroupSteps.{IsCheckpoint};
ghost use Rattle.fbl_group.specs.Checkpoints.{checkpoint_refusal, IsCheckpointRefusal};

use crate::group::Group;
use crate::refusals::CheckpointRefusal;
use fbl_trace::{Behaviour, Member};
use std::alloc::AllocError;

impl<B: Behaviour> Group<B> {
    /// Keeps a copy of the member's record, in the place of its older checkpoint: its state, its counts and its log, which
    /// are the fold of the receipts that it has had, and its table. What the checkpoint has recorded is never lost, and a
    /// recovery of the member replays only the receipts after it. Strikes and recoveries leave it as it is. A member that
    /// has received nothing may be checkpointed. After a refusal the older checkpoint stands, and nothing has changed.
    #[tactic(auto, using(std::proofs::lemmas::Bool::Decides::nat_tests))]
    pub fn checkpoint(&mut self, member: Member) -> Result<(), CheckpointRefusal>
        ensures taken { OnOk result ((checkpoint_refusal self.old member ≡ None) × IsCheckpoint self.old self.new member) }
        ensures fold { OnOk result (IsCheckpointFold B.next self.new member) }
        ensures refused { IfErr result (IsCheckpointRefusal (checkpoint_refusal self.old member)) }
        ensures unchanged { OnErr result (self.new ≡ self.old) }
    {
        if member.number() >= self.size() {
            return Err(CheckpointRefusal::BadMember);
        }
        if self.down().count() != 0 {
            return Err(CheckpointRefusal::Down);
        }
        let Ok(()) = self.save(member) else {
            return Err(CheckpointRefusal::Memory);
        };
        // the group is sound: each checkpoint is at the fold of its receipts
        self.recoverable();
        Ok(())
    }

    /// How many receipts the member's checkpoint has, 0 where none was taken. They are the member's first ones, the
    /// checkpoint is at the fold of them, and they are always recorded. The member is one of the group.
    pub fn checkpoint_received(&self, member: Member) -> u32
        requires { member < self.now.config.members }
        ensures value { result ≡ (member_checkpoint self.now member).received }
        ensures fold { IsCheckpointFold B.next self.now member }
        ensures recorded { (d : Determinant) → Has (marks self.now) (receipt_of d) → d.to ≡ member → d.rsn ≤ result
            → IsRecorded (knowledge self.now) d }
    {
        // the group is sound
        self.recoverable();
        self.checkpoint_of(member).received()
    }

    fn save(&mut self, member: Member) -> Result<(), AllocError>
        requires below { member < self.old.config.members }
        requires nobody_down { set.len self.old.down ≡ 0 }
        ensures saved { OnOk result (IsCheckpoint self.old self.new member) }
        ensures unchanged { OnErr result (self.new ≡ self.old) }
    {
        let place = usize::from(member.number());
        let copy = self.members[place].copy()?;
        self.checkpoints[place] = copy;
        Ok(())
    }
}
