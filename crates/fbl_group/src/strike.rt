//! Strikes.

ghost use Rattle.std.specs.Prelude.{◌≡◌, ℕ, ◌<◌, ◌≤◌, [], IfOk, IfErr, OnOk, OnErr, None, Some, vec_len};
ghost use Rattle.fbl_member.specs.Members.{blank};
ghost use Rattle.fbl_law.specs.Promises.{SurvivorsHold, RecordsFirst, RecordsCauses};
ghost use Rattle.fbl_law.specs.Groups.{HasChannels, knowledge};
ghost use Rattle.fbl_channels.specs.Channels.{rows, AreReplaced};
ghost use Rattle.fbl_group.specs.Strikes.{strike_refusal, Strikes, AreRecordsReplaced, is_within, lost_receipts};
ghost use Rattle.fbl_group.specs.Theorem.{HasNoOrphan};

mod lost;

use crate::answers::Struck;
use crate::group::Group;
use crate::refusals::StrikeRefusal;
use fbl_channels::{Channels, has_either};
use fbl_member::MemberRec;
use fbl_trace::{Behaviour, Content, Determinant, Member, MemberSet};
use lost::{count_lost, lost_among};
use std::alloc::{AllocError, Global};

impl<B: Behaviour> Group<B> {
    /// Strikes the members named: they lose what they kept in memory, and each message in flight from them or to them is
    /// lost. They are down, beside those that were down before, until the group is recovered. A member that is down may be
    /// named again. Checkpoints stay. The answer counts all receipts that are lost then: those that neither the table of a
    /// survivor nor a checkpoint has. It takes no memory. After a refusal the group is unchanged.
    pub fn strike(&mut self, set: MemberSet) -> Result<Struck, StrikeRefusal>
        ensures struck { IfOk result (λ answer. (strike_refusal self.old set ≡ None)
            × Strikes B.next self.old self.new set answer) }
        ensures refused { IfErr result (λ refusal. strike_refusal self.old set ≡ Some refusal) }
        ensures unchanged { OnErr result (self.new ≡ self.old) }
        ensures no_orphan { HasNoOrphan self.new }
        ensures survivors { SurvivorsHold (knowledge self.new) self.new.down }
        ensures first { RecordsFirst (knowledge self.new) }
        ensures causes { RecordsCauses (knowledge self.new) }
    {
        // what holds of each group holds of this one where the strike is refused, and of the one that the strike leaves
        self.promises();
        self.allow_strike(set)?;
        let n = self.config.members();
        blank_members::<B>(&mut self.members, set, n, self.config.f());
        drop_at(&mut self.channels, set, n);
        self.down = self.down.union(set);
        self.promises();
        // Each receipt of a member that is up is held: those of members that are down are counted alone.
        Ok(Struck {
            lost: count_lost(self.down, &self.members, &self.checkpoints, &self.trace),
        })
    }

    /// The determinants of the receipts that are lost, in the order of the trace: those that neither the table of a survivor nor a
    /// checkpoint has, which a recovery undoes. While nobody is down there are none. `Err` comes only where there is no memory for
    /// the answer.
    pub fn lost_receipts(&self, alloc: Global) -> Result<Vec<Determinant>, AllocError>
        ensures { IfOk result (λ v. v.items ≡ lost_receipts self.now) }
    {
        lost_among(alloc, &self.members, &self.checkpoints, &self.trace)
    }

    #[tactic(auto, using(std::proofs::lemmas::Bool::Decides::nat_tests))]
    fn allow_strike(&self, set: MemberSet) -> Result<(), StrikeRefusal>
        ensures allowed { OnOk result (strike_refusal self.now set ≡ None) }
        ensures refused { IfErr result (λ refusal. strike_refusal self.now set ≡ Some refusal) }
    {
        if !are_within(set, self.size()) {
            return Err(StrikeRefusal::BadMember);
        }
        if set.count() == 0 {
            return Err(StrikeRefusal::Nobody);
        }
        if self.down().union(set).count() > u32::from(self.config().f()) {
            return Err(StrikeRefusal::TooMany);
        }
        Ok(())
    }
}

fn are_within(set: MemberSet, n: u8) -> bool
    ensures { result ≡ is_within set n }
{
    set.within(n)
}

fn blank_members<B: Behaviour>(
    members: &mut Vec<MemberRec<B::State, B::Note>>,
    set: MemberSet,
    n: u8,
    f: u8,
)
    requires size { vec_len members.old ≡ n }
    requires least { 2 ≤ n }
    requires most { n ≤ 16 }
    ensures { AreRecordsReplaced (B.next.initial 0 0) set (λ m. blank (B.next.initial m n)) members.old.items members.new.items }
{
    let alloc = *members.allocator();
    for number in 0..n {
        let member = Member::at(number);
        if set.has(member) {
            let first = B::initial(member, n);
            make_blank(&mut members[usize::from(number)], alloc, f, first);
        }
    }
}

fn make_blank<S: Copy, N: Content>(member: &mut MemberRec<S, N>, alloc: Global, f: u8, first: S)
    ensures { member.new ≡ blank first }
{
    *member = MemberRec::blank(alloc, f, first);
}

fn drop_at<N: Copy>(channels: &mut Channels<N>, set: MemberSet, n: u8)
    requires shape { HasChannels n (rows channels.old) }
    requires few { n ≤ 16 }
    ensures { AreReplaced n set (λ q p. []) (rows channels.old) (rows channels.new) }
{
    for sender in 0..n {
        let from = Member::at(sender);
        for receiver in 0..n {
            let to = Member::at(receiver);
            if has_either(set, from, to) {
                channels.clear(from, to);
            }
        }
    }
}
