//! Replay: the records of the members that are down are made again from what the survivors' tables and the logs have.

ghost use Rattle.std.specs.Prelude.{◌≡◌, ℕ, ◌+◌, ◌<◌, [], true, false, length, slice_index_or, IfOk, IfSome, IfNone, OnOk, Some};
ghost use Rattle.std.specs.FinSet as set;
ghost use Rattle.fbl_table.specs.Receipts.{IsByNumber};
ghost use Rattle.fbl_table.specs.Tables.{found};
ghost use Rattle.fbl_member.specs.Members.{blank, logged_note};
ghost use Rattle.fbl_law.specs.Groups.{member_checkpoint, knowledge, IsSound};
ghost use Rattle.fbl_law.specs.GroupSteps.{gathered_all, saved_tables, recovery_table, working, replayed_in, IsReplaying, IsWaiting};
ghost use Rattle.fbl_group.specs.Strikes.{AreByNumber, AreReplaying, Tries, Rounds, IsReady};

use crate::group::Group;
use crate::recovery::Rebuilt;
use fbl_member::MemberRec;
use fbl_table::{Receipts, Table};
use fbl_trace::{Behaviour, Determinant, Member};
use std::alloc::AllocError;
use std::mem;

impl<B: Behaviour> Group<B> {
    /// The records with which the members that are down come back. The others' are blank.
    pub(crate) fn rebuild(&self) -> Result<Rebuilt<B>, AllocError>
        ensures ready { IfOk result (λ rebuilt. IsReady B.next self.now rebuilt.records.items rebuilt.replayed) }
        ensures down { IfOk result (λ rebuilt. rebuilt.down ≡ self.now.down) }
    {
        let alloc = *self.members.allocator();
        let mut rebuilt = Rebuilt {
            down: self.down,
            records: Vec::new(alloc),
            replayed: 0,
            gathered: Table::for_limit(alloc, self.config().f()),
            receipts: Vec::new(alloc),
        };
        match self.replay(&mut rebuilt) {
            Ok(()) => Ok(rebuilt),
            Err(AllocError) => Err(AllocError),
        }
    }

    /// Gathers the tables, begins at the checkpoints, and replays what the gathered table has.
    fn replay(&self, rebuilt: &mut Rebuilt<B>) -> Result<(), AllocError>
        requires gathered { rebuilt.old.gathered ≡ [] }
        requires receipts { rebuilt.old.receipts.items ≡ [] }
        requires records { rebuilt.old.records.items ≡ [] }
        ensures ready { OnOk result (IsReady B.next self.now rebuilt.new.records.items rebuilt.new.replayed) }
        ensures down { rebuilt.new.down ≡ rebuilt.old.down }
    {
        self.gather_tables(&mut rebuilt.gathered)?;
        self.number_receipts(&rebuilt.gathered, &mut rebuilt.receipts)?;
        self.begin(&mut rebuilt.gathered, &mut rebuilt.records)?;
        rebuilt.replayed = self.replay_all(&rebuilt.receipts, &mut rebuilt.records)?;
        Ok(())
    }

    /// Gathers the survivors' tables in member order and then those of the checkpoints of the members that are down, where these
    /// count as holders, into an empty one.
    fn gather_tables(&self, gathered: &mut Table) -> Result<(), AllocError>
        requires { gathered.old ≡ [] }
        ensures { OnOk result (gathered.new ≡ recovery_table (knowledge self.now)) }
    {
        for record in &self.members {
            gathered.gather(record.table())?;
        }
        self.gather_checkpoints(gathered)?;
        gathered.mark_all(self.down);
        Ok(())
    }

    fn gather_checkpoints(&self, gathered: &mut Table) -> Result<(), AllocError>
        ensures { OnOk result (gathered.new ≡ gathered_all gathered.old
            (saved_tables self.now.outside self.now.down self.now.checkpoints
            self.now.config.members)) }
    {
        for number in 0..self.size() {
            let member = Member::at(number);
            if self.down().has(member) {
                gathered.gather(self.checkpoint_of(member).table())?;
            }
        }
        Ok(())
    }

    /// Puts the receipts that the gathered table has of each member that is down beyond its checkpoint, by their numbers, into the
    /// list, which is empty.
    fn number_receipts(
        &self,
        gathered: &Table,
        receipts: &mut Vec<Receipts>,
    ) -> Result<(), AllocError>
        requires gathered { gathered.now ≡ recovery_table (knowledge self.now) }
        requires empty { receipts.old.items ≡ [] }
        ensures { OnOk result (AreByNumber self.now receipts.new.items) }
    {
        for number in 0..self.size() {
            let member = Member::at(number);
            receipts.push(self.number_receipts_of(member, gathered)?)?;
        }
        Ok(())
    }

    fn number_receipts_of(&self, member: Member, gathered: &Table) -> Result<Receipts, AllocError>
        requires { member < self.now.config.members }
        ensures { set.contains self.now.down member ≡ true
            → IfOk result (IsByNumber member (member_checkpoint self.now member).received
            gathered.now) }
    {
        let alloc = *self.members.allocator();
        if self.down().has(member) {
            Receipts::of_member(
                alloc,
                gathered,
                member,
                self.checkpoint_of(member).received(),
            )
        } else {
            Ok(Receipts::none(alloc))
        }
    }

    /// Puts the records before any replay into the list, and in those of the members that are down the gathered table: in the
    /// last one the table itself, in the others copies.
    fn begin(
        &self,
        gathered: &mut Table,
        rebuilt: &mut Vec<MemberRec<B::State, B::Note>>,
    ) -> Result<(), AllocError>
        requires gathered { gathered.old ≡ recovery_table (knowledge self.now) }
        requires empty { rebuilt.old.items ≡ [] }
        ensures replaying { OnOk result (AreReplaying B.next self.now rebuilt.new.items) }
        ensures none { OnOk result (replayed_in self.now rebuilt.new.items ≡ 0) }
    {
        // the group is sound
        self.recoverable();
        for number in 0..self.size() {
            let member = Member::at(number);
            rebuilt.push(self.begin_one(member, gathered)?)?;
        }
        Ok(())
    }

    /// A member that is down begins at its checkpoint, with the table lent. The table is left while a later member is down.
    fn begin_one(
        &self,
        member: Member,
        gathered: &mut Table,
    ) -> Result<MemberRec<B::State, B::Note>, AllocError>
        requires { member < self.now.config.members }
        ensures begun { set.contains self.now.down member ≡ true
            → IfOk result (λ begun. begun ≡ record
            (member_checkpoint self.now member) { table = gathered.old }) }
        ensures left { (p : ℕ) → member < p → set.contains self.now.down p ≡ true → gathered.new ≡ gathered.old }
    {
        if self.down().has(member) {
            let table = self.table_for(member, gathered)?;
            self.checkpoint_of(member).copy_with(table)
        } else {
            let alloc = *self.members.allocator();
            let first = B::initial(member, self.size());
            Ok(MemberRec::blank(alloc, self.config().f(), first))
        }
    }

    /// A table equal to the one lent: a copy while a later member is down, which needs it too, and else the table itself.
    fn table_for(&self, member: Member, gathered: &mut Table) -> Result<Table, AllocError>
        ensures table { IfOk result (λ table. table ≡ gathered.old) }
        ensures left { (p : ℕ) → member < p → set.contains self.now.down p ≡ true → gathered.new ≡ gathered.old }
    {
        if self.is_last_down(member) {
            let none = Table::for_limit(*self.members.allocator(), self.config().f());
            Ok(mem::replace(gathered, none))
        } else {
            gathered.copy()
        }
    }

    fn is_last_down(&self, member: Member) -> bool
        ensures { result ≡ true → (p : ℕ) → member < p → set.contains self.now.down p ≡ false }
    {
        let down = self.down();
        for number in member.number() + 1..self.size() {
            if down.has(Member::at(number)) {
                return false;
            }
        }
        true
    }

    /// Rounds of replay, until in one of them no member that is down has a receipt to replay. The answer is how many were replayed.
    fn replay_all(
        &self,
        receipts: &Vec<Receipts>,
        rebuilt: &mut Vec<MemberRec<B::State, B::Note>>,
    ) -> Result<u32, AllocError>
        requires numbered { AreByNumber self.now receipts.now.items }
        requires replaying { AreReplaying B.next self.now rebuilt.old.items }
        requires none { replayed_in self.now rebuilt.old.items ≡ 0 }
        ensures { IfOk result (IsReady B.next self.now rebuilt.new.items) }
    {
        // the group is sound
        self.recoverable();
        let mut replayed = 0;
        'rounds: loop {
            let more = self.replay_round(receipts, rebuilt)?;
            if more == 0 {
                return Ok(replayed);
            }
            replayed += more;
        }
    }

    /// Each member that is down tries to replay its next receipt, and the answer is how many did.
    fn replay_round(
        &self,
        receipts: &Vec<Receipts>,
        rebuilt: &mut Vec<MemberRec<B::State, B::Note>>,
    ) -> Result<u32, AllocError>
        requires numbered { AreByNumber self.now receipts.now.items }
        requires replaying { AreReplaying B.next self.now rebuilt.old.items }
        ensures { IfOk result (Rounds B.next self.now self.now.config.members rebuilt.old.items rebuilt.new.items) }
    {
        // the group is sound
        self.recoverable();
        let mut replayed = 0;
        for number in 0..self.size() {
            let member = Member::at(number);
            if self.down().has(member) {
                replayed += u32::from(self.replay_next(receipts, member, rebuilt)?);
            }
        }
        Ok(replayed)
    }

    fn replay_next(
        &self,
        receipts: &Vec<Receipts>,
        member: Member,
        rebuilt: &mut Vec<MemberRec<B::State, B::Note>>,
    ) -> Result<bool, AllocError>
        requires numbered { AreByNumber self.now receipts.now.items }
        requires down { set.contains self.now.down member ≡ true }
        requires replaying { AreReplaying B.next self.now rebuilt.old.items }
        ensures { IfOk result (λ moved. Tries B.next self.now member rebuilt.old.items rebuilt.new.items moved) }
    {
        let Some((determinant, note)) = self.next_replay(receipts, member, rebuilt) else {
            return Ok(false);
        };
        let record = &mut rebuilt[usize::from(member.number())];
        record.replay_one::<B>(member, self.size(), &determinant, note)?;
        Ok(true)
    }

    fn next_replay(
        &self,
        receipts: &Vec<Receipts>,
        member: Member,
        rebuilt: &Vec<MemberRec<B::State, B::Note>>,
    ) -> Option<(Determinant, B::Note)>
        requires numbered { AreByNumber self.now receipts.now.items }
        requires down { set.contains self.now.down member ≡ true }
        requires replaying { IsReplaying B.next self.now rebuilt.now.items }
        ensures found { IfSome result (λ next. found member
            ((slice_index_or rebuilt.now.items member (blank self.now.outside)).received + 1)
            (recovery_table (knowledge self.now)) ≡ Some next.0) }
        ensures sent { IfSome result (λ next. logged_note (working self.now rebuilt.now.items next.0.from).log
            next.0.ssn ≡ Some next.1) }
        ensures waits { IfNone result (IsWaiting self.now rebuilt.now.items member) }
        ensures sound { IsSound B.next self.now }
    {
        // the group is sound
        self.recoverable();
        let place = usize::from(member.number());
        let rsn = rebuilt[place].received() + 1;
        let Some(determinant) = receipts[place].determinant(rsn) else {
            return None;
        };
        let sender = self.working(rebuilt.as_slice(), determinant.from);
        let Some(note) = sender.log_note(determinant.ssn) else {
            return None;
        };
        Some((determinant, note))
    }

    pub(crate) fn working<'a>(
        &'a self,
        rebuilt: &'a [MemberRec<B::State, B::Note>],
        member: Member,
    ) -> &'a MemberRec<B::State, B::Note>
        requires size { length rebuilt.now ≡ self.now.config.members }
        requires member { member < self.now.config.members }
        ensures { result.now ≡ working self.now rebuilt.now member }
    {
        if self.down().has(member) {
            &rebuilt[usize::from(member.number())]
        } else {
            self.record(member)
        }
    }
}
