//! The records with which members come back.

ghost use Rattle.std.specs.Prelude.{◌≡◌, ◌≤◌, length, slice_index_or, vec_len};
ghost use Rattle.std.specs.List.{filter};
ghost use Rattle.fbl_trace.specs.Events.{mark_of};
ghost use Rattle.fbl_member.specs.Members.{blank};
ghost use Rattle.fbl_law.specs.GroupSteps.{stays_by};
ghost use Rattle.fbl_group.specs.Strikes.{AreRecordsReplaced};

use fbl_member::MemberRec;
use fbl_table::{Receipts, Table};
use fbl_trace::{Behaviour, Event, Mark, Member, MemberSet};
use std::mem;

/// The records with which the members that are down come back, each at its member's number. Those of the others count for
/// nothing.
#[derive(Drop)]
pub(crate) struct Rebuilt<B: Behaviour> {
    pub(crate) down: MemberSet,
    pub(crate) records: Vec<MemberRec<B::State, B::Note>>,
    /// How many receipts they have beyond their checkpoints.
    pub(crate) replayed: u32,
    /// What the survivors and these checkpoints know, until the records have it.
    pub(crate) gathered: Table,
    /// Of each member that is down the receipts that this has beyond its checkpoint.
    pub(crate) receipts: Vec<Receipts>,
}

impl<B: Behaviour> Rebuilt<B> {
    pub(crate) fn put_back(&mut self, members: &mut Vec<MemberRec<B::State, B::Note>>, n: u8)
        requires members { vec_len members.old ≡ n }
        requires records { vec_len self.old.records ≡ n }
        requires few { n ≤ 16 }
        ensures { AreRecordsReplaced (B.next.initial 0 0) self.old.down
            (λ m. slice_index_or self.old.records.items m (blank (B.next.initial 0 0)))
            members.old.items members.new.items }
    {
        let down = self.down;
        let records = &mut self.records;
        for number in 0..n {
            let place = usize::from(number);
            if down.has(Member::at(number)) {
                mem::swap(&mut members[place], &mut records[place]);
            }
        }
    }

    /// Drops the events of the members that are down that come after their replay.
    pub(crate) fn cut(&self, trace: &mut Vec<Event<B::Note>>)
        ensures { trace.new.items ≡ filter (λ e. stays_by self.now.down
            (λ p. slice_index_or self.now.records.items p (blank (B.next.initial 0 0)))
            (mark_of e)) trace.old.items }
    {
        trace.retain(|event| self.stays(event));
    }

    fn stays(&self, event: &Event<B::Note>) -> bool
        ensures { result ≡ stays_by self.now.down
            (λ p. slice_index_or self.now.records.items p (blank (B.next.initial 0 0)))
            (mark_of event.now) }
    {
        match event.mark() {
            Mark::Send { from, ssn, .. } => !self.down.has(from)
                || ssn <= self.sent_and_received(from).0,
            Mark::Receipt { to, rsn, .. } => !self.down.has(to)
                || rsn <= self.sent_and_received(to).1,
        }
    }

    fn sent_and_received(&self, member: Member) -> (u32, u32)
        ensures sent { result.0 ≡ length (slice_index_or self.now.records.items member (blank (B.next.initial 0 0))).log }
        ensures received { result.1 ≡ (slice_index_or self.now.records.items member (blank (B.next.initial 0 0))).received }
    {
        match self.records.get(usize::from(member.number())) {
            Some(record) => (record.sent(), record.received()),
            None => (0, 0),
        }
    }
}
