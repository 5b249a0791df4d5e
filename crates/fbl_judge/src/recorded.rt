//! Where a determinant is recorded at a moment.

ghost use Rattle.std.specs.Prelude.{ℕ, ◌≡◌, ◌<◌, ◌↔◌, ◌⊎◌, true, length};
ghost use Rattle.std.specs.FinSet as set;
ghost use Rattle.fbl_runs.specs.Clocks.{cut_of};
ghost use Rattle.fbl_runs.specs.Entries.{log_of};
ghost use Rattle.fbl_runs.specs.Moments.{HoldsAt, IsStoredAt};
ghost use Rattle.fbl_judge.specs.Recorded.{HoldsBy, StoresBy};

use crate::named::has_come;
use crate::pasts::Pasts;
use fbl_runs::{Clock, Entry};
use fbl_trace::{Determinant, MemberSet};

/// Where a determinant is recorded at a moment.
#[derive(Clone, Copy)]
pub struct RecordedAt {
    /// The members that hold it.
    pub holders: MemberSet,
    /// Whether it is on stable storage.
    pub is_stored: bool,
}

impl RecordedAt {
    /// Adds what the entry at the place records: its member, if it is a hold that stands at the clock's cut, or stable storage, if it is a
    /// store that has come.
    fn add(&mut self, pasts: &Pasts<'_>, place: usize, moment: &Clock)
        requires { place < length pasts.now.entries }
        ensures holders { (q : ℕ)
            → (set.contains self.new.holders q ≡ true)
            ↔ (set.contains self.old.holders q ≡ true) ⊎ HoldsBy pasts.now.entries (cut_of moment.now) q place }
        ensures stored { (self.new.is_stored ≡ true)
            ↔ (self.old.is_stored ≡ true) ⊎ StoresBy pasts.now.entries (cut_of moment.now) place }
    {
        let entry = &pasts.entries()[place];
        match *entry {
            Entry::Hold { holder, .. } => {
                if pasts.stands(place, moment) {
                    self.holders = self.holders.with(holder);
                }
            }
            Entry::Store { .. } => {
                if has_come(pasts, place, moment) {
                    self.is_stored = true;
                }
            }
            _ => {}
        }
    }
}

/// Where the determinant is recorded at the clock's cut, found by one pass over the holds and stores of it.
pub fn recorded_at(pasts: &Pasts<'_>, determinant: &Determinant, moment: &Clock) -> RecordedAt
    ensures holders { (q : ℕ)
        → (set.contains result.holders q ≡ true) ↔ HoldsAt (log_of pasts.now.entries) (cut_of moment.now) determinant.now q }
    ensures stored { (result.is_stored ≡ true) ↔ IsStoredAt (log_of pasts.now.entries) (cut_of moment.now) determinant.now }
{
    let mut recorded = RecordedAt {
        holders: MemberSet::empty(),
        is_stored: false,
    };
    let mut next = pasts.first_record(determinant);
    while let Some(place) = next {
        recorded.add(pasts, place, moment);
        next = pasts.next_record(place);
    }
    recorded
}
