//! Where the line of a moment crosses the members' lines.

ghost use Rattle.std.specs.Prelude.{◌≡◌, ◌<◌, ◌+◌, ◌≤◌, ℕ, length};
ghost use Rattle.fbl_runs.specs.Entries.{log_of};
ghost use Rattle.fbl_runs.specs.Clocks.{cut_of};
ghost use Rattle.fbl_pictures.specs.Crossings.{AreCrossings, HasPassed, IsCrossing};

use crate::run::columns::Columns;
use fbl_runs::{Clock, Entry};
use fbl_trace::Member;

/// What a pass over entries knows of a cut of them.
#[derive(Drop)]
struct Crossings {
    /// For each member's number, how many of its entries it has seen.
    counts: [usize; 16],
    /// The place behind the last entry that has come.
    end: usize,
    /// For each member, the place of its first entry that has not come.
    beyond: Columns,
}

impl Crossings {
    fn new() -> Crossings
        ensures { (entries : _) → (cut : _) → HasPassed entries cut 0 result }
    {
        Crossings {
            counts: [0; 16],
            end: 0,
            beyond: Columns::none(),
        }
    }

    /// Takes in the entry at the place, the next one.
    fn add(&mut self, entries: &[Entry], cut: &Clock, place: usize)
        requires passed { HasPassed entries.now (cut_of cut.now) place self.old }
        requires within { place < length entries.now }
        ensures { HasPassed entries.now (cut_of cut.now) (place + 1) self.new }
    {
        let member = entries[place].member();
        let number = member.number() as usize;
        if self.counts[number] < cut.count(member) {
            self.end = place + 1;
        } else if self.beyond.get(member.number()).is_none() {
            self.beyond.put(member, Some(place));
        }
        self.counts[number] += 1;
    }

    /// The column before which the moment crosses the line of the member with this number.
    fn crossing(&self, entries: &[Entry], cut: &Clock, number: u8) -> usize
        requires member { number < 16 }
        requires within { cut_of cut.now number ≤ length (log_of entries.now number) }
        requires passed { HasPassed entries.now (cut_of cut.now) (length entries.now) self.now }
        ensures { IsCrossing entries.now (cut_of cut.now) self.now.end number result }
    {
        // the contract alone names the entries and the cut
        let (_entries, _cut) = (entries, cut);
        match self.beyond.get(number) {
            Some(place) => place.min(self.end),
            None => self.end,
        }
    }
}

/// The columns before which the moment of the cut crosses the lines of so many members: behind all that has come, unless an entry of the
/// member that has not come stands before that.
pub(crate) fn moment_columns(members: u8, entries: &[Entry], cut: &Clock) -> Columns
    requires members { members ≤ 16 }
    requires within { (q : ℕ) → cut_of cut.now q ≤ length (log_of entries.now q) }
    ensures { AreCrossings members entries.now (cut_of cut.now) result }
{
    let mut pass = Crossings::new();
    for place in 0..entries.len() {
        pass.add(entries, cut, place);
    }
    let mut columns = Columns::none();
    for number in 0..members {
        let crossing = pass.crossing(entries, cut, number);
        columns.put(Member::at(number), Some(crossing));
    }
    columns
}
