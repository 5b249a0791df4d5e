//! Where the members' next entries stand in a list in which those of different members are mixed.

ghost use Rattle.std.specs.Prelude.{◌≡◌, ◌<◌, ◌≤◌, ℕ, length, slice_index_or};
ghost use Rattle.fbl_runs.specs.Entries.{entry_member};
ghost use Rattle.fbl_order.specs.Cursors.{IsFirstFrom, IsLeastGiven};

use fbl_runs::Entry;
use fbl_trace::Member;

/// The place of the member's first entry at `place` or later: past the last where it has none. It looks at no entry behind that place.
pub(crate) fn next_of(entries: &[Entry], member: Member, place: usize) -> usize
    requires { place ≤ length entries.now }
    ensures { IsFirstFrom entry_member entries.now place member result }
{
    for next in place..entries.len() {
        if entries[next].member() == member {
            return next;
        }
    }
    entries.len()
}

/// For each member's number the place of its first entry: past the last where it has none. The time taken is linear in the entries.
pub(crate) fn firsts_of(entries: &[Entry]) -> [usize; 16]
    ensures firsts { (q : ℕ) → IsFirstFrom entry_member entries.now 0 q (slice_index_or result q (length entries.now)) }
    ensures room { length result ≡ 16 }
{
    let mut firsts = [entries.len(); 16];
    for place in (0..entries.len()).rev() {
        firsts[entries[place].member().number() as usize] = place;
    }
    firsts
}

/// The least of the cursors before the end at which something may come. It asks nothing of a cursor behind one that it found before.
pub(crate) fn least_cursor<F: Fn(usize) -> bool>(
    cursors: [usize; 16],
    end: usize,
    may_come: F,
) -> Option<usize>
    requires { (place : ℕ) → place < end → F.pre may_come place }
    ensures { IsLeastGiven (F.post may_come) cursors end result }
{
    let mut least = end;
    for cursor in cursors {
        if cursor < least && may_come(cursor) {
            least = cursor;
        }
    }
    if least < end { Some(least) } else { None }
}
