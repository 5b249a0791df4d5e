//! A column for each member, or none.

ghost use Rattle.std.specs.Prelude.{◌≡◌, ◌==◌, ◌<◌, ℕ, None, length, if◌then◌else◌};

use fbl_trace::Member;

/// For each member's number, a column or none.
#[derive(Clone, Copy)]
pub(crate) struct Columns {
    columns: [Option<usize>; 16],
    ghost room: { length columns ≡ 16 },
}

impl Columns {
    ghost use Rattle.fbl_pictures.specs.Columns.{column_in, has_come};

    /// No column for any member.
    pub(crate) fn none() -> Columns
        ensures { (q : ℕ) → column_in result q ≡ None }
    {
        Columns {
            columns: [None; 16],
        }
    }

    /// That of the member with this number.
    pub(crate) fn get(&self, number: u8) -> Option<usize>
        ensures { result ≡ column_in self.now number }
    {
        match self.columns.get(usize::from(number)) {
            Some(column) => *column,
            None => None,
        }
    }

    /// Whether the column at the place, which is the member's, is left of the member's column here: each is where it has none.
    pub(crate) fn has_come(&self, place: usize, member: Member) -> bool
        ensures { result ≡ has_come self.now place member }
    {
        match self.get(member.number()) {
            Some(column) => place < column,
            None => true,
        }
    }

    /// Sets that of the member, or that it has none.
    pub(crate) fn put(&mut self, member: Member, column: Option<usize>)
        ensures { (q : ℕ) → column_in self.new q ≡ (if q == member then column else column_in self.old q) }
    {
        self.columns[member.number() as usize] = column;
    }
}
