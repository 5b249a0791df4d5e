//! A table of determinants, and what is passed on of it: the entries that few members are known to hold (family-based
//! logging: Alvisi, Hoppe and Marzullo 1993).

ghost use Rattle.std.specs.Prelude.{◌≡◌, ℕ, ◌+◌, ◌^◌, ◌<◌, ◌≤◌, ◌++◌, [], length, OnOk, OnErr, IfOk, IfSome, Some, true, false, slice_get, map, vec_len, vec_capacity};
ghost use Rattle.fbl_table.specs.Tables.{IsOnce, is_held, found, greatest_rsn, learned, noted, piggybacked, gathered, marked};

use crate::entry::Entry;
use crate::indexed::IndexedEntries;
use fbl_trace::{Determinant, Member, MemberSet};
use std::alloc::{AllocError, Global};
use std::marker::Model;

/// Determinants in the order in which they came, no two the same, each with the members that are known to hold it.
///
/// It keeps the places of the entries that at most `limit` members are known to hold. Where a call that takes memory
/// answers `Err`, there was too little of it, and the table is as it was.
#[derive(Drop)]
pub struct Table {
    entries: IndexedEntries,
}

impl Model for Table {
    ghost use Rattle.std.specs.Prelude.{List};
    ghost use Rattle.fbl_table.specs.declared.entry.Entry.{Entry};

    ghost Value = { List Entry };

    ghost use Rattle.std.specs.Coded.{codes, coded_ℕ, coded_list};
    ghost use Rattle.std.specs.Ordering.{nat_cmp};
    ghost use Rattle.std.specs.FinSet as set;
    ghost use Rattle.fbl_table.specs.contracts.entry.Entry as entry;

    ghost coded = { coded_list entry.the_row.coded };

    ghost use Rattle.fbl_table.specs.Indexed.{listed, IsIndexed};

    ghost view = { λ t. listed t.entries };

    ghost invariant = { λ t. IsIndexed t.entries };
}

impl Table {
    /// No entries, for a group of any size. The limit is 15: a group has at most 16 members, so at most 15 of them may
    /// be lost at once, and passing on is fast for each such number. It takes no memory.
    pub fn new(alloc: Global) -> Table
        ensures { result ≡ [] }
    {
        Table::for_limit(alloc, 15)
    }

    /// No entries. What at most `limit` members are known to hold is found fast: give the number of members that may be
    /// lost at once. It changes no answer, and takes no memory.
    pub fn for_limit(alloc: Global, limit: u8) -> Table
        ensures { result ≡ [] }
    {
        Table {
            entries: IndexedEntries::none(alloc, limit),
        }
    }

    /// How many entries there are.
    pub fn len(&self) -> usize
        ensures len { result ≡ length self.now }
        ensures unique { IsOnce self.now }
        ensures small { result < 2 ^ 63 }
    {
        self.entries.len()
    }

    /// Whether the determinant is among the entries.
    pub fn holds(&self, det: &Determinant) -> bool
        ensures { result ≡ is_held self.now det.now }
    {
        self.entries.holds(det)
    }

    /// The entry at this place, which is below `len`. Places count from 0.
    pub fn entry_at(&self, place: usize) -> Entry
        requires { place < length self.now }
        ensures { slice_get self.now place ≡ Some result }
    {
        self.entries.entry_at(place)
    }

    /// The greatest number of the member's receipts among the entries, or 0.
    pub fn last_rsn(&self, to: Member) -> u32
        ensures { result ≡ greatest_rsn to self.now }
    {
        let mut last = 0;
        for place in 0..self.len() {
            let entry = self.entry_at(place);
            let rsn = entry.rsn_of(to);
            if rsn > last {
                last = rsn;
            }
        }
        last
    }

    /// The determinant of the member's receipt with this number, the first if there are several.
    #[tactic(auto, using(crate::proofs::Common::drop_next))]
    pub fn find(&self, to: Member, rsn: u32) -> Option<Determinant>
        ensures { result ≡ found to rsn self.now }
    {
        for place in 0..self.len() {
            let entry = self.entry_at(place);
            if entry.is_of_receipt(to, rsn) {
                return Some(entry.det);
            }
        }
        None
    }

    /// Takes in what a message carried to the member: of each entry what is known is united with what the table knows,
    /// the member added, and new determinants go last, in the order given. After `Err` the table is unchanged.
    pub fn learn(&mut self, me: Member, carried: &[Entry]) -> Result<(), AllocError>
        ensures learned { OnOk result (self.new ≡ learned me self.old carried.now) }
        ensures unchanged { OnErr result (self.new ≡ self.old) }
    {
        self.entries.reserve(carried.len())?;
        self.entries.learn(me, carried);
        Ok(())
    }

    /// Adds the member's own new determinant, last, known to be held by the member alone. The table does not hold it yet.
    /// After `Err` the table is unchanged.
    pub fn note_own(&mut self, me: Member, det: Determinant) -> Result<(), AllocError>
        requires { is_held self.old det ≡ false }
        ensures noted { OnOk result (self.new ≡ noted me self.old det) }
        ensures unchanged { OnErr result (self.new ≡ self.old) }
    {
        self.learn_and_note(me, &[], det)
    }

    /// Takes in what a message carried to the member, and then the determinant of the message's receipt, as `learn` and
    /// `note_own` do in turn. Neither the table nor what was carried has that determinant yet. After `Err` neither is done.
    #[tactic(auto, using(crate::proofs::Adding::not_held_learned))]
    pub fn learn_and_note(
        &mut self,
        me: Member,
        carried: &[Entry],
        det: Determinant,
    ) -> Result<(), AllocError>
        requires table { is_held self.old det ≡ false }
        requires carried { is_held carried.now det ≡ false }
        ensures ok { OnOk result (self.new ≡ noted me (learned me self.old carried.now) det) }
        ensures unchanged { OnErr result (self.new ≡ self.old) }
    {
        self.entries.reserve(carried.len() + 1)?;
        self.entries.learn(me, carried);
        self.entries.note_own(me, det);
        Ok(())
    }

    /// The entries that at most `f` members are known to hold, in the table's order. `Err` comes only where there is no
    /// memory for the list.
    pub fn piggyback(&self, f: u8) -> Result<Vec<Entry>, AllocError>
        ensures { IfOk result (λ v. v.items ≡ piggybacked f self.now) }
    {
        let most = self.entries.at_most_open(f);
        let mut carried = Vec::with_capacity(self.entries.allocator(), most)?;
        self.piggyback_into(f, &mut carried);
        Ok(carried)
    }

    /// Puts the entries that at most `f` members are known to hold at the end of the list, which has room for them.
    pub fn piggyback_into(&self, f: u8, carried: &mut Vec<Entry>)
        requires { vec_len carried.old + length (piggybacked f self.now) ≤ vec_capacity carried.old }
        ensures { carried.new.items ≡ carried.old.items ++ piggybacked f self.now }
    {
        self.entries.piggyback_into(f, carried);
    }

    /// How many entries at most are passed on once the member has taken in these and its own: room enough for them.
    #[tactic(auto, using(crate::proofs::Indexing::open_receipt))]
    pub fn room_to_piggyback(&self, f: u8, carried: &[Entry]) -> usize
        ensures enough { (me : ℕ) (det : Determinant)
            → length (piggybacked f (noted me (learned me self.now carried.now) det)) ≤ result }
        ensures few { result ≤ length self.now + length carried.now + 1 }
    {
        self.entries.at_most_open(f) + carried.len() + 1
    }

    /// Takes in another table's entries: of each what is known is united, and new determinants go last, in the other's
    /// order. After `Err` the table is unchanged.
    ///
    /// Where there are no entries yet the table becomes a copy of the other, and no entry is sought.
    pub fn gather(&mut self, other: &Table) -> Result<(), AllocError>
        ensures gathered { OnOk result (self.new ≡ gathered self.old other.now) }
        ensures unchanged { OnErr result (self.new ≡ self.old) }
    {
        if self.len() == 0 && self.entries.limit() == other.entries.limit() {
            // `len` tells that no two of the other's determinants are the same
            let _len = other.len();
            *self = other.copy()?;
            return Ok(());
        }
        self.entries.gather(&other.entries)
    }

    /// Adds the members to those that are known to hold each determinant.
    pub fn mark_all(&mut self, members: MemberSet)
        ensures { self.new ≡ marked members self.old }
    {
        self.entries.mark_all(members);
    }

    /// An equal table, in the same allocator's memory. `Err` comes only where there is no memory for it.
    pub fn copy(&self) -> Result<Table, AllocError>
        ensures { IfOk result (λ t. t ≡ self.now) }
    {
        Ok(Table {
            entries: self.entries.copy()?,
        })
    }
}
