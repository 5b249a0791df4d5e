//! A table's entries, with the places of those that few members are known to hold.

ghost use Rattle.std.specs.Prelude.{◌≡◌, ℕ, ◌+◌, ◌-◌, ◌^◌, ◌<◌, ◌≤◌, ◌++◌, [], ◌∷◌, take, drop, length, count_by, OnOk, OnErr, IfOk, IfSome, IfNone, Some, true, false, nat_le, slice_get, map, vec_len, vec_capacity, if◌then◌else◌};
ghost use Rattle.std.specs.FinSet as set;
ghost use Rattle.std.specs.Map.{values_of};
ghost use Rattle.indexmap.specs.Layout.{set_value_at};
ghost use Rattle.fbl_table.specs.Indexed.{open_at, listed, IsIndexed, room, KeepsIndex};
ghost use Rattle.fbl_table.specs.Tables.{HasInPlace, IsOnce, is_held, is_open, lacks, has_at, learned, noted, piggybacked, gathered, marked, added, entry_of};

use crate::entry::Entry;
use crate::likely::LikelyPlaces;
use fbl_trace::{Determinant, Member, MemberSet};
use indexmap::IndexMap;
use std::alloc::{AllocError, Global};
use std::hash::{BuildHasherDefault, FoldHasher};

/// Each determinant with the members that are known to hold it.
type Entries = IndexMap<Determinant, MemberSet, BuildHasherDefault<FoldHasher>>;

/// Entries in the order in which they came, no two of the same determinant, with the places of the open ones: those that at
/// most `limit` members are known to hold.
///
/// What adds entries has room for them: `reserve` makes it.
#[derive(Drop)]
pub(crate) struct IndexedEntries {
    entries: Entries,
    open_places: Vec<usize>,
    /// Whether an entry may have closed since the open places were last gone over. While none has, each of them is open.
    stale: bool,
    likely_places: LikelyPlaces,
    limit: u8,
}

impl IndexedEntries {
    /// No entries. It takes no memory.
    pub(crate) fn none(alloc: Global, limit: u8) -> IndexedEntries
        ensures entries { listed result ≡ [] }
        ensures indexed { IsIndexed result }
    {
        IndexedEntries {
            entries: IndexMap::new(alloc),
            open_places: Vec::new(alloc),
            stale: false,
            likely_places: LikelyPlaces::none(alloc),
            limit,
        }
    }

    /// The same entries with the same limit, in the same allocator's memory. `Err` comes only where there is no memory for
    /// them.
    pub(crate) fn copy(&self) -> Result<IndexedEntries, AllocError>
        requires { IsIndexed self.now }
        ensures entries { IfOk result (λ copy. listed copy ≡ listed self.now) }
        ensures limit { IfOk result (λ copy. copy.limit ≡ self.now.limit) }
        ensures indexed { IfOk result IsIndexed }
    {
        Ok(IndexedEntries {
            open_places: self.open_places.clone()?,
            likely_places: self.likely_places.copy()?,
            entries: self.entries.clone()?,
            stale: self.stale,
            limit: self.limit,
        })
    }

    /// Where the entries' memory comes from.
    pub(crate) fn allocator(&self) -> Global {
        *self.entries.allocator()
    }

    /// An entry is open where at most so many members are known to hold it.
    pub(crate) fn limit(&self) -> u8
        ensures { result ≡ self.now.limit }
    {
        self.limit
    }

    /// How many entries there are.
    #[tactic(auto, using(crate::proofs::Adding::keys_view))]
    pub(crate) fn len(&self) -> usize
        ensures len { result ≡ length (listed self.now) }
        ensures unique { IsOnce (listed self.now) }
        ensures small { result < 2 ^ 63 }
    {
        self.entries.len()
    }

    /// The entry at the place, if there is one.
    fn get(&self, place: usize) -> Option<Entry>
        ensures { result ≡ slice_get (listed self.now) place }
    {
        get_entry(&self.entries, place)
    }

    /// The entry at this place, which is below `len`.
    pub(crate) fn entry_at(&self, place: usize) -> Entry
        requires { place < length (listed self.now) }
        ensures { slice_get (listed self.now) place ≡ Some result }
    {
        self.get(place).unwrap()
    }

    /// Whether there is an entry of the determinant.
    #[tactic(auto, using(crate::proofs::Adding::held_at))]
    pub(crate) fn holds(&self, det: &Determinant) -> bool
        ensures { result ≡ is_held (listed self.now) det.now }
    {
        self.place_of(det).is_some()
    }

    /// The place of the determinant's entry, if there is one. The likely place is looked at before the hash.
    #[inline(always)]
    fn place_of(&self, det: &Determinant) -> Option<usize>
        ensures has { IfSome result (λ place. has_at (listed self.now) det.now place ≡ true) }
        ensures none { IfNone result (is_held (listed self.now) det.now ≡ false) }
    {
        match self.likely_place_of(det) {
            Some(place) => Some(place),
            None => self.place_by_hash(det),
        }
    }

    /// The place of the determinant's entry, if it is the likely one.
    #[inline(always)]
    fn likely_place_of(&self, det: &Determinant) -> Option<usize>
        ensures { IfSome result (λ place. has_at (listed self.now) det.now place ≡ true) }
    {
        let likely = self.likely_places.place(det);
        if self.is_at(det, likely) {
            Some(likely)
        } else {
            None
        }
    }

    /// The place of the determinant's entry, if there is one.
    #[inline(never)]
    #[tactic(auto, using(crate::proofs::Adding::has_found))]
    fn place_by_hash(&self, det: &Determinant) -> Option<usize>
        ensures has { IfSome result (λ place. has_at (listed self.now) det.now place ≡ true) }
        ensures none { IfNone result (is_held (listed self.now) det.now ≡ false) }
    {
        self.entries.get_index_of(det)
    }

    /// Whether the entry at the place is the determinant's.
    fn is_at(&self, det: &Determinant, place: usize) -> bool
        ensures { result ≡ has_at (listed self.now) det.now place }
    {
        match self.get(place) {
            Some(entry) => *det == entry.det,
            None => false,
        }
    }

    /// Makes room for so many entries more.
    pub(crate) fn reserve(&mut self, count: usize) -> Result<(), AllocError>
        ensures entries { listed self.new ≡ listed self.old }
        ensures kept { KeepsIndex self.old self.new }
        ensures ok { OnOk result (count ≤ room self.new) }
    {
        self.entries.reserve(count)?;
        self.open_places.reserve(count)
    }

    /// Takes in what a message carried to the member.
    pub(crate) fn learn(&mut self, me: Member, carried: &[Entry])
        requires { length carried.now ≤ room self.old }
        ensures entries { listed self.new ≡ learned me (listed self.old) carried.now }
        ensures indexed { IsIndexed self.old → IsIndexed self.new }
        ensures room { room self.old ≤ room self.new + length carried.now }
    {
        for entry in carried {
            self.add(&entry.det, entry.known.with(me));
        }
        self.prune();
    }

    /// Adds the member's own new determinant.
    #[tactic(auto, using(crate::proofs::Adding::added_new))]
    pub(crate) fn note_own(&mut self, me: Member, det: Determinant)
        requires new { is_held (listed self.old) det ≡ false }
        requires room { 0 < room self.old }
        ensures entries { listed self.new ≡ noted me (listed self.old) det }
        ensures indexed { IsIndexed self.old → IsIndexed self.new }
    {
        self.add_by_hash(&det, MemberSet::empty().with(me));
    }

    /// Takes in another table's entries. After `Err` there are the same entries.
    pub(crate) fn gather(&mut self, other: &IndexedEntries) -> Result<(), AllocError>
        ensures gathered { OnOk result (listed self.new ≡ gathered (listed self.old) (listed other.now)) }
        ensures unchanged { OnErr result (listed self.new ≡ listed self.old) }
        ensures kept { KeepsIndex self.old self.new }
    {
        let shared = self.shared_places(other);
        let lacking = self.lacking_beyond(other, shared);
        self.reserve(lacking)?;
        self.unite_shared(other, shared);
        for place in shared..other.len() {
            self.add_or_unite(other.entry_at(place));
        }
        self.prune();
        Ok(())
    }

    /// At how many places, from the first on, both have an entry of the same determinant.
    fn shared_places(&self, other: &IndexedEntries) -> usize
        ensures len { result ≤ length (listed other.now) }
        ensures same { HasInPlace result (listed self.now) (listed other.now) }
    {
        for place in 0..other.len() {
            let entry = other.entry_at(place);
            if !self.is_at(&entry.det, place) {
                return place;
            }
        }
        other.len()
    }

    /// How many of the other's determinants beyond the first places there may be no entry of: at least as many as there are.
    /// What is not at its likely place counts as lacking: to hash each new one here and once more when it is added would cost
    /// more than the room.
    fn lacking_beyond(&self, other: &IndexedEntries, shared: usize) -> usize
        ensures { count_by (lacks (listed self.now)) (drop shared (listed other.now)) ≤ result }
    {
        let mut lacking = 0;
        for place in shared..other.len() {
            let entry = other.entry_at(place);
            lacking += usize::from(self.likely_place_of(&entry.det).is_none());
        }
        lacking
    }

    /// Unites what is known of the determinants at the first places with what another knows, which has the same ones there.
    fn unite_shared(&mut self, other: &IndexedEntries, shared: usize)
        requires len { shared ≤ length (listed other.now) }
        requires same { HasInPlace shared (listed self.old) (listed other.now) }
        ensures entries { listed self.new ≡ gathered (listed self.old) (take shared (listed other.now)) }
        ensures kept { KeepsIndex self.old self.new }
        ensures room { room self.old ≤ room self.new }
    {
        for place in 0..shared {
            let entry = other.entry_at(place);
            self.unite(&entry.det, entry.known, place);
        }
    }

    /// Adds what is known of the determinant, with room for one entry more.
    #[inline(always)]
    #[tactic(auto, using(crate::proofs::Adding::held_at, crate::proofs::Adding::length_added_held))]
    fn add(&mut self, det: &Determinant, known: MemberSet)
        requires { 0 < room self.old }
        ensures entries { listed self.new ≡ added (listed self.old) (record { det = det.now; known = known }) }
        ensures indexed { IsIndexed self.old → IsIndexed self.new }
        ensures room { room self.old ≤ room self.new + 1 }
    {
        match self.likely_place_of(det) {
            Some(place) => self.unite(det, known, place),
            None => self.add_by_hash(det, known),
        }
    }

    /// Adds the entry, with room where its determinant is new. No room is taken where it is not.
    fn add_or_unite(&mut self, entry: Entry)
        requires { is_held (listed self.old) entry.det ≡ false → 0 < room self.old }
        ensures entries { listed self.new ≡ added (listed self.old) entry }
        ensures kept { KeepsIndex self.old self.new }
    {
        match self.place_of(&entry.det) {
            Some(place) => self.unite(&entry.det, entry.known, place),
            None => self.add_by_hash(&entry.det, entry.known),
        }
    }

    /// Unites what is known of the determinant, which has an entry at the place, with this. It is written only where more is
    /// known.
    #[inline(always)]
    fn unite(&mut self, det: &Determinant, known: MemberSet, place: usize)
        requires { has_at (listed self.old) det.now place ≡ true }
        ensures entries { listed self.new ≡ added (listed self.old) (record { det = det.now; known = known }) }
        ensures same { (d : Determinant) (at : ℕ) → has_at (listed self.new) d at ≡ has_at (listed self.old) d at }
        ensures kept { KeepsIndex self.old self.new }
        ensures room { room self.old ≤ room self.new }
    {
        // `len` says that no two of the determinants are the same
        let _distinct = self.entries.len();
        let before = self.entries[place];
        if known.without(before).is_empty() {
            return;
        }
        let united = before.union(known);
        self.stale |= closes(before, united, self.limit);
        self.put(place, before, united);
    }

    /// Writes that these members are known to hold the determinant at the place, where fewer were known before. Where the entry
    /// closes by it, the index is stale.
    #[inline(always)]
    fn put(&mut self, place: usize, before: MemberSet, known: MemberSet)
        requires before { slice_get (values_of self.old.entries.entries) place ≡ Some before }
        requires more { nat_le (set.len known) self.old.limit ≡ true → nat_le (set.len before) self.old.limit ≡ true }
        requires stale { self.old.stale ≡ false → nat_le (set.len before) self.old.limit ≡ true
            → nat_le (set.len known) self.old.limit ≡ true }
        ensures entries { self.new.entries.entries ≡ set_value_at self.old.entries.entries place known }
        ensures kept { KeepsIndex self.old self.new }
        ensures room { room self.old ≤ room self.new }
        ensures stale { self.new.stale ≡ self.old.stale }
        ensures limit { self.new.limit ≡ self.old.limit }
    {
        self.entries[place] = known;
    }

    /// Adds what is known of the determinant, with room for one entry more. It is looked for by its hash, once.
    #[inline(never)]
    fn add_by_hash(&mut self, det: &Determinant, known: MemberSet)
        requires { 0 < room self.old }
        ensures entries { listed self.new ≡ added (listed self.old) (record { det = det.now; known = known }) }
        ensures indexed { IsIndexed self.old → IsIndexed self.new }
        ensures room { room self.old ≤ room self.new + 1 }
    {
        // `len` says that no two of the determinants are the same
        let _distinct = self.entries.len();
        let (place, before) = self.entries.insert_full(*det, known).unwrap();
        match before {
            Some(before) => {
                let united = before.union(known);
                self.entries[place] = united;
                self.stale |= closes(before, united, self.limit);
            }
            None => {
                self.likely_places.keep(det, place);
                let entry = Entry { det: *det, known };
                push_place_if_open(&mut self.open_places, place, entry, self.limit);
            }
        }
    }

    /// Adds the members to those that are known to hold each determinant.
    #[tactic(auto, using(crate::proofs::Indexing::open_less, crate::proofs::Indexing::keeps_more))]
    pub(crate) fn mark_all(&mut self, members: MemberSet)
        ensures entries { listed self.new ≡ marked members (listed self.old) }
        ensures kept { KeepsIndex self.old self.new }
    {
        self.stale = true;
        for place in 0..self.entries.len() {
            let before = self.entries[place];
            self.put(place, before, before.union(members));
        }
        self.prune();
    }

    /// Lets go of the places of entries that more than `limit` members are known to hold. Where none has closed there is none,
    /// and no place is looked at.
    fn prune(&mut self)
        ensures entries { listed self.new ≡ listed self.old }
        ensures kept { KeepsIndex self.old self.new }
    {
        if self.stale {
            let entries = &self.entries;
            let limit = self.limit;
            self.open_places
                .retain(|place| is_open(entries, *place, limit));
            self.stale = false;
        }
    }

    /// A number of entries that those that at most `f` members are known to hold don't exceed.
    pub(crate) fn at_most_open(&self, f: u8) -> usize
        requires { IsIndexed self.now }
        ensures enough { length (piggybacked f (listed self.now)) ≤ result }
        ensures few { result ≤ length (listed self.now) }
        ensures small { result < 2 ^ 63 }
    {
        if f == self.limit {
            self.open_places.len().min(self.len())
        } else {
            self.len()
        }
    }

    /// Puts the entries that at most `f` members are known to hold at the end of the list, which has room for them.
    pub(crate) fn piggyback_into(&self, f: u8, carried: &mut Vec<Entry>)
        requires indexed { IsIndexed self.now }
        requires room { vec_len carried.old + length (piggybacked f (listed self.now)) ≤ vec_capacity carried.old }
        ensures { carried.new.items ≡ carried.old.items ++ piggybacked f (listed self.now) }
    {
        if f == self.limit && !self.stale {
            self.push_open(carried);
        } else {
            self.push_all(f, carried);
        }
    }

    /// Does what `piggyback_into` does, over all entries.
    fn push_all(&self, f: u8, carried: &mut Vec<Entry>)
        requires { vec_len carried.old + length (piggybacked f (listed self.now)) ≤ vec_capacity carried.old }
        ensures { carried.new.items ≡ carried.old.items ++ piggybacked f (listed self.now) }
    {
        for place in 0..self.len() {
            push_if_open(carried, self.entry_at(place), f);
        }
    }

    /// Does what `piggyback_into` does for `limit`: the entries at the open places are those that it puts there.
    fn push_open(&self, carried: &mut Vec<Entry>)
        requires indexed { IsIndexed self.now }
        requires exact { self.now.stale ≡ false }
        requires room { vec_len carried.old + length (piggybacked self.now.limit (listed self.now)) ≤ vec_capacity carried.old }
        ensures { carried.new.items ≡ carried.old.items ++ piggybacked self.now.limit (listed self.now) }
    {
        for place in &self.open_places {
            carried.push_reserved(self.entry_at(*place));
        }
    }
}

/// Puts the entry at the end of the list, which has room for it, if at most `f` members are known to hold it.
fn push_if_open(carried: &mut Vec<Entry>, entry: Entry, f: u8)
    requires { vec_len carried.old + length (piggybacked f (entry ∷ [])) ≤ vec_capacity carried.old }
    ensures items { carried.new.items ≡ carried.old.items ++ piggybacked f (entry ∷ []) }
    ensures room { vec_capacity carried.new ≡ vec_capacity carried.old }
{
    if entry.is_open(f) {
        carried.push_reserved(entry);
    }
}

/// Puts the entry's place at the end of the list, which has room for it, if at most `limit` members are known to hold it.
fn push_place_if_open(places: &mut Vec<usize>, place: usize, entry: Entry, limit: u8)
    requires { vec_len places.old < vec_capacity places.old }
    ensures items { places.new.items ≡ places.old.items ++ (if is_open limit entry then place ∷ [] else []) }
    ensures room { vec_capacity places.old - vec_len places.old ≤ vec_capacity places.new - vec_len places.new + 1 }
{
    if entry.is_open(limit) {
        places.push_reserved(place);
    }
}

/// Whether more than `limit` members are known now, where at most so many were before.
fn closes(before: MemberSet, now: MemberSet, limit: u8) -> bool
    ensures { result ≡ false → nat_le (set.len before) limit ≡ true → nat_le (set.len now) limit ≡ true }
{
    let limit = u32::from(limit);
    before.count() <= limit && limit < now.count()
}

/// Whether at most `limit` members are known to hold the determinant at the place.
fn is_open(entries: &Entries, place: usize, limit: u8) -> bool
    ensures { result ≡ open_at limit (map entry_of entries.now.entries) place }
{
    match get_entry(entries, place) {
        Some(entry) => entry.is_open(limit),
        None => false,
    }
}

/// The entry at the place, if there is one.
#[tactic(auto, using(crate::proofs::Common::slice_get_map))]
fn get_entry(entries: &Entries, place: usize) -> Option<Entry>
    ensures { result ≡ slice_get (map entry_of entries.now.entries) place }
{
    match entries.get_index(place) {
        Some((det, known)) => Some(Entry {
            det: *det,
            known: *known,
        }),
        None => None,
    }
}
