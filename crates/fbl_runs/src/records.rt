//! Where a run has the holds and stores of each determinant.

ghost use Rattle.std.specs.Prelude.{◌<◌, ◌+◌, IfOk, OnOk, length};
ghost use Rattle.fbl_runs.specs.Records.{AreRecordPlaces, IsNextRecord, IsRecordAt};

use crate::entry::Entry;
use fbl_trace::Determinant;
use std::alloc::{AllocError, Global};
use std::collections::HashMap;
use std::hash::{BuildHasherDefault, FoldHasher};

/// The places of the holds and stores of each determinant.
#[derive(Drop)]
pub struct RecordPlaces {
    /// For each determinant that is held or stored, the place of the first hold or store of it.
    firsts: HashMap<Determinant, usize, BuildHasherDefault<FoldHasher>>,
    /// For each entry, at its place, that of the next hold or store of what it holds or stores.
    nexts: Vec<Option<usize>>,
}

impl RecordPlaces {
    /// Those of the entries, found by one pass from the last to the first. `Err` comes only where there is no memory for them.
    pub fn of(alloc: Global, entries: &[Entry]) -> Result<RecordPlaces, AllocError>
        ensures { IfOk result (AreRecordPlaces entries.now 0) }
    {
        let mut records = RecordPlaces {
            firsts: HashMap::new(alloc),
            nexts: vec![in alloc; None; entries.len()]?,
        };
        let mut place = entries.len();
        while place > 0 {
            place -= 1;
            records.add(entries, place)?;
        }
        Ok(records)
    }

    /// Takes in the entry at the place, before those behind it.
    fn add(&mut self, entries: &[Entry], place: usize) -> Result<(), AllocError>
        requires within { place < length entries.now }
        requires records { AreRecordPlaces entries.now (place + 1) self.old }
        ensures { OnOk result (AreRecordPlaces entries.now place self.new) }
    {
        if let Some(determinant) = entries[place].recorded() {
            let next = self.firsts.insert(determinant, place)?;
            self.nexts[place] = next;
        }
        Ok(())
    }

    /// The place of the first hold or store of the determinant.
    pub fn first(&self, determinant: &Determinant) -> Option<usize>
        ensures { (entries : _) → AreRecordPlaces entries 0 self.now → IsNextRecord entries determinant.now 0 result }
    {
        self.firsts.get(determinant).copied()
    }

    /// The place of the next hold or store of what the entry at the place holds or stores.
    pub fn next(&self, place: usize) -> Option<usize>
        requires { place < length self.now.nexts.items }
        ensures { (entries : _) (d : _) → AreRecordPlaces entries 0 self.now → IsRecordAt entries d place
            → IsNextRecord entries d (place + 1) result }
    {
        self.nexts[place]
    }
}
