//! Where a run has the first receipt that each determinant names.

ghost use Rattle.std.specs.Prelude.{◌<◌, ◌+◌, IfOk, OnOk, length};
ghost use Rattle.fbl_runs.specs.Receipts.{AreReceiptPlaces, IsFirstReceipt};

use crate::entry::Entry;
use fbl_trace::Determinant;
use std::alloc::{AllocError, Global};
use std::collections::HashMap;
use std::hash::{BuildHasherDefault, FoldHasher};

/// The place of the first receipt that each determinant names.
#[derive(Drop)]
pub(crate) struct ReceiptPlaces {
    firsts: HashMap<Determinant, usize, BuildHasherDefault<FoldHasher>>,
}

impl ReceiptPlaces {
    /// Those of the entries, found by one pass from the last to the first.
    pub(crate) fn of(alloc: Global, entries: &[Entry]) -> Result<ReceiptPlaces, AllocError>
        ensures { IfOk result (AreReceiptPlaces entries.now 0) }
    {
        let mut receipts = ReceiptPlaces {
            firsts: HashMap::new(alloc),
        };
        let mut place = entries.len();
        while place > 0 {
            place -= 1;
            receipts.add(entries, place)?;
        }
        Ok(receipts)
    }

    /// Takes in the entry at the place, before those behind it.
    fn add(&mut self, entries: &[Entry], place: usize) -> Result<(), AllocError>
        requires within { place < length entries.now }
        requires receipts { AreReceiptPlaces entries.now (place + 1) self.old }
        ensures { OnOk result (AreReceiptPlaces entries.now place self.new) }
    {
        if let Some(determinant) = entries[place].receipt() {
            self.firsts.insert(determinant, place)?;
        }
        Ok(())
    }

    /// The place of the first receipt that the determinant names.
    pub(crate) fn first(&self, determinant: &Determinant) -> Option<usize>
        ensures { (entries : _) → AreReceiptPlaces entries 0 self.now → IsFirstReceipt entries determinant.now result }
    {
        self.firsts.get(determinant).copied()
    }
}
