//! What messages carry.

ghost use Rattle.std.specs.Prelude.{◌≡◌, [], IfOk, IfSome};

use fbl_table::Entry;
use std::alloc::{AllocError, Global};
use std::marker::Model;
use std::sync::Arc;

/// The entries that a message carries. The messages of a step carry the same ones, and share one list of them where there is
/// memory for that.
#[derive(Drop)]
pub struct Carried {
    storage: Storage,
}

/// A list of one message, or one that several messages share.
#[derive(Drop)]
enum Storage {
    Own(Vec<Entry>),
    Shared(Arc<Vec<Entry>>),
}

impl Model for Carried {
    ghost use Rattle.std.specs.Prelude.{List};
    ghost use Rattle.fbl_table.specs.declared.entry.Entry.{Entry};

    ghost Value = { List Entry };

    ghost use Rattle.std.specs.Coded.{coded_list};
    ghost use Rattle.fbl_table.specs.contracts.entry.Entry as entry;

    ghost coded = { coded_list entry.the_row.coded };

    ghost use Rattle.fbl_member.specs.Stored.{entries_of};

    ghost view = { λ c. entries_of c.storage };
}

impl Carried {
    /// The entries of one message alone. It takes no memory.
    pub fn own(entries: Vec<Entry>) -> Carried
        ensures { result ≡ entries.items }
    {
        Carried {
            storage: Storage::Own(entries),
        }
    }

    /// The entries.
    pub fn entries(&self) -> &[Entry]
        ensures { result.now ≡ self.now }
    {
        match &self.storage {
            Storage::Own(entries) => entries.as_slice(),
            Storage::Shared(entries) => entries.as_slice(),
        }
    }

    /// The same list for another message, if it can be shared: if it was made for that, and there was memory. It takes no
    /// memory.
    pub fn share(&self) -> Option<Carried>
        ensures { IfSome result (λ carried. carried ≡ self.now) }
    {
        match &self.storage {
            Storage::Own(_) => None,
            Storage::Shared(entries) => match Arc::try_clone(entries) {
                Ok(entries) => Some(Carried {
                    storage: Storage::Shared(entries),
                }),
                Err(_) => None,
            },
        }
    }

    /// No entries. It takes no memory.
    pub fn none(alloc: Global) -> Carried
        ensures { result ≡ [] }
    {
        Carried::own(Vec::new(alloc))
    }

    /// The entries for several messages to share. Where there is no memory for that, they are of one alone.
    pub fn for_several(entries: Vec<Entry>) -> Carried
        ensures { result ≡ entries.items }
    {
        let alloc = *entries.allocator();
        match Arc::new(alloc, entries) {
            Ok(entries) => Carried {
                storage: Storage::Shared(entries),
            },
            Err(failed) => Carried::own(failed.value),
        }
    }

    /// A copy of the list, for one message alone.
    fn copy(&self) -> Result<Carried, AllocError>
        ensures { IfOk result (λ carried. carried ≡ self.now) }
    {
        let copy = Vec::from_slice(*self.allocator(), self.entries())?;
        Ok(Carried::own(copy))
    }

    /// The allocator of the list.
    fn allocator(&self) -> &Global {
        match &self.storage {
            Storage::Own(entries) => entries.allocator(),
            Storage::Shared(entries) => entries.allocator(),
        }
    }

    /// The same entries for another message: the same list if it can be shared, and else a copy. `Err` comes only where there
    /// is no memory for one.
    pub fn another(&self) -> Result<Carried, AllocError>
        ensures { IfOk result (λ carried. carried ≡ self.now) }
    {
        match self.share() {
            Some(carried) => Ok(carried),
            None => self.copy(),
        }
    }
}
