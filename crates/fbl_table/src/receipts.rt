//! One member's receipts, by their numbers.

ghost use Rattle.std.specs.Prelude.{◌≡◌, ℕ, ◌==◌, ◌&&◌, nat_lt, [], Some, None, IfOk, OnOk, if◌then◌else◌};
ghost use Rattle.std.specs.Option.{option_or};
ghost use Rattle.fbl_table.specs.Receipts.{receipt_at, IsByNumber};

use crate::table::Table;
use fbl_trace::{Determinant, Member};
use std::alloc::{AllocError, Global};
use std::marker::Model;

/// The determinants of one member's receipts, each at the place of its receipt number, where one is found at once.
#[derive(Drop)]
pub struct Receipts {
    places: Vec<Option<Determinant>>,
}

impl Model for Receipts {
    ghost use Rattle.std.specs.Prelude.{List, Option};
    ghost use Rattle.fbl_trace.specs.declared.trace.Determinant.{Determinant};

    ghost Value = { List (Option Determinant) };

    ghost use Rattle.std.specs.Coded.{coded_list, coded_option};
    ghost use Rattle.fbl_trace.specs.contracts.trace.Determinant as determinant;

    ghost coded = { coded_list (coded_option determinant.the_row.coded) };

    ghost view = { λ r. r.places.items };
}

impl Receipts {
    /// No receipts. It takes no memory.
    pub fn none(alloc: Global) -> Receipts
        ensures { result ≡ [] }
    {
        Receipts {
            places: Vec::new(alloc),
        }
    }

    /// The member's receipts beyond its first `count` that the table has, of several with one number the first. It goes over
    /// the table once, and takes memory for each number up to the greatest. `Err` comes only where there is no memory for them.
    pub fn of_member(
        alloc: Global,
        table: &Table,
        member: Member,
        count: u32,
    ) -> Result<Receipts, AllocError>
        ensures { IfOk result (IsByNumber member count table.now) }
    {
        let mut places = Vec::new(alloc);
        for place in 0..table.len() {
            let entry = table.entry_at(place);
            if is_beyond(entry.det, member, count) {
                put_first(&mut places, entry.det)?;
            }
        }
        Ok(Receipts { places })
    }

    /// The determinant of the receipt with this number, if there is one.
    pub fn determinant(&self, rsn: u32) -> Option<Determinant>
        ensures { result ≡ receipt_at self.now rsn }
    {
        match self.places.get(rsn as usize) {
            Some(determinant) => *determinant,
            None => None,
        }
    }
}

/// Whether the determinant is of one of the member's receipts beyond its first `count`.
fn is_beyond(determinant: Determinant, member: Member, count: u32) -> bool
    ensures { result ≡ ((determinant.to == member) && nat_lt count determinant.rsn) }
{
    determinant.to == member && count < determinant.rsn
}

/// Puts the determinant at the place of its receipt number, unless there is one already.
fn put_first(
    places: &mut Vec<Option<Determinant>>,
    determinant: Determinant,
) -> Result<(), AllocError>
    ensures { OnOk result
        ((rsn : ℕ)
        → receipt_at places.new.items rsn
        ≡ option_or (receipt_at places.old.items rsn)
        (if determinant.rsn == rsn then Some determinant else None)) }
{
    let place = determinant.rsn as usize;
    if places.len() <= place {
        places.resize(place + 1, None)?;
    }
    places[place] = places[place].or(Some(determinant));
    Ok(())
}
