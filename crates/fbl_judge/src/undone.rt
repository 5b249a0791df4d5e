//! Receipts that a restart undid and on which some member still depends at the run's end.

ghost use Rattle.std.specs.Prelude.{◌≡◌, ◌<◌, ◌↔◌, ℕ, true, IfOk, length};
ghost use Rattle.std.specs.FinSet as set;
ghost use Rattle.fbl_runs.specs.Clocks.{StandsAt};
ghost use Rattle.fbl_runs.specs.HappenedBefore.{Position};
ghost use Rattle.fbl_judge.specs.Undone.{IsOrphanOf, SaysUndone};

use crate::pasts::Pasts;
use fbl_trace::{Determinant, MemberSet};
use std::alloc::{AllocError, Global};

/// A receipt that a restart undid, while some member depends on it at the run's end: the recovery left orphans.
#[derive(Clone, Copy, PartialEq, Eq, Debug)]
pub struct UndoneReceipt {
    /// Its place, from 0.
    pub place: usize,
    /// What names it.
    pub determinant: Determinant,
    /// The place of the restart.
    pub at: usize,
    /// The members outside the strike set that depend on it at the end. There is one at least.
    pub orphans: MemberSet,
}

/// The members outside the strike set that depend at the run's end on the receipt at the place.
fn orphans_of(pasts: &Pasts<'_>, place: usize) -> MemberSet
    requires { place < length pasts.now.entries }
    ensures { (i : Position) → StandsAt pasts.now.entries place i → (q : ℕ)
        → (set.contains result q ≡ true) ↔ IsOrphanOf pasts.now i q }
{
    let last = pasts.last();
    pasts.dependents(place, &last).without(pasts.run().strike())
}

/// The receipts that a restart undid and that leave orphans at the run's end, in the order of the entries. The time taken is that of the
/// entries times the members. `Err` comes only where there is no memory for the answer.
pub fn undone_receipts(alloc: Global, pasts: &Pasts<'_>) -> Result<Vec<UndoneReceipt>, AllocError>
    ensures { IfOk result (λ v. SaysUndone pasts.now 0 pasts.now.entries v.items) }
{
    let mut undone = Vec::new(alloc);
    for (place, entry) in pasts.entries().iter().enumerate() {
        if let Some(determinant) = entry.receipt() {
            if let Some(at) = pasts.index().link(place).undone {
                let orphans = orphans_of(pasts, place);
                if !orphans.is_empty() {
                    undone.push(UndoneReceipt {
                        place,
                        determinant,
                        at,
                        orphans,
                    })?;
                }
            }
        }
    }
    Ok(undone)
}
