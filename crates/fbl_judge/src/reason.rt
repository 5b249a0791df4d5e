//! Why a receipt is unsafe where the run is judged, or lost at its end.

ghost use Rattle.std.specs.Prelude.{◌≡◌, ◌<◌, ◌≤◌, ℕ, IfOk, length, slice_index};
ghost use Rattle.std.specs.List.{All};
ghost use Rattle.fbl_runs.specs.Clocks.{StandsAt, cut_of};
ghost use Rattle.fbl_runs.specs.Entries.{log_of};
ghost use Rattle.fbl_runs.specs.HappenedBefore.{Position};
ghost use Rattle.fbl_judge.specs.Audits.{AreNamed, IsNamedBy};
ghost use Rattle.fbl_judge.specs.Paths.{DependsIn};
ghost use Rattle.fbl_judge.specs.Reasons.{AreLossReasons, AreUnsafeReasons, IsLossReason, IsNextPlace, IsReasonAt, IsUnsafeReason};
ghost use Rattle.fbl_judge.specs.Unsafe.{IsSaidOf};

use crate::audit::LostReceipt;
use crate::check::UnsafeReceipt;
use crate::named::has_come;
use crate::pasts::Pasts;
use crate::paths::{OrphanPath, paths_to};
use crate::recorded::recorded_at;
use fbl_runs::Clock;
use fbl_trace::{Determinant, Member, MemberSet};
use std::alloc::{AllocError, Global};

/// Why a receipt is unsafe or lost. Places are those among all entries, from 0.
#[derive(Drop)]
pub struct Reason {
    /// The receipt's place.
    pub place: usize,
    /// What names the receipt.
    pub determinant: Determinant,
    /// The place of the entry by which the moment is named, or none at the run's end.
    pub at: Option<usize>,
    /// The members whose loss loses it.
    pub strike: MemberSet,
    /// The moment: how many of its first entries each member has, by the member's number.
    pub cut: [usize; 16],
    /// The members that hold its determinant there, struck or not.
    pub holders: MemberSet,
    /// The place of the first hold or store of it that has not come there, if there is one.
    pub next: Option<usize>,
    /// A path from it to each member that it leaves as an orphan at the end, or to the one of whom the moment is the least.
    pub paths: Vec<OrphanPath>,
}

/// How many of its first entries each member has at the clock's cut.
fn counts_at(moment: &Clock) -> [usize; 16]
    ensures room { length result ≡ 16 }
    ensures counts { (q : ℕ) → q < 16 → slice_index result q ≡ cut_of moment.now q }
{
    let mut counts = [0; 16];
    for number in 0..16u8 {
        counts[number as usize] = moment.count(Member::at(number));
    }
    counts
}

/// The place of the first hold or store of the determinant that has not come at the clock's cut.
fn next_place(pasts: &Pasts<'_>, determinant: &Determinant, moment: &Clock) -> Option<usize>
    ensures { IsNextPlace pasts.now.entries (cut_of moment.now) determinant.now result }
{
    let mut next = pasts.first_record(determinant);
    while let Some(place) = next {
        if !has_come(pasts, place, moment) {
            return Some(place);
        }
        next = pasts.next_record(place);
    }
    None
}

/// Why the receipt's strike loses it at its moment, with paths to those of the shown members that depend on it there.
fn reason_at(
    alloc: Global,
    pasts: &Pasts<'_>,
    receipt: &UnsafeReceipt,
) -> Result<Reason, AllocError>
    requires place { receipt.now.place < length pasts.now.entries }
    requires within { (q : ℕ) → cut_of receipt.now.moment q ≤ length (log_of pasts.now.entries q) }
    ensures receipt { IfOk result
        (λ reason. (reason.place ≡ receipt.now.place) × (reason.determinant ≡ receipt.now.determinant)
        × (reason.at ≡ receipt.now.at)
        × (reason.strike ≡ receipt.now.strike)) }
    ensures reason { (i : Position) → StandsAt pasts.now.entries receipt.now.place i
        → IfOk result (IsReasonAt pasts.now i (cut_of receipt.now.moment)
        (DependsIn pasts.now i (cut_of receipt.now.moment) receipt.now.shown)) }
{
    let UnsafeReceipt {
        place,
        determinant,
        at,
        strike,
        ..
    } = *receipt;
    let moment = &receipt.moment;
    // the run obeys its rules: no entry is of a member above 15
    let _run = pasts.run();
    Ok(Reason {
        place,
        determinant,
        at,
        strike,
        cut: counts_at(moment),
        holders: recorded_at(pasts, &determinant, moment).holders,
        next: next_place(pasts, &determinant, moment),
        paths: paths_to(alloc, pasts, place, receipt.shown, moment)?,
    })
}

/// Why the receipt is unsafe, as `unsafe_receipts` says it. `Err` comes only where there is no memory for the paths.
fn unsafe_reason(
    alloc: Global,
    pasts: &Pasts<'_>,
    receipt: &UnsafeReceipt,
) -> Result<Reason, AllocError>
    requires { (i : Position) × IsSaidOf pasts.now i receipt.now }
    ensures { IfOk result (IsUnsafeReason pasts.now receipt.now) }
{
    reason_at(alloc, pasts, receipt)
}

/// Why each of these receipts is unsafe, as `unsafe_receipts` says them, in their order.
pub fn unsafe_reasons(
    alloc: Global,
    pasts: &Pasts<'_>,
    receipts: &[UnsafeReceipt],
) -> Result<Vec<Reason>, AllocError>
    requires { All (λ said. (i : Position) × IsSaidOf pasts.now i said) receipts.now }
    ensures { IfOk result (λ v. AreUnsafeReasons pasts.now receipts.now v.items) }
{
    let mut reasons = Vec::new(alloc);
    for receipt in receipts {
        reasons.push(unsafe_reason(alloc, pasts, receipt)?)?;
    }
    Ok(reasons)
}

/// Why the loss of the strike set loses the receipt at the run's end, if it does.
fn loss_reason(
    alloc: Global,
    pasts: &Pasts<'_>,
    receipt: &LostReceipt,
) -> Result<Reason, AllocError>
    requires { (i : Position) × IsNamedBy pasts.now i receipt.now }
    ensures { IfOk result (IsLossReason pasts.now receipt.now) }
{
    let LostReceipt { place, determinant } = *receipt;
    let moment = pasts.last();
    let strike = pasts.run().strike();
    let orphans = pasts.dependents(place, &moment).without(strike);
    let lost = UnsafeReceipt {
        place,
        determinant,
        at: None,
        moment,
        strike,
        orphans,
        shown: orphans,
    };
    reason_at(alloc, pasts, &lost)
}

/// Why each of these receipts is lost at the run's end, in their order.
pub fn loss_reasons(
    alloc: Global,
    pasts: &Pasts<'_>,
    lost: &[LostReceipt],
) -> Result<Vec<Reason>, AllocError>
    requires { AreNamed pasts.now lost.now }
    ensures { IfOk result (λ v. AreLossReasons pasts.now lost.now v.items) }
{
    let mut reasons = Vec::new(alloc);
    for receipt in lost {
        reasons.push(loss_reason(alloc, pasts, receipt)?)?;
    }
    Ok(reasons)
}
