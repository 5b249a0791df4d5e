//! The audit of a run: what the loss of the strike set does at its last moment.

ghost use Rattle.std.specs.Prelude.{◌≡◌, ◌≤◌, ◌↔◌, ℕ, true, IfOk, length};
ghost use Rattle.fbl_runs.specs.Clocks.{StandsAt, cut_of};
ghost use Rattle.fbl_runs.specs.Entries.{log_of};
ghost use Rattle.fbl_runs.specs.HappenedBefore.{Position};
ghost use Rattle.fbl_runs.specs.Logs.{run_of};
ghost use Rattle.fbl_runs.specs.Runs.{LosesReceiptAt};
ghost use Rattle.fbl_judge.specs.Audits.{AreNamed, IsAudit, IsNamedBy, IsFirstCause, IsFirstOnAny};

use crate::named::first_dependent_place;
use crate::pasts::Pasts;
use crate::recorded::recorded_at;
use fbl_runs::Clock;
use fbl_trace::{Determinant, Member, MemberSet};
use std::alloc::{AllocError, Global};

/// A receipt that is lost.
#[derive(Clone, Copy, PartialEq, Eq, Debug)]
pub struct LostReceipt {
    /// Its place, from 0.
    pub place: usize,
    /// What names it.
    pub determinant: Determinant,
}

/// What the loss of the strike set does at the last moment of a run.
#[derive(Drop)]
pub struct Audit {
    /// The lost receipts, in the order of the entries: those that stand, are not on stable storage, and that nobody outside the strike set
    /// holds.
    pub lost: Vec<LostReceipt>,
    /// The members outside the strike set that depend on one of these.
    pub orphans: MemberSet,
}

/// Whether the loss of the strike set loses the receipt at the clock's cut.
fn loses(pasts: &Pasts<'_>, receipt: &LostReceipt, moment: &Clock) -> bool
    requires { (i : Position) × IsNamedBy pasts.now i receipt.now }
    ensures { (i : Position) → StandsAt pasts.now.entries receipt.now.place i
        → (result ≡ true) ↔ LosesReceiptAt (run_of pasts.now) (cut_of moment.now) pasts.now.strike i }
{
    if !pasts.stands(receipt.place, moment) {
        return false;
    }
    let recorded = recorded_at(pasts, &receipt.determinant, moment);
    !recorded.is_stored && recorded.holders.without(pasts.run().strike()).is_empty()
}

/// The audit of the run's last moment. The time taken is that of the entries times the members. `Err` comes only where there is no memory
/// for the answer.
pub fn audit_of(alloc: Global, pasts: &Pasts<'_>) -> Result<Audit, AllocError>
    ensures { IfOk result (IsAudit pasts.now) }
{
    let last = pasts.last();
    let mut lost = Vec::new(alloc);
    let mut dependents = MemberSet::empty();
    for (place, entry) in pasts.entries().iter().enumerate() {
        if let Some(determinant) = entry.receipt() {
            let receipt = LostReceipt { place, determinant };
            if loses(pasts, &receipt, &last) {
                lost.push(receipt)?;
                dependents = dependents.union(pasts.dependents(place, &last));
            }
        }
    }
    let orphans = dependents.without(pasts.run().strike());
    Ok(Audit { lost, orphans })
}

/// The place of the member's first entry that stands at the clock's cut and depends on one of these receipts.
pub fn first_on_any(
    pasts: &Pasts<'_>,
    lost: &[LostReceipt],
    member: Member,
    moment: &Clock,
) -> Option<usize>
    requires { AreNamed pasts.now lost.now }
    ensures { IsFirstOnAny pasts.now (cut_of moment.now) lost.now member result }
{
    let mut first: Option<usize> = None;
    for receipt in lost {
        if let Some(place) = first_dependent_place(pasts, receipt.place, member, moment) {
            first = Some(match first {
                Some(before) => before.min(place),
                None => place,
            });
        }
    }
    first
}

/// The first of these receipts on which the member depends at the clock's cut.
pub fn first_cause(
    pasts: &Pasts<'_>,
    lost: &[LostReceipt],
    member: Member,
    moment: &Clock,
) -> Option<LostReceipt>
    requires { AreNamed pasts.now lost.now }
    ensures { IsFirstCause pasts.now (cut_of moment.now) lost.now member result }
{
    for receipt in lost {
        if first_dependent_place(pasts, receipt.place, member, moment).is_some() {
            return Some(*receipt);
        }
    }
    None
}
