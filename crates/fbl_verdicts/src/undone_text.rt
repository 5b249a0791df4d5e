//! Why restarts undid receipts and left orphans of them, in words for a person.

ghost use Rattle.std.specs.Prelude.{◌≡◌, ◌<◌, IfOk, length};
ghost use Rattle.fbl_judge.specs.Undone.{IsSaidUndone, SaysUndone};
ghost use Rattle.fbl_runs.specs.Clocks.{StandsAt, cut_of};
ghost use Rattle.fbl_runs.specs.Entries.{log_of};
ghost use Rattle.fbl_runs.specs.HappenedBefore.{Position};
ghost use Rattle.fbl_verdicts.specs.UndoneReasons.{AreUndoneReasons, IsCountAt, IsCountBeside, IsMomentOf, IsUndoneReason};

use crate::reason_text::write_path;
use fbl_judge::{OrphanPath, Pasts, UndoneReceipt, paths_to, recorded_at};
use fbl_runs::{Causality, Clock, Run, Sources};
use fbl_trace::{Determinant, Member, MemberSet};
use std::alloc::{AllocError, Global};
use std::fmt;

/// Why a restart undid a receipt and left orphans of it.
#[derive(Drop)]
pub struct UndoneReason {
    /// The receipt.
    pub receipt: UndoneReceipt,
    /// Whether its determinant was on stable storage when its member restarted.
    pub is_stored: bool,
    /// Who held its determinant then.
    pub holders: MemberSet,
    /// A path from it to each member that is an orphan of it at the end.
    pub paths: Vec<OrphanPath>,
}

/// How many of the member's entries, of which there are this many, did not happen after the one at the place.
fn count_beside(pasts: &Pasts<'_>, place: usize, member: Member, count: usize) -> usize
    requires place { place < length pasts.now.entries }
    requires count { count ≡ length (log_of pasts.now.entries member) }
    ensures { (r : Position) → StandsAt pasts.now.entries place r
        → IsCountBeside (log_of pasts.now.entries) r member result }
{
    let mut first = 0;
    let mut end = count;
    while first < end {
        let middle = first + (end - first) / 2;
        let other = pasts.index().place(member, middle);
        if pasts.precedes(Causality::HappenedBefore, place, other) {
            end = middle;
        } else {
            first = middle + 1;
        }
    }
    first
}

/// How many of the member's entries have come when the restart at the place comes, and all has come that did not happen after it.
fn count_at(pasts: &Pasts<'_>, restart: usize, member: Member) -> usize
    requires { restart < length pasts.now.entries }
    ensures { (r : Position) → StandsAt pasts.now.entries restart r
        → IsCountAt (log_of pasts.now.entries) r member result }
{
    let count = pasts.index().count(member);
    if pasts.entries()[restart].member() == member {
        pasts.number(restart) + 1
    } else {
        count_beside(pasts, restart, member, count)
    }
}

/// The moment at which the restart at the place comes, and all has come that did not happen after it.
fn moment_of(pasts: &Pasts<'_>, restart: usize) -> Clock
    requires { restart < length pasts.now.entries }
    ensures { (r : Position) → StandsAt pasts.now.entries restart r
        → IsMomentOf (log_of pasts.now.entries) r (cut_of result) }
{
    // the run obeys its rules: no entry is of a member above 15
    let _run = pasts.run();
    let mut moment = Clock::none();
    for number in 0..16u8 {
        let member = Member::at(number);
        moment = moment.reaching(member, count_at(pasts, restart, member));
    }
    moment
}

/// Why the restart undid the receipt, as `undone_receipts` says it. `Err` comes only where there is no memory for the paths.
fn undone_reason(
    alloc: Global,
    pasts: &Pasts<'_>,
    receipt: &UndoneReceipt,
) -> Result<UndoneReason, AllocError>
    requires { (i : Position) × IsSaidUndone pasts.now i receipt.now }
    ensures { IfOk result (IsUndoneReason pasts.now receipt.now) }
{
    let moment = moment_of(pasts, receipt.at);
    let last = pasts.last();
    let recorded = recorded_at(pasts, &receipt.determinant, &moment);
    let paths = paths_to(alloc, pasts, receipt.place, receipt.orphans, &last)?;
    Ok(UndoneReason {
        receipt: *receipt,
        is_stored: recorded.is_stored,
        holders: recorded.holders,
        paths,
    })
}

/// Why restarts undid these receipts, as `undone_receipts` says them, in their order.
pub(crate) fn undone_reasons(
    alloc: Global,
    pasts: &Pasts<'_>,
    receipts: &[UndoneReceipt],
) -> Result<Vec<UndoneReason>, AllocError>
    requires { SaysUndone pasts.now 0 pasts.now.entries receipts.now }
    ensures { IfOk result (λ v. AreUndoneReasons pasts.now receipts.now v.items) }
{
    let mut reasons = Vec::new(alloc);
    for receipt in receipts {
        reasons.push(undone_reason(alloc, pasts, receipt)?)?;
    }
    Ok(reasons)
}

/// Why restarts undid receipts of a run, a line for each and for each path.
#[derive(Clone, Copy)]
pub(crate) struct WhyUndone<'a> {
    pub run: &'a Run,
    /// Where its entries stand.
    pub sources: Sources<'a>,
    pub reasons: &'a [UndoneReason],
}

/// Writes who held the receipt.
fn write_holders<W: fmt::Write>(f: &mut fmt::Formatter<W>, reason: &UndoneReason) -> fmt::Result {
    let Determinant { from, ssn, to, rsn } = reason.receipt.determinant;
    let holders = reason.holders;
    write!(f, "determinant {from} {ssn} {to} {rsn} was ")?;
    if reason.is_stored {
        f.write_str("on stable storage")
    } else if holders.is_empty() {
        f.write_str("held by nobody")
    } else {
        write!(f, "held by {holders}")
    }
}

impl WhyUndone<'_> {
    fn write_reason<W: fmt::Write>(
        &self,
        f: &mut fmt::Formatter<W>,
        reason: &UndoneReason,
    ) -> fmt::Result {
        let member = reason.receipt.determinant.to;
        let spot = self.sources.spot(reason.receipt.at);
        write_holders(f, reason)?;
        write!(f, " when member {member} restarted without it, at {spot}\n")?;
        for path in &reason.paths {
            write_path(f, self.run, path)?;
        }
        Ok(())
    }
}

impl fmt::Display for WhyUndone<'_> {
    fn fmt<W: fmt::Write>(&self, f: &mut fmt::Formatter<W>) -> fmt::Result {
        for reason in self.reasons {
            self.write_reason(f, reason)?;
        }
        Ok(())
    }
}
