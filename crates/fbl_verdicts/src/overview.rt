//! What is told first of a check of a run with restarts, in words for a person: how many receipts it says something of, which of them
//! happened before the others, and how many messages are in flight at the end.

ghost use Rattle.std.specs.Prelude.{◌≡◌, ◌<◌, ◌↔◌, ◌++◌, ◌∷◌, [], ℕ, List, Some, true, IfOk, length, slice_get};
ghost use Rattle.fbl_verdicts.specs.Overviews.{AreEarliest, AreFirstOf, AreTakenAtEnd, TakesAtEnd, CountsInFlight, IsInFlight, IsOverviewOf, NoneHappenedBefore, StandsAtEnd, said_places};
ghost use Rattle.fbl_verdicts.specs.Texts.{IsChecked};
ghost use Rattle.fbl_runs.specs.Clocks.{StandsAt};
ghost use Rattle.fbl_runs.specs.Entries.{log_of};
ghost use Rattle.fbl_runs.specs.HappenedBefore.{Position};
ghost use Rattle.fbl_runs.specs.Links.{IsPlaceOf};
ghost use Rattle.fbl_runs.specs.declared.entry.Entry.TheVariants.{Event};
ghost use Rattle.fbl_trace.specs.declared.trace.Mark.TheVariants.{Send};

use crate::check_text::Checked;
use fbl_judge::Pasts;
use fbl_runs::{Causality, Entry, Run, Sources};
use fbl_trace::Mark;
use std::alloc::{AllocError, Global};
use std::fmt;

/// What is told first of a check of a run.
#[derive(Drop)]
pub struct Overview {
    /// How many receipts are unsafe.
    pub unsafe_receipts: usize,
    /// How many restarts undid that leave orphans.
    pub undone_receipts: usize,
    /// The places of those of them before which no other happened.
    pub first: Vec<usize>,
    /// How many messages are in flight at the end.
    pub in_flight: usize,
}

/// Keeps the place where it is the earliest of its entry's member so far.
fn keep_earliest(entries: &[Entry], earliest: &mut [Option<usize>; 16], place: usize)
    requires { place < length entries.now }
    ensures { (places : List ℕ) → AreEarliest entries.now places earliest.old
        → AreEarliest entries.now (places ++ place ∷ []) earliest.new }
{
    let number = entries[place].member().number() as usize;
    let least = match earliest[number] {
        Some(other) => other.min(place),
        None => place,
    };
    earliest[number] = Some(least);
}

/// The place of each member's earliest receipt of which something is said.
fn earliest_said(pasts: &Pasts<'_>, checked: &Checked) -> [Option<usize>; 16]
    requires { IsChecked pasts.now checked.now }
    ensures { AreEarliest pasts.now.entries (said_places checked.now) result }
{
    let entries = pasts.entries();
    let mut earliest = [None; 16];
    for receipt in checked.unsafe_receipts.as_slice() {
        keep_earliest(entries, &mut earliest, receipt.place);
    }
    for undone in checked.undone_receipts.as_slice() {
        keep_earliest(entries, &mut earliest, undone.place);
    }
    earliest
}

/// Whether none of the other places has an entry that happened before the one at the place.
fn is_first(pasts: &Pasts<'_>, others: &[Option<usize>], place: usize) -> bool
    requires place { place < length pasts.now.entries }
    requires others { (member other : ℕ) → slice_get others.now member ≡ Some (Some other)
        → other < length pasts.now.entries }
    ensures { (result ≡ true) ↔ NoneHappenedBefore pasts.now.entries others.now place }
{
    for other in others {
        if let Some(other) = *other {
            if other != place && pasts.precedes(Causality::HappenedBefore, other, place) {
                return false;
            }
        }
    }
    true
}

/// The places of the receipts of which something is said and before which no other such one happened.
fn first_places(
    alloc: Global,
    pasts: &Pasts<'_>,
    checked: &Checked,
) -> Result<Vec<usize>, AllocError>
    requires { IsChecked pasts.now checked.now }
    ensures { IfOk result (λ v. AreFirstOf pasts.now.entries (said_places checked.now) v.items) }
{
    // the run obeys its rules: no two entries happened before one another
    let _run = pasts.run();
    let earliest = earliest_said(pasts, checked);
    let mut places = Vec::new(alloc);
    for first in &earliest {
        if let Some(place) = *first {
            if is_first(pasts, &earliest, place) {
                places.push(place)?;
            }
        }
    }
    Ok(places)
}

/// Whether the entry at the place stands at the end.
fn stands_at_end(pasts: &Pasts<'_>, place: usize) -> bool
    requires { place < length pasts.now.entries }
    ensures { (i : Position) → StandsAt pasts.now.entries place i
        → (result ≡ true) ↔ StandsAtEnd (log_of pasts.now.entries) i }
{
    let last = pasts.last();
    pasts.stands(place, &last)
}

/// The place of the send, or of the tell, whose message the entry at the place takes, if it takes one and stands at the end.
fn taken_by(pasts: &Pasts<'_>, place: usize) -> Option<usize>
    requires { place < length pasts.now.entries }
    ensures { (j : Position) → StandsAt pasts.now.entries place j
        → IsPlaceOf pasts.now.entries (TakesAtEnd (log_of pasts.now.entries) j) result }
{
    if stands_at_end(pasts, place) {
        pasts.index().link(place).message
    } else {
        None
    }
}

/// For each place, whether a receipt that stands at the end takes the message that is sent there.
fn taken_at_end(alloc: Global, pasts: &Pasts<'_>) -> Result<Vec<bool>, AllocError>
    ensures { IfOk result (λ v. AreTakenAtEnd pasts.now.entries v.items) }
{
    let count = pasts.entries().len();
    let mut taken = vec![in alloc; false; count]?;
    for place in 0..count {
        if let Some(send) = taken_by(pasts, place) {
            taken[send] = true;
        }
    }
    Ok(taken)
}

/// Whether the entry is a send.
fn is_send(entry: &Entry) -> bool
    ensures { (result ≡ true) ↔ ((from : ℕ) × (ssn : ℕ) × (to : ℕ) × (entry.now ≡ Event (Send from ssn to))) }
{
    matches!(entry, Entry::Event(Mark::Send { .. }))
}

/// Whether the entry at the place sends a message that is in flight at the end.
fn is_in_flight(pasts: &Pasts<'_>, taken: &[bool], place: usize) -> bool
    requires place { place < length pasts.now.entries }
    requires taken { AreTakenAtEnd pasts.now.entries taken.now }
    ensures { (i : Position) → StandsAt pasts.now.entries place i
        → (result ≡ true) ↔ IsInFlight (log_of pasts.now.entries) i }
{
    is_send(&pasts.entries()[place]) && stands_at_end(pasts, place) && !taken[place]
}

/// How many messages are in flight at the end: their sends stand, and no receipt that stands takes them.
fn count_in_flight(alloc: Global, pasts: &Pasts<'_>) -> Result<usize, AllocError>
    ensures { IfOk result (CountsInFlight pasts.now.entries (length pasts.now.entries)) }
{
    let taken = taken_at_end(alloc, pasts)?;
    let mut count = 0;
    for place in 0..pasts.entries().len() {
        if is_in_flight(pasts, taken.as_slice(), place) {
            count += 1;
        }
    }
    Ok(count)
}

impl Overview {
    /// What is told first of the check, if the run has a restart. `Err` comes only where there is no memory for it.
    pub fn of(
        alloc: Global,
        pasts: &Pasts<'_>,
        checked: &Checked,
    ) -> Result<Option<Overview>, AllocError>
        requires { IsChecked pasts.now checked.now }
        ensures { IfOk result (IsOverviewOf pasts.now checked.now) }
    {
        if pasts.restarts().is_empty() {
            return Ok(None);
        }
        Ok(Some(Overview {
            unsafe_receipts: checked.unsafe_receipts.len(),
            undone_receipts: checked.undone_receipts.len(),
            first: first_places(alloc, pasts, checked)?,
            in_flight: count_in_flight(alloc, pasts)?,
        }))
    }
}

/// An overview in a line.
#[derive(Clone, Copy)]
pub(crate) struct OverviewLine<'a> {
    pub overview: &'a Overview,
    pub run: &'a Run,
    /// Where its entries stand.
    pub sources: Sources<'a>,
}

impl OverviewLine<'_> {
    /// Writes of which of several receipts none happened before, as `; none of them happened before receipt 1 of member 1, at 4`.
    fn write_first<W: fmt::Write>(&self, f: &mut fmt::Formatter<W>) -> fmt::Result {
        let mut before = "; none of them happened before";
        for place in &self.overview.first {
            let Some(entry) = self.run.entries().get(*place) else {
                continue;
            };
            if let Some(receipt) = entry.receipt() {
                let spot = self.sources.spot(*place);
                let (to, rsn) = (receipt.to, receipt.rsn);
                write!(f, "{before} receipt {rsn} of member {to}, at {spot}")?;
                before = ", or";
            }
        }
        Ok(())
    }
}

impl fmt::Display for OverviewLine<'_> {
    fn fmt<W: fmt::Write>(&self, f: &mut fmt::Formatter<W>) -> fmt::Result {
        let unsafe_receipts = self.overview.unsafe_receipts;
        let undone_receipts = self.overview.undone_receipts;
        let in_flight = self.overview.in_flight;
        write!(
            f,
            "receipts unsafe {unsafe_receipts}, undone with orphans {undone_receipts}"
        )?;
        if 1 < unsafe_receipts.saturating_add(undone_receipts) {
            self.write_first(f)?;
        }
        write!(f, "; messages in flight at the end {in_flight}\n")
    }
}
