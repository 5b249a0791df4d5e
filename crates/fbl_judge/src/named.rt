//! Which entry of a member depends on a receipt first at a moment, and which entry a moment is named by.

ghost use Rattle.std.specs.Prelude.{◌≡◌, ◌<◌, ◌≤◌, ◌↔◌, ℕ, true, IfSome, MatchOption, length};
ghost use Rattle.fbl_runs.specs.Clocks.{StandsAt, cut_of};
ghost use Rattle.fbl_runs.specs.Entries.{log_of};
ghost use Rattle.fbl_runs.specs.HappenedBefore.{Position, Precedes, at};
ghost use Rattle.fbl_runs.specs.Logs.{run_of};
ghost use Rattle.fbl_runs.specs.Moments.{DependsAt, HasCome};
ghost use Rattle.fbl_runs.specs.declared.causality.Causality.TheVariants.{Dependence};
ghost use Rattle.fbl_judge.specs.Dependents.{HasRestart, IsDependent, IsFirstOf, IsLastPlace, IsLaterPlace, IsLatest, IsLesser};
ghost use Rattle.fbl_judge.specs.Pasts.{IsRestartPlace};
ghost use Rattle.fbl_judge.specs.Paths.{IsDependentPlace};
ghost use Rattle.fbl_judge.specs.Unsafe.{IsLastRestart, IsNamed};

use crate::pasts::Pasts;
use fbl_runs::{Causality, Clock};
use fbl_trace::Member;

/// Whether the member has restarted.
fn has_restarted(pasts: &Pasts<'_>, member: Member) -> bool
    ensures { (result ≡ true) ↔ HasRestart (log_of pasts.now.entries member) }
{
    let entries = pasts.entries();
    let restarts = pasts.restarts();
    for place in restarts {
        if entries[*place].member() == member {
            return true;
        }
    }
    false
}

/// Whether the member's entry with the number depends on the receipt at the place.
fn depends(pasts: &Pasts<'_>, receipt: usize, member: Member, number: usize) -> bool
    requires receipt { receipt < length pasts.now.entries }
    requires number { number < length (log_of pasts.now.entries member) }
    ensures { (i : Position) → StandsAt pasts.now.entries receipt i
        → (result ≡ true) ↔ Precedes Dependence (log_of pasts.now.entries) i (at member number) }
{
    let place = pasts.index().place(member, number);
    pasts.precedes(Causality::Dependence, receipt, place)
}

/// Whether the member's entry with the number depends on the receipt at the place, and stands at the clock's cut.
fn is_dependent(
    pasts: &Pasts<'_>,
    receipt: usize,
    member: Member,
    number: usize,
    moment: &Clock,
) -> bool
    requires receipt { receipt < length pasts.now.entries }
    requires number { number < length (log_of pasts.now.entries member) }
    ensures { (i : Position) → StandsAt pasts.now.entries receipt i
        → (result ≡ true)
        ↔ IsDependent (log_of pasts.now.entries) i (cut_of moment.now) (at member number) }
{
    let place = pasts.index().place(member, number);
    pasts.precedes(Causality::Dependence, receipt, place) && pasts.stands(place, moment)
}

/// The number of the first of the member's first entries, this many, that depends on the receipt at the place and stands at the clock's cut.
fn first_listed(
    pasts: &Pasts<'_>,
    receipt: usize,
    member: Member,
    moment: &Clock,
    count: usize,
) -> Option<usize>
    requires receipt { receipt < length pasts.now.entries }
    requires count { count ≤ length (log_of pasts.now.entries member) }
    ensures { (i : Position) → StandsAt pasts.now.entries receipt i
        → IsFirstOf (log_of pasts.now.entries) i (cut_of moment.now) member count result }
{
    for number in 0..count {
        if is_dependent(pasts, receipt, member, number, moment) {
            return Some(number);
        }
    }
    None
}

/// How many of the member's first entries, this many, come before the first that depends on the receipt at the place. The member has not
/// restarted: those behind it depend on the receipt too.
fn count_before(pasts: &Pasts<'_>, receipt: usize, member: Member, count: usize) -> usize
    requires receipt { receipt < length pasts.now.entries }
    requires count { count ≤ length (log_of pasts.now.entries member) }
    requires alive { ¬ (HasRestart (log_of pasts.now.entries member)) }
    ensures within { result ≤ count }
    ensures none { (i : Position) (k : ℕ) → StandsAt pasts.now.entries receipt i → k < result
        → ¬ (Precedes Dependence (log_of pasts.now.entries) i (at member k)) }
    ensures next { (i : Position) → StandsAt pasts.now.entries receipt i → result < count
        → Precedes Dependence (log_of pasts.now.entries) i (at member result) }
{
    let mut first = 0;
    let mut end = count;
    while first < end {
        let middle = first + (end - first) / 2;
        if depends(pasts, receipt, member, middle) {
            end = middle;
        } else {
            first = middle + 1;
        }
    }
    first
}

/// As `first_listed` says it. Where the member has not restarted, it is found by halves.
fn first_number(
    pasts: &Pasts<'_>,
    receipt: usize,
    member: Member,
    moment: &Clock,
    count: usize,
) -> Option<usize>
    requires receipt { receipt < length pasts.now.entries }
    requires count { count ≤ length (log_of pasts.now.entries member) }
    requires come { count ≤ cut_of moment.now member }
    ensures { (i : Position) → StandsAt pasts.now.entries receipt i
        → IsFirstOf (log_of pasts.now.entries) i (cut_of moment.now) member count result }
{
    if has_restarted(pasts, member) {
        return first_listed(pasts, receipt, member, moment, count);
    }
    let before = count_before(pasts, receipt, member, count);
    if before < count { Some(before) } else { None }
}

/// The place of the member's first entry that stands at the clock's cut and depends on the receipt at the place. The time taken is that of
/// the member's entries, if it has restarted, and of their logarithm, if not.
pub fn first_dependent_place(
    pasts: &Pasts<'_>,
    receipt: usize,
    member: Member,
    moment: &Clock,
) -> Option<usize>
    requires { receipt < length pasts.now.entries }
    ensures { (i : Position) → StandsAt pasts.now.entries receipt i
        → MatchOption result (¬ (DependsAt (log_of pasts.now.entries) (cut_of moment.now) i member))
        (IsDependentPlace pasts.now i (cut_of moment.now) member) }
{
    let count = moment.count(member).min(pasts.index().count(member));
    match first_number(pasts, receipt, member, moment, count) {
        Some(number) => Some(pasts.index().place(member, number)),
        None => None,
    }
}

/// Whether the entry at the place has come at the clock's cut.
pub(crate) fn has_come(pasts: &Pasts<'_>, place: usize, moment: &Clock) -> bool
    requires { place < length pasts.now.entries }
    ensures { (i : Position) → StandsAt pasts.now.entries place i → (result ≡ true) ↔ HasCome (cut_of moment.now) i }
{
    let member = pasts.entries()[place].member();
    pasts.number(place) < moment.count(member)
}

/// The place of a restart that has come at the clock's cut and did not happen before the entry at the place.
fn later_restart(pasts: &Pasts<'_>, entry: usize, moment: &Clock) -> Option<usize>
    requires { entry < length pasts.now.entries }
    ensures { (j : Position) → StandsAt pasts.now.entries entry j
        → IsLaterPlace pasts.now.entries (cut_of moment.now) j result }
{
    let restarts = pasts.restarts();
    for restart in restarts {
        if has_come(pasts, *restart, moment)
            && !pasts.precedes(Causality::HappenedBefore, *restart, entry)
        {
            return Some(*restart);
        }
    }
    None
}

/// Whether no other restart that has come at the clock's cut comes after the one at the place.
fn is_latest(pasts: &Pasts<'_>, restart: usize, moment: &Clock) -> bool
    requires { restart < length pasts.now.entries }
    ensures { (r : Position) → StandsAt pasts.now.entries restart r
        → (result ≡ true) ↔ IsLatest (log_of pasts.now.entries) (cut_of moment.now) r }
{
    let restarts = pasts.restarts();
    for other in restarts {
        if *other != restart
            && has_come(pasts, *other, moment)
            && pasts.precedes(Causality::HappenedBefore, restart, *other)
        {
            return false;
        }
    }
    true
}

/// Whether the restart at the place is one of the last at the clock's cut that did not happen before the entry at the other place.
fn is_last(pasts: &Pasts<'_>, restart: usize, entry: usize, moment: &Clock) -> bool
    requires restart { IsRestartPlace pasts.now.entries restart }
    requires entry { entry < length pasts.now.entries }
    ensures { (j r : Position) → StandsAt pasts.now.entries entry j → StandsAt pasts.now.entries restart r
        → (result ≡ true) ↔ IsLastRestart (run_of pasts.now) (cut_of moment.now) j r }
{
    has_come(pasts, restart, moment)
        && !pasts.precedes(Causality::HappenedBefore, restart, entry)
        && is_latest(pasts, restart, moment)
}

/// Whether the entry at the place is of a lesser member than that at the other place, if there is one.
fn is_lesser(pasts: &Pasts<'_>, place: usize, least: Option<usize>) -> bool
    requires place { place < length pasts.now.entries }
    requires least { IfSome least (λ other. other < length pasts.now.entries) }
    ensures { (r : Position) → StandsAt pasts.now.entries place r
        → (result ≡ true) ↔ IsLesser pasts.now.entries r least }
{
    let entries = pasts.entries();
    match least {
        Some(other) => entries[place].member().number() < entries[other].member().number(),
        None => true,
    }
}

/// Of the last restarts at the clock's cut that did not happen before the entry at the place the place of that of the least member.
fn last_restart(pasts: &Pasts<'_>, entry: usize, moment: &Clock) -> Option<usize>
    requires { entry < length pasts.now.entries }
    ensures { (j : Position) → StandsAt pasts.now.entries entry j
        → IsLastPlace pasts.now (cut_of moment.now) j result }
{
    let restarts = pasts.restarts();
    let mut least: Option<usize> = None;
    for restart in restarts {
        if is_last(pasts, *restart, entry, moment) && is_lesser(pasts, *restart, least) {
            least = Some(*restart);
        }
    }
    least
}

/// The place of the entry by which the moment is named, if the member depends on the receipt at the place there.
fn named_by(pasts: &Pasts<'_>, receipt: usize, member: Member, moment: &Clock) -> Option<usize>
    requires { receipt < length pasts.now.entries }
    ensures { (i : Position) → StandsAt pasts.now.entries receipt i
        → MatchOption result (¬ (DependsAt (log_of pasts.now.entries) (cut_of moment.now) i member))
        (λ place. (k : Position) × StandsAt pasts.now.entries place k
        × IsNamed (run_of pasts.now) i member (cut_of moment.now) k) }
{
    // the run obeys its rules: what happened before an entry is listed before it
    let _run = pasts.run();
    let Some(first) = first_dependent_place(pasts, receipt, member, moment) else {
        return None;
    };
    match later_restart(pasts, first, moment) {
        Some(_) => last_restart(pasts, first, moment),
        None => Some(first),
    }
}

/// The place of the entry by which the moment is named, at which the member depends on the receipt at the place.
pub(crate) fn named_place(
    pasts: &Pasts<'_>,
    receipt: usize,
    member: Member,
    moment: &Clock,
) -> usize
    requires receipt { receipt < length pasts.now.entries }
    requires depends { (i : Position) → StandsAt pasts.now.entries receipt i
        → DependsAt (log_of pasts.now.entries) (cut_of moment.now) i member }
    ensures { (i : Position) → StandsAt pasts.now.entries receipt i
        → (k : Position) × StandsAt pasts.now.entries result k × IsNamed (run_of pasts.now) i member (cut_of moment.now) k }
{
    named_by(pasts, receipt, member, moment).unwrap_or(receipt)
}
