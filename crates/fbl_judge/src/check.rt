//! Which receipts of a run are unsafe where it is judged.

ghost use Rattle.std.specs.Prelude.{◌≡◌, ◌↔◌, ◌<◌, ◌≤◌, ◌⊎◌, ℕ, true, false, [], IfOk, IfSome, MatchOption, length};
ghost use Rattle.std.specs.FinSet as set;
ghost use Rattle.fbl_runs.specs.Clocks.{StandsAt, cut_of};
ghost use Rattle.fbl_runs.specs.Entries.{log_of};
ghost use Rattle.fbl_runs.specs.HappenedBefore.{Position};
ghost use Rattle.fbl_runs.specs.Logs.{IsRun, run_of};
ghost use Rattle.fbl_runs.specs.Runs.{IsSafe};
ghost use Rattle.fbl_judge.specs.Candidates.{AreStruckInAll, HasFewer, IsAlike, IsAny, IsBefore, IsFirstAmong, IsFirstOf, IsLeastIn, IsLeastOut, IsLeastUnlike, IsOfLesser, IsOfMember, IsReceiptHere, IsSaidAtEnd, IsSaidFirst, IsStruckWithin, IsUnsafeAtEnd, IsWithin, NoneDepends};
ghost use Rattle.fbl_judge.specs.Unsafe.{IsFewer, IsFirstUnsafe, IsLeastStrike, IsLeftOrphanAt, IsSaidOf, IsUnsafe, ListsFirst, SaysUnsafe};
ghost use Rattle.fbl_judge.specs.Views.{IsView};

use crate::named::named_place;
use crate::pasts::Pasts;
use crate::recorded::recorded_at;
use crate::view::{RestartCounts, View};
use fbl_runs::{Clock, Judged};
use fbl_trace::{Determinant, Member, MemberSet};
use std::alloc::{AllocError, Global};

/// A receipt that some members may lose, where the run is judged, with an orphan left.
#[derive(Clone, Copy)]
pub struct UnsafeReceipt {
    /// Its place, from 0, among the entries.
    pub place: usize,
    /// What names it.
    pub determinant: Determinant,
    /// The place of the entry by which the moment is named, or none, if the run is judged at its end: the orphan's first entry that stands
    /// and depends on the receipt, or else of the last restarts that did not happen before that the one of the least member.
    pub at: Option<usize>,
    /// The least members whose loss at the moment loses the receipt: those of the strike set and those that hold its determinant.
    pub strike: MemberSet,
    /// The members outside these that depend on it there. There is one at least.
    pub orphans: MemberSet,
    /// The moment: the least one with its restarts at which the orphan that is shown depends on the receipt, or the last one.
    pub moment: Clock,
    /// The orphans that are to be shown: the one by which the moment was found, or, at the run's end, all.
    pub shown: MemberSet,
}

/// A member that the loss of others may leave as an orphan of a receipt, at the least moment, of those with just its restarts, at which it
/// depends on it.
#[derive(Clone, Copy)]
struct Candidate {
    /// The member.
    orphan: Member,
    /// The moment.
    moment: Clock,
    /// The least members whose loss there loses the receipt.
    strike: MemberSet,
    /// The moment's restarts.
    restarts: RestartCounts,
}

/// The least members whose loss at the clock's cut loses the receipt with the determinant, if they may be lost.
fn least_strike(pasts: &Pasts<'_>, determinant: &Determinant, moment: &Clock) -> Option<MemberSet>
    ensures { MatchOption result
        ((strike : _) → ¬ (IsLeastStrike (run_of pasts.now) (cut_of moment.now) determinant.now strike))
        (IsLeastStrike (run_of pasts.now) (cut_of moment.now) determinant.now) }
{
    let recorded = recorded_at(pasts, determinant, moment);
    if recorded.is_stored {
        return None;
    }
    let run = pasts.run();
    let strike = run.strike().union(recorded.holders);
    let most = u32::from(run.f()).max(run.strike().count());
    if strike.count() > most {
        return None;
    }
    Some(strike)
}

/// The members that the loss of the strike set leaves as orphans of the receipt at the place, at the clock's cut.
fn orphans_at(pasts: &Pasts<'_>, place: usize, moment: &Clock, strike: MemberSet) -> MemberSet
    requires place { place < length pasts.now.entries }
    requires within { (q : ℕ) → cut_of moment.now q ≤ length (log_of pasts.now.entries q) }
    ensures { (i : Position) → StandsAt pasts.now.entries place i
        → (q : ℕ)
        → (set.contains result q ≡ true) ↔ IsLeftOrphanAt (run_of pasts.now) (cut_of moment.now) strike i q }
{
    let dependents = pasts.dependents(place, moment);
    dependents.without(strike)
}

/// What is to be said of the receipt at the place at the run's end.
fn unsafe_at_end(
    pasts: &Pasts<'_>,
    place: usize,
    determinant: &Determinant,
) -> Option<UnsafeReceipt>
    requires run { IsRun pasts.now }
    requires receipt { IsReceiptHere pasts.now.entries place determinant.now }
    ensures { (i : Position) → StandsAt pasts.now.entries place i
        → MatchOption result (¬ (IsUnsafeAtEnd (run_of pasts.now) i)) (IsSaidAtEnd (run_of pasts.now) i place determinant.now) }
{
    let end = pasts.last();
    if !pasts.stands(place, &end) {
        return None;
    }
    let strike = least_strike(pasts, determinant, &end)?;
    let orphans = orphans_at(pasts, place, &end, strike);
    if orphans.is_empty() {
        return None;
    }
    Some(UnsafeReceipt {
        place,
        determinant: *determinant,
        at: None,
        strike,
        orphans,
        moment: end,
        shown: orphans,
    })
}

/// Whether at the clock's cut no restart has come but those of the view.
fn is_within(view: &View, moment: &Clock) -> bool
    ensures { (result ≡ true) ↔ IsWithin view.now (cut_of moment.now) }
{
    for number in 0..16u8 {
        if moment.count(Member::at(number)) > view.tops[number as usize] {
            return false;
        }
    }
    true
}

/// The least moment with just the view's restarts at which the member depends on the receipt at the place, if there is one.
fn least_dependent(pasts: &Pasts<'_>, view: &View, place: usize, member: Member) -> Option<Clock>
    requires run { IsRun pasts.now }
    requires receipt { (d : _) × IsReceiptHere pasts.now.entries place d }
    requires view { IsView (log_of pasts.now.entries) view.now }
    ensures { (i : Position) → StandsAt pasts.now.entries place i
        → MatchOption result
        (NoneDepends (log_of pasts.now.entries) i member (cut_of view.now.base))
        (λ moment. IsLeastIn (log_of pasts.now.entries) i member (cut_of view.now.base) (cut_of moment)) }
{
    let at = member.number() as usize;
    let first = pasts.first_in_life(place, member, view.starts[at], view.tops[at])?;
    let reached = pasts.moment_at(pasts.index().place(member, first));
    let moment = view.base.joined(&reached);
    if is_within(view, &moment) {
        Some(moment)
    } else {
        None
    }
}

/// The receipt's candidate with the view's restarts and the member as its orphan, if there is one.
fn candidate_of(
    pasts: &Pasts<'_>,
    view: &View,
    place: usize,
    determinant: &Determinant,
    member: Member,
) -> Option<Candidate>
    requires run { IsRun pasts.now }
    requires view { IsView (log_of pasts.now.entries) view.now }
    requires receipt { IsReceiptHere pasts.now.entries place determinant.now }
    ensures first { (i : Position) → StandsAt pasts.now.entries place i
        → IsFirstAmong (run_of pasts.now) i determinant.now (IsOfMember (log_of pasts.now.entries) (cut_of view.now.base) member) result }
    ensures orphan { IfSome result (λ candidate. candidate.orphan ≡ member) }
{
    let moment = least_dependent(pasts, view, place, member)?;
    if !pasts.stands(place, &moment) {
        return None;
    }
    let strike = least_strike(pasts, determinant, &moment)?;
    if strike.has(member) {
        return None;
    }
    Some(Candidate {
        orphan: member,
        moment,
        strike,
        restarts: view.restarts,
    })
}

/// The least member of the first set that the other does not have.
fn least_in(first: MemberSet, other: MemberSet) -> Option<Member>
    ensures { MatchOption result ((q : ℕ) → set.contains first q ≡ true → set.contains other q ≡ true) (IsLeastOut first other) }
{
    let outsider = first.without(other).outsider(0)?;
    Some(outsider.member)
}

/// Whether the first set's list of numbers comes before the other's, where both are as long.
fn lists_first(first: MemberSet, other: MemberSet) -> bool
    ensures yes { result ≡ true → ListsFirst first other }
    ensures no { result ≡ false → (first ≡ other) ⊎ ListsFirst other first }
{
    match (least_in(first, other), least_in(other, first)) {
        (Some(own), Some(others)) => own.number() < others.number(),
        (Some(_), None) => true,
        (None, _) => false,
    }
}

/// Whether fewer members are struck, or as many whose list comes first.
fn is_fewer(first: MemberSet, other: MemberSet) -> bool
    ensures yes { result ≡ true → IsFewer first other }
    ensures no { result ≡ false → (first ≡ other) ⊎ IsFewer other first }
{
    let (count, others) = (first.count(), other.count());
    count < others || (count == others && lists_first(first, other))
}

/// The least member of whose restarts the two have not as many.
fn least_unlike(first: &RestartCounts, other: &RestartCounts) -> Option<u8>
    ensures { MatchOption result (IsAlike first.now.of_members other.now.of_members)
        (IsLeastUnlike first.now.of_members other.now.of_members) }
{
    for number in 0..16u8 {
        if first.of_members[number as usize] != other.of_members[number as usize] {
            return Some(number);
        }
    }
    None
}

/// Whether the first has fewer restarts, or as many whose list comes first.
fn has_fewer_restarts(first: &RestartCounts, other: &RestartCounts) -> bool
    ensures yes { result ≡ true → HasFewer first.now other.now }
    ensures no { result ≡ false → HasFewer other.now first.now }
{
    if first.total != other.total {
        return first.total < other.total;
    }
    match least_unlike(first, other) {
        Some(number) => first.of_members[number as usize] > other.of_members[number as usize],
        None => true,
    }
}

/// Whether the first candidate comes before the other: fewer members are struck, or the same and its orphan is less, or it is the same and
/// fewer restarts have come.
fn comes_first(first: &Candidate, other: &Candidate) -> bool
    ensures yes { result ≡ true → IsBefore first.now other.now }
    ensures no { result ≡ false → IsBefore other.now first.now }
{
    if is_fewer(first.strike, other.strike) {
        return true;
    }
    if is_fewer(other.strike, first.strike) {
        return false;
    }
    let (own, others) = (first.orphan.number(), other.orphan.number());
    own < others || (own == others && has_fewer_restarts(&first.restarts, &other.restarts))
}

/// Whether the next one is a candidate, and comes before the first, if that is one.
fn replaces(next: &Option<Candidate>, first: &Option<Candidate>) -> bool
    ensures yes { result ≡ true → IsFirstOf first.now next.now next.now }
    ensures no { result ≡ false → IsFirstOf first.now next.now first.now }
{
    match (next, first) {
        (None, _) => false,
        (Some(_), None) => true,
        (Some(own), Some(other)) => comes_first(own, other),
    }
}

/// Whether it is a candidate with none but these members struck.
fn is_struck_within(candidate: &Option<Candidate>, least: MemberSet) -> bool
    ensures { (result ≡ true) ↔ IsStruckWithin least candidate.now }
{
    match candidate {
        Some(candidate) => candidate.strike.without(least).is_empty(),
        None => false,
    }
}

/// Of the receipt's candidates with the view's restarts, each of which has these members struck, the one that comes first. Behind one with
/// no others struck none comes before it.
fn first_struck(
    pasts: &Pasts<'_>,
    view: &View,
    place: usize,
    determinant: &Determinant,
    least: MemberSet,
) -> Option<Candidate>
    requires run { IsRun pasts.now }
    requires view { IsView (log_of pasts.now.entries) view.now }
    requires receipt { IsReceiptHere pasts.now.entries place determinant.now }
    requires least { (i : Position) → StandsAt pasts.now.entries place i
        → AreStruckInAll (run_of pasts.now) i determinant.now (cut_of view.now.base) least }
    ensures { (i : Position) → StandsAt pasts.now.entries place i
        → IsFirstAmong (run_of pasts.now) i determinant.now (IsOfLesser (log_of pasts.now.entries) (cut_of view.now.base) 16) result }
{
    let mut first = None;
    for number in 0..16u8 {
        let next = candidate_of(pasts, view, place, determinant, Member::at(number));
        if replaces(&next, &first) {
            first = next;
        }
        if is_struck_within(&first, least) {
            return first;
        }
    }
    first
}

/// Of the receipt's candidates with the view's restarts the one that comes first. At each of their moments has come the least one at which
/// its receiver depends on it, and who holds it there holds it at theirs.
fn first_in_view(
    pasts: &Pasts<'_>,
    view: &View,
    place: usize,
    determinant: &Determinant,
) -> Option<Candidate>
    requires run { IsRun pasts.now }
    requires view { IsView (log_of pasts.now.entries) view.now }
    requires receipt { IsReceiptHere pasts.now.entries place determinant.now }
    ensures { (i : Position) → StandsAt pasts.now.entries place i
        → IsFirstAmong (run_of pasts.now) i determinant.now (IsOfLesser (log_of pasts.now.entries) (cut_of view.now.base) 16) result }
{
    let receiver = pasts.entries()[place].member();
    let moment = least_dependent(pasts, view, place, receiver)?;
    let least = least_strike(pasts, determinant, &moment)?;
    first_struck(pasts, view, place, determinant, least)
}

/// Of the receipt's candidates the one that comes first.
fn first_candidate(pasts: &Pasts<'_>, place: usize, determinant: &Determinant) -> Option<Candidate>
    requires run { IsRun pasts.now }
    requires receipt { IsReceiptHere pasts.now.entries place determinant.now }
    ensures { (i : Position) → StandsAt pasts.now.entries place i
        → IsFirstAmong (run_of pasts.now) i determinant.now IsAny result }
{
    let mut first = None;
    for view in pasts.views() {
        let next = first_in_view(pasts, view, place, determinant);
        if replaces(&next, &first) {
            first = next;
        }
    }
    first
}

/// What is to be said of the receipt at the place at some moment: that of the candidate that comes first.
fn unsafe_at_moment(
    pasts: &Pasts<'_>,
    place: usize,
    determinant: &Determinant,
) -> Option<UnsafeReceipt>
    requires run { IsRun pasts.now }
    requires receipt { IsReceiptHere pasts.now.entries place determinant.now }
    ensures { (i : Position) → StandsAt pasts.now.entries place i → IsSaidFirst pasts.now i place determinant.now result }
{
    let candidate = first_candidate(pasts, place, determinant)?;
    let Candidate {
        orphan,
        moment,
        strike,
        ..
    } = candidate;
    Some(UnsafeReceipt {
        place,
        determinant: *determinant,
        at: Some(named_place(pasts, place, orphan, &moment)),
        strike,
        orphans: orphans_at(pasts, place, &moment, strike),
        moment,
        shown: MemberSet::empty().with(orphan),
    })
}

/// What is to be said of the receipt at the place, which the determinant names: nothing where it is safe.
fn unsafe_receipt(
    pasts: &Pasts<'_>,
    place: usize,
    determinant: &Determinant,
) -> Option<UnsafeReceipt>
    requires run { IsRun pasts.now }
    requires receipt { IsReceiptHere pasts.now.entries place determinant.now }
    ensures { (i : Position) → StandsAt pasts.now.entries place i
        → MatchOption result (¬ (IsUnsafe (run_of pasts.now) i)) (λ said. (said.place ≡ place) × IsSaidOf pasts.now i said) }
{
    match pasts.run().judged() {
        Judged::AtItsEnd => unsafe_at_end(pasts, place, determinant),
        Judged::AtEachMoment => unsafe_at_moment(pasts, place, determinant),
    }
}

/// The receipts that are unsafe where the run is judged, in the order of the entries: none exactly where the run is safe. Those of the
/// strike set are lost already, so the question is of all sets that have these and at most `f` members, or as many as are struck.
///
/// Of a run that is judged at each moment it looks, for each receipt and each set of restarts that some moment has, at the least moment at
/// which the receipt's own member depends on it, and then at the least moment of each member in turn, up to one at which no more members
/// are struck than at the first. Each receipt is said at the moment where the fewest are struck, then at the one whose list of members
/// comes first, then at that of the least member, then where the fewest restarts have come. So the time taken is at most that of the
/// entries times the square of the members and the sets of restarts, but for a logarithm. `Err` comes only where there is no memory for
/// the answer.
pub fn unsafe_receipts(alloc: Global, pasts: &Pasts<'_>) -> Result<Vec<UnsafeReceipt>, AllocError>
    ensures said { IfOk result (λ v. SaysUnsafe pasts.now 0 pasts.now.entries v.items) }
    ensures safe { IfOk result (λ v. (v.items ≡ []) ↔ IsSafe (run_of pasts.now)) }
{
    let mut unsafe_receipts = Vec::new(alloc);
    for (place, entry) in pasts.entries().iter().enumerate() {
        if let Some(determinant) = entry.receipt() {
            if let Some(receipt) = unsafe_receipt(pasts, place, &determinant) {
                unsafe_receipts.push(receipt)?;
            }
        }
    }
    Ok(unsafe_receipts)
}

/// The first of these receipts, found without the others.
pub fn first_unsafe(pasts: &Pasts<'_>) -> Option<UnsafeReceipt>
    ensures { MatchOption result (IsSafe (run_of pasts.now)) (IsFirstUnsafe pasts.now) }
{
    for (place, entry) in pasts.entries().iter().enumerate() {
        if let Some(determinant) = entry.receipt() {
            if let Some(receipt) = unsafe_receipt(pasts, place, &determinant) {
                return Some(receipt);
            }
        }
    }
    None
}
