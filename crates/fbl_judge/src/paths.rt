//! Why a member depends on a receipt: a path from the one to the other.

ghost use Rattle.std.specs.Prelude.{◌≡◌, ◌<◌, IfNone, IfOk, IfSome, length};
ghost use Rattle.fbl_runs.specs.Clocks.{StandsAt, cut_of};
ghost use Rattle.fbl_runs.specs.Entries.{log_of};
ghost use Rattle.fbl_runs.specs.HappenedBefore.{Position};
ghost use Rattle.fbl_runs.specs.Moments.{DependsAt};
ghost use Rattle.fbl_judge.specs.Dependents.{IsDependentSend};
ghost use Rattle.fbl_judge.specs.Paths.{ArePathsFrom, DependsIn, IsDependentOn, IsPathTo, IsPlaceBefore};

use crate::named::first_dependent_place;
use crate::pasts::Pasts;
use fbl_runs::{Causality, Clock};
use fbl_trace::{Member, MemberSet};
use std::alloc::{AllocError, Global};

/// A member that depends on a receipt, and a path from the receipt to it.
#[derive(Drop)]
pub struct OrphanPath {
    pub orphan: Member,
    /// The places of the entries on the path, from 0: the first is the receipt's, each next one is that of a later entry of the same member
    /// or of the receipt of what was sent, and the last is that of the member's first entry that depends on the receipt.
    pub places: Vec<usize>,
}

/// The place of the send whose message the entry at the place takes, if it takes one and the send depends on the receipt.
fn dependent_send(pasts: &Pasts<'_>, receipt: usize, place: usize) -> Option<usize>
    requires receipt { receipt < length pasts.now.entries }
    requires place { place < length pasts.now.entries }
    ensures { (i j : Position) → StandsAt pasts.now.entries receipt i → StandsAt pasts.now.entries place j
        → IsDependentSend pasts.now.entries i j result }
{
    let Some(_) = pasts.entries()[place].event() else {
        return None;
    };
    let Some(send) = pasts.index().link(place).message else {
        return None;
    };
    if pasts.precedes(Causality::Dependence, receipt, send) {
        Some(send)
    } else {
        None
    }
}

/// The place of the entry that stands before the one at the place on a path from the receipt: the send whose message it takes, if that
/// depends on the receipt, or else the first of its member's entries that stood when it came and depends on the receipt.
fn place_before(pasts: &Pasts<'_>, receipt: usize, place: usize) -> Option<usize>
    requires receipt { receipt < length pasts.now.entries }
    requires place { place < length pasts.now.entries }
    requires depends { IsDependentOn pasts.now.entries receipt place }
    ensures { IsPlaceBefore pasts.now.entries receipt place result }
{
    let entries = pasts.entries();
    if place == receipt {
        return None;
    }
    if let Some(send) = dependent_send(pasts, receipt, place) {
        return Some(send);
    }
    let member = entries[place].member();
    let (number, count) = (pasts.number(place), pasts.index().count(member));
    prove!(number < count);
    let stood = Clock::none().reaching(member, number + 1);
    first_dependent_place(pasts, receipt, member, &stood)
}

/// The places of a path from the receipt at the place to the member, if the member depends on it at the clock's cut, as `OrphanPath` has
/// them. `Err` comes only where there is no memory for the places.
pub fn path_to(
    alloc: Global,
    pasts: &Pasts<'_>,
    receipt: usize,
    member: Member,
    moment: &Clock,
) -> Result<Option<Vec<usize>>, AllocError>
    requires { receipt < length pasts.now.entries }
    ensures path { (i : Position) → StandsAt pasts.now.entries receipt i
        → IfOk result (λ found. IfSome found (λ path. IsPathTo pasts.now i (cut_of moment.now) member path.items)) }
    ensures to_all { (i : Position) → StandsAt pasts.now.entries receipt i
        → IfOk result (λ found. IfNone found (¬ (DependsAt (log_of pasts.now.entries) (cut_of moment.now) i member))) }
{
    let Some(end) = first_dependent_place(pasts, receipt, member, moment) else {
        return Ok(None);
    };
    let mut path = Vec::new(alloc);
    path.push(end)?;
    let mut place = end;
    while let Some(before) = place_before(pasts, receipt, place) {
        path.push(before)?;
        place = before;
    }
    path.reverse();
    Ok(Some(path))
}

/// A path from the receipt at the place to each of these members that depends on it at the clock's cut; the members rise.
pub fn paths_to(
    alloc: Global,
    pasts: &Pasts<'_>,
    receipt: usize,
    members: MemberSet,
    moment: &Clock,
) -> Result<Vec<OrphanPath>, AllocError>
    requires { receipt < length pasts.now.entries }
    ensures { (i : Position) → StandsAt pasts.now.entries receipt i
        → IfOk result (λ v. ArePathsFrom pasts.now i (cut_of moment.now) (DependsIn pasts.now i (cut_of moment.now) members) 0 v.items) }
{
    let mut paths = Vec::new(alloc);
    for number in 0..pasts.run().members() {
        let orphan = Member::at(number);
        if members.has(orphan) {
            if let Some(places) = path_to(alloc, pasts, receipt, orphan, moment)? {
                paths.push(OrphanPath { orphan, places })?;
            }
        }
    }
    Ok(paths)
}
