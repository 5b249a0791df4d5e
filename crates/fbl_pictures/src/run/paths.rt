//! Paths from receipts to orphans.

ghost use Rattle.std.specs.Prelude.{◌≡◌, ◌++◌, ◌≤◌, List, OnOk, slice_get};
ghost use Rattle.std.specs.List.{range_with_len};
ghost use Rattle.fbl_judge.specs.Audits.{AreNamed};
ghost use Rattle.fbl_pictures.specs.RunShapes.{ArePathsDrawn, AreStepsTo, path_shapes, step_between as step_between_of, step_shape};
ghost use Rattle.fbl_history.specs.declared.shape.Shape.{Shape};

use crate::names::push_any;
use crate::run::finding::Finding;
use crate::run::window::Window;
use fbl_history::{ArrowKind, LineKind, Shape};
use fbl_judge::{Pasts, path_to};
use fbl_runs::Entry;
use fbl_trace::Member;
use std::alloc::{AllocError, Global};

/// A step from the entry at one place to that at another, if it is drawn: along their member's line, or from a send to its receipt.
fn step(window: &Window, start: usize, from: Member, end: usize, to: Member) -> Option<Shape>
    ensures { result ≡ step_shape window.now start from end to }
{
    if from.number() == to.number() {
        window.line(from, start, end, LineKind::Path)
    } else {
        window.arrow(from, start, to, end, ArrowKind::Path)
    }
}

/// The same, if there are both entries.
fn step_between(window: &Window, entries: &[Entry], start: usize, end: usize) -> Option<Shape>
    ensures { result ≡ step_between_of window.now start (slice_get entries.now start) end (slice_get entries.now end) }
{
    let from = entries.get(start)?.member();
    let to = entries.get(end)?.member();
    step(window, start, from, end, to)
}

/// Adds the steps of a path by these places.
fn push_path(
    shapes: &mut Vec<Shape>,
    window: &Window,
    entries: &[Entry],
    path: &[usize],
) -> Result<(), AllocError>
    ensures { OnOk result (shapes.new.items ≡ shapes.old.items ++ path_shapes window.now entries.now path.now) }
{
    if let [first, others @ ..] = path {
        let mut start = *first;
        for end in others {
            push_any(shapes, step_between(window, entries, start, *end))?;
            start = *end;
        }
    }
    Ok(())
}

/// Adds the steps of the path to the member, if one is drawn.
fn push_path_to(
    shapes: &mut Vec<Shape>,
    alloc: Global,
    pasts: &Pasts<'_>,
    window: &Window,
    finding: &Finding<'_>,
    member: Member,
) -> Result<(), AllocError>
    requires { AreNamed pasts.now finding.now.receipts.now }
    ensures { OnOk result
        ((steps : List Shape) × AreStepsTo pasts.now window.now finding.now member steps
        × (shapes.new.items ≡ shapes.old.items ++ steps)) }
{
    if let Some(cause) = finding.cause(pasts, member) {
        if let Some(path) = path_to(alloc, pasts, cause.place, member, &finding.moment)? {
            push_path(shapes, window, pasts.entries(), path.as_slice())?;
        }
    }
    Ok(())
}

/// Adds the steps of the path to each orphan among so many members.
pub(crate) fn push_paths(
    shapes: &mut Vec<Shape>,
    alloc: Global,
    pasts: &Pasts<'_>,
    window: &Window,
    finding: &Finding<'_>,
    members: u8,
) -> Result<(), AllocError>
    requires members { members ≤ 16 }
    requires named { AreNamed pasts.now finding.now.receipts.now }
    ensures { OnOk result
        ((paths : List Shape) × ArePathsDrawn pasts.now window.now finding.now (range_with_len 0 members) paths
        × (shapes.new.items ≡ shapes.old.items ++ paths)) }
{
    for number in 0..members {
        push_path_to(shapes, alloc, pasts, window, finding, Member::at(number))?;
    }
    Ok(())
}
