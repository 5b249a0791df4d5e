//! Which entries stand at the moment, and which are undone.

ghost use Rattle.std.specs.Prelude.{◌≡◌, IfOk};
ghost use Rattle.fbl_runs.specs.Clocks.{cut_of};
ghost use Rattle.fbl_pictures.specs.RunShapes.{AreStanding, is_undone as is_undone_at};

use crate::run::columns::Columns;
use fbl_judge::Pasts;
use fbl_runs::Clock;
use fbl_trace::Member;
use std::alloc::{AllocError, Global};

/// For each entry of the run whether it stands at the clock's cut.
pub(crate) fn standing_of(
    alloc: Global,
    pasts: &Pasts<'_>,
    moment: &Clock,
) -> Result<Vec<bool>, AllocError>
    ensures { IfOk result (λ standing. AreStanding pasts.now (cut_of moment.now) standing.items) }
{
    let entries = pasts.entries();
    let mut standing = Vec::new(alloc);
    for place in 0..entries.len() {
        standing.push(pasts.stands(place, moment))?;
    }
    Ok(standing)
}

/// Whether a restart undid the entry at the place, which is the member's.
pub(crate) fn is_undone(standing: &[bool], moment: &Columns, place: usize, member: Member) -> bool
    ensures { result ≡ is_undone_at standing.now moment.now place member }
{
    let stands = match standing.get(place) {
        Some(stands) => *stands,
        None => false,
    };
    moment.has_come(place, member) && !stands
}
