//! The entry around which a run is drawn, as a command line names it.

ghost use Rattle.std.specs.Prelude.{IfOk};
ghost use Rattle.fbl_program.specs.Arounds.{IsAsked, IsPlaceNamed};

use crate::fault::AnswerFault;
use fbl_runs::{Sources, spot_text};
use std::alloc::{AllocError, Global};

/// The place of the first of so many entries that stands where these words say, if one does.
fn place_named(
    alloc: Global,
    sources: &Sources<'_>,
    count: usize,
    words: &str,
) -> Result<Option<usize>, AllocError>
    ensures { IfOk result (IsPlaceNamed sources.now count words.now) }
{
    for place in 0..count {
        let spot = spot_text(alloc, sources, place)?;
        if spot.as_str() == words {
            return Ok(Some(place));
        }
    }
    Ok(None)
}

/// The place of the entry that the words name, among so many, if there are words. That none stands there is told.
pub(crate) fn place_asked<R: Eprint>(
    rt: &R,
    alloc: Global,
    sources: &Sources<'_>,
    count: usize,
    words: Option<&str>,
) -> Result<Option<usize>, AnswerFault>
    ensures { IsAsked sources.now count words.entry result }
{
    let Some(words) = words else {
        return Ok(None);
    };
    let place = place_named(alloc, sources, count, words)?;
    if place.is_none() {
        let _ = eprintln!(rt; "error: --around names {words:?}, and no entry stands there");
        return Err(AnswerFault::Refused);
    }
    Ok(place)
}
