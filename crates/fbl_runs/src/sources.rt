//! Where the entries of a run stand in the files from which it was put together.

ghost use Rattle.std.specs.Prelude.{◌≡◌, ◌≤◌, IfOk, MatchOption, option_map, string_bytes, sum};
ghost use Rattle.fbl_runs.specs.Sources.{IsPlaceIn, IsSpot, IsSpotText};

use std::alloc::{AllocError, Global};
use std::fmt;

/// Where the entries of a run stand in the files from which it was put together. All lists are empty where it is that of one file.
#[derive(Clone, Copy)]
pub struct Sources<'a> {
    /// The names of the files.
    pub names: &'a [&'a str],
    /// How many entries each file has.
    pub lengths: &'a [usize],
    /// Of each entry of the run, by its place there, its place among those of all files, one file's behind another's: where there is
    /// none here, both are the same.
    pub places: &'a [usize],
}

/// Of lists of these lengths one behind another, the list that has the place, and the place in it.
fn place_in_lists(lengths: &[usize], place: usize) -> Option<(usize, usize)>
    ensures { MatchOption result (sum lengths.now ≤ place) (IsPlaceIn lengths.now place) }
{
    let mut left = place;
    for (list, length) in lengths.iter().enumerate() {
        if left < *length {
            return Some((list, left));
        }
        left -= *length;
    }
    None
}

/// The words for a file behind a place in it, as in ` in "a.json"`: none where there is one file.
#[derive(Clone, Copy)]
pub struct InFile<'a> {
    pub name: Option<&'a str>,
}

impl fmt::Display for InFile<'_> {
    ghost use Rattle.std.specs.Prelude.{option_map};
    ghost use Rattle.fbl_runs.specs.Sources.{file_words};

    ghost output = { λ file. file_words (option_map (λ name. name.now) file.name) };

    fn fmt<W: fmt::Write>(&self, f: &mut fmt::Formatter<W>) -> fmt::Result {
        match self.name {
            Some(name) => write!(f, " in {name:?}"),
            None => Ok(()),
        }
    }
}

/// A place in a file.
#[derive(Clone, Copy)]
pub struct Spot<'a> {
    pub place: usize,
    pub file: InFile<'a>,
}

impl fmt::Display for Spot<'_> {
    fn fmt<W: fmt::Write>(&self, f: &mut fmt::Formatter<W>) -> fmt::Result {
        let Spot { place, file } = self;
        write!(f, "{place}{file}")
    }
}

impl<'a> Sources<'a> {
    /// Where the entry at the place of the run stands in its own file.
    pub fn spot(&self, place: usize) -> Spot<'a>
        ensures { IsSpot self.now place result.place (option_map (λ name. name.now) result.file.name) }
    {
        let given = self.places.get(place).copied().unwrap_or(place);
        let (place, name) = match place_in_lists(self.lengths, given) {
            Some((file, place)) => (place, self.names.get(file).copied()),
            None => (given, None),
        };
        let file = InFile { name };
        Spot { place, file }
    }
}

/// The words for where the entry at the place of the run stands: its place in its own file, and which file that is where there are
/// several, as in `4 in "a.json"`. `Err` comes only where there is no memory for them.
pub fn spot_text(alloc: Global, sources: &Sources<'_>, place: usize) -> Result<String, AllocError>
    ensures { IfOk result (λ text. IsSpotText sources.now place (string_bytes text)) }
{
    let spot = sources.spot(place);
    let file = spot.file.to_string(alloc)?;
    let place = spot.place;
    format!(in alloc; "{place}{file}")
}
