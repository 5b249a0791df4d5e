//! What several files have of the members' logs: of each member a piece.

ghost use Rattle.std.specs.Prelude.{◌≡◌, ◌<◌, ◌++◌, ◌↔◌, ℕ, true, AllPairs, IfOk, OnOk, length, slice_index_or};
ghost use Rattle.fbl_order.specs.Pieces.{AreByLife, IsInTurn, as_given, life_of_piece, lives_in, lives_of, turn_of};

use fbl_runs::{Entry, RawLog};
use std::alloc::{AllocError, Global};

/// For each member's number the life of its first restart: 0 where it has none. The time taken is linear in the entries.
fn piece_lives(entries: &[Entry]) -> [u32; 16]
    ensures lives { (q : ℕ) → q < 16 → slice_index_or result q 0 ≡ life_of_piece q entries.now }
    ensures room { length result ≡ 16 }
{
    let mut lives = [0; 16];
    for place in (0..entries.len()).rev() {
        if let Some(restart) = entries[place].restart() {
            lives[restart.member.number() as usize] = restart.life;
        }
    }
    lives
}

/// Adds for each entry of a file the life of its piece.
fn push_lives(lives: &mut Vec<u32>, entries: &[Entry]) -> Result<(), AllocError>
    ensures { OnOk result (lives.new.items ≡ lives.old.items ++ lives_in entries.now) }
{
    let pieces = piece_lives(entries);
    for entry in entries {
        lives.push(pieces[entry.member().number() as usize])?;
    }
    Ok(())
}

/// For each entry of the files, one file's behind another's, the life of its piece.
pub(crate) fn lives_of(alloc: Global, files: &[RawLog]) -> Result<Vec<u32>, AllocError>
    ensures { IfOk result (λ v. v.items ≡ lives_of files.now) }
{
    let mut lives = Vec::new(alloc);
    for file in files {
        push_lives(&mut lives, file.entries.as_slice())?;
    }
    Ok(lives)
}

/// Whether each member's pieces follow by their lives where they stand.
fn stand_by_life(entries: &[Entry], lives: &[u32]) -> bool
    requires { length lives.now ≡ length entries.now }
    ensures { (result ≡ true) ↔ AllPairs (IsInTurn entries.now lives.now) (as_given entries.now) }
{
    let mut latest = [0; 16];
    for place in 0..entries.len() {
        let number = entries[place].member().number() as usize;
        if lives[place] < latest[number] {
            return false;
        }
        latest[number] = lives[place];
    }
    true
}

/// By what the places of a member are put in order: the life of the piece, and then the place.
fn turn_of(lives: &[u32], place: usize) -> (u32, usize)
    ensures { result ≡ turn_of lives.now place }
{
    (lives.get(place).copied().unwrap_or(0), place)
}

/// The places of the entries, in an order in which each member's pieces follow by their lives: as they stand, where they do so there.
pub(crate) fn places_by_life(
    alloc: Global,
    entries: &[Entry],
    lives: &[u32],
) -> Result<Vec<usize>, AllocError>
    requires { length lives.now ≡ length entries.now }
    ensures { IfOk result (λ v. AreByLife entries.now lives.now v.items) }
{
    let mut places = Vec::new(alloc);
    for place in 0..entries.len() {
        places.push(place)?;
    }
    if !stand_by_life(entries, lives) {
        places.sort_by_key(|place| turn_of(lives, *place))?;
    }
    Ok(places)
}
