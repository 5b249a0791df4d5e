//! What several files record of one run, as the members of a group write one each.

ghost use Rattle.std.specs.Prelude.{◌≡◌, ◌<◌, ℕ, IfErr, IfOk, MatchOption, length};
ghost use Rattle.fbl_trace.specs.Dumps.{parts_of};
ghost use Rattle.fbl_runs.specs.Logs.{parts_of_log};
ghost use Rattle.fbl_order.specs.Files.{Agrees, AgreesAt, Differs, IsFirstOther, IsFirstOutside, IsUnion, IsUnionOfDumps, IsUnionOfLogs, IsWithinAt, RefusesFiles, dump_group, log_group};
ghost use Rattle.fbl_order.specs.Pieces.{entries_of};

use crate::order::{Ordered, items_at};
use crate::pieces::{lives_of, places_by_life};
use fbl_runs::{Entry, RawLog};
use fbl_trace::{MemberSet, Outsider, RawDump};
use std::alloc::{AllocError, Global};
use std::convert::From;
use thiserror::Error;

/// Why files record no run together.
#[derive(Clone, Copy, Debug, Error)]
pub enum FilesDiffer {
    /// The file with this number, the first that differs from the first file, has another number of members.
    #[error("members is {other}, and {first} in the first file")]
    Members { file: usize, first: u8, other: u8 },
    /// It has as many members, and another number of them might be lost at once.
    #[error("f is {other}, and {first} in the first file")]
    F { file: usize, first: u8, other: u8 },
    /// There is no memory for what they record together.
    #[error("out of memory")]
    Memory,
}

impl From<AllocError> for FilesDiffer {
    ghost use Rattle.std.specs.Prelude.{◌≡◌};
    ghost use Rattle.fbl_order.specs.declared.files.FilesDiffer.TheVariants.{Memory};

    ghost from_gives = { λ _ e. e ≡ Memory };

    fn from(_: AllocError) -> FilesDiffer {
        FilesDiffer::Memory
    }
}

/// The group of a run: how many members it had, how many of them might be lost at once, and who is taken to be lost.
#[derive(Clone, Copy)]
pub(crate) struct RunGroup {
    members: u8,
    f: u8,
    strike: MemberSet,
}

/// What a file says of the group.
trait Grouped {
    ghost use Rattle.std.specs.Prelude.{◌≡◌};
    ghost use Rattle.fbl_order.specs.declared.files.RunGroup.{RunGroup};

    ghost group_of: { Self → RunGroup };

    fn group(&self) -> RunGroup
        ensures { result ≡ group_of self.now };
}

impl Grouped for RawDump {
    ghost use Rattle.fbl_order.specs.Files.{dump_group};

    ghost group_of = { dump_group };

    fn group(&self) -> RunGroup {
        RunGroup {
            members: self.members,
            f: self.f,
            strike: self.strike,
        }
    }
}

impl Grouped for RawLog {
    ghost use Rattle.fbl_order.specs.Files.{log_group};

    ghost group_of = { log_group };

    fn group(&self) -> RunGroup {
        RunGroup {
            members: self.members,
            f: self.f,
            strike: self.strike,
        }
    }
}

/// How the file with the number differs from the first one.
fn difference(file: usize, first: &RunGroup, other: &RunGroup) -> Option<FilesDiffer>
    ensures { MatchOption result (Agrees first.now other.now) (Differs file first.now other.now) }
{
    if other.members != first.members {
        return Some(FilesDiffer::Members {
            file,
            first: first.members,
            other: other.members,
        });
    }
    if other.f != first.f {
        return Some(FilesDiffer::F {
            file,
            first: first.f,
            other: other.f,
        });
    }
    None
}

/// The group of all files: they have the same members, and the same number of them might be lost at once. Who is struck in any of them
/// is struck.
fn common_group<P: Grouped>(files: &[P]) -> Result<RunGroup, FilesDiffer>
    requires { 0 < length files.now }
    ensures union { IfOk result (IsUnion P.group_of files.now) }
    ensures refused { IfErr result (IsFirstOther P.group_of files.now) }
{
    let first = files[0].group();
    let mut strike = MemberSet::empty();
    for file in 0..files.len() {
        let group = files[file].group();
        if let Some(fault) = difference(file, &first, &group) {
            return Err(fault);
        }
        strike = strike.union(group.strike);
    }
    Ok(RunGroup { strike, ..first })
}

/// The dumps as one: their events one file's behind another's, who held what in any of them, and who is struck in any of them.
/// They have the same members, and the same number of them might be lost at once.
pub(crate) fn union_of_dumps(alloc: Global, files: &[RawDump]) -> Result<RawDump, FilesDiffer>
    requires { 0 < length files.now }
    ensures union { IfOk result (λ whole. IsUnionOfDumps files.now (parts_of whole)) }
    ensures refused { IfErr result (RefusesFiles dump_group files.now) }
{
    let RunGroup { members, f, strike } = common_group(files)?;
    let mut events = Vec::new(alloc);
    let mut held = Vec::new(alloc);
    for file in files {
        events.extend_from_slice(file.events.as_slice())?;
        held.extend_from_slice(file.held.as_slice())?;
    }
    Ok(RawDump {
        members,
        f,
        events,
        held,
        strike,
    })
}

/// The entries of the logs, one file's behind another's.
fn entries_of(alloc: Global, files: &[RawLog]) -> Result<Vec<Entry>, AllocError>
    ensures { IfOk result (λ v. v.items ≡ entries_of files.now) }
{
    let mut entries = Vec::new(alloc);
    for file in files {
        entries.extend_from_slice(file.entries.as_slice())?;
    }
    Ok(entries)
}

/// The logs as one: their entries one file's behind another's, but for a member's pieces, which follow by their lives; and who is struck in
/// any of them. They have the same members, and the same number of them might be lost at once.
pub(crate) fn union_of_logs(alloc: Global, files: &[RawLog]) -> Result<Ordered<RawLog>, FilesDiffer>
    requires { 0 < length files.now }
    ensures union { IfOk result (λ o. IsUnionOfLogs files.now (parts_of_log o.run) o.places.items) }
    ensures count { IfOk result (λ o. length o.places.items ≡ length o.run.entries.items) }
    ensures refused { IfErr result (RefusesFiles log_group files.now) }
{
    let RunGroup { members, f, strike } = common_group(files)?;
    let given = entries_of(alloc, files)?;
    let lives = lives_of(alloc, files)?;
    let places = places_by_life(alloc, given.as_slice(), lives.as_slice())?;
    let entries = items_at(alloc, given.as_slice(), places.as_slice())?;
    let run = RawLog {
        members,
        f,
        entries,
        strike,
    };
    Ok(Ordered { run, places })
}

/// Of the files' strike sets, the number of the first file with a member outside a group of so many, and the least such member in it.
pub(crate) fn first_outsider(strikes: &[MemberSet], members: u8) -> Option<(usize, Outsider)>
    ensures { MatchOption result ((i : ℕ) → IsWithinAt strikes.now members i) (IsFirstOutside strikes.now members) }
{
    for file in 0..strikes.len() {
        if let Some(outsider) = strikes[file].outsider(members) {
            return Some((file, outsider));
        }
    }
    None
}
