//! What several files record of one run, as one: what they have together, with its events in an order that obeys the rules.

ghost use Rattle.std.specs.Prelude.{◌≡◌, ◌<◌, IfErr, IfOk, List, [], ◌∷◌, ◌++◌};
ghost use Rattle.fbl_runs.specs.declared.recording.RawRecording.{RawRecording};
ghost use Rattle.fbl_order.specs.Recordings.{AreRecordings, IsMergeOf, RefusesMerge, RefusesVersions, count_of};

use crate::dumps::order_dump;
use crate::fault::OrderFault;
use crate::files::{FilesDiffer, union_of_dumps, union_of_logs};
use crate::logs::order_union;
use crate::order::Ordered;
use fbl_runs::{RawLog, RawRecording, Recording};
use fbl_trace::RawDump;
use std::alloc::{AllocError, AllocFailed, Global};
use std::convert::From;

/// Why what several files record is no run together.
#[derive(Drop)]
pub enum MergeFault {
    /// The file with this number, the first such, has a log, and the first file a dump, which has no version.
    LogAmongDumps(usize),
    /// The file with this number, the first such, has a dump, and the first file a log.
    DumpAmongLogs(usize),
    /// They differ in their members or in `f`, or memory runs out.
    Files(FilesDiffer),
    /// The events have no order, or what the files have together breaks another rule.
    Order(OrderFault),
}

impl From<FilesDiffer> for MergeFault {
    ghost use Rattle.fbl_order.specs.declared.recordings.MergeFault.TheVariants.{Files};

    ghost from_gives = { λ fault e. e ≡ Files fault };

    fn from(fault: FilesDiffer) -> MergeFault {
        MergeFault::Files(fault)
    }
}

impl From<OrderFault> for MergeFault {
    ghost use Rattle.fbl_order.specs.declared.recordings.MergeFault.TheVariants.{Order};

    ghost from_gives = { λ fault e. e ≡ Order fault };

    fn from(fault: OrderFault) -> MergeFault {
        MergeFault::Order(fault)
    }
}

impl From<AllocError> for MergeFault {
    ghost use Rattle.fbl_order.specs.declared.recordings.MergeFault.TheVariants.{Files};
    ghost use Rattle.fbl_order.specs.declared.files.FilesDiffer.TheVariants.{Memory};

    ghost from_gives = { λ _ e. e ≡ Files Memory };

    fn from(_: AllocError) -> MergeFault {
        MergeFault::Files(FilesDiffer::Memory)
    }
}

impl<T: Drop> From<AllocFailed<T>> for MergeFault {
    ghost use Rattle.fbl_order.specs.declared.recordings.MergeFault.TheVariants.{Files};
    ghost use Rattle.fbl_order.specs.declared.files.FilesDiffer.TheVariants.{Memory};

    ghost from_gives = { λ _ e. e ≡ Files Memory };

    fn from(_: AllocFailed<T>) -> MergeFault {
        MergeFault::Files(FilesDiffer::Memory)
    }
}

/// What several files record of one run, all in one version.
#[derive(Drop)]
pub enum Recordings {
    /// Dumps, in the order of their files.
    Dumps(Vec<RawDump>),
    /// Logs, in the order of their files.
    Logs(Vec<RawLog>),
}

impl Recordings {
    /// What one file records.
    pub fn of(alloc: Global, recorded: RawRecording) -> Result<Recordings, AllocError>
        ensures { IfOk result (AreRecordings (recorded ∷ [])) }
    {
        Ok(match recorded {
            RawRecording::Dump(raw) => {
                let mut dumps = Vec::new(alloc);
                dumps.push(raw)?;
                Recordings::Dumps(dumps)
            }
            RawRecording::Log(raw) => {
                let mut logs = Vec::new(alloc);
                logs.push(raw)?;
                Recordings::Logs(logs)
            }
        })
    }

    /// These and the next one, where it is of their version.
    fn with(self, alloc: Global, next: RawRecording) -> Result<Recordings, MergeFault>
        ensures recordings { (found : List RawRecording) → AreRecordings found self
            → IfOk result (AreRecordings (found ++ next ∷ [])) }
        ensures refused { (found rest : List RawRecording) → AreRecordings found self
            → IfErr result (RefusesVersions (found ++ next ∷ rest)) }
    {
        match (self, next) {
            (Recordings::Dumps(dumps), RawRecording::Dump(raw)) => {
                let mut dumps = dumps;
                dumps.push(raw)?;
                Ok(Recordings::Dumps(dumps))
            }
            (Recordings::Logs(logs), RawRecording::Log(raw)) => {
                let mut logs = logs;
                logs.push(raw)?;
                Ok(Recordings::Logs(logs))
            }
            (Recordings::Dumps(dumps), RawRecording::Log(raw)) => {
                if !dumps.is_empty() {
                    return Err(MergeFault::LogAmongDumps(dumps.len()));
                }
                Ok(Recordings::of(alloc, RawRecording::Log(raw))?)
            }
            (Recordings::Logs(logs), RawRecording::Dump(_)) => {
                Err(MergeFault::DumpAmongLogs(logs.len()))
            }
        }
    }
}

/// What these files record, where they are of one version.
pub fn in_one_version(alloc: Global, files: Vec<RawRecording>) -> Result<Recordings, MergeFault>
    ensures recordings { IfOk result (AreRecordings files.items) }
    ensures refused { IfErr result (RefusesVersions files.items) }
{
    let mut recordings = Recordings::Dumps(Vec::new(alloc));
    for recorded in files {
        recordings = recordings.with(alloc, recorded)?;
    }
    Ok(recordings)
}

/// What the files have together, its events in an order in which each member's own stand as the files have them, one file's behind
/// another's, and of logs its pieces by their lives.
pub fn merge_of(alloc: Global, files: &Recordings) -> Result<Ordered<Recording>, MergeFault>
    requires { 0 < count_of files.now }
    ensures merged { IfOk result (IsMergeOf files.now) }
    ensures refused { IfErr result (RefusesMerge files.now) }
{
    match files {
        Recordings::Dumps(dumps) => {
            let whole = union_of_dumps(alloc, dumps.as_slice())?;
            let Ordered { run, places } = order_dump(alloc, whole)?;
            let run = Recording::Dump(run);
            Ok(Ordered { run, places })
        }
        Recordings::Logs(logs) => {
            let whole = union_of_logs(alloc, logs.as_slice())?;
            let Ordered { run, places } = order_union(alloc, whole)?;
            let run = Recording::Log(run);
            Ok(Ordered { run, places })
        }
    }
}
