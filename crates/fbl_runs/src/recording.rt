//! What is recorded of a run: its end, in a dump, or the run itself, in a log.

use crate::run::{RawLog, Run};
use fbl_trace::{Dump, RawDump};

/// What is recorded of a run. It may break the rules of its kind.
#[derive(Drop)]
pub enum RawRecording {
    /// The run's end.
    Dump(RawDump),
    /// The run.
    Log(RawLog),
}

/// What is recorded of a run, which obeys the rules of its kind.
#[derive(Drop)]
pub enum Recording {
    /// The run's end.
    Dump(Dump),
    /// The run.
    Log(Run),
}
