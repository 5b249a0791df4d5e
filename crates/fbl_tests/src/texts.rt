//! A dump and a log as texts, and what a dump's text is read as.

use fbl_base::RawDump;
use fbl_records::{RecordedInput, read_recorded};
use fbl_runs::RawRecording;
use std::alloc::{AllocError, Global};

/// A message that went once round three members, of whom one may be lost, in a dump without a pair that a run leaves: its first receipt
/// is lost with member 1.
pub(crate) const LOST: &str =
    r#"{"events":[["send",0,1,1],["receipt",1,1,0,1],["send",1,1,2],["receipt",2,1,1,1],["send",2,1,0],["receipt",0,1,2,1]],"f":1,"held":[[0,1,1,2,1],[0,2,1,0,1],[1,0,1,1,1],[2,1,1,2,1]],"members":3,"strike":[1]}"#;

/// The same message in a log: what it brings member 2 comes to be held a moment too late.
pub(crate) const LATE: &str =
    r#"{"version":2,"members":3,"f":1,"events":[["send",0,1,1],["receipt",1,1,0,1],["hold",1,0,1,1,1],["send",1,1,2],["receipt",2,1,1,1],["hold",2,1,1,2,1],["send",2,1,0],["hold",2,0,1,1,1]],"strike":[]}"#;

/// The text's dump, whose rules are not checked.
pub(crate) fn dump(alloc: Global, text: &str) -> Result<RawDump, AllocError> {
    let read = read_recorded(alloc, &mut text.as_bytes());
    let RecordedInput {
        recorded,
        bytes: _bytes,
    } = read.ok().ok_or(AllocError)?;
    match recorded {
        RawRecording::Dump(raw) => Ok(raw),
        RawRecording::Log(_) => Err(AllocError),
    }
}
