//! Recorded runs as JSON: dumps, and logs, which are dumps of version 2.

ghost use Rattle.std.specs.Prelude.{◌≡◌, ◌≤◌, ℕ, List, length, IfOk, IfErr, IfSome};
ghost use Rattle.serde_json.specs.View.{view};
ghost use Rattle.fbl_trace.specs.Dumps.{IsDump, parts_of};
ghost use Rattle.fbl_input.specs.Shapes.{Gives, longest};
ghost use Rattle.fbl_runs.specs.Logs.{IsLog, parts_of_log};
ghost use Rattle.fbl_records.specs.Dumps.{IsDumpOf, IsNoDump, parts_of_data, parts_of_input};
ghost use Rattle.fbl_records.specs.Logs.{IsCheckedOf, IsNotChecked, IsNotRecorded, IsRecordedOf, IsRefusal, log_of_data, recorded_kind, recorded_of_data};
ghost use Rattle.fbl_runs.specs.Recordings.{ObeysRules, recorded_parts};
ghost use Rattle.fbl_runs.specs.declared.recording.Recording.TheVariants as parts;

use crate::dump_tokens::dump_in_tokens;
use crate::event_lines::{JsonText, json_text};
use crate::log_version::{LogVersionShape, log_version_in};
use fbl_input::items::{EntryShape, EventShape, PairShape};
use fbl_input::shapes::{
    ByteShape, SetShape, no_other_key, object_in, value_field, value_in, values_field,
};
use fbl_input::{InputFault, InputKind, Key, RunFault, read_input};
use fbl_runs::{Entry, LogBreach, RawLog, RawRecording, Recording, Run, checked_log};
use fbl_trace::{Determinant, Dump, Mark, Member, MemberSet, RawDump, checked_dump};
use serde_json::Value;
use std::alloc::Global;
use std::io::Read;

/// An input that has the form of a dump or of a log.
#[derive(Drop)]
pub struct RecordedInput {
    /// What it records.
    pub recorded: RawRecording,
    /// The bytes of the JSON text that the input means: its own, or that for which its lines stand.
    pub bytes: Vec<u8>,
}

/// The dump that a value gives, its rules not yet checked.
#[tactic(auto, unfolding(crate::specs::Dumps::parts_of_data))]
fn raw_dump_of(alloc: Global, value: &Value) -> Result<RawDump, RunFault>
    ensures { Gives parts_of result (parts_of_data (view value.now)) }
{
    object_in(value)?;
    let members = value_field::<u8, ByteShape>(value, Key::Members)?;
    let f = value_field::<u8, ByteShape>(value, Key::F)?;
    let events = values_field::<Mark, EventShape>(alloc, value, Key::Events)?;
    let held = values_field::<(Member, Determinant), PairShape>(alloc, value, Key::Held)?;
    let strike = value_field::<MemberSet, SetShape>(value, Key::Strike)?;
    no_other_key(InputKind::Dump, value)?;
    Ok(RawDump {
        members,
        f,
        events,
        held,
        strike,
    })
}

/// The log that a value gives, its rules not yet checked.
#[tactic(auto, unfolding(crate::specs::Logs::log_of_data))]
fn raw_log_of(alloc: Global, value: &Value) -> Result<RawLog, RunFault>
    ensures { Gives parts_of_log result (log_of_data (view value.now)) }
{
    object_in(value)?;
    value_field::<u8, LogVersionShape>(value, Key::Version)?;
    let members = value_field::<u8, ByteShape>(value, Key::Members)?;
    let f = value_field::<u8, ByteShape>(value, Key::F)?;
    let entries = values_field::<Entry, EntryShape>(alloc, value, Key::Events)?;
    let strike = value_field::<MemberSet, SetShape>(value, Key::Strike)?;
    no_other_key(InputKind::Log, value)?;
    Ok(RawLog {
        members,
        f,
        entries,
        strike,
    })
}

/// What the value is read as: a log where its version is 2, and else a dump.
fn kind_of(value: &Value) -> InputKind
    ensures { result ≡ recorded_kind (view value.now) }
{
    match log_version_in(value) {
        Some(_) => InputKind::Log,
        None => InputKind::Dump,
    }
}

/// What the value records of a run, its rules not yet checked.
fn recorded_of(alloc: Global, value: &Value) -> Result<RawRecording, RunFault>
    ensures { Gives recorded_parts result (recorded_of_data (view value.now)) }
{
    match kind_of(value) {
        InputKind::Log => raw_log_of(alloc, value).map(RawRecording::Log),
        _ => raw_dump_of(alloc, value).map(RawRecording::Dump),
    }
}

/// The dump with these parts and bytes, if it obeys the rules.
fn dump_of(alloc: Global, raw: RawDump, bytes: Vec<u8>) -> Result<Dump, InputFault>
    ensures dump { IfOk result (λ dump. dump ≡ parts_of raw) }
    ensures rules { IfOk result IsDump }
    ensures fault { IfErr result (IsRefusal (parts.Dump (parts_of raw)) bytes.items) }
{
    match checked_dump(alloc, raw) {
        Ok(dump) => Ok(dump),
        Err((refusal, breach)) => Err(InputFault {
            kind: InputKind::Dump,
            fault: RunFault::from(refusal),
            breach: Some(LogBreach::Trace(breach)),
            input: bytes,
        }),
    }
}

/// The log with these parts and bytes, if it obeys the rules.
fn log_of(alloc: Global, raw: RawLog, bytes: Vec<u8>) -> Result<Run, InputFault>
    ensures log { IfOk result (λ log. log ≡ parts_of_log raw) }
    ensures rules { IfOk result IsLog }
    ensures fault { IfErr result (IsRefusal (parts.Log (parts_of_log raw)) bytes.items) }
{
    match checked_log(alloc, raw) {
        Ok(log) => Ok(log),
        Err((refusal, breach)) => Err(InputFault {
            kind: InputKind::Log,
            fault: RunFault::from(refusal),
            breach: Some(breach),
            input: bytes,
        }),
    }
}

/// What the bytes spell as a dump, its rules not yet checked.
fn raw_dump_in(alloc: Global, input: &[u8]) -> Result<RawDump, RunFault>
    ensures { Gives parts_of result (parts_of_input input.now) }
{
    let value = value_in(alloc, input)?;
    raw_dump_of(alloc, &value)
}

/// The dump that the reader has, as one JSON object, or the first fault of the input.
pub fn read_dump<R: Read>(alloc: Global, reader: &mut R) -> Result<Dump, InputFault>
    ensures dump { IfOk result (λ dump. IfSome (R.remaining reader.old) (λ input. IsDumpOf input dump)) }
    ensures fault { IfErr result (λ fault. IfSome (R.remaining reader.old) (λ input. IsNoDump input fault)) }
{
    let kind = InputKind::Dump;
    let bytes = read_input(alloc, kind, reader)?;
    match raw_dump_in(alloc, bytes.as_slice()) {
        Ok(raw) => dump_of(alloc, raw, bytes),
        Err(fault) => Err(InputFault::new(kind, fault, bytes)),
    }
}

/// What the input records of a run, or the first fault of its form.
fn recorded_in(alloc: Global, input: Vec<u8>) -> Result<RecordedInput, InputFault>
    requires { length input.items ≤ longest }
    ensures parts { IfOk result (IsRecordedOf input.items) }
    ensures fault { IfErr result (IsNotRecorded input.items) }
{
    let Ok(found) = dump_in_tokens(alloc, input.as_slice()) else {
        return Err(InputFault::new(InputKind::Dump, RunFault::Memory, Vec::new(alloc)));
    };
    if let Some(raw) = found {
        return Ok(RecordedInput {
            recorded: RawRecording::Dump(raw),
            bytes: input,
        });
    }
    let Ok(JsonText { text, value }) = json_text(alloc, input) else {
        return Err(InputFault::new(InputKind::Dump, RunFault::Memory, Vec::new(alloc)));
    };
    let Some(value) = value else {
        return Err(InputFault::new(InputKind::Dump, RunFault::NotJson, text));
    };
    match recorded_of(alloc, &value) {
        Ok(recorded) => Ok(RecordedInput {
            recorded,
            bytes: text,
        }),
        Err(fault) => Err(InputFault::new(kind_of(&value), fault, text)),
    }
}

/// What the reader has, as one JSON object in the form of a log where its `version` is 2, and else in the form of a dump; or the lines of
/// a log. Or the first fault of that form.
pub fn read_recorded<R: Read>(alloc: Global, reader: &mut R) -> Result<RecordedInput, InputFault>
    ensures parts { IfOk result (λ found. IfSome (R.remaining reader.old) (λ input. IsRecordedOf input found)) }
    ensures fault { IfErr result (λ fault. IfSome (R.remaining reader.old) (λ input. IsNotRecorded input fault)) }
{
    recorded_in(alloc, read_input(alloc, InputKind::Dump, reader)?)
}

/// What the input records, once its rules are checked, or the first fault.
fn checked_input(alloc: Global, input: RecordedInput) -> Result<Recording, InputFault>
    ensures parts { IfOk result (λ found. found ≡ recorded_parts input.recorded) }
    ensures rules { IfOk result ObeysRules }
    ensures fault { (bytes : List ℕ) → IsRecordedOf bytes input → IfErr result (IsNotChecked bytes) }
{
    let RecordedInput { recorded, bytes } = input;
    match recorded {
        RawRecording::Dump(raw) => Ok(Recording::Dump(dump_of(alloc, raw, bytes)?)),
        RawRecording::Log(raw) => Ok(Recording::Log(log_of(alloc, raw, bytes)?)),
    }
}

/// What the reader has, as one JSON object, a dump or a log, or as the lines of a log; or the first fault of the input.
pub fn read_checked<R: Read>(alloc: Global, reader: &mut R) -> Result<Recording, InputFault>
    ensures checked { IfOk result (λ found. IfSome (R.remaining reader.old) (λ input. IsCheckedOf input found)) }
    ensures fault { IfErr result (λ fault. IfSome (R.remaining reader.old) (λ input. IsNotChecked input fault)) }
{
    checked_input(alloc, read_recorded(alloc, reader)?)
}
