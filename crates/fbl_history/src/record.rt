//! The record of a history, as a log: what the members of its group would have written of it.

ghost use Rattle.std.specs.Prelude.{◌≡◌, ◌≤◌, ◌↔◌, IfErr, IfOk, sum_by, true};
ghost use Rattle.fbl_runs.specs.Logs.{IsLog, parts_of_log};
ghost use Rattle.fbl_history.specs.Records.{IsLogFault, IsRecord, IsRoomFault, is_mark, restarts_of};

mod columns;
mod entries;

use crate::column::Column;
use crate::record::columns::raw_record_of;
use fbl_runs::{LogBreach, MOST_RESTARTS, RawLog, Run, checked_log};
use fbl_trace::{Behaviour, Config, DumpRefusal, MOST_EVENTS, Note};
use std::alloc::{AllocError, Global};
use thiserror::Error;

/// Why a history has no record.
#[derive(Clone, Copy, Debug, Error)]
pub enum RecordRefusal {
    /// There is no memory.
    #[error("memory")]
    Memory,
    /// It has more restarts than a log.
    #[error("the play has more than 8 restarts, and a log may have at most 8")]
    Restarts,
    /// It has more sends and receipts than a log, undone ones counted.
    #[error("the play has more than 8192 sends and receipts, and a log may have at most 8192")]
    Marks,
    /// The record breaks a rule of logs. Of no history of a play is that known.
    #[error("no log: {0}")]
    Refused(LogBreach),
    /// A new group does not go through the history. Of no history of a play is that known.
    #[error("no log: the history is of another group")]
    OtherHistory,
}

impl From<AllocError> for RecordRefusal {
    ghost use Rattle.std.specs.Prelude.{◌≡◌};
    ghost use Rattle.fbl_history.specs.declared.record.RecordRefusal.TheVariants.{Memory};

    ghost from_gives = { λ _ e. e ≡ Memory };

    fn from(_e: AllocError) -> RecordRefusal {
        RecordRefusal::Memory
    }
}

/// How many members the column brings back.
fn restarts_in(column: &Column) -> usize
    ensures { result ≡ restarts_of column.now }
{
    match column {
        Column::Recovery(replays) => replays.len(),
        _ => 0,
    }
}

/// Whether the column is of a send or a receipt.
fn is_mark(column: &Column) -> bool
    ensures { result ≡ is_mark column.now }
{
    matches!(column, Column::Send { .. } | Column::Receipt { .. })
}

/// Whether the history has few enough restarts for a log.
fn has_few_restarts(columns: &[Column]) -> bool
    ensures { (result ≡ true) ↔ (sum_by restarts_of columns.now ≤ 8) }
{
    let mut restarts = 0;
    for column in columns {
        let more = restarts_in(column);
        if more > MOST_RESTARTS as usize - restarts {
            return false;
        }
        restarts += more;
    }
    true
}

/// Why a log has no room for the history, if it has none.
fn room_fault(columns: &[Column]) -> Option<RecordRefusal>
    ensures { IsRoomFault columns.now result }
{
    if !has_few_restarts(columns) {
        return Some(RecordRefusal::Restarts);
    }
    if columns.iter().filter(|column| is_mark(column)).count() > MOST_EVENTS as usize {
        return Some(RecordRefusal::Marks);
    }
    None
}

/// The record as a run, if it is a log.
fn checked(alloc: Global, raw: RawLog) -> Result<Run, RecordRefusal>
    ensures log { IfOk result (λ run. IsLog run × (run ≡ parts_of_log raw)) }
    ensures refused { IfErr result (IsLogFault (parts_of_log raw)) }
{
    match checked_log(alloc, raw) {
        Ok(run) => Ok(run),
        Err((DumpRefusal::Memory, _)) => Err(RecordRefusal::Memory),
        Err((_, breach)) => Err(RecordRefusal::Refused(breach)),
    }
}

/// The record of a history of a group of this configuration: the run as a log of version 2, as its members would have written it. Those
/// who are down at its end are in the strike set.
///
/// That the record is a log is tested when it is made.
pub fn record_of<B: Behaviour<State = u64, Note = Note>>(
    alloc: Global,
    config: Config,
    columns: &[Column],
) -> Result<Run, RecordRefusal>
    ensures { IsRecord B.next config columns.now result }
{
    if let Some(fault) = room_fault(columns) {
        return Err(fault);
    }
    checked(alloc, raw_record_of::<B>(alloc, config, columns)?)
}
