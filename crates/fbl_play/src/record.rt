//! The record of a play: that of its history, as a log.

ghost use Rattle.fbl_history.specs.Records.{IsRecord};
ghost use Rattle.fbl_scripts.specs.Scripts.{outline};
ghost use Rattle.fbl_play.specs.Plays.{IsRecordPlay, next_of};

use crate::engine::history_of_script;
use crate::observer::Observer;
use fbl_history::{Column, RecordRefusal, record_of};
use fbl_runs::Run;
use fbl_scripts::{BehaviourName, Script};
use fbl_trace::{Config, Mix, Relay};
use std::alloc::Global;
use std::sync::Wait;
use std::thread::Threads;

/// The record of a history of a group under the behaviour of this name.
fn record_by_name(
    alloc: Global,
    behaviour: BehaviourName,
    config: Config,
    columns: &[Column],
) -> Result<Run, RecordRefusal>
    ensures { IsRecord (next_of behaviour) config columns.now result }
{
    match behaviour {
        BehaviourName::Relay => record_of::<Relay>(alloc, config, columns),
        BehaviourName::Mix => record_of::<Mix>(alloc, config, columns),
    }
}

/// Runs the script, and answers its record: that of its history, a log of version 2. No lines are made. Those who are down at its end are
/// in the strike set.
///
/// The observer is called for each command as by `play_script`, and sees the history so far.
pub fn record_of_script<T: Threads + Wait + Sync, O: Observer>(
    rt: &T,
    alloc: Global,
    script: Script,
    workers: u8,
    observer: &mut O,
) -> Result<Run, RecordRefusal>
    ensures { IsRecordPlay O.observes_before O.observes_after workers (outline script) observer.old observer.new result }
{
    let config = script.config.copy()?;
    let behaviour = script.behaviour;
    let history = history_of_script(rt, alloc, script, workers, observer)?;
    record_by_name(alloc, behaviour, config, history.columns())
}
