//! Scripts: each is played, or its history is drawn, or its run is recorded.

ghost use Rattle.std.specs.Prelude.{◌≤◌};
ghost use Rattle.fbl_input.specs.Faults.{PutsOut};
ghost use Rattle.fbl_scripts.specs.Scripts.{outline};
ghost use Rattle.fbl_program.specs.Outcomes.{IsShown, TriesScript};
ghost use Rattle.fbl_program.specs.declared.job.ScriptTask.TheVariants.{Record};

use crate::fault::AnswerFault;
use crate::job::ScriptTask;
use crate::runs::write_line;
use crate::teller::Teller;
use fbl_history::RecordRefusal;
use fbl_input::OutputFault;
use fbl_pictures::write_history_picture;
use fbl_play::{history_of_script, play_script, record_of_script};
use fbl_records::log_text;
use fbl_scripts::Script;
use std::alloc::Global;
use std::io::Write;
use std::sync::Wait;
use std::thread::Threads;

/// Plays the script, and writes its record as a line. That there is none is told.
fn record<T: Eprint + Threads + Wait + Sync, W: Write>(
    rt: &T,
    alloc: Global,
    script: Script,
    workers: u8,
    teller: &mut Teller<'_, T>,
    writer: &mut W,
) -> Result<bool, AnswerFault>
    ensures { TriesScript (Record workers) (outline script) (W.contents writer.old) (W.contents writer.new) result }
{
    match record_of_script(rt, alloc, script, workers, teller) {
        Ok(run) => {
            let line = log_text(alloc, &run)?;
            write_line(rt, line.as_str(), writer)?;
            Ok(true)
        }
        Err(RecordRefusal::Memory) => Err(AnswerFault::Output(OutputFault::Memory)),
        Err(fault) => {
            let _ = eprintln!(rt; "fault: {fault}");
            Err(AnswerFault::Refused)
        }
    }
}

/// Plays the script, and writes the picture of its history.
fn show<T: Eprint + Threads + Wait + Sync, W: Write>(
    rt: &T,
    alloc: Global,
    script: Script,
    workers: u8,
    teller: &mut Teller<'_, T>,
    writer: &mut W,
) -> Result<(), OutputFault>
    requires { script.config.members ≤ 16 }
    ensures { PutsOut (λ _. IsShown workers (outline script)) (W.contents writer.old) (W.contents writer.new) result }
{
    let members = script.config.members();
    let f = script.config.f();
    let name = script.behaviour.name();
    let history = history_of_script(rt, alloc, script, workers, teller)?;
    write_history_picture(alloc, members, f, name, history.columns(), writer)
}

/// Plays the script, or draws its history or writes its record once it was played, and answers whether all is well. Each command is
/// told of where that is asked for.
pub(crate) fn do_script<T: Eprint + Threads + Wait + Sync, W: Write>(
    rt: &T,
    alloc: Global,
    task: ScriptTask,
    explain: bool,
    script: Script,
    writer: &mut W,
) -> Result<bool, AnswerFault>
    requires { script.config.members ≤ 16 }
    ensures { TriesScript task (outline script) (W.contents writer.old) (W.contents writer.new) result }
{
    let mut teller = Teller::new(rt, explain);
    match task {
        ScriptTask::Play { workers, strict } => {
            play_script(rt, alloc, script, writer, workers, &mut teller)?;
            let is_refused = strict && teller.has_refused;
            Ok(!is_refused)
        }
        ScriptTask::Show { workers } => {
            show(rt, alloc, script, workers, &mut teller, writer)?;
            Ok(true)
        }
        ScriptTask::Record { workers } => {
            record(rt, alloc, script, workers, &mut teller, writer)
        }
    }
}
