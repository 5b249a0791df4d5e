//! Plays a script, and answers its history.

ghost use Rattle.std.specs.Prelude.{IfSome, None};
ghost use Rattle.fbl_trace.specs.Configs.{WorkersAllowed};
ghost use Rattle.fbl_trace.specs.Steps.{SendsWell};
ghost use Rattle.fbl_play.specs.Plays.{IsHistoryPlay, IsPlay, PlaysScript, ReadsAndPlays};
ghost use Rattle.fbl_play.specs.Transcripts.{text};
ghost use Rattle.fbl_scripts.specs.Scripts.{outline};

use crate::commands::run_command;
use crate::observer::{NoObserver, Observer};
use crate::transcript::{HistorySoFar, Transcriber};
use fbl_group::Group;
use fbl_history::History;
use fbl_input::{OutputFault, RunFault};
use fbl_scripts::{BehaviourName, Command, Script, read_script};
use fbl_trace::{Behaviour, Config, Mix, Note, Relay};
use std::alloc::{AllocError, Global};
use std::io::{Read, Write};
use std::sync::Wait;
use std::thread::Threads;

/// Does nothing but promise what holds of each behaviour: its sends are allowed.
fn sends_well<B: Behaviour<State = u64, Note = Note>>()
    ensures { SendsWell B.next }
{}

/// Runs the commands on a new group, and adds each to the transcript when it ends. The observer is called for each.
fn run_commands<
    B: Behaviour<State = u64, Note = Note> + Send + Sync,
    T: Threads + Wait + Sync,
    K: Transcriber,
    O: Observer,
>(
    rt: &T,
    alloc: Global,
    workers: u8,
    config: Config,
    commands: &[Command],
    transcript: &mut K,
    observer: &mut O,
) -> Result<(), OutputFault>
    ensures { IsPlay O.observes_before O.observes_after B.next workers config commands.now
        (K.transcript transcript.old) (K.transcript transcript.new) observer.old observer.new
        result }
{
    let mut group: Group<B> = Group::new(alloc, config)?;
    sends_well::<B>();
    // the group is sound
    group.recoverable();
    transcript.begin(alloc, &group)?;
    for command in commands {
        observer.before(command, &group, transcript);
        let (after, answer) = run_command(rt, alloc, workers, group, command);
        group = after;
        // and so it is after each command
        group.recoverable();
        let answer = answer?;
        transcript.add(alloc, &group, &answer)?;
        observer.after(command, &answer, &group, transcript);
    }
    Ok(())
}

/// Runs a script under the behaviour that it names.
fn run_script<T: Threads + Wait + Sync, K: Transcriber, O: Observer>(
    rt: &T,
    alloc: Global,
    script: Script,
    workers: u8,
    transcript: &mut K,
    observer: &mut O,
) -> Result<(), OutputFault>
    ensures { PlaysScript O.observes_before O.observes_after workers (outline script)
        (K.transcript transcript.old) (K.transcript transcript.new) observer.old observer.new
        result }
{
    let Script {
        behaviour,
        config,
        commands,
    } = script;
    let commands = commands.as_slice();
    match behaviour {
        BehaviourName::Relay => run_commands::<Relay, T, K, O>(
            rt, alloc, workers, config, commands, transcript, observer,
        ),
        BehaviourName::Mix => run_commands::<Mix, T, K, O>(
            rt, alloc, workers, config, commands, transcript, observer,
        ),
    }
}

/// Plays the script, and writes each command's lines when it ends, before the next one begins.
///
/// A refused command prints its refusal, and the play goes on; lack of memory ends it, and the command that met it prints
/// nothing. After `Write` the lines of the commands before are written, and a proper prefix of the last one's. A `run` is
/// made by `workers` workers, and refused where they are not 1 to 8.
///
/// The observer is called for each command in turn, before it is run and after its lines are written, and sees the group and
/// what the writer has as they are then. Where the play ends early it was called for the commands whose lines are written, and
/// before the next one. What it does with that is no part of the play.
pub fn play_script<T: Threads + Wait + Sync, W: Write, O: Observer>(
    rt: &T,
    alloc: Global,
    script: Script,
    writer: &mut W,
    workers: u8,
    observer: &mut O,
) -> Result<(), OutputFault>
    ensures { PlaysScript O.observes_before O.observes_after workers (outline script)
        (text (W.contents writer.old)) (text (W.contents writer.new)) observer.old observer.new
        result }
{
    run_script(rt, alloc, script, workers, writer, observer)
}

/// Runs the script, and answers its history: what came, in the order in which it came. No lines are made.
///
/// A refused command adds nothing to the history, and the run goes on; lack of memory ends it. The observer is called for each
/// command as by `play_script`, and sees the history so far.
pub fn history_of_script<T: Threads + Wait + Sync, O: Observer>(
    rt: &T,
    alloc: Global,
    script: Script,
    workers: u8,
    observer: &mut O,
) -> Result<History, AllocError>
    ensures { IsHistoryPlay O.observes_before O.observes_after workers (outline script) observer.old observer.new result }
{
    let mut so_far = HistorySoFar { history: None };
    match run_script(rt, alloc, script, workers, &mut so_far, observer) {
        Ok(()) => match so_far.history.take() {
            Some(history) => Ok(history),
            None => unreachable!(),
        },
        Err(_) => Err(AllocError),
    }
}

/// Plays the script that the reader has, as `play_script` does, observed by nobody.
///
/// The script is read whole and checked before anything is run: nothing is written where a read fails, or where the fault
/// is one of the script. A `run` is made by `workers` workers, 1 to 8.
pub fn play<T: Threads + Wait + Sync, R: Read, W: Write>(
    rt: &T,
    alloc: Global,
    reader: &mut R,
    writer: &mut W,
    workers: u8,
) -> Result<(), RunFault>
    requires { WorkersAllowed workers }
    ensures { IfSome (R.remaining reader.old)
        (λ input. ReadsAndPlays workers input (W.contents writer.old) (W.contents writer.new)
        result) }
{
    let script = read_script(alloc, reader)?;
    Ok(play_script(rt, alloc, script, writer, workers, &mut NoObserver)?)
}
