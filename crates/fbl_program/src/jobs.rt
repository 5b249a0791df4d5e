//! Jobs done: the named files are read, what is asked for is done with what they have, and the text goes to the named file.

ghost use Rattle.std.specs.Prelude.{◌≡◌, ◌<◌, IfErr, IfOk, IfSome, length, map};
ghost use Rattle.fbl_program.specs.Jobs.{EndsJob, EndsOne, EndsSeveral, IsUnrecorded, NotTogether, AreRecordingsOf, Records, is_input_again};
ghost use Rattle.fbl_program.specs.Outcomes.{EndsTask};
ghost use Rattle.fbl_program.specs.declared.job.Task.TheVariants.{Run, Script};

use crate::fault::AnswerFault;
use crate::job::{Job, RunTask, ScriptTask, Task};
use crate::runs::{end_merged, end_recorded, end_run, one_file};
use crate::scripts::do_script;
use crate::status::{INPUT_FAULT, end, fail};
use crate::streams::{Named, Streams};
use crate::teller::{refuse_input, refuse_merge};
use fbl_input::RunFault;
use fbl_order::{InputFiles, Recordings, in_one_version};
use fbl_records::{read_checked, read_recorded};
use fbl_runs::RawRecording;
use fbl_scripts::read_script;
use std::alloc::Global;
use std::io::{Read, Write};
use std::sync::Wait;
use std::thread::Threads;

/// Does the task with the script that the reader has, and answers the exit status.
fn end_script<T: Eprint + Threads + Wait + Sync, R: Read, W: Write>(
    rt: &T,
    alloc: Global,
    task: ScriptTask,
    explain: bool,
    reader: &mut Named<'_, R>,
    writer: &mut Named<'_, W>,
) -> u8
    ensures { IfSome (R.remaining reader.old.stream)
        (λ input. EndsTask (Script task) input (W.contents writer.old.stream)
        (W.contents writer.new.stream) result) }
{
    match read_script(alloc, reader) {
        Ok(script) => {
            match do_script(rt, alloc, task, explain, script, writer) {
                Ok(is_well) => end(rt, Ok(is_well), writer.failure()),
                Err(AnswerFault::Output(fault)) => end(rt, Err(fault), writer.failure()),
                Err(AnswerFault::Refused) => INPUT_FAULT,
            }
        }
        Err(fault) => refuse_input(rt, alloc, explain, &fault, reader.failure(), None),
    }
}

/// Does the task with what the reader has of a run, and answers the exit status. It is judged as it stands.
fn end_input<T: Eprint, R: Read, W: Write>(
    rt: &T,
    alloc: Global,
    task: RunTask<'_>,
    explain: bool,
    reader: &mut Named<'_, R>,
    writer: &mut Named<'_, W>,
) -> u8
    ensures { IfSome (R.remaining reader.old.stream)
        (λ input. EndsTask (Run task.entry) input (W.contents writer.old.stream)
        (W.contents writer.new.stream) result) }
{
    match task {
        RunTask::Judge(_) => match read_checked(alloc, reader) {
            Ok(found) => end_run(rt, alloc, task, explain, &found, &one_file(), writer),
            Err(fault) => refuse_input(rt, alloc, explain, &fault, reader.failure(), None),
        },
        RunTask::Merge => match read_recorded(alloc, reader) {
            Ok(found) => end_recorded(rt, alloc, task, explain, found.recorded, writer),
            Err(fault) => refuse_input(rt, alloc, explain, &fault, reader.failure(), None),
        },
    }
}

/// Does the task with what the reader has, and answers the exit status.
fn do_task<T: Eprint + Threads + Wait + Sync, R: Read, W: Write>(
    rt: &T,
    alloc: Global,
    task: Task<'_>,
    explain: bool,
    reader: &mut Named<'_, R>,
    writer: &mut Named<'_, W>,
) -> u8
    ensures { IfSome (R.remaining reader.old.stream)
        (λ input. EndsTask task.entry input (W.contents writer.old.stream)
        (W.contents writer.new.stream) result) }
{
    match task {
        Task::Script(task) => end_script(rt, alloc, task, explain, reader, writer),
        Task::Run(task) => end_input(rt, alloc, task, explain, reader, writer),
    }
}

/// What the file with this name has of a run, its rules not yet checked, where it is one of several; or the exit status of its fault,
/// which is told.
fn recorded_at<T: Eprint, S: Streams>(
    rt: &T,
    alloc: Global,
    streams: &S,
    explain: bool,
    name: &str,
) -> Result<RawRecording, u8>
    ensures recorded { IfOk result (Records (S.input streams.now name.now)) }
    ensures refused { IfErr result (IsUnrecorded (S.input streams.now name.now)) }
{
    let mut reader = streams.reader(name)?;
    match read_recorded(alloc, &mut reader) {
        Ok(found) => Ok(found.recorded),
        Err(fault) => {
            Err(refuse_input(rt, alloc, explain, &fault, reader.failure(), Some(name)))
        }
    }
}

/// What the files with these names record, in their order, all in one version, or the exit status of the first fault.
fn files_at<T: Eprint, S: Streams>(
    rt: &T,
    alloc: Global,
    streams: &S,
    explain: bool,
    names: &[&str],
) -> Result<Recordings, u8>
    ensures recordings { IfOk result (AreRecordingsOf (map (S.input streams.now) (map (λ name. name.now) names.now))) }
    ensures refused { IfErr result (NotTogether (map (S.input streams.now) (map (λ name. name.now) names.now))) }
{
    let mut files = Vec::new(alloc);
    for name in names {
        let recorded = recorded_at(rt, alloc, streams, explain, name)?;
        if files.push(recorded).is_err() {
            return Err(fail(rt, RunFault::Memory, None));
        }
    }
    match in_one_version(alloc, files) {
        Ok(files) => Ok(files),
        Err(fault) => Err(refuse_merge(rt, explain, &fault, &InputFiles::named(alloc, names))),
    }
}

/// Does the task with what the file with this name has, and writes the text into the other one. Where the first can't be opened,
/// nothing is done with the second.
fn do_one<T: Eprint + Threads + Wait + Sync, S: Streams>(
    rt: &T,
    alloc: Global,
    streams: &S,
    task: Task<'_>,
    explain: bool,
    name: &str,
    output: &str,
) -> u8
    ensures { EndsOne (S.input streams.now) (S.output streams.now) (S.settled streams.now) task.entry name.now output.now result }
{
    let mut reader = match streams.reader(name) {
        Ok(reader) => reader,
        Err(status) => return status,
    };
    let mut writer = match streams.writer(output) {
        Ok(writer) => writer,
        Err(status) => return status,
    };
    let status = do_task(rt, alloc, task, explain, &mut reader, &mut writer);
    streams.settle(output, writer, status)
}

/// Whether standard input is named more than once.
fn names_input_again(names: &[&str]) -> bool
    ensures { result ≡ is_input_again (map (λ name. name.now) names.now) }
{
    names.iter().filter(|name| **name == "-").count() > 1
}

/// Does this with what several files record together, and writes the text into the other one. They are read before anything is done
/// with that.
fn do_several<T: Eprint, S: Streams>(
    rt: &T,
    alloc: Global,
    streams: &S,
    task: RunTask<'_>,
    explain: bool,
    names: &[&str],
    output: &str,
) -> u8
    requires { 0 < length names.now }
    ensures { EndsSeveral (S.input streams.now) (S.output streams.now) (S.settled streams.now)
        (is_input_again (map (λ name. name.now) names.now)) task.entry
        (map (λ name. name.now) names.now) output.now result }
{
    if names_input_again(names) {
        let _ = eprintln!(rt; "error: standard input can be read once, and - is named again");
        return INPUT_FAULT;
    }
    let files = match files_at(rt, alloc, streams, explain, names) {
        Ok(files) => files,
        Err(status) => return status,
    };
    let mut writer = match streams.writer(output) {
        Ok(writer) => writer,
        Err(status) => return status,
    };
    let status = end_merged(rt, alloc, task, explain, &files, names, &mut writer);
    streams.settle(output, writer, status)
}

/// Does the job, from the files that are read to the one that is written, and answers the exit status.
pub(crate) fn do_job<T: Eprint + Threads + Wait + Sync, S: Streams>(
    rt: &T,
    alloc: Global,
    streams: &S,
    job: &Job<'_>,
) -> u8
    ensures { EndsJob (S.input streams.now) (S.output streams.now) (S.settled streams.now) job.now result }
{
    let explain = job.explain;
    let output = job.output.unwrap_or("-");
    let names = job.inputs.as_slice();
    match (job.task, names) {
        (Task::Run(task), [_, _, ..]) => {
            do_several(rt, alloc, streams, task, explain, names, output)
        }
        (task, [name, ..]) => do_one(rt, alloc, streams, task, explain, name, output),
        (task, []) => do_one(rt, alloc, streams, task, explain, "-", output),
    }
}
