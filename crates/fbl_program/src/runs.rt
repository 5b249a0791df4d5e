//! Recorded runs: what is in one file, or what several have together, is audited, checked, drawn or written.

ghost use Rattle.std.specs.Prelude.{◌≡◌, ◌<◌, [], IfOk, map, string_bytes};
ghost use Rattle.fbl_input.specs.Faults.{PutsOut};
ghost use Rattle.fbl_judge.specs.Audits.{AreNamed};
ghost use Rattle.fbl_order.specs.Recordings.{count_of};
ghost use Rattle.fbl_verdicts.specs.Texts.{IsChecked};
ghost use Rattle.fbl_program.specs.Outcomes.{Answers, EndsMerged, EndsRecorded, EndsWith, IsAnswer, IsAnswerTo, IsPlaceMissing, IsPlaceMissingOf, run_line, run_of};

use crate::around::place_asked;
use crate::fault::AnswerFault;
use crate::job::{Question, RunTask};
use crate::status::{INPUT_FAULT, end, fail};
use crate::streams::Named;
use crate::teller::refuse_merge;
use fbl_input::shapes::LONGEST;
use fbl_input::{OutputFault, RunFault, put};
use fbl_judge::{LostReceipt, Pasts, audit_of};
use fbl_order::{InputFiles, Recordings, merge_of};
use fbl_pictures::{column_count, write_run_picture};
use fbl_records::{dump_text, log_text};
use fbl_runs::{RawRecording, Recording, Run, Sources};
use fbl_verdicts::{Checked, RunExplanation, write_audit, write_check};
use std::alloc::{AllocError, Global};
use std::io::Write;

/// The dump or the log as a line.
fn line_of(alloc: Global, found: &Recording) -> Result<String, AllocError>
    ensures { IfOk result (λ line. string_bytes line ≡ run_line found.now) }
{
    match found {
        Recording::Dump(dump) => dump_text(alloc, dump),
        Recording::Log(log) => log_text(alloc, log),
    }
}

/// Writes the line. One that is longer than an input may be is told of on standard error.
pub(crate) fn write_line<T: Eprint, W: Write>(
    rt: &T,
    line: &str,
    writer: &mut W,
) -> Result<(), OutputFault>
    ensures { PutsOut (λ _ told. told ≡ line.now) (W.contents writer.old) (W.contents writer.new) result }
{
    let length = line.len();
    let done = put(writer, line.as_bytes());
    if length > LONGEST && done.is_ok() {
        let _ = eprintln!(rt;
            "the dump has {length} bytes, and an input may have {LONGEST}: it can't be read again"
        );
    }
    done
}

/// Tells on standard error what explains an answer. Where memory ran out for that it is left out.
fn tell<R: Eprint>(rt: &R, explanation: Result<RunExplanation<'_>, AllocError>) {
    if let Ok(explanation) = explanation {
        let _ = eprint!(rt; "{explanation}");
    }
}

/// Tells why these receipts are lost, where that is asked for.
fn explain_losses<R: Eprint>(
    rt: &R,
    alloc: Global,
    explain: bool,
    pasts: &Pasts<'_>,
    sources: &Sources<'_>,
    lost: &[LostReceipt],
)
    requires { AreNamed pasts.now lost.now }
{
    if explain {
        let explanation = RunExplanation::of_losses(alloc, pasts, sources, lost);
        tell(rt, explanation);
    }
}

/// Tells why the check says what it says, where that is asked for.
fn explain_check<R: Eprint>(
    rt: &R,
    alloc: Global,
    explain: bool,
    pasts: &Pasts<'_>,
    sources: &Sources<'_>,
    checked: &Checked,
)
    requires { IsChecked pasts.now checked.now }
{
    if explain {
        let explanation = RunExplanation::of_check(alloc, pasts, sources, checked);
        tell(rt, explanation);
    }
}

/// Answers the question of the run with these pasts, and whether all is well. Where that is asked for, why is told on standard error.
fn answer<T: Eprint, W: Write>(
    rt: &T,
    alloc: Global,
    question: Question<'_>,
    explain: bool,
    pasts: &Pasts<'_>,
    sources: &Sources<'_>,
    writer: &mut W,
) -> Result<bool, AnswerFault>
    ensures { Answers (IsAnswerTo question.entry pasts.now sources.now) (IsPlaceMissing question.entry pasts.now sources.now)
        (W.contents writer.old) (W.contents writer.new) result }
{
    match question {
        Question::Audit => {
            let audit = audit_of(alloc, pasts)?;
            write_audit(alloc, &audit, writer)?;
            explain_losses(rt, alloc, explain, pasts, sources, audit.lost.as_slice());
            Ok(true)
        }
        Question::Check => {
            let checked = write_check(alloc, pasts, sources, writer)?;
            explain_check(rt, alloc, explain, pasts, sources, &checked);
            Ok(checked.is_safe())
        }
        Question::Draw(words) => {
            let around = place_asked(rt, alloc, sources, column_count(pasts), words)?;
            write_run_picture(alloc, pasts, sources, around, writer)?;
            Ok(true)
        }
    }
}

/// Answers the question of the run.
fn judge_run<T: Eprint, W: Write>(
    rt: &T,
    alloc: Global,
    question: Question<'_>,
    explain: bool,
    run: &Run,
    sources: &Sources<'_>,
    writer: &mut W,
) -> Result<bool, AnswerFault>
    ensures { Answers (IsAnswerTo question.entry run.now sources.now) (IsPlaceMissing question.entry run.now sources.now)
        (W.contents writer.old) (W.contents writer.new) result }
{
    let pasts = Pasts::of(alloc, run)?;
    answer(rt, alloc, question, explain, &pasts, sources, writer)
}

/// Answers the question of the run that the dump or the log records.
fn judge<T: Eprint, W: Write>(
    rt: &T,
    alloc: Global,
    question: Question<'_>,
    explain: bool,
    found: &Recording,
    sources: &Sources<'_>,
    writer: &mut W,
) -> Result<bool, AnswerFault>
    ensures { Answers (IsAnswerTo question.entry (run_of found.now) sources.now)
        (IsPlaceMissing question.entry (run_of found.now) sources.now)
        (W.contents writer.old) (W.contents writer.new) result }
{
    match found {
        Recording::Dump(dump) => {
            let run = Run::of_dump(alloc, dump)?;
            judge_run(rt, alloc, question, explain, &run, sources, writer)
        }
        Recording::Log(run) => judge_run(rt, alloc, question, explain, run, sources, writer),
    }
}

/// Does the task with the dump or the log, and answers whether all is well.
fn do_run<T: Eprint, W: Write>(
    rt: &T,
    alloc: Global,
    task: RunTask<'_>,
    explain: bool,
    found: &Recording,
    sources: &Sources<'_>,
    writer: &mut W,
) -> Result<bool, AnswerFault>
    ensures { Answers (IsAnswer task.entry found.now sources.now) (IsPlaceMissingOf task.entry found.now sources.now)
        (W.contents writer.old) (W.contents writer.new) result }
{
    match task {
        RunTask::Judge(question) => judge(rt, alloc, question, explain, found, sources, writer),
        RunTask::Merge => {
            let line = line_of(alloc, found)?;
            write_line(rt, line.as_str(), writer)?;
            Ok(true)
        }
    }
}

/// Does the task with the dump or the log, and answers the exit status.
pub(crate) fn end_run<T: Eprint, W: Write>(
    rt: &T,
    alloc: Global,
    task: RunTask<'_>,
    explain: bool,
    found: &Recording,
    sources: &Sources<'_>,
    writer: &mut Named<'_, W>,
) -> u8
    ensures { EndsWith task.entry found.now sources.now (W.contents writer.old.stream) (W.contents writer.new.stream) result }
{
    match do_run(rt, alloc, task, explain, found, sources, writer) {
        Ok(is_well) => end(rt, Ok(is_well), writer.failure()),
        Err(AnswerFault::Output(fault)) => end(rt, Err(fault), writer.failure()),
        Err(AnswerFault::Refused) => INPUT_FAULT,
    }
}

/// The sources of what is in one file.
pub(crate) fn one_file() -> Sources<'static>
    ensures { result.places.now ≡ [] }
{
    Sources {
        names: &[],
        lengths: &[],
        places: &[],
    }
}

/// Merges what the files record, does the task with what they are together, and answers the exit status. The names are those of the
/// files, or none where there is one.
pub(crate) fn end_merged<T: Eprint, W: Write>(
    rt: &T,
    alloc: Global,
    task: RunTask<'_>,
    explain: bool,
    recordings: &Recordings,
    names: &[&str],
    writer: &mut Named<'_, W>,
) -> u8
    requires { 0 < count_of recordings.now }
    ensures { EndsMerged task.entry recordings.now (map (λ name. name.now) names.now)
        (W.contents writer.old.stream) (W.contents writer.new.stream) result }
{
    let files = match InputFiles::of(alloc, names, recordings) {
        Ok(files) => files,
        Err(_) => return fail(rt, RunFault::Memory, None),
    };
    match merge_of(alloc, recordings) {
        Ok(merged) => {
            let sources = files.sources(merged.places.as_slice());
            end_run(rt, alloc, task, explain, &merged.run, &sources, writer)
        }
        Err(fault) => refuse_merge(rt, explain, &fault, &files),
    }
}

/// Puts the events of what one file records into an order, does the task with it, and answers the exit status.
pub(crate) fn end_recorded<T: Eprint, W: Write>(
    rt: &T,
    alloc: Global,
    task: RunTask<'_>,
    explain: bool,
    recorded: RawRecording,
    writer: &mut Named<'_, W>,
) -> u8
    ensures { EndsRecorded task.entry recorded (W.contents writer.old.stream) (W.contents writer.new.stream) result }
{
    match Recordings::of(alloc, recorded) {
        Ok(recordings) => end_merged(rt, alloc, task, explain, &recordings, &[], writer),
        Err(_) => fail(rt, RunFault::Memory, None),
    }
}
