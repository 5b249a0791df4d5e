//! The program as a call: from the words of a command line to the exit status.

ghost use Rattle.std.specs.Prelude.{◌≡◌, IfErr, IfOk, map, string_bytes};
ghost use Rattle.fbl_program.specs.CommandLines.{EndsMisuse};
ghost use Rattle.fbl_program.specs.Jobs.{EndsWords};

use crate::command_line::{Misuse, job_of};
use crate::jobs::do_job;
use crate::status::{CHANNEL_FAULT, DONE, INPUT_FAULT, fail};
use crate::streams::Streams;
use clap::error::ErrorKind;
use fbl_input::RunFault;
use std::alloc::Global;
use std::sync::Wait;
use std::thread::Threads;

/// Prints why the words of the command line are refused, or the help or version that they ask for, and answers the exit status.
fn refuse<R: Print + Eprint>(rt: &R, misuse: Misuse) -> u8
    ensures { EndsMisuse misuse result }
{
    let error = match misuse {
        Misuse::Words(error) => error,
        Misuse::NoCommand => {
            let _ = eprintln!(rt; "error: the command line names no command");
            return INPUT_FAULT;
        }
    };
    match error.kind() {
        ErrorKind::OutOfMemory => fail(rt, RunFault::Memory, None),
        ErrorKind::DisplayHelp | ErrorKind::DisplayVersion => {
            if error.print(rt).is_ok() {
                DONE
            } else {
                CHANNEL_FAULT
            }
        }
        _ => {
            let _ = error.print(rt);
            INPUT_FAULT
        }
    }
}

/// Names `--explain` where a fault line has been written to a terminal, and would be explained with it: where the status is that
/// of a fault of the input.
fn name_explain<R: Eprint>(rt: &R, explain: bool, is_terminal: bool, status: u8) {
    if status == INPUT_FAULT && !explain && is_terminal {
        let _ = eprintln!(rt;
            "with --explain behind the command, what stands there and what is wanted is told too"
        );
    }
}

/// Does what the words of a command line ask for, the program's name first, or prints why they are refused, and answers the exit
/// status; where there are no words, the status that stands for them. `is_terminal` says whether standard error is a terminal.
pub fn run<T: Print + Eprint + Threads + Wait + Sync, S: Streams>(
    rt: &T,
    alloc: Global,
    streams: &S,
    is_terminal: bool,
    words: Result<Vec<String>, u8>,
) -> u8
    ensures done { IfOk words
        (λ words. EndsWords (S.input streams.now) (S.output streams.now) (S.settled streams.now)
        (map string_bytes words.items) result) }
    ensures unread { IfErr words (λ status. result ≡ status) }
{
    let words = match words {
        Ok(words) => words,
        Err(status) => return status,
    };
    match job_of(alloc, words.as_slice()) {
        Ok(job) => {
            let status = do_job(rt, alloc, streams, &job);
            name_explain(rt, job.explain, is_terminal, status);
            status
        }
        Err(misuse) => refuse(rt, misuse),
    }
}
