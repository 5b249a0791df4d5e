//! Plays or shows a script, or merges, audits, checks or draws dumps, that are in files or come from standard input.
#![tactic(auto)]

ghost use Rattle.std.specs.Prelude.{◌≡◌, ◌⊎◌, IfErr};

mod files;

use fbl_input::RunFault;
use fbl_program::{INPUT_FAULT, fail, run};
use files::SystemStreams;
use std::io::IsTerminal;
use std::process::ExitCode;
use std::{env, io};

/// The words of the process, or the exit status where they can't be had: memory runs out, or they are not UTF-8, which is a fault
/// of the command line.
fn words_of(rt: &HostRuntime) -> Result<Vec<String>, u8>
    ensures { IfErr result (λ status. (status ≡ 2) ⊎ (status ≡ 4)) }
{
    let words = match env::args(rt) {
        Ok(words) => words,
        Err(error) => {
            if error.kind() == io::ErrorKind::OutOfMemory {
                return Err(fail(rt, RunFault::Memory, None));
            }
            let _ = eprintln!(rt; "error: a word of the command line is not UTF-8");
            return Err(INPUT_FAULT);
        }
    };
    match words.collect::<Vec<String>>(rt.alloc()) {
        Ok(words) => Ok(words),
        Err(_) => Err(fail(rt, RunFault::Memory, None)),
    }
}

fn main(rt: HostRuntime) -> ExitCode {
    let alloc = rt.alloc();
    let streams = SystemStreams { rt: &rt, alloc };
    let is_terminal = rt.stderr().is_terminal();
    ExitCode::from(run(&rt, alloc, &streams, is_terminal, words_of(&rt)))
}
