//! Exit statuses, and the lines of faults that come with them.

ghost use Rattle.std.specs.Prelude.{◌≡◌};
ghost use Rattle.fbl_input.specs.Faults.{run_result};
ghost use Rattle.fbl_program.specs.Statuses.{fault_status, merge_status, status_after};

use crate::streams::Failure;
use fbl_input::{OutputFault, RunFault};
use fbl_order::{FilesDiffer, MergeFault, OrderFault};
use fbl_trace::DumpRefusal;
use std::fmt;

/// Everything was done, and all is well.
pub const DONE: u8 = 0;

/// The checked run is unsafe, or a restart in it left an orphan; or a command of a strict play was refused.
pub const NOT_WELL: u8 = 1;

/// The command line, the script or the recorded run has a fault.
pub const INPUT_FAULT: u8 = 2;

/// A read or a write failed.
pub const CHANNEL_FAULT: u8 = 3;

/// Memory runs out.
pub const MEMORY_FAULT: u8 = 4;

/// The line of a fault.
#[derive(Clone, Copy)]
struct FaultLine<'a> {
    fault: RunFault,
    /// The file on which a read or a write failed, if it is a file with a name.
    file: Option<Failure<'a>>,
}

impl fmt::Display for FaultLine<'_> {
    fn fmt<W: fmt::Write>(&self, f: &mut fmt::Formatter<W>) -> fmt::Result {
        let fault = self.fault;
        write!(f, "fault: {fault}")?;
        match (fault, self.file) {
            (RunFault::Read | RunFault::Write, Some(failure)) => {
                let name = failure.name;
                write!(f, " {name:?}")?;
                match failure.error {
                    Some(error) => write!(f, ": {error}"),
                    None => Ok(()),
                }
            }
            _ => Ok(()),
        }
    }
}

/// The exit status of a fault.
pub(crate) fn status_of(fault: &RunFault) -> u8
    ensures { result ≡ fault_status fault.now }
{
    match fault {
        RunFault::Read | RunFault::Write => CHANNEL_FAULT,
        RunFault::Memory => MEMORY_FAULT,
        _ => INPUT_FAULT,
    }
}

/// The exit status of a fault of what files record together.
pub(crate) fn merge_status_of(fault: &MergeFault) -> u8
    ensures { result ≡ merge_status fault.now }
{
    match fault {
        MergeFault::Files(FilesDiffer::Memory)
        | MergeFault::Order(OrderFault::Refused(DumpRefusal::Memory, _)) => MEMORY_FAULT,
        _ => INPUT_FAULT,
    }
}

/// Prints the line of a fault, of a read or a write on this file if one is given, and answers its exit status.
pub fn fail<R: Eprint>(rt: &R, fault: RunFault, file: Option<Failure<'_>>) -> u8
    ensures { result ≡ fault_status fault }
{
    let line = FaultLine { fault, file };
    let _ = eprintln!(rt; "{line}");
    status_of(&fault)
}

/// The exit status of what was done, by whether all is well. The line of its fault is printed, if it has one; the file is one on
/// which a write may have failed.
pub(crate) fn end<R: Eprint>(
    rt: &R,
    done: Result<bool, OutputFault>,
    file: Option<Failure<'_>>,
) -> u8
    ensures { result ≡ status_after (run_result done) }
{
    match done {
        Ok(true) => DONE,
        Ok(false) => NOT_WELL,
        Err(fault) => fail(rt, RunFault::from(fault), file),
    }
}
