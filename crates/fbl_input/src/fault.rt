//! Why a script or a dump is not taken to its end.

ghost use Rattle.std.specs.Prelude.{◌≡◌};
ghost use Rattle.fbl_input.specs.declared.fault.RunFault.TheVariants.{Memory};

use crate::input_fault::InputFault;
use crate::key::Key;
use crate::output::OutputFault;
use fbl_trace::{ConfigRefusal, DumpRefusal};
use std::alloc::{AllocError, AllocFailed};
use thiserror::Error;

/// Why a script or a dump was not taken to its end. The faults of the input are tested in the order in which they stand
/// here, but for lack of memory, which may come before any of them. The message is the text of the fault.
#[derive(Clone, Copy, PartialEq, Eq, Debug, Error)]
pub enum RunFault {
    /// A read failed. An interrupted read is tried again, at most 1000 times in all, and then counts as failed.
    #[error("read")]
    Read,
    /// The input has more than 1,048,576 bytes.
    #[error("too long")]
    TooLong,
    /// The input is no JSON or isn't UTF-8, or it is nested deeper than 127 or has a number too great to be read.
    #[error("not json")]
    NotJson,
    /// The JSON isn't an object.
    #[error("not an object")]
    NotObject,
    /// The value at this key, the first such, is missing or has another shape or range than is asked for.
    #[error("bad field {0}")]
    BadField(Key),
    /// The command at this place, the first such, has another shape than is asked for, or stands at place 1024.
    #[error("bad command {0}")]
    BadCommand(usize),
    /// The object has another key.
    #[error("unknown key")]
    UnknownKey,
    /// There is no configuration of the script's parameters.
    #[error(transparent)]
    Config(ConfigRefusal),
    /// The dump breaks a rule.
    #[error(transparent)]
    Dump(DumpRefusal),
    /// A write failed, was interrupted or took no byte.
    #[error("write")]
    Write,
    /// There is no memory.
    #[error("memory")]
    Memory,
}

impl From<AllocError> for RunFault {
    ghost from_gives = { λ _ e. e ≡ Memory };

    fn from(_e: AllocError) -> RunFault {
        RunFault::Memory
    }
}

impl<T: Drop> From<AllocFailed<T>> for RunFault {
    ghost from_gives = { λ _ e. e ≡ Memory };

    fn from(_e: AllocFailed<T>) -> RunFault {
        RunFault::Memory
    }
}

impl From<ConfigRefusal> for RunFault {
    ghost use Rattle.fbl_input.specs.Faults.{config_fault};

    ghost from_gives = { λ refusal e. e ≡ config_fault refusal };

    fn from(refusal: ConfigRefusal) -> RunFault {
        match refusal {
            ConfigRefusal::Memory => RunFault::Memory,
            _ => RunFault::Config(refusal),
        }
    }
}

impl From<DumpRefusal> for RunFault {
    ghost use Rattle.fbl_input.specs.Faults.{dump_fault};

    ghost from_gives = { λ refusal e. e ≡ dump_fault refusal };

    fn from(refusal: DumpRefusal) -> RunFault {
        match refusal {
            DumpRefusal::Memory => RunFault::Memory,
            _ => RunFault::Dump(refusal),
        }
    }
}

impl From<InputFault> for RunFault {
    ghost from_gives = { λ fault e. e ≡ fault.fault };

    fn from(fault: InputFault) -> RunFault {
        fault.fault
    }
}

impl From<OutputFault> for RunFault {
    ghost use Rattle.fbl_input.specs.Faults.{output_fault};

    ghost from_gives = { λ fault e. e ≡ output_fault fault };

    fn from(fault: OutputFault) -> RunFault {
        match fault {
            OutputFault::Memory => RunFault::Memory,
            OutputFault::Write => RunFault::Write,
        }
    }
}
