//! Writing a text once.

ghost use Rattle.std.specs.Prelude.{◌≡◌, OnOk, OnErr, IfErr};
ghost use Rattle.std.specs.Io.KnownBytes.{Appends};
ghost use Rattle.fbl_input.specs.Faults.{PutsFront};
ghost use Rattle.fbl_input.specs.declared.output.OutputFault.TheVariants.{Memory, Write};

use std::alloc::{AllocError, AllocFailed};
use std::io;
use thiserror::Error;

/// Why an answer is not written to its end.
#[derive(Clone, Copy, PartialEq, Eq, Debug, Error)]
pub enum OutputFault {
    /// There is no memory.
    #[error("memory")]
    Memory,
    /// A write failed, was interrupted or took no byte.
    #[error("write")]
    Write,
}

impl From<AllocError> for OutputFault {
    ghost from_gives = { λ _ e. e ≡ Memory };

    fn from(_e: AllocError) -> OutputFault {
        OutputFault::Memory
    }
}

impl<T: Drop> From<AllocFailed<T>> for OutputFault {
    ghost from_gives = { λ _ e. e ≡ Memory };

    fn from(_e: AllocFailed<T>) -> OutputFault {
        OutputFault::Memory
    }
}

/// Writes the bytes, and never tries a write again: one that fails, is interrupted or takes no byte is the fault `Write`,
/// and some of the bytes are not written.
pub fn put<W: io::Write>(writer: &mut W, bytes: &[u8]) -> Result<(), OutputFault>
    ensures whole { OnOk result (Appends (W.contents writer.old) (W.contents writer.new) bytes.now) }
    ensures front { OnErr result (PutsFront (W.contents writer.old) (W.contents writer.new) bytes.now) }
    ensures fault { IfErr result (λ e. e ≡ Write) }
{
    let mut done = 0;
    while done < bytes.len() {
        match writer.write(&bytes[done..]) {
            Ok(0) => return Err(OutputFault::Write),
            Ok(n) => done += n,
            Err(_) => return Err(OutputFault::Write),
        }
    }
    Ok(())
}
