//! Why an input is not taken: the line that is printed of it, and what explains it.

ghost use Rattle.std.specs.Prelude.{◌≡◌, None};

use crate::fault::RunFault;
use crate::input_kind::InputKind;
use fbl_runs::LogBreach;
use std::fmt;
use thiserror::Error;

/// Why an input is not taken. The message is the text of the fault.
#[derive(Drop, Error)]
#[error("{fault}")]
pub struct InputFault {
    /// What it was to be.
    pub kind: InputKind,
    /// Its first fault.
    pub fault: RunFault,
    /// Which rule is broken, where the fault is that one is.
    pub breach: Option<LogBreach>,
    /// The bytes in which the fault was found, of lines the JSON text for which they stand: none where they could not be read, are too
    /// many or there was no memory for them.
    pub input: Vec<u8>,
}

impl InputFault {
    /// A fault of these bytes that is no broken rule.
    pub fn new(kind: InputKind, fault: RunFault, input: Vec<u8>) -> InputFault
        ensures { result ≡ record { kind = kind; fault = fault; breach = None; input = input } }
    {
        InputFault {
            kind,
            fault,
            breach: None,
            input,
        }
    }
}

/// The text of the fault, without the input, which may be long.
impl fmt::Debug for InputFault {
    fn fmt<W: fmt::Write>(&self, f: &mut fmt::Formatter<W>) -> fmt::Result {
        fmt::Display::fmt(self, f)
    }
}
