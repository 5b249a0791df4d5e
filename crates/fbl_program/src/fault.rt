//! Why a task has no whole answer.

use fbl_input::OutputFault;
use std::alloc::AllocError;
use std::convert::From;

/// Why a task with a script or a recorded run has no whole answer.
#[derive(Clone, Copy)]
pub(crate) enum AnswerFault {
    /// Memory ran out, or a write failed.
    Output(OutputFault),
    /// What is asked for cannot be had, as standard error says: no entry stands where a picture is to be drawn around one, or no log has
    /// the run.
    Refused,
}

impl From<OutputFault> for AnswerFault {
    ghost use Rattle.std.specs.Prelude.{◌≡◌};
    ghost use Rattle.fbl_program.specs.declared.fault.AnswerFault.TheVariants.{Output};

    ghost from_gives = { λ fault e. e ≡ Output fault };

    fn from(fault: OutputFault) -> AnswerFault {
        AnswerFault::Output(fault)
    }
}

impl From<AllocError> for AnswerFault {
    ghost use Rattle.std.specs.Prelude.{◌≡◌};
    ghost use Rattle.fbl_input.specs.declared.output.OutputFault.TheVariants.{Memory};
    ghost use Rattle.fbl_program.specs.declared.fault.AnswerFault.TheVariants.{Output};

    ghost from_gives = { λ _ e. e ≡ Output Memory };

    fn from(_: AllocError) -> AnswerFault {
        AnswerFault::Output(OutputFault::Memory)
    }
}
