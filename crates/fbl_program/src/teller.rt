//! What is told on standard error, where the command line asks for explanations, beside the fault line.

ghost use Rattle.std.specs.Prelude.{◌≡◌, false};
ghost use Rattle.fbl_program.specs.Statuses.{fault_status, merge_status};

use crate::status::{INPUT_FAULT, fail, merge_status_of, status_of};
use crate::streams::Failure;
use fbl_group::Group;
use fbl_input::{InputFault, RunFault};
use fbl_order::{InputFiles, MergeExplanation, MergeFault, MergeLine};
use fbl_play::{Observer, Transcribed};
use fbl_scripts::{Answer, Command, Remark};
use fbl_trace::{Behaviour, Note};
use std::alloc::Global;

/// Tells of each command on standard error, where that is asked for, and keeps whether some command was refused. A write that fails
/// there is passed over: what is written and the exit status stay as they would be.
#[derive(Drop)]
pub(crate) struct Teller<'a, R> {
    rt: &'a R,
    is_asked: bool,
    /// The place of the next command.
    place: usize,
    /// Whether some command was refused.
    pub(crate) has_refused: bool,
}

impl<'a, R> Teller<'a, R> {
    /// Tells where it is asked to, from the first command on.
    pub(crate) fn new(rt: &'a R, is_asked: bool) -> Teller<'a, R>
        ensures { result.has_refused ≡ false }
    {
        Teller {
            rt,
            is_asked,
            place: 0,
            has_refused: false,
        }
    }
}

impl<R: Eprint> Observer for Teller<'_, R> {
    ghost use Rattle.std.specs.Prelude.{◌≡◌, ◌||◌};
    ghost use Rattle.fbl_scripts.specs.Reasons.{is_refusal};

    // what is told on standard error no contract sees
    ghost observes_before = { λ _ _ old _ new. new.has_refused ≡ old.has_refused };

    ghost observes_after = { λ _ _ old _ answer new. new.has_refused ≡ (old.has_refused || is_refusal answer) };

    fn before<B: Behaviour<State = u64, Note = Note>, K: Transcribed>(
        &mut self,
        command: &Command,
        _group: &Group<B>,
        _transcript: &K,
    ) {
        if self.is_asked {
            let place = self.place;
            let _ = eprintln!(self.rt; "command {place}: {command}");
        }
    }

    fn after<B: Behaviour<State = u64, Note = Note>, K: Transcribed>(
        &mut self,
        command: &Command,
        answer: &Answer,
        _group: &Group<B>,
        _transcript: &K,
    ) {
        let place = self.place;
        self.place = place.saturating_add(1);
        self.has_refused = self.has_refused || answer.is_refusal();
        if self.is_asked {
            let remark = Remark {
                place,
                command,
                answer,
            };
            let _ = eprint!(self.rt; "{remark}");
        }
    }
}

/// Prints the line of the input's fault, and answers its exit status. Where that is asked for the fault is explained in a line
/// behind it; where memory runs out for it that is left out. The file is one on which a read may have failed; where the input is
/// one of several, it has a name.
pub(crate) fn refuse_input<R: Eprint>(
    rt: &R,
    alloc: Global,
    explain: bool,
    fault: &InputFault,
    file: Option<Failure<'_>>,
    name: Option<&str>,
) -> u8
    ensures { result ≡ fault_status (fault.now.fault) }
{
    let found = fault.fault;
    let status = match (found, name) {
        (RunFault::Read | RunFault::Memory, _) | (_, None) => fail(rt, found, file),
        (_, Some(name)) => {
            let _ = eprintln!(rt; "fault: {found} in {name:?}");
            status_of(&found)
        }
    };
    if explain {
        if let Ok(Some(explanation)) = fault.explanation(alloc) {
            let _ = eprintln!(rt; "{explanation}");
        }
    }
    status
}

/// Prints the line of the fault of what files have together, and answers its exit status. Where that is asked for the fault is explained
/// in a line behind it.
pub(crate) fn refuse_merge<R: Eprint>(
    rt: &R,
    explain: bool,
    fault: &MergeFault,
    files: &InputFiles<'_>,
) -> u8
    ensures { result ≡ merge_status fault.now }
{
    let line = MergeLine { fault, files };
    let _ = eprintln!(rt; "{line}");
    let status = merge_status_of(fault);
    if explain && status == INPUT_FAULT {
        let explanation = MergeExplanation { fault, files };
        let _ = eprintln!(rt; "{explanation}");
    }
    status
}
