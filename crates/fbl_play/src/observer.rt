//! Who observes the commands of a run.

use crate::transcript::Transcribed;
use fbl_group::Group;
use fbl_scripts::{Answer, Command};
use fbl_trace::{Behaviour, Note};

/// Is called for each command of a run, in their order: before it is run, and once it was run and is in the transcript. Each
/// time it sees the group and the transcript as they stand then. It has no part in what the run does and writes.
///
/// `observes_before` and `observes_after` say what it may be after it was called at this group and this transcript. A run knows no
/// more of them: only by a call then and there can it make an observer that was called so.
pub trait Observer {
    ghost use Rattle.std.specs.Prelude.{ℕ};
    ghost use Rattle.fbl_trace.specs.declared.trace.Note.{Note};
    ghost use Rattle.fbl_law.specs.Groups.{GroupRecord};
    ghost use Rattle.fbl_play.specs.Transcripts.{Transcript};
    ghost use Rattle.fbl_scripts.specs.declared.answer.Answer.{Answer};
    ghost use Rattle.fbl_scripts.specs.declared.script.Command.{Command};

    ghost observes_before: { GroupRecord ℕ Note → Transcript → Self → Command → Self → Type 0 };

    ghost observes_after: { GroupRecord ℕ Note → Transcript → Self → Command → Answer → Self → Type 0 };

    /// The next command is about to be run on this group.
    fn before<B: Behaviour<State = u64, Note = Note>, K: Transcribed>(
        &mut self,
        command: &Command,
        group: &Group<B>,
        transcript: &K,
    )
        ensures { observes_before group.now (K.transcript transcript.now) self.old command.now self.new };

    /// That command was run and left this group, and its lines are written or its columns added.
    fn after<B: Behaviour<State = u64, Note = Note>, K: Transcribed>(
        &mut self,
        command: &Command,
        answer: &Answer,
        group: &Group<B>,
        transcript: &K,
    )
        ensures { observes_after group.now (K.transcript transcript.now) self.old command.now answer.now self.new };
}

/// Takes no notice.
#[derive(Clone, Copy, Debug)]
pub struct NoObserver;

impl Observer for NoObserver {
    ghost use Rattle.std.specs.Prelude.{⊤};

    ghost observes_before = { λ _ _ _ _ _. ⊤ };

    ghost observes_after = { λ _ _ _ _ _ _. ⊤ };

    fn before<B: Behaviour<State = u64, Note = Note>, K: Transcribed>(
        &mut self,
        _command: &Command,
        _group: &Group<B>,
        _transcript: &K,
    ) {}

    fn after<B: Behaviour<State = u64, Note = Note>, K: Transcribed>(
        &mut self,
        _command: &Command,
        _answer: &Answer,
        _group: &Group<B>,
        _transcript: &K,
    ) {}
}
