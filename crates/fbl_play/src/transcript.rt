//! What is kept of a run while it goes on: the text of its commands, or its history.

ghost use Rattle.std.specs.Prelude.{◌≡◌, IfErr, IfOk, OnErr, OnOk, Some};
ghost use Rattle.fbl_play.specs.Transcripts.{history as as_history, GoesOn, IsAdded, IsBegun, IsCut, IsLedOn};
ghost use Rattle.fbl_play.specs.Steps.{HasMembers};

use fbl_group::Group;
use fbl_history::History;
use fbl_input::{OutputFault, put};
use fbl_scripts::Answer;
use fbl_trace::{Behaviour, Note};
use std::alloc::{AllocError, Global};
use std::io::Write;

/// The transcript of a run: a writer, into which each command's lines are written, or the run's history. Contracts see what
/// it has so far.
pub trait Transcribed {
    ghost use Rattle.fbl_play.specs.Transcripts.{Transcript};

    ghost transcript: { Self → Transcript };
}

impl<W: Write> Transcribed for W {
    ghost use Rattle.fbl_play.specs.Transcripts.{text};

    ghost transcript = { λ w. text (W.contents w) };
}

/// The history of a run, from the moment on in which the run has a group. There is none any more where memory ran out for it.
#[derive(Drop)]
pub(crate) struct HistorySoFar {
    pub(crate) history: Option<History>,
}

impl Transcribed for HistorySoFar {
    ghost use Rattle.fbl_play.specs.Transcripts.{history};

    ghost transcript = { λ h. history h.history };
}

/// A transcript to which a run adds its commands.
pub(crate) trait Transcriber: Transcribed {
    /// The run begins with this new group.
    fn begin<B: Behaviour<State = u64, Note = Note>>(
        &mut self,
        alloc: Global,
        group: &Group<B>,
    ) -> Result<(), AllocError>
        ensures begun { OnOk result (IsBegun B.next group.now (Self.transcript self.old) (Self.transcript self.new)) }
        ensures unchanged { OnErr result (Self.transcript self.new ≡ Self.transcript self.old) };

    /// Adds a command with this answer, which left the group like this.
    fn add<B: Behaviour<State = u64, Note = Note>>(
        &mut self,
        alloc: Global,
        group: &Group<B>,
        answer: &Answer,
    ) -> Result<(), OutputFault>
        requires members { HasMembers group.now answer.now }
        requires led { IsLedOn B.next group.now answer.now (Self.transcript self.old) }
        ensures added { OnOk result (IsAdded B.next group.now answer.now (Self.transcript self.old) (Self.transcript self.new)) }
        ensures cut { IfErr result (λ fault. IsCut group.now answer.now fault (Self.transcript self.old)
            (Self.transcript self.new)) };
}

impl<W: Write> Transcriber for W {
    fn begin<B: Behaviour<State = u64, Note = Note>>(
        &mut self,
        _alloc: Global,
        _group: &Group<B>,
    ) -> Result<(), AllocError> {
        Ok(())
    }

    fn add<B: Behaviour<State = u64, Note = Note>>(
        &mut self,
        alloc: Global,
        group: &Group<B>,
        answer: &Answer,
    ) -> Result<(), OutputFault> {
        let text = answer.text(alloc, group)?;
        put(self, text.as_bytes())
    }
}

impl Transcriber for HistorySoFar {
    fn begin<B: Behaviour<State = u64, Note = Note>>(
        &mut self,
        alloc: Global,
        group: &Group<B>,
    ) -> Result<(), AllocError> {
        self.history = Some(History::new(alloc, group.config())?);
        Ok(())
    }

    fn add<B: Behaviour<State = u64, Note = Note>>(
        &mut self,
        alloc: Global,
        group: &Group<B>,
        answer: &Answer,
    ) -> Result<(), OutputFault> {
        let Some(history) = self.history.take() else {
            return Err(OutputFault::Memory);
        };
        self.history = Some(history_after(alloc, history, group, answer)?);
        Ok(())
    }
}

/// The history after a command with this answer, which left the group like this.
fn history_after<B: Behaviour<State = u64, Note = Note>>(
    alloc: Global,
    history: History,
    group: &Group<B>,
    answer: &Answer,
) -> Result<History, AllocError>
    requires members { HasMembers group.now answer.now }
    requires led { IsLedOn B.next group.now answer.now (as_history (Some history)) }
    ensures { IfOk result (GoesOn B.next group.now answer.now history) }
{
    match answer {
        Answer::Delivery { .. } => history.go_on(alloc, group),
        Answer::Run { recorded, .. } => history.run(alloc, recorded.turns.as_slice(), group),
        Answer::Strike { members, .. } => history.strike(*members),
        Answer::Recovery { members, .. } => history.recover(alloc, group, *members),
        Answer::Checkpoint { member, .. } => history.checkpoint(*member),
        _ => Ok(history),
    }
}
