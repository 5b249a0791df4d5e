//! Calls of a group, with the answers that are expected of them.

use crate::members::{member, set};
use fbl_group::{
    CheckpointRefusal, CommitRefusal, CrashRefusal, DeliverRefusal, Done, DumpGroupRefusal, Group,
    Receipted, RecoverRefusal, Recovered, run_step,
};
use fbl_trace::{Behaviour, Note};
use std::test::Fail;

/// A call and its answer. A delivery is to a member from another. A receipt is answered by its number, how many entries
/// were carried, and the new state; a recovery by how many receipts were replayed, messages sent again, and receipts
/// undone.
#[derive(Clone, Copy)]
pub(crate) enum Step<'a> {
    Deliver((u8, u8), (u32, u32, u64)),
    /// The ticket's state, receipt number, send number, value and hops. The step is made and kept.
    Take((u8, u8), (u64, u32, u32, u32, u8)),
    /// The step that was made last is committed.
    Commit(Result<(u32, u32, u64), CommitRefusal>),
    Checkpoint(u8),
    /// The members, and how many receipts are lost.
    Strike(&'a [u8], u32),
    Recover(Result<(u32, u32, u32), RecoverRefusal>),
    /// The members, how many receipts are lost, and the recovery.
    Crash(&'a [u8], Result<(u32, (u32, u32, u32)), CrashRefusal>),
    /// The members, and how many events and held pairs the dump has.
    Dump(&'a [u8], (usize, usize)),
    /// How many receipts were ever made, and ever undone.
    Ever(u64, u64),
}

/// What became of a call.
#[derive(Clone, Copy, PartialEq, Eq)]
pub(crate) enum Verdict {
    AsExpected,
    Unexpected,
    WithoutMemory,
}

impl Verdict {
    /// What became of a call with this answer.
    fn of<T: PartialEq + Copy, E: PartialEq + Copy>(
        answer: Result<T, E>,
        expected: Result<T, E>,
        memory: E,
    ) -> Verdict {
        if answer == expected {
            Verdict::AsExpected
        } else if answer == Err(memory) {
            Verdict::WithoutMemory
        } else {
            Verdict::Unexpected
        }
    }
}

impl<'a> Step<'a> {
    /// Makes the call. `made` is the step that was made last.
    pub(crate) fn make<B: Behaviour<State = u64, Note = Note>>(
        self,
        group: &mut Group<B>,
        made: &mut Option<Done<B>>,
    ) -> Result<Verdict, Fail> {
        Ok(match self {
            Step::Deliver((to, from), expected) => {
                let answer = group.deliver(member(to)?, member(from)?).map(receipt_parts);
                Verdict::of(answer, Ok(expected), DeliverRefusal::Memory)
            }
            Step::Take(channel, expected) => {
                let taken = take(group, channel, made)?;
                Verdict::of(Ok(taken), Ok(expected), ())
            }
            Step::Commit(expected) => {
                let done = made.as_ref().ok_or("no step was made")?;
                let answer = group.commit(done).map(receipt_parts);
                Verdict::of(answer, expected, CommitRefusal::Memory)
            }
            Step::Checkpoint(number) => {
                let answer = group.checkpoint(member(number)?);
                Verdict::of(answer, Ok(()), CheckpointRefusal::Memory)
            }
            Step::Strike(struck, expected) => {
                Verdict::of(Ok(group.strike(set(struck)?)?.lost), Ok(expected), ())
            }
            Step::Recover(expected) => {
                let answer = group.recover().map(recovery_parts);
                Verdict::of(answer, expected, RecoverRefusal::Memory)
            }
            Step::Crash(struck, expected) => {
                let answer = group.crash(set(struck)?);
                let parts = answer.map(|(struck, parts)| (struck.lost, recovery_parts(parts)));
                Verdict::of(parts, expected, CrashRefusal::Memory)
            }
            Step::Dump(struck, expected) => {
                let answer = group.dump(set(struck)?);
                let lengths = answer.map(|dump| (dump.events().len(), dump.held().len()));
                Verdict::of(lengths, Ok(expected), DumpGroupRefusal::Memory)
            }
            Step::Ever(made, undone) => {
                let counts = (group.receipts_ever(), group.undone_ever());
                Verdict::of(Ok(counts), Ok((made, undone)), ())
            }
        })
    }

    /// What is left to do once memory was refused to the call: the recovery of a crash, or the call itself.
    pub(crate) fn left_when_refused(self) -> Step<'a> {
        match self {
            Step::Crash(_, Ok((_, recovered))) => Step::Recover(Ok(recovered)),
            _ => self,
        }
    }
}

fn receipt_parts(receipted: Receipted) -> (u32, u32, u64) {
    (receipted.rsn, receipted.carried, receipted.state)
}

fn recovery_parts(recovered: Recovered) -> (u32, u32, u32) {
    (recovered.replayed, recovered.resent, recovered.undone)
}

/// Takes a ticket, and makes and keeps its step. The answer is the ticket's state, receipt number, send number, value and
/// hops.
fn take<B: Behaviour<State = u64, Note = Note>>(
    group: &Group<B>,
    (to, from): (u8, u8),
    made: &mut Option<Done<B>>,
) -> Result<(u64, u32, u32, u32, u8), Fail> {
    let ticket = group.take(member(to)?, member(from)?)?;
    *made = Some(run_step(ticket));
    let note = ticket.note;
    Ok((ticket.state, ticket.rsn, ticket.ssn, note.value, note.hops))
}
