//! What calls of a group answer, and what is recorded of turns: receipts that workers made, with the crashes that a plan had at their
//! numbers.

use arrayvec::ArrayVec;
use fbl_trace::{MemberSet, Note, Ticket};

/// What a delivery answers.
#[derive(Clone, Copy, PartialEq, Eq, Debug)]
pub struct Receipted<S = u64> {
    /// The receipt's number, from 1 per receiver.
    pub rsn: u32,
    /// How many entries the message carried, the ones that the receiver had already among them.
    pub carried: u32,
    /// The receiver's new state.
    pub state: S,
}

/// What a strike answers.
#[derive(Clone, Copy, PartialEq, Eq, Debug)]
pub struct Struck {
    /// How many receipts of the trace neither a survivor's table nor a checkpoint has: those lost by this strike, and by
    /// strikes before it since the last recovery.
    pub lost: u32,
}

/// What a recovery answers.
#[derive(Clone, Copy, PartialEq, Eq, Debug)]
pub struct Recovered {
    /// How many receipts the struck members replayed: those beyond their checkpoints.
    pub replayed: u32,
    /// How many messages are now in channels with an end that was struck, all sent again.
    pub resent: u32,
    /// How many receipts the trace has fewer: the lost ones.
    pub undone: u32,
}

/// A turn of a worker that made a receipt. Of a turn that was refused there is no record, as it left the group unchanged.
///
/// A step is determined by its ticket: `run_step` makes it again, with the receiver's state after it and what it sent.
#[derive(Drop, Debug)]
pub struct TurnRecord<S = u64, N = Note> {
    /// The worker's number, from 0.
    pub worker: u8,
    /// What the step was made from: the receipt, the receiver's state before it, and the message's content.
    pub ticket: Ticket<S, N>,
    /// How many messages the receiver has sent then. The step's are the last of them.
    pub sent: u32,
    /// The crash that the plan has at the number of receipts that this one came to, if it has one.
    pub crash: Option<CrashRecord>,
}

/// A planned strike, and the recovery from it.
#[derive(Drop, Debug)]
pub struct CrashRecord {
    /// The members that were struck.
    pub set: MemberSet,
    /// The recovery. There is none where there was no memory for it: then the members stay down, and all workers end.
    pub recovery: Option<RecoveryRecord>,
}

/// A recovery from a planned strike.
#[derive(Drop, Debug)]
pub struct RecoveryRecord {
    /// How many receipts the strike lost.
    pub struck: Struck,
    /// How many receipts were replayed and undone, and how many messages were sent again.
    pub recovered: Recovered,
    /// How many receipts each member has after it, by its number. Its later ones are undone.
    pub received: ArrayVec<u32, 16>,
    /// How many messages each member has sent then, by its number. Its later sends are undone.
    pub sent: ArrayVec<u32, 16>,
}
