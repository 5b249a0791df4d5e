//! The columns of a history.

ghost use Rattle.std.specs.Prelude.{◌≡◌};
ghost use Rattle.fbl_history.specs.Columns.{is_sent_by as sent_by, is_standing as stands, same_standing, undo as undone_column};

use fbl_trace::{Member, MemberSet};

/// How many receipts a member replayed in a recovery, counted after its checkpoint.
#[derive(Clone, Copy, PartialEq, Eq)]
pub struct Replay {
    /// The member that was down.
    pub member: Member,
    /// How many receipts it has after the recovery, less those that its checkpoint has.
    pub receipts: u32,
}

/// A column of a history: what came, in the order in which it came. An event that is `undone` was taken out of the trace by a
/// recovery.
#[derive(Drop, PartialEq)]
pub enum Column {
    /// A message is sent.
    Send {
        /// The sender.
        from: Member,
        /// Which of the sender's sends it is, over all destinations, from 1.
        ssn: u32,
        /// The receiver.
        to: Member,
        /// Whether it is no longer in the trace.
        undone: bool,
    },
    /// A message is received.
    Receipt {
        /// The receiver.
        to: Member,
        /// Which of the receiver's receipts it is, over all senders, from 1.
        rsn: u32,
        /// The message's sender.
        from: Member,
        /// The message's number among its sender's sends.
        ssn: u32,
        /// The receiver's state after it.
        state: u64,
        /// Whether it is no longer in the trace.
        undone: bool,
    },
    /// Members are struck at once.
    Strike(MemberSet),
    /// The members that were down are brought back, in member order.
    Recovery(Vec<Replay>),
    /// A checkpoint of a member is taken.
    Checkpoint(Member),
}

impl Column {
    /// Whether it is an event that is not undone.
    pub fn is_standing(&self) -> bool
        ensures { result ≡ stands self.now }
    {
        match self {
            Column::Send { undone, .. } | Column::Receipt { undone, .. } => !*undone,
            _ => false,
        }
    }

    /// Whether both are the same event, with the same state, that is not undone.
    pub(crate) fn is_same_standing(&self, other: &Column) -> bool
        ensures { result ≡ same_standing self.now other.now }
    {
        self.is_standing() && self == other
    }

    /// Whether it is a send of the member, undone or not.
    pub(crate) fn is_sent_by(&self, member: Member) -> bool
        ensures { result ≡ sent_by member self.now }
    {
        match self {
            Column::Send { from, .. } => *from == member,
            _ => false,
        }
    }

    /// Makes an event one that is undone.
    pub(crate) fn undo(&mut self)
        ensures { self.new ≡ undone_column self.old }
    {
        match self {
            Column::Send { undone, .. } => *undone = true,
            Column::Receipt { undone, .. } => *undone = true,
            _ => {}
        }
    }
}
