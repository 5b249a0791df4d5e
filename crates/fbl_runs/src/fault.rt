//! Why a log is refused.

use crate::entry::Entry;
use fbl_trace::{Breach, Outsider};
use thiserror::Error;

/// Which rule of control messages an entry breaks behind the entries before it. Of several the first in this order is named.
#[derive(Clone, Copy, Debug, Error)]
pub enum ControlRule {
    /// Each end is in the group: the sender, if it isn't, and else the receiver.
    #[error(transparent)]
    Outside(Outsider),
    /// A control message goes from one member to another.
    #[error("its ends must differ")]
    ToItself,
    /// Its number is that of no other from the one to the other.
    #[error("an earlier event has its number")]
    SameNumber,
    /// A member is told what was told before.
    #[error("no earlier event tells it")]
    NotTold,
    /// A member is told it once.
    #[error("an earlier event is told it")]
    ToldBefore,
}

/// The first entry that breaks a rule of control messages: its place, from 0, among the entries, and the first rule that it breaks.
#[derive(Clone, Copy, Debug, Error)]
#[error("event {place} is {entry}, and {rule}")]
pub struct ControlFault {
    /// Its place.
    pub place: usize,
    /// What it is.
    pub entry: Entry,
    /// The rule.
    pub rule: ControlRule,
}

/// Which rule of a log with restarts an entry breaks behind the entries before it. Of several of an event, or of a restart, the first in
/// this order is named.
#[derive(Clone, Copy, Debug, Error)]
pub enum LifeRule {
    /// There are at most 8192 sends and receipts.
    #[error("there may be at most 8192 events")]
    TooMany,
    /// There are at most 8 restarts.
    #[error("there may be at most 8 restarts")]
    TooManyRestarts,
    /// Each end of a message, and who restarts, is in the group.
    #[error(transparent)]
    Outside(Outsider),
    /// A message goes from one member to another.
    #[error("its ends must differ")]
    ToItself,
    /// It has the next number of its member's sends, or receipts, that stand.
    #[error("its number must be {0}")]
    WrongNumber(u32),
    /// A receipt takes a message that stands in the life of its sender that it names, that no receipt of its member that stands takes, and
    /// before which each earlier one to the member is taken, or has a number that is at most the greatest that the member took.
    #[error("its member may take no such message")]
    NotDue,
    /// A restart begins a later life than that in which its member is.
    #[error("its member is in life {0}")]
    NotLater(u32),
    /// A restart keeps events that stand.
    #[error("it may keep no more than {0}")]
    Stood(u32),
    /// Of the events that it keeps so many are receipts.
    #[error("the events that it keeps have another number of receipts")]
    OtherReceipts,
    /// A control message breaks this rule.
    #[error(transparent)]
    ControlMessages(ControlRule),
}

/// The first entry that breaks a rule of a log with restarts: its place, from 0, among the entries, and the first rule that it breaks.
#[derive(Clone, Copy, Debug, Error)]
#[error("event {place} is {entry}, and {rule}")]
pub struct LifeFault {
    /// Its place.
    pub place: usize,
    /// What it is.
    pub entry: Entry,
    /// The rule.
    pub rule: LifeRule,
}

/// Which rule a hold or a store breaks behind the entries before it. Of several the first in this order is named.
#[derive(Clone, Copy, Debug, Error)]
pub enum RecordRule {
    /// There are at most 131,072 holds and stores.
    #[error("there may be at most 131072 holds and stores")]
    TooMany,
    /// It is in the log of a member of the group.
    #[error(transparent)]
    Outside(Outsider),
    /// The receipt that it names precedes it, by its member's own order and messages.
    #[error("nobody there can know the receipt yet")]
    NotBefore,
}

/// The first hold or store that breaks a rule: its place, from 0, among the entries, and the first rule that it breaks.
#[derive(Clone, Copy, Debug, Error)]
#[error("event {place} is {entry}, and {rule}")]
pub struct RecordFault {
    /// Its place.
    pub place: usize,
    /// What it is.
    pub entry: Entry,
    /// The rule.
    pub rule: RecordRule,
}

/// What a log is refused for, with the numbers that were given. Places are those among all entries.
#[derive(Clone, Copy, Debug, Error)]
pub enum LogBreach {
    /// The group's numbers, the strike set, or a send or receipt.
    #[error(transparent)]
    Trace(Breach),
    /// A control message.
    #[error(transparent)]
    Control(ControlFault),
    /// An entry of a log with restarts.
    #[error(transparent)]
    Life(LifeFault),
    /// A hold or a store.
    #[error(transparent)]
    Record(RecordFault),
}
