//! Which rule a configuration, a dump or a plan breaks, with the numbers that tell why. The words are those for a person.

use crate::member::Member;
use crate::strike::Strike;
use crate::trace::{Determinant, Mark, Start};
use thiserror::Error;

/// A member that is named where a group has fewer members.
#[derive(Clone, Copy, Debug, Error)]
#[error("member {member} is outside the group, whose members are 0 to {}", .members.saturating_sub(1))]
pub struct Outsider {
    pub member: Member,
    /// How many members the group has.
    pub members: u8,
}

/// Which rule a start breaks.
#[derive(Clone, Copy, Debug, Error)]
pub enum StartRule {
    /// Each end is in the group: the first that isn't.
    #[error(transparent)]
    Outside(Outsider),
    /// It goes from one member to another.
    #[error("must go to another member")]
    ToItself,
    /// It has at most 15 hops.
    #[error("may have 0 to 15 hops, not {0}")]
    TooManyHops(u8),
}

/// Which rule an event breaks behind the events before it.
#[derive(Clone, Copy, Debug, Error)]
pub enum EventRule {
    /// At most 8192 events.
    #[error("there may be at most 8192 events")]
    TooMany,
    /// Each end is in the group: the sender, if it isn't, and else the receiver.
    #[error(transparent)]
    Outside(Outsider),
    /// A message goes from one member to another.
    #[error("its ends must differ")]
    ToItself,
    /// It has the next number of its member's sends, or receipts, which is here.
    #[error("its number must be {0}")]
    WrongNumber(u32),
    /// A receipt takes a message that is in flight.
    #[error("nothing is in flight from {from} to {to}")]
    NothingInFlight {
        from: Member,
        to: Member,
    },
    /// A receipt takes the first message in flight on its channel: that has the number `first`.
    #[error("the first message in flight from {from} to {to} is number {first}")]
    OtherInFlight {
        from: Member,
        to: Member,
        first: u32,
    },
}

/// The first event of a dump that breaks a rule: its place, from 0, what it is, and the first rule that it breaks.
#[derive(Clone, Copy, Debug, Error)]
#[error("event {place} is {event}, and {rule}")]
pub struct EventFault {
    pub place: usize,
    pub event: Mark,
    pub rule: EventRule,
}

/// Which rule a held pair breaks.
#[derive(Clone, Copy, Debug, Error)]
pub enum PairRule {
    /// At most 131,072 pairs.
    #[error("there may be at most 131072 pairs")]
    TooMany,
    /// The holder is in the group.
    #[error(transparent)]
    Outside(Outsider),
    /// Some event is the receipt that the determinant names.
    #[error("no event is {0}")]
    NoReceipt(Mark),
}

/// The first held pair of a dump that breaks a rule: its place, from 0, what it is, and the first rule that it breaks.
#[derive(Clone, Copy, Debug, Error)]
#[error("held pair {place} is [{holder},{},{},{},{}], and {rule}", .determinant.from, .determinant.ssn, .determinant.to, .determinant.rsn)]
pub struct PairFault {
    pub place: usize,
    pub holder: Member,
    pub determinant: Determinant,
    pub rule: PairRule,
}

/// What a configuration or a dump is refused for, with the numbers that were given.
#[derive(Clone, Copy, Debug, Error)]
pub enum Breach {
    #[error("members is {members}, and must be 2 to 16")]
    Members {
        members: u8,
    },
    #[error("f is {f}, and must be 1 to {}, one less than members", .members.saturating_sub(1))]
    F {
        f: u8,
        members: u8,
    },
    #[error("limit is {limit}, and must be 1 to 8192")]
    Limit {
        limit: u32,
    },
    #[error("there are {starts} starts, and may be at most 64")]
    Starts {
        starts: usize,
    },
    /// The first start that breaks a rule: its place, from 0, what it is, and the first rule that it breaks.
    #[error("start {place} goes from {} to {}, and {rule}", .start.from, .start.to)]
    Start {
        place: usize,
        start: Start,
        rule: StartRule,
    },
    #[error("limit is {limit}, and must be at least {starts}, as there are {starts} starts")]
    LimitBelowStarts {
        limit: u32,
        starts: usize,
    },
    #[error(transparent)]
    Event(EventFault),
    #[error(transparent)]
    Held(PairFault),
    /// The least member of the strike set that is outside the group.
    #[error("in strike, {0}")]
    Strike(Outsider),
    #[error("out of memory")]
    Memory,
}

/// Which rule an entry of a plan breaks.
#[derive(Clone, Copy, Debug, Error)]
pub enum EntryRule {
    /// At most 64 entries.
    #[error("a plan has at most 64 entries")]
    TooMany,
    /// It comes after the entry before it, at the number that is here: 0 for the first.
    #[error("must come after {0}")]
    NotLater(u64),
    /// It names somebody.
    #[error("must strike somebody")]
    Nobody,
    /// It names no more than may be lost at once: that number is here.
    #[error("may strike at most {0}, which is f")]
    TooManyMembers(u8),
    /// Each that it names is in the group: the least that isn't.
    #[error(transparent)]
    Outside(Outsider),
}

/// The first entry of a plan that breaks a rule: its place, from 0, what it is, and the first rule that it breaks.
#[derive(Clone, Copy, Debug, Error)]
#[error("entry {place} of the plan comes at {} and strikes {}, and {rule}", .entry.at, .entry.set)]
pub struct PlanFault {
    pub place: usize,
    pub entry: Strike,
    pub rule: EntryRule,
}
