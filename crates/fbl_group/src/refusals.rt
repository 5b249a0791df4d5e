//! Why calls of a group are refused.

ghost use Rattle.std.specs.Prelude.{◌≡◌};

use thiserror::Error;

/// Why a message is not delivered. The refusals are tested in this order, and nothing has changed then.
#[derive(Clone, Copy, PartialEq, Eq, Debug, Error)]
#[error("{}", self.name())]
pub enum DeliverRefusal {
    /// The receiver or the sender is not a member of the group.
    BadMember,
    /// Some member of the group is down, whichever.
    Down,
    /// Nothing is in flight on the channel. No member sends to itself.
    Empty,
    /// The trace has no room for the receipt and its step's sends, or 2^64 - 1 receipts were made.
    Full,
    /// There is no memory for what the delivery adds.
    Memory,
}

impl DeliverRefusal {
    ghost use Rattle.fbl_group.specs.Refusals.{deliver_name};

    /// The refusal's word, as it is printed.
    pub fn name(self) -> &'static str
        ensures { result.now ≡ deliver_name self }
    {
        match self {
            DeliverRefusal::BadMember => "BadMember",
            DeliverRefusal::Down => "Down",
            DeliverRefusal::Empty => "Empty",
            DeliverRefusal::Full => "Full",
            DeliverRefusal::Memory => "Memory",
        }
    }
}

/// Why no ticket is given. The refusals are tested in this order.
#[derive(Clone, Copy, PartialEq, Eq, Debug, Error)]
pub enum TakeRefusal {
    /// The receiver or the sender is not a member of the group.
    #[error("BadMember")]
    BadMember,
    /// Some member of the group is down, whichever.
    #[error("Down")]
    Down,
    /// Nothing is in flight on the channel.
    #[error("Empty")]
    Empty,
}

/// The refusal of a ticket as one of a delivery.
impl From<TakeRefusal> for DeliverRefusal {
    ghost use Rattle.fbl_group.specs.Refusals.{of_take};

    ghost from_gives = { λ refusal e. e ≡ of_take refusal };

    fn from(refusal: TakeRefusal) -> DeliverRefusal {
        match refusal {
            TakeRefusal::BadMember => DeliverRefusal::BadMember,
            TakeRefusal::Down => DeliverRefusal::Down,
            TakeRefusal::Empty => DeliverRefusal::Empty,
        }
    }
}

/// Why a step is not committed. The refusals are tested in this order.
#[derive(Clone, Copy, PartialEq, Eq, Debug, Error)]
pub enum CommitRefusal {
    /// Some member of the group is down, whichever.
    #[error("Down")]
    Down,
    /// The group's size, the receiver's state or count of receipts, or the front's number or note is no longer the
    /// ticket's.
    #[error("Stale")]
    Stale,
    /// The trace has no room for the receipt and its step's sends, or 2^64 - 1 receipts were made.
    #[error("Full")]
    Full,
    /// There is no memory for what the delivery adds.
    #[error("Memory")]
    Memory,
}

/// Why nobody is struck. The refusals are tested in this order.
#[derive(Clone, Copy, PartialEq, Eq, Debug, Error)]
#[error("{}", self.name())]
pub enum StrikeRefusal {
    /// A member named is not a member of the group.
    BadMember,
    /// No member is named.
    Nobody,
    /// The members named and those that are down are more than f together.
    TooMany,
}

impl StrikeRefusal {
    ghost use Rattle.fbl_group.specs.Refusals.{strike_name};

    /// The refusal's word, as it is printed.
    pub fn name(self) -> &'static str
        ensures { result.now ≡ strike_name self }
    {
        match self {
            StrikeRefusal::BadMember => "BadMember",
            StrikeRefusal::Nobody => "Nobody",
            StrikeRefusal::TooMany => "TooMany",
        }
    }
}

/// Why no checkpoint is taken. The refusals are tested in this order.
#[derive(Clone, Copy, PartialEq, Eq, Debug, Error)]
#[error("{}", self.name())]
pub enum CheckpointRefusal {
    /// The member is not one of the group.
    BadMember,
    /// Some member of the group is down, whichever.
    Down,
    /// There is no memory for a copy of the member's record. The older checkpoint stands.
    Memory,
}

impl CheckpointRefusal {
    ghost use Rattle.fbl_group.specs.Refusals.{checkpoint_name};

    /// The refusal's word, as it is printed.
    pub fn name(self) -> &'static str
        ensures { result.now ≡ checkpoint_name self }
    {
        match self {
            CheckpointRefusal::BadMember => "BadMember",
            CheckpointRefusal::Down => "Down",
            CheckpointRefusal::Memory => "Memory",
        }
    }
}

/// Why nobody is recovered. The refusals are tested in this order.
#[derive(Clone, Copy, PartialEq, Eq, Debug, Error)]
#[error("{}", self.name())]
pub enum RecoverRefusal {
    /// Nobody is down.
    NotDown,
    /// There is no memory for what the recovery makes. The group is still down and unchanged.
    Memory,
}

impl RecoverRefusal {
    ghost use Rattle.fbl_group.specs.Refusals.{recover_name};

    /// The refusal's word, as it is printed.
    pub fn name(self) -> &'static str
        ensures { result.now ≡ recover_name self }
    {
        match self {
            RecoverRefusal::NotDown => "NotDown",
            RecoverRefusal::Memory => "Memory",
        }
    }
}

/// Why a crash is refused. The refusals are tested in this order: the first three are those of a strike.
#[derive(Clone, Copy, PartialEq, Eq, Debug, Error)]
pub enum CrashRefusal {
    /// A member named is not a member of the group.
    #[error("BadMember")]
    BadMember,
    /// No member is named.
    #[error("Nobody")]
    Nobody,
    /// The members named and those that are down are more than f together.
    #[error("TooMany")]
    TooMany,
    /// There is no memory for the recovery. The members named are struck, and all that are down stay so.
    #[error("Memory")]
    Memory,
}

/// The refusal of a strike as one of a crash.
impl From<StrikeRefusal> for CrashRefusal {
    ghost use Rattle.fbl_group.specs.Refusals.{of_strike};

    ghost from_gives = { λ refusal e. e ≡ of_strike refusal };

    fn from(refusal: StrikeRefusal) -> CrashRefusal {
        match refusal {
            StrikeRefusal::BadMember => CrashRefusal::BadMember,
            StrikeRefusal::Nobody => CrashRefusal::Nobody,
            StrikeRefusal::TooMany => CrashRefusal::TooMany,
        }
    }
}

/// Why no dump is made. The refusals are tested in this order.
#[derive(Clone, Copy, PartialEq, Eq, Debug, Error)]
#[error("{}", self.name())]
pub enum DumpGroupRefusal {
    /// The strike set has a member that is not one of the group.
    BadStrike,
    /// There is no memory for the dump.
    Memory,
}

impl DumpGroupRefusal {
    ghost use Rattle.fbl_group.specs.Refusals.{dump_group_name};

    /// The refusal's word, as it is printed.
    pub fn name(self) -> &'static str
        ensures { result.now ≡ dump_group_name self }
    {
        match self {
            DumpGroupRefusal::BadStrike => "BadStrike",
            DumpGroupRefusal::Memory => "Memory",
        }
    }
}
