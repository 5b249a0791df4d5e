//! Why what is recorded of a run has no order.

use fbl_runs::{ControlRule, Entry, LifeRule, LogBreach};
use fbl_trace::{Breach, DumpRefusal, EventRule};
use std::alloc::AllocError;
use std::convert::From;
use thiserror::Error;

/// What keeps an entry from coming where all its member's entries before it have come.
#[derive(Clone, Copy, Debug, Error)]
pub enum Obstacle {
    /// It breaks this rule of sends and receipts, whichever other entries have come.
    #[error(transparent)]
    Rule(EventRule),
    /// It breaks this rule of control messages, whichever other entries have come.
    #[error(transparent)]
    Control(ControlRule),
    /// In a log with restarts it breaks this rule, whichever other entries have come.
    #[error(transparent)]
    Life(LifeRule),
    /// No entry sends its message: this one would.
    #[error("no event sends its message: {0} is missing")]
    NeverSent(Entry),
    /// Its message is received already.
    #[error("an earlier event receives its message")]
    Received,
    /// Its message is sent at this place or behind, and the entry at this place, the next one of its sender, can't come either.
    #[error("its message is sent no earlier than event {0}")]
    Waits(usize),
}

/// The first entry of its member that comes in no part of an order.
#[derive(Clone, Copy)]
pub struct Stuck {
    /// Its place, from 0, as the entries were given.
    pub place: usize,
    /// What it is.
    pub entry: Entry,
    /// What keeps it from coming.
    pub obstacle: Obstacle,
}

/// Why a dump or a log is refused, in whichever order its events stand. Each place is the one at which an event, an entry or a pair was
/// given.
#[derive(Drop)]
pub enum OrderFault {
    /// No order of the entries obeys the rules, because of these: one entry that waits for no other, or several that wait in a circle,
    /// each for the next one and the last for the first. The first entry, as they were given, that comes in no part of an order waits
    /// for the first of these, or for one that does, and so on, unless it is that one itself.
    NoOrder(Vec<Stuck>),
    /// It is refused in each order, for this.
    Refused(DumpRefusal, LogBreach),
}

impl From<AllocError> for OrderFault {
    ghost use Rattle.std.specs.Prelude.{◌≡◌};
    ghost use Rattle.fbl_trace.specs.declared.fault.Breach.TheVariants as breach;
    ghost use Rattle.fbl_trace.specs.declared.dump.refusal.DumpRefusal.TheVariants.{Memory};
    ghost use Rattle.fbl_runs.specs.declared.fault.LogBreach.TheVariants.{Trace};
    ghost use Rattle.fbl_order.specs.declared.fault.OrderFault.TheVariants.{Refused};

    ghost from_gives = { λ _ e. e ≡ Refused Memory (Trace breach.Memory) };

    fn from(_: AllocError) -> OrderFault {
        OrderFault::Refused(DumpRefusal::Memory, LogBreach::Trace(Breach::Memory))
    }
}
