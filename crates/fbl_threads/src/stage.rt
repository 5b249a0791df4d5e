//! How far a worker is with its turns.

use fbl_turns::{Ended, Idle, Taken, Workers};

/// How far a worker is with its turn, between two holds of the lock.
pub(crate) enum Stage<O: Workers, S, N> {
    /// The turn is over, and the worker has claimed nobody.
    Idle(Idle<O>),
    /// A member is claimed, and a ticket to it taken.
    Taken(Taken<O, S, N>),
    /// The worker has ended: nothing is in flight, somebody is down, its turns are used up, or its commit or recovery was refused by
    /// want of room in the trace or of memory.
    Ended(Ended<O>),
}
