//! Why a dump is refused.

use thiserror::Error;

/// Why a dump is refused. The refusals are tested in this order, but for lack of memory, which may come once the members and
/// `f` are allowed.
#[derive(Clone, Copy, PartialEq, Eq, Debug, Error)]
#[error("{:?}", self)]
pub enum DumpRefusal {
    /// There are not 2 to 16 members.
    BadMembers,
    /// The number of members that may be lost at once is not 1 to one less than that of members.
    BadF,
    /// The event at this place, the first such, breaks a rule of events. One at place 8192 always does.
    #[error("BadEvent {0}")]
    BadEvent(usize),
    /// The pair at this place, the first such, has a holder outside the group or no receipt's determinant, or stands at
    /// place 131072.
    #[error("BadHeld {0}")]
    BadHeld(usize),
    /// The strike set has a member outside the group.
    BadStrike,
    /// There is no memory for what the check keeps.
    Memory,
}
