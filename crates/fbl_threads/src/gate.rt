//! What a worker passes between taking a message and making the step.

use fbl_trace::Member;

/// A point that each worker passes between taking a message for a member and making the step, with no lock held and the
/// member claimed.
pub trait Gate {
    /// Lets the worker of this member pass, when it returns.
    fn pass(&self, member: Member);
}

/// A gate that returns at once.
pub struct NoGate;

impl Gate for NoGate {
    fn pass(&self, _member: Member) {}
}
