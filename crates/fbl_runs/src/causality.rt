//! How one entry of a run leads to another.

/// How one entry of a run leads to another.
#[derive(Clone, Copy, PartialEq, Eq, Debug)]
pub enum Causality {
    /// The one happened before the other (Lamport 1978), by the members' own order, messages and control messages.
    HappenedBefore,
    /// What comes of the other depends on the one (Depend of Alvisi and Marzullo 1998): control messages carry no dependence.
    Dependence,
}
