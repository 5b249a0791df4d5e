//! Dumps that are not checked yet.

use crate::member::Member;
use crate::member_set::MemberSet;
use crate::trace::{Determinant, Mark};

/// A recorded trace, who held which determinants, and who is taken to be lost, from any source and not yet checked.
#[derive(Drop)]
pub struct RawDump {
    /// How many members the group had.
    pub members: u8,
    /// How many of them might be lost at once.
    pub f: u8,
    /// The events, in order.
    pub events: Vec<Mark>,
    /// Each pair says that the member held the determinant. A repeated pair counts once.
    pub held: Vec<(Member, Determinant)>,
    /// The strike set: the members that are taken to be lost. It may be empty, and may have more than `f` members.
    pub strike: MemberSet,
}
