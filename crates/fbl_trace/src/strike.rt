//! The entries of a plan of strikes.

use crate::member_set::MemberSet;

/// A strike of a plan: a set of members to strike when the receipts ever made by the group come to a number.
#[derive(Clone, Copy, PartialEq, Eq, Debug)]
pub struct Strike {
    /// The number of receipts. One that is passed already strikes nobody.
    pub at: u64,
    /// The members.
    pub set: MemberSet,
}
