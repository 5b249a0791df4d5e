//! A worker's turn: the claim on a member, what its commit does to a group, and the counts and the records of turns.
#![tactic(auto)]

mod claims;
mod counted;
mod counted_group;
mod joined;
mod origin;
mod plan;
mod recorder;
mod worker;

pub use claims::{
    Claim, ClaimRefusal, Claims, Exclusive, Gain, GiveBack, Nothing, Pass, one_holder,
    words_follow_views,
};
pub use counted::Drained;
pub use counted_group::CountedGroup;
pub use joined::{Joined, Unstarted};
pub use origin::{Origin, Workers};
pub use recorder::{Records, no_records};
pub use worker::{Claiming, Ended, Idle, Taken};
