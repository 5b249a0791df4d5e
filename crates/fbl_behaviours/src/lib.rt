//! Behaviours of users' own, to copy, with the laws of their steps: accounts that pay each other, candidates that elect one of them, and
//! shards of a store.
#![tactic(auto)]

mod account;
mod candidate;
mod command;
mod party;
mod shard;

pub use account::Account;
pub use candidate::{Candidate, Standing};
pub use command::Command;
pub use party::{Party, Stand, Word};
pub use shard::Shard;
