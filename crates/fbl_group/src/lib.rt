//! A group of members over one record: deliveries, checkpoints, strikes and recoveries, each of which keeps the record sound.
#![tactic(auto)]

mod answers;
mod checkpoint;
mod crash;
mod delivery;
mod dump;
mod group;
pub mod laws;
mod readers;
mod recovery;
mod refusals;
mod start;
mod strike;

pub use answers::{CrashRecord, Receipted, Recovered, RecoveryRecord, Struck, TurnRecord};
pub use delivery::{Done, run_step};
pub use fbl_trace::Ticket;
pub use group::Group;
pub use refusals::{
    CheckpointRefusal, CommitRefusal, CrashRefusal, DeliverRefusal, DumpGroupRefusal,
    RecoverRefusal, StrikeRefusal, TakeRefusal,
};
