//! Scripts as text: what they ask for, how they are read from JSON, what their commands answer, and the lines of that, with what these
//! don't say in words for a person.
#![tactic(auto)]

mod answer;
mod command_reader;
pub mod laws;
mod reason;
mod remark;
mod script;
mod script_reader;

pub use answer::Answer;
pub use reason::{
    NamedMembers, RefusalReason, checkpoint_reason, deliver_reason, no_such_member, run_reason,
    strike_reason,
};
pub use remark::Remark;
pub use script::{BehaviourName, Command, Plan, Script};
pub use script_reader::read_script;
