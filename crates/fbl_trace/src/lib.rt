//! Types, behaviours, the rules of a trace, and dumps of traces.
#![tactic(auto)]

mod behaviour;
mod config;
mod content;
mod dump;
mod fault;
pub mod laws;
mod limits;
mod member;
mod member_set;
mod outcome;
mod plan;
mod rules;
mod strike;
mod ticket;
mod trace;

pub use behaviour::{Behaviour, Mix, Relay};
pub use config::{Config, ConfigRefusal, GroupRule, group_breach};
pub use content::{Content, Exact};
pub use dump::{Dump, DumpRefusal, RawDump, check_dump, checked_dump};
pub use fault::{
    Breach, EntryRule, EventFault, EventRule, Outsider, PairFault, PairRule, PlanFault, StartRule,
};
pub use limits::{LEAST_MEMBERS, MOST_EVENTS, MOST_MEMBERS, MOST_PAIRS, MOST_STARTS, MOST_STRIKES};
pub use member::Member;
pub use member_set::MemberSet;
pub use outcome::Outcome;
pub use plan::{first_bad_entry, plan_fault};
pub use rules::Counts;
pub use strike::Strike;
pub use ticket::{Room, Ticket};
pub use trace::{Determinant, Event, Mark, MessageName, Note, Start};
