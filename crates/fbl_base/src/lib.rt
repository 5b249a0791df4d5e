//! The door for users of the judge: the audit of a recorded trace, beside the types, the behaviours, the rules of a trace and its dumps,
//! which are of `fbl_trace`.
#![tactic(auto)]

pub mod audit;

pub use fbl_trace::{
    Behaviour, Breach, Config, ConfigRefusal, Content, Counts, Determinant, DumpRefusal, EntryRule,
    Event, EventFault, EventRule, Exact, Mark, Member, MemberSet, MessageName, Mix, Note, Outcome,
    Outsider, PairFault, PairRule, PlanFault, RawDump, Relay, Room, Start, StartRule, Strike,
    Ticket, first_bad_entry, laws, plan_fault,
};
