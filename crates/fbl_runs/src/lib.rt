//! Recorded runs, from dumps and from logs, with what the members hold and store from when on: their rules, their index, the clocks of their
//! entries, and where these stand in the files of a run.
#![tactic(auto)]

mod causality;
mod clock;
mod clocks;
mod control;
mod entry;
mod fault;
mod index;
mod judged;
mod lawful;
mod life_rules;
mod links;
mod lives;
mod receipts;
mod recording;
mod records;
mod run;
mod sources;

pub use causality::Causality;
pub use clock::Clock;
pub use clocks::Clocks;
pub use control::{ControlMessage, ControlMessages};
pub use entry::{Entry, Restart};
pub use fault::{
    ControlFault, ControlRule, LifeFault, LifeRule, LogBreach, RecordFault, RecordRule,
};
pub use index::Index;
pub use judged::Judged;
pub use lawful::{event_place, marks_of};
pub use life_rules::{LifeRules, MOST_RESTARTS};
pub use links::Link;
pub use recording::{RawRecording, Recording};
pub use records::RecordPlaces;
pub use run::{RawLog, Run, checked_log};
pub use sources::{InFile, Sources, Spot, spot_text};
