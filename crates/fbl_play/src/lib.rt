//! Scripts played over any reader and writer: what each command does to a group; the histories of scripts' runs, and their records, as
//! logs.
#![tactic(auto)]

mod commands;
mod engine;
mod observer;
mod record;
mod transcript;

pub use engine::{history_of_script, play, play_script};
pub use observer::{NoObserver, Observer};
pub use record::record_of_script;
pub use transcript::Transcribed;
