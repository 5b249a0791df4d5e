//! The program as a library, over any streams: scripts are played or shown, recorded runs merged, audited, checked or drawn.
#![tactic(auto)]

mod around;
mod command_line;
mod fault;
mod job;
mod jobs;
mod program;
mod runs;
mod scripts;
mod status;
mod streams;
mod teller;

pub use program::run;
pub use status::{CHANNEL_FAULT, DONE, INPUT_FAULT, MEMORY_FAULT, NOT_WELL, fail};
pub use streams::{Failure, Named, Streams};
