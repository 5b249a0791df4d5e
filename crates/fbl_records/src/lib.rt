//! Recorded runs as JSON: dumps and logs, read and written.
#![tactic(auto)]

mod dump_tokens;
mod event_lines;
pub mod laws;
mod lines;
mod log_version;
mod reader;

pub use lines::{dump_text, log_text};
pub use reader::{RecordedInput, read_checked, read_dump, read_recorded};
