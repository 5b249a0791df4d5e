//! Pictures: of what a history has, member by member, and of a recorded run, where it is unsafe, or else at its end. Each is made of shapes,
//! in a frame with a heading and a legend.
#![tactic(auto)]

mod headings;
mod history;
mod names;
mod run;
mod svg;

pub use history::write_history_picture;
pub use run::{column_count, write_run_picture};
