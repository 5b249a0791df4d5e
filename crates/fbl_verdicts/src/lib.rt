//! What is said of recorded runs: what audits and checks print, and why receipts are lost, unsafe or undone, in words for a person.
#![tactic(auto)]

mod audit_text;
mod check_text;
mod forgotten;
mod overview;
mod reason_text;
mod run_explanation;
mod undone_text;

pub use audit_text::{audit, write_audit};
pub use check_text::{Checked, write_check};
pub use forgotten::Forgotten;
pub use overview::Overview;
pub use run_explanation::RunExplanation;
pub use undone_text::UndoneReason;
