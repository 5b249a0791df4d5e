//! Whether a recorded run is safe where it is judged, whichever members are lost: the check, the audit of its last moment, the reasons, with
//! paths from receipts to orphans, and the laws.
//!
//! A moment is a consistent cut of the run (Mattern 1988) that divides no step: a receipt and the holds and stores that directly follow it
//! in its member's log come together. A dump is judged at its last moment, a log at each.
#![tactic(auto)]

mod audit;
mod check;
pub mod laws;
mod named;
mod pasts;
mod paths;
mod reason;
mod recorded;
mod undone;
mod view;
mod views;

pub use audit::{Audit, LostReceipt, audit_of, first_cause, first_on_any};
pub use check::{UnsafeReceipt, first_unsafe, unsafe_receipts};
pub use named::first_dependent_place;
pub use pasts::Pasts;
pub use paths::{OrphanPath, path_to, paths_to};
pub use reason::{Reason, loss_reasons, unsafe_reasons};
pub use recorded::{RecordedAt, recorded_at};
pub use undone::{UndoneReceipt, undone_receipts};
