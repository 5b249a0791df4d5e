//! Histories: what came in a run of a group, a column for each event that was made and for each strike, recovery and
//! checkpoint, in the order in which they came. The record of a history, as a log. The shapes of pictures; the definition of those that are
//! drawn of a history, and the laws that say what they show. What makes them, and their texts, stand in the crate above.
#![tactic(auto)]

mod column;
mod counts;
mod history;
pub mod laws;
mod record;
mod shape;
mod states;
mod turns;

pub use column::{Column, Replay};
pub use counts::{receipts_made, receipts_undone};
pub use history::History;
pub use record::{RecordRefusal, record_of};
pub use shape::{ArrowKind, Glyph, GlyphKind, LineKind, ReceiptKind, Shape, Status};
