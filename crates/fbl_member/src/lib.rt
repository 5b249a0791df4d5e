//! One member's volatile record, and the messages in flight.
#![tactic(auto)]

mod buffers;
mod carried;
pub mod laws;
mod member_rec;
mod members;
mod wire;

pub use carried::Carried;
pub use member_rec::MemberRec;
pub use members::fresh_members;
pub use wire::Wire;
