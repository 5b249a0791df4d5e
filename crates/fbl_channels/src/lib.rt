//! The channels of a group: for each sender one to each receiver, with its messages in flight, first in, first out.
#![tactic(auto)]

mod channels;
mod starts;

pub use channels::{Channel, Channels, has_either};
pub use starts::send_starts;
