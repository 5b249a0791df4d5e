//! The lock, the claims and the workers: what no contract says of them, and their worked examples.

mod claiming;
mod fixtures;
mod gates;
mod memory;
mod patience;
mod recording;
mod schedules;
mod sharing;
