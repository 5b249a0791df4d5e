//! The calls of a group.

mod plays;
mod setting;
mod steps;
mod strikes;
