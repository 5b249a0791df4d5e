//! How much there may be of each thing.

/// The fewest members that a group may have.
pub const LEAST_MEMBERS: u8 = 2;

/// The most members that a group may have: members' numbers are below it.
pub const MOST_MEMBERS: u8 = 16;

/// The most messages that members send before anything is received.
pub const MOST_STARTS: usize = 64;

/// The most events that a trace may have.
pub const MOST_EVENTS: u32 = 8192;

/// The most pairs of a holder and a determinant in a dump, and the most holds and stores in a log.
pub const MOST_PAIRS: usize = 131_072;

/// The most strikes that a plan may have.
pub const MOST_STRIKES: usize = 64;
