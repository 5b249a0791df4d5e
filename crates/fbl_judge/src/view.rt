//! A set of restarts, with the least moment that has them.

ghost use Rattle.std.specs.Prelude.{◌≡◌, length};

use fbl_runs::Clock;

/// How many restarts have come.
#[derive(Clone, Copy)]
pub(crate) struct RestartCounts {
    /// For each member, by its number, how many of its own.
    pub(crate) of_members: [usize; 16],
    /// How many in all.
    pub(crate) total: usize,
    ghost room: { length of_members ≡ 16 },
}

/// A set of restarts that some moment has just.
#[derive(Clone, Copy)]
pub(crate) struct View {
    /// The least moment that has them.
    pub(crate) base: Clock,
    /// For each member, by its number, the number of its last restart there, or 0 where there is none.
    pub(crate) starts: [usize; 16],
    /// For each member the number of its next restart, or of all its entries where there is none.
    pub(crate) tops: [usize; 16],
    /// How many restarts there are.
    pub(crate) restarts: RestartCounts,
    ghost starts_room: { length starts ≡ 16 },
    ghost tops_room: { length tops ≡ 16 },
}
