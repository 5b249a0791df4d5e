//! A law of the definitions, as the contract of a function that does nothing.

ghost use Rattle.fbl_member.specs.Laws.{FreshIsBegun, ReceivedIsAdvanced, ReplayedIsAdvanced};

/// A member's record follows the fold of its receipts: what a new one has of state, count and log is the fold of no
/// notes, and the receipt of a message, or its replay, is one step of the fold. It holds of any states and contents.
pub fn fold_law<S, N>()
    ensures fresh { FreshIsBegun S N }
    ensures received { ReceivedIsAdvanced S N }
    ensures replayed { ReplayedIsAdvanced S N }
{}
