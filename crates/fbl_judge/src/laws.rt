//! Laws of runs: each is the contract of a function that does nothing, and the check of the crate proves it.

ghost use Rattle.fbl_judge.specs.Laws.{AlwaysSafeLaw, LeastMomentLaw, NoOrphansLaw, OrderLaw};

/// There is a least moment at which an entry has come: its causal past, with the holds and stores of the steps in it.
pub fn least_moment_law()
    ensures { LeastMomentLaw }
{}

/// A run is safe at each of its moments exactly where it is, for each set of restarts that some moment has, at the least of the moments with
/// just these at which a member depends on a receipt that stands there.
pub fn always_safe_law()
    ensures { AlwaysSafeLaw }
{}

/// Where nobody is struck, a run is safe exactly where it always has no orphans, by the condition of Alvisi and Marzullo (1998): where at
/// most `f` members hold a determinant, all that depend on the receipt hold it. What is on stable storage is left out.
pub fn no_orphans_law()
    ensures { NoOrphansLaw }
{}

/// Whether a run is safe, which receipts are unsafe, and what is said of each does not depend on the order in which the entries of different
/// members are listed, but for the places.
pub fn order_law()
    ensures { OrderLaw }
{}
