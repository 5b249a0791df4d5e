//! Laws of histories. Each is the contract of a function that does nothing, and the check of the crate proves it.

ghost use Rattle.fbl_history.specs.Laws.{StandingIsTrace, NothingComesBack, OthersAreUndone, TraceHasEachOnce};
ghost use Rattle.fbl_history.specs.Laws.{BeginsAtStart, FollowsCheckpoints, FollowsDeliveries, FollowsRecoveries, FollowsStrikes, FollowsTurns};
ghost use Rattle.fbl_history.specs.ShapeLaws.{HasArrowFromItsSend, IsDashedWhileDown, MarksEachEvent};

use crate::history::History;

/// After a history has gone on to a group, its events that are not undone are exactly the group's trace, in order. Nothing
/// that stood before it changes but that events become undone, and none that is undone comes back.
pub fn going_on_law()
    ensures standing { StandingIsTrace }
    ensures nothing_comes_back { NothingComesBack }
{}

/// A history of whose standing events no two are the same goes on to some of these, in their order: exactly the others become
/// undone, and no column is added. A recovery's trace is such a part of the trace before it, and a sound group's trace has no
/// event twice.
#[tactic(auto, using(crate::proofs::Cutting::others_undone))]
pub fn cutting_law()
    ensures undone { OthersAreUndone }
    ensures once { TraceHasEachOnce }
{}

/// A history of a group: its events that are not undone are exactly the group's trace, and it counts the receipts that the group ever
/// made, and those that were undone. Such is the history of a new group, and it stays one over each step of the group. Over the turns
/// of workers it goes on as over the commands that do the same: each turn's commit is a delivery, and its crash a strike and a
/// recovery.
pub fn following_law()
    ensures begins { BeginsAtStart }
    ensures deliveries { FollowsDeliveries }
    ensures strikes { FollowsStrikes }
    ensures checkpoints { FollowsCheckpoints }
    ensures recoveries { FollowsRecoveries }
    ensures turns { FollowsTurns }
{}

/// Of every history that can be made, and so many members: each event that stands has one mark in its column, each undone one its
/// crossed mark; each receipt has one arrow, which comes from the last send of its message before it, or from a recovery between
/// the two that sent it again; and each member's line is dashed exactly from its strike to its recovery. The shapes are those
/// of the picture of a history.
pub fn shapes_law(history: &History, members: u8)
    ensures events { MarksEachEvent history.now }
    ensures messages { HasArrowFromItsSend members history.now }
    ensures lines { IsDashedWhileDown members history.now }
{
    // the contract alone says how many members have a line
    let _members = members;
    // and each receipt of a history comes after a send of its message
    history.columns();
}
