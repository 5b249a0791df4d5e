//! Candidates that elect the greatest identifier, and what each step of theirs keeps and never loses.

use fbl_law::step_laws::{Keeping, LosingNone, Weighing};
use fbl_trace::{Behaviour, Exact, Member, Note, Outcome};

/// What a candidate knows.
#[derive(Clone, Copy, PartialEq, Debug)]
pub struct Standing {
    /// The greatest identifier that it has taken, 0 for none.
    pub greatest: u32,
    /// How many smaller ones it has dropped, up to 2^32 - 1.
    pub dropped: u32,
}

impl Exact for Standing {
    ghost use Rattle.std.proofs.Common.{rules};

    ghost exact = { Prim.search rules };
}

/// A member that takes part in an election. A note's `value` is an identifier, and its `hops` is how many further members the
/// identifier is to reach after the receiver.
///
/// The member takes a greater identifier than it has, and passes it on. The one that it has goes on too, and uses up no hop
/// here; a smaller one is dropped. Identifiers are unique: one that two starts bring may go round for ever.
pub struct Candidate;

impl Behaviour for Candidate {
    ghost use Rattle.std.proofs.Common.{rules};
    ghost use Rattle.fbl_behaviours.specs.Elections.{candidate_next, candidate_sends_allowed};

    type State = Standing;

    type Note = Note;

    ghost next = { candidate_next };

    ghost laws = { Prim.search (rules, candidate_sends_allowed) };

    fn initial(_me: Member, _n: u8) -> Standing {
        Standing {
            greatest: 0,
            dropped: 0,
        }
    }

    fn step(me: Member, n: u8, state: Standing, note: Note) -> Outcome<Standing, Note> {
        let Standing { greatest, dropped } = state;
        let is_smaller = note.value < greatest;
        let state = Standing {
            greatest: greatest.max(note.value),
            dropped: dropped.saturating_add(is_smaller.into()),
        };
        let hops = if note.value > greatest {
            note.hops
        } else if note.value == greatest && greatest != 0 {
            note.hops.saturating_add(1)
        } else {
            0
        };
        Outcome::with_onward(state, me.after(1, n), note.value, hops)
    }
}

// No identifier is made up.
impl Keeping for Candidate {
    ghost use Rattle.fbl_behaviours.specs.Elections.{HasTaken, IsPassedOn, candidate_first, candidate_keeps};

    ghost states = { HasTaken };

    ghost notes = { IsPassedOn };

    ghost first = { candidate_first };

    ghost keeps = { candidate_keeps };
}

// The weight of the greatest identifier: the members that have it, and those that it is to reach.
impl Weighing for Candidate {
    ghost use Rattle.fbl_behaviours.specs.Elections.{has_greatest, reaches};

    ghost mass = { has_greatest };

    ghost weight = { reaches };
}

// The greatest identifier is not lost, by a step and so by a whole group.
impl LosingNone for Candidate {
    ghost use Rattle.fbl_behaviours.specs.Elections.{candidate_loses_none};

    ghost loses_none = { candidate_loses_none };
}
