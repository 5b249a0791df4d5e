//! A behaviour that never ends.

use fbl_trace::{Behaviour, Member, Note, Outcome, Relay};

/// A relay to which each message comes with two hops, whatever it has: it is passed on with one, and goes round the
/// group for ever.
pub struct Circulate;

impl Behaviour for Circulate {
    ghost use Rattle.fbl_benchmark.specs.Circulation.{circulate_next, circulate_laws};

    type State = u64;

    type Note = Note;

    ghost next = { circulate_next };

    ghost laws = { circulate_laws };

    fn initial(_me: Member, _n: u8) -> u64 {
        0
    }

    fn step(me: Member, n: u8, state: u64, note: Note) -> Outcome {
        let value = note.value;
        Relay::step(me, n, state, Note { value, hops: 2 })
    }
}
