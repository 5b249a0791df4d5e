//! A behaviour that answers a message by four.

ghost use Rattle.std.specs.Prelude.{◌≡◌, ◌+◌, ◌%◌, ◌<◌, ◌≤◌};

use arrayvec::ArrayVec;
use fbl_trace::{Behaviour, Member, Note, Outcome, Relay};

/// The least group in which anything is sent.
const LEAST: u8 = 5;

/// Adds up the values as a relay does, and answers each message that has hops left by one to each of the next four
/// members, with its value and one hop fewer. A group of less than five sends nothing.
pub struct Spread;

impl Behaviour for Spread {
    ghost use Rattle.fbl_benchmark.specs.Spreading.{spread_next, spread_laws};

    type State = u64;

    type Note = Note;

    ghost next = { spread_next };

    ghost laws = { spread_laws };

    fn initial(_me: Member, _n: u8) -> u64 {
        0
    }

    fn step(me: Member, n: u8, state: u64, note: Note) -> Outcome {
        let state = Relay::step(me, n, state, note).state;
        if note.hops == 0 {
            return Outcome {
                state,
                sends: ArrayVec::new(),
            };
        }
        if n < LEAST {
            return Outcome {
                state,
                sends: ArrayVec::new(),
            };
        }
        let passed = Note {
            value: note.value,
            hops: note.hops - 1,
        };
        let sends = ArrayVec::from([
            (me.after(1, n), passed),
            (me.after(2, n), passed),
            (me.after(3, n), passed),
            (me.after(4, n), passed),
        ]);
        Outcome { state, sends }
    }
}
