//! A behaviour that never ends, and whose step takes long.

ghost use Rattle.std.specs.Prelude.{◌≡◌, ◌<◌};
ghost use Rattle.fbl_trace.specs.Steps.{modulus};
ghost use Rattle.fbl_benchmark.specs.Circulation.{mixed, rounds};

use crate::circulate::Circulate;
use fbl_trace::{Behaviour, Member, Note, Outcome};

/// How often a step mixes its state, which takes some 50 microseconds.
const ROUNDS: u32 = 12_000;

/// What each state is taken modulo.
const MODULUS: u64 = 1_000_000_007;

/// What `Circulate` does, with the new state mixed many times.
pub struct LongCirculate;

impl Behaviour for LongCirculate {
    ghost use Rattle.fbl_benchmark.specs.Circulation.{long_circulate_next, long_circulate_laws};

    type State = u64;

    type Note = Note;

    ghost next = { long_circulate_next };

    ghost laws = { long_circulate_laws };

    fn initial(_me: Member, _n: u8) -> u64 {
        0
    }

    fn step(me: Member, n: u8, state: u64, note: Note) -> Outcome {
        let outcome = Circulate::step(me, n, state, note);
        Outcome {
            state: mix_often(outcome.state),
            sends: outcome.sends,
        }
    }
}

/// The state mixed many times.
fn mix_often(state: u64) -> u64
    requires { state < modulus }
    ensures { result ≡ mixed rounds state }
{
    let mut mixed = state;
    for _round in 0..ROUNDS {
        mixed = (31 * mixed + 1) % MODULUS;
    }
    mixed
}
