//! What members do with messages.

ghost use Rattle.std.specs.Prelude.{◌≡◌, ◌+◌, ◌*◌, ◌%◌, ◌<◌, ◌≤◌};
ghost use Rattle.fbl_trace.specs.Steps.{modulus};

use crate::content::{Content, Exact};
use crate::member::Member;
use crate::outcome::Outcome;
use crate::trace::Note;

/// What a member does with a message, by its state and the message's content alone. So a member's state is determined
/// by the messages that it has received, in their order (piecewise determinism: Elnozahy and others 2002).
///
/// `next` is the behaviour as a definition, by which contracts speak of it: its first states, its step, and which contents a
/// start may have. `laws` shows that its sends are allowed, that starts are those of the messages' type, and that a step fits in
/// memory, as it does at all but enormous types.
pub trait Behaviour {
    ghost use Rattle.std.specs.Prelude.{◌≡◌, ◌≤◌, ◌<◌};
    ghost use Rattle.std.specs.Mem.{FitsInMemory};
    ghost use Rattle.fbl_trace.specs.Steps.{IsBehaviour, Next};
    ghost use Rattle.fbl_trace.specs.contracts.ticket.Room as room;

    /// What a member keeps.
    type State: Exact;
    /// What a message holds.
    type Note: Content;

    ghost next: { Next Self.State Self.Note };

    /// The state of member `me` of `n` when it has received nothing. `n` is 2 to 16, and `me` is below it.
    fn initial(me: Member, n: u8) -> Self::State
        requires least { 2 ≤ n }
        requires most { n ≤ 16 }
        requires member { me < n }
        ensures { result ≡ next.initial me n };

    /// The step of member `me` of `n` at this state and message: the new state, and what is sent, at most 4 messages, each to
    /// a member below `n` other than `me`. `n` is 2 to 16, and `me` is below it.
    fn step(
        me: Member,
        n: u8,
        state: Self::State,
        note: Self::Note,
    ) -> Outcome<Self::State, Self::Note>
        requires least { 2 ≤ n }
        requires most { n ≤ 16 }
        requires member { me < n }
        ensures { result ≡ next.step me n state note };

    ghost laws: { IsBehaviour next Self.Note.allowed (FitsInMemory (room.the_row Self.State.row Self.Note.row)) };
}

/// What each new state is taken modulo.
const MODULUS: u64 = 1_000_000_007;

/// Adds up the values that it receives, and passes each message on to the next member.
///
/// The new state is `(state + value) mod 1_000_000_007`. If the message has hops left, `(me + 1) mod n` is sent its
/// value with one hop fewer.
pub struct Relay;

/// Mixes the values that it receives, and passes its state on to a member that the state chooses.
///
/// The new state `s` is `(31 * state + value + 1) mod 1_000_000_007`. If the message has hops left,
/// `(me + 1 + s mod (n - 1)) mod n` is sent the value `s mod 1000` with one hop fewer.
pub struct Mix;

impl Behaviour for Relay {
    ghost use Rattle.fbl_trace.specs.Steps.{numbered_from_0, relay_step, relay_sends_allowed};
    ghost use Rattle.fbl_trace.specs.Numeric.{by_sends};

    type State = u64;

    type Note = Note;

    ghost next = { numbered_from_0 relay_step };

    ghost laws = { by_sends relay_sends_allowed };

    fn initial(_me: Member, _n: u8) -> u64 {
        0
    }

    fn step(me: Member, n: u8, state: u64, note: Note) -> Outcome {
        let state = added_up(state, note.value);
        let to = me.after(1, n);
        Outcome::with_onward(state, to, note.value, note.hops)
    }
}

impl Behaviour for Mix {
    ghost use Rattle.fbl_trace.specs.Steps.{numbered_from_0, mix_step, mix_sends_allowed};
    ghost use Rattle.fbl_trace.specs.Numeric.{by_sends};

    type State = u64;

    type Note = Note;

    ghost next = { numbered_from_0 mix_step };

    ghost laws = { by_sends mix_sends_allowed };

    fn initial(_me: Member, _n: u8) -> u64 {
        0
    }

    fn step(me: Member, n: u8, state: u64, note: Note) -> Outcome {
        let state = mixed(state, note.value);
        let to = me.after((1 + state % u64::from(n - 1)) as u8, n);
        Outcome::with_onward(state, to, (state % 1000) as u32, note.hops)
    }
}

/// The state of a relay after this value. The state is reduced first: the sum fits 64 bits.
fn added_up(state: u64, value: u32) -> u64
    ensures { result ≡ (state + value) % modulus }
{
    (state % MODULUS + u64::from(value)) % MODULUS
}

/// The state of a mix after this value. The state is reduced first: the product fits 64 bits.
fn mixed(state: u64, value: u32) -> u64
    ensures { result ≡ (31 * state + value + 1) % modulus }
{
    (31 * (state % MODULUS) + u64::from(value) + 1) % MODULUS
}
