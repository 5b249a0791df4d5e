//! What a step answers.

ghost use Rattle.std.specs.Prelude.{◌≡◌};
ghost use Rattle.fbl_trace.specs.Steps.{onward};

use crate::member::Member;
use crate::trace::Note;
use arrayvec::ArrayVec;

/// What a step gives: the new state, and the messages sent, with their destinations.
#[derive(Drop, Debug)]
pub struct Outcome<S = u64, N = Note> {
    /// The state after the step. Each is allowed; `Relay` and `Mix` give a number below 1,000,000,007.
    pub state: S,
    /// The messages that the step sends, each with its receiver, in the order in which they are sent. At most 4. A
    /// behaviour's go to other members of the group.
    pub sends: ArrayVec<(Member, N), 4>,
}

impl<S> Outcome<S, Note> {
    /// The new state, and the message passed on to `to` if it has hops left.
    pub fn with_onward(state: S, to: Member, value: u32, hops: u8) -> Outcome<S, Note>
        ensures { result ≡ onward state to value hops }
    {
        let mut sends = ArrayVec::new();
        if hops > 0 {
            let hops = hops - 1;
            sends.push((to, Note { value, hops }));
        }
        Outcome { state, sends }
    }
}
