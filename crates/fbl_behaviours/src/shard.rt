//! Members that share a store of 256 keys, and what each step of theirs keeps and never makes.

use crate::command::Command;
use arrayvec::ArrayVec;
use fbl_law::step_laws::{Keeping, MakingNone, Weighing};
use fbl_trace::{Behaviour, Member, Outcome};

/// A member whose state is its shard of a store of 256 keys: the values of the keys that it owns. It carries out the commands on
/// its own keys, and passes another on to the next member.
pub struct Shard;

impl Behaviour for Shard {
    ghost use Rattle.std.proofs.Common.{rules};
    ghost use Rattle.fbl_behaviours.specs.Shards.{shard_next, shard_sends_allowed};

    type State = [u64; 256];

    type Note = Command;

    ghost next = { shard_next };

    ghost laws = { Prim.search (rules, shard_sends_allowed) };

    fn initial(_me: Member, _n: u8) -> [u64; 256] {
        [0; 256]
    }

    fn step(
        me: Member,
        n: u8,
        state: [u64; 256],
        command: Command,
    ) -> Outcome<[u64; 256], Command> {
        let mut state = state;
        let mut sends = ArrayVec::new();
        if command.key() % n == me.number() {
            let value = &mut state[usize::from(command.key())];
            *value = command.change(*value);
        } else {
            sends.push((me.after(1, n), command));
        }
        Outcome { state, sends }
    }
}

// A member has values only of keys that it owns.
impl Keeping for Shard {
    ghost use Rattle.fbl_law.specs.StepLaws.{AnyNote};
    ghost use Rattle.fbl_behaviours.specs.Shards.{HoldsItsOwn, shard_first, shard_keeps};

    ghost states = { HoldsItsOwn };

    ghost notes = { λ c. AnyNote };

    ghost first = { shard_first };

    ghost keeps = { shard_keeps };
}

// The weight of all values, and of the amounts that commands bring.
impl Weighing for Shard {
    ghost use Rattle.std.specs.Prelude.{sum};
    ghost use Rattle.fbl_behaviours.specs.Commands.{amount_of};

    ghost mass = { λ c me values. sum values };

    ghost weight = { λ c. amount_of };
}

// No step makes values: together they are never more than the commands of the starts bring.
impl MakingNone for Shard {
    ghost use Rattle.fbl_behaviours.specs.Shards.{shard_makes_none};

    ghost makes_none = { shard_makes_none };
}
