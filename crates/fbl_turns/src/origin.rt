//! Where a drain begins, under which plan, and which workers it has.

use std::marker::Brand;
use std::sync::ledger::Ledger;

/// How many workers a drain has, how many turns each may take, and which claims their passes are of. Each call picks them. The
/// ledger counts the drain's receipts, and has a part for each worker.
pub trait Workers: Ledger {
    ghost use Rattle.std.specs.Prelude.{ℕ};
    ghost use Rattle.atomic_table.specs.Seated.{TableId};

    ghost workers: { ℕ };

    ghost turns: { ℕ };

    ghost claims: { TableId };
}

impl Workers for Brand {
    ghost use Rattle.fbl_turns.specs.Origins.{no_claims};

    ghost workers = { 0 };

    ghost turns = { 0 };

    ghost claims = { no_claims };
}

/// The record that a drain begins with, by a state for what has no member, its plan, and whether its turns are recorded. Each call
/// picks them.
pub trait Origin<S, N>: Workers {
    ghost use Rattle.std.specs.Prelude.{Bool, List};
    ghost use Rattle.fbl_trace.specs.declared.strike.Strike.{Strike};
    ghost use Rattle.fbl_law.specs.Groups.{GroupRecord};

    ghost start: { S → GroupRecord S N };

    ghost plan: { List Strike };

    ghost records: { Bool };
}

impl<S, N> Origin<S, N> for Brand {
    ghost use Rattle.std.specs.Prelude.{[], false};
    ghost use Rattle.fbl_turns.specs.Origins.{nowhere};

    ghost start = { nowhere };

    ghost plan = { [] };

    ghost records = { false };
}
