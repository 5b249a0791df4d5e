//! The records of turns, where they are kept.

ghost use Rattle.std.specs.Prelude.{◌≡◌, [], OnOk, Some, None, if◌then◌else◌};
ghost use Rattle.fbl_turns.specs.Recorders.{recorded, with_record, HasRoom};

use fbl_group::TurnRecord;
use fbl_trace::{Content, Exact};
use std::alloc::{AllocError, Global};

/// The records of the turns so far, in order, if they are kept.
pub type Records<S, N> = Option<Vec<TurnRecord<S, N>>>;

/// The records of no turn yet, if they are to be kept.
pub fn no_records<S: Exact, N: Content>(alloc: Global, keeps: bool) -> Records<S, N>
    ensures { recorded result ≡ (if keeps then Some [] else None) }
{
    if keeps { Some(Vec::new(alloc)) } else { None }
}

pub(crate) fn reserve<S: Exact, N: Content>(records: &mut Records<S, N>) -> Result<(), AllocError>
    ensures same { recorded records.new ≡ recorded records.old }
    ensures room { OnOk result (HasRoom records.new) }
{
    match records {
        Some(turns) => turns.reserve(1),
        None => Ok(()),
    }
}

pub(crate) fn keep<S: Exact, N: Content>(records: &mut Records<S, N>, turn: TurnRecord<S, N>)
    requires { HasRoom records.old }
    ensures { recorded records.new ≡ with_record turn (recorded records.old) }
{
    if let Some(turns) = records {
        turns.push_reserved(turn);
    }
}
