//! A drain by two workers until a group is quiet, with which each example ends.

ghost use Rattle.std.specs.Prelude.{◌≡◌, IsTrue, IfOk};
ghost use Rattle.std.specs.FinSet as set;
ghost use Rattle.fbl_group.specs.Readers.{is_quiet};

use anyhow::{Result, ensure};
use fbl_group::Group;
use fbl_threads::{NoGate, drain};
use fbl_trace::{Behaviour, Strike};
use std::alloc::Global;
use std::sync::Wait;
use std::thread::Threads;

/// Lets two workers deliver, and strike and recover members by the plan, until nothing is in flight and nobody is down. Another end
/// of the drain is an error.
pub fn drain_to_quiet<B: Behaviour + Send + Sync, R: Threads + Wait + Sync>(
    rt: &R,
    alloc: Global,
    group: Group<B>,
    plan: &[Strike],
) -> Result<Group<B>>
where
    B::State: Send,
    B::Note: Send,
    ensures config { IfOk result (λ left. left.config ≡ group.config) }
    ensures quiet { IfOk result (λ left. IsTrue (is_quiet left)) }
    ensures nobody { IfOk result (λ left. left.down ≡ set.empty) }
{
    let (group, drained) = drain(rt, alloc, group, plan, 2, 1_000_000, &NoGate);
    drained?;
    ensure!(group.is_quiet(), "messages are left in flight");
    Ok(group)
}
