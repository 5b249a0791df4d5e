//! Drains whose turns are recorded. That the turns lead to the group that comes back is a clause of the call.

use super::fixtures::{STATES_OF_TWELVE, TURNS, has_states, three_strikes, total, twelve_receipts};
use fbl_group::Group;
use fbl_threads::{NoGate, RecordedDrain, drain_recorded};
use fbl_trace::{Relay, Strike};
use std::alloc::Global;
use std::process::Abort;
use std::sync::Wait;
use std::test::Fail;
use std::thread::Threads;

/// Whether there are as many turns as receipts were ever made, by workers that there are.
pub(super) fn are_counted(group: &Group<Relay>, recorded: &RecordedDrain, workers: u8) -> bool {
    let made = recorded.turns.len() as u64;
    made == group.receipts_ever()
        && made == total(recorded.drained.by_worker.as_slice())
        && recorded.turns.iter().all(|turn| turn.worker < workers)
}

/// Whether the drain ended quietly with this many crashes, its turns counted.
fn is_quiet_end(
    group: &Group<Relay>,
    recorded: &RecordedDrain,
    workers: u8,
    crashes: usize,
) -> bool {
    let turns = recorded.turns.iter();
    recorded.drained.quiet
        && has_states(group, &STATES_OF_TWELVE)
        && are_counted(group, recorded, workers)
        && turns.filter(|turn| turn.crash.is_some()).count() == crashes
}

/// Asserts that the turns of a drain of the twelve receipts by this plan are recorded.
fn record<R: Threads + Wait + Sync + Abort>(
    rt: &R,
    alloc: Global,
    plan: &[Strike],
    workers: u8,
) -> Result<(), Fail> {
    let group = twelve_receipts(alloc)?;
    let (group, answer) = drain_recorded(rt, alloc, group, plan, workers, TURNS, &NoGate);
    assert!(rt;
        is_quiet_end(&group, &answer?, workers, plan.len()),
        "{plan:?}, {workers} workers"
    );
    Ok(())
}

#[test]
fn a_turn_is_recorded_for_each_receipt(rt: HostRuntime) -> Result<(), Fail> {
    let plan = three_strikes();
    for workers in 1..=8 {
        record(&rt, rt.alloc(), &[], workers)?;
        record(&rt, rt.alloc(), &plan, workers)?;
    }
    Ok(())
}
