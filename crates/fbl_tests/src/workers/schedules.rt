//! Drains whose end is the same for every schedule.

use super::fixtures::{
    STATES_OF_TWELVE, drain_by, group, has_counts, has_states, total, twelve_receipts,
};
use crate::members::{start, strike};
use fbl_group::Group;
use fbl_threads::{DrainRefusal, Drained, NoGate, drain};
use fbl_trace::{Relay, Strike};
use std::alloc::Global;
use std::process::Abort;
use std::sync::Wait;
use std::test::Fail;
use std::thread::Threads;

/// Whether this is a quiet end of a drain, with the members in these states, and with so many receipts made and undone.
fn is_quiet_end(
    group: &Group<Relay>,
    drained: &Drained,
    states: &[u64],
    made: u64,
    undone: u64,
) -> bool {
    drained.quiet
        && has_states(group, states)
        && total(drained.by_worker.as_slice()) == made
        && total(drained.undone_by_worker.as_slice()) == undone
}

/// Whether a drain of the twelve receipts by this plan ends quietly, with what it undid made up for.
fn is_made_up_for<R: Threads + Wait + Sync>(
    rt: &R,
    alloc: Global,
    plan: &[Strike],
    workers: u8,
) -> Result<bool, Fail> {
    let group = twelve_receipts(alloc)?;
    let (group, answer) = drain_by(rt, alloc, group, plan, workers);
    let drained = answer?;
    let undone = total(drained.undone_by_worker.as_slice());
    let made = undone.saturating_add(12);
    Ok(is_quiet_end(&group, &drained, &STATES_OF_TWELVE, made, undone))
}

/// Asserts that this plan is made up for by any number of workers.
fn make_up_for<R: Threads + Wait + Sync + Abort>(
    rt: &R,
    alloc: Global,
    plan: &[Strike],
) -> Result<(), Fail> {
    for workers in 1..=8 {
        assert!(rt;
            is_made_up_for(rt, alloc, plan, workers)?,
            "{plan:?}, {workers} workers"
        );
    }
    Ok(())
}

#[test]
fn a_strike_at_each_count_is_made_up_for(rt: HostRuntime) -> Result<(), Fail> {
    for at in 1..=12 {
        for number in 0..4 {
            make_up_for(&rt, rt.alloc(), &[strike(at, number)])?;
        }
    }
    Ok(())
}

/// Whether a drain of two messages to member 1, which passes none on, makes and undoes so many receipts by this plan.
fn is_applied<R: Threads + Wait + Sync>(
    rt: &R,
    alloc: Global,
    plan: &[Strike],
    workers: u8,
    made: u64,
    undone: u64,
) -> Result<bool, Fail> {
    let group = group(alloc, 3, 1, 8192, &[start(0, 1, 5, 0), start(0, 1, 6, 0)])?;
    let (group, answer) = drain_by(rt, alloc, group, plan, workers);
    Ok(is_quiet_end(&group, &answer?, &[0, 11, 0], made, undone))
}

// Each strike of the only member that receives undoes all that it received.
#[test]
fn a_plan_is_applied_at_its_count(rt: HostRuntime) -> Result<(), Fail> {
    let plan = [strike(2, 1), strike(3, 1)];
    for workers in [1, 2, 8] {
        for (entries, made, undone) in [(0, 2, 0), (1, 4, 2), (2, 5, 3)] {
            assert!(rt;
                is_applied(&rt, rt.alloc(), &plan[..entries], workers, made, undone)?,
                "{workers} workers, {entries} entries"
            );
        }
    }
    Ok(())
}

/// Whether a drain of a group with no room for its one message ends so.
fn ends_full<R: Threads + Wait + Sync>(rt: &R, alloc: Global, workers: u8) -> Result<bool, Fail> {
    let group = group(alloc, 2, 1, 2, &[start(0, 1, 5, 1)])?;
    let (_, answer) = drain_by(rt, alloc, group, &[], workers);
    let drained = answer?;
    Ok(drained.full && !drained.quiet && !drained.memory)
}

#[test]
fn a_full_group_ends_a_drain(rt: HostRuntime) -> Result<(), Fail> {
    for workers in [1, 2, 8] {
        assert!(rt; ends_full(&rt, rt.alloc(), workers)?, "{workers} workers");
    }
    Ok(())
}

#[test]
fn nine_workers_are_refused(rt: HostRuntime) -> Result<(), Fail> {
    let group = twelve_receipts(rt.alloc())?;
    let (_, answer) = drain_by(&rt, rt.alloc(), group, &[], 9);
    assert!(rt; answer.err() == Some(DrainRefusal::BadWorkers));
    Ok(())
}

/// Whether both workers were started, and ended for no reason but that their turns were used up.
fn is_cut_short(drained: &Drained) -> bool {
    drained.started == 2 && !drained.quiet && !drained.full && !drained.memory
}

/// With one turn each, worker 0 looks for messages to member 0, to whom none is in flight, and worker 1 for those to member 1.
#[test]
fn what_a_worker_does_is_counted_at_its_place(rt: HostRuntime) -> Result<(), Fail> {
    let starts = [start(0, 1, 5, 0), start(0, 1, 6, 0)];
    let group = group(rt.alloc(), 2, 1, 8192, &starts)?;
    let plan = [strike(1, 1)];
    let (group, answer) = drain(&rt, rt.alloc(), group, &plan, 2, 1, &NoGate);
    let drained = answer?;
    assert!(rt; has_counts(&drained, &[0, 1], &[0, 1]) && is_cut_short(&drained));
    assert!(rt; group.messages_in_flight() == 2 && group.receipts_ever() == 1);
    Ok(())
}
