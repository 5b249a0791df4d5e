//! Lack of memory in a drain.

use super::fixtures::{
    STATES_OF_TWELVE, TURNS, drain_by, has_states, three_strikes, twelve_receipts,
};
use super::recording::are_counted;
use fbl_group::Group;
use fbl_threads::{DrainRefusal, Drained, NoGate, drain_recorded};
use fbl_trace::Relay;
use std::test::Fail;

/// Recovers the members that are down, and answers whether nobody is down now.
fn is_up(group: &mut Group<Relay>) -> bool {
    group.down().count() == 0 || group.recover().is_ok()
}

/// Whether a drain that memory may be refused to may be answered so: by a refused one the group is as before, which is proved.
fn is_fair(answer: &Result<Drained, DrainRefusal>, may_be_down: bool) -> bool {
    match answer {
        Ok(drained) => (drained.quiet || drained.memory) && !drained.full,
        Err(DrainRefusal::Memory | DrainRefusal::NoThread) => true,
        Err(refusal) => *refusal == DrainRefusal::Down && may_be_down,
    }
}

/// It holds too where any one request for memory is refused: then the group is drained in spite of it, or the answer says
/// that memory ran out, and what is left is drained afterwards as if nothing had been refused. The gate refuses each in
/// turn.
#[test]
fn a_drain_goes_on_after_want_of_memory(rt: HostRuntime) -> Result<(), Fail> {
    let strikes = three_strikes();
    let Ok(mut group) = twelve_receipts(rt.alloc()) else {
        return Ok(());
    };
    for number in 0..3 {
        let may_be_down = number == 1;
        assert!(rt; is_up(&mut group) || may_be_down, "drain {number}");
        let plan = if number == 0 { &strikes[..] } else { &[] };
        let (back, answer) = drain_by(&rt, rt.alloc(), group, plan, 2);
        group = back;
        assert!(rt; is_fair(&answer, may_be_down), "drain {number}");
    }
    assert!(rt; group.is_quiet() && has_states(&group, &STATES_OF_TWELVE));
    Ok(())
}

/// It holds too where any one request for memory is refused, one of which leaves the only worker without a thread, which is told.
/// The gate refuses each in turn.
#[test]
fn a_worker_without_a_thread_changes_nothing(rt: HostRuntime) -> Result<(), Fail> {
    let Ok(group) = twelve_receipts(rt.alloc()) else {
        return Ok(());
    };
    let (_, answer) = drain_by(&rt, rt.alloc(), group, &[], 1);
    assert!(rt; is_fair(&answer, false));
    if let Err(refusal) = answer {
        println!(rt; "{refusal}")?;
    }
    Ok(())
}

/// It holds too where any one request for memory is refused: then each receipt that was made has its turn, and no other, and the
/// answer says that memory ran out. The gate refuses each in turn.
#[test]
fn turns_are_recorded_where_memory_runs_out(rt: HostRuntime) -> Result<(), Fail> {
    let plan = three_strikes();
    let Ok(group) = twelve_receipts(rt.alloc()) else {
        return Ok(());
    };
    let (group, answer) = drain_recorded(&rt, rt.alloc(), group, &plan, 2, TURNS, &NoGate);
    if let Ok(recorded) = answer {
        assert!(rt; recorded.drained.quiet || recorded.drained.memory);
        assert!(rt; are_counted(&group, &recorded, 2));
    }
    Ok(())
}
