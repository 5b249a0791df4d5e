//! A group under a lock, each call of it in a hold of its own, and a drain of it afterwards.

use super::fixtures::{TURNS, group};
use crate::members::start;
use fbl_group::{Group, Recovered};
use fbl_threads::{NoGate, SharedGroup, drain};
use fbl_trace::{Member, MemberSet, Relay};
use std::test::Fail;

/// Whether nobody of three is down, and member 1 has a checkpoint of one receipt.
fn keeps_its_checkpoint(group: &Group<Relay>) -> bool {
    group.config().members() == 3
        && group.down() == MemberSet::empty()
        && group.checkpoint_received(Member::at(1)) == 1
}

// The member begins at its checkpoint, and workers leave the checkpoint as it is.
#[test]
fn a_crash_recovers_from_a_checkpoint_that_a_drain_keeps(rt: HostRuntime) -> Result<(), Fail> {
    let (zero, one) = (Member::at(0), Member::at(1));
    let shared = SharedGroup::new(group(rt.alloc(), 3, 1, 8192, &[start(0, 1, 5, 2)])?);
    shared.lock(&rt).deliver(one, zero)?;
    shared.lock(&rt).checkpoint(one)?;
    let (struck, recovered) = shared.lock(&rt).crash(MemberSet::empty().with(one))?;
    let from_checkpoint = Recovered {
        replayed: 0,
        resent: 1,
        undone: 0,
    };
    assert!(rt; struck.lost == 0 && recovered == from_checkpoint);
    let (group, answer) = drain(&rt, rt.alloc(), shared.into_inner(), &[], 2, TURNS, &NoGate);
    assert!(rt; answer?.quiet && keeps_its_checkpoint(&group));
    Ok(())
}
