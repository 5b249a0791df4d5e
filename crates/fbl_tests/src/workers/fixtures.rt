//! Groups, and drains of them.

use crate::members::{start, strike};
use fbl_group::Group;
use fbl_threads::{DrainRefusal, Drained, NoGate, drain};
use fbl_trace::{Config, ConfigRefusal, Member, MemberSet, Relay, Start, Strike};
use std::alloc::Global;
use std::sync::Wait;
use std::thread::Threads;

/// More turns than a worker of these tests ever needs.
pub(crate) const TURNS: u32 = 1_000_000;

/// A group of members that pass each message on.
pub(crate) fn group(
    alloc: Global,
    members: u8,
    f: u8,
    limit: u32,
    starts: &[Start],
) -> Result<Group<Relay>, ConfigRefusal> {
    let config = Config::new(alloc, members, f, limit, starts)?;
    Group::new(alloc, config).map_err(|_| ConfigRefusal::Memory)
}

/// The starts of a group of four, in which two may be lost, with twelve receipts in all.
pub(crate) fn starts_of_twelve() -> [Start; 3] {
    [start(0, 1, 5, 6), start(2, 3, 7, 3), start(3, 0, 11, 0)]
}

/// That group.
pub(crate) fn twelve_receipts(alloc: Global) -> Result<Group<Relay>, ConfigRefusal> {
    group(alloc, 4, 2, 8192, &starts_of_twelve())
}

/// A plan of three strikes for that group, one of them of two members.
pub(crate) fn three_strikes() -> [Strike; 3] {
    let set = MemberSet::empty().with(Member::at(0)).with(Member::at(3));
    [strike(2, 1), Strike { at: 5, set }, strike(9, 2)]
}

/// The states of that group's members once all messages are delivered, in whichever order.
pub(crate) const STATES_OF_TWELVE: [u64; 4] = [23, 17, 17, 17];

/// Whether these are the states of the members in turn.
pub(crate) fn has_states(group: &Group<Relay>, expected: &[u64]) -> bool {
    if expected.len() != usize::from(group.config().members()) {
        return false;
    }
    for number in 0..group.config().members() {
        let member = Member::at(number);
        if group.state(member) != expected[usize::from(number)] {
            return false;
        }
    }
    true
}

/// Drains the group by this plan and this many workers, with no gate and with turns enough.
pub(crate) fn drain_by<R: Threads + Wait + Sync>(
    rt: &R,
    alloc: Global,
    group: Group<Relay>,
    plan: &[Strike],
    workers: u8,
) -> (Group<Relay>, Result<Drained, DrainRefusal>) {
    drain(rt, alloc, group, plan, workers, TURNS, &NoGate)
}

/// Whether these are the workers' receipts, and the receipts that they undid, worker by worker.
pub(crate) fn has_counts(drained: &Drained, made: &[u64], undone: &[u64]) -> bool {
    drained.by_worker.as_slice() == made && drained.undone_by_worker.as_slice() == undone
}

/// The sum of what the workers did.
pub(crate) fn total(by_worker: &[u64]) -> u64 {
    let mut total = 0u64;
    for count in by_worker {
        total = total.saturating_add(*count);
    }
    total
}
