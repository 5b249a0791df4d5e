//! Drains by one and by several workers, and such as hand out their turns.

use crate::circulate::Circulate;
use crate::load::beside_load;
use crate::long_circulate::LongCirculate;
use crate::ring::{LIMIT, NOTE, group_of};
use crate::times::{TRIES, microseconds_since, print_rate};
use anyhow::Result;
use fbl_group::Group;
use fbl_threads::{DrainRefusal, NoGate, drain, drain_recorded};
use fbl_trace::{Behaviour, Note};
use std::alloc::Global;
use std::sync::Wait;
use std::thread::Threads;
use std::time::Instant;

/// How many members the drained group has.
const MEMBERS: u8 = 16;

/// How many of them may be lost at once.
const LOST: u8 = 1;

/// How many turns a worker has: more than it needs.
const TURNS: u32 = 1_000_000;

/// Times the drain of equal groups by 1, 2, 4 and 8 workers in threads, by a step that takes no time and by one that does;
/// of groups with one message by 1 and 8; of the first ones where the turns are handed out; and of the first ones beside a load.
pub fn time_workers<T: Threads + Wait + Sync>(rt: &HostRuntime, threads: &T) -> Result<()> {
    time_drains::<Circulate, T>(rt, threads, SHORT_STEP, &[1, 2, 4, 8])?;
    time_drains::<LongCirculate, T>(rt, threads, LONG_STEP, &[1, 2, 4, 8])?;
    time_drains::<Circulate, T>(rt, threads, SPARSE, &[1, 8])?;
    time_drains::<Circulate, T>(rt, threads, RECORDED, &[1, 2, 4, 8])?;
    beside_load(threads, || time_loaded_drains(rt, threads))
}

/// Times the drains that are timed beside a load.
fn time_loaded_drains<T: Threads + Wait + Sync>(rt: &HostRuntime, threads: &T) -> Result<()> {
    time_drains::<Circulate, T>(rt, threads, LOADED_SHORT_STEP, &[1, 8])?;
    time_drains::<LongCirculate, T>(rt, threads, LOADED_LONG_STEP, &[1, 8])
}

/// Which drain is timed.
#[derive(Clone, Copy)]
struct Case {
    name: &'static str,
    /// How many messages are in flight at first.
    messages: u8,
    /// Whether the turns are handed out.
    is_recorded: bool,
}

const SHORT_STEP: Case = Case {
    name: "short step",
    messages: MEMBERS,
    is_recorded: false,
};

const LONG_STEP: Case = Case {
    name: "long step",
    messages: MEMBERS,
    is_recorded: false,
};

const SPARSE: Case = Case {
    name: "sparse drain",
    messages: 1,
    is_recorded: false,
};

const RECORDED: Case = Case {
    name: "recorded short step",
    messages: MEMBERS,
    is_recorded: true,
};

const LOADED_SHORT_STEP: Case = Case {
    name: "loaded drain short step",
    messages: MEMBERS,
    is_recorded: false,
};

const LOADED_LONG_STEP: Case = Case {
    name: "loaded drain long step",
    messages: MEMBERS,
    is_recorded: false,
};

/// What a drain did, which ends when the trace is full: each delivery makes two events.
#[derive(Clone, Copy)]
struct Drain {
    receipts: u32,
    full: bool,
}

/// Times the drains of a case by each number of workers.
fn time_drains<B: Behaviour<State = u64, Note = Note> + Send + Sync, T: Threads + Wait + Sync>(
    rt: &HostRuntime,
    threads: &T,
    case: Case,
    numbers: &[u8],
) -> Result<()> {
    for workers in numbers {
        time_drain::<B, T>(rt, threads, case, *workers)?;
    }
    Ok(())
}

/// Times the drain by so many workers.
fn time_drain<B: Behaviour<State = u64, Note = Note> + Send + Sync, T: Threads + Wait + Sync>(
    rt: &HostRuntime,
    threads: &T,
    case: Case,
    workers: u8,
) -> Result<()> {
    let (mut least, drained) = try_drain::<B, T>(rt, threads, case, workers)?;
    for _ in 1..TRIES {
        let (taken, _again) = try_drain::<B, T>(rt, threads, case, workers)?;
        least = least.min(taken);
    }
    let name = case.name;
    let name = format!(in rt.alloc(); "{name} workers {workers}")?;
    println!(rt;
        "{name}: delivered {} full {}",
        drained.receipts, drained.full
    )?;
    print_rate(rt, &name, "deliveries", drained.receipts, least)
}

/// Drains the group of a case, and answers how many microseconds it took and what was done.
fn try_drain<B: Behaviour<State = u64, Note = Note> + Send + Sync, T: Threads + Wait + Sync>(
    rt: &HostRuntime,
    threads: &T,
    case: Case,
    workers: u8,
) -> Result<(u128, Drain)> {
    let group = group_of::<B>(rt.alloc(), (MEMBERS, LOST), case.messages, NOTE)?;
    let start = Instant::now(rt)?;
    let (group, full) = drain_once(threads, rt.alloc(), group, workers, case.is_recorded);
    let taken = microseconds_since(rt, start);
    let receipts = group.receipts_ever().min(u64::from(LIMIT)) as u32;
    drop(group);
    Ok((
        taken?,
        Drain {
            receipts,
            full: full?,
        },
    ))
}

/// Drains the group, with its turns handed out or not, and answers whether the trace is full.
fn drain_once<B: Behaviour<State = u64, Note = Note> + Send + Sync, T: Threads + Wait + Sync>(
    threads: &T,
    alloc: Global,
    group: Group<B>,
    workers: u8,
    is_recorded: bool,
) -> (Group<B>, Result<bool, DrainRefusal>) {
    if is_recorded {
        let (group, answer) = drain_recorded(threads, alloc, group, &[], workers, TURNS, &NoGate);
        (group, answer.map(|recorded| recorded.drained.full))
    } else {
        let (group, answer) = drain(threads, alloc, group, &[], workers, TURNS, &NoGate);
        (group, answer.map(|drained| drained.full))
    }
}
