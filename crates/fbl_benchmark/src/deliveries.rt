//! Deliveries of one message that goes round a group, and crashes after them.

use crate::circulate::Circulate;
use crate::ring::{NOTE, deliver_many, group_of, next_member};
use crate::times::{TRIES, microseconds_since, print_rate};
use anyhow::Result;
use fbl_group::Group;
use fbl_trace::{Member, MemberSet};
use std::time::Instant;

/// The sizes of the groups, each with how many members may be lost at once.
const GROUPS: &[(u8, u8)] = &[(2, 1), (3, 1), (3, 2), (16, 15)];

/// How many deliveries are timed once each member was recovered.
const AFTERWARDS: u32 = 80;

/// What the crashes of each member in turn counted together.
#[derive(Clone, Copy)]
struct Crashes {
    lost: u64,
    replayed: u64,
    resent: u64,
    undone: u64,
}

/// What one try of a group counted, and its times in microseconds.
#[derive(Clone, Copy)]
struct Tried {
    carried: u64,
    crashes: Crashes,
    carried_more: u64,
    delivering: u128,
    crashing: u128,
    delivering_more: u128,
}

/// Times each group with fewer and with more deliveries, to compare what a delivery takes.
pub fn time_groups(rt: &HostRuntime) -> Result<()> {
    for &(members, f) in GROUPS {
        time_group(rt, members, f, 1000)?;
        time_group(rt, members, f, 4000)?;
    }
    Ok(())
}

/// Times so many deliveries, then the crash of each member in turn, and then a few deliveries more. A recovered member
/// knows that everybody holds what it holds: the last deliveries meet long tables in which hardly an entry is
/// still to be passed on.
fn time_group(rt: &HostRuntime, members: u8, f: u8, count: u32) -> Result<()> {
    let mut tried = try_group(rt, members, f, count)?;
    for _ in 1..TRIES {
        tried = with_least_times(tried, try_group(rt, members, f, count)?);
    }
    print_group(rt, members, f, count, tried)
}

/// Does it once.
fn try_group(rt: &HostRuntime, members: u8, f: u8, count: u32) -> Result<Tried> {
    let mut group = group_of::<Circulate>(rt.alloc(), (members, f), 1, NOTE)?;
    try_on(rt, &mut group, members, count)
}

/// Does it once on this group.
fn try_on(
    rt: &HostRuntime,
    group: &mut Group<Circulate>,
    members: u8,
    count: u32,
) -> Result<Tried> {
    let start = Instant::now(rt)?;
    let carried = deliver_many(group, members, count)?;
    let delivering = microseconds_since(rt, start)?;
    let start = Instant::now(rt)?;
    let crashes = crash_each(group, members)?;
    let crashing = microseconds_since(rt, start)?;
    let start = Instant::now(rt)?;
    let carried_more = deliver_many(group, members, AFTERWARDS)?;
    let delivering_more = microseconds_since(rt, start)?;
    Ok(Tried {
        carried,
        crashes,
        carried_more,
        delivering,
        crashing,
        delivering_more,
    })
}

/// The counts of the second, with the least times of both.
fn with_least_times(first: Tried, second: Tried) -> Tried {
    Tried {
        delivering: first.delivering.min(second.delivering),
        crashing: first.crashing.min(second.crashing),
        delivering_more: first.delivering_more.min(second.delivering_more),
        ..second
    }
}

/// Prints what was counted and the times.
fn print_group(rt: &HostRuntime, members: u8, f: u8, count: u32, tried: Tried) -> Result<()> {
    let name = format!(in rt.alloc(); "members {members} f {f} after {count}")?;
    print_tried(rt, name.as_str(), members, count, tried)
}

/// Prints it under this name.
fn print_tried(rt: &HostRuntime, name: &str, members: u8, count: u32, tried: Tried) -> Result<()> {
    let crashes = tried.crashes;
    println!(rt; "{name}: delivered {count} carried {}", tried.carried)?;
    println!(rt;
        "{name}: lost {} replayed {} resent {} undone {}",
        crashes.lost, crashes.replayed, crashes.resent, crashes.undone
    )?;
    println!(rt;
        "{name}: delivered {AFTERWARDS} more carried {}",
        tried.carried_more
    )?;
    let struck = u32::from(members);
    let more = tried.delivering_more;
    print_rate(rt, name, "deliveries", count, tried.delivering)?;
    print_rate(rt, name, "strikes with recoveries", struck, tried.crashing)?;
    print_rate(rt, name, "deliveries more", AFTERWARDS, more)
}

/// Strikes and recovers each member in turn, and counts what that did.
fn crash_each(group: &mut Group<Circulate>, members: u8) -> Result<Crashes> {
    let mut crashes = Crashes {
        lost: 0,
        replayed: 0,
        resent: 0,
        undone: 0,
    };
    let mut member = Member::default();
    for _ in 0..members {
        let struck = group.strike(MemberSet::empty().with(member))?;
        let recovered = group.recover()?;
        crashes.lost = crashes.lost.saturating_add(u64::from(struck.lost));
        crashes.replayed = crashes
            .replayed
            .saturating_add(u64::from(recovered.replayed));
        crashes.resent = crashes.resent.saturating_add(u64::from(recovered.resent));
        crashes.undone = crashes.undone.saturating_add(u64::from(recovered.undone));
        member = next_member(member, members);
    }
    Ok(crashes)
}
