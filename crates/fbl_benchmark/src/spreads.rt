//! Deliveries of many messages that spread over a group.

use crate::ring::{LIMIT, group_of};
use crate::spread::Spread;
use crate::times::{TRIES, microseconds_since, print_rate};
use anyhow::Result;
use fbl_group::{DeliverRefusal, Group};
use fbl_trace::{Member, Note};
use std::time::Instant;

/// How many members the group has.
const MEMBERS: u8 = 16;

/// How many starts: each is to the next member, and they go round the group.
const STARTS: u8 = 40;

/// What delivering all messages counted.
#[derive(Clone, Copy)]
struct Spreading {
    delivered: u32,
    carried: u64,
    most_in_flight: usize,
}

/// Times the deliveries with 1, 3 and 15 members that may be lost at once.
pub fn time_spreads(rt: &HostRuntime) -> Result<()> {
    for f in [1, 3, 15] {
        time_spread(rt, f)?;
    }
    Ok(())
}

/// Times the deliveries of all messages.
fn time_spread(rt: &HostRuntime, f: u8) -> Result<()> {
    let (counts, mut least) = try_spread(rt, f)?;
    for _ in 1..TRIES {
        let (_again, taken) = try_spread(rt, f)?;
        least = least.min(taken);
    }
    let name = format!(in rt.alloc(); "spread f {f}")?;
    print_spread(rt, name.as_str(), counts, least)
}

/// Delivers all messages of a new group, and answers what that counted and how many microseconds it took.
fn try_spread(rt: &HostRuntime, f: u8) -> Result<(Spreading, u128)> {
    let note = Note { value: 5, hops: 3 };
    let mut group = group_of::<Spread>(rt.alloc(), (MEMBERS, f), STARTS, note)?;
    let start = Instant::now(rt)?;
    let counts = deliver_all(&mut group)?;
    Ok((counts, microseconds_since(rt, start)?))
}

/// Prints what was counted and the least time.
fn print_spread(rt: &HostRuntime, name: &str, counts: Spreading, least: u128) -> Result<()> {
    println!(rt;
        "{name}: delivered {} carried {} in flight at most {}",
        counts.delivered, counts.carried, counts.most_in_flight
    )?;
    print_rate(rt, name, "deliveries", counts.delivered, least)
}

/// Goes round the members and delivers one message to each, until a round finds nothing in flight.
fn deliver_all(group: &mut Group<Spread>) -> Result<Spreading> {
    let mut counts = Spreading {
        delivered: 0,
        carried: 0,
        most_in_flight: 0,
    };
    for _ in 0..LIMIT {
        if group.messages_in_flight() == 0 {
            break;
        }
        for number in 0..MEMBERS {
            if let Some(carried) = deliver_first(group, Member::at(number))? {
                counts.delivered = counts.delivered.saturating_add(1);
                counts.carried = counts.carried.saturating_add(u64::from(carried));
            }
        }
        counts.most_in_flight = counts.most_in_flight.max(group.messages_in_flight());
    }
    Ok(counts)
}

/// Delivers the front of the channel from the least sender that has a message for the member, and answers how many
/// determinants it carried, or nothing where there is no message.
fn deliver_first(group: &mut Group<Spread>, to: Member) -> Result<Option<u32>> {
    for number in 0..MEMBERS {
        let answer = group.deliver(to, Member::at(number));
        if !matches!(answer, Err(DeliverRefusal::Empty)) {
            return Ok(Some(answer?.carried));
        }
    }
    Ok(None)
}
