//! Groups with messages that go round, and deliveries of one that does.

use anyhow::Result;
use fbl_group::{DeliverRefusal, Group};
use fbl_trace::{Behaviour, Config, MOST_EVENTS, Member, Note, Start};
use std::alloc::{AllocError, Global};

/// How many events a trace may have here.
pub const LIMIT: u32 = MOST_EVENTS;

/// What the message holds where nothing else is wanted.
pub const NOTE: Note = Note { value: 1, hops: 1 };

/// A group in which so many messages are in flight: the members in turn, round the group, have sent one to the next.
pub fn group_of<B: Behaviour>(
    alloc: Global,
    (members, f): (u8, u8),
    messages: u8,
    note: B::Note,
) -> Result<Group<B>> {
    let mut starts = Vec::new(alloc);
    let mut from = Member::default();
    for _ in 0..messages {
        let to = next_member(from, members);
        let start = Start { from, to, note };
        starts.push(start).ok().ok_or(AllocError)?;
        from = to;
    }
    let config = Config::new(alloc, members, f, LIMIT, &starts)?;
    Ok(Group::new(alloc, config)?)
}

/// Delivers the message, wherever it is, so many times, and counts the determinants that were carried.
pub fn deliver_many<B: Behaviour>(group: &mut Group<B>, members: u8, count: u32) -> Result<u64> {
    let mut carried: u64 = 0;
    let mut from = Member::default();
    for _ in 0..count {
        let (to, carried_here) = deliver_next(group, members, from)?;
        carried = carried.saturating_add(u64::from(carried_here));
        from = to;
    }
    Ok(carried)
}

/// Delivers the message on the first channel that has it, beginning with this sender's, and answers its receiver and how many
/// determinants it carried.
fn deliver_next<B: Behaviour>(
    group: &mut Group<B>,
    members: u8,
    first: Member,
) -> Result<(Member, u32)> {
    let mut from = first;
    for _ in 1..members {
        let to = next_member(from, members);
        let answer = group.deliver(to, from);
        if !matches!(answer, Err(DeliverRefusal::Empty)) {
            return Ok((to, answer?.carried));
        }
        from = to;
    }
    let to = next_member(from, members);
    Ok((to, group.deliver(to, from)?.carried))
}

/// The member after this one, round the group.
pub fn next_member(member: Member, members: u8) -> Member {
    let next = member.number() + 1;
    if next < members {
        Member::new(next).unwrap_or_default()
    } else {
        Member::default()
    }
}
