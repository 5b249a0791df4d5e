//! Recoveries of one member, from its checkpoint and from its start.

use crate::circulate::Circulate;
use crate::long_circulate::LongCirculate;
use crate::ring::{NOTE, deliver_many, group_of, next_member};
use crate::times::{TRIES, microseconds_since, print_rate};
use anyhow::Result;
use fbl_group::{Group, Recovered};
use fbl_trace::{Behaviour, Member, MemberSet, Note};
use std::time::Instant;

/// How many members the group has.
const MEMBERS: u8 = 3;

/// How many of them may be lost at once.
const LOST: u8 = 1;

/// After how many receipts of the group each member is checkpointed, where it is.
const BEFORE: u32 = 3900;

/// How many receipts the group makes then.
const SINCE: u32 = 100;

/// Times recoveries with and without checkpoints, by a step that takes no time and by one that does.
pub fn time_recoveries(rt: &HostRuntime) -> Result<()> {
    time_recovery::<Circulate>(rt, "short step without checkpoint", false)?;
    time_recovery::<Circulate>(rt, "short step with checkpoint", true)?;
    time_recovery::<LongCirculate>(rt, "long step without checkpoint", false)?;
    time_recovery::<LongCirculate>(rt, "long step with checkpoint", true)
}

/// Times the recovery of the member that has received last.
fn time_recovery<B: Behaviour<State = u64, Note = Note>>(
    rt: &HostRuntime,
    name: &str,
    checkpointed: bool,
) -> Result<()> {
    let mut group = group_of::<B>(rt.alloc(), (MEMBERS, LOST), 1, NOTE)?;
    deliver_and_checkpoint(&mut group, checkpointed)?;
    let (recovered, least) = try_recoveries(rt, &mut group)?;
    println!(rt;
        "{name}: replayed {} undone {}",
        recovered.replayed, recovered.undone
    )?;
    print_rate(rt, name, "recoveries", 1, least)
}

/// Makes the group's receipts, with a checkpoint of each member before the last ones, or with none.
fn deliver_and_checkpoint<B: Behaviour<State = u64, Note = Note>>(
    group: &mut Group<B>,
    checkpointed: bool,
) -> Result<()> {
    deliver_many(group, MEMBERS, BEFORE)?;
    if checkpointed {
        checkpoint_each(group)?;
    }
    deliver_many(group, MEMBERS, SINCE)?;
    Ok(())
}

/// Strikes and recovers the member that has received last several times, and answers what its first recovery did and the least
/// time that one took.
fn try_recoveries<B: Behaviour<State = u64, Note = Note>>(
    rt: &HostRuntime,
    group: &mut Group<B>,
) -> Result<(Recovered, u128)> {
    let member = next_member(Member::default(), MEMBERS);
    let (recovered, mut least) = crash(rt, group, member)?;
    for _ in 1..TRIES {
        let (_again, taken) = crash(rt, group, member)?;
        least = least.min(taken);
    }
    Ok((recovered, least))
}

/// Takes a checkpoint of each member.
fn checkpoint_each<B: Behaviour<State = u64, Note = Note>>(group: &mut Group<B>) -> Result<()> {
    for number in 0..MEMBERS {
        checkpoint(group, Member::at(number))?;
    }
    Ok(())
}

/// Takes a checkpoint of the member.
fn checkpoint<B: Behaviour<State = u64, Note = Note>>(
    group: &mut Group<B>,
    member: Member,
) -> Result<()> {
    Ok(group.checkpoint(member)?)
}

/// Strikes the member, recovers it, and answers what the recovery did and how many microseconds it took.
fn crash<B: Behaviour<State = u64, Note = Note>>(
    rt: &HostRuntime,
    group: &mut Group<B>,
    member: Member,
) -> Result<(Recovered, u128)> {
    group.strike(MemberSet::empty().with(member))?;
    let start = Instant::now(rt)?;
    let recovered = group.recover()?;
    Ok((recovered, microseconds_since(rt, start)?))
}
