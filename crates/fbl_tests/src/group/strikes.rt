//! A strike of each member at each number of receipts, in a group that no workers share.

use super::setting::Setting;
use crate::members::{member, set};
use fbl_base::audit::orphans;
use fbl_group::{DeliverRefusal, Group};
use fbl_trace::{Behaviour, Event, Member, MemberSet, Mix, Note, Relay};
use std::alloc::Global;
use std::process::Abort;
use std::test::Fail;

/// How many receipts the group makes, of relays and of mixes.
const RECEIPTS: u32 = 12;

/// Two of four may be lost.
const TWELVE: Setting = Setting {
    members: 4,
    f: 2,
    limit: 8192,
    starts: &[(0, 1, 5, 6), (2, 3, 7, 3), (3, 0, 11, 0)],
};

/// What a state is multiplied by, and what is added with a message's value, to give the next.
type Formula = (u64, u64);

/// Delivers to the least member that has a message, from the least sender of one, and answers whether some member has one.
fn deliver_least<B: Behaviour<State = u64, Note = Note>>(
    group: &mut Group<B>,
) -> Result<bool, Fail> {
    for to in 0..TWELVE.members {
        for from in 0..TWELVE.members {
            match group.deliver(member(to)?, member(from)?) {
                Ok(_) => return Ok(true),
                Err(DeliverRefusal::Empty) => (),
                Err(refusal) => return Err(Fail::from(refusal)),
            }
        }
    }
    Ok(false)
}

/// The value of the sender's message with this number.
fn value_of(trace: &[Event], sender: Member, number: u32) -> Option<u64> {
    for event in trace {
        if let Event::Send {
            from,
            ssn,
            note,
            ..
        } = event
        {
            if (*from, *ssn) == (sender, number) {
                return Some(u64::from(note.value));
            }
        }
    }
    None
}

/// The state that the member's receipts in the trace give, from the state 0 on.
fn folded(trace: &[Event], member: Member, (factor, summand): Formula) -> Option<u64> {
    let mut state = 0u64;
    for event in trace {
        if let Event::Receipt { to, from, ssn, .. } = event {
            if *to == member {
                let added = value_of(trace, *from, *ssn)?.wrapping_add(summand);
                state = state.wrapping_mul(factor).wrapping_add(added) % 1_000_000_007;
            }
        }
    }
    Some(state)
}

/// Whether each member is in the state that its receipts give.
fn are_folded<B: Behaviour<State = u64, Note = Note>>(group: &Group<B>, formula: Formula) -> bool {
    for number in 0..group.config().members() {
        let member = Member::at(number);
        if folded(group.trace(), member, formula) != Some(group.state(member)) {
            return false;
        }
    }
    true
}

/// Whether the member's loss behind so many receipts leaves no orphan, and a recovery each member in the state that its receipts give.
fn is_made_up_for<B: Behaviour<State = u64, Note = Note>>(
    alloc: Global,
    receipts: u32,
    number: u8,
    formula: Formula,
) -> Result<bool, Fail> {
    let mut group: Group<B> = TWELVE.group(alloc)?;
    for _ in 0..receipts {
        if !deliver_least(&mut group)? {
            return Ok(false);
        }
    }
    let is_last = group.is_quiet() == (receipts == RECEIPTS);
    let struck = set(&[number])?;
    let left = orphans(alloc, &group.dump(struck)?)?;
    group.strike(struck)?;
    group.recover()?;
    Ok(is_last && left == MemberSet::empty() && are_folded(&group, formula))
}

/// Asserts that the loss of each member at each number of receipts is made up for.
fn make_up_for<B: Behaviour<State = u64, Note = Note>>(
    rt: &(impl Abort + AllocGlobal),
    formula: Formula,
) -> Result<(), Fail> {
    for receipts in 1..=RECEIPTS {
        for number in 0..TWELVE.members {
            assert!(rt;
                is_made_up_for::<B>(rt.alloc(), receipts, number, formula)?,
                "member {number} at {receipts}"
            );
        }
    }
    Ok(())
}

#[test]
fn a_strike_at_each_receipt_is_made_up_for(rt: HostRuntime) -> Result<(), Fail> {
    make_up_for::<Relay>(&rt, (1, 0))?;
    make_up_for::<Mix>(&rt, (31, 1))
}
