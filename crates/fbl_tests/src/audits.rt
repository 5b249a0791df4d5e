//! Audits of dumps.

use crate::members::{first_receipt, set};
use crate::texts::{LOST, dump};
use fbl_base::audit::{Dump, check_dump, lost, orphans};
use fbl_base::{DumpRefusal, RawDump};
use fbl_trace::{Determinant, Mark, Member, MemberSet};
use std::alloc::{AllocError, Global};
use std::test::Fail;

/// Whether an audit of the dump finds this receipt lost and no other, or none, and these orphans. `Err` is to come only where
/// memory is refused.
fn is_answered(
    alloc: Global,
    dump: &Dump,
    expected: Option<Determinant>,
    left: MemberSet,
) -> Result<bool, AllocError> {
    let lost = lost(alloc, dump)?;
    let is_lost = lost.len() == usize::from(expected.is_some()) && lost.get(0).copied() == expected;
    Ok(is_lost && orphans(alloc, dump)? == left)
}

/// The message went once round, and member 2 holds its first receipt or does not, with members struck: whether that receipt is lost then,
/// and the orphans.
const AUDITED: &[(&str, bool, &[u8])] = &[
    (
        r#"{"events":[["send",0,1,1],["receipt",1,1,0,1],["send",1,1,2],["receipt",2,1,1,1],["send",2,1,0],["receipt",0,1,2,1]],"f":1,"held":[[0,1,1,2,1],[0,2,1,0,1],[1,0,1,1,1],[2,1,1,2,1],[2,0,1,1,1]],"members":3,"strike":[1]}"#,
        false,
        &[],
    ),
    (LOST, true, &[0, 2]),
    (
        r#"{"events":[["send",0,1,1],["receipt",1,1,0,1],["send",1,1,2],["receipt",2,1,1,1],["send",2,1,0],["receipt",0,1,2,1]],"f":1,"held":[[0,1,1,2,1],[0,2,1,0,1],[1,0,1,1,1],[2,1,1,2,1],[2,0,1,1,1]],"members":3,"strike":[1,2]}"#,
        true,
        &[0],
    ),
];

/// Whether the dump of the text is audited so.
fn is_audited(
    alloc: Global,
    text: &str,
    is_lost: bool,
    left: MemberSet,
) -> Result<bool, AllocError> {
    let raw = dump(alloc, text)?;
    let dump = check_dump(alloc, raw).ok().ok_or(AllocError)?;
    let first = first_receipt(Member::at(0), Member::at(1));
    let expected = if is_lost { Some(first) } else { None };
    is_answered(alloc, &dump, expected, left)
}

#[test]
fn audits(rt: HostRuntime) -> Result<(), Fail> {
    for &(text, is_lost, left) in AUDITED {
        let is_well = is_audited(rt.alloc(), text, is_lost, set(left)?).unwrap_or(false);
        assert!(rt; is_well, "{text}");
    }
    Ok(())
}

/// It holds where any one request for memory is refused, too. The gate refuses each in turn.
#[test]
fn without_memory(rt: HostRuntime) -> Result<(), Fail> {
    for &(text, is_lost, left) in AUDITED {
        let is_well = is_audited(rt.alloc(), text, is_lost, set(left)?).unwrap_or(true);
        assert!(rt; is_well, "{text}");
    }
    Ok(())
}

/// A message and its receipt, whose determinant the sender holds, by so many equal pairs.
fn held_by_pairs(alloc: Global, pairs: usize) -> Result<RawDump, AllocError> {
    let (from, to) = (Member::at(0), Member::at(1));
    let (ssn, rsn) = (1, 1);
    let mut events = Vec::new(alloc);
    events.push(Mark::Send { from, ssn, to })?;
    events.push(Mark::Receipt { to, rsn, from, ssn })?;
    let mut held = Vec::new(alloc);
    held.resize(pairs, (from, first_receipt(from, to)))?;
    Ok(RawDump {
        members: 2,
        f: 1,
        events,
        held,
        strike: MemberSet::empty(),
    })
}

// No text within an input's length has so many pairs.
#[test]
fn a_dump_has_a_most_number_of_pairs(rt: HostRuntime) -> Result<(), Fail> {
    let most = check_dump(rt.alloc(), held_by_pairs(rt.alloc(), 131_072)?);
    assert!(rt; most.is_ok());
    let more = check_dump(rt.alloc(), held_by_pairs(rt.alloc(), 131_073)?);
    assert!(rt; more.err() == Some(DumpRefusal::BadHeld(131_072)));
    Ok(())
}
