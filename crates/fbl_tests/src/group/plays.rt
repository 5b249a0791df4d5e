//! Plays of worked examples, and what the readers answer.

use super::setting::Setting;
use super::steps::Step::{
    self, Checkpoint, Commit, Crash, Deliver, Dump, Ever, Recover, Strike, Take,
};
use super::steps::Verdict;
use fbl_group::{CommitRefusal, CrashRefusal, Done, Group, RecoverRefusal};
use fbl_threads::SharedGroup;
use fbl_trace::{Behaviour, Mix, Note, Relay};
use std::process::Abort;
use std::sync::Wait;
use std::test::Fail;

/// Makes the calls in turn, and answers whether each answers as expected: at once or, where memory may be refused, when it is made
/// again.
fn are_as_expected<B: Behaviour<State = u64, Note = Note>>(
    group: &mut Group<B>,
    steps: &[Step],
    may_lack: bool,
) -> Result<bool, Fail> {
    let mut made: Option<Done<B>> = None;
    for step in steps {
        let mut verdict = step.make(group, &mut made)?;
        if may_lack && verdict == Verdict::WithoutMemory {
            verdict = step.left_when_refused().make(group, &mut made)?;
        }
        if verdict != Verdict::AsExpected {
            return Ok(false);
        }
    }
    Ok(true)
}

/// Makes the calls in turn, each in a hold of the lock of its own, and answers whether each answers as expected.
fn are_as_expected_shared<B: Behaviour<State = u64, Note = Note>>(
    rt: &impl Wait,
    shared: &SharedGroup<B>,
    steps: &[Step],
) -> Result<bool, Fail> {
    let mut made: Option<Done<B>> = None;
    for step in steps {
        let mut group = shared.lock(rt);
        if step.make(&mut group, &mut made)? != Verdict::AsExpected {
            return Ok(false);
        }
    }
    Ok(true)
}

/// Asserts that the calls answer as expected on a new group.
fn play<B: Behaviour<State = u64, Note = Note>>(
    rt: &(impl Abort + AllocGlobal + Wait),
    example: &Example,
) -> Result<(), Fail> {
    let mut group: Group<B> = example.setting.group(rt.alloc())?;
    assert!(rt; are_as_expected(&mut group, example.alone, false)?);
    let shared = SharedGroup::new(group);
    assert!(rt; are_as_expected_shared(rt, &shared, example.shared)?);
    let mut group = shared.into_inner();
    assert!(rt; are_as_expected(&mut group, example.afterwards, false)?);
    Ok(())
}

/// Asserts the same where any one request for memory may be refused, without the lock: the call that meets it tells it, and succeeds
/// when it is made again. There may be no memory for the group.
fn play_without_memory<B: Behaviour<State = u64, Note = Note>>(
    rt: &(impl Abort + AllocGlobal),
    example: &Example,
) -> Result<(), Fail> {
    let Ok(mut group) = example.setting.group::<B>(rt.alloc()) else {
        return Ok(());
    };
    for steps in [example.alone, example.shared, example.afterwards] {
        assert!(rt; are_as_expected(&mut group, steps, true)?);
    }
    Ok(())
}

/// One of three may be lost, and a message goes round.
const ROUND: Setting = Setting {
    members: 3,
    f: 1,
    limit: 8192,
    starts: &[(0, 1, 5, 2)],
};

/// Two of three may be lost, and a message goes round.
const ROUND_OF_TWO: Setting = Setting { f: 2, ..ROUND };

/// Two messages on one channel.
const TWICE: Setting = Setting {
    starts: &[(0, 1, 5, 0), (0, 1, 6, 0)],
    ..ROUND
};

/// A message to the other of two members, which is answered, with room for both receipts' events but one.
const SMALL: Setting = Setting {
    members: 2,
    limit: 3,
    starts: &[(0, 1, 5, 1)],
    ..ROUND
};

/// A worked example: calls of a group in turn, first of the group alone, then under its lock, and then once it is taken out of it.
struct Example<'a> {
    setting: Setting<'a>,
    alone: &'a [Step<'a>],
    shared: &'a [Step<'a>],
    afterwards: &'a [Step<'a>],
}

/// No calls.
const NONE: Example = Example {
    setting: ROUND,
    alone: &[],
    shared: &[],
    afterwards: &[],
};

/// The message goes round.
const GOES_ROUND: &[Step] = &[
    Deliver((1, 0), (1, 0, 5)),
    Deliver((2, 1), (1, 1, 5)),
    Deliver((0, 2), (1, 1, 5)),
    Dump(&[1], (6, 5)),
];

/// The member of a step is rolled back and comes to the same state again before the step is committed.
const OUTLIVES_A_CRASH: &[Step] = &[
    Deliver((1, 0), (1, 0, 5)),
    Take((1, 0), (5, 2, 2, 6, 0)),
    Crash(&[1], Ok((1, (0, 2, 1)))),
    Commit(Err(CommitRefusal::Stale)),
    Deliver((1, 0), (1, 0, 5)),
    Commit(Ok((2, 0, 11))),
    Commit(Err(CommitRefusal::Stale)),
];

const CRASHES: &[Step] = &[
    Recover(Err(RecoverRefusal::NotDown)),
    Deliver((1, 0), (1, 0, 5)),
    Deliver((1, 0), (2, 0, 11)),
    Crash(&[0, 1], Err(CrashRefusal::TooMany)),
    Crash(&[1], Ok((2, (0, 2, 2)))),
];

const WAITS_FOR_A_RECOVERY: &[Step] = &[
    Take((1, 0), (0, 1, 1, 5, 1)),
    Strike(&[0], 0),
    Commit(Err(CommitRefusal::Down)),
    Recover(Ok((0, 1, 0))),
    Commit(Ok((1, 0, 5))),
    Commit(Err(CommitRefusal::Stale)),
];

const WITHOUT_ROOM: &[Step] = &[
    Take((1, 0), (0, 1, 1, 5, 1)),
    Commit(Err(CommitRefusal::Full)),
    Commit(Err(CommitRefusal::Full)),
];

const ONE_IS_DOWN: &[Step] = &[
    Deliver((1, 0), (1, 0, 5)),
    Deliver((2, 1), (1, 1, 5)),
    Deliver((0, 2), (1, 2, 5)),
    Strike(&[1], 0),
];

const ALL_ARE_LOST: &[Step] = &[
    Deliver((1, 0), (1, 0, 5)),
    Deliver((2, 1), (1, 1, 5)),
    Strike(&[1, 2], 2),
    Recover(Ok((0, 1, 2))),
];

/// No room for the receipt's send.
const FULL: Setting = Setting { limit: 2, ..SMALL };

/// What relays do. The last crash recovers a member that was down before the group was shared, too.
const RELAYS: &[Example] = &[
    Example {
        alone: GOES_ROUND,
        ..NONE
    },
    Example {
        setting: TWICE,
        shared: OUTLIVES_A_CRASH,
        ..NONE
    },
    Example {
        setting: TWICE,
        shared: CRASHES,
        afterwards: &[Ever(2, 2)],
        ..NONE
    },
    Example {
        setting: SMALL,
        alone: WAITS_FOR_A_RECOVERY,
        ..NONE
    },
    Example {
        setting: FULL,
        alone: WITHOUT_ROOM,
        ..NONE
    },
    Example {
        setting: ROUND_OF_TWO,
        alone: ALL_ARE_LOST,
        ..NONE
    },
    Example {
        setting: ROUND_OF_TWO,
        alone: ONE_IS_DOWN,
        shared: &[Crash(&[2], Ok((0, (2, 0, 0))))],
        ..NONE
    },
];

/// A survivor knows the first receipt of the member that is struck, and nobody the second.
const ONE_IS_LOST: &[Step] = &[
    Deliver((2, 1), (1, 0, 8)),
    Deliver((2, 0), (2, 0, 253)),
    Deliver((0, 2), (1, 1, 9)),
    Strike(&[2], 1),
    Recover(Ok((1, 1, 1))),
    Deliver((2, 0), (2, 1, 253)),
];

/// The first receipt is in a checkpoint.
const ONE_IS_KEPT: &[Step] = &[
    Deliver((2, 1), (1, 0, 8)),
    Checkpoint(2),
    Deliver((2, 0), (2, 0, 253)),
    Strike(&[2], 1),
    Recover(Ok((0, 1, 1))),
];

/// A message that is answered, and one that is not.
const ANSWERED: Setting = Setting {
    starts: &[(0, 2, 4, 0), (1, 2, 7, 1)],
    ..ROUND
};

/// Two messages that are not answered.
const MEETING: Setting = Setting {
    starts: &[(0, 2, 4, 0), (1, 2, 7, 0)],
    ..ROUND
};

/// What mixes do.
const MIXES: &[Example] = &[
    Example {
        setting: ANSWERED,
        alone: ONE_IS_LOST,
        ..NONE
    },
    Example {
        setting: MEETING,
        alone: ONE_IS_KEPT,
        ..NONE
    },
];

#[test]
fn calls_answer_as_expected(rt: HostRuntime) -> Result<(), Fail> {
    for relays in RELAYS {
        play::<Relay>(&rt, relays)?;
    }
    for mixes in MIXES {
        play::<Mix>(&rt, mixes)?;
    }
    Ok(())
}

/// The gate refuses each request in turn.
#[test]
fn relays_without_memory(rt: HostRuntime) -> Result<(), Fail> {
    for relays in RELAYS {
        play_without_memory::<Relay>(&rt, relays)?;
    }
    Ok(())
}

/// The gate refuses each request in turn.
#[test]
fn mixes_without_memory(rt: HostRuntime) -> Result<(), Fail> {
    for mixes in MIXES {
        play_without_memory::<Mix>(&rt, mixes)?;
    }
    Ok(())
}
