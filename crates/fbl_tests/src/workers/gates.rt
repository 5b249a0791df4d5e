//! Gates that show when workers pass.

use super::fixtures::{TURNS, group, has_counts, has_states};
use crate::members::start;
use fbl_threads::{Gate, drain};
use fbl_trace::Member;
use std::sync::atomic::{AtomicBool, AtomicU64, Ordering};
use std::test::Fail;
use std::thread;

/// How often a gate looks before it gives up.
const MOST_LOOKS: u32 = 10_000_000;

/// Whether the flag is seen up, by a bounded number of looks.
fn is_seen_up(flag: &AtomicBool) -> bool {
    for _ in 0..MOST_LOOKS {
        if flag.load(Ordering::SeqCst) {
            return true;
        }
        thread::yield_now();
    }
    false
}

/// A member of a gate: whether its worker has come to the gate.
#[derive(Drop)]
struct Side {
    member: u8,
    has_come: AtomicBool,
}

impl Side {
    fn of(member: u8) -> Side {
        Side {
            member,
            has_come: AtomicBool::new(false),
        }
    }
}

/// A gate that lets the worker of one member pass when that of the other has come too, the other way round where both
/// wait, and that notes where a worker waits in vain.
#[derive(Drop)]
struct Meeting {
    waiting: Side,
    other: Side,
    both_wait: bool,
    missed: AtomicBool,
}

impl Meeting {
    fn new(waiting: u8, other: u8, both_wait: bool) -> Meeting {
        Meeting {
            waiting: Side::of(waiting),
            other: Side::of(other),
            both_wait,
            missed: AtomicBool::new(false),
        }
    }

    fn is_missed(&self) -> bool {
        self.missed.load(Ordering::SeqCst)
    }

    fn wait_for(&self, side: &Side) {
        if !is_seen_up(&side.has_come) {
            self.missed.store(true, Ordering::SeqCst);
        }
    }
}

impl Gate for Meeting {
    fn pass(&self, member: Member) {
        if member.number() == self.waiting.member {
            self.waiting.has_come.store(true, Ordering::SeqCst);
            self.wait_for(&self.other);
        }
        if member.number() == self.other.member {
            self.other.has_come.store(true, Ordering::SeqCst);
            if self.both_wait {
                self.wait_for(&self.waiting);
            }
        }
    }
}

/// A gate that takes its time, and notes where a second worker comes before the first has passed.
#[derive(Drop)]
struct Narrow {
    come: AtomicU64,
    met: AtomicBool,
}

impl Gate for Narrow {
    fn pass(&self, _member: Member) {
        let mine = self.come.fetch_add(1, Ordering::SeqCst);
        for _ in 0..100_000 {
            if self.come.load(Ordering::SeqCst) != mine.wrapping_add(1) {
                self.met.store(true, Ordering::SeqCst);
            }
            thread::yield_now();
        }
    }
}

// Neither worker leaves the gate before the other has come to it.
#[test]
fn two_workers_pass_the_gate_at_once(rt: HostRuntime) -> Result<(), Fail> {
    let starts = [start(0, 1, 5, 0), start(1, 0, 6, 0)];
    let group = group(rt.alloc(), 2, 1, 8192, &starts)?;
    let gate = Meeting::new(0, 1, true);
    let (group, answer) = drain(&rt, rt.alloc(), group, &[], 2, TURNS, &gate);
    let drained = answer?;
    assert!(rt; !gate.is_missed(), "a worker waited in vain");
    assert!(rt; drained.quiet && has_states(&group, &[6, 5]));
    assert!(rt; drained.started == 2 && has_counts(&drained, &[1, 1], &[0, 0]));
    Ok(())
}

// While one worker waits with member 0, the other comes to member 2.
#[test]
fn any_worker_steps_any_member(rt: HostRuntime) -> Result<(), Fail> {
    let starts = [start(1, 0, 5, 0), start(1, 2, 6, 0)];
    let group = group(rt.alloc(), 3, 1, 8192, &starts)?;
    let gate = Meeting::new(0, 2, false);
    let (group, answer) = drain(&rt, rt.alloc(), group, &[], 2, TURNS, &gate);
    assert!(rt; !gate.is_missed(), "the worker of member 0 waited in vain");
    assert!(rt; answer?.quiet && has_states(&group, &[5, 0, 6]));
    Ok(())
}

// Only member 1 has a message, and the worker that has not claimed it takes none.
#[test]
fn a_worker_claims_before_it_takes(rt: HostRuntime) -> Result<(), Fail> {
    let group = group(rt.alloc(), 2, 1, 8192, &[start(0, 1, 5, 0)])?;
    let gate = Narrow {
        come: AtomicU64::new(0),
        met: AtomicBool::new(false),
    };
    let (group, answer) = drain(&rt, rt.alloc(), group, &[], 2, TURNS, &gate);
    assert!(rt;
        !gate.met.load(Ordering::SeqCst),
        "two workers had member 1"
    );
    assert!(rt; answer?.quiet && has_states(&group, &[0, 5]));
    assert!(rt; gate.come.load(Ordering::SeqCst) == 1);
    Ok(())
}
