//! A worker that finds nothing while another makes a long step.

use super::fixtures::{group, has_counts, has_states};
use crate::members::start;
use fbl_threads::{Gate, drain};
use fbl_trace::Member;
use std::sync::atomic::{AtomicBool, AtomicU64, Ordering};
use std::test::Fail;
use std::thread;
use std::time::{Clock, Duration};

/// How many milliseconds the long step takes.
const STEP: u64 = 200;

/// How many turns each worker has: ten times as many as there are milliseconds in the step.
const TURNS: u32 = 2000;

/// How often a gate looks, with a millisecond between, before it gives up.
const MOST_LOOKS: u32 = 10_000;

/// A gate that the first worker of member 1 passes after a long time, and a worker of member 2 once a second one of member 1 has
/// come, and that notes where that one waits in vain.
#[derive(Drop)]
struct LongStep<'a, C: Clock> {
    clock: &'a C,
    come: AtomicU64,
    missed: AtomicBool,
}

impl<C: Clock> LongStep<'_, C> {
    /// Whether a second worker of member 1 comes, by a bounded number of looks.
    fn is_second_seen(&self) -> bool {
        for _ in 0..MOST_LOOKS {
            if 2 <= self.come.load(Ordering::SeqCst) {
                return true;
            }
            thread::sleep(self.clock, Duration::from_millis(1));
        }
        false
    }
}

impl<C: Clock> Gate for LongStep<'_, C> {
    fn pass(&self, member: Member) {
        if member.number() == 1 && self.come.fetch_add(1, Ordering::SeqCst) == 0 {
            thread::sleep(self.clock, Duration::from_millis(STEP));
        }
        if member.number() == 2 && !self.is_second_seen() {
            self.missed.store(true, Ordering::SeqCst);
        }
    }
}

// The worker of the long step goes on to member 2, for which it sends a message, and the other one has turns left for member
// 1's second message.
#[test]
fn a_worker_that_finds_nothing_keeps_its_turns(rt: HostRuntime) -> Result<(), Fail> {
    let starts = [start(0, 1, 5, 1), start(0, 1, 6, 0)];
    let group = group(rt.alloc(), 3, 1, 8192, &starts)?;
    let gate = LongStep {
        clock: &rt,
        come: AtomicU64::new(0),
        missed: AtomicBool::new(false),
    };
    let (group, answer) = drain(&rt, rt.alloc(), group, &[], 2, TURNS, &gate);
    let drained = answer?;
    assert!(rt; drained.started == 2, "a worker had no thread");
    assert!(rt;
        !gate.missed.load(Ordering::SeqCst),
        "the other worker had used up its turns"
    );
    assert!(rt; drained.quiet && has_states(&group, &[0, 11, 5]));
    assert!(rt; has_counts(&drained, &[1, 2], &[0, 0]) || has_counts(&drained, &[2, 1], &[0, 0]));
    Ok(())
}
