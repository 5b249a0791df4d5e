//! How many workers have ended, and sleeps that end when one more has.

use std::sync::Wait;
use std::sync::atomic::{AtomicU64, Ordering};
use std::time::Duration;

/// How many microseconds the first sleep in a row takes.
const FIRST_SLEEP: u64 = 50;

/// How many microseconds a sleep takes at most.
const LONGEST_SLEEP: u64 = 1000;

/// After how many sleeps in a row the longest comes.
const SLEEPS: u32 = 5;

/// How many workers have ended.
#[derive(Drop)]
pub(crate) struct Endings {
    count: AtomicU64,
}

impl Endings {
    pub(crate) fn none() -> Endings {
        Endings {
            count: AtomicU64::new(0),
        }
    }

    pub(crate) fn count(&self) -> u32 {
        self.count.load(Ordering::SeqCst).min(u64::from(u32::MAX)) as u32
    }

    /// Counts one more, and wakes those that sleep.
    pub(crate) fn add_one(&self) {
        self.count.fetch_add(1, Ordering::SeqCst);
        self.count.wake_all();
    }

    /// Sleeps while as many have ended as were seen to, for a time that is twice as long for each sleep in a row before this
    /// one, up to a bound.
    pub(crate) fn sleep<R: Wait>(&self, rt: &R, seen: u32, sleeps_before: u32) {
        let long = FIRST_SLEEP << sleeps_before.min(SLEEPS);
        let duration = Duration::from_micros(LONGEST_SLEEP.min(long));
        self.count.park_timeout(rt, seen, duration);
    }
}
