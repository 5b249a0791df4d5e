//! Short holds of a lock. Between two tries of it a worker spins, the longer the more it has tried (`Backoff`), and keeps its
//! processor: where every one has another load, who gives it away gets it back after milliseconds.

use crate::endings::Endings;
use crossbeam_utils::Backoff;
use std::sync::{Mutex, MutexGuard, Wait};

/// How often the lock is tried with spins between the tries by a worker that others don't wait for.
const IDLE_TRIES: u32 = 24;

/// How often it sleeps then between two tries, before it sleeps on the lock.
const IDLE_SLEEPS: u32 = 1000;

/// How often the lock is tried with spins between the tries by a worker that has claimed a member.
const TRIES: u32 = 1024;

/// After how many of these tries too many workers want the lock.
const FEW_TRIES: u32 = 40;

/// Takes the lock for a worker that has claimed nobody. Nobody waits for it: so where the lock is taken it soon sleeps between
/// its tries, each time longer, and leaves the lock to those that have work. A worker that sleeps on the lock has to be woken
/// by the one that gives it back, and is then given the lock before those: that costs more than many holds.
pub(crate) fn hold_idle<'a, T, R: Wait>(
    rt: &R,
    lock: &'a Mutex<T>,
    endings: &Endings,
) -> MutexGuard<'a, T> {
    let backoff = Backoff::new();
    for _try in 0..IDLE_TRIES {
        if let Some(guard) = lock.try_lock() {
            return guard;
        }
        backoff.spin();
    }
    for number in 0..IDLE_SLEEPS {
        let seen = endings.count();
        if let Some(guard) = lock.try_lock() {
            return guard;
        }
        if seen != 0 {
            break;
        }
        endings.sleep(rt, seen, number);
    }
    lock.lock(rt)
}

/// Takes the lock for a worker that has claimed a member, whose messages wait for it: so it tries again soon, and sleeps on the
/// lock after many tries, until it is woken. Whether the lock was taken so often that too many workers want it.
pub(crate) fn hold_claiming<'a, T, R: Wait>(
    rt: &R,
    lock: &'a Mutex<T>,
) -> (MutexGuard<'a, T>, bool) {
    let backoff = Backoff::new();
    for number in 0..TRIES {
        if let Some(guard) = lock.try_lock() {
            return (guard, FEW_TRIES <= number);
        }
        backoff.spin();
    }
    (lock.lock(rt), true)
}
