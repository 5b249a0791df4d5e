//! A load on every core.

use anyhow::Result;
use std::sync::Wait;
use std::sync::atomic::{AtomicBool, Ordering};
use std::thread;
use std::thread::Threads;

/// Does the work beside threads that compute until it is done, as many as there are cores.
pub fn beside_load<T: Threads + Wait + Sync, F: FnOnce() -> Result<()>>(
    threads: &T,
    work: F,
) -> Result<()>
    requires { F.pre work }
{
    let cores = thread::available_parallelism(threads)?.get();
    let is_done = AtomicBool::new(false);
    let done = &is_done;
    thread::scope(
        thread::scope_env(),
        threads,
        move |scope| -> Result<()>
            requires { F.pre work }
        {
            for _core in 0..cores {
                let _handle = scope.spawn(move || compute_until(done));
            }
            let result = work();
            done.store(true, Ordering::SeqCst);
            result
        },
    )
}

/// Computes until the flag is up, and answers what came of it.
fn compute_until(is_done: &AtomicBool) -> u64 {
    let mut mixed = 1u64;
    for _round in 0..u64::MAX {
        if is_done.load(Ordering::SeqCst) {
            break;
        }
        mixed = mixed.wrapping_mul(31).wrapping_add(1);
    }
    mixed
}
