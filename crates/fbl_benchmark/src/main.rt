//! Times a group: deliveries, strikes with recoveries, drains by several workers, and claims. Counts go to standard output,
//! and times to standard error.
#![tactic(auto)]

mod circulate;
mod claims;
mod deliveries;
mod drains;
mod load;
mod long_circulate;
mod recoveries;
mod ring;
mod spread;
mod spreads;
mod times;

use anyhow::Result;
use std::sync::Wait;
use std::thread::Threads;

/// Everything that is timed, in turn.
fn run<T: Threads + Wait + Sync>(rt: &HostRuntime, threads: &T) -> Result<()> {
    deliveries::time_groups(rt)?;
    spreads::time_spreads(rt)?;
    recoveries::time_recoveries(rt)?;
    drains::time_workers(rt, threads)?;
    claims::time_claims(rt, threads)
}

fn main(rt: HostRuntime) -> Result<()> {
    run(&rt, &rt)
}
