//! Times that are measured and printed.

use anyhow::Result;
use std::time::Instant;

/// How often each thing is tried. The least time counts.
pub const TRIES: u32 = 5;

/// How many microseconds a second has.
const MICROSECONDS: u128 = 1_000_000;

/// How many whole microseconds have passed since the instant.
pub fn microseconds_since(rt: &HostRuntime, start: Instant) -> Result<u128> {
    Ok(start.elapsed(rt)?.as_micros())
}

/// Prints to standard error how many microseconds so many steps took, and how many a second that makes.
pub fn print_rate(rt: &HostRuntime, name: &str, what: &str, count: u32, taken: u128) -> Result<()> {
    let taken = taken.max(1);
    let rate = u128::from(count) * MICROSECONDS / taken;
    eprintln!(rt; "{name}: {count} {what} in {taken} microseconds, {rate} a second")?;
    Ok(())
}
