//! A claim with its release, against a lock that nobody else wants with its unlock.

ghost use Rattle.std.specs.Prelude.{◌≡◌, ◌<◌};

use crate::times::{microseconds_since, print_rate};
use anyhow::Result;
use fbl_threads::{Claims, Pass};
use fbl_trace::Member;
use std::sync::{Mutex, Wait};
use std::time::Instant;

/// How often each is done.
const COUNT: u32 = 1_000_000;

/// How many members there are words for.
const MEMBERS: u8 = 16;

/// Times both, on one thread; the claims with their making.
pub fn time_claims<W: Wait>(rt: &HostRuntime, waits: &W) -> Result<()> {
    let start = Instant::now(rt)?;
    let (claims, pass) = Claims::new(rt.alloc(), MEMBERS)?;
    let won = claim_often(claims, pass);
    let taken = microseconds_since(rt, start)?;
    println!(rt; "claims: won {won}")?;
    print_rate(rt, "claims", "claims and releases", COUNT, taken)?;
    time_locks(rt, waits)
}

/// Claims and releases member 0, and answers how often the claim was won.
fn claim_often(claims: Claims, pass: Pass) -> u32
    requires pass { pass ≡ claims }
    requires member { 0 < claims.words }
{
    let mut pass = pass;
    let mut won: u32 = 0;
    for _ in 0..COUNT {
        pass = match claims.try_claim(pass, Member::default()) {
            Ok(claim) => {
                won = won.saturating_add(1);
                claims.release(claim)
            }
            Err(back) => back,
        };
    }
    claims.close(pass);
    won
}

/// Times the lock of a number, and its unlock.
fn time_locks<W: Wait>(rt: &HostRuntime, waits: &W) -> Result<()> {
    let number = Mutex::new(0u32);
    let start = Instant::now(rt)?;
    for _ in 0..COUNT {
        let mut held = number.lock(waits);
        *held = held.saturating_add(1);
    }
    let taken = microseconds_since(rt, start)?;
    println!(rt; "locks: taken {}", number.into_inner())?;
    print_rate(rt, "locks", "locks and unlocks", COUNT, taken)
}
