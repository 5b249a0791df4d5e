//! Four examples, one after the other: accounts that pay each other, members that elect one of them, members that share a store, and
//! members that commit or abort together.
#![tactic(auto)]

mod accounts;
mod commits;
mod drains;
mod election;
mod store;

use anyhow::Result;

fn main(rt: HostRuntime) -> Result<()> {
    let alloc = rt.alloc();
    accounts::run(&rt, alloc)?;
    election::run(&rt, alloc)?;
    store::run(&rt, alloc)?;
    commits::run(&rt, alloc)
}
