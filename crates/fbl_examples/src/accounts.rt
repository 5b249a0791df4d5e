//! Three accounts pay each other. Some payments are delivered, an account is struck and recovered, and then two workers
//! deliver the rest, and strike and recover another account on the way. No money is made or lost.

ghost use Rattle.std.specs.Prelude.{◌≡◌, ◌≤◌, IfOk, OnOk};
ghost use Rattle.std.specs.FinSet as set;
ghost use Rattle.fbl_behaviours.specs.Accounts.{opened};

use crate::drains::drain_to_quiet;
use anyhow::Result;
use fbl_behaviours::Account;
use fbl_group::Group;
use fbl_trace::{Config, Member, MemberSet, Note, Start, Strike};
use std::alloc::Global;
use std::sync::Wait;
use std::thread::Threads;

/// A payment of nothing, by which an account begins to pay.
fn asking(from: Member, to: Member) -> Start
    ensures { result.note.value ≡ 0 }
{
    let note = Note { value: 0, hops: 15 };
    Start { from, to, note }
}

/// What the accounts that are up hold and what is in flight, in all: what they began with where nobody is down, whatever was
/// struck and recovered, and no more whoever is down.
fn total(group: &Group<Account>) -> u128
    ensures whole { group.now.down ≡ set.empty → result ≡ opened group.now.config }
    ensures most { result ≤ opened group.now.config }
{
    let all = group.sum_of_states() + u128::from(group.value_in_flight());
    group.conserved();
    all
}

/// Prints where the money is: 600 in all.
fn report<R: Print>(rt: &R, when: &str, group: &Group<Account>) -> Result<()>
    requires opened { opened group.now.config ≡ 600 }
    requires nobody { group.now.down ≡ set.empty }
{
    let all = total(group);
    prove!(all == 600);
    let held = group.sum_of_states();
    let in_flight = group.value_in_flight();
    println!(rt; "{when}: accounts hold {held}, in flight {in_flight}")?;
    Ok(())
}

/// Three accounts, which hold 600 in all. Each is asked to pay.
fn open(alloc: Global) -> Result<Group<Account>>
    ensures opened { IfOk result (λ group. opened group.config ≡ 600) }
    ensures nobody { IfOk result (λ group. group.down ≡ set.empty) }
{
    let (a, b, c) = (Member::at(0), Member::at(1), Member::at(2));
    let starts = [asking(b, a), asking(c, b), asking(a, c)];
    let config = Config::new(alloc, 3, 1, 8192, &starts)?;
    Ok(Group::<Account>::new(alloc, config)?)
}

/// Delivers some payments, and strikes and recovers an account.
fn begin<R: Print>(rt: &R, group: &mut Group<Account>) -> Result<()>
    requires opened { opened group.old.config ≡ 600 }
    requires nobody { group.old.down ≡ set.empty }
    ensures { OnOk result (opened group.new.config ≡ 600) }
{
    let (a, b, c) = (Member::at(0), Member::at(1), Member::at(2));
    for (to, from) in [(a, b), (b, c), (c, b), (b, a)] {
        group.deliver(to, from)?;
    }
    report(rt, "delivered", group)?;
    group.strike(MemberSet::empty().with(b))?;
    let recovered = group.recover()?;
    println!(rt; "account 1 struck: receipts undone {}", recovered.undone)?;
    report(rt, "recovered", group)
}

/// Runs the accounts until no payment is in flight.
pub fn run<R: Print + Threads + Wait + Sync>(rt: &R, alloc: Global) -> Result<()> {
    let mut group = open(alloc)?;
    begin(rt, &mut group)?;
    let set = MemberSet::empty().with(Member::at(2));
    let group = drain_to_quiet(rt, alloc, group, &[Strike { at: 20, set }])?;
    report(rt, "drained", &group)
}
