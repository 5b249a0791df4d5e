//! Three members share a store of 256 keys. A command for a key goes round the ring to the member that owns it. Some are
//! delivered, a member is struck and recovered, and then two workers deliver the rest, and strike and recover another member on
//! the way. A value is what the commands that its key's owner received make of nothing, each once and in order, and the values are
//! never more than the starts bring.

ghost use Rattle.std.specs.Prelude.{◌≡◌, ℕ, ◌<◌, ◌≤◌, ◌==◌, slice_index, if◌then◌else◌, IfOk, OnOk};
ghost use Rattle.fbl_law.specs.Groups.{knowledge, member as record_of, received_notes};
ghost use Rattle.fbl_law.specs.Knowledge.{IsUp};
ghost use Rattle.fbl_behaviours.specs.Commands.{amount_of, made_of};
ghost use Rattle.fbl_behaviours.specs.Shards.{amount_brought, key_owner};

use crate::drains::drain_to_quiet;
use anyhow::Result;
use fbl_behaviours::{Command, Shard};
use fbl_group::Group;
use fbl_trace::{Config, Member, MemberSet, Start, Strike};
use std::alloc::Global;
use std::sync::Wait;
use std::thread::Threads;

/// A start that brings a command.
fn asking(from: Member, to: Member, note: Command) -> Start<Command>
    ensures { result ≡ record { from = from; to = to; note = note } }
{
    Start { from, to, note }
}

/// The value of a key: its owner has it, and another member has none. Where the owner is up, it is what the commands that the owner
/// received make of nothing, each once and in the order of the trace. It is no more than the starts bring.
fn look_up(group: &Group<Shard>, key: u8) -> u64
    ensures value { (m : ℕ) → m < group.now.config.members
        → slice_index (record_of group.now m).state key
        ≡ (if m == key_owner group.now.config.members key then result else 0) }
    ensures commands { let owner = key_owner group.now.config.members key in
        IsUp (knowledge group.now) owner
        → result ≡ made_of key (received_notes group.now.trace owner) }
    ensures most { result ≤ amount_brought group.now.config }
{
    group.kept();
    group.none_made();
    let owner = Member::at(key % group.config().members());
    group.state(owner)[usize::from(key)]
}

/// The value of a key where the starts bring 50 in all.
fn value_of(group: &Group<Shard>, key: u8) -> u64
    requires { amount_brought group.now.config ≡ 50 }
    ensures { result ≤ 50 }
{
    look_up(group, key)
}

/// Prints the values of the first eight keys, each of which is at most 50.
fn report<R: Print>(rt: &R, when: &str, group: &Group<Shard>) -> Result<()>
    requires { amount_brought group.now.config ≡ 50 }
{
    print!(rt; "{when}:")?;
    for key in 0..8 {
        let value = value_of(group, key);
        prove!(value <= 50);
        print!(rt; " {value}")?;
    }
    println!(rt; ", in flight {}", group.messages_in_flight())?;
    Ok(())
}

/// Three members, of whom two ask others for what the starts bring: 50 in all.
fn open(alloc: Global) -> Result<Group<Shard>>
    ensures { IfOk result (λ group. amount_brought group.config ≡ 50) }
{
    let (a, b, c) = (Member::at(0), Member::at(1), Member::at(2));
    let starts = [
        asking(a, b, Command::Put { key: 3, value: 40 }),
        asking(a, b, Command::Add { key: 3, amount: 2 }),
        asking(b, c, Command::Put { key: 5, value: 7 }),
        asking(c, a, Command::Add { key: 4, amount: 1 }),
    ];
    let config = Config::new(alloc, 3, 1, 8192, &starts)?;
    Ok(Group::<Shard>::new(alloc, config)?)
}

/// Delivers some commands, and strikes and recovers a member.
fn begin<R: Print>(rt: &R, group: &mut Group<Shard>) -> Result<()>
    requires { amount_brought group.old.config ≡ 50 }
    ensures { OnOk result (amount_brought group.new.config ≡ 50) }
{
    let (a, b, c) = (Member::at(0), Member::at(1), Member::at(2));
    for (to, from) in [(b, a), (c, b), (c, b), (a, c), (a, c)] {
        group.deliver(to, from)?;
    }
    report(rt, "delivered", group)?;
    group.strike(MemberSet::empty().with(a))?;
    let recovered = group.recover()?;
    println!(rt; "member 0 struck: receipts undone {}", recovered.undone)?;
    report(rt, "recovered", group)
}

/// Runs the store until no command is in flight.
pub fn run<R: Print + Threads + Wait + Sync>(rt: &R, alloc: Global) -> Result<()> {
    let mut group = open(alloc)?;
    begin(rt, &mut group)?;
    let set = MemberSet::empty().with(Member::at(2));
    let group = drain_to_quiet(rt, alloc, group, &[Strike { at: 8, set }])?;
    report(rt, "drained", &group)
}
