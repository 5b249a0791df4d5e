//! Four members in a ring elect the greatest identifier that a start brings. Some notes are delivered, the one member that has
//! it is struck and recovered, and then two workers deliver the rest, and strike and recover another member on the way.

ghost use Rattle.std.specs.Prelude.{◌≡◌, ◌≤◌, ◌<◌, ℕ, IsTrue, IfOk, OnOk};
ghost use Rattle.fbl_group.specs.Readers.{is_quiet};
ghost use Rattle.fbl_law.specs.Groups.{member as record_of};
ghost use Rattle.fbl_law.specs.StepLaws.{HoldsOf};
ghost use Rattle.fbl_behaviours.specs.Elections.{HasTaken, IsPassedOn, ReachesAll, greatest};

use crate::drains::drain_to_quiet;
use anyhow::Result;
use fbl_behaviours::Candidate;
use fbl_group::Group;
use fbl_trace::{Config, Member, MemberSet, Note, Start, Strike};
use std::alloc::Global;
use std::sync::Wait;
use std::thread::Threads;

/// A start that brings an identifier, which is to reach three members more.
fn bringing(from: Member, to: Member, value: u32) -> Start
    ensures ends { (result.from ≡ from) × (result.to ≡ to) }
    ensures note { (result.note.value ≡ value) × (result.note.hops ≡ 3) }
{
    let note = Note { value, hops: 3 };
    Start { from, to, note }
}

/// What holds of an election, whatever was delivered, struck, recovered or drained: a start brought what members have and what
/// is in flight, and nothing is greater than the greatest identifier. Where that one is to reach all members, nothing is in
/// flight and nobody is down, each member has it.
fn elected(group: &Group<Candidate>)
    ensures brought { HoldsOf group.now (HasTaken group.now.config) (IsPassedOn group.now.config) }
    ensures most { HoldsOf group.now (λ m state. state.greatest ≤ greatest group.now.config.starts)
        (λ from to note. note.value ≤ greatest group.now.config.starts) }
    ensures agreed { ReachesAll group.now.config → IsTrue (is_quiet group.now) → (m : ℕ)
        → m < group.now.config.members
        → (record_of group.now m).state.greatest ≡ greatest group.now.config.starts }
{
    group.kept();
    group.none_lost();
}

/// Prints what each member has, which is at most 9.
fn report<R: Print>(rt: &R, when: &str, group: &Group<Candidate>) -> Result<()>
    requires { greatest group.now.config.starts ≡ 9 }
{
    elected(group);
    print!(rt; "{when}:")?;
    for number in 0..group.config().members() {
        let greatest = group.state(Member::at(number)).greatest;
        prove!(greatest <= 9);
        print!(rt; " {greatest}")?;
    }
    println!(rt; ", in flight {}", group.messages_in_flight())?;
    Ok(())
}

/// Prints whom each member has elected: 9.
fn declare<R: Print>(rt: &R, group: &Group<Candidate>) -> Result<()>
    requires greatest { greatest group.now.config.starts ≡ 9 }
    requires reaches { ReachesAll group.now.config }
    requires quiet { IsTrue (is_quiet group.now) }
{
    elected(group);
    for number in 0..group.config().members() {
        let greatest = group.state(Member::at(number)).greatest;
        prove!(greatest == 9);
        println!(rt; "member {number} has elected {greatest}")?;
    }
    Ok(())
}

/// Four members in a ring, in which the greatest identifier is 9 and is to reach all.
fn open(alloc: Global) -> Result<Group<Candidate>>
    ensures greatest { IfOk result (λ group. greatest group.config.starts ≡ 9) }
    ensures reaches { IfOk result (λ group. ReachesAll group.config) }
{
    let (a, b, c, d) = (Member::at(0), Member::at(1), Member::at(2), Member::at(3));
    let starts = [
        bringing(d, a, 7),
        bringing(a, b, 3),
        bringing(b, c, 9),
        bringing(c, d, 5),
    ];
    let config = Config::new(alloc, 4, 1, 8192, &starts)?;
    Ok(Group::<Candidate>::new(alloc, config)?)
}

/// Delivers some notes, and strikes and recovers the one member that has the greatest identifier.
fn begin<R: Print>(rt: &R, group: &mut Group<Candidate>) -> Result<()>
    requires { greatest group.old.config.starts ≡ 9 }
    ensures { OnOk result (group.new.config ≡ group.old.config) }
{
    let (a, b, c, d) = (Member::at(0), Member::at(1), Member::at(2), Member::at(3));
    for (to, from) in [(a, d), (b, a), (b, a), (c, b)] {
        group.deliver(to, from)?;
    }
    report(rt, "delivered", group)?;
    group.strike(MemberSet::empty().with(c))?;
    report(rt, "member 2 struck", group)?;
    let recovered = group.recover()?;
    println!(rt; "receipts undone {}", recovered.undone)?;
    report(rt, "recovered", group)
}

/// Runs the election until nothing is in flight.
pub fn run<R: Print + Threads + Wait + Sync>(rt: &R, alloc: Global) -> Result<()> {
    let mut group = open(alloc)?;
    begin(rt, &mut group)?;
    let set = MemberSet::empty().with(Member::at(3));
    let group = drain_to_quiet(rt, alloc, group, &[Strike { at: 8, set }])?;
    declare(rt, &group)
}
