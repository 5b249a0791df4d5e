//! Three parties commit together, and then three abort. In each run one of them is struck and recovered, and then two workers deliver
//! the rest, and strike and recover another one on the way. Nobody commits where somebody aborts.

ghost use Rattle.std.specs.Prelude.{IfOk};
ghost use Rattle.fbl_behaviours.specs.Commits.{AreAgreed};

use crate::drains::drain_to_quiet;
use anyhow::Result;
use fbl_behaviours::{Party, Word};
use fbl_group::Group;
use fbl_trace::{Config, Member, MemberSet, Start, Strike};
use std::alloc::Global;
use std::sync::Wait;
use std::thread::Threads;

/// No member that is up has aborted where another has committed, whatever was delivered, struck and recovered.
fn agreed(group: &Group<Party>)
    ensures { AreAgreed group.now }
{
    group.upheld();
}

/// Prints where each party stands, if it is up.
fn report<R: Print>(rt: &R, when: &str, group: &Group<Party>) -> Result<()> {
    print!(rt; "{when}:")?;
    for number in 0..group.config().members() {
        let member = Member::at(number);
        if group.down().has(member) {
            print!(rt; " down")?;
        } else {
            let stand = group.state(member);
            print!(rt; " {stand:?}")?;
        }
    }
    println!(rt; ", in flight {}", group.messages_in_flight())?;
    Ok(())
}

/// A start that brings a word.
fn asking(from: Member, to: Member, note: Word) -> Start<Word> {
    Start { from, to, note }
}

/// Three parties with these starts.
fn open(alloc: Global, starts: &[Start<Word>]) -> Result<Group<Party>> {
    let config = Config::new(alloc, 3, 1, 8192, starts)?;
    Ok(Group::<Party>::new(alloc, config)?)
}

/// Delivers what the group has in flight, with two workers, who strike and recover member 1 on the way. In the end the parties agree.
fn end<R: Print + Threads + Wait + Sync>(
    rt: &R,
    alloc: Global,
    group: Group<Party>,
    at: u64,
) -> Result<Group<Party>>
    ensures { IfOk result AreAgreed }
{
    let set = MemberSet::empty().with(Member::at(1));
    let group = drain_to_quiet(rt, alloc, group, &[Strike { at, set }])?;
    report(rt, "drained", &group)?;
    agreed(&group);
    Ok(group)
}

/// All three vote yes. Member 0 is struck after it has committed, and recovered: nobody knew of that receipt, and member 0 commits
/// when it hears once more that all have voted yes.
fn commit<R: Print + Threads + Wait + Sync>(rt: &R, alloc: Global) -> Result<()> {
    let (a, b, c) = (Member::at(0), Member::at(1), Member::at(2));
    let starts = [asking(c, a, Word::Agreed { below: 0 })];
    let mut group = open(alloc, &starts)?;
    for (to, from) in [(a, c), (b, a), (c, b), (a, c)] {
        group.deliver(to, from)?;
    }
    report(rt, "all have voted yes", &group)?;
    group.strike(MemberSet::empty().with(a))?;
    report(rt, "member 0 struck", &group)?;
    group.recover()?;
    report(rt, "recovered", &group)?;
    end(rt, alloc, group, 6)?;
    Ok(())
}

/// Member 2 is told to refuse. Member 0 has voted yes when it is struck, and hears of the refusal once it is recovered.
fn abort<R: Print + Threads + Wait + Sync>(rt: &R, alloc: Global) -> Result<()> {
    let (a, b, c) = (Member::at(0), Member::at(1), Member::at(2));
    let starts = [
        asking(c, a, Word::Agreed { below: 0 }),
        asking(a, c, Word::Refuse),
    ];
    let mut group = open(alloc, &starts)?;
    for (to, from) in [(a, c), (b, a), (c, a)] {
        group.deliver(to, from)?;
    }
    report(rt, "member 2 has voted no", &group)?;
    group.strike(MemberSet::empty().with(a))?;
    report(rt, "member 0 struck", &group)?;
    group.recover()?;
    report(rt, "recovered", &group)?;
    end(rt, alloc, group, 5)?;
    Ok(())
}

/// Runs both until nothing is in flight.
pub fn run<R: Print + Threads + Wait + Sync>(rt: &R, alloc: Global) -> Result<()> {
    commit(rt, alloc)?;
    abort(rt, alloc)
}
