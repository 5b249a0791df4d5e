//! Recorded runs: the group, the entries as they are listed, who is taken to be lost, and when a run is judged.

ghost use Rattle.std.specs.Prelude.{◌≡◌, ◌++◌, IfErr, IfOk, map};
ghost use Rattle.fbl_runs.specs.declared.entry.Entry.TheVariants.{Event};
ghost use Rattle.fbl_runs.specs.Logs.{IsLog, IsLogBreach, IsRun, RefusesLog, hold_of, parts_of_log, run_of_dump};

use crate::entry::Entry;
use crate::fault::LogBreach;
use crate::judged::Judged;
use crate::lawful::refusal;
use fbl_trace::{Determinant, Dump, DumpRefusal, Mark, Member, MemberSet};
use std::alloc::{AllocError, Global};
use std::marker::Model;

/// A log of a run, from any source and not yet checked.
#[derive(Drop)]
pub struct RawLog {
    /// How many members the group had.
    pub members: u8,
    /// How many of them might be lost at once.
    pub f: u8,
    /// The entries, as they are listed: each member's in its own order.
    pub entries: Vec<Entry>,
    /// The strike set: the members that are taken to be lost at each moment. It may be empty, and may have more than `f` members.
    pub strike: MemberSet,
}

/// A run that obeys the rules of runs. Contracts see its five parts.
#[derive(Drop)]
pub struct Run {
    raw: RawLog,
    judged: Judged,
}

impl Model for Run {
    ghost use Rattle.fbl_runs.specs.Logs.{IsRun, RunParts, parts_of};

    ghost Value = { RunParts };

    ghost use Rattle.std.specs.Coded.{codes, coded_ℕ};
    ghost use Rattle.std.specs.Ordering.{nat_cmp};
    ghost use Rattle.std.specs.FinSet as set;
    ghost use Rattle.fbl_runs.specs.contracts.entry.Entry as entry;

    ghost coded = { Prim.hlevel (codes, entry.the_row.coded, set.code {R = nat_cmp} coded_ℕ) };

    ghost view = { λ r. parts_of r.raw r.judged };

    ghost invariant = { λ r. IsRun (parts_of r.raw r.judged) };
}

/// The events as entries, and behind them the pairs as holds.
fn entries_of(
    alloc: Global,
    events: &[Mark],
    held: &[(Member, Determinant)],
) -> Result<Vec<Entry>, AllocError>
    ensures { IfOk result (λ v. v.items ≡ map Event events.now ++ map hold_of held.now) }
{
    let count = events.len().saturating_add(held.len());
    let mut entries = Vec::with_capacity(alloc, count)?;
    for event in events {
        entries.push(Entry::Event(*event))?;
    }
    for (holder, determinant) in held {
        entries.push(Entry::Hold {
            holder: *holder,
            determinant: *determinant,
        })?;
    }
    Ok(entries)
}

impl Run {
    /// The run that the dump records, judged at its end: the events, and behind them who holds what. `Err` comes only where there is no
    /// memory for the entries.
    pub fn of_dump(alloc: Global, dump: &Dump) -> Result<Run, AllocError>
        ensures { IfOk result (λ run. run ≡ run_of_dump dump.now) }
    {
        let raw = RawLog {
            members: dump.members(),
            f: dump.f(),
            entries: entries_of(alloc, dump.events(), dump.held())?,
            strike: dump.strike(),
        };
        Ok(Run {
            raw,
            judged: Judged::AtItsEnd,
        })
    }

    /// How many members the group had.
    pub fn members(&self) -> u8
        ensures { result ≡ self.now.members }
    {
        self.raw.members
    }

    /// How many of them might be lost at once.
    pub fn f(&self) -> u8
        ensures { result ≡ self.now.f }
    {
        self.raw.f
    }

    /// The entries, as they are listed.
    pub fn entries(&self) -> &[Entry]
        ensures entries { result.now ≡ self.now.entries }
        ensures rules { IsRun self.now }
    {
        self.raw.entries.as_slice()
    }

    /// The strike set: the members that are taken to be lost.
    pub fn strike(&self) -> MemberSet
        ensures { result ≡ self.now.strike }
    {
        self.raw.strike
    }

    /// When it is judged.
    pub fn judged(&self) -> Judged
        ensures { result ≡ self.now.judged }
    {
        self.judged
    }
}

/// The log as a run, judged at each moment, once its rules are checked, in this order: the group's numbers, the sends and receipts in
/// the order in which they are listed, the strike set, the control messages, and the holds and stores. Where some member restarts: the
/// group's numbers, the entries but the holds and stores, the strike set, and the holds and stores. The refusal is that of the first rule
/// that is broken; its place is that among all entries. Lack of memory may come before any but the group's numbers.
pub fn checked_log(alloc: Global, raw: RawLog) -> Result<Run, (DumpRefusal, LogBreach)>
    ensures log { IfOk result (λ run. run ≡ parts_of_log raw) }
    ensures rules { IfOk result IsLog }
    ensures refused { IfErr result (λ e. RefusesLog (parts_of_log raw) e.0) }
    ensures breach { IfErr result (λ e. IsLogBreach (parts_of_log raw) e.0 e.1) }
{
    match refusal(alloc, &raw) {
        None => Ok(Run {
            raw,
            judged: Judged::AtEachMoment,
        }),
        Some(refused) => Err(refused),
    }
}
