//! Which entries may stand in a log.

ghost use Rattle.std.specs.Prelude.{◌≡◌, ◌<◌, ◌+◌, ◌≤◌, ◌↔◌, ℕ, IfOk, IfSome, MatchOption, Some, false, length, slice_get, take, true};
ghost use Rattle.fbl_trace.specs.Dumps.{IsDump, RefusesDump, IsDumpBreach};
ghost use Rattle.fbl_runs.specs.Entries.{marks};
ghost use Rattle.fbl_runs.specs.declared.causality.Causality.TheVariants.{HappenedBefore};
ghost use Rattle.fbl_runs.specs.Lawful.{BreaksAt, IsEventPlace, IsFirstBad, IsKnownAt, ObeysAt, records};
ghost use Rattle.fbl_runs.specs.Logs.{IsBreachBy, IsLog, IsLogBreach, RefusesLog, RefusesPlain, parts_of_log, trace_of};
ghost use Rattle.fbl_runs.specs.Precedence.{AreClocks};
ghost use Rattle.fbl_runs.specs.Receipts.{AreReceiptPlaces};
ghost use Rattle.fbl_runs.specs.Rules.{AreLawful, has_life, have_lives};

use crate::causality::Causality;
use crate::clocks::Clocks;
use crate::control::first_untold;
use crate::entry::Entry;
use crate::fault::{LogBreach, RecordFault, RecordRule};
use crate::index::Index;
use crate::life_rules::first_life_fault;
use crate::receipts::ReceiptPlaces;
use crate::run::RawLog;
use fbl_trace::{
    Breach, DumpRefusal, EventFault, GroupRule, MOST_PAIRS, Mark, Outsider, RawDump, checked_dump,
    group_breach,
};
use std::alloc::{AllocError, Global};

/// The sends and receipts, in order.
pub fn marks_of(alloc: Global, entries: &[Entry]) -> Result<Vec<Mark>, AllocError>
    ensures { IfOk result (λ v. v.items ≡ marks entries.now) }
{
    let mut marks = Vec::new(alloc);
    for entry in entries {
        if let Some(event) = entry.event() {
            marks.push(event)?;
        }
    }
    Ok(marks)
}

/// Why the sends and receipts are those of no trace of the group, if they are not. A place is that among the sends and receipts.
fn trace_refusal(alloc: Global, raw: &RawLog) -> Option<(DumpRefusal, Breach)>
    ensures trace { MatchOption result (IsDump (trace_of (parts_of_log raw.now)))
        (λ e. RefusesDump (trace_of (parts_of_log raw.now)) e.0) }
    ensures breach { IfSome result (λ e. IsDumpBreach (trace_of (parts_of_log raw.now)) e.0 e.1) }
{
    let (members, f) = (raw.members, raw.f);
    match group_breach(members, f) {
        Some(GroupRule::Members) => return Some((
            DumpRefusal::BadMembers,
            Breach::Members { members },
        )),
        Some(GroupRule::F) => return Some((DumpRefusal::BadF, Breach::F { f, members })),
        None => {}
    }
    let Ok(events) = marks_of(alloc, raw.entries.as_slice()) else {
        return Some((DumpRefusal::Memory, Breach::Memory));
    };
    let trace = RawDump {
        members,
        f,
        events,
        held: Vec::new(alloc),
        strike: raw.strike,
    };
    checked_dump(alloc, trace).err()
}

/// Whether what the entry at the place says is held or stored, if it says so, is a receipt that happened before it. Of the receipts that a
/// determinant names the first precedes the others: they are of one member.
fn is_known(index: &Index<'_>, clocks: &Clocks, receipts: &ReceiptPlaces, place: usize) -> bool
    requires place { place < length index.now }
    requires receipts { AreReceiptPlaces index.now 0 receipts.now }
    ensures { AreClocks HappenedBefore index.now clocks.now → (result ≡ true) ↔ IsKnownAt index.now place }
{
    let Some(determinant) = index.entries()[place].recorded() else {
        return true;
    };
    match receipts.first(&determinant) {
        Some(first) => clocks.precedes(index, first, place),
        None => false,
    }
}

/// The first rule that the entry at the place breaks, where so many holds and stores stand before it.
fn broken_rule(
    members: u8,
    index: &Index<'_>,
    clocks: &Clocks,
    receipts: &ReceiptPlaces,
    place: usize,
    before: usize,
) -> Option<RecordRule>
    requires place { place < length index.now }
    requires receipts { AreReceiptPlaces index.now 0 receipts.now }
    ensures { AreClocks HappenedBefore index.now clocks.now → before ≡ length (records (take place index.now))
        → MatchOption result (ObeysAt members index.now place) (BreaksAt members index.now place) }
{
    let entry = &index.entries()[place];
    if entry.recorded().is_some() && before >= MOST_PAIRS {
        return Some(RecordRule::TooMany);
    }
    let member = entry.member();
    if member.number() >= members {
        return Some(RecordRule::Outside(Outsider { member, members }));
    }
    if !is_known(index, clocks, receipts, place) {
        return Some(RecordRule::NotBefore);
    }
    None
}

/// The first entry that breaks a rule of holds and stores, and the first rule that it breaks.
fn first_bad(
    alloc: Global,
    members: u8,
    entries: &[Entry],
) -> Result<Option<RecordFault>, AllocError>
    requires { (n : ℕ) × AreLawful n entries.now }
    ensures { IfOk result (λ r. MatchOption r ((i : ℕ) → ObeysAt members entries.now i) (IsFirstBad members entries.now)) }
{
    let index = Index::of(alloc, entries)?;
    let clocks = Clocks::of(alloc, Causality::HappenedBefore, &index)?;
    let receipts = ReceiptPlaces::of(alloc, entries)?;
    let mut count = 0;
    for (place, entry) in entries.iter().enumerate() {
        if let Some(rule) = broken_rule(members, &index, &clocks, &receipts, place, count) {
            let entry = *entry;
            return Ok(Some(RecordFault { place, entry, rule }));
        }
        if entry.recorded().is_some() {
            count += 1;
        }
    }
    Ok(None)
}

/// The place among the entries of the send or receipt that stands at this place among the sends and receipts.
pub fn event_place(entries: &[Entry], event: usize) -> Option<usize>
    ensures { MatchOption result (length (marks entries.now) ≤ event) (IsEventPlace entries.now event) }
{
    let mut count = 0;
    for (place, entry) in entries.iter().enumerate() {
        if entry.event().is_some() {
            if count == event {
                return Some(place);
            }
            count += 1;
        }
    }
    None
}

/// What the log, in which no member restarts, is refused for, where this is what its sends and receipts are refused for: the place is that
/// among all entries.
fn log_breach(raw: &RawLog, refusal: DumpRefusal, breach: &Breach) -> (DumpRefusal, LogBreach)
    requires refused { RefusesDump (trace_of (parts_of_log raw.now)) refusal }
    requires breach { IsDumpBreach (trace_of (parts_of_log raw.now)) refusal breach.now }
    ensures refused { RefusesPlain (parts_of_log raw.now) result.0 }
    ensures breach { IsBreachBy false (parts_of_log raw.now) result.0 result.1 }
{
    let Breach::Event(fault) = *breach else {
        return (refusal, LogBreach::Trace(*breach));
    };
    let place = event_place(raw.entries.as_slice(), fault.place).unwrap_or(fault.place);
    let fault = EventFault { place, ..fault };
    (
        DumpRefusal::BadEvent(place),
        LogBreach::Trace(Breach::Event(fault)),
    )
}

/// Why the log, in which no member restarts, is refused, if it is.
fn plain_refusal(alloc: Global, raw: &RawLog) -> Option<(DumpRefusal, LogBreach)>
    requires { have_lives raw.now.entries.items ≡ false }
    ensures log { MatchOption result (IsLog (parts_of_log raw.now)) (λ e. RefusesLog (parts_of_log raw.now) e.0) }
    ensures breach { IfSome result (λ e. IsLogBreach (parts_of_log raw.now) e.0 e.1) }
{
    if let Some((refusal, breach)) = trace_refusal(alloc, raw) {
        return Some(log_breach(raw, refusal, &breach));
    }
    match first_untold(alloc, raw.members, raw.entries.as_slice()) {
        Ok(None) => {}
        Ok(Some(fault)) => return Some((
            DumpRefusal::BadEvent(fault.place),
            LogBreach::Control(fault),
        )),
        Err(_) => return Some((DumpRefusal::Memory, LogBreach::Trace(Breach::Memory))),
    }
    match first_bad(alloc, raw.members, raw.entries.as_slice()) {
        Ok(None) => None,
        Ok(Some(fault)) => Some((DumpRefusal::BadEvent(fault.place), LogBreach::Record(fault))),
        Err(_) => Some((DumpRefusal::Memory, LogBreach::Trace(Breach::Memory))),
    }
}

/// Why the log, in which some member restarts, is refused, if it is.
fn lived_refusal(alloc: Global, raw: &RawLog) -> Option<(DumpRefusal, LogBreach)>
    requires { have_lives raw.now.entries.items ≡ true }
    ensures log { MatchOption result (IsLog (parts_of_log raw.now)) (λ e. RefusesLog (parts_of_log raw.now) e.0) }
    ensures breach { IfSome result (λ e. IsLogBreach (parts_of_log raw.now) e.0 e.1) }
{
    let (members, f) = (raw.members, raw.f);
    match group_breach(members, f) {
        Some(GroupRule::Members) => return Some((
            DumpRefusal::BadMembers,
            LogBreach::Trace(Breach::Members { members }),
        )),
        Some(GroupRule::F) => return Some((
            DumpRefusal::BadF,
            LogBreach::Trace(Breach::F { f, members }),
        )),
        None => {}
    }
    match first_life_fault(alloc, members, raw.entries.as_slice()) {
        Ok(None) => {}
        Ok(Some(fault)) => return Some((
            DumpRefusal::BadEvent(fault.place),
            LogBreach::Life(fault),
        )),
        Err(_) => return Some((DumpRefusal::Memory, LogBreach::Trace(Breach::Memory))),
    }
    if let Some(outsider) = raw.strike.outsider(members) {
        return Some((
            DumpRefusal::BadStrike,
            LogBreach::Trace(Breach::Strike(outsider)),
        ));
    }
    match first_bad(alloc, members, raw.entries.as_slice()) {
        Ok(None) => None,
        Ok(Some(fault)) => Some((DumpRefusal::BadEvent(fault.place), LogBreach::Record(fault))),
        Err(_) => Some((DumpRefusal::Memory, LogBreach::Trace(Breach::Memory))),
    }
}

/// Whether some entry is a restart, or a receipt that names a later life.
fn are_lived(entries: &[Entry]) -> bool
    ensures { result ≡ have_lives entries.now }
{
    entries.iter().any(has_life)
}

/// Whether the entry is a restart, or a receipt that names a later life.
fn has_life(entry: &Entry) -> bool
    ensures { result ≡ has_life entry.now }
{
    matches!(*entry, Entry::Restart(_) | Entry::LaterReceipt { .. })
}

/// Why the log is refused, if it is, as `checked_log` says it.
pub(crate) fn refusal(alloc: Global, raw: &RawLog) -> Option<(DumpRefusal, LogBreach)>
    ensures log { MatchOption result (IsLog (parts_of_log raw.now)) (λ e. RefusesLog (parts_of_log raw.now) e.0) }
    ensures breach { IfSome result (λ e. IsLogBreach (parts_of_log raw.now) e.0 e.1) }
{
    if are_lived(raw.entries.as_slice()) {
        lived_refusal(alloc, raw)
    } else {
        plain_refusal(alloc, raw)
    }
}
