//! Dumps: recorded traces that obey the rules, and the check that makes them.
//!
//! A dump need not come from a group. Of a refused one the check says which rule it breaks.

mod raw_dump;
mod refusal;

ghost use Rattle.std.specs.Prelude.{◌≡◌, ◌≤◌, ℕ, IfOk, IfErr, IfSome, MatchOption};
ghost use Rattle.std.specs.HashSet as hash_set;
ghost use Rattle.fbl_trace.specs.Breaches.{IsEventFault};
ghost use Rattle.fbl_trace.specs.Configs.{IsFirstBreach};
ghost use Rattle.fbl_trace.specs.Events.{same_determinant};
ghost use Rattle.fbl_trace.specs.Rules.{ObeysAt, WellFormed};
ghost use Rattle.fbl_trace.specs.Dumps.{FitsPair, HeldAt, IsDump, RefusesDump, is_received, parts_of, BreaksPair, IsDumpBreach, IsPairFault};

use crate::config::{GroupRule, group_breach};
pub use crate::dump::raw_dump::RawDump;
pub use crate::dump::refusal::DumpRefusal;
use crate::fault::{Breach, EventFault, Outsider, PairFault, PairRule};
use crate::limits::MOST_PAIRS;
use crate::member::Member;
use crate::member_set::MemberSet;
use crate::rules::Counts;
use crate::trace::{Determinant, Mark};
use std::alloc::{AllocError, Global};
use std::collections::HashSet;
use std::hash::{BuildHasherDefault, FoldHasher};
use std::marker::Model;

/// A dump that obeys the rules. Contracts see its five parts.
#[derive(Drop)]
pub struct Dump {
    raw: RawDump,
}

impl Model for Dump {
    ghost use Rattle.fbl_trace.specs.Dumps.{Parts, IsDump};

    ghost Value = { Parts };

    ghost use Rattle.std.specs.Coded.{codes, coded_ℕ};
    ghost use Rattle.std.specs.Ordering.{nat_cmp};
    ghost use Rattle.std.specs.FinSet as set;
    ghost use Rattle.fbl_trace.specs.contracts.trace.Mark as mark;
    ghost use Rattle.fbl_trace.specs.contracts.trace.Determinant as determinant;

    ghost coded = { Prim.hlevel (codes, mark.the_row.coded, determinant.the_row.coded, set.code {R = nat_cmp} coded_ℕ) };

    ghost use Rattle.fbl_trace.specs.Dumps.{parts_of};

    ghost view = { λ d. parts_of d.raw };

    ghost invariant = { λ d. IsDump (parts_of d.raw) };
}

impl Dump {
    /// The dump of these parts, for a caller who has shown that they obey the rules: nothing is tested, and no memory is taken.
    pub fn lawful(raw: RawDump) -> Dump
        requires { IsDump (parts_of raw) }
        ensures { result ≡ parts_of raw }
    {
        Dump { raw }
    }

    /// How many members the group had.
    pub fn members(&self) -> u8
        ensures { result ≡ self.now.members }
    {
        self.raw.members
    }

    /// How many of them might be lost at once.
    pub fn f(&self) -> u8
        ensures { result ≡ self.now.f }
    {
        self.raw.f
    }

    /// The events, in order.
    pub fn events(&self) -> &[Mark]
        ensures events { result.now ≡ self.now.events }
        ensures rules { IsDump self.now }
    {
        self.raw.events.as_slice()
    }

    /// Who held which determinants, in the order in which the pairs were given.
    pub fn held(&self) -> &[(Member, Determinant)]
        ensures { result.now ≡ self.now.held }
    {
        self.raw.held.as_slice()
    }

    /// The strike set: the members that are taken to be lost.
    pub fn strike(&self) -> MemberSet
        ensures { result ≡ self.now.strike }
    {
        self.raw.strike
    }
}

/// Determinants by their hashes.
type DeterminantSet = HashSet<Determinant, BuildHasherDefault<FoldHasher>>;

/// The first event that breaks a rule, and the first rule that it breaks.
fn first_bad_event(alloc: Global, n: u8, events: &[Mark]) -> Result<Option<EventFault>, AllocError>
    requires { n ≤ 16 }
    ensures place { IfOk result
        (λ r. MatchOption r (WellFormed n events.now)
        (λ fault. IsFirstBreach (ObeysAt n events.now) fault.place)) }
    ensures fault { IfOk result (λ r. IfSome r (IsEventFault n events.now)) }
{
    let mut counts = Counts::new(alloc)?;
    for (place, event) in events.iter().enumerate() {
        let before = &events[..place];
        if let Some(rule) = counts.broken_rule(n, before, event) {
            let event = *event;
            return Ok(Some(EventFault { place, event, rule }));
        }
        counts.add(n, before, event)?;
    }
    Ok(None)
}

/// The determinants of the receipts among the events.
fn receipts(alloc: Global, events: &[Mark]) -> Result<DeterminantSet, AllocError>
    ensures { IfOk result (λ s. (d : _) → hash_set.contains same_determinant s d ≡ is_received events.now d) }
{
    let mut receipts = HashSet::new(alloc);
    for event in events {
        if let Some(determinant) = event.determinant() {
            receipts.insert(determinant)?;
        }
    }
    Ok(receipts)
}

/// The first rule that the pair at `place` breaks, where these are the determinants of the receipts.
fn broken_rule(
    raw: &RawDump,
    receipts: &DeterminantSet,
    place: usize,
    pair: &(Member, Determinant),
) -> Option<PairRule>
    requires { (d : _) → hash_set.contains same_determinant receipts.now d ≡ is_received raw.now.events.items d }
    ensures { MatchOption result
        (FitsPair raw.now.members raw.now.events.items place pair.now.0 pair.now.1)
        (BreaksPair raw.now.members raw.now.events.items place pair.now.0 pair.now.1) }
{
    let members = raw.members;
    let (member, determinant) = *pair;
    if place >= MOST_PAIRS {
        return Some(PairRule::TooMany);
    }
    if member.number() >= members {
        return Some(PairRule::Outside(Outsider { member, members }));
    }
    if !receipts.contains(&determinant) {
        return Some(PairRule::NoReceipt(determinant.receipt()));
    }
    None
}

/// The first pair that breaks a rule, and the first rule that it breaks.
fn first_bad_pair(alloc: Global, raw: &RawDump) -> Result<Option<PairFault>, AllocError>
    ensures place { IfOk result
        (λ r. MatchOption r ((i : ℕ) → HeldAt (parts_of raw.now) i)
        (λ fault. IsFirstBreach (HeldAt (parts_of raw.now)) fault.place)) }
    ensures fault { IfOk result (λ r. IfSome r (IsPairFault (parts_of raw.now))) }
{
    let receipts = receipts(alloc, raw.events.as_slice())?;
    for (place, pair) in raw.held.iter().enumerate() {
        if let Some(rule) = broken_rule(raw, &receipts, place, pair) {
            let (holder, determinant) = *pair;
            return Ok(Some(PairFault {
                place,
                holder,
                determinant,
                rule,
            }));
        }
    }
    Ok(None)
}

/// The dump, if it obeys the rules. A refused one is dropped. Where several refusals hold, the first in the order of
/// `DumpRefusal` is answered, but for `Memory`, which may come once the members and `f` are allowed: the indexes that the
/// check builds want it then. The time taken is linear in the events and the held pairs.
pub fn check_dump(alloc: Global, raw: RawDump) -> Result<Dump, DumpRefusal>
    ensures accepted { IfOk result (λ d. d ≡ parts_of raw) }
    ensures rules { IfOk result IsDump }
    ensures refused { IfErr result (RefusesDump (parts_of raw)) }
{
    match checked_dump(alloc, raw) {
        Ok(dump) => Ok(dump),
        Err((refusal, _)) => Err(refusal),
    }
}

/// The dump, as `check_dump` answers it, or its refusal with what it is refused for.
pub fn checked_dump(alloc: Global, raw: RawDump) -> Result<Dump, (DumpRefusal, Breach)>
    ensures accepted { IfOk result (λ d. d ≡ parts_of raw) }
    ensures rules { IfOk result IsDump }
    ensures refused { IfErr result (λ e. RefusesDump (parts_of raw) e.0) }
    ensures breach { IfErr result (λ e. IsDumpBreach (parts_of raw) e.0 e.1) }
{
    match dump_breach(alloc, &raw) {
        None => Ok(Dump { raw }),
        Some(refused) => Err(refused),
    }
}

/// What the dump is refused for, if it is: the refusal, and the rule that it breaks.
fn dump_breach(alloc: Global, raw: &RawDump) -> Option<(DumpRefusal, Breach)>
    ensures refused { MatchOption result (IsDump (parts_of raw.now)) (λ e. RefusesDump (parts_of raw.now) e.0) }
    ensures breach { IfSome result (λ e. IsDumpBreach (parts_of raw.now) e.0 e.1) }
{
    let (members, f) = (raw.members, raw.f);
    match group_breach(members, f) {
        Some(GroupRule::Members) => return Some((
            DumpRefusal::BadMembers,
            Breach::Members { members },
        )),
        Some(GroupRule::F) => return Some((DumpRefusal::BadF, Breach::F { f, members })),
        None => {}
    }
    match first_bad_event(alloc, members, raw.events.as_slice()) {
        Ok(None) => {}
        Ok(Some(fault)) => return Some((DumpRefusal::BadEvent(fault.place), Breach::Event(fault))),
        Err(_) => return Some((DumpRefusal::Memory, Breach::Memory)),
    }
    match first_bad_pair(alloc, raw) {
        Ok(None) => {}
        Ok(Some(fault)) => return Some((DumpRefusal::BadHeld(fault.place), Breach::Held(fault))),
        Err(_) => return Some((DumpRefusal::Memory, Breach::Memory)),
    }
    let outsider = raw.strike.outsider(members)?;
    Some((DumpRefusal::BadStrike, Breach::Strike(outsider)))
}
