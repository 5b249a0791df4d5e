//! The rules of a log with restarts, by a pass.

ghost use Rattle.std.specs.Prelude.{◌≡◌, ◌<◌, ◌≤◌, ◌++◌, ◌∷◌, ◌↔◌, [], ℕ, true, List, IfOk, MatchOption, OnOk, count_by, length};
ghost use Rattle.fbl_trace.specs.Events.{number_of};
ghost use Rattle.fbl_trace.specs.declared.trace.Mark.TheVariants.{Send};
ghost use Rattle.fbl_runs.specs.Entries.{log_of, marks};
ghost use Rattle.fbl_runs.specs.HappenedBefore.{IsAt, at};
ghost use Rattle.fbl_runs.specs.KnownLives.{AreEvents, HasLived};
ghost use Rattle.fbl_runs.specs.LifeRules.{HasFollowed, TakesSend};
ghost use Rattle.fbl_runs.specs.Lives.{life_in, standing};
ghost use Rattle.fbl_runs.specs.Rules.{BreaksEvent, BreaksLife, BreaksRestart, FollowsAt, IsDue, IsFirstLifeFault, IsReached, IsSentInLife, IsTaken, MayFollow, MayHappen, MayRestart, MayTake, is_receipt, is_send, next_in};
ghost use Rattle.fbl_runs.specs.declared.entry.Entry.TheVariants.{Event};

use crate::control::{ControlMessages, end_outside};
use crate::entry::{Entry, Restart};
use crate::fault::{LifeFault, LifeRule};
use crate::lives::{Lives, StandingEvent};
use fbl_trace::{Determinant, MOST_EVENTS, MOST_MEMBERS, Mark, Member, Outsider};
use std::alloc::{AllocError, Global};

/// The most restarts that a log may have.
pub const MOST_RESTARTS: u32 = 8;

/// The most lives that members have in a log: the first one of each, and one for each restart.
const MOST_LIVES: usize = MOST_MEMBERS as usize + MOST_RESTARTS as usize;

/// What a pass over the entries of a log with restarts knows of those that it has seen.
#[derive(Drop)]
pub struct LifeRules {
    /// The members' lives.
    lives: Lives,
    /// The control messages.
    told: ControlMessages,
    /// How many sends and receipts there are.
    count: usize,
}

/// Whether the entry is a send.
fn is_send(entry: &Entry) -> bool
    ensures { result ≡ is_send entry.now }
{
    matches!(*entry, Entry::Event(Mark::Send { .. }))
}

/// Whether the entry is a receipt.
fn is_receipt(entry: &Entry) -> bool
    ensures { result ≡ is_receipt entry.now }
{
    matches!(
        *entry,
        Entry::Event(Mark::Receipt { .. }) | Entry::LaterReceipt { .. }
    )
}

/// How many of the events are sends.
fn sends_among(events: &[StandingEvent]) -> usize
    ensures { result ≡ count_by (λ e. is_send e.entry) events.now }
{
    let mut count = 0;
    for event in events {
        if is_send(&event.entry) {
            count += 1;
        }
    }
    count
}

/// How many of the events are receipts.
fn receipts_among(events: &[StandingEvent]) -> usize
    ensures { result ≡ count_by (λ e. is_receipt e.entry) events.now }
{
    let mut count = 0;
    for event in events {
        if is_receipt(&event.entry) {
            count += 1;
        }
    }
    count
}

/// The member's events that stand.
fn standing(lives: &Lives, member: Member) -> &[StandingEvent]
    ensures { (before : _) → HasLived before lives.now
        → AreEvents (log_of before member) (standing (log_of before member)) result.now }
{
    lives.logs[member.number() as usize].standing.as_slice()
}

/// The member's life.
fn life_now(lives: &Lives, member: Member) -> u32
    ensures { (before : _) → HasLived before lives.now → result ≡ life_in (log_of before member) }
{
    match lives.lives.get(lives.logs[member.number() as usize].life) {
        Some(life) => life.life,
        None => 0,
    }
}

/// Which number a send or receipt of the event's member has next.
fn next_number(lives: &Lives, event: Mark) -> usize
    ensures { (before : _) → HasLived before lives.now → length (marks before) ≤ 8192 → result ≡ next_in (log_of before) event }
{
    let count = match event {
        Mark::Send { from, .. } => sends_among(standing(lives, from)),
        Mark::Receipt { to, .. } => receipts_among(standing(lives, to)),
    };
    count.saturating_add(1)
}

/// The event's number.
fn number(event: Mark) -> u32
    ensures { result ≡ number_of event }
{
    match event {
        Mark::Send { ssn, .. } => ssn,
        Mark::Receipt { rsn, .. } => rsn,
    }
}

/// The number, which is small, in 32 bits.
fn small(number: usize) -> u32
    ensures { number ≤ 8193 → result ≡ number }
{
    u32::try_from(number).unwrap_or(u32::MAX)
}

/// Whether the entry is a receipt of the message that the member's entry with the number, `send`, sends with this send number, in the life
/// that the receipt names.
fn takes(lives: &Lives, entry: &Entry, from: Member, ssn: u32, to: Member, send: usize) -> bool
    ensures { (before : _) → HasLived before lives.now → IsAt (log_of before) (at from send) (Event (Send from ssn to))
        → (result ≡ true) ↔ TakesSend (log_of before) from send entry.now }
{
    let Some(receipt) = entry.receipt() else {
        return false;
    };
    if receipt.from != from || receipt.ssn != ssn || receipt.to != to {
        return false;
    }
    match lives.send(from, ssn, to, entry.life()) {
        Some(other) => other == send,
        None => false,
    }
}

/// Whether a receipt of its receiver that stands takes the send, the member's entry with the number.
fn is_taken(lives: &Lives, from: Member, ssn: u32, to: Member, send: usize) -> bool
    ensures { (before : _) → HasLived before lives.now → IsAt (log_of before) (at from send) (Event (Send from ssn to))
        → (result ≡ true) ↔ IsTaken (log_of before) from to send }
{
    for event in standing(lives, to) {
        if takes(lives, &event.entry, from, ssn, to, send) {
            return true;
        }
    }
    false
}

/// The first number that is greater than those of the messages from the one member that receipts of the other that stand take.
fn first_unreached(lives: &Lives, from: Member, to: Member) -> usize
    ensures { (before : _) → HasLived before lives.now → (ssn : ℕ) → IsReached (log_of before) from to ssn ↔ (ssn < result) }
{
    let mut end = 0;
    for event in standing(lives, to) {
        if let Some(receipt) = event.entry.receipt() {
            if receipt.from == from {
                end = end.max(receipt.ssn as usize + 1);
            }
        }
    }
    end
}

/// Whether the member may take the message that its sender sent, or kept, in the life.
fn is_due(lives: &Lives, from: Member, ssn: u32, to: Member, life: u32) -> bool
    ensures { (before : _) → HasLived before lives.now → (result ≡ true) ↔ IsDue (log_of before) from ssn to life }
{
    let Some(send) = lives.send(from, ssn, to, life) else {
        return false;
    };
    if is_taken(lives, from, ssn, to, send) {
        return false;
    }
    let end = first_unreached(lives, from, to);
    for number in end..ssn as usize {
        if lives.send(from, number as u32, to, life).is_some() {
            return false;
        }
    }
    true
}

/// Whether the event, if it is a receipt, takes what its member may take.
fn may_take(lives: &Lives, event: Mark, life: u32) -> bool
    ensures { (before : _) → HasLived before lives.now → (result ≡ true) ↔ MayTake (log_of before) event life }
{
    match event {
        Mark::Send { .. } => true,
        Mark::Receipt { to, from, ssn, .. } => is_due(lives, from, ssn, to, life),
    }
}

impl LifeRules {
    /// What a pass knows before the first entry.
    pub fn new(alloc: Global) -> Result<LifeRules, AllocError>
        ensures { IfOk result (HasFollowed []) }
    {
        Ok(LifeRules {
            lives: Lives::new(alloc)?,
            told: ControlMessages::new(alloc),
            count: 0,
        })
    }

    /// The first rule that the send or receipt, which names the life, breaks in a group of `n` as the next entry.
    fn broken_event(&self, n: u8, event: &Mark, life: u32) -> Option<LifeRule>
        ensures { (before : _) → HasFollowed before self.now
            → MatchOption result (MayHappen n before event.now life) (BreaksEvent n before event.now life) }
    {
        if self.count >= MOST_EVENTS as usize {
            return Some(LifeRule::TooMany);
        }
        let from = event.source();
        let to = event.destination();
        if let Some(outsider) = end_outside(n, from, to) {
            return Some(LifeRule::Outside(outsider));
        }
        if from == to {
            return Some(LifeRule::ToItself);
        }
        let next = next_number(&self.lives, *event);
        if number(*event) as usize != next {
            return Some(LifeRule::WrongNumber(small(next)));
        }
        if !may_take(&self.lives, *event, life) {
            return Some(LifeRule::NotDue);
        }
        None
    }

    /// The first rule that the restart, the next entry, breaks in a group of `n`.
    fn broken_restart(&self, n: u8, restart: Restart) -> Option<LifeRule>
        ensures { (before : _) → HasFollowed before self.now
            → MatchOption result (MayRestart n before restart) (BreaksRestart n before restart) }
    {
        let member = restart.member;
        if self.lives.lives.len() >= MOST_LIVES {
            return Some(LifeRule::TooManyRestarts);
        }
        if member.number() >= n {
            return Some(LifeRule::Outside(Outsider { member, members: n }));
        }
        let life = life_now(&self.lives, member);
        if restart.life <= life {
            return Some(LifeRule::NotLater(life));
        }
        let standing = standing(&self.lives, member);
        let kept = restart.receipts as usize + restart.sends as usize;
        if standing.len() < kept {
            return Some(LifeRule::Stood(small(standing.len())));
        }
        if receipts_among(&standing[..kept]) != restart.receipts as usize {
            return Some(LifeRule::OtherReceipts);
        }
        None
    }

    /// The first rule that the entry, the next one, breaks in a group of `n`.
    pub fn broken_rule(&self, n: u8, entry: &Entry) -> Option<LifeRule>
        ensures { (before : _) → HasFollowed before self.now
            → MatchOption result (MayFollow n before entry.now) (BreaksLife n before entry.now) }
    {
        if let Some(event) = entry.event() {
            return self.broken_event(n, &event, entry.life());
        }
        if let Some(restart) = entry.restart() {
            return self.broken_restart(n, restart);
        }
        match self.told.broken_rule(n, entry) {
            Some(rule) => Some(LifeRule::ControlMessages(rule)),
            None => None,
        }
    }

    /// Whether the message was sent to the member, and stood in the life of its sender.
    pub fn is_sent(&self, message: Determinant, life: u32) -> bool
        ensures { (before : _) → HasFollowed before self.now
            → (result ≡ true) ↔ ((k : ℕ) × IsSentInLife (log_of before) message.from message.ssn message.to life k) }
    {
        self.lives
            .send(message.from, message.ssn, message.to, life)
            .is_some()
    }

    /// Takes in the entry, the next one, which stands at the place and breaks no rule.
    pub fn add(&mut self, entry: &Entry, place: usize) -> Result<(), AllocError>
        ensures { OnOk result
            ((n : _) (before : List _) → HasFollowed before self.old → MayFollow n before entry.now → place ≡ length before
            → HasFollowed (before ++ entry.now ∷ []) self.new) }
    {
        self.lives.add(entry, place)?;
        self.told.add(entry)?;
        if entry.event().is_some() {
            self.count = self.count.saturating_add(1);
        }
        Ok(())
    }
}

/// The first entry that breaks a rule of a log with restarts in a group of `n`, and the first rule that it breaks.
pub(crate) fn first_life_fault(
    alloc: Global,
    n: u8,
    entries: &[Entry],
) -> Result<Option<LifeFault>, AllocError>
    ensures { IfOk result (λ r. MatchOption r ((i : ℕ) → FollowsAt n entries.now i) (IsFirstLifeFault n entries.now)) }
{
    let mut known = LifeRules::new(alloc)?;
    for (place, entry) in entries.iter().enumerate() {
        if let Some(rule) = known.broken_rule(n, entry) {
            let entry = *entry;
            return Ok(Some(LifeFault { place, entry, rule }));
        }
        known.add(entry, place)?;
    }
    Ok(None)
}
