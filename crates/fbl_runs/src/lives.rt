//! The lives of members, as a pass over entries knows them.

ghost use Rattle.std.specs.Prelude.{◌≡◌, ◌<◌, ◌≤◌, ◌+◌, ◌++◌, ◌∷◌, ◌↔◌, [], ℕ, true, List, IfOk, MatchOption, OnOk, Option, Some, None, filter, length, slice_get, slice_set, take};
ghost use Rattle.fbl_runs.specs.Clocks.{StandsAt};
ghost use Rattle.fbl_runs.specs.Entries.{entry_member, log_of, mark_in, restart_in};
ghost use Rattle.fbl_runs.specs.HappenedBefore.{at};
ghost use Rattle.fbl_runs.specs.Rules.{IsLawful, IsSentInLife, is_send};

use crate::control::ControlMessage;
use crate::entry::{Entry, Restart};
use fbl_trace::{Mark, Member};
use std::alloc::{AllocError, Global};
use std::collections::HashMap;
use std::hash::{BuildHasherDefault, FoldHasher};

/// A send or receipt of a member's log that stands, or stood at the end of a life.
#[derive(Clone, Copy)]
pub(crate) struct StandingEvent {
    /// How many entries stand before it in the log.
    pub(crate) number: usize,
    pub(crate) entry: Entry,
}

/// A life of a member.
#[derive(Drop)]
pub(crate) struct Life {
    pub(crate) member: Member,
    /// Which of the member's lives.
    pub(crate) life: u32,
    /// The number, in the member's log, of the restart that begins it. None begins the first.
    pub(crate) restart: Option<usize>,
    /// The sends that stood at its end, or stand now, in order: the send with the send number 1 is the first.
    pub(crate) sends: Vec<StandingEvent>,
}

/// What a pass knows of a member's log.
#[derive(Drop)]
pub(crate) struct KnownLog {
    /// The places of its entries.
    pub(crate) places: Vec<usize>,
    /// The events that stand, in order.
    pub(crate) standing: Vec<StandingEvent>,
    /// The number of the member's life among those of all members.
    pub(crate) life: usize,
}

/// What a pass over entries knows of the members' lives.
#[derive(Drop)]
pub(crate) struct Lives {
    /// The lives of all members, at most 24: the first one of each, at its member's number, and one for each restart.
    pub(crate) lives: Vec<Life>,
    /// For each member's number what is known of its log.
    pub(crate) logs: Vec<KnownLog>,
    /// The places of the tells.
    pub(crate) tells: HashMap<ControlMessage, usize, BuildHasherDefault<FoldHasher>>,
    ghost room: { length logs.items ≡ 16 },
}

/// Whether the entry is a send.
fn is_send(entry: &Entry) -> bool
    ensures { result ≡ is_send entry.now }
{
    matches!(*entry, Entry::Event(Mark::Send { .. }))
}

impl StandingEvent {
    ghost use Rattle.fbl_runs.specs.KnownLives.{sent_to};

    /// Whom it sends a message to, if it is a send.
    pub(crate) fn receiver(&self) -> Option<Member>
        ensures { result ≡ sent_to self.now.entry }
    {
        match self.entry {
            Entry::Event(Mark::Send { to, .. }) => Some(to),
            _ => None,
        }
    }
}

impl KnownLog {
    ghost use Rattle.fbl_runs.specs.KnownLives.{events_after};

    /// The sends that stand, in order.
    fn sends(&self, alloc: Global) -> Result<Vec<StandingEvent>, AllocError>
        ensures { IfOk result (λ sends. sends.items ≡ filter (λ e. is_send e.entry) self.now.standing.items) }
    {
        let mut sends = Vec::new(alloc);
        for event in &self.standing {
            if is_send(&event.entry) {
                sends.push(*event)?;
            }
        }
        Ok(sends)
    }

    /// Takes in the member's next entry, which stands at the place, and answers its number.
    fn add(&mut self, entry: &Entry, place: usize) -> Result<usize, AllocError>
        ensures number { IfOk result (λ number. number ≡ length self.old.places.items) }
        ensures places { OnOk result (self.new.places.items ≡ self.old.places.items ++ place ∷ []) }
        ensures standing { OnOk result
            (self.new.standing.items
            ≡ events_after (restart_in entry.now) (mark_in entry.now) entry.now (length self.old.places.items) self.old.standing.items) }
        ensures life { OnOk result (self.new.life ≡ self.old.life) }
    {
        let number = self.places.len();
        self.places.push(place)?;
        if let Some(restart) = entry.restart() {
            self.standing
                .truncate(restart.receipts as usize + restart.sends as usize);
        } else if entry.event().is_some() {
            let entry = *entry;
            self.standing.push(StandingEvent { number, entry })?;
        }
        Ok(number)
    }
}

impl Lives {
    ghost use Rattle.fbl_runs.specs.KnownLives.{HasLived, IsLifeAt, IsTellPlace, sent_now};

    /// What a pass knows before the first entry.
    pub(crate) fn new(alloc: Global) -> Result<Lives, AllocError>
        ensures { IfOk result (HasLived []) }
    {
        let mut lives = Vec::new(alloc);
        let mut logs = Vec::new(alloc);
        for number in 0..16u8 {
            lives.push(Life {
                member: Member::at(number),
                life: 0,
                restart: None,
                sends: Vec::new(alloc),
            })?;
            logs.push(KnownLog {
                places: Vec::new(alloc),
                standing: Vec::new(alloc),
                life: number as usize,
            })?;
        }
        Ok(Lives {
            lives,
            logs,
            tells: HashMap::new(alloc),
        })
    }

    /// Takes in the entry, the next one, which stands at the place.
    pub(crate) fn add(&mut self, entry: &Entry, place: usize) -> Result<(), AllocError>
        ensures lived { OnOk result
            ((n : _) (before : List _) → HasLived before self.old → IsLawful n before entry.now → place ≡ length before
            → HasLived (before ++ entry.now ∷ []) self.new) }
        ensures kept { OnOk result
            ((n : _) (before : List _) → HasLived before self.old → IsLawful n before entry.now → place ≡ length before
            → (number member life : ℕ) → IsLifeAt self.old.lives.items number member life
            → IsLifeAt self.new.lives.items number member life) }
    {
        let at = entry.member().number() as usize;
        let number = self.logs[at].add(entry, place)?;
        if let Some(restart) = entry.restart() {
            self.begin(restart, number)?;
            return Ok(());
        }
        match *entry {
            Entry::Event(_) => self.note(entry, number)?,
            Entry::Tell(message) => {
                self.tells.insert(message, place)?;
            }
            _ => (),
        }
        Ok(())
    }

    /// Takes in the entry, if it is a send, in its member's life.
    fn note(&mut self, entry: &Entry, number: usize) -> Result<(), AllocError>
        ensures lives { OnOk result
            ((log : _) (life : _) → slice_get self.old.logs.items (entry_member entry.now) ≡ Some log
            → slice_get self.old.lives.items log.life ≡ Some life
            → (sends : _) × (sends.items ≡ life.sends.items ++ sent_now entry.now number)
            × (self.new.lives.items ≡ slice_set self.old.lives.items log.life (record life { sends = sends }))) }
        ensures rest { OnOk result ((self.new.logs ≡ self.old.logs) × (self.new.tells ≡ self.old.tells)) }
    {
        let life = self.logs[entry.member().number() as usize].life;
        if is_send(entry) {
            if let Some(life) = self.lives.get_mut(life) {
                let entry = *entry;
                life.sends.push(StandingEvent { number, entry })?;
            }
        }
        Ok(())
    }

    /// Begins the life with the restart, which has the number in its member's log, and is taken in there.
    fn begin(&mut self, restart: Restart, number: usize) -> Result<(), AllocError>
        ensures lives { OnOk result
            ((log : _) → slice_get self.old.logs.items restart.member ≡ Some log
            → (sends : _) × (sends.items ≡ filter (λ e. is_send e.entry) log.standing.items)
            × (self.new.lives.items ≡ self.old.lives.items
            ++ record { member = restart.member; life = restart.life; restart = Some number; sends = sends } ∷ [])
            × (self.new.logs.items ≡ slice_set self.old.logs.items restart.member (record log { life = length self.old.lives.items }))) }
        ensures tells { OnOk result (self.new.tells ≡ self.old.tells) }
    {
        let at = restart.member.number() as usize;
        let sends = self.logs[at].sends(*self.lives.allocator())?;
        self.logs[at].life = self.lives.len();
        self.lives.push(Life {
            member: restart.member,
            life: restart.life,
            restart: Some(number),
            sends,
        })?;
        Ok(())
    }

    /// Whether the member's life has the number among those of all members.
    fn is_life(&self, number: usize, member: Member, life: u32) -> bool
        ensures { (result ≡ true) ↔ IsLifeAt self.now.lives.items number member life }
    {
        match self.lives.get(number) {
            Some(other) => other.member == member && other.life == life,
            None => false,
        }
    }

    /// The number of the member's life among those of all members, if it began. The one that lasts is tried first.
    pub(crate) fn life_number(&self, member: Member, life: u32) -> Option<usize>
        ensures { MatchOption result ((number : ℕ) → ¬ (IsLifeAt self.now.lives.items number member life))
            (λ number. IsLifeAt self.now.lives.items number member life) }
    {
        let last = self.logs[member.number() as usize].life;
        if self.is_life(last, member, life) {
            return Some(last);
        }
        for number in 0..self.lives.len() {
            if self.is_life(number, member, life) {
                return Some(number);
            }
        }
        None
    }

    /// The number, in its sender's log, of the send of the message to the member that stands in the life, if there is one.
    pub(crate) fn send(&self, from: Member, ssn: u32, to: Member, life: u32) -> Option<usize>
        ensures { (before : _) → HasLived before self.now
            → MatchOption result ((k : ℕ) → ¬ (IsSentInLife (log_of before) from ssn to life k))
            (λ k. IsSentInLife (log_of before) from ssn to life k) }
    {
        let life = self.lives.get(self.life_number(from, life)?)?;
        let send = life.sends.get((ssn as usize).checked_sub(1)?)?;
        if send.receiver()? == to {
            Some(send.number)
        } else {
            None
        }
    }

    /// The place of the member's entry with the number, if there is one.
    pub(crate) fn place(&self, member: Member, number: usize) -> Option<usize>
        ensures { (before : _) → HasLived before self.now
            → MatchOption result (length (log_of before member) ≤ number) (λ p. StandsAt before p (at member number)) }
    {
        self.logs[member.number() as usize]
            .places
            .get(number)
            .copied()
    }

    /// The place of the tell of the control message, if there is one.
    pub(crate) fn tell(&self, message: &ControlMessage) -> Option<usize>
        ensures { (before : _) → HasLived before self.now → IsTellPlace before message.now result }
    {
        self.tells.get(message).copied()
    }
}
