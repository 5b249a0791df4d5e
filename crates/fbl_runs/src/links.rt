//! What leads to each entry of a run at once.

ghost use Rattle.std.specs.Prelude.{◌≡◌, ◌≢◌, ◌<◌, ◌≤◌, ◌+◌, ◌-◌, ◌++◌, ◌∷◌, [], ℕ, List, IfOk, MatchOption, None, OnOk, Some, length, slice_get, take};
ghost use Rattle.std.specs.List.{Contains};
ghost use Rattle.fbl_runs.specs.Clocks.{StandsAt};
ghost use Rattle.fbl_runs.specs.Entries.{entry_member, log_of, named_life, receipt_in};
ghost use Rattle.fbl_runs.specs.HappenedBefore.{at};
ghost use Rattle.fbl_runs.specs.KnownLives.{HasLived, IsBeginning, IsNewLink, IsTellPlace};
ghost use Rattle.fbl_runs.specs.declared.entry.Entry.TheVariants.{Told};
ghost use Rattle.fbl_runs.specs.Rules.{AreLawful, IsSentInLife};

use crate::entry::Entry;
use crate::lives::{KnownLog, Lives};
use std::alloc::{AllocError, Global};

/// What leads to an entry at once: the places, from 0, of entries before it.
#[derive(Clone, Copy)]
pub struct Link {
    /// How many entries stand before it in its member's log.
    pub number: usize,
    /// The number, below 24, of its member's life among the lives of all members.
    pub life: u8,
    /// The entry before it in its member's log.
    pub previous: Option<usize>,
    /// The last entry of its member that stood when it came. Of a restart it is the last one that is kept.
    pub stood: Option<usize>,
    /// The send whose message it takes, or the tell that it is told.
    pub message: Option<usize>,
    /// The restart that begins the life of its sender that it names, if it is a receipt and names a later one.
    pub begins: Option<usize>,
    /// The restart, behind it, that undoes it.
    pub undone: Option<usize>,
}

/// What leads to each of the first entries of a run at once, by their places.
#[derive(Drop)]
pub(crate) struct Links {
    pub(crate) links: Vec<Link>,
}

/// The place of what brings in a message with the entry, if one comes in.
fn message(lives: &Lives, entry: &Entry) -> Option<usize>
    ensures told { (before : _) (m : _) → HasLived before lives.now → entry.now ≡ Told m → IsTellPlace before m result }
    ensures taken { (before : _) (d : _) → HasLived before lives.now → receipt_in entry.now ≡ Some d
        → MatchOption result ((k : ℕ) → ¬ (IsSentInLife (log_of before) d.from d.ssn d.to (named_life entry.now) k))
        (λ place. (k : ℕ) × IsSentInLife (log_of before) d.from d.ssn d.to (named_life entry.now) k
        × StandsAt before place (at d.from k)) }
    ensures other { ((m : _) → entry.now ≢ Told m) → receipt_in entry.now ≡ None → result ≡ None }
{
    match *entry {
        Entry::Told(message) => lives.tell(&message),
        _ => {
            let receipt = entry.receipt()?;
            let send = lives.send(receipt.from, receipt.ssn, receipt.to, entry.life())?;
            lives.place(receipt.from, send)
        }
    }
}

/// The place of the restart that begins the life that the entry names, if it is a receipt and a restart begins it.
fn beginning(lives: &Lives, entry: &Entry) -> Option<usize>
    ensures receipt { (before : _) (d : _) → HasLived before lives.now → receipt_in entry.now ≡ Some d
        → IsBeginning before d.from (named_life entry.now) result }
    ensures other { receipt_in entry.now ≡ None → result ≡ None }
{
    let receipt = entry.receipt()?;
    let life = lives.life_number(receipt.from, entry.life())?;
    let restart = lives.lives.get(life)?.restart?;
    lives.place(receipt.from, restart)
}

/// The place of the entry before the last one of the log.
fn previous(log: &KnownLog) -> Option<usize>
    ensures { MatchOption result (length log.now.places.items < 2)
        (λ place. (2 ≤ length log.now.places.items)
        × (slice_get log.now.places.items (length log.now.places.items - 2) ≡ Some place)) }
{
    let number = log.places.len().checked_sub(2)?;
    log.places.get(number).copied()
}

/// The place of the last event that stands in the log.
fn last_standing(log: &KnownLog) -> Option<usize>
    ensures { ((i : ℕ) (e : _) → slice_get log.now.standing.items i ≡ Some e → e.number < length log.now.places.items)
        → MatchOption result (length log.now.standing.items ≡ 0)
        (λ place. (i : ℕ) × (e : _) × (length log.now.standing.items ≡ i + 1) × (slice_get log.now.standing.items i ≡ Some e)
        × (slice_get log.now.places.items e.number ≡ Some place)) }
{
    let event = log.standing.last()?;
    log.places.get(event.number).copied()
}

/// What leads to the entry at once: the last one that the lives have.
fn link_to(lives: &Lives, entry: &Entry) -> Link
    requires { (before : List _) × HasLived before lives.now × (1 ≤ length (log_of before (entry_member entry.now))) }
    ensures new { (n : _) (entries : _) (place : _) (j : _) → AreLawful n entries → StandsAt entries place j
        → slice_get entries place ≡ Some entry.now
        → HasLived (take (place + 1) entries) lives.now → IsNewLink entries lives.now.lives.items j result }
    ensures undone { result.undone ≡ None }
{
    let log = &lives.logs[entry.member().number() as usize];
    let previous = previous(log);
    let stood = if entry.restart().is_some() {
        last_standing(log)
    } else {
        previous
    };
    Link {
        number: log.places.len() - 1,
        life: log.life as u8,
        previous,
        stood,
        message: message(lives, entry),
        begins: beginning(lives, entry),
        undone: None,
    }
}

impl Links {
    ghost use Rattle.fbl_runs.specs.Links.{AreChanged, AreLinks, IsPlaceOfEvent, kept, undone_at};

    /// Those of the entries, and what the pass over all of them knows of the members' lives. The time taken is that of the entries, by one
    /// more than the restarts.
    pub(crate) fn of(alloc: Global, entries: &[Entry]) -> Result<(Links, Lives), AllocError>
        requires { (n : ℕ) × AreLawful n entries.now }
        ensures { IfOk result (λ found. AreLinks entries.now found.0.links.items × HasLived entries.now found.1) }
    {
        let mut lives = Lives::new(alloc)?;
        let mut links = Links {
            links: Vec::with_capacity(alloc, entries.len())?,
        };
        for (place, entry) in entries.iter().enumerate() {
            lives.add(entry, place)?;
            let log = &lives.logs[entry.member().number() as usize];
            if entry.restart().is_some() {
                links.undo(log, place);
                links.keep(log);
            }
            links.links.push(link_to(&lives, entry))?;
        }
        Ok((links, lives))
    }

    /// Notes that the restart at the place undoes the entries of the log, but for those that were undone before.
    fn undo(&mut self, log: &KnownLog, place: usize)
        ensures { AreChanged (λ p. Contains log.now.places.items p) (undone_at place) self.old.links.items self.new.links.items }
    {
        for entry in &log.places {
            if let Some(link) = self.links.get_mut(*entry) {
                link.undone = link.undone.or(Some(place));
            }
        }
    }

    /// Notes that the events that stand in the log are not undone.
    fn keep(&mut self, log: &KnownLog)
        ensures { AreChanged (IsPlaceOfEvent log.now.places.items log.now.standing.items) kept self.old.links.items self.new.links.items }
    {
        for event in &log.standing {
            if let Some(place) = log.places.get(event.number) {
                if let Some(link) = self.links.get_mut(*place) {
                    link.undone = None;
                }
            }
        }
    }
}
