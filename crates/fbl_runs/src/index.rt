//! The members' logs, and what leads to each entry at once.

ghost use Rattle.std.specs.Prelude.{◌≡◌, ◌<◌, ℕ, IfOk, length};
ghost use Rattle.fbl_runs.specs.Clocks.{StandsAt, cut_of};
ghost use Rattle.fbl_runs.specs.Entries.{log_of};
ghost use Rattle.fbl_runs.specs.HappenedBefore.{IsAt, Position, at};
ghost use Rattle.fbl_runs.specs.Indexes.{EndsStep};
ghost use Rattle.fbl_runs.specs.KnownLives.{ArePlaces};
ghost use Rattle.fbl_runs.specs.Links.{AreLinks, IsLink};
ghost use Rattle.fbl_runs.specs.Rules.{AreLawful};

use crate::clock::Clock;
use crate::entry::Entry;
use crate::links::{Link, Links};
use crate::lives::Lives;
use fbl_trace::Member;
use std::alloc::{AllocError, Global};
use std::marker::Model;

/// The entries of a run, with the members' logs and what leads to each entry at once. Contracts see the entries.
#[derive(Drop)]
pub struct Index<'a> {
    entries: &'a [Entry],
    lives: Lives,
    links: Links,
}

impl<'a> Model for Index<'a> {
    ghost use Rattle.std.specs.Prelude.{List};
    ghost use Rattle.fbl_runs.specs.declared.entry.Entry.{Entry};
    ghost use Rattle.fbl_runs.specs.Indexes.{IsIndex};

    ghost Value = { List Entry };

    ghost view = { λ i. i.entries.now };

    ghost invariant = { λ i. IsIndex i.entries.now i.lives i.links.links.items };
}

impl<'a> Index<'a> {
    /// The index of the entries, which obey the rules. `Err` comes only where there is no memory for it.
    pub fn of(alloc: Global, entries: &'a [Entry]) -> Result<Index<'a>, AllocError>
        requires { (n : ℕ) × AreLawful n entries.now }
        ensures { IfOk result (λ index. index ≡ entries.now) }
    {
        let (links, lives) = Links::of(alloc, entries)?;
        Ok(Index {
            entries,
            lives,
            links,
        })
    }

    /// The entries.
    pub fn entries(&self) -> &'a [Entry]
        ensures { result.now ≡ self.now }
    {
        self.entries
    }

    /// What leads to each entry at once, at its place.
    pub(crate) fn links(&self) -> &[Link]
        ensures { AreLinks self.now result.now }
    {
        self.links.links.as_slice()
    }

    /// The places of the member's entries.
    fn places(&self, member: Member) -> &[usize]
        ensures { ArePlaces self.now (log_of self.now member) member result.now }
    {
        self.lives.logs[member.number() as usize].places.as_slice()
    }

    /// How many entries the member has.
    pub fn count(&self, member: Member) -> usize
        ensures { result ≡ length (log_of self.now member) }
    {
        self.places(member).len()
    }

    /// The clock at which all entries have come.
    pub fn last(&self) -> Clock
        ensures { (q : ℕ) → cut_of result q ≡ length (log_of self.now q) }
    {
        let _entries = self.entries;
        let mut last = Clock::none();
        for number in 0..16u8 {
            let member = Member::at(number);
            last = last.reaching(member, self.count(member));
        }
        last
    }

    /// The place of the member's entry with the number.
    pub fn place(&self, member: Member, number: usize) -> usize
        requires { number < length (log_of self.now member) }
        ensures { StandsAt self.now result (at member number) }
    {
        self.places(member)[number]
    }

    /// What leads to the entry at the place at once.
    pub fn link(&self, place: usize) -> Link
        requires { place < length self.now }
        ensures { (j : Position) → StandsAt self.now place j → IsLink self.now j result }
    {
        self.links()[place]
    }

    /// The member's entry with the number.
    fn entry(&self, member: Member, number: usize) -> &'a Entry
        requires { number < length (log_of self.now member) }
        ensures { IsAt (log_of self.now) (at member number) result.now }
    {
        let entries = self.entries;
        let place = self.place(member, number);
        &entries[place]
    }

    /// The number behind the step of the member's entry with the number.
    pub fn step_end(&self, member: Member, number: usize) -> usize
        requires { number < length (log_of self.now member) }
        ensures { EndsStep (log_of self.now member) number result }
    {
        let count = self.count(member);
        for next in number + 1..count {
            if self.entry(member, next).recorded().is_none() {
                return next;
            }
        }
        count
    }
}
