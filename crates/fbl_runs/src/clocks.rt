//! What precedes each entry of a run, by vector clocks that one pass finds.

ghost use Rattle.std.specs.Prelude.{◌≡◌, ◌<◌, ◌+◌, ◌++◌, ◌↔◌, ℕ, List, Some, true, IfOk, MatchOption, OnOk, length, max, slice_get};
ghost use Rattle.fbl_runs.specs.Clocks.{StandsAt, cut_of};
ghost use Rattle.fbl_runs.specs.Entries.{log_of};
ghost use Rattle.fbl_runs.specs.HappenedBefore.{Position, Precedes};
ghost use Rattle.fbl_runs.specs.Links.{AreLinks};
ghost use Rattle.fbl_runs.specs.Precedence.{AreBelow, AreClocks, HasSeen, IsAmong, IsBelow, IsJoined, IsPast, IsPredecessorClock, Shares, arrival_at, column, kept_cut, reached_cut, predecessors_of};
ghost use Rattle.fbl_runs.specs.Moments.{Cut};
ghost use Rattle.fbl_runs.specs.Rules.{AreLawful};
ghost use Rattle.fbl_runs.specs.declared.causality.Causality.TheVariants.{HappenedBefore};
ghost use Rattle.fbl_runs.specs.declared.clock.Clock.{Clock};

use crate::causality::Causality;
use crate::clock::Clock;
use crate::entry::Entry;
use crate::index::Index;
use crate::links::Link;
use std::alloc::{AllocError, Global};

/// The immediate predecessors of an entry, by their places.
#[derive(Clone, Copy)]
pub(crate) struct Predecessors {
    /// The last one in its member's log.
    before: Option<usize>,
    /// The one whose message, or control message, it takes.
    message: Option<usize>,
    /// The one that begins the life that it names.
    begins: Option<usize>,
}

/// What leads to the entry at once.
fn predecessors_of(causality: Causality, entry: &Entry, link: &Link) -> Predecessors
    ensures { result ≡ predecessors_of causality entry.now link.now }
{
    match causality {
        Causality::HappenedBefore => Predecessors {
            before: link.previous,
            message: link.message,
            begins: link.begins,
        },
        Causality::Dependence => Predecessors {
            before: link.stood,
            message: match entry.receipt() {
                Some(_) => link.message,
                None => None,
            },
            begins: None,
        },
    }
}

/// The number with which a clock counts the entry.
fn column_of(causality: Causality, entry: &Entry, link: &Link) -> u8
    requires { link.now.life < 24 }
    ensures value { result ≡ column causality entry.now link.now }
    ensures bound { result < 24 }
{
    match causality {
        Causality::HappenedBefore => entry.member().number(),
        Causality::Dependence => link.life,
    }
}

/// What precedes each of the entries of a run. A clock is kept of each entry to which more leads than the one before it that is counted
/// with the same number: with any other there has come just this one more.
#[derive(Drop)]
pub struct Clocks {
    /// What they are clocks of.
    causality: Causality,
    /// For each entry, at its place, the number with which a clock counts it.
    columns: Vec<u8>,
    /// For each entry, at its place, the place of the clock that is kept of it or of one before it, if there is one.
    arrivals: Vec<Option<usize>>,
    /// The clocks that are kept.
    kept: Vec<Clock>,
}

impl Clocks {
    /// Where the clock that the entry at the place has is kept, if one is.
    fn arrival(&self, place: Option<usize>) -> Option<usize>
        ensures { result ≡ arrival_at self.now.arrivals.items place }
    {
        *self.arrivals.get(place?)?
    }

    /// The clock that is kept of the entry at the place, if there is one.
    fn kept(&self, place: usize) -> Option<&Clock>
        ensures { MatchOption result
            ((q : ℕ) → kept_cut self.now.kept.items (arrival_at self.now.arrivals.items (Some place)) q ≡ 0)
            (λ clock. (q : ℕ) → kept_cut self.now.kept.items (arrival_at self.now.arrivals.items (Some place)) q
            ≡ cut_of clock.now q) }
    {
        self.kept.get(self.arrival(Some(place))?)
    }

    /// That clock, with so many entries that are counted with the number.
    fn reached(&self, place: usize, column: u8, count: usize) -> Clock
        requires { column < 24 }
        ensures { (q : ℕ) → cut_of result q
            ≡ reached_cut (kept_cut self.now.kept.items (arrival_at self.now.arrivals.items (Some place))) column count q }
    {
        let mut clock = match self.kept(place) {
            Some(clock) => *clock,
            None => Clock::none(),
        };
        clock.reach(column, count);
        clock
    }

    /// Whether a clock counts the entry at the place with the number.
    fn is_counted(&self, place: usize, column: u8) -> bool
        ensures { (result ≡ true) ↔ (slice_get self.now.columns.items place ≡ Some column) }
    {
        match self.columns.get(place) {
            Some(other) => *other == column,
            None => false,
        }
    }

    /// Whether an entry that is counted with the number has the clock that is kept of the one before it.
    fn shares(&self, predecessors: &Predecessors, column: u8) -> bool
        ensures { (result ≡ true) ↔ Shares self.now predecessors.now column }
    {
        if predecessors.message.is_some() || predecessors.begins.is_some() {
            return false;
        }
        match predecessors.before {
            Some(before) => self.is_counted(before, column),
            None => true,
        }
    }

    /// The clock of the entry at the place, if there is one, and else that of nothing.
    fn predecessor_clock(&self, links: &[Link], place: Option<usize>) -> Clock
        requires { (entries : _) × (p : ℕ) × AreLinks entries links.now
            × HasSeen self.now.causality entries links.now p self.now × IsBelow p place }
        ensures { (entries : _) (p : ℕ) → AreLinks entries links.now → HasSeen self.now.causality entries links.now p self.now
            → IsBelow p place → IsPredecessorClock self.now.causality entries links.now place (cut_of result) }
    {
        match place {
            Some(place) => self.reached(place, self.columns[place], links[place].number + 1),
            None => Clock::none(),
        }
    }

    /// Joins the clock with that of the entry at the place, if there is one.
    fn join_predecessor(&self, clock: &mut Clock, links: &[Link], place: Option<usize>)
        requires { (entries : _) × (p : ℕ) × AreLinks entries links.now
            × HasSeen self.now.causality entries links.now p self.now × IsBelow p place }
        ensures { (entries : _) (p : ℕ) → AreLinks entries links.now → HasSeen self.now.causality entries links.now p self.now
            → IsBelow p place
            → (cut : Cut) × IsPredecessorClock self.now.causality entries links.now place cut
            × ((q : ℕ) → cut_of clock.new q ≡ max (cut_of clock.old q) (cut q)) }
    {
        clock.join(&self.predecessor_clock(links, place));
    }

    /// The clock of what leads to an entry at once.
    fn joined(&self, links: &[Link], predecessors: &Predecessors) -> Clock
        requires { (entries : _) × (p : ℕ) × AreLinks entries links.now
            × HasSeen self.now.causality entries links.now p self.now × AreBelow p predecessors.now }
        ensures { (entries : _) (p : ℕ) → AreLinks entries links.now → HasSeen self.now.causality entries links.now p self.now
            → AreBelow p predecessors.now → IsJoined self.now.causality entries links.now predecessors.now (cut_of result) }
    {
        let mut clock = self.predecessor_clock(links, predecessors.before);
        self.join_predecessor(&mut clock, links, predecessors.message);
        self.join_predecessor(&mut clock, links, predecessors.begins);
        clock
    }

    /// Keeps the clock of what leads to an entry that is counted with the number, if it does not have that of the one before it, and
    /// answers where it is kept.
    fn arrive(
        &mut self,
        links: &[Link],
        predecessors: &Predecessors,
        column: u8,
    ) -> Result<Option<usize>, AllocError>
        requires { (entries : _) × (p : ℕ) × AreLinks entries links.now
            × HasSeen self.old.causality entries links.now p self.old × AreBelow p predecessors.now }
        ensures grown { OnOk result ((more : List Clock) × (self.new.kept.items ≡ self.old.kept.items ++ more)) }
        ensures within { IfOk result (IsBelow (length self.new.kept.items)) }
        ensures clock { IfOk result (λ arrival. (entries : _) (p count : ℕ) → AreLinks entries links.now
            → HasSeen self.old.causality entries links.now p self.old → AreBelow p predecessors.now
            → IsAmong entries predecessors.now.before count
            → (cut : Cut) × IsJoined self.old.causality entries links.now predecessors.now cut
            × ((q : ℕ) → reached_cut (kept_cut self.new.kept.items arrival) column count q ≡ reached_cut cut column count q)) }
        ensures rest { OnOk result
            ((self.new.causality ≡ self.old.causality) × (self.new.columns ≡ self.old.columns)
            × (self.new.arrivals ≡ self.old.arrivals)) }
    {
        if self.shares(predecessors, column) {
            return Ok(self.arrival(predecessors.before));
        }
        let place = self.kept.len();
        let clock = self.joined(links, predecessors);
        self.kept.push(clock)?;
        Ok(Some(place))
    }

    /// Takes in the entry at the place, the next one.
    fn add(&mut self, entries: &[Entry], links: &[Link], place: usize) -> Result<(), AllocError>
        requires lawful { (n : ℕ) × AreLawful n entries.now }
        requires links { AreLinks entries.now links.now }
        requires seen { HasSeen self.old.causality entries.now links.now place self.old }
        requires within { place < length entries.now }
        ensures { OnOk result (HasSeen self.old.causality entries.now links.now (place + 1) self.new) }
    {
        let entry = &entries[place];
        let link = &links[place];
        let column = column_of(self.causality, entry, link);
        let predecessors = predecessors_of(self.causality, entry, link);
        let arrival = self.arrive(links, &predecessors, column)?;
        self.columns.push(column)?;
        self.arrivals.push(arrival)?;
        Ok(())
    }

    /// The clocks of the index's entries. The time taken is that of the entries by the members. `Err` comes only where there is no memory
    /// for them.
    pub fn of(alloc: Global, causality: Causality, index: &Index<'_>) -> Result<Clocks, AllocError>
        requires { (n : ℕ) × AreLawful n index.now }
        ensures { IfOk result (AreClocks causality index.now) }
    {
        let entries = index.entries();
        let links = index.links();
        let mut clocks = Clocks {
            causality,
            columns: Vec::with_capacity(alloc, entries.len())?,
            arrivals: Vec::with_capacity(alloc, entries.len())?,
            kept: Vec::new(alloc),
        };
        for place in 0..entries.len() {
            clocks.add(entries, links, place)?;
        }
        Ok(clocks)
    }

    /// Whether the entry at the first place precedes the one at the second, or is that one.
    pub fn precedes(&self, index: &Index<'_>, first: usize, second: usize) -> bool
        requires first { first < length index.now }
        requires second { second < length index.now }
        ensures { (c : _) (i j : Position) → AreClocks c index.now self.now → StandsAt index.now first i
            → StandsAt index.now second j
            → (result ≡ true) ↔ Precedes c (log_of index.now) i j }
    {
        let Some(column) = self.columns.get(first) else {
            return false;
        };
        let number = index.link(first).number;
        if self.is_counted(second, *column) && number <= index.link(second).number {
            return true;
        }
        match self.kept(second) {
            Some(clock) => number < clock.at(*column),
            None => false,
        }
    }

    /// The clock of what happened before the entry at the place, with that.
    pub fn past(&self, index: &Index<'_>, place: usize) -> Clock
        requires { place < length index.now }
        ensures { (j : Position) → AreClocks HappenedBefore index.now self.now → StandsAt index.now place j
            → IsPast index.now j (cut_of result) }
    {
        let member = index.entries()[place].member();
        self.reached(place, member.number(), index.link(place).number + 1)
    }
}
