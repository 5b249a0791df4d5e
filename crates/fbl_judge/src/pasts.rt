//! The pasts of a run's entries: which entries precede which.

ghost use Rattle.std.specs.Prelude.{◌≡◌, ◌<◌, ◌≤◌, ◌+◌, ◌↔◌, ℕ, true, IfOk, MatchOption, length};
ghost use Rattle.std.specs.List.{list_any};
ghost use Rattle.std.specs.FinSet as set;
ghost use Rattle.fbl_runs.specs.Clocks.{StandsAt, cut_of};
ghost use Rattle.fbl_runs.specs.Entries.{log_of};
ghost use Rattle.fbl_runs.specs.HappenedBefore.{Position, Precedes, at};
ghost use Rattle.fbl_runs.specs.Logs.{IsRun};
ghost use Rattle.fbl_runs.specs.Moments.{DependsAt, Stands};
ghost use Rattle.fbl_runs.specs.Records.{IsNextRecord, IsRecordAt};
ghost use Rattle.fbl_runs.specs.Rules.{AreLawful};
ghost use Rattle.fbl_runs.specs.declared.causality.Causality.TheVariants.{Dependence};
ghost use Rattle.fbl_judge.specs.Pasts.{AreDependences, AreRestartPlaces, IsFirstInLife, is_told_or_restart};
ghost use Rattle.fbl_judge.specs.Views.{AreViews, IsOneLife, IsPastAndStepAt};

use crate::view::View;
use crate::views::{past_and_step, views_of};
use fbl_runs::{Causality, Clock, Clocks, Entry, Index, RecordPlaces, Run};
use fbl_trace::{Determinant, Member, MemberSet};
use std::alloc::{AllocError, Global};
use std::marker::Model;

/// The pasts of a run's entries: the index of the entries, their clocks, and the sets of restarts that the run's moments have, made once.
/// Contracts see the run.
#[derive(Drop)]
pub struct Pasts<'a> {
    run: &'a Run,
    index: Index<'a>,
    /// Where the entries hold and store each determinant.
    records: RecordPlaces,
    /// The clock at which all entries have come.
    last: Clock,
    /// What happened before each entry.
    before: Clocks,
    /// On what each entry depends: nothing is kept where no member is told a control message and none restarts, since it then depends on
    /// what happened before it.
    depends: Option<Clocks>,
    /// The sets of restarts, each with the least moment that has them.
    views: Vec<View>,
    /// The places of the restarts.
    restarts: Vec<usize>,
}

impl<'a> Model for Pasts<'a> {
    ghost use Rattle.fbl_judge.specs.Pasts.{AreOf};
    ghost use Rattle.fbl_runs.specs.Logs.{RunParts};

    ghost Value = { RunParts };

    ghost use Rattle.std.specs.Coded.{codes, coded_ℕ};
    ghost use Rattle.std.specs.Ordering.{nat_cmp};
    ghost use Rattle.std.specs.FinSet as set;
    ghost use Rattle.fbl_runs.specs.contracts.entry.Entry as entry;

    ghost coded = { Prim.hlevel (codes, entry.the_row.coded, set.code {R = nat_cmp} coded_ℕ) };

    ghost view = { λ p. p.run.now };

    ghost invariant = { λ p. AreOf p.run.now p.index p.records p.last p.before p.depends p.views.items p.restarts.items };
}

/// Whether the entry's member is told a control message, or is back after a crash.
fn is_told_or_restart(entry: &Entry) -> bool
    ensures { result ≡ is_told_or_restart entry.now }
{
    match *entry {
        Entry::Told(_) | Entry::Restart(_) => true,
        _ => false,
    }
}

/// Whether some member is told a control message, or restarts.
fn has_told_or_restart(entries: &[Entry]) -> bool
    ensures { result ≡ list_any is_told_or_restart entries.now }
{
    entries.iter().any(|entry| is_told_or_restart(entry))
}

/// On what each of the entries depends, unless that is what happened before it, since no member is told a control message and none
/// restarts.
fn dependences_of(alloc: Global, index: &Index<'_>) -> Result<Option<Clocks>, AllocError>
    requires { (n : ℕ) × AreLawful n index.now }
    ensures { IfOk result (AreDependences index.now) }
{
    if !has_told_or_restart(index.entries()) {
        return Ok(None);
    }
    Ok(Some(Clocks::of(alloc, Causality::Dependence, index)?))
}

/// The places of the restarts.
fn restarts_of(alloc: Global, entries: &[Entry]) -> Result<Vec<usize>, AllocError>
    ensures { IfOk result (λ v. AreRestartPlaces entries.now v.items) }
{
    let mut places = Vec::new(alloc);
    for (place, entry) in entries.iter().enumerate() {
        if entry.restart().is_some() {
            places.push(place)?;
        }
    }
    Ok(places)
}

impl<'a> Pasts<'a> {
    /// The pasts of the run's entries. The time taken is that of the entries times the members. `Err` comes only where there is no memory
    /// for them.
    pub fn of(alloc: Global, run: &'a Run) -> Result<Pasts<'a>, AllocError>
        ensures { IfOk result (λ pasts. pasts ≡ run.now) }
    {
        let entries = run.entries();
        let index = Index::of(alloc, entries)?;
        let records = RecordPlaces::of(alloc, entries)?;
        let before = Clocks::of(alloc, Causality::HappenedBefore, &index)?;
        let depends = dependences_of(alloc, &index)?;
        let views = views_of(alloc, &index, &before)?;
        let restarts = restarts_of(alloc, entries)?;
        let last = index.last();
        Ok(Pasts {
            run,
            index,
            records,
            last,
            before,
            depends,
            views,
            restarts,
        })
    }

    /// The run.
    pub fn run(&self) -> &'a Run
        ensures run { result.now ≡ self.now }
        ensures rules { IsRun self.now }
    {
        self.run
    }

    /// The run's entries, as they are listed.
    pub fn entries(&self) -> &'a [Entry]
        ensures entries { result.now ≡ self.now.entries }
        ensures rules { IsRun self.now }
    {
        self.run.entries()
    }

    /// The entries' index.
    pub fn index(&self) -> &Index<'a>
        ensures { result.now ≡ self.now.entries }
    {
        &self.index
    }

    /// The place of the first hold or store of the determinant.
    pub(crate) fn first_record(&self, determinant: &Determinant) -> Option<usize>
        ensures { IsNextRecord self.now.entries determinant.now 0 result }
    {
        self.records.first(determinant)
    }

    /// The place of the next hold or store of what the entry at the place holds or stores.
    pub(crate) fn next_record(&self, place: usize) -> Option<usize>
        requires { place < length self.now.entries }
        ensures { (d : _) → IsRecordAt self.now.entries d place → IsNextRecord self.now.entries d (place + 1) result }
    {
        self.records.next(place)
    }

    /// The clock at which all entries have come.
    pub fn last(&self) -> Clock
        ensures { (q : ℕ) → cut_of result q ≡ length (log_of self.now.entries q) }
    {
        self.last
    }

    /// The sets of restarts that the run's moments have, each with the least moment that has them.
    pub(crate) fn views(&self) -> &[View]
        ensures { AreViews (log_of self.now.entries) result.now }
    {
        self.views.as_slice()
    }

    /// The places of the restarts.
    pub fn restarts(&self) -> &[usize]
        ensures { AreRestartPlaces self.now.entries result.now }
    {
        self.restarts.as_slice()
    }

    /// How many entries stand before the one at the place in its member's log.
    pub fn number(&self, place: usize) -> usize
        requires { place < length self.now.entries }
        ensures { (i : Position) → StandsAt self.now.entries place i → result ≡ i.number }
    {
        self.index.link(place).number
    }

    /// Whether the entry at the first place precedes the one at the second, or is that one.
    pub fn precedes(&self, causality: Causality, first: usize, second: usize) -> bool
        requires first { first < length self.now.entries }
        requires second { second < length self.now.entries }
        ensures { (i j : Position) → StandsAt self.now.entries first i → StandsAt self.now.entries second j
            → (result ≡ true) ↔ Precedes causality (log_of self.now.entries) i j }
    {
        match causality {
            Causality::HappenedBefore => self.before.precedes(&self.index, first, second),
            Causality::Dependence => match &self.depends {
                Some(depends) => depends.precedes(&self.index, first, second),
                None => self.before.precedes(&self.index, first, second),
            },
        }
    }

    /// What happened before the entry at the place, with that, and the holds and stores of its step. Joined with a moment that has the
    /// restarts among these it is the least moment that has both.
    pub fn moment_at(&self, place: usize) -> Clock
        requires { place < length self.now.entries }
        ensures { IsPastAndStepAt self.now.entries place (cut_of result) }
    {
        past_and_step(&self.index, &self.before, place)
    }

    /// Whether at the clock's cut the member depends on the receipt at the place.
    pub fn depends_at(&self, receipt: usize, member: Member, moment: &Clock) -> bool
        requires receipt { receipt < length self.now.entries }
        requires within { (q : ℕ) → cut_of moment.now q ≤ length (log_of self.now.entries q) }
        ensures { (i : Position) → StandsAt self.now.entries receipt i
            → (result ≡ true) ↔ DependsAt (log_of self.now.entries) (cut_of moment.now) i member }
    {
        let count = moment.count(member);
        if count == 0 {
            return false;
        }
        let last = self.index.place(member, count - 1);
        self.precedes(Causality::Dependence, receipt, last)
    }

    /// The members that depend on the receipt at the place at the clock's cut.
    pub fn dependents(&self, receipt: usize, moment: &Clock) -> MemberSet
        requires receipt { receipt < length self.now.entries }
        requires within { (q : ℕ) → cut_of moment.now q ≤ length (log_of self.now.entries q) }
        ensures { (i : Position) → StandsAt self.now.entries receipt i
            → (q : ℕ)
            → (set.contains result q ≡ true) ↔ DependsAt (log_of self.now.entries) (cut_of moment.now) i q }
    {
        let _run = self.run();
        let mut dependents = MemberSet::empty();
        for number in 0..16u8 {
            let member = Member::at(number);
            if self.depends_at(receipt, member, moment) {
                dependents = dependents.with(member);
            }
        }
        dependents
    }

    /// Whether the entry at the place stands at the clock's cut: it has come, and no restart that has come undoes it.
    pub fn stands(&self, place: usize, moment: &Clock) -> bool
        requires { place < length self.now.entries }
        ensures { (j : Position) → StandsAt self.now.entries place j
            → (result ≡ true) ↔ Stands (log_of self.now.entries) (cut_of moment.now) j }
    {
        let count = moment.count(self.entries()[place].member());
        let link = self.index.link(place);
        match link.undone {
            None => link.number < count,
            Some(restart) => link.number < count && count <= self.number(restart),
        }
    }

    /// The number of the first of the member's entries of one life, from the start to the top, that depends on the receipt at the place.
    pub(crate) fn first_in_life(
        &self,
        receipt: usize,
        member: Member,
        start: usize,
        top: usize,
    ) -> Option<usize>
        requires receipt { receipt < length self.now.entries }
        requires life { IsOneLife (log_of self.now.entries member) start top }
        ensures { (i : Position) → StandsAt self.now.entries receipt i
            → MatchOption result
            ((k : ℕ) → start ≤ k → k < top → ¬ (Precedes Dependence (log_of self.now.entries) i (at member k)))
            (IsFirstInLife (log_of self.now.entries) i member start top) }
    {
        let mut first = start;
        let mut end = top;
        while first < end {
            let middle = first + (end - first) / 2;
            let place = self.index.place(member, middle);
            if self.precedes(Causality::Dependence, receipt, place) {
                end = middle;
            } else {
                first = middle + 1;
            }
        }
        if first < top { Some(first) } else { None }
    }
}
