//! The sets of restarts that the moments of a run have, each with the least moment that has them.

ghost use Rattle.std.specs.Prelude.{◌≡◌, ◌<◌, ◌≤◌, ◌+◌, ◌↔◌, ◌∷◌, [], ℕ, true, IfOk, Some, length, slice_get, slice_index};
ghost use Rattle.fbl_runs.specs.Clocks.{cut_of};
ghost use Rattle.fbl_runs.specs.Entries.{log_of};
ghost use Rattle.fbl_runs.specs.Precedence.{AreClocks};
ghost use Rattle.fbl_runs.specs.Runs.{AreEntries};
ghost use Rattle.fbl_runs.specs.declared.causality.Causality.TheVariants.{HappenedBefore};
ghost use Rattle.fbl_runs.specs.declared.entry.Entry.TheVariants.{Restart};
ghost use Rattle.fbl_judge.specs.Views.{AreViews, AreViewsOf, IsRestartPast, IsNextRestart, IsPastAndStepAt, IsWith, MayHave, MayHaveOf};

use crate::view::{RestartCounts, View};
use fbl_runs::{Clock, Clocks, Index};
use fbl_trace::Member;
use std::alloc::{AllocError, Global};

/// A restart, with what happened before it.
#[derive(Clone, Copy)]
struct RestartPast {
    /// Whose it is.
    member: Member,
    /// How many entries stand before it in its member's log.
    number: usize,
    /// The number of the member's next restart, or of all its entries where there is none.
    top: usize,
    /// What happened before it, and its step.
    moment: Clock,
}

/// What happened before the entry at the place, with that, and the holds and stores of its step.
pub(crate) fn past_and_step(index: &Index<'_>, before: &Clocks, place: usize) -> Clock
    requires { place < length index.now }
    ensures { AreClocks HappenedBefore index.now before.now → IsPastAndStepAt index.now place (cut_of result) }
{
    let member = index.entries()[place].member();
    let end = index.step_end(member, index.link(place).number);
    before.past(index, place).reaching(member, end)
}

/// The number of the member's next restart, from this number on, or of all its entries where there is none.
fn next_restart(index: &Index<'_>, member: Member, start: usize) -> usize
    requires { start ≤ length (log_of index.now member) }
    ensures { IsNextRestart (log_of index.now member) start result }
{
    let count = index.count(member);
    for number in start..count {
        if index.entries()[index.place(member, number)]
            .restart()
            .is_some()
        {
            return number;
        }
    }
    count
}

/// The view of no restarts.
fn first_view(index: &Index<'_>) -> View
    requires { (n : ℕ) × AreEntries n index.now }
    ensures { AreViewsOf index.now 0 (result ∷ []) }
{
    let mut tops = [0; 16];
    for number in 0..16u8 {
        tops[number as usize] = next_restart(index, Member::at(number), 0);
    }
    View {
        base: Clock::none(),
        starts: [0; 16],
        tops,
        restarts: RestartCounts {
            of_members: [0; 16],
            total: 0,
        },
    }
}

/// Whether of the member with the number no other restart happened before this one but the view's.
fn may_have_of(view: &View, restart: &RestartPast, number: u8) -> bool
    requires { number < 16 }
    ensures { (result ≡ true) ↔ MayHaveOf view.now restart.now number }
{
    let top = view.tops[number as usize];
    let member = Member::at(number);
    if member == restart.member {
        top == restart.number
    } else {
        restart.moment.count(member) <= top
    }
}

/// Whether the view's restarts and this one are just those that some moment has: this is its member's next one, and no others happened
/// before it.
fn may_have(view: &View, restart: &RestartPast) -> bool
    ensures { (result ≡ true) ↔ MayHave view.now restart.now }
{
    for number in 0..16u8 {
        if !may_have_of(view, restart, number) {
            return false;
        }
    }
    true
}

/// The view with the restart too.
fn with_restart(view: &View, restart: &RestartPast) -> View
    requires restarts { slice_index view.now.restarts.of_members restart.now.member < usize.MAX }
    requires count { view.now.restarts.total < usize.MAX }
    ensures { IsWith view.now restart.now result }
{
    let mut starts = view.starts;
    let mut tops = view.tops;
    let mut restarts = view.restarts;
    let at = restart.member.number() as usize;
    starts[at] = restart.number;
    tops[at] = restart.top;
    restarts.of_members[at] += 1;
    restarts.total += 1;
    View {
        base: view.base.joined(&restart.moment),
        starts,
        tops,
        restarts,
    }
}

/// The restart at the place.
fn restart_at(index: &Index<'_>, before: &Clocks, place: usize) -> RestartPast
    requires place { place < length index.now }
    requires before { AreClocks HappenedBefore index.now before.now }
    ensures { IsRestartPast index.now place result }
{
    let member = index.entries()[place].member();
    let number = index.link(place).number;
    let _count = index.count(member);
    RestartPast {
        member,
        number,
        top: next_restart(index, member, number + 1),
        moment: past_and_step(index, before, place),
    }
}

/// These views, and those with the restart at the place that some moment has.
fn with_next(
    alloc: Global,
    index: &Index<'_>,
    before: &Clocks,
    place: usize,
    views: &[View],
) -> Result<Vec<View>, AllocError>
    requires lawful { (n : ℕ) × AreEntries n index.now }
    requires before { AreClocks HappenedBefore index.now before.now }
    requires restart { (r : _) × (slice_get index.now place ≡ Some (Restart r)) }
    requires room { place < usize.MAX }
    requires views { AreViewsOf index.now place views.now }
    ensures { IfOk result (λ more. AreViewsOf index.now (place + 1) more.items) }
{
    let restart = restart_at(index, before, place);
    let _count = index.count(restart.member);
    let mut more = Vec::new(alloc);
    for view in views {
        more.push(*view)?;
        if may_have(view, &restart) {
            more.push(with_restart(view, &restart))?;
        }
    }
    Ok(more)
}

/// The sets of restarts that the moments of the index's entries have: at most 256, since there are at most 8 restarts. `Err` comes only
/// where there is no memory for them.
pub(crate) fn views_of(
    alloc: Global,
    index: &Index<'_>,
    before: &Clocks,
) -> Result<Vec<View>, AllocError>
    requires lawful { (n : ℕ) × AreEntries n index.now }
    requires before { AreClocks HappenedBefore index.now before.now }
    ensures { IfOk result (λ views. AreViews (log_of index.now) views.items) }
{
    let mut views = vec![in alloc; first_view(index)]?;
    for (place, entry) in index.entries().iter().enumerate() {
        if entry.restart().is_some() {
            views = with_next(alloc, index, before, place, views.as_slice())?;
        }
    }
    Ok(views)
}
