//! A group that workers drain.

ghost use Rattle.std.specs.Prelude.{◌≡◌, ◌≤◌, [], Some, None, false, MatchOption, if◌then◌else◌};
ghost use Rattle.fbl_trace.specs.Breaches.{IsPlan};
ghost use Rattle.fbl_group.specs.Readers.{is_quiet};
ghost use Rattle.fbl_turns.specs.Recorders.{recorded};
ghost use Rattle.fbl_threads.specs.Drains.{DrainsAs, Drains, IsAccepted, IsDrainRefused, RecordedDrains};

use crate::gate::Gate;
use crate::scope::run_all;
use crate::worker::Work;
use crossbeam_utils::CachePadded;
use fbl_group::{Group, TurnRecord};
use fbl_trace::{Behaviour, Note, Strike, first_bad_entry};
use fbl_turns::{
    Claims, CountedGroup, Drained, Joined, Origin, Pass, Records, Unstarted, no_records,
};
use std::alloc::Global;
use std::fmt;
use std::marker::Brand;
use std::sync::ledger::Blank;
use std::sync::{Mutex, Wait};
use std::thread::Threads;
use thiserror::Error;

/// What a drain did, and the record of each turn that made a receipt.
#[derive(Drop)]
pub struct RecordedDrain<S = u64, N = Note> {
    /// What it did.
    pub drained: Drained,
    /// The records, in the order in which the turns were made.
    pub turns: Vec<TurnRecord<S, N>>,
}

/// Why a group is not drained. The first three are tested in this order, before any worker is started.
#[derive(Clone, Copy, PartialEq, Eq, Debug, Error)]
pub enum DrainRefusal {
    /// There are not 1 to 8 workers.
    BadWorkers,
    /// The entry of the plan at this place, the first such, stands at place 64 or later, has a number that is not greater
    /// than the one before (than 0, for the first), or names nobody, more members than may be lost at once, or one that
    /// is not of the group.
    BadPlan(usize),
    /// Some member of the group is down.
    Down,
    /// The table of claims is refused for another cause than lack of memory. Nothing answers it, as no claims are refused so.
    NoTable,
    /// Messages are in flight, and no worker could be started. The group is unchanged.
    NoThread,
    /// The group that comes back does not go on from the one given. Nothing answers it: the drain is proved to go on.
    Uneven,
    /// There is no memory for the claims. No worker was started.
    Memory,
}

impl DrainRefusal {
    ghost use Rattle.fbl_threads.specs.Names.{drain_name};

    /// The refusal's word, as it is printed before its place.
    pub fn name(self) -> &'static str
        ensures { result.now ≡ drain_name self }
    {
        match self {
            DrainRefusal::BadWorkers => "BadWorkers",
            DrainRefusal::BadPlan(_) => "BadPlan",
            DrainRefusal::Down => "Down",
            DrainRefusal::NoTable => "NoTable",
            DrainRefusal::NoThread => "NoThread",
            DrainRefusal::Uneven => "Uneven",
            DrainRefusal::Memory => "Memory",
        }
    }
}

impl fmt::Display for DrainRefusal {
    fn fmt<W: fmt::Write>(&self, f: &mut fmt::Formatter<W>) -> fmt::Result {
        f.write_str(self.name())?;
        if let DrainRefusal::BadPlan(place) = self {
            write!(f, " {place}")?;
        }
        Ok(())
    }
}

/// Runs the group by several workers at once, until nothing is in flight, somebody is down, or each worker has taken its
/// turns. The group always comes back, and is sound.
///
/// Worker `w` at its turn `t`, both from 0, first asks whether nothing is in flight or somebody is down, and then ends.
/// Else it tries to claim member `(w + t) mod n`. With the claim it takes the front of the channel to that member from the
/// least sender that has a message, passes the gate, makes the step, and commits it. Where the group has then made as many
/// receipts as an entry of the plan says, its set is struck and recovered in the same hold of the lock.
/// The claim is released on every way out. A step that is refused as stale costs the turn, and a worker ends at a refusal
/// by want of room in the trace or of memory. After a turn that found nothing a worker waits, the longer the more such turns
/// it has taken in a row, and for a millisecond at most.
///
/// Where nothing is in flight no worker is needed, no thread is started, and all workers count as started.
///
/// After a refusal the group that comes back is unchanged. Lack of memory that a worker meets is no refusal: the answer's
/// `memory` tells it.
pub fn drain<B: Behaviour + Send + Sync, G: Gate + Sync, R: Threads + Wait + Sync>(
    rt: &R,
    alloc: Global,
    group: Group<B>,
    plan: &[Strike],
    workers: u8,
    turns: u32,
    gate: &G,
) -> (Group<B>, Result<Drained, DrainRefusal>)
where
    B::State: Send,
    B::Note: Send,
    ensures { Drains B.next workers turns plan.now group result.0 result.1 }
{
    let (group, answer) = drain_by(rt, alloc, group, plan, workers, turns, gate, false);
    match answer {
        Ok((drained, _records)) => (group, Ok(drained)),
        Err(refusal) => (group, Err(refusal)),
    }
}

/// Drains the group as `drain` does, and answers a record of each turn that made a receipt, undone or not, with the crash that
/// the plan has at its number: these turns, in this order, lead from the group given to the group that comes back.
///
/// Memory for the record is reserved before a turn changes anything. Where there is none, the turn is refused for lack of memory,
/// as where there is none for its commit.
pub fn drain_recorded<B: Behaviour + Send + Sync, G: Gate + Sync, R: Threads + Wait + Sync>(
    rt: &R,
    alloc: Global,
    group: Group<B>,
    plan: &[Strike],
    workers: u8,
    turns: u32,
    gate: &G,
) -> (
    Group<B>,
    Result<RecordedDrain<B::State, B::Note>, DrainRefusal>,
)
where
    B::State: Send,
    B::Note: Send,
    ensures { RecordedDrains B.next workers turns plan.now group result.0 result.1 }
{
    let (group, answer) = drain_by(rt, alloc, group, plan, workers, turns, gate, true);
    match answer {
        Ok((drained, records)) => match records {
            Some(turns) => (group, Ok(RecordedDrain { drained, turns })),
            None => unreachable!(),
        },
        Err(refusal) => (group, Err(refusal)),
    }
}

/// Drains the group, and keeps records of its turns or none.
fn drain_by<B: Behaviour + Send, G: Gate + Sync, R: Threads + Wait + Sync>(
    rt: &R,
    alloc: Global,
    group: Group<B>,
    plan: &[Strike],
    workers: u8,
    turns: u32,
    gate: &G,
    keeps: bool,
) -> (
    Group<B>,
    Result<(Drained, Records<B::State, B::Note>), DrainRefusal>,
)
where
    B::State: Send,
    B::Note: Send,
    ensures { DrainsAs B.next workers turns plan.now keeps group result.0 result.1 }
{
    // the group is sound: so it is where it is refused
    group.recoverable();
    if let Some(refusal) = refusal(&group, plan, workers) {
        return (group, Err(refusal));
    }
    let records = no_records(alloc, keeps);
    if group.is_quiet() {
        return (group, Ok((Drained::of_nothing(workers), records)));
    }
    let Ok(claims) = Claims::new(alloc, group.config().members()) else {
        return (group, Err(DrainRefusal::Memory));
    };
    let request = DrainRequest {
        plan,
        workers,
        turns,
        gate,
        keeps,
    };
    let blank = Blank::new(u64::from(workers));
    run::<B, G, Brand, R>(rt, group, claims, blank, &request, records)
}

/// Why the group is not drained, before any worker is started.
fn refusal<B: Behaviour>(group: &Group<B>, plan: &[Strike], workers: u8) -> Option<DrainRefusal>
    ensures { MatchOption result (IsAccepted workers plan.now group.now) (IsDrainRefused workers plan.now group.now) }
{
    if workers < 1 || workers > 8 {
        return Some(DrainRefusal::BadWorkers);
    }
    if let Some(place) = first_bad_entry(plan, group.config()) {
        return Some(DrainRefusal::BadPlan(place));
    }
    if group.down().count() != 0 {
        return Some(DrainRefusal::Down);
    }
    None
}

/// What workers are asked for.
#[derive(Drop)]
struct DrainRequest<'a, G: Gate> {
    plan: &'a [Strike],
    workers: u8,
    turns: u32,
    gate: &'a G,
    /// Whether the turns are recorded.
    keeps: bool,
}

/// Runs the workers from this group on.
fn run<
    B: Behaviour + Send,
    G: Gate + Sync,
    O: Origin<B::State, B::Note> + Send,
    R: Threads + Wait + Sync,
>(
    rt: &R,
    group: Group<B>,
    claims: (Claims, Pass),
    blank: Blank,
    request: &DrainRequest<G>,
    records: Records<B::State, B::Note>,
) -> (
    Group<B>,
    Result<(Drained, Records<B::State, B::Note>), DrainRefusal>,
)
where
    B::State: Send,
    B::Note: Send,
    requires origin { ((O.start (B.next.initial 0 0)) ≡ group) × (O.plan ≡ request.now.plan.now)
        × (O.workers ≡ request.now.workers) × (O.turns ≡ request.now.turns) }
    requires claims { (claims.1 ≡ claims.0) × (claims.0 ≡ O.claims) × (claims.0.words ≡ group.config.members) }
    requires blank { (blank.name ≡ O.name) × (blank.parts ≡ O.parts) × (O.parts ≡ request.now.workers) }
    requires records { recorded records ≡ (if O.records then Some [] else None) }
    requires accepted { IsAccepted request.now.workers request.now.plan.now group }
    requires in_flight { is_quiet group ≡ false }
    ensures { DrainsAs B.next request.now.workers request.now.turns request.now.plan.now O.records group result.0 result.1 }
{
    let members = group.config().members();
    let (claims, pass) = claims;
    let (counted_group, unstarted) = CountedGroup::<B, O>::open(
        group,
        blank,
        pass,
        request.workers,
        request.turns,
        records,
    );
    let shared = Mutex::new(CachePadded::new(counted_group));
    let joined = work_on(rt, &shared, &claims, members, request, unstarted);
    let (group, drained, records) = shared.into_inner().into_inner().close(claims, joined);
    if let Some(refusal) = without_thread(drained.started) {
        return (group, Err(refusal));
    }
    (group, Ok((drained, records)))
}

/// Why what so many started workers did is not answered.
fn without_thread(started: u8) -> Option<DrainRefusal>
    ensures { MatchOption result (1 ≤ started) (λ refusal. (refusal ≡ DrainRefusal.NoThread) × (started ≡ 0)) }
{
    if started == 0 {
        return Some(DrainRefusal::NoThread);
    }
    None
}

/// Runs the workers on the shared group of so many members until they have ended.
fn work_on<
    B: Behaviour + Send,
    G: Gate + Sync,
    O: Origin<B::State, B::Note> + Send,
    R: Threads + Wait + Sync,
>(
    rt: &R,
    shared: &Mutex<CachePadded<CountedGroup<B, O>>>,
    claims: &Claims,
    members: u8,
    request: &DrainRequest<G>,
    unstarted: Unstarted<O>,
) -> Joined<O>
where
    B::State: Send,
    B::Note: Send,
    requires members { (2 ≤ members) × (members ≤ 16) }
    requires claims { (claims.now ≡ O.claims) × (claims.now.words ≡ members) }
    requires workers { (unstarted.workers ≡ O.workers) × (unstarted.workers ≤ 8) }
    requires plan { request.now.plan.now ≡ O.plan }
    requires plan_fits { IsPlan O.plan (O.start (B.next.initial 0 0)).config }
    ensures { result.workers ≡ O.workers }
{
    let work = Work::new(shared, claims, request.plan, request.gate, members);
    run_all(rt, &work, unstarted)
}
