//! A group with the counts of what workers have done to it, and the records of their turns.

ghost use Rattle.std.specs.Prelude.{◌≡◌, ◌+◌, ◌*◌, ◌<◌, ◌≤◌, ◌⊎◌, true, false, sum, IfOk, IfErr, OnOk, OnErr, is_err, None, Some, [], if◌then◌else◌};
ghost use Rattle.std.specs.Option.{is_some};
ghost use Rattle.fbl_group.specs.Readers.{is_quiet};
ghost use Rattle.fbl_law.specs.Groups.{IsSound};
ghost use Rattle.fbl_trace.specs.Breaches.{IsPlan};
ghost use Rattle.arrayvec.specs.ArrayVec.{array_vec_len};
ghost use Rattle.fbl_group.specs.Deliveries.{RefusesCommit};
ghost use Rattle.fbl_group.specs.Records.{Commits};
ghost use Rattle.fbl_group.specs.Strikes.{strike_refusal};
ghost use Rattle.fbl_turns.specs.Recorders.{recorded, CountsRefusal, CrashesAs, HasRoom, IsToldOf, ReachedAs, TurnAs};
ghost use Rattle.fbl_turns.specs.Counted.{counts_of};
ghost use Rattle.fbl_turns.specs.Turns.{is_over, IsFirstTicket, NoTicket};

use crate::claims::{Claims, Pass};
use crate::counted::{Drained, add};
use crate::joined::{Joined, Unstarted};
use crate::origin::Origin;
use crate::plan::planned_set;
use crate::recorder::{Records, keep, reserve};
use crate::worker::{Claiming, Ended, Idle, Taken};
use fbl_group::{
    CommitRefusal, CrashRecord, Done, Group, Recovered, RecoveryRecord, Struck, Ticket, TurnRecord,
};
use fbl_trace::{Behaviour, Member, MemberSet, Strike};
use std::alloc::AllocError;
use std::marker::PhantomData;
use std::sync::ledger::{Blank, Book};

/// A group beside what the workers have done to it and the records of their turns: all are reached from where the drain began. The
/// book has the receipts made since then, each of which some worker has in its share.
#[derive(Drop)]
pub struct CountedGroup<B: Behaviour, O: Origin<B::State, B::Note>> {
    group: Group<B>,
    counted: Drained,
    records: Records<B::State, B::Note>,
    receipts: Book<O>,
    origin: PhantomData<O>,
    ghost reached: { ∥ ReachedAs B.next O.plan O.workers (O.start (B.next.initial 0 0))
        (recorded records) group (counts_of counted) ∥₁ },
    ghost keeps: { is_some (recorded records) ≡ O.records },
    ghost all_shared: { group.receipts_ever ≡ (O.start (B.next.initial 0 0)).receipts_ever + receipts.total },
}

impl<B: Behaviour, O: Origin<B::State, B::Note>> CountedGroup<B, O> {
    /// Puts a group beside the counts of workers that have done nothing yet, and the records of no turn yet, if they are kept. And
    /// the workers, who may take so many turns each, with the pass that theirs are split from.
    pub fn open(
        group: Group<B>,
        blank: Blank,
        pass: Pass,
        workers: u8,
        turns: u32,
        records: Records<B::State, B::Note>,
    ) -> (CountedGroup<B, O>, Unstarted<O>)
        requires origin { ((O.start (B.next.initial 0 0)) ≡ group) × (O.workers ≡ workers) × (O.turns ≡ turns) }
        requires pass { pass ≡ O.claims }
        requires blank { (blank.name ≡ O.name) × (blank.parts ≡ O.parts) × (O.parts ≡ workers) }
        requires workers { workers ≤ 8 }
        requires records { recorded records ≡ (if O.records then Some [] else None) }
        ensures { result.1.workers ≡ workers }
    {
        let (receipts, share) = blank.open::<O>();
        let counted_group = CountedGroup {
            group,
            counted: Drained::nothing(workers),
            records,
            receipts,
            origin: PhantomData,
        };
        (counted_group, Unstarted::new(pass, workers, turns, share))
    }

    /// The group, what the workers did, and the records of their turns, if they were kept, once all workers have ended.
    pub fn close(
        self,
        claims: Claims,
        joined: Joined<O>,
    ) -> (Group<B>, Drained, Records<B::State, B::Note>)
        requires all { (joined.workers ≡ O.workers) × (O.parts ≡ O.workers) }
        requires claims { claims ≡ O.claims }
        ensures same { (result.0 ≡ self.group) × (recorded result.2 ≡ recorded self.records)
            × (counts_of result.1 ≡ counts_of self.counted) }
        ensures started { (result.1.started ≡ joined.started) × (result.1.started ≤ O.workers) }
        ensures quiet { result.1.quiet ≡ is_quiet result.0 }
        ensures receipts { result.0.receipts_ever ≤ (O.start (B.next.initial 0 0)).receipts_ever + result.1.started * O.turns }
        ensures sound { IsSound B.next result.0 }
        ensures reached { ∥ ReachedAs B.next O.plan O.workers (O.start (B.next.initial 0 0)) (recorded result.2)
            result.0 (counts_of result.1) ∥₁ }
        ensures keeps { is_some (recorded result.2) ≡ O.records }
    {
        let CountedGroup {
            group,
            mut counted,
            records,
            mut receipts,
            origin: _,
        } = self;
        let (pass, started, mut share) = joined.into_parts();
        claims.close(pass);
        receipts.audit(&mut share);
        counted.started = started;
        counted.quiet = group.is_quiet();
        group.recoverable();
        (group, counted, records)
    }

    /// Whether the worker goes on. It ends where nothing is in flight, where somebody is down, and when it has begun all its turns.
    pub fn go_on(&self, idle: Idle<O>) -> Result<Idle<O>, Ended<O>>
        ensures goes_on { IfOk result (λ next. (next.turns ≡ idle.turns) × (is_over self.now.group ≡ false)
            × (next.turns.begun < O.turns)) }
        ensures ends { IfErr result (λ _. (is_over self.now.group ≡ true) ⊎ (idle.turns.begun ≡ O.turns)) }
    {
        if self.group.is_quiet() || self.group.down().count() != 0 || idle.has_begun_all() {
            return Err(idle.end());
        }
        Ok(idle)
    }

    /// A ticket to the member that the worker has claimed, from the least sender that has a message for it. Where none has, the
    /// turn is over, and the member is given back.
    pub fn take_first(
        &self,
        claims: &Claims,
        claiming: Claiming<O>,
    ) -> Result<Taken<O, B::State, B::Note>, Idle<O>>
        requires { claims.now ≡ O.claims }
        ensures taken { IfOk result (λ taken. (taken.claiming ≡ claiming)
            × IsFirstTicket self.now.group claiming.claim.1 taken.ticket) }
        ensures none { IfErr result (λ idle. (idle.turns ≡ claiming.turns) × NoTicket self.now.group claiming.claim.1) }
    {
        let to = claiming.member();
        for number in 0..self.group.config().members() {
            let from = Member::at(number);
            if let Ok(ticket) = self.group.take(to, from) {
                return Ok(Taken { claiming, ticket });
            }
        }
        Err(claiming.release(claims))
    }

    /// Commits a worker's step for the member that it has claimed, and in the same hold makes the crash that the plan has at its
    /// number. Then the member is given back. The worker goes on, or has ended by it.
    pub fn commit_planned(
        &mut self,
        claims: &Claims,
        claiming: Claiming<O>,
        done: &Done<B>,
        plan: &[Strike],
    ) -> Result<Idle<O>, Ended<O>>
        requires claims { claims.now ≡ O.claims }
        requires member { done.now.ticket.to ≡ claiming.claim.1 }
        requires plan { (plan.now ≡ O.plan) × IsPlan O.plan (O.start (B.next.initial 0 0)).config }
        ensures turn { TurnAs B.next plan.now claiming.turns.worker done.now.ticket self.old.group
            (counts_of self.old.counted) self.new.group (counts_of self.new.counted)
            (is_err result) (recorded self.old.records) (recorded self.new.records) }
        ensures goes_on { IfOk result (λ idle. (idle.turns.worker ≡ claiming.turns.worker)
            × (idle.turns.begun ≡ claiming.turns.begun)) }
    {
        let CountedGroup {
            group,
            counted,
            records,
            receipts,
            origin: _,
        } = self;
        let before = group.receipts_ever();
        let ends = make_turn(group, counted, records, claiming.number(), done, plan);
        let made = group.receipts_ever() - before;
        let idle = claiming.finish(claims, receipts, made);
        if ends { Err(idle.end()) } else { Ok(idle) }
    }
}

/// Commits a step of the worker, makes the crash that the plan has at its number, counts what came of it, and records it. Whether
/// the worker ends by it.
fn make_turn<B: Behaviour>(
    group: &mut Group<B>,
    counted: &mut Drained,
    records: &mut Records<B::State, B::Note>,
    worker: u8,
    done: &Done<B>,
    plan: &[Strike],
) -> bool
    requires places { (worker < array_vec_len counted.old.by_worker) × (worker < array_vec_len counted.old.undone_by_worker) }
    requires counted { (sum counted.old.by_worker.items ≤ group.old.receipts_ever)
        × (sum counted.old.undone_by_worker.items ≤ group.old.undone_ever) }
    requires plan { IsPlan plan.now group.old.config }
    ensures turn { TurnAs B.next plan.now worker done.now.ticket group.old (counts_of counted.old) group.new
        (counts_of counted.new) result (recorded records.old) (recorded records.new) }
{
    if let Err(refusal) = commit_with_room(group, records, done) {
        return count_refusal(counted, refusal);
    }
    let ever = group.receipts_ever();
    add(&mut counted.by_worker, worker, 1);
    let ticket = done.ticket();
    let mut turn = TurnRecord {
        worker,
        ticket,
        sent: group.sent(ticket.to),
        crash: None,
    };
    let Some(set) = planned_set(plan, ever) else {
        keep(records, turn);
        return false;
    };
    let recovery = crash(group, counted, worker, set);
    let ends = recovery.is_none();
    turn.crash = Some(CrashRecord { set, recovery });
    keep(records, turn);
    ends
}

/// Counts why a step is not committed. Whether the worker ends by it.
fn count_refusal(counted: &mut Drained, refusal: CommitRefusal) -> bool
    ensures { CountsRefusal refusal (counts_of counted.old) (counts_of counted.new) result }
{
    match refusal {
        CommitRefusal::Full => counted.full = true,
        CommitRefusal::Memory => counted.memory = true,
        CommitRefusal::Down | CommitRefusal::Stale => return false,
    }
    true
}

/// Commits a step, once there is room for its record. Where there is no memory for that, the step is refused as its commit would
/// be, or else for lack of memory.
fn commit_with_room<B: Behaviour>(
    group: &mut Group<B>,
    records: &mut Records<B::State, B::Note>,
    done: &Done<B>,
) -> Result<(), CommitRefusal>
    ensures committed { OnOk result (Commits B.next group.old group.new done.now.ticket) }
    ensures refused { IfErr result (RefusesCommit B.next group.old done.now.ticket) }
    ensures unchanged { OnErr result (group.new ≡ group.old) }
    ensures same { recorded records.new ≡ recorded records.old }
    ensures room { OnOk result (HasRoom records.new) }
{
    if let Err(AllocError) = reserve(records) {
        group.plan_commit(done)?;
        return Err(CommitRefusal::Memory);
    }
    group.commit(done)?;
    Ok(())
}

/// Strikes the members, which may be, and recovers them. Counts what the worker undid by it, or that there was no memory for the
/// recovery.
fn crash<B: Behaviour>(
    group: &mut Group<B>,
    counted: &mut Drained,
    worker: u8,
    set: MemberSet,
) -> Option<RecoveryRecord>
    requires place { worker < array_vec_len counted.old.undone_by_worker }
    requires counted { sum counted.old.undone_by_worker.items ≤ group.old.undone_ever }
    requires allowed { strike_refusal group.old set ≡ None }
    ensures { CrashesAs B.next worker set group.old (counts_of counted.old) group.new (counts_of counted.new) result }
{
    match group.crash(set) {
        Ok((struck, recovered)) => {
            // the group's counter is a u64, and what the worker has undone is no more
            let _ever = group.undone_ever();
            let undone = u64::from(recovered.undone);
            add(&mut counted.undone_by_worker, worker, undone);
            Some(recovery_record(group, struck, recovered))
        }
        Err(_) => {
            counted.memory = true;
            None
        }
    }
}

fn recovery_record<B: Behaviour>(
    group: &Group<B>,
    struck: Struck,
    recovered: Recovered,
) -> RecoveryRecord
    ensures { IsToldOf group.now struck recovered result }
{
    RecoveryRecord {
        struck,
        recovered,
        received: group.received_each(),
        sent: group.sent_each(),
    }
}
