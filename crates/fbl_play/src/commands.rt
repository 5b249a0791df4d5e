//! The commands of a script.

ghost use Rattle.std.specs.Prelude.{◌≡◌, Bool, IfErr, IfOk, not};
ghost use Rattle.std.specs.List.{filter};
ghost use Rattle.fbl_trace.specs.declared.trace.Determinant.{Determinant};
ghost use Rattle.fbl_group.specs.Strikes.{lost_receipts};
ghost use Rattle.fbl_law.specs.Groups.{IsSound};
ghost use Rattle.fbl_scripts.specs.Reasons.{IsPlanRefused};
ghost use Rattle.fbl_play.specs.Steps.{CheckpointStep, DeliverStep, HasMembers, IsDumped, IsRunAnswer, RecoverStep, RunStep, Step, StrikeStep};

use fbl_group::{CheckpointRefusal, DeliverRefusal, DumpGroupRefusal, Group, RecoverRefusal};
use fbl_scripts::{
    Answer, Command, Plan, RefusalReason, checkpoint_reason, deliver_reason, no_such_member,
    run_reason, strike_reason,
};
use fbl_threads::{DrainRefusal, NoGate, RecordedDrain, drain_recorded};
use fbl_trace::{Behaviour, Determinant, Member, MemberSet, Note, Strike};
use std::alloc::{AllocError, Global};
use std::sync::Wait;
use std::thread::Threads;

/// How many turns each worker may take.
const TURNS: u32 = 1_000_000;

fn run_deliver<B: Behaviour<State = u64, Note = Note>>(
    group: &mut Group<B>,
    to: Member,
    from: Member,
) -> Result<Answer, AllocError>
    ensures step { IfOk result (DeliverStep B.next group.old to from group.new) }
    ensures within { IfOk result (HasMembers group.new) }
{
    match group.deliver(to, from) {
        Ok(receipt) => Ok(Answer::Delivery { to, from, receipt }),
        Err(DeliverRefusal::Memory) => Err(AllocError),
        Err(refusal) => Ok(Answer::Refusal {
            command: "deliver",
            refusal: refusal.name(),
            reason: deliver_reason(group, to, from, refusal),
        }),
    }
}

/// The receipts of the group that are lost, in the order of the trace. While nobody is down there are none.
fn lost_of<B: Behaviour<State = u64, Note = Note>>(
    alloc: Global,
    group: &Group<B>,
) -> Result<Vec<Determinant>, AllocError>
    ensures lost { IfOk result (λ lost. lost.items ≡ lost_receipts group.now) }
    ensures sound { IsSound B.next group.now }
{
    // in a sound group each receipt of a member that is up is recorded
    group.recoverable();
    if group.down().count() == 0 {
        return Ok(Vec::new(alloc));
    }
    group.lost_receipts(alloc)
}

/// The receipts that are lost after a strike without those that were lost before it. Both lists are in the order of the trace.
fn newly_lost(
    alloc: Global,
    before: &[Determinant],
    after: &[Determinant],
) -> Result<Vec<Determinant>, AllocError>
    ensures { IfOk result (λ lost. (recorded : Determinant → Bool)
        → before.now ≡ filter (λ d. not (recorded d)) after.now
        → lost.items ≡ filter recorded after.now) }
{
    let mut lost = Vec::new(alloc);
    let mut passed = 0;
    for receipt in after {
        if passed < before.len() && before[passed] == *receipt {
            passed += 1;
        } else {
            lost.push(*receipt)?;
        }
    }
    Ok(lost)
}

fn run_strike<B: Behaviour<State = u64, Note = Note>>(
    alloc: Global,
    group: &mut Group<B>,
    members: MemberSet,
) -> Result<Answer, AllocError>
    ensures step { IfOk result (StrikeStep B.next group.old members group.new) }
    ensures within { IfOk result (HasMembers group.new) }
{
    let lost_before = lost_of(alloc, group)?;
    let before = lost_before.as_slice();
    match group.strike(members) {
        Ok(struck) => {
            let after = lost_of(alloc, group)?;
            let receipts = newly_lost(alloc, before, after.as_slice())?;
            Ok(Answer::Strike {
                members,
                struck,
                receipts,
                before: before.len(),
            })
        }
        Err(refusal) => Ok(Answer::Refusal {
            command: "strike",
            refusal: refusal.name(),
            reason: strike_reason(group, members, refusal),
        }),
    }
}

fn run_recover<B: Behaviour<State = u64, Note = Note>>(
    alloc: Global,
    group: &mut Group<B>,
) -> Result<Answer, AllocError>
    ensures step { IfOk result (RecoverStep B.next group.old group.new) }
    ensures within { IfOk result (HasMembers group.new) }
{
    let members = group.down();
    let undone = lost_of(alloc, group)?;
    match group.recover() {
        Ok(recovered) => Ok(Answer::Recovery {
            members,
            recovered,
            undone,
        }),
        Err(RecoverRefusal::Memory) => Err(AllocError),
        Err(refusal) => Ok(Answer::Refusal {
            command: "recover",
            refusal: refusal.name(),
            reason: RefusalReason::NotDown,
        }),
    }
}

fn run_checkpoint<B: Behaviour<State = u64, Note = Note>>(
    group: &mut Group<B>,
    member: Member,
) -> Result<Answer, AllocError>
    ensures step { IfOk result (CheckpointStep group.old member group.new) }
    ensures within { IfOk result (HasMembers group.new) }
{
    match group.checkpoint(member) {
        Ok(()) => Ok(Answer::Checkpoint {
            member,
            received: group.checkpoint_received(member),
        }),
        Err(CheckpointRefusal::Memory) => Err(AllocError),
        Err(refusal) => Ok(Answer::Refusal {
            command: "checkpoint",
            refusal: refusal.name(),
            reason: checkpoint_reason(group, member, refusal),
        }),
    }
}

fn run_dump<B: Behaviour<State = u64, Note = Note>>(
    group: &Group<B>,
    strike: MemberSet,
) -> Result<Answer, AllocError>
    ensures step { IfOk result (IsDumped group.now strike) }
    ensures within { IfOk result (HasMembers group.now) }
{
    match group.dump(strike) {
        Ok(dump) => Ok(Answer::Dump(dump)),
        Err(DumpGroupRefusal::Memory) => Err(AllocError),
        Err(refusal) => Ok(Answer::Refusal {
            command: "dump",
            refusal: refusal.name(),
            reason: no_such_member(group, strike),
        }),
    }
}

/// What a run answers whose workers' drain answered this. There is nothing where it was refused, or a worker ended, for lack of
/// memory.
fn run_answer<B: Behaviour<State = u64, Note = Note>>(
    group: &Group<B>,
    plan: &[Strike],
    made_before: u64,
    undone_before: u64,
    answer: Result<RecordedDrain, DrainRefusal>,
) -> Result<Answer, AllocError>
    requires { IfErr answer (IsPlanRefused plan.now group.now.config) }
    ensures step { IfOk result (IsRunAnswer plan.now made_before undone_before group.now answer) }
    ensures within { IfOk result (HasMembers group.now) }
{
    match answer {
        Ok(recorded) => {
            if recorded.drained.memory {
                return Err(AllocError);
            }
            Ok(Answer::Run {
                recorded,
                made_before,
                made_after: group.receipts_ever(),
                undone_before,
                undone_after: group.undone_ever(),
            })
        }
        Err(DrainRefusal::Memory) => Err(AllocError),
        Err(refusal) => Ok(Answer::Refusal {
            command: "run",
            refusal: refusal.name(),
            reason: run_reason(group, plan, &refusal),
        }),
    }
}

fn run_plan<B: Behaviour<State = u64, Note = Note> + Send + Sync, T: Threads + Wait + Sync>(
    rt: &T,
    alloc: Global,
    workers: u8,
    group: Group<B>,
    plan: &Plan,
) -> (Group<B>, Result<Answer, AllocError>)
    ensures step { IfOk result.1 (RunStep B.next workers plan.now group result.0) }
    ensures within { IfOk result.1 (HasMembers result.0) }
{
    let made = group.receipts_ever();
    let undone = group.undone_ever();
    let strikes = plan.strikes();
    let (group, recorded) = drain_recorded(rt, alloc, group, strikes, workers, TURNS, &NoGate);
    let answer = run_answer(&group, strikes, made, undone, recorded);
    (group, answer)
}

/// Runs one command. The group comes back. `Err` comes only where there is no memory.
pub(crate) fn run_command<
    B: Behaviour<State = u64, Note = Note> + Send + Sync,
    T: Threads + Wait + Sync,
>(
    rt: &T,
    alloc: Global,
    workers: u8,
    mut group: Group<B>,
    command: &Command,
) -> (Group<B>, Result<Answer, AllocError>)
    ensures step { IfOk result.1 (Step B.next workers group command.now result.0) }
    ensures within { IfOk result.1 (HasMembers result.0) }
{
    let answer = match command {
        Command::Deliver { to, from } => run_deliver(&mut group, *to, *from),
        Command::States => Ok(Answer::States),
        Command::Report => Ok(Answer::Report),
        Command::Strike(members) => run_strike(alloc, &mut group, *members),
        Command::Recover => run_recover(alloc, &mut group),
        Command::Dump(strike) => run_dump(&group, *strike),
        Command::Checkpoint(member) => run_checkpoint(&mut group, *member),
        Command::Run(plan) => return run_plan(rt, alloc, workers, group, plan),
    };
    (group, answer)
}
