//! What turns of workers add to a history.

ghost use Rattle.std.specs.Prelude.{◌≡◌, ◌≤◌, ◌<◌, ◌++◌, OnOk, IfOk, length, map, slice_index};
ghost use Rattle.std.specs.Option.{ForSome};
ghost use Rattle.fbl_trace.specs.MemberSets.{AllBelow};
ghost use Rattle.fbl_history.specs.Traces.{replays_of};
ghost use Rattle.fbl_history.specs.Turns.{is_beyond as is_beyond_in, undone_beyond, step_columns, IsAfterCrash, IsAfterTurn};

use crate::column::{Column, Replay};
use fbl_group::{CrashRecord, Group, RecoveryRecord, TurnRecord, run_step};
use fbl_trace::{Behaviour, Member, MemberSet, Note, Outcome, Ticket};
use std::alloc::{AllocError, Global};

/// Adds what a turn made, and what its planned crash struck, undid and brought back. The group is one to which the turn has led, so
/// that its checkpoints are those of the turn.
pub(crate) fn add_turn<B: Behaviour<State = u64, Note = Note>>(
    columns: &mut Vec<Column>,
    alloc: Global,
    turn: &TurnRecord,
    group: &Group<B>,
) -> Result<(), AllocError>
    requires { ForSome turn.now.crash (λ crash. AllBelow crash.set group.now.config.members) }
    ensures { OnOk result (IsAfterTurn B.next group.now turn.now columns.old.items columns.new.items) }
{
    let done = run_step::<B>(turn.ticket);
    add_step(columns, turn.ticket, done.outcome(), turn.sent)?;
    match &turn.crash {
        Some(crash) => add_crash(columns, alloc, crash, group),
        None => Ok(()),
    }
}

/// Adds the receipt of a ticket, with what its step answered, and the step's sends, after which the member has sent so many messages.
fn add_step(
    columns: &mut Vec<Column>,
    ticket: Ticket,
    outcome: &Outcome,
    sent: u32,
) -> Result<(), AllocError>
    ensures { OnOk result (columns.new.items ≡ columns.old.items ++ step_columns ticket outcome.now sent) }
{
    columns.push(Column::Receipt {
        to: ticket.to,
        rsn: ticket.rsn,
        from: ticket.from,
        ssn: ticket.ssn,
        state: outcome.state,
        undone: false,
    })?;
    let mut ssn = sent.saturating_sub(outcome.sends.len() as u32);
    for send in outcome.sends.as_slice() {
        ssn += 1;
        columns.push(Column::Send {
            from: ticket.to,
            ssn,
            to: send.0,
            undone: false,
        })?;
    }
    Ok(())
}

/// Adds a planned crash: the strike, what the recovery undid, and the recovery. Where memory ran out for that there is none.
fn add_crash<B: Behaviour<State = u64, Note = Note>>(
    columns: &mut Vec<Column>,
    alloc: Global,
    crash: &CrashRecord,
    group: &Group<B>,
) -> Result<(), AllocError>
    requires { AllBelow crash.now.set group.now.config.members }
    ensures { OnOk result (IsAfterCrash group.now (Some crash.now) columns.old.items columns.new.items) }
{
    columns.push(Column::Strike(crash.set))?;
    let Some(recovery) = &crash.recovery else {
        return Ok(());
    };
    undo_beyond(columns, recovery);
    let received = recovery.received.as_slice();
    let replays = replays(alloc, group, crash.set, received)?;
    columns.push(Column::Recovery(replays))?;
    Ok(())
}

/// Undoes the events that a recovery undid: those beyond the receipts and the sends that each member has after it.
fn undo_beyond(columns: &mut [Column], recovery: &RecoveryRecord)
    ensures { columns.new
        ≡ map
        (undone_beyond (slice_index recovery.now.received.items) (slice_index recovery.now.sent.items)) columns.old }
{
    let received = recovery.received.as_slice();
    let sent = recovery.sent.as_slice();
    for column in columns.iter_mut() {
        if is_beyond(column, received, sent) {
            column.undo();
        }
    }
}

/// Whether the event is beyond the first so many receipts and sends of its member.
fn is_beyond(column: &Column, received: &[u32], sent: &[u32]) -> bool
    ensures { result ≡ is_beyond_in (slice_index received.now) (slice_index sent.now) column.now }
{
    match column {
        Column::Send { from, ssn, .. } => count_of(sent, *from) < *ssn,
        Column::Receipt { to, rsn, .. } => count_of(received, *to) < *rsn,
        _ => false,
    }
}

/// The member's count, 0 where there is none.
fn count_of(counts: &[u32], member: Member) -> u32
    ensures { result ≡ slice_index counts.now member }
{
    match counts.get(usize::from(member.number())) {
        Some(count) => *count,
        None => 0,
    }
}

/// How many receipts each of the members has beyond its checkpoint where it has so many, in member order.
pub(crate) fn replays<B: Behaviour<State = u64, Note = Note>>(
    alloc: Global,
    group: &Group<B>,
    members: MemberSet,
    received: &[u32],
) -> Result<Vec<Replay>, AllocError>
    requires { AllBelow members group.now.config.members }
    ensures { IfOk result (λ replays. replays.items ≡ replays_of group.now (slice_index received.now) members) }
{
    let mut replays = Vec::new(alloc);
    for number in 0..group.config().members() {
        let member = Member::at(number);
        if members.has(member) {
            let before = group.checkpoint_received(member);
            let receipts = count_of(received, member).saturating_sub(before);
            replays.push(Replay { member, receipts })?;
        }
    }
    Ok(replays)
}
