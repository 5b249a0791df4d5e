//! The columns of a trace, with the state after each receipt.

ghost use Rattle.std.specs.Prelude.{◌≡◌, ◌<◌, ◌≤◌, ◌+◌, IfOk, OnOk, length, slice_get, Some};
ghost use Rattle.fbl_trace.specs.declared.trace.Event.TheVariants as event_of;
ghost use Rattle.fbl_history.specs.Replays.{HaveReplayed};
ghost use Rattle.fbl_history.specs.Traces.{trace_columns as columns_of_trace, event_column, state_after_receipt};

use crate::column::Column;
use fbl_group::Group;
use fbl_member::{MemberRec, fresh_members};
use fbl_trace::{Behaviour, Determinant, Event, Note};
use std::alloc::{AllocError, Global};

/// Lets the receipt at this place of the group's trace be replayed, and answers the receiver's state after it.
fn replay<B: Behaviour<State = u64, Note = Note>>(
    group: &Group<B>,
    members: &mut [MemberRec],
    place: usize,
    receipt: Determinant,
) -> Result<u64, AllocError>
    requires here { slice_get group.now.trace place ≡ Some (event_of.Receipt receipt.to receipt.rsn receipt.from receipt.ssn) }
    requires before { HaveReplayed B.next group.now place members.old }
    ensures state { IfOk result
        (λ state. state
        ≡ state_after_receipt B.next group.now.config.members group.now.trace receipt.to receipt.rsn) }
    ensures after { OnOk result (HaveReplayed B.next group.now (place + 1) members.new) }
{
    // the group is sound
    group.recoverable();
    let sender = usize::from(receipt.from.number());
    let note = members[sender].log_note(receipt.ssn).unwrap();
    let receiver = &mut members[usize::from(receipt.to.number())];
    receiver.replay_one::<B>(receipt.to, group.config().members(), &receipt, note)?;
    Ok(receiver.state())
}

/// The column of the event at this place of the group's trace.
fn column_at<B: Behaviour<State = u64, Note = Note>>(
    group: &Group<B>,
    members: &mut [MemberRec],
    place: usize,
    event: Event,
) -> Result<Column, AllocError>
    requires here { slice_get group.now.trace place ≡ Some event }
    requires before { HaveReplayed B.next group.now place members.old }
    ensures column { IfOk result (λ column. column ≡ event_column B.next group.now.config.members group.now.trace event) }
    ensures after { OnOk result (HaveReplayed B.next group.now (place + 1) members.new) }
{
    match event {
        Event::Send {
            from,
            ssn,
            to,
            note: _,
        } => Ok(Column::Send {
            from,
            ssn,
            to,
            undone: false,
        }),
        Event::Receipt { to, rsn, from, ssn } => {
            let receipt = Determinant { from, ssn, to, rsn };
            Ok(Column::Receipt {
                to,
                rsn,
                from,
                ssn,
                state: replay(group, members, place, receipt)?,
                undone: false,
            })
        }
    }
}

/// The columns of the events of the group's trace, in order.
pub(crate) fn trace_columns<B: Behaviour<State = u64, Note = Note>>(
    alloc: Global,
    group: &Group<B>,
) -> Result<Vec<Column>, AllocError>
    ensures { IfOk result (λ columns. columns.items ≡ columns_of_trace B.next group.now) }
{
    let trace = group.trace();
    let mut members = fresh_members::<B>(alloc, group.config())?;
    let mut columns = Vec::with_capacity(alloc, trace.len())?;
    for (place, event) in trace.iter().enumerate() {
        columns.push(column_at(group, &mut members, place, *event)?)?;
    }
    Ok(columns)
}
