//! What is written of each step, as entries of a log.

ghost use Rattle.std.specs.Prelude.{◌≡◌, ◌<◌, ◌≤◌, ◌++◌, ◌∷◌, [], IfOk, OnOk, filter, flat_map, length, map};
ghost use Rattle.fbl_runs.specs.declared.entry.Entry.TheVariants.{Tell, Told};
ghost use Rattle.fbl_history.specs.Records.{back_entries, event_entries, holds_from, is_between, is_not_between, messages_from, next_messages, receipt_entries, receipt_entry, restart_entries, round, stores_from, told_at_once};

use fbl_group::Group;
use fbl_runs::{ControlMessage, Entry, Restart};
use fbl_table::Table;
use fbl_trace::{Behaviour, Determinant, Event, Member, MemberSet, Note};
use std::alloc::{AllocError, Global};

/// Adds an item.
fn push<T: Copy>(items: &mut Vec<T>, item: &T) -> Result<(), AllocError>
    ensures { OnOk result (items.new.items ≡ items.old.items ++ item.now ∷ []) }
{
    items.push(*item)?;
    Ok(())
}

/// The receipt as an entry, where the sender of its message is in this life.
fn receipt_entry(life: u32, receipt: &Determinant) -> Entry
    ensures { result ≡ receipt_entry life receipt.now }
{
    let determinant = *receipt;
    if life == 0 {
        Entry::Event(determinant.receipt())
    } else {
        Entry::LaterReceipt { determinant, life }
    }
}

/// Adds these events, in order. A receipt is one of a message of life 0.
pub(super) fn push_events(entries: &mut Vec<Entry>, events: &[Event]) -> Result<(), AllocError>
    ensures { OnOk result (entries.new.items ≡ entries.old.items ++ event_entries events.now) }
{
    for event in events {
        push(entries, &Entry::Event(event.mark()))?;
    }
    Ok(())
}

/// Adds that the member holds what its table has behind its first so many determinants.
fn push_holds(
    entries: &mut Vec<Entry>,
    holder: Member,
    first: usize,
    table: &Table,
) -> Result<(), AllocError>
    ensures { OnOk result (entries.new.items ≡ entries.old.items ++ holds_from holder first table.now) }
{
    for place in first..table.len() {
        let determinant = table.entry_at(place).det;
        push(
            entries,
            &Entry::Hold {
                holder,
                determinant,
            },
        )?;
    }
    Ok(())
}

/// Adds that the member stores what its table has behind its first so many determinants.
pub(super) fn push_stores(
    entries: &mut Vec<Entry>,
    member: Member,
    first: usize,
    table: &Table,
) -> Result<(), AllocError>
    ensures { OnOk result (entries.new.items ≡ entries.old.items ++ stores_from member first table.now) }
{
    for place in first..table.len() {
        let determinant = table.entry_at(place).det;
        push(
            entries,
            &Entry::Store {
                member,
                determinant,
            },
        )?;
    }
    Ok(())
}

/// Adds the receipt of a message whose sender is in this life, what its member's table has behind its first so many determinants, and the
/// sends of the receipt's step.
pub(super) fn push_receipt(
    entries: &mut Vec<Entry>,
    life: u32,
    receipt: &Determinant,
    held: usize,
    table: &Table,
    sends: &[Event],
) -> Result<(), AllocError>
    ensures { OnOk result (entries.new.items ≡ receipt_entries entries.old.items life receipt.now held table.now sends.now) }
{
    push(entries, &receipt_entry(life, receipt))?;
    push_holds(entries, receipt.to, held, table)?;
    push_events(entries, sends)
}

/// The number of the entries, under which no earlier control message is. So many that this is none have no room.
fn next_id(entries: &[Entry]) -> Result<u32, AllocError>
    ensures { IfOk result (λ id. id ≡ length entries.now) }
{
    let Ok(id) = u32::try_from(entries.len()) else {
        return Err(AllocError);
    };
    Ok(id)
}

/// Adds what the member tells each other one of the receivers, in a group of `n`.
fn push_messages_from(
    messages: &mut Vec<ControlMessage>,
    n: u8,
    id: u32,
    from: Member,
    receivers: MemberSet,
) -> Result<(), AllocError>
    requires { n ≤ 16 }
    ensures { OnOk result (messages.new.items ≡ messages.old.items ++ messages_from id from receivers n) }
{
    for number in 0..n {
        let to = Member::at(number);
        if receivers.has(to) && to != from {
            push(messages, &ControlMessage { from, to, id })?;
        }
    }
    Ok(())
}

/// What each of the senders tells each other one of the receivers behind the entries, in a group of `n`.
pub(super) fn next_messages(
    alloc: Global,
    n: u8,
    entries: &[Entry],
    senders: MemberSet,
    receivers: MemberSet,
) -> Result<Vec<ControlMessage>, AllocError>
    requires { n ≤ 16 }
    ensures { IfOk result (λ messages. messages.items ≡ next_messages n entries.now senders receivers) }
{
    let id = next_id(entries)?;
    let mut messages = Vec::new(alloc);
    for number in 0..n {
        let from = Member::at(number);
        if senders.has(from) {
            push_messages_from(&mut messages, n, id, from, receivers)?;
        }
    }
    Ok(messages)
}

/// Adds these messages, each told at once.
fn push_told_at_once(
    entries: &mut Vec<Entry>,
    messages: &[ControlMessage],
) -> Result<(), AllocError>
    ensures { OnOk result (entries.new.items ≡ entries.old.items ++ flat_map told_at_once messages.now) }
{
    for message in messages {
        push(entries, &Entry::Tell(*message))?;
        push(entries, &Entry::Told(*message))?;
    }
    Ok(())
}

/// Adds what each of the senders tells each other one of the receivers, in a group of `n`, and that these are told it at once.
pub(super) fn push_round(
    alloc: Global,
    entries: &mut Vec<Entry>,
    n: u8,
    senders: MemberSet,
    receivers: MemberSet,
) -> Result<(), AllocError>
    requires { n ≤ 16 }
    ensures { OnOk result (entries.new.items ≡ round n entries.old.items senders receivers) }
{
    let messages = next_messages(alloc, n, entries.as_slice(), senders, receivers)?;
    push_told_at_once(entries, messages.as_slice())
}

/// Adds the tells of these messages.
pub(super) fn push_tells(
    entries: &mut Vec<Entry>,
    messages: &[ControlMessage],
) -> Result<(), AllocError>
    ensures { OnOk result (entries.new.items ≡ entries.old.items ++ map Tell messages.now) }
{
    for message in messages {
        push(entries, &Entry::Tell(*message))?;
    }
    Ok(())
}

/// Whether the message is from the one to the other.
fn is_between(message: &ControlMessage, from: Member, to: Member) -> bool
    ensures { result ≡ is_between from to message.now }
{
    message.from == from && message.to == to
}

/// Whether it is another one.
pub(super) fn is_not_between(message: &ControlMessage, from: Member, to: Member) -> bool
    ensures { result ≡ is_not_between from to message.now }
{
    !is_between(message, from, to)
}

/// Adds that the one member is told what is untold of the other.
pub(super) fn push_told(
    entries: &mut Vec<Entry>,
    untold: &[ControlMessage],
    from: Member,
    to: Member,
) -> Result<(), AllocError>
    ensures { OnOk result (entries.new.items ≡ entries.old.items ++ map Told (filter (is_between from to) untold.now)) }
{
    for message in untold {
        if is_between(message, from, to) {
            push(entries, &Entry::Told(*message))?;
        }
    }
    Ok(())
}

/// Adds that the member is back in this life, with what the group has of it.
fn push_back<B: Behaviour<State = u64, Note = Note>>(
    entries: &mut Vec<Entry>,
    group: &Group<B>,
    life: u32,
    member: Member,
) -> Result<(), AllocError>
    requires { member < group.now.config.members }
    ensures { OnOk result (entries.new.items ≡ entries.old.items ++ back_entries group.now life member) }
{
    push(
        entries,
        &Entry::Restart(Restart {
            member,
            life,
            receipts: group.received(member),
            sends: group.sent(member),
        }),
    )?;
    push_holds(entries, member, 0, group.table(member))
}

/// Adds that these members are back, each in its life.
pub(super) fn push_backs<B: Behaviour<State = u64, Note = Note>>(
    entries: &mut Vec<Entry>,
    group: &Group<B>,
    lives: &[u32; 16],
    members: MemberSet,
) -> Result<(), AllocError>
    ensures { OnOk result (entries.new.items ≡ entries.old.items
        ++ restart_entries group.now lives.now members group.now.config.members) }
{
    for number in 0..group.config().members() {
        let member = Member::at(number);
        if members.has(member) {
            push_back(entries, group, lives[usize::from(number)], member)?;
        }
    }
    Ok(())
}
