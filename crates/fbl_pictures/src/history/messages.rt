//! The arrows of messages, and the messages in flight.

ghost use Rattle.std.specs.Prelude.{◌≡◌, ◌==◌, ◌++◌, ◌+◌, ◌<◌, ℕ, IfOk, OnOk, Some, length, if◌then◌else◌};
ghost use Rattle.std.specs.HashMap as hash_map;
ghost use Rattle.std.specs.HashSet as hash_set;
ghost use Rattle.fbl_trace.specs.Events.{same_message};
ghost use Rattle.fbl_history.specs.Arrows.{receipt_arrow, arrow_from, arrow_kind, back_before, has_standing_receipt, last_sent as last_sent_of, later, sent_before, sent_by_column, stub as stub_in, stub_where, taken_by_column};
ghost use Rattle.fbl_history.specs.MemberLines.{is_back};
ghost use Rattle.fbl_history.specs.Shapes.{drawn};

use crate::names::push_any;
use fbl_history::{ArrowKind, Column, Replay, Shape};
use fbl_trace::{Member, MessageName};
use std::alloc::{AllocError, Global};
use std::collections::{HashMap, HashSet};
use std::hash::{BuildHasherDefault, FoldHasher};

/// For each message that was sent, the place of the last column that sends it.
type SendPlaces = HashMap<MessageName, usize, BuildHasherDefault<FoldHasher>>;

/// The messages of which a receipt stands.
type Received = HashSet<MessageName, BuildHasherDefault<FoldHasher>>;

/// For each member that came back, the place of the last recovery that brought it back.
type Comebacks = HashMap<Member, usize, BuildHasherDefault<FoldHasher>>;

/// The message that a column sends, undone or not.
fn message_sent(column: &Column) -> Option<MessageName>
    ensures { result ≡ sent_by_column column.now }
{
    match column {
        Column::Send { from, ssn, .. } => Some(MessageName {
            from: *from,
            ssn: *ssn,
        }),
        _ => None,
    }
}

/// The message that a column receives, if the receipt stands.
fn message_taken(column: &Column) -> Option<MessageName>
    ensures { result ≡ taken_by_column column.now }
{
    match column {
        Column::Receipt {
            from,
            ssn,
            undone: false,
            ..
        } => Some(MessageName {
            from: *from,
            ssn: *ssn,
        }),
        _ => None,
    }
}

/// The place of the last recovery that brought back the sender or the receiver of a message, if one did.
fn comeback_of(comebacks: &Comebacks, from: Member, to: Member) -> Option<usize>
    ensures { result ≡ later (hash_map.get ◌==◌ comebacks.now from) (hash_map.get ◌==◌ comebacks.now to) }
{
    let sender = comebacks.get(&from).copied();
    let receiver = comebacks.get(&to).copied();
    sender.max(receiver)
}

/// Notes that these members came back at this place.
fn note_replays(
    comebacks: &mut Comebacks,
    replays: &[Replay],
    place: usize,
) -> Result<(), AllocError>
    ensures { OnOk result
        ((q : ℕ)
        → hash_map.get ◌==◌ comebacks.new q
        ≡ if is_back q replays.now then Some place else hash_map.get ◌==◌ comebacks.old q) }
{
    for replay in replays {
        comebacks.insert(replay.member, place)?;
    }
    Ok(())
}

/// Notes who comes back at the column at this place, if it is a recovery.
fn note_comebacks(
    comebacks: &mut Comebacks,
    columns: &[Column],
    place: usize,
) -> Result<(), AllocError>
    requires within { place < length columns.now }
    requires before { (q : ℕ) → hash_map.get ◌==◌ comebacks.old q ≡ back_before columns.now place q }
    ensures { OnOk result ((q : ℕ) → hash_map.get ◌==◌ comebacks.new q ≡ back_before columns.now (place + 1) q) }
{
    if let Column::Recovery(replays) = &columns[place] {
        note_replays(comebacks, replays.as_slice(), place)?;
    }
    Ok(())
}

/// The last places at which members came back.
fn comebacks_in(alloc: Global, columns: &[Column]) -> Result<Comebacks, AllocError>
    ensures { IfOk result
        (λ comebacks. (q : ℕ)
        → hash_map.get ◌==◌ comebacks q ≡ back_before columns.now (length columns.now) q) }
{
    let mut comebacks = HashMap::new(alloc);
    for place in 0..columns.len() {
        note_comebacks(&mut comebacks, columns, place)?;
    }
    Ok(comebacks)
}

/// How the arrow to a receipt is drawn.
fn kind_of_arrow(again: bool, undone: bool) -> ArrowKind
    ensures { result ≡ arrow_kind again undone }
{
    match (again, undone) {
        (false, false) => ArrowKind::Message,
        (false, true) => ArrowKind::Undone,
        (true, false) => ArrowKind::Again,
        (true, true) => ArrowKind::AgainUndone,
    }
}

/// Where a message is sent last, by where it was sent and where a recovery may have sent it again.
fn last_sent(sent: usize, back: Option<usize>) -> usize
    ensures { result ≡ last_sent_of sent back }
{
    back.map_or(sent, |back| sent.max(back))
}

/// The arrow to a column at this place, if it is a receipt of a message that was sent.
fn arrow(places: &SendPlaces, comebacks: &Comebacks, place: usize, column: &Column) -> Option<Shape>
    ensures { result
        ≡ arrow_from (λ m. hash_map.get same_message places.now m)
        (λ q. hash_map.get ◌==◌ comebacks.now q) place column.now }
{
    match column {
        Column::Receipt {
            to,
            from,
            ssn,
            undone,
            ..
        } => {
            let (from, ssn, to) = (*from, *ssn, *to);
            let sent = places.get(&MessageName { from, ssn }).copied()?;
            let start = last_sent(sent, comeback_of(comebacks, from, to));
            Some(Shape::Arrow {
                from,
                sent: start,
                to,
                received: place,
                kind: kind_of_arrow(sent < start, *undone),
            })
        }
        _ => None,
    }
}

/// Notes that the message of the column at this place, if it is a send, was sent there.
fn note_send(places: &mut SendPlaces, columns: &[Column], place: usize) -> Result<(), AllocError>
    requires within { place < length columns.now }
    requires before { (m : MessageName) → hash_map.get same_message places.old m ≡ sent_before columns.now place m }
    ensures { OnOk result ((m : MessageName) → hash_map.get same_message places.new m ≡ sent_before columns.now (place + 1) m) }
{
    if let Some(message) = message_sent(&columns[place]) {
        places.insert(message, place)?;
    }
    Ok(())
}

/// Draws an arrow to each receipt, undone or not, from where its message was sent or sent again.
pub(crate) fn push_arrows(
    shapes: &mut Vec<Shape>,
    alloc: Global,
    columns: &[Column],
) -> Result<(), AllocError>
    ensures { OnOk result (shapes.new.items ≡ shapes.old.items ++ drawn (receipt_arrow columns.now) 0 columns.now) }
{
    let mut places = HashMap::new(alloc);
    let mut comebacks = HashMap::new(alloc);
    for (place, column) in columns.iter().enumerate() {
        push_any(shapes, arrow(&places, &comebacks, place, column))?;
        note_send(&mut places, columns, place)?;
        note_comebacks(&mut comebacks, columns, place)?;
    }
    Ok(())
}

/// The messages that receipts that stand have taken.
fn received_in(alloc: Global, columns: &[Column]) -> Result<Received, AllocError>
    ensures { IfOk result
        (λ received. (m : MessageName)
        → hash_set.contains same_message received m ≡ has_standing_receipt columns.now m) }
{
    let mut received = HashSet::new(alloc);
    for column in columns {
        if let Some(message) = message_taken(column) {
            received.insert(message)?;
        }
    }
    Ok(received)
}

/// The stub of a column at this place, if it is a send of a message that nobody has received in the end.
fn stub(received: &Received, comebacks: &Comebacks, place: usize, column: &Column) -> Option<Shape>
    ensures { result
        ≡ stub_where (λ m. hash_set.contains same_message received.now m)
        (λ q. hash_map.get ◌==◌ comebacks.now q) place column.now }
{
    match column {
        Column::Send {
            from,
            ssn,
            to,
            undone,
        } => {
            let (from, ssn, to) = (*from, *ssn, *to);
            if *undone {
                return Some(Shape::InFlight {
                    from,
                    sent: place,
                    to,
                    again: false,
                    undone: true,
                });
            }
            if received.contains(&MessageName { from, ssn }) {
                return None;
            }
            Some(Shape::InFlight {
                from,
                sent: place,
                to,
                again: place < last_sent(place, comeback_of(comebacks, from, to)),
                undone: false,
            })
        }
        _ => None,
    }
}

/// Draws a stub at each send of a message that nobody has received in the end.
pub(crate) fn push_stubs(
    shapes: &mut Vec<Shape>,
    alloc: Global,
    columns: &[Column],
) -> Result<(), AllocError>
    ensures { OnOk result (shapes.new.items ≡ shapes.old.items ++ drawn (stub_in columns.now) 0 columns.now) }
{
    let received = received_in(alloc, columns)?;
    let comebacks = comebacks_in(alloc, columns)?;
    for (place, column) in columns.iter().enumerate() {
        push_any(shapes, stub(&received, &comebacks, place, column))?;
    }
    Ok(())
}
