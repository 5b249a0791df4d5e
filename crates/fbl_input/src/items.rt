//! The items of the lists that scripts and recorded runs have.

ghost use Rattle.std.specs.Prelude.{◌≡◌, map, not};
ghost use Rattle.std.specs.List.{position};
ghost use Rattle.serde_json.specs.View.{view};
ghost use Rattle.fbl_input.specs.Items.{bad_place, control_named, entry_named, event_in, is_item, later_receipt_from, pair_from, receipt_from, receipt_named, restart_from, send_from, start_from, tell_from, told_from};

use crate::input_kind::InputKind;
use crate::key::Key;
use crate::shapes::{ByteShape, JsonShape, count_in, is_named, list_in, member_in};
use fbl_runs::{ControlMessage, Entry, Restart};
use fbl_trace::{Determinant, Mark, Member, Note, Start};
use serde_json::Value;

fn start_of(list: &[Value]) -> Option<Start>
    ensures { result ≡ start_from (map view list.now) }
{
    match list {
        [from, to, value, hops] => {
            let from = member_in(from)?;
            let to = member_in(to)?;
            let value = count_in(value)?;
            let hops = ByteShape::in_value(hops)?;
            let note = Note { value, hops };
            Some(Start { from, to, note })
        }
        _ => None,
    }
}

/// A start: a list of its sender, its receiver, its value and its hops.
pub struct StartShape;

impl JsonShape<Start> for StartShape {
    ghost use Rattle.fbl_input.specs.Items.{start_shape};

    ghost shape = { start_shape };

    fn in_value(value: &Value) -> Option<Start> {
        start_of(list_in(value)?)
    }
}

fn pair_of(list: &[Value]) -> Option<(Member, Determinant)>
    ensures { result ≡ pair_from (map view list.now) }
{
    match list {
        [holder, from, ssn, to, rsn] => {
            let holder = member_in(holder)?;
            let from = member_in(from)?;
            let ssn = count_in(ssn)?;
            let to = member_in(to)?;
            let rsn = count_in(rsn)?;
            Some((holder, Determinant { from, ssn, to, rsn }))
        }
        _ => None,
    }
}

/// A held pair: a list of the holder and the parts of the determinant.
pub struct PairShape;

impl JsonShape<(Member, Determinant)> for PairShape {
    ghost use Rattle.fbl_input.specs.Items.{pair_shape};

    ghost shape = { pair_shape };

    fn in_value(value: &Value) -> Option<(Member, Determinant)> {
        pair_of(list_in(value)?)
    }
}

fn send_of(list: &[Value]) -> Option<Entry>
    ensures { result ≡ send_from (map view list.now) }
{
    match list {
        [from, ssn, to] => {
            let from = member_in(from)?;
            let ssn = count_in(ssn)?;
            let to = member_in(to)?;
            Some(Entry::Event(Mark::Send { from, ssn, to }))
        }
        _ => None,
    }
}

fn receipt_of(list: &[Value]) -> Option<Entry>
    ensures { result ≡ receipt_from (map view list.now) }
{
    match list {
        [to, rsn, from, ssn] => {
            let to = member_in(to)?;
            let rsn = count_in(rsn)?;
            let from = member_in(from)?;
            let ssn = count_in(ssn)?;
            Some(Entry::Event(Mark::Receipt { to, rsn, from, ssn }))
        }
        _ => None,
    }
}

fn later_receipt_of(list: &[Value]) -> Option<Entry>
    ensures { result ≡ later_receipt_from (map view list.now) }
{
    match list {
        [to, rsn, from, ssn, life] => {
            let to = member_in(to)?;
            let rsn = count_in(rsn)?;
            let from = member_in(from)?;
            let ssn = count_in(ssn)?;
            let life = count_in(life)?;
            let determinant = Determinant { from, ssn, to, rsn };
            Some(Entry::LaterReceipt { determinant, life })
        }
        _ => None,
    }
}

fn restart_of(list: &[Value]) -> Option<Entry>
    ensures { result ≡ restart_from (map view list.now) }
{
    match list {
        [member, life, receipts, sends] => {
            let member = member_in(member)?;
            let life = count_in(life)?;
            let receipts = count_in(receipts)?;
            let sends = count_in(sends)?;
            Some(Entry::Restart(Restart {
                member,
                life,
                receipts,
                sends,
            }))
        }
        _ => None,
    }
}

fn tell_of(list: &[Value]) -> Option<Entry>
    ensures { result ≡ tell_from (map view list.now) }
{
    match list {
        [from, to, id] => {
            let from = member_in(from)?;
            let to = member_in(to)?;
            let id = count_in(id)?;
            Some(Entry::Tell(ControlMessage { from, to, id }))
        }
        _ => None,
    }
}

fn told_of(list: &[Value]) -> Option<Entry>
    ensures { result ≡ told_from (map view list.now) }
{
    match list {
        [to, from, id] => {
            let to = member_in(to)?;
            let from = member_in(from)?;
            let id = count_in(id)?;
            Some(Entry::Told(ControlMessage { from, to, id }))
        }
        _ => None,
    }
}

/// A receipt, which names a life of its sender or none.
fn receipt_named(list: &[Value]) -> Option<Entry>
    ensures { result ≡ receipt_named (map view list.now) }
{
    match list {
        [_, _, _, _, _] => later_receipt_of(list),
        _ => receipt_of(list),
    }
}

/// The entry with the name, if it is of a control message, by what stands behind that.
fn control_named(name: &Value, list: &[Value]) -> Option<Entry>
    ensures { result ≡ control_named (view name.now) (map view list.now) }
{
    if is_named(name, "tell") {
        return tell_of(list);
    }
    if is_named(name, "told") {
        return told_of(list);
    }
    None
}

/// The entry with the name, by what stands behind that.
fn entry_named(name: &Value, list: &[Value]) -> Option<Entry>
    ensures { result ≡ entry_named (view name.now) (map view list.now) }
{
    if is_named(name, "send") {
        return send_of(list);
    }
    if is_named(name, "receipt") {
        return receipt_named(list);
    }
    if is_named(name, "restart") {
        return restart_of(list);
    }
    if is_named(name, "hold") {
        let (holder, determinant) = pair_of(list)?;
        return Some(Entry::Hold {
            holder,
            determinant,
        });
    }
    if is_named(name, "store") {
        let (member, determinant) = pair_of(list)?;
        return Some(Entry::Store {
            member,
            determinant,
        });
    }
    control_named(name, list)
}

/// What a list of entries has to be, in words for a person.
pub(crate) const ENTRIES_WANTED: &str =
    "a list of events [\"send\", from, number, to], [\"receipt\", to, number, from, number of the send], \
    [\"receipt\", to, number, from, number of the send, life], \
    [\"hold\", holder, from, number of the send, to, number of the receipt], \
    [\"store\", member, from, number of the send, to, number of the receipt], \
    [\"tell\", from, to, id], [\"told\", to, from, id] and [\"restart\", member, life, receipts, sends]";

/// What each of them has to be.
pub(crate) const ENTRY_WANTED: &str =
    "[\"send\", from, number, to], [\"receipt\", to, number, from, number of the send], \
    [\"receipt\", to, number, from, number of the send, life], \
    [\"hold\", holder, from, number of the send, to, number of the receipt], \
    [\"store\", member, from, number of the send, to, number of the receipt], \
    [\"tell\", from, to, id], [\"told\", to, from, id] or [\"restart\", member, life, receipts, sends]: \
    members 0 to 15, numbers 0 to 4294967295";

/// An entry of a recorded run: a list that begins with its name.
pub struct EntryShape;

impl JsonShape<Entry> for EntryShape {
    ghost use Rattle.fbl_input.specs.Items.{entry_shape};

    ghost shape = { entry_shape };

    fn in_value(value: &Value) -> Option<Entry> {
        match list_in(value)? {
            [name, list @ ..] => entry_named(name, list),
            [] => None,
        }
    }
}

/// What a list of sends and receipts has to be, in words for a person.
pub(crate) const EVENTS_WANTED: &str = "a list of events [\"send\", from, number, to] and \
    [\"receipt\", to, number, from, number of the send]";

/// What each of them has to be.
pub(crate) const EVENT_WANTED: &str =
    "[\"send\", from, number, to] or [\"receipt\", to, number, from, number of the send]: \
    members 0 to 15, numbers 0 to 4294967295";

/// The send or receipt that the entry is, if it names no life.
fn event_in(entry: Entry) -> Option<Mark>
    ensures { result ≡ event_in entry }
{
    match entry {
        Entry::Event(event) => Some(event),
        _ => None,
    }
}

/// A send or a receipt, which names no life.
pub struct EventShape;

impl JsonShape<Mark> for EventShape {
    ghost use Rattle.fbl_input.specs.Items.{event_shape};

    ghost shape = { event_shape };

    fn in_value(value: &Value) -> Option<Mark> {
        event_in(EntryShape::in_value(value)?)
    }
}

/// Whether the value may stand in the list at the key; what a command is depends on the version, and is said elsewhere.
fn is_item(kind: InputKind, key: Key, value: &Value) -> bool
    ensures { result ≡ is_item kind key (view value.now) }
{
    match (key, kind) {
        (Key::Start, _) => StartShape::in_value(value).is_some(),
        (Key::Events, InputKind::Log) => EntryShape::in_value(value).is_some(),
        (Key::Events, _) => EventShape::in_value(value).is_some(),
        (Key::Held, _) => PairShape::in_value(value).is_some(),
        (Key::Strike, _) => member_in(value).is_some(),
        _ => true,
    }
}

/// The first place of the list where something else than an item of the key stands.
fn other_place(kind: InputKind, key: Key, list: &[Value]) -> Option<usize>
    ensures { result ≡ position (λ item. not (is_item kind key (view item))) list.now }
{
    list.iter().position(|item| !is_item(kind, key, item))
}

/// The first place of the list at the key where something else stands.
pub(crate) fn bad_place(kind: InputKind, key: Key, value: &Value) -> Option<usize>
    ensures { result ≡ bad_place kind key (view value.now) }
{
    other_place(kind, key, list_in(value.get(key.name())?)?)
}
