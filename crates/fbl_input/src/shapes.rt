//! Shapes of JSON values, as scripts and dumps ask for them.

ghost use Rattle.std.specs.Prelude.{◌≡◌, find, map, IfOk, Ok, Err, not, is_some, option_map, string_bytes, if◌then◌else◌};
ghost use Rattle.std.specs.FinSet as set;
ghost use Rattle.std.specs.BTreeMap.{keys};
ghost use Rattle.serde_json.specs.Find.{as_object};
ghost use Rattle.serde_json.specs.View.{view, members_view};
ghost use Rattle.fbl_input.specs.Items.{unknown_key};
ghost use Rattle.fbl_input.specs.Shapes.{Gives, all_shaped, as_list, count_shape, field, is_key_of, is_text, json_of, list_of, member_shape, number_within, or_fault, set_shape, value_of_input};
ghost use Rattle.fbl_input.specs.declared.fault.RunFault.TheVariants.{NotObject, UnknownKey};

use crate::fault::RunFault;
use crate::input_kind::InputKind;
use crate::key::Key;
use fbl_trace::{Member, MemberSet};
use serde_json::{Map, Value};
use std::alloc::{AllocError, Global};

/// How a value of a type is read from JSON.
pub trait JsonShape<T> {
    ghost use Rattle.std.specs.Prelude.{◌≡◌, Option};
    ghost use Rattle.serde_json.specs.Data.{Data};
    ghost use Rattle.serde_json.specs.View.{view};

    ghost shape: { Data → Option T };

    /// What the value gives, if it has the shape.
    fn in_value(value: &Value) -> Option<T>
        ensures { result ≡ shape (view value.now) };
}

/// A number that a byte holds.
pub struct ByteShape;

impl JsonShape<u8> for ByteShape {
    ghost use Rattle.fbl_input.specs.Shapes.{byte_shape};

    ghost shape = { byte_shape };

    fn in_value(value: &Value) -> Option<u8> {
        let number = number_in(value, 0, u64::from(u8::MAX))?;
        Some(number as u8)
    }
}

/// How many bytes an input has at most.
pub const LONGEST: usize = 1_048_576;

/// A whole number from `low` to `high`.
pub fn number_in(value: &Value, low: u64, high: u64) -> Option<u64>
    ensures { result ≡ number_within low high (view value.now) }
{
    value.as_u64().filter(|n| low <= *n && *n <= high)
}

/// A count, a place or a value: a number below 2 to the 32nd.
pub fn count_in(value: &Value) -> Option<u32>
    ensures { result ≡ count_shape (view value.now) }
{
    let number = number_in(value, 0, u64::from(u32::MAX))?;
    Some(number as u32)
}

/// A member: a number from 0 to 15.
pub fn member_in(value: &Value) -> Option<Member>
    ensures { result ≡ member_shape (view value.now) }
{
    let number = number_in(value, 0, 15)?;
    Member::new(number as u8)
}

/// The values of a list.
#[tactic(auto, using(crate::proofs::Lists::elements_of))]
pub fn list_in(value: &Value) -> Option<&[Value]>
    ensures { option_map (λ v. map view v.now) result ≡ as_list (view value.now) }
{
    match value.as_array() {
        Some(list) => Some(list.as_slice()),
        None => None,
    }
}

/// Whether the value is this text.
pub fn is_named(value: &Value, text: &str) -> bool
    ensures { result ≡ is_text text.now (view value.now) }
{
    match value.as_str() {
        Some(found) => found == text,
        None => false,
    }
}

/// Whether the text is the name of one of the keys.
fn is_key_in(known: &[Key], text: &str) -> bool
    ensures { result ≡ is_key_of known.now text.now }
{
    known.iter().any(|key| text == key.name())
}

/// The set of the members in a list, if each of its values is one.
fn set_of(list: &[Value]) -> Option<MemberSet>
    ensures { result ≡ option_map set.from_list (all_shaped member_shape (map view list.now)) }
{
    let mut set = MemberSet::empty();
    for value in list {
        let member = member_in(value)?;
        set = set.with(member);
    }
    Some(set)
}

/// A set, from a list of members in any order. A member that is named twice counts once.
pub fn set_in(value: &Value) -> Option<MemberSet>
    ensures { result ≡ set_shape (view value.now) }
{
    set_of(list_in(value)?)
}

/// What the values of a list give, if each has the shape. `Err` comes only where there is no memory for it.
pub fn all_in<T: Copy, S: JsonShape<T>>(
    alloc: Global,
    list: &[Value],
) -> Result<Option<Vec<T>>, AllocError>
    ensures { IfOk result (λ found. option_map (λ v. v.items) found ≡ all_shaped S.shape (map view list.now)) }
{
    let mut all = Vec::new(alloc);
    for value in list {
        match S::in_value(value) {
            Some(one) => all.push(one)?,
            None => return Ok(None),
        }
    }
    Ok(Some(all))
}

fn key_but_in<'a>(object: &'a Map<String, Value>, known: &[Key]) -> Option<&'a String>
    ensures { option_map (λ k. k.now) result ≡ find (λ k. not (is_key_of known.now (string_bytes k))) (keys object.now) }
{
    object.keys().find(|key| !is_key_in(known, key.as_str()))
}

/// The first key of the value that an input of this kind may not have.
pub(crate) fn unknown_key_in(kind: InputKind, value: &Value) -> Option<&String>
    ensures { option_map (λ name. string_bytes name.now) result ≡ unknown_key kind (view value.now) }
{
    key_but_in(value.as_object()?, kind.keys())
}

/// The object that the value is, and else `NotObject`.
pub fn object_in(value: &Value) -> Result<&Map<String, Value>, RunFault>
    ensures { Gives (λ o. members_view o.now.entries) result (or_fault NotObject (as_object (view value.now))) }
{
    value.as_object().ok_or(RunFault::NotObject)
}

/// What the value at the key gives, if it has the shape, and else `BadField`.
pub fn value_field<T: Copy, S: JsonShape<T>>(value: &Value, key: Key) -> Result<T, RunFault>
    ensures { Gives (λ x. x) result (field key S.shape (view value.now)) }
{
    match value.get(key.name()) {
        Some(found) => S::in_value(found).ok_or(RunFault::BadField(key)),
        None => Err(RunFault::BadField(key)),
    }
}

/// The list at the key, and else `BadField`.
pub fn list_field(value: &Value, key: Key) -> Result<&[Value], RunFault>
    ensures { Gives (λ v. map view v.now) result (field key as_list (view value.now)) }
{
    match value.get(key.name()) {
        Some(found) => list_in(found).ok_or(RunFault::BadField(key)),
        None => Err(RunFault::BadField(key)),
    }
}

/// What the values of the list at the key give, if each has the shape, and else `BadField`.
pub fn values_field<T: Copy, S: JsonShape<T>>(
    alloc: Global,
    value: &Value,
    key: Key,
) -> Result<Vec<T>, RunFault>
    ensures { Gives (λ v. v.items) result (field key (list_of S.shape) (view value.now)) }
{
    all_in::<T, S>(alloc, list_field(value, key)?)?.ok_or(RunFault::BadField(key))
}

/// A set of members.
pub struct SetShape;

impl JsonShape<MemberSet> for SetShape {
    ghost use Rattle.fbl_input.specs.Shapes.{set_shape};

    ghost shape = { set_shape };

    fn in_value(value: &Value) -> Option<MemberSet> {
        set_in(value)
    }
}

/// Whether each key is one that an input of this kind may have, and else `UnknownKey`.
pub fn no_other_key(kind: InputKind, value: &Value) -> Result<(), RunFault>
    ensures { Gives (λ x. x) result (if is_some (unknown_key kind (view value.now)) then Err UnknownKey else Ok tt) }
{
    match unknown_key_in(kind, value) {
        Some(_) => Err(RunFault::UnknownKey),
        None => Ok(()),
    }
}

/// The JSON that the bytes spell, if they do. `Err` comes only where there is no memory for the value.
pub fn json_in(alloc: Global, bytes: &[u8]) -> Result<Option<Value>, AllocError>
    ensures { IfOk result (λ value. option_map view value ≡ json_of bytes.now) }
{
    match Value::from_slice(alloc, bytes) {
        Ok(value) => Ok(Some(value)),
        Err(e) if e.is_memory() => Err(AllocError),
        Err(_) => Ok(None),
    }
}

/// The JSON that an input is: `TooLong` past 1,048,576 bytes, and else `NotJson` where the bytes spell none. `Memory` comes
/// only where there is none for the value.
pub fn value_in(alloc: Global, input: &[u8]) -> Result<Value, RunFault>
    ensures { Gives view result (value_of_input input.now) }
{
    if input.len() > LONGEST {
        return Err(RunFault::TooLong);
    }
    json_in(alloc, input)?.ok_or(RunFault::NotJson)
}
