//! An input's fault in words, with what stands in the input as it is written there.

ghost use Rattle.std.specs.Prelude.{◌≡◌, IfNone, IfOk, IfSome, option_map, string_bytes};
ghost use Rattle.json.specs.Print.{print};
ghost use Rattle.json.specs.Tree.{HasNumbers, json_tokens};
ghost use Rattle.json.specs.Value.{value_view};
ghost use Rattle.serde_json.specs.View.{view};
ghost use Rattle.fbl_input.specs.Explanations.{IsCommandDetail, IsDetail, IsDetailIn, IsFieldDetail, IsUnexplained, IsWritten, kind_of, part_at};
ghost use Rattle.fbl_input.specs.Items.{unknown_key};

use crate::command_form::{MOST_COMMANDS, Wanted};
use crate::excerpt::Excerpt;
use crate::fault::RunFault;
use crate::input_fault::InputFault;
use crate::input_kind::InputKind;
use crate::items::bad_place;
use crate::key::Key;
use crate::not_json::Stop;
use crate::shapes::unknown_key_in;
use json::Scratch;
use serde_json::{Error as JsonError, Value};
use std::alloc::{AllocError, Global};
use std::fmt;

/// What is told of an input beside its fault.
#[derive(Drop)]
enum Detail {
    /// Nothing: the fault or the broken rule says all.
    Nothing,
    /// It is an input of this kind, and not of the one that is wanted.
    OtherKind(InputKind),
    /// It is no JSON: what the reader of JSON says of it, and what stands where that stopped.
    NotJson(JsonError, Stop),
    /// It is no object, but this.
    NotObject(Option<String>),
    /// Nothing stands at the key. The first key that is unknown may be what was meant.
    Missing {
        key: Key,
        unknown: Option<String>,
    },
    /// At the key, or at a place of the list there, the first such, stands this, and not what is wanted.
    Wrong {
        key: Key,
        place: Option<usize>,
        found: Option<String>,
    },
    /// There is a command at place 1024.
    TooManyCommands,
    /// At the place of the commands, the first such, stands this, and no command.
    WrongCommand {
        place: usize,
        wanted: Wanted,
        found: Option<String>,
    },
    /// The first key that one of its kind may not have.
    Unknown(String),
}

/// Why an input is not taken, in words for a person.
#[derive(Drop)]
pub struct Explanation<'a> {
    fault: &'a InputFault,
    detail: Detail,
}

/// The kind of an input that has the list of a script, commands, or that of a dump of either version, events, and not both.
fn kind_in(value: &Value) -> Option<InputKind>
    ensures { result ≡ kind_of (view value.now) }
{
    let has_commands = value.get(Key::Commands.name()).is_some();
    let has_events = value.get(Key::Events.name()).is_some();
    match (has_commands, has_events) {
        (true, false) => Some(InputKind::Script),
        (false, true) => Some(InputKind::Dump),
        _ => None,
    }
}

/// The text of a value, without spaces, with each number as it was written.
fn text_of(alloc: Global, value: &json::Value<'_>) -> Result<String, AllocError>
    requires { HasNumbers (value_view value.now) }
    ensures { IfOk result (λ text. string_bytes text ≡ print (json_tokens (value_view value.now))) }
{
    let bytes = json::to_vec(alloc, value)?;
    match String::from_utf8(bytes) {
        Ok(text) => Ok(text),
        Err(_) => Ok(String::new(alloc)),
    }
}

/// The part of the value at the key, if there is one, and at the place there, if there is one.
fn part_in<'v, 'a>(
    value: &'v json::Value<'a>,
    key: Option<Key>,
    place: Option<usize>,
) -> Option<&'v json::Value<'a>>
    ensures { option_map (λ part. value_view part.now) result ≡ part_at key place (value_view value.now) }
{
    match (key, place) {
        (Some(key), Some(place)) => value.get(key.name())?.at(place),
        (Some(key), None) => value.get(key.name()),
        (None, Some(place)) => value.at(place),
        (None, None) => Some(value),
    }
}

/// What stands there in the input, as it is written.
fn written_at(
    alloc: Global,
    input: &[u8],
    key: Option<Key>,
    place: Option<usize>,
) -> Result<Option<String>, AllocError>
    ensures { IfOk result (IsWritten input.now key place) }
{
    let mut scratch = Scratch::new(alloc);
    match json::Value::from_slice(alloc, input, &mut scratch) {
        Ok(value) => match part_in(&value, key, place) {
            Some(part) => Ok(Some(text_of(alloc, part)?)),
            None => Ok(None),
        },
        Err(json::Error::Invalid) => Ok(None),
        Err(_) => Err(AllocError),
    }
}

/// The first key of the value that an input of this kind may not have.
fn unknown_in(alloc: Global, kind: InputKind, value: &Value) -> Result<Option<String>, AllocError>
    ensures { IfOk result (λ name. option_map string_bytes name ≡ unknown_key kind (view value.now)) }
{
    match unknown_key_in(kind, value) {
        Some(name) => Ok(Some(String::from_str(alloc, name.as_str())?)),
        None => Ok(None),
    }
}

/// What is told of a bad field.
fn field_detail(
    alloc: Global,
    fault: &InputFault,
    value: &Value,
    key: Key,
) -> Result<Detail, AllocError>
    ensures { IfOk result (IsFieldDetail fault.now.kind fault.now.input.items (view value.now) key) }
{
    if value.get(key.name()).is_none() {
        let unknown = unknown_in(alloc, fault.kind, value)?;
        return Ok(Detail::Missing { key, unknown });
    }
    let place = bad_place(fault.kind, key, value);
    let found = written_at(alloc, fault.input.as_slice(), Some(key), place)?;
    Ok(Detail::Wrong { key, place, found })
}

/// What is told of a bad command.
fn command_detail(
    alloc: Global,
    fault: &InputFault,
    value: &Value,
    place: usize,
) -> Result<Detail, AllocError>
    ensures { IfOk result (IsCommandDetail fault.now.input.items (view value.now) place) }
{
    if place >= MOST_COMMANDS {
        return Ok(Detail::TooManyCommands);
    }
    let wanted = Wanted::at(value, place);
    let found = written_at(
        alloc,
        fault.input.as_slice(),
        Some(Key::Commands),
        Some(place),
    )?;
    Ok(Detail::WrongCommand {
        place,
        wanted,
        found,
    })
}

/// What is told of the input of the fault that has this value.
fn detail_in(alloc: Global, fault: &InputFault, value: &Value) -> Result<Detail, AllocError>
    ensures { IfOk result (IsDetail fault.now (view value.now)) }
{
    match kind_in(value) {
        Some(other) if other.is_script() != fault.kind.is_script() => {
            return Ok(Detail::OtherKind(other));
        }
        _ => (),
    }
    match fault.fault {
        RunFault::NotObject => {
            Ok(Detail::NotObject(written_at(alloc, fault.input.as_slice(), None, None)?))
        }
        RunFault::BadField(key) => field_detail(alloc, fault, value, key),
        RunFault::BadCommand(place) => command_detail(alloc, fault, value, place),
        RunFault::UnknownKey => match unknown_in(alloc, fault.kind, value)? {
            Some(name) => Ok(Detail::Unknown(name)),
            None => Ok(Detail::Nothing),
        },
        _ => Ok(Detail::Nothing),
    }
}

/// What is told of the input of the fault.
fn detail_of(alloc: Global, fault: &InputFault) -> Result<Detail, AllocError>
    ensures { IfOk result (IsDetailIn fault.now) }
{
    if let RunFault::TooLong = fault.fault {
        return Ok(Detail::Nothing);
    }
    let input = fault.input.as_slice();
    match Value::from_slice(alloc, input) {
        Ok(value) => detail_in(alloc, fault, &value),
        Err(error) if error.is_memory() => Err(AllocError),
        Err(error) => {
            let stop = Stop::of(alloc, input, &error)?;
            Ok(Detail::NotJson(error, stop))
        }
    }
}

impl InputFault {
    /// The fault explained: its place, what stands there as it is written in the input, and what is wanted there. A failed read
    /// and want of memory have no more to tell. `Err` comes only where there is no memory for the words.
    pub fn explanation(&self, alloc: Global) -> Result<Option<Explanation<'_>>, AllocError>
        ensures own { IfOk result (λ found. IfSome found (λ explanation. explanation.fault.now ≡ self.now)) }
        ensures detail { IfOk result (λ found. IfSome found (λ explanation. IsDetailIn self.now explanation.detail)) }
        ensures none { IfOk result (λ found. IfNone found (IsUnexplained self.now.fault)) }
    {
        match self.fault {
            RunFault::Read | RunFault::Write | RunFault::Memory => Ok(None),
            _ => {
                let detail = detail_of(alloc, self)?;
                Ok(Some(Explanation {
                    fault: self,
                    detail,
                }))
            }
        }
    }
}

/// Writes that the input is of this kind, and must be of the other.
fn write_other_kind<W: fmt::Write>(f: &mut fmt::Formatter<W>, found: InputKind) -> fmt::Result {
    let (words, wanted) = if found.is_script() {
        (
            "script, which play and show read, and must be a dump",
            InputKind::Dump,
        )
    } else {
        (
            "dump, which audit, check and draw read, and must be a script",
            InputKind::Script,
        )
    };
    write!(f, "the input is a {words}: {wanted}")
}

/// Writes which key is missing, and the first that is unknown.
fn write_missing<W: fmt::Write>(
    f: &mut fmt::Formatter<W>,
    kind: InputKind,
    key: Key,
    unknown: Option<&String>,
) -> fmt::Result {
    let wanted = kind.wanted_at(key);
    write!(f, "{key} is missing, and must be {wanted}")?;
    match unknown {
        Some(name) => write!(f, "; the key {name:?} is unknown"),
        None => Ok(()),
    }
}

/// What is found somewhere, if it could be read again.
fn excerpt_of(found: &Option<String>) -> Excerpt<'_> {
    match found {
        Some(text) => Excerpt(text.as_str()),
        None => Excerpt("another value"),
    }
}

/// Writes what is found at the key, or at the place of the list there, and what is wanted.
fn write_wrong<W: fmt::Write>(
    f: &mut fmt::Formatter<W>,
    kind: InputKind,
    key: Key,
    place: Option<usize>,
    found: Excerpt<'_>,
) -> fmt::Result {
    match place {
        Some(place) => {
            let (name, wanted) = kind.wanted_item(key);
            write!(f, "{name} {place} is {found}, and must be {wanted}")
        }
        None => {
            let wanted = kind.wanted_at(key);
            write!(f, "{key} is {found}, and must be {wanted}")
        }
    }
}

/// Writes the rule that is broken.
fn write_rule<W: fmt::Write>(f: &mut fmt::Formatter<W>, fault: &InputFault) -> fmt::Result {
    match (&fault.breach, fault.fault) {
        (Some(breach), _) => fmt::Display::fmt(breach, f),
        (None, RunFault::TooLong) => {
            f.write_str("the input has more than 1048576 bytes, and may have no more")
        }
        (None, other) => write!(f, "{other}"),
    }
}

impl fmt::Display for Explanation<'_> {
    fn fmt<W: fmt::Write>(&self, f: &mut fmt::Formatter<W>) -> fmt::Result {
        let kind = self.fault.kind;
        match &self.detail {
            Detail::Nothing => write_rule(f, self.fault),
            Detail::OtherKind(found) => write_other_kind(f, *found),
            Detail::NotJson(error, stop) => write!(
                f,
                "the input must be one JSON object, and is no JSON: {error}{stop}"
            ),
            Detail::NotObject(found) => {
                let found = excerpt_of(found);
                write!(f, "the input must be one JSON object, and is {found}")
            }
            Detail::Missing { key, unknown } => write_missing(f, kind, *key, unknown.as_ref()),
            Detail::Wrong { key, place, found } => {
                write_wrong(f, kind, *key, *place, excerpt_of(found))
            }
            Detail::TooManyCommands => f.write_str(
                "command 1024 is one too many: there may be 1024, numbered from 0",
            ),
            Detail::WrongCommand {
                place,
                wanted,
                found,
            } => {
                let found = excerpt_of(found);
                write!(f, "command {place} is {found}, and must be {wanted}")
            }
            Detail::Unknown(name) => write!(f, "the key {name:?} is unknown: {kind}"),
        }
    }
}
