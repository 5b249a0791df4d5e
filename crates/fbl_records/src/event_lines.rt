//! A log as the lines that a process writes, and the JSON text for which they stand.

ghost use Rattle.std.specs.Prelude.{◌≡◌, ◌==◌, IfOk, IfSome, OnOk, map, option_map, [], ◌∷◌};
ghost use Rattle.std.specs.List.{after_first, before_last};
ghost use Rattle.serde_json.specs.View.{view};
ghost use Rattle.fbl_input.specs.Shapes.{json_of};
ghost use Rattle.fbl_records.specs.EventLines.{all_events, events_in, events_of, head_of, in_brackets, is_blank, is_head, is_whole, joined, json_text, lines_of, lines_text, text_of_lines, with_events};

use crate::log_version::log_version_in;
use fbl_input::Key;
use fbl_input::shapes::{json_in, list_in};
use memchr::{memchr, memrchr};
use serde_json::Value;
use std::alloc::{AllocError, Global};

/// The lines of the input, each without its newline. What stands behind the last newline is left out.
fn lines_of(alloc: Global, input: &[u8]) -> Result<Vec<&[u8]>, AllocError>
    ensures { IfOk result (λ lines. map (λ line. line.now) lines.items ≡ lines_of input.now) }
{
    let mut lines = Vec::new(alloc);
    let mut start = 0;
    for (place, byte) in input.iter().enumerate() {
        if *byte == b'\n' {
            lines.push(&input[start..place])?;
            start = place + 1;
        }
    }
    Ok(lines)
}

/// Whether the line has nothing but spaces.
fn is_blank(line: &[u8]) -> bool
    ensures { result ≡ is_blank line.now }
{
    line.iter().all(|byte| byte.is_ascii_whitespace())
}

/// What stands behind the first such byte: nothing where there is none.
fn behind_first(text: &[u8], byte: u8) -> &[u8]
    ensures { result.now ≡ after_first (λ b. b == byte) text.now }
{
    match memchr(byte, text) {
        Some(place) => &text[place + 1..],
        None => &[],
    }
}

/// What stands before the last such byte: nothing where there is none.
fn before_last(text: &[u8], byte: u8) -> &[u8]
    ensures { result.now ≡ before_last (λ b. b == byte) text.now }
{
    match memrchr(byte, text) {
        Some(place) => &text[..place],
        None => &[],
    }
}

/// What stands between the line's first opening bracket and its last closing one.
fn in_brackets(line: &[u8]) -> &[u8]
    ensures { result.now ≡ in_brackets line.now }
{
    before_last(behind_first(line, b'['), b']')
}

/// The events on a line that spells this list: one that begins with a word is an event, and any other a step, whose events stand between
/// its brackets.
fn events_in<'l>(line: &'l [u8], list: &[Value]) -> &'l [u8]
    ensures { result.now ≡ events_in line.now (map view list.now) }
{
    match list {
        [] => &[],
        [first, ..] => {
            if first.as_str().is_some() {
                line
            } else {
                in_brackets(line)
            }
        }
    }
}

/// The events on a line, if it spells a list; a blank one has none. `Err` comes only where there is no memory to read it.
fn events_of(alloc: Global, line: &[u8]) -> Result<Option<&[u8]>, AllocError>
    ensures { IfOk result (λ text. option_map (λ events. events.now) text ≡ events_of line.now) }
{
    if is_blank(line) {
        return Ok(Some(&[]));
    }
    match json_in(alloc, line)? {
        Some(value) => Ok(list_in(&value).map(|list| events_in(line, list))),
        None => Ok(None),
    }
}

/// Puts more events behind these, with a comma between.
fn join(text: &mut Vec<u8>, more: &[u8]) -> Result<(), AllocError>
    ensures { OnOk result (text.new.items ≡ joined text.old.items more.now) }
{
    if !text.is_empty() && !more.is_empty() {
        text.push(b',')?;
    }
    Ok(text.extend_from_slice(more)?)
}

/// The events on the lines, if each spells a list or is blank.
fn all_events(alloc: Global, lines: &[&[u8]]) -> Result<Option<Vec<u8>>, AllocError>
    ensures { IfOk result (λ text. option_map (λ v. v.items) text ≡ all_events [] (map (λ line. line.now) lines.now)) }
{
    let mut text = Vec::new(alloc);
    for line in lines {
        match events_of(alloc, line)? {
            Some(more) => join(&mut text, more)?,
            None => return Ok(None),
        }
    }
    Ok(Some(text))
}

/// Whether the value is the object of a log without its events.
fn is_head(value: &Value) -> bool
    ensures { result ≡ is_head (view value.now) }
{
    log_version_in(value).is_some() && value.get(Key::Events.name()).is_none()
}

/// A line that spells such an object, up to its last bracket.
fn head_of(alloc: Global, line: &[u8]) -> Result<Option<&[u8]>, AllocError>
    ensures { IfOk result (λ head. option_map (λ text. text.now) head ≡ head_of line.now) }
{
    match json_in(alloc, line)? {
        Some(value) if is_head(&value) => Ok(Some(before_last(line, b'}'))),
        _ => Ok(None),
    }
}

/// The object with these events behind its fields.
fn with_events(alloc: Global, head: &[u8], events: &[u8]) -> Result<Vec<u8>, AllocError>
    ensures { IfOk result (λ text. text.items ≡ with_events head.now events.now) }
{
    let mut text = Vec::from_slice(alloc, head)?;
    text.extend_from_slice(b",\"events\":[")?;
    text.extend_from_slice(events)?;
    text.extend_from_slice(b"]}")?;
    Ok(text)
}

/// The text for which the lines stand, if they are those of a log.
fn text_of_lines(alloc: Global, lines: &[&[u8]]) -> Result<Option<Vec<u8>>, AllocError>
    ensures { IfOk result (λ text. option_map (λ v. v.items) text ≡ text_of_lines (map (λ line. line.now) lines.now)) }
{
    match lines {
        [first, rest @ ..] => {
            let Some(head) = head_of(alloc, first)? else {
                return Ok(None);
            };
            let Some(events) = all_events(alloc, rest)? else {
                return Ok(None);
            };
            Ok(Some(with_events(alloc, head, events.as_slice())?))
        }
        [] => Ok(None),
    }
}

/// A text, and the JSON value that it spells, if it spells one.
#[derive(Drop)]
pub(crate) struct JsonText {
    pub(crate) text: Vec<u8>,
    pub(crate) value: Option<Value>,
}

/// The JSON text for which the lines of the input stand, if they are those of a log.
fn lines_text(alloc: Global, input: &[u8]) -> Result<Option<JsonText>, AllocError>
    ensures text { IfOk result (λ found. option_map (λ t. t.text.items) found ≡ lines_text input.now) }
    ensures value { IfOk result (λ found. IfSome found (λ t. option_map view t.value ≡ json_of t.text.items)) }
{
    let lines = lines_of(alloc, input)?;
    let Some(text) = text_of_lines(alloc, lines.as_slice())? else {
        return Ok(None);
    };
    match json_in(alloc, text.as_slice())? {
        Some(value) => Ok(Some(JsonText {
            text,
            value: Some(value),
        })),
        None => Ok(None),
    }
}

/// Whether a text with this value is more than the first line of a log.
fn is_whole(value: &Option<Value>) -> bool
    ensures { result ≡ is_whole (option_map view value.now) }
{
    match value {
        Some(value) => !is_head(value),
        None => false,
    }
}

/// The text that the input means: its own, where it is JSON and more than the first line of a log; else that for which its lines stand, if
/// they are those of a log. `Err` comes only where there is no memory for it.
pub(crate) fn json_text(alloc: Global, input: Vec<u8>) -> Result<JsonText, AllocError>
    ensures text { IfOk result (λ found. found.text.items ≡ json_text input.items) }
    ensures value { IfOk result (λ found. option_map view found.value ≡ json_of found.text.items) }
{
    let value = json_in(alloc, input.as_slice())?;
    if is_whole(&value) {
        return Ok(JsonText { text: input, value });
    }
    match lines_text(alloc, input.as_slice())? {
        Some(found) => Ok(found),
        None => Ok(JsonText { text: input, value }),
    }
}
