//! What is wrong with a text that is no JSON.

use crate::excerpt::Excerpt;
use json::{Reader, Scratch, Token};
use serde_json::Error as JsonError;
use std::alloc::{AllocError, Global};
use std::fmt;

/// The bytes of a byte order mark.
const MARK: &[u8] = b"\xef\xbb\xbf";

/// What stands where the reader of JSON stopped.
#[derive(Drop)]
pub(crate) enum Stop {
    /// A byte order mark, at the start.
    ByteOrderMark,
    /// Bytes that are not UTF-8.
    NotUtf8,
    /// The end of a text that has nothing but spaces.
    Nothing,
    /// The end of a text that goes on, with so many lists and objects open.
    End(usize),
    /// What closes a list, behind a comma.
    ListEnd,
    /// What closes an object, behind a comma.
    ObjectEnd,
    /// A number that is too great. It stands before the place.
    GreatNumber(String),
    /// This character.
    Character(char),
    /// Nothing that can be named.
    Unknown,
}

/// The place of the byte in this column of this line, both from 1.
fn place_of(input: &[u8], line: usize, column: usize) -> usize {
    let mut row = 1usize;
    let mut start = 0usize;
    for (place, byte) in input.iter().enumerate() {
        if row == line {
            break;
        }
        if *byte == b'\n' {
            row = row.saturating_add(1);
            start = place.saturating_add(1);
        }
    }
    start.saturating_add(column.saturating_sub(1))
}

/// The last byte of the text that is no space.
fn last_byte(text: &[u8]) -> Option<u8> {
    text.trim_ascii().last().copied()
}

/// What stands at the place of a text in which the reader of JSON stopped there.
fn stop_at(text: &str, place: usize) -> Stop {
    let front = text.as_bytes().get(..place).unwrap_or(&[]);
    let after_comma = last_byte(front) == Some(b',');
    match text.get(place..).and_then(|rest| rest.chars().next()) {
        Some(']') if after_comma => Stop::ListEnd,
        Some('}') if after_comma => Stop::ObjectEnd,
        Some(character) => Stop::Character(character),
        None => Stop::Unknown,
    }
}

/// How many lists and objects the text leaves open.
fn open_in(alloc: Global, text: &str) -> Result<usize, AllocError> {
    let mut scratch = Scratch::new(alloc);
    let mut reader = Reader::new(text, &mut scratch)?;
    let mut open = 0usize;
    for _ in 0..text.len() {
        match reader.next() {
            Some(Token::BeginObject | Token::BeginArray) => open = open.saturating_add(1),
            Some(Token::EndObject | Token::EndArray) => open = open.saturating_sub(1),
            Some(_) => (),
            None => break,
        }
    }
    Ok(open)
}

/// The number behind which the reader of JSON stands at the place, if it is too great for it.
fn great_number<'a>(reader: &mut Reader<'a>, tokens: usize, place: usize) -> Option<&'a str> {
    for _ in 0..tokens {
        if let Token::Number(number) = reader.next()? {
            let is_great = number.parse::<f64>().is_ok_and(f64::is_infinite);
            if is_great && reader.offset() == place {
                return Some(number);
            }
        }
    }
    None
}

/// The number that is too great, if it is that for which the reader of JSON stopped at the place.
fn great_number_at(alloc: Global, text: &str, place: usize) -> Result<Option<String>, AllocError> {
    let mut scratch = Scratch::new(alloc);
    let mut reader = Reader::new(text, &mut scratch)?;
    match great_number(&mut reader, text.len(), place) {
        Some(number) => Ok(Some(String::from_str(alloc, number)?)),
        None => Ok(None),
    }
}

/// What stands where the reader of JSON stopped in the text.
fn stop_in_text(alloc: Global, text: &str, error: &JsonError) -> Result<Stop, AllocError> {
    if text.trim_ascii().is_empty() {
        return Ok(Stop::Nothing);
    }
    if error.is_eof() {
        return Ok(Stop::End(open_in(alloc, text)?));
    }
    let place = place_of(text.as_bytes(), error.line(), error.column());
    match great_number_at(alloc, text, place)? {
        Some(number) => Ok(Stop::GreatNumber(number)),
        None => Ok(stop_at(text, place)),
    }
}

impl Stop {
    /// What stands where the reader of JSON stopped in the input, by what it says of it. `Err` comes only where there is no memory
    /// for it.
    pub(crate) fn of(alloc: Global, input: &[u8], error: &JsonError) -> Result<Stop, AllocError> {
        if input.starts_with(MARK) {
            return Ok(Stop::ByteOrderMark);
        }
        match str::from_utf8(input) {
            Ok(text) => stop_in_text(alloc, text, error),
            Err(_) => Ok(Stop::NotUtf8),
        }
    }
}

/// The words stand behind those of the reader of JSON.
impl fmt::Display for Stop {
    fn fmt<W: fmt::Write>(&self, f: &mut fmt::Formatter<W>) -> fmt::Result {
        match self {
            Stop::ByteOrderMark => f.write_str(": a byte order mark stands there, and { is wanted"),
            Stop::NotUtf8 => f.write_str(": what stands there is not UTF-8"),
            Stop::Nothing => f.write_str(": nothing stands there, and { is wanted"),
            Stop::End(0) => f.write_str(": the text ends too early"),
            Stop::End(open) => write!(f, ": the text ends too early, with brackets open: {open}"),
            Stop::ListEnd => f.write_str(": ] stands behind a comma, and a value is wanted"),
            Stop::ObjectEnd => f.write_str(": } stands behind a comma, and a key is wanted"),
            Stop::GreatNumber(number) => {
                let number = Excerpt(number.as_str());
                write!(
                    f,
                    ": before it stands {number}, and a number may not be so great"
                )
            }
            Stop::Character(character) => write!(f, ": {character:?} stands there"),
            Stop::Unknown => Ok(()),
        }
    }
}
