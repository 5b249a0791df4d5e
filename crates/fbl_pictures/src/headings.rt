//! The headings of pictures of runs.

ghost use Rattle.std.specs.Prelude.{◌≡◌, ◌++◌, IfOk, OnOk, string_bytes};
ghost use Rattle.fbl_pictures.specs.Headings.{audit_words as audit_words_of, escape, escaped, heading as heading_of, part_words as part_words_of, receipts_word as receipts_word_of, undone_words as undone_words_of, unsafe_words as unsafe_words_of};

use fbl_input::set_text;
use fbl_trace::{Determinant, MemberSet};
use std::alloc::{AllocError, Global};

/// The word for so many receipts.
pub(crate) fn receipts_word(count: u128) -> &'static str
    ensures { result.now ≡ receipts_word_of count }
{
    if count == 1 { "receipt" } else { "receipts" }
}

/// What an audit prints: who is struck, how many receipts are lost, and the orphans.
pub(crate) fn audit_words(
    alloc: Global,
    struck: MemberSet,
    lost: usize,
    orphans: MemberSet,
) -> Result<String, AllocError>
    ensures { IfOk result (λ text. string_bytes text ≡ audit_words_of struck lost orphans) }
{
    let struck = set_text(alloc, struck)?;
    let orphans = set_text(alloc, orphans)?;
    format!(in alloc; "struck {struck}, lost {lost}, orphans {orphans}")
}

/// What a check says of a receipt: what names it, at which moment it is unsafe, in these words, the strike set and the orphans.
pub(crate) fn unsafe_words(
    alloc: Global,
    determinant: &Determinant,
    at: &str,
    strike: MemberSet,
    orphans: MemberSet,
) -> Result<String, AllocError>
    ensures { IfOk result (λ text. string_bytes text ≡ unsafe_words_of determinant.now at.now strike orphans) }
{
    let from = determinant.from.number();
    let ssn = determinant.ssn;
    let to = determinant.to.number();
    let rsn = determinant.rsn;
    let strike = set_text(alloc, strike)?;
    let orphans = set_text(alloc, orphans)?;
    let mut text = format!(in alloc; "unsafe {from} {ssn} {to} {rsn}{at}")?;
    write!(text, ", strike {strike}, orphans {orphans}")?;
    Ok(text)
}

/// What a check says of a receipt that a restart undid: what names it, where the restart stands, in these words, and the orphans.
pub(crate) fn undone_words(
    alloc: Global,
    determinant: &Determinant,
    at: &str,
    orphans: MemberSet,
) -> Result<String, AllocError>
    ensures { IfOk result (λ text. string_bytes text ≡ undone_words_of determinant.now at.now orphans) }
{
    let from = determinant.from.number();
    let ssn = determinant.ssn;
    let to = determinant.to.number();
    let rsn = determinant.rsn;
    let orphans = set_text(alloc, orphans)?;
    let mut text = format!(in alloc; "undone {from} {ssn} {to} {rsn}{at}")?;
    write!(text, ", orphans {orphans}")?;
    Ok(text)
}

/// Adds a character as it may stand in XML.
fn push_escaped(written: &mut String, character: char) -> Result<(), AllocError>
    ensures { OnOk result (string_bytes written.new ≡ string_bytes written.old ++ escape character) }
{
    match character {
        '&' => written.push_str("&amp;"),
        '<' => written.push_str("&lt;"),
        '>' => written.push_str("&gt;"),
        _ => written.push(character),
    }
}

/// The text as it may stand in XML.
pub(crate) fn escaped_text(alloc: Global, text: &str) -> Result<String, AllocError>
    ensures { IfOk result (λ written. string_bytes written ≡ escaped text.now) }
{
    let mut written = String::new(alloc);
    for character in text.chars() {
        push_escaped(&mut written, character)?;
    }
    Ok(written)
}

/// Which of so many things are drawn: from this one to that one.
pub(crate) fn part_words(
    alloc: Global,
    things: &str,
    first: usize,
    last: usize,
    count: usize,
) -> Result<String, AllocError>
    ensures { IfOk result (λ text. string_bytes text ≡ part_words_of things.now first last count) }
{
    format!(in alloc; "{things} {first} to {last} of {count}")
}

/// The heading of a picture of a run: its members, `f`, what is counted in it, and these words.
pub(crate) fn heading(
    alloc: Global,
    members: u8,
    f: u8,
    counted: &str,
    words: &str,
) -> Result<String, AllocError>
    ensures { IfOk result (λ text. string_bytes text ≡ heading_of members f counted.now words.now) }
{
    format!(in alloc; "{members} members, f {f}, {counted}: {words}")
}
