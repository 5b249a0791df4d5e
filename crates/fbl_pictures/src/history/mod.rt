//! The picture of a history.

mod marks;
mod members;
mod messages;

ghost use Rattle.std.specs.Prelude.{◌≡◌, ◌≤◌, IfOk, string_bytes};
ghost use Rattle.fbl_input.specs.Faults.{PutsOut};
ghost use Rattle.fbl_history.specs.HistoryShapes.{history_shapes};
ghost use Rattle.fbl_pictures.specs.HistoryPictures.{IsHistoryPicture, history_heading};

use crate::headings::receipts_word;
use crate::history::marks::marks_in;
use crate::history::members::push_members;
use crate::history::messages::{push_arrows, push_stubs};
use crate::svg::picture_text;
use fbl_history::{Column, Shape, receipts_made, receipts_undone};
use fbl_input::{OutputFault, put};
use std::alloc::{AllocError, Global};
use std::io::Write;

/// The heading: the numbers of the group, the behaviour, and how many receipts were made and undone.
fn heading_text(
    alloc: Global,
    members: u8,
    f: u8,
    behaviour: &str,
    columns: &[Column],
) -> Result<String, AllocError>
    ensures { IfOk result (λ text. string_bytes text ≡ history_heading members f behaviour.now columns.now) }
{
    let made = receipts_made(columns);
    let undone = receipts_undone(columns);
    let word = receipts_word(made as u128);
    format!(in alloc; "{members} members, f {f}, {behaviour}: {made} {word} made, {undone} undone")
}

/// What is drawn of a history of so many members, under the marks.
#[tactic(auto, unfolding(fbl_history::specs::HistoryShapes::history_shapes))]
fn shapes_in(alloc: Global, members: u8, columns: &[Column]) -> Result<Vec<Shape>, AllocError>
    requires { members ≤ 16 }
    ensures { IfOk result (λ shapes. shapes.items ≡ history_shapes members columns.now) }
{
    let mut shapes = Vec::new(alloc);
    push_members(&mut shapes, members, columns)?;
    push_arrows(&mut shapes, alloc, columns)?;
    push_stubs(&mut shapes, alloc, columns)?;
    Ok(shapes)
}

/// The picture of the history.
fn history_text(
    alloc: Global,
    members: u8,
    f: u8,
    behaviour: &str,
    columns: &[Column],
) -> Result<String, AllocError>
    requires { members ≤ 16 }
    ensures { IfOk result (λ text. IsHistoryPicture members f behaviour.now columns.now (string_bytes text)) }
{
    let heading = heading_text(alloc, members, f, behaviour, columns)?;
    let shapes = shapes_in(alloc, members, columns)?;
    let glyphs = marks_in(alloc, columns)?;
    picture_text(
        alloc,
        heading.as_str(),
        members,
        columns.len(),
        shapes.as_slice(),
        glyphs.as_slice(),
    )
}

/// Draws the history, and writes the picture as SVG: a line for each member of the group, of whom there are 16 at most, and a
/// column for each entry of the history, from left to right. The name of the behaviour stands in the heading as it is: it is to
/// have none of the characters `<`, `>` and `&`.
pub fn write_history_picture<W: Write>(
    alloc: Global,
    members: u8,
    f: u8,
    behaviour: &str,
    columns: &[Column],
    writer: &mut W,
) -> Result<(), OutputFault>
    requires { members ≤ 16 }
    ensures { PutsOut (λ _. IsHistoryPicture members f behaviour.now columns.now)
        (W.contents writer.old) (W.contents writer.new) result }
{
    let text = history_text(alloc, members, f, behaviour, columns)?;
    put(writer, text.as_bytes())
}
