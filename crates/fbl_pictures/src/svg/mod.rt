//! Pictures as SVG: a frame with a heading and a legend, and in it the texts of shapes.

mod classes;
mod glyphs;
mod legend;
mod lines;
mod look;
mod numbers;
mod places;
mod stubs;

ghost use Rattle.std.specs.Prelude.{◌≡◌, ◌++◌, List, ℕ, IfOk, OnOk, length, string_bytes};
ghost use Rattle.std.specs.List.{concat};
ghost use Rattle.fbl_pictures.specs.Pictures.{IsPictureText};

use crate::svg::classes::{arrow_class, line_class};
use crate::svg::glyphs::push_glyph;
use crate::svg::legend::{ending_text, signs_of};
use crate::svg::lines::{
    push_down_from, push_label, push_moment, push_name, push_numbers, push_segment,
};
use crate::svg::look::LOOK;
use crate::svg::places::{Point, height, width};
use crate::svg::stubs::push_stub;
use fbl_history::{Glyph, LineKind, Shape};
use std::alloc::{AllocError, Global};

/// Writes the line of a member or of an orphan, or the arrow of a message.
fn push_straight(text: &mut String, shape: Shape) -> Result<(), AllocError> {
    match shape {
        Shape::Line {
            member,
            start,
            end,
            kind,
        } => {
            let (start, end) = (Point::start(start, member), Point::at(end, member));
            push_segment(text, line_class(kind), start, end)
        }
        Shape::OrphanUpTo {
            member,
            start,
            column,
        } => {
            let (start, end) = (Point::start(start, member), Point::before(column, member));
            push_segment(text, line_class(LineKind::Orphan), start, end)
        }
        Shape::Arrow {
            from,
            sent,
            to,
            received,
            kind,
        } => {
            let (start, end) = (Point::at(sent, from), Point::at(received, to));
            push_segment(text, arrow_class(kind), start, end)
        }
        _ => Ok(()),
    }
}

/// Writes a shape.
fn push_shape(text: &mut String, alloc: Global, shape: Shape) -> Result<(), AllocError> {
    match shape {
        Shape::Label { member, status } => push_label(text, member, status),
        Shape::Name { column, member } => push_name(text, column, member),
        Shape::Line { .. } | Shape::OrphanUpTo { .. } | Shape::Arrow { .. } => {
            push_straight(text, shape)
        }
        Shape::DownFrom {
            member,
            column,
            end,
        } => push_down_from(text, member, column, end),
        Shape::Moment {
            member,
            column,
            next,
        } => push_moment(text, member, column, next),
        Shape::InFlight { .. }
        | Shape::Untaken { .. }
        | Shape::Leaving { .. }
        | Shape::Arriving { .. } => push_stub(text, alloc, shape),
        Shape::Numbers { first, columns } => push_numbers(text, alloc, first, columns),
        Shape::BeginToCome => Ok(text.push_str("<g class='to-come'>\n")?),
        Shape::EndToCome => Ok(text.push_str("</g>\n")?),
    }
}

/// Writes a text for each of the shapes. Each is first written apart, in one text for all.
fn push_shapes(text: &mut String, alloc: Global, shapes: &[Shape]) -> Result<(), AllocError>
    ensures { OnOk result
        ((texts : List (List ℕ)) × (length texts ≡ length shapes.now)
        × (string_bytes text.new ≡ string_bytes text.old ++ concat texts)) }
{
    let mut piece = String::new(alloc);
    for shape in shapes {
        piece.clear();
        push_shape(&mut piece, alloc, *shape)?;
        text.push_str(piece.as_str())?;
    }
    Ok(())
}

/// Writes a text for each of the glyphs, in the same way.
fn push_glyphs(text: &mut String, alloc: Global, glyphs: &[Glyph]) -> Result<(), AllocError>
    ensures { OnOk result
        ((texts : List (List ℕ)) × (length texts ≡ length glyphs.now)
        × (string_bytes text.new ≡ string_bytes text.old ++ concat texts)) }
{
    let mut piece = String::new(alloc);
    for glyph in glyphs {
        piece.clear();
        push_glyph(&mut piece, alloc, glyph)?;
        text.push_str(piece.as_str())?;
    }
    Ok(())
}

/// The start of a picture that is as wide and as high as this, up to its title.
fn opening_text(alloc: Global, width: u128, height: u128) -> Result<String, AllocError> {
    format!(in alloc;
        "<svg class='fbl' xmlns='http://www.w3.org/2000/svg' viewBox='0 0 {width} {height}' \
         width='{width}' height='{height}' role='img'>\n\
         <title>"
    )
}

/// What stands between the title and the shapes: the look, the background and the heading.
fn frame_text(
    alloc: Global,
    heading: &str,
    width: u128,
    height: u128,
) -> Result<String, AllocError> {
    format!(in alloc;
        "</title>\n\
         {LOOK}\
         <rect class='back' width='{width}' height='{height}'/>\n\
         <text class='head' x='16' y='28'>{heading}</text>\n"
    )
}

/// The picture of the shapes and over them the glyphs, as SVG, under a heading: so many members have a line in it, and so many columns
/// have room. They are drawn in their order, a later one over an earlier one. The legend has their signs alone.
///
/// The heading stands in the picture as it is: it is to have none of the characters `<`, `>` and `&`. Nothing is fetched by a
/// picture, and two pictures may stand in one page. `Err` comes only where there is no memory for the text.
pub(crate) fn picture_text(
    alloc: Global,
    heading: &str,
    members: u8,
    columns: usize,
    shapes: &[Shape],
    glyphs: &[Glyph],
) -> Result<String, AllocError>
    ensures { IfOk result (λ text. IsPictureText heading.now shapes.now glyphs.now (string_bytes text)) }
{
    let signs = signs_of(alloc, shapes, glyphs)?;
    let width = width(columns, heading.len());
    let height = height(members, signs.len());
    let mut text = opening_text(alloc, width, height)?;
    text.push_str(heading)?;
    let frame = frame_text(alloc, heading, width, height)?;
    text.push_str(frame.as_str())?;
    push_shapes(&mut text, alloc, shapes)?;
    push_glyphs(&mut text, alloc, glyphs)?;
    let ending = ending_text(alloc, members, signs.as_slice())?;
    text.push_str(ending.as_str())?;
    Ok(text)
}
