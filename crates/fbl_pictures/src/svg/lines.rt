//! The texts of labels, lines and arrows, and of the numbers of columns.

use crate::svg::classes::{line_class, status_words};
use crate::svg::numbers::push_number;
use crate::svg::places::Point;
use fbl_history::{LineKind, Status};
use fbl_trace::Member;
use std::alloc::{AllocError, Global};

/// Writes a member's name at the left end of its line, with its status.
pub(crate) fn push_label(
    text: &mut String,
    member: Member,
    status: Option<Status>,
) -> Result<(), AllocError> {
    let y = Point::at(0, member).down(5).y;
    let member = member.number();
    let status = status_words(status);
    Ok(write!(
        text,
        "<text x='16' y='{y}'>member {member}{status}</text>\n"
    )?)
}

/// Writes a member's name in the room before a column.
pub(crate) fn push_name(
    text: &mut String,
    column: usize,
    member: Member,
) -> Result<(), AllocError> {
    let Point { x, y } = Point::at(column, member).left(86).up(6);
    let member = member.number();
    Ok(write!(
        text,
        "<text class='name' x='{x}' y='{y}'>member {member}</text>\n"
    )?)
}

/// Writes a straight line of a class, from one point to another.
pub(crate) fn push_segment(
    text: &mut String,
    class: &str,
    start: Point,
    end: Point,
) -> Result<(), AllocError> {
    let Point { x: x1, y: y1 } = start;
    let Point { x: x2, y: y2 } = end;
    Ok(write!(
        text,
        "<line class='{class}' x1='{x1}' y1='{y1}' x2='{x2}' y2='{y2}'/>\n"
    )?)
}

/// Writes the line of a member that is down from the moment before a column on.
pub(crate) fn push_down_from(
    text: &mut String,
    member: Member,
    column: usize,
    end: usize,
) -> Result<(), AllocError> {
    let moment = Point::before(column, member);
    let up = line_class(LineKind::Up);
    let down = line_class(LineKind::Down);
    push_segment(text, up, Point::start(None, member), moment)?;
    push_segment(text, down, moment, Point::at(end, member))
}

/// Writes the part of a moment's line at a member, which goes on to where it crosses the line of the next member, if there is one.
pub(crate) fn push_moment(
    text: &mut String,
    member: Member,
    column: usize,
    next: Option<usize>,
) -> Result<(), AllocError> {
    let Point { x, y: top } = Point::before(column, member).up(30);
    let bottom = Point::before(column, member).down(40).y;
    write!(text, "<path class='moment' d='M{x} {top}V{bottom}")?;
    if let Some(column) = next {
        let Point { x, y } = Point::before(column, member).down(50);
        write!(text, "L{x} {y}")?;
    }
    Ok(text.push_str("'><title>the moment: what has come is on its left</title></path>\n")?)
}

/// Writes the numbers of so many columns, each above its own: they count from this one.
pub(crate) fn push_numbers(
    text: &mut String,
    alloc: Global,
    first: usize,
    columns: usize,
) -> Result<(), AllocError> {
    for column in 0..columns {
        let above = Point::at(column, Member::at(0)).up(28);
        let words = format!(in alloc; "{}", first as u128 + column as u128)?;
        push_number(text, above, false, words.as_str())?;
    }
    Ok(())
}
