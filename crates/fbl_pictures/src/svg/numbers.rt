//! The texts of numbers beside marks, and of what crosses out the undone.

use crate::svg::classes::words_if;
use crate::svg::places::Point;
use std::alloc::AllocError;

/// Writes the stroke behind the number of an undone event, wider than so many characters.
fn push_stroke(
    text: &mut String,
    at: Point,
    undone: bool,
    characters: usize,
) -> Result<(), AllocError> {
    if !undone {
        return Ok(());
    }
    let half = 4 * (characters as u128) + 4;
    let width = 2 * half;
    let Point { x, y } = at.left(half).down(1);
    Ok(write!(
        text,
        "<path class='crossed number' d='M{x} {y}l{width} -9'/>\n"
    )?)
}

/// Writes a number beside a mark, in these words.
pub(crate) fn push_number(
    text: &mut String,
    at: Point,
    undone: bool,
    words: &str,
) -> Result<(), AllocError> {
    let Point { x, y } = at;
    let gone = words_if(undone, " gone");
    push_stroke(text, at, undone, words.len())?;
    Ok(write!(
        text,
        "<text class='at{gone}' x='{x}' y='{y}'>{words}</text>\n"
    )?)
}

/// How many digits the count has.
fn digits(count: u64) -> usize {
    match count.checked_ilog10() {
        Some(power) => power as usize + 1,
        None => 1,
    }
}

/// Writes a count beside a mark.
pub(crate) fn push_count(
    text: &mut String,
    at: Point,
    undone: bool,
    count: u64,
) -> Result<(), AllocError> {
    let Point { x, y } = at;
    let gone = words_if(undone, " gone");
    push_stroke(text, at, undone, digits(count))?;
    Ok(write!(
        text,
        "<text class='at{gone}' x='{x}' y='{y}'>{count}</text>\n"
    )?)
}

/// Writes the cross over the mark of an undone event.
pub(crate) fn push_cross(text: &mut String, at: Point, undone: bool) -> Result<(), AllocError> {
    if !undone {
        return Ok(());
    }
    let Point { x, y } = at.left(9).down(9);
    Ok(write!(text, "<path class='crossed' d='M{x} {y}l18 -18'/>\n")?)
}
