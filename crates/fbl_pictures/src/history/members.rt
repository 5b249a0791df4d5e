//! The lines of the members.

ghost use Rattle.std.specs.Prelude.{◌≡◌, ◌++◌, ◌≤◌, OnOk, false};
ghost use Rattle.fbl_history.specs.MemberLines.{is_back, is_down_after, line_parts, members_shapes};

use crate::names::{line_kind, push_names};
use fbl_history::{Column, Replay, Shape};
use fbl_trace::Member;
use std::alloc::AllocError;

/// Whether a member is among those that came back.
fn came_back(member: Member, replays: &[Replay]) -> bool
    ensures { result ≡ is_back member replays.now }
{
    replays.iter().any(|replay| replay.member == member)
}

/// Whether a member is down after a column, where it was down before it or not.
fn is_down_after(member: Member, was_down: bool, column: &Column) -> bool
    ensures { result ≡ is_down_after member was_down column.now }
{
    match column {
        Column::Strike(struck) => was_down || struck.has(member),
        Column::Recovery(replays) => was_down && !came_back(member, replays.as_slice()),
        _ => was_down,
    }
}

/// Draws a member's line, dashed where the member is down.
fn push_line(shapes: &mut Vec<Shape>, member: Member, columns: &[Column]) -> Result<(), AllocError>
    ensures { OnOk result (shapes.new.items ≡ shapes.old.items ++ line_parts member None false 0 columns.now) }
{
    let mut is_down = false;
    let mut start = None;
    for (place, column) in columns.iter().enumerate() {
        let is_down_next = is_down_after(member, is_down, column);
        if is_down_next != is_down {
            let kind = line_kind(is_down);
            shapes.push(Shape::Line {
                member,
                start,
                end: place,
                kind,
            })?;
            start = Some(place);
            is_down = is_down_next;
        }
    }
    let end = columns.len();
    let kind = line_kind(is_down);
    shapes.push(Shape::Line {
        member,
        start,
        end,
        kind,
    })?;
    Ok(())
}

/// Draws what there is of each of the members, of whom there are 16 at most: its names and its line.
pub(crate) fn push_members(
    shapes: &mut Vec<Shape>,
    members: u8,
    columns: &[Column],
) -> Result<(), AllocError>
    requires { members ≤ 16 }
    ensures { OnOk result (shapes.new.items ≡ shapes.old.items ++ members_shapes members columns.now) }
{
    for number in 0..members {
        let member = Member::at(number);
        push_names(shapes, columns.len(), member, None)?;
        push_line(shapes, member, columns)?;
    }
    Ok(())
}
