//! The labels and the lines of members, and the line of a moment.

ghost use Rattle.std.specs.Prelude.{◌≡◌, ◌++◌, ◌≤◌, None, OnOk};
ghost use Rattle.std.specs.Option.{option_to_list};
ghost use Rattle.fbl_pictures.specs.RunShapes.{life_part as life_part_of, lives_parts, member_line, member_shapes, members_drawn, moment_drawn, moment_part as moment_part_of, orphan_line as orphan_line_of, parts_to_restart, run_status};

use crate::names::{push_any, push_names};
use crate::run::columns::Columns;
use crate::run::window::Window;
use fbl_history::{LineKind, Shape, Status};
use fbl_runs::Entry;
use fbl_trace::{Member, MemberSet};
use std::alloc::AllocError;

/// How the members' lines are drawn.
#[derive(Clone, Copy)]
pub(crate) struct Lines {
    /// The members whose lines are dashed.
    pub(crate) struck: MemberSet,
    /// The columns at which orphans start.
    pub(crate) starts: Columns,
    /// The columns before which the moment is, if one is drawn.
    pub(crate) moment: Columns,
}

/// Whether a member is struck, and else whether it is an orphan.
fn status(is_struck: bool, start: Option<usize>) -> Status
    ensures { result ≡ run_status is_struck start }
{
    match start {
        _ if is_struck => Status::Struck,
        Some(_) => Status::Orphan,
        None => Status::Up,
    }
}

/// The part of a member's line from the start of a life to its last entry, if it has one and the part is drawn.
fn life_part(
    window: &Window,
    member: Member,
    start: Option<usize>,
    last: Option<usize>,
) -> Option<Shape>
    ensures { result ≡ life_part_of window.now member start last }
{
    let last = last?;
    window.part(member, start, last, LineKind::Up)
}

/// Adds that part, and the one from there to the restart at the place, while the member is down.
fn push_to_restart(
    shapes: &mut Vec<Shape>,
    window: &Window,
    member: Member,
    start: Option<usize>,
    last: Option<usize>,
    place: usize,
) -> Result<(), AllocError>
    ensures { OnOk result
        (shapes.new.items ≡ shapes.old.items ++ parts_to_restart window.now member start last place) }
{
    push_any(shapes, life_part(window, member, start, last))?;
    push_any(shapes, window.part(member, last, place, LineKind::Down))
}

/// Adds the line of a member, dashed before each of its restarts.
fn push_lives(
    shapes: &mut Vec<Shape>,
    window: &Window,
    entries: &[Entry],
    member: Member,
) -> Result<(), AllocError>
    ensures { OnOk result
        (shapes.new.items ≡ shapes.old.items ++ lives_parts window.now member None None 0 entries.now) }
{
    let mut start = None;
    let mut last = None;
    for place in 0..entries.len() {
        let entry = &entries[place];
        if entry.member().number() == member.number() {
            if entry.restart().is_some() {
                push_to_restart(shapes, window, member, start, last, place)?;
                start = Some(place);
            }
            last = Some(place);
        }
    }
    push_any(shapes, window.part(member, start, window.end, LineKind::Up))
}

/// Adds the line of a member: dashed before each of its restarts, or, if it is struck, from the moment on if there is one.
fn push_line(
    shapes: &mut Vec<Shape>,
    window: &Window,
    entries: &[Entry],
    member: Member,
    is_struck: bool,
    moment: Option<usize>,
) -> Result<(), AllocError>
    ensures { OnOk result
        (shapes.new.items ≡ shapes.old.items ++ member_line window.now entries.now member is_struck moment) }
{
    if !is_struck {
        return push_lives(shapes, window, entries, member);
    }
    let line = match moment {
        Some(place) => window.down_from(member, place),
        None => window.member_line(member, LineKind::Down),
    };
    shapes.push(line)?;
    Ok(())
}

/// The line of an orphan from the place at which it starts, if it is one and the line is drawn: up to the moment, if there is one.
fn orphan_line(
    window: &Window,
    member: Member,
    start: Option<usize>,
    moment: Option<usize>,
) -> Option<Shape>
    ensures { result ≡ orphan_line_of window.now member start moment }
{
    let start = start?;
    match moment {
        Some(place) => window.orphan_up_to(member, start, place),
        None => window.line(member, start, window.end, LineKind::Orphan),
    }
}

/// Adds a member's label, its names and its line.
fn push_member(
    shapes: &mut Vec<Shape>,
    window: &Window,
    entries: &[Entry],
    member: Member,
    is_struck: bool,
    start: Option<usize>,
    moment: Option<usize>,
) -> Result<(), AllocError>
    ensures { OnOk result
        (shapes.new.items ≡ shapes.old.items ++ member_shapes window.now entries.now member is_struck start moment) }
{
    let status = status(is_struck, start);
    push_names(shapes, window.columns(), member, Some(status))?;
    push_line(shapes, window, entries, member, is_struck, moment)?;
    push_any(shapes, orphan_line(window, member, start, moment))
}

/// Adds the labels and the lines of so many members, in their order.
pub(crate) fn push_members(
    shapes: &mut Vec<Shape>,
    members: u8,
    window: &Window,
    entries: &[Entry],
    lines: &Lines,
) -> Result<(), AllocError>
    requires { members ≤ 16 }
    ensures { OnOk result (shapes.new.items ≡ shapes.old.items ++ members_drawn members window.now entries.now lines.now) }
{
    for number in 0..members {
        let member = Member::at(number);
        let start = lines.starts.get(number);
        let moment = lines.moment.get(number);
        push_member(
            shapes,
            window,
            entries,
            member,
            lines.struck.has(member),
            start,
            moment,
        )?;
    }
    Ok(())
}

/// The part of a moment's line at a member, if it is drawn, where it crosses the next member's line here.
fn moment_part(
    window: &Window,
    member: Member,
    place: Option<usize>,
    next: Option<usize>,
) -> Option<Shape>
    ensures { result ≡ moment_part_of window.now member place next }
{
    let place = place?;
    window.moment(member, place, next)
}

/// Adds the line of a moment through the lines of so many members.
pub(crate) fn push_moment(
    shapes: &mut Vec<Shape>,
    members: u8,
    window: &Window,
    moment: &Columns,
) -> Result<(), AllocError>
    requires { members ≤ 16 }
    ensures { OnOk result (shapes.new.items ≡ shapes.old.items ++ moment_drawn members window.now moment.now) }
{
    for number in 0..members {
        let place = moment.get(number);
        let next = moment.get(number + 1);
        push_any(shapes, moment_part(window, Member::at(number), place, next))?;
    }
    Ok(())
}
