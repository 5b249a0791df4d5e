//! The marks of the columns.

ghost use Rattle.std.specs.Prelude.{◌≡◌, ◌++◌, IfOk, OnOk, map};
ghost use Rattle.fbl_trace.specs.MemberSets.{member_list};
ghost use Rattle.fbl_history.specs.Marks.{column_marks, mark as mark_of, strike_mark, recovery_mark};
ghost use Rattle.fbl_history.specs.HistoryShapes.{history_marks};

use fbl_history::{Column, Glyph, GlyphKind, Replay};
use fbl_trace::{Determinant, Member, MemberSet};
use std::alloc::{AllocError, Global};

/// The mark of this kind on the member's line.
fn mark(column: usize, member: Member, kind: GlyphKind) -> Glyph
    ensures { result ≡ mark_of column member kind }
{
    Glyph {
        column,
        member,
        kind,
        to_come: false,
    }
}

/// Draws a mark on the line of each member that is struck at this place.
fn push_strikes(
    glyphs: &mut Vec<Glyph>,
    alloc: Global,
    column: usize,
    struck: MemberSet,
) -> Result<(), AllocError>
    ensures { OnOk result (glyphs.new.items ≡ glyphs.old.items ++ map (strike_mark column) (member_list struck)) }
{
    for member in struck.members(alloc)? {
        glyphs.push(mark(column, member, GlyphKind::Strike))?;
    }
    Ok(())
}

/// Draws a mark on the line of each member that is brought back at this place.
fn push_recoveries(
    glyphs: &mut Vec<Glyph>,
    column: usize,
    replays: &[Replay],
) -> Result<(), AllocError>
    ensures { OnOk result (glyphs.new.items ≡ glyphs.old.items ++ map (recovery_mark column) replays.now) }
{
    for Replay { member, receipts } in replays {
        let kind = GlyphKind::Recovery {
            receipts: *receipts,
        };
        glyphs.push(mark(column, *member, kind))?;
    }
    Ok(())
}

/// Draws the marks of a column at this place.
fn push_mark(
    glyphs: &mut Vec<Glyph>,
    alloc: Global,
    place: usize,
    column: &Column,
) -> Result<(), AllocError>
    ensures { OnOk result (glyphs.new.items ≡ glyphs.old.items ++ column_marks place column.now) }
{
    match column {
        Column::Strike(struck) => push_strikes(glyphs, alloc, place, *struck)?,
        Column::Recovery(replays) => push_recoveries(glyphs, place, replays.as_slice())?,
        Column::Checkpoint(member) => {
            glyphs.push(mark(place, *member, GlyphKind::Checkpoint))?;
        }
        Column::Send {
            from,
            ssn,
            to,
            undone,
        } => {
            let (ssn, to, undone) = (*ssn, *to, *undone);
            glyphs.push(mark(place, *from, GlyphKind::Send { ssn, to, undone }))?;
        }
        Column::Receipt {
            to,
            rsn,
            from,
            ssn,
            state,
            undone,
        } => {
            let (from, ssn, to, rsn) = (*from, *ssn, *to, *rsn);
            let kind = GlyphKind::Receipt {
                determinant: Determinant { from, ssn, to, rsn },
                state: *state,
                undone: *undone,
            };
            glyphs.push(mark(place, to, kind))?;
        }
    }
    Ok(())
}

/// The marks of all columns.
#[tactic(auto, unfolding(fbl_history::specs::HistoryShapes::history_marks))]
pub(crate) fn marks_in(alloc: Global, columns: &[Column]) -> Result<Vec<Glyph>, AllocError>
    ensures { IfOk result (λ glyphs. glyphs.items ≡ history_marks columns.now) }
{
    let mut glyphs = Vec::new(alloc);
    for (place, column) in columns.iter().enumerate() {
        push_mark(&mut glyphs, alloc, place, column)?;
    }
    Ok(glyphs)
}
