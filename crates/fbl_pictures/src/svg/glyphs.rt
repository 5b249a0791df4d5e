//! The glyphs of marks: the sign that the legend has for each, its outline, its title, and the numbers beside it.

use crate::headings::receipts_word;
use crate::svg::classes::{receipt_class, words_if};
use crate::svg::legend::Sign;
use crate::svg::numbers::{push_count, push_cross, push_number};
use crate::svg::places::Point;
use fbl_history::{Glyph, GlyphKind, ReceiptKind};
use fbl_input::push_set;
use fbl_trace::{Determinant, Member, MemberSet};
use std::alloc::{AllocError, Global};

/// The sign of a kind of glyph.
pub(crate) fn glyph_sign(kind: GlyphKind) -> Sign {
    match kind {
        GlyphKind::Send { undone: true, .. } | GlyphKind::Receipt { undone: true, .. } => {
            Sign::Undone
        }
        GlyphKind::Send { .. } => Sign::Send,
        GlyphKind::Receipt { .. } => Sign::Receipt,
        GlyphKind::Held { kind, .. } => match kind {
            ReceiptKind::Stable => Sign::Stable,
            ReceiptKind::Recorded => Sign::Recorded,
            ReceiptKind::Lost => Sign::Lost,
            ReceiptKind::ToCome => Sign::ToCome,
            ReceiptKind::Undone => Sign::Undone,
        },
        GlyphKind::Hold(_) => Sign::Hold,
        GlyphKind::Store(_) => Sign::Store,
        GlyphKind::Tell { .. } => Sign::Tell,
        GlyphKind::Told { .. } => Sign::Told,
        GlyphKind::Strike => Sign::Strike,
        GlyphKind::Recovery { .. } => Sign::Recovery,
        GlyphKind::Checkpoint => Sign::Checkpoint,
        GlyphKind::Restart { .. } => Sign::Restart,
    }
}

/// Writes a member's glyph at a point.
fn push_kind(
    text: &mut String,
    alloc: Global,
    at: Point,
    member: Member,
    kind: GlyphKind,
) -> Result<(), AllocError> {
    match kind {
        GlyphKind::Send { ssn, to, undone } => push_send(text, at, member, ssn, to, undone),
        GlyphKind::Receipt {
            determinant,
            state,
            undone,
        } => push_receipt(text, at, &determinant, state, undone),
        GlyphKind::Held {
            determinant,
            kind,
            holders,
        } => push_held(text, alloc, at, &determinant, kind, holders),
        GlyphKind::Hold(determinant) => push_hold(text, alloc, at, member, &determinant),
        GlyphKind::Store(determinant) => push_store(text, alloc, at, member, &determinant),
        GlyphKind::Tell { to, id } => push_tell(text, at, member, to, id),
        GlyphKind::Told { from, id } => push_told(text, at, member, from, id),
        GlyphKind::Strike => push_strike(text, at, member),
        GlyphKind::Recovery { receipts } => push_recovery(text, at, member, receipts),
        GlyphKind::Checkpoint => push_checkpoint(text, at, member),
        GlyphKind::Restart {
            life,
            receipts,
            sends,
        } => push_restart(text, at, member, life, receipts, sends),
    }
}

/// Writes a glyph, in grey if it is to come.
pub(crate) fn push_glyph(
    text: &mut String,
    alloc: Global,
    glyph: &Glyph,
) -> Result<(), AllocError> {
    let Glyph {
        column,
        member,
        kind,
        to_come,
    } = *glyph;
    if to_come {
        text.push_str("<g class='to-come'>\n")?;
    }
    push_kind(text, alloc, Point::at(column, member), member, kind)?;
    if to_come {
        text.push_str("</g>\n")?;
    }
    Ok(())
}

fn push_send(
    text: &mut String,
    at: Point,
    from: Member,
    ssn: u32,
    to: Member,
    undone: bool,
) -> Result<(), AllocError> {
    let Point { x, y } = at;
    let (from, to) = (from.number(), to.number());
    let class = words_if(undone, " undone");
    let end = words_if(undone, ", undone");
    write!(
        text,
        "<circle class='send{class}' cx='{x}' cy='{y}' r='5'>\
         <title>member {from} sends its message {ssn} to {to}{end}</title></circle>\n"
    )?;
    push_cross(text, at, undone)?;
    push_count(text, at.left(9).up(9), undone, u64::from(ssn))
}

/// Writes what the title of a receipt says of its message.
fn push_message(text: &mut String, determinant: &Determinant) -> Result<(), AllocError> {
    let from = determinant.from.number();
    let ssn = determinant.ssn;
    let to = determinant.to.number();
    let rsn = determinant.rsn;
    Ok(write!(text, "member {to} receipt {rsn}: message {ssn} of {from}")?)
}

/// Writes a state beside a mark: one of more than seven digits stands in the mark's title alone.
fn push_state(text: &mut String, at: Point, undone: bool, state: u64) -> Result<(), AllocError> {
    if 9_999_999 < state {
        return Ok(());
    }
    push_count(text, at, undone, state)
}

fn push_receipt(
    text: &mut String,
    at: Point,
    determinant: &Determinant,
    state: u64,
    undone: bool,
) -> Result<(), AllocError> {
    let Point { x, y } = at.left(7).up(7);
    let class = words_if(undone, " undone");
    let end = words_if(undone, ", undone");
    write!(
        text,
        "<rect class='receipt{class}' x='{x}' y='{y}' width='14' height='14'><title>"
    )?;
    push_message(text, determinant)?;
    write!(text, ", state {state}{end}</title></rect>\n")?;
    push_cross(text, at, undone)?;
    let below = at.right(12).down(20);
    push_count(text, below, undone, u64::from(determinant.rsn))?;
    push_state(text, below.down(12), undone, state)
}

/// The outline of a receipt of a dump or a log, from the point at which it stands.
fn receipt_outline(kind: ReceiptKind) -> &'static str {
    match kind {
        ReceiptKind::Stable | ReceiptKind::ToCome | ReceiptKind::Undone => "m-7 -7h14v14h-14z",
        ReceiptKind::Recorded => "m-8 0l8 -8l8 8l-8 8z",
        ReceiptKind::Lost => "m-7 -7l14 14m0 -14l-14 14",
    }
}

/// Writes what the title of a receipt of a dump or a log says of who holds it, or else why it is not judged.
fn push_holders(
    text: &mut String,
    alloc: Global,
    kind: ReceiptKind,
    holders: MemberSet,
) -> Result<(), AllocError> {
    match kind {
        ReceiptKind::ToCome => Ok(text.push_str("to come")?),
        ReceiptKind::Undone => Ok(text.push_str("undone")?),
        _ => push_set(text, alloc, "held by ", holders),
    }
}

fn push_held(
    text: &mut String,
    alloc: Global,
    at: Point,
    determinant: &Determinant,
    kind: ReceiptKind,
    holders: MemberSet,
) -> Result<(), AllocError> {
    let Point { x, y } = at;
    let class = receipt_class(kind);
    let outline = receipt_outline(kind);
    write!(text, "<path class='{class}' d='M{x} {y}{outline}'><title>")?;
    push_message(text, determinant)?;
    text.push_str(", ")?;
    push_holders(text, alloc, kind, holders)?;
    text.push_str("</title></path>\n")?;
    let undone = matches!(kind, ReceiptKind::Undone);
    push_cross(text, at, undone)?;
    let below = at.right(12).down(20);
    push_count(text, below, undone, u64::from(determinant.rsn))
}

/// Writes the numbers under a hold or a store: that of the receipt, and that of its receiver.
fn push_numbers(
    text: &mut String,
    alloc: Global,
    at: Point,
    determinant: &Determinant,
) -> Result<(), AllocError> {
    let to = determinant.to.number();
    push_count(text, at.down(20), false, u64::from(determinant.rsn))?;
    let words = format!(in alloc; "of {to}")?;
    push_number(text, at.down(32), false, words.as_str())
}

fn push_hold(
    text: &mut String,
    alloc: Global,
    at: Point,
    member: Member,
    determinant: &Determinant,
) -> Result<(), AllocError> {
    let Point { x, y } = at.left(5);
    let member = member.number();
    let rsn = determinant.rsn;
    let to = determinant.to.number();
    write!(
        text,
        "<path class='hold' d='M{x} {y}a5 5 0 0 0 10 0z'>\
         <title>member {member} holds receipt {rsn} of member {to}</title></path>\n"
    )?;
    push_numbers(text, alloc, at, determinant)
}

fn push_store(
    text: &mut String,
    alloc: Global,
    at: Point,
    member: Member,
    determinant: &Determinant,
) -> Result<(), AllocError> {
    let Point { x, y } = at.left(4).up(4);
    let member = member.number();
    let rsn = determinant.rsn;
    let to = determinant.to.number();
    write!(
        text,
        "<rect class='store' x='{x}' y='{y}' width='8' height='8'>\
         <title>member {member} stores receipt {rsn} of member {to}</title></rect>\n"
    )?;
    push_numbers(text, alloc, at, determinant)
}

fn push_tell(
    text: &mut String,
    at: Point,
    from: Member,
    to: Member,
    id: u32,
) -> Result<(), AllocError> {
    let Point { x, y } = at.left(4).up(4);
    let (from, to) = (from.number(), to.number());
    Ok(write!(
        text,
        "<path class='tell' d='M{x} {y}l8 4l-8 4'><title>member {from} tells {to}, number {id}</title></path>\n"
    )?)
}

fn push_told(
    text: &mut String,
    at: Point,
    to: Member,
    from: Member,
    id: u32,
) -> Result<(), AllocError> {
    let Point { x, y } = at.right(4).up(4);
    let (from, to) = (from.number(), to.number());
    Ok(write!(
        text,
        "<path class='told' d='M{x} {y}l-8 4l8 4'><title>member {to} is told by {from}, number {id}</title></path>\n"
    )?)
}

fn push_strike(text: &mut String, at: Point, member: Member) -> Result<(), AllocError> {
    let Point { x, y } = at.right(3).up(13);
    let member = member.number();
    Ok(write!(
        text,
        "<path class='strike' d='M{x} {y}l-10 14h6l-3 12l11 -16h-7z'><title>member {member} is struck</title></path>\n"
    )?)
}

fn push_recovery(
    text: &mut String,
    at: Point,
    member: Member,
    receipts: u32,
) -> Result<(), AllocError> {
    let Point { x, y } = at.up(9);
    let member = member.number();
    let word = receipts_word(u128::from(receipts));
    write!(
        text,
        "<path class='recovery' d='M{x} {y}l9 16h-18z'>\
         <title>member {member} is recovered, {receipts} {word} replayed</title></path>\n"
    )?;
    push_count(text, at.left(9).down(20), false, u64::from(receipts))
}

fn push_restart(
    text: &mut String,
    at: Point,
    member: Member,
    life: u32,
    receipts: u32,
    sends: u32,
) -> Result<(), AllocError> {
    let Point { x, y } = at.up(9);
    let member = member.number();
    let received = receipts_word(u128::from(receipts));
    let sent = if sends == 1 { "send" } else { "sends" };
    write!(
        text,
        "<path class='recovery' d='M{x} {y}l9 16h-18z'>\
         <title>member {member} restarts in life {life}, {receipts} {received} and {sends} {sent} kept</title></path>\n"
    )?;
    push_count(text, at.left(9).down(20), false, u64::from(receipts))
}

fn push_checkpoint(text: &mut String, at: Point, member: Member) -> Result<(), AllocError> {
    let Point { x, y } = at.left(2).up(10);
    let member = member.number();
    Ok(write!(
        text,
        "<rect class='checkpoint' x='{x}' y='{y}' width='5' height='20'><title>checkpoint of member {member}</title></rect>\n"
    )?)
}
