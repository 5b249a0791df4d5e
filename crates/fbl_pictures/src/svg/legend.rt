//! The legend of a picture: the signs that it has, with what they mean.

use crate::svg::glyphs::glyph_sign;
use crate::svg::places::{Point, sign_place};
use fbl_history::{ArrowKind, Glyph, LineKind, Shape};
use std::alloc::{AllocError, Global};

/// What a legend tells the meaning of.
#[derive(Clone, Copy, PartialEq, Eq)]
pub(crate) enum Sign {
    Send,
    Receipt,
    Undone,
    Stable,
    Recorded,
    Lost,
    ToCome,
    Message,
    UndoneMessage,
    Again,
    InFlight,
    Control,
    Untaken,
    Elsewhere,
    Down,
    Strike,
    Recovery,
    Checkpoint,
    Restart,
    Orphan,
    Path,
    Moment,
    Hold,
    Store,
    Tell,
    Told,
}

/// The signs in the order in which legends have them, each with its mark and what it means.
const SIGNS: &[(Sign, &str)] = &[
    (
        Sign::Send,
        "<circle class='send' cx='10' cy='-4' r='5'/><text class='note' x='36' y='0'>send: its number</text>",
    ),
    (
        Sign::Receipt,
        "<rect class='receipt' x='3' y='-11' width='14' height='14'/><text class='note' x='36' y='0'>receipt: its number, the state after it</text>",
    ),
    (
        Sign::Undone,
        "<rect class='receipt undone' x='3' y='-11' width='14' height='14'/><path class='crossed' d='M1 5l18 -18'/><text class='note' x='36' y='0'>undone by a recovery</text>",
    ),
    (
        Sign::Stable,
        "<path class='receipt stable' d='M10 -4m-7 -7h14v14h-14z'/><text class='note' x='36' y='0'>stable: stored, or more than f hold it</text>",
    ),
    (
        Sign::Recorded,
        "<path class='receipt recorded' d='M10 -4m-8 0l8 -8l8 8l-8 8z'/><text class='note' x='36' y='0'>recorded: f or fewer hold it</text>",
    ),
    (
        Sign::Lost,
        "<path class='receipt lost' d='M10 -4m-7 -7l14 14m0 -14l-14 14'/><text class='note' x='36' y='0'>lost: nobody but the struck holds it</text>",
    ),
    (
        Sign::ToCome,
        "<path class='receipt to-come' d='M10 -4m-7 -7h14v14h-14z'/><text class='note' x='36' y='0'>grey: to come, and not judged</text>",
    ),
    (
        Sign::Message,
        "<path class='line' d='M0 -4h16'/><path class='tip' d='M11 -9l10 5l-10 5z'/><text class='note' x='36' y='0'>message, from its send to its receipt</text>",
    ),
    (
        Sign::UndoneMessage,
        "<path class='message undone' d='M-6 -4h28'/><rect class='receipt undone' x='15' y='-11' width='14' height='14'/><path class='crossed' d='M13 5l18 -18'/><text class='note' x='36' y='0'>message whose receipt was undone</text>",
    ),
    (
        Sign::Again,
        "<path class='message again' d='M-10 -4h32'/><rect class='receipt' x='15' y='-11' width='14' height='14'/><text class='note' x='36' y='0'>message sent again by a recovery</text>",
    ),
    (
        Sign::InFlight,
        "<path class='message in-flight' d='M0 -4h20'/><text class='note' x='36' y='0'>message in flight</text>",
    ),
    (
        Sign::Control,
        "<path class='message control' d='M0 -4h28'/><text class='note' x='36' y='0'>control message, tell to told</text>",
    ),
    (
        Sign::Untaken,
        "<path class='message in-flight control' d='M0 -4h20'/><text class='note' x='36' y='0'>control message that nobody took</text>",
    ),
    (
        Sign::Elsewhere,
        "<path class='message leaving' d='M0 -4h20'/><text class='note' x='36' y='0'>arrow whose other end is not drawn</text>",
    ),
    (
        Sign::Down,
        "<path class='line down' d='M0 -4h20'/><text class='note' x='36' y='0'>member that is down</text>",
    ),
    (
        Sign::Strike,
        "<path class='strike' d='M13 -17l-10 14h6l-3 12l11 -16h-7z'/><text class='note' x='36' y='0'>strike</text>",
    ),
    (
        Sign::Recovery,
        "<path class='recovery' d='M10 -13l9 16h-18z'/><text class='note' x='36' y='0'>recovery: the receipts it replays</text>",
    ),
    (
        Sign::Restart,
        "<path class='recovery' d='M10 -13l9 16h-18z'/><text class='note' x='36' y='0'>restart: the receipts it keeps</text>",
    ),
    (
        Sign::Checkpoint,
        "<rect class='checkpoint' x='8' y='-14' width='5' height='20'/><text class='note' x='36' y='0'>checkpoint</text>",
    ),
    (
        Sign::Orphan,
        "<path class='line orphan' d='M0 -4h20'/><text class='note' x='36' y='0'>orphan of a lost or undone receipt</text>",
    ),
    (
        Sign::Path,
        "<path class='line path' d='M0 -4h14'/><path class='path-tip' d='M9 -10l12 6l-12 6z'/><text class='note' x='36' y='0'>path from a receipt to its orphan</text>",
    ),
    (
        Sign::Moment,
        "<path class='moment' d='M10 -14v20'/><text class='note' x='36' y='0'>the moment</text>",
    ),
    (
        Sign::Hold,
        "<path class='hold' d='M5 -5a5 5 0 0 0 10 0z'/><text class='note' x='36' y='0'>hold of this receipt, from here on</text>",
    ),
    (
        Sign::Store,
        "<rect class='store' x='6' y='-8' width='8' height='8'/><text class='note' x='36' y='0'>store of this receipt, from here on</text>",
    ),
    (
        Sign::Tell,
        "<path class='tell' d='M6 -8l8 4l-8 4'/><text class='note' x='36' y='0'>tell: a control message is sent</text>",
    ),
    (
        Sign::Told,
        "<path class='told' d='M14 -8l-8 4l8 4'/><text class='note' x='36' y='0'>told: a control message is taken</text>",
    ),
];

/// The sign of a part of a line, if it has one.
fn line_sign(kind: LineKind) -> Option<Sign> {
    match kind {
        LineKind::Up => None,
        LineKind::Down => Some(Sign::Down),
        LineKind::Orphan => Some(Sign::Orphan),
        LineKind::Path => Some(Sign::Path),
    }
}

/// The sign of an arrow.
fn arrow_sign(kind: ArrowKind) -> Sign {
    match kind {
        ArrowKind::Message => Sign::Message,
        ArrowKind::Undone => Sign::UndoneMessage,
        ArrowKind::Again | ArrowKind::AgainUndone => Sign::Again,
        ArrowKind::Control => Sign::Control,
        ArrowKind::Path => Sign::Path,
    }
}

/// The sign of a shape, if it has one.
fn shape_sign(shape: Shape) -> Option<Sign> {
    match shape {
        Shape::Line { kind, .. } => line_sign(kind),
        Shape::DownFrom { .. } => Some(Sign::Down),
        Shape::OrphanUpTo { .. } => Some(Sign::Orphan),
        Shape::Moment { .. } => Some(Sign::Moment),
        Shape::Arrow { kind, .. } => Some(arrow_sign(kind)),
        Shape::InFlight { .. } => Some(Sign::InFlight),
        Shape::Untaken { .. } => Some(Sign::Untaken),
        Shape::Leaving { .. } | Shape::Arriving { .. } => Some(Sign::Elsewhere),
        Shape::BeginToCome => Some(Sign::ToCome),
        Shape::Label { .. } | Shape::Name { .. } | Shape::Numbers { .. } | Shape::EndToCome => None,
    }
}

/// Whether the glyph has the sign.
fn has_sign(glyph: &Glyph, sign: Sign) -> bool {
    glyph_sign(glyph.kind) == sign || (glyph.to_come && sign == Sign::ToCome)
}

/// Whether one of the shapes or glyphs has the sign.
fn is_shown(shapes: &[Shape], glyphs: &[Glyph], sign: Sign) -> bool {
    shapes.iter().any(|shape| shape_sign(*shape) == Some(sign))
        || glyphs.iter().any(|glyph| has_sign(glyph, sign))
}

/// What the legend of the shapes and glyphs tells, in its order.
pub(crate) fn signs_of(
    alloc: Global,
    shapes: &[Shape],
    glyphs: &[Glyph],
) -> Result<Vec<&'static str>, AllocError> {
    let mut signs = Vec::new(alloc);
    for (sign, words) in SIGNS {
        if is_shown(shapes, glyphs, *sign) {
            signs.push(*words)?;
        }
    }
    Ok(signs)
}

/// The texts of the signs, below the lines of so many members, and the end of the picture.
pub(crate) fn ending_text(
    alloc: Global,
    members: u8,
    signs: &[&'static str],
) -> Result<String, AllocError> {
    let mut text = String::new(alloc);
    for (place, words) in signs.iter().enumerate() {
        let Point { x, y } = sign_place(members, place);
        write!(text, "<g transform='translate({x} {y})'>{words}</g>\n")?;
    }
    text.push_str("</svg>\n")?;
    Ok(text)
}
