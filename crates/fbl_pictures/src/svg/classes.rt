//! The words of shapes: their classes, and what a label says.

use fbl_history::{ArrowKind, LineKind, ReceiptKind, Status};

/// These words, if so.
pub(crate) fn words_if(condition: bool, words: &'static str) -> &'static str {
    if condition { words } else { "" }
}

/// What a label says behind a member's number.
pub(crate) fn status_words(status: Option<Status>) -> &'static str {
    match status {
        None => "",
        Some(Status::Struck) => " struck",
        Some(Status::Orphan) => " orphan",
        Some(Status::Up) => " up",
    }
}

/// The class of a part of a member's line.
pub(crate) fn line_class(kind: LineKind) -> &'static str {
    match kind {
        LineKind::Up => "line",
        LineKind::Down => "line down",
        LineKind::Orphan => "line orphan",
        LineKind::Path => "line path",
    }
}

/// The class of an arrow.
pub(crate) fn arrow_class(kind: ArrowKind) -> &'static str {
    match kind {
        ArrowKind::Message => "message",
        ArrowKind::Undone => "message undone",
        ArrowKind::Again => "message again",
        ArrowKind::AgainUndone => "message again undone",
        ArrowKind::Control => "message control",
        ArrowKind::Path => "path",
    }
}

/// The class of a receipt of a dump or a log.
pub(crate) fn receipt_class(kind: ReceiptKind) -> &'static str {
    match kind {
        ReceiptKind::Stable => "receipt stable",
        ReceiptKind::Recorded => "receipt recorded",
        ReceiptKind::Lost => "receipt lost",
        ReceiptKind::ToCome => "receipt to-come",
        ReceiptKind::Undone => "receipt undone",
    }
}
