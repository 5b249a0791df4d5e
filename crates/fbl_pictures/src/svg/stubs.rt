//! The texts of stubs: of messages that nobody has received or taken, and of arrows whose other end is not drawn.

use crate::svg::classes::{arrow_class, words_if};
use crate::svg::lines::push_segment;
use crate::svg::numbers::push_number;
use crate::svg::places::Point;
use fbl_history::Shape;
use fbl_trace::Member;
use std::alloc::{AllocError, Global};

/// Where a stub is, and the words for the member at the other end of its arrow.
#[derive(Clone, Copy)]
struct Stub {
    start: Point,
    end: Point,
    beside: Point,
}

impl Stub {
    /// That of a message in flight, on its receiver's side.
    fn in_flight(from: Member, sent: usize, to: Member) -> Stub {
        let start = Point::at(sent, from);
        let (end, beside) = if from.number() < to.number() {
            (start.down(20), start.down(32))
        } else {
            (start.right(18).up(20), start.right(26).up(22))
        };
        Stub { start, end, beside }
    }

    /// That of an arrow whose end is not drawn, on its receiver's side.
    fn leaving(from: Member, sent: usize, to: Member) -> Stub {
        let start = Point::at(sent, from);
        let aside = start.right(18);
        let (end, beside) = if from.number() < to.number() {
            (aside.down(20), aside.right(8).down(32))
        } else {
            (aside.up(20), aside.right(8).up(22))
        };
        Stub { start, end, beside }
    }

    /// That of an arrow whose start is not drawn, on its sender's side.
    fn arriving(from: Member, to: Member, received: usize) -> Stub {
        let end = Point::at(received, to);
        let aside = end.left(18);
        let (start, beside) = if from.number() < to.number() {
            (aside.up(20), aside.left(8).up(22))
        } else {
            (aside.down(20), aside.left(8).down(32))
        };
        Stub { start, end, beside }
    }

    /// Writes it, with these words, which are struck out if what was sent is undone.
    fn push(
        self,
        text: &mut String,
        class: &str,
        words: &str,
        undone: bool,
    ) -> Result<(), AllocError> {
        push_segment(text, class, self.start, self.end)?;
        push_number(text, self.beside, undone, words)
    }
}

/// The words for the member at the other end: to it, or from it.
fn other_end(alloc: Global, way: &str, member: Member) -> Result<String, AllocError> {
    let member = member.number();
    format!(in alloc; "{way} {member}")
}

/// Writes a stub: of a message in flight, or of a control message that nobody has taken, with the receiver's number; of an arrow whose end is
/// not drawn, at its start, with the receiver's number; or of one whose start is not drawn, at its end, with the sender's.
pub(crate) fn push_stub(text: &mut String, alloc: Global, shape: Shape) -> Result<(), AllocError> {
    match shape {
        Shape::InFlight {
            from,
            sent,
            to,
            again,
            undone,
        } => {
            let again = words_if(again, " again");
            let crossed = words_if(undone, " undone");
            let class = format!(in alloc; "message in-flight{again}{crossed}")?;
            let words = other_end(alloc, "to", to)?;
            Stub::in_flight(from, sent, to).push(text, class.as_str(), words.as_str(), undone)
        }
        Shape::Untaken { from, sent, to } => {
            let words = other_end(alloc, "to", to)?;
            let class = "message in-flight control";
            Stub::in_flight(from, sent, to).push(text, class, words.as_str(), false)
        }
        Shape::Leaving {
            from,
            sent,
            to,
            kind,
        } => {
            let class = arrow_class(kind);
            let class = format!(in alloc; "{class} leaving")?;
            let words = other_end(alloc, "to", to)?;
            Stub::leaving(from, sent, to).push(text, class.as_str(), words.as_str(), false)
        }
        Shape::Arriving {
            from,
            to,
            received,
            kind,
        } => {
            let words = other_end(alloc, "from", from)?;
            Stub::arriving(from, to, received).push(text, arrow_class(kind), words.as_str(), false)
        }
        _ => Ok(()),
    }
}
