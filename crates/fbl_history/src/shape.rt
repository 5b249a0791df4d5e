//! What pictures are made of: shapes, and over them glyphs.

use fbl_trace::{Determinant, Member, MemberSet};

/// What a label says of a member of a dump.
#[derive(Clone, Copy)]
pub enum Status {
    /// It is in the strike set.
    Struck,
    /// It is not struck, and depends on a lost receipt.
    Orphan,
    /// Neither.
    Up,
}

/// How a part of a member's line is drawn.
#[derive(Clone, Copy)]
pub enum LineKind {
    /// The member is up: drawn through.
    Up,
    /// The member is down: dashed.
    Down,
    /// The member is an orphan: broad, in the orphans' colour.
    Orphan,
    /// A path from a lost receipt to an orphan goes along it: in the orphans' colour.
    Path,
}

/// How an arrow from a send to a receipt is drawn.
#[derive(Clone, Copy)]
pub enum ArrowKind {
    /// A message that was received: drawn through.
    Message,
    /// A message whose receipt was undone: dotted.
    Undone,
    /// A message that a recovery sent again, and that was received: a dot near its start.
    Again,
    /// A message that a recovery sent again, and whose receipt was undone: dotted, with a dot near its start.
    AgainUndone,
    /// A control message that its receiver took: thin and dashed.
    Control,
    /// A path from a lost receipt to an orphan goes along it: in the orphans' colour.
    Path,
}

/// How safe a receipt of a dump or a log is.
#[derive(Clone, Copy)]
pub enum ReceiptKind {
    /// It is on stable storage, or more than f members hold it, and one of them is not struck.
    Stable,
    /// f members or fewer hold it, and one of them is not struck.
    Recorded,
    /// It is not on stable storage, and no member that is not struck holds it.
    Lost,
    /// It has not come at the moment that is drawn, and is not judged.
    ToCome,
    /// A restart undid it: it is crossed, and not judged.
    Undone,
}

/// A line, an arrow or a name in a picture: marks stand over all of them. Columns count from 0, from the left; each member has a line, the first one at the top.
#[derive(Clone, Copy)]
pub enum Shape {
    /// A member's name at the left end of its line, with its status where there is one to tell.
    Label {
        member: Member,
        status: Option<Status>,
    },
    /// A member's name, above its line, in the room before a column.
    Name {
        column: usize,
        member: Member,
    },
    /// A part of a member's line.
    Line {
        member: Member,
        /// The column at which it starts, or the left end of the line.
        start: Option<usize>,
        /// The column at which it ends.
        end: usize,
        kind: LineKind,
    },
    /// The line of a member that is struck at a moment: drawn through up to it, and dashed from there.
    DownFrom {
        member: Member,
        /// The column before which the moment is.
        column: usize,
        /// The column at which the line ends.
        end: usize,
    },
    /// The line of an orphan at a moment: broad, in the orphans' colour, from a column up to the moment.
    OrphanUpTo {
        member: Member,
        /// The column at which it starts, or the left end of the line.
        start: Option<usize>,
        /// The column before which the moment is.
        column: usize,
    },
    /// A part of the line of a moment: across the member's line, and on to where it crosses the next member's.
    Moment {
        member: Member,
        /// The column before which it crosses the member's line.
        column: usize,
        /// The column before which it crosses the next member's line, if there is one.
        next: Option<usize>,
    },
    /// An arrow from where a message is sent to a receipt of it.
    Arrow {
        from: Member,
        /// The column of the send, or of the recovery that sent it again.
        sent: usize,
        to: Member,
        /// The column of the receipt.
        received: usize,
        kind: ArrowKind,
    },
    /// A message that nobody has received: a stub of an arrow, and its receiver's number.
    InFlight {
        from: Member,
        /// The column of the send.
        sent: usize,
        to: Member,
        /// Whether a recovery sent it again: there is a dot near the stub's start then.
        again: bool,
        /// Whether the send was undone: the receiver's number is struck out then.
        undone: bool,
    },
    /// A control message that nobody has taken: a stub of an arrow, and its receiver's number.
    Untaken {
        from: Member,
        /// The column of the tell.
        sent: usize,
        to: Member,
    },
    /// An arrow whose end is not drawn: a stub at its start, and its receiver's number.
    Leaving {
        from: Member,
        /// The column at which it starts.
        sent: usize,
        to: Member,
        kind: ArrowKind,
    },
    /// An arrow whose start is not drawn: a stub at its end, and its sender's number.
    Arriving {
        from: Member,
        to: Member,
        /// The column at which it ends.
        received: usize,
        kind: ArrowKind,
    },
    /// The numbers of so many columns, each above its own: they count from this one.
    Numbers {
        first: usize,
        columns: usize,
    },
    /// The shapes behind this one, up to `EndToCome`, are of what has not come at the moment that is drawn: they are grey.
    BeginToCome,
    /// The end of these shapes.
    EndToCome,
}

/// What a mark stands for.
#[derive(Clone, Copy)]
pub enum GlyphKind {
    /// The member sends a message.
    Send {
        /// Which of its sender's sends it is, from 1.
        ssn: u32,
        to: Member,
        /// Whether a recovery or a restart undid it: it is crossed then.
        undone: bool,
    },
    /// The member receives a message, in a history.
    Receipt {
        determinant: Determinant,
        /// The receiver's state after it.
        state: u64,
        /// Whether a recovery took it out of the trace: it is crossed then.
        undone: bool,
    },
    /// The member receives a message, in a dump or a log.
    Held {
        determinant: Determinant,
        kind: ReceiptKind,
        /// The members that hold its determinant, struck or not, where it is judged.
        holders: MemberSet,
    },
    /// From here on the member holds the receipt's determinant.
    Hold(Determinant),
    /// From here on the receipt's determinant is on stable storage.
    Store(Determinant),
    /// The member sends a control message.
    Tell {
        to: Member,
        id: u32,
    },
    /// The member takes a control message.
    Told {
        from: Member,
        id: u32,
    },
    /// The member is struck.
    Strike,
    /// The member is brought back.
    Recovery {
        /// How many receipts it replayed.
        receipts: u32,
    },
    /// A checkpoint of the member is taken.
    Checkpoint,
    /// The member is back after a crash, in a log.
    Restart {
        /// The life that begins.
        life: u32,
        /// How many receipts are kept.
        receipts: u32,
        /// How many sends are kept.
        sends: u32,
    },
}

/// A mark on a member's line.
#[derive(Clone, Copy)]
pub struct Glyph {
    pub column: usize,
    pub member: Member,
    pub kind: GlyphKind,
    /// Whether it is of what has not come at the moment that is drawn: it is grey then.
    pub to_come: bool,
}
