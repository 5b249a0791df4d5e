//! The part of a run that is drawn, and what is drawn in it of lines and arrows that go beyond.

ghost use Rattle.std.specs.Prelude.{◌≡◌, ◌<◌, ◌≤◌, ◌-◌, IfSome};
ghost use Rattle.fbl_pictures.specs.Windows.{arrow_within, column_of, down_within, edge_of, in_flight_within, line_within, member_line_within, moment_within, numbers_of, orphan_within, part_within, start_within, untaken_within, window_around};

use fbl_history::{ArrowKind, LineKind, Shape};
use fbl_runs::ControlMessage;
use fbl_trace::Member;

/// How many entries before an entry are drawn with it, and how many behind it.
const REACH: usize = 30;

/// The part of a run that is drawn: its entries from one place on, up to another, each in a column.
#[derive(Clone, Copy)]
pub(crate) struct Window {
    /// The place of the first entry that is drawn.
    pub(crate) first: usize,
    /// The place behind the last one.
    pub(crate) end: usize,
    /// Whether each column has the place of its entry above it.
    pub(crate) is_numbered: bool,
}

impl Window {
    /// Of so many entries those around this place, or all.
    pub(crate) fn around(count: usize, place: Option<usize>) -> Window
        requires { IfSome place (λ p. p < count) }
        ensures value { result ≡ window_around count place }
        ensures ordered { result.first ≤ result.end }
        ensures within { result.end ≤ count }
    {
        match place {
            Some(place) => Window {
                first: place.saturating_sub(REACH),
                end: count.min(place.saturating_add(REACH + 1)),
                is_numbered: true,
            },
            None => Window {
                first: 0,
                end: count,
                is_numbered: false,
            },
        }
    }

    /// How many columns it has.
    pub(crate) fn columns(&self) -> usize
        ensures { result ≡ self.now.end - self.now.first }
    {
        self.end.saturating_sub(self.first)
    }

    /// The column of the entry at the place, if it is drawn.
    fn column(&self, place: usize) -> Option<usize>
        ensures { result ≡ column_of self.now place }
    {
        if place < self.first || self.end <= place {
            return None;
        }
        Some(place - self.first)
    }

    /// The column before which something stands that stands before the entry at the place, if it is drawn: the end is behind the last one.
    fn edge(&self, place: usize) -> Option<usize>
        ensures { result ≡ edge_of self.now place }
    {
        if place < self.first || self.end < place {
            return None;
        }
        Some(place - self.first)
    }

    /// The column at which the part of a line starts that starts at the entry at this place: the left end if that is before.
    fn start(&self, place: usize) -> Option<usize>
        ensures { result ≡ start_within self.now place }
    {
        if place < self.first {
            return None;
        }
        Some(place - self.first)
    }

    /// The numbers of the columns, if they have some.
    pub(crate) fn numbers(&self) -> Option<Shape>
        ensures { result ≡ numbers_of self.now }
    {
        if !self.is_numbered {
            return None;
        }
        Some(Shape::Numbers {
            first: self.first,
            columns: self.columns(),
        })
    }

    /// The line of a member.
    pub(crate) fn member_line(&self, member: Member, kind: LineKind) -> Shape
        ensures { result ≡ member_line_within self.now member kind }
    {
        Shape::Line {
            member,
            start: None,
            end: self.columns(),
            kind,
        }
    }

    /// The line of a member that is down from the moment before the entry at the place on.
    pub(crate) fn down_from(&self, member: Member, place: usize) -> Shape
        ensures { result ≡ down_within self.now member place }
    {
        if place < self.first {
            return self.member_line(member, LineKind::Down);
        }
        match self.edge(place) {
            Some(column) => Shape::DownFrom {
                member,
                column,
                end: self.columns(),
            },
            None => self.member_line(member, LineKind::Up),
        }
    }

    /// The part of a member's line between the entries at these places, if it is drawn.
    pub(crate) fn line(
        &self,
        member: Member,
        start: usize,
        end: usize,
        kind: LineKind,
    ) -> Option<Shape>
        ensures { result ≡ line_within self.now member start end kind }
    {
        if end < self.first || self.end <= start {
            return None;
        }
        Some(Shape::Line {
            member,
            start: self.start(start),
            end: end.min(self.end).saturating_sub(self.first),
            kind,
        })
    }

    /// The same from the left end on, where there is no first entry.
    pub(crate) fn part(
        &self,
        member: Member,
        start: Option<usize>,
        end: usize,
        kind: LineKind,
    ) -> Option<Shape>
        ensures { result ≡ part_within self.now member start end kind }
    {
        if let Some(start) = start {
            return self.line(member, start, end, kind);
        }
        if end < self.first {
            return None;
        }
        Some(Shape::Line {
            member,
            start: None,
            end: end.min(self.end).saturating_sub(self.first),
            kind,
        })
    }

    /// The part of an orphan's line from the entry at which it starts to be one up to the moment before the entry at the place, if it is drawn.
    pub(crate) fn orphan_up_to(&self, member: Member, start: usize, place: usize) -> Option<Shape>
        ensures { result ≡ orphan_within self.now member start place }
    {
        match self.edge(place) {
            Some(column) => Some(Shape::OrphanUpTo {
                member,
                start: self.start(start),
                column,
            }),
            None => self.line(member, start, place, LineKind::Orphan),
        }
    }

    /// The part of a moment's line across the member's line, before the entry at the place, if it is drawn; and on to where it is
    /// before another entry at the next member's.
    pub(crate) fn moment(&self, member: Member, place: usize, next: Option<usize>) -> Option<Shape>
        ensures { result ≡ moment_within self.now member place next }
    {
        let column = self.edge(place)?;
        let next = match next {
            Some(next) => self.edge(next),
            None => None,
        };
        Some(Shape::Moment {
            member,
            column,
            next,
        })
    }

    /// An arrow between the entries at two places: a stub of it if only one of the two is drawn, and nothing if neither is.
    pub(crate) fn arrow(
        &self,
        from: Member,
        sent: usize,
        to: Member,
        received: usize,
        kind: ArrowKind,
    ) -> Option<Shape>
        ensures { result ≡ arrow_within self.now from sent to received kind }
    {
        match (self.column(sent), self.column(received)) {
            (Some(sent), Some(received)) => Some(Shape::Arrow {
                from,
                sent,
                to,
                received,
                kind,
            }),
            (Some(sent), None) => Some(Shape::Leaving {
                from,
                sent,
                to,
                kind,
            }),
            (None, Some(received)) => Some(Shape::Arriving {
                from,
                to,
                received,
                kind,
            }),
            (None, None) => None,
        }
    }

    /// A message in flight that is sent at the place, by a send that is undone or not, if that is drawn.
    pub(crate) fn in_flight(
        &self,
        undone: bool,
        from: Member,
        sent: usize,
        to: Member,
    ) -> Option<Shape>
        ensures { result ≡ in_flight_within self.now undone from sent to }
    {
        let sent = self.column(sent)?;
        Some(Shape::InFlight {
            from,
            sent,
            to,
            again: false,
            undone,
        })
    }

    /// A control message that is told at the place and that nobody has taken, if that is drawn.
    pub(crate) fn untaken(&self, message: ControlMessage, sent: usize) -> Option<Shape>
        ensures { result ≡ untaken_within self.now message sent }
    {
        let ControlMessage { from, to, .. } = message;
        let sent = self.column(sent)?;
        Some(Shape::Untaken { from, sent, to })
    }
}
