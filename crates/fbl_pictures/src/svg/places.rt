//! Where shapes stand, counted from the left and from the top, in pixels.

use fbl_trace::Member;

/// A point of a picture.
#[derive(Clone, Copy)]
pub(crate) struct Point {
    pub(crate) x: u128,
    pub(crate) y: u128,
}

impl Point {
    /// Where a column crosses a member's line.
    pub(crate) fn at(column: usize, member: Member) -> Point {
        Point {
            x: x(column),
            y: y(member.number()),
        }
    }

    /// Where a moment before a column crosses it: between this column and the one before, or at the line's left end.
    pub(crate) fn before(column: usize, member: Member) -> Point {
        Point::at(column, member).left(20)
    }

    /// Where a part of a member's line starts: at a column, or at the line's left end.
    pub(crate) fn start(column: Option<usize>, member: Member) -> Point {
        match column {
            Some(column) => Point::at(column, member),
            None => Point::at(0, member).left(20),
        }
    }

    pub(crate) fn left(self, by: u128) -> Point {
        Point {
            x: self.x.saturating_sub(by),
            y: self.y,
        }
    }

    pub(crate) fn right(self, by: u128) -> Point {
        Point {
            x: self.x.saturating_add(by),
            y: self.y,
        }
    }

    pub(crate) fn up(self, by: u128) -> Point {
        Point {
            x: self.x,
            y: self.y.saturating_sub(by),
        }
    }

    pub(crate) fn down(self, by: u128) -> Point {
        Point {
            x: self.x,
            y: self.y.saturating_add(by),
        }
    }
}

/// How far from the left a column stands: before each that follows 24 others there is room for the members' names.
fn x(column: usize) -> u128 {
    let names = column / 24;
    190 + 46 * (column as u128) + 90 * (names as u128)
}

/// How far from the top the line of the member with this number is.
fn y(member: u8) -> u128 {
    74 + 80 * u128::from(member)
}

/// How wide a picture of so many columns is, under a heading of so many bytes: wide enough for a legend.
pub(crate) fn width(columns: usize, heading: usize) -> u128 {
    let room = 8 * (heading as u128) + 32;
    x(columns).saturating_add(30).max(room).max(815)
}

/// How far from the top the legend is, below the lines of so many members.
fn legend_y(members: u8) -> u128 {
    70 + 80 * u128::from(members)
}

/// How high a picture of so many members is, whose legend has so many signs, three in a row.
pub(crate) fn height(members: u8, signs: usize) -> u128 {
    let rows = (signs as u128 + 2) / 3;
    legend_y(members).saturating_add(22 * rows)
}

/// Where the sign of a legend stands that has so many before it, below the lines of so many members.
pub(crate) fn sign_place(members: u8, before: usize) -> Point {
    let row = (before / 3) as u128;
    let in_row = (before % 3) as u128;
    let first = Point {
        x: 14,
        y: legend_y(members),
    };
    first.right(265 * in_row).down(22 * row)
}
