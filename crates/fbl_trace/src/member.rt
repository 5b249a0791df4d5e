//! Members, by their numbers.

ghost use Rattle.std.specs.Prelude.{◌≡◌, ◌<◌, ◌≤◌, ◌+◌, ◌%◌, SomeIff};

use crate::limits::MOST_MEMBERS;
use std::fmt;
use std::marker::Model;

/// A member of the group, by its number, which is below 16.
#[derive(Clone, Copy, PartialEq, Eq, Hash, Default, Debug)]
pub struct Member {
    number: u8,
}

impl Model for Member {
    ghost use Rattle.std.specs.Prelude.{ℕ, ◌<◌};

    ghost Value = { ℕ };

    ghost view = { λ m. m.number };

    ghost invariant = { λ m. m.number < 16 };

    ghost inverse = { λ k. record { number = k } };
}

impl Member {
    /// The member with this number, if there can be one.
    pub fn new(number: u8) -> Option<Member>
        ensures { SomeIff result (number < 16) number }
    {
        if number < MOST_MEMBERS {
            Some(Member { number })
        } else {
            None
        }
    }

    /// The member with this number, which is below 16.
    pub fn at(number: u8) -> Member
        requires { number < 16 }
        ensures { result ≡ number }
    {
        Member { number }
    }

    /// The member's number.
    pub fn number(self) -> u8
        ensures value { result ≡ self }
        ensures bound { result < 16 }
    {
        self.number
    }

    /// The member `by` places on, round a group of `n`.
    pub fn after(self, by: u8, n: u8) -> Member
        requires least { 2 ≤ n }
        requires most { n ≤ 16 }
        requires step { by ≤ n }
        ensures { result ≡ (self + by) % n }
    {
        let number = (self.number + by) % n;
        Member { number }
    }
}

/// As its number.
impl fmt::Display for Member {
    fn fmt<W: fmt::Write>(&self, f: &mut fmt::Formatter<W>) -> fmt::Result {
        fmt::Display::fmt(&self.number, f)
    }
}
