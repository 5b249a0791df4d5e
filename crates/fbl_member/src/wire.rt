//! Messages in flight.

ghost use Rattle.std.specs.Prelude.{◌≡◌, IfSome};
ghost use Rattle.fbl_member.specs.Carried.{IsOnce};

use crate::carried::Carried;
use fbl_table::Entry;
use fbl_trace::{Member, Note};
use std::marker::Model;

/// A message in flight, with the entries that it carries: those that its sender knew at most `f` members to hold when
/// the message was made, or made again. It carries each determinant once.
#[derive(Drop)]
pub struct Wire<N = Note> {
    from: Member,
    to: Member,
    ssn: u32,
    note: N,
    carried: Carried,
}

impl<N> Model for Wire<N> {
    ghost use Rattle.fbl_member.specs.Members.{Message};

    ghost Value = { Message N };

    ghost use Rattle.std.specs.Coded.{codes};
    ghost use Rattle.fbl_table.specs.contracts.entry.Entry as entry;

    ghost coded = { Prim.hlevel (codes, N.code, entry.the_row.coded) };

    ghost use Rattle.fbl_member.specs.Carried.{IsOnce};

    ghost view = { λ w. record { from = w.from; to = w.to; ssn = w.ssn; note = w.note; carried = w.carried } };

    ghost invariant = { λ w. IsOnce w.carried };
}

impl<N: Copy> Wire<N> {
    /// A message with these ends, this number among its sender's, this content and these entries, of which no two have the
    /// same determinant. It takes no memory.
    pub fn new(from: Member, to: Member, ssn: u32, note: N, carried: Carried) -> Wire<N>
        requires { IsOnce carried }
        ensures { result ≡ record { from = from; to = to; ssn = ssn; note = note; carried = carried } }
    {
        Wire {
            from,
            to,
            ssn,
            note,
            carried,
        }
    }

    /// The sender.
    pub fn from(&self) -> Member
        ensures { result ≡ self.now.from }
    {
        self.from
    }

    /// The receiver.
    pub fn to(&self) -> Member
        ensures { result ≡ self.now.to }
    {
        self.to
    }

    /// The message's number among its sender's, which count from 1.
    pub fn ssn(&self) -> u32
        ensures { result ≡ self.now.ssn }
    {
        self.ssn
    }

    /// The content.
    pub fn note(&self) -> N
        ensures { result ≡ self.now.note }
    {
        self.note
    }

    /// The content, lent.
    pub fn note_ref(&self) -> &N
        ensures { result.now ≡ self.now.note }
    {
        &self.note
    }

    /// The entries that it carries.
    pub fn carried(&self) -> &[Entry]
        ensures value { result.now ≡ self.now.carried }
        ensures once { IsOnce result.now }
    {
        self.carried.entries()
    }

    /// What it carries, for another message of the same step, if the list can be shared.
    pub(crate) fn share_carried(&self) -> Option<Carried>
        ensures { IfSome result (λ carried. carried ≡ self.now.carried) }
    {
        self.carried.share()
    }
}
