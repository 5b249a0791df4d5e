//! Events and what names them: messages, starts, determinants (Alvisi and Marzullo 1998), events with and without their
//! notes.

ghost use Rattle.std.specs.Prelude.{◌≡◌, ◌↔◌, ◌<◌, IsTrue, MatchOption};
ghost use Rattle.fbl_trace.specs.Breaches.{BreaksStart, IsEndOutside};
ghost use Rattle.fbl_trace.specs.Configs.{StartAllowed};
ghost use Rattle.fbl_trace.specs.Steps.{has_few_hops};
ghost use Rattle.fbl_trace.specs.Events.{destination_of, determinant_of, mark_of, member_of, number_of, receipt_of, source_of};

use crate::content::Content;
use crate::fault::{Outsider, StartRule};
use crate::member::Member;
use std::alloc::AllocError;
use std::fmt;
use std::hash::{Hash, Hasher};

/// A message's content, as the specified behaviours have it.
#[derive(Clone, Copy, PartialEq, Eq, Hash, Default, Debug)]
pub struct Note {
    /// What the receiver's step puts into its state. Each `u32` is allowed.
    pub value: u32,
    /// How often the message may still be passed on: with none left it isn't, and what is passed on has one fewer. Each
    /// `u8` is allowed here; a configuration has starts with at most 15.
    pub hops: u8,
}

/// A message that a member sends before it has received any. The starts of one sender are its sends 1, 2 and so on, in
/// their order. A configuration refuses a start with an end outside its group.
#[derive(Copy, PartialEq, Eq, Debug)]
pub struct Start<N = Note> {
    /// The sender.
    pub from: Member,
    /// The receiver. A configuration has it differ from the sender.
    pub to: Member,
    /// The content.
    pub note: N,
}

impl<N: Copy> Clone for Start<N> {
    fn clone(&self) -> Result<Self, AllocError> {
        Ok(*self)
    }
}

/// What names a message. That of a message of a trace has a member and a number from 1 to 8192.
#[derive(Clone, Copy, PartialEq, Eq, Hash, Debug)]
pub struct MessageName {
    /// The sender.
    pub from: Member,
    /// The send sequence number: which of the sender's sends it is, over all destinations, from 1.
    pub ssn: u32,
}

/// What names a receipt: its message by sender and send number, and the receiver's receipt number. The content is no
/// part of it (Alvisi and Marzullo 1998). That of a receipt of a trace has numbers from 1 to 8192 and two members.
///
/// Fields lie in the order of the source: with the members first it takes 12 bytes and not 16.
#[derive(Clone, Copy, PartialEq, Eq, Debug)]
pub struct Determinant {
    /// The message's sender.
    pub from: Member,
    /// The receiver.
    pub to: Member,
    /// The send sequence number: which of the sender's sends the message is, over all destinations, from 1.
    pub ssn: u32,
    /// The receive sequence number: which of the receiver's receipts this is, over all senders, from 1.
    pub rsn: u32,
}

/// The four fields go into one write, since each write is a step of a hasher, and a derived `Hash` makes four. The members go into bits that
/// the receipt's number leaves free in a trace: no two determinants of traces are written alike.
impl Hash for Determinant {
    ghost use Rattle.std.specs.Hash as fed;
    ghost use Rattle.std.specs.Cmp.Rules.{hashing};
    ghost use Rattle.std.proofs.Common.{rules};
    ghost use Rattle.fbl_trace.specs.Events.{hashed};

    ghost hash_input = { λ d. fed.u64 (hashed d) };

    ghost respects_eq = { Prim.search (hashing, rules) };

    fn hash<H: Hasher>(&self, state: &mut H) {
        let numbers = u64::from(self.ssn) + (u64::from(self.rsn) << 32);
        let members = u64::from(self.from.number()) + (u64::from(self.to.number()) << 8);
        state.write_u64(numbers.wrapping_add(members << 48));
    }
}

/// An event of a trace. Numbers count from 1 without gaps, and none is greater than 8192 in a trace,
/// which has at most that many events.
#[derive(Copy, PartialEq, Eq, Debug)]
pub enum Event<N = Note> {
    /// A member sends a message, and keeps its content.
    Send {
        /// The sender, at which the event happens.
        from: Member,
        /// Which of the sender's sends it is, over all destinations, from 1.
        ssn: u32,
        /// The receiver, another member.
        to: Member,
        /// The content.
        note: N,
    },
    /// A member takes a message that was sent to it before.
    Receipt {
        /// The receiver, at which the event happens.
        to: Member,
        /// Which of the receiver's receipts it is, over all senders, from 1.
        rsn: u32,
        /// The message's sender.
        from: Member,
        /// The message's number among its sender's sends.
        ssn: u32,
    },
}

impl<N: Copy> Clone for Event<N> {
    fn clone(&self) -> Result<Self, AllocError> {
        Ok(*self)
    }
}

/// An event without its note: all that precedence, determinants and the audit look at. Its numbers are those of `Event`; a
/// dump that is not checked yet may have any.
#[derive(Clone, Copy, PartialEq, Eq, Debug)]
pub enum Mark {
    /// A member sends a message.
    Send {
        /// The sender, at which the event happens.
        from: Member,
        /// Which of the sender's sends it is, over all destinations, from 1.
        ssn: u32,
        /// The receiver, another member.
        to: Member,
    },
    /// A member takes a message that was sent to it before.
    Receipt {
        /// The receiver, at which the event happens.
        to: Member,
        /// Which of the receiver's receipts it is, over all senders, from 1.
        rsn: u32,
        /// The message's sender.
        from: Member,
        /// The message's number among its sender's sends.
        ssn: u32,
    },
}

/// The first end of a message that is outside a group of so many members.
pub(crate) fn end_outside(members: u8, from: Member, to: Member) -> Option<Outsider>
    ensures { MatchOption result ((from < members) × (to < members)) (IsEndOutside members from to) }
{
    if from.number() >= members {
        let member = from;
        return Some(Outsider { member, members });
    }
    if to.number() >= members {
        let member = to;
        return Some(Outsider { member, members });
    }
    None
}

impl<N: Content> Start<N> {
    /// Whether it goes from one member of a group of `n` to another, with a content that a start may have.
    pub fn is_allowed(&self, n: u8) -> bool
        ensures { IsTrue result ↔ StartAllowed N.allowed n self.now }
    {
        end_outside(n, self.from, self.to).is_none()
            && self.from != self.to
            && self.note.is_allowed()
    }
}

impl Start {
    /// The first rule that it breaks in a group of `n`, where it breaks one.
    pub(crate) fn breach(&self, n: u8) -> StartRule
        requires { ¬ (StartAllowed has_few_hops n self.now) }
        ensures { BreaksStart n self.now result }
    {
        if let Some(outsider) = end_outside(n, self.from, self.to) {
            return StartRule::Outside(outsider);
        }
        if self.from == self.to {
            return StartRule::ToItself;
        }
        StartRule::TooManyHops(self.note.hops)
    }
}

impl<N: Copy> Event<N> {
    /// The event without its note.
    pub fn mark(self) -> Mark
        ensures { result ≡ mark_of self }
    {
        match self {
            Event::Send {
                from,
                ssn,
                to,
                note: _,
            } => Mark::Send { from, ssn, to },
            Event::Receipt { to, rsn, from, ssn } => Mark::Receipt { to, rsn, from, ssn },
        }
    }
}

impl Mark {
    /// The member at which the event happens.
    pub fn member(self) -> Member
        ensures { result ≡ member_of self }
    {
        match self {
            Mark::Send { from, .. } => from,
            Mark::Receipt { to, .. } => to,
        }
    }

    /// The sender of its message.
    pub fn source(self) -> Member
        ensures { result ≡ source_of self }
    {
        match self {
            Mark::Send { from, .. } | Mark::Receipt { from, .. } => from,
        }
    }

    /// The receiver of its message.
    pub fn destination(self) -> Member
        ensures { result ≡ destination_of self }
    {
        match self {
            Mark::Send { to, .. } | Mark::Receipt { to, .. } => to,
        }
    }

    /// Which of its member's sends, or receipts, it is.
    pub(crate) fn number(self) -> u32
        ensures { result ≡ number_of self }
    {
        match self {
            Mark::Send { ssn, .. } => ssn,
            Mark::Receipt { rsn, .. } => rsn,
        }
    }

    /// What names the event, if it is a receipt.
    pub fn determinant(self) -> Option<Determinant>
        ensures { result ≡ determinant_of self }
    {
        match self {
            Mark::Send { .. } => None,
            Mark::Receipt { to, rsn, from, ssn } => Some(Determinant { from, ssn, to, rsn }),
        }
    }
}

impl Determinant {
    /// The receipt that it names.
    pub fn receipt(self) -> Mark
        ensures { result ≡ receipt_of self }
    {
        let Determinant { from, ssn, to, rsn } = self;
        Mark::Receipt { to, rsn, from, ssn }
    }
}

/// As a dump has it, as in `["send",0,1,2]`.
impl fmt::Display for Mark {
    fn fmt<W: fmt::Write>(&self, f: &mut fmt::Formatter<W>) -> fmt::Result {
        match self {
            Mark::Send { from, ssn, to } => write!(f, "[\"send\",{from},{ssn},{to}]"),
            Mark::Receipt { to, rsn, from, ssn } => {
                write!(f, "[\"receipt\",{to},{rsn},{from},{ssn}]")
            }
        }
    }
}
