//! What a step is made from, apart from its group.

ghost use Rattle.std.specs.Prelude.{◌≤◌, ◌<◌};

use crate::member::Member;
use crate::outcome::Outcome;
use crate::trace::Note;
use std::alloc::AllocError;
use std::marker::PhantomData;

/// What a step of a member is made from: its state, the number that the receipt would get, and the message at the front
/// of the channel. It is a copy: the message stays in its channel until the step is committed.
#[derive(PartialEq, Debug)]
pub struct Ticket<S = u64, N = Note> {
    /// How many members the group has.
    pub n: u8,
    /// The receiver.
    pub to: Member,
    /// The sender.
    pub from: Member,
    /// The receiver's state.
    pub state: S,
    /// The number that the receipt would get.
    pub rsn: u32,
    /// The message's number among its sender's.
    pub ssn: u32,
    /// The message's content.
    pub note: N,
    ghost size: { (2 ≤ n) × (n ≤ 16) },
    ghost ends: { (to < n) × (from < n) },
}

impl<S: Copy, N: Copy> Clone for Ticket<S, N> {
    fn clone(&self) -> Result<Self, AllocError> {
        Ok(*self)
    }
}

impl<S: Copy, N: Copy> Copy for Ticket<S, N> {}

/// As large as a ticket with the step of it. That it fits in memory is what a behaviour shows of its states and contents.
#[derive(Drop)]
pub struct Room<S, N> {
    ticket: Ticket<S, N>,
    outcome: Outcome<S, N>,
    behaviour: PhantomData<u8>,
}
