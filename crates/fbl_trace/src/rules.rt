//! The rules of events, checked in one pass: how many sends and receipts each member has had, and what is in flight on each
//! channel.

ghost use Rattle.std.specs.Prelude.{◌≡◌, ◌<◌, ◌≤◌, ◌+◌, ◌*◌, ◌++◌, ◌∷◌, [], ℕ, IfOk, IfSome, OnOk, MatchOption, drop, slice_get, slice_index, vec_len};
ghost use Rattle.fbl_trace.specs.Breaches.{Breaks, BreaksEvent, FitsEvent};
ghost use Rattle.fbl_trace.specs.Events.{destination_of, source_of};
ghost use Rattle.fbl_trace.specs.Rules.{Counted, CountsEvent, first_by, next_by, MayFollow, WellFormed};

use crate::fault::EventRule;
use crate::limits::{MOST_EVENTS, MOST_MEMBERS};
use crate::member::Member;
use crate::trace::{Mark, end_outside};
use std::alloc::{AllocError, AllocFailed, Global};
use std::collections::VecDeque;
use std::marker::Model;

/// How many channels are kept: one from each member that there may be to each.
const CHANNELS: usize = 256;

/// The numbers of the messages in flight on one channel.
#[derive(Drop)]
struct NumbersInFlight {
    numbers: VecDeque<u32>,
}

impl Model for NumbersInFlight {
    ghost use Rattle.std.specs.Prelude.{List, ℕ};

    ghost Value = { List ℕ };

    ghost view = { λ c. c.numbers.items };
}

impl NumbersInFlight {
    fn new(alloc: Global) -> NumbersInFlight
        ensures { result ≡ [] }
    {
        NumbersInFlight {
            numbers: VecDeque::new(alloc),
        }
    }

    fn first(&self) -> Option<u32>
        ensures { result ≡ slice_get self.now 0 }
    {
        self.numbers.front().copied()
    }

    fn push(&mut self, ssn: u32) -> Result<(), AllocFailed<u32>>
        ensures { OnOk result (self.new ≡ self.old ++ ssn ∷ []) }
    {
        self.numbers.push_back(ssn)
    }

    fn pop(&mut self)
        ensures { self.new ≡ drop 1 self.old }
    {
        let _ = self.numbers.pop_front();
    }
}

/// How many sends and receipts each member has had, and what is in flight on each channel.
#[derive(Drop)]
pub struct Counts {
    sends: [u32; 16],
    receipts: [u32; 16],
    channels: Vec<NumbersInFlight>,
}

impl Counts {
    /// The counts of no events.
    pub fn new(alloc: Global) -> Result<Counts, AllocError>
        ensures { IfOk result (Counted []) }
    {
        let mut channels = Vec::new(alloc);
        for _ in 0..CHANNELS {
            channels.push(NumbersInFlight::new(alloc))?;
        }
        Ok(Counts {
            sends: [0; 16],
            receipts: [0; 16],
            channels,
        })
    }

    /// The number that the event has to have.
    fn next_number(&self, event: &Mark) -> u32
        requires { next_by self.now event.now ≤ 8192 }
        ensures { result ≡ next_by self.now event.now }
    {
        match *event {
            Mark::Send { from, .. } => self.sends[from.number() as usize] + 1,
            Mark::Receipt { to, .. } => self.receipts[to.number() as usize] + 1,
        }
    }

    /// The first message in flight from the event's source to its destination.
    fn first_in_flight(&self, event: &Mark) -> Option<u32>
        requires { vec_len self.now.channels ≡ 256 }
        ensures first { result ≡ first_by self.now event.now }
        ensures ends { (source_of event.now < 16) × (destination_of event.now < 16) }
    {
        self.channels[channel_index(event.source(), event.destination())].first()
    }

    /// The first rule that the event breaks behind the trace, whose counts these are, if it breaks one.
    pub fn broken_rule(&self, n: u8, trace: &[Mark], event: &Mark) -> Option<EventRule>
        requires members { n ≤ 16 }
        requires counted { Counted trace.now self.now }
        ensures verdict { MatchOption result (MayFollow n trace.now event.now) (λ _. ¬ (MayFollow n trace.now event.now)) }
        ensures rule { IfSome result (BreaksEvent n trace.now event.now) }
    {
        if trace.len() >= MOST_EVENTS as usize {
            return Some(EventRule::TooMany);
        }
        let next = self.next_number(event);
        let first = self.first_in_flight(event);
        broken_rule(n, event, next, first)
    }

    /// Counts the event, which may come behind the trace, whose counts these are.
    pub fn add(&mut self, n: u8, trace: &[Mark], event: &Mark) -> Result<(), AllocError>
        requires members { n ≤ 16 }
        requires rules { WellFormed n trace.now }
        requires counted { Counted trace.now self.old }
        requires may { MayFollow n trace.now event.now }
        ensures { OnOk result (Counted (trace.now ++ event.now ∷ []) self.new) }
    {
        self.count(event)
    }

    /// Counts the event, which obeys the rules.
    fn count(&mut self, event: &Mark) -> Result<(), AllocError>
        requires { vec_len self.old.channels ≡ 256 }
        ensures { OnOk result (CountsEvent event.now self.old self.new) }
    {
        match *event {
            Mark::Send { from, ssn, to } => {
                self.channels[channel_index(from, to)].push(ssn)?;
                self.sends[from.number() as usize] = ssn;
            }
            Mark::Receipt { to, rsn, from, .. } => {
                self.channels[channel_index(from, to)].pop();
                self.receipts[to.number() as usize] = rsn;
            }
        }
        Ok(())
    }
}

/// The first rule that an event breaks in a group of `n`, where its number has to be `next`, and `first` is the first message
/// in flight on its channel.
fn broken_rule(n: u8, event: &Mark, next: u32, first: Option<u32>) -> Option<EventRule>
    ensures broken { IfSome result (Breaks n event.now next first) }
    ensures fits { MatchOption result (FitsEvent n event.now next first) (λ _. ¬ (FitsEvent n event.now next first)) }
{
    let from = event.source();
    let to = event.destination();
    if let Some(outsider) = end_outside(n, from, to) {
        return Some(EventRule::Outside(outsider));
    }
    if from == to {
        return Some(EventRule::ToItself);
    }
    if event.number() != next {
        return Some(EventRule::WrongNumber(next));
    }
    match *event {
        Mark::Receipt { ssn, .. } if first != Some(ssn) => Some(match first {
            Some(first) => EventRule::OtherInFlight { from, to, first },
            None => EventRule::NothingInFlight { from, to },
        }),
        _ => None,
    }
}

/// Where the channel from one member to another is kept.
fn channel_index(from: Member, to: Member) -> usize
    ensures value { result ≡ 16 * from + to }
    ensures bound { result < 256 }
{
    MOST_MEMBERS as usize * from.number() as usize + to.number() as usize
}
