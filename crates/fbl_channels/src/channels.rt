//! Channels as queues of messages.

ghost use Rattle.std.specs.Prelude.{◌≡◌, ◌≢◌, ℕ, ◌<◌, ◌≤◌, ◌+◌, ◌++◌, ◌∷◌, ◌||◌, [], length, map, drop, replicate, slice_get, slice_index_or, IfOk, OnOk, IfSome, IfNone, None, Some, vec_len, vec_capacity};
ghost use Rattle.std.specs.List.{All};
ghost use Rattle.std.specs.VecDeque.{deque_items};
ghost use Rattle.std.specs.FinSet as set;
ghost use Rattle.fbl_law.specs.Groups.{HasChannels, channel_in, sum_below, messages_in};
ghost use Rattle.fbl_channels.specs.Channels.{AreReplaced, each, rows, room_in, with_at, with_sent, taken_and_sent, send_of_message, value_of, values_in};

use fbl_member::Wire;
use fbl_trace::{Event, Member, MemberSet, Note};
use std::alloc::{AllocError, Global};
use std::collections::VecDeque;
use std::mem;

/// The messages in flight from one member to another, first in, first out.
pub type Channel<N> = VecDeque<Wire<N>>;

/// The channels of a group, one from each member to each.
#[derive(Drop)]
pub struct Channels<N> {
    rows: Vec<Vec<Channel<N>>>,
}

impl<N: Copy> Channels<N> {
    /// These channels: for each sender those to each receiver.
    pub fn of_rows(channels: Vec<Vec<Channel<N>>>) -> Channels<N>
        ensures { rows result ≡ each deque_items channels.items }
    {
        Channels { rows: channels }
    }

    /// The channel from one member to the other.
    pub fn between(&self, from: Member, to: Member) -> &Channel<N>
        requires from { from < length (rows self.now) }
        requires to { to < length (slice_index_or (rows self.now) from []) }
        ensures { result.now.items ≡ channel_in (rows self.now) from to }
    {
        &self.rows[usize::from(from.number())][usize::from(to.number())]
    }

    /// The front of the channel from one member to the other.
    pub fn front(&self, from: Member, to: Member) -> Option<&Wire<N>>
        requires from { from < length (rows self.now) }
        requires to { to < length (slice_index_or (rows self.now) from []) }
        ensures some { IfSome result (λ wire. slice_get (channel_in (rows self.now) from to) 0 ≡ Some wire.now) }
        ensures none { IfNone result (slice_get (channel_in (rows self.now) from to) 0 ≡ None) }
    {
        self.between(from, to).front()
    }

    /// Makes room in the trace for a receipt and these sends, and on the member's channels, or on some where memory runs out.
    pub fn reserve_from(
        &mut self,
        from: Member,
        sends: &[(Member, N)],
        trace: &mut Vec<Event<N>>,
    ) -> Result<(), AllocError>
        requires from { from < length (rows self.old) }
        requires receivers { All (λ send. send.0 < length (slice_index_or (rows self.old) from [])) sends.now }
        ensures same { rows self.new ≡ rows self.old }
        ensures room { OnOk result (All (λ send. length sends.now ≤ room_in self.new from send.0) sends.now) }
        ensures trace { trace.new.items ≡ trace.old.items }
        ensures trace_room { OnOk result (vec_len trace.new + (1 + length sends.now) ≤ vec_capacity trace.new) }
    {
        trace.reserve(1 + sends.len())?;
        for send in sends {
            self.reserve(from, send.0, sends.len())?;
        }
        Ok(())
    }

    /// Makes room on the channel from one member to the other for this many messages more.
    fn reserve(&mut self, from: Member, to: Member, count: usize) -> Result<(), AllocError>
        requires from { from < length (rows self.old) }
        requires to { to < length (slice_index_or (rows self.old) from []) }
        ensures same { rows self.new ≡ rows self.old }
        ensures grows { (q p : ℕ) → room_in self.old q p ≤ room_in self.new q p }
        ensures room { OnOk result (count ≤ room_in self.new from to) }
    {
        self.rows[usize::from(from.number())][usize::from(to.number())].reserve(count)
    }

    /// Puts the message at the end of its channel.
    pub fn send(&mut self, wire: Wire<N>) -> Result<(), AllocError>
        requires from { wire.from < length (rows self.old) }
        requires to { wire.to < length (slice_index_or (rows self.old) wire.from []) }
        ensures { OnOk result
            (rows self.new
            ≡ with_at (rows self.old) wire.from wire.to
            (channel_in (rows self.old) wire.from wire.to ++ wire ∷ [])) }
    {
        self.rows[usize::from(wire.from().number())][usize::from(wire.to().number())].push_back(
            wire,
        )?;
        Ok(())
    }

    /// Drops the messages on the channel from one member to the other.
    pub fn clear(&mut self, from: Member, to: Member)
        requires from { from < length (rows self.old) }
        requires to { to < length (slice_index_or (rows self.old) from []) }
        ensures { rows self.new ≡ with_at (rows self.old) from to [] }
    {
        self.rows[usize::from(from.number())][usize::from(to.number())].clear();
    }

    /// Takes the front off the channel from one member to another, and puts these messages of the other at the ends of
    /// their channels, and their sends onto the trace. There is room for both.
    pub fn take_and_send(
        &mut self,
        from: Member,
        to: Member,
        wires: Vec<Wire<N>>,
        trace: &mut Vec<Event<N>>,
    )
        requires from { from < length (rows self.old) }
        requires to { to < length (rows self.old) }
        requires channel { to < length (slice_index_or (rows self.old) from []) }
        requires apart { from ≢ to }
        requires receivers { All (λ wire. wire.to < length (slice_index_or (rows self.old) to [])) wires.items }
        requires room { All (λ wire. length wires.items ≤ room_in self.old to wire.to) wires.items }
        requires trace { vec_len trace.old + vec_len wires ≤ vec_capacity trace.old }
        ensures channels { rows self.new ≡ taken_and_sent (rows self.old) from to wires.items }
        ensures trace { trace.new.items ≡ trace.old.items ++ map send_of_message wires.items }
    {
        self.take_front(from, to);
        self.send_all(to, wires, trace);
    }

    /// Takes the front off the channel from one member to the other. The room on the other's channels stays.
    fn take_front(&mut self, from: Member, to: Member)
        requires from { from < length (rows self.old) }
        requires to { to < length (slice_index_or (rows self.old) from []) }
        ensures taken { rows self.new ≡ with_at (rows self.old) from to (drop 1 (channel_in (rows self.old) from to)) }
        ensures room { (q p : ℕ) → q ≢ from → room_in self.new q p ≡ room_in self.old q p }
    {
        let _ = self.rows[usize::from(from.number())][usize::from(to.number())].pop_front();
    }

    /// Puts the messages of a member at the ends of their channels, and their sends onto the trace. There is room for
    /// both.
    fn send_all(&mut self, from: Member, wires: Vec<Wire<N>>, trace: &mut Vec<Event<N>>)
        requires from { from < length (rows self.old) }
        requires receivers { All (λ wire. wire.to < length (slice_index_or (rows self.old) from [])) wires.items }
        requires room { All (λ wire. length wires.items ≤ room_in self.old from wire.to) wires.items }
        requires trace { vec_len trace.old + vec_len wires ≤ vec_capacity trace.old }
        ensures channels { rows self.new ≡ with_sent (rows self.old) from wires.items }
        ensures trace { trace.new.items ≡ trace.old.items ++ map send_of_message wires.items }
    {
        for wire in wires {
            trace.push_reserved(sent_event(&wire));
            self.rows[usize::from(from.number())][usize::from(
                wire.to().number(),
            )].push_back_reserved(wire);
        }
    }

    /// How many messages are in these channels.
    pub fn messages(&self, n: u8) -> usize
        requires shape { HasChannels n (rows self.now) }
        requires few { (q p : ℕ) → q < n → p < n → length (channel_in (rows self.now) q p) ≤ 8192 }
        requires members { n ≤ 16 }
        ensures messages { result ≡ messages_in n (rows self.now) }
        ensures few { result ≤ 2097152 }
    {
        let mut messages = 0;
        for number in 0..n {
            messages += self.messages_from(n, number);
        }
        messages
    }

    /// How many messages are in the channels from one member.
    fn messages_from(&self, n: u8, from: u8) -> usize
        requires shape { HasChannels n (rows self.now) }
        requires few { (q p : ℕ) → q < n → p < n → length (channel_in (rows self.now) q p) ≤ 8192 }
        requires members { n ≤ 16 }
        requires from { from < n }
        ensures messages { result ≡ sum_below n (λ p. length (channel_in (rows self.now) from p)) }
        ensures bound { result ≤ 131072 }
    {
        let from = Member::at(from);
        let mut messages = 0;
        for number in 0..n {
            messages += self.between(from, Member::at(number)).len();
        }
        messages
    }

    /// Puts the channels that were made again in the places of those with an end that is down, of `n` members.
    pub fn replace(&mut self, again: &mut Channels<N>, down: MemberSet, n: u8)
        requires shape { HasChannels n (rows self.old) }
        requires again { HasChannels n (rows again.old) }
        requires few { n ≤ 16 }
        ensures { AreReplaced n down (channel_in (rows again.old)) (rows self.old) (rows self.new) }
    {
        for sender in 0..n {
            let from = Member::at(sender);
            for receiver in 0..n {
                let to = Member::at(receiver);
                if has_either(down, from, to) {
                    mem::swap(
                        &mut self.rows[usize::from(sender)][usize::from(receiver)],
                        &mut again.rows[usize::from(sender)][usize::from(receiver)],
                    );
                }
            }
        }
    }
}

impl Channels<Note> {
    /// What the messages in these channels hold: the sum of their values.
    pub fn value(&self, n: u8) -> u64
        requires shape { HasChannels n (rows self.now) }
        requires few { (q p : ℕ) → q < n → p < n → length (channel_in (rows self.now) q p) ≤ 8192 }
        requires members { n ≤ 16 }
        ensures { result ≡ values_in n (rows self.now) }
    {
        let mut value = 0;
        for number in 0..n {
            value += self.value_from(n, number);
        }
        value
    }

    /// What the messages in the channels from one member hold.
    fn value_from(&self, n: u8, from: u8) -> u64
        requires shape { HasChannels n (rows self.now) }
        requires few { (q p : ℕ) → q < n → p < n → length (channel_in (rows self.now) q p) ≤ 8192 }
        requires members { n ≤ 16 }
        requires from { from < n }
        ensures value { result ≡ sum_below n (λ p. value_of (channel_in (rows self.now) from p)) }
        ensures bound { result ≤ 562949953290240 }
    {
        let from = Member::at(from);
        let mut value = 0;
        for number in 0..n {
            value += sum_channel(self.between(from, Member::at(number)));
        }
        value
    }
}

/// Channels from each of `n` members to each, with no message.
pub fn empty_channels<N: Copy>(alloc: Global, n: u8) -> Result<Channels<N>, AllocError>
    ensures { IfOk result (λ channels. rows channels ≡ replicate n (replicate n [])) }
{
    let mut rows = Vec::new(alloc);
    for _number in 0..n {
        rows.push(empty_row(alloc, n)?)?;
    }
    Ok(Channels { rows })
}

/// Channels to each of `n` members, with no message.
fn empty_row<N: Copy>(alloc: Global, n: u8) -> Result<Vec<Channel<N>>, AllocError>
    ensures { IfOk result (λ row. map deque_items row.items ≡ replicate n []) }
{
    let mut row = Vec::new(alloc);
    for _number in 0..n {
        row.push(VecDeque::new(alloc))?;
    }
    Ok(row)
}

/// The send of the message, with its note.
fn sent_event<N: Copy>(wire: &Wire<N>) -> Event<N>
    ensures { result ≡ send_of_message wire.now }
{
    Event::Send {
        from: wire.from(),
        ssn: wire.ssn(),
        to: wire.to(),
        note: wire.note(),
    }
}

/// The sum of the values of the messages in the channel.
fn sum_channel(channel: &Channel<Note>) -> u64
    requires { length channel.now.items ≤ 8192 }
    ensures value { result ≡ value_of channel.now.items }
    ensures bound { result ≤ 35184372080640 }
{
    let mut sum = 0u64;
    for place in 0..channel.len() {
        sum += u64::from(channel[place].note().value);
    }
    sum
}

/// Whether one of the two is in the set.
pub fn has_either(members: MemberSet, from: Member, to: Member) -> bool
    ensures { result ≡ (set.contains members from || set.contains members to) }
{
    members.has(from) || members.has(to)
}
