//! Channels with the messages of starts.

ghost use Rattle.std.specs.Prelude.{◌≡◌, ℕ, ◌≤◌, [], length, map, IfOk};
ghost use Rattle.std.specs.List.{filter_map};
ghost use Rattle.fbl_trace.specs.Events.{mark_of};
ghost use Rattle.fbl_trace.specs.Rules.{is_send_of, sends_of};
ghost use Rattle.fbl_law.specs.GroupSteps.{between, start_events, message_of_send};
ghost use Rattle.fbl_law.specs.Groups.{HasChannels, channel_in};
ghost use Rattle.fbl_channels.specs.Channels.{rows};

use crate::channels::{Channels, empty_channels};
use fbl_member::{Carried, Wire};
use fbl_trace::{Config, Content, Event, Mark, Member, Start};
use std::alloc::{AllocError, Global};

/// The starts' sends in their order, each with its sender's next number, and channels with their messages. These carry
/// nothing.
pub fn send_starts<N: Content>(
    alloc: Global,
    config: &Config<N>,
) -> Result<(Vec<Event<N>>, Channels<N>), AllocError>
    ensures trace { IfOk result (λ sent. sent.0.items ≡ start_events [] config.now.starts) }
    ensures shape { IfOk result (λ sent. HasChannels config.now.members (rows sent.1)) }
    ensures channels { IfOk result
        (λ sent. (q p : ℕ)
        → channel_in (rows sent.1) q p ≡ between q p (filter_map message_of_send sent.0.items)) }
{
    let mut channels = empty_channels(alloc, config.members())?;
    let mut trace = Vec::with_capacity(alloc, config.starts().len())?;
    for start in config.starts() {
        let Start { from, to, note } = *start;
        let ssn = count_sends(&trace, from) + 1;
        trace.push_reserved(Event::Send {
            from,
            ssn,
            to,
            note,
        });
        channels.send(Wire::new(from, to, ssn, note, Carried::none(alloc)))?;
    }
    Ok((trace, channels))
}

/// How many of the events are sends of the member.
fn count_sends<N: Copy>(events: &[Event<N>], member: Member) -> u32
    requires { length events.now ≤ 64 }
    ensures value { result ≡ sends_of (map mark_of events.now) member }
    ensures few { result ≤ 64 }
{
    let sends = events
        .iter()
        .filter(|event| is_send_of(event.mark(), member));
    sends.count() as u32
}

/// Whether the event is a send of the member.
fn is_send_of(mark: Mark, member: Member) -> bool
    ensures { result ≡ is_send_of member mark }
{
    match mark {
        Mark::Send { from, .. } => from == member,
        Mark::Receipt { .. } => false,
    }
}
