//! The parameters of a group.

ghost use Rattle.std.specs.Prelude.{◌≡◌, ◌↔◌, ℕ, IsTrue, IfOk, IfErr, MatchOption, length};
ghost use Rattle.fbl_trace.specs.Breaches.{IsConfigBreach};
ghost use Rattle.fbl_trace.specs.Configs.{BreaksGroup, FAllowed, IsConfig, IsFirstBreach, MembersAllowed, RefusesConfig, StartAllowedAt};
ghost use Rattle.fbl_trace.specs.Steps.{has_few_hops};

use crate::content::Content;
use crate::fault::Breach;
use crate::limits::{LEAST_MEMBERS, MOST_EVENTS, MOST_MEMBERS, MOST_STARTS};
use crate::trace::{Note, Start};
use std::alloc::{AllocError, Global};
use std::marker::Model;
use thiserror::Error;

/// Which rule the numbers of a group break.
#[derive(Clone, Copy, Debug)]
pub enum GroupRule {
    /// There are 2 to 16 members.
    Members,
    /// From 1 to one less than all of them may be lost at once.
    F,
}

/// The first rule that a group of so many members, of which `f` may be lost at once, would break.
pub fn group_breach(members: u8, f: u8) -> Option<GroupRule>
    ensures { MatchOption result (MembersAllowed members × FAllowed members f) (BreaksGroup members f) }
{
    if members < LEAST_MEMBERS || members > MOST_MEMBERS {
        return Some(GroupRule::Members);
    }
    if f < 1 || f >= members {
        return Some(GroupRule::F);
    }
    None
}

/// Why there is no configuration of these parameters. The refusals are tested in this order.
#[derive(Clone, Copy, PartialEq, Eq, Debug, Error)]
#[error("{:?}", self)]
pub enum ConfigRefusal {
    /// There are not 2 to 16 members.
    BadMembers,
    /// The number of members that may be lost at once is not 1 to one less than that of members.
    BadF,
    /// The limit of the trace is not 1 to 8192 events.
    BadLimit,
    /// There are more than 64 starts.
    TooManyStarts,
    /// The start at this place, the first such, has an end outside the group, goes from a member to itself, or has
    /// a content that no start may have: a `Note` with more than 15 hops.
    #[error("BadStart {0}")]
    BadStart(usize),
    /// The trace may have fewer events than there are starts.
    LimitBelowStarts,
    /// There is no memory for a copy of the starts. It is answered only where no other refusal holds.
    Memory,
}

impl ConfigRefusal {
    /// What the parameters with this refusal are refused for.
    pub fn breach(self, members: u8, f: u8, limit: u32, starts: &[Start]) -> Breach
        requires { RefusesConfig has_few_hops (record { members = members; f = f; limit = limit; starts = starts.now }) self }
        ensures { IsConfigBreach (record { members = members; f = f; limit = limit; starts = starts.now }) self result }
    {
        match self {
            ConfigRefusal::BadMembers => Breach::Members { members },
            ConfigRefusal::BadF => Breach::F { f, members },
            ConfigRefusal::BadLimit => Breach::Limit { limit },
            ConfigRefusal::TooManyStarts => Breach::Starts {
                starts: starts.len(),
            },
            ConfigRefusal::BadStart(place) => {
                let start = starts[place];
                let rule = start.breach(members);
                Breach::Start { place, start, rule }
            }
            ConfigRefusal::LimitBelowStarts => Breach::LimitBelowStarts {
                limit,
                starts: starts.len(),
            },
            ConfigRefusal::Memory => Breach::Memory,
        }
    }
}

/// The parameters of a group: how many members it has and how many of them may be lost at once, how many events its
/// trace may have, and the messages that members send before anything is received.
#[derive(Drop, Debug)]
pub struct Config<N: Content = Note> {
    members: u8,
    f: u8,
    limit: u32,
    starts: Vec<Start<N>>,
}

impl<N: Content> Model for Config<N> {
    ghost use Rattle.fbl_trace.specs.Configs.{Settings, IsConfig};

    ghost Value = { Settings N };

    ghost view = { λ c. record { members = c.members; f = c.f; limit = c.limit; starts = c.starts.items } };

    ghost invariant = { λ c. IsConfig N.allowed
        (record { members = c.members; f = c.f; limit = c.limit; starts = c.starts.items }) };
}

impl<N: Content> Config<N> {
    /// A configuration of these parameters, with a copy of the starts in the allocator's memory. Where several refusals
    /// hold, the first in the order of `ConfigRefusal` is answered.
    pub fn new(
        alloc: Global,
        members: u8,
        f: u8,
        limit: u32,
        starts: &[Start<N>],
    ) -> Result<Config<N>, ConfigRefusal>
        ensures accepted { IfOk result (λ c. c ≡ record { members = members; f = f; limit = limit; starts = starts.now }) }
        ensures rules { IfOk result (IsConfig N.allowed) }
        ensures refused { IfErr result
            (RefusesConfig N.allowed
            (record { members = members; f = f; limit = limit; starts = starts.now })) }
    {
        match group_breach(members, f) {
            Some(GroupRule::Members) => return Err(ConfigRefusal::BadMembers),
            Some(GroupRule::F) => return Err(ConfigRefusal::BadF),
            None => {}
        }
        if limit < 1 || limit > MOST_EVENTS {
            return Err(ConfigRefusal::BadLimit);
        }
        let count = starts.len();
        if count > MOST_STARTS {
            return Err(ConfigRefusal::TooManyStarts);
        }
        if let Some(place) = first_bad_start(members, starts) {
            return Err(ConfigRefusal::BadStart(place));
        }
        if (limit as usize) < count {
            return Err(ConfigRefusal::LimitBelowStarts);
        }
        match Vec::from_slice(alloc, starts) {
            Ok(starts) => Ok(Config {
                members,
                f,
                limit,
                starts,
            }),
            Err(_) => Err(ConfigRefusal::Memory),
        }
    }

    /// How many members there are, 2 to 16.
    pub fn members(&self) -> u8
        ensures value { result ≡ self.now.members }
        ensures rules { IsConfig N.allowed self.now }
    {
        self.members
    }

    /// How many members may be lost at once, 1 to one less than there are.
    pub fn f(&self) -> u8
        ensures { result ≡ self.now.f }
    {
        self.f
    }

    /// How many events the trace may have, 1 to 8192.
    pub fn limit(&self) -> u32
        ensures { result ≡ self.now.limit }
    {
        self.limit
    }

    /// The messages that members send before anything is received, in order.
    pub fn starts(&self) -> &[Start<N>]
        ensures { result.now ≡ self.now.starts }
    {
        self.starts.as_slice()
    }

    /// Whether the two have the same parameters.
    pub fn same(&self, other: &Config<N>) -> bool
        ensures { IsTrue result ↔ (self.now ≡ other.now) }
    {
        self.members == other.members
            && self.f == other.f
            && self.limit == other.limit
            && self.starts.as_slice() == other.starts.as_slice()
    }

    /// An equal configuration, in the same allocator's memory. `Err` comes only where there is no memory for the
    /// starts.
    pub fn copy(&self) -> Result<Config<N>, AllocError>
        ensures { IfOk result (λ c. c ≡ self.now) }
    {
        Ok(Config {
            members: self.members,
            f: self.f,
            limit: self.limit,
            starts: Vec::from_slice(*self.starts.allocator(), self.starts.as_slice())?,
        })
    }
}

/// The place of the first start that may not be one in a group of so many members.
fn first_bad_start<N: Content>(members: u8, starts: &[Start<N>]) -> Option<usize>
    ensures { MatchOption result ((i : ℕ) → StartAllowedAt N.allowed members starts.now i)
        (IsFirstBreach (StartAllowedAt N.allowed members starts.now)) }
{
    for (place, start) in starts.iter().enumerate() {
        if !start.is_allowed(members) {
            return Some(place);
        }
    }
    None
}
