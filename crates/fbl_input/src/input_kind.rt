//! What an input is read as: its keys, and what is wanted there, in words for a person.

ghost use Rattle.std.specs.Prelude.{◌≡◌};

use crate::items::{ENTRIES_WANTED, ENTRY_WANTED, EVENT_WANTED, EVENTS_WANTED};
use crate::key::Key;
use thiserror::Error;

/// What an input is read as.
#[derive(Clone, Copy, PartialEq, Eq, Debug, Error)]
pub enum InputKind {
    #[error("a script has version, members, f, behaviour, start and commands, and may have limit")]
    Script,
    #[error("a dump has members, f, events, held and strike")]
    Dump,
    #[error("a dump of version 2 has version, members, f, events and strike")]
    Log,
}

impl InputKind {
    ghost use Rattle.fbl_input.specs.Items.{known_keys};
    ghost use Rattle.fbl_input.specs.Items.{is_script as is_script_of};

    /// Whether it is a script, and not a dump of either version.
    pub(crate) fn is_script(self) -> bool
        ensures { result ≡ is_script_of self }
    {
        match self {
            InputKind::Script => true,
            InputKind::Dump | InputKind::Log => false,
        }
    }

    /// The keys that such an input may have.
    pub fn keys(self) -> &'static [Key]
        ensures { result.now ≡ known_keys self }
    {
        match self {
            InputKind::Script => &[
                Key::Version,
                Key::Members,
                Key::F,
                Key::Behaviour,
                Key::Limit,
                Key::Start,
                Key::Commands,
            ],
            InputKind::Dump => &[Key::Members, Key::F, Key::Events, Key::Held, Key::Strike],
            InputKind::Log => &[Key::Version, Key::Members, Key::F, Key::Events, Key::Strike],
        }
    }

    /// What is wanted at the key.
    pub fn wanted_at(self, key: Key) -> &'static str {
        match (key, self) {
            (Key::Version, _) => "1 or 2",
            (Key::Members, _) => "a number 2 to 16",
            (Key::F, _) => "a number 1 to one less than members",
            (Key::Behaviour, _) => "\"relay\" or \"mix\"",
            (Key::Limit, _) => "a number 1 to 8192",
            (Key::Start, _) => "a list of starts [from, to, value, hops]",
            (Key::Commands, _) => "a list of commands",
            (Key::Events, InputKind::Log) => ENTRIES_WANTED,
            (Key::Events, _) => EVENTS_WANTED,
            (Key::Held, _) =>
                "a list of pairs [holder, from, number of the send, to, number of the receipt]",
            (Key::Strike, _) => "a list of members 0 to 15",
        }
    }

    /// What an item of the list at the key is called, and what it has to be.
    pub fn wanted_item(self, key: Key) -> (&'static str, &'static str) {
        match (key, self) {
            (Key::Start, _) => (
                "start",
                "[from, to, value, hops]: members 0 to 15, value 0 to 4294967295, hops 0 to 15",
            ),
            (Key::Events, InputKind::Log) => ("event", ENTRY_WANTED),
            (Key::Events, _) => ("event", EVENT_WANTED),
            (Key::Held, _) => (
                "held pair",
                "[holder, from, number of the send, to, number of the receipt]: members 0 to 15, numbers 0 to 4294967295",
            ),
            (Key::Strike, _) => ("struck member", "a member 0 to 15"),
            _ => (key.name(), self.wanted_at(key)),
        }
    }
}
