//! The keys of scripts and dumps.

ghost use Rattle.std.specs.Prelude.{◌≡◌};

use std::fmt;

/// A key of a script or of a dump.
#[derive(Clone, Copy, Debug, PartialEq, Eq)]
pub enum Key {
    /// `version`, of a script
    Version,
    /// `members`, of both
    Members,
    /// `f`, of both
    F,
    /// `behaviour`, of a script
    Behaviour,
    /// `limit`, of a script
    Limit,
    /// `start`, of a script
    Start,
    /// `commands`, of a script
    Commands,
    /// `events`, of a dump
    Events,
    /// `held`, of a dump
    Held,
    /// `strike`, of a dump
    Strike,
}

impl Key {
    ghost use Rattle.fbl_input.specs.Shapes.{name_of};

    /// The key as it is spelled in JSON.
    pub fn name(self) -> &'static str
        ensures { result.now ≡ name_of self }
    {
        match self {
            Key::Version => "version",
            Key::Members => "members",
            Key::F => "f",
            Key::Behaviour => "behaviour",
            Key::Limit => "limit",
            Key::Start => "start",
            Key::Commands => "commands",
            Key::Events => "events",
            Key::Held => "held",
            Key::Strike => "strike",
        }
    }
}

impl fmt::Display for Key {
    fn fmt<W: fmt::Write>(&self, f: &mut fmt::Formatter<W>) -> fmt::Result {
        f.write_str(self.name())
    }
}
