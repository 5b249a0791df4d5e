//! What messages ask of a key's owner.

use fbl_trace::{Content, Exact};

/// A command on one of 256 keys.
#[derive(Clone, Copy, PartialEq, Debug)]
pub enum Command {
    /// The key's value becomes this one.
    Put { key: u8, value: u32 },
    /// The key's value grows by the amount, up to 2^64 - 1.
    Add { key: u8, amount: u32 },
}

impl Command {
    ghost use Rattle.std.specs.Prelude.{◌≡◌};
    ghost use Rattle.fbl_behaviours.specs.Commands.{key_of, changed};

    /// The key.
    pub fn key(self) -> u8
        ensures { result ≡ key_of self }
    {
        match self {
            Command::Put { key, .. } | Command::Add { key, .. } => key,
        }
    }

    /// What becomes of the key's value.
    pub fn change(self, value: u64) -> u64
        ensures { result ≡ changed self value }
    {
        match self {
            Command::Put { value, .. } => value.into(),
            Command::Add { amount, .. } => value.saturating_add(amount.into()),
        }
    }
}

impl Default for Command {
    fn default() -> Command {
        Command::Add { key: 0, amount: 0 }
    }
}

impl Exact for Command {
    ghost use Rattle.std.proofs.Common.{rules};

    ghost exact = { Prim.search rules };
}

// A start may bring any command.
impl Content for Command {
    ghost use Rattle.std.specs.Prelude.{true};

    ghost allowed = { λ command. true };

    fn is_allowed(&self) -> bool {
        true
    }
}
