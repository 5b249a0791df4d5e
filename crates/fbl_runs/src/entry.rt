//! Entries of a run's log.

ghost use Rattle.std.specs.Prelude.{◌≡◌};
ghost use Rattle.fbl_runs.specs.Entries.{entry_member, mark_in, named_life, receipt_in, recorded_in, restart_in};

use crate::control::ControlMessage;
use fbl_trace::{Determinant, Mark, Member};
use std::fmt;

/// A member's restart: its memory is gone, and it is back in a life of its own with the first of the events that stood, so many receipts
/// and sends. The others are undone.
#[derive(Clone, Copy, PartialEq, Eq, Debug)]
pub struct Restart {
    /// Who restarts.
    pub member: Member,
    /// The life that begins. A member begins in life 0, and its lives rise.
    pub life: u32,
    /// How many receipts are kept.
    pub receipts: u32,
    /// How many sends are kept.
    pub sends: u32,
}

/// An entry of a run's log.
#[derive(Clone, Copy, PartialEq, Eq, Debug)]
pub enum Entry {
    /// A member sends a message, or takes one that its sender sent in its life 0.
    Event(Mark),
    /// A member takes a message that its sender sent, or kept, in a later life.
    LaterReceipt {
        /// What names the receipt.
        determinant: Determinant,
        /// The sender's life.
        life: u32,
    },
    /// From here on the member's volatile memory has the determinant.
    Hold {
        /// The member.
        holder: Member,
        /// What it has.
        determinant: Determinant,
    },
    /// From here on the determinant is on stable storage, which no loss of members loses.
    Store {
        /// The member at which it is stored.
        member: Member,
        /// What is stored.
        determinant: Determinant,
    },
    /// Its sender sends the control message.
    Tell(ControlMessage),
    /// Its receiver takes the control message.
    Told(ControlMessage),
    /// A member is back after a crash.
    Restart(Restart),
}

impl Entry {
    /// The member in whose log it stands.
    pub fn member(self) -> Member
        ensures { result ≡ entry_member self }
    {
        match self {
            Entry::Event(event) => event.member(),
            Entry::Hold { holder, .. } => holder,
            Entry::Store { member, .. } => member,
            Entry::Tell(message) => message.from,
            Entry::Told(message) => message.to,
            Entry::LaterReceipt { determinant, .. } => determinant.to,
            Entry::Restart(restart) => restart.member,
        }
    }

    /// The send or receipt, if it is one.
    pub fn event(self) -> Option<Mark>
        ensures { result ≡ mark_in self }
    {
        match self {
            Entry::Event(event) => Some(event),
            Entry::LaterReceipt { determinant, .. } => Some(determinant.receipt()),
            _ => None,
        }
    }

    /// What names the receipt, if it is one.
    pub fn receipt(self) -> Option<Determinant>
        ensures { result ≡ receipt_in self }
    {
        self.event()?.determinant()
    }

    /// What is held or stored from here on, if it says so.
    pub fn recorded(self) -> Option<Determinant>
        ensures { result ≡ recorded_in self }
    {
        match self {
            Entry::Hold { determinant, .. } | Entry::Store { determinant, .. } => Some(determinant),
            _ => None,
        }
    }

    /// The restart, if it is one.
    pub fn restart(self) -> Option<Restart>
        ensures { result ≡ restart_in self }
    {
        match self {
            Entry::Restart(restart) => Some(restart),
            _ => None,
        }
    }

    /// The life of its sender that it names, if it is a receipt: 0 where the receipt names none.
    pub fn life(self) -> u32
        ensures { result ≡ named_life self }
    {
        match self {
            Entry::LaterReceipt { life, .. } => life,
            _ => 0,
        }
    }
}

/// Writes an entry of this word that says of a member who has what, or where it is stored.
fn write_recorded<W: fmt::Write>(
    f: &mut fmt::Formatter<W>,
    word: &str,
    member: Member,
    determinant: Determinant,
) -> fmt::Result {
    let Determinant { from, ssn, to, rsn } = determinant;
    write!(f, "[\"{word}\",{member},{from},{ssn},{to},{rsn}]")
}

/// Writes an entry of this word that the first member has of a control message between the two.
fn write_control<W: fmt::Write>(
    f: &mut fmt::Formatter<W>,
    word: &str,
    member: Member,
    other: Member,
    id: u32,
) -> fmt::Result {
    write!(f, "[\"{word}\",{member},{other},{id}]")
}

/// As a log has it, as in `["restart",0,2,3,1]`.
impl fmt::Display for Restart {
    fn fmt<W: fmt::Write>(&self, f: &mut fmt::Formatter<W>) -> fmt::Result {
        let Restart {
            member,
            life,
            receipts,
            sends,
        } = self;
        write!(f, "[\"restart\",{member},{life},{receipts},{sends}]")
    }
}

/// As a log has it, as in `["hold",1,0,1,1,1]`, `["store",1,0,1,1,1]`, `["tell",0,1,7]`, `["told",1,0,7]` and `["receipt",1,1,0,1,2]`.
impl fmt::Display for Entry {
    fn fmt<W: fmt::Write>(&self, f: &mut fmt::Formatter<W>) -> fmt::Result {
        match *self {
            Entry::Event(event) => fmt::Display::fmt(&event, f),
            Entry::Hold {
                holder,
                determinant,
            } => write_recorded(f, "hold", holder, determinant),
            Entry::Store {
                member,
                determinant,
            } => write_recorded(f, "store", member, determinant),
            Entry::Tell(message) => write_control(f, "tell", message.from, message.to, message.id),
            Entry::Told(message) => write_control(f, "told", message.to, message.from, message.id),
            Entry::LaterReceipt { determinant, life } => {
                let Determinant { from, ssn, to, rsn } = determinant;
                write!(f, "[\"receipt\",{to},{rsn},{from},{ssn},{life}]")
            }
            Entry::Restart(restart) => fmt::Display::fmt(&restart, f),
        }
    }
}
