//! Control messages, and their rules.

ghost use Rattle.std.specs.Prelude.{◌≡◌, ◌<◌, ◌++◌, ◌∷◌, ◌↔◌, [], ℕ, true, List, IfOk, MatchOption, OnOk};
ghost use Rattle.fbl_trace.specs.Breaches.{IsEndOutside};
ghost use Rattle.fbl_runs.specs.ControlMessages.{AreEndsAllowed, AreTold, BreaksControl, HasTold, IsFirstUntold, IsHeard, MayBeTold};
ghost use Rattle.fbl_runs.specs.declared.entry.Entry.{Entry};
ghost use Rattle.fbl_runs.specs.declared.entry.Entry.TheVariants.{Tell, Told};

use crate::entry::Entry;
use crate::fault::{ControlFault, ControlRule};
use fbl_trace::{Member, Outsider};
use std::alloc::{AllocError, Global};
use std::collections::HashSet;
use std::hash::{BuildHasherDefault, FoldHasher};

/// A control message: an acknowledgement, say, or an answer to a recovery. It has no determinant, may be lost and may be overtaken.
#[derive(Clone, Copy, PartialEq, Eq, Hash, Debug)]
pub struct ControlMessage {
    /// Who tells.
    pub from: Member,
    /// Who is told.
    pub to: Member,
    /// A number that no other control message from the one to the other has.
    pub id: u32,
}

type MessageSet = HashSet<ControlMessage, BuildHasherDefault<FoldHasher>>;

/// What a pass over entries knows of their control messages.
#[derive(Drop)]
pub struct ControlMessages {
    /// What was told.
    tells: MessageSet,
    /// What its receiver was told.
    tolds: MessageSet,
}

/// The first end of a message that is outside a group of `n`.
pub(crate) fn end_outside(n: u8, from: Member, to: Member) -> Option<Outsider>
    ensures { MatchOption result ((from < n) × (to < n)) (IsEndOutside n from to) }
{
    if from.number() >= n {
        return Some(Outsider {
            member: from,
            members: n,
        });
    }
    if to.number() >= n {
        return Some(Outsider {
            member: to,
            members: n,
        });
    }
    None
}

/// The first rule that a tell of the message breaks whatever was told before it, in a group of `n`.
fn broken_end(n: u8, message: ControlMessage) -> Option<ControlRule>
    ensures { (before : _) → MatchOption result (AreEndsAllowed n message) (BreaksControl n before (Tell message)) }
{
    let ControlMessage { from, to, .. } = message;
    if let Some(outsider) = end_outside(n, from, to) {
        return Some(ControlRule::Outside(outsider));
    }
    if from == to {
        return Some(ControlRule::ToItself);
    }
    None
}

impl ControlMessages {
    /// What a pass knows before the first entry.
    pub fn new(alloc: Global) -> ControlMessages
        ensures { HasTold [] result }
    {
        ControlMessages {
            tells: HashSet::new(alloc),
            tolds: HashSet::new(alloc),
        }
    }

    /// The first rule that a tell of the message, the next entry, breaks in a group of `n`.
    fn broken_tell(&self, n: u8, message: ControlMessage) -> Option<ControlRule>
        ensures { (before : _) → HasTold before self.now
            → MatchOption result (MayBeTold n before (Tell message))
            (BreaksControl n before (Tell message)) }
    {
        let broken = broken_end(n, message);
        if broken.is_some() {
            return broken;
        }
        if self.tells.contains(&message) {
            return Some(ControlRule::SameNumber);
        }
        None
    }

    /// The first rule that is broken if the message is told, by the next entry.
    fn broken_told(&self, message: ControlMessage) -> Option<ControlRule>
        ensures { (n : ℕ) (before : _) → HasTold before self.now
            → MatchOption result (MayBeTold n before (Told message))
            (BreaksControl n before (Told message)) }
    {
        if !self.tells.contains(&message) {
            return Some(ControlRule::NotTold);
        }
        if self.tolds.contains(&message) {
            return Some(ControlRule::ToldBefore);
        }
        None
    }

    /// The first rule that the entry, the next one, breaks in a group of `n`.
    pub fn broken_rule(&self, n: u8, entry: &Entry) -> Option<ControlRule>
        ensures { (before : _) → HasTold before self.now
            → MatchOption result (MayBeTold n before entry.now) (BreaksControl n before entry.now) }
    {
        match *entry {
            Entry::Tell(message) => self.broken_tell(n, message),
            Entry::Told(message) => self.broken_told(message),
            _ => None,
        }
    }

    /// Whether what the member of the entry, the next one, is told, if it is told something, was told before.
    pub fn is_heard(&self, entry: &Entry) -> bool
        ensures { (before : _) → HasTold before self.now → (result ≡ true) ↔ IsHeard before entry.now }
    {
        match *entry {
            Entry::Told(message) => self.tells.contains(&message),
            _ => true,
        }
    }

    /// Takes in the entry, the next one.
    pub fn add(&mut self, entry: &Entry) -> Result<(), AllocError>
        ensures { OnOk result ((before : List Entry) → HasTold before self.old → HasTold (before ++ entry.now ∷ []) self.new) }
    {
        match *entry {
            Entry::Tell(message) => self.tells.insert(message)?,
            Entry::Told(message) => self.tolds.insert(message)?,
            _ => false,
        };
        Ok(())
    }
}

/// The first entry that breaks a rule of control messages in a group of `n`, and the first rule that it breaks.
pub(crate) fn first_untold(
    alloc: Global,
    n: u8,
    entries: &[Entry],
) -> Result<Option<ControlFault>, AllocError>
    ensures { IfOk result (λ r. MatchOption r (AreTold n entries.now) (IsFirstUntold n entries.now)) }
{
    let mut known = ControlMessages::new(alloc);
    for (place, entry) in entries.iter().enumerate() {
        if let Some(rule) = known.broken_rule(n, entry) {
            let entry = *entry;
            return Ok(Some(ControlFault { place, entry, rule }));
        }
        known.add(entry)?;
    }
    Ok(None)
}
