//! What is known of the entries that a merge has placed, by which it is decided which may come next.

ghost use Rattle.std.specs.Prelude.{◌≡◌, ◌≤◌, ◌++◌, ◌∷◌, [], ◌↔◌, ℕ, true, false, Bool, List, IfOk, IfSome, OnOk, MatchOption, length};
ghost use Rattle.fbl_trace.specs.Breaches.{BreaksEvent};
ghost use Rattle.fbl_trace.specs.Rules.{Counted, WellFormed};
ghost use Rattle.fbl_trace.specs.declared.trace.Mark.{Mark};
ghost use Rattle.fbl_runs.specs.Entries.{mark_in, marks};
ghost use Rattle.fbl_runs.specs.Rules.{BreaksLife};
ghost use Rattle.fbl_order.specs.Known.{Breaks, Knows, KnowsTrace, LacksInLife, MayCome, MayFollowAs};
ghost use Rattle.fbl_order.specs.Orders.{Obeys};

use fbl_runs::{ControlMessages, ControlRule, Entry, LifeRule, LifeRules};
use fbl_trace::{Counts, EventRule, Mark};
use std::alloc::{AllocError, Global};

/// The first rule that an entry breaks if it comes next.
#[derive(Clone, Copy)]
pub(crate) enum BrokenRule {
    /// Of sends and receipts, where no member restarts.
    Event(EventRule),
    /// Of control messages, where no member restarts.
    Control(ControlRule),
    /// Of a log with restarts.
    Life(LifeRule),
}

/// What is known of entries of a log in which no member restarts.
#[derive(Drop)]
pub(crate) struct KnownTrace {
    /// The sends and receipts, in their order.
    run: Vec<Mark>,
    /// Their counts.
    counts: Counts,
    /// What was told.
    control: ControlMessages,
}

/// What is known of entries.
#[derive(Drop)]
pub(crate) enum Known {
    /// Of a log in which no member restarts.
    Trace(KnownTrace),
    /// Of one with restarts.
    Lives(LifeRules),
}

impl KnownTrace {
    /// What is known before the first entry.
    fn new(alloc: Global) -> Result<KnownTrace, AllocError>
        ensures { IfOk result (KnowsTrace []) }
    {
        Ok(KnownTrace {
            run: Vec::new(alloc),
            counts: Counts::new(alloc)?,
            control: ControlMessages::new(alloc),
        })
    }

    /// The first rule of sends and receipts that the entry breaks if it comes next.
    fn broken_event(&self, n: u8, entry: &Entry) -> Option<EventRule>
        requires members { n ≤ 16 }
        requires counted { Counted self.now.run.items self.now.counts }
        ensures verdict { MatchOption result (MayFollowAs n self.now.run.items entry.now)
            (λ _. ¬ (MayFollowAs n self.now.run.items entry.now)) }
        ensures rule { IfSome result
            (λ rule. (m : Mark) × (mark_in entry.now ≡ Some m) × BreaksEvent n self.now.run.items m rule) }
    {
        let event = entry.event()?;
        self.counts.broken_rule(n, self.run.as_slice(), &event)
    }

    /// The first rule that the entry breaks if it comes next.
    fn broken_rule(&self, n: u8, entry: &Entry) -> Option<BrokenRule>
        requires members { n ≤ 16 }
        requires known { (before : List Entry) × KnowsTrace before self.now }
        ensures { (before : List Entry) → KnowsTrace before self.now
            → MatchOption result (MayCome false n before entry.now)
            (λ broken. Breaks false n before entry.now broken × ¬ (MayCome false n before entry.now)) }
    {
        if let Some(rule) = self.broken_event(n, entry) {
            return Some(BrokenRule::Event(rule));
        }
        let rule = self.control.broken_rule(n, entry)?;
        Some(BrokenRule::Control(rule))
    }

    /// Takes in the entry, the next one, if it is a send or a receipt.
    fn add_event(&mut self, n: u8, entry: &Entry) -> Result<(), AllocError>
        requires members { n ≤ 16 }
        requires obeys { WellFormed n self.old.run.items }
        requires counted { Counted self.old.run.items self.old.counts }
        requires may { MayFollowAs n self.old.run.items entry.now }
        ensures run { OnOk result (self.new.run.items ≡ self.old.run.items ++ marks (entry.now ∷ [])) }
        ensures counted { OnOk result (Counted self.new.run.items self.new.counts) }
        ensures control { OnOk result (self.new.control ≡ self.old.control) }
    {
        let Some(event) = entry.event() else {
            return Ok(());
        };
        self.counts.add(n, self.run.as_slice(), &event)?;
        self.run.push(event)?;
        Ok(())
    }

    /// Takes in the entry, the next one, which breaks no rule.
    fn add(&mut self, n: u8, entry: &Entry) -> Result<(), AllocError>
        requires members { n ≤ 16 }
        requires may { (before : List Entry) × KnowsTrace before self.old × Obeys false n before
            × MayCome false n before entry.now }
        ensures { OnOk result
            ((before : List Entry) → KnowsTrace before self.old → KnowsTrace (before ++ entry.now ∷ []) self.new) }
    {
        self.add_event(n, entry)?;
        self.control.add(entry)?;
        Ok(())
    }
}

impl Known {
    /// What is known before the first entry.
    pub(crate) fn new(alloc: Global, lived: bool) -> Result<Known, AllocError>
        ensures { IfOk result (Knows lived []) }
    {
        if lived {
            return Ok(Known::Lives(LifeRules::new(alloc)?));
        }
        Ok(Known::Trace(KnownTrace::new(alloc)?))
    }

    /// The first rule that the entry breaks if it comes next.
    pub(crate) fn broken_rule(&self, n: u8, entry: &Entry) -> Option<BrokenRule>
        requires members { n ≤ 16 }
        requires known { (lived : Bool) × (before : List Entry) × Knows lived before self.now }
        ensures { (lived : Bool) (before : List Entry) → Knows lived before self.now
            → MatchOption result (MayCome lived n before entry.now)
            (λ broken. Breaks lived n before entry.now broken × ¬ (MayCome lived n before entry.now)) }
    {
        match self {
            Known::Trace(trace) => trace.broken_rule(n, entry),
            Known::Lives(lives) => Some(BrokenRule::Life(lives.broken_rule(n, entry)?)),
        }
    }

    /// Takes in the entry, the next one, which breaks no rule and has so many others before it.
    pub(crate) fn add(&mut self, n: u8, entry: &Entry, number: usize) -> Result<(), AllocError>
        requires members { n ≤ 16 }
        requires may { (lived : Bool) × (before : List Entry) × Knows lived before self.old × Obeys lived n before
            × MayCome lived n before entry.now }
        ensures { OnOk result
            ((lived : Bool) (before : List Entry) → Knows lived before self.old → MayCome lived n before entry.now
            → number ≡ length before
            → Knows lived (before ++ entry.now ∷ []) self.new) }
    {
        match self {
            Known::Trace(trace) => trace.add(n, entry),
            Known::Lives(lives) => lives.add(entry, number),
        }
    }

    /// Whether, of a log with restarts, no message is there for the entry, which breaks the rule if it comes next.
    pub(crate) fn lacks_message(&self, entry: &Entry, rule: &LifeRule) -> bool
        ensures { (n : ℕ) (before : List Entry) → Knows true before self.now → BreaksLife n before entry.now rule.now
            → (result ≡ true) ↔ LacksInLife n before entry.now }
    {
        let Known::Lives(lives) = self else {
            return false;
        };
        match *rule {
            LifeRule::ControlMessages(ControlRule::NotTold) => true,
            LifeRule::NotDue => match entry.receipt() {
                Some(message) => !lives.is_sent(message, entry.life()),
                None => false,
            },
            _ => false,
        }
    }
}
