//! The workers of a drain before they begin, and when they have ended.

ghost use Rattle.std.specs.Prelude.{◌≡◌, ◌+◌, ◌*◌, ◌<◌, ◌≤◌};

use crate::claims::{Claims, Pass};
use crate::origin::Workers;
use crate::worker::{Ended, Idle, Turns};
use std::sync::ledger::Share;

/// The workers of a drain that have not begun, those with the least numbers.
pub struct Unstarted<O: Workers> {
    /// The pass that theirs are split from.
    pass: Pass,
    /// How many workers these are.
    pub workers: u8,
    turns: u32,
    receipts: Share<O>,
    ghost pass_is_of: { pass ≡ O.claims },
    ghost of_the_drain: { (workers ≤ O.workers) × (turns ≡ O.turns) },
    ghost a_part_each: { (receipts.parts ≡ workers) × (receipts.amount ≡ 0) },
}

impl<O: Workers> Unstarted<O> {
    pub(crate) fn new(pass: Pass, workers: u8, turns: u32, receipts: Share<O>) -> Unstarted<O>
        requires pass { pass ≡ O.claims }
        requires workers { (workers ≤ O.workers) × (turns ≡ O.turns) }
        requires receipts { (receipts.parts ≡ workers) × (receipts.amount ≡ 0) }
        ensures { result.workers ≡ workers }
    {
        Unstarted {
            pass,
            workers,
            turns,
            receipts,
        }
    }

    /// The last of them, and those before it.
    pub fn split(self, claims: &Claims) -> (Unstarted<O>, Idle<O>)
        requires claims { claims.now ≡ O.claims }
        requires some { 0 < self.workers }
        ensures rest { result.0.workers + 1 ≡ self.workers }
        ensures last { (result.1.turns.worker ≡ result.0.workers) × (result.1.turns.begun ≡ 0) }
    {
        let Unstarted {
            pass,
            workers,
            turns,
            mut receipts,
        } = self;
        let (pass, other) = claims.split(pass);
        let share = receipts.split_off(1, 0);
        let last = Turns::none(workers - 1, turns, share);
        (
            Unstarted::new(pass, workers - 1, turns, receipts),
            Idle::new(other, last),
        )
    }

    /// Where none is left: those that have ended, which are none yet.
    pub fn none_left(self) -> Joined<O>
        requires { self.workers ≡ 0 }
        ensures { result.workers ≡ 0 }
    {
        let Unstarted {
            pass,
            workers,
            turns: _,
            receipts,
        } = self;
        Joined {
            pass,
            workers,
            started: 0,
            receipts,
        }
    }
}

impl<O: Workers> Drop for Unstarted<O> {
    /// What a scope of threads is given may be dropped. A drain starts all.
    fn drop(self) {
        let Unstarted {
            pass,
            workers: _,
            turns: _,
            receipts: _,
        } = self;
        pass.abandon();
    }
}

/// Workers that have ended, with their passes joined to one, and their receipts to one share.
pub struct Joined<O: Workers> {
    pass: Pass,
    /// How many workers these are.
    pub workers: u8,
    /// How many of them had a thread.
    pub started: u8,
    receipts: Share<O>,
    ghost pass_is_of: { pass ≡ O.claims },
    ghost a_part_each: { receipts.parts ≡ workers },
    ghost some_started: { started ≤ workers },
    ghost one_receipt_a_turn: { receipts.amount ≤ started * O.turns },
}

impl<O: Workers> Joined<O> {
    /// Joins one worker more.
    pub fn with(self, claims: &Claims, ended: Ended<O>) -> Joined<O>
        requires claims { claims.now ≡ O.claims }
        requires fits { self.workers < 8 }
        ensures { result.workers ≡ self.workers + 1 }
    {
        let Joined {
            pass,
            workers,
            started,
            mut receipts,
        } = self;
        let (other, turns, had_thread) = ended.into_parts();
        receipts.merge(turns.into_receipts());
        Joined {
            pass: claims.join(pass, other),
            workers: workers + 1,
            started: started + u8::from(had_thread),
            receipts,
        }
    }

    /// The pass, how many of the workers had a thread, and the share of all their receipts.
    pub(crate) fn into_parts(self) -> (Pass, u8, Share<O>)
        ensures pass { result.0 ≡ O.claims }
        ensures started { (result.1 ≡ self.started) × (result.1 ≤ self.workers) }
        ensures receipts { (result.2.parts ≡ self.workers) × (result.2.amount ≤ result.1 * O.turns) }
    {
        let Joined {
            pass,
            workers: _,
            started,
            receipts,
        } = self;
        (pass, started, receipts)
    }
}
