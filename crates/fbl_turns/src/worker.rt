//! A worker of a drain: the turns that it takes, with its pass or with a claim, and what it gives back when it has ended.

ghost use Rattle.std.specs.Prelude.{◌≡◌, ◌==◌, ◌+◌, ◌%◌, ◌<◌, ◌≤◌, false, IfOk, IfErr};

use crate::claims::{Claim, Claims, Pass};
use crate::origin::Workers;
use fbl_group::Ticket;
use fbl_trace::Member;
use std::sync::ledger::{Book, Share};

/// The turns that a worker has begun, of those that it may take, and its share of the receipts: at most one for each turn.
#[derive(Drop)]
pub(crate) struct Turns<O: Workers> {
    worker: u8,
    begun: u32,
    allowed: u32,
    receipts: Share<O>,
    ghost of_the_drain: { (worker < O.workers) × (allowed ≡ O.turns) },
    ghost begun_of_allowed: { begun ≤ allowed },
    ghost one_each: { (receipts.parts ≡ 1) × (receipts.amount ≤ begun) },
}

impl<O: Workers> Turns<O> {
    pub(crate) fn none(worker: u8, allowed: u32, receipts: Share<O>) -> Turns<O>
        requires worker { (worker < O.workers) × (allowed ≡ O.turns) }
        requires receipts { (receipts.parts ≡ 1) × (receipts.amount ≡ 0) }
        ensures { (result.worker ≡ worker) × (result.begun ≡ 0) }
    {
        Turns {
            worker,
            begun: 0,
            allowed,
            receipts,
        }
    }

    pub(crate) fn into_receipts(self) -> Share<O>
        ensures parts { result.parts ≡ 1 }
        ensures amount { (result.amount ≡ self.receipts.amount) × (result.amount ≤ O.turns) }
    {
        self.receipts
    }

    fn begin(&mut self)
        requires { self.old.begun < O.turns }
        ensures same { (self.new.worker ≡ self.old.worker) × (self.new.receipts.amount ≡ self.old.receipts.amount) }
        ensures begun { self.new.begun ≡ self.old.begun + 1 }
    {
        self.begun += 1;
    }

    fn add(&mut self, book: &mut Book<O>, made: u64)
        requires { self.old.receipts.amount + made ≤ self.old.begun }
        ensures same { (self.new.worker ≡ self.old.worker) × (self.new.begun ≡ self.old.begun) }
        ensures added { book.new.total ≡ book.old.total + made }
    {
        book.add(&mut self.receipts, made);
    }
}

/// A worker between two of its turns.
pub struct Idle<O: Workers> {
    pass: Pass,
    turns: Turns<O>,
    ghost pass_is_of: { pass ≡ O.claims },
}

/// A worker that has claimed the member of its turn. It is not dropped: it commits a step, or gives the member back.
pub struct Claiming<O: Workers> {
    claim: Claim,
    turns: Turns<O>,
    ghost claim_is_of: { claim.0 ≡ O.claims },
    ghost not_committed: { turns.receipts.amount < turns.begun },
}

/// A worker that has claimed a member, and a ticket to it.
pub struct Taken<O: Workers, S, N> {
    pub claiming: Claiming<O>,
    pub ticket: Ticket<S, N>,
    pub ghost fits: { ticket.to ≡ claiming.claim.1 },
}

/// A worker that has ended: what its thread gives back. One that had no thread has taken no turn.
pub struct Ended<O: Workers> {
    pass: Pass,
    turns: Turns<O>,
    started: bool,
    ghost pass_is_of: { pass ≡ O.claims },
    ghost idle_without_a_thread: { started ≡ false → turns.receipts.amount ≡ 0 },
}

impl<O: Workers> Idle<O> {
    pub(crate) fn new(pass: Pass, turns: Turns<O>) -> Idle<O>
        requires { pass ≡ O.claims }
        ensures { result.turns ≡ turns }
    {
        Idle { pass, turns }
    }

    /// Its number.
    pub fn number(&self) -> u8
        ensures { result ≡ self.now.turns.worker }
    {
        self.turns.worker
    }

    pub(crate) fn has_begun_all(&self) -> bool
        ensures value { result ≡ (self.now.turns.begun == O.turns) }
        ensures bound { self.now.turns.begun ≤ O.turns }
    {
        self.turns.begun == self.turns.allowed
    }

    /// Begins a turn, and tries to claim its member: worker `w` at its turn `t`, both from 0, that of number `(w + t) mod n`.
    pub fn claim(self, claims: &Claims, members: u8) -> Result<Claiming<O>, Idle<O>>
        requires turn { self.turns.begun < O.turns }
        requires claims { (claims.now ≡ O.claims) × (claims.now.words ≡ members) }
        requires members { (2 ≤ members) × (members ≤ 16) }
        ensures claimed { IfOk result (λ claiming. (claiming.claim.1
            ≡ (self.turns.worker + self.turns.begun) % members)
            × (claiming.turns.begun ≡ self.turns.begun + 1)) }
        ensures not_claimed { IfErr result (λ idle. idle.turns.begun ≡ self.turns.begun + 1) }
    {
        let Idle { pass, mut turns } = self;
        let member = member_at(turns.worker, turns.begun, members);
        turns.begin();
        match claims.try_claim(pass, member) {
            Ok(claim) => Ok(Claiming { claim, turns }),
            Err(pass) => Err(Idle { pass, turns }),
        }
    }

    pub(crate) fn end(self) -> Ended<O> {
        let Idle { pass, turns } = self;
        Ended {
            pass,
            turns,
            started: true,
        }
    }

    /// The worker has no thread, and takes no turn.
    pub fn end_without_a_thread(self) -> Ended<O>
        requires { self.turns.begun ≡ 0 }
    {
        let Idle { pass, turns } = self;
        Ended {
            pass,
            turns,
            started: false,
        }
    }
}

fn member_at(worker: u8, number: u32, members: u8) -> Member
    requires { (2 ≤ members) × (members ≤ 16) }
    ensures { result ≡ (worker + number) % members }
{
    let place = (u64::from(worker) + u64::from(number)) % u64::from(members);
    Member::at(place as u8)
}

impl<O: Workers> Claiming<O> {
    pub(crate) fn number(&self) -> u8
        ensures value { result ≡ self.now.turns.worker }
        ensures bound { result < O.workers }
    {
        self.turns.worker
    }

    pub(crate) fn member(&self) -> Member
        ensures { result ≡ self.now.claim.1 }
    {
        self.claim.member()
    }

    pub(crate) fn release(self, claims: &Claims) -> Idle<O>
        requires { claims.now ≡ O.claims }
        ensures { result.turns ≡ self.turns }
    {
        let Claiming { claim, turns } = self;
        Idle {
            pass: claims.release(claim),
            turns,
        }
    }

    /// Adds the receipts that the turn has made to the worker's share, and gives the member back.
    pub(crate) fn finish(self, claims: &Claims, book: &mut Book<O>, made: u64) -> Idle<O>
        requires claims { claims.now ≡ O.claims }
        requires made { made ≤ 1 }
        ensures same { (result.turns.worker ≡ self.turns.worker) × (result.turns.begun ≡ self.turns.begun) }
        ensures book { book.new.total ≡ book.old.total + made }
    {
        let Claiming { claim, mut turns } = self;
        turns.add(book, made);
        Idle {
            pass: claims.release(claim),
            turns,
        }
    }
}

impl<O: Workers> Ended<O> {
    pub(crate) fn into_parts(self) -> (Pass, Turns<O>, bool)
        ensures { (result.0 ≡ O.claims) × (result.2 ≡ false → result.1.receipts.amount ≡ 0) }
    {
        let Ended {
            pass,
            turns,
            started,
        } = self;
        (pass, turns, started)
    }
}

impl<O: Workers> Drop for Idle<O> {
    /// What a thread is given may be dropped, as it may never run. A worker of a drain goes on until it has ended.
    fn drop(self) {
        let Idle { pass, turns: _ } = self;
        pass.abandon();
    }
}

impl<O: Workers> Drop for Ended<O> {
    /// What a thread gives back may be dropped, as it need not be joined. A drain joins all.
    fn drop(self) {
        let Ended {
            pass,
            turns: _,
            started: _,
        } = self;
        pass.abandon();
    }
}
