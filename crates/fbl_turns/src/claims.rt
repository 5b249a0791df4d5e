//! The right to take and to commit for a member, which one pass at a time has: a word for each member says whether the
//! member is claimed.

ghost use Rattle.std.specs.Prelude.{◌≡◌, ◌≢◌, ℕ, ◌<◌, ◌≤◌, [], None, Some, IfOk, IfErr};
ghost use Rattle.fbl_turns.specs.Claims.{IsExclusive, Gains, GivesBack, Looks, HasOneHolder, WordsFollowViews};
ghost use Rattle.atomic_table.specs.Seated.{TableId};

use atomic_table::{Join, Play, Seat, Split, Table, TableRule};
use fbl_trace::Member;
use std::alloc::{AllocError, Global};
use std::marker::Model;
use std::{fmt, mem};
use thiserror::Error;

/// What a pass knows: the member that it claims. No value of it is made.
type View = Option<Member>;

/// The rule of the words and the views, which holds between any two atomic steps: each member is free, its word 0 and no
/// view with it, or claimed, its word 1 and exactly one view with it. What a step can then do to the words is the law
/// `words_follow_views`; the steps that the calls make are the types below.
pub struct Exclusive;

impl TableRule<(), View, u8> for Exclusive {
    ghost holds = { IsExclusive };

    ghost first = { λ _. None };
}

/// The step of `Claims::try_claim`: one compare-exchange of the member's word from 0 to 1. The pass gains the member where
/// the word was 0, and else nothing changes.
pub struct Gain;

impl Play<(), View> for Gain {
    ghost then = { Gains };
}

/// The step of `Claims::release`: one store of 0 to the word of the pass's member, which the pass gives back.
pub struct GiveBack;

impl Play<(), View> for GiveBack {
    ghost then = { GivesBack };
}

/// The steps of `Claims::split` and `Claims::join`, which leave the words alone: a new pass claims nothing, and one that is
/// joined to another is left with nothing.
pub struct Nothing;

impl Split<View> for Nothing {
    ghost left = { λ v. v };

    ghost right = { λ _. None };
}

impl Join<View> for Nothing {
    ghost both = { λ v _. v };

    ghost spent = { None };
}

/// A load, which changes nothing.
struct Look;

impl Play<(), View> for Look {
    ghost then = { Looks };
}

/// What two passes with one member would be joined to: a pass with a member that no group has.
struct NoPass;

impl Join<View> for NoPass {
    ghost both = { λ _ _. Some 16 };

    ghost spent = { None };
}

/// Why no claims are made. The refusals are tested in this order.
#[derive(Clone, Copy, PartialEq, Eq, Debug, Error)]
pub enum ClaimRefusal {
    /// The table of words is refused for another cause than lack of memory. Nothing answers it: no other cause is known.
    NoTable,
    /// There is no memory for the words.
    Memory,
}

impl fmt::Display for ClaimRefusal {
    fn fmt<W: fmt::Write>(&self, f: &mut fmt::Formatter<W>) -> fmt::Result {
        fmt::Debug::fmt(self, f)
    }
}

/// A word for each member of a group, which says whether the member is claimed. Contracts see which table it is. Between
/// any two atomic steps a member's word is 0 and no view holds the member, or it is 1 and exactly one view does. No call
/// takes a lock or waits, and none but `new` takes memory.
#[derive(Drop)]
pub struct Claims {
    table: Table<(), View, u8, Exclusive, Global>,
}

impl Model for Claims {
    ghost Value = { TableId };

    ghost view = { λ c. c.table.shared.table_id };

    ghost invariant = { λ c. (c.table.shared.key ≡ c.table.shared.table_id.words)
        × (2 ≤ c.table.shared.table_id.words) × (c.table.shared.table_id.words ≤ 16) };
}

/// A seat whose view holds no member, of the claims that contracts see. It is not dropped: it is joined to another, and the last
/// one goes with its claims (`Claims::close`).
pub struct Pass {
    seat: Seat<(), View>,
}

impl Model for Pass {
    ghost Value = { TableId };

    ghost view = { λ p. p.seat.table_id };

    ghost invariant = { λ p. p.seat.me ≡ (None, []) };
}

/// A seat whose view holds a member. Contracts see which claims it is of, and the member. It is not dropped: it has to be
/// released.
pub struct Claim {
    seat: Seat<(), View>,
    member: Member,
}

impl Model for Claim {
    ghost Value = { TableId × ℕ };

    ghost view = { λ c. (c.seat.table_id, c.member) };

    ghost invariant = { λ c. (c.seat.me ≡ (Some c.member, [])) × (c.member < c.seat.table_id.words) };
}

impl Claims {
    /// A word for each of `n` members, 2 to 16, none of whom is claimed, and the first pass.
    pub fn new(alloc: Global, n: u8) -> Result<(Claims, Pass), ClaimRefusal>
        requires { (2 ≤ n) × (n ≤ 16) }
        ensures made { IfOk result (λ r. (r.0.words ≡ n) × (r.1 ≡ r.0)) }
        ensures refused { IfErr result (λ refusal. refusal ≡ ClaimRefusal.Memory) }
    {
        let words = [0u64; 16];
        match Table::of_words(alloc, &words[..usize::from(n)], &n) {
            Ok((table, seat)) => Ok((Claims { table }, Pass { seat })),
            Err(AllocError) => Err(ClaimRefusal::Memory),
        }
    }

    /// Two passes in the place of one. The pass is one of these claims.
    pub fn split(&self, pass: Pass) -> (Pass, Pass)
        requires { pass ≡ self.now }
        ensures { (result.0 ≡ self.now) × (result.1 ≡ self.now) }
    {
        let Pass { mut seat } = pass;
        let other = self.table.shared.split_seat::<Nothing>(&mut seat);
        (Pass { seat }, Pass { seat: other })
    }

    /// One pass in the place of two. Both are passes of these claims.
    pub fn join(&self, pass: Pass, other: Pass) -> Pass
        requires { (pass ≡ self.now) × (other ≡ self.now) }
        ensures { result ≡ self.now }
    {
        let Pass { mut seat } = pass;
        let Pass { seat: spent } = other;
        self.table.shared.join_seat::<Nothing>(&mut seat, spent);
        Pass { seat }
    }

    /// Takes the last pass, which all others have been joined to. It is one of these claims.
    pub fn close(self, pass: Pass)
        requires { pass ≡ self }
    {
        pass.abandon();
    }

    /// Claims the member where its word is 0, which one compare-exchange decides. Else the pass comes back. The pass is one of
    /// these claims, and the member has a word there.
    pub fn try_claim(&self, pass: Pass, member: Member) -> Result<Claim, Pass>
        requires pass { pass ≡ self.now }
        requires member { member < self.now.words }
        ensures claim { IfOk result (λ c. c ≡ (self.now, member)) }
        ensures pass { IfErr result (λ p. p ≡ self.now) }
    {
        let Pass { mut seat } = pass;
        let place = usize::from(member.number());
        let found = self
            .table
            .shared
            .compare_exchange::<Gain>(&mut seat, place, 0, 1);
        if found == 0 {
            Ok(Claim { seat, member })
        } else {
            Err(Pass { seat })
        }
    }

    /// Gives the member back, by one store of 0 to its word. The claim was made with these claims.
    pub fn release(&self, claim: Claim) -> Pass
        requires { claim.0 ≡ self.now }
        ensures { result ≡ self.now }
    {
        let Claim { mut seat, member } = claim;
        let place = usize::from(member.number());
        self.table.shared.store::<GiveBack>(&mut seat, place, 0);
        Pass { seat }
    }

    /// Two claims of the same `Claims` are of two members. The claims stay as they are, and no step is made: were they of
    /// one member, a join of their passes and a look at a word would find what the rule excludes.
    pub fn are_apart(&self, one: &mut Claim, other: &mut Claim)
        requires { (one.old.0 ≡ self.now) × (other.old.0 ≡ self.now) }
        ensures apart { one.old.1 ≢ other.old.1 }
        ensures same { (one.new ≡ one.old) × (other.new ≡ other.old) }
    {
        if one.member == other.member {
            let spare = self.table.shared.split_seat::<Nothing>(&mut one.seat);
            let seat = mem::replace(&mut other.seat, spare);
            self.table.shared.join_seat::<NoPass>(&mut one.seat, seat);
            self.table.shared.load::<Look>(&mut one.seat, 0);
            unreachable!()
        }
    }
}

impl Pass {
    /// Nobody uses the pass any more.
    pub(crate) fn abandon(self) {
        let Pass { seat: _ } = self;
    }
}

impl Claim {
    /// The member that is claimed.
    pub fn member(&self) -> Member
        ensures { result ≡ self.now.1 }
    {
        self.member
    }
}

/// The law that while the rule holds, no member is claimed by two passes.
#[tactic(auto, using(crate::proofs::Exclusion::one_holder))]
pub fn one_holder()
    ensures { HasOneHolder }
{}

/// The law that under the rule the words are what the views say: a step by which a pass gains a member turns the member's
/// word, which was 0, to 1 and no other word, one by which it gives the member back turns it from 1 to 0, and any step that
/// leaves the views or makes a pass without a member leaves the words.
pub fn words_follow_views()
    ensures { WordsFollowViews }
{}
