//! Sets of members, each kept as sixteen bits. Contracts see them as finite sets of numbers.

ghost use Rattle.std.specs.Prelude.{◌≡◌, ◌==◌, ◌<◌, ◌≤◌, ◌↔◌, ℕ, IfOk, IsTrue, true, ◌&&◌, not, MatchOption};
ghost use Rattle.std.specs.FinSet as set;
ghost use Rattle.fbl_trace.specs.Breaches.{IsLeastOutside};
ghost use Rattle.fbl_trace.specs.MemberSets.{AllBelow, member_list};

use crate::fault::Outsider;
use crate::limits::MOST_MEMBERS;
use crate::member::Member;
use std::alloc::{AllocError, Global};
use std::fmt;
use std::marker::Model;

/// A set of members.
#[derive(Clone, Copy, PartialEq, Eq, Debug)]
pub struct MemberSet {
    bits: u16,
}

impl Model for MemberSet {
    ghost use Rattle.std.specs.Prelude.{◌<◌};
    ghost use Rattle.std.specs.Ordering.{nat_cmp};
    ghost use Rattle.std.specs.Coded.{coded_ℕ};
    ghost use Rattle.std.specs.FinSet as set;
    ghost use Rattle.fbl_trace.specs.MemberSets.{set_of, bits_of, bits_of-set_of};

    ghost Value = { set.FinSet nat_cmp };

    ghost coded = { set.code coded_ℕ };

    ghost view = { λ s. set_of s.bits };

    ghost invariant = { λ s. s.bits < 65536 };

    ghost inverse = { λ s. record { bits = bits_of 16 0 s } };

    ghost inverse_ok = { λ s h i. record { bits = bits_of-set_of s.bits h i } };
}

impl MemberSet {
    /// No members.
    #[tactic(auto, using(crate::proofs::Sets::empty_bits))]
    pub fn empty() -> MemberSet
        ensures { result ≡ set.empty }
    {
        MemberSet { bits: 0 }
    }

    /// Whether the member is in the set.
    #[tactic(auto, using(crate::proofs::Sets::has_bits))]
    pub fn has(self, member: Member) -> bool
        ensures { result ≡ set.contains self member }
    {
        (self.bits >> member.number()) & 1 == 1
    }

    /// The set and the member.
    #[tactic(auto, using(crate::proofs::Sets::insert_bits))]
    pub fn with(self, member: Member) -> MemberSet
        ensures { result ≡ set.insert self member }
    {
        let bits = self.bits | (1 << member.number());
        MemberSet { bits }
    }

    /// How many members there are.
    #[tactic(auto, using(crate::proofs::Sets::count_bits))]
    pub fn count(self) -> u32
        ensures { result ≡ set.len self }
    {
        self.bits.count_ones()
    }

    /// Whether there is no member in it.
    pub fn is_empty(self) -> bool
        ensures { result ≡ (set.len self == 0) }
    {
        self.count() == 0
    }

    /// The members, rising. `Err` comes only where there is no memory for the list.
    #[tactic(auto, unfolding(crate::specs::MemberSets::member_list))]
    pub fn members(self, alloc: Global) -> Result<Vec<Member>, AllocError>
        ensures { IfOk result (λ v. v.items ≡ member_list self) }
    {
        let mut members = Vec::new(alloc);
        for number in 0..MOST_MEMBERS {
            let member = Member::at(number);
            if self.has(member) {
                members.push(member)?;
            }
        }
        Ok(members)
    }

    /// The members of either set.
    #[tactic(auto, using(crate::proofs::Sets::union_bits))]
    pub fn union(self, other: MemberSet) -> MemberSet
        ensures { result ≡ set.union self other }
    {
        let bits = self.bits | other.bits;
        MemberSet { bits }
    }

    /// Whether each member is below `n`.
    pub fn within(self, n: u8) -> bool
        ensures { IsTrue result ↔ AllBelow self n }
    {
        self.outsider(n).is_none()
    }

    /// The least member that isn't below `n`, if there is one.
    pub fn outsider(self, n: u8) -> Option<Outsider>
        ensures { MatchOption result (AllBelow self n) (IsLeastOutside self n) }
    {
        // the bits are 16: no member is above 15
        let _bits = self.bits;
        for number in n..MOST_MEMBERS {
            let member = Member::at(number);
            if self.has(member) {
                return Some(Outsider { member, members: n });
            }
        }
        None
    }

    /// The members that are not in the other set.
    #[tactic(auto, using(crate::proofs::Sets::difference_bits))]
    pub fn without(self, other: MemberSet) -> MemberSet
        ensures { result ≡ set.difference self other }
    {
        let bits = self.bits & !other.bits;
        MemberSet { bits }
    }
}

/// As the list of its members, rising, as in `[0,2]`.
impl fmt::Display for MemberSet {
    fn fmt<W: fmt::Write>(&self, f: &mut fmt::Formatter<W>) -> fmt::Result {
        let mut before = "[";
        for number in 0..MOST_MEMBERS {
            if (self.bits >> number) & 1 == 1 {
                write!(f, "{before}{number}")?;
                before = ",";
            }
        }
        f.write_str(if self.bits == 0 { "[]" } else { "]" })
    }
}
