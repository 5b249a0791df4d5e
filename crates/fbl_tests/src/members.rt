//! Members by their numbers, and what is made of them.

ghost use Rattle.std.specs.Prelude.{◌≡◌, ◌<◌, IfOk};

use fbl_trace::{Determinant, Member, MemberSet, Note, Start, Strike};
use std::test::Fail;

/// The member with this number.
pub(crate) fn member(number: u8) -> Result<Member, Fail>
    ensures { IfOk result (λ m. m ≡ number) }
{
    Ok(Member::new(number).ok_or("no such member")?)
}

/// The set of the members with these numbers.
pub(crate) fn set(numbers: &[u8]) -> Result<MemberSet, Fail> {
    let mut set = MemberSet::empty();
    for number in numbers {
        set = set.with(member(*number)?);
    }
    Ok(set)
}

/// A message that is sent at the start: from whom, to whom, its value and its hops.
pub(crate) fn start(from: u8, to: u8, value: u32, hops: u8) -> Start
    requires { (from < 16) × (to < 16) }
{
    Start {
        from: Member::at(from),
        to: Member::at(to),
        note: Note { value, hops },
    }
}

/// A strike of this member at this count.
pub(crate) fn strike(at: u64, number: u8) -> Strike
    requires { number < 16 }
{
    Strike {
        at,
        set: MemberSet::empty().with(Member::at(number)),
    }
}

/// The receipt of the sender's first message, which is the receiver's first.
pub(crate) fn first_receipt(from: Member, to: Member) -> Determinant
    ensures { result ≡ record { from = from; ssn = 1; to = to; rsn = 1 } }
{
    Determinant {
        from,
        ssn: 1,
        to,
        rsn: 1,
    }
}
