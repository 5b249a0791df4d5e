//! The members of a group in which nothing is received yet.

ghost use Rattle.std.specs.Prelude.{◌≡◌, ℕ, ◌<◌, length, IfOk, slice_index_or};
ghost use Rattle.fbl_member.specs.Members.{fresh, blank};

use crate::member_rec::MemberRec;
use fbl_trace::{Behaviour, Config, Member};
use std::alloc::{AllocError, Global};

/// The members of a group of these parameters, each in its first state, with its starts sent and nothing received. `Err` comes only where there
/// is no memory for them.
pub fn fresh_members<B: Behaviour>(
    alloc: Global,
    config: &Config<B::Note>,
) -> Result<Vec<MemberRec<B::State, B::Note>>, AllocError>
    ensures size { IfOk result (λ members. length members.items ≡ config.now.members) }
    ensures fresh { IfOk result
        (λ members. (m : ℕ) → m < config.now.members
        → slice_index_or members.items m (blank (B.next.initial 0 config.now.members))
        ≡ fresh (B.next.initial m config.now.members) m config.now.starts) }
{
    let n = config.members();
    let mut members = Vec::new(alloc);
    for number in 0..n {
        let member = Member::at(number);
        members.push(MemberRec::fresh(alloc, config, B::initial(member, n), member)?)?;
    }
    Ok(members)
}
