//! Plans of strikes.

ghost use Rattle.std.specs.Prelude.{◌≡◌};
ghost use Rattle.fbl_turns.specs.Plans.{struck_at};

use fbl_trace::{MemberSet, Strike};

pub(crate) fn planned_set(plan: &[Strike], ever: u64) -> Option<MemberSet>
    ensures { result ≡ struck_at plan.now ever }
{
    let strike = plan.iter().find(|strike| strike.at == ever)?;
    Some(strike.set)
}
