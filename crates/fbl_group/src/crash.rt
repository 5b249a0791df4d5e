//! A strike and the recovery from it in one call.

ghost use Rattle.std.specs.Prelude.{◌≡◌, IfOk, IfErr, OnOk, None};
ghost use Rattle.fbl_law.specs.Groups.{knowledge};
ghost use Rattle.fbl_law.specs.Promises.{KeepsHolders};
ghost use Rattle.fbl_group.specs.Strikes.{strike_refusal, Crashes, CrashLeaves};

use crate::answers::{Recovered, Struck};
use crate::group::Group;
use crate::refusals::CrashRefusal;
use fbl_trace::{Behaviour, MemberSet};

impl<B: Behaviour> Group<B> {
    /// Strikes the members named, and recovers all that are down then. After a refusal of the strike the group is unchanged;
    /// after `Memory` it is as the strike leaves it, and `recover` may be called.
    pub fn crash(&mut self, set: MemberSet) -> Result<(Struck, Recovered), CrashRefusal>
        ensures crashed { IfOk result (λ answer. (strike_refusal self.old set ≡ None)
            × Crashes B.next self.old self.new set answer.0 answer.1) }
        ensures holders { OnOk result (KeepsHolders (knowledge self.old) (knowledge self.new)) }
        ensures refused { IfErr result (CrashLeaves B.next self.old self.new set) }
    {
        let struck = self.strike(set)?;
        match self.recover() {
            Ok(recovered) => Ok((struck, recovered)),
            Err(_) => Err(CrashRefusal::Memory),
        }
    }
}
