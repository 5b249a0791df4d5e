//! Dumps of a group, for the audit.

ghost use Rattle.std.specs.Prelude.{◌≡◌, ℕ, ◌≤◌, ◌++◌, IfOk, IfErr, OnOk, length, map};
ghost use Rattle.std.specs.FinSet as set;
ghost use Rattle.fbl_trace.specs.Dumps.{parts_of};
ghost use Rattle.fbl_trace.specs.Losses.{IsDumpOrphan};
ghost use Rattle.fbl_trace.specs.Events.{mark_of};
ghost use Rattle.fbl_trace.specs.MemberSets.{AllBelow};
ghost use Rattle.fbl_law.specs.Knowledge.{Includes, IsDown};
ghost use Rattle.fbl_law.specs.Groups.{knowledge, IsSound};
ghost use Rattle.fbl_law.specs.Promises.{dump_of, pairs_of, pairs_from};
ghost use Rattle.fbl_group.specs.Readers.{IsDumpRefusal};

use crate::group::Group;
use crate::refusals::DumpGroupRefusal;
use fbl_member::MemberRec;
use fbl_table::Table;
use fbl_trace::{Behaviour, Content, Determinant, Dump, Event, Mark, Member, MemberSet, RawDump};
use std::alloc::{AllocError, Global};

impl<B: Behaviour> Group<B> {
    /// The trace without notes, who holds which determinants, and these members as the strike set, for the audit. Nobody is
    /// struck by it. Where the set has those that are down and at most f members in all, the audit finds no orphan. A
    /// member that is down and not in the set is dumped as a survivor that holds nothing.
    pub fn dump(&self, strike: MemberSet) -> Result<Dump, DumpGroupRefusal>
        ensures dumped { IfOk result (λ dump. AllBelow strike self.now.config.members × (dump ≡ dump_of self.now strike)) }
        ensures refused { IfErr result (IsDumpRefusal self.now strike) }
        ensures no_orphan { ((q : ℕ) → IsDown (knowledge self.now) q → Includes strike q)
            → set.len strike ≤ self.now.config.f
            → IfOk result (λ dump. (m : ℕ) → ¬ (IsDumpOrphan dump m)) }
    {
        // what holds of each group: its tables show no orphan
        self.promises();
        if !strike.within(self.size()) {
            return Err(DumpGroupRefusal::BadStrike);
        }
        match self.raw_dump(strike) {
            Ok(raw) => Ok(Dump::lawful(raw)),
            Err(_) => Err(DumpGroupRefusal::Memory),
        }
    }

    fn raw_dump(&self, strike: MemberSet) -> Result<RawDump, AllocError>
        ensures { IfOk result (λ raw. parts_of raw ≡ dump_of self.now strike) }
    {
        let alloc = *self.trace.allocator();
        Ok(RawDump {
            members: self.config.members(),
            f: self.config.f(),
            events: marks(alloc, &self.trace)?,
            held: held_pairs(alloc, &self.members)?,
            strike,
        })
    }
}

fn marks<N: Copy>(alloc: Global, trace: &[Event<N>]) -> Result<Vec<Mark>, AllocError>
    ensures { IfOk result (λ marks. marks.items ≡ map mark_of trace.now) }
{
    trace.iter().map(|event| event.mark()).collect(alloc)
}

fn held_pairs<S: Copy, N: Content>(
    alloc: Global,
    members: &[MemberRec<S, N>],
) -> Result<Vec<(Member, Determinant)>, AllocError>
    requires { length members.now ≤ 16 }
    ensures { IfOk result (λ held. held.items ≡ pairs_from 0 members.now) }
{
    let mut held = Vec::new(alloc);
    for place in 0..members.len() {
        let holder = Member::at(place as u8);
        push_pairs(&mut held, holder, members[place].table())?;
    }
    Ok(held)
}

fn push_pairs(
    held: &mut Vec<(Member, Determinant)>,
    holder: Member,
    table: &Table,
) -> Result<(), AllocError>
    ensures { OnOk result (held.new.items ≡ held.old.items ++ pairs_of holder table.now) }
{
    held.reserve(table.len())?;
    for place in 0..table.len() {
        held.push_reserved((holder, table.entry_at(place).det));
    }
    Ok(())
}
