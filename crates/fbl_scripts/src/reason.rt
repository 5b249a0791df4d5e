//! Why a command is refused, with the numbers of the group that refused it and is as it was.

ghost use Rattle.std.specs.Prelude.{◌≡◌};
ghost use Rattle.fbl_scripts.specs.Reasons.{IsPlanRefused, IsRunReason};
ghost use Rattle.fbl_scripts.specs.Reasons.{checkpoint_reason as checkpoint_reason_of, deliver_reason as deliver_reason_of, no_such_member as no_member_of, strike_reason as strike_reason_of};

use fbl_group::{CheckpointRefusal, DeliverRefusal, Group, StrikeRefusal};
use fbl_threads::DrainRefusal;
use fbl_trace::{Behaviour, Member, MemberSet, Note, PlanFault, Strike, plan_fault};
use std::fmt;
use thiserror::Error;

/// The members that a command names, not all of which a group has.
#[derive(Clone, Copy, Debug)]
pub struct NamedMembers {
    pub named: MemberSet,
    /// How many members the group has.
    pub members: u8,
}

/// The least that is outside the group.
impl fmt::Display for NamedMembers {
    fn fmt<W: fmt::Write>(&self, f: &mut fmt::Formatter<W>) -> fmt::Result {
        match self.named.outsider(self.members) {
            Some(outsider) => write!(f, "{outsider}"),
            None => f.write_str("each is in the group"),
        }
    }
}

/// Writes how many members would be down, which ones, and what `f` is.
fn too_many<W: fmt::Write>(down: &MemberSet, f: &u8, to: &mut fmt::Formatter<W>) -> fmt::Result {
    let count = down.count();
    write!(to, "{count} members would be down, {down}, and f is {f}")
}

/// Why a command is refused, with the numbers of the group as it was then.
#[derive(Clone, Copy, Debug, Error)]
pub enum RefusalReason {
    /// The command names a member that the group has not.
    #[error("{0}")]
    NoSuchMember(NamedMembers),
    /// These members are down.
    #[error("while a member is down nothing is delivered and no checkpoint taken, and these are: {0}")]
    Down(MemberSet),
    /// Nothing is in flight from one member to the other.
    #[error("nothing is in flight from {from} to {to}")]
    NothingInFlight { from: Member, to: Member },
    /// The trace has so many events, and no room for the receipt and what its step sends.
    #[error("the trace has {events} events of at most {limit}, and no room for the receipt and what its step sends")]
    Full { events: usize, limit: u32 },
    /// The set is empty.
    #[error("it names nobody")]
    Nobody,
    /// These members would be down together, more than `f`.
    #[error(fmt = too_many)]
    TooMany { down: MemberSet, f: u8 },
    /// Nobody is down.
    #[error("nobody is down")]
    NotDown,
    /// An entry of the plan breaks a rule.
    #[error("{0}")]
    BadPlan(PlanFault),
    /// There can't be so many workers.
    #[error("there can be 1 to 8 workers")]
    BadWorkers,
    /// The workers' claims can't be made.
    #[error("the workers' claims can't be made")]
    NoTable,
    /// No worker got a thread.
    #[error("no worker got a thread")]
    NoThread,
    /// The group that came back doesn't go on from the one that was given.
    #[error("the group that came back doesn't go on from the one that was given")]
    Uneven,
}

/// Why a command that names these members is refused: the group has not all of them.
pub fn no_such_member<B: Behaviour<State = u64, Note = Note>>(
    group: &Group<B>,
    named: MemberSet,
) -> RefusalReason
    ensures { result ≡ no_member_of group.now named }
{
    RefusalReason::NoSuchMember(NamedMembers {
        named,
        members: group.config().members(),
    })
}

/// Why nothing is delivered to the one member from the other.
pub fn deliver_reason<B: Behaviour<State = u64, Note = Note>>(
    group: &Group<B>,
    to: Member,
    from: Member,
    refusal: DeliverRefusal,
) -> RefusalReason
    ensures { result ≡ deliver_reason_of group.now to from refusal }
{
    match refusal {
        DeliverRefusal::BadMember => no_such_member(group, MemberSet::empty().with(to).with(from)),
        DeliverRefusal::Down => RefusalReason::Down(group.down()),
        DeliverRefusal::Empty => RefusalReason::NothingInFlight { from, to },
        DeliverRefusal::Full | DeliverRefusal::Memory => RefusalReason::Full {
            events: group.trace().len(),
            limit: group.config().limit(),
        },
    }
}

/// Why the members of the set are not struck.
pub fn strike_reason<B: Behaviour<State = u64, Note = Note>>(
    group: &Group<B>,
    set: MemberSet,
    refusal: StrikeRefusal,
) -> RefusalReason
    ensures { result ≡ strike_reason_of group.now set refusal }
{
    match refusal {
        StrikeRefusal::BadMember => no_such_member(group, set),
        StrikeRefusal::Nobody => RefusalReason::Nobody,
        StrikeRefusal::TooMany => RefusalReason::TooMany {
            down: set.union(group.down()),
            f: group.config().f(),
        },
    }
}

/// Why no checkpoint of the member is taken.
pub fn checkpoint_reason<B: Behaviour<State = u64, Note = Note>>(
    group: &Group<B>,
    member: Member,
    refusal: CheckpointRefusal,
) -> RefusalReason
    ensures { result ≡ checkpoint_reason_of group.now member refusal }
{
    match refusal {
        CheckpointRefusal::BadMember => no_such_member(group, MemberSet::empty().with(member)),
        CheckpointRefusal::Down | CheckpointRefusal::Memory => RefusalReason::Down(group.down()),
    }
}

/// Why workers with this plan do not run. Of a bad plan it has the first bad entry, and the first rule that this breaks.
pub fn run_reason<B: Behaviour<State = u64, Note = Note>>(
    group: &Group<B>,
    plan: &[Strike],
    refusal: &DrainRefusal,
) -> RefusalReason
    requires { IsPlanRefused plan.now group.now.config refusal.now }
    ensures { IsRunReason plan.now group.now refusal.now result }
{
    match refusal {
        DrainRefusal::BadPlan(_) => match plan_fault(plan, group.config()) {
            Some(fault) => RefusalReason::BadPlan(fault),
            None => unreachable!(),
        },
        DrainRefusal::Down => RefusalReason::Down(group.down()),
        DrainRefusal::BadWorkers => RefusalReason::BadWorkers,
        DrainRefusal::NoTable | DrainRefusal::Memory => RefusalReason::NoTable,
        DrainRefusal::NoThread => RefusalReason::NoThread,
        DrainRefusal::Uneven => RefusalReason::Uneven,
    }
}
