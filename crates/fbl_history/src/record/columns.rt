//! A history gone through again, and what is written of each of its columns.

ghost use Rattle.std.specs.Prelude.{◌≡◌, ◌≢◌, ℕ, ◌<◌, ◌≤◌, ◌↔◌, ◌++◌, IfErr, IfOk, OnOk, None, drop, filter, filter_map, length, map, slice_index, true};
ghost use Rattle.std.specs.FinSet as set;
ghost use Rattle.fbl_trace.specs.Events.{mark_of};
ghost use Rattle.fbl_trace.specs.MemberSets.{members_where};
ghost use Rattle.fbl_group.specs.Checkpoints.{checkpoint_refusal};
ghost use Rattle.fbl_group.specs.Deliveries.{Delivers, deliver_refusal};
ghost use Rattle.fbl_group.specs.Strikes.{Recovers, Strikes, strike_refusal};
ghost use Rattle.fbl_group.specs.declared.answers.Receipted.{Receipted};
ghost use Rattle.fbl_group.specs.declared.answers.Recovered.{Recovered};
ghost use Rattle.fbl_group.specs.declared.answers.Struck.{Struck};
ghost use Rattle.fbl_law.specs.GroupSteps.{IsCheckpoint};
ghost use Rattle.fbl_runs.specs.declared.entry.Entry.TheVariants.{Told};
ghost use Rattle.fbl_history.specs.Records.{AreBack, IsRecordStart, IsOfAnother, IsRecordOf, IsStopped, Receives, Records, RecordsAll, Refuses, RefusesReceipt, Restores, Saves, StopsIn, is_between, is_not_between, is_gathered_from, so_far, standing_mark};

use crate::column::Column;
use crate::record::RecordRefusal;
use crate::record::entries::{
    is_not_between, next_messages, push_backs, push_events, push_receipt, push_round, push_stores,
    push_tells, push_told,
};
use fbl_group::{CheckpointRefusal, DeliverRefusal, Group, RecoverRefusal};
use fbl_runs::{ControlMessage, Entry, RawLog};
use fbl_trace::{
    Behaviour, Config, Determinant, Event, MOST_MEMBERS, Mark, Member, MemberSet, Note,
};
use std::alloc::{AllocError, Global};

/// What is written of a history so far, beside the group that goes through it again.
#[derive(Drop)]
struct Written {
    /// The life of each member.
    lives: [u32; 16],
    /// How many determinants, the first ones of each member's table, its checkpoint has. After a recovery of the member it counts as none.
    saved: [usize; 16],
    /// What members told others when they were back, and these are not told yet.
    untold: Vec<ControlMessage>,
    entries: Vec<Entry>,
}

/// The sends of the starts of a new group.
fn begin<B: Behaviour<State = u64, Note = Note>>(
    alloc: Global,
    group: &Group<B>,
) -> Result<Written, AllocError>
    ensures { IfOk result (λ written. IsRecordStart (so_far group.now written)) }
{
    let mut entries = Vec::new(alloc);
    push_events(&mut entries, group.trace())?;
    Ok(Written {
        lives: [0; 16],
        saved: [0; 16],
        untold: Vec::new(alloc),
        entries,
    })
}

/// Delivers the first message in flight from the one member to the other.
fn deliver<B: Behaviour<State = u64, Note = Note>>(
    group: &mut Group<B>,
    to: Member,
    from: Member,
) -> Result<(), RecordRefusal>
    ensures delivered { OnOk result ((answer : Receipted ℕ) × Delivers B.next group.old group.new to from answer) }
    ensures refused { IfErr result (IsStopped (deliver_refusal B.next group.old to from ≢ None)) }
{
    match group.deliver(to, from) {
        Ok(_) => Ok(()),
        Err(DeliverRefusal::Memory) => Err(RecordRefusal::Memory),
        Err(_) => Err(RecordRefusal::OtherHistory),
    }
}

/// The member's life.
fn life_of(written: &Written, member: Member) -> u32
    ensures { result ≡ slice_index written.now.lives member }
{
    written.lives[usize::from(member.number())]
}

/// The events behind the first so many.
fn events_from(events: &[Event], first: usize) -> &[Event]
    requires { first ≤ length events.now }
    ensures { result.now ≡ drop first events.now }
{
    &events[first..]
}

/// Whether both are the same event.
fn is_same(mark: &Mark, other: &Mark) -> bool
    ensures { (result ≡ true) ↔ (mark.now ≡ other.now) }
{
    mark == other
}

/// The one member is told what is untold of the other.
fn tell_of_lives(written: &mut Written, from: Member, to: Member) -> Result<(), AllocError>
    ensures told { OnOk result (written.new.entries.items ≡ written.old.entries.items
        ++ map Told (filter (is_between from to) written.old.untold.items)) }
    ensures untold { OnOk result (written.new.untold.items ≡ filter (is_not_between from to) written.old.untold.items) }
    ensures lives { written.new.lives ≡ written.old.lives }
    ensures saved { written.new.saved ≡ written.old.saved }
{
    push_told(&mut written.entries, written.untold.as_slice(), from, to)?;
    written
        .untold
        .retain(|message| is_not_between(message, from, to));
    Ok(())
}

/// Delivers what the receipt names: what its member is told before it, the receipt, what the member holds from then on, and the sends of its
/// step.
fn receive<B: Behaviour<State = u64, Note = Note>>(
    group: &mut Group<B>,
    written: &mut Written,
    receipt: &Determinant,
) -> Result<(), RecordRefusal>
    ensures received { OnOk result (Receives B.next (so_far group.old written.old) receipt.now (so_far group.new written.new)) }
    ensures refused { IfErr result (IsStopped (RefusesReceipt B.next group.old receipt.now)) }
{
    let (from, to) = (receipt.from, receipt.to);
    let n = group.config().members();
    if from.number() >= n || to.number() >= n {
        return Err(RecordRefusal::OtherHistory);
    }
    let events = group.trace().len();
    let held = group.table(to).len();
    deliver(group, to, from)?;
    if !is_same(&group.trace()[events].mark(), &receipt.receipt()) {
        return Err(RecordRefusal::OtherHistory);
    }
    tell_of_lives(written, from, to)?;
    let life = life_of(written, from);
    let sends = events_from(group.trace(), events + 1);
    push_receipt(
        &mut written.entries,
        life,
        receipt,
        held,
        group.table(to),
        sends,
    )?;
    Ok(())
}

/// Strikes the members: nothing is written then.
fn strike<B: Behaviour<State = u64, Note = Note>>(
    group: &mut Group<B>,
    members: MemberSet,
) -> Result<(), RecordRefusal>
    ensures struck { OnOk result ((answer : Struck) × Strikes B.next group.old group.new members answer) }
    ensures refused { IfErr result (IsStopped (strike_refusal group.old members ≢ None)) }
{
    match group.strike(members) {
        Ok(_) => Ok(()),
        Err(_) => Err(RecordRefusal::OtherHistory),
    }
}

/// Each of the members begins its next life, and its checkpoint counts as having none of its table.
fn begin_lives(written: &mut Written, members: MemberSet) -> Result<(), AllocError>
    ensures back { OnOk result (AreBack members written.old.lives written.old.saved written.new.lives written.new.saved) }
    ensures untold { written.new.untold ≡ written.old.untold }
    ensures entries { written.new.entries ≡ written.old.entries }
{
    for number in 0..MOST_MEMBERS {
        let place = usize::from(number);
        if members.has(Member::at(number)) {
            let Some(life) = written.lives[place].checked_add(1) else {
                return Err(AllocError);
            };
            written.lives[place] = life;
            written.saved[place] = 0;
        }
    }
    Ok(())
}

/// Recovers the members that are down.
fn bring_back<B: Behaviour<State = u64, Note = Note>>(
    group: &mut Group<B>,
) -> Result<(), RecordRefusal>
    ensures recovered { OnOk result ((answer : Recovered) × Recovers B.next group.old group.new answer) }
    ensures refused { IfErr result (IsStopped (group.old.down ≡ set.empty)) }
{
    match group.recover() {
        Ok(_) => Ok(()),
        Err(RecoverRefusal::Memory) => Err(RecordRefusal::Memory),
        Err(RecoverRefusal::NotDown) => Err(RecordRefusal::OtherHistory),
    }
}

/// Whether a recovery gathers something of the member: it is up, or has had a receipt at its checkpoint.
fn is_gathered_from<B: Behaviour<State = u64, Note = Note>>(
    group: &Group<B>,
    member: Member,
) -> bool
    requires { member < group.now.config.members }
    ensures { result ≡ is_gathered_from group.now member }
{
    !group.down().has(member) || group.checkpoint_received(member) != 0
}

/// Of whom a recovery gathers something.
fn sources<B: Behaviour<State = u64, Note = Note>>(group: &Group<B>) -> MemberSet
    ensures { result ≡ members_where group.now.config.members (is_gathered_from group.now) }
{
    let mut sources = MemberSet::empty();
    for number in 0..group.config().members() {
        let member = Member::at(number);
        if is_gathered_from(group, member) {
            sources = sources.with(member);
        }
    }
    sources
}

/// Recovers the members that are down: each of whom something is gathered tells each of them so; they are back, and tell one another, and
/// then the survivors.
fn restore<B: Behaviour<State = u64, Note = Note>>(
    alloc: Global,
    group: &mut Group<B>,
    written: &mut Written,
) -> Result<(), RecordRefusal>
    ensures restored { OnOk result (Restores B.next (so_far group.old written.old) (so_far group.new written.new)) }
    ensures refused { IfErr result (IsStopped (group.old.down ≡ set.empty)) }
{
    let down = group.down();
    let n = group.config().members();
    let sources = sources(group);
    push_round(alloc, &mut written.entries, n, sources, down)?;
    bring_back(group)?;
    begin_lives(written, down)?;
    push_backs(&mut written.entries, group, &written.lives, down)?;
    push_round(alloc, &mut written.entries, n, down, down)?;
    let survivors = sources.without(down);
    let told = next_messages(alloc, n, written.entries.as_slice(), down, survivors)?;
    push_tells(&mut written.entries, told.as_slice())?;
    written.untold.extend_from_slice(told.as_slice())?;
    Ok(())
}

/// Takes a checkpoint of the member.
fn take_checkpoint<B: Behaviour<State = u64, Note = Note>>(
    group: &mut Group<B>,
    member: Member,
) -> Result<(), RecordRefusal>
    ensures taken { OnOk result (IsCheckpoint group.old group.new member) }
    ensures refused { IfErr result (IsStopped (checkpoint_refusal group.old member ≢ None)) }
{
    match group.checkpoint(member) {
        Ok(()) => Ok(()),
        Err(CheckpointRefusal::Memory) => Err(RecordRefusal::Memory),
        Err(_) => Err(RecordRefusal::OtherHistory),
    }
}

/// Takes a checkpoint of the member: it stores what its table has and its older checkpoint has not.
fn save<B: Behaviour<State = u64, Note = Note>>(
    group: &mut Group<B>,
    written: &mut Written,
    member: Member,
) -> Result<(), RecordRefusal>
    ensures saved { OnOk result (Saves (so_far group.old written.old) member (so_far group.new written.new)) }
    ensures refused { IfErr result (IsStopped (checkpoint_refusal group.old member ≢ None)) }
{
    take_checkpoint(group, member)?;
    let place = usize::from(member.number());
    let table = group.table(member);
    push_stores(&mut written.entries, member, written.saved[place], table)?;
    written.saved[place] = table.len();
    Ok(())
}

/// Does again what the column is of, and writes it. A send is made with the receipt before it, or is that of a start.
fn add<B: Behaviour<State = u64, Note = Note>>(
    alloc: Global,
    group: &mut Group<B>,
    written: &mut Written,
    column: &Column,
) -> Result<(), RecordRefusal>
    ensures recorded { OnOk result (Records B.next (so_far group.old written.old) column.now (so_far group.new written.new)) }
    ensures refused { IfErr result (IsStopped (Refuses B.next group.old column.now)) }
{
    match column {
        Column::Send { .. } => Ok(()),
        Column::Receipt {
            to,
            rsn,
            from,
            ssn,
            ..
        } => receive(
            group,
            written,
            &Determinant {
                from: *from,
                to: *to,
                ssn: *ssn,
                rsn: *rsn,
            },
        ),
        Column::Strike(members) => strike(group, *members),
        Column::Recovery(_) => restore(alloc, group, written),
        Column::Checkpoint(member) => save(group, written, *member),
    }
}

/// Does again what the columns are of, in order, and writes it.
fn add_all<B: Behaviour<State = u64, Note = Note>>(
    alloc: Global,
    group: &mut Group<B>,
    written: &mut Written,
    columns: &[Column],
) -> Result<(), RecordRefusal>
    ensures recorded { OnOk result (RecordsAll B.next (so_far group.old written.old) columns.now (so_far group.new written.new)) }
    ensures refused { IfErr result (IsStopped (StopsIn B.next (so_far group.old written.old) columns.now)) }
{
    for column in columns {
        add(alloc, group, written, column)?;
    }
    Ok(())
}

/// The send or receipt that the column is of, if it is not undone.
fn standing_mark(column: &Column) -> Option<Mark>
    ensures { result ≡ standing_mark column.now }
{
    match column {
        Column::Send {
            from,
            ssn,
            to,
            undone: false,
        } => Some(Mark::Send {
            from: *from,
            ssn: *ssn,
            to: *to,
        }),
        Column::Receipt {
            to,
            rsn,
            from,
            ssn,
            undone: false,
            ..
        } => Some(Mark::Receipt {
            to: *to,
            rsn: *rsn,
            from: *from,
            ssn: *ssn,
        }),
        _ => None,
    }
}

/// The events of the columns that are not undone, in order.
fn standing_marks(alloc: Global, columns: &[Column]) -> Result<Vec<Mark>, AllocError>
    ensures { IfOk result (λ marks. marks.items ≡ filter_map standing_mark columns.now) }
{
    let mut marks = Vec::new(alloc);
    for column in columns {
        if let Some(mark) = standing_mark(column) {
            marks.push(mark)?;
        }
    }
    Ok(marks)
}

/// The events without their notes.
fn marks_of(alloc: Global, trace: &[Event]) -> Result<Vec<Mark>, AllocError>
    ensures { IfOk result (λ marks. marks.items ≡ map mark_of trace.now) }
{
    trace.iter().map(|event| event.mark()).collect(alloc)
}

/// Whether the events of the columns that are not undone are these, in order.
fn is_trace(alloc: Global, columns: &[Column], trace: &[Event]) -> Result<bool, AllocError>
    ensures { IfOk result (λ same. (same ≡ true) ↔ (filter_map standing_mark columns.now ≡ map mark_of trace.now)) }
{
    let standing = standing_marks(alloc, columns)?;
    let made = marks_of(alloc, trace)?;
    Ok(standing.as_slice() == made.as_slice())
}

/// The record of a history of a group of this configuration. That it is a log is not tested.
pub(super) fn raw_record_of<B: Behaviour<State = u64, Note = Note>>(
    alloc: Global,
    config: Config,
    columns: &[Column],
) -> Result<RawLog, RecordRefusal>
    ensures recorded { IfOk result (IsRecordOf B.next config columns.now) }
    ensures refused { IfErr result (IsStopped (IsOfAnother B.next config columns.now)) }
{
    let (members, f) = (config.members(), config.f());
    let mut group: Group<B> = Group::new(alloc, config)?;
    let mut written = begin(alloc, &group)?;
    add_all(alloc, &mut group, &mut written, columns)?;
    if !is_trace(alloc, columns, group.trace())? {
        return Err(RecordRefusal::OtherHistory);
    }
    Ok(RawLog {
        members,
        f,
        entries: written.entries,
        strike: group.down(),
    })
}
