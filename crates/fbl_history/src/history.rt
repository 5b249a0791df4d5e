//! A history, and how it goes on.

ghost use Rattle.std.specs.Prelude.{◌≡◌, ◌≤◌, ◌<◌, ◌++◌, ◌∷◌, [], count_by, drop, false, length, IfOk, OnOk};
ghost use Rattle.fbl_trace.specs.MemberSets.{AllBelow};
ghost use Rattle.fbl_history.specs.Columns.{go_on as gone_on, is_receipt, is_sent_by, ReceiptsFollowSends};
ghost use Rattle.fbl_history.specs.Traces.{go_on_to, start_columns, trace_columns as columns_of_trace, CountsAsBefore, IsAfterRecovery, IsHistoryOf};
ghost use Rattle.fbl_history.specs.Turns.{IsAfterTurns, IsLedTo};
ghost use Rattle.fbl_history.specs.declared.column.Column.TheVariants.{Strike, Checkpoint};

use crate::column::Column;
use crate::states::trace_columns;
use crate::turns::{add_turn, replays};
use fbl_group::{Group, TurnRecord};
use fbl_trace::{Behaviour, Config, Member, MemberSet, Note};
use std::alloc::{AllocError, Global};
use std::marker::Model;

/// What came in a run of a group, in the order in which it came. Contracts see the list of its columns. `Err` comes only
/// where there is no memory for more columns; a call that was given the history has dropped it then.
#[derive(Drop)]
pub struct History {
    columns: Vec<Column>,
}

impl Model for History {
    ghost use Rattle.std.specs.Prelude.{List};
    ghost use Rattle.fbl_history.specs.Columns.{ReceiptsFollowSends};
    ghost use Rattle.fbl_history.specs.declared.column.Column.{Column};

    ghost Value = { List Column };

    ghost use Rattle.std.specs.Coded.{codes};
    ghost use Rattle.fbl_history.specs.contracts.column.Column as column;

    ghost coded = { Prim.hlevel (codes, column.the_row.coded) };

    ghost view = { λ h. h.columns.items };

    ghost invariant = { λ h. ReceiptsFollowSends h.columns.items };
}

impl History {
    /// The history of a new group of this configuration, in which nothing is received yet: the sends of its starts.
    pub fn new(alloc: Global, config: &Config) -> Result<History, AllocError>
        ensures { IfOk result (λ history. history ≡ start_columns config.now.starts) }
    {
        // a configuration has at most 64 starts
        config.members();
        let mut columns = Vec::with_capacity(alloc, config.starts().len())?;
        for start in config.starts() {
            columns.push(Column::Send {
                from: start.from,
                ssn: count_sends(&columns, start.from) + 1,
                to: start.to,
                undone: false,
            })?;
        }
        Ok(History { columns })
    }

    /// The columns, in the order in which they came. Each receipt comes after a send of its message.
    pub fn columns(&self) -> &[Column]
        ensures columns { result.now ≡ self.now }
        ensures sends { ReceiptsFollowSends self.now }
    {
        self.columns.as_slice()
    }

    /// The history after deliveries have led to this group: what they made is added.
    pub fn go_on<B: Behaviour<State = u64, Note = Note>>(
        self,
        alloc: Global,
        group: &Group<B>,
    ) -> Result<History, AllocError>
        ensures { IfOk result (λ history. history ≡ go_on_to B.next self group.now) }
    {
        // the group is sound
        group.recoverable();
        let History { mut columns } = self;
        follow_trace(&mut columns, alloc, group)?;
        Ok(History { columns })
    }

    /// The history after a run of workers has led to this group by these turns: what each made, and what its planned crash struck,
    /// undid and brought back. Each receipt that was ever made has its column, undone or not.
    pub fn run<B: Behaviour<State = u64, Note = Note>>(
        self,
        alloc: Global,
        turns: &[TurnRecord],
        group: &Group<B>,
    ) -> Result<History, AllocError>
        requires { ∥ IsLedTo B.next self turns.now group.now ∥₁ }
        ensures turns { IfOk result (IsAfterTurns B.next group.now turns.now self) }
        ensures history { IfOk result (IsHistoryOf B.next group.now) }
    {
        let History { mut columns } = self;
        for turn in turns {
            add_turn(&mut columns, alloc, turn, group)?;
        }
        Ok(History { columns })
    }

    /// The history after a strike of these members by one command.
    pub fn strike(self, members: MemberSet) -> Result<History, AllocError>
        ensures columns { IfOk result (λ history. history ≡ self ++ Strike members ∷ []) }
        ensures counted { IfOk result (CountsAsBefore self) }
    {
        self.with(Column::Strike(members))
    }

    /// The history after a recovery of these members, which were down, has led to this group.
    pub fn recover<B: Behaviour<State = u64, Note = Note>>(
        self,
        alloc: Global,
        group: &Group<B>,
        members: MemberSet,
    ) -> Result<History, AllocError>
        requires { AllBelow members group.now.config.members }
        ensures { IfOk result (λ history. IsAfterRecovery B.next group.now members self history) }
    {
        let received = group.received_each();
        let replays = replays(alloc, group, members, received.as_slice())?;
        self.go_on(alloc, group)?.with(Column::Recovery(replays))
    }

    /// The history after a checkpoint of the member.
    pub fn checkpoint(self, member: Member) -> Result<History, AllocError>
        ensures columns { IfOk result (λ history. history ≡ self ++ Checkpoint member ∷ []) }
        ensures counted { IfOk result (CountsAsBefore self) }
    {
        self.with(Column::Checkpoint(member))
    }

    /// The history with one more column, which is of no receipt.
    fn with(self, column: Column) -> Result<History, AllocError>
        requires { is_receipt column ≡ false }
        ensures { IfOk result (λ history. history ≡ self ++ column ∷ []) }
    {
        let History { mut columns } = self;
        columns.push(column)?;
        Ok(History { columns })
    }
}

/// How many of the columns are sends of the member.
fn count_sends(columns: &[Column], member: Member) -> u32
    requires { length columns.now ≤ 64 }
    ensures value { result ≡ count_by (is_sent_by member) columns.now }
    ensures few { result ≤ 64 }
{
    columns
        .iter()
        .filter(|column| column.is_sent_by(member))
        .count() as u32
}

/// Goes on to the group's trace.
fn follow_trace<B: Behaviour<State = u64, Note = Note>>(
    columns: &mut Vec<Column>,
    alloc: Global,
    group: &Group<B>,
) -> Result<(), AllocError>
    ensures { OnOk result (columns.new.items ≡ gone_on columns.old.items (columns_of_trace B.next group.now)) }
{
    let mut trace = trace_columns(alloc, group)?;
    let kept = undo_others(columns, trace.as_slice());
    columns.append(&mut trace.split_off(kept)?)
}

/// Undoes the standing events that are not the next ones of the trace, and answers how many of the trace's are.
fn undo_others(columns: &mut Vec<Column>, trace: &[Column]) -> usize
    ensures within { result ≤ length trace.now }
    ensures undone { columns.new.items ++ drop result trace.now ≡ gone_on columns.old.items trace.now }
{
    let mut kept = 0;
    for column in columns.iter_mut() {
        if kept < trace.len() && column.is_same_standing(&trace[kept]) {
            kept += 1;
        } else if column.is_standing() {
            column.undo();
        }
    }
    kept
}
