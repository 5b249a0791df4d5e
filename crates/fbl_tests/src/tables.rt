//! Tables of determinants.

use crate::members::first_receipt;
use fbl_table::{Entry, Table};
use fbl_trace::{Determinant, Member, MemberSet};
use std::alloc::{AllocError, Global};

/// Whether this is the table's only entry.
fn has(table: &Table, expected: Entry) -> bool {
    table.len() == 1 && table.entry_at(0) == expected
}

/// Whether these are the entries that the table passes on.
fn passes_on(table: &Table, f: u8, expected: &[Entry]) -> Result<bool, AllocError> {
    let carried = table.piggyback(f)?;
    Ok(carried.as_slice() == expected)
}

/// The table of a receipt's receiver.
fn own_table(alloc: Global, me: Member, det: Determinant) -> Result<Table, AllocError> {
    let mut table = Table::new(alloc);
    table.note_own(me, det)?;
    Ok(table)
}

/// Lets the member learn the entries twice.
fn learn_twice(table: &mut Table, me: Member, carried: &[Entry]) -> Result<(), AllocError> {
    table.learn(me, carried)?;
    table.learn(me, carried)
}

/// The table of a member to whom the entries were carried twice.
fn told_table(alloc: Global, me: Member, carried: &[Entry]) -> Result<Table, AllocError> {
    let mut table = Table::new(alloc);
    learn_twice(&mut table, me, carried)?;
    Ok(table)
}

/// Gathers a copy of the other table.
fn gather_copy(table: &mut Table, other: &Table) -> Result<(), AllocError> {
    let copy = other.copy()?;
    table.gather(&copy)
}

/// Gathers a copy of the first table and the second one.
fn gather_both(table: &mut Table, first: &Table, second: &Table) -> Result<(), AllocError> {
    gather_copy(table, first)?;
    table.gather(second)
}

/// A table that gathers a copy of the first one and the second one.
fn gathered(alloc: Global, first: &Table, second: &Table) -> Result<Table, AllocError> {
    let mut table = Table::new(alloc);
    gather_both(&mut table, first, second)?;
    Ok(table)
}

/// The entry of a receipt of member 1, as its receiver passes it on.
fn carried() -> Entry {
    let one = Member::at(1);
    Entry {
        det: first_receipt(Member::at(0), one),
        known: MemberSet::empty().with(one),
    }
}

/// The entry as member 2 has it, which is told of it.
fn learned() -> Entry {
    let Entry { det, known } = carried();
    let known = known.with(Member::at(2));
    Entry { det, known }
}

/// Whether the entry is passed on while at most `f` members are known to hold the receipt.
fn is_passed_on(own: &Table, told: &Table) -> Result<bool, AllocError> {
    let by_receiver = passes_on(own, 1, &[carried()])?;
    let by_none = passes_on(told, 1, &[])?;
    let by_told = passes_on(told, 2, &[learned()])?;
    Ok(by_receiver && by_none && by_told)
}

/// Whether the entry of the table is known to member 0, which has no receipt, once it is marked.
fn is_marked(table: &mut Table) -> bool {
    let zero = Member::at(0);
    table.mark_all(MemberSet::empty().with(zero));
    let Entry { det, known } = learned();
    let known = known.with(zero);
    let receipts = (table.last_rsn(det.to), table.last_rsn(zero));
    has(table, Entry { det, known }) && receipts == (1, 0)
}

/// Whether a table that gathers both has the entry as it was learned, and marks it.
fn is_gathered(alloc: Global, own: &Table, told: &Table) -> Result<bool, AllocError> {
    let mut all = gathered(alloc, told, own)?;
    let is_gathered = has(told, learned()) && has(&all, learned());
    Ok(is_gathered && is_marked(&mut all))
}

/// What is done with the entry: its receiver and the member that is told of it pass it on, or tables gather it.
#[derive(Clone, Copy)]
enum KnownHolders {
    PassedOn,
    Gathered,
}

impl KnownHolders {
    /// Whether it is as expected. `Err` is to come only where memory is refused.
    fn is_worked(self, alloc: Global) -> Result<bool, AllocError> {
        let own = own_table(alloc, Member::at(1), carried().det)?;
        let told = told_table(alloc, Member::at(2), &[carried()])?;
        match self {
            KnownHolders::PassedOn => is_passed_on(&own, &told),
            KnownHolders::Gathered => is_gathered(alloc, &own, &told),
        }
    }
}

#[test]
fn a_receipt_is_passed_on_until_enough_members_know_it(rt: HostRuntime) {
    assert!(rt;
        KnownHolders::PassedOn
            .is_worked(rt.alloc())
            .unwrap_or(false)
    );
}

#[test]
fn tables_are_gathered_and_marked(rt: HostRuntime) {
    assert!(rt;
        KnownHolders::Gathered
            .is_worked(rt.alloc())
            .unwrap_or(false)
    );
}

/// It holds where any one request for memory is refused, too. The gate refuses each in turn.
#[test]
fn without_memory(rt: HostRuntime) {
    assert!(rt; KnownHolders::PassedOn.is_worked(rt.alloc()).unwrap_or(true));
    assert!(rt; KnownHolders::Gathered.is_worked(rt.alloc()).unwrap_or(true));
}
