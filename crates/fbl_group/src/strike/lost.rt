//! Which receipts of a trace are lost: those that no table of some records has recorded.

ghost use Rattle.std.specs.Prelude.{◌≡◌, ◌≤◌, IfOk, not, length, map, count_by};
ghost use Rattle.std.specs.List.{filter, list_any};
ghost use Rattle.fbl_table.specs.Tables.{is_held};
ghost use Rattle.fbl_trace.specs.Events.{mark_of};
ghost use Rattle.fbl_law.specs.Groups.{is_recorded_among as is_recorded_among_of, receipts};
ghost use Rattle.fbl_group.specs.Lost.{is_lost_receipt_of};

use fbl_member::MemberRec;
use fbl_trace::{Content, Determinant, Event, MemberSet};
use std::alloc::{AllocError, Global};

pub(super) fn lost_among<S: Copy, N: Content>(
    alloc: Global,
    members: &[MemberRec<S, N>],
    checkpoints: &[MemberRec<S, N>],
    trace: &[Event<N>],
) -> Result<Vec<Determinant>, AllocError>
    ensures { IfOk result (λ v. v.items ≡ filter
        (λ d. not (is_recorded_among_of members.now checkpoints.now d))
        (receipts (map mark_of trace.now))) }
{
    let marks = trace.iter().map(|event| event.mark());
    marks
        .filter_map(|mark| mark.determinant())
        .filter(|determinant| !is_recorded_among(members, checkpoints, determinant))
        .collect(alloc)
}

pub(super) fn count_lost<S: Copy, N: Content>(
    down: MemberSet,
    members: &[MemberRec<S, N>],
    checkpoints: &[MemberRec<S, N>],
    trace: &[Event<N>],
) -> u32
    requires { length trace.now ≤ 8192 }
    ensures { result ≡ count_by (is_lost_receipt_of down members.now checkpoints.now) trace.now }
{
    let mut lost = 0;
    let mut likely = 0;
    for event in trace {
        if is_lost_receipt(down, members, checkpoints, *event, &mut likely) {
            lost += 1;
        }
    }
    lost
}

fn is_recorded_among<S: Copy, N: Content>(
    members: &[MemberRec<S, N>],
    checkpoints: &[MemberRec<S, N>],
    determinant: &Determinant,
) -> bool
    ensures { result ≡ is_recorded_among_of members.now checkpoints.now determinant.now }
{
    is_held_in(members, determinant) || is_held_in(checkpoints, determinant)
}

/// No table is looked at for a receipt of a member that is not in the set.
fn is_lost_receipt<S: Copy, N: Content>(
    down: MemberSet,
    members: &[MemberRec<S, N>],
    checkpoints: &[MemberRec<S, N>],
    event: Event<N>,
    likely: &mut usize,
) -> bool
    ensures { result ≡ is_lost_receipt_of down members.now checkpoints.now event }
{
    match event.mark().determinant() {
        Some(determinant) => {
            down.has(determinant.to)
                && !(is_likely_held(members, &determinant, likely)
                    || is_held_in(checkpoints, &determinant))
        }
        None => false,
    }
}

/// The likely record's table is looked at first, and where it does not hold the determinant, that of the next one is the next time:
/// that changes no answer.
fn is_likely_held<S: Copy, N: Content>(
    records: &[MemberRec<S, N>],
    determinant: &Determinant,
    likely: &mut usize,
) -> bool
    ensures { result ≡ list_any (λ m. is_held m.table determinant.now) records.now }
{
    match records.get(*likely) {
        Some(record) if record.table().holds(determinant) => true,
        _ => {
            let next = likely.saturating_add(1);
            *likely = if next < records.len() { next } else { 0 };
            is_held_in(records, determinant)
        }
    }
}

fn is_held_in<S: Copy, N: Content>(records: &[MemberRec<S, N>], determinant: &Determinant) -> bool
    ensures { result ≡ list_any (λ m. is_held m.table determinant.now) records.now }
{
    records
        .iter()
        .any(|record| record.table().holds(determinant))
}
