//! The order of the entries of a run, from the members' own logs.

ghost use Rattle.std.specs.Prelude.{◌≡◌, ◌≤◌, ◌<◌, ℕ, None, Some, IfErr, IfOk, MatchOption, length, slice_get};
ghost use Rattle.fbl_trace.specs.Configs.{FAllowed, MembersAllowed};
ghost use Rattle.fbl_runs.specs.Entries.{marks};
ghost use Rattle.fbl_runs.specs.Rules.{have_lives, restarts};
ghost use Rattle.fbl_order.specs.Faults.{AreFew, IsOneLifeTooMany, IsOneTooMany, RefusesGroup, RefusesMany, RefusesOrder};
ghost use Rattle.fbl_order.specs.Merges.{IsFirstLeft, Merges};
ghost use Rattle.fbl_order.specs.Orders.{items_at};

use crate::fault::OrderFault;
use crate::merge::{Merge, have_lives};
use fbl_runs::{Entry, LifeFault, LifeRule, LogBreach, MOST_RESTARTS};
use fbl_trace::{Breach, DumpRefusal, EventFault, EventRule, GroupRule, MOST_EVENTS, group_breach};
use std::alloc::{AllocError, Global};

/// A dump or a log whose events or entries were put in an order.
#[derive(Drop)]
pub struct Ordered<R> {
    pub run: R,
    /// For each of its events or entries, at its place, the place at which it was given.
    pub places: Vec<usize>,
}

/// The items at these places, in this order.
pub(crate) fn items_at<T: Copy>(
    alloc: Global,
    items: &[T],
    places: &[usize],
) -> Result<Vec<T>, AllocError>
    requires { (k p : ℕ) → slice_get places.now k ≡ Some p → p < length items.now }
    ensures { IfOk result (λ v. v.items ≡ items_at items.now places.now) }
{
    let mut chosen = Vec::new(alloc);
    for place in places {
        chosen.push(items[*place])?;
    }
    Ok(chosen)
}

/// Why no group has these numbers, if none has. This is tested before anything is put in order.
pub(crate) fn group_refusal(members: u8, f: u8) -> Option<OrderFault>
    ensures { MatchOption result (MembersAllowed members × FAllowed members f) (RefusesGroup members f) }
{
    let (refusal, breach) = match group_breach(members, f)? {
        GroupRule::Members => (DumpRefusal::BadMembers, Breach::Members { members }),
        GroupRule::F => (DumpRefusal::BadF, Breach::F { f, members }),
    };
    Some(OrderFault::Refused(refusal, LogBreach::Trace(breach)))
}

/// The first send or receipt that is one too many.
fn one_too_many(entries: &[Entry]) -> Option<EventFault>
    ensures { MatchOption result (length (marks entries.now) ≤ 8192) (IsOneTooMany entries.now) }
{
    let mut count = 0u32;
    for (place, entry) in entries.iter().enumerate() {
        if let Some(event) = entry.event() {
            if count == MOST_EVENTS {
                let rule = EventRule::TooMany;
                return Some(EventFault { place, event, rule });
            }
            count += 1;
        }
    }
    None
}

/// The first restart that is one too many.
fn one_restart_too_many(entries: &[Entry]) -> Option<LifeFault>
    ensures { MatchOption result (restarts entries.now ≤ 8) (IsOneLifeTooMany entries.now) }
{
    let mut count = 0u32;
    for (place, entry) in entries.iter().enumerate() {
        if entry.restart().is_some() {
            if count == MOST_RESTARTS {
                let rule = LifeRule::TooManyRestarts;
                return Some(LifeFault {
                    place,
                    entry: *entry,
                    rule,
                });
            }
            count += 1;
        }
    }
    None
}

/// Why the entries have no order whatever their order, since their sends and receipts or their restarts are too many.
fn limit_refusal(entries: &[Entry]) -> Option<OrderFault>
    ensures { MatchOption result (AreFew (have_lives entries.now) entries.now) (RefusesMany entries.now) }
{
    let lived = have_lives(entries);
    if let Some(fault) = one_too_many(entries) {
        let EventFault { place, .. } = fault;
        let breach = if lived {
            LogBreach::Life(LifeFault {
                place,
                entry: entries[place],
                rule: LifeRule::TooMany,
            })
        } else {
            LogBreach::Trace(Breach::Event(fault))
        };
        return Some(OrderFault::Refused(DumpRefusal::BadEvent(place), breach));
    }
    if !lived {
        return None;
    }
    let fault = one_restart_too_many(entries)?;
    Some(OrderFault::Refused(DumpRefusal::BadEvent(fault.place), LogBreach::Life(fault)))
}

/// The entries in an order in which the sends and receipts, the control messages and the restarts obey the rules in a group of `n` and each
/// member's own entries stand as they do here. Of the members' next entries that may come the first given is always taken, and a hold or a store may
/// always come. So entries that obey the rules as they stand stay so.
///
/// The time taken is that of the entries by the members.
pub(crate) fn merge_in_order(alloc: Global, n: u8, entries: &[Entry]) -> Result<Merge, OrderFault>
    requires { n ≤ 16 }
    ensures merges { IfOk result (Merges n entries.now) }
    ensures all { IfOk result (λ merge. IsFirstLeft entries.now merge None) }
    ensures refused { IfErr result (RefusesOrder n entries.now) }
{
    if let Some(fault) = limit_refusal(entries) {
        return Err(fault);
    }
    let merge = Merge::of(alloc, n, entries)?;
    match merge.first_left(entries) {
        Some(first) => Err(OrderFault::NoOrder(merge.end_of_chain(alloc, n, entries, first)?)),
        None => Ok(merge),
    }
}
