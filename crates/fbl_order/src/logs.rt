//! Logs whose entries stand in any order that keeps the members' logs.

ghost use Rattle.std.specs.Prelude.{◌≡◌, IfErr, IfOk, length};
ghost use Rattle.fbl_runs.specs.Logs.{IsLog, parts_of_log};
ghost use Rattle.fbl_runs.specs.Rules.{have_lives};
ghost use Rattle.fbl_order.specs.Answers.{AnswersAlike, IsOrderGiven};
ghost use Rattle.fbl_order.specs.Faults.{IsFaultGiven, RefusesGiven, RefusesUnorderedLog, place_given, record_given, stuck_given};
ghost use Rattle.fbl_order.specs.Orders.{ArePlaces, IsOrderOfEntries, StandInOrder, with_entries};

use crate::fault::{Obstacle, OrderFault, Stuck};
use crate::merge::Merge;
use crate::order::{Ordered, group_refusal, items_at, merge_in_order};
use fbl_runs::{LifeFault, LogBreach, RawLog, RecordFault, Run, checked_log};
use fbl_trace::{Breach, DumpRefusal, EventFault};
use std::alloc::Global;

/// The place at which what has the number was given.
fn place_given(places: &[usize], number: usize) -> usize
    ensures { result ≡ place_given places.now number }
{
    places.get(number).copied().unwrap_or(number)
}

/// The refusal of a log whose entries were given at these places: an entry that breaks a rule is named where it was given.
fn refusal_as_given(refusal: DumpRefusal, breach: LogBreach, places: &[usize]) -> OrderFault
    ensures { result ≡ record_given places.now refusal breach }
{
    match breach {
        LogBreach::Record(fault) => {
            let place = place_given(places, fault.place);
            OrderFault::Refused(
                DumpRefusal::BadEvent(place),
                LogBreach::Record(RecordFault { place, ..fault }),
            )
        }
        LogBreach::Life(fault) => {
            let place = place_given(places, fault.place);
            OrderFault::Refused(
                DumpRefusal::BadEvent(place),
                LogBreach::Life(LifeFault { place, ..fault }),
            )
        }
        LogBreach::Trace(Breach::Event(fault)) => {
            let place = place_given(places, fault.place);
            OrderFault::Refused(
                DumpRefusal::BadEvent(place),
                LogBreach::Trace(Breach::Event(EventFault { place, ..fault })),
            )
        }
        _ => OrderFault::Refused(refusal, breach),
    }
}

/// The log of these parts, with its entries in an order in which the sends and receipts, the control messages and the restarts obey the rules
/// and each member's own entries stand as they do here: a hold or a store behind the same entry of its member. Whichever such order the run had, a
/// check of it says the same.
///
/// Where several faults hold, that of the group's numbers is answered before that the entries have no order, and this before those that
/// `checked_log` finds in an order of them: of the strike set, and of a hold or a store. The time taken is that of the entries by the members.
pub(crate) fn order_log(alloc: Global, raw: RawLog) -> Result<Ordered<Run>, OrderFault>
    ensures rules { IfOk result (λ o. IsLog o.run) }
    ensures parts { IfOk result (λ o. o.run ≡ with_entries o.run.entries (parts_of_log raw)) }
    ensures order { IfOk result (λ o. IsOrderOfEntries raw.members raw.entries.items o.run.entries) }
    ensures places { IfOk result (λ o. ArePlaces raw.entries.items o.run.entries o.places.items) }
    ensures kept { IfOk result
        (λ o. StandInOrder (have_lives raw.entries.items) raw.members raw.entries.items → o.run ≡ parts_of_log raw) }
    ensures answers { IfOk result (λ o. AnswersAlike (parts_of_log raw) o.run) }
    ensures refused { IfErr result (RefusesUnorderedLog (parts_of_log raw)) }
{
    if let Some(fault) = group_refusal(raw.members, raw.f) {
        return Err(fault);
    }
    let given = raw.entries.as_slice();
    let Merge { places, .. } = merge_in_order(alloc, raw.members, given)?;
    let entries = items_at(alloc, given, places.as_slice())?;
    match checked_log(alloc, RawLog { entries, ..raw }) {
        Ok(run) => Ok(Ordered { run, places }),
        Err((refusal, breach)) => Err(refusal_as_given(refusal, breach, places.as_slice())),
    }
}

/// What is stuck, with the places at which it was given, and that for which it waits.
fn stuck_given(places: &[usize], stuck: Stuck) -> Stuck
    ensures { result ≡ stuck_given places.now stuck }
{
    let obstacle = match stuck.obstacle {
        Obstacle::Waits(place) => Obstacle::Waits(place_given(places, place)),
        other => other,
    };
    Stuck {
        place: place_given(places, stuck.place),
        obstacle,
        ..stuck
    }
}

/// The fault of a log whose entries were given at these places.
fn fault_given(fault: OrderFault, places: &[usize]) -> OrderFault
    ensures { IsFaultGiven places.now fault result }
{
    match fault {
        OrderFault::NoOrder(found) => {
            let mut named = found;
            for number in 0..named.len() {
                named[number] = stuck_given(places, named[number]);
            }
            OrderFault::NoOrder(named)
        }
        OrderFault::Refused(refusal, breach) => refusal_as_given(refusal, breach, places),
    }
}

/// What `order_log` makes of the log, whose entries were put in another order before: places are those at which they were given then.
pub(crate) fn order_union(alloc: Global, whole: Ordered<RawLog>) -> Result<Ordered<Run>, OrderFault>
    requires { length whole.places.items ≡ length whole.run.entries.items }
    ensures ordered { IfOk result (λ o. IsOrderGiven (parts_of_log whole.run) whole.places.items o.run o.places.items) }
    ensures refused { IfErr result (RefusesGiven (parts_of_log whole.run) whole.places.items) }
{
    let Ordered { run, places: given } = whole;
    match order_log(alloc, run) {
        Ok(Ordered { run, places }) => {
            let places = items_at(alloc, given.as_slice(), places.as_slice())?;
            Ok(Ordered { run, places })
        }
        Err(fault) => Err(fault_given(fault, given.as_slice())),
    }
}
