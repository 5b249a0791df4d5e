//! Plans of strikes.

ghost use Rattle.std.specs.Prelude.{◌≡◌, ◌<◌, MatchOption};
ghost use Rattle.fbl_trace.specs.Breaches.{BreaksEntry, IsFirstBad, IsPlan, IsPlanFault, MayBeStruck};

use crate::config::Config;
use crate::content::Content;
use crate::fault::{EntryRule, PlanFault};
use crate::limits::MOST_STRIKES;
use crate::strike::Strike;

/// The first entry of the plan that breaks a rule in a group of this configuration, and the first rule that it breaks.
pub fn plan_fault<N: Content>(plan: &[Strike], config: &Config<N>) -> Option<PlanFault>
    ensures { MatchOption result (IsPlan plan.now config.now) (IsPlanFault plan.now config.now) }
{
    let mut before = 0u64;
    for (place, entry) in plan.iter().enumerate() {
        if let Some(rule) = broken_rule(config, place, before, *entry) {
            return Some(PlanFault {
                place,
                entry: *entry,
                rule,
            });
        }
        before = entry.at;
    }
    None
}

/// The place of the first entry of the plan that breaks a rule in a group of this configuration.
pub fn first_bad_entry<N: Content>(plan: &[Strike], config: &Config<N>) -> Option<usize>
    ensures { MatchOption result (IsPlan plan.now config.now) (IsFirstBad plan.now config.now) }
{
    match plan_fault(plan, config) {
        Some(PlanFault { place, .. }) => Some(place),
        None => None,
    }
}

/// The first rule that the entry at the place breaks behind one that comes at the number `before`.
fn broken_rule<N: Content>(
    config: &Config<N>,
    place: usize,
    before: u64,
    entry: Strike,
) -> Option<EntryRule>
    ensures { MatchOption result
        ((place < 64) × (before < entry.at) × MayBeStruck config.now entry.set)
        (BreaksEntry config.now place before entry) }
{
    if place >= MOST_STRIKES {
        return Some(EntryRule::TooMany);
    }
    if entry.at <= before {
        return Some(EntryRule::NotLater(before));
    }
    if entry.set.is_empty() {
        return Some(EntryRule::Nobody);
    }
    if entry.set.count() > u32::from(config.f()) {
        return Some(EntryRule::TooManyMembers(config.f()));
    }
    let outsider = entry.set.outsider(config.members())?;
    Some(EntryRule::Outside(outsider))
}
