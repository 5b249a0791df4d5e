//! In which restarts members forgot a receipt.

ghost use Rattle.std.specs.Prelude.{◌≡◌, ◌<◌, ◌↔◌, true, IfOk, length};
ghost use Rattle.fbl_runs.specs.Clocks.{StandsAt};
ghost use Rattle.fbl_runs.specs.Entries.{log_of};
ghost use Rattle.fbl_runs.specs.HappenedBefore.{Position};
ghost use Rattle.fbl_verdicts.specs.RunExplanations.{AreAllForgotten};
ghost use Rattle.fbl_verdicts.specs.Forgotten.{AreForgotten, HeldBefore, IsForgottenIn};

use fbl_judge::{Pasts, Reason, recorded_at};
use fbl_runs::Clock;
use fbl_trace::Determinant;
use std::alloc::{AllocError, Global};

/// The restarts in which members forgot a receipt that they do not hold at a moment.
#[derive(Drop)]
pub struct Forgotten {
    /// Their places, from 0.
    pub restarts: Vec<usize>,
}

/// Whether the member that restarts at the place held the determinant until then.
fn held_before(pasts: &Pasts<'_>, determinant: &Determinant, restart: usize) -> bool
    requires { restart < length pasts.now.entries }
    ensures { (r : Position) → StandsAt pasts.now.entries restart r
        → (result ≡ true) ↔ HeldBefore (log_of pasts.now.entries) determinant.now r }
{
    let member = pasts.entries()[restart].member();
    let before = Clock::none().reaching(member, pasts.number(restart));
    recorded_at(pasts, determinant, &before).holders.has(member)
}

/// Whether the restart at the place has come at the moment of the reason, and its member forgot the receipt in it, and does not hold it
/// there.
fn is_forgotten_in(pasts: &Pasts<'_>, reason: &Reason, restart: usize) -> bool
    requires { restart < length pasts.now.entries }
    ensures { (r : Position) → StandsAt pasts.now.entries restart r
        → (result ≡ true) ↔ IsForgottenIn (log_of pasts.now.entries) reason.now r }
{
    let member = pasts.entries()[restart].member();
    let come = reason.cut[member.number() as usize];
    if come <= pasts.number(restart) || reason.holders.has(member) {
        return false;
    }
    held_before(pasts, &reason.determinant, restart)
}

/// The restarts that have come at the moment of the reason and in which members forgot the receipt, and do not hold it there.
fn forgotten_of(alloc: Global, pasts: &Pasts<'_>, reason: &Reason) -> Result<Forgotten, AllocError>
    ensures { IfOk result (λ forgotten. AreForgotten pasts.now.entries reason.now forgotten.restarts.items) }
{
    let all = pasts.restarts();
    let mut restarts = Vec::new(alloc);
    for restart in all {
        if is_forgotten_in(pasts, reason, *restart) {
            restarts.push(*restart)?;
        }
    }
    Ok(Forgotten { restarts })
}

/// The same of each of these reasons, in their order.
pub(crate) fn all_forgotten(
    alloc: Global,
    pasts: &Pasts<'_>,
    reasons: &[Reason],
) -> Result<Vec<Forgotten>, AllocError>
    ensures { IfOk result (λ v. AreAllForgotten pasts.now.entries reasons.now v.items) }
{
    let mut all = Vec::new(alloc);
    for reason in reasons {
        all.push(forgotten_of(alloc, pasts, reason)?)?;
    }
    Ok(all)
}
