//! The audit of a recorded trace: which receipts no member outside the strike set holds (the lost ones), and which members
//! outside it depend on one (the orphans).
//!
//! The answers are exact for every dump that obeys the rules, whether or not a group made it. Lost receipts and orphans
//! are those of Alvisi and Marzullo (1998): a receipt is recorded while a member outside the strike set holds its
//! determinant.

ghost use Rattle.std.specs.Prelude.{◌≡◌, ◌↔◌, ℕ, true, IfOk};
ghost use Rattle.std.specs.FinSet as set;
ghost use Rattle.fbl_trace.specs.Losses.{IsDumpOrphan, lost_determinants};
ghost use Rattle.fbl_base.specs.DumpRuns.{DumpLaw, determinants};

use fbl_judge::Pasts;
pub use fbl_judge::{Audit, LostReceipt};
use fbl_runs::Run;
pub use fbl_trace::{Dump, check_dump, checked_dump};
use fbl_trace::{Determinant, MemberSet};
use std::alloc::{AllocError, Global};

/// The audit of the dump: its lost receipts, in the order of the events, and the orphans. The time taken is linear in the events and the
/// held pairs. `Err` comes only where there is no memory for the indexes or for the answer.
pub fn audit_of(alloc: Global, dump: &Dump) -> Result<Audit, AllocError>
    ensures lost { IfOk result (λ audit. determinants audit.lost.items ≡ lost_determinants dump.now) }
    ensures orphans { IfOk result (λ audit. (q : ℕ) → (set.contains audit.orphans q ≡ true) ↔ IsDumpOrphan dump.now q) }
{
    // the dump obeys its rules
    let _events = dump.events();
    let run = Run::of_dump(alloc, dump)?;
    let pasts = Pasts::of(alloc, &run)?;
    fbl_judge::audit_of(alloc, &pasts)
}

/// The determinants of the receipts that no member outside the strike set holds, in the order of the
/// events. The time taken is linear in the events and the held pairs, on every dump, whether or not a group made it.
/// `Err` comes only where there is no memory for the indexes or for the answer.
pub fn lost(alloc: Global, dump: &Dump) -> Result<Vec<Determinant>, AllocError>
    ensures { IfOk result (λ v. v.items ≡ lost_determinants dump.now) }
{
    let audit = audit_of(alloc, dump)?;
    let mut lost = Vec::new(alloc);
    for receipt in audit.lost.iter() {
        lost.push(receipt.determinant)?;
    }
    Ok(lost)
}

/// The members outside the strike set that depend on a receipt whose determinant no such member
/// holds. The time taken is linear in the events and the held pairs, on every dump, whether or not a group made it.
/// `Err` comes only where there is no memory for the indexes.
pub fn orphans(alloc: Global, dump: &Dump) -> Result<MemberSet, AllocError>
    ensures { IfOk result (λ s. (q : ℕ) → (set.contains s q ≡ true) ↔ IsDumpOrphan dump.now q) }
{
    let audit = audit_of(alloc, dump)?;
    Ok(audit.orphans)
}

/// A dump, which is judged as the run that it records, is safe exactly where none has an orphan of those that have in place of its strike
/// set the members that may be lost.
pub fn dump_law()
    ensures { DumpLaw }
{}
