//! What is told beside an audit or a check of a run, in words for a person: why receipts are lost, unsafe or undone.

ghost use Rattle.std.specs.Prelude.{◌≡◌, IfOk};
ghost use Rattle.fbl_judge.specs.Audits.{AreNamed};
ghost use Rattle.fbl_verdicts.specs.RunExplanations.{ExplainsCheck, ExplainsLosses};
ghost use Rattle.fbl_verdicts.specs.Texts.{IsChecked};

use crate::check_text::Checked;
use crate::forgotten::{Forgotten, all_forgotten};
use crate::overview::{Overview, OverviewLine};
use crate::reason_text::Why;
use crate::undone_text::{UndoneReason, WhyUndone, undone_reasons};
use fbl_judge::{LostReceipt, Pasts, Reason, loss_reasons, unsafe_reasons};
use fbl_runs::{Run, Sources};
use std::alloc::{AllocError, Global};
use std::fmt;

/// What is told beside an audit or a check. Its text is a line for each reason and for each path, behind that of the overview.
#[derive(Drop)]
pub struct RunExplanation<'a> {
    /// The run.
    pub run: &'a Run,
    /// Where its entries stand.
    pub sources: Sources<'a>,
    /// What is told first, of the check of a run with restarts.
    pub overview: Option<Overview>,
    /// Why receipts are lost or unsafe.
    pub reasons: Vec<Reason>,
    /// In which restarts members forgot each of these receipts.
    pub forgotten: Vec<Forgotten>,
    /// Why restarts undid receipts and left orphans of them.
    pub undone: Vec<UndoneReason>,
}

impl<'a> RunExplanation<'a> {
    /// Why these receipts are lost. `Err` comes only where there is no memory for it.
    pub fn of_losses(
        alloc: Global,
        pasts: &Pasts<'a>,
        sources: &Sources<'a>,
        lost: &[LostReceipt],
    ) -> Result<RunExplanation<'a>, AllocError>
        requires { AreNamed pasts.now lost.now }
        ensures { IfOk result (ExplainsLosses pasts.now sources.now lost.now) }
    {
        let reasons = loss_reasons(alloc, pasts, lost)?;
        let forgotten = all_forgotten(alloc, pasts, reasons.as_slice())?;
        Ok(RunExplanation {
            run: pasts.run(),
            sources: *sources,
            overview: None,
            reasons,
            forgotten,
            undone: Vec::new(alloc),
        })
    }

    /// Why a check says what it says. `Err` comes only where there is no memory for it.
    pub fn of_check(
        alloc: Global,
        pasts: &Pasts<'a>,
        sources: &Sources<'a>,
        checked: &Checked,
    ) -> Result<RunExplanation<'a>, AllocError>
        requires { IsChecked pasts.now checked.now }
        ensures { IfOk result (ExplainsCheck pasts.now sources.now checked.now) }
    {
        let reasons = unsafe_reasons(alloc, pasts, checked.unsafe_receipts.as_slice())?;
        let forgotten = all_forgotten(alloc, pasts, reasons.as_slice())?;
        Ok(RunExplanation {
            run: pasts.run(),
            sources: *sources,
            overview: Overview::of(alloc, pasts, checked)?,
            reasons,
            forgotten,
            undone: undone_reasons(alloc, pasts, checked.undone_receipts.as_slice())?,
        })
    }
}

impl fmt::Display for RunExplanation<'_> {
    fn fmt<W: fmt::Write>(&self, f: &mut fmt::Formatter<W>) -> fmt::Result {
        let (run, sources) = (self.run, self.sources);
        if let Some(overview) = &self.overview {
            OverviewLine {
                overview,
                run,
                sources,
            }
            .fmt(f)?;
        }
        Why {
            run,
            sources,
            reasons: self.reasons.as_slice(),
            forgotten: self.forgotten.as_slice(),
        }
        .fmt(f)?;
        WhyUndone {
            run,
            sources,
            reasons: self.undone.as_slice(),
        }
        .fmt(f)
    }
}
