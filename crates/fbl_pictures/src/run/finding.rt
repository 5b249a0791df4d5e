//! What is found of a run and shown in its picture: who is lost, who is left as an orphan, of which receipts, and where.

ghost use Rattle.std.specs.Prelude.{◌≡◌, ◌<◌, ◌≤◌, ℕ, length};
ghost use Rattle.fbl_runs.specs.Clocks.{cut_of};
ghost use Rattle.fbl_runs.specs.Entries.{log_of};
ghost use Rattle.fbl_judge.specs.Audits.{AreNamed};
ghost use Rattle.fbl_pictures.specs.RunShapes.{AreLines, IsCause, IsMomentLine, IsStart};
ghost use Rattle.fbl_pictures.specs.Columns.{column_in};

use crate::run::columns::Columns;
use crate::run::crossings::moment_columns;
use crate::run::members::Lines;
use fbl_judge::{LostReceipt, Pasts, first_cause, first_on_any};
use fbl_runs::Clock;
use fbl_trace::{Member, MemberSet};

/// What is found of a run.
#[derive(Clone, Copy)]
pub(crate) struct Finding<'a> {
    /// The members that are lost.
    pub(crate) strike: MemberSet,
    /// The members that are left as orphans.
    pub(crate) orphans: MemberSet,
    /// The receipts of which they are orphans.
    pub(crate) receipts: &'a [LostReceipt],
    /// The place of the entry by which the moment is named, or none at the run's end.
    pub(crate) at: Option<usize>,
    /// The moment.
    pub(crate) moment: Clock,
}

impl Finding<'_> {
    /// The place of the entry at which the member starts to be an orphan, if it is one.
    fn start(&self, pasts: &Pasts<'_>, member: Member) -> Option<usize>
        requires { AreNamed pasts.now self.now.receipts.now }
        ensures { IsStart pasts.now self.now member result }
    {
        if !self.orphans.has(member) {
            return None;
        }
        first_on_any(pasts, self.receipts, member, &self.moment)
    }

    /// The receipt from which a path to the member is drawn, if it is an orphan: the first one on which it depends.
    pub(crate) fn cause(&self, pasts: &Pasts<'_>, member: Member) -> Option<LostReceipt>
        requires { AreNamed pasts.now self.now.receipts.now }
        ensures { IsCause pasts.now self.now member result }
    {
        if !self.orphans.has(member) {
            return None;
        }
        first_cause(pasts, self.receipts, member, &self.moment)
    }

    /// The columns at which orphans start.
    fn starts(&self, pasts: &Pasts<'_>) -> Columns
        requires { AreNamed pasts.now self.now.receipts.now }
        ensures { (q : ℕ) → q < 16 → IsStart pasts.now self.now q (column_in result q) }
    {
        let mut starts = Columns::none();
        for number in 0..16u8 {
            let member = Member::at(number);
            starts.put(member, self.start(pasts, member));
        }
        starts
    }

    /// The columns before which the moment is, unless it is the run's end.
    fn moment_line(&self, pasts: &Pasts<'_>) -> Columns
        requires { (q : ℕ) → cut_of self.now.moment q ≤ length (log_of pasts.now.entries q) }
        ensures { IsMomentLine pasts.now self.now.at (cut_of self.now.moment) result }
    {
        match self.at {
            Some(_) => moment_columns(pasts.run().members(), pasts.entries(), &self.moment),
            None => Columns::none(),
        }
    }

    /// How the members' lines are drawn.
    pub(crate) fn lines(&self, pasts: &Pasts<'_>) -> Lines
        requires named { AreNamed pasts.now self.now.receipts.now }
        requires within { (q : ℕ) → cut_of self.now.moment q ≤ length (log_of pasts.now.entries q) }
        ensures { AreLines pasts.now self.now result }
    {
        Lines {
            struck: self.strike,
            starts: self.starts(pasts),
            moment: self.moment_line(pasts),
        }
    }
}
