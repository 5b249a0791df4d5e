//! Why receipts are lost, or could be, in words for a person: who holds them, who held them until a restart, when the others would have
//! learned of them, and by which paths members that are left depend on them.

use crate::forgotten::Forgotten;
use fbl_judge::{OrphanPath, Reason};
use fbl_runs::{Entry, Run, Sources};
use fbl_trace::{Determinant, Mark};
use std::fmt;

/// The reasons of receipts of a run, a line for each and for each path.
#[derive(Clone, Copy)]
pub(crate) struct Why<'a> {
    pub run: &'a Run,
    /// Where its entries stand.
    pub sources: Sources<'a>,
    pub reasons: &'a [Reason],
    /// In which restarts members forgot each receipt.
    pub forgotten: &'a [Forgotten],
}

/// Writes an event of a path, behind this.
fn write_step<W: fmt::Write>(f: &mut fmt::Formatter<W>, before: &str, event: &Mark) -> fmt::Result {
    match event {
        Mark::Send { from, ssn, .. } => write!(f, "{before} send {ssn} of member {from}"),
        Mark::Receipt { to, rsn, .. } => write!(f, "{before} receipt {rsn} of member {to}"),
    }
}

/// Writes who holds the receipt, and when, where that is a moment before the end.
fn write_holders<W: fmt::Write>(f: &mut fmt::Formatter<W>, reason: &Reason) -> fmt::Result {
    let Determinant { from, ssn, to, rsn } = reason.determinant;
    let holders = reason.holders;
    let strike = reason.strike;
    let when = if reason.at.is_some() { " then" } else { "" };
    write!(f, "determinant {from} {ssn} {to} {rsn} is held by ")?;
    if holders.is_empty() {
        write!(f, "nobody{when}")
    } else {
        write!(f, "{holders}{when}, and a strike of {strike} loses it")
    }
}

/// Writes the orphan, and the events of the path to it, as in `orphan 2 depends on it: receipt 1 of member 1, send 1 of member 1`.
pub(crate) fn write_path<W: fmt::Write>(
    f: &mut fmt::Formatter<W>,
    run: &Run,
    path: &OrphanPath,
) -> fmt::Result {
    let orphan = path.orphan;
    write!(f, "orphan {orphan} depends on it")?;
    let mut before = ":";
    for place in &path.places {
        let entry = run.entries().get(*place).copied();
        if let Some(event) = entry.and_then(Entry::event) {
            write_step(f, before, &event)?;
        }
        before = ",";
    }
    f.write_str("\n")
}

impl Why<'_> {
    /// Writes who comes to know of a receipt at this place.
    fn write_next<W: fmt::Write>(
        &self,
        f: &mut fmt::Formatter<W>,
        next: Option<usize>,
    ) -> fmt::Result {
        let Some(place) = next else {
            return f.write_str("; nobody holds or stores it later");
        };
        let spot = self.sources.spot(place);
        match self.run.entries().get(place) {
            Some(Entry::Hold { holder, .. }) => {
                write!(f, "; the next to hold it is {holder}, at {spot}")
            }
            Some(Entry::Store { member, .. }) => {
                write!(f, "; it is stored by {member} at {spot}")
            }
            _ => Ok(()),
        }
    }

    /// Writes in which restarts members forgot the receipt.
    fn write_forgotten<W: fmt::Write>(
        &self,
        f: &mut fmt::Formatter<W>,
        forgotten: &Forgotten,
    ) -> fmt::Result {
        for restart in &forgotten.restarts {
            if let Some(entry) = self.run.entries().get(*restart) {
                let member = entry.member();
                let spot = self.sources.spot(*restart);
                write!(f, "; {member} held it until it restarted, at {spot}")?;
            }
        }
        Ok(())
    }

    fn write_reason<W: fmt::Write>(
        &self,
        f: &mut fmt::Formatter<W>,
        reason: &Reason,
        forgotten: Option<&Forgotten>,
    ) -> fmt::Result {
        write_holders(f, reason)?;
        if let Some(forgotten) = forgotten {
            self.write_forgotten(f, forgotten)?;
        }
        if reason.at.is_some() {
            self.write_next(f, reason.next)?;
        } else if reason.paths.is_empty() {
            f.write_str("; nobody else depends on it")?;
        }
        f.write_str("\n")?;
        for path in &reason.paths {
            write_path(f, self.run, path)?;
        }
        Ok(())
    }
}

impl fmt::Display for Why<'_> {
    fn fmt<W: fmt::Write>(&self, f: &mut fmt::Formatter<W>) -> fmt::Result {
        for (number, reason) in self.reasons.iter().enumerate() {
            self.write_reason(f, reason, self.forgotten.get(number))?;
        }
        Ok(())
    }
}
