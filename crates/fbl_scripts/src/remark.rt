//! What a command did beside what its lines say, in words for a person.

use crate::answer::Answer;
use crate::script::Command;
use fbl_group::{CrashRecord, Recovered};
use fbl_threads::{Drained, RecordedDrain};
use fbl_trace::{Determinant, Strike};
use std::fmt;

/// A command's place and words with what it did beside what its lines say, as in `command 7, deliver to 1 from 2: nothing is in
/// flight from 2 to 1`, in a line of its own; nothing where there is no more to say. Before the line of a run each of its crashes
/// has one, as in `command 7, strike [1] at receipt 5: receipts lost 2, replayed 3, undone 2; messages sent again 1`.
#[derive(Clone, Copy)]
pub struct Remark<'a> {
    /// The command's place in its script, from 0.
    pub place: usize,
    pub command: &'a Command,
    pub answer: &'a Answer,
}

impl Remark<'_> {
    /// Whether the lines say all.
    fn is_empty(&self) -> bool {
        match self.answer {
            Answer::Refusal { .. } | Answer::Run { .. } => false,
            Answer::Strike {
                receipts,
                before,
                ..
            } => receipts.is_empty() && *before == 0,
            Answer::Recovery { undone, .. } => undone.is_empty(),
            _ => true,
        }
    }
}

impl fmt::Display for Remark<'_> {
    fn fmt<W: fmt::Write>(&self, f: &mut fmt::Formatter<W>) -> fmt::Result {
        if self.is_empty() {
            return Ok(());
        }
        let place = self.place;
        let command = self.command;
        if let Answer::Run {
            recorded,
            made_before,
            ..
        } = self.answer
        {
            write_crashes(f, place, recorded, *made_before)?;
        }
        write!(f, "command {place}, {command}: ")?;
        write_done(f, command, self.answer)?;
        f.write_str("\n")
    }
}

fn write_done<W: fmt::Write>(
    f: &mut fmt::Formatter<W>,
    command: &Command,
    answer: &Answer,
) -> fmt::Result {
    match answer {
        Answer::Refusal { reason, .. } => write!(f, "{reason}"),
        Answer::Strike {
            receipts,
            before,
            ..
        } => write_lost(f, receipts, *before),
        Answer::Recovery { undone, .. } => write_receipts(f, "undone", undone),
        Answer::Run { .. } => write_run(f, command, answer),
        _ => Ok(()),
    }
}

/// Writes the receipts, as in `lost: receipt 1 of member 2 (send 3 of member 0)`.
fn write_receipts<W: fmt::Write>(
    f: &mut fmt::Formatter<W>,
    head: &str,
    receipts: &[Determinant],
) -> fmt::Result {
    f.write_str(head)?;
    let mut before = ":";
    for receipt in receipts {
        let Determinant { from, ssn, to, rsn } = *receipt;
        write!(
            f,
            "{before} receipt {rsn} of member {to} (send {ssn} of member {from})"
        )?;
        before = ",";
    }
    Ok(())
}

/// Writes the receipts that a strike loses, and how many were lost before it, as in `lost: none; lost before it: 2`.
fn write_lost<W: fmt::Write>(
    f: &mut fmt::Formatter<W>,
    receipts: &[Determinant],
    before: usize,
) -> fmt::Result {
    write_receipts(f, "lost", receipts)?;
    if before == 0 {
        return Ok(());
    }
    if receipts.is_empty() {
        f.write_str(": none")?;
    }
    write!(f, "; lost before it: {before}")
}

/// Writes the entries of the plan whose counts are above the one and not above the other.
fn write_entries<W: fmt::Write>(
    f: &mut fmt::Formatter<W>,
    plan: &[Strike],
    head: &str,
    above: u64,
    up_to: u64,
) -> fmt::Result {
    let mut before = head;
    for (place, strike) in plan.iter().enumerate() {
        let at = strike.at;
        if above < at && at <= up_to {
            write!(f, "{before} {place} at {at}")?;
            before = ",";
        }
    }
    Ok(())
}

/// Writes a line for each crash of a run that began where so many receipts had been made.
fn write_crashes<W: fmt::Write>(
    f: &mut fmt::Formatter<W>,
    place: usize,
    recorded: &RecordedDrain,
    made_before: u64,
) -> fmt::Result {
    let mut at = made_before;
    for turn in &recorded.turns {
        at = at.saturating_add(1);
        if let Some(crash) = &turn.crash {
            let set = crash.set;
            write!(f, "command {place}, strike {set} at receipt {at}: ")?;
            write_crash(f, crash)?;
        }
    }
    Ok(())
}

fn write_crash<W: fmt::Write>(f: &mut fmt::Formatter<W>, crash: &CrashRecord) -> fmt::Result {
    let Some(record) = &crash.recovery else {
        return f.write_str("not recovered\n");
    };
    let lost = record.struck.lost;
    let Recovered {
        replayed,
        resent,
        undone,
    } = record.recovered;
    write!(
        f,
        "receipts lost {lost}, replayed {replayed}, undone {undone}; messages sent again {resent}\n"
    )
}

/// Writes how many receipts a run made and undid, which entries of its plan struck nobody, and what each worker did.
fn write_run<W: fmt::Write>(
    f: &mut fmt::Formatter<W>,
    command: &Command,
    answer: &Answer,
) -> fmt::Result {
    let (
        Command::Run(plan),
        Answer::Run {
            recorded,
            made_before,
            made_after,
            undone_before,
            undone_after,
        },
    ) = (command, answer)
    else {
        return Ok(());
    };
    let made = made_after.saturating_sub(*made_before);
    let undone = undone_after.saturating_sub(*undone_before);
    write!(f, "receipts made {made}, undone {undone}")?;
    let plan = plan.strikes();
    write_entries(f, plan, "; passed before the run: entry", 0, *made_before)?;
    write_entries(f, plan, "; never reached: entry", *made_after, u64::MAX)?;
    write_workers(f, &recorded.drained)
}

fn write_workers<W: fmt::Write>(f: &mut fmt::Formatter<W>, drained: &Drained) -> fmt::Result {
    let undone = drained.undone_by_worker.iter();
    let workers = drained.by_worker.iter().zip(undone);
    for (worker, (made, undone)) in workers.enumerate() {
        write!(f, "; worker {worker} made {made}, undid {undone}")?;
    }
    Ok(())
}
