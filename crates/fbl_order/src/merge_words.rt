//! What is told of files that record no run together: the line of the fault, and its explanation.

ghost use Rattle.std.specs.Prelude.{◌≡◌, [], IfOk, length, map};
ghost use Rattle.fbl_order.specs.Recordings.{lengths_of};

use crate::fault::{Obstacle, OrderFault, Stuck};
use crate::files::{FilesDiffer, first_outsider};
use crate::recordings::{MergeFault, Recordings};
use fbl_runs::{InFile, LogBreach, RawLog, Sources, Spot};
use fbl_trace::{Breach, DumpRefusal, MemberSet, PairFault, RawDump};
use std::alloc::{AllocError, Global};
use std::fmt;

/// What is told of files that are merged: their names, if they are several, how many events and held pairs each has, and whom it
/// strikes.
#[derive(Drop)]
pub struct InputFiles<'a> {
    /// The names of the files, if they are several.
    pub names: &'a [&'a str],
    /// How many events, or entries of a log, each has.
    pub events: Vec<usize>,
    held: Vec<usize>,
    strikes: Vec<MemberSet>,
}

/// A place in a file, as an explanation has it: `3 of "a.json"`.
#[derive(Clone, Copy)]
struct Place<'a>(Spot<'a>);

impl fmt::Display for Place<'_> {
    fn fmt<W: fmt::Write>(&self, f: &mut fmt::Formatter<W>) -> fmt::Result {
        let Spot { place, file } = self.0;
        match file.name {
            Some(name) => write!(f, "{place} of {name:?}"),
            None => write!(f, "{place}"),
        }
    }
}

impl<'a> InputFiles<'a> {
    /// Files with these names, of which no more is told.
    pub fn named(alloc: Global, names: &'a [&'a str]) -> InputFiles<'a>
        ensures names { result.names.now ≡ names.now }
        ensures none { result.events.items ≡ [] }
    {
        InputFiles {
            names,
            events: Vec::new(alloc),
            held: Vec::new(alloc),
            strikes: Vec::new(alloc),
        }
    }

    /// Files with these names, or with none where there is one, that record these dumps.
    fn of_dumps(
        alloc: Global,
        names: &'a [&'a str],
        dumps: &[RawDump],
    ) -> Result<InputFiles<'a>, AllocError>
        ensures names { IfOk result (λ files. files.names.now ≡ names.now) }
        ensures lengths { IfOk result (λ files. files.events.items ≡ map (λ dump. length dump.events.items) dumps.now) }
    {
        let mut files = InputFiles::named(alloc, names);
        for dump in dumps.iter() {
            files.events.push(dump.events.len())?;
            files.held.push(dump.held.len())?;
            files.strikes.push(dump.strike)?;
        }
        Ok(files)
    }

    /// Files with these names, or with none where there is one, that record these logs.
    fn of_logs(
        alloc: Global,
        names: &'a [&'a str],
        logs: &[RawLog],
    ) -> Result<InputFiles<'a>, AllocError>
        ensures names { IfOk result (λ files. files.names.now ≡ names.now) }
        ensures lengths { IfOk result (λ files. files.events.items ≡ map (λ log. length log.entries.items) logs.now) }
    {
        let mut files = InputFiles::named(alloc, names);
        for log in logs.iter() {
            files.events.push(log.entries.len())?;
            files.strikes.push(log.strike)?;
        }
        Ok(files)
    }

    /// Files with these names, or with none where there is one, that record this.
    pub fn of(
        alloc: Global,
        names: &'a [&'a str],
        recordings: &Recordings,
    ) -> Result<InputFiles<'a>, AllocError>
        ensures names { IfOk result (λ files. files.names.now ≡ names.now) }
        ensures lengths { IfOk result (λ files. files.events.items ≡ lengths_of recordings.now) }
    {
        match recordings {
            Recordings::Dumps(dumps) => InputFiles::of_dumps(alloc, names, dumps.as_slice()),
            Recordings::Logs(logs) => InputFiles::of_logs(alloc, names, logs.as_slice()),
        }
    }

    /// The files of a run whose events were given at these places.
    pub fn sources<'b>(&'b self, places: &'b [usize]) -> Sources<'b>
        ensures names { result.names.now ≡ self.now.names.now }
        ensures lengths { result.lengths.now ≡ self.now.events.items }
        ensures places { result.places.now ≡ places.now }
    {
        Sources {
            names: self.names,
            lengths: self.events.as_slice(),
            places,
        }
    }

    /// The name of the file with this number, where there are several.
    fn name(&self, file: usize) -> Option<&'a str> {
        self.names.get(file).copied()
    }

    /// Where a place of all these lists, one behind another, stands in its own file.
    fn spot<'b>(&'b self, lengths: &'b [usize], place: usize) -> Spot<'b> {
        let sources = Sources {
            names: self.names,
            lengths,
            places: &[],
        };
        sources.spot(place)
    }

    /// Where an event of all stands in its own file.
    fn event(&self, place: usize) -> Spot<'_> {
        self.spot(self.events.as_slice(), place)
    }

    /// Where a held pair of all stands in its own file.
    fn pair(&self, place: usize) -> Spot<'_> {
        self.spot(self.held.as_slice(), place)
    }

    /// The first file that strikes a member outside the group, where there are several and this is the breach.
    fn striking(&self, breach: LogBreach) -> InFile<'a> {
        let outsider = match breach {
            LogBreach::Trace(Breach::Strike(outsider)) => {
                first_outsider(self.strikes.as_slice(), outsider.members)
            }
            _ => None,
        };
        let name = outsider.and_then(|(file, _)| self.name(file));
        InFile { name }
    }

    /// The first name that stands behind the same name.
    fn repeated(&self) -> Option<&'a str> {
        for (file, name) in self.names.iter().enumerate() {
            if self.names[..file].contains(name) {
                return Some(*name);
            }
        }
        None
    }
}

/// The line of a fault.
#[derive(Clone, Copy)]
pub struct MergeLine<'a> {
    pub fault: &'a MergeFault,
    pub files: &'a InputFiles<'a>,
}

impl MergeLine<'_> {
    /// Writes that the event at the place is bad.
    fn write_event<W: fmt::Write>(&self, f: &mut fmt::Formatter<W>, place: usize) -> fmt::Result {
        let spot = self.files.event(place);
        write!(f, "BadEvent {spot}")
    }

    /// Writes the refusal of what the files have together.
    fn write_refusal<W: fmt::Write>(
        &self,
        f: &mut fmt::Formatter<W>,
        refusal: DumpRefusal,
        breach: LogBreach,
    ) -> fmt::Result {
        match refusal {
            DumpRefusal::BadEvent(place) => self.write_event(f, place),
            DumpRefusal::BadHeld(place) => {
                let spot = self.files.pair(place);
                write!(f, "BadHeld {spot}")
            }
            DumpRefusal::Memory => f.write_str("memory"),
            _ => {
                let file = self.files.striking(breach);
                write!(f, "{refusal}{file}")
            }
        }
    }
}

impl fmt::Display for MergeLine<'_> {
    fn fmt<W: fmt::Write>(&self, f: &mut fmt::Formatter<W>) -> fmt::Result {
        f.write_str("fault: ")?;
        match self.fault {
            MergeFault::LogAmongDumps(file)
            | MergeFault::DumpAmongLogs(file)
            | MergeFault::Files(FilesDiffer::Members { file, .. } | FilesDiffer::F { file, .. }) =>
                {
                    let name = self.files.name(*file).unwrap_or("-");
                    write!(f, "BadParts {name:?}")
                }
            MergeFault::Files(FilesDiffer::Memory) => f.write_str("memory"),
            MergeFault::Order(OrderFault::NoOrder(chain)) => {
                let place = chain.first().map_or(0, |stuck| stuck.place);
                self.write_event(f, place)
            }
            MergeFault::Order(OrderFault::Refused(refusal, breach)) => {
                self.write_refusal(f, *refusal, *breach)
            }
        }
    }
}

/// The fault in words for a person.
#[derive(Clone, Copy)]
pub struct MergeExplanation<'a> {
    pub fault: &'a MergeFault,
    pub files: &'a InputFiles<'a>,
}

impl MergeExplanation<'_> {
    /// Writes what two files have at a key.
    fn write_values<W: fmt::Write, V: fmt::Display + Copy>(
        &self,
        f: &mut fmt::Formatter<W>,
        key: &str,
        file: usize,
        first: V,
        other: V,
    ) -> fmt::Result {
        let name = self.files.name(file).unwrap_or("-");
        let first_name = self.files.name(0).unwrap_or("-");
        write!(
            f,
            "{key} is {other} in {name:?}, and {first} in {first_name:?}"
        )
    }

    /// Writes why an entry comes in no order.
    fn write_obstacle<W: fmt::Write>(
        &self,
        f: &mut fmt::Formatter<W>,
        obstacle: Obstacle,
    ) -> fmt::Result {
        match obstacle {
            Obstacle::Waits(place) => {
                let spot = Place(self.files.event(place));
                write!(f, "its message is sent no earlier than event {spot}")
            }
            _ => write!(f, "{obstacle}"),
        }
    }

    /// Writes of the entry, or of each in a circle, why it comes in no order.
    fn write_chain<W: fmt::Write>(
        &self,
        f: &mut fmt::Formatter<W>,
        chain: &[Stuck],
    ) -> fmt::Result {
        for (number, stuck) in chain.iter().enumerate() {
            let spot = Place(self.files.event(stuck.place));
            let entry = stuck.entry;
            if number == 0 {
                write!(f, "event {spot} is {entry}, and comes in no order: ")?;
            } else {
                write!(f, "; event {spot}, {entry}, comes in none either: ")?;
            }
            self.write_obstacle(f, stuck.obstacle)?;
        }
        if chain.len() > 1 {
            f.write_str(", and so each of them waits for another")?;
        }
        Ok(())
    }

    /// Writes which rule the entry at the place breaks.
    fn write_broken<W: fmt::Write, E: fmt::Display + Copy, R: fmt::Display + Copy>(
        &self,
        f: &mut fmt::Formatter<W>,
        place: usize,
        entry: E,
        rule: R,
    ) -> fmt::Result {
        let spot = Place(self.files.event(place));
        write!(f, "event {spot} is {entry}, and {rule}")
    }

    /// Writes which rule the held pair breaks.
    fn write_pair<W: fmt::Write>(
        &self,
        f: &mut fmt::Formatter<W>,
        fault: PairFault,
    ) -> fmt::Result {
        let spot = Place(self.files.pair(fault.place));
        let holder = fault.holder;
        let determinant = fault.determinant;
        let rule = fault.rule;
        let (from, ssn) = (determinant.from, determinant.ssn);
        let (to, rsn) = (determinant.to, determinant.rsn);
        write!(
            f,
            "held pair {spot} is [{holder},{from},{ssn},{to},{rsn}], and {rule}"
        )
    }

    /// Writes which rule what the files have together breaks.
    fn write_breach<W: fmt::Write>(
        &self,
        f: &mut fmt::Formatter<W>,
        breach: LogBreach,
    ) -> fmt::Result {
        match breach {
            LogBreach::Trace(Breach::Event(fault)) => {
                self.write_broken(f, fault.place, fault.event, fault.rule)
            }
            LogBreach::Control(fault) => {
                self.write_broken(f, fault.place, fault.entry, fault.rule)
            }
            LogBreach::Life(fault) => { self.write_broken(f, fault.place, fault.entry, fault.rule) }
            LogBreach::Record(fault) => {
                self.write_broken(f, fault.place, fault.entry, fault.rule)
            }
            LogBreach::Trace(Breach::Held(fault)) => self.write_pair(f, fault),
            LogBreach::Trace(Breach::Strike(least)) => {
                let strikes = self.files.strikes.as_slice();
                let outsider = first_outsider(strikes, least.members).map_or(
                    least,
                    |found| found.1,
                );
                write!(f, "{}", Breach::Strike(outsider))
            }
            _ => write!(f, "{breach}"),
        }
    }

    /// Writes which of the files is named more than once, if one is.
    fn write_repeated<W: fmt::Write>(&self, f: &mut fmt::Formatter<W>) -> fmt::Result {
        match self.files.repeated() {
            Some(name) => write!(f, "; {name:?} is named more than once"),
            None => Ok(()),
        }
    }
}

impl fmt::Display for MergeExplanation<'_> {
    fn fmt<W: fmt::Write>(&self, f: &mut fmt::Formatter<W>) -> fmt::Result {
        match self.fault {
            MergeFault::LogAmongDumps(file) => {
                self.write_values(f, "version", *file, "missing", "2")
            }
            MergeFault::DumpAmongLogs(file) => {
                self.write_values(f, "version", *file, "2", "missing")
            }
            MergeFault::Files(FilesDiffer::Members { file, first, other }) => {
                self.write_values(f, "members", *file, *first, *other)
            }
            MergeFault::Files(FilesDiffer::F { file, first, other }) => {
                self.write_values(f, "f", *file, *first, *other)
            }
            MergeFault::Files(FilesDiffer::Memory) => f.write_str("out of memory"),
            MergeFault::Order(OrderFault::NoOrder(chain)) => {
                self.write_chain(f, chain.as_slice())?;
                self.write_repeated(f)
            }
            MergeFault::Order(OrderFault::Refused(_, breach)) => {
                self.write_breach(f, *breach)?;
                self.write_repeated(f)
            }
        }
    }
}
