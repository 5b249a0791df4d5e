//! Files by name: those that are read, and the one that is written. The last gets a whole text or stays as it was: the
//! text goes to a new file beside it, which takes its name once the text is whole.
//!
//! No contract says what a file has, or what the system does with one. So no more is done here than to open, to read and to
//! write, and to settle.

ghost use Rattle.std.specs.Prelude.{IfErr};
ghost use Rattle.fbl_program.specs.Statuses.{IsChannelStatus, IsSettled};

use fbl_input::RunFault;
use fbl_program::{Failure, NOT_WELL, Named, Streams, fail};
use std::alloc::Global;
use std::fs::{self, File, OpenFile, OpenOptions};
use std::io::{self, ErrorKind, Input, Printer, Read, Write};
use std::rt::Files;

/// How many names are tried for the file beside one that is written.
const NAMES: u32 = 100;

/// What an input is read from.
#[derive(Drop)]
pub(crate) enum Source<F, I> {
    File(F),
    Standard(I),
}

impl<F: Read, I: Read> Read for Source<F, I> {
    fn read(&mut self, buf: &mut [u8]) -> io::Result<usize> {
        match self {
            Source::File(file) => file.read(buf),
            Source::Standard(input) => input.read(buf),
        }
    }
}

/// What a text is written to.
#[derive(Drop)]
pub(crate) enum Target<F, P> {
    Standard(P),
    /// What has the name is no file that can be replaced, as a terminal or a pipe: it is written itself.
    Itself(F),
    /// A new file, beside the one with the name.
    Beside(Beside<F>),
}

impl<F: Write, P: Write> Write for Target<F, P> {
    fn write(&mut self, buf: &[u8]) -> io::Result<usize> {
        match self {
            Target::Standard(output) => output.write(buf),
            Target::Itself(file) => file.write(buf),
            Target::Beside(beside) => beside.file.write(buf),
        }
    }

    fn flush(&mut self) -> io::Result<()> {
        match self {
            Target::Standard(output) => output.flush(),
            Target::Itself(file) => file.flush(),
            Target::Beside(beside) => beside.file.flush(),
        }
    }
}

/// A new file that takes the place of another.
#[derive(Drop)]
pub(crate) struct Beside<F> {
    file: F,
    /// Its own name.
    own: String,
    /// The name that it is to have.
    place: String,
}

/// The name of a file that is no standard stream: `-` stands for standard input and output.
fn file_name(name: &str) -> Option<&str> {
    if name == "-" { None } else { Some(name) }
}

/// Prints that a call on the file failed, and answers the exit status of that: lack of memory has its own.
fn fail_on<R: Eprint>(rt: &R, name: &str, error: io::Error, is_read: bool) -> u8
    ensures { IsChannelStatus result }
{
    if error.kind() == ErrorKind::OutOfMemory {
        return fail(rt, RunFault::Memory, None);
    }
    let fault = if is_read {
        RunFault::Read
    } else {
        RunFault::Write
    };
    let failure = Failure {
        name,
        error: Some(error),
    };
    fail(rt, fault, Some(failure))
}

/// A new file beside the one that is to be at the place. It has the first name of some that no file has.
fn open_beside<R: Files>(rt: &R, alloc: Global, place: &str) -> io::Result<Beside<R::File>> {
    for number in 0..NAMES {
        let own = format!(in alloc; "{place}.{number}.part")?;
        let place = String::from_str(alloc, place)?;
        let opened = OpenOptions::new()
            .write(true)
            .create_new(true)
            .open(rt, own.as_str());
        match opened {
            Ok(file) => return Ok(Beside { file, own, place }),
            Err(error) => {
                if error.kind() != ErrorKind::AlreadyExists {
                    return Err(error);
                }
            }
        }
    }
    Err(io::Error::from(ErrorKind::AlreadyExists))
}

/// A new file beside the old one that is open, with its permissions where the system allows it; or the old one itself, where it is
/// no file that can be replaced. Links to the old one lead to the new one then.
fn target_beside<R: Files, P>(
    rt: &R,
    alloc: Global,
    name: &str,
    old: R::File,
) -> io::Result<Target<R::File, P>> {
    let metadata = OpenFile::metadata(&old)?;
    if !metadata.is_file() {
        return Ok(Target::Itself(old));
    }
    let place = rt.canonicalize(alloc, name)?;
    let beside = open_beside(rt, alloc, place.as_str())?;
    let _ = OpenFile::set_permissions(&beside.file, metadata.permissions());
    Ok(Target::Beside(beside))
}

/// What a text for the file with this name is written to. Where there is such a file it has to be one that may be written.
fn target_of<R: Files, P>(rt: &R, alloc: Global, name: &str) -> io::Result<Target<R::File, P>> {
    match OpenOptions::new().write(true).open(rt, name) {
        Ok(old) => target_beside(rt, alloc, name, old),
        Err(error) => {
            if error.kind() == ErrorKind::NotFound {
                return Ok(Target::Beside(open_beside(rt, alloc, name)?));
            }
            Err(error)
        }
    }
}

/// Gives the new file its place, once the system has all its bytes.
fn replace<R: Files>(rt: &R, file: R::File, own: &str, place: &str) -> io::Result<()> {
    OpenFile::sync_all(&file)?;
    drop(file);
    fs::rename(rt, own, place)
}

/// Gives the new file its place where the status is that of a whole text, and else takes it away; so it does where that fails.
/// Answers the exit status.
fn place<T: Eprint + Files>(rt: &T, beside: Beside<T::File>, name: &str, status: u8) -> u8
    ensures { IsSettled status result }
{
    let Beside { file, own, place } = beside;
    if status > NOT_WELL {
        drop(file);
        let _ = fs::remove_file(rt, own.as_str());
        return status;
    }
    match replace(rt, file, own.as_str(), place.as_str()) {
        Ok(()) => status,
        Err(error) => {
            let _ = fs::remove_file(rt, own.as_str());
            fail_on(rt, name, error, false)
        }
    }
}

/// The files of the system, with its standard streams.
#[derive(Drop)]
pub(crate) struct SystemStreams<'r, T> {
    pub(crate) rt: &'r T,
    pub(crate) alloc: Global,
}

impl<'r, T: Eprint + Print + Input + Files> Streams for SystemStreams<'r, T> {
    ghost use Rattle.std.specs.Prelude.{⊤, None};

    type Reader = Source<T::File, <T as Input>::Reader>;

    type Writer = Target<T::File, Printer<'r, T>>;

    // nothing is known of them
    ghost input = { λ _ _. None };

    ghost output = { λ _ _. None };

    ghost settled = { λ _ _ _ _ _. ⊤ };

    fn reader<'a>(&self, name: &'a str) -> Result<Named<'a, Self::Reader>, u8> {
        let Some(path) = file_name(name) else {
            return Ok(Named::new(Source::Standard(self.rt.reader()), None));
        };
        match File::open(self.rt, path) {
            Ok(file) => Ok(Named::new(Source::File(file), Some(path))),
            Err(error) => Err(fail_on(self.rt, path, error, true)),
        }
    }

    fn writer<'a>(&self, name: &'a str) -> Result<Named<'a, Self::Writer>, u8> {
        let Some(path) = file_name(name) else {
            return Ok(Named::new(Target::Standard(io::writer(self.rt)), None));
        };
        match target_of(self.rt, self.alloc, path) {
            Ok(target) => Ok(Named::new(target, Some(path))),
            Err(error) => Err(fail_on(self.rt, path, error, false)),
        }
    }

    fn settle(&self, name: &str, writer: Named<'_, Self::Writer>, status: u8) -> u8
        ensures { IsSettled status result }
    {
        match writer.stream {
            Target::Beside(beside) => place(self.rt, beside, name, status),
            Target::Standard(_) | Target::Itself(_) => status,
        }
    }
}
