//! Streams that are files with names, or standard input and output.

use std::io::{self, Read, Write};

/// What is read and written by name. `-` names standard input and output.
///
/// No contract says what a file has. `input` and `output` say what a value of this type knows of a file's bytes, as a reader or a
/// writer says what it knows of its own; `settled` says what came of a file that was written. A program that knows no more of them
/// can have the bytes of a file only by a call of `reader`, and an end of what it wrote only by a call of `settle`.
pub trait Streams {
    ghost use Rattle.std.specs.Prelude.{◌≡◌, ℕ, List, Option, IfErr, IfOk};
    ghost use Rattle.fbl_program.specs.Statuses.{IsChannelStatus, IsSettled};

    type Reader: Read + Drop;

    type Writer: Write;

    // what the file with a name has
    ghost input: { Self → List ℕ → Option (List ℕ) };

    // what a writer of the file with a name has before it is written
    ghost output: { Self → List ℕ → Option (List ℕ) };

    // what comes of the file with a name where its writer has this and the work ended with this exit status, with the exit status
    // that is answered for both
    ghost settled: { Self → List ℕ → Option (List ℕ) → ℕ → ℕ → Type 0 };

    /// A reader of the file with this name. Where there is none that is told, and this is the exit status.
    fn reader<'a>(&self, name: &'a str) -> Result<Named<'a, Self::Reader>, u8>
        ensures opened { IfOk result (λ r. Self.Reader.remaining r.stream ≡ input self.now name.now) }
        ensures refused { IfErr result IsChannelStatus };

    /// A writer of the file with this name. Where there is none that is told, and this is the exit status.
    fn writer<'a>(&self, name: &'a str) -> Result<Named<'a, Self::Writer>, u8>
        ensures opened { IfOk result (λ w. Self.Writer.contents w.stream ≡ output self.now name.now) }
        ensures refused { IfErr result IsChannelStatus };

    /// Ends the writing of the file with this name, where this is the exit status of the work. A failure is told. Answers the exit
    /// status.
    fn settle(&self, name: &str, writer: Named<'_, Self::Writer>, status: u8) -> u8
        ensures left { settled self.now name.now (Self.Writer.contents writer.entry.stream) status result }
        ensures status { IsSettled status result };
}

/// A stream, which is a file with a name or is standard input or output. It keeps why a call failed, for the line of the fault.
#[derive(Drop)]
pub struct Named<'a, S> {
    pub stream: S,
    name: Option<&'a str>,
    /// Why the last call that failed did so.
    error: Option<io::Error>,
}

/// Which file a read or a write failed on, and why, if the system said so.
#[derive(Clone, Copy)]
pub struct Failure<'a> {
    pub name: &'a str,
    pub error: Option<io::Error>,
}

impl<'a, S> Named<'a, S> {
    /// A file with this name, or a standard stream.
    pub fn new(stream: S, name: Option<&'a str>) -> Named<'a, S> {
        Named {
            stream,
            name,
            error: None,
        }
    }

    /// What is known of a call that failed, if this is a file with a name.
    pub fn failure(&self) -> Option<Failure<'a>> {
        let name = self.name?;
        Some(Failure {
            name,
            error: self.error,
        })
    }
}

impl<R: Read> Read for Named<'_, R> {
    ghost remaining = { λ s. R.remaining s.stream };

    fn read(&mut self, buf: &mut [u8]) -> io::Result<usize> {
        match self.stream.read(buf) {
            Ok(n) => Ok(n),
            Err(error) => {
                self.error = Some(error);
                Err(error)
            }
        }
    }
}

impl<W: Write> Write for Named<'_, W> {
    ghost contents = { λ s. W.contents s.stream };

    fn write(&mut self, buf: &[u8]) -> io::Result<usize> {
        match self.stream.write(buf) {
            Ok(n) => Ok(n),
            Err(error) => {
                self.error = Some(error);
                Err(error)
            }
        }
    }

    fn flush(&mut self) -> io::Result<()> {
        self.stream.flush()
    }
}
