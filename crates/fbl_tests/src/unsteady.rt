//! A reader and a writer that fail.

use std::alloc::Global;
use std::io::{self, ErrorKind, Read, Write};

/// Gives `rest`, at most `most` bytes a read. The first `interruptions` reads are interrupted, and the one with the
/// number `fails_at`, from 1, fails; at 0 none does. `reads` counts them.
#[derive(Drop)]
pub(crate) struct UnsteadyReader<'a> {
    pub rest: &'a [u8],
    pub most: usize,
    pub interruptions: u32,
    pub reads: u32,
    pub fails_at: u32,
}

impl<'a> UnsteadyReader<'a> {
    /// A reader of these bytes of which no read is interrupted.
    pub(crate) fn new(rest: &'a [u8], most: usize, fails_at: u32) -> UnsteadyReader<'a> {
        UnsteadyReader {
            rest,
            most,
            interruptions: 0,
            reads: 0,
            fails_at,
        }
    }
}

impl Read for UnsteadyReader<'_> {
    fn read(&mut self, buf: &mut [u8]) -> io::Result<usize> {
        self.reads = self.reads.wrapping_add(1);
        if self.reads == self.fails_at {
            return Err(io::Error::other("no"));
        }
        if self.interruptions > 0 {
            self.interruptions -= 1;
            return Err(io::Error::from(ErrorKind::Interrupted));
        }
        let n = self.most.min(self.rest.len()).min(buf.len());
        buf[..n].copy_from_slice(&self.rest[..n]);
        self.rest = &self.rest[n..];
        Ok(n)
    }
}

/// What a write does where it fails: it answers an error, is interrupted, or takes no byte.
#[derive(Clone, Copy)]
pub(crate) enum FailedWrite {
    Error,
    Interruption,
    NoByte,
}

/// Takes at most `most` bytes a write, and keeps them in `held`. The write with the number `fails_at`, from 1, fails as
/// `failure` says; at 0 none does. `writes` counts them.
#[derive(Drop)]
pub(crate) struct UnsteadyWriter {
    pub held: Vec<u8>,
    pub most: usize,
    pub writes: u32,
    pub fails_at: u32,
    pub failure: FailedWrite,
}

impl UnsteadyWriter {
    /// A writer that has taken nothing yet.
    pub(crate) fn new(
        alloc: Global,
        most: usize,
        fails_at: u32,
        failure: FailedWrite,
    ) -> UnsteadyWriter {
        UnsteadyWriter {
            held: Vec::new(alloc),
            most,
            writes: 0,
            fails_at,
            failure,
        }
    }
}

impl Write for UnsteadyWriter {
    fn write(&mut self, buf: &[u8]) -> io::Result<usize> {
        self.writes = self.writes.wrapping_add(1);
        if self.writes == self.fails_at {
            return match self.failure {
                FailedWrite::Error => Err(io::Error::other("no")),
                FailedWrite::Interruption => Err(io::Error::from(ErrorKind::Interrupted)),
                FailedWrite::NoByte => Ok(0),
            };
        }
        let n = self.most.min(buf.len());
        self.held.extend_from_slice(&buf[..n])?;
        Ok(n)
    }

    fn flush(&mut self) -> io::Result<()> {
        Ok(())
    }
}
