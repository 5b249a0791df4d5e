//! Plays, audits and checks by the program over readers and writers that stumble.

use crate::texts::{LATE, LOST};
use crate::unsteady::{FailedWrite, UnsteadyReader, UnsteadyWriter};
use fbl_input::RunFault;
use fbl_play::play;
use fbl_program::{CHANNEL_FAULT, DONE, NOT_WELL, Named, Streams, run};
use fbl_runs::Sources;
use fbl_verdicts::audit;
use std::alloc::{AllocError, Global};
use std::io::{self, Read};
use std::process::Abort;
use std::sync::Wait;
use std::sync::atomic::{AtomicUsize, Ordering};
use std::test::Fail;
use std::thread::Threads;

/// What the program does with a word and an input: the text that it writes, and its exit status.
struct Use {
    word: &'static str,
    input: &'static str,
    text: &'static str,
    status: u8,
}

/// A play with two strikes, one after the other, each with its recovery; an audit of a dump; and a check of a log.
const USES: [Use; 3] = [
    Use {
        word: "play",
        input: "{\"version\":1,\"members\":3,\"f\":1,\"behaviour\":\"relay\",\"start\":[[0,1,5,2]],\"commands\":[[\"deliver\",1,0],[\"deliver\",2,1],[\"deliver\",0,2],[\"strike\",[2]],[\"recover\"],[\"strike\",[1]],[\"report\"],[\"recover\"],[\"states\"]]}",
        text: "deliver 1 0 receipt 1 carried 0 state 5\ndeliver 2 1 receipt 1 carried 1 state 5\ndeliver 0 2 receipt 1 carried 1 state 5\nstrike 2 lost 0\nrecover replayed 1 resent 0 undone 0\nstrike 1 lost 0\nmember 0 up state 5 received 1 sent 1 held 2\nmember 1 down\nmember 2 up state 5 received 1 sent 1 held 3\nflight 0\ntrace 6\nlost 0\norphans none\nrecover replayed 1 resent 0 undone 0\nstates 5 5 5\n",
        status: DONE,
    },
    Use {
        word: "audit",
        input: LOST,
        text: "lost 1\ndeterminant 0 1 1 1\norphans 0,2\n",
        status: DONE,
    },
    Use {
        word: "check",
        input: LATE,
        text: "unsafe 0 1 1 1 at 4 strike 1 orphans 2\n",
        status: NOT_WELL,
    },
];

/// An input that is read in parts, some reads of it interrupted or failing, and an output of which one write fails.
#[derive(Drop)]
struct Stumbling<'a> {
    alloc: Global,
    of: &'a Use,
    /// How many bytes a read gives.
    most: usize,
    interruptions: u32,
    /// The number of the read that fails, from 1; 0 where none does.
    read: u32,
    /// The number of the write that fails, and how it does.
    write: (u32, FailedWrite),
    /// How many bytes of the text were written, or `usize::MAX` where it was another, or one went behind the write that failed.
    written: AtomicUsize,
}

impl<'a> Stumbling<'a> {
    /// Streams that don't stumble, by this many bytes a read.
    fn new(alloc: Global, of: &'a Use, most: usize) -> Stumbling<'a> {
        Stumbling {
            alloc,
            of,
            most,
            interruptions: 0,
            read: 0,
            write: (0, FailedWrite::Error),
            written: AtomicUsize::new(0),
        }
    }
}

impl<'a> Streams for Stumbling<'a> {
    ghost use Rattle.std.specs.Prelude.{⊤, None};
    ghost use Rattle.fbl_program.specs.Statuses.{IsSettled};

    type Reader = UnsteadyReader<'a>;

    type Writer = UnsteadyWriter;

    // nothing is known of them
    ghost input = { λ _ _. None };

    ghost output = { λ _ _. None };

    ghost settled = { λ _ _ _ _ _. ⊤ };

    fn reader<'n>(&self, _name: &'n str) -> Result<Named<'n, UnsteadyReader<'a>>, u8> {
        let mut reader = UnsteadyReader::new(self.of.input.as_bytes(), self.most, self.read);
        reader.interruptions = self.interruptions;
        Ok(Named::new(reader, None))
    }

    fn writer<'n>(&self, _name: &'n str) -> Result<Named<'n, UnsteadyWriter>, u8> {
        let (fails_at, failure) = self.write;
        let writer = UnsteadyWriter::new(self.alloc, 7, fails_at, failure);
        Ok(Named::new(writer, None))
    }

    fn settle(&self, _name: &str, writer: Named<'_, UnsteadyWriter>, status: u8) -> u8
        ensures { IsSettled status result }
    {
        let writer = writer.stream;
        let held = writer.held.as_slice();
        let is_front = self.of.text.as_bytes().starts_with(held);
        let is_behind = writer.fails_at > 0 && writer.writes > writer.fails_at;
        let written = if is_front && !is_behind {
            held.len()
        } else {
            usize::MAX
        };
        self.written.store(written, Ordering::SeqCst);
        status
    }
}

/// The exit status of the program, and how much of the text it wrote.
fn outcome<T: Print + Eprint + Threads + Wait + Sync>(
    rt: &T,
    streams: &Stumbling<'_>,
) -> Result<(u8, usize), AllocError> {
    let mut words = Vec::new(streams.alloc);
    words.push(String::from_str(streams.alloc, "fblrun")?)?;
    words.push(String::from_str(streams.alloc, streams.of.word)?)?;
    let status = run(rt, streams.alloc, streams, false, Ok(words));
    Ok((status, streams.written.load(Ordering::SeqCst)))
}

#[test]
fn one_byte_a_read_and_interruptions(rt: HostRuntime) -> Result<(), Fail> {
    for of in &USES {
        let whole = (of.status, of.text.len());
        for (interruptions, due) in [(0, whole), (1000, whole), (1001, (CHANNEL_FAULT, 0))] {
            let mut streams = Stumbling::new(rt.alloc(), of, 1);
            streams.interruptions = interruptions;
            assert!(rt;
                outcome(&rt, &streams)? == due,
                "{} at {interruptions}",
                of.word
            );
        }
    }
    Ok(())
}

#[test]
fn failed_reads(rt: HostRuntime) -> Result<(), Fail> {
    for of in &USES {
        for fails_at in 1..u32::MAX {
            let mut streams = Stumbling::new(rt.alloc(), of, 20);
            streams.read = fails_at;
            let ended = outcome(&rt, &streams)?;
            if ended == (of.status, of.text.len()) {
                assert!(rt; fails_at > 10);
                break;
            }
            assert!(rt; ended == (CHANNEL_FAULT, 0), "{} at {fails_at}", of.word);
        }
    }
    Ok(())
}

/// Asserts that the program ends with a fault where any of its writes fails in this way, and has written what comes before.
fn fail_each_write<T: Print + Eprint + Threads + Wait + Sync + Abort>(
    rt: &T,
    alloc: Global,
    of: &Use,
    failure: FailedWrite,
) -> Result<(), Fail> {
    for fails_at in 1..u32::MAX {
        let mut streams = Stumbling::new(alloc, of, 100);
        streams.write = (fails_at, failure);
        let (status, written) = outcome(rt, &streams)?;
        if (status, written) == (of.status, of.text.len()) {
            assert!(rt; fails_at > 6);
            break;
        }
        let is_front = written < of.text.len();
        assert!(rt;
            status == CHANNEL_FAULT && is_front,
            "{} at {fails_at}",
            of.word
        );
    }
    Ok(())
}

#[test]
fn failed_writes(rt: HostRuntime) -> Result<(), Fail> {
    for of in &USES {
        for failure in [
            FailedWrite::Error,
            FailedWrite::Interruption,
            FailedWrite::NoByte,
        ] {
            fail_each_write(&rt, rt.alloc(), of, failure)?;
        }
    }
    Ok(())
}

/// A reader that never ends.
#[derive(Drop)]
struct EndlessReader;

impl Read for EndlessReader {
    fn read(&mut self, buf: &mut [u8]) -> io::Result<usize> {
        for byte in buf.iter_mut() {
            *byte = b' ';
        }
        Ok(buf.len())
    }
}

#[test]
fn plays_and_audits_of_bytes(rt: HostRuntime) {
    let [of_play, of_audit, _] = &USES;
    let mut told = Vec::new(rt.alloc());
    let played = play(&rt, rt.alloc(), &mut of_play.input.as_bytes(), &mut told, 2);
    assert!(rt; played.is_ok() && told.as_slice() == of_play.text.as_bytes());
    let mut told = Vec::new(rt.alloc());
    let audited = audit(rt.alloc(), &mut of_audit.input.as_bytes(), &mut told);
    assert!(rt; audited.is_ok() && told.as_slice() == of_audit.text.as_bytes());
    let mut told = Vec::new(rt.alloc());
    let unread = audit(rt.alloc(), &mut EndlessReader, &mut told);
    assert!(rt; matches!(unread, Err(RunFault::TooLong)) && told.is_empty());
}
