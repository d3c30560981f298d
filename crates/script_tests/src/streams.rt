//! Readers and writers that give or take little, or fail.
use crate::again::{room, twice};
use scripts::{Input, Output, PlayFault, play};
use std::alloc::{AllocError, Global};
use std::io;
use std::io::{ErrorKind, Read, Write};
use std::test::Fail;

// Gives one octet at a time, and fails in place of each read after the first `left`.
#[derive(Drop)]
struct Slow<'a> {
    octets: &'a [u8],
    left: usize,
}

impl Read for Slow<'_> {
    fn read(&mut self, buf: &mut [u8]) -> io::Result<usize> {
        if self.left == 0 {
            return Err(io::Error::from(ErrorKind::BrokenPipe));
        }
        self.left -= 1;
        let Some((first, rest)) = self.octets.split_first() else {
            return Ok(0);
        };
        if buf.is_empty() {
            return Ok(0);
        }
        buf[0] = *first;
        self.octets = rest;
        Ok(1)
    }
}

// Takes one octet at a time, and `left` in all. Then it takes none, or fails.
#[derive(Drop)]
struct Narrow {
    octets: Vec<u8>,
    left: usize,
    fails: bool,
}

impl Write for Narrow {
    fn write(&mut self, buf: &[u8]) -> io::Result<usize> {
        if buf.is_empty() {
            return Ok(0);
        }
        if self.left == 0 {
            return if self.fails {
                Err(io::Error::from(ErrorKind::BrokenPipe))
            } else {
                Ok(0)
            };
        }
        self.left -= 1;
        self.octets.push(buf[0])?;
        Ok(1)
    }

    fn flush(&mut self) -> io::Result<()> {
        Ok(())
    }
}

const SCRIPT: &[u8] = b"take 1\ntake 2\n";

const NOTES: &[u8] = b"refused NoSession\nrefused NoSession\n";

/// A script of which so many octets can be read, notes of which so many can be written, and whether a write fails then
/// or takes nothing.
#[derive(Clone, Copy, Drop)]
struct Streams {
    script: &'static [u8],
    reads: usize,
    writes: usize,
    fails: bool,
}

impl Streams {
    /// The whole script, read and written without a fault.
    fn whole() -> Streams {
        Streams {
            script: SCRIPT,
            reads: usize::MAX,
            writes: usize::MAX,
            fails: true,
        }
    }

    /// Plays the script.
    fn play(self, alloc: Global) -> Result<(Result<(), PlayFault>, Vec<u8>), AllocError> {
        let mut input = Input::new(Slow {
            octets: self.script,
            left: self.reads,
        });
        let mut output = Output::new(Narrow {
            octets: room(alloc)?,
            left: self.writes,
            fails: self.fails,
        });
        let result = play(alloc, &mut input, &mut output);
        Ok((result, output.into_inner().octets))
    }

    /// Whether the play ends so, after the front of its notes of so many octets; if it ends for want of memory, with
    /// some front of its notes, it is played anew.
    fn is_played(self, alloc: Global, end: Result<(), PlayFault>, count: usize) -> bool {
        let Ok((result, notes)) = self.play(alloc) else {
            return false;
        };
        if result != Err(PlayFault::Memory) {
            return result == end && NOTES.get(..count) == Some(notes.as_slice());
        }
        NOTES.starts_with(notes.as_slice()) && self.is_played_again(alloc, end, count)
    }

    /// The same, if there is memory.
    fn is_played_again(self, alloc: Global, end: Result<(), PlayFault>, count: usize) -> bool {
        match self.play(alloc) {
            Ok((result, notes)) => { result == end && NOTES.get(..count) == Some(notes.as_slice()) }
            Err(_) => false,
        }
    }
}

/// How many octets of the notes are written of the lines that were read, of whose script so many octets were.
fn note(read: usize) -> usize {
    match read {
        0..=6 => 0,
        7..=13 => 18,
        _ => 36,
    }
}

/// A script is read an octet at a time, and reading fails after each number of octets, from none to all 14: the play
/// ends with `ReadFailed`, after the notes of the lines whose end was read.
#[test]
fn a_reader_may_fail_after_any_octet(rt: HostRuntime) {
    for reads in 0..=SCRIPT.len() {
        let streams = Streams {
            reads,
            ..Streams::whole()
        };
        let end = Err(PlayFault::ReadFailed);
        assert!(rt; streams.is_played(rt.alloc(), end, note(reads)), "{reads}");
    }
}

/// How a script ends whose first octets are these, and how many octets of notes it has: a last line needs no end, and
/// none of the words before its number is a step.
fn end_of(count: usize) -> (Result<(), PlayFault>, usize) {
    match count {
        0 => (Ok(()), 0),
        1..=5 => (Err(PlayFault::BadLine(1)), 0),
        6 | 7 => (Ok(()), 18),
        8..=12 => (Err(PlayFault::BadLine(2)), 18),
        _ => (Ok(()), 36),
    }
}

/// A script ends after each number of octets, from none to all 14: what stands there without its end is a line, too.
/// `take 1` and `take 2` are steps, and what is less is a bad line.
#[test]
fn a_script_may_end_after_any_octet(rt: HostRuntime) {
    for count in 0..=SCRIPT.len() {
        let streams = Streams {
            script: &SCRIPT[..count.min(SCRIPT.len())],
            ..Streams::whole()
        };
        let (end, written) = end_of(count);
        assert!(rt; streams.is_played(rt.alloc(), end, written), "{count}");
    }
}

/// The notes are taken an octet at a time, and the writer fails, or takes nothing, after each number of octets, from
/// none to 35: the play ends with `WriteFailed`, and just these are written. A writer that takes all 36 takes them.
#[test]
fn a_writer_may_fail_after_any_octet(rt: HostRuntime) {
    for writes in 0..NOTES.len() {
        for fails in [false, true] {
            let streams = Streams {
                writes,
                fails,
                ..Streams::whole()
            };
            let end = Err(PlayFault::WriteFailed);
            assert!(rt; streams.is_played(rt.alloc(), end, writes), "{writes}");
        }
    }
    assert!(rt; Streams::whole().is_played(rt.alloc(), Ok(()), 36));
}

// Is interrupted before each read.
#[derive(Drop)]
struct Interrupted<'a> {
    octets: &'a [u8],
    is_interrupted: bool,
}

impl Read for Interrupted<'_> {
    fn read(&mut self, buf: &mut [u8]) -> io::Result<usize> {
        self.is_interrupted = !self.is_interrupted;
        if self.is_interrupted {
            return Err(io::Error::from(ErrorKind::Interrupted));
        }
        self.octets.read(buf)
    }
}

/// Plays a script whose reads are interrupted.
fn played_with_interrupts(alloc: Global) -> Result<(Result<(), PlayFault>, Vec<u8>), AllocError> {
    let mut input = Input::new(Interrupted {
        octets: b"take 1\n",
        is_interrupted: false,
    });
    let mut notes = Output::new(room(alloc)?);
    match play(alloc, &mut input, &mut notes) {
        Err(PlayFault::Memory) => Err(AllocError),
        result => Ok((result, notes.into_inner())),
    }
}

/// An input whose reads are interrupted is read on.
#[test]
fn an_interrupted_read_is_tried_again(rt: HostRuntime) -> Result<(), Fail> {
    let (result, notes) = twice(|| played_with_interrupts(rt.alloc()))?;
    assert_eq!(rt; result, Ok(()));
    assert_eq!(rt; notes.as_slice(), b"refused NoSession\n".as_slice());
    Ok(())
}

// Takes everything, and fails to flush.
#[derive(Drop)]
struct Unflushed;

impl Write for Unflushed {
    fn write(&mut self, buf: &[u8]) -> io::Result<usize> {
        Ok(buf.len())
    }

    fn flush(&mut self) -> io::Result<()> {
        Err(io::Error::from(ErrorKind::BrokenPipe))
    }
}

/// Plays a script into a writer that can't be flushed.
fn played_unflushed(alloc: Global, script: &[u8]) -> Result<Result<(), PlayFault>, AllocError> {
    let mut input = Input::new(script);
    match play(alloc, &mut input, &mut Output::new(Unflushed)) {
        Err(PlayFault::Memory) => Err(AllocError),
        result => Ok(result),
    }
}

/// An output that can't be flushed is `output failed`, unless the script has a bad line before that.
#[test]
fn a_flush_that_fails_is_told(rt: HostRuntime) -> Result<(), Fail> {
    for (script, want) in [
        (b"take 1\n".as_slice(), PlayFault::WriteFailed),
        (b"take\n", PlayFault::BadLine(1)),
    ] {
        let result = twice(|| played_unflushed(rt.alloc(), script))?;
        assert_eq!(rt; result, Err(want), "{script:?}");
    }
    Ok(())
}
