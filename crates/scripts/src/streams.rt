//! What a script is read from, and what its notes are written to.
//!
//! How often a stream was read and failed exists for clauses alone, and nothing but its own answers changes that. That
//! an error which only asks for another try is no failure is read in `Input::read`.
ghost use Rattle.std.specs.Prelude.{◌≡◌, ◌≢◌, ◌+◌, ◌<◌, ◌≤◌, OnOk, IfErr, IsOk, MatchResult};
ghost use Rattle.std.specs.Io.{ReadsAtMost};
ghost use Rattle.std.specs.Io.KnownBytes.{Appends, Keeps, ReadConsumes};
ghost use Rattle.std.specs.IoError.{error_kind};
ghost use Rattle.scripts.specs.Streams.{IsWrites};

use crate::entry::PlayFault;
use snapshots::{GhostChange, Snapshot, apply};
use std::io;
use std::io::{ErrorKind, Read, Write};
use std::marker::Model;

// One more.
struct CountsReads;

impl GhostChange<u64, ()> for CountsReads {
    ghost use Rattle.std.specs.Prelude.{◌+◌};

    ghost changed = { λ n s. n + 1 };
}

/// What a script is read from.
#[derive(Drop)]
pub struct Input<R: Drop> {
    inner: R,
    reads: Snapshot<u64>,
    failures: Snapshot<u64>,
}

impl<R: Drop> Model for Input<R> {
    ghost use Rattle.scripts.specs.Streams.{Reading};

    ghost Value = { Reading R };

    ghost view = { λ a. record {
      inner = a.inner;
      reads = a.reads.value;
      failures = a.failures.value;
    } };
}

impl<R: Read + Drop> Input<R> {
    /// A reader from which nothing was read yet.
    pub fn new(inner: R) -> Input<R>
        ensures { result ≡ record { inner = inner; reads = 0; failures = 0 } }
    {
        Input {
            inner,
            reads: Snapshot::of(&0),
            failures: Snapshot::of(&0),
        }
    }

    /// Reads once.
    pub(crate) fn read(&mut self, buf: &mut [u8]) -> io::Result<usize>
        ensures bound { ReadsAtMost result buf.new }
        ensures bytes { ReadConsumes (R.remaining self.old.inner) (R.remaining self.new.inner)
            result buf.new }
        ensures reads { self.new.reads ≡ self.old.reads + 1 }
        ensures grows { self.old.failures ≤ self.new.failures }
        ensures cause { IfErr result (λ e. error_kind e ≢ ErrorKind.Interrupted
            → self.old.failures < self.new.failures) }
    {
        apply::<CountsReads, u64, ()>(&mut self.reads, &());
        let got = self.inner.read(buf);
        if let Err(error) = &got {
            if error.kind() != ErrorKind::Interrupted {
                apply::<CountsReads, u64, ()>(&mut self.failures, &());
            }
        }
        got
    }
}

/// What the notes of a script are written to.
#[derive(Drop)]
pub struct Output<W: Drop> {
    inner: W,
    failures: Snapshot<u64>,
}

impl<W: Drop> Model for Output<W> {
    ghost use Rattle.scripts.specs.Streams.{Writing};

    ghost Value = { Writing W };

    ghost view = { λ a. record { inner = a.inner; failures = a.failures.value } };
}

impl<W: Write + Drop> Output<W> {
    /// A writer to which nothing was written yet.
    pub fn new(inner: W) -> Output<W>
        ensures { result ≡ record { inner = inner; failures = 0 } }
    {
        Output {
            inner,
            failures: Snapshot::of(&0),
        }
    }

    /// The writer itself.
    pub fn into_inner(self) -> W
        ensures { result ≡ self.inner }
    {
        let Output { inner, .. } = self;
        inner
    }

    /// That the writer failed is counted.
    fn count_failure(&mut self) -> PlayFault
        ensures inner { self.new.inner ≡ self.old.inner }
        ensures fault { result ≡ PlayFault.WriteFailed }
        ensures grows { self.old.failures < self.new.failures }
    {
        apply::<CountsReads, u64, ()>(&mut self.failures, &());
        PlayFault::WriteFailed
    }

    /// Writes notes.
    pub(crate) fn write_all(&mut self, notes: &[u8]) -> Result<(), PlayFault>
        ensures written { OnOk result
            (Appends (W.contents self.old.inner) (W.contents self.new.inner) notes.now) }
        ensures same { OnOk result (self.new.failures ≡ self.old.failures) }
        ensures fault { IfErr result (λ e. e ≡ PlayFault.WriteFailed) }
        ensures cause { IfErr result (IsWrites self.old.failures self.new.failures) }
    {
        match self.inner.write_all(notes) {
            Ok(()) => Ok(()),
            Err(_) => Err(self.count_failure()),
        }
    }

    /// Has the writer give on what it took.
    pub(crate) fn flush(&mut self) -> Result<(), PlayFault>
        ensures keeps { Keeps (W.contents self.old.inner) (W.contents self.new.inner) }
        ensures grows { self.old.failures ≤ self.new.failures }
        ensures cause { IfErr result (λ _. self.old.failures < self.new.failures) }
    {
        match self.inner.flush() {
            Ok(()) => Ok(()),
            Err(_) => Err(self.count_failure()),
        }
    }
}
