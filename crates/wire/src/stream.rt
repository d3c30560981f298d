//! A stream, of which clauses know how often it took nothing for now, and how often it failed.
//!
//! That an answer says that the stream takes nothing now, an error of the kind WouldBlock, TimedOut or Interrupted, is
//! read in `stop_of`.
ghost use Rattle.std.specs.Prelude.{◌≡◌, ◌≤◌, ◌<◌, ◌↔◌, length, take, IfOk, IsOk, OnOk, OnErr, MatchResult};
ghost use Rattle.std.specs.Io.KnownBytes.{Appends, Keeps, WriteAppends};
ghost use Rattle.deliveries.specs.Text.{delivery_text};
ghost use Rattle.wire.specs.Causes.{AreSame, HasCause, Faults};

use crate::sink::Sink;
use deliveries::{Delivery, Item, WriteFault, write_out};
use snapshots::{GhostChange, Snapshot, apply};
use std::io;
use std::io::{Error, ErrorKind, Write};

/// Why no more was written.
#[derive(Clone, Copy, Debug, PartialEq)]
pub(crate) enum Stop {
    /// The stream takes nothing now.
    Later,
    /// The stream takes no more.
    Fault(WriteFault),
}

/// What an error of a write means.
fn stop_of(error: &Error) -> Stop {
    match error.kind() {
        ErrorKind::WouldBlock | ErrorKind::TimedOut | ErrorKind::Interrupted => Stop::Later,
        ErrorKind::WriteZero => Stop::Fault(WriteFault::Zero),
        _ => Stop::Fault(WriteFault::Failed),
    }
}

// One pause or one fault more.
struct CountsAnswers;

impl GhostChange<u64, ()> for CountsAnswers {
    ghost use Rattle.std.specs.Prelude.{◌+◌};

    ghost changed = { λ n s. n + 1 };
}

/// A stream. How often it answered that it takes nothing now, and how often that it takes no more, exists for clauses
/// alone, and nothing but its answers changes that.
#[derive(Drop)]
pub(crate) struct Stream<W: Write + Drop> {
    inner: W,
    pauses: Snapshot<u64>,
    faults: Snapshot<u64>,
}

impl<W: Sink + Drop> Stream<W> {
    /// A stream that wasn't written to yet.
    pub(crate) fn new(inner: W) -> Stream<W>
        ensures inner { result.inner ≡ inner }
        ensures faults { result.faults.value ≡ 0 }
    {
        Stream {
            inner,
            pauses: Snapshot::of(&0),
            faults: Snapshot::of(&0),
        }
    }

    /// The stream itself.
    pub(crate) fn get(&self) -> &W
        ensures { result.now ≡ self.now.inner }
    {
        &self.inner
    }

    /// What stopped a write is counted.
    fn stop_with(&mut self, stop: Stop) -> Stop
        ensures inner { self.new.inner ≡ self.old.inner }
        ensures stop { result ≡ stop }
        ensures cause { HasCause result self.old self.new }
    {
        match stop {
            Stop::Later => apply::<CountsAnswers, u64, ()>(&mut self.pauses, &()),
            Stop::Fault(_) => apply::<CountsAnswers, u64, ()>(&mut self.faults, &()),
        }
        stop
    }

    /// Writes once, and answers how many of the octets the stream took. It took some, if there are any.
    pub(crate) fn write(&mut self, octets: &[u8]) -> Result<usize, Stop>
        ensures bound { IfOk result (λ n. n ≤ length octets.now) }
        ensures some { IfOk result (λ n. 0 < length octets.now → 0 < n) }
        ensures bytes { WriteAppends (W.contents self.old.inner)
            (W.contents self.new.inner) result octets.now }
        ensures cause { MatchResult result (λ _. AreSame self.old self.new)
            (λ s. HasCause s self.old self.new) }
    {
        match self.inner.write(octets) {
            Ok(0) if !octets.is_empty() => Err(self.stop_with(Stop::Fault(WriteFault::Zero))),
            Ok(count) => Ok(count),
            Err(error) => Err(self.stop_with(stop_of(&error))),
        }
    }

    /// Writes a session's last item, and answers how many of its octets the stream took. Where it doesn't take all,
    /// that is a fault.
    pub(crate) fn write_last(
        &mut self,
        delivery: &Delivery,
        host: &[u8],
    ) -> (usize, Result<(), WriteFault>)
        ensures bytes { Appends (W.contents self.old.inner) (W.contents self.new.inner)
            (take result.0 (delivery_text delivery.now host.now)) }
        ensures whole { IsOk result.1
            ↔ (result.0 ≡ length (delivery_text delivery.now host.now)) }
        ensures cause { MatchResult result.1 (λ _. AreSame self.old self.new)
            (λ _. Faults self.old self.new) }
    {
        let (count, written) = write_out(delivery, host, &mut self.inner);
        if let Err(fault) = &written {
            self.stop_with(Stop::Fault(*fault));
        }
        (count, written)
    }

    /// Has the stream take an item whole.
    pub(crate) fn put(&mut self, item: &Item, host: &[u8]) -> Result<(), Stop>
        ensures whole { OnOk result (Appends (W.contents self.old.inner) (W.contents self.new.inner)
            (delivery_text item.now.delivery host.now)) }
        ensures none { OnErr result
            (Keeps (W.contents self.old.inner) (W.contents self.new.inner)) }
        ensures cause { MatchResult result (λ _. AreSame self.old self.new)
            (λ s. HasCause s self.old self.new) }
    {
        match self.inner.put(item, host) {
            Ok(()) => Ok(()),
            Err(error) => Err(self.stop_with(stop_of(&error))),
        }
    }

    /// Has the stream give on what it took.
    pub(crate) fn flush(&mut self) -> Result<(), Stop>
        ensures bytes { Keeps (W.contents self.old.inner) (W.contents self.new.inner) }
        ensures cause { MatchResult result (λ _. AreSame self.old self.new)
            (λ s. HasCause s self.old self.new) }
    {
        match self.inner.flush() {
            Ok(()) => Ok(()),
            Err(error) => Err(self.stop_with(stop_of(&error))),
        }
    }
}
