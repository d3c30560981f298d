//! A stream, and the octets that wait to be written to it in one write.
//!
//! In place of `BufWriter`, which can't grow and drops its stream where it can't be made. Room for 512 octets is
//! always there, so that the line of a session's end needs no memory. If more room is refused, what waits goes out
//! first and then each item by itself. For what takes items no octets wait, and there is no room for any.
ghost use Rattle.std.specs.Prelude.{◌≡◌, ◌≤◌, ◌<◌, ◌+◌, ◌++◌, [], true, false, None, length, take};
ghost use Rattle.std.specs.Prelude.{drop, vec_len, Err, IfOk, IfSome, OnOk, OnErr, MatchResult};
ghost use Rattle.std.specs.Io.KnownBytes.{Appends, Keeps, WriteAppends};
ghost use Rattle.deliveries.specs.Text.{delivery_text};
ghost use Rattle.wire.specs.Causes.{AreSame, HasCause};
ghost use Rattle.wire.specs.declared.stream.Stop.TheVariants.{Later};
ghost use Rattle.wire.specs.Gathering.{gathered_contents};
ghost use Rattle.wire.specs.Wired.{GoesOut};

use crate::sink::Sink;
use crate::stream::{Stop, Stream};
use deliveries::{Delivery, Item, WriteFault, write_out};
use outbox::Gauge;
use std::alloc::{AllocError, Global};
use std::io::Write;

/// How many octets there is always room for.
const KEPT: usize = 512;

/// How many octets there is room for where more than those wait.
const SOME: usize = 4096;

/// How many octets may wait to be written in one write.
const MOST: usize = 65_536;

/// A stream, and the octets that wait to be written to it. There is room for many while many wait, for some where more
/// than few went out twice in a row, and else for few, so that a wire on which little goes out takes little memory.
#[derive(Drop)]
pub(crate) struct WriteBuffer<W: Write + Drop> {
    pub(crate) stream: Stream<W>,
    pub(crate) waiting: Vec<u8>,
    /// Whether more than few went out the last time.
    was_long: bool,
    /// It is told what the stream took.
    gauge: Gauge,
}

/// Writes octets until all are written or a write fails, and answers how many were written.
fn write_front<W: Sink + Drop>(octets: &[u8], to: &mut Stream<W>) -> (usize, Result<(), Stop>)
    ensures within { result.0 ≤ length octets.now }
    ensures all { OnOk result.1 (result.0 ≡ length octets.now) }
    ensures written { Appends (W.contents to.old.inner) (W.contents to.new.inner)
        (take result.0 octets.now) }
    ensures cause { MatchResult result.1 (λ _. AreSame to.old to.new)
        (λ s. HasCause s to.old to.new) }
{
    let mut count = 0;
    while count < octets.len() {
        match to.write(&octets[count..]) {
            Ok(more) => count += more,
            Err(stop) => return (count, Err(stop)),
        }
    }
    (count, Ok(()))
}

/// As how many octets a gauge counts a delivery.
fn octets_of(delivery: &Delivery) -> u64 {
    match delivery {
        Delivery::Lines { text, .. } => text.as_slice().len() as u64,
        Delivery::Last { .. } => 0,
    }
}

/// Takes the first of some octets away.
fn remove_front(octets: &mut Vec<u8>, count: usize)
    requires { count ≤ vec_len octets.old }
    ensures { octets.new.items ≡ drop count octets.old.items }
{
    let left = octets.len() - count;
    octets.as_mut_slice().copy_within(count.., 0);
    octets.truncate(left);
}

impl<W: Sink + Drop> WriteBuffer<W> {
    /// A stream for which nothing waits, and the gauge of what goes out on it.
    pub(crate) fn new(alloc: Global, stream: W, gauge: Gauge) -> Result<WriteBuffer<W>, AllocError>
        ensures stream { IfOk result (λ g. g.stream.inner ≡ stream) }
        ensures none { IfOk result (λ g. g.waiting.items ≡ []) }
        ensures faults { IfOk result (λ g. g.stream.faults.value ≡ 0) }
    {
        let waiting = if stream.takes_items() {
            Vec::new(alloc)
        } else {
            Vec::with_capacity(alloc, KEPT)?
        };
        Ok(WriteBuffer {
            stream: Stream::new(stream),
            waiting,
            was_long: false,
            gauge,
        })
    }

    /// Whether the stream takes items: then no octets wait for it.
    pub(crate) fn takes_items(&self) -> bool {
        self.stream.get().takes_items()
    }

    /// Makes room for so many octets more, and answers whether there is. There is none for more than may wait, or
    /// where its growth is refused.
    fn make_room(&mut self, more: usize) -> bool
        ensures stream { self.new.stream ≡ self.old.stream }
        ensures kept { self.new.waiting.items ≡ self.old.waiting.items }
        ensures few { result ≡ true → length self.old.waiting.items + more ≤ 65536 }
    {
        let len = self.waiting.len();
        let all = len.saturating_add(more);
        if MOST < all {
            return false;
        }
        if more <= self.waiting.capacity() - len {
            return true;
        }
        if self.takes_items() {
            return false;
        }
        let wanted = if all <= SOME { SOME } else { MOST };
        self.waiting.reserve_exact(wanted - len).is_ok()
    }

    /// Sees to it that there is room for so many octets more, by writing what waits where there is none.
    pub(crate) fn ready_for(&mut self, more: usize) -> Result<(), Stop>
        ensures octets { Keeps (gathered_contents W.contents self.old)
            (gathered_contents W.contents self.new) }
        ensures few { length self.new.waiting.items ≤ length self.old.waiting.items }
        ensures cause { MatchResult result (λ _. AreSame self.old.stream self.new.stream)
            (λ s. HasCause s self.old.stream self.new.stream) }
    {
        if self.make_room(more) {
            Ok(())
        } else {
            self.write_waiting()
        }
    }

    /// Has octets wait, where there is room for them, and answers whether there was.
    pub(crate) fn keep(&mut self, octets: &[u8]) -> bool
        ensures stream { self.new.stream ≡ self.old.stream }
        ensures kept { result ≡ true → self.new.waiting.items
            ≡ self.old.waiting.items ++ octets.now }
        ensures few { result ≡ true → length self.new.waiting.items ≤ 65536 }
        ensures not { result ≡ false → self.new.waiting.items ≡ self.old.waiting.items }
    {
        self.make_room(octets.len()) && self.waiting.extend_from_slice(octets).is_ok()
    }

    /// Writes what waits. What the stream doesn't take waits on.
    fn write_waiting(&mut self) -> Result<(), Stop>
        ensures octets { Keeps (gathered_contents W.contents self.old)
            (gathered_contents W.contents self.new) }
        ensures none { OnOk result (self.new.waiting.items ≡ []) }
        ensures few { length self.new.waiting.items ≤ length self.old.waiting.items }
        ensures cause { MatchResult result (λ _. AreSame self.old.stream self.new.stream)
            (λ s. HasCause s self.old.stream self.new.stream) }
    {
        let (count, written) = write_front(self.waiting.as_slice(), &mut self.stream);
        remove_front(&mut self.waiting, count);
        self.gauge.go_out(count as u64);
        written
    }

    /// Has octets wait, or writes the first of them where there is no room for them, and answers how many that are.
    pub(crate) fn write(&mut self, octets: &[u8]) -> Result<usize, Stop>
        ensures bound { IfOk result (λ n. n ≤ length octets.now) }
        ensures some { IfOk result (λ n. 0 < length octets.now → 0 < n) }
        ensures octets { WriteAppends (gathered_contents W.contents self.old)
            (gathered_contents W.contents self.new) result octets.now }
        ensures few { length self.old.waiting.items ≤ 65536
            → length self.new.waiting.items ≤ 65536 }
        ensures cause { MatchResult result (λ _. AreSame self.old.stream self.new.stream)
            (λ s. HasCause s self.old.stream self.new.stream) }
    {
        if self.keep(octets) {
            return Ok(octets.len());
        }
        self.write_waiting()?;
        if self.keep(octets) {
            return Ok(octets.len());
        }
        let count = self.stream.write(octets)?;
        self.gauge.go_out(count as u64);
        Ok(count)
    }

    /// Has a session's last item wait, where there is room for it, and answers how long it is.
    pub(crate) fn keep_last(&mut self, delivery: &Delivery, host: &[u8]) -> Option<usize>
        ensures stream { self.new.stream ≡ self.old.stream }
        ensures length { IfSome result
            (λ n. n ≡ length (delivery_text delivery.now host.now)) }
        ensures kept { IfSome result (λ n. self.new.waiting.items
            ≡ self.old.waiting.items ++ delivery_text delivery.now host.now) }
        ensures few { IfSome result (λ n. length self.new.waiting.items ≤ 65536) }
        ensures not { result ≡ None → self.new.waiting.items ≡ self.old.waiting.items }
    {
        let before = self.waiting.len();
        match write_out(delivery, host, &mut self.waiting) {
            (count, Ok(())) if self.waiting.len() <= MOST => Some(count),
            _ => {
                self.waiting.truncate(before);
                None
            }
        }
    }

    /// Writes what waits, and then a session's last item at once. It answers how much of that the stream took.
    pub(crate) fn write_last(
        &mut self,
        delivery: &Delivery,
        host: &[u8],
    ) -> (usize, Result<(), Stop>)
        ensures more { GoesOut (gathered_contents W.contents self.old)
            (gathered_contents W.contents self.new) (delivery_text delivery.now host.now)
            (drop result.0 (delivery_text delivery.now host.now)) }
        ensures whole { OnOk result.1 (drop result.0 (delivery_text delivery.now host.now) ≡ []) }
        ensures few { length self.new.waiting.items ≤ length self.old.waiting.items }
        ensures later { result.1 ≡ Err Later → result.0 ≡ 0 }
        ensures cause { MatchResult result.1 (λ _. AreSame self.old.stream self.new.stream)
            (λ s. HasCause s self.old.stream self.new.stream) }
    {
        if let Err(stop) = self.write_waiting() {
            return (0, Err(stop));
        }
        let (count, written) = self.stream.write_last(delivery, host);
        self.gauge.go_out(count as u64);
        match written {
            Ok(()) => (count, Ok(())),
            Err(fault) => (count, Err(Stop::Fault(fault))),
        }
    }

    /// Writes what waits, and then has the stream take an item whole.
    pub(crate) fn put(&mut self, item: &Item, host: &[u8]) -> Result<(), Stop>
        ensures whole { OnOk result (GoesOut (gathered_contents W.contents self.old)
            (gathered_contents W.contents self.new)
            (delivery_text item.now.delivery host.now) []) }
        ensures none { OnErr result (Keeps (gathered_contents W.contents self.old)
            (gathered_contents W.contents self.new)) }
        ensures few { length self.new.waiting.items ≤ length self.old.waiting.items }
        ensures cause { MatchResult result (λ _. AreSame self.old.stream self.new.stream)
            (λ s. HasCause s self.old.stream self.new.stream) }
    {
        self.write_waiting()?;
        self.stream.put(item, host)?;
        self.gauge.go_out(octets_of(item.delivery()));
        Ok(())
    }

    /// Writes what waits, and has the stream give it on.
    pub(crate) fn flush(&mut self) -> Result<(), Stop>
        ensures octets { Keeps (gathered_contents W.contents self.old)
            (gathered_contents W.contents self.new) }
        ensures none { OnOk result (self.new.waiting.items ≡ []) }
        ensures few { length self.new.waiting.items ≤ length self.old.waiting.items }
        ensures cause { MatchResult result (λ _. AreSame self.old.stream self.new.stream)
            (λ s. HasCause s self.old.stream self.new.stream) }
    {
        let is_long = KEPT < self.waiting.len();
        let kept = if is_long && self.was_long { SOME } else { KEPT };
        self.was_long = is_long;
        self.write_waiting()?;
        self.waiting.shrink_to(kept);
        self.stream.flush()
    }
}
