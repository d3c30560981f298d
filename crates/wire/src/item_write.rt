//! An item on its way to a stream.
//!
//! An item counts as begun until its last octet is in the wire.
ghost use Rattle.std.specs.Prelude.{◌≡◌, ◌≤◌, [], Some, Err, drop, length, OnOk, OnErr, MatchResult};
ghost use Rattle.deliveries.specs.Text.{delivery_text};
ghost use Rattle.wire.specs.Causes.{AreSame, HasCause};
ghost use Rattle.wire.specs.declared.stream.Stop.TheVariants.{Later};
ghost use Rattle.wire.specs.Gathering.{gathered_contents};
ghost use Rattle.wire.specs.Wired.{rest_of, GoesOut, LastIsWhole};

use crate::sink::Sink;
use crate::stream::Stop;
use crate::write_buffer::WriteBuffer;
use deliveries::{Delivery, Item};

/// More octets than a session's last item has.
const LAST: usize = 512;

/// An item of which the first octets were written.
#[derive(Drop)]
pub(crate) struct ItemWrite {
    pub(crate) item: Item,
    pub(crate) count: usize,
}

/// Writes what comes after so many octets of a text, until all is written or a write stops. It answers how much is
/// written then.
fn write_lines<W: Sink + Drop>(
    text: &[u8],
    from: usize,
    out: &mut WriteBuffer<W>,
) -> (usize, Result<(), Stop>)
    ensures more { GoesOut (gathered_contents W.contents out.old)
        (gathered_contents W.contents out.new) (drop from text.now) (drop result.0 text.now) }
    ensures whole { OnOk result.1 (drop result.0 text.now ≡ []) }
    ensures few { length out.old.waiting.items ≤ 65536 → length out.new.waiting.items ≤ 65536 }
    ensures cause { MatchResult result.1 (λ _. AreSame out.old.stream out.new.stream)
        (λ s. HasCause s out.old.stream out.new.stream) }
{
    let mut count = from;
    while count < text.len() {
        match out.write(&text[count..]) {
            Ok(more) => count += more,
            Err(stop) => return (count, Err(stop)),
        }
    }
    (count, Ok(()))
}

/// Writes a session's last item, after all octets before it. It answers how much of it is written.
fn write_last<W: Sink + Drop>(
    delivery: &Delivery,
    host: &[u8],
    out: &mut WriteBuffer<W>,
) -> (usize, Result<(), Stop>)
    ensures more { GoesOut (gathered_contents W.contents out.old)
        (gathered_contents W.contents out.new) (delivery_text delivery.now host.now)
        (drop result.0 (delivery_text delivery.now host.now)) }
    ensures whole { OnOk result.1 (drop result.0 (delivery_text delivery.now host.now) ≡ []) }
    ensures later { result.1 ≡ Err Later → result.0 ≡ 0 }
    ensures few { length out.old.waiting.items ≤ 65536 → length out.new.waiting.items ≤ 65536 }
    ensures cause { MatchResult result.1 (λ _. AreSame out.old.stream out.new.stream)
        (λ s. HasCause s out.old.stream out.new.stream) }
{
    if let Err(stop) = out.ready_for(LAST) {
        return (0, Err(stop));
    }
    match out.keep_last(delivery, host) {
        Some(count) => (count, Ok(())),
        None => out.write_last(delivery, host),
    }
}

impl ItemWrite {
    /// Nothing of an item is written yet.
    pub(crate) fn new(item: Item) -> ItemWrite
        ensures item { result.item ≡ item }
        ensures count { result.count ≡ 0 }
    {
        ItemWrite { item, count: 0 }
    }

    /// Writes what is left of the item, as far as the stream takes it.
    pub(crate) fn write_rest<W: Sink + Drop>(
        &mut self,
        host: &[u8],
        out: &mut WriteBuffer<W>,
    ) -> Result<(), Stop>
        requires last { LastIsWhole (Some self.old) }
        ensures item { self.new.item ≡ self.old.item }
        ensures last { result ≡ Err Later → LastIsWhole (Some self.new) }
        ensures whole { OnOk result (GoesOut (gathered_contents W.contents out.old)
            (gathered_contents W.contents out.new) (rest_of host.now (Some self.old)) []) }
        ensures more { OnErr result (GoesOut (gathered_contents W.contents out.old)
            (gathered_contents W.contents out.new) (rest_of host.now (Some self.old))
            (rest_of host.now (Some self.new))) }
        ensures few { length out.old.waiting.items ≤ 65536
            → length out.new.waiting.items ≤ 65536 }
        ensures cause { MatchResult result (λ _. AreSame out.old.stream out.new.stream)
            (λ s. HasCause s out.old.stream out.new.stream) }
    {
        if self.count == 0 && out.takes_items() {
            return out.put(&self.item, host);
        }
        match self.item.delivery() {
            Delivery::Lines { text, .. } => {
                let (count, written) = write_lines(text.as_slice(), self.count, out);
                self.count = count;
                written
            }
            Delivery::Last { .. } => {
                let (count, written) = write_last(self.item.delivery(), host, out);
                self.count = count;
                written
            }
        }
    }
}
