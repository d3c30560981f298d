//! A session's writer and the stream on which its items go out.
//!
//! A wire stands in a lock of its own (`crew::Outlet`), and its invariant holds whoever pumps it. That the stub is of
//! the writer's outbox is what the type keeps; which session it is of is compared when the lock is ended. After a
//! fault the wire is broken for good: nothing is written after octets that may be lost.
ghost use Rattle.std.specs.Prelude.{◌≡◌, ◌≤◌, ◌<◌, ℕ, List, [], ◌++◌, true, false, Some, length};
ghost use Rattle.std.specs.Prelude.{IfOk, IfErr, OnOk, OnErr};
ghost use Rattle.deliveries.specs.Text.{delivery_text};
ghost use Rattle.std.specs.Io.KnownBytes.{append_known};
ghost use Rattle.wire.specs.declared.wire.Flow.TheVariants.{Idle, More, Behind, Ended};
ghost use Rattle.wire.specs.Wired.{ends, is_last, IsInStep, IsSameWire};

use crate::item_write::ItemWrite;
use crate::sink::Sink;
use crate::stream::Stop;
use crate::write_buffer::WriteBuffer;
use chronicle::SessionId;
use deliveries::{Delivery, WriteFault};
use line_grammar::Octets;
use outbox::{ChannelName, Gauge, Waker, Writer};
use register::{Naming, Stub};
use snapshots::Snapshot;
use std::alloc::Global;
use std::io::Write;
use std::marker::Model;
use std::sync::Wait;

/// How many items one call takes at most before it answers, so that others have their turn.
const TURNS: u32 = 256;

/// How a wire stands after it was pumped.
#[derive(Clone, Copy, Debug, PartialEq)]
pub enum Flow {
    /// The outbox was found empty, and all went out.
    Idle,
    /// Items were taken, and more may wait.
    More,
    /// The stream answered that it takes nothing now.
    Behind,
    /// The session's last item went out.
    Ended,
}

/// A session's writer, and the stream on which its items go out. It takes room for many items while many wait, and
/// where that is refused writes few at a time.
#[derive(Drop)]
pub struct Wire<L: Naming, W: Write + Drop> {
    writer: Writer,
    stub: Stub<L, ChannelName>,
    out: WriteBuffer<W>,
    host: Octets,
    begun: Option<ItemWrite>,
    has_last: bool,
    is_broken: bool,
    writer_before: Snapshot<Writer>,
    stream_before: Snapshot<W>,
}

impl<L: Naming, W: Write + Drop> Model for Wire<L, W> {
    ghost use Rattle.std.specs.Prelude.{◌≡◌, ◌≤◌, ◌<◌, true, false, Some, length};
    ghost use Rattle.wire.specs.Gathering.{gathered_contents, pauses_of, faults_of};
    ghost use Rattle.wire.specs.Wired.{Wired, IsInStep, LastIsWhole, rest_of, ends};

    ghost Value = { Wired };

    ghost view = { λ a. record {
      session = a.stub.session;
      taken = a.writer.taken;
      empties = a.writer.empties;
      channel = a.writer.channel;
      told = gathered_contents W.contents a.out;
      waiting = a.out.waiting.items;
      rest = rest_of a.host a.begun;
      pauses = pauses_of a.out;
      faults = faults_of a.out;
      host = a.host;
      taken_before = a.writer_before.value.taken;
      told_before = W.contents a.stream_before.value;
    } };

    ghost invariant = { λ a. (a.stub.outbox ≡ Some a.writer.channel)
        × IsInStep (record {
          session = a.stub.session;
          taken = a.writer.taken;
          empties = a.writer.empties;
          channel = a.writer.channel;
          told = gathered_contents W.contents a.out;
          waiting = a.out.waiting.items;
          rest = rest_of a.host a.begun;
          pauses = pauses_of a.out;
          faults = faults_of a.out;
          host = a.host;
          taken_before =
              a.writer_before.value.taken;
          told_before = W.contents a.stream_before.value;
        })
        × (a.has_last ≡ true → ends a.writer.taken ≡ true)
        × (a.is_broken ≡ true → 0 < faults_of a.out)
        × (a.is_broken ≡ false → faults_of a.out ≡ 0)
        × (a.is_broken ≡ false → LastIsWhole a.begun)
        × (length a.out.waiting.items ≤ 65536) };
}

impl<L: Naming, W: Sink + Drop> Wire<L, W> {
    /// A wire of a session that has this host, by its writer and its stub. Where there is no memory for it, the
    /// three come back.
    pub fn new(
        alloc: Global,
        writer: Writer,
        stub: Stub<L, ChannelName>,
        stream: W,
        host: Octets,
    ) -> Result<Wire<L, W>, (Writer, Stub<L, ChannelName>, Octets)>
        requires own { stub.outbox ≡ Some writer.channel }
        ensures taken { IfOk result (λ w. w.taken ≡ writer.taken) }
        ensures channel { IfOk result (λ w. w.channel ≡ writer.channel) }
        ensures host { IfOk result (λ w. w.host ≡ host) }
        ensures taken_before { IfOk result (λ w. w.taken_before ≡ writer.taken) }
        ensures told_before { IfOk result (λ w. w.told_before ≡ W.contents stream) }
        ensures faults { IfOk result (λ w. w.faults ≡ 0) }
        ensures session { IfOk result (λ w. w.session ≡ stub.session) }
        ensures err { IfErr result (λ e. (e.0 ≡ writer) × (e.1 ≡ stub) × (e.2 ≡ host)) }
    {
        let writer_before = Snapshot::of(&writer);
        let stream_before = Snapshot::of(&stream);
        let Ok(gauge) = writer.gauge().again() else {
            return Err((writer, stub, host));
        };
        let Ok(out) = WriteBuffer::new(alloc, stream, gauge) else {
            return Err((writer, stub, host));
        };
        Ok(Wire {
            writer,
            stub,
            out,
            host,
            begun: None,
            has_last: false,
            is_broken: false,
            writer_before,
            stream_before,
        })
    }

    /// Takes the item that waits longest, and answers whether there was one. It waits whole where there is room for
    /// that; else it is begun.
    fn begin_next<R: Wait>(&mut self, rt: &R) -> bool
        requires rest { self.old.rest ≡ [] }
        requires whole { self.old.faults ≡ 0 }
        ensures same { IsSameWire self.old self.new }
        ensures whole { self.new.faults ≡ 0 }
        ensures some { result ≡ true → length self.old.taken < length self.new.taken }
        ensures none { result ≡ false
            → (self.new.rest ≡ []) × (self.old.empties < self.new.empties) }
        ensures grows { length self.old.taken ≤ length self.new.taken }
    {
        let Ok(item) = self.writer.take_now(rt) else {
            return false;
        };
        self.has_last = is_last(item.delivery());
        if !keeps(item.delivery(), &mut self.out) {
            self.begun = Some(ItemWrite::new(item));
        }
        true
    }

    /// Writes what is left of the item that was begun. It answers whether that is all; else the stream takes nothing
    /// now.
    fn write_begun(&mut self) -> Result<bool, WriteFault>
        requires whole { self.old.faults ≡ 0 }
        ensures same { IsSameWire self.old self.new }
        ensures taken { self.new.taken ≡ self.old.taken }
        ensures whole { OnOk result (self.new.faults ≡ 0) }
        ensures all { IfOk result (λ all. all ≡ true → self.new.rest ≡ []) }
        ensures later { IfOk result (λ all. all ≡ false → self.old.pauses < self.new.pauses) }
        ensures fault { OnErr result (0 < self.new.faults) }
    {
        let Some(begun) = &mut self.begun else {
            return Ok(true);
        };
        match begun.write_rest(self.host.as_slice(), &mut self.out) {
            Ok(()) => {
                self.begun = None;
                Ok(true)
            }
            Err(Stop::Later) => Ok(false),
            Err(Stop::Fault(fault)) => {
                self.is_broken = true;
                Err(fault)
            }
        }
    }

    /// Writes what waits in the wire, and answers whether the stream took all.
    fn flush(&mut self) -> Result<bool, WriteFault>
        requires rest { self.old.rest ≡ [] }
        requires whole { self.old.faults ≡ 0 }
        ensures same { IsSameWire self.old self.new }
        ensures taken { self.new.taken ≡ self.old.taken }
        ensures rest { self.new.rest ≡ [] }
        ensures whole { OnOk result (self.new.faults ≡ 0) }
        ensures all { IfOk result (λ all. all ≡ true → self.new.waiting ≡ []) }
        ensures later { IfOk result (λ all. all ≡ false → self.old.pauses < self.new.pauses) }
        ensures fault { OnErr result (0 < self.new.faults) }
    {
        match self.out.flush() {
            Ok(()) => Ok(true),
            Err(Stop::Later) => Ok(false),
            Err(Stop::Fault(fault)) => {
                self.is_broken = true;
                Err(fault)
            }
        }
    }

    /// Takes the items that wait, and writes them, as many in one write as have room. It waits for none; the stream
    /// may wait. It is idle only where the outbox was found empty in this call, behind only where the stream answered
    /// in this call that it takes nothing now, and more may wait only where something was taken.
    ///
    /// It fails only where the stream answered once that it takes no more. After that nothing more is written.
    pub fn pump<R: Wait>(&mut self, rt: &R) -> Result<Flow, WriteFault>
        ensures same { IsSameWire self.old self.new }
        ensures whole { OnOk result (self.new.faults ≡ 0) }
        ensures idle { IfOk result (λ flow. flow ≡ Idle → (self.new.rest ≡ [])
            × (self.new.waiting ≡ []) × (self.old.empties < self.new.empties)) }
        ensures more { IfOk result
            (λ flow. flow ≡ More → length self.old.taken < length self.new.taken) }
        ensures behind { IfOk result (λ flow. flow ≡ Behind → self.old.pauses < self.new.pauses) }
        ensures ended { IfOk result (λ flow. flow ≡ Ended → (self.new.rest ≡ [])
            × (self.new.waiting ≡ []) × (ends self.new.taken ≡ true)) }
        ensures fault { OnErr result (0 < self.new.faults) }
    {
        if self.is_broken {
            return Err(WriteFault::Failed);
        }
        if self.begun.is_some() && !self.write_begun()? {
            return Ok(Flow::Behind);
        }
        for _turn in 0..TURNS {
            if self.has_last {
                let all = self.flush()?;
                return Ok(if all { Flow::Ended } else { Flow::Behind });
            }
            if !self.begin_next(rt) {
                let all = self.flush()?;
                return Ok(if all { Flow::Idle } else { Flow::Behind });
            }
            if self.begun.is_some() && !self.write_begun()? {
                return Ok(Flow::Behind);
            }
        }
        Ok(Flow::More)
    }

    /// The stream.
    pub fn stream(&self) -> &W
        ensures { self.now.told ≡ append_known (W.contents result.now) self.now.waiting }
    {
        self.out.stream.get()
    }

    /// The bell that ends a rest of whoever pumps.
    pub fn bell(&self) -> &Waker {
        self.writer.bell()
    }

    /// How much waits for its session: in its outbox, and in the wire itself.
    pub fn gauge(&self) -> &Gauge {
        self.writer.gauge()
    }

    /// What holds of every wire: what went out, with what waits in it, is the texts of the items taken since it was
    /// made, in order, but for the rest of the newest. At most 65,536 octets wait.
    pub fn in_step(&self)
        ensures in_step { IsInStep self.now }
        ensures few { length self.now.waiting ≤ 65536 }
    {
        let _ = &self.writer;
    }

    /// Its session.
    pub fn session(&self) -> SessionId
        ensures { result ≡ self.now.session }
    {
        self.stub.session()
    }

    /// Gives the writer and the stub back. What waits in the wire is given to the stream, which is closed.
    pub fn apart(self) -> (Writer, Stub<L, ChannelName>)
        ensures taken { result.0.taken ≡ self.taken }
        ensures channel { result.0.channel ≡ self.channel }
        ensures session { result.1.session ≡ self.session }
        ensures own { result.1.outbox ≡ Some result.0.channel }
    {
        let Wire {
            writer,
            stub,
            mut out,
            ..
        } = self;
        let _ = out.flush();
        (writer, stub)
    }
}

/// Whether a delivery is a session's last.
fn is_last(delivery: &Delivery) -> bool
    ensures { result ≡ is_last delivery.now }
{
    match delivery {
        Delivery::Lines { .. } => false,
        Delivery::Last { .. } => true,
    }
}

/// Has the text of lines wait, where there is room for all of it, and answers whether there was. A session's last item
/// never waits so.
fn keeps<W: Sink + Drop>(delivery: &Delivery, out: &mut WriteBuffer<W>) -> bool
    ensures stream { out.new.stream ≡ out.old.stream }
    ensures kept { result ≡ true → (host : List ℕ) → out.new.waiting.items
        ≡ out.old.waiting.items ++ delivery_text delivery.now host }
    ensures not { result ≡ false → out.new.waiting.items ≡ out.old.waiting.items }
    ensures few { length out.old.waiting.items ≤ 65536 → length out.new.waiting.items ≤ 65536 }
{
    match delivery {
        Delivery::Lines { text, .. } => out.keep(text.as_slice()),
        Delivery::Last { .. } => false,
    }
}
