//! A session's items as messages, a line each.
//!
//! What waits is octets, then lines: frames wait in the output, and the lines of an item for which it has no room wait
//! as they are and share the item's text. Nothing is written before a flush, so lines that come together go out
//! together. A line for which there is no memory stays where it is, and a later flush goes on.
ghost use Rattle.std.specs.Prelude.{◌≡◌, ◌≤◌, ◌<◌, ◌+◌, ◌↔◌, ◌⊎◌, [], true, false, length};
ghost use Rattle.std.specs.Prelude.{drop, IsTrue, None, Ok, Err, IfOk, OnOk, IfErr};
ghost use Rattle.tungstenite.specs.Connection.{can_write};
ghost use Rattle.websocket.specs.declared.protocol.config.Role.TheVariants.{Server};
ghost use Rattle.websocket_front.specs.Causes.{Grows, Answers, Pauses};
ghost use Rattle.websocket_front.specs.Lines.{line_length, lines};
ghost use Rattle.websocket_front.specs.Frames.{IsNext};
ghost use Rattle.websocket_front.specs.Fronted.{with_causes, waiting, waiting_with, output_with_close};
ghost use Rattle.websocket_front.specs.Fronted.{GoesOut, FramesNext, IsOut, IsUnsent, IsNotOut};

use crate::counted_socket::CountedSocket;
use crate::front::{Front, FrontEnd, FrontFault};
use crate::subprotocol::Subprotocol;
use deliveries::Item;
use std::io::{Read, Write};
use tungstenite::{CloseCode, Message};

/// How often `send_item` goes on where the stream takes nothing.
const TRIES: u32 = 1024;

/// What came of the next line.
#[derive(Clone, Copy, Debug, PartialEq)]
pub(crate) enum Framed {
    /// It is in a frame.
    One,
    /// There is none.
    All,
    /// The output has no room for its frame, or there is no memory for it.
    Full,
}

/// Where the line that begins at a place ends.
fn line_end(text: &[u8], place: usize) -> usize
    requires { place ≤ length text.now }
    ensures first { result ≡ place + line_length (drop place text.now) }
    ensures within { result ≤ length text.now }
{
    let mut end = place;
    while end < text.len() {
        if text[end..].starts_with(b"\r\n") {
            return end;
        }
        end += 1;
    }
    end
}

/// The line that begins at a place as a message, and where the next begins.
fn next_message<S: Read + Write + Drop>(
    socket: &mut CountedSocket<S>,
    subprotocol: Subprotocol,
    text: &[u8],
    place: usize,
) -> Result<(Message, usize), FrontFault>
    requires { place < length text.now }
    ensures next { IfOk result (IsNext subprotocol (drop place text.now) text.now) }
    ensures inner { socket.new.inner ≡ socket.old.inner }
    ensures memory { IfErr result (λ e. e ≡ FrontFault.Memory) }
    ensures grows { Grows socket.old.causes.value socket.new.causes.value }
    ensures cause { IfErr result (λ f. Answers f socket.old.causes.value socket.new.causes.value) }
{
    let end = line_end(text, place);
    let message = socket.message(subprotocol, &text[place..end])?;
    Ok((message, end + 2))
}

/// Writes the line that begins at a place into a socket's output, where that has room, and answers where the next one
/// begins.
#[tactic(auto, using(crate::proofs::Growing::grows_trans, crate::proofs::Growing::answers_after))]
fn frame_line<S: Read + Write + Drop>(
    socket: &mut CountedSocket<S>,
    subprotocol: Subprotocol,
    text: &[u8],
    place: usize,
) -> Result<Option<usize>, FrontFault>
    requires server { socket.old.inner.conn.role ≡ Server }
    requires inside { place < length text.now }
    ensures ok { IfOk result (FramesNext S.contents subprotocol
        (drop place text.now) text.now socket.old.inner socket.new.inner) }
    ensures memory { result ≡ Err FrontFault.Memory → socket.new.inner ≡ socket.old.inner }
    ensures grows { Grows socket.old.causes.value socket.new.causes.value }
    ensures no_room { result ≡ Ok None
        → Answers FrontFault.Memory socket.old.causes.value socket.new.causes.value }
    ensures cause { IfErr result (λ f. Answers f socket.old.causes.value socket.new.causes.value) }
{
    let (message, next) = next_message(socket, subprotocol, text, place)?;
    match socket.write(message) {
        Ok(true) => Ok(Some(next)),
        Ok(false) => Ok(None),
        Err(fault) => Err(fault),
    }
}

impl<S: Read + Write + Drop> Front<S> {
    /// Whether an item may be put: each line of the one before is in a frame.
    pub fn is_ready(&self) -> bool
        ensures { IsTrue result ↔ (self.now.rest ≡ []) }
    {
        match &self.begun {
            Some(text) => text.as_slice().len() <= self.place,
            None => true,
        }
    }

    /// Has an item wait, for a session that has this host: each of its lines for which the output has room as a frame,
    /// and the others as they are, until a flush makes room. For want of memory it changes nothing.
    #[tactic(auto, using(crate::proofs::Growing::grows_trans, crate::proofs::Growing::answers_after))]
    pub fn put_item(&mut self, item: &Item, host: &[u8]) -> Result<(), FrontFault>
        requires ready { self.old.rest ≡ [] }
        ensures ok { OnOk result (GoesOut S.contents self.old.socket.stream
            (waiting_with self.old item.now.delivery host.now) self.new) }
        ensures memory { result ≡ Err FrontFault.Memory → self.old.is_open ≡ true
            → self.new ≡ with_causes self.old self.new.causes }
        ensures grows { Grows self.old.causes self.new.causes }
        ensures cause { self.old.is_open ≡ true
            → IfErr result (λ f. IsUnsent f self.old self.new) }
        ensures stays_open { OnOk result (self.new.is_open ≡ true) }
        ensures subprotocol { self.new.subprotocol ≡ self.old.subprotocol }
    {
        match self.ending {
            Some(FrontEnd::Closed) => return Err(FrontFault::Protocol),
            Some(FrontEnd::Failed(fault)) => return Err(fault),
            None => {}
        }
        if !self.socket.get().can_write() {
            return Err(FrontFault::Protocol);
        }
        let text = self.socket.text(item.delivery(), host)?;
        self.begun = Some(text);
        self.place = 0;
        self.frame_lines()
    }

    /// Puts lines into frames while the output has room and there is memory.
    #[tactic(auto, using(crate::proofs::Growing::grows_trans, crate::proofs::Growing::answers_after))]
    fn frame_lines(&mut self) -> Result<(), FrontFault>
        requires is_open { self.old.is_open ≡ true }
        ensures ok { OnOk result
            (GoesOut S.contents self.old.socket.stream (waiting self.old) self.new) }
        ensures memory { IfErr result (λ e. e ≡ FrontFault.Memory → ⊥) }
        ensures grows { Grows self.old.causes self.new.causes }
        ensures cause { IfErr result (λ f. Answers f self.old.causes self.new.causes) }
        ensures stays_open { OnOk result (self.new.is_open ≡ true) }
        ensures subprotocol { self.new.subprotocol ≡ self.old.subprotocol }
    {
        for _ in 0..usize::MAX {
            match self.frame_next() {
                Ok(Framed::One) => {}
                Ok(_) => return Ok(()),
                Err(fault) => return Err(fault),
            }
        }
        Ok(())
    }

    /// Puts the next line into a frame.
    fn frame_next(&mut self) -> Result<Framed, FrontFault>
        requires is_open { self.old.is_open ≡ true }
        ensures ok { OnOk result
            (GoesOut S.contents self.old.socket.stream (waiting self.old) self.new) }
        ensures stays_open { OnOk result (self.new.is_open ≡ true) }
        ensures one { result ≡ Ok Framed.One
            → length (lines self.old.rest) ≡ length (lines self.new.rest) + 1 }
        ensures all { result ≡ Ok Framed.All → self.new.rest ≡ [] }
        ensures memory { IfErr result (λ e. e ≡ FrontFault.Memory → ⊥) }
        ensures full { result ≡ Ok Framed.Full
            → self.new ≡ with_causes self.old self.new.causes }
        ensures no_room { result ≡ Ok Framed.Full
            → Answers FrontFault.Memory self.old.causes self.new.causes }
        ensures grows { Grows self.old.causes self.new.causes }
        ensures cause { IfErr result (λ f. Answers f self.old.causes self.new.causes) }
        ensures subprotocol { self.new.subprotocol ≡ self.old.subprotocol }
    {
        let Some(text) = &self.begun else {
            return Ok(Framed::All);
        };
        if text.as_slice().len() <= self.place {
            self.begun = None;
            return Ok(Framed::All);
        }
        let (octets, place) = (text.as_slice(), self.place);
        match frame_line(&mut self.socket, self.subprotocol, octets, place) {
            Ok(Some(next)) => {
                self.place = next;
                Ok(Framed::One)
            }
            Ok(None) => Ok(Framed::Full),
            Err(FrontFault::Memory) => Ok(Framed::Full),
            Err(fault) => {
                self.begun = None;
                self.ending = Some(FrontEnd::Failed(fault));
                Err(fault)
            }
        }
    }

    /// Writes what waits, and answers whether all is out: if not, the stream takes no more now. For want of memory
    /// nothing is lost, and it may be called again. After the client's close, or a fault that isn't the stream's, what
    /// waits are the frames up to the answer, or to the close that says what was wrong.
    #[tactic(auto, using(crate::proofs::Growing::grows_trans, crate::proofs::Growing::answers_after))]
    pub fn flush(&mut self) -> Result<bool, FrontFault>
        ensures ok { OnOk result
            (GoesOut S.contents self.old.socket.stream (waiting self.old) self.new) }
        ensures all { result ≡ Ok true → waiting self.new ≡ [] }
        ensures ready { result ≡ Ok true → self.new.rest ≡ [] }
        ensures behind { result ≡ Ok false → Pauses self.old.causes self.new.causes }
        ensures grows { Grows self.old.causes self.new.causes }
        ensures cause { self.old.is_open ≡ true
            → IfErr result (λ f. Answers f self.old.causes self.new.causes) }
        ensures memory { result ≡ Err FrontFault.Memory → self.new.is_open ≡ true
            → GoesOut S.contents self.old.socket.stream (waiting self.old) self.new }
        ensures stays_open { OnOk result (self.new.is_open ≡ self.old.is_open) }
        ensures subprotocol { self.new.subprotocol ≡ self.old.subprotocol }
    {
        match self.ending {
            Some(FrontEnd::Failed(FrontFault::Io)) => return Err(FrontFault::Io),
            Some(FrontEnd::Closed | FrontEnd::Failed(_)) => return self.send_output(),
            None => {}
        }
        let mut is_out = false;
        loop {
            match self.frame_next()? {
                Framed::One => is_out = false,
                Framed::All => return self.send_output(),
                Framed::Full => {
                    if is_out {
                        return Err(FrontFault::Memory);
                    }
                    if !self.send_output()? {
                        return Ok(false);
                    }
                    is_out = true;
                }
            }
        }
    }

    /// Writes the output, and answers whether all of it is out.
    fn send_output(&mut self) -> Result<bool, FrontFault>
        ensures ok { OnOk result
            (GoesOut S.contents self.old.socket.stream (waiting self.old) self.new) }
        ensures out { result ≡ Ok true → self.new.socket.output ≡ [] }
        ensures rest { OnOk result (self.new.rest ≡ self.old.rest) }
        ensures stays_open { OnOk result (self.new.is_open ≡ self.old.is_open) }
        ensures io { IfErr result (λ e. e ≡ FrontFault.Io) }
        ensures behind { result ≡ Ok false → Pauses self.old.causes self.new.causes }
        ensures grows { Grows self.old.causes self.new.causes }
        ensures cause { IfErr result (λ f. Answers f self.old.causes self.new.causes) }
        ensures subprotocol { self.new.subprotocol ≡ self.old.subprotocol }
    {
        match self.socket.flush() {
            Ok(is_out) => Ok(is_out),
            Err(fault) => {
                self.begun = None;
                self.ending = Some(FrontEnd::Failed(fault));
                Err(fault)
            }
        }
    }

    /// Flushes until all is out.
    #[tactic(auto, using(crate::proofs::Growing::grows_trans, crate::proofs::Growing::answers_after))]
    fn flush_all(&mut self) -> Result<(), FrontFault>
        ensures ok { OnOk result
            (GoesOut S.contents self.old.socket.stream (waiting self.old) self.new) }
        ensures out { OnOk result (waiting self.new ≡ []) }
        ensures ready { OnOk result (self.new.rest ≡ []) }
        ensures grows { Grows self.old.causes self.new.causes }
        ensures cause { self.old.is_open ≡ true
            → IfErr result (λ f. Answers f self.old.causes self.new.causes
            ⊎ ((f ≡ FrontFault.Io) × (self.old.causes.pauses + 1024 ≤ self.new.causes.pauses))) }
        ensures stays_open { OnOk result (self.new.is_open ≡ self.old.is_open) }
        ensures subprotocol { self.new.subprotocol ≡ self.old.subprotocol }
    {
        for turn in 0..TRIES {
            if self.flush()? {
                return Ok(());
            }
        }
        self.begun = None;
        self.ending = Some(FrontEnd::Failed(FrontFault::Io));
        Err(FrontFault::Io)
    }

    /// Writes what waits, and then an item for a session that has this host: one message for each of its lines,
    /// without CR LF. A text message has U+FFFD for what isn't UTF-8. Where the stream takes nothing it tries again,
    /// 1,024 times in all; then it is a fault of the stream.
    #[tactic(auto, using(crate::proofs::Growing::grows_trans, crate::proofs::Growing::answers_after))]
    pub fn send_item(&mut self, item: &Item, host: &[u8]) -> Result<(), FrontFault>
        ensures ok { OnOk result (IsOut S.contents self.old.socket.stream
            (waiting_with self.old item.now.delivery host.now) self.new) }
        ensures cause { self.old.is_open ≡ true
            → IfErr result (λ f. IsNotOut f self.old self.new) }
        ensures stays_open { OnOk result (self.new.is_open ≡ true) }
        ensures subprotocol { self.new.subprotocol ≡ self.old.subprotocol }
    {
        self.flush_all()?;
        self.put_item(item, host)?;
        self.flush_all()
    }

    /// Has a close with this code wait, after the frames that wait. Lines that have no frame yet are given up. Where a
    /// close was sent or the client closed it does nothing.
    pub fn close(&mut self, code: CloseCode) -> Result<(), FrontFault>
        ensures ok { OnOk result (can_write self.old.socket.conn.state ≡ true
            → self.old.is_open ≡ true → GoesOut S.contents self.old.socket.stream
            (output_with_close self.old code) self.new) }
        ensures cause { self.old.is_open ≡ true
            → IfErr result (λ f. Answers f self.old.causes self.new.causes) }
        ensures stays_open { OnOk result (self.new.is_open ≡ self.old.is_open) }
        ensures subprotocol { self.new.subprotocol ≡ self.old.subprotocol }
    {
        match self.ending {
            Some(FrontEnd::Closed) => return Ok(()),
            Some(FrontEnd::Failed(fault)) => return Err(fault),
            None => {}
        }
        if !self.socket.get().can_write() {
            return Ok(());
        }
        match self.socket.close(code) {
            Ok(()) => {
                self.begun = None;
                Ok(())
            }
            Err(FrontFault::Memory) => Err(FrontFault::Memory),
            Err(fault) => {
                self.begun = None;
                self.ending = Some(FrontEnd::Failed(fault));
                Err(fault)
            }
        }
    }
}
