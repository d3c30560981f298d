//! A socket with its memory, of which clauses know what they answered.
//!
//! A count grows where the socket or the memory gave that answer in the call, as these bodies show.
ghost use Rattle.std.specs.Prelude.{◌≡◌, [], true, false, Ok, IfOk, OnOk, IfErr, MatchResult};
ghost use Rattle.deliveries.specs.Text.{delivery_text};
ghost use Rattle.tungstenite.specs.Connection.{can_write};
ghost use Rattle.tungstenite.specs.Socket.{Reads, Flushed, content_of};
ghost use Rattle.websocket.specs.declared.protocol.config.Role.TheVariants.{Server};
ghost use Rattle.websocket_front.specs.Causes.{count_one, Grows, Answers, Pauses};
ghost use Rattle.websocket_front.specs.Faults.{meaning};
ghost use Rattle.websocket_front.specs.Frames.{message, frame_of, IsSendable};
ghost use Rattle.websocket_front.specs.Fronted.{close_of_code, Gains};

use crate::front::{FrontFault, Meaning, close_frame, meaning_of, refuse};
use crate::subprotocol::Subprotocol;
use deliveries::{Delivery, Text, write_out};
use line_grammar::Octets;
use snapshots::{GhostChange, Snapshot, apply};
use std::alloc::{AllocError, Global};
use std::io::{Read, Write};
use tungstenite::{CloseCode, Error, Message, NoMask, Utf8Bytes, WebSocket};

/// How often a socket and its memory answered what.
#[derive(Clone, Copy)]
pub struct Causes {
    /// That the stream has or takes nothing now.
    pub pauses: u64,
    /// That the stream failed.
    pub failures: u64,
    /// That the client broke the protocol, or that a close was sent or had come before.
    pub breaches: u64,
    /// That there is no memory, or that the output has no room.
    pub shortages: u64,
}

// One answer more.
struct CountsCauses;

impl GhostChange<Causes, Meaning> for CountsCauses {
    ghost use Rattle.websocket_front.specs.Causes.{count_one};

    ghost changed = { λ c m. count_one m c };
}

/// A line as a message.
fn message_of(alloc: Global, subprotocol: Subprotocol, line: &[u8]) -> Result<Message, AllocError>
    ensures { IfOk result (λ m. content_of m ≡ message subprotocol line.now) }
{
    match subprotocol {
        Subprotocol::Text => {
            let text = String::from_utf8_lossy(alloc, line)?;
            Ok(Message::Text(Utf8Bytes::from_string(text)?))
        }
        Subprotocol::Binary => Message::binary(alloc, line),
    }
}

/// A delivery's text, for a session that has this host.
fn text_of(alloc: Global, delivery: &Delivery, host: &[u8]) -> Result<Text, AllocError>
    ensures { IfOk result (λ t. t ≡ delivery_text delivery.now host.now) }
{
    match delivery {
        Delivery::Lines { text, .. } => text.clone(),
        Delivery::Last { .. } => {
            let mut octets = Vec::new(alloc);
            match write_out(delivery, host, &mut octets) {
                (_, Ok(())) => Text::new(alloc, Octets::from_vec(octets)),
                (_, Err(_)) => Err(AllocError),
            }
        }
    }
}

/// A socket with its memory. What they answered exists for clauses alone.
#[derive(Drop)]
pub(crate) struct CountedSocket<S: Read + Write + Drop> {
    alloc: Global,
    inner: WebSocket<S, NoMask>,
    causes: Snapshot<Causes>,
}

impl<S: Read + Write + Drop> CountedSocket<S> {
    /// A socket that was asked nothing yet.
    pub(crate) fn new(alloc: Global, inner: WebSocket<S, NoMask>) -> CountedSocket<S>
        ensures { result.inner ≡ inner }
    {
        let causes = Causes {
            pauses: 0,
            failures: 0,
            breaches: 0,
            shortages: 0,
        };
        CountedSocket {
            alloc,
            inner,
            causes: Snapshot::of(&causes),
        }
    }

    /// The socket.
    pub(crate) fn get(&self) -> &WebSocket<S, NoMask>
        ensures { result.now ≡ self.now.inner }
    {
        &self.inner
    }

    /// An answer is counted.
    fn count(&mut self, meaning: Meaning)
        ensures inner { self.new.inner ≡ self.old.inner }
        ensures causes { self.new.causes.value ≡ count_one meaning self.old.causes.value }
    {
        apply::<CountsCauses, Causes, Meaning>(&mut self.causes, &meaning);
    }

    /// A fault, which is counted.
    #[tactic(auto, using(crate::proofs::Growing::counted_answers, crate::proofs::Growing::counted_grows))]
    fn end_with(&mut self, fault: FrontFault) -> FrontFault
        ensures inner { self.new.inner ≡ self.old.inner }
        ensures fault { result ≡ fault }
        ensures grows { Grows self.old.causes.value self.new.causes.value }
        ensures cause { Answers fault self.old.causes.value self.new.causes.value }
    {
        self.count(Meaning::Fault(fault));
        fault
    }

    /// A copy of octets.
    pub(crate) fn copy(&mut self, octets: &[u8]) -> Result<Vec<u8>, FrontFault>
        ensures copied { IfOk result (λ v. v.items ≡ octets.now) }
        ensures inner { self.new.inner ≡ self.old.inner }
        ensures grows { Grows self.old.causes.value self.new.causes.value }
        ensures memory { IfErr result (λ f. f ≡ FrontFault.Memory) }
        ensures cause { IfErr result (λ f. Answers f self.old.causes.value self.new.causes.value) }
    {
        match octets.to_vec(self.alloc) {
            Ok(octets) => Ok(octets),
            Err(_) => Err(self.end_with(FrontFault::Memory)),
        }
    }

    /// A delivery's text, for a session that has this host.
    pub(crate) fn text(&mut self, delivery: &Delivery, host: &[u8]) -> Result<Text, FrontFault>
        ensures text { IfOk result (λ t. t ≡ delivery_text delivery.now host.now) }
        ensures inner { self.new.inner ≡ self.old.inner }
        ensures grows { Grows self.old.causes.value self.new.causes.value }
        ensures memory { IfErr result (λ f. f ≡ FrontFault.Memory) }
        ensures cause { IfErr result (λ f. Answers f self.old.causes.value self.new.causes.value) }
    {
        match text_of(self.alloc, delivery, host) {
            Ok(text) => Ok(text),
            Err(_) => Err(self.end_with(FrontFault::Memory)),
        }
    }

    /// A line as a message.
    pub(crate) fn message(
        &mut self,
        subprotocol: Subprotocol,
        line: &[u8],
    ) -> Result<Message, FrontFault>
        ensures message { IfOk result (λ m. content_of m ≡ message subprotocol line.now) }
        ensures inner { self.new.inner ≡ self.old.inner }
        ensures grows { Grows self.old.causes.value self.new.causes.value }
        ensures memory { IfErr result (λ f. f ≡ FrontFault.Memory) }
        ensures cause { IfErr result (λ f. Answers f self.old.causes.value self.new.causes.value) }
    {
        match message_of(self.alloc, subprotocol, line) {
            Ok(message) => Ok(message),
            Err(_) => Err(self.end_with(FrontFault::Memory)),
        }
    }

    /// Reads the next message.
    pub(crate) fn read(&mut self) -> Result<Message, Error>
        ensures reads { Reads S.remaining self.old.inner self.new.inner result }
        ensures causes { MatchResult result
            (λ _. self.new.causes.value ≡ self.old.causes.value)
            (λ e. self.new.causes.value ≡ count_one (meaning e) self.old.causes.value) }
    {
        match self.inner.read() {
            Ok(message) => Ok(message),
            Err(error) => {
                self.count(meaning_of(&error));
                Err(error)
            }
        }
    }

    /// Writes a message into the output, where that has room.
    pub(crate) fn write(&mut self, message: Message) -> Result<bool, FrontFault>
        requires server { self.old.inner.conn.role ≡ Server }
        requires sendable { IsSendable (content_of message) }
        ensures taken { IfOk result (λ b. b ≡ true
            → Gains S.contents self.old.inner self.new.inner (frame_of (content_of message))) }
        ensures full { IfOk result (λ b. b ≡ false → self.new.inner ≡ self.old.inner) }
        ensures memory { result ≡ Err FrontFault.Memory → self.new.inner ≡ self.old.inner }
        ensures grows { Grows self.old.causes.value self.new.causes.value }
        ensures no_room { result ≡ Ok false
            → Answers FrontFault.Memory self.old.causes.value self.new.causes.value }
        ensures cause { IfErr result (λ f. Answers f self.old.causes.value self.new.causes.value) }
    {
        match self.inner.write(message) {
            Ok(()) => Ok(true),
            Err(Error::WriteBufferFull) => {
                self.end_with(FrontFault::Memory);
                Ok(false)
            }
            Err(error) => match meaning_of(&error) {
                Meaning::Later => Ok(true),
                Meaning::Closed => Err(self.end_with(FrontFault::Protocol)),
                Meaning::Fault(fault) => Err(self.end_with(fault)),
            },
        }
    }

    /// Writes the output, and answers whether all of it is out.
    pub(crate) fn flush(&mut self) -> Result<bool, FrontFault>
        ensures sent { Flushed S.contents self.old.inner self.new.inner }
        ensures out { result ≡ Ok true → self.new.inner.output ≡ [] }
        ensures grows { Grows self.old.causes.value self.new.causes.value }
        ensures behind { result ≡ Ok false
            → Pauses self.old.causes.value self.new.causes.value }
        ensures io { IfErr result (λ f. f ≡ FrontFault.Io) }
        ensures cause { IfErr result (λ f. Answers f self.old.causes.value self.new.causes.value) }
    {
        match self.inner.flush() {
            Ok(()) => Ok(true),
            Err(error) => match meaning_of(&error) {
                Meaning::Later => {
                    self.count(Meaning::Later);
                    Ok(false)
                }
                _ => Err(self.end_with(FrontFault::Io)),
            },
        }
    }

    /// Writes a close with this code into the output, and then as much of that as the stream takes now.
    pub(crate) fn close(&mut self, code: CloseCode) -> Result<(), FrontFault>
        requires server { self.old.inner.conn.role ≡ Server }
        requires opened { can_write self.old.inner.conn.state ≡ true }
        ensures taken { OnOk result
            (Gains S.contents self.old.inner self.new.inner (close_of_code code)) }
        ensures memory { result ≡ Err FrontFault.Memory → self.new.inner ≡ self.old.inner }
        ensures cause { IfErr result (λ f. Answers f self.old.causes.value self.new.causes.value) }
    {
        match self.inner.close(Some(close_frame(code))) {
            Ok(()) => Ok(()),
            Err(error) => match meaning_of(&error) {
                Meaning::Later => Ok(()),
                Meaning::Closed => Err(self.end_with(FrontFault::Protocol)),
                Meaning::Fault(fault) => Err(self.end_with(fault)),
            },
        }
    }

    /// Sends a client a close that says what was wrong, as far as the stream takes it now. What comes of it isn't
    /// counted.
    pub(crate) fn refuse(&mut self, error: &Error, was_open: bool)
        ensures { self.new.causes.value ≡ self.old.causes.value }
    {
        refuse(&mut self.inner, error, was_open);
    }
}
