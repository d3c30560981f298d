//! A session's WebSocket after its handshake.
ghost use Rattle.std.specs.Prelude.{◌≡◌, [], true, false, Some, Ok, IfOk, OnOk, IfErr};
ghost use Rattle.std.specs.IoError.{error_kind};
ghost use Rattle.websocket.specs.declared.protocol.config.Role.TheVariants.{Server};
ghost use Rattle.websocket.specs.declared.protocol.frame.coding.CloseCode.TheVariants as codes;
ghost use Rattle.tungstenite.specs.Failure.{IsIo};
ghost use Rattle.websocket_front.specs.Causes.{Grows, Answers, Pauses};
ghost use Rattle.websocket_front.specs.Faults.{fault_of_breach, is_passing, meaning, IfLater};
ghost use Rattle.websocket_front.specs.Fronted.{close_of_code, with_causes};
ghost use Rattle.websocket_front.specs.Reading.{Gives, GivesOne, Fails, FailsOnce, IsGiven, GoesOn, GoesOnOne};
ghost use Rattle.websocket_front.specs.Reading.{FailsBecause};

use crate::counted_socket::CountedSocket;
use crate::subprotocol::Subprotocol;
use deliveries::Text;
use std::alloc::Global;
use std::io;
use std::io::{ErrorKind, Read, Write};
use std::marker::Model;
use tungstenite::{
    Bytes, CloseCode, CloseFrame, Error, Message, NoMask, Utf8Bytes, WebSocket, WebSocketConfig,
};
use websocket::error::ProtocolError;

/// How many octets one read asks for.
const ROOM: usize = 4096;

/// How many octets of frames may wait to be written before a line waits for its frame.
const OUTPUT: usize = 65_536;

/// How many octets a client's message may have, and each frame of it.
const MESSAGE: usize = 8192;

/// Why a call came to nothing.
#[derive(Clone, Copy, Debug, PartialEq)]
pub enum FrontFault {
    /// The stream failed, or ended without a close.
    Io,
    /// The client broke the protocol, or sent what is too long or no UTF-8; or something was to be sent after a close.
    Protocol,
    /// There was no memory.
    Memory,
}

/// What was read of a client.
#[derive(Drop)]
pub enum Got {
    /// The octets of a text or of a binary message.
    Payload(Vec<u8>),
    /// The stream has nothing now.
    Nothing,
    /// The client closed.
    Closed,
}

/// How a front ended.
#[derive(Clone, Copy, Debug, PartialEq)]
pub(crate) enum FrontEnd {
    /// The client closed.
    Closed,
    /// It failed.
    Failed(FrontFault),
}

/// What an error of the socket means.
#[derive(Clone, Copy, Debug, PartialEq)]
pub(crate) enum Meaning {
    /// The stream has or takes nothing now.
    Later,
    /// The client closed.
    Closed,
    /// The front fails.
    Fault(FrontFault),
}

/// A session's WebSocket on a stream.
#[derive(Drop)]
pub struct Front<S: Read + Write + Drop> {
    pub(crate) socket: CountedSocket<S>,
    pub(crate) subprotocol: Subprotocol,
    // The text of the item that was put last, whose lines before a place are in frames.
    pub(crate) begun: Option<Text>,
    pub(crate) place: usize,
    pub(crate) ending: Option<FrontEnd>,
}

impl<S: Read + Write + Drop> Model for Front<S> {
    ghost use Rattle.std.specs.Prelude.{◌≡◌, [], true, false};
    ghost use Rattle.websocket.specs.declared.protocol.config.Role.TheVariants.{Server};
    ghost use Rattle.websocket_front.specs.Fronted.{Fronted, fronted_code, rest_of, is_open_of};

    ghost Value = { Fronted S };

    ghost coded = { fronted_code S.code };

    ghost view = { λ a. record {
      socket = a.socket.inner;
      causes = a.socket.causes.value;
      subprotocol = a.subprotocol;
      rest = rest_of a.begun a.place;
      is_open = is_open_of a.ending;
    } };

    ghost invariant = { λ a. (is_open_of a.ending ≡ true → a.socket.inner.conn.role ≡ Server)
        × (is_open_of a.ending ≡ false → rest_of a.begun a.place ≡ []) };
}

/// Whether an error only says that the stream has or takes nothing now.
pub(crate) fn is_later(error: &io::Error) -> bool
    ensures { result ≡ is_passing (error_kind error.now) }
{
    match error.kind() {
        ErrorKind::WouldBlock | ErrorKind::TimedOut | ErrorKind::Interrupted => true,
        _ => false,
    }
}

/// The limits of a session's socket. Nothing is written before a flush.
pub(crate) fn limits() -> WebSocketConfig {
    WebSocketConfig::default()
        .read_buffer_size(ROOM)
        .write_buffer_size(usize::MAX)
        .max_write_buffer_size(OUTPUT)
        .max_message_size(Some(MESSAGE))
        .max_frame_size(Some(MESSAGE))
}

/// The fault that a breach of the protocol is.
fn fault_of_breach(breach: &ProtocolError) -> FrontFault
    ensures { result ≡ fault_of_breach breach.now }
{
    match breach {
        ProtocolError::ResetWithoutClosingHandshake => FrontFault::Io,
        _ => FrontFault::Protocol,
    }
}

/// What an error of the socket means.
pub(crate) fn meaning_of(error: &Error) -> Meaning
    ensures meaning { result ≡ meaning error.now }
    ensures io { IfLater result (IsIo error.now) }
{
    match error {
        Error::Io(cause) => {
            if is_later(cause) {
                Meaning::Later
            } else {
                Meaning::Fault(FrontFault::Io)
            }
        }
        Error::ConnectionClosed => Meaning::Closed,
        Error::OutOfMemory => Meaning::Fault(FrontFault::Memory),
        Error::Protocol(breach) => Meaning::Fault(fault_of_breach(breach)),
        _ => Meaning::Fault(FrontFault::Protocol),
    }
}

/// The code with which to close after an error of the socket (RFC 6455, section 7.4.1), where the client may still
/// read.
fn close_code(error: &Error) -> Option<CloseCode> {
    match error {
        Error::Protocol(ProtocolError::ResetWithoutClosingHandshake) => None,
        Error::Protocol(_) => Some(CloseCode::Protocol),
        Error::Utf8 => Some(CloseCode::Invalid),
        Error::Capacity(_) => Some(CloseCode::Size),
        Error::OutOfMemory => Some(CloseCode::Error),
        _ => None,
    }
}

/// A close without words.
pub(crate) fn close_frame(code: CloseCode) -> CloseFrame
    ensures code { result.code ≡ code }
    ensures no_reason { result.reason ≡ [] }
{
    CloseFrame {
        code,
        reason: Utf8Bytes::new(),
    }
}

/// A close for want of memory without words, as a server sends it (RFC 6455, sections 5.2 and 5.5.1): the octets that
/// [`Front`] would write, for where there is no memory to have it write them.
pub fn close_for_memory() -> [u8; 4]
    ensures { result ≡ close_of_code codes.Error }
{
    [0x88, 0x02, 0x03, 0xF3]
}

/// Whether the library took a socket for ended that was open before, since it had no memory for a whole message of
/// its client: then it sends no close. Nothing is written to find out, since one that is open is never asked.
fn is_given_up<S: Read + Write + Drop>(socket: &mut WebSocket<S, NoMask>) -> bool {
    !socket.can_write()
        && matches!(
            socket.write(Message::Ping(Bytes::new())),
            Err(Error::AlreadyClosed)
        )
}

/// Sends a client a close that says what was wrong, as far as the stream takes it now: that it broke the protocol, or
/// that memory was wanting. `was_open` says that no close had been sent when the error came.
pub(crate) fn refuse<S: Read + Write + Drop>(
    socket: &mut WebSocket<S, NoMask>,
    error: &Error,
    was_open: bool,
) {
    let Some(code) = close_code(error) else {
        return;
    };
    if was_open && is_given_up(socket) {
        if socket.flush().is_ok() {
            let _ = socket.get_mut().write(&close_for_memory());
        }
    } else {
        let _ = socket.close(Some(close_frame(code)));
    }
}

impl<S: Read + Write + Drop> Front<S> {
    /// A front of a client that was answered.
    pub(crate) fn new(
        alloc: Global,
        socket: WebSocket<S, NoMask>,
        subprotocol: Subprotocol,
    ) -> Front<S>
        requires server { socket.conn.role ≡ Server }
        ensures socket { result.socket ≡ socket }
        ensures subprotocol { result.subprotocol ≡ subprotocol }
        ensures rest { result.rest ≡ [] }
        ensures stays_open { result.is_open ≡ true }
    {
        Front {
            socket: CountedSocket::new(alloc, socket),
            subprotocol,
            begun: None,
            place: 0,
            ending: None,
        }
    }

    /// What the messages to the client are.
    pub fn subprotocol(&self) -> Subprotocol
        ensures { result ≡ self.now.subprotocol }
    {
        self.subprotocol
    }

    /// The stream.
    pub fn stream(&self) -> &S
        ensures { result.now ≡ self.now.socket.stream }
    {
        self.socket.get().get_ref()
    }

    /// Reads the client's next payload. Pings are answered on the way, however many they are: `read_message` reads one
    /// message.
    ///
    /// A payload has at most 8,192 octets, and is given as it is, whatever the subprotocol. After `Closed` the
    /// client's close is answered, as far as the stream takes it; a later flush sends the rest. After a breach of the
    /// protocol, and for want of memory, the client is sent a close that says which, in the same way. After a fault
    /// nothing more is read, and no line is taken.
    #[tactic(auto, using(crate::proofs::Growing::grows_trans, crate::proofs::Growing::answers_after))]
    pub fn next(&mut self) -> Result<Got, FrontFault>
        ensures gives { self.old.is_open ≡ true
            → IfOk result (Gives S.remaining self.old.socket self.new.socket) }
        ensures fails { self.old.is_open ≡ true → IfErr result (Fails S.remaining self.old.socket) }
        ensures goes_on { self.old.is_open ≡ true → IfOk result (GoesOn self.new.is_open) }
        ensures nothing { self.old.is_open ≡ true → result ≡ Ok Got.Nothing
            → Pauses self.old.causes self.new.causes }
        ensures cause { self.old.is_open ≡ true
            → IfErr result (λ f. FailsBecause S.remaining f self.old self.new) }
        ensures rest { self.new.is_open ≡ true → self.new.rest ≡ self.old.rest }
        ensures subprotocol { self.new.subprotocol ≡ self.old.subprotocol }
    {
        match self.ending {
            Some(FrontEnd::Closed) => return Ok(Got::Closed),
            Some(FrontEnd::Failed(fault)) => return Err(fault),
            None => {}
        }
        for turn in 0..usize::MAX {
            if let Some(got) = self.read_open()? {
                return Ok(got);
            }
        }
        Err(FrontFault::Memory)
    }

    /// Reads one message of the client: nothing where it is a ping, which is answered, or a pong. There may be more
    /// then, and no event of the stream says so.
    pub fn read_message(&mut self) -> Result<Option<Got>, FrontFault>
        ensures gives { self.old.is_open ≡ true
            → IfOk result (GivesOne S.remaining self.old.socket self.new.socket) }
        ensures fails { self.old.is_open ≡ true
            → IfErr result (FailsOnce S.remaining self.old.socket) }
        ensures goes_on { self.old.is_open ≡ true → IfOk result (GoesOnOne self.new.is_open) }
        ensures cause { self.old.is_open ≡ true
            → IfErr result (λ f. Answers f self.old.causes self.new.causes) }
        ensures nothing { self.old.is_open ≡ true → result ≡ Ok (Some Got.Nothing)
            → Pauses self.old.causes self.new.causes }
        ensures rest { self.new.is_open ≡ true → self.new.rest ≡ self.old.rest }
        ensures subprotocol { self.new.subprotocol ≡ self.old.subprotocol }
    {
        match self.ending {
            Some(FrontEnd::Closed) => Ok(Some(Got::Closed)),
            Some(FrontEnd::Failed(fault)) => Err(fault),
            None => self.read_open(),
        }
    }

    /// The same where the front is open.
    #[tactic(auto, using(crate::proofs::Growing::grows_trans, crate::proofs::Growing::answers_after))]
    fn read_open(&mut self) -> Result<Option<Got>, FrontFault>
        requires is_open { self.old.is_open ≡ true }
        ensures gives { IfOk result (GivesOne S.remaining self.old.socket self.new.socket) }
        ensures goes_on { IfOk result (GoesOnOne self.new.is_open) }
        ensures fails { IfErr result (FailsOnce S.remaining self.old.socket) }
        ensures grows { Grows self.old.causes self.new.causes }
        ensures cause { IfErr result (λ f. Answers f self.old.causes self.new.causes) }
        ensures nothing { result ≡ Ok (Some Got.Nothing)
            → Pauses self.old.causes self.new.causes }
        ensures rest { self.new.is_open ≡ true → self.new.rest ≡ self.old.rest }
        ensures subprotocol { self.new.subprotocol ≡ self.old.subprotocol }
    {
        let was_open = self.socket.get().can_write();
        match self.socket.read() {
            Ok(Message::Text(text)) => self.payload(text.as_str().as_bytes()),
            Ok(Message::Binary(octets)) => self.payload(octets.as_slice()),
            Ok(Message::Ping(_)) => Ok(None),
            Ok(Message::Pong(_)) => Ok(None),
            Ok(Message::Close(_)) => {
                let _ = self.socket.flush();
                self.begun = None;
                self.ending = Some(FrontEnd::Closed);
                Ok(Some(Got::Closed))
            }
            Err(error) => match meaning_of(&error) {
                Meaning::Later => Ok(Some(Got::Nothing)),
                Meaning::Closed => {
                    self.begun = None;
                    self.ending = Some(FrontEnd::Closed);
                    Ok(Some(Got::Closed))
                }
                Meaning::Fault(fault) => {
                    self.socket.refuse(&error, was_open);
                    self.begun = None;
                    self.ending = Some(FrontEnd::Failed(fault));
                    Err(fault)
                }
            },
        }
    }

    /// A payload's octets.
    fn payload(&mut self, octets: &[u8]) -> Result<Option<Got>, FrontFault>
        requires is_open { self.old.is_open ≡ true }
        ensures given { IfOk result (IsGiven octets.now) }
        ensures goes_on { IfOk result (GoesOnOne self.new.is_open) }
        ensures same { OnOk result (self.new ≡ with_causes self.old self.new.causes) }
        ensures memory { IfErr result (λ e. e ≡ FrontFault.Memory) }
        ensures ended { IfErr result (λ _. self.new.is_open ≡ false) }
        ensures grows { Grows self.old.causes self.new.causes }
        ensures cause { IfErr result (λ f. Answers f self.old.causes self.new.causes) }
        ensures subprotocol { self.new.subprotocol ≡ self.old.subprotocol }
    {
        match self.socket.copy(octets) {
            Ok(octets) => Ok(Some(Got::Payload(octets))),
            Err(_) => {
                let was_open = self.socket.get().can_write();
                self.socket.refuse(&Error::OutOfMemory, was_open);
                self.begun = None;
                self.ending = Some(FrontEnd::Failed(FrontFault::Memory));
                Err(FrontFault::Memory)
            }
        }
    }
}
