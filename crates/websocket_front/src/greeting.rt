//! The opening handshake (RFC 6455, section 4.2).
//!
//! `tungstenite` refuses a request of more than 64 KiB, one that comes in more than 64 reads of fewer than 128 octets
//! each, and one that something follows before it was answered. Where memory for a request's headers runs out it
//! answers as for one that isn't a request.
ghost use Rattle.std.specs.Prelude.{◌≡◌, IfOk, IfErr};
ghost use Rattle.std.specs.IoError.{error_kind};
ghost use Rattle.websocket_front.specs.Faults.{is_shortage, greet_fault_of};
ghost use Rattle.websocket_front.specs.Fronted.{IsGreeted};
ghost use Rattle.websocket_front.specs.Greetings.{IsRefused, IsUngreeted};

use crate::front::{Front, limits};
use crate::handshake::{Handshake, HandshakeRefusal};
use crate::handshake_request::subprotocol_of;
use crate::handshake_stream::HandshakeStream;
use std::alloc::Global;
use std::io;
use std::io::{ErrorKind, Read, Write};
use tungstenite::{Error, NoMask, Role, WebSocket};
use websocket::handshake::HandshakeError as HeadError;

/// How often `greet` goes on where the stream has or takes nothing.
const TRIES: u32 = 1024;

/// Why a handshake came to nothing.
#[derive(Clone, Copy, Debug, PartialEq)]
pub enum GreetFault {
    /// The client's request isn't one that opens a WebSocket, or it came in too many parts or with something after it.
    Handshake,
    /// The head of the request has no shape, or there was no memory to take it apart: the library doesn't tell which.
    Head,
    /// The stream failed or ended.
    Io,
    /// There was no memory.
    Memory,
}

/// How far a handshake came.
#[derive(Drop)]
pub enum Greeted<S: Read + Write + Drop> {
    /// It is done.
    Done(Front<S>),
    /// The stream has or takes nothing now: go on when it does.
    Later(Handshake<S>),
}

/// Whether an error of a stream says that there was no memory.
fn is_shortage(error: &io::Error) -> bool
    ensures { result ≡ is_shortage (error_kind error.now) }
{
    match error.kind() {
        ErrorKind::OutOfMemory => true,
        _ => false,
    }
}

/// Why a handshake that ended by an error came to nothing.
pub(crate) fn fault_of(error: &Error) -> GreetFault
    ensures { result ≡ greet_fault_of error.now }
{
    match error {
        Error::Io(cause) => {
            if is_shortage(cause) {
                GreetFault::Memory
            } else {
                GreetFault::Io
            }
        }
        Error::HandshakeIncomplete => GreetFault::Io,
        // A request is refused for want of memory alone.
        Error::OutOfMemory | Error::Refused(_) => GreetFault::Memory,
        Error::Handshake(HeadError::OutOfMemory) => GreetFault::Memory,
        Error::Handshake(HeadError::InvalidHeader) | Error::Url => GreetFault::Head,
        _ => GreetFault::Handshake,
    }
}

/// The front of a client whose request was answered, which is all that was heard of it.
pub(crate) fn front_of<S: Read + Write + Drop>(
    alloc: Global,
    heard: HandshakeStream<S>,
) -> Result<Front<S>, Error>
    ensures greeted { IfOk result IsGreeted }
    ensures refused { IfErr result (IsRefused heard.octets.items) }
{
    let HandshakeStream { stream, octets } = heard;
    let subprotocol = match subprotocol_of(&octets) {
        Ok(subprotocol) => subprotocol,
        Err(error) => return Err(Error::Handshake(error)),
    };
    let socket = WebSocket::from_raw_socket(alloc, stream, NoMask, Role::Server, Some(limits()));
    Ok(Front::new(alloc, socket, subprotocol))
}

/// Greets the client of a stream whose reads wait. Where the stream has or takes nothing it tries again, 1,024 times
/// in all; then it is a fault of the stream.
pub fn greet<S: Read + Write + Drop>(alloc: Global, stream: S) -> Result<Front<S>, HandshakeRefusal>
    ensures greeted { IfOk result IsGreeted }
    ensures cause { IfErr result IsUngreeted }
{
    let mut greeting = Handshake::new(alloc, stream);
    for turn in 0..TRIES {
        match greeting.go_on()? {
            Greeted::Done(front) => return Ok(front),
            Greeted::Later(later) => greeting = later,
        }
    }
    Err(greeting.give_up())
}
