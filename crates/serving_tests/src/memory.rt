//! A stream in memory, and a client that was answered on one.
ghost use Rattle.std.specs.Prelude.{IfOk};
ghost use Rattle.websocket_front.specs.Fronted.{IsGreeted};

use std::alloc::{AllocError, Global};
use std::io;
use std::io::{ErrorKind, Read, Write};
use std::test::Fail;
use websocket_front::{Front, FrontFault, Got, greet};

/// A request but for its subprotocols, as RFC 6455 has it in section 1.3.
pub(crate) const REQUEST: &[u8] =
    b"GET /chat HTTP/1.1\r\nHost: server.example.com\r\nUpgrade: websocket\r\n\
        Connection: Upgrade\r\nSec-WebSocket-Key: dGhlIHNhbXBsZSBub25jZQ==\r\n\
        Sec-WebSocket-Version: 13\r\n";

/// Its response, but for the subprotocol.
pub(crate) const RESPONSE: &[u8] =
    b"HTTP/1.1 101 Switching Protocols\r\nconnection: Upgrade\r\nupgrade: websocket\r\n\
        sec-websocket-accept: s3pPLMBiTxaQ9kYGzzhZRbK+xOo=\r\n";

pub(crate) const TEXT: &[u8] = b"sec-websocket-protocol: text.ircv3.net\r\n";

pub(crate) const BINARY: &[u8] = b"sec-websocket-protocol: binary.ircv3.net\r\n";

/// A masked text message of 'Hello' (RFC 6455, section 5.7).
pub(crate) const HELLO: &[u8] = b"\x81\x85\x37\xfa\x21\x3d\x7f\x9f\x4d\x51\x58";

/// A stream in memory. A read gives no more than `give` octets and stops at `request` and at `cut`; at `cut` the next
/// read would block once. A write takes no more than `most` octets, and all writes together no more than `room`; then
/// they would block.
#[derive(Drop)]
pub(crate) struct Memory {
    input: Vec<u8>,
    place: usize,
    pub(crate) give: usize,
    pub(crate) request: usize,
    pub(crate) cut: usize,
    has_waited: bool,
    pub(crate) ends: bool,
    pub(crate) output: Vec<u8>,
    pub(crate) most: usize,
    pub(crate) room: usize,
}

impl Memory {
    /// A stream that gives these parts, the first of which one read gives.
    pub(crate) fn new(alloc: Global, parts: &[&[u8]]) -> Result<Memory, AllocError> {
        let mut input = Vec::new(alloc);
        for part in parts {
            input.extend_from_slice(part)?;
        }
        Ok(Memory {
            input,
            place: 0,
            give: usize::MAX,
            request: usize::MAX,
            cut: usize::MAX,
            has_waited: false,
            ends: false,
            output: Vec::new(alloc),
            most: usize::MAX,
            room: usize::MAX,
        })
    }

    /// Where one read that begins at the place ends at the latest.
    fn end(&self) -> usize {
        let mut end = self.input.len();
        if self.place < self.request {
            end = end.min(self.request);
        }
        if !self.has_waited {
            end = end.min(self.cut);
        }
        end
    }
}

impl Read for Memory {
    fn read(&mut self, buf: &mut [u8]) -> io::Result<usize> {
        let end = self.end();
        let rest = self.input.get(self.place..end).unwrap_or(&[]);
        let count = buf.len().min(rest.len()).min(self.give);
        if count == 0 && !(self.ends && end == self.input.len()) {
            self.has_waited = true;
            return Err(io::Error::from(ErrorKind::WouldBlock));
        }
        buf[..count].copy_from_slice(&rest[..count]);
        self.place = self.place.saturating_add(count);
        Ok(count)
    }
}

impl Write for Memory {
    fn write(&mut self, buf: &[u8]) -> io::Result<usize> {
        let count = buf.len().min(self.most).min(self.room);
        if count == 0 && !buf.is_empty() {
            return Err(io::Error::from(ErrorKind::WouldBlock));
        }
        self.output.extend_from_slice(&buf[..count])?;
        self.room -= count;
        Ok(count)
    }

    fn flush(&mut self) -> io::Result<()> {
        Ok(())
    }
}

/// A request that ends with these headers, and what its client sends after the answer.
pub(crate) fn request(alloc: Global, headers: &[u8], sent: &[u8]) -> Result<Memory, AllocError> {
    let mut stream = Memory::new(alloc, &[REQUEST, headers, b"\r\n", sent])?;
    stream.request = REQUEST
        .len()
        .saturating_add(headers.len())
        .saturating_add(2);
    Ok(stream)
}

/// A front of such a client.
pub(crate) fn front(alloc: Global, headers: &[u8], sent: &[u8]) -> Result<Front<Memory>, Fail>
    ensures { IfOk result IsGreeted }
{
    match greet(alloc, request(alloc, headers, sent)?) {
        Ok(front) => Ok(front),
        Err(_) => Err(Fail::from("refused")),
    }
}

/// What a front wrote after its response, which has this header.
pub(crate) fn written_to<'a>(front: &'a Front<Memory>, header: &[u8]) -> &'a [u8] {
    let start = RESPONSE
        .len()
        .saturating_add(header.len())
        .saturating_add(2);
    front.stream().output.get(start..).unwrap_or(&[])
}

pub(crate) fn is_payload(got: &Result<Got, FrontFault>, octets: &[u8]) -> bool {
    match got {
        Ok(Got::Payload(payload)) => payload.as_slice() == octets,
        _ => false,
    }
}

pub(crate) fn is_nothing(got: &Result<Got, FrontFault>) -> bool {
    matches!(got, Ok(Got::Nothing))
}
