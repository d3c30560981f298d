//! Clients that come by WebSocket, as the rest of a server sees them: what is read of one is octets, and what goes out
//! to it is whole items.
//!
//! A front is behind a lock, since its worker reads it while any thread writes to it; both calls return at once
//! whatever the socket does. Frames that were read already bring no event, so a client that gave something has its
//! turn again. Of messages without a payload, such as pings, 64 are read in a turn.
ghost use Rattle.std.specs.Prelude.{◌≡◌, ◌≤◌, [], length, IfOk, OnOk};

use crate::frame_places::Frames;
use deliveries::Item;
use http::Uri;
use http::uri::UriError;
use httparse::Status;
use httparse::spans::{EMPTY_HEADER_SPAN, parse_request};
use mio::net::TcpStream;
use std::alloc::{AllocError, Global};
use std::io;
use std::io::{Error, ErrorKind, Read, Write};
use std::sync::atomic::{AtomicBool, AtomicU64, Ordering};
use std::sync::{Arc, Mutex, MutexGuard, Wait};
use websocket_front::{CloseCode, Front, FrontFault, Got};

/// How many octets a request may have.
const HEAD: usize = 8192;

/// How many headers it may have.
const HEADERS: usize = 124;

/// How many messages without a payload one read looks at.
const TURNS: u32 = 64;

/// After how many octets of a client's stream one read looks at no more, whatever they are: fragments of a message
/// that has no end yet may be empty, and count towards no limit of its length.
const TURN: u64 = 16_384;

/// What a request is answered that opens no WebSocket.
pub(crate) const REFUSAL: &[u8] =
    b"HTTP/1.1 426 Upgrade Required\r\nConnection: Upgrade, close\r\nUpgrade: websocket\r\n\
        Sec-WebSocket-Version: 13\r\nContent-Type: text/plain; charset=utf-8\r\n\
        Content-Length: 89\r\n\r\n\
        This is an IRC server: connect to it by WebSocket (text.ircv3.net or binary.ircv3.net).\r\n";

/// What a right request is answered where there is no memory for it.
pub(crate) const UNAVAILABLE: &[u8] =
    b"HTTP/1.1 503 Service Unavailable\r\nConnection: close\r\nContent-Length: 0\r\n\r\n";

/// A client's stream, as its WebSocket has it. Until something was written it gives no more octets than a request
/// may have; then it gives so many in a turn, after which it has nothing until the next begins.
#[derive(Drop)]
pub struct WebStream {
    alloc: Global,
    stream: Arc<TcpStream>,
    // The request, until it is answered, and whether its head is whole and has its shape.
    head: Vec<u8>,
    is_request: Arc<AtomicBool>,
    is_answered: bool,
    // Octets that were read in this turn, and whether the stream had no more in it.
    turn: AtomicU64,
    is_dry: AtomicBool,
    // The last read filled its room.
    is_full: bool,
    frames: Frames,
}

/// Whether these octets are the whole head of a request. Where there is no memory to see whether its target has its
/// shape, it is said to have.
fn is_request(alloc: Global, octets: &[u8]) -> bool {
    let mut headers = [EMPTY_HEADER_SPAN; HEADERS];
    match parse_request(octets, &mut headers) {
        Ok(Status::Complete(found)) => {
            !matches!(
                Uri::from_bytes(alloc, found.path.of(octets)),
                Err(UriError::Invalid(_))
            )
        }
        _ => false,
    }
}

impl WebStream {
    /// A stream of which nothing was read. The flag tells once a whole request was.
    pub(crate) fn of(
        alloc: Global,
        stream: &Arc<TcpStream>,
        is_request: &Arc<AtomicBool>,
    ) -> Result<WebStream, AllocError> {
        Ok(WebStream {
            alloc,
            stream: Arc::try_clone(stream)?,
            head: Vec::with_capacity(alloc, HEAD)?,
            is_request: Arc::try_clone(is_request)?,
            is_answered: false,
            turn: AtomicU64::new(0),
            is_dry: AtomicBool::new(false),
            is_full: false,
            frames: Frames::new(),
        })
    }

    /// Another turn of the client begins.
    fn begin_turn(&self) {
        self.turn.store(0, Ordering::SeqCst);
        self.is_dry.store(false, Ordering::SeqCst);
    }

    /// Whether the stream had no more in this turn.
    fn is_dry(&self) -> bool {
        self.is_dry.load(Ordering::SeqCst)
    }

    /// Whether so much was read in this turn that more waits for the next.
    fn is_turn_over(&self) -> bool {
        TURN <= self.turn.load(Ordering::SeqCst)
    }

    /// Whether more may be there than the first so many messages, of which no event tells.
    fn has_more(&self, messages: u64) -> bool {
        self.is_full || self.is_turn_over() || messages < self.frames.ended_count()
    }

    /// Reads of the request.
    fn read_head(&mut self, buf: &mut [u8]) -> io::Result<usize>
        ensures { IfOk result (λ n. n ≤ length buf.new) }
    {
        let room = buf.len().min(HEAD.saturating_sub(self.head.len()));
        if room == 0 {
            return Err(Error::from(ErrorKind::InvalidData));
        }
        let count = (&*self.stream).read(&mut buf[..room])?;
        self.head.extend_from_slice(&buf[..count])?;
        if is_request(self.alloc, &self.head) {
            self.is_request.store(true, Ordering::SeqCst);
        }
        Ok(count)
    }

    /// Reads of the frames.
    fn read_frames(&mut self, buf: &mut [u8]) -> io::Result<usize>
        ensures { IfOk result (λ n. n ≤ length buf.new) }
    {
        self.is_full = false;
        if self.is_turn_over() {
            return Err(Error::from(ErrorKind::WouldBlock));
        }
        let read = (&*self.stream).read(buf);
        let count = match read {
            Ok(count) => count,
            Err(error) => {
                let is_dry = error.kind() == ErrorKind::WouldBlock;
                self.is_dry.store(is_dry, Ordering::SeqCst);
                return Err(error);
            }
        };
        self.turn.fetch_add(count as u64, Ordering::SeqCst);
        self.is_full = buf.len() <= count;
        self.frames.pass(&buf[..count]);
        Ok(count)
    }
}

impl Read for WebStream {
    fn read(&mut self, buf: &mut [u8]) -> io::Result<usize> {
        if self.is_answered {
            self.read_frames(buf)
        } else {
            self.read_head(buf)
        }
    }
}

impl Write for WebStream {
    fn write(&mut self, buf: &[u8]) -> io::Result<usize> {
        if !self.is_answered {
            self.is_answered = true;
            self.head = Vec::new(self.alloc);
        }
        (&*self.stream).write(buf)
    }

    fn flush(&mut self) -> io::Result<()> {
        Ok(())
    }
}

/// A fault of a front, as that of a stream.
fn error_of(fault: FrontFault) -> Error {
    Error::from(match fault {
        FrontFault::Io => ErrorKind::BrokenPipe,
        FrontFault::Protocol => ErrorKind::InvalidData,
        FrontFault::Memory => ErrorKind::OutOfMemory,
    })
}

/// What was read of a client.
#[derive(Drop)]
struct WebMessage {
    /// The message: nothing where it has no payload.
    got: Result<Option<Got>, FrontFault>,
    /// Whether more may be there, of which no event tells.
    has_more: bool,
    /// Whether the turn of the client is over.
    is_turn_over: bool,
    /// Whether the stream had no more.
    is_dry: bool,
}

/// A front as threads share it.
#[derive(Drop)]
struct SharedFront {
    front: Mutex<Front<WebStream>>,
    // Somebody found it held, and wants to write.
    is_wanted: AtomicBool,
}

/// A session's WebSocket, which one worker reads and any thread may write to. Nobody waits for the worker that reads:
/// who finds that it does is told that the stream takes nothing now, and the worker writes when it has read.
#[derive(Drop)]
pub struct Web<R: Wait + Copy + Drop> {
    rt: R,
    shared: Arc<SharedFront>,
}

impl<R: Wait + Copy + Drop> Web<R> {
    /// A WebSocket that threads may share.
    pub fn new(rt: R, alloc: Global, front: Front<WebStream>) -> Option<Web<R>> {
        let shared = SharedFront {
            front: Mutex::new(front),
            is_wanted: AtomicBool::new(false),
        };
        let Ok(shared) = Arc::new(alloc, shared) else {
            return None;
        };
        Some(Web { rt, shared })
    }

    /// Another hold of it.
    pub fn again(&self) -> Option<Web<R>> {
        let Ok(shared) = Arc::try_clone(&self.shared) else {
            return None;
        };
        Some(Web {
            rt: self.rt,
            shared,
        })
    }

    /// The front for who writes, or that it can't be had now, of which word is left.
    fn front(&self) -> io::Result<MutexGuard<'_, Front<WebStream>>> {
        if let Some(front) = self.shared.front.try_lock() {
            return Ok(front);
        }
        // Said before it is tried again: who has the front looks when it has given it back.
        self.shared.is_wanted.store(true, Ordering::SeqCst);
        match self.shared.front.try_lock() {
            Some(front) => Ok(front),
            None => Err(Error::from(ErrorKind::WouldBlock)),
        }
    }

    /// Whether somebody found the front held since this was asked last: then who read is to write for it.
    pub fn take_wanted(&self) -> bool {
        self.shared.is_wanted.swap(false, Ordering::SeqCst)
    }

    /// Writes what waits, such as an answer to a ping or a close, as far as the stream takes it, and answers whether
    /// more is left for when it takes more.
    pub fn go_on(&self) -> bool {
        match self.shared.front.lock(&self.rt).flush() {
            Ok(is_out) => !is_out,
            Err(_) => false,
        }
    }

    /// Sends an item, and answers whether it is out.
    pub fn send_item(&self, item: &Item, host: &[u8]) -> bool {
        self.shared
            .front
            .lock(&self.rt)
            .send_item(item, host)
            .is_ok()
    }

    /// Sends a close, as far as the stream takes it.
    pub fn close(&self, code: CloseCode) {
        let _ = self.shared.front.lock(&self.rt).close(code);
    }

    /// The message after the first so many, in a turn that goes on or begins now.
    fn read_message(&self, messages: u64, begins: bool) -> WebMessage {
        let mut front = self.shared.front.lock(&self.rt);
        if begins {
            front.stream().begin_turn();
        }
        let got = front.read_message();
        WebMessage {
            got,
            has_more: front.stream().has_more(messages.saturating_add(1)),
            is_turn_over: front.stream().is_turn_over(),
            is_dry: front.stream().is_dry(),
        }
    }
}

/// Writes what waits in a front, all of it or else as far as the stream takes it.
fn write_waiting(front: &mut Front<WebStream>) -> io::Result<()>
    ensures { OnOk result (front.new.rest ≡ []) }
{
    match front.flush() {
        Ok(true) => Ok(()),
        Ok(false) => Err(Error::from(ErrorKind::WouldBlock)),
        Err(fault) => Err(error_of(fault)),
    }
}

/// Sees to it that each line of a front is in a frame, by writing what waits where one isn't.
fn make_ready(front: &mut Front<WebStream>) -> io::Result<()>
    ensures { OnOk result (front.new.rest ≡ []) }
{
    if front.is_ready() {
        Ok(())
    } else {
        write_waiting(front)
    }
}

/// What a session's items go out on that has a WebSocket: one after another, each line in a frame of its own.
#[derive(Drop)]
pub struct Framing<R: Wait + Copy + Drop> {
    web: Web<R>,
    // The front has the item that goes out now, of which some lines have no frame yet.
    is_put: bool,
}

impl<R: Wait + Copy + Drop> Framing<R> {
    /// No item goes out yet.
    pub fn new(web: Web<R>) -> Framing<R> {
        Framing { web, is_put: false }
    }

    /// Puts an item's lines into frames, and is done once each has its own. Where the output has no room for one, what
    /// waits is written; where the stream takes no more then, the item isn't done, and is to be put again: so an item
    /// counts as waiting until no line of it does.
    pub fn put(&mut self, item: &Item, host: &[u8]) -> io::Result<()> {
        let mut front = self.web.front()?;
        let front = &mut *front;
        if !self.is_put {
            make_ready(front)?;
            if let Err(fault) = front.put_item(item, host) {
                // What waits, such as the answer to the client's close, goes out before the stream is given up.
                write_waiting(front)?;
                return Err(error_of(fault));
            }
            self.is_put = true;
        }
        make_ready(front)?;
        self.is_put = false;
        Ok(())
    }

    /// Writes what waits, all of it or else as far as the stream takes it.
    pub fn flush(&mut self) -> io::Result<()> {
        let mut front = self.web.front()?;
        write_waiting(&mut *front)
    }
}

/// A client's payloads as one stream, in which each is followed by LF.
#[derive(Drop)]
pub struct Payloads<R: Wait + Copy + Drop> {
    web: Web<R>,
    // A payload with its LF, and how much of it was read.
    payload: Vec<u8>,
    place: usize,
    // How many messages were read, with a payload or without.
    messages: u64,
    has_more: bool,
    // The stream wasn't asked, since an answer had no room: what it has brings no event.
    is_left: bool,
}

impl<R: Wait + Copy + Drop> Payloads<R> {
    /// The payloads of a WebSocket of which none was read.
    pub fn new(alloc: Global, web: Web<R>) -> Payloads<R> {
        Payloads {
            web,
            payload: Vec::new(alloc),
            place: 0,
            messages: 0,
            has_more: false,
            is_left: false,
        }
    }

    /// Whether more may be there, of which no event tells.
    pub fn has_more(&self) -> bool {
        self.has_more || self.place < self.payload.len()
    }

    /// Takes the next payload, and answers whether there is one: there is none after the client's close.
    fn take_next(&mut self) -> io::Result<bool> {
        for turn in 0..TURNS {
            let message = self.web.read_message(self.messages, turn == 0);
            self.has_more = message.has_more || self.is_left;
            match message.got {
                Ok(None) => self.messages = self.messages.saturating_add(1),
                Ok(Some(Got::Payload(mut payload))) => {
                    self.messages = self.messages.saturating_add(1);
                    payload.push(b'\n')?;
                    self.payload = payload;
                    self.place = 0;
                    return Ok(true);
                }
                Ok(Some(Got::Nothing)) => {
                    self.has_more = message.is_turn_over;
                    self.is_left = !message.is_dry && !message.is_turn_over;
                    return Err(Error::from(ErrorKind::WouldBlock));
                }
                Ok(Some(Got::Closed)) => return Ok(false),
                Err(fault) => return Err(error_of(fault)),
            }
        }
        // The turn is over, and the stream didn't say that it has no more.
        self.has_more = true;
        Err(Error::from(ErrorKind::WouldBlock))
    }
}

impl<R: Wait + Copy + Drop> Read for Payloads<R> {
    fn read(&mut self, buf: &mut [u8]) -> io::Result<usize> {
        if self.payload.len() <= self.place && !self.take_next()? {
            return Ok(0);
        }
        let rest = self.payload.get(self.place..).unwrap_or(&[]);
        let count = rest.len().min(buf.len());
        buf[..count].copy_from_slice(&rest[..count]);
        self.place = self.place.saturating_add(count);
        if self.payload.len() <= self.place {
            self.payload.clear();
            self.payload.shrink_to(0);
            self.place = 0;
        }
        Ok(count)
    }
}
