//! Who connected by WebSocket and greets: no session yet.
use crate::semaphore::Semaphore;
use crate::web::{REFUSAL, UNAVAILABLE, WebStream};
use mio::net::TcpStream;
use std::alloc::{AllocError, Global};
use std::collections::VecDeque;
use std::io::Write;
use std::net::{Shutdown, SocketAddr};
use std::sync::Arc;
use std::sync::atomic::{AtomicBool, Ordering};
use std::time::{Duration, Instant};
use websocket_front::{Front, GreetFault, Greeted, Handshake};

/// How many may greet at a time, of all workers.
pub const MOST_GREETING: u64 = 256;

/// For how many seconds each may.
const PATIENCE: u64 = 10;

/// Who greets.
#[derive(Drop)]
pub struct PendingHandshake {
    greeting: Handshake<WebStream>,
    pub stream: Arc<TcpStream>,
    peer: SocketAddr,
    is_request: Arc<AtomicBool>,
}

/// How far a guest came.
#[derive(Drop)]
pub enum HandshakeOutcome {
    /// It is to be a session.
    In(Front<WebStream>, Arc<TcpStream>, SocketAddr),
    /// Its stream has or takes nothing now.
    Later(PendingHandshake),
    /// It is given up.
    Out(Arc<TcpStream>),
    /// It is given up, since there was no memory.
    Refused(Arc<TcpStream>, SocketAddr),
}

/// Answers a guest that is given up, by one write.
fn answer(stream: &TcpStream, octets: &[u8]) {
    let mut stream = stream;
    let _ = stream.write(octets);
}

impl PendingHandshake {
    /// Who has just connected.
    pub fn new(
        alloc: Global,
        stream: Arc<TcpStream>,
        peer: SocketAddr,
    ) -> Option<PendingHandshake> {
        let Ok(is_request) = Arc::new(alloc, AtomicBool::new(false)) else {
            return None;
        };
        let Ok(read) = WebStream::of(alloc, &stream, &is_request) else {
            return None;
        };
        Some(PendingHandshake {
            greeting: Handshake::new(alloc, read),
            stream,
            peer,
            is_request,
        })
    }

    /// Goes on with the handshake. Whose request opens no WebSocket is told so, by one write.
    pub fn go_on(self) -> HandshakeOutcome {
        let PendingHandshake {
            greeting,
            stream,
            peer,
            is_request,
        } = self;
        match greeting.go_on() {
            Ok(Greeted::Done(front)) => HandshakeOutcome::In(front, stream, peer),
            Ok(Greeted::Later(greeting)) => HandshakeOutcome::Later(PendingHandshake {
                greeting,
                stream,
                peer,
                is_request,
            }),
            Err(why) => match why.fault() {
                GreetFault::Io => HandshakeOutcome::Out(stream),
                GreetFault::Memory => HandshakeOutcome::Refused(stream, peer),
                // A whole request has its shape, so there was no memory to take it apart.
                GreetFault::Head if is_request.load(Ordering::SeqCst) => {
                    answer(&stream, UNAVAILABLE);
                    HandshakeOutcome::Refused(stream, peer)
                }
                GreetFault::Head | GreetFault::Handshake => {
                    answer(&stream, REFUSAL);
                    HandshakeOutcome::Out(stream)
                }
            },
        }
    }
}

/// Ends a guest's stream.
pub fn end_guest(stream: &TcpStream) {
    let _ = stream.shutdown(Shutdown::Both);
}

/// Where somebody greets, and since when.
#[derive(Clone, Copy, Drop)]
struct Entry {
    place: usize,
    since: Instant,
}

/// Those who greet at a worker, who has longest first.
#[derive(Drop)]
pub struct PendingHandshakes {
    entries: VecDeque<Entry>,
}

impl PendingHandshakes {
    /// Nobody.
    pub fn new(alloc: Global) -> PendingHandshakes {
        PendingHandshakes {
            entries: VecDeque::new(alloc),
        }
    }

    /// Whether nobody greets.
    pub fn is_empty(&self) -> bool {
        self.entries.is_empty()
    }

    /// One more, who connected now at this place. It answers who is to go for it, where more than may greet do then,
    /// and others do at this worker.
    pub fn add(
        &mut self,
        place: usize,
        since: Instant,
        all: &Semaphore,
    ) -> Result<Option<usize>, AllocError> {
        self.entries.push_back(Entry { place, since })?;
        if all.try_acquire() && 1 < self.entries.len() {
            return Ok(self.take_first(all));
        }
        Ok(None)
    }

    /// One less, at this place.
    pub fn remove(&mut self, place: usize, all: &Semaphore) {
        if let Some(at) = self.entries.iter().position(|entry| entry.place == place) {
            let _ = self.entries.remove(at);
            all.release();
        }
    }

    /// Takes who has greeted longest off the list.
    pub fn take_first(&mut self, all: &Semaphore) -> Option<usize> {
        match self.entries.pop_front() {
            Some(entry) => {
                all.release();
                Some(entry.place)
            }
            None => None,
        }
    }

    /// The same where that is too long by now.
    pub fn take_late(&mut self, now: Instant, all: &Semaphore) -> Option<usize> {
        match self.entries.front() {
            Some(entry) if now.duration_since(entry.since) >= Duration::from_secs(PATIENCE) => {
                self.take_first(all)
            }
            _ => None,
        }
    }
}
