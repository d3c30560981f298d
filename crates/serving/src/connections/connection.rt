//! A session's connection, as any thread may write to it.
use client_streams::websocket_front::CloseCode;
use client_streams::{Framing, Web};
use deliveries::Item;
use mio::net::TcpStream;
use session_io::book::Naming;
use session_io::book::outbox::Gauge;
use session_io::wire::Sink;
use session_io::{Backlog, Outlet};
use std::io;
use std::io::{Error, ErrorKind, Write};
use std::net::Shutdown;
use std::sync::atomic::{AtomicBool, AtomicU64, Ordering};
use std::sync::{Arc, Wait};

/// While more octets than these wait for a client, nothing more of it is done.
const MUCH: u64 = 65_536;

/// What a session's items go out on, to which several threads may write, one at a time: octets as they are, or
/// frames of their lines.
#[derive(Drop)]
pub(crate) enum ClientOutput<R: Wait + Copy + Drop> {
    Octets(Arc<TcpStream>),
    Frames(Framing<R>),
}

impl<R: Wait + Copy + Drop> ClientOutput<R> {
    /// What a connection's items go out on.
    pub(crate) fn of<L: Naming>(connection: &Connection<L, R>) -> Option<ClientOutput<R>> {
        if let Some(web) = &connection.web {
            return Some(ClientOutput::Frames(Framing::new(web.again()?)));
        }
        match Arc::try_clone(&connection.stream) {
            Ok(stream) => Some(ClientOutput::Octets(stream)),
            Err(_) => None,
        }
    }
}

impl<R: Wait + Copy + Drop> Write for ClientOutput<R> {
    fn write(&mut self, buf: &[u8]) -> io::Result<usize> {
        match self {
            ClientOutput::Octets(stream) => (&**stream).write(buf),
            ClientOutput::Frames(_) => Err(Error::from(ErrorKind::Unsupported)),
        }
    }

    fn flush(&mut self) -> io::Result<()> {
        match self {
            ClientOutput::Octets(_) => Ok(()),
            ClientOutput::Frames(framing) => framing.flush(),
        }
    }
}

impl<R: Wait + Copy + Drop> Sink for ClientOutput<R> {
    fn takes_items(&self) -> bool {
        matches!(self, ClientOutput::Frames(_))
    }

    fn put(&mut self, item: &Item, host: &[u8]) -> io::Result<()> {
        match self {
            ClientOutput::Octets(_) => Err(Error::from(ErrorKind::Unsupported)),
            ClientOutput::Frames(framing) => framing.put(item, host),
        }
    }
}

/// A session's connection, which one worker reads and ends, at a place of its own, and any thread may write to.
#[derive(Drop)]
pub(crate) struct Connection<L: Naming, R: Wait + Copy + Drop> {
    pub(crate) outlet: Outlet<L, ClientOutput<R>>,
    pub(crate) stream: Arc<TcpStream>,
    /// Its WebSocket, where it has one.
    pub(crate) web: Option<Web<R>>,
    pub(super) gauge: Gauge,
    pub(super) worker: usize,
    pub(super) place: usize,
    pub(super) is_shut: AtomicBool,
    pub(super) is_called: AtomicBool,
    // More waits for it than may.
    pub(super) is_beyond: AtomicBool,
    // Of how many records it was told since it is left to its worker to write them; none where it isn't.
    pub(super) left: AtomicU64,
    // The log has its nickname.
    is_named: AtomicBool,
}

impl<L: Naming, R: Wait + Copy + Drop> Connection<L, R> {
    /// A connection over this stream, at this place of this worker. The gauge is that of its session's outbox.
    pub(crate) fn new(
        stream: Arc<TcpStream>,
        web: Option<Web<R>>,
        gauge: Gauge,
        worker: usize,
        place: usize,
    ) -> Connection<L, R> {
        Connection {
            outlet: Outlet::new(),
            stream,
            web,
            gauge,
            worker,
            place,
            is_shut: AtomicBool::new(false),
            is_called: AtomicBool::new(false),
            is_beyond: AtomicBool::new(false),
            left: AtomicU64::new(0),
            is_named: AtomicBool::new(false),
        }
    }

    /// Whether more waits for it than may, so that its session is to be ended.
    pub(crate) fn is_beyond(&self) -> bool {
        self.is_beyond.load(Ordering::SeqCst)
    }

    /// Sends a close for this reason, where it is a WebSocket's.
    pub(crate) fn close(&self, code: CloseCode) {
        if let Some(web) = &self.web {
            web.close(code);
        }
    }

    /// Ends the stream in both directions, after a close where it is a WebSocket's.
    pub(crate) fn end(&self, code: CloseCode) {
        self.close(code);
        let _ = self.stream.shutdown(Shutdown::Both);
    }

    /// Whether nothing is read any more.
    pub(crate) fn is_shut(&self) -> bool {
        self.is_shut.load(Ordering::SeqCst)
    }

    /// Whether the log has its nickname.
    pub(crate) fn is_named(&self) -> bool {
        self.is_named.load(Ordering::SeqCst)
    }

    /// The log has its nickname.
    pub(crate) fn name(&self) {
        self.is_named.store(true, Ordering::SeqCst);
    }

    /// Its worker looks at it now: who finds something new from here on calls again.
    pub(crate) fn begin_look(&self) {
        self.is_called.store(false, Ordering::SeqCst);
    }
}

impl<L: Naming, R: Wait + Copy + Drop> Backlog for Connection<L, R> {
    fn is_much(&self) -> bool {
        MUCH < self.gauge.waiting_octets()
    }
}
