//! The connections of all sessions, as the threads of others know them.

mod connection;
mod thread_host;

use crate::events::{Events, LogEvent};
use crate::journal_size::JournalSize;
use crate::mailbox::{Arrival, Mailbox};
use crate::stopping::Stopping;
use chronicle::SessionId;
use client_streams::{MOST_GREETING, MOST_LINGERING, Semaphore};
pub(crate) use connection::{ClientOutput, Connection};
use indexmap::IndexMap;
use session_io::book::Naming;
use std::alloc::{AllocError, Global};
use std::net::SocketAddr;
use std::sync::atomic::{AtomicBool, AtomicU64, Ordering};
use std::sync::{Arc, RwLock, Wait};
use std::time::Clock;
pub(crate) use thread_host::{Serving, ThreadHost};

/// Milliseconds of a pause.
pub(crate) const PAUSE: u64 = 20;

/// Why a connection is refused: there was no memory for it.
pub(crate) const NO_MEMORY: &str = "no memory";

/// Or the server has as many sessions as it may, or no room for another in its journal, or no memory.
pub(crate) const NO_PLACE: &str = "no place";

/// A session of those in a table that aren't shut.
fn any_open<L: Naming, R: Wait + Copy + Drop>(
    table: &IndexMap<u64, Arc<Connection<L, R>>>,
) -> Option<SessionId> {
    for (number, connection) in table.iter() {
        if !connection.is_shut() {
            return Some(SessionId::new(*number));
        }
    }
    None
}

/// The connections of all sessions, and the workers that serve them.
#[derive(Drop)]
pub(crate) struct Connections<L: Naming, R: Wait + Clock + Copy + Drop> {
    rt: R,
    /// What happens, where there is a log.
    pub(crate) log: Option<Events<R>>,
    by_session: RwLock<IndexMap<u64, Arc<Connection<L, R>>>>,
    posts: Vec<Mailbox>,
    stopping: Arc<Stopping>,
    /// How many octets may wait for a session besides its newest delivery.
    most: u64,
    pub(crate) kept: JournalSize,
    is_closed: AtomicBool,
    // Connections that were refused and aren't told of yet.
    refused: AtomicU64,
    // Somebody was shut since all who are shut were swept.
    has_unswept: AtomicBool,
    /// Who greets, of all workers.
    pub(crate) greeting: Semaphore,
    /// Whose stream lingers, of all workers.
    pub(crate) lingering: Semaphore,
}

impl<L: Naming, R: Wait + Clock + Copy + Drop> Connections<L, R> {
    /// No connection, of a server with these workers that is asked to stop in this way. So many octets may wait for
    /// a session besides its newest delivery, and so many octets are read before the journal is rolled.
    pub(crate) fn new(
        rt: R,
        alloc: Global,
        log: Option<Events<R>>,
        posts: Vec<Mailbox>,
        stopping: Arc<Stopping>,
        most: u64,
        journal: u64,
    ) -> Connections<L, R> {
        Connections {
            rt,
            log,
            by_session: RwLock::new(IndexMap::new(alloc)),
            posts,
            stopping,
            most,
            kept: JournalSize::new(journal),
            is_closed: AtomicBool::new(false),
            refused: AtomicU64::new(0),
            has_unswept: AtomicBool::new(false),
            greeting: Semaphore::new(MOST_GREETING),
            lingering: Semaphore::new(MOST_LINGERING),
        }
    }

    /// An event for the log, where there is one.
    pub(crate) fn note(&self, event: LogEvent) {
        if let Some(log) = &self.log {
            log.leave(&self.rt, event);
        }
    }

    /// A connection from this address is refused for this reason, unless the server is to stop. Where there is no log
    /// the thread that accepts tells how many were.
    pub(crate) fn refuse(&self, peer: SocketAddr, why: &'static str) {
        if self.is_stopping() {
            return;
        }
        self.note(LogEvent::Refused(peer, why));
        if self.log.is_none() {
            self.refused.fetch_add(1, Ordering::SeqCst);
            self.stopping.wake();
        }
    }

    /// The journal was rolled. Where there is no log the thread that accepts tells of it.
    pub(crate) fn note_roll(&self, dropped: usize) {
        self.kept.note_roll(dropped);
        self.note(LogEvent::Rolled(dropped));
        if self.log.is_some() {
            let _ = self.kept.take_rolls();
        }
        self.stopping.wake();
    }

    /// How many connections were refused that weren't told of.
    pub(crate) fn refused_count(&self) -> u64 {
        self.refused.load(Ordering::SeqCst)
    }

    /// So many of them are told of.
    pub(crate) fn tell_refused(&self) -> u64 {
        self.refused.swap(0, Ordering::SeqCst)
    }

    /// The post of a worker.
    pub(crate) fn post(&self, worker: usize) -> Option<&Mailbox> {
        self.posts.get(worker)
    }

    /// Somebody may be to be swept.
    pub(crate) fn leave_unswept(&self) {
        self.has_unswept.store(true, Ordering::SeqCst);
    }

    /// Whether somebody may be to be swept now: while the server ends its sessions nobody is, since each would be told
    /// of all others.
    pub(crate) fn is_to_sweep(&self) -> bool {
        self.has_unswept.load(Ordering::SeqCst) && (self.is_closed() || !self.is_stopping())
    }

    /// The same, and that who asks sweeps them. Who is shut from here on is told of again.
    pub(crate) fn take_unswept(&self) -> bool {
        self.is_to_sweep() && self.has_unswept.swap(false, Ordering::SeqCst)
    }

    /// Leaves a connection to the worker that has the fewest.
    pub(crate) fn bring(&self, arrival: Arrival) {
        let peer = arrival.peer;
        let mut best: Option<&Mailbox> = None;
        for post in self.posts.iter() {
            match best {
                Some(found) if found.clients() <= post.clients() => {}
                _ => best = Some(post),
            }
        }
        let is_left = match best {
            Some(post) => post.bring(&self.rt, arrival),
            None => false,
        };
        if !is_left {
            self.refuse(peer, NO_MEMORY);
        }
    }

    /// Makes room for one more.
    pub(crate) fn make_room(&self) -> Result<(), AllocError> {
        self.by_session.write(&self.rt).reserve(1)
    }

    /// A session is connected, in room that was made since another was.
    pub(crate) fn add(&self, session: SessionId, connection: Arc<Connection<L, R>>) {
        let _ = self
            .by_session
            .write(&self.rt)
            .insert(session.number(), connection);
    }

    /// A session is connected no more.
    pub(crate) fn remove(&self, session: SessionId) {
        let _ = self
            .by_session
            .write(&self.rt)
            .swap_remove(&session.number());
    }

    /// Whether the server was asked to stop.
    pub(crate) fn is_stopping(&self) -> bool {
        self.stopping.is_asked()
    }

    /// Whether it was asked since its journal is full.
    pub(crate) fn is_full(&self) -> bool {
        self.stopping.is_full()
    }

    /// Whether nobody is to connect any more, and who was connected is shut.
    pub(crate) fn is_closed(&self) -> bool {
        self.is_closed.load(Ordering::SeqCst)
    }

    /// Nobody is to connect any more, and who was connected is shut: the workers may end.
    pub(crate) fn close(&self) {
        self.is_closed.store(true, Ordering::SeqCst);
        for post in self.posts.iter() {
            post.wake();
        }
    }

    /// A session of those that aren't shut.
    pub(crate) fn any_open(&self) -> Option<SessionId> {
        any_open(&*self.by_session.read(&self.rt))
    }
}
