//! What stands for gates, connections, a clock and a client's input.
use book::FlushList;
use chronicle::{Moment, SessionId};
use crew::session_io::{Backlog, Clock, Gate, Host, Sockets};
use std::io::{ErrorKind, Read, Write};
use std::sync::atomic::{AtomicBool, AtomicI64, AtomicU64, AtomicUsize, Ordering};
use std::time::Duration;
use std::{io, thread, time};
use wire::Sink;

/// How often a wait looks before it gives up.
pub(crate) const TURNS: u32 = 10_000;

/// Waits a little between two looks.
pub(crate) fn rest<R: time::Clock>(rt: &R) {
    thread::sleep(rt, Duration::from_micros(100));
}

/// A gate that is always open.
#[derive(Drop)]
pub(crate) struct Open;

impl Gate for Open {
    fn enter(&self, _session: SessionId) {}

    fn leave(&self, _session: SessionId) {}
}

/// A gate by which the first session leaves when another was answered, which enters when the first
/// is about to leave; or each gives up.
#[derive(Drop)]
pub(crate) struct Turnstile<R: time::Clock + Drop> {
    rt: R,
    first: SessionId,
    is_leaving: AtomicBool,
    pub(crate) is_answered: AtomicBool,
    pub(crate) has_given_up: AtomicBool,
}

impl<R: time::Clock + Drop> Turnstile<R> {
    /// A gate by which this session leaves when another was answered.
    pub(crate) fn new(rt: R, first: SessionId) -> Turnstile<R> {
        Turnstile {
            rt,
            first,
            is_leaving: AtomicBool::new(false),
            is_answered: AtomicBool::new(false),
            has_given_up: AtomicBool::new(false),
        }
    }

    /// Looks until this is set, or gives up.
    fn wait_for(&self, is_set: &AtomicBool) {
        for _ in 0..TURNS {
            if is_set.load(Ordering::SeqCst) {
                return;
            }
            rest(&self.rt);
        }
        self.has_given_up.store(true, Ordering::SeqCst);
    }
}

impl<R: time::Clock + Drop> Gate for Turnstile<R> {
    fn enter(&self, session: SessionId) {
        if session != self.first {
            self.wait_for(&self.is_leaving);
        }
    }

    fn leave(&self, session: SessionId) {
        if session == self.first {
            self.is_leaving.store(true, Ordering::SeqCst);
            self.wait_for(&self.is_answered);
        }
    }
}

/// A host with a gate that is always open, a clock that is set by hand, and connections of which is noted who was
/// shut, who was told, how often a thread paused, how many records were dropped, and whether the server is to stop.
#[derive(Drop)]
pub(crate) struct Noted {
    moment: AtomicI64,
    shut: AtomicU64,
    told: AtomicU64,
    pub(crate) paused: AtomicU64,
    pub(crate) dropped: AtomicU64,
    pub(crate) is_stopped: AtomicBool,
}

impl Noted {
    /// Nobody is shut, and the clock shows 0.
    pub(crate) fn new() -> Noted {
        Noted {
            moment: AtomicI64::new(0),
            shut: AtomicU64::new(0),
            told: AtomicU64::new(0),
            paused: AtomicU64::new(0),
            dropped: AtomicU64::new(0),
            is_stopped: AtomicBool::new(false),
        }
    }

    /// From now on the clock shows this moment.
    pub(crate) fn set(&self, moment: i64) {
        self.moment.store(moment, Ordering::SeqCst);
    }

    /// Whether a session was told since this was last asked of it.
    pub(crate) fn was_told(&self, session: SessionId) -> bool {
        let told = self.told.fetch_and(!bit_of(session), Ordering::SeqCst);
        told & bit_of(session) != 0
    }
}

/// The bit of a session.
fn bit_of(session: SessionId) -> u64 {
    1 << (session.number() % 64)
}

impl Gate for Noted {
    fn enter(&self, _session: SessionId) {}

    fn leave(&self, _session: SessionId) {}
}

impl Clock for Noted {
    fn now(&self) -> Moment {
        Moment::new(self.moment.load(Ordering::SeqCst))
    }
}

impl Host for Noted {}

impl Sockets for Noted {
    fn shut(&self, session: SessionId) {
        self.shut.fetch_or(bit_of(session), Ordering::SeqCst);
    }

    fn is_shut(&self, session: SessionId) -> bool {
        self.shut.load(Ordering::SeqCst) & bit_of(session) != 0
    }

    fn flush(&self, told: &FlushList) {
        for session in told.sessions().iter() {
            self.told.fetch_or(bit_of(*session), Ordering::SeqCst);
        }
    }

    fn pause(&self) {
        self.paused.fetch_add(1, Ordering::SeqCst);
        thread::yield_now();
    }

    fn note_roll(&self, dropped: usize) {
        self.dropped.fetch_add(dropped as u64, Ordering::SeqCst);
    }

    fn stop(&self) {
        self.is_stopped.store(true, Ordering::SeqCst);
    }
}

/// A backlog that is much at each look at which it is told to be, and never after those.
#[derive(Drop)]
pub(crate) struct Heap<'a> {
    is_much: &'a [bool],
    looks: AtomicUsize,
}

impl<'a> Heap<'a> {
    /// A backlog of which this is so, one look after another.
    pub(crate) fn new(is_much: &'a [bool]) -> Heap<'a> {
        Heap {
            is_much,
            looks: AtomicUsize::new(0),
        }
    }
}

impl Backlog for Heap<'_> {
    fn is_much(&self) -> bool {
        let look = self.looks.fetch_add(1, Ordering::SeqCst);
        self.is_much.get(look) == Some(&true)
    }
}

/// A client's input, which comes in parts of so many octets at most, and then ends or fails. Where it waits nothing is
/// there at each other read, the first of them too.
#[derive(Drop)]
pub(crate) struct Input<'a> {
    pub(crate) octets: &'a [u8],
    pub(crate) most: usize,
    pub(crate) ends: bool,
    pub(crate) waits: bool,
    pub(crate) is_there: bool,
}

impl Read for Input<'_> {
    fn read(&mut self, buf: &mut [u8]) -> io::Result<usize> {
        self.is_there = !self.is_there;
        if self.waits && self.is_there {
            return Err(io::Error::from(ErrorKind::WouldBlock));
        }
        if self.octets.is_empty() && !self.ends {
            return Err(io::Error::from(ErrorKind::ConnectionReset));
        }
        let count = self.octets.len().min(buf.len()).min(self.most);
        let (front, rest) = self.octets.split_at(count);
        buf[..count].copy_from_slice(front);
        self.octets = rest;
        Ok(count)
    }
}

/// A stream that takes just these octets, and fails at others.
#[derive(Drop)]
pub(crate) struct Wanted<'a> {
    pub(crate) left: &'a [u8],
}

impl Write for Wanted<'_> {
    fn write(&mut self, buf: &[u8]) -> io::Result<usize> {
        match self.left.strip_prefix(buf) {
            Some(left) => {
                self.left = left;
                Ok(buf.len())
            }
            None => Err(io::Error::from(ErrorKind::InvalidData)),
        }
    }

    fn flush(&mut self) -> io::Result<()> {
        Ok(())
    }
}

/// How often a stream was written to, and how many octets it took.
#[derive(Drop)]
pub(crate) struct Tally {
    pub(crate) writes: AtomicU64,
    pub(crate) octets: AtomicU64,
}

impl Tally {
    /// Nothing was written.
    pub(crate) fn new() -> Tally {
        Tally {
            writes: AtomicU64::new(0),
            octets: AtomicU64::new(0),
        }
    }
}

/// A stream that takes nothing so many times, and then everything; or that fails.
#[derive(Drop)]
pub(crate) struct Stream<'a> {
    pub(crate) tally: &'a Tally,
    pub(crate) left: u64,
    pub(crate) is_broken: bool,
}

impl Write for Stream<'_> {
    fn write(&mut self, buf: &[u8]) -> io::Result<usize> {
        self.tally.writes.fetch_add(1, Ordering::SeqCst);
        if self.is_broken {
            return Err(io::Error::from(ErrorKind::BrokenPipe));
        }
        if self.left > 0 {
            self.left -= 1;
            return Err(io::Error::from(ErrorKind::WouldBlock));
        }
        self.tally
            .octets
            .fetch_add(buf.len() as u64, Ordering::SeqCst);
        Ok(buf.len())
    }

    fn flush(&mut self) -> io::Result<()> {
        Ok(())
    }
}

impl Sink for Stream<'_> {}
