//! Accepting connections.
//!
//! It waits for an event, for word that the server is to stop, or until the next beat is due. `listen` lets as many
//! connections wait as the system does, where std's own would let 128. Refused connections are counted where that
//! happens and reported here, at most once a second, so a flood of them is one line; with a log each is a line of it.
//! Without file descriptors it tries again after 20 ms, and says so at most once a second.
use crate::connections::{PAUSE, Serving};
use crate::events::{Events, LogEvent};
use crate::mailbox::{Arrival, WAKE, Watch};
use crate::news::{News, ServerCounts, Teller};
use crate::stopping::Stopping;
use mio::net::TcpListener;
use mio::{Interest, Registry, Token, Waker};
use session_io::book::{FlushList, Naming};
use session_io::{Clock as _, Gate, beat, flush, tick};
use std::alloc::Global;
use std::io::ErrorKind;
use std::net::{Net, SocketAddr};
use std::sync::Wait;
use std::time::{Clock, Duration, Instant};
use std::{io, net, thread};

/// Events that the thread which accepts looks at at once.
const EVENTS: usize = 4;

/// Seconds between two times at which it is told what happened.
const BETWEEN: u64 = 1;

/// Milliseconds of the server's clock between two beats, in each of which who is idle is pinged, and who is so for
/// too long is ended.
const BEAT: i64 = 10_000;

/// After so many milliseconds a beat is late: the clock was set forward, or the machine slept, and nobody could be
/// heard meanwhile.
const LATE: i64 = 60_000;

/// How many connections of a listener are accepted before others have their turn.
const ACCEPTS: u32 = 64;

/// Where clients connect.
#[derive(Drop)]
pub(crate) struct Listeners {
    pub(crate) tcp: Option<TcpListener>,
    pub(crate) ws: Option<TcpListener>,
}

/// Who waits to connect, after some were accepted.
#[derive(Clone, Copy, PartialEq)]
enum Waiting {
    /// Nobody.
    Nobody,
    /// Maybe others, whose turn is next.
    Others,
    /// One whom the system refuses for now, by this error.
    Refused(i32),
}

/// Who waits after a connection couldn't be accepted; `None` where the next may be.
fn waiting_after(error: &io::Error) -> Option<Waiting> {
    match error.kind() {
        ErrorKind::WouldBlock => Some(Waiting::Nobody),
        ErrorKind::Interrupted | ErrorKind::ConnectionAborted => None,
        _ => Some(Waiting::Refused(error.raw_os_error().unwrap_or(0))),
    }
}

/// The system's error by which connections wait, if it is that for which they do.
fn error_of(tcp: Waiting, ws: Waiting) -> Option<i32> {
    match (tcp, ws) {
        (Waiting::Refused(code), _) | (_, Waiting::Refused(code)) => Some(code),
        _ => None,
    }
}

/// Who accepts connections, has a beat every so often, and has it told that connections are refused and that the
/// journal is rolled, where there is who tells it.
#[derive(Drop)]
pub(crate) struct Acceptor<'a, L: Naming, R: Wait + Clock + Copy + Drop, G: Gate, C: crate::Clock> {
    rt: &'a R,
    server: &'a Serving<'a, L, R, G, C>,
    listeners: &'a Listeners,
    teller: Option<&'a Teller>,
    flushes: FlushList,
    /// When the last beat was, by the server's clock.
    last: i64,
    /// When it was last told what happened.
    reported: Option<Instant>,
}

impl<'a, L, R, G, C> Acceptor<'a, L, R, G, C>
where
    L: Naming,
    R: Wait + Clock + Copy + Drop,
    G: Gate,
    C: crate::Clock,
{
    /// Nobody is accepted yet. The first beat is to come as long after now as each later one after the last.
    pub(crate) fn new(
        rt: &'a R,
        alloc: Global,
        server: &'a Serving<'a, L, R, G, C>,
        listeners: &'a Listeners,
        teller: Option<&'a Teller>,
    ) -> Acceptor<'a, L, R, G, C> {
        Acceptor {
            rt,
            server,
            listeners,
            teller,
            flushes: FlushList::new(alloc),
            last: server.host.now().milliseconds(),
            reported: None,
        }
    }
}

impl<L: Naming, R: Wait + Clock + Copy + Drop, G: Gate, C: crate::Clock> Acceptor<'_, L, R, G, C> {
    /// Accepts some of those who wait to connect to a listener, and answers who else waits.
    fn accept_some(&self, listener: &Option<TcpListener>, is_web: bool) -> Waiting {
        let Some(listener) = listener else {
            return Waiting::Nobody;
        };
        let connections = self.server.host.all;
        for _ in 0..ACCEPTS {
            if connections.is_stopping() {
                return Waiting::Nobody;
            }
            let waiting = match listener.accept() {
                Ok((stream, peer)) => {
                    connections.bring(Arrival {
                        stream,
                        peer,
                        is_web,
                    });
                    None
                }
                Err(error) => waiting_after(&error),
            };
            if let Some(waiting) = waiting {
                return waiting;
            }
        }
        Waiting::Others
    }

    /// Has a beat where it is time for one, or where the clock was set back, and answers in how many milliseconds
    /// the next is to be. Where it comes late nobody is ended before the next: who is idle is pinged.
    fn beat_in_time(&mut self) -> u64 {
        let now = self.server.host.now().milliseconds();
        let passed = now.saturating_sub(self.last);
        if 0 <= passed && passed < BEAT {
            return BEAT.saturating_sub(passed) as u64;
        }
        if passed < LATE {
            self.last = now;
            let _ = beat(self.rt, self.server, &mut self.flushes);
            return BEAT as u64;
        }
        // Where nobody could be pinged the next is late as well.
        if tick(self.rt, self.server, &mut self.flushes).answer.is_ok() {
            self.last = now;
        }
        flush(self.server, &mut self.flushes);
        BEAT as u64
    }

    /// Whether there is something to tell that wasn't told where it happened.
    fn has_news(&self, waits: Option<i32>) -> bool {
        let connections = self.server.host.all;
        let has_lost = match &connections.log {
            Some(log) => log.has_lost(),
            None => false,
        };
        waits.is_some()
            || has_lost
            || connections.refused_count() != 0
            || connections.kept.has_rolls()
    }

    /// Leaves for the log what it isn't told where it happens: that connections wait, and that events were lost.
    fn log_news(&self, log: &Events<R>, waits: Option<i32>) {
        if let Some(code) = waits {
            self.server.host.all.note(LogEvent::Waiting(code));
        }
        log.leave_lost(self.rt);
    }

    /// Has it told how often things happened.
    fn tell_counts(&self, teller: &Teller, waits: Option<i32>) {
        let connections = self.server.host.all;
        let counts = ServerCounts {
            refused: connections.tell_refused(),
            rolls: connections.kept.take_rolls(),
            waits,
        };
        teller.leave(self.rt, News::Counts(counts));
    }

    /// Whether so little time is over since it was last told what happened that nothing is told now.
    fn is_early(&self, now: Instant) -> bool {
        match self.reported {
            Some(before) => now.duration_since(before) < Duration::from_secs(BETWEEN),
            None => false,
        }
    }

    /// Has it told that connections were refused or wait, and that the journal was rolled, where there is news, none
    /// wait to be told, and the last are long enough ago. It answers whether there is nothing more to tell.
    fn tell_news(&mut self, teller: &Teller, waits: Option<i32>) -> bool {
        if !self.has_news(waits) {
            return true;
        }
        let Ok(now) = Instant::now(self.rt) else {
            return true;
        };
        if self.is_early(now) {
            return false;
        }
        let connections = self.server.host.all;
        if let Some(log) = &connections.log {
            self.reported = Some(now);
            self.log_news(log, waits);
            return true;
        }
        if teller.is_behind() {
            return false;
        }
        self.reported = Some(now);
        self.tell_counts(teller, waits);
        true
    }

    /// Has it told why the server stops.
    fn tell_stop(&self, teller: &Teller) {
        let connections = self.server.host.all;
        if connections.is_full() {
            connections.note(LogEvent::Stopping("journal full"));
        } else if connections.log.is_some() {
            connections.note(LogEvent::Stopping("standard input ended"));
        } else {
            teller.leave(self.rt, News::InputEnded);
        }
    }

    /// Accepts some of those who wait to connect, does what is due, and answers how long to wait for others; `None`
    /// where the server is asked to stop.
    fn turn(&mut self) -> Option<Duration> {
        let listeners = self.listeners;
        let tcp = self.accept_some(&listeners.tcp, false);
        let ws = self.accept_some(&listeners.ws, true);
        if self.server.host.all.is_stopping() {
            return None;
        }
        let next = Duration::from_millis(self.beat_in_time());
        let waits = error_of(tcp, ws);
        let is_told = match self.teller {
            Some(teller) => self.tell_news(teller, waits),
            None => true,
        };
        if tcp == Waiting::Others || ws == Waiting::Others {
            Some(Duration::from_millis(0))
        } else if waits.is_some() {
            Some(Duration::from_millis(PAUSE))
        } else if !is_told {
            Some(Duration::from_secs(BETWEEN).min(next))
        } else {
            Some(next)
        }
    }

    /// Accepts connections until the server is asked to stop.
    pub(crate) fn serve(&mut self, watch: &mut Watch) {
        let rt = self.rt;
        let Watch { poll, events } = watch;
        for _ in rt.forever() {
            let Some(wait) = self.turn() else {
                break;
            };
            if poll.poll(events, Some(wait)).is_err() {
                thread::sleep(rt, Duration::from_millis(PAUSE));
            }
        }
        if let Some(teller) = self.teller {
            self.reported = None;
            let _ = self.tell_news(teller, None);
            self.tell_stop(teller);
        }
    }
}

/// Has events come of a listener, where there is one.
fn register(
    registry: &Registry,
    listener: Option<&mut TcpListener>,
    token: usize,
) -> io::Result<()> {
    match listener {
        Some(listener) => registry.register(listener, Token(token), Interest::READABLE),
        None => Ok(()),
    }
}

/// Has events come of listeners, and answers what wakes who waits for them.
fn register_all(registry: &Registry, listeners: &mut Listeners) -> io::Result<Waker> {
    register(registry, listeners.tcp.as_mut(), 0)?;
    register(registry, listeners.ws.as_mut(), 1)?;
    Waker::new(registry, WAKE)
}

/// What a thread waits by that accepts from listeners, and how it is asked to stop.
pub(crate) fn door_of<R: Net>(
    rt: &R,
    alloc: Global,
    listeners: &mut Listeners,
) -> io::Result<(Watch, Stopping)> {
    let watch = Watch::new(rt, alloc, EVENTS)?;
    let waker = register_all(watch.poll.registry(), listeners)?;
    Ok((watch, Stopping::new(waker)))
}

/// Listens on an address, for as many at once who connect as the system lets wait.
///
/// # Errors
///
/// Those of the system.
pub fn listen<R: Net>(rt: &R, address: SocketAddr) -> io::Result<net::TcpListener> {
    Ok(net::TcpListener::from(TcpListener::bind(rt, address)?))
}
