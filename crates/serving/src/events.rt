//! What happens to a server, as its log has it: a line each, which says when, what, who and why.
use crate::clock::SystemClock;
use crate::news::News;
use chronicle::{Moment, SessionId};
use crossbeam_channel::Sender;
use line_grammar::Octets;
use log::kv::Source;
use log::span::Spans;
use log::{Line, Log, Metadata, Record, info, warn};
use numerics::{TimeFault, time_text};
use session_io::Clock as _;
use std::alloc::Global;
use std::fmt::Display;
use std::net::SocketAddr;
use std::sync::Wait;
use std::sync::atomic::{AtomicU64, Ordering};
use std::time::Clock;
use std::{io, str};

/// What happened.
#[derive(Drop)]
pub(crate) enum LogEvent {
    /// The server began to serve, by so many workers.
    Started(usize),
    /// It is to end, for this reason.
    Stopping(&'static str),
    /// It has ended.
    Ended,
    /// A session was opened for who connected from this address, by WebSocket or not.
    Came(SessionId, SocketAddr, bool),
    /// A session has its first nickname.
    Named(SessionId, Octets),
    /// A session is gone, for this reason.
    Went(SessionId, &'static str),
    /// A connection from this address was refused, for this reason.
    Refused(SocketAddr, &'static str),
    /// Connections wait, since the system gives none now: its error.
    Waiting(i32),
    /// The journal was rolled, and so many records were dropped.
    Rolled(usize),
    /// So many events found no room among those that wait to be told.
    Lost(u64),
}

/// Standard error, where each record stands behind its time.
#[derive(Clone, Copy, Drop)]
struct Timed<'r, 't, R: Eprint> {
    rt: &'r R,
    time: &'t str,
}

impl<R: Eprint> Log for Timed<'_, '_, R> {
    fn enabled(&self, _metadata: &Metadata<'_>) -> bool {
        true
    }

    fn log<D: Display, K: Source, S: Spans>(&self, record: &Record<'_, D, K, S>) {
        let time = self.time;
        let line = Line::new(record);
        let _ = eprintln!(self.rt; "{time} {line}");
    }

    fn flush(&self) {}

    fn target(&self) -> &str {
        "halld"
    }
}

/// Whether a session that ended for this reason ended by a fault.
fn is_fault(why: &str) -> bool {
    matches!(why, "sendq" | "readfail" | "writefail" | "memory")
}

/// Tells that a server began to serve, by so many workers.
fn tell_started<R: Eprint>(to: Timed<'_, '_, R>, workers: usize) {
    info!(to; workers = workers; "started");
}

/// Tells that a server is to end, and why.
fn tell_stopping<R: Eprint>(to: Timed<'_, '_, R>, why: &str) {
    info!(to; why = why; "stopping");
}

/// Tells that a server has ended.
fn tell_ended<R: Eprint>(to: Timed<'_, '_, R>) {
    info!(to; "ended");
}

/// Tells that a session was opened for who connected.
fn tell_came<R: Eprint>(to: Timed<'_, '_, R>, session: SessionId, from: SocketAddr, is_web: bool) {
    let by = if is_web { "websocket" } else { "tcp" };
    info!(to; session = session.number(), from = from, by = by; "came");
}

/// Tells that a session has its first nickname.
fn tell_named<R: Eprint>(to: Timed<'_, '_, R>, session: SessionId, nick: &Octets) {
    let nick = str::from_utf8(nick.as_slice()).unwrap_or("-");
    info!(to; session = session.number(), nick = nick; "named");
}

/// Warns that a session is gone that ended by a fault.
fn warn_went<R: Eprint>(to: Timed<'_, '_, R>, session: SessionId, why: &str) {
    warn!(to; session = session.number(), why = why; "went");
}

/// Tells that a session is gone.
fn tell_went<R: Eprint>(to: Timed<'_, '_, R>, session: SessionId, why: &str) {
    info!(to; session = session.number(), why = why; "went");
}

/// Warns that a connection was refused.
fn warn_refused<R: Eprint>(to: Timed<'_, '_, R>, from: SocketAddr, why: &str) {
    warn!(to; from = from, why = why; "refused");
}

/// Warns that connections wait, by this error of the system.
fn warn_waiting<R: Eprint>(to: Timed<'_, '_, R>, code: i32) {
    let why = io::Error::from_raw_os_error(code);
    warn!(to; "connections wait: {why}");
}

/// Tells that the journal was rolled, and so many records were dropped.
fn tell_rolled<R: Eprint>(to: Timed<'_, '_, R>, dropped: usize) {
    info!(to; dropped = dropped; "rolled");
}

/// Warns that so many events found no room.
fn warn_lost<R: Eprint>(to: Timed<'_, '_, R>, count: u64) {
    warn!(to; count = count; "events lost");
}

/// Tells of an event.
fn tell_to<R: Eprint>(to: Timed<'_, '_, R>, event: &LogEvent) {
    match event {
        LogEvent::Started(workers) => tell_started(to, *workers),
        LogEvent::Stopping(why) => tell_stopping(to, why),
        LogEvent::Ended => tell_ended(to),
        LogEvent::Came(session, from, is_web) => tell_came(to, *session, *from, *is_web),
        LogEvent::Named(session, nick) => tell_named(to, *session, nick),
        LogEvent::Went(session, why) if is_fault(why) => warn_went(to, *session, why),
        LogEvent::Went(session, why) => tell_went(to, *session, why),
        LogEvent::Refused(from, why) => warn_refused(to, *from, why),
        LogEvent::Waiting(code) => warn_waiting(to, *code),
        LogEvent::Rolled(dropped) => tell_rolled(to, *dropped),
        LogEvent::Lost(count) => warn_lost(to, *count),
    }
}

/// A moment's text, where there is memory for it and it has one.
fn time_in<'a>(text: &'a Result<Octets, TimeFault>) -> &'a str {
    match text {
        Ok(text) => str::from_utf8(text.as_slice()).unwrap_or("-"),
        Err(_) => "-",
    }
}

/// Tells of an event that was at this moment.
pub(crate) fn tell_event<R: Eprint>(rt: &R, alloc: Global, at: Moment, event: &LogEvent) {
    let text = time_text(alloc, at.milliseconds());
    let time = time_in(&text);
    tell_to(Timed { rt, time }, event);
}

/// Where events are left for who tells them.
#[derive(Drop)]
pub(crate) struct Events<R: Clock + Copy + Drop> {
    news: Sender<News, Global>,
    clock: SystemClock<R>,
    // How many found no room, and weren't told of.
    lost: AtomicU64,
}

impl<R: Wait + Clock + Copy + Drop> Events<R> {
    /// Events that are left here.
    pub(crate) fn new(rt: R, news: Sender<News, Global>) -> Events<R> {
        Events {
            news,
            clock: SystemClock::new(rt),
            lost: AtomicU64::new(0),
        }
    }

    /// Leaves an event that is now, where there is room.
    pub(crate) fn leave(&self, rt: &R, event: LogEvent) {
        let news = News::Event(self.clock.now(), event);
        if self.news.try_send(rt, news).is_err() {
            self.lost.fetch_add(1, Ordering::SeqCst);
        }
    }

    /// Whether some were lost that weren't told of.
    pub(crate) fn has_lost(&self) -> bool {
        self.lost.load(Ordering::SeqCst) != 0
    }

    /// Leaves word of those that were lost, where some were.
    pub(crate) fn leave_lost(&self, rt: &R) {
        let lost = self.lost.swap(0, Ordering::SeqCst);
        if lost != 0 {
            self.leave(rt, LogEvent::Lost(lost));
        }
    }
}
