//! What is told on standard error while a server runs, by a thread of its own: nobody else waits for who reads that.
use crate::events::{LogEvent, tell_event};
use crate::journal_size::Rolls;
use chronicle::Moment;
use crossbeam_channel::{Receiver, Sender, bounded};
use std::alloc::{AllocError, Global};
use std::sync::Wait;
use std::thread::Threads;
use std::time::{Clock, Duration};
use std::{io, thread};

/// For how many seconds the end of a server waits until all is told.
const PATIENCE: u64 = 1;

/// How many events of a log may wait to be told.
const EVENTS: usize = 4096;

/// How many news may wait where there is no log: what happened since the last, and that standard input ended.
const FEW: usize = 2;

/// How often things happened since it was last told.
#[derive(Clone, Copy, Drop)]
pub(crate) struct ServerCounts {
    /// Connections that were refused.
    pub(crate) refused: u64,
    /// The journal's rolls.
    pub(crate) rolls: Rolls,
    /// The system's error by which connections wait.
    pub(crate) waits: Option<i32>,
}

/// What is to be told.
#[derive(Drop)]
pub(crate) enum News {
    Counts(ServerCounts),
    /// For the log.
    Event(Moment, LogEvent),
    /// Standard input ended, by which the server is asked to stop.
    InputEnded,
    /// Nothing more comes.
    End,
}

/// Where news are left for the thread that tells them.
#[derive(Drop)]
pub(crate) struct Teller {
    news: Sender<News, Global>,
    // Nothing comes of it; it ends with the thread.
    end: Receiver<(), Global>,
}

/// Tells that so many connections were refused.
fn tell_refused<R: Eprint>(rt: &R, refused: u64) {
    let _ = eprintln!(rt; "halld: connections refused: {refused}");
}

/// Tells that connections wait, by this error of the system.
fn tell_waiting<R: Eprint>(rt: &R, code: i32) {
    let why = io::Error::from_raw_os_error(code);
    let _ = eprintln!(rt; "halld: connections wait: {why}");
}

/// Tells of the journal's rolls.
fn tell_rolls<R: Eprint>(rt: &R, rolls: Rolls) {
    let (count, dropped) = (rolls.count, rolls.dropped);
    let _ = eprintln!(rt; "halld: journal rolled: {count}, records dropped: {dropped}");
}

/// Tells that standard input ended.
fn tell_input_ended<R: Eprint>(rt: &R) {
    let _ = eprintln!(rt; "halld: standard input ended");
}

/// Tells how often things happened.
fn tell_counts<R: Eprint>(rt: &R, counts: ServerCounts) {
    if counts.refused != 0 {
        tell_refused(rt, counts.refused);
    }
    if let Some(code) = counts.waits {
        tell_waiting(rt, code);
    }
    if counts.rolls.count != 0 {
        tell_rolls(rt, counts.rolls);
    }
}

/// Tells news, and answers whether more may come.
fn tell<R: Eprint>(rt: &R, alloc: Global, news: &News) -> bool {
    match news {
        News::Counts(counts) => tell_counts(rt, *counts),
        News::Event(at, event) => tell_event(rt, alloc, *at, event),
        News::InputEnded => tell_input_ended(rt),
        News::End => return false,
    }
    true
}

/// Tells what comes next, and answers whether more may come.
fn tell_next<R: Wait + Eprint>(rt: &R, alloc: Global, news: &Receiver<News, Global>) -> bool {
    match news.recv(rt) {
        Ok(news) => tell(rt, alloc, &news),
        Err(_) => false,
    }
}

/// Tells what comes, until nothing more can.
fn tell_all<R: Wait + Eprint>(rt: &R, alloc: Global, news: &Receiver<News, Global>) {
    for _ in rt.forever() {
        if !tell_next(rt, alloc, news) {
            return;
        }
    }
}

impl Teller {
    /// Has a thread tell what is left here, the events of a log among it or not; nothing where it can't be started.
    pub(crate) fn start<R: Threads + Wait + Eprint + Copy + Drop + Send + 'static>(
        rt: &R,
        alloc: Global,
        has_log: bool,
    ) -> Result<Option<Teller>, AllocError> {
        let (news, receiver) = bounded(alloc, if has_log { EVENTS } else { FEW })?;
        let (ends, end) = bounded(alloc, 1)?;
        let own = *rt;
        let started = thread::spawn(rt, move || {
            tell_all(&own, alloc, &receiver);
            drop(ends);
        });
        if started.is_err() {
            return Ok(None);
        }
        Ok(Some(Teller { news, end }))
    }

    /// Where events are left for the log.
    pub(crate) fn sender(&self) -> Result<Sender<News, Global>, AllocError> {
        self.news.clone()
    }

    /// Whether news that were left aren't taken yet.
    pub(crate) fn is_behind(&self) -> bool {
        !self.news.is_empty()
    }

    /// Leaves news, where there is room.
    pub(crate) fn leave<R: Wait>(&self, rt: &R, news: News) {
        let _ = self.news.try_send(rt, news);
    }

    /// Waits until all is told, for a while.
    pub(crate) fn finish<R: Wait + Clock>(self, rt: &R) {
        let Teller { news, end } = self;
        let _ = news.try_send(rt, News::End);
        drop(news);
        let _ = end.recv_timeout(rt, Duration::from_secs(PATIENCE));
    }
}
