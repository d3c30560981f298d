//! What the threads of a server share, and what each of them does.
use super::Options;
use super::event_sources::EventSources;
use crate::accepting::Acceptor;
use crate::connections::{Connections, Serving, ThreadHost};
use crate::events::LogEvent;
use crate::mailbox::Watch;
use crate::news::Teller;
use crate::worker::Worker;
use chronicle::{SessionId, Why};
use session_io::book::outbox::Sender;
use session_io::book::{Hall, Naming};
use session_io::{Gate, Server, Sockets, moment_in};
use std::alloc::Global;
use std::sync::{Mutex, Wait};
use std::thread::{Builder, Threads};
use std::time::Clock;
use std::{mem, thread};

/// Octets of a worker's stack.
const STACK: usize = 1_048_576;

/// The most lines that a worker does before what they put is written.
const MOST_LINES: usize = 32;

/// What is read of a server's options while it runs.
#[derive(Drop)]
pub(super) struct Config<'a, G: Gate, C: crate::Clock> {
    gate: &'a G,
    clock: &'a C,
    pub(super) workers: usize,
    sendq: usize,
    pub(super) sendq_bytes: u64,
    pub(super) journal_bytes: u64,
    pub(super) is_quiet: bool,
    pub(super) has_log: bool,
}

impl<'a, G: Gate, C: crate::Clock> Config<'a, G, C> {
    /// What is read of these options.
    pub(super) fn of(options: &Options<'a, G, C>) -> Config<'a, G, C> {
        Config {
            gate: options.gate,
            clock: options.clock,
            workers: options.workers,
            sendq: options.sendq,
            sendq_bytes: options.sendq_bytes,
            journal_bytes: options.journal_bytes,
            is_quiet: options.is_quiet,
            has_log: options.has_log,
        }
    }

    /// How many lines a worker may do before what they put is written: so few that what all workers put together
    /// fills at most an eighth of an outbox, where it has room for so many.
    fn burst(&self) -> usize {
        (self.sendq / 8 / self.workers.max(1)).clamp(1, MOST_LINES)
    }
}

/// What all threads of a server share.
#[derive(Drop)]
pub(super) struct Shared<'a, L: Naming, R: Wait + Clock + Copy + Drop, G: Gate, C: crate::Clock> {
    pub(super) hall: &'a Mutex<Hall<L, Sender<R>>>,
    pub(super) connections: &'a Connections<L, R>,
    pub(super) config: &'a Config<'a, G, C>,
}

impl<L: Naming, R: Wait + Clock + Copy + Drop, G: Gate, C: crate::Clock> Shared<'_, L, R, G, C> {
    /// The connections as a worker works with them; as a thread that is none, where the number is that of the workers.
    fn view(&self, worker: usize) -> ThreadHost<'_, L, R, G, C> {
        ThreadHost {
            all: self.connections,
            gate: self.config.gate,
            clock: self.config.clock,
            worker,
            burst: self.config.burst(),
        }
    }

    /// The server as the thread knows it that has this view.
    fn server<'b>(&'b self, view: &'b ThreadHost<'b, L, R, G, C>) -> Serving<'b, L, R, G, C> {
        Server {
            hall: self.hall,
            host: view,
            burst: view.burst,
        }
    }

    /// Serves as one of the workers.
    fn work(&self, rt: &R, alloc: Global, worker: usize, watch: Watch) {
        let Some(post) = self.connections.post(worker) else {
            return;
        };
        let Watch { poll, mut events } = watch;
        let view = self.view(worker);
        let server = self.server(&view);
        Worker::new(rt, alloc, &server, post, poll, self.config.sendq).serve(&mut events);
    }

    /// Accepts connections until the server is asked to stop.
    fn accept<'a>(
        &self,
        rt: &'a R,
        alloc: Global,
        doors: &'a mut EventSources,
        teller: Option<&'a Teller>,
    ) {
        let view = self.view(self.config.workers);
        let server = self.server(&view);
        Acceptor::new(rt, alloc, &server, &doors.listeners, teller).serve(&mut doors.watch);
    }

    /// Ends a session in the hall that is open, since the server stops, and answers which.
    fn hang_in(&self, hall: &mut Hall<L, Sender<R>>) -> Option<SessionId> {
        let session = self.connections.any_open()?;
        let moment = moment_in(&*hall, self.config.clock.now());
        let _ = hall.hang(session, Why::Shutdown, moment);
        Some(session)
    }

    /// Ends a session that is open, since the server stops, and answers whether there was one.
    fn hang_next(&self, rt: &R, view: &ThreadHost<'_, L, R, G, C>) -> bool {
        let hung = self.hang_in(&mut *self.hall.lock(rt));
        match hung {
            Some(session) => {
                view.shut(session);
                true
            }
            None => false,
        }
    }

    /// Ends all sessions, since the server stops, and has the workers end.
    fn end_all(&self, rt: &R) {
        let view = self.view(self.config.workers);
        for _ in rt.forever() {
            if !self.hang_next(rt, &view) {
                break;
            }
        }
        self.connections.close();
    }
}

/// Has a thread for each of the workers, accepts connections until the server is asked to stop, then ends all
/// sessions, and waits for the threads. It answers whether all could be started.
pub(super) fn run_on<
    L: Naming + Send + Sync,
    R: Threads + Wait + Clock + Copy + Drop + Send + Sync,
    G: Gate + Sync,
    C: crate::Clock + Sync,
>(
    rt: &R,
    alloc: Global,
    shared: &Shared<'_, L, R, G, C>,
    doors: &mut EventSources,
    teller: Option<&Teller>,
) -> bool {
    let watches = mem::replace(&mut doors.watches, Vec::new(alloc));
    shared.connections.note(LogEvent::Started(watches.len()));
    let is_run = thread::scope(thread::scope_env(), rt, |scope| {
        let mut are_started = true;
        for (worker, watch) in watches.into_iter().enumerate() {
            let started = Builder::new()
                .stack_size(STACK)
                .spawn_scoped(scope, move || shared.work(rt, alloc, worker, watch));
            are_started = are_started && started.is_ok();
            drop(started);
        }
        if are_started {
            shared.accept(rt, alloc, doors, teller);
        }
        shared.end_all(rt);
        are_started
    });
    shared.connections.note(LogEvent::Ended);
    is_run
}
