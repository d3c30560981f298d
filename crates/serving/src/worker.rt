//! A worker: a thread that does the lines of its clients, and opens and ends their sessions.
//!
//! What a worker has of its clients is in no lock: a client is registered and placed by its worker itself, so no event
//! can come for a place that another thread fills; an event for a place that has another client by then does no harm.
//! A client that sends much is read once between two looks at the events of all. A shut session whose client doesn't
//! read is looked at every 20 ms, 250 times, since no event says that time went by.

mod client;
mod client_slab;
mod closing;
mod connecting;
mod deferred_writes;
mod log_notes;
mod opening;
mod peer_hosts;
mod reading;

use crate::connections::{NO_MEMORY, PAUSE, Serving};
use crate::mailbox::{Arrival, Mail, Mailbox, WAKE};
use client_slab::ClientSlab;
pub(crate) use client_slab::Slot;
use client_streams::{Lingerers, PendingHandshakes};
pub(crate) use connecting::Incoming;
use deferred_writes::DeferredWrites;
use mio::{Events, Poll};
use reading::Readiness;
use session_io::book::{FlushList, Naming};
use session_io::{Gate, flush};
use std::alloc::Global;
use std::collections::VecDeque;
use std::sync::Wait;
use std::time::{Clock, Duration, Instant};
use std::{mem, thread};

/// How many events are looked at before what was put is written.
pub(crate) const EVENTS: usize = 256;

/// How many sessions that are over are swept in a round.
const SWEEPS: u32 = 64;

/// After how many deliveries of its sweeps, about, a round sweeps nobody more: each who shares a channel is told.
const SHOWN: usize = 10_000;

/// A worker: its clients' places, and what it works with besides, so that a place can be lent to that.
#[derive(Drop)]
pub(crate) struct Worker<'a, L: Naming, R: Wait + Clock + Copy + Drop, G: Gate, C: crate::Clock> {
    pub(crate) places: ClientSlab<L, R>,
    pub(crate) context: Context<'a, L, R, G, C>,
}

/// What a worker works with besides its clients' places.
#[derive(Drop)]
pub(crate) struct Context<'a, L: Naming, R: Wait + Clock + Copy + Drop, G: Gate, C: crate::Clock> {
    pub(crate) rt: &'a R,
    pub(crate) alloc: Global,
    pub(crate) server: &'a Serving<'a, L, R, G, C>,
    post: &'a Mailbox,
    poll: Poll,
    sendq: usize,
    pub(crate) guests: PendingHandshakes,
    flushes: FlushList,
    mail: Mail,
    batch: DeferredWrites,
    /// Who connected and isn't served yet, the first first.
    arrivals: VecDeque<Arrival>,
    /// Who may have more to be read, those who wait longest first.
    more: VecDeque<usize>,
    /// Whose session is to be given up now.
    closing: Vec<usize>,
    pub(crate) lingerers: Lingerers<R>,
    /// Who is looked at again after a pause; all where there was no memory for the list.
    again: Vec<usize>,
    is_all_again: bool,
    /// There was no memory for a sweep, which is tried again after a pause.
    is_sweep_again: bool,
    /// When the last pause was over, and how many were before that.
    paused: Option<Instant>,
    pause: u64,
}

impl<'a, L: Naming, R: Wait + Clock + Copy + Drop, G: Gate, C: crate::Clock> Worker<
    'a,
    L,
    R,
    G,
    C,
> {
    /// A worker of a server, without clients, that waits here, and for which others leave something there.
    pub(crate) fn new(
        rt: &'a R,
        alloc: Global,
        server: &'a Serving<'a, L, R, G, C>,
        post: &'a Mailbox,
        poll: Poll,
        sendq: usize,
    ) -> Worker<'a, L, R, G, C> {
        Worker {
            places: ClientSlab::new(alloc),
            context: Context {
                rt,
                alloc,
                server,
                post,
                poll,
                sendq,
                guests: PendingHandshakes::new(alloc),
                flushes: FlushList::new(alloc),
                mail: Mail::new(alloc),
                batch: DeferredWrites::new(alloc),
                arrivals: VecDeque::new(alloc),
                more: VecDeque::new(alloc),
                closing: Vec::new(alloc),
                lingerers: Lingerers::new(alloc),
                again: Vec::new(alloc),
                is_all_again: false,
                is_sweep_again: false,
                paused: None,
                pause: 0,
            },
        }
    }
}

impl<L: Naming, R: Wait + Clock + Copy + Drop, G: Gate, C: crate::Clock> Worker<'_, L, R, G, C> {
    /// A place is free for another client.
    pub(crate) fn free(&mut self, at: usize) {
        self.context.post.one_less();
        self.places.free(at);
    }

    /// Does what others left, and answers whether there was anything. Mostly there is nothing, and nothing is moved.
    fn do_mail(&mut self) -> bool {
        self.context.post.has_mail(self.context.rt) && self.do_all_mail()
    }

    /// Does what others left, and answers whether that was more than who connected.
    fn do_all_mail(&mut self) -> bool {
        let mut mail = self.context.take_mail();
        let is_any = mail.is_all || !mail.calls.is_empty();
        for at in mail.calls.iter() {
            self.look(*at, false);
        }
        if mail.is_all {
            self.look_at_all();
        }
        mail.calls.clear();
        mail.is_all = false;
        self.context.take_arrivals(&mut mail.arrivals);
        self.context.mail = mail;
        is_any
    }

    /// Looks at all clients.
    fn look_at_all(&mut self) {
        for at in 0..self.places.len() {
            self.look(at, false);
        }
    }

    /// Does what others left, sweeps who is shut, of many some, and gives up whose session is to be, until nothing is
    /// left to do now.
    fn settle(&mut self) {
        let rt = self.context.rt;
        let server = self.context.server;
        self.context.add_flushed();
        // Where the server is closed nobody waits, and nobody is told.
        let most = if server.host.all.is_closed() {
            u32::MAX
        } else {
            SWEEPS
        };
        let mut sweeps = most;
        for _ in rt.forever() {
            flush(server, &mut self.context.flushes);
            let is_any = self.do_mail();
            let left = self.context.sweep_some(sweeps);
            if !is_any && left == sweeps && self.context.closing.is_empty() {
                break;
            }
            sweeps = left;
            self.close_those();
        }
    }

    /// Looks again at who was to be after a pause.
    fn retry(&mut self, at: usize) {
        self.look(at, true);
        self.close(at);
    }

    /// Looks again at those who were to be after a pause, if one is over.
    fn retry_some(&mut self) {
        if !self.context.is_waiting() || !self.context.is_pause_over() {
            return;
        }
        self.context.resume();
        let again = self.context.take_again();
        for at in again.iter() {
            self.retry(*at);
        }
        if mem::replace(&mut self.context.is_all_again, false) {
            self.retry_all();
        }
    }

    /// Looks again at all.
    fn retry_all(&mut self) {
        for at in 0..self.places.len() {
            self.retry(at);
        }
    }

    /// Sees to those to whom something happened.
    fn see_to_those(&mut self, events: &Events) {
        for event in events.iter() {
            if event.token() == WAKE {
                continue;
            }
            let has_ended = event.is_read_closed() || event.is_error();
            let ready = Readiness {
                is_writable: event.is_writable(),
                is_readable: event.is_readable() || has_ended,
                has_ended,
            };
            self.see_to(event.token().0, ready);
        }
    }

    /// Serves until the server is closed and no client is left.
    pub(crate) fn serve(&mut self, events: &mut Events) {
        let rt = self.context.rt;
        let server = self.context.server;
        for _ in rt.forever() {
            self.open_some();
            self.retry_some();
            self.context.write_batch(&self.places);
            self.settle();
            let is_closed = server.host.all.is_closed();
            self.hurry(is_closed);
            if is_closed && self.places.are_free() && self.context.lingerers.is_empty() {
                return;
            }
            self.context.wait_for(events);
            self.read_one_more();
            self.see_to_those(events);
        }
    }
}

impl<L: Naming, R: Wait + Clock + Copy + Drop, G: Gate, C: crate::Clock> Context<'_, L, R, G, C> {
    /// Takes what others left.
    fn take_mail(&mut self) -> Mail {
        let mut mail = mem::replace(&mut self.mail, Mail::new(self.alloc));
        self.post.swap(self.rt, &mut mail);
        mail
    }

    /// The worker has those flushed who are listed.
    fn add_flushed(&mut self) {
        let count = self.flushes.sessions().len();
        self.batch.add_flushed(count);
    }

    /// Takes who is looked at again after a pause off the list.
    fn take_again(&mut self) -> Vec<usize> {
        mem::replace(&mut self.again, Vec::new(self.alloc))
    }

    /// Has a place looked at again after a pause.
    fn look_again(&mut self, at: usize) {
        if self.again.push(at).is_err() {
            self.is_all_again = true;
        }
    }

    /// Takes who connected and was left.
    fn take_arrivals(&mut self, arrivals: &mut VecDeque<Arrival>) {
        for _ in 0..arrivals.len() {
            if let Some(arrival) = arrivals.pop_front() {
                let peer = arrival.peer;
                if self.arrivals.push_back(arrival).is_err() {
                    self.post.one_less();
                    self.server.host.all.refuse(peer, NO_MEMORY);
                }
            }
        }
    }

    /// Whether somebody is to be looked at again after a pause.
    fn is_waiting(&self) -> bool {
        let is_again = self.is_all_again || self.is_sweep_again || !self.again.is_empty();
        is_again || !self.lingerers.is_empty()
    }

    /// Whether a pause is over.
    fn is_pause_over(&mut self) -> bool {
        let Ok(now) = Instant::now(self.rt) else {
            return true;
        };
        let is_over = match self.paused {
            Some(since) => now.duration_since(since) >= Duration::from_millis(PAUSE),
            None => true,
        };
        if is_over {
            self.paused = Some(now);
            self.pause = self.pause.wrapping_add(1);
        }
        is_over
    }

    /// Goes on after a pause with streams that linger, and with a sweep for which there was no memory.
    fn resume(&mut self) {
        let all = self.server.host.all;
        self.lingerers.look(&all.lingering);
        if mem::replace(&mut self.is_sweep_again, false) {
            all.leave_unswept();
        }
    }

    /// How long to wait for an event.
    fn wait(&self, is_due: bool) -> Option<Duration> {
        if is_due || !self.more.is_empty() || !self.arrivals.is_empty() {
            Some(Duration::from_millis(0))
        } else if self.is_waiting() {
            Some(Duration::from_millis(PAUSE))
        } else if !self.guests.is_empty() {
            Some(Duration::from_secs(1))
        } else {
            None
        }
    }

    /// Waits for events, no longer than until there is something to do without one.
    fn wait_for(&mut self, events: &mut Events) {
        let (rt, post) = (self.rt, self.post);
        let has_left = self.batch.fill(rt, post);
        let is_due = has_left || self.server.host.all.is_to_sweep();
        let wait = self.wait(is_due);
        if self.poll.poll(events, wait).is_err() {
            thread::sleep(rt, Duration::from_millis(PAUSE));
        }
    }
}
