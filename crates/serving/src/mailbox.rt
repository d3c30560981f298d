//! What other threads leave for a worker.
use mio::net::TcpStream;
use mio::{Events, Poll, Registry, Token, Waker};
use std::alloc::Global;
use std::collections::VecDeque;
use std::net::{Net, SocketAddr};
use std::sync::atomic::{AtomicU64, Ordering};
use std::sync::{Mutex, Wait};
use std::{io, mem};

/// The token by which a thread is woken.
pub(crate) const WAKE: Token = Token(usize::MAX);

/// What a thread waits by, and room for the events that come.
#[derive(Drop)]
pub(crate) struct Watch {
    pub(crate) poll: Poll,
    pub(crate) events: Events,
}

impl Watch {
    /// Waits for nothing yet, with room for so many events at once.
    pub(crate) fn new<R: Net>(rt: &R, alloc: Global, events: usize) -> io::Result<Watch> {
        let poll = Poll::new(rt)?;
        let events = Events::with_capacity(alloc, events)?;
        Ok(Watch { poll, events })
    }
}

/// A connection that was just accepted.
#[derive(Drop)]
pub(crate) struct Arrival {
    pub(crate) stream: TcpStream,
    pub(crate) peer: SocketAddr,
    /// Whether it came to the listener of WebSocket.
    pub(crate) is_web: bool,
}

/// What was left for a worker.
#[derive(Drop)]
pub(crate) struct Mail {
    /// Connections that it is to serve, the first first.
    pub(crate) arrivals: VecDeque<Arrival>,
    /// Places of clients at which it is to look.
    pub(crate) calls: Vec<usize>,
    /// It is to look at all, since there was no memory for the list.
    pub(crate) is_all: bool,
}

impl Mail {
    /// Nothing.
    pub(crate) fn new(alloc: Global) -> Mail {
        Mail {
            arrivals: VecDeque::new(alloc),
            calls: Vec::new(alloc),
            is_all: false,
        }
    }

    fn is_empty(&self) -> bool {
        self.arrivals.is_empty() && self.calls.is_empty() && !self.is_all
    }
}

/// Places of clients for whom something is left to be written.
#[derive(Drop)]
pub(crate) struct WriteQueue {
    places: Vec<usize>,
    /// There may be others, since there was no memory for the list.
    is_all: bool,
}

impl WriteQueue {
    /// Nobody.
    pub(crate) fn new(alloc: Global) -> WriteQueue {
        WriteQueue {
            places: Vec::new(alloc),
            is_all: false,
        }
    }

    /// Whether nobody is left.
    pub(crate) fn is_empty(&self) -> bool {
        self.places.is_empty() && !self.is_all
    }

    /// Adds a client; all where there is no memory for the list.
    pub(crate) fn add(&mut self, place: usize) {
        if self.places.push(place).is_err() {
            self.is_all = true;
        }
    }

    /// Takes who was added last off the list.
    pub(crate) fn pop(&mut self) -> Option<usize> {
        self.places.pop()
    }

    /// Whether there may be others, and that who asks sees to all.
    pub(crate) fn take_all(&mut self) -> bool {
        mem::replace(&mut self.is_all, false)
    }
}

/// Where other threads leave something for a worker, which empties it each time before it waits. So who finds it
/// empty wakes the worker, and nobody else needs to.
#[derive(Drop)]
pub(crate) struct Mailbox {
    waker: Waker,
    mail: Mutex<Mail>,
    left: Mutex<WriteQueue>,
    clients: AtomicU64,
}

impl Mailbox {
    /// The post of a worker that waits by this registry.
    pub(crate) fn new(alloc: Global, registry: &Registry) -> io::Result<Mailbox> {
        Ok(Mailbox {
            waker: Waker::new(registry, WAKE)?,
            mail: Mutex::new(Mail::new(alloc)),
            left: Mutex::new(WriteQueue::new(alloc)),
            clients: AtomicU64::new(0),
        })
    }

    /// Wakes the worker.
    pub(crate) fn wake(&self) {
        let _ = self.waker.wake();
    }

    /// Leaves a connection, and answers whether there was memory for it. Where there was none, it is closed.
    pub(crate) fn bring<R: Wait>(&self, rt: &R, arrival: Arrival) -> bool {
        let mut mail = self.mail.lock(rt);
        let was_empty = mail.is_empty();
        let is_left = mail.arrivals.push_back(arrival).is_ok();
        drop(mail);
        if is_left {
            self.clients.fetch_add(1, Ordering::SeqCst);
        }
        if was_empty {
            self.wake();
        }
        is_left
    }

    /// Has the worker look at a client, by another thread or by itself.
    pub(crate) fn call<R: Wait>(&self, rt: &R, place: usize, is_own: bool) {
        let mut mail = self.mail.lock(rt);
        let was_empty = mail.is_empty();
        if mail.calls.push(place).is_err() {
            mail.is_all = true;
        }
        drop(mail);
        if was_empty && !is_own {
            self.wake();
        }
    }

    /// Has the worker write what waits for a client, by another thread or by itself.
    pub(crate) fn leave<R: Wait>(&self, rt: &R, place: usize, is_own: bool) {
        let mut left = self.left.lock(rt);
        let was_empty = left.is_empty();
        left.add(place);
        drop(left);
        if was_empty && !is_own {
            self.wake();
        }
    }

    /// Takes those for whom something is left to be written, and leaves the other list, which is empty. Where there is
    /// nobody nothing is moved.
    pub(crate) fn swap_left<R: Wait>(&self, rt: &R, other: &mut WriteQueue) {
        let mut left = self.left.lock(rt);
        if !left.is_empty() {
            mem::swap(&mut *left, other);
        }
    }

    /// Whether something was left.
    pub(crate) fn has_mail<R: Wait>(&self, rt: &R) -> bool {
        !self.mail.lock(rt).is_empty()
    }

    /// Takes what was left, and leaves an empty list.
    pub(crate) fn swap<R: Wait>(&self, rt: &R, other: &mut Mail) {
        mem::swap(&mut *self.mail.lock(rt), other);
    }

    /// How many connections it was left that aren't given up.
    pub(crate) fn clients(&self) -> u64 {
        self.clients.load(Ordering::SeqCst)
    }

    /// One of them is given up.
    pub(crate) fn one_less(&self) {
        self.clients.fetch_sub(1, Ordering::SeqCst);
    }
}
