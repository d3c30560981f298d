//! What a server waits by: its listeners, its workers' posts, and the word to stop.
use crate::accepting::{Listeners, door_of};
use crate::mailbox::{Mailbox, Watch};
use crate::stopping::{Stopping, read_to_end};
use crate::worker::EVENTS;
use mio::net::TcpListener;
use std::alloc::Global;
use std::io::{ErrorKind, Read};
use std::net::Net;
use std::sync::{Arc, Wait};
use std::thread::Threads;
use std::time::Clock;
use std::{io, net, thread};

/// What a server waits by.
#[derive(Drop)]
pub(super) struct EventSources {
    pub(super) listeners: Listeners,
    /// What the thread waits by that accepts.
    pub(super) watch: Watch,
    pub(super) stopping: Arc<Stopping>,
    /// What the workers wait by, and where others leave something for them.
    pub(super) watches: Vec<Watch>,
    pub(super) posts: Vec<Mailbox>,
}

impl EventSources {
    /// The doors of a server without workers.
    fn new<R: Net>(rt: &R, alloc: Global, listeners: Listeners) -> io::Result<EventSources> {
        let mut listeners = listeners;
        let (watch, stopping) = door_of(rt, alloc, &mut listeners)?;
        let Ok(stopping) = Arc::new(alloc, stopping) else {
            return Err(io::Error::from(ErrorKind::OutOfMemory));
        };
        Ok(EventSources {
            listeners,
            watch,
            stopping,
            watches: Vec::new(alloc),
            posts: Vec::new(alloc),
        })
    }

    /// A post more, of a worker that waits by this.
    fn add_post(&mut self, alloc: Global, watch: &Watch) -> io::Result<()> {
        let post = Mailbox::new(alloc, watch.poll.registry())?;
        self.posts.push(post)?;
        Ok(())
    }

    /// A worker more.
    fn add_worker<R: Net>(&mut self, rt: &R, alloc: Global) -> io::Result<()> {
        let watch = Watch::new(rt, alloc, EVENTS)?;
        self.add_post(alloc, &watch)?;
        self.watches.push(watch)?;
        Ok(())
    }

    /// So many workers more.
    fn add_workers<R: Net>(&mut self, rt: &R, alloc: Global, workers: usize) -> io::Result<()> {
        for _ in 0..workers {
            self.add_worker(rt, alloc)?;
        }
        Ok(())
    }
}

/// A listener that doesn't wait, where there is one.
fn without_waiting(listener: Option<net::TcpListener>) -> io::Result<Option<TcpListener>> {
    let Some(listener) = listener else {
        return Ok(None);
    };
    listener.set_nonblocking(true)?;
    Ok(Some(TcpListener::from_std(listener)))
}

/// Listeners that don't wait.
fn listeners_of(
    tcp: Option<net::TcpListener>,
    ws: Option<net::TcpListener>,
) -> io::Result<Listeners> {
    let tcp = without_waiting(tcp)?;
    let ws = without_waiting(ws)?;
    Ok(Listeners { tcp, ws })
}

/// What a server waits by that has so many workers.
pub(super) fn doors_of<R: Net>(
    rt: &R,
    alloc: Global,
    tcp: Option<net::TcpListener>,
    ws: Option<net::TcpListener>,
    workers: usize,
) -> io::Result<EventSources> {
    let listeners = listeners_of(tcp, ws)?;
    let mut doors = EventSources::new(rt, alloc, listeners)?;
    doors.add_workers(rt, alloc, workers)?;
    Ok(doors)
}

/// Has a thread read an input, which asks the server to stop at its end. It answers whether that could be started.
pub(super) fn has_stop<R, I>(rt: &R, stop: I, stopping: &Arc<Stopping>) -> bool
where
    R: Threads + Wait + Clock + Copy + Drop + Send + 'static,
    I: Read + Send + Drop + 'static,
{
    let Ok(asked) = Arc::try_clone(stopping) else {
        return false;
    };
    let own = *rt;
    let started = thread::spawn(rt, move || {
        read_to_end(&own, stop);
        asked.ask();
    });
    started.is_ok()
}
