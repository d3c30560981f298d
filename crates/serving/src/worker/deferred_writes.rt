//! Clients for whom something was put that their workers are left to write.
//!
//! Of a long list of sessions that are told, each is left to its own worker, but for some at either end of the list:
//! there stands who was told by a short line of the same round. A count at the connection says of how many records it
//! was told since; whoever finds it 0 lists the place, and the worker takes the count back before it writes, so what
//! was put before is written. Without memory for the list the worker writes to all its clients.
use super::Context;
use super::client_slab::{ClientSlab, Slot};
use crate::mailbox::{Mailbox, WriteQueue};
use session_io::Gate;
use session_io::book::Naming;
use std::alloc::Global;
use std::mem;
use std::sync::Wait;
use std::time::Clock;

/// To how many of these a worker writes before it looks at other events.
const WRITES: usize = 32;

/// Clients to whom a worker has begun to write. Who is left to it meanwhile waits in its post until it has written
/// to all these.
#[derive(Drop)]
pub(crate) struct DeferredWrites {
    left: WriteQueue,
    // To how many more it writes next.
    due: usize,
}

impl DeferredWrites {
    /// Nobody.
    pub(crate) fn new(alloc: Global) -> DeferredWrites {
        DeferredWrites {
            left: WriteQueue::new(alloc),
            due: 0,
        }
    }

    /// Takes those who were left to a worker, if it has written to all whom it took before, and answers whether
    /// there is anybody.
    pub(crate) fn fill<R: Wait>(&mut self, rt: &R, post: &Mailbox) -> bool {
        if self.left.is_empty() {
            post.swap_left(rt, &mut self.left);
            self.due = 0;
        }
        !self.left.is_empty()
    }

    /// The worker has read a client.
    pub(crate) fn add_read(&mut self) {
        self.due = self.due.saturating_add(WRITES);
    }

    /// The worker has so many flushed.
    pub(crate) fn add_flushed(&mut self, count: usize) {
        self.due = self.due.saturating_add(count);
    }

    /// To how many the worker writes now: to few where little else happens, and to more by what it has read and
    /// told, so that nobody waits long.
    fn begin(&mut self) -> usize {
        mem::replace(&mut self.due, 0).saturating_add(WRITES)
    }
}

impl<L: Naming, R: Wait + Clock + Copy + Drop, G: Gate, C: crate::Clock> Context<'_, L, R, G, C> {
    /// Writes what waits for the client at a place.
    fn write_at(&self, place: Option<&Slot<L, R>>) {
        if let Some(Slot::Held(client)) = place {
            self.server.host.write_left(&client.connection);
        }
    }

    /// Writes to some of those who are left to the worker that has these places, those who were left last first.
    pub(super) fn write_batch(&mut self, places: &ClientSlab<L, R>) {
        for _ in 0..self.batch.begin() {
            let Some(at) = self.batch.left.pop() else {
                break;
            };
            self.write_at(places.all.get(at));
        }
        if self.batch.left.take_all() {
            self.write_all(places);
        }
    }

    /// Writes to all clients.
    fn write_all(&self, places: &ClientSlab<L, R>) {
        for place in places.all.iter() {
            self.write_at(Some(place));
        }
    }
}
