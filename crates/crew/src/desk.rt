//! The slots of workers.
//!
//! A slot is a number in a queue between threads: no clause says when one comes. A server's worker needs none, since
//! it does one line at a time. Who needs one takes it at the gate, before the lock of the hall is asked for, and so
//! waits for it without the hall.
ghost use Rattle.std.specs.Prelude.{◌<◌, ◌≤◌};

use chronicle::{Moment, SessionId};
use crossbeam_channel::{Receiver, Sender, bounded};
use session_io::book::FlushList;
use session_io::{Clock, Gate, Host, Sockets};
use std::alloc::{AllocError, Global};
use std::cell::Cell;
use std::sync::Wait;

/// Holds one slot for each worker: who has one may do lines. It is shared by threads.
#[derive(Drop)]
pub struct Desk {
    sender: Sender<u64>,
    receiver: Receiver<u64>,
}

impl Desk {
    /// A desk of so many slots, from 1 to 64. It fails only where there is no memory.
    pub fn new<R: Wait>(rt: &R, alloc: Global, workers: u64) -> Result<Desk, AllocError>
        requires some { 0 < workers }
        requires most { workers ≤ 64 }
    {
        let (sender, receiver) = bounded(alloc, workers as usize)?;
        let desk = Desk { sender, receiver };
        for slot in 0..workers {
            desk.back(rt, slot);
        }
        Ok(desk)
    }

    /// Takes a slot, and waits for one where none is there. It answers `None` where the channel answers an error.
    pub fn slot<R: Wait>(&self, rt: &R) -> Option<u64> {
        self.receiver.recv(rt).ok()
    }

    /// Gives a slot back, and tries again where that is refused.
    pub fn back<R: Wait>(&self, rt: &R, slot: u64) {
        for _ in rt.forever() {
            if self.sender.send(rt, slot).is_ok() {
                return;
            }
        }
    }
}

/// A host for one thread, at whose gate a slot of a desk is taken before that of the host is passed, and given back
/// after it.
#[derive(Drop)]
pub(crate) struct AtDesk<'a, R: Wait, H: Host> {
    pub(crate) rt: &'a R,
    pub(crate) host: &'a H,
    pub(crate) desk: &'a Desk,
    pub(crate) slot: Cell<Option<u64>>,
}

impl<R: Wait, H: Host> Gate for AtDesk<'_, R, H> {
    fn enter(&self, session: SessionId) {
        // The desk has both ends of its channel, which so answers no error.
        for _ in self.rt.forever() {
            let slot = self.desk.slot(self.rt);
            if slot.is_some() {
                self.slot.set(slot);
                break;
            }
        }
        self.host.enter(session);
    }

    fn leave(&self, session: SessionId) {
        self.host.leave(session);
        if let Some(slot) = self.slot.take() {
            self.desk.back(self.rt, slot);
        }
    }
}

impl<R: Wait, H: Host> Sockets for AtDesk<'_, R, H> {
    ghost shuts = { λ a t. H.shuts a.host.now t };

    ghost finds_shut = { λ a t. H.finds_shut a.host.now t };

    ghost tells = { λ a w. H.tells a.host.now w };

    ghost stops = { λ a. H.stops a.host.now };

    fn shut(&self, session: SessionId) {
        self.host.shut(session);
    }

    fn is_shut(&self, session: SessionId) -> bool {
        self.host.is_shut(session)
    }

    fn flush(&self, flushes: &FlushList) {
        self.host.flush(flushes);
    }

    fn pause(&self) {
        self.host.pause();
    }

    fn note_roll(&self, dropped: usize) {
        self.host.note_roll(dropped);
    }

    fn stop(&self) {
        self.host.stop();
    }
}

impl<R: Wait, H: Host> Clock for AtDesk<'_, R, H> {
    ghost shows = { λ a t. H.shows a.host.now t };

    fn now(&self) -> Moment {
        self.host.now()
    }
}

impl<R: Wait, H: Host> Host for AtDesk<'_, R, H> {}
