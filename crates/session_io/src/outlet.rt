//! A session's wire as threads share it.
//!
//! Three flags are looked at without the lock. Wanted is set before the lock is tried for, and looked at again after
//! it was given back, so that a thread that didn't get the lock is written for by the one that had it. Behind is set
//! when the stream didn't take all, and cleared by the next thread that writes before it takes anything. Busy is set
//! while it is written to, so that an event which comes between a write that failed and the flag for it isn't lost. In
//! another order, or with one left out, a client would hang now and then: `checks/outlet` tries all interleavings of a
//! model, and of the model with each of these mistakes.
ghost use Rattle.std.specs.Prelude.{◌≡◌, IfSome};
ghost use Rattle.session_io.specs.Writing.{Pumps};

use chronicle::SessionId;
use deliveries::WriteFault;
use session_ends::book::Naming;
use snapshots::Snapshot;
use std::io::Write;
use std::sync::atomic::{AtomicBool, Ordering};
use std::sync::{Mutex, Wait};
use wire::{Flow, Sink, Wire};

/// What came of pumping a session's wire, with the wire before that and after it, which exist for clauses alone.
#[derive(Drop)]
pub struct Pumped<L: Naming, W: Write + Drop> {
    pub flow: Result<Flow, WriteFault>,
    /// The session whose wire it is.
    pub session: SessionId,
    pub before: Snapshot<Wire<L, W>>,
    pub after: Snapshot<Wire<L, W>>,
}

/// A session's wire, on which whoever put something into the session's outbox writes at once. No call waits for
/// another that writes: it leaves word instead, and the other writes once more. A stream that didn't take all is
/// left alone until it is told to take more (`go_on`). Of what waits one call writes a part, so that others have their
/// turn: where it answers `Flow::More`, the caller sees to it that what is left is written, too. `checks/outlet` tries
/// the three flags over all interleavings of a small model.
#[derive(Drop)]
pub struct Outlet<L: Naming, W: Write + Drop> {
    wire: Mutex<Option<Wire<L, W>>>,
    // Somebody wants what waits to be written.
    is_wanted: AtomicBool,
    // Somebody writes.
    is_busy: AtomicBool,
    // The stream didn't take all.
    is_behind: AtomicBool,
}

impl<L: Naming, W: Sink + Drop> Outlet<L, W> {
    /// An outlet that has no wire yet.
    pub fn new() -> Outlet<L, W> {
        Outlet {
            wire: Mutex::new(None),
            is_wanted: AtomicBool::new(false),
            is_busy: AtomicBool::new(false),
            is_behind: AtomicBool::new(false),
        }
    }

    /// Gives it its wire. What was put before is written by the next `write_now`.
    pub fn open<R: Wait>(&self, rt: &R, wire: Wire<L, W>) {
        *self.wire.lock(rt) = Some(wire);
    }

    /// Writes what waits, as far as the stream takes it and one turn goes, and answers what came of that; or `None`
    /// where another thread writes, which so writes once more, where there is no wire, or where the stream didn't take
    /// all before: then nothing is tried.
    pub fn write_now<R: Wait>(&self, rt: &R) -> Option<Pumped<L, W>>
        ensures { IfSome result (λ p. Pumps p.before.value p.after.value p.session p.flow) }
    {
        if self.is_behind.load(Ordering::SeqCst) {
            return None;
        }
        self.write(rt)
    }

    /// The stream takes more: writes what waits, if it didn't take all before, or if a write is under way that may
    /// find so.
    pub fn go_on<R: Wait>(&self, rt: &R) -> Option<Pumped<L, W>>
        ensures { IfSome result (λ p. Pumps p.before.value p.after.value p.session p.flow) }
    {
        // Busy is looked at first: who writes says first that it is behind, and then that it is no longer busy.
        if !self.is_busy.load(Ordering::SeqCst) && !self.is_behind.load(Ordering::SeqCst) {
            return None;
        }
        self.write(rt)
    }

    /// Writes what waits, or has the thread do so that writes now.
    fn write<R: Wait>(&self, rt: &R) -> Option<Pumped<L, W>>
        ensures { IfSome result (λ p. Pumps p.before.value p.after.value p.session p.flow) }
    {
        let mut pumped = None;
        // Said before the lock is asked for: who has it looks again when it has given it back.
        self.is_wanted.store(true, Ordering::SeqCst);
        for _ in rt.forever() {
            if !self.is_wanted.load(Ordering::SeqCst) {
                break;
            }
            let Some(mut wire) = self.wire.try_lock() else {
                return None;
            };
            self.is_wanted.store(false, Ordering::SeqCst);
            let Some(wire) = &mut *wire else {
                return None;
            };
            pumped = Some(self.pump(rt, wire));
        }
        pumped
    }

    /// Writes what waits on the wire, which this thread has.
    fn pump<R: Wait>(&self, rt: &R, wire: &mut Wire<L, W>) -> Pumped<L, W>
        ensures { Pumps result.before.value result.after.value result.session result.flow }
    {
        self.is_busy.store(true, Ordering::SeqCst);
        // Before anything is taken: who left what it put alone, since the stream was behind, has put it before.
        self.is_behind.store(false, Ordering::SeqCst);
        let before = Snapshot::of(&*wire);
        let flow = wire.pump(rt);
        let after = Snapshot::of(&*wire);
        match flow {
            // Before busy is taken back: the event that the stream takes more may have come already.
            Ok(Flow::Behind) => self.is_behind.store(true, Ordering::SeqCst),
            Ok(Flow::More | Flow::Idle | Flow::Ended) | Err(_) => {}
        }
        self.is_busy.store(false, Ordering::SeqCst);
        Pumped {
            flow,
            session: wire.session(),
            before,
            after,
        }
    }

    /// Ends the outlet of a session, and gives back its wire, which tells what went out (`Wire::in_step`), and from
    /// which its writer and its stub come back. It answers `None` where it has no wire, or another session's, which
    /// it then keeps.
    pub fn end<R: Wait>(&self, rt: &R, session: SessionId) -> Option<Wire<L, W>>
        ensures { IfSome result (λ wire. wire.session ≡ session) }
    {
        let mut held = self.wire.lock(rt);
        let wire = held.take()?;
        if wire.session() != session {
            *held = Some(wire);
            return None;
        }
        Some(wire)
    }
}
