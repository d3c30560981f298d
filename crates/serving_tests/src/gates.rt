//! A gate at which two lines have to be done at once.
use crate::client::{TURNS, rest};
use chronicle::SessionId;
use serving::Gate;
use std::sync::atomic::{AtomicBool, AtomicU64, Ordering};
use std::time::Clock;

/// Once it is closed, whoever leaves first waits until another session leaves, too.
#[derive(Drop)]
pub(crate) struct Turnstile<R: Clock + Drop> {
    rt: R,
    is_closed: AtomicBool,
    first: AtomicU64,
    is_met: AtomicBool,
    has_given_up: AtomicBool,
}

impl<R: Clock + Drop> Turnstile<R> {
    /// An open gate.
    pub(crate) fn new(rt: R) -> Turnstile<R> {
        Turnstile {
            rt,
            is_closed: AtomicBool::new(false),
            first: AtomicU64::new(0),
            is_met: AtomicBool::new(false),
            has_given_up: AtomicBool::new(false),
        }
    }

    /// Closes it.
    pub(crate) fn close(&self) {
        self.is_closed.store(true, Ordering::SeqCst);
    }

    /// Whether two met at the gate, and none gave up.
    pub(crate) fn has_served(&self) -> bool {
        self.is_met.load(Ordering::SeqCst) && !self.has_given_up.load(Ordering::SeqCst)
    }

    fn wait_for_another(&self) {
        for _ in 0..TURNS {
            if self.is_met.load(Ordering::SeqCst) {
                return;
            }
            rest(&self.rt);
        }
        self.has_given_up.store(true, Ordering::SeqCst);
    }
}

impl<R: Clock + Drop> Gate for Turnstile<R> {
    fn enter(&self, _session: SessionId) {}

    fn leave(&self, session: SessionId) {
        if !self.is_closed.load(Ordering::SeqCst) {
            return;
        }
        let found = self
            .first
            .compare_exchange(0, session.number(), Ordering::SeqCst, Ordering::SeqCst);
        match found {
            Ok(_) => self.wait_for_another(),
            Err(first) if first != session.number() => {
                self.is_met.store(true, Ordering::SeqCst);
            }
            Err(_) => {}
        }
    }
}
