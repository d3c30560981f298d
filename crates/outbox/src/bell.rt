//! A bell beside an outbox, by which its writer rests.
use std::alloc::{AllocError, Global};
use std::sync::atomic::{AtomicU64, Ordering};
use std::sync::{Arc, Wait};
use std::time::Duration;

/// Nobody rests, and it was not rung since the last rest.
const QUIET: u64 = 0;

/// It was rung since the last rest.
const RUNG: u64 = 1;

/// A writer rests.
const ASLEEP: u64 = 2;

/// A bell that anyone may ring, by which one writer rests. No clause says that a ring ends a rest.
#[derive(Drop)]
pub struct Waker {
    state: Arc<AtomicU64>,
}

impl Waker {
    pub(crate) fn new(alloc: Global) -> Result<Waker, AllocError> {
        Ok(Waker {
            state: Arc::new(alloc, AtomicU64::new(QUIET))?,
        })
    }

    /// The same bell once more.
    pub fn again(&self) -> Result<Waker, AllocError> {
        Ok(Waker {
            state: Arc::try_clone(&self.state)?,
        })
    }

    /// Whether it was rung since the last rest: then no ring is needed.
    pub fn is_rung(&self) -> bool {
        self.state.load(Ordering::SeqCst) == RUNG
    }

    /// Ends the writer's rest, or its next one where it doesn't rest. It takes no memory and waits for nobody.
    pub fn ring(&self) {
        if !self.is_rung() && self.state.swap(RUNG, Ordering::SeqCst) == ASLEEP {
            self.state.wake_one();
        }
    }

    /// Rests until it is rung, or for so long at most. One thread may rest at a time.
    pub fn rest<R: Wait>(&self, rt: &R, most: Duration) {
        let found = self
            .state
            .compare_exchange(QUIET, ASLEEP, Ordering::SeqCst, Ordering::SeqCst);
        if found.is_ok() {
            self.state.park_timeout(rt, ASLEEP as u32, most);
        }
        self.state.store(QUIET, Ordering::SeqCst);
    }
}
