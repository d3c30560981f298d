//! How many there are of something in all workers together.
use std::sync::atomic::{AtomicU64, Ordering};

/// How many there are, and how many may be.
#[derive(Drop)]
pub struct Semaphore {
    count: AtomicU64,
    most: u64,
}

impl Semaphore {
    /// None is there, and so many may be.
    pub fn new(most: u64) -> Semaphore {
        Semaphore {
            count: AtomicU64::new(0),
            most,
        }
    }

    /// One more comes, and whether that is one too many.
    pub fn try_acquire(&self) -> bool {
        self.most <= self.count.fetch_add(1, Ordering::SeqCst)
    }

    /// One goes.
    pub fn release(&self) {
        self.count.fetch_sub(1, Ordering::SeqCst);
    }
}
