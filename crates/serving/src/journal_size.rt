//! How much the journal has of what clients sent, as the threads of a server count it.
use std::sync::atomic::{AtomicU64, Ordering};

/// Octets that were read of clients since the journal was rolled, which are no fewer than its lines have, and the
/// rolls of which nobody was told.
#[derive(Drop)]
pub(crate) struct JournalSize {
    octets: AtomicU64,
    most: u64,
    rolls: AtomicU64,
    dropped: AtomicU64,
}

/// Rolls, and how many records they dropped.
#[derive(Clone, Copy)]
pub(crate) struct Rolls {
    pub(crate) count: u64,
    pub(crate) dropped: u64,
}

impl JournalSize {
    /// Nothing was read. After so many octets the journal is to be rolled.
    pub(crate) fn new(most: u64) -> JournalSize {
        JournalSize {
            octets: AtomicU64::new(0),
            most,
            rolls: AtomicU64::new(0),
            dropped: AtomicU64::new(0),
        }
    }

    /// So many octets more were read.
    pub(crate) fn add(&self, octets: u64) {
        self.octets.fetch_add(octets, Ordering::SeqCst);
    }

    /// Whether so many were read that the journal is to be rolled.
    pub(crate) fn is_much(&self) -> bool {
        self.most < self.octets.load(Ordering::SeqCst)
    }

    /// The journal was rolled, and so many records were dropped.
    pub(crate) fn note_roll(&self, dropped: usize) {
        self.octets.store(0, Ordering::SeqCst);
        self.dropped.fetch_add(dropped as u64, Ordering::SeqCst);
        self.rolls.fetch_add(1, Ordering::SeqCst);
    }

    /// The journal couldn't be rolled, which is tried again after as many octets.
    pub(crate) fn put_off(&self) {
        self.octets.store(0, Ordering::SeqCst);
    }

    /// Whether there are rolls of which nobody was told.
    pub(crate) fn has_rolls(&self) -> bool {
        self.rolls.load(Ordering::SeqCst) != 0
    }

    /// The rolls of which nobody was told, for who tells of them.
    pub(crate) fn take_rolls(&self) -> Rolls {
        Rolls {
            count: self.rolls.swap(0, Ordering::SeqCst),
            dropped: self.dropped.swap(0, Ordering::SeqCst),
        }
    }
}
