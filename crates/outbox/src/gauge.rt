//! A gauge beside an outbox, by which anybody sees how much waits.
use deliveries::Delivery;
use std::alloc::{AllocError, Global};
use std::sync::Arc;
use std::sync::atomic::{AtomicU64, Ordering};

/// Octets of an outbox's deliveries.
#[derive(Drop)]
struct WaitingOctets {
    /// Of all that were ever put.
    put: AtomicU64,
    /// Of the one that was put last.
    newest: AtomicU64,
    /// Of those that went out.
    gone: AtomicU64,
}

/// How many octets wait for a session: what was put into its outbox and hasn't gone out on its stream. Anybody may
/// look. No clause says what one sees: others put and write meanwhile.
#[derive(Drop)]
pub struct Gauge {
    octets: Arc<WaitingOctets>,
}

/// Octets of a delivery; none of a session's last, whose text is made as it is written.
pub(crate) fn octets_of(delivery: &Delivery) -> u64 {
    match delivery {
        Delivery::Lines { text, .. } => text.as_slice().len() as u64,
        Delivery::Last { .. } => 0,
    }
}

impl Gauge {
    pub(crate) fn new(alloc: Global) -> Result<Gauge, AllocError> {
        let octets = WaitingOctets {
            put: AtomicU64::new(0),
            newest: AtomicU64::new(0),
            gone: AtomicU64::new(0),
        };
        Ok(Gauge {
            octets: Arc::new(alloc, octets)?,
        })
    }

    /// The same gauge once more.
    pub fn again(&self) -> Result<Gauge, AllocError> {
        Ok(Gauge {
            octets: Arc::try_clone(&self.octets)?,
        })
    }

    /// How many octets wait.
    pub fn waiting_octets(&self) -> u64 {
        let gone = self.octets.gone.load(Ordering::SeqCst);
        self.octets.put.load(Ordering::SeqCst).saturating_sub(gone)
    }

    /// How many octets wait besides those of the newest delivery.
    pub fn waiting_besides_newest(&self) -> u64 {
        let newest = self.octets.newest.load(Ordering::SeqCst);
        self.waiting_octets().saturating_sub(newest)
    }

    /// A delivery of so many octets was put.
    pub(crate) fn put(&self, octets: u64) {
        self.octets.newest.store(octets, Ordering::SeqCst);
        self.octets.put.fetch_add(octets, Ordering::SeqCst);
    }

    /// So many octets went out.
    pub fn go_out(&self, octets: u64) {
        self.octets.gone.fetch_add(octets, Ordering::SeqCst);
    }
}
