//! A clock that is set by hand.
use chronicle::Moment;
use serving::Clock;
use std::sync::atomic::{AtomicI64, Ordering};

/// It shows what it was moved to.
#[derive(Drop)]
pub(crate) struct Dial {
    moment: AtomicI64,
}

impl Dial {
    /// A clock that shows 0.
    pub(crate) fn new() -> Dial {
        Dial {
            moment: AtomicI64::new(0),
        }
    }

    /// So many milliseconds pass.
    pub(crate) fn move_on(&self, milliseconds: i64) {
        self.moment.fetch_add(milliseconds, Ordering::SeqCst);
    }
}

impl Clock for Dial {
    fn now(&self) -> Moment {
        Moment::new(self.moment.load(Ordering::SeqCst))
    }
}
