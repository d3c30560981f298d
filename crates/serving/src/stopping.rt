//! How a server is asked to stop.
//!
//! The thread that reads standard input isn't joined, since a read can't be ended from outside when the server stops
//! because its journal is full.
use mio::Waker;
use std::io::{ErrorKind, Read};
use std::sync::Wait;
use std::sync::atomic::{AtomicBool, Ordering};
use std::thread;
use std::time::{Clock, Duration};

/// Whether a server was asked to stop, and why. Asking wakes the thread that accepts.
#[derive(Drop)]
pub(crate) struct Stopping {
    is_asked: AtomicBool,
    is_full: AtomicBool,
    waker: Waker,
}

impl Stopping {
    /// Nobody asked yet. This wakes the thread that accepts.
    pub(crate) fn new(waker: Waker) -> Stopping {
        Stopping {
            is_asked: AtomicBool::new(false),
            is_full: AtomicBool::new(false),
            waker,
        }
    }

    /// Asks the server to stop.
    pub(crate) fn ask(&self) {
        self.is_asked.store(true, Ordering::SeqCst);
        self.wake();
    }

    /// Wakes the thread that accepts.
    pub(crate) fn wake(&self) {
        let _ = self.waker.wake();
    }

    /// Asks the server to stop, since its journal is full.
    pub(crate) fn ask_full(&self) {
        self.is_full.store(true, Ordering::SeqCst);
        self.ask();
    }

    /// Whether the server was asked to stop.
    pub(crate) fn is_asked(&self) -> bool {
        self.is_asked.load(Ordering::SeqCst)
    }

    /// Whether it was asked since its journal is full.
    pub(crate) fn is_full(&self) -> bool {
        self.is_full.load(Ordering::SeqCst)
    }
}

/// Milliseconds between two reads of an input that has nothing now.
const REST: u64 = 200;

/// Reads an input once, and answers whether it goes on: it hasn't ended and hasn't failed. After one that has nothing
/// now it rests.
fn goes_on<R: Wait + Clock, I: Read>(rt: &R, input: &mut I, room: &mut [u8]) -> bool {
    match input.read(room) {
        Ok(count) => count != 0,
        Err(error) => match error.kind() {
            ErrorKind::WouldBlock => {
                thread::sleep(rt, Duration::from_millis(REST));
                true
            }
            ErrorKind::Interrupted => true,
            _ => false,
        },
    }
}

/// Reads until an input ends or fails. One that doesn't wait is read again and again.
pub(crate) fn read_to_end<R: Wait + Clock, I: Read + Drop>(rt: &R, input: I) {
    let mut input = input;
    let mut room = [0u8; 64];
    for _ in rt.forever() {
        if !goes_on(rt, &mut input, &mut room) {
            break;
        }
    }
}
