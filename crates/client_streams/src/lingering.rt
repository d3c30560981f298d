//! Streams whose sessions are over, and whose clients haven't closed them yet.
use crate::semaphore::Semaphore;
use crate::web::Web;
use mio::net::TcpStream;
use std::alloc::Global;
use std::collections::VecDeque;
use std::io::{ErrorKind, Read};
use std::net::Shutdown;
use std::sync::{Arc, Wait};

/// After how many pauses a stream is closed whatever its client does: five seconds.
pub const LINGER_TRIES: u32 = 250;

/// How many streams may wait for their clients to close them, of all workers.
pub const MOST_LINGERING: u64 = 1024;

/// How many octets are taken from a client, at most, before its stream is closed.
const OCTETS: usize = 1_048_576;

/// Octets of a read.
const ROOM: usize = 4096;

/// How many times a stream is read in one look.
const READS: u32 = 16;

/// A stream that no line is written to any more.
#[derive(Drop)]
struct Lingering<R: Wait + Copy + Drop> {
    stream: Arc<TcpStream>,
    /// Its WebSocket, while frames still wait to be written, a close among them.
    web: Option<Web<R>>,
    /// How many octets may still come.
    left: usize,
    tries: u32,
}

impl<R: Wait + Copy + Drop> Lingering<R> {
    /// Writes what waits, and ends what is written where all is out.
    fn write_on(&mut self) {
        if let Some(web) = &self.web {
            if web.go_on() {
                return;
            }
        }
        self.web = None;
        let _ = self.stream.shutdown(Shutdown::Write);
    }

    /// Reads what came, which nobody wants, and answers whether more may come.
    fn goes_on(&mut self, room: &mut [u8]) -> bool {
        let mut stream = &*self.stream;
        for _ in 0..READS {
            match stream.read(room) {
                // What waits is still written to who reads it.
                Ok(0) => return self.web.is_some(),
                Ok(count) if self.left <= count => return false,
                Ok(count) => self.left -= count,
                Err(error) => {
                    let kind = error.kind();
                    return kind == ErrorKind::WouldBlock || kind == ErrorKind::Interrupted;
                }
            }
        }
        true
    }
}

/// Streams whose last lines were written, and that wait for their clients to close them. A stream that is closed
/// while octets come that nobody read is reset, and its client loses what it hasn't read; so what still comes is
/// read and dropped, until the client closes its side, for a while.
#[derive(Drop)]
pub struct Lingerers<R: Wait + Copy + Drop> {
    // The oldest first.
    streams: VecDeque<Lingering<R>>,
}

impl<R: Wait + Copy + Drop> Lingerers<R> {
    /// Nobody.
    pub fn new(alloc: Global) -> Lingerers<R> {
        Lingerers {
            streams: VecDeque::new(alloc),
        }
    }

    /// Whether there is none.
    pub fn is_empty(&self) -> bool {
        self.streams.is_empty()
    }

    /// Ends what is written to a stream, of whose time so many pauses are over, once its WebSocket has written what
    /// waits, and has it wait for its client's end. Where more than may wait at all workers do then, the oldest of
    /// this one is closed; where there is no memory for it, it is closed itself.
    pub fn add(
        &mut self,
        stream: Arc<TcpStream>,
        web: Option<Web<R>>,
        tries: u32,
        all: &Semaphore,
    ) {
        let mut one = Lingering {
            stream,
            web,
            left: OCTETS,
            tries,
        };
        one.write_on();
        if all.try_acquire() {
            self.drop_oldest(all);
        }
        if self.streams.push_back(one).is_err() {
            all.release();
        }
    }

    /// Closes the oldest, where there is one.
    fn drop_oldest(&mut self, all: &Semaphore) {
        if let Some(oldest) = self.streams.pop_front() {
            drop(oldest);
            all.release();
        }
    }

    /// After a pause: writes what waits for each and reads what came of it, and closes those whose time is over.
    pub fn look(&mut self, all: &Semaphore) {
        let mut room = [0u8; ROOM];
        for _ in 0..self.streams.len() {
            let Some(mut one) = self.streams.pop_front() else {
                return;
            };
            if one.web.is_some() {
                one.write_on();
            }
            one.tries = one.tries.saturating_add(1);
            let goes_on = one.tries < LINGER_TRIES && one.goes_on(&mut room);
            if !goes_on || self.streams.push_back(one).is_err() {
                all.release();
            }
        }
    }
}
