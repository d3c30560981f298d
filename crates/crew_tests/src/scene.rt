//! What all that is tried works with: a server in memory.
use crate::fakes::{Noted, Stream, Tally};
use book::{Hall, Naming};
use chronicle::{Kind, RecordNumber, SessionId, Why};
use crew::{Desk, Server, Sockets};
use outbox::Sender;
use std::alloc::Global;
use std::sync::atomic::Ordering;
use std::sync::{Mutex, Wait};

/// What stands around a hall: a desk with one slot, a host, and a count of what streams take.
#[derive(Drop)]
pub(crate) struct Surroundings {
    pub(crate) desk: Desk,
    host: Noted,
    pub(crate) tally: Tally,
}

impl Surroundings {
    /// Nobody is shut or told, and the clock shows 0. Memory is asked for again where there was none.
    pub(crate) fn new<R: Wait>(rt: &R, alloc: Global) -> Option<Surroundings> {
        let desk = match Desk::new(rt, alloc, 1) {
            Ok(desk) => desk,
            Err(_) => Desk::new(rt, alloc, 1).ok()?,
        };
        Some(Surroundings {
            desk,
            host: Noted::new(),
            tally: Tally::new(),
        })
    }

    /// What a trial in this hall works with.
    pub(crate) fn scene<'a, L: Naming, R: Wait + Drop>(
        &'a self,
        rt: &'a R,
        alloc: Global,
        hall: &'a Mutex<Hall<L, Sender<R>>>,
    ) -> Scene<'a, L, R> {
        let stage = Server {
            hall,
            host: &self.host,
            burst: 4,
        };
        Scene {
            rt,
            alloc,
            stage,
            around: self,
        }
    }
}

/// The server of a trial.
pub(crate) type Stage<'a, L, R> = Server<'a, L, R, Noted>;

/// What all that is tried works with.
#[derive(Drop)]
pub(crate) struct Scene<'a, L: Naming, R: Wait + Drop> {
    pub(crate) rt: &'a R,
    pub(crate) alloc: Global,
    pub(crate) stage: Stage<'a, L, R>,
    pub(crate) around: &'a Surroundings,
}

impl<'a, L: Naming, R: Wait + Drop> Scene<'a, L, R> {
    /// A stream that takes nothing so many times, and then everything; or that fails.
    pub(crate) fn stream(&self, left: u64, is_broken: bool) -> Stream<'a> {
        Stream {
            tally: &self.around.tally,
            left,
            is_broken,
        }
    }
}

impl<L: Naming, R: Wait + Drop> Scene<'_, L, R> {
    /// The clock shows this moment.
    pub(crate) fn sets_clock(&self, moment: i64) -> bool {
        self.stage.host.set(moment);
        true
    }

    /// Whether the journal was rolled.
    pub(crate) fn is_rolled(&self) -> bool {
        self.stage.hall.lock(self.rt).base().is_some()
    }

    /// How many records there are.
    pub(crate) fn records(&self) -> usize {
        self.stage.hall.lock(self.rt).len()
    }

    /// The moment of the newest record, in milliseconds.
    pub(crate) fn last_moment(&self) -> i64 {
        self.stage.hall.lock(self.rt).last_moment().milliseconds()
    }

    /// How many records were dropped.
    pub(crate) fn dropped_count(&self) -> u64 {
        self.stage.host.dropped.load(Ordering::SeqCst)
    }

    /// Whether so many records were made, of which some may be dropped.
    pub(crate) fn has_made(&self, count: u64) -> bool {
        self.dropped_count().saturating_add(self.records() as u64) == count
    }

    /// Whether the server goes on.
    pub(crate) fn goes_on(&self) -> bool {
        !self.stage.host.is_stopped.load(Ordering::SeqCst)
    }

    /// Whether a session was shut.
    pub(crate) fn is_shut(&self, session: SessionId) -> bool {
        self.stage.host.is_shut(session)
    }

    /// Whether the hall and the only slot are there.
    pub(crate) fn is_free(&self) -> bool {
        self.around.desk.slot(self.rt).is_some() && self.stage.hall.try_lock().is_some()
    }

    /// Whether the record of this number ended this session for this reason.
    pub(crate) fn is_hung(&self, number: u64, session: SessionId, why: Why) -> bool {
        let hall = self.stage.hall.lock(self.rt);
        match hall.record(RecordNumber::new(number)) {
            Some(record) => ends(&record.kind, session, why),
            None => false,
        }
    }

    /// Whether the newest record has this number and ended this session for this reason, and the session is shut.
    pub(crate) fn is_ended(&self, number: u64, session: SessionId, why: Why) -> bool {
        self.records() as u64 == number
            && self.is_hung(number, session, why)
            && self.is_shut(session)
    }
}

/// Whether this ends a session for this reason.
fn ends(kind: &Kind, session: SessionId, why: Why) -> bool {
    match kind {
        Kind::Hung {
            session: hung,
            why: told,
        } => *hung == session && *told == why,
        _ => false,
    }
}
