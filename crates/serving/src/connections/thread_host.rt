//! The connections of all sessions, as one thread works with them.
use super::connection::{ClientOutput, Connection};
use super::{Connections, PAUSE};
use chronicle::{Moment, SessionId};
use indexmap::IndexMap;
use session_io::book::{FlushList, Naming};
use session_io::wire::Flow;
use session_io::{Gate, Host, Pumped, Server, Sockets};
use std::sync::atomic::Ordering;
use std::sync::{Arc, Wait};
use std::thread;
use std::time::{Clock, Duration};

/// So many for each line are written to at once.
const AT_ONCE: usize = 128;

/// Of more, so many at each end of their list are: there stands who was told by a short line beside a long one.
const ENDS: usize = 16;

/// The connections of all sessions, as one thread works with them, and what stands beside them.
#[derive(Drop)]
pub(crate) struct ThreadHost<
    'a,
    L: Naming,
    R: Wait + Clock + Copy + Drop,
    G: Gate,
    C: crate::Clock,
> {
    pub(crate) all: &'a Connections<L, R>,
    pub(crate) gate: &'a G,
    pub(crate) clock: &'a C,
    /// Which worker it is; of no worker where it is beyond their number.
    pub(crate) worker: usize,
    /// Fewer records than these of which a session is told may be left to its worker to write.
    pub(crate) burst: usize,
}

/// The connection of a session, if it has one, and where that is in the table. Sessions that are told follow one
/// another by their numbers, as connections mostly do in the table, so it is looked for at a place first.
fn find_near<L: Naming, R: Wait + Copy + Drop>(
    table: &IndexMap<u64, Arc<Connection<L, R>>>,
    session: SessionId,
    near: usize,
) -> Option<(usize, &Connection<L, R>)> {
    let number = session.number();
    if let Some((found, connection)) = table.get_index(near) {
        if *found == number {
            return Some((near, &**connection));
        }
    }
    let (place, _, connection) = table.get_full(&number)?;
    Some((place, &**connection))
}

/// The server as one of its threads knows it.
pub(crate) type Serving<'a, L, R, G, C> = Server<'a, L, R, ThreadHost<'a, L, R, G, C>>;

impl<L: Naming, R: Wait + Clock + Copy + Drop, G: Gate, C: crate::Clock> ThreadHost<
    '_,
    L,
    R,
    G,
    C,
> {
    /// Has a connection's worker look at it.
    fn call(&self, connection: &Connection<L, R>) {
        if connection.is_called.swap(true, Ordering::SeqCst) {
            return;
        }
        if let Some(post) = self.all.post(connection.worker) {
            let is_own = connection.worker == self.worker;
            post.call(&self.all.rt, connection.place, is_own);
        }
    }

    /// Has a connection's worker look at it where it is to be ended.
    fn call_after(
        &self,
        connection: &Connection<L, R>,
        pumped: Option<Pumped<L, ClientOutput<R>>>,
    ) {
        let is_over = match pumped {
            Some(pumped) => matches!(pumped.flow, Ok(Flow::Ended) | Err(_)),
            None => false,
        };
        if is_over || connection.is_shut() {
            self.call(connection);
        }
    }

    /// Leaves it to a connection's worker to go on with a writing of which one turn wasn't enough.
    pub(crate) fn go_on_in_turn(
        &self,
        connection: &Connection<L, R>,
        pumped: &Pumped<L, ClientOutput<R>>,
    ) {
        if matches!(pumped.flow, Ok(Flow::More)) {
            self.leave_to_worker(connection, 1);
        }
    }

    /// Writes what waits for a connection. Where its stream leaves more waiting than may, its worker ends the session.
    fn write_on(&self, connection: &Connection<L, R>) {
        let pumped = connection.outlet.write_now(&self.all.rt);
        if let Some(pumped) = &pumped {
            self.go_on_in_turn(connection, pumped);
        }
        if self.all.most < connection.gauge.waiting_besides_newest() {
            connection.is_beyond.store(true, Ordering::SeqCst);
            self.call(connection);
        }
        self.call_after(connection, pumped);
    }

    /// Writes what waits for a connection whose stream takes more.
    pub(crate) fn go_on(&self, connection: &Connection<L, R>) {
        if let Some(pumped) = connection.outlet.go_on(&self.all.rt) {
            self.go_on_in_turn(connection, &pumped);
            self.call_after(connection, Some(pumped));
        }
    }

    /// Writes what waits for these sessions, of so many records, or leaves it to their workers where that may be.
    /// The table is held for all of them: no write waits for a client.
    fn write_to(&self, sessions: &[SessionId], records: usize, may_be_left: bool) {
        let connections = self.all.by_session.read(&self.all.rt);
        let mut near = usize::MAX;
        for session in sessions {
            if let Some((place, connection)) = find_near(&*connections, *session, near) {
                near = place.saturating_add(1);
                if !may_be_left || !self.is_left(connection, records) {
                    self.write_on(connection);
                }
            }
        }
    }

    /// Leaves what waits for a connection, of so many records, to its worker to write, and answers of how many it was
    /// left before and isn't written. What was put before the count grew is written by whoever takes the count back,
    /// since that writes after it.
    fn leave_to_worker(&self, connection: &Connection<L, R>, records: usize) -> u64 {
        let before = connection.left.fetch_add(records as u64, Ordering::SeqCst);
        if before == 0 {
            if let Some(post) = self.all.post(connection.worker) {
                let is_own = connection.worker == self.worker;
                post.leave(&self.all.rt, connection.place, is_own);
            }
        }
        before
    }

    /// Leaves what waits for a connection, of so many records, to its worker to write, and answers whether that may be
    /// left to it.
    fn is_left(&self, connection: &Connection<L, R>, records: usize) -> bool {
        let before = self.leave_to_worker(connection, records);
        before.saturating_add(records as u64) < self.burst as u64
    }

    /// Writes what waits for a connection that was left to this worker.
    pub(crate) fn write_left(&self, connection: &Connection<L, R>) {
        connection.left.store(0, Ordering::SeqCst);
        self.write_on(connection);
    }

    /// Writes what waits for all.
    fn write_to_all(&self) {
        for (_, connection) in self.all.by_session.read(&self.all.rt).iter() {
            self.write_on(connection);
        }
    }
}

impl<L: Naming, R: Wait + Clock + Copy + Drop, G: Gate, C: crate::Clock> Gate
    for ThreadHost<'_, L, R, G, C> {
    fn enter(&self, session: SessionId) {
        self.gate.enter(session);
    }

    fn leave(&self, session: SessionId) {
        self.gate.leave(session);
    }
}

impl<L: Naming, R: Wait + Clock + Copy + Drop, G: Gate, C: crate::Clock> crate::Clock
    for ThreadHost<'_, L, R, G, C> {
    fn now(&self) -> Moment {
        self.clock.now()
    }
}

impl<L: Naming, R: Wait + Clock + Copy + Drop, G: Gate, C: crate::Clock> Host
    for ThreadHost<'_, L, R, G, C> {}

impl<L: Naming, R: Wait + Clock + Copy + Drop, G: Gate, C: crate::Clock> Sockets
    for ThreadHost<'_, L, R, G, C> {
    fn shut(&self, session: SessionId) {
        self.all.leave_unswept();
        if let Some(connection) = self
            .all
            .by_session
            .read(&self.all.rt)
            .get(&session.number())
        {
            connection.is_shut.store(true, Ordering::SeqCst);
            self.call(connection);
        }
    }

    fn is_shut(&self, session: SessionId) -> bool {
        match self
            .all
            .by_session
            .read(&self.all.rt)
            .get(&session.number())
        {
            Some(connection) => connection.is_shut(),
            None => true,
        }
    }

    fn flush(&self, flushes: &FlushList) {
        let (all, records) = (flushes.sessions().len(), flushes.records());
        let is_short = all <= records.saturating_mul(AT_ONCE) || self.burst <= records;
        for (place, some) in flushes.sessions().chunks(ENDS).enumerate() {
            let is_near = is_short
                || place == 0
                || all <= place.saturating_add(2).saturating_mul(ENDS);
            self.write_to(some, records, !is_near);
        }
        if flushes.is_all() {
            self.write_to_all();
        }
    }

    fn pause(&self) {
        thread::sleep(&self.all.rt, Duration::from_millis(PAUSE));
    }

    fn note_roll(&self, dropped: usize) {
        self.all.note_roll(dropped);
    }

    fn stop(&self) {
        self.all.stopping.ask_full();
    }
}
