//! A worker reads its clients.
use super::client::{Client, ClientInput};
use super::client_slab::Slot;
use super::{Context, Worker};
use crate::connections::Connection;
use chronicle::Why;
use session_io::book::outbox::Sender;
use session_io::book::{Baton, Naming};
use session_io::wire::Flow;
use session_io::{Gate, Next, ReceiveBuffer, read_some};
use std::io;
use std::io::Read;
use std::sync::Wait;
use std::time::Clock;

/// What an event tells of a stream.
#[derive(Clone, Copy, Drop)]
pub(super) struct Readiness {
    pub(super) is_writable: bool,
    pub(super) is_readable: bool,
    pub(super) has_ended: bool,
}

/// An input, and how many octets were read of it.
#[derive(Drop)]
struct CountedStream<'a, I: Read> {
    input: &'a mut I,
    count: u64,
}

impl<I: Read> Read for CountedStream<'_, I> {
    fn read(&mut self, buf: &mut [u8]) -> io::Result<usize> {
        let count = self.input.read(buf)?;
        self.count = self.count.saturating_add(count as u64);
        Ok(count)
    }
}

impl<L: Naming, R: Wait + Clock + Copy + Drop, G: Gate, C: crate::Clock> Worker<'_, L, R, G, C> {
    /// Sees to a client that something happened to.
    pub(super) fn see_to(&mut self, at: usize, ready: Readiness) {
        if let Some(Slot::Held(client)) = self.places.all.get_mut(at) {
            return self.context.see_to(at, client, ready);
        }
        self.greet(at);
    }

    /// Reads one of those who may have more to be read, so that others have their turn before the next of them: who
    /// sends much keeps nobody waiting for longer than one read of it takes.
    pub(super) fn read_one_more(&mut self) {
        let Some(at) = self.context.more.pop_front() else {
            return;
        };
        if let Some(Slot::Held(client)) = self.places.all.get_mut(at) {
            client.is_listed = false;
            self.context.read(at, client, true);
        }
    }

    /// Has the client at a place read in its turn.
    pub(crate) fn list(&mut self, at: usize) {
        if let Some(Slot::Held(client)) = self.places.all.get_mut(at) {
            self.context.list(at, client);
        }
    }
}

impl<L: Naming, R: Wait + Clock + Copy + Drop, G: Gate, C: crate::Clock> Context<'_, L, R, G, C> {
    /// Has a client read again in its turn. Where there is no memory for that, its session is ended.
    fn list(&mut self, at: usize, client: &mut Client<L, R>) {
        client.is_listed = self.more.push_back(at).is_ok();
        if !client.is_listed {
            self.hang(client.session, Why::Memory);
        }
    }

    /// Sees to it that a client for which much waits is read again. Where its stream takes nothing now, an event
    /// tells when it takes more; where another thread writes for it, it is looked at again after a pause.
    fn hold_up(&mut self, at: usize, connection: &Connection<L, R>) {
        // What another thread found of the stream may be older than the last event, so this thread tries for itself.
        let is_told = match connection.outlet.go_on(self.rt) {
            Some(pumped) => {
                self.server.host.go_on_in_turn(connection, &pumped);
                matches!(pumped.flow, Ok(Flow::Behind))
            }
            None => false,
        };
        if !is_told {
            self.look_again(at);
        }
    }

    /// Sees to a client that something happened to.
    fn see_to(&mut self, at: usize, client: &mut Client<L, R>, ready: Readiness) {
        let mut is_readable = ready.is_readable;
        if ready.is_writable {
            if let Some(web) = &client.connection.web {
                let _ = web.go_on();
                // A message may have waited for room for its answer.
                is_readable = true;
            }
            self.server.host.go_on(&client.connection);
        }
        // What its input has is read once less waits, also its end, of which no other event tells.
        let has_ended = ready.has_ended || client.is_held_up;
        let is_readable = is_readable || client.is_held_up;
        // One that may have more has its turn, also where its input has ended.
        if is_readable && !client.is_listed {
            self.read(at, client, has_ended);
        }
    }

    /// Reads a client, and has it read again in its turn where more may be there.
    pub(super) fn read(&mut self, at: usize, client: &mut Client<L, R>, has_ended: bool) {
        let is_more = self.read_once(client, has_ended);
        self.note_nick(client.session, &client.connection);
        self.batch.add_read();
        if is_more {
            self.list(at, client);
        } else if client.is_held_up {
            self.hold_up(at, &client.connection);
        }
        self.roll_where_much();
    }

    /// Reads a client once, and has the lines done that end in what that brings. It answers whether more is to be
    /// read: where that filled the room, or something was there and `has_ended` says that its input has an end, up to
    /// which it is read.
    fn read_once(&mut self, client: &mut Client<L, R>, has_ended: bool) -> bool {
        if client.connection.is_shut() {
            return false;
        }
        let next = self.do_lines(client);
        let has_more = client.input.has_more();
        self.write_where_wanted(&client.connection);
        client.is_held_up = next == Next::Left;
        match next {
            Next::More => true,
            Next::Short => has_ended || has_more,
            Next::Nothing => has_more,
            Next::Left => false,
            Next::Over(why) => {
                self.hang(client.session, why);
                false
            }
        }
    }

    /// Reads the payloads of a client that came by WebSocket, or else its stream, where what waits for it lets that
    /// be, and has the lines done that end in what that brings.
    fn do_lines(&mut self, client: &mut Client<L, R>) -> Next {
        let Client {
            baton,
            connection,
            input: ClientInput { intake, payloads },
            ..
        } = client;
        let connection = &**connection;
        match payloads {
            Some(payloads) => self.read_input(connection, intake, baton, payloads),
            None => {
                let mut stream = &*connection.stream;
                self.read_input(connection, intake, baton, &mut stream)
            }
        }
    }

    /// Reads an input of a client, and counts what was read for the journal.
    fn read_input<I: Read>(
        &mut self,
        connection: &Connection<L, R>,
        intake: &mut ReceiveBuffer,
        baton: &mut Baton<L, Sender<R>>,
        input: &mut I,
    ) -> Next {
        let mut input = CountedStream { input, count: 0 };
        let flushes = &mut self.flushes;
        let took = read_some(
            self.rt,
            self.server,
            intake,
            baton,
            connection,
            &mut input,
            flushes,
        );
        self.server.host.all.kept.add(input.count);
        took.next
    }

    /// Writes what waits for a client where another thread wanted to, and found that its WebSocket was being read.
    fn write_where_wanted(&self, connection: &Connection<L, R>) {
        if let Some(web) = &connection.web {
            if web.take_wanted() {
                self.server.host.go_on(connection);
            }
        }
    }

    /// Rolls the journal where so much was read since it was last rolled. Where there is no memory for that, it is
    /// put off.
    fn roll_where_much(&self) {
        let all = self.server.host.all;
        if !all.kept.is_much() {
            return;
        }
        let mut hall = self.server.hall.lock(self.rt);
        // Another worker may have done it meanwhile.
        if all.kept.is_much() {
            match hall.roll() {
                Ok(rolled) => all.note_roll(rolled.dropped),
                Err(_) => all.kept.put_off(),
            }
        }
    }
}
