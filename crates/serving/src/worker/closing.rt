//! A worker ends its clients' sessions.
use super::client::Client;
use super::client_slab::Slot;
use super::connecting::SessionTokens;
use super::{Context, SHOWN, Worker};
use crate::connections::Connection;
use chronicle::{SessionId, Why};
use client_streams::LINGER_TRIES;
use client_streams::websocket_front::CloseCode;
use session_io::book::Naming;
use session_io::{Gate, ReapOutcome, Standing, SweepOutcome, give_up, hang, sweep, write_some};
use std::mem;
use std::sync::{Arc, Wait};
use std::time::Clock;

/// How a client's writing stands after what waited was written.
#[derive(Clone, Copy, Drop)]
struct Wrote {
    is_over: bool,
    is_fault: bool,
}

impl<L: Naming, R: Wait + Clock + Copy + Drop, G: Gate, C: crate::Clock> Worker<'_, L, R, G, C> {
    /// Looks at the client at a place, if there is one, and ends it where its writing is over.
    pub(super) fn look(&mut self, at: usize, is_pause: bool) {
        let mut ended = None;
        if let Some(Slot::Held(client)) = self.places.all.get_mut(at) {
            ended = self.context.look(at, client, is_pause);
        }
        if let Some(code) = ended {
            self.end(at, code);
        }
    }

    /// Ends the client at a place, for whose session nothing more is written.
    fn end(&mut self, at: usize, code: CloseCode) {
        let Some(client) = self.places.take_client(at) else {
            return;
        };
        match self.context.disconnect(client, code) {
            Some(tokens) => self.leave(at, tokens),
            None => self.free(at),
        }
    }

    /// Has the session at a place given up.
    pub(super) fn leave(&mut self, at: usize, tokens: SessionTokens<L, R>) {
        self.places.put(at, Slot::Leaving(tokens));
        if self.context.closing.push(at).is_err() {
            self.context.look_again(at);
        }
    }

    /// Gives up the session at a place, if one is to be, or tries that again after a pause.
    pub(super) fn close(&mut self, at: usize) {
        let Some(tokens) = self.places.take_tokens(at) else {
            return;
        };
        match self.context.give_up(tokens) {
            Some(tokens) => {
                self.places.put(at, Slot::Leaving(tokens));
                self.context.look_again(at);
            }
            None => self.free(at),
        }
    }

    /// Gives up all sessions that are to be given up now.
    pub(super) fn close_those(&mut self) {
        let closing = self.context.take_closing();
        for at in closing.iter() {
            self.close(*at);
        }
    }
}

impl<L: Naming, R: Wait + Clock + Copy + Drop, G: Gate, C: crate::Clock> Context<'_, L, R, G, C> {
    /// Takes whose session is to be given up now off the list.
    fn take_closing(&mut self) -> Vec<usize> {
        mem::replace(&mut self.closing, Vec::new(self.alloc))
    }

    /// Ends a session for this reason, where it is open.
    pub(super) fn hang(&mut self, session: SessionId, why: Why) {
        let _ = hang(self.rt, self.server, session, why, &mut self.flushes);
    }

    /// Looks at a client: whether its session's writing is over, and so it is to be ended, by which close.
    fn look(&mut self, at: usize, client: &mut Client<L, R>, is_pause: bool) -> Option<CloseCode> {
        client.connection.begin_look();
        if client.connection.is_beyond() && !client.connection.is_shut() {
            self.hang(client.session, Why::SendQ);
        }
        let is_shut = client.connection.is_shut();
        let wrote = self.write(client, is_shut);
        if is_pause && client.is_waiting && client.pause != self.pause {
            client.tries = client.tries.saturating_add(1);
            client.pause = self.pause;
        }
        if wrote.is_over || LINGER_TRIES <= client.tries {
            return Some(self.code_of(wrote.is_fault));
        }
        if is_shut && (is_pause || !client.is_waiting) {
            client.is_waiting = true;
            self.look_again(at);
        }
        if client.is_held_up && !client.is_listed && !is_shut {
            self.read(at, client, true);
        }
        None
    }

    /// Writes what waits for a client.
    fn write(&mut self, client: &Client<L, R>, is_shut: bool) -> Wrote {
        let outlet = &client.connection.outlet;
        let flushes = &mut self.flushes;
        let written = write_some(
            self.rt,
            self.server,
            client.session,
            outlet,
            is_shut,
            flushes,
        );
        let is_fault = match &written.pumped {
            Some(pumped) => {
                self.server.host.go_on_in_turn(&client.connection, pumped);
                pumped.flow.is_err()
            }
            None => false,
        };
        Wrote {
            is_over: written.standing == Standing::Over,
            is_fault,
        }
    }

    /// The close for a client that is ended after a fault of its stream or without.
    fn code_of(&self, is_fault: bool) -> CloseCode {
        if is_fault {
            CloseCode::Error
        } else if self.server.host.all.is_stopping() {
            CloseCode::Away
        } else {
            CloseCode::Normal
        }
    }

    /// Ends a client's connection, and answers the tokens of its session, which are whole, since nobody reads it now
    /// and nobody else ends it.
    fn disconnect(&mut self, client: Client<L, R>, code: CloseCode) -> Option<SessionTokens<L, R>> {
        self.server.host.all.remove(client.session);
        let Client {
            baton,
            connection,
            input,
            tries,
            ..
        } = client;
        drop(input);
        let Some(wire) = connection.outlet.end(self.rt, baton.session()) else {
            connection.end(code);
            return None;
        };
        let (writer, stub) = wire.apart();
        self.part(&connection, code, tries);
        Some(SessionTokens {
            baton,
            stub,
            writer,
        })
    }

    /// Has a stream closed that nothing more is written to, once its client has closed it, or after a while.
    pub(super) fn part(&mut self, connection: &Connection<L, R>, code: CloseCode, tries: u32) {
        match Arc::try_clone(&connection.stream) {
            Ok(stream) => {
                connection.close(code);
                let web = match &connection.web {
                    Some(web) => web.again(),
                    None => None,
                };
                let all = &self.server.host.all.lingering;
                self.lingerers.add(stream, web, tries, all);
            }
            Err(_) => connection.end(code),
        }
    }

    /// Gives a session up. Its tokens come back where that can't be, unless the server is closed: all are shut then,
    /// and nobody is told that it is gone.
    fn give_up(&self, tokens: SessionTokens<L, R>) -> Option<SessionTokens<L, R>> {
        let SessionTokens {
            baton,
            stub,
            writer,
        } = tokens;
        let ReapOutcome { left, .. } = give_up(self.rt, self.server, baton, stub, writer);
        match left {
            Ok(_) => None,
            Err(_) if self.server.host.all.is_closed() => None,
            Err((_, baton, stub, writer)) => Some(SessionTokens {
                baton,
                stub,
                writer,
            }),
        }
    }

    /// Sweeps some of those who are shut, at most so many and no more once many are told, and answers how many more
    /// may be swept now. Where there is no memory for one it is tried again after a pause.
    pub(super) fn sweep_some(&mut self, most: u32) -> u32 {
        if most == 0 || !self.server.host.all.take_unswept() {
            return most;
        }
        for swept in 0..most {
            let (listed, records) = (self.flushes.sessions().len(), self.flushes.records());
            if SHOWN < listed.saturating_mul(records) {
                break;
            }
            let SweepOutcome { answer, ended, .. } = sweep(self.rt, self.server, &mut self.flushes);
            match answer {
                Ok(Some(_)) => self.note_gone(ended),
                Ok(None) => return most.saturating_sub(swept),
                Err(_) => {
                    self.is_sweep_again = true;
                    return 0;
                }
            }
        }
        self.server.host.all.leave_unswept();
        0
    }
}
