//! A worker opens sessions for those who connected.
use super::client::{Client, ClientInput};
use super::client_slab::Slot;
use super::connecting::{Connected, Incoming, Opened, write_rest};
use super::{Context, Worker};
use crate::connections::{NO_MEMORY, NO_PLACE};
use crate::mailbox::Arrival;
use chronicle::Why;
use client_streams::websocket_front::CloseCode;
use mio::net::TcpStream;
use mio::{Interest, Token};
use session_io::Gate;
use session_io::book::Naming;
use std::io;
use std::sync::{Arc, Wait};
use std::time::Clock;

/// How many sessions are opened before others have their turn.
const OPENS: u32 = 16;

impl<L: Naming, R: Wait + Clock + Copy + Drop, G: Gate, C: crate::Clock> Worker<'_, L, R, G, C> {
    /// Opens sessions for some who connected.
    pub(super) fn open_some(&mut self) {
        for _ in 0..OPENS {
            let Some(arrival) = self.context.arrivals.pop_front() else {
                return;
            };
            self.open(arrival);
        }
    }

    /// Serves who connected, where the server takes one.
    fn open(&mut self, arrival: Arrival) {
        let Arrival {
            stream,
            peer,
            is_web,
        } = arrival;
        let server = self.context.server;
        let Ok(at) = self.places.take_free() else {
            self.context.post.one_less();
            return server.host.all.refuse(peer, NO_MEMORY);
        };
        let Ok(stream) = self.context.watch(at, stream) else {
            self.free(at);
            return server.host.all.refuse(peer, NO_MEMORY);
        };
        if is_web {
            self.receive(at, stream, peer);
        } else {
            let web = None;
            let _ = self.open_or_free(at, Incoming { stream, web, peer });
        }
    }

    /// Serves who connected at a place, where the server takes one, and answers whether it does.
    pub(crate) fn open_or_free(&mut self, at: usize, incoming: Incoming<R>) -> bool {
        let peer = incoming.peer;
        if self.open_at(at, incoming) {
            // Somebody may have put something before the connection had its wire.
            self.look(at, false);
            return true;
        }
        self.free(at);
        self.context.server.host.all.refuse(peer, NO_PLACE);
        false
    }

    /// Opens a session for who connected, at a place. It answers whether the place is taken now.
    fn open_at(&mut self, at: usize, incoming: Incoming<R>) -> bool {
        let Some(input) = ClientInput::new(self.context.alloc, &incoming.web) else {
            return false;
        };
        match self.context.connect(at, incoming) {
            Some(Connected::Wired(baton, connection)) => {
                let client = Client::new(baton, connection, input);
                self.places.put(at, Slot::Held(client));
                true
            }
            Some(Connected::Refused(opened)) => {
                self.turn_away(at, opened);
                true
            }
            None => false,
        }
    }

    /// Ends a session whose connection got no wire: it is told why, as far as its stream takes that.
    fn turn_away(&mut self, at: usize, opened: Opened<L, R>) {
        let mut opened = opened;
        let session = opened.tokens.baton.session();
        self.context.hang(session, Why::Memory);
        self.context.server.host.all.remove(session);
        write_rest(self.context.rt, &mut opened);
        self.context.part(&opened.connection, CloseCode::Error, 0);
        self.leave(at, opened.tokens);
    }
}

impl<L: Naming, R: Wait + Clock + Copy + Drop, G: Gate, C: crate::Clock> Context<'_, L, R, G, C> {
    /// Has events of a stream come with this place, and answers what several threads may hold of it.
    fn watch(&mut self, at: usize, stream: TcpStream) -> io::Result<Arc<TcpStream>> {
        let mut stream = stream;
        let _ = stream.set_nodelay(true);
        let both = Interest::READABLE | Interest::WRITABLE;
        self.poll.registry().register(&mut stream, Token(at), both)?;
        match Arc::new(self.alloc, stream) {
            Ok(stream) => Ok(stream),
            Err(_) => Err(io::Error::from(io::ErrorKind::OutOfMemory)),
        }
    }
}
