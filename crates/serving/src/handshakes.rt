//! Clients that come by WebSocket, until their handshake is done.
use crate::connections::NO_MEMORY;
use crate::worker::{Context, Incoming, Slot, Worker};
use client_streams::websocket_front::{CloseCode, Front, close_for_memory};
use client_streams::{
    HandshakeOutcome, MOST_GREETING, PendingHandshake, Web, WebStream, end_guest,
};
use mio::net::TcpStream;
use session_io::Gate;
use session_io::book::Naming;
use std::alloc::AllocError;
use std::io::Write;
use std::net::SocketAddr;
use std::sync::{Arc, Wait};
use std::time::{Clock, Instant};

impl<L: Naming, R: Wait + Clock + Copy + Drop, G: Gate, C: crate::Clock> Worker<'_, L, R, G, C> {
    /// Opens a session for who has greeted at a place, where the server takes one. Else a close says why not.
    fn welcome(
        &mut self,
        at: usize,
        front: Front<WebStream>,
        stream: Arc<TcpStream>,
        peer: SocketAddr,
    ) {
        let Some(web) = Web::new(*self.context.rt, self.context.alloc, front) else {
            return self.refuse(at, stream, peer);
        };
        let again = web.again();
        let kept: Result<Arc<TcpStream>, AllocError> = Arc::try_clone(&stream);
        let web = Some(web);
        if self.open_or_free(at, Incoming { stream, web, peer }) {
            // The event that brought the request may have told of more, such as of a message or the stream's end.
            self.list(at);
        } else if let (Some(web), Ok(stream)) = (again, kept) {
            self.context.send_away(web, stream);
        }
    }

    /// Refuses who has greeted at a place, for whose WebSocket there is no memory.
    fn refuse(&mut self, at: usize, stream: Arc<TcpStream>, peer: SocketAddr) {
        let all = self.context.server.host.all;
        let _ = (&*stream).write(&close_for_memory());
        self.context.lingerers.add(stream, None, 0, &all.lingering);
        self.free(at);
        all.refuse(peer, NO_MEMORY);
    }

    /// Goes on with the handshake of who greets at a place, if somebody does.
    pub(crate) fn greet(&mut self, at: usize) {
        let Some(guest) = self.places.take_guest(at) else {
            return;
        };
        let all = self.context.server.host.all;
        match guest.go_on() {
            HandshakeOutcome::In(front, stream, peer) => {
                self.context.guests.remove(at, &all.greeting);
                self.welcome(at, front, stream, peer);
            }
            HandshakeOutcome::Later(guest) => self.places.put(at, Slot::Greeting(guest)),
            HandshakeOutcome::Out(stream) => {
                self.context.guests.remove(at, &all.greeting);
                self.show_out(at, &stream);
            }
            HandshakeOutcome::Refused(stream, peer) => {
                self.context.guests.remove(at, &all.greeting);
                self.show_out(at, &stream);
                all.refuse(peer, NO_MEMORY);
            }
        }
    }

    /// Ends the stream of who greeted at a place, which is free then.
    fn show_out(&mut self, at: usize, stream: &TcpStream) {
        end_guest(stream);
        self.free(at);
    }

    /// Gives up who greets at a place.
    fn give_up(&mut self, at: usize) {
        if let Some(guest) = self.places.take_guest(at) {
            self.show_out(at, &guest.stream);
        }
    }

    /// Has who connected by WebSocket greet at a place, where there is memory for that.
    pub(crate) fn receive(&mut self, at: usize, stream: Arc<TcpStream>, peer: SocketAddr) {
        if !self.is_received(at, stream, peer) {
            self.free(at);
            self.context.server.host.all.refuse(peer, NO_MEMORY);
        }
    }

    /// Has who connected greet at a place. Where too many do, who has greeted longest is given up. It answers whether
    /// the place is taken now.
    fn is_received(&mut self, at: usize, stream: Arc<TcpStream>, peer: SocketAddr) -> bool {
        let Ok(now) = Instant::now(self.context.rt) else {
            return false;
        };
        let Some(guest) = PendingHandshake::new(self.context.alloc, stream, peer) else {
            return false;
        };
        let all = self.context.server.host.all;
        let Ok(oldest) = self.context.guests.add(at, now, &all.greeting) else {
            return false;
        };
        self.places.put(at, Slot::Greeting(guest));
        if let Some(oldest) = oldest {
            self.give_up(oldest);
        }
        true
    }

    /// Gives up those who have greeted for too long, and all where the server is closed.
    pub(crate) fn hurry(&mut self, is_closed: bool) {
        for _ in 0..MOST_GREETING {
            let Some(at) = self.context.take_late_guest(is_closed) else {
                return;
            };
            self.give_up(at);
        }
    }
}

impl<L: Naming, R: Wait + Clock + Copy + Drop, G: Gate, C: crate::Clock> Context<'_, L, R, G, C> {
    /// Closes the stream of who greeted and isn't served.
    fn send_away(&mut self, web: Web<R>, stream: Arc<TcpStream>) {
        let all = self.server.host.all;
        web.close(if all.is_stopping() {
            CloseCode::Away
        } else {
            CloseCode::Again
        });
        self.lingerers.add(stream, Some(web), 0, &all.lingering);
    }

    /// Takes who has greeted longest off the list, if that is too long, or the server is closed.
    fn take_late_guest(&mut self, is_closed: bool) -> Option<usize> {
        if self.guests.is_empty() {
            return None;
        }
        let all = self.server.host.all;
        if is_closed {
            return self.guests.take_first(&all.greeting);
        }
        match Instant::now(self.rt) {
            Ok(now) => self.guests.take_late(now, &all.greeting),
            Err(_) => None,
        }
    }
}
