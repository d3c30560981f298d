//! How a session is opened for a connection.
//!
//! A connection is entered in the table before the hall's lock is given back, and stopping asks the table under the
//! same lock: so no session is opened after the last was ended. A session that gets no wire for want of memory is sent
//! its end by `write_out`, which needs none; a connection that can't be taken at all is closed without a line.
ghost use Rattle.std.specs.Prelude.{◌≡◌, [], true, Some, IfSome};
ghost use Rattle.casemapping.specs.Names.{host_shape};

use super::Context;
use super::peer_hosts::host_of;
use crate::connections::{ClientOutput, Connection, Connections};
use chronicle::{Moment, SessionId};
use client_streams::Web;
use deliveries::{Item, write_out};
use line_grammar::Octets;
use mio::net::TcpStream;
use session_io::book::outbox::{ChannelName, Sender, Writer, pair};
use session_io::book::{Baton, Hall, Naming, OpenRefusal, Stub};
use session_io::wire::Wire;
use session_io::{Clock as _, Gate, moment_in};
use std::alloc::Global;
use std::net::SocketAddr;
use std::sync::{Arc, Wait};
use std::time::Clock;

/// More deliveries than an outbox has room for.
const REST: u32 = 4097;

/// Who connected and has no session yet.
#[derive(Drop)]
pub(crate) struct Incoming<R: Wait + Copy + Drop> {
    pub(crate) stream: Arc<TcpStream>,
    /// Its WebSocket, where it has one.
    pub(crate) web: Option<Web<R>>,
    pub(crate) peer: SocketAddr,
}

/// A session's three tokens.
#[derive(Drop)]
pub(crate) struct SessionTokens<L: Naming, R: Wait + Drop> {
    pub(crate) baton: Baton<L, Sender<R>>,
    pub(crate) stub: Stub<L, ChannelName>,
    pub(crate) writer: Writer,
    ghost one: { stub.session ≡ baton.session },
    ghost own: { stub.outbox ≡ Some writer.channel },
}

/// A session that was just opened.
#[derive(Drop)]
pub(crate) struct Opened<L: Naming, R: Wait + Copy + Drop> {
    pub(crate) tokens: SessionTokens<L, R>,
    pub(crate) connection: Arc<Connection<L, R>>,
    pub(crate) host: Octets,
}

/// A session whose connection has its wire, or one that there was no memory to connect.
#[derive(Drop)]
pub(crate) enum Connected<L: Naming, R: Wait + Copy + Drop> {
    Wired(Baton<L, Sender<R>>, Arc<Connection<L, R>>),
    Refused(Opened<L, R>),
}

/// The host of a peer, twice.
fn host_twice(alloc: Global, peer: SocketAddr) -> Option<(Octets, Octets)>
    ensures shape { IfSome result (λ hosts. host_shape hosts.0 ≡ true) }
    ensures same { IfSome result (λ hosts. hosts.1 ≡ hosts.0) }
{
    let host = host_of(alloc, peer)?;
    match host.clone() {
        Ok(again) => Some((host, again)),
        Err(_) => None,
    }
}

/// What opening a session gives.
type OpenedTokens<L, R> = (SessionId, Baton<L, Sender<R>>, Stub<L, ChannelName>);

/// Opens a session in the hall, unless the server is to stop, and makes room for its connection. Where the journal has
/// no room for it, that is rolled, and it is tried again, by the host's copy.
fn open_or_roll<L: Naming, R: Wait + Clock + Copy + Drop>(
    hall: &mut Hall<L, Sender<R>>,
    host: Octets,
    again: &Octets,
    moment: Moment,
    sender: Sender<R>,
    all: &Connections<L, R>,
) -> Option<OpenedTokens<L, R>>
    requires host { host_shape host ≡ true }
    requires again { again.now ≡ host }
    requires fresh { sender.sent ≡ [] }
    ensures session { IfSome result (λ given. given.2.session ≡ given.1.session) }
    ensures outbox { IfSome result (λ given. given.2.outbox ≡ Some sender.channel) }
{
    if all.is_stopping() || all.make_room().is_err() {
        return None;
    }
    let sender = match hall.open(host, moment, sender) {
        Ok(given) => return Some(given),
        Err((OpenRefusal::JournalFull, sender)) => sender,
        Err(_) => return None,
    };
    let Ok(host) = again.clone() else {
        return None;
    };
    match hall.roll() {
        Ok(rolled) => all.note_roll(rolled.dropped),
        Err(_) => return None,
    }
    match hall.open(host, moment, sender) {
        Ok(given) => Some(given),
        Err(_) => None,
    }
}

/// Gives a session's connection its wire.
fn wire_of<L: Naming, R: Wait + Copy + Drop>(
    rt: &R,
    alloc: Global,
    opened: Opened<L, R>,
) -> Connected<L, R> {
    let Some(output) = ClientOutput::of(&*opened.connection) else {
        return Connected::Refused(opened);
    };
    let Opened {
        tokens,
        connection,
        host,
    } = opened;
    let SessionTokens {
        baton,
        stub,
        writer,
    } = tokens;
    match Wire::new(alloc, writer, stub, output, host) {
        Ok(wire) => {
            connection.outlet.open(rt, wire);
            Connected::Wired(baton, connection)
        }
        Err((writer, stub, host)) => Connected::Refused(Opened {
            tokens: SessionTokens {
                baton,
                stub,
                writer,
            },
            connection,
            host,
        }),
    }
}

impl<L: Naming, R: Wait + Clock + Copy + Drop, G: Gate, C: crate::Clock> Context<'_, L, R, G, C> {
    /// A connection at this place for who connected, of the session that has this writer, twice.
    fn connection_twice(
        &self,
        at: usize,
        incoming: Incoming<R>,
        writer: &Writer,
    ) -> Option<(Arc<Connection<L, R>>, Arc<Connection<L, R>>)> {
        let Ok(gauge) = writer.gauge().again() else {
            return None;
        };
        let Incoming { stream, web, .. } = incoming;
        let connection = Connection::new(stream, web, gauge, self.server.host.worker, at);
        let Ok(connection) = Arc::new(self.alloc, connection) else {
            return None;
        };
        match Arc::try_clone(&connection) {
            Ok(again) => Some((connection, again)),
            Err(_) => None,
        }
    }

    /// Opens a session for who connected, where the server takes one, whose connection is at this place.
    fn open(&self, at: usize, incoming: Incoming<R>) -> Option<Opened<L, R>> {
        let (host, copy) = host_twice(self.alloc, incoming.peer)?;
        let Ok((sender, writer)) = pair(*self.rt, self.alloc, self.sendq.max(1)) else {
            return None;
        };
        let (connection, again) = self.connection_twice(at, incoming, &writer)?;
        let all = self.server.host.all;
        let mut hall = self.server.hall.lock(self.rt);
        let moment = moment_in(&*hall, self.server.host.now());
        let (session, baton, stub) = open_or_roll(&mut *hall, host, &copy, moment, sender, all)?;
        all.add(session, again);
        Some(Opened {
            tokens: SessionTokens {
                baton,
                stub,
                writer,
            },
            connection,
            host: copy,
        })
    }

    /// Opens a session for who connected, where the server takes one, whose connection is at this place, with its
    /// wire.
    pub(super) fn connect(&self, at: usize, incoming: Incoming<R>) -> Option<Connected<L, R>> {
        let peer = incoming.peer;
        let opened = self.open(at, incoming)?;
        self.note_opened(opened.tokens.baton.session(), peer, &opened.connection);
        Some(wire_of(self.rt, self.alloc, opened))
    }
}

/// Writes an item for a session that has no wire, and answers whether it was written.
fn write_item<L: Naming, R: Wait + Copy + Drop>(opened: &Opened<L, R>, item: &Item) -> bool {
    let host = opened.host.as_slice();
    match &opened.connection.web {
        Some(web) => web.send_item(item, host),
        None => {
            let mut stream = &*opened.connection.stream;
            let (_, written) = write_out(item.delivery(), host, &mut stream);
            written.is_ok()
        }
    }
}

/// Writes what waits next for a session that has no wire, and answers whether it was written.
fn write_next<L: Naming, R: Wait + Copy + Drop>(rt: &R, opened: &mut Opened<L, R>) -> bool {
    match opened.tokens.writer.take_now(rt) {
        Ok(item) => write_item(&*opened, &item),
        Err(_) => false,
    }
}

/// Writes what waits for a session that has no wire, as far as its stream takes it.
pub(crate) fn write_rest<L: Naming, R: Wait + Copy + Drop>(rt: &R, opened: &mut Opened<L, R>) {
    for _ in 0..REST {
        if !write_next(rt, opened) {
            return;
        }
    }
}
