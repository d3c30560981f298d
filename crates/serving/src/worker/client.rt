//! A client as its worker has it.
use crate::connections::Connection;
use chronicle::SessionId;
use client_streams::{Payloads, Web};
use session_io::ReceiveBuffer;
use session_io::book::outbox::Sender;
use session_io::book::{Baton, Naming};
use std::alloc::Global;
use std::sync::{Arc, Wait};

/// What is read of a client.
#[derive(Drop)]
pub(crate) struct ClientInput<R: Wait + Copy + Drop> {
    pub(crate) intake: ReceiveBuffer,
    /// The payloads of its messages, where it came by WebSocket.
    pub(crate) payloads: Option<Payloads<R>>,
}

impl<R: Wait + Copy + Drop> ClientInput<R> {
    /// Nothing was read. It answers `None` where there is no memory for it.
    pub(crate) fn new(alloc: Global, web: &Option<Web<R>>) -> Option<ClientInput<R>> {
        let payloads = match web {
            Some(web) => Some(Payloads::new(alloc, web.again()?)),
            None => None,
        };
        match ReceiveBuffer::new(alloc) {
            Ok(intake) => Some(ClientInput { intake, payloads }),
            Err(_) => None,
        }
    }

    /// Whether more was read of its stream than was given.
    pub(crate) fn has_more(&self) -> bool {
        match &self.payloads {
            Some(payloads) => payloads.has_more(),
            None => false,
        }
    }
}

/// A client, whose session is open or whose last lines still go out.
#[derive(Drop)]
pub(crate) struct Client<L: Naming, R: Wait + Copy + Drop> {
    pub(crate) session: SessionId,
    pub(crate) baton: Baton<L, Sender<R>>,
    pub(crate) connection: Arc<Connection<L, R>>,
    pub(crate) input: ClientInput<R>,
    /// It stands in the list of those who may have more to be read.
    pub(crate) is_listed: bool,
    /// So much waits for it that nothing more of it is done before less does.
    pub(crate) is_held_up: bool,
    /// It is shut, and is looked at again at each pause.
    pub(crate) is_waiting: bool,
    /// At how many pauses it was, and the number of the last of these.
    pub(crate) tries: u32,
    pub(crate) pause: u64,
}

impl<L: Naming, R: Wait + Copy + Drop> Client<L, R> {
    /// A client whose session was just opened.
    pub(crate) fn new(
        baton: Baton<L, Sender<R>>,
        connection: Arc<Connection<L, R>>,
        input: ClientInput<R>,
    ) -> Client<L, R> {
        Client {
            session: baton.session(),
            baton,
            connection,
            input,
            is_listed: false,
            is_held_up: false,
            is_waiting: false,
            tries: 0,
            pause: 0,
        }
    }
}
