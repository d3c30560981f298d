//! What workers note for the log: who comes, by which name, and who goes.
use super::Context;
use crate::connections::Connection;
use crate::events::LogEvent;
use chronicle::{SessionId, Why};
use line_grammar::Octets;
use session_io::Gate;
use session_io::book::outbox::Sender;
use session_io::book::{Hall, Naming};
use std::alloc::AllocError;
use std::net::SocketAddr;
use std::sync::Wait;
use std::time::Clock;

/// A copy of a session's nickname, if it has one and there is memory for it.
fn nick_in<L: Naming, R: Wait + Drop>(
    hall: &Hall<L, Sender<R>>,
    session: SessionId,
) -> Option<Octets> {
    let nick: Result<Octets, AllocError> = hall.nick_of(session)?.clone();
    match nick {
        Ok(nick) => Some(nick),
        Err(_) => None,
    }
}

impl<L: Naming, R: Wait + Clock + Copy + Drop, G: Gate, C: crate::Clock> Context<'_, L, R, G, C> {
    /// Notes for the log that a session was opened.
    pub(super) fn note_opened(
        &self,
        session: SessionId,
        peer: SocketAddr,
        connection: &Connection<L, R>,
    ) {
        let is_web = connection.web.is_some();
        let all = self.server.host.all;
        all.note(LogEvent::Came(session, peer, is_web));
    }

    /// Notes for the log that a session has its first nickname, once, where there is memory for it.
    pub(super) fn note_nick(&self, session: SessionId, connection: &Connection<L, R>) {
        let all = self.server.host.all;
        if all.log.is_none() || connection.is_named() {
            return;
        }
        let nick = nick_in(&*self.server.hall.lock(self.rt), session);
        if let Some(nick) = nick {
            connection.name();
            all.note(LogEvent::Named(session, nick));
        }
    }

    /// Notes for the log that a session is gone, and why it ended.
    pub(super) fn note_gone(&self, ended: Option<(SessionId, Why)>) {
        if let Some((session, why)) = ended {
            self.server
                .host
                .all
                .note(LogEvent::Went(session, why.word()));
        }
    }
}
