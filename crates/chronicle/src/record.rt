//! What the journal is made of.
use crate::{Moment, RecordNumber, SessionId, Why};
use line_grammar::{Octets, Piece};
use smallvec::SmallVec;

/// What a record says.
#[derive(Drop)]
pub enum Kind {
    /// A session was opened, from this host.
    Opened {
        session: SessionId,
        host: Octets,
    },
    /// A line of a session was accepted. Its lines are numbered from 0.
    Said {
        session: SessionId,
        index: u64,
        piece: Piece,
    },
    /// The server ended a session.
    Hung {
        session: SessionId,
        why: Why,
    },
    /// A session that was shut left its channels and gave its nickname back.
    Gone {
        session: SessionId,
    },
    /// The clock was looked at: sessions that are idle are pinged.
    Ticked,
}

/// A record of the journal.
#[derive(Drop)]
pub struct Record {
    /// Its place in the journal, from 1.
    pub number: RecordNumber,
    /// Never less than that of the record before.
    pub moment: Moment,
    /// What it says.
    pub kind: Kind,
    /// The sessions whose outbox had no room for what this record owed them.
    pub missed: SmallVec<SessionId, 1>,
}
