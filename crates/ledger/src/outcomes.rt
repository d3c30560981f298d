//! A plan that is handed out, and what comes of it.
//!
//! The deliveries of a plan stay in the ledger; what is handed out is a token, with the record's number, its session,
//! and room to note who misses it. So a call needs only that the token is the one that is out.
ghost use Rattle.std.specs.Prelude.{◌≡◌, ◌+◌, ◌<◌, ◌∷◌, ◌++◌, []};

use chronicle::{RecordNumber, SessionId};
use roster::Sessions;
use smallvec::SmallVec;
use std::marker::Model;

/// One delivery of a plan.
#[derive(Clone, Copy, Debug, PartialEq)]
pub enum Step {
    /// It was put into the session's outbox.
    Put(SessionId),
    /// The session's outbox was full, so it missed the record and is shut.
    Missed(SessionId),
}

/// What became of a record.
#[derive(Drop)]
pub struct Done {
    /// Its number.
    pub number: RecordNumber,
    /// Who had no room for what it owed.
    pub missed: Sessions,
    /// Whether its own session is shut then. A tick has none.
    pub shut: bool,
}

/// What became of a session that was hung.
#[derive(Clone, Copy, Debug, PartialEq)]
pub struct Hung {
    /// The number of the record.
    pub number: RecordNumber,
    /// Whether its outbox had no room for the last item.
    pub missed: bool,
}

/// What became of records that were dropped.
#[derive(Clone, Copy, Debug, PartialEq)]
pub struct Rolled {
    /// How many were.
    pub dropped: usize,
    /// The number of the next record.
    pub next: RecordNumber,
}

/// A session that was given up.
#[derive(Clone, Copy, Debug, PartialEq)]
pub struct Reaped {
    /// Its number.
    pub session: SessionId,
    /// How many items were left in its outbox.
    pub count: u64,
}

/// The deliveries of a record that are still to be put. One plan is out at a time; it is made where a record is
/// appended, and given back when nothing is left in it. A plan that is dropped leaves its ledger busy for good.
#[derive(Drop)]
pub struct Plan {
    pub(crate) number: RecordNumber,
    pub(crate) session: SessionId,
    pub(crate) next: Option<u64>,
    pub(crate) missed: SmallVec<SessionId, 2>,
}

impl Model for Plan {
    ghost use Rattle.std.specs.Prelude.{◌-◌};
    ghost use Rattle.smallvec.specs.SmallVec.{small_vec_len};
    ghost use Rattle.ledger.specs.Ledger.{Out};

    ghost Value = { Out };

    ghost view = { λ a. record {
      number = a.number;
      session = a.session;
      next = a.next;
      missed = a.missed.items;
      room = a.missed.capacity - small_vec_len a.missed;
    } };
}

impl Plan {
    /// The number of its record.
    pub fn number(&self) -> RecordNumber
        ensures { result ≡ self.now.number }
    {
        self.number
    }

    /// The session of its record. A tick's is 0, which is no session's.
    pub fn session(&self) -> SessionId
        ensures { result ≡ self.now.session }
    {
        self.session
    }

    /// Notes a session that missed the record, in room that was made before.
    pub(crate) fn note(&mut self, session: SessionId)
        requires { 0 < self.old.room }
        ensures same { (self.new.number ≡ self.old.number) × (self.new.session ≡ self.old.session)
            × (self.new.next ≡ self.old.next) }
        ensures missed { self.new.missed ≡ self.old.missed ++ session ∷ [] }
        ensures room { self.new.room + 1 ≡ self.old.room }
    {
        self.missed.push_reserved(session);
    }
}
