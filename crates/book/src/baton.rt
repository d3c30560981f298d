//! Whose line is next.
//!
//! It is the book's own baton with a mark and, for proofs alone, the book as it was when the newest of its lines was
//! done. A line is done in the register when its plan is given back, and `finish` finds in the newest record which
//! piece it was.
ghost use Rattle.std.specs.Prelude.{◌≡◌};
ghost use Rattle.book.specs.Turn.{IsInTurn};

use chronicle::SessionId;
use ledger::Ledger;
use outbox::Outbox;
use register::{Mark, Naming};
use snapshots::Snapshot;
use std::marker::Model;

/// Whose line is next: a session has one baton, made by `Book::open` alone. A clause sees which of its lines that
/// is, the pieces done with it, and the history when the newest of them was done, or when the session was opened.
#[derive(Drop)]
pub struct Baton<L: Naming, O: Outbox> {
    pub(crate) turn: ledger::Turn,
    pub(crate) mark: Mark<L, O::Name>,
    pub(crate) front: Snapshot<Ledger<O>>,
}

impl<L: Naming, O: Outbox> Model for Baton<L, O> {
    ghost use Rattle.std.specs.Prelude.{◌≡◌};
    ghost use Rattle.book.specs.Turn.{BatonView, IsInTurn};

    ghost Value = { BatonView };

    ghost view = { λ b. record {
      session = b.turn.session;
      next = b.turn.next;
      pieces = b.mark.pieces;
      front = b.front.value.history;
    } };

    ghost invariant = { λ b. (b.mark.session ≡ b.turn.session)
        × IsInTurn (record {
          session = b.turn.session;
          next = b.turn.next;
          pieces = b.mark.pieces;
          front = b.front.value.history;
        }) };
}

impl<L: Naming, O: Outbox> Baton<L, O> {
    /// Its session.
    pub fn session(&self) -> SessionId
        ensures { result ≡ self.now.session }
    {
        self.turn.session()
    }

    /// What holds of every baton: the pieces done with it are those that its history accepts, and are counted.
    pub fn in_turn(&self)
        ensures { IsInTurn self.now }
    {
        let _ = &self.turn;
    }
}
