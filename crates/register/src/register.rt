//! The register of a book.
//!
//! `admit` splits two claims off; `advance` and `retire` join them with the register's own, look, and split or clear.
//! A row is never taken out, since session numbers are never used again. A register has no name of its own, its tokens
//! do: it is made before a program can name it.
ghost use Rattle.std.specs.Prelude.{◌≡◌, ◌∷◌, [], ◌++◌, IfOk, Some, None};
ghost use Rattle.register.specs.Rows.{outbox_at, pieces_at};
ghost use Rattle.register.specs.Shown.{new_mark, longer_mark, new_stub, with_session, with_done};

use crate::claims::Known;
use crate::rule::OfSessions;
use crate::steps::{blank, let_in, settle, turn};
use crate::tokens::{Mark, Naming, Stub};
use atomic_table::{Seat, Table};
use chronicle::SessionId;
use line_grammar::Piece;
use outbox::Outbox;
use std::alloc::{AllocError, Global};
use std::marker::{Brand, Model, PhantomData};
use std::mem;

/// What stands of each session. It takes memory when it is made, and none later, for its rows exist in proofs alone:
/// so it has no bound on sessions but that each has a number of its own.
#[derive(Drop)]
pub struct Register<N> {
    table: Table<(), Known<N>, (), OfSessions, Global>,
    seat: Seat<(), Known<N>>,
}

impl<N> Model for Register<N> {
    ghost use Rattle.std.specs.Prelude.{◌≡◌, []};
    ghost use Rattle.register.specs.Rule.{keeper};
    ghost use Rattle.register.specs.Shown.{RegisterView, rows_of};

    ghost Value = { RegisterView N };

    ghost view = { λ r. record { table = r.seat.table_id; rows = rows_of r.seat.me.0 } };

    ghost invariant = { λ r. (r.seat.table_id ≡ r.table.shared.table_id)
        × (r.table.shared.table_id.words ≡ 1) × (r.seat.me ≡ (keeper (rows_of r.seat.me.0), [])) };
}

impl<N> Register<N> {
    /// A register of no session.
    pub fn new(alloc: Global) -> Result<Register<N>, AllocError>
        ensures { IfOk result (λ r. r.rows ≡ []) }
    {
        let (table, seat) = Table::of_words(alloc, &[0], &())?;
        Ok(Register { table, seat })
    }

    /// Lets a new session in, with its outbox, and gives its one mark and its one stub. It takes no memory and waits
    /// for nobody.
    pub fn admit<L: Naming, O: Outbox<Name = N>>(
        &mut self,
        session: SessionId,
        outbox: &O,
    ) -> (Mark<L, N>, Stub<L, N>)
        requires named { self.old.table ≡ L.table }
        requires new { outbox_at self.old.rows session ≡ None }
        ensures register { self.new ≡ with_session self.old session (O.name outbox.now) }
        ensures mark { result.0 ≡ new_mark session }
        ensures stub { result.1 ≡ new_stub session (O.name outbox.now) }
    {
        let table = &self.table;
        let (mark, stub) = let_in::<Brand, N, O>(&table.shared, &mut self.seat, session, outbox);
        (
            Mark {
                session,
                seat: mark,
                of: PhantomData,
            },
            Stub {
                session,
                seat: stub,
                of: PhantomData,
            },
        )
    }

    /// One more piece of the mark's session is done. It takes no memory and waits for nobody.
    pub fn advance<L: Naming>(&mut self, mark: &mut Mark<L, N>, piece: &Piece)
        requires named { self.old.table ≡ L.table }
        ensures knew { pieces_at self.old.rows mark.old.session ≡ Some mark.old.pieces }
        ensures register { self.new ≡ with_done self.old mark.old.session piece.now }
        ensures mark { mark.new ≡ longer_mark mark.old piece.now }
    {
        let table = &self.table;
        let empty = blank(&table.shared, &mut self.seat);
        let seat = mem::replace(&mut mark.seat, empty);
        let session = mark.session;
        mark.seat = turn::<Brand, N>(&table.shared, &mut self.seat, session, seat, piece);
    }

    /// Takes back the mark and the stub of a session, which stood for what the register has of it. It takes no
    /// memory and waits for nobody.
    pub fn retire<L: Naming>(&mut self, mark: Mark<L, N>, stub: Stub<L, N>)
        requires named { self.old.table ≡ L.table }
        requires one { mark.session ≡ stub.session }
        ensures register { self.new ≡ self.old }
        ensures pieces { pieces_at self.old.rows mark.session ≡ Some mark.pieces }
        ensures outbox { outbox_at self.old.rows stub.session ≡ stub.outbox }
    {
        let Mark { session, seat, .. } = mark;
        let Stub { seat: other, .. } = stub;
        let table = &self.table;
        settle(&table.shared, &mut self.seat, session, seat, other);
    }
}
