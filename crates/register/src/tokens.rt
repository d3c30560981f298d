//! What a session has of its register.
ghost use Rattle.std.specs.Prelude.{◌≡◌, [], Some};

use crate::claims::Known;
use atomic_table::Seat;
use chronicle::SessionId;
use std::marker::{Brand, Model, PhantomData};

/// Names one register. A program picks it, and a token of another is of another type.
pub trait Naming {
    ghost use Rattle.atomic_table.specs.Seated.{TableId};

    ghost table: { TableId };
}

impl Naming for Brand {
    ghost use Rattle.std.specs.Prelude.{[]};

    ghost table = { record {
      words = 0;
      slots = 0;
      views_name = 0;
      atom = 0;
      block = 0;
      offset = 0;
      slot_names = [];
    } };
}

/// Who has it knows which pieces of its session are done. A session has one, made by `Register::admit` alone.
#[derive(Drop)]
pub struct Mark<L: Naming, N> {
    pub(crate) session: SessionId,
    pub(crate) seat: Seat<(), Known<N>>,
    pub(crate) of: PhantomData<L>,
}

impl<L: Naming, N> Model for Mark<L, N> {
    ghost use Rattle.std.specs.Prelude.{◌≡◌, [], Some};
    ghost use Rattle.register.specs.declared.claims.MarkClaim.{MarkClaim as Claim};
    ghost use Rattle.register.specs.Rule.{only_mark};
    ghost use Rattle.register.specs.Shown.{pieces_of};

    ghost Value = { Claim };

    ghost view = { λ m. record { session = m.session; pieces = pieces_of m.seat.me.0 } };

    ghost invariant = { λ m. (m.seat.table_id ≡ L.table) × (m.seat.me ≡ (
      only_mark
          (Some (record { session = m.session; pieces = pieces_of m.seat.me.0 })),
      [],
    )) };
}

impl<L: Naming, N> Mark<L, N> {
    /// Its session.
    pub fn session(&self) -> SessionId
        ensures { result ≡ self.now.session }
    {
        self.session
    }
}

/// Who has it knows which outbox its session has. A session has one, made by `Register::admit` alone.
#[derive(Drop)]
pub struct Stub<L: Naming, N> {
    pub(crate) session: SessionId,
    pub(crate) seat: Seat<(), Known<N>>,
    pub(crate) of: PhantomData<L>,
}

impl<L: Naming, N> Model for Stub<L, N> {
    ghost use Rattle.std.specs.Prelude.{◌≡◌, [], Some};
    ghost use Rattle.register.specs.Rule.{only_stub};
    ghost use Rattle.register.specs.Shown.{Stubbed, outbox_of, stub_session};

    ghost Value = { Stubbed N };

    ghost view = { λ m. record { session = m.session; outbox = outbox_of m.seat.me.0 } };

    ghost invariant = { λ m. (m.seat.table_id ≡ L.table)
        × (m.seat.me ≡ (only_stub m.seat.me.0.stub, []))
        × (stub_session m.seat.me.0 ≡ Some m.session) };
}

impl<L: Naming, N> Stub<L, N> {
    /// Its session.
    pub fn session(&self) -> SessionId
        ensures { result ≡ self.now.session }
    {
        self.session
    }
}
