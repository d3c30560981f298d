//! The rule of the register, and the kinds of step under it.
use crate::claims::{Known, Row};
use atomic_table::{Join, Play, Split, TableRule};
use line_grammar::Piece;
use std::marker::{Brand, PhantomData};

/// The rule of the register.
pub struct OfSessions;

impl<N> TableRule<(), Known<N>, ()> for OfSessions {
    ghost use Rattle.std.specs.Prelude.{[]};
    ghost use Rattle.register.specs.Rule.{Kept, keeper};

    ghost holds = { λ _ s. Kept s.views };

    ghost first = { λ _. keeper [] };
}

/// The row of a session that is let in, for the proof alone.
pub(crate) trait LetsIn<N> {
    ghost use Rattle.std.specs.Prelude.{Option};
    ghost use Rattle.register.specs.declared.claims.Row.{Row as Entry};

    ghost entry: { Option (Entry N) };
}

impl<N> LetsIn<N> for Brand {
    ghost use Rattle.std.specs.Prelude.{None};

    ghost entry = { None };
}

/// A row more, and its mark is split off.
pub(crate) struct Admits<W> {
    entry: PhantomData<W>,
}

impl<N, W: LetsIn<N>> Split<Known<N>> for Admits<W> {
    ghost use Rattle.register.specs.Rule.{admitting, admitted};

    ghost left = { admitting W.entry };

    ghost right = { admitted W.entry };
}

/// A stub is split off.
pub(crate) struct GivesStub;

impl<N> Split<Known<N>> for GivesStub {
    ghost use Rattle.register.specs.Rule.{without_stub, only_stub};

    ghost left = { without_stub };

    ghost right = { λ v. only_stub v.stub };
}

/// A seat is split off that knows nothing.
pub(crate) struct Blank;

impl<N> Split<Known<N>> for Blank {
    ghost use Rattle.register.specs.Rule.{spent};

    ghost left = { λ v. v };

    ghost right = { λ v. spent };
}

/// A seat takes in what another knows of a session.
pub(crate) struct TakesIn;

impl<N> Join<Known<N>> for TakesIn {
    ghost use Rattle.register.specs.Rule.{joined, spent};

    ghost both = { joined };

    ghost spent = { spent };
}

/// What a seat has taken in stands in its rows.
pub(crate) struct Looks;

impl<N> Play<(), Known<N>> for Looks {
    ghost use Rattle.std.specs.Prelude.{◌≡◌};
    ghost use Rattle.register.specs.Rule.{Learns};

    ghost then = { λ _ v _ w. Learns v.0 × (w ≡ v) };
}

/// The same, and it keeps the rows alone.
pub(crate) struct Clears;

impl<N> Play<(), Known<N>> for Clears {
    ghost use Rattle.std.specs.Prelude.{◌≡◌};
    ghost use Rattle.register.specs.Rule.{Learns, only_rows};

    ghost then = { λ _ v _ w. Learns v.0 × (w ≡ (only_rows v.0, v.1)) };
}

/// The piece that was done, for the proof alone.
pub(crate) trait FinishesPiece {
    ghost use Rattle.std.specs.Prelude.{Option};
    ghost use Rattle.line_grammar.specs.declared.splitter.Piece.{Piece as Said};

    ghost piece: { Option Said };
}

impl FinishesPiece for Brand {
    ghost use Rattle.std.specs.Prelude.{None};

    ghost piece = { None };
}

/// One more piece is done, and the mark is split off.
pub(crate) struct Advances<W> {
    piece: PhantomData<W>,
}

impl<N, W: FinishesPiece> Split<Known<N>> for Advances<W> {
    ghost use Rattle.register.specs.Rule.{advancing, advanced};

    ghost left = { advancing W.piece };

    ghost right = { advanced W.piece };
}
