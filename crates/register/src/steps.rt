//! The steps on the seats of a register. Each call on a sheet is one atomic load of its one word.
ghost use Rattle.std.specs.Prelude.{◌≡◌, ◌∷◌, ◌++◌, [], Some, None};
ghost use Rattle.register.specs.Rows.{new_row, with_piece, outbox_at, pieces_at};
ghost use Rattle.register.specs.Rule.{keeper, only_mark, only_stub};
ghost use Rattle.register.specs.Shown.{new_mark, rows_of, pieces_of, outbox_of, stub_session};

use crate::claims::Known;
use crate::rule::{
    Admits, Advances, Blank, Clears, FinishesPiece, GivesStub, LetsIn, Looks, OfSessions, TakesIn,
};
use atomic_table::{Seat, Shared};
use chronicle::SessionId;
use line_grammar::Piece;
use outbox::Outbox;

pub(crate) type Sheet<N> = Shared<(), Known<N>, (), OfSessions>;

/// Lets a session in, and gives the seats of its mark and of its stub.
pub(crate) fn let_in<W: LetsIn<N>, N, O: Outbox<Name = N>>(
    sheet: &Sheet<N>,
    own: &mut Seat<(), Known<N>>,
    session: SessionId,
    outbox: &O,
) -> (Seat<(), Known<N>>, Seat<(), Known<N>>)
    requires table { (own.old.table_id ≡ sheet.now.table_id) × (sheet.now.table_id.words ≡ 1) }
    requires own { own.old.me ≡ (keeper (rows_of own.old.me.0), []) }
    requires new { outbox_at (rows_of own.old.me.0) session ≡ None }
    requires entry { W.entry ≡ Some (new_row session (O.name outbox.now)) }
    ensures table { (own.new.table_id ≡ own.old.table_id) × (result.0.table_id ≡ own.old.table_id)
        × (result.1.table_id ≡ own.old.table_id) }
    ensures own { own.new.me
        ≡ (keeper (new_row session (O.name outbox.now) ∷ rows_of own.old.me.0), []) }
    ensures mark { result.0.me ≡ (only_mark (Some (new_mark session)), []) }
    ensures stub { result.1.me
        ≡ (only_stub (Some (record { session = session; outbox = O.name outbox.now })), []) }
{
    let _ = session;
    let _ = outbox;
    let mark = sheet.split_seat::<Admits<W>>(own);
    let stub = sheet.split_seat::<GivesStub>(own);
    (mark, stub)
}

/// A seat that knows nothing.
pub(crate) fn blank<N>(sheet: &Sheet<N>, own: &mut Seat<(), Known<N>>) -> Seat<(), Known<N>>
    requires table { (own.old.table_id ≡ sheet.now.table_id) × (sheet.now.table_id.words ≡ 1) }
    ensures table { own.new.table_id ≡ own.old.table_id }
    ensures own { own.new.me ≡ own.old.me }
{
    sheet.split_seat::<Blank>(own)
}

/// Takes a mark's seat in, and gives it out with one more piece.
pub(crate) fn turn<W: FinishesPiece, N>(
    sheet: &Sheet<N>,
    own: &mut Seat<(), Known<N>>,
    session: SessionId,
    mark: Seat<(), Known<N>>,
    piece: &Piece,
) -> Seat<(), Known<N>>
    requires table { (own.old.table_id ≡ sheet.now.table_id) × (mark.table_id ≡ sheet.now.table_id)
        × (sheet.now.table_id.words ≡ 1) }
    requires own { own.old.me ≡ (keeper (rows_of own.old.me.0), []) }
    requires mark { mark.me
        ≡ (only_mark (Some (record { session = session; pieces = pieces_of mark.me.0 })), []) }
    requires piece { W.piece ≡ Some piece.now }
    ensures table { (own.new.table_id ≡ own.old.table_id) × (result.table_id ≡ own.old.table_id) }
    ensures own { own.new.me ≡ (keeper (with_piece (rows_of own.old.me.0) session piece.now), []) }
    ensures mark { result.me ≡ (
      only_mark
          (Some (record { session = session; pieces = pieces_of mark.me.0 ++ piece.now ∷ [] })),
      [],
    ) }
    ensures knew { pieces_at (rows_of own.old.me.0) session ≡ Some (pieces_of mark.me.0) }
{
    let _ = session;
    let _ = piece;
    sheet.join_seat::<TakesIn>(own, mark);
    sheet.load::<Looks>(own, 0);
    sheet.split_seat::<Advances<W>>(own)
}

/// Takes the seats of a mark and of a stub in, for good.
pub(crate) fn settle<N>(
    sheet: &Sheet<N>,
    own: &mut Seat<(), Known<N>>,
    session: SessionId,
    mark: Seat<(), Known<N>>,
    stub: Seat<(), Known<N>>,
)
    requires table { (own.old.table_id ≡ sheet.now.table_id) × (mark.table_id ≡ sheet.now.table_id)
        × (stub.table_id ≡ sheet.now.table_id) × (sheet.now.table_id.words ≡ 1) }
    requires own { own.old.me ≡ (keeper (rows_of own.old.me.0), []) }
    requires mark { mark.me
        ≡ (only_mark (Some (record { session = session; pieces = pieces_of mark.me.0 })), []) }
    requires stub { (stub.me ≡ (only_stub stub.me.0.stub, []))
        × (stub_session stub.me.0 ≡ Some session) }
    ensures table { own.new.table_id ≡ own.old.table_id }
    ensures own { own.new.me ≡ own.old.me }
    ensures pieces { pieces_at (rows_of own.old.me.0) session ≡ Some (pieces_of mark.me.0) }
    ensures outbox { outbox_at (rows_of own.old.me.0) session ≡ outbox_of stub.me.0 }
{
    let _ = session;
    sheet.join_seat::<TakesIn>(own, mark);
    sheet.join_seat::<TakesIn>(own, stub);
    sheet.load::<Clears>(own, 0);
}
