//! Two halls side by side: the tokens of one are of another type than those of the other.
ghost use Rattle.std.specs.Prelude.{◌≡◌, OnOk};
ghost use Rattle.chronicle.specs.History.{accepted};

use chronicle::Moment;
use crew::book::{Baton, Hall, LineRefusal, Naming, StableName};
use line_grammar::Piece;

/// Has a line accepted in the hall whose token the baton is, beside another.
pub fn line_apart<L: Naming, M: Naming, O: StableName>(
    hall: &mut Hall<L, O>,
    other: &mut Hall<M, O>,
    baton: &mut Baton<L, O>,
    piece: &Piece,
) -> Result<(), LineRefusal>
    ensures session { baton.new.session ≡ baton.old.session }
    ensures done { OnOk result (baton.new.pieces ≡ accepted hall.new.history baton.old.session) }
{
    let _ = other.len();
    match hall.line(baton, piece, Moment::new(0)) {
        Ok(_) => Ok(()),
        Err(refusal) => Err(refusal),
    }
}
