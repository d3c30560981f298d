//! Who is on a channel is shown a line.
ghost use Rattle.std.specs.Prelude.{◌≡◌, ◌∷◌, [], OnOk};
ghost use Rattle.transactions.specs.declared.effect.Effect.TheVariants.{Show};
ghost use Rattle.transactions.specs.Words.{grown};

use numerics::Line;
use roster::Sessions;
use std::alloc::AllocError;
use transactions::{Seen, Transaction};

/// Shows all members of a channel a line. It fails where memory runs out; the transaction is to be dropped then.
pub fn show_members(tx: &mut Transaction, seen: &Seen, line: Line) -> Result<(), AllocError>
    ensures { OnOk result (tx.new ≡ grown tx.old (Show seen.now.state.members line ∷ [])) }
{
    let hearers = Sessions::copy_of(tx.alloc(), seen.state().members())?;
    tx.show(hearers, line)
}
