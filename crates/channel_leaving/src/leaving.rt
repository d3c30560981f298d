//! A member leaves a channel (RFC 2812, sections 3.2.2 and 3.2.8).
ghost use Rattle.std.specs.Prelude.{◌≡◌, true, OnOk};
ghost use Rattle.channel_state.specs.State.{among};
ghost use Rattle.transactions.specs.Words.{IsSeen, grown};
ghost use Rattle.channel_leaving.specs.Leaving.{leaves};

use crate::members::show_members;
use chronicle::SessionId;
use numerics::Line;
use std::alloc::AllocError;
use transactions::{Seen, Transaction};

/// A member leaves a channel: all members before it, itself too, are shown a line. It fails where memory runs out; the
/// transaction is to be dropped then.
#[tactic(auto, using(transactions::proofs::Replay::grown_grown))]
pub fn leave(
    tx: &mut Transaction,
    seen: &Seen,
    member: SessionId,
    line: Line,
) -> Result<(), AllocError>
    requires seen { IsSeen tx.old.facts seen.now }
    requires member { among member seen.now.state.members ≡ true }
    ensures { OnOk result (tx.new ≡ grown tx.old (leaves seen.now member line)) }
{
    show_members(tx, seen, line)?;
    tx.leave(seen, member)
}
