//! Whom and what a command names.
ghost use Rattle.std.specs.Prelude.{◌≡◌, false, IfOk, MatchOption};
ghost use Rattle.roster.specs.LookBack.{has_member};
ghost use Rattle.transactions.specs.Words.{IsSeen};
ghost use Rattle.channel_commands.specs.Found.{channel_of, user_of};

use chronicle::SessionId;
use line_grammar::Octets;
use std::alloc::AllocError;
use transactions::{Seen, Transaction};

/// The channel of a name, where it is there.
#[tactic(auto, unfolding(crate::specs::Found::channel_of), using(crate::proofs::Rows::not_there))]
pub(crate) fn channel_of<'a>(
    tx: &Transaction<'a>,
    name: &Octets,
) -> Result<Option<Seen<'a>>, AllocError>
    ensures channel { IfOk result (λ o. o ≡ channel_of tx.now.facts name.now) }
    ensures known { IfOk result (λ o. MatchOption o (has_member tx.now.facts name.now ≡ false)
        (IsSeen tx.now.facts)) }
{
    match tx.find(name.as_slice())? {
        Some(seen) => Ok(Some(seen)),
        None => Ok(None),
    }
}

/// The user of a nickname, before the record.
#[tactic(auto, unfolding(crate::specs::Found::user_of))]
pub(crate) fn user_of(tx: &Transaction<'_>, nick: &Octets) -> Option<SessionId>
    ensures { result ≡ user_of tx.now.base nick.now }
{
    tx.before().find(nick.as_slice())
}
