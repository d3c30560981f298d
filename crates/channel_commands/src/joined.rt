//! A channel that a session joined just now.
ghost use Rattle.std.specs.Prelude.{◌≡◌, ◌∷◌, ◌++◌, [], IfOk};

use channel_state::ChannelState;
use chronicle::SessionId;
use line_grammar::Octets;
use roster::Sessions;
use std::alloc::{AllocError, Global};
use std::marker::Model;

/// A channel that a session joined just now: what is kept of it, and who is on it.
#[derive(Drop)]
pub(crate) struct Joined<'a> {
    /// Its name as it was first spelled.
    pub name: &'a Octets,
    /// The channel before, whose members aren't asked for.
    pub state: &'a ChannelState,
    /// In the order of joining: who joined is the last.
    pub members: &'a [SessionId],
}

impl<'a> Model for Joined<'a> {
    ghost use Rattle.transactions.specs.Seen.{Seen};
    ghost use Rattle.query_commands.specs.Names.{with_members};

    ghost Value = { Seen };

    ghost view = { λ a. with_members a.name.now a.state.now.state a.members.now };
}

/// Sessions, and one more behind them.
pub(crate) fn followed_by(
    alloc: Global,
    sessions: &[SessionId],
    session: SessionId,
) -> Result<Sessions, AllocError>
    ensures { IfOk result (λ v. v ≡ sessions.now ++ session ∷ []) }
{
    let mut all = Vec::with_capacity(alloc, sessions.len().saturating_add(1))?;
    all.extend_from_slice(sessions)?;
    all.push(session)?;
    Ok(Sessions::from_vec(all))
}
