//! What a session is let see of channels (RFC 2811, section 4.2.6; RFC 2812, section 3.1.5).
ghost use Rattle.std.specs.Prelude.{◌≡◌, ◌∷◌, ◌++◌, [], filter, not, IfOk, OnOk};
ghost use Rattle.roster.specs.LookBack.{invisible};
ghost use Rattle.query_commands.specs.Visible.{channel_for, members_for, sees};

use channel_state::ChannelState;
use chronicle::SessionId;
use line_grammar::Octets;
use roster::{Roster, Sessions};
use std::alloc::{AllocError, Global};
use std::marker::Model;

/// A channel that a session sees.
#[derive(Drop)]
pub(crate) struct Listed<'a> {
    /// Its name as it was first spelled.
    pub name: &'a Octets,
    pub state: &'a ChannelState,
}

impl<'a> Model for Listed<'a> {
    ghost use Rattle.transactions.specs.Seen.{Seen};

    ghost Value = { Seen };

    ghost view = { λ a. record { name = a.name.now; state = a.state.now.state } };
}

/// Whether a session sees a channel.
pub(crate) fn sees(session: SessionId, state: &ChannelState) -> bool
    ensures { result ≡ sees session state.now.state }
{
    !state.modes().secret || state.has(session)
}

/// The channel of a name, where the session sees it.
#[tactic(auto, unfolding(crate::specs::Visible::channel_for))]
pub(crate) fn channel_for<'a>(
    roster: &'a Roster,
    session: SessionId,
    channel: &[u8],
) -> Option<Listed<'a>>
    ensures { result ≡ channel_for roster.now.facts session channel.now }
{
    let (name, state) = roster.channel(channel)?;
    if sees(session, state) {
        Some(Listed { name, state })
    } else {
        None
    }
}

/// Adds a member that isn't hidden.
fn push_shown(roster: &Roster, shown: &mut Sessions, member: SessionId) -> Result<(), AllocError>
    ensures { OnOk result
        (shown.new ≡ shown.old ++ filter (λ t. not (invisible roster.now.facts t)) (member ∷ [])) }
{
    if roster.is_invisible(member) {
        return Ok(());
    }
    shown.push(member)
}

/// The members that aren't hidden.
fn shown_members(
    alloc: Global,
    roster: &Roster,
    members: &[SessionId],
) -> Result<Sessions, AllocError>
    ensures { IfOk result (λ v. v ≡ filter (λ t. not (invisible roster.now.facts t)) members.now) }
{
    let mut shown = Sessions::from_vec(Vec::new(alloc));
    for member in members {
        push_shown(roster, &mut shown, *member)?;
    }
    Ok(shown)
}

/// The members that a session is told of.
#[tactic(auto, unfolding(crate::specs::Visible::members_for))]
pub(crate) fn members_for(
    alloc: Global,
    roster: &Roster,
    session: SessionId,
    state: &ChannelState,
) -> Result<Sessions, AllocError>
    ensures { IfOk result (λ v. v ≡ members_for roster.now.facts session state.now.state) }
{
    if state.has(session) {
        return Sessions::copy_of(alloc, state.members());
    }
    shown_members(alloc, roster, state.members())
}
