//! Who may join a channel that is there (RFC 2811, section 4).
ghost use Rattle.std.specs.Prelude.{◌≡◌, length};
ghost use Rattle.channel_commands.specs.Joining.{has_other_key, is_stopped, is_uninvited, has_members, bar_of};

use channel_state::ChannelState;
use chronicle::SessionId;
use line_grammar::Octets;
use transactions::Denial;

/// Whether a channel has another key.
fn has_other_key(state: &ChannelState, given: &Octets) -> bool
    ensures { result ≡ has_other_key state.now.state.modes.key given.now }
{
    match &state.modes().key {
        Some(key) => *key != *given,
        None => false,
    }
}

/// Whether a ban stops a session from joining.
fn is_stopped(state: &ChannelState, session: SessionId, from: &[u8]) -> bool
    ensures { result ≡ is_stopped state.now.state session from.now }
{
    state.is_banned(from) && !state.is_pardoned(session)
}

/// Whether a session isn't invited where it has to be.
fn is_uninvited(state: &ChannelState, session: SessionId) -> bool
    ensures { result ≡ is_uninvited state.now.state session }
{
    state.modes().invite_only && !state.is_invited(session)
}

/// Whether a channel has as many members as its limit.
fn is_full(state: &ChannelState) -> bool
    ensures { result ≡ has_members state.now.state.modes.limit (length state.now.state.members) }
{
    match state.modes().limit {
        Some(limit) => state.members().len() as u64 >= limit,
        None => false,
    }
}

/// What bars a session from a channel, the first that does.
#[tactic(auto, unfolding(crate::specs::Joining::bar_of))]
pub(crate) fn bar_of(
    state: &ChannelState,
    session: SessionId,
    from: &[u8],
    key: &Octets,
) -> Option<Denial>
    ensures { result ≡ bar_of state.now.state session from.now key.now }
{
    if has_other_key(state, key) {
        return Some(Denial::BadChannelKey);
    }
    if is_stopped(state, session, from) {
        return Some(Denial::BannedFromChan);
    }
    if is_uninvited(state, session) {
        return Some(Denial::InviteOnlyChan);
    }
    if is_full(state) {
        return Some(Denial::ChannelIsFull);
    }
    None
}
