//! Which tables a deed touches.
ghost use Rattle.roster.specs.Touching.{Touches};

use crate::deed::Deed;
use channel_state::Change;
use chronicle::SessionId;
use line_grammar::Octets;

/// A deed, by the tables that it touches.
pub(crate) enum TouchedTables {
    /// What is known of one session, but for its nickname.
    Person { deed: Deed },
    /// Its nickname.
    Nick { session: SessionId, nick: Octets },
    /// A channel that is made, and its maker's list.
    NewChannel { session: SessionId, channel: Octets },
    /// A channel, and the list of who joins or leaves.
    Channel { channel: Octets, change: Change },
    /// All that has to do with a session that is gone.
    All { session: SessionId },
}

/// What a deed touches.
pub(crate) fn touched_by(deed: Deed) -> TouchedTables
    ensures { Touches result deed }
{
    match deed {
        Deed::NickSet { session, nick } => TouchedTables::Nick { session, nick },
        Deed::ChannelMade { session, channel } => TouchedTables::NewChannel { session, channel },
        Deed::Changed { channel, change } => TouchedTables::Channel { channel, change },
        Deed::Gone { session } => TouchedTables::All { session },
        Deed::Opened { session, host } => TouchedTables::Person {
            deed: Deed::Opened { session, host },
        },
        Deed::UserSet {
            session,
            user,
            real,
        } => TouchedTables::Person {
            deed: Deed::UserSet {
                session,
                user,
                real,
            },
        },
        Deed::HoldSet { session, held } => TouchedTables::Person {
            deed: Deed::HoldSet { session, held },
        },
        Deed::CapsSet { session, caps } => TouchedTables::Person {
            deed: Deed::CapsSet { session, caps },
        },
        Deed::ExchangeSet { session, exchange } => TouchedTables::Person {
            deed: Deed::ExchangeSet { session, exchange },
        },
        Deed::LoggedIn { session, account } => TouchedTables::Person {
            deed: Deed::LoggedIn { session, account },
        },
        Deed::Enrolled { session } => TouchedTables::Person {
            deed: Deed::Enrolled { session },
        },
        Deed::AwaySet { session, text } => TouchedTables::Person {
            deed: Deed::AwaySet { session, text },
        },
        Deed::InvisibleSet { session, on } => TouchedTables::Person {
            deed: Deed::InvisibleSet { session, on },
        },
        Deed::Ended { session, why, text } => TouchedTables::Person {
            deed: Deed::Ended { session, why, text },
        },
    }
}
