//! The elementary facts that a record establishes.
ghost use Rattle.std.specs.Prelude.{◌≡◌, option_copied, OnOk};
ghost use Rattle.channel_state.specs.State.{with_change, or_nothing};
ghost use Rattle.std.specs.Option.{option_map};
ghost use Rattle.registration.specs.Enrol.{enrolment};
ghost use Rattle.roster.specs.LookBack.{tells_host, enrol_after, tells_name, state_after};

use crate::people::blank_enrol;
use casemapping::is_same;
use channel_state::{Change, ChannelState};
use chronicle::{SessionId, Why};
use line_grammar::Octets;
use registration::{Caps, Enrol};
use std::alloc::AllocError;

/// An elementary fact. What holds of sessions and channels is read back from a list of these.
#[derive(Drop)]
pub enum Deed {
    /// A session was opened, from this host.
    Opened {
        session: SessionId,
        host: Octets,
    },
    /// A session took a nickname.
    NickSet {
        session: SessionId,
        nick: Octets,
    },
    /// A session told its user name and real name.
    UserSet {
        session: SessionId,
        user: Octets,
        real: Octets,
    },
    /// Whether the registration of a session waits for the end of capability negotiation.
    HoldSet {
        session: SessionId,
        held: bool,
    },
    /// A session has these capabilities.
    CapsSet {
        session: SessionId,
        caps: Caps,
    },
    /// A session has an exchange of SASL open, and sent this of it so far; or it has none.
    ExchangeSet {
        session: SessionId,
        exchange: Option<Octets>,
    },
    /// A session is logged in by an account.
    LoggedIn {
        session: SessionId,
        account: Octets,
    },
    /// A session is registered from now on.
    Enrolled {
        session: SessionId,
    },
    /// A session is away, with this text; or it is here.
    AwaySet {
        session: SessionId,
        text: Option<Octets>,
    },
    /// Whether a session is hidden from those who aren't on its channels.
    InvisibleSet {
        session: SessionId,
        on: bool,
    },
    /// A session made a channel, and is on it. The name is as it was first spelled.
    ChannelMade {
        session: SessionId,
        channel: Octets,
    },
    /// A channel that was there changed.
    Changed {
        channel: Octets,
        change: Change,
    },
    /// A session ended; the text is what its client gave, or empty.
    Ended {
        session: SessionId,
        why: Why,
        text: Octets,
    },
    /// A session left its channels and gave its nickname back.
    Gone {
        session: SessionId,
    },
}

/// A channel after a change.
fn change_state(change: &Change, state: &mut ChannelState) -> Result<(), AllocError>
    ensures { OnOk result (state.new.state ≡ or_nothing (with_change change.now state.old.state)) }
{
    let change = change.clone()?;
    state.reserve(1)?;
    state.change(change);
    state.last();
    Ok(())
}

impl Deed {
    /// What it tells of the host of a session, if anything.
    pub fn tells_host(&self, session: SessionId) -> Option<&[u8]>
        ensures { option_map (λ h. h.now) result ≡ tells_host session self.now }
    {
        match self {
            Deed::Opened {
                session: other,
                host,
            } if *other == session => Some(host.as_slice()),
            Deed::Gone { session: other } if *other == session => Some(&[]),
            _ => None,
        }
    }

    /// What is known of a session while it registers, after this.
    pub fn enroll<'a>(&'a self, session: SessionId, enrol: Enrol<'a>) -> Enrol<'a>
        ensures { enrolment result ≡ enrol_after session self.now (enrolment enrol.entry) }
    {
        match self {
            Deed::Opened { session: other, .. } | Deed::Gone { session: other }
                if *other == session => { blank_enrol() }
            Deed::NickSet {
                session: other,
                nick,
            } if *other == session => Enrol {
                nick: Some(nick),
                ..enrol
            },
            Deed::UserSet {
                session: other,
                user,
                ..
            } if *other == session => Enrol {
                user: Some(user),
                ..enrol
            },
            Deed::HoldSet {
                session: other,
                held,
            } if *other == session => Enrol {
                hold: *held,
                ..enrol
            },
            Deed::CapsSet {
                session: other,
                caps,
            } if *other == session => Enrol {
                caps: *caps,
                ..enrol
            },
            Deed::ExchangeSet {
                session: other,
                exchange,
            } if *other == session => Enrol {
                exchange: exchange.as_ref(),
                ..enrol
            },
            Deed::LoggedIn {
                session: other,
                account,
            } if *other == session => Enrol {
                account: Some(account),
                ..enrol
            },
            Deed::Enrolled { session: other } if *other == session => Enrol {
                registered: true,
                ..enrol
            },
            _ => enrol,
        }
    }

    /// What it tells of the name of a channel, if anything.
    pub fn tells_name(&self, channel: &[u8]) -> Option<&Octets>
        ensures { option_copied result ≡ tells_name channel.now self.now }
    {
        match self {
            Deed::ChannelMade { channel: name, .. } if is_same(name.as_slice(), channel) => Some(
                name,
            ),
            _ => None,
        }
    }

    /// Makes a channel the one after it.
    pub fn reshape(&self, channel: &[u8], state: &mut ChannelState) -> Result<(), AllocError>
        ensures { OnOk result (state.new.state ≡ state_after self.now channel.now state.old.state) }
    {
        match self {
            Deed::ChannelMade {
                session,
                channel: name,
            } if is_same(name.as_slice(), channel) => {
                state.reserve(1)?;
                state.make(*session);
                Ok(())
            }
            Deed::Changed {
                channel: name,
                change,
            } if is_same(name.as_slice(), channel) => change_state(change, state),
            Deed::Gone { session } => {
                state.depart(*session);
                state.last();
                Ok(())
            }
            _ => Ok(()),
        }
    }
}
