//! How a session is refused what it asked for (RFC 2812, section 5.2).
ghost use Rattle.std.specs.Prelude.{◌≡◌, ◌∷◌, [], OnOk};
ghost use Rattle.numerics.specs.declared.numeric.Numeric.TheVariants.{UserNotInChannel};
ghost use Rattle.transactions.specs.Denials.{numeric_for};
ghost use Rattle.transactions.specs.TransactionView.{grown};
ghost use Rattle.transactions.specs.Replies.{tells};

use crate::replies::tell;
use crate::transaction::Transaction;
use chronicle::SessionId;
use line_grammar::Octets;
use numerics::Numeric;
use std::alloc::AllocError;

/// Why a session is refused what it asked for. Its numeric names one nickname, channel or target.
#[derive(Clone, Copy)]
pub enum Denial {
    /// Nobody has the nickname (401).
    NoSuchNick,
    /// The channel isn't there (403).
    NoSuchChannel,
    /// The session may not speak on the channel (404).
    CannotSendToChan,
    /// The session is on as many channels as it may be (405).
    TooManyChannels,
    /// A line has more targets than it may, of which this is the first too many (407).
    TooManyTargets,
    /// The session isn't on the channel (442).
    NotOnChannel,
    /// The channel has as many members as its limit (471).
    ChannelIsFull,
    /// The session isn't invited to the channel (473).
    InviteOnlyChan,
    /// A ban fits the session (474).
    BannedFromChan,
    /// The channel has another key (475).
    BadChannelKey,
    /// The session isn't an operator of the channel (482).
    ChanOPrivsNeeded,
}

/// The numeric of a denial.
fn numeric_of(denial: Denial, name: Octets) -> Numeric
    ensures { result ≡ numeric_for denial name }
{
    match denial {
        Denial::NoSuchNick => Numeric::NoSuchNick(name),
        Denial::NoSuchChannel => Numeric::NoSuchChannel(name),
        Denial::CannotSendToChan => Numeric::CannotSendToChan(name),
        Denial::TooManyChannels => Numeric::TooManyChannels(name),
        Denial::TooManyTargets => Numeric::TooManyTargets(name),
        Denial::NotOnChannel => Numeric::NotOnChannel(name),
        Denial::ChannelIsFull => Numeric::ChannelIsFull(name),
        Denial::InviteOnlyChan => Numeric::InviteOnlyChan(name),
        Denial::BannedFromChan => Numeric::BannedFromChan(name),
        Denial::BadChannelKey => Numeric::BadChannelKey(name),
        Denial::ChanOPrivsNeeded => Numeric::ChanOPrivsNeeded(name),
    }
}

/// Answers a session that it is refused what it asked for.
pub fn deny(
    tx: &mut Transaction,
    session: SessionId,
    denial: Denial,
    name: &Octets,
) -> Result<(), AllocError>
    ensures { OnOk result (tx.new ≡ grown tx.old
        (tells tx.old.settings tx.old.facts session (numeric_for denial name.now) ∷ [])) }
{
    let name = name.clone()?;
    tell(tx, session, numeric_of(denial, name))
}

/// Answers a session that a user isn't on a channel (441).
pub fn deny_absent(
    tx: &mut Transaction,
    session: SessionId,
    nick: &Octets,
    channel: &Octets,
) -> Result<(), AllocError>
    ensures { OnOk result (tx.new ≡ grown tx.old (tells tx.old.settings tx.old.facts
        session (UserNotInChannel nick.now channel.now) ∷ [])) }
{
    let nick = nick.clone()?;
    let channel = channel.clone()?;
    tell(tx, session, Numeric::UserNotInChannel { nick, channel })
}
