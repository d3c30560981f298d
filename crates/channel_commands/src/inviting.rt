//! INVITE (RFC 2812, section 3.2.7).
ghost use Rattle.std.specs.Prelude.{◌≡◌, ◌∷◌, [], Some, OnOk};
ghost use Rattle.numerics.specs.declared.numeric.Numeric.TheVariants.{Inviting, UserOnChannel};
ghost use Rattle.transactions.specs.declared.effect.Effect.TheVariants.{Show};
ghost use Rattle.transactions.specs.Words.{IsSeen, grown, prefix, tells};
ghost use Rattle.channel_commands.specs.Lines.{invite_line};
ghost use Rattle.channel_commands.specs.Inviting.{invites_user, invites_seen, invites_found, invites};

use crate::channel_lines::invite_line;
use crate::finding::{channel_of, user_of};
use channel_state::Change;
use chronicle::SessionId;
use line_grammar::Octets;
use numerics::Numeric;
use roster::Sessions;
use std::alloc::AllocError;
use transactions::{Denial, Seen, Transaction, deny, prefix_of, tell, tell_away, title_of};

/// Answers that a user is on a channel already.
fn tell_present(
    tx: &mut Transaction,
    session: SessionId,
    nick: &Octets,
    name: &Octets,
) -> Result<(), AllocError>
    ensures { OnOk result (tx.new ≡ grown tx.old
        (tells tx.old.settings tx.old.facts session (UserOnChannel nick.now name.now) ∷ [])) }
{
    let nick = nick.clone()?;
    let channel = name.clone()?;
    tell(tx, session, Numeric::UserOnChannel { nick, channel })
}

/// Answers that a user is invited.
fn tell_invited(
    tx: &mut Transaction,
    session: SessionId,
    nick: &Octets,
    name: &Octets,
) -> Result<(), AllocError>
    ensures { OnOk result (tx.new ≡ grown tx.old
        (tells tx.old.settings tx.old.facts session (Inviting nick.now name.now) ∷ [])) }
{
    let nick = nick.clone()?;
    let channel = name.clone()?;
    tell(tx, session, Numeric::Inviting { nick, channel })
}

/// Shows a user that it is invited.
fn show_invited(
    tx: &mut Transaction,
    session: SessionId,
    user: SessionId,
    nick: &Octets,
    name: &Octets,
) -> Result<(), AllocError>
    ensures { OnOk result (tx.new ≡ grown tx.old
        (Show (user ∷ []) (invite_line (prefix tx.old.facts session) nick.now name.now) ∷ [])) }
{
    let from = prefix_of(tx, session)?;
    let line = invite_line(
        tx.alloc(),
        from.as_slice(),
        nick.as_slice(),
        name.as_slice(),
    )?;
    let hearers = Sessions::copy_of(tx.alloc(), &[user])?;
    tx.show(hearers, line)
}

/// Invites a user.
#[tactic(auto, using(transactions::proofs::Replay::grown_grown))]
fn invite_user(
    tx: &mut Transaction,
    session: SessionId,
    user: SessionId,
    nick: &Octets,
    seen: &Seen,
) -> Result<(), AllocError>
    requires first { tx.old.facts ≡ tx.old.base }
    requires seen { IsSeen tx.old.facts seen.now }
    ensures { OnOk result (tx.new ≡ grown tx.old
        (invites_user tx.old.settings tx.old.facts session user nick.now seen.now)) }
{
    let away = tx.before().away_of(user);
    let by_operator = seen.state().is_operator(session);
    show_invited(tx, session, user, nick, seen.name())?;
    tx.establish_change(
        seen,
        Change::Invited {
            session: user,
            by_operator,
        },
    )?;
    tell_invited(tx, session, nick, seen.name())?;
    tell_away(tx, session, nick.as_slice(), away)
}

/// Invites a user to a channel that is there.
fn invite_seen(
    tx: &mut Transaction,
    session: SessionId,
    user: SessionId,
    nick: &Octets,
    seen: &Seen,
) -> Result<(), AllocError>
    requires first { tx.old.facts ≡ tx.old.base }
    requires seen { IsSeen tx.old.facts seen.now }
    ensures { OnOk result (tx.new ≡ grown tx.old (invites_seen tx.old.settings
        tx.old.facts session user nick.now [] (Some seen.now))) }
{
    if !seen.state().has(session) {
        return deny(tx, session, Denial::NotOnChannel, seen.name());
    }
    if seen.state().has(user) {
        return tell_present(tx, session, nick, seen.name());
    }
    if seen.state().modes().invite_only && !seen.state().is_operator(session) {
        return deny(tx, session, Denial::ChanOPrivsNeeded, seen.name());
    }
    invite_user(tx, session, user, nick, seen)
}

/// Invites a user to a channel.
fn invite_found(
    tx: &mut Transaction,
    session: SessionId,
    user: SessionId,
    channel: &Octets,
) -> Result<(), AllocError>
    requires first { tx.old.facts ≡ tx.old.base }
    ensures { OnOk result (tx.new ≡ grown tx.old
        (invites_found tx.old.settings tx.old.facts session [] channel.now (Some user))) }
{
    let nick = title_of(tx.alloc(), tx.before().nick_of(user))?;
    match channel_of(tx, channel)? {
        Some(seen) => invite_seen(tx, session, user, &nick, &seen),
        None => deny(tx, session, Denial::NoSuchChannel, channel),
    }
}

/// A member of a channel invites a user to it (RFC 2812, section 3.2.7).
pub fn invite(
    tx: &mut Transaction,
    session: SessionId,
    nick: &Octets,
    channel: &Octets,
) -> Result<(), AllocError>
    requires first { tx.old.facts ≡ tx.old.base }
    ensures { OnOk result (tx.new ≡ grown tx.old
        (invites tx.old.settings tx.old.facts session nick.now channel.now)) }
{
    match user_of(tx, nick) {
        Some(user) => invite_found(tx, session, user, channel),
        None => deny(tx, session, Denial::NoSuchNick, nick),
    }
}
