//! KICK (RFC 2812, section 3.2.8).
ghost use Rattle.std.specs.Prelude.{◌≡◌, [], Some, slice_get, IfOk, OnOk};
ghost use Rattle.roster.specs.LookBack.{nick as nick_of};
ghost use Rattle.transactions.specs.Words.{IsSeen, grown, title};
ghost use Rattle.channel_commands.specs.Found.{channel_of};
ghost use Rattle.channel_commands.specs.Leaving.{kick_text, kicks_user, kicks_each, kicks_seen, kicks};

use crate::channel_lines::{first_octets, kick_line};
use crate::each_name::{DoesFor, do_for_each};
use crate::finding::{channel_of, user_of};
use channel_leaving::leave;
use chronicle::SessionId;
use line_grammar::Octets;
use std::alloc::AllocError;
use transactions::{Denial, Seen, Transaction, deny, deny_absent, prefix_of, title_of};

/// Octets of the text of a kick, at most.
const KICKLEN: usize = 200;

/// How many nicknames a kick may have.
const MAX_TARGETS: usize = 4;

/// The text of a kick; without one the kicker's nickname.
#[tactic(auto, unfolding(crate::specs::Leaving::kick_text))]
fn kick_text(tx: &Transaction<'_>, session: SessionId, text: &Octets) -> Result<Octets, AllocError>
    ensures { IfOk result (λ t. t ≡ kick_text tx.now.facts session text.now) }
{
    if text.is_empty() {
        return title_of(tx.alloc(), tx.nick_of(session));
    }
    first_octets(text, KICKLEN)
}

/// A session puts users out of a channel, by their nicknames.
#[derive(Clone, Copy)]
struct Kicking<'a> {
    session: SessionId,
    from: &'a [u8],
    text: &'a Octets,
    name: &'a Octets,
}

impl Kicking<'_> {
    /// Puts a user out of the channel, which is there, where it is on it.
    fn kick_there(
        &self,
        tx: &mut Transaction,
        user: SessionId,
        nick: &Octets,
        seen: &Seen,
    ) -> Result<(), AllocError>
        requires seen { IsSeen tx.old.facts seen.now }
        requires nick { nick.now ≡ title (nick_of tx.old.base user) }
        ensures { OnOk result (tx.new ≡ grown tx.old (kicks_user tx.old.settings
            tx.old.base tx.old.facts self.now.session self.now.from.now self.now.text.now
            self.now.name.now user (Some seen.now))) }
    {
        if !seen.state().has(user) {
            return deny_absent(tx, self.session, nick, self.name);
        }
        let line = kick_line(
            tx.alloc(),
            self.from,
            self.name.as_slice(),
            nick.as_slice(),
            self.text.as_slice(),
        )?;
        leave(tx, seen, user, line)
    }

    /// Puts a user out of the channel, where it is on it.
    fn kick_user(&self, tx: &mut Transaction, user: SessionId) -> Result<(), AllocError>
        ensures { OnOk result
            (tx.new ≡ grown tx.old (kicks_user tx.old.settings tx.old.base
            tx.old.facts self.now.session self.now.from.now self.now.text.now
            self.now.name.now user (channel_of tx.old.facts self.now.name.now))) }
    {
        let nick = title_of(tx.alloc(), tx.before().nick_of(user))?;
        match channel_of(tx, self.name)? {
            Some(seen) => self.kick_there(tx, user, &nick, &seen),
            None => deny_absent(tx, self.session, &nick, self.name),
        }
    }
}

impl DoesFor<Octets> for Kicking<'_> {
    ghost use Rattle.channel_commands.specs.Leaving.{kicks_one};

    ghost effects_of = { λ k g before facts nick. kicks_one g before k.session k.from.now k.text.now
        k.name.now facts nick };

    fn do_for(&self, tx: &mut Transaction, nick: &Octets) -> Result<(), AllocError> {
        match user_of(tx, nick) {
            Some(user) => self.kick_user(tx, user),
            None => deny(tx, self.session, Denial::NoSuchNick, nick),
        }
    }
}

/// Puts the users of four nicknames, at most, out of a channel.
fn kick_few(
    tx: &mut Transaction,
    session: SessionId,
    nicks: &[Octets],
    text: &Octets,
    name: &Octets,
) -> Result<(), AllocError>
    requires first { tx.old.facts ≡ tx.old.base }
    ensures { OnOk result (tx.new ≡ grown tx.old (kicks_each tx.old.settings
        tx.old.facts session nicks.now text.now name.now (slice_get nicks.now 4))) }
{
    if let Some(fifth) = nicks.get(MAX_TARGETS) {
        return deny(tx, session, Denial::TooManyTargets, fifth);
    }
    let from = prefix_of(tx, session)?;
    let text = kick_text(tx, session, text)?;
    let kicking = Kicking {
        session,
        from: from.as_slice(),
        text: &text,
        name,
    };
    do_for_each(&kicking, tx, nicks)
}

/// Puts users out of a channel that is there.
fn kick_seen(
    tx: &mut Transaction,
    session: SessionId,
    nicks: &[Octets],
    text: &Octets,
    seen: &Seen,
) -> Result<(), AllocError>
    requires first { tx.old.facts ≡ tx.old.base }
    ensures { OnOk result (tx.new ≡ grown tx.old (kicks_seen tx.old.settings
        tx.old.facts session nicks.now text.now [] (Some seen.now))) }
{
    let name = seen.name();
    if !seen.state().has(session) {
        return deny(tx, session, Denial::NotOnChannel, name);
    }
    if !seen.state().is_operator(session) {
        return deny(tx, session, Denial::ChanOPrivsNeeded, name);
    }
    kick_few(tx, session, nicks, text, name)
}

/// An operator puts users out of a channel, with a text that may be empty, which is none (RFC 2812, section 3.2.8).
pub fn kick(
    tx: &mut Transaction,
    session: SessionId,
    channel: &Octets,
    nicks: &[Octets],
    text: &Octets,
) -> Result<(), AllocError>
    requires first { tx.old.facts ≡ tx.old.base }
    ensures { OnOk result (tx.new ≡ grown tx.old
        (kicks tx.old.settings tx.old.facts session channel.now nicks.now text.now)) }
{
    match channel_of(tx, channel)? {
        Some(seen) => kick_seen(tx, session, nicks, text, &seen),
        None => deny(tx, session, Denial::NoSuchChannel, channel),
    }
}
