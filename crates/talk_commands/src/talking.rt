//! PRIVMSG, NOTICE and TAGMSG (RFC 2812, sections 3.3.1 and 3.3.2; RFC 2811, sections 4.2 and 4.3; IRCv3
//! message-tags; IRCv3 echo-message).
ghost use Rattle.std.specs.Prelude.{◌≡◌, ◌==◌, ◌∷◌, [], cond, filter, IfOk, OnOk};
ghost use Rattle.std.specs.List.{flat_map};
ghost use Rattle.roster.specs.LookBack.{away, user_named, name_of, state};
ghost use Rattle.transactions.specs.declared.effect.Effect.TheVariants.{Show};
ghost use Rattle.transactions.specs.Words.{numeric_for, grown, prefix};
ghost use Rattle.talk_commands.specs.Lines.{sent_line};
ghost use Rattle.talk_commands.specs.Talking.{answers, delivers, echoes, is_barred, keeps, may_speak};
ghost use Rattle.talk_commands.specs.Talking.{reaches, sends, shows, tells_away, to_channel, to_one, to_open, to_user};

use crate::{Sending, Verb};
use channel_state::ChannelState;
use chronicle::SessionId;
use line_grammar::Octets;
use numerics::Line;
use registration::Cap;
use roster::{Roster, Sessions};
use std::alloc::{AllocError, Global};
use transactions::{Denial, Transaction, deny, names_channel, prefix_of, tell_away, title_text};

/// The most targets of a text.
const MAX_TARGETS: usize = 4;

/// Answers a session that something isn't sent, but not to NOTICE.
fn refuse(
    tx: &mut Transaction,
    session: SessionId,
    verb: Verb,
    denial: Denial,
    name: &Octets,
) -> Result<(), AllocError>
    ensures { OnOk result (tx.new ≡ grown tx.old
        (answers tx.old.settings tx.old.facts session verb (numeric_for denial name.now))) }
{
    match verb {
        Verb::Notice => Ok(()),
        Verb::Privmsg | Verb::Tagmsg => deny(tx, session, denial, name),
    }
}

// ---- whom it reaches

/// Whether it reaches a session.
fn reaches(roster: &Roster, sending: &Sending<'_>, session: SessionId) -> bool
    ensures { result ≡ reaches roster.now.facts sending.now session }
{
    match sending.verb {
        Verb::Tagmsg => !sending.tags.is_empty()
            && roster.caps_of(session).contains(Cap::MessageTags),
        Verb::Privmsg | Verb::Notice => true,
    }
}

/// Those of some sessions whom it reaches, one by one.
fn takers_of_tags(
    alloc: Global,
    roster: &Roster,
    sending: &Sending<'_>,
    sessions: &[SessionId],
) -> Result<Sessions, AllocError>
    ensures { IfOk result (λ v. v ≡ filter (reaches roster.now.facts sending.now) sessions.now) }
{
    let mut hearers = Vec::from_slice(alloc, sessions)?;
    hearers.retain(|session| reaches(roster, sending, *session));
    Ok(Sessions::from_vec(hearers))
}

/// Those of some sessions whom it reaches. A text reaches them all.
#[tactic(auto, using(crate::proofs::Reached::privmsg_reaches_all, crate::proofs::Reached::notice_reaches_all))]
fn hearers_of(
    alloc: Global,
    roster: &Roster,
    sending: &Sending<'_>,
    sessions: Sessions,
) -> Result<Sessions, AllocError>
    ensures { IfOk result (λ v. v ≡ filter (reaches roster.now.facts sending.now) sessions) }
{
    match sending.verb {
        Verb::Privmsg | Verb::Notice => Ok(sessions),
        Verb::Tagmsg => takers_of_tags(alloc, roster, sending, sessions.as_slice()),
    }
}

/// Gives a session back what it sent, as a part of the answer, where it wants to have it.
fn echo(
    tx: &mut Transaction,
    session: SessionId,
    sending: &Sending<'_>,
    from: &[u8],
    target: &[u8],
) -> Result<(), AllocError>
    requires first { tx.old.facts ≡ tx.old.base }
    ensures { OnOk result (tx.new ≡ grown tx.old
        (echoes tx.old.facts session sending.now (sent_line sending.now from.now target.now))) }
{
    let caps = tx.before().caps_of(session);
    let wants = caps.contains(Cap::EchoMessage);
    if !wants || !reaches(tx.before(), sending, session) {
        return Ok(());
    }
    let line = sending.line(tx.alloc(), from, target)?;
    tx.answer(line)
}

// ---- a channel

/// Whether those without a rank may not speak.
fn is_barred(state: &ChannelState, session: SessionId, source: &[u8]) -> bool
    ensures { result ≡ is_barred state.now.state session source.now }
{
    let modes = state.modes();
    modes.moderated || modes.no_outside && !state.has(session) || state.is_banned(source)
}

/// Whether a session may speak on a channel.
fn may_speak(state: &ChannelState, session: SessionId, source: &[u8]) -> bool
    ensures { result ≡ may_speak state.now.state session source.now }
{
    state.is_operator(session) || state.has_voice(session) || !is_barred(state, session, source)
}

/// Shows it to those of some sessions whom it reaches.
fn show(
    tx: &mut Transaction,
    sending: &Sending<'_>,
    sessions: Sessions,
    line: Line,
) -> Result<(), AllocError>
    requires { tx.old.facts ≡ tx.old.base }
    ensures { OnOk result (tx.new ≡ grown tx.old
        (Show (filter (reaches tx.old.facts sending.now) sessions) line ∷ [])) }
{
    let hearers = hearers_of(tx.alloc(), tx.before(), sending, sessions)?;
    tx.show(hearers, line)
}

/// Sends it to the other members of a channel.
#[tactic(auto, using(transactions::proofs::Replay::grown_grown))]
fn send_to_members(
    tx: &mut Transaction,
    session: SessionId,
    sending: &Sending<'_>,
    from: &[u8],
    name: &[u8],
    members: &[SessionId],
) -> Result<(), AllocError>
    requires { tx.old.facts ≡ tx.old.base }
    ensures { OnOk result (tx.new ≡ grown tx.old (shows tx.old.facts session sending.now
        members.now (sent_line sending.now from.now name.now))) }
{
    let line = sending.line(tx.alloc(), from, name)?;
    let mut others = Sessions::copy_of(tx.alloc(), members)?;
    others.remove(session);
    show(tx, sending, others, line)?;
    echo(tx, session, sending, from, name)
}

/// Sends it to a channel that is there, where the session may speak.
fn send_to_open(
    tx: &mut Transaction,
    session: SessionId,
    sending: &Sending<'_>,
    name: &Octets,
    state: &ChannelState,
) -> Result<(), AllocError>
    requires { tx.old.facts ≡ tx.old.base }
    ensures { OnOk result (tx.new ≡ grown tx.old
        (to_open tx.old.settings tx.old.facts session sending.now name.now state.now.state)) }
{
    let from = prefix_of(tx, session)?;
    if !may_speak(state, session, from.as_slice()) {
        return refuse(tx, session, sending.verb, Denial::CannotSendToChan, name);
    }
    let (from, name) = (from.as_slice(), name.as_slice());
    send_to_members(tx, session, sending, from, name, state.members())
}

/// Sends it to a channel.
fn send_to_channel(
    tx: &mut Transaction,
    session: SessionId,
    sending: &Sending<'_>,
    channel: &Octets,
) -> Result<(), AllocError>
    requires { tx.old.facts ≡ tx.old.base }
    ensures { OnOk result (tx.new ≡ grown tx.old (to_channel tx.old.settings
        tx.old.facts session sending.now channel.now (name_of tx.old.facts channel.now))) }
{
    let Some((name, state)) = tx.before().channel(channel.as_slice()) else {
        return refuse(tx, session, sending.verb, Denial::NoSuchChannel, channel);
    };
    send_to_open(tx, session, sending, name, state)
}

// ---- a user

/// Hands it to a user, or besides the answer to its sender.
fn hand(
    tx: &mut Transaction,
    session: SessionId,
    sending: &Sending<'_>,
    user: SessionId,
    line: Line,
) -> Result<(), AllocError>
    requires { tx.old.facts ≡ tx.old.base }
    ensures { OnOk result (tx.new
        ≡ grown tx.old (cond (user == session) (keeps tx.old.facts session sending.now line)
        (Show (filter (reaches tx.old.facts sending.now) (user ∷ [])) line ∷ []))) }
{
    if user != session {
        let hearer = Sessions::copy_of(tx.alloc(), &[user])?;
        return show(tx, sending, hearer, line);
    }
    if !reaches(tx.before(), sending, session) {
        return Ok(());
    }
    tx.copy(line)
}

/// Delivers it to a user.
#[tactic(auto, using(transactions::proofs::Replay::grown_grown))]
fn deliver(
    tx: &mut Transaction,
    session: SessionId,
    sending: &Sending<'_>,
    user: SessionId,
    from: &[u8],
    name: &[u8],
) -> Result<(), AllocError>
    requires { tx.old.facts ≡ tx.old.base }
    ensures { OnOk result (tx.new ≡ grown tx.old (delivers tx.old.facts session sending.now
        user (sent_line sending.now from.now name.now))) }
{
    let line = sending.line(tx.alloc(), from, name)?;
    hand(tx, session, sending, user, line)?;
    echo(tx, session, sending, from, name)
}

/// Tells the sender of a PRIVMSG that a user is away.
fn tell_sender(
    tx: &mut Transaction,
    session: SessionId,
    verb: Verb,
    user: SessionId,
) -> Result<(), AllocError>
    requires { tx.old.facts ≡ tx.old.base }
    ensures { OnOk result (tx.new ≡ grown tx.old (tells_away tx.old.settings
        tx.old.facts session verb user (away tx.old.facts user))) }
{
    let roster = tx.before();
    match verb {
        Verb::Privmsg => {
            let nick = title_text(roster.nick_of(user));
            tell_away(tx, session, nick, roster.away_of(user))
        }
        Verb::Notice | Verb::Tagmsg => Ok(()),
    }
}

/// Sends it to a user.
#[tactic(auto, using(transactions::proofs::Replay::grown_grown))]
fn send_to_user(
    tx: &mut Transaction,
    session: SessionId,
    sending: &Sending<'_>,
    nick: &Octets,
) -> Result<(), AllocError>
    requires { tx.old.facts ≡ tx.old.base }
    ensures { OnOk result (tx.new ≡ grown tx.old (to_user tx.old.settings tx.old.facts
        session sending.now nick.now (user_named tx.old.facts nick.now))) }
{
    let Some(user) = tx.before().find(nick.as_slice()) else {
        return refuse(tx, session, sending.verb, Denial::NoSuchNick, nick);
    };
    let from = prefix_of(tx, session)?;
    let name = title_text(tx.before().nick_of(user));
    deliver(tx, session, sending, user, from.as_slice(), name)?;
    tell_sender(tx, session, sending.verb, user)
}

// ---- several targets

/// Sends it to a target.
fn send_to(
    tx: &mut Transaction,
    session: SessionId,
    sending: &Sending<'_>,
    target: &Octets,
) -> Result<(), AllocError>
    requires { tx.old.facts ≡ tx.old.base }
    ensures { OnOk result (tx.new ≡ grown tx.old
        (to_one tx.old.settings tx.old.facts session sending.now target.now)) }
{
    if names_channel(target.as_slice()) {
        return send_to_channel(tx, session, sending, target);
    }
    send_to_user(tx, session, sending, target)
}

/// Sends it to each target in turn.
fn send_to_each(
    tx: &mut Transaction,
    session: SessionId,
    sending: &Sending<'_>,
    targets: &[Octets],
) -> Result<(), AllocError>
    requires { tx.old.facts ≡ tx.old.base }
    ensures { OnOk result (tx.new ≡ grown tx.old
        (flat_map (to_one tx.old.settings tx.old.facts session sending.now) targets.now)) }
{
    for target in targets {
        send_to(tx, session, sending, target)?;
    }
    Ok(())
}

/// Sends a text or tags to users and channels, in turn, or to nobody where more than four are named. A session may
/// speak on a channel where it has a rank, or where neither a mode nor a ban bars it. TAGMSG reaches those alone who
/// take tags.
pub fn send(
    tx: &mut Transaction,
    session: SessionId,
    sending: &Sending<'_>,
    targets: &[Octets],
) -> Result<(), AllocError>
    requires { tx.old.facts ≡ tx.old.base }
    ensures { OnOk result (tx.new ≡ grown tx.old
        (sends tx.old.settings tx.old.facts session sending.now targets.now)) }
{
    if targets.len() > MAX_TARGETS {
        let fifth = &targets[MAX_TARGETS];
        return refuse(tx, session, sending.verb, Denial::TooManyTargets, fifth);
    }
    send_to_each(tx, session, sending, targets)
}
