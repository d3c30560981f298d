//! WHOIS (RFC 2812, section 3.6.2).
ghost use Rattle.std.specs.Prelude.{◌≡◌, ◌∷◌, ◌++◌, [], map, option_copied, IfOk, OnOk};
ghost use Rattle.std.specs.List.{flat_map};
ghost use Rattle.numerics.specs.declared.numeric.Numeric.TheVariants.{EndOfWhois, NoSuchNick};
ghost use Rattle.numerics.specs.declared.numeric.Numeric.TheVariants.{WhoisChannels, WhoisServer};
ghost use Rattle.roster.specs.LookBack.{nick};
ghost use Rattle.transactions.specs.Words.{title};
ghost use Rattle.command_params.specs.Params.{IsRead};
ghost use Rattle.query_commands.specs.Visible.{channel_for};
ghost use Rattle.query_commands.specs.Telling.{telling_more};
ghost use Rattle.query_commands.specs.Whois.{away_told, channel_titles, channels_room, channels_told, nick_asked};
ghost use Rattle.query_commands.specs.Whois.{title_seen, user_line, user_told, whois_asked, whois_query};

use crate::Query;
use crate::names::{rank_of, room_of};
use crate::reply_builder::ReplyBuilder;
use crate::visible::channel_for;
use crate::who::real_of;
use chronicle::SessionId;
use command_params::ReadFault;
use line_grammar::{LineParameters, Octets, OctetsList};
use numerics::{Numeric, split_names, with_prefix};
use roster::Roster;
use std::alloc::{AllocError, Global};
use transactions::{Transaction, title_of};

/// The nickname that is asked for: of two parameters the second.
fn nick_asked<'a>(params: &LineParameters<'a>) -> &'a [u8]
    ensures { result.now ≡ nick_asked params.now }
{
    let Some((first, others)) = params.split_first() else {
        return &[];
    };
    match others.split_first() {
        Some((second, _)) => second,
        None => first,
    }
}

/// What WHOIS asks for.
pub fn read_whois(alloc: Global, params: &LineParameters<'_>) -> Result<Query, ReadFault>
    ensures { IsRead (whois_query params.now) result }
{
    let nick = nick_asked(params);
    if nick.is_empty() {
        return Err(ReadFault::NoNicknameGiven);
    }
    let nick = Octets::copy_of(alloc, nick)?;
    Ok(Query::Whois { nick })
}

/// Adds a channel's name, as it was first spelled, with the mark of a user's rank there, where the session sees the
/// channel.
fn push_title(
    alloc: Global,
    roster: &Roster,
    titles: &mut Vec<Octets>,
    session: SessionId,
    user: SessionId,
    channel: &Octets,
) -> Result<(), AllocError>
    ensures { OnOk result (titles.new.items
        ≡ titles.old.items ++ title_seen user (channel_for roster.now.facts session channel.now)) }
{
    if let Some(listed) = channel_for(roster, session, channel.as_slice()) {
        let mark = rank_of(listed.state, user);
        titles.push(with_prefix(alloc, mark, listed.name.as_slice())?)?;
    }
    Ok(())
}

/// Adds the channels of a list, in its order.
fn push_titles(
    alloc: Global,
    roster: &Roster,
    titles: &mut Vec<Octets>,
    session: SessionId,
    user: SessionId,
    channels: &[Octets],
) -> Result<(), AllocError>
    ensures { OnOk result (titles.new.items ≡ titles.old.items ++ flat_map
        (λ c. title_seen user (channel_for roster.now.facts session c)) channels.now) }
{
    for channel in channels {
        push_title(alloc, roster, titles, session, user, channel)?;
    }
    Ok(())
}

/// The channels of a user that a session sees, by the user's last join of each.
fn titles_of(
    alloc: Global,
    roster: &Roster,
    session: SessionId,
    user: SessionId,
) -> Result<Vec<Octets>, AllocError>
    ensures { IfOk result (λ v. v.items ≡ channel_titles roster.now.facts session user) }
{
    let mut titles = Vec::new(alloc);
    let channels = roster.channels_of(user);
    push_titles(alloc, roster, &mut titles, session, user, channels)?;
    Ok(titles)
}

/// How many octets of channels a line has room for.
fn channels_room(
    tx: &Transaction<'_>,
    session: SessionId,
    nick: &Octets,
) -> Result<usize, AllocError>
    ensures { IfOk result
        (λ n. n ≡ channels_room tx.now.settings tx.now.base session nick.now) }
{
    let alloc = tx.alloc();
    let to = title_of(alloc, tx.before().nick_of(session))?;
    let server = tx.before().settings().server.as_slice();
    let nick = nick.clone()?;
    let channels = OctetsList::from_vec(Vec::new(alloc));
    let numeric = Numeric::WhoisChannels { nick, channels };
    room_of(alloc, server, to.as_slice(), &numeric)
}

/// Adds a numeric for each line of channels.
#[tactic(auto, using(crate::proofs::Told::more_more))]
fn push_lines(
    telling: &mut ReplyBuilder<'_>,
    nick: &Octets,
    lines: Vec<OctetsList>,
) -> Result<(), AllocError>
    ensures { OnOk result
        (telling.new ≡ telling_more telling.old (map (WhoisChannels nick.now) lines.items)) }
{
    for channels in lines {
        let nick = nick.clone()?;
        telling.push(Numeric::WhoisChannels { nick, channels })?;
    }
    Ok(())
}

/// Adds the channels of a user that a session sees, in as few lines as their order allows.
fn push_channels(
    tx: &Transaction<'_>,
    telling: &mut ReplyBuilder<'_>,
    session: SessionId,
    user: SessionId,
    nick: &Octets,
) -> Result<(), AllocError>
    ensures { OnOk result (telling.new ≡ telling_more telling.old
        (channels_told tx.now.settings tx.now.base session user nick.now)) }
{
    let room = channels_room(tx, session, nick)?;
    let titles = titles_of(tx.alloc(), tx.before(), session, user)?;
    let lines = split_names(tx.alloc(), titles, room)?;
    push_lines(telling, nick, lines)
}

/// Adds who a user is.
fn push_user(
    alloc: Global,
    roster: &Roster,
    telling: &mut ReplyBuilder<'_>,
    user: SessionId,
    nick: &Octets,
) -> Result<(), AllocError>
    ensures { OnOk result
        (telling.new ≡ telling_more telling.old (user_line roster.now.facts user nick.now ∷ [])) }
{
    let nick = nick.clone()?;
    let host = Octets::copy_of(alloc, roster.host_of(user))?;
    let real = real_of(alloc, roster.real_of(user))?;
    let user = title_of(alloc, roster.user_of(user))?;
    telling.push(Numeric::WhoisUser {
        nick,
        user,
        host,
        real,
    })
}

/// Adds that a user is away, where it is.
fn push_away(
    telling: &mut ReplyBuilder<'_>,
    nick: &Octets,
    away: Option<&Octets>,
) -> Result<(), AllocError>
    ensures { OnOk result
        (telling.new ≡ telling_more telling.old (away_told nick.now (option_copied away.entry))) }
{
    if let Some(text) = away {
        let nick = nick.clone()?;
        let text = text.clone()?;
        telling.push(Numeric::Away { nick, text })?;
    }
    Ok(())
}

/// Adds which server a user is on.
fn push_server(
    telling: &mut ReplyBuilder<'_>,
    nick: &Octets,
    info: &Octets,
) -> Result<(), AllocError>
    ensures { OnOk result
        (telling.new ≡ telling_more telling.old (WhoisServer nick.now info.now ∷ [])) }
{
    let nick = nick.clone()?;
    let info = info.clone()?;
    telling.push(Numeric::WhoisServer { nick, info })
}

/// Adds that no more is told of a nickname.
fn push_end(telling: &mut ReplyBuilder<'_>, nick: &Octets) -> Result<(), AllocError>
    ensures { OnOk result (telling.new ≡ telling_more telling.old (EndOfWhois nick.now ∷ [])) }
{
    telling.push(Numeric::EndOfWhois(nick.clone()?))
}

/// Adds what a session is told of a user.
#[tactic(auto, using(crate::proofs::Told::more_more))]
fn push_found(
    tx: &Transaction<'_>,
    telling: &mut ReplyBuilder<'_>,
    session: SessionId,
    user: SessionId,
) -> Result<(), AllocError>
    ensures { OnOk result (telling.new ≡ telling_more telling.old (user_told tx.now.settings
        tx.now.base session user (title (nick tx.now.base user)))) }
{
    let alloc = tx.alloc();
    let roster = tx.before();
    let nick = title_of(alloc, roster.nick_of(user))?;
    push_user(alloc, roster, telling, user, &nick)?;
    push_channels(tx, telling, session, user, &nick)?;
    push_server(telling, &nick, &roster.settings().info)?;
    push_away(telling, &nick, roster.away_of(user))?;
    push_end(telling, &nick)
}

/// Adds what a session is told of a nickname that no user has.
#[tactic(auto, using(crate::proofs::Told::more_more))]
fn push_nobody(telling: &mut ReplyBuilder<'_>, nick: &Octets) -> Result<(), AllocError>
    ensures { OnOk result
        (telling.new ≡ telling_more telling.old (NoSuchNick nick.now ∷ EndOfWhois nick.now ∷ [])) }
{
    telling.push(Numeric::NoSuchNick(nick.clone()?))?;
    push_end(telling, nick)
}

/// WHOIS: who has a nickname, with the channels that the session is let see.
pub(crate) fn answer(
    tx: &Transaction<'_>,
    telling: &mut ReplyBuilder<'_>,
    session: SessionId,
    nick: &Octets,
) -> Result<(), AllocError>
    ensures { OnOk result (telling.new ≡ telling_more telling.old
        (whois_asked tx.now.settings tx.now.base session nick.now)) }
{
    match tx.before().find(nick.as_slice()) {
        Some(user) => push_found(tx, telling, session, user),
        None => push_nobody(telling, nick),
    }
}
