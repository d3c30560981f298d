//! NAMES, and who is on a channel as JOIN tells it (RFC 2812, section 3.2.5).
ghost use Rattle.std.specs.Prelude.{◌≡◌, true, map, IfOk, OnOk};
ghost use Rattle.std.specs.List.{flat_map};
ghost use Rattle.numerics.specs.Numerics.{numeric as numeric_line};
ghost use Rattle.numerics.specs.Outgoing.{room};
ghost use Rattle.channel_state.specs.State.{among};
ghost use Rattle.command_params.specs.Params.{IsRead};
ghost use Rattle.query_commands.specs.Telling.{telling_more};
ghost use Rattle.query_commands.specs.Names.{rank_of, member_name, names_room, name_lines, all_told};
ghost use Rattle.query_commands.specs.Names.{names_told, with_members, names_of, names_asked, names_query};

use crate::Query;
use crate::each_item::{AnswersEach, tell_of_each};
use crate::name_line::{MemberName, NameLine};
use crate::reply_builder::ReplyBuilder;
use crate::visible::{Listed, channel_for, members_for};
use channel_state::ChannelState;
use chronicle::SessionId;
use command_params::{ReadFault, read_list_given};
use line_grammar::{LineParameters, Octets, OctetsList};
use numerics::{Numeric, Prefix};
use roster::Roster;
use std::alloc::{AllocError, Global};
use std::mem::replace;
use transactions::{Transaction, title_of, title_text};

/// What NAMES asks for.
pub fn read_names(alloc: Global, params: &LineParameters<'_>) -> Result<Query, ReadFault>
    ensures { IsRead (names_query params.now) result }
{
    let channels = read_list_given(alloc, params)?;
    Ok(Query::Names { channels })
}

/// The higher of a member's ranks.
pub(crate) fn rank_of(state: &ChannelState, member: SessionId) -> Option<Prefix>
    ensures { result ≡ rank_of state.now.state member }
{
    if state.is_operator(member) {
        return Some(Prefix::Operator);
    }
    if state.has_voice(member) {
        return Some(Prefix::Voice);
    }
    None
}

/// A member's nickname, with the mark of its rank.
#[tactic(auto, unfolding(crate::specs::Names::member_name))]
fn member_name<'a>(roster: &'a Roster, state: &ChannelState, member: SessionId) -> MemberName<'a>
    ensures { result ≡ member_name roster.now.facts state.now.state member }
{
    MemberName {
        rank: rank_of(state, member),
        nick: title_text(roster.nick_of(member)),
    }
}

/// How many octets more the line of a numeric may have.
pub(crate) fn room_of(
    alloc: Global,
    server: &[u8],
    to: &[u8],
    numeric: &Numeric,
) -> Result<usize, AllocError>
    ensures { IfOk result (λ n. n ≡ room (numeric_line server.now to.now numeric.now)) }
{
    Ok(numeric.line(alloc, server, to)?.room())
}

/// How many octets of names a line has room for.
fn names_room(
    tx: &Transaction<'_>,
    session: SessionId,
    listed: &Listed<'_>,
) -> Result<usize, AllocError>
    ensures { IfOk result
        (λ n. n ≡ names_room tx.now.settings tx.now.base session listed.now) }
{
    let alloc = tx.alloc();
    let to = title_of(alloc, tx.before().nick_of(session))?;
    let server = tx.before().settings().server.as_slice();
    let secret = listed.state.modes().secret;
    let channel = listed.name.clone()?;
    let names = OctetsList::from_vec(Vec::new(alloc));
    let numeric = Numeric::NamReply {
        secret,
        channel,
        names,
    };
    room_of(alloc, server, to.as_slice(), &numeric)
}

/// Adds the names of members in as few lines as their order allows.
fn push_names(
    alloc: Global,
    telling: &mut ReplyBuilder<'_>,
    roster: &Roster,
    listed: &Listed<'_>,
    members: &[SessionId],
    room: usize,
) -> Result<(), AllocError>
    ensures { OnOk result (telling.new ≡ telling_more telling.old (name_lines listed.now room
        (map (member_name roster.now.facts listed.now.state) members.now))) }
{
    let Some((first, rest)) = members.split_first() else {
        return Ok(());
    };
    let secret = listed.state.modes().secret;
    let mut line = NameLine::new(alloc, room, &member_name(roster, listed.state, *first))?;
    for member in rest {
        let name = member_name(roster, listed.state, *member);
        if line.takes(&name, room) {
            line = line.with(&name)?;
        } else {
            let next = NameLine::new(alloc, room, &name)?;
            telling.push_names(secret, listed.name, replace(&mut line, next))?;
        }
    }
    telling.push_names(secret, listed.name, line)
}

/// Adds the names of members of a channel, and that they are all.
#[tactic(auto, using(crate::proofs::Told::more_more))]
fn push_all(
    tx: &Transaction<'_>,
    telling: &mut ReplyBuilder<'_>,
    session: SessionId,
    listed: &Listed<'_>,
    members: &[SessionId],
) -> Result<(), AllocError>
    ensures { OnOk result (telling.new ≡ telling_more telling.old
        (all_told tx.now.settings tx.now.base session listed.now
        (map (member_name tx.now.base listed.now.state) members.now))) }
{
    let room = names_room(tx, session, listed)?;
    push_names(tx.alloc(), telling, tx.before(), listed, members, room)?;
    let channel = listed.name.clone()?;
    telling.push(Numeric::EndOfNames(channel))
}

/// Adds who is on a channel that a session sees.
fn push_listed(
    tx: &Transaction<'_>,
    telling: &mut ReplyBuilder<'_>,
    session: SessionId,
    listed: &Listed<'_>,
) -> Result<(), AllocError>
    ensures { OnOk result (telling.new ≡ telling_more telling.old
        (names_told tx.now.settings tx.now.base session listed.now)) }
{
    let members = members_for(tx.alloc(), tx.before(), session, listed.state)?;
    push_all(tx, telling, session, listed, members.as_slice())
}

/// Adds who is on a channel, as a session that is one of them is told: 353 in as few lines as fit, and 366. The
/// channel is this one but for its members. Nicknames are those before the record.
pub fn push_members(
    tx: &Transaction<'_>,
    telling: &mut ReplyBuilder<'_>,
    session: SessionId,
    name: &Octets,
    state: &ChannelState,
    members: &[SessionId],
) -> Result<(), AllocError>
    requires { among session members.now ≡ true }
    ensures { OnOk result (telling.new ≡ telling_more telling.old (names_told tx.now.settings
        tx.now.base session (with_members name.now state.now.state members.now))) }
{
    push_all(tx, telling, session, &Listed { name, state }, members)
}

/// Whom a session is told of, who asks for them by the names of channels.
#[derive(Clone, Copy)]
struct Asking<'a, 'b> {
    tx: &'a Transaction<'b>,
    session: SessionId,
}

impl AnswersEach<Octets> for Asking<'_, '_> {
    ghost use Rattle.query_commands.specs.Names.{names_of};

    ghost told_of = { λ asking channel. names_of asking.tx.now.settings asking.tx.now.base
        asking.session channel };

    fn tell_of(&self, telling: &mut ReplyBuilder<'_>, channel: &Octets) -> Result<(), AllocError> {
        match channel_for(self.tx.before(), self.session, channel.as_slice()) {
            Some(listed) => push_listed(self.tx, telling, self.session, &listed),
            None => {
                let channel = channel.clone()?;
                telling.push(Numeric::EndOfNames(channel))
            }
        }
    }
}

/// NAMES: who is on each channel of a list, as far as the session is let see.
pub(crate) fn answer(
    tx: &Transaction<'_>,
    telling: &mut ReplyBuilder<'_>,
    session: SessionId,
    channels: &Option<OctetsList>,
) -> Result<(), AllocError>
    ensures { OnOk result (telling.new ≡ telling_more telling.old
        (names_asked tx.now.settings tx.now.base session channels.now)) }
{
    match channels {
        Some(channels) => tell_of_each(&Asking { tx, session }, telling, channels.as_slice()),
        None => telling.push(Numeric::EndOfNames(Octets::copy_of(tx.alloc(), b"*")?)),
    }
}
