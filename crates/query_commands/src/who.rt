//! WHO (RFC 2812, section 3.6.1).
ghost use Rattle.std.specs.Prelude.{◌≡◌, ◌∷◌, [], map, unwrap_or, option_copied, Some, IfOk, OnOk};
ghost use Rattle.numerics.specs.declared.numeric.Numeric.TheVariants.{WhoReply, EndOfWho};
ghost use Rattle.command_params.specs.Params.{IsRead};
ghost use Rattle.query_commands.specs.Telling.{telling_more};
ghost use Rattle.query_commands.specs.Who.{who_asked, who_of, who_query, who_seen};

use crate::Query;
use crate::each_item::{AnswersEach, tell_of_each};
use crate::names::rank_of;
use crate::reply_builder::ReplyBuilder;
use crate::visible::{Listed, channel_for, members_for};
use chronicle::SessionId;
use command_params::{ReadFault, copy_first};
use line_grammar::{LineParameters, Octets};
use numerics::{Numeric, Who};
use roster::Roster;
use std::alloc::{AllocError, Global};
use transactions::{Transaction, title_of};

/// What WHO asks for.
pub fn read_who(alloc: Global, params: &LineParameters<'_>) -> Result<Query, ReadFault>
    ensures { IsRead (who_query params.now) result }
{
    let name = copy_first(alloc, params)?;
    Ok(Query::Who { name })
}

/// A real name, empty where there is none.
pub(crate) fn real_of(alloc: Global, real: Option<&Octets>) -> Result<Octets, AllocError>
    ensures { IfOk result (λ t. t ≡ unwrap_or (option_copied real.entry) []) }
{
    match real {
        Some(real) => real.clone(),
        None => Octets::copy_of(alloc, b""),
    }
}

/// A member of a channel.
fn who_of(
    alloc: Global,
    roster: &Roster,
    listed: &Listed<'_>,
    member: SessionId,
) -> Result<Who, AllocError>
    ensures { IfOk result (λ w. w ≡ who_of roster.now.facts listed.now member) }
{
    let channel = listed.name.clone()?;
    let user = title_of(alloc, roster.user_of(member))?;
    let host = Octets::copy_of(alloc, roster.host_of(member))?;
    let nick = title_of(alloc, roster.nick_of(member))?;
    let real = real_of(alloc, roster.real_of(member))?;
    Ok(Who {
        channel,
        user,
        host,
        nick,
        away: roster.away_of(member).is_some(),
        prefix: rank_of(listed.state, member),
        real,
    })
}

/// Members of a channel.
#[derive(Clone, Copy)]
struct ChannelMembers<'a, 'b> {
    alloc: Global,
    roster: &'a Roster,
    listed: &'a Listed<'b>,
}

impl AnswersEach<SessionId> for ChannelMembers<'_, '_> {
    ghost use Rattle.std.specs.Prelude.{◌∷◌, []};
    ghost use Rattle.numerics.specs.declared.numeric.Numeric.TheVariants.{WhoReply};
    ghost use Rattle.query_commands.specs.Who.{who_of};

    ghost told_of = { λ of member. WhoReply (who_of of.roster.now.facts of.listed.now member)
        ∷ [] };

    fn tell_of(
        &self,
        telling: &mut ReplyBuilder<'_>,
        member: &SessionId,
    ) -> Result<(), AllocError> {
        let who = who_of(self.alloc, self.roster, self.listed, *member)?;
        telling.push(Numeric::WhoReply(who))
    }
}

/// Adds members of a channel, in order.
#[tactic(auto, using(std::proofs::lemmas::List::Concat::flat_map_single))]
fn push_members(
    alloc: Global,
    roster: &Roster,
    telling: &mut ReplyBuilder<'_>,
    listed: &Listed<'_>,
    members: &[SessionId],
) -> Result<(), AllocError>
    ensures { OnOk result (telling.new ≡ telling_more telling.old
        (map (λ t. WhoReply (who_of roster.now.facts listed.now t)) members.now)) }
{
    telling.reserve(members.len())?;
    let of = ChannelMembers {
        alloc,
        roster,
        listed,
    };
    tell_of_each(&of, telling, members)
}

/// Adds what a session is told of a channel that it sees.
#[tactic(auto, using(crate::proofs::Told::more_more))]
fn push_listed(
    alloc: Global,
    roster: &Roster,
    telling: &mut ReplyBuilder<'_>,
    session: SessionId,
    listed: &Listed<'_>,
) -> Result<(), AllocError>
    ensures { OnOk result (telling.new
        ≡ telling_more telling.old (who_seen roster.now.facts session [] (Some listed.now))) }
{
    let members = members_for(alloc, roster, session, listed.state)?;
    push_members(alloc, roster, telling, listed, members.as_slice())?;
    telling.push(Numeric::EndOfWho(listed.name.clone()?))
}

/// Adds what a session is told of a name that is no channel it sees.
fn push_end(alloc: Global, telling: &mut ReplyBuilder<'_>, name: &[u8]) -> Result<(), AllocError>
    ensures { OnOk result (telling.new ≡ telling_more telling.old (EndOfWho name.now ∷ [])) }
{
    let name = Octets::copy_of(alloc, name)?;
    telling.push(Numeric::EndOfWho(name))
}

/// WHO: who is on a channel, as far as the session is let see.
pub(crate) fn answer(
    tx: &Transaction<'_>,
    telling: &mut ReplyBuilder<'_>,
    session: SessionId,
    name: &Option<Octets>,
) -> Result<(), AllocError>
    ensures { OnOk result
        (telling.new ≡ telling_more telling.old (who_asked tx.now.base session name.now)) }
{
    let (alloc, roster) = (tx.alloc(), tx.before());
    let Some(name) = name else {
        return push_end(alloc, telling, b"*");
    };
    match channel_for(roster, session, name.as_slice()) {
        Some(listed) => push_listed(alloc, roster, telling, session, &listed),
        None => push_end(alloc, telling, name.as_slice()),
    }
}
