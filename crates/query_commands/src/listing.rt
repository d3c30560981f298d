//! LIST (RFC 2812, section 3.2.6).
ghost use Rattle.std.specs.Prelude.{◌≡◌, [], slice_get, unwrap_or, option_copied, Some, IfOk, OnOk};
ghost use Rattle.std.specs.List.{flat_map};
ghost use Rattle.roster.specs.LookBack.{channels as all_channels};
ghost use Rattle.command_params.specs.Params.{IsRead};
ghost use Rattle.query_commands.specs.Visible.{of_one, seen_by};
ghost use Rattle.query_commands.specs.Telling.{telling_more};
ghost use Rattle.query_commands.specs.Listing.{channels_asked, list_query, list_told, listed_seen, lists_told};

use crate::Query;
use crate::each_item::{AnswersEach, tell_of_each};
use crate::reply_builder::ReplyBuilder;
use crate::visible::sees;
use channel_state::ChannelState;
use chronicle::SessionId;
use command_params::{ReadFault, read_list_given};
use line_grammar::{LineParameters, Octets, OctetsList};
use numerics::Numeric;
use roster::Roster;
use std::alloc::{AllocError, Global};
use transactions::Transaction;

/// What LIST asks for.
pub fn read_list(alloc: Global, params: &LineParameters<'_>) -> Result<Query, ReadFault>
    ensures { IsRead (list_query params.now) result }
{
    let channels = read_list_given(alloc, params)?;
    Ok(Query::List { channels })
}

/// A topic, empty where there is none.
fn topic_of(alloc: Global, topic: Option<&Octets>) -> Result<Octets, AllocError>
    ensures { IfOk result (λ t. t ≡ unwrap_or (option_copied topic.entry) []) }
{
    match topic {
        Some(topic) => topic.clone(),
        None => Octets::copy_of(alloc, b""),
    }
}

/// Adds a channel, where the session sees it.
fn push_seen(
    alloc: Global,
    telling: &mut ReplyBuilder<'_>,
    session: SessionId,
    name: &Octets,
    state: &ChannelState,
) -> Result<(), AllocError>
    ensures { OnOk result (telling.new ≡ telling_more telling.old (listed_seen
        (seen_by session (Some (record { name = name.now; state = state.now.state }))))) }
{
    if !sees(session, state) {
        return Ok(());
    }
    let topic = topic_of(alloc, state.topic())?;
    let channel = name.clone()?;
    let members = state.members().len();
    telling.push(Numeric::ListReply {
        channel,
        members,
        topic,
    })
}

/// The channels of given names, as a session sees them.
#[derive(Clone, Copy)]
struct GivenChannels<'a> {
    alloc: Global,
    roster: &'a Roster,
    session: SessionId,
}

impl AnswersEach<Octets> for GivenChannels<'_> {
    ghost use Rattle.query_commands.specs.Listing.{list_told};

    ghost told_of = { λ given channel. list_told given.roster.now.facts given.session channel };

    #[tactic(auto, unfolding(crate::specs::Visible::channel_for))]
    fn tell_of(&self, telling: &mut ReplyBuilder<'_>, channel: &Octets) -> Result<(), AllocError> {
        match self.roster.channel(channel.as_slice()) {
            Some((name, state)) => push_seen(self.alloc, telling, self.session, name, state),
            None => Ok(()),
        }
    }
}

/// Adds the channel at a place, from 0, in the order of making.
fn push_at(
    alloc: Global,
    roster: &Roster,
    telling: &mut ReplyBuilder<'_>,
    session: SessionId,
    place: usize,
) -> Result<(), AllocError>
    ensures { OnOk result (telling.new ≡ telling_more telling.old (of_one
        (list_told roster.now.facts session) (slice_get (all_channels roster.now.facts) place))) }
{
    let Some((name, state)) = roster.nth_channel(place) else {
        return Ok(());
    };
    push_seen(alloc, telling, session, name, state)?;
    Ok(())
}

/// Adds all channels, in the order of making.
fn push_all(
    alloc: Global,
    roster: &Roster,
    telling: &mut ReplyBuilder<'_>,
    session: SessionId,
) -> Result<(), AllocError>
    ensures { OnOk result (telling.new ≡ telling_more telling.old
        (flat_map (list_told roster.now.facts session) (all_channels roster.now.facts))) }
{
    telling.reserve(roster.channel_count())?;
    for place in 0..roster.channel_count() {
        push_at(alloc, roster, telling, session, place)?;
    }
    Ok(())
}

/// LIST: the channels of a list, or all, as far as the session is let see.
#[tactic(auto, using(crate::proofs::Told::more_more))]
pub(crate) fn answer(
    tx: &Transaction<'_>,
    telling: &mut ReplyBuilder<'_>,
    session: SessionId,
    channels: &Option<OctetsList>,
) -> Result<(), AllocError>
    ensures { OnOk result (telling.new ≡ telling_more telling.old
        (lists_told tx.now.base session (channels_asked tx.now.base channels.now))) }
{
    let (alloc, roster) = (tx.alloc(), tx.before());
    match channels {
        Some(channels) => {
            let given = GivenChannels {
                alloc,
                roster,
                session,
            };
            tell_of_each(&given, telling, channels.as_slice())?
        }
        None => push_all(alloc, roster, telling, session)?,
    }
    telling.push(Numeric::ListEnd)
}
