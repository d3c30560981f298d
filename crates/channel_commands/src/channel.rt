//! The commands about channels: how each is read, and what it does (RFC 2812, sections 3.2.1, 3.2.2,
//! 3.2.4, 3.2.7 and 3.2.8).
ghost use Rattle.std.specs.Prelude.{◌≡◌, ◌∷◌, ◌≤◌, length, OnOk, MatchOption};
ghost use Rattle.roster.specs.Legal.{IsOpened};
ghost use Rattle.transactions.specs.Words.{grown};
ghost use Rattle.command_params.specs.Params.{IsRead};
ghost use Rattle.channel_commands.specs.Channel.{join_command};
ghost use Rattle.channel_commands.specs.Channel.{part_command, kick_command, invite_command};
ghost use Rattle.channel_commands.specs.Channel.{topic_command, serves_channel};

use crate::{invite, join, kick, part, set_topic};
use chronicle::SessionId;
use command_params::{
    CommandName, JoinTargets, ReadFault, copy_first, first, needs_more, read_names, read_targets,
};
use line_grammar::{LineParameters, Octets, OctetsList};
use std::alloc::{AllocError, Global};
use transactions::Transaction;

/// What is asked about channels. Names and texts are as given. A list of names has no empty one, and none that
/// repeats another in either case.
#[derive(Drop)]
pub enum ChannelCommand {
    /// To join channels (section 3.2.1).
    Join {
        targets: JoinTargets,
    },
    /// To leave channels, with a text that may be empty (section 3.2.2).
    Part {
        channels: OctetsList,
        text: Octets,
    },
    /// To put users out of a channel, with a text that may be empty (section 3.2.8).
    Kick {
        channel: Octets,
        nicks: OctetsList,
        text: Octets,
    },
    /// To invite a user to a channel (section 3.2.7).
    Invite {
        nick: Octets,
        channel: Octets,
    },
    /// The topic of a channel, or a new one, which may be empty (section 3.2.4).
    Topic {
        channel: Octets,
        text: Option<Octets>,
    },
}

/// The first two parameters, and those after them.
fn split_two<'a>(params: &LineParameters<'a>) -> Option<(&'a [u8], &'a [u8], LineParameters<'a>)>
    ensures { MatchOption result (length params.now ≤ 1)
        (λ p. params.now ≡ p.0.now ∷ p.1.now ∷ p.2) }
{
    let (first, params) = params.split_first()?;
    let (second, params) = params.split_first()?;
    Some((first, second, params))
}

/// What JOIN asks for (RFC 2812, section 3.2.1).
pub fn read_join(alloc: Global, params: &LineParameters<'_>) -> Result<ChannelCommand, ReadFault>
    ensures { IsRead (join_command params.now) result }
{
    let Some((list, params)) = params.split_first() else {
        return Err(needs_more(CommandName::Join));
    };
    let targets = read_targets(alloc, list, first(&params))?;
    Ok(ChannelCommand::Join { targets })
}

/// What PART asks for (section 3.2.2).
pub fn read_part(alloc: Global, params: &LineParameters<'_>) -> Result<ChannelCommand, ReadFault>
    ensures { IsRead (part_command params.now) result }
{
    let Some((list, params)) = params.split_first() else {
        return Err(needs_more(CommandName::Part));
    };
    let channels = read_names(alloc, list)?;
    let text = Octets::copy_of(alloc, first(&params))?;
    Ok(ChannelCommand::Part { channels, text })
}

/// What KICK asks for (section 3.2.8).
pub fn read_kick(alloc: Global, params: &LineParameters<'_>) -> Result<ChannelCommand, ReadFault>
    ensures { IsRead (kick_command params.now) result }
{
    let Some((channel, list, params)) = split_two(params) else {
        return Err(needs_more(CommandName::Kick));
    };
    let channel = Octets::copy_of(alloc, channel)?;
    let nicks = read_names(alloc, list)?;
    let text = Octets::copy_of(alloc, first(&params))?;
    Ok(ChannelCommand::Kick {
        channel,
        nicks,
        text,
    })
}

/// What INVITE asks for (section 3.2.7).
pub fn read_invite(alloc: Global, params: &LineParameters<'_>) -> Result<ChannelCommand, ReadFault>
    ensures { IsRead (invite_command params.now) result }
{
    let Some((nick, channel, _)) = split_two(params) else {
        return Err(needs_more(CommandName::Invite));
    };
    let nick = Octets::copy_of(alloc, nick)?;
    let channel = Octets::copy_of(alloc, channel)?;
    Ok(ChannelCommand::Invite { nick, channel })
}

/// What TOPIC asks for (section 3.2.4).
pub fn read_topic(alloc: Global, params: &LineParameters<'_>) -> Result<ChannelCommand, ReadFault>
    ensures { IsRead (topic_command params.now) result }
{
    let Some((channel, params)) = params.split_first() else {
        return Err(needs_more(CommandName::Topic));
    };
    let channel = Octets::copy_of(alloc, channel)?;
    let text = copy_first(alloc, &params)?;
    Ok(ChannelCommand::Topic { channel, text })
}

/// Does what a command about channels asks for.
pub fn serve_channel(
    tx: &mut Transaction,
    session: SessionId,
    command: &ChannelCommand,
) -> Result<(), AllocError>
    requires opened { IsOpened tx.old.facts session }
    requires first { tx.old.facts ≡ tx.old.base }
    ensures { OnOk result (tx.new
        ≡ grown tx.old (serves_channel tx.old.settings tx.old.facts session command.now)) }
{
    match command {
        ChannelCommand::Join { targets } => join(tx, session, targets.as_slice()),
        ChannelCommand::Part { channels, text } => part(tx, session, channels.as_slice(), text),
        ChannelCommand::Kick {
            channel,
            nicks,
            text,
        } => kick(tx, session, channel, nicks.as_slice(), text),
        ChannelCommand::Invite { nick, channel } => invite(tx, session, nick, channel),
        ChannelCommand::Topic { channel, text } => set_topic(tx, session, channel, text),
    }
}
