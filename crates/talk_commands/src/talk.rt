//! The commands that send texts: how each is read, and what it does (RFC 2812, sections 3.3.1, 3.3.2 and
//! 4.1; IRCv3 message-tags).
ghost use Rattle.std.specs.Prelude.{◌≡◌, true, IfOk, OnOk};
ghost use Rattle.line_grammar.specs.Parts.{is_present};
ghost use Rattle.roster.specs.Legal.{IsOpened};
ghost use Rattle.transactions.specs.Words.{grown};
ghost use Rattle.command_params.specs.Lists.{names_of};
ghost use Rattle.command_params.specs.Params.{IsRead};
ghost use Rattle.talk_commands.specs.declared.talk.TalkCommand.TheVariants.{Send};
ghost use Rattle.talk_commands.specs.Talk.{is_unanswered, serves_talk};
ghost use Rattle.talk_commands.specs.Talk.{privmsg_command, notice_command, tagmsg_command};
ghost use Rattle.talk_commands.specs.Talk.{away_command, client_tags, second_or_empty};

use crate::{Sending, Verb, go_away, send};
use chronicle::SessionId;
use command_params::{CommandName, ReadFault, first, into_first, read_names};
use line_grammar::{LineMessage, LineParameters, Octets, OctetsList, split_first};
use message_tags::{client_only, tags_of};
use std::alloc::{AllocError, Global};
use transactions::Transaction;

/// What is sent, and whether somebody is there to be sent it. Names and texts are as given. A list of names has no
/// empty one, and none that repeats another in either case.
#[derive(Drop)]
pub enum TalkCommand {
    /// A text, which isn't empty, for users and channels (sections 3.3.1 and 3.3.2), or tags alone, where `text` is
    /// `None` (IRCv3 message-tags). NOTICE is for nobody where its targets or its text were missing or empty.
    Send {
        verb: Verb,
        targets: OctetsList,
        text: Option<Octets>,
        tags: Octets,
    },
    /// To be away with this text, or here again where it is empty (section 4.1).
    Away {
        text: Octets,
    },
}

/// The second parameter. Empty where there is none.
fn second<'a>(params: &LineParameters<'a>) -> &'a [u8]
    ensures { result.now ≡ second_or_empty params.now }
{
    match params.split_first() {
        Some((_, params)) => first(&params),
        None => &[],
    }
}

/// The tags that are passed on.
#[tactic(auto, using(crate::proofs::Relayed::none_relayed))]
fn client_only_tags(alloc: Global, tag_data: &[u8]) -> Result<Octets, AllocError>
    ensures { IfOk result (λ t. t ≡ client_tags tag_data.now) }
{
    if tag_data.is_empty() {
        return Ok(Octets::from_vec(Vec::new(alloc)));
    }
    let tags = tags_of(alloc, tag_data)?;
    client_only(alloc, &tags)
}

/// The names of a list that isn't empty. Where it has no comma it is kept as the one name.
#[tactic(auto, using(crate::proofs::OneName::one_name))]
fn names_in(alloc: Global, list: Octets) -> Result<OctetsList, AllocError>
    requires { is_present list ≡ true }
    ensures { IfOk result (λ names. names ≡ names_of list) }
{
    if let (_, Some(_)) = split_first(list.as_slice(), b',') {
        return read_names(alloc, list.as_slice());
    }
    let mut names = Vec::with_capacity(alloc, 1)?;
    names.push(list)?;
    Ok(OctetsList::from_vec(names))
}

/// What is sent to those whom a list names, which isn't empty.
fn new_send(
    alloc: Global,
    verb: Verb,
    list: Octets,
    text: Option<Octets>,
    tag_data: &[u8],
) -> Result<TalkCommand, AllocError>
    requires { is_present list ≡ true }
    ensures { IfOk result (λ k. k ≡ Send verb (names_of list) text (client_tags tag_data.now)) }
{
    let targets = names_in(alloc, list)?;
    let tags = client_only_tags(alloc, tag_data)?;
    Ok(TalkCommand::Send {
        verb,
        targets,
        text,
        tags,
    })
}

/// What PRIVMSG asks for (RFC 2812, section 3.3.1).
pub fn read_privmsg(alloc: Global, message: LineMessage<'_>) -> Result<TalkCommand, ReadFault>
    ensures { IsRead (privmsg_command message.entry.tags message.entry.params) result }
{
    let (tag_data, params) = (message.tags(), message.params());
    let list = into_first(alloc, message);
    if list.is_empty() {
        return Err(ReadFault::NoRecipient {
            command: CommandName::Privmsg,
        });
    }
    let text = second(&params);
    if text.is_empty() {
        return Err(ReadFault::NoTextToSend);
    }
    let text = Octets::copy_of(alloc, text)?;
    Ok(new_send(alloc, Verb::Privmsg, list, Some(text), tag_data)?)
}

/// What NOTICE asks for (section 3.3.2).
pub fn read_notice(alloc: Global, message: LineMessage<'_>) -> Result<TalkCommand, ReadFault>
    ensures { IsRead (notice_command message.entry.tags message.entry.params) result }
{
    let (tag_data, params) = (message.tags(), message.params());
    let list = into_first(alloc, message);
    let text = second(&params);
    if list.is_empty() || text.is_empty() {
        return Ok(TalkCommand::Send {
            verb: Verb::Notice,
            targets: OctetsList::from_vec(Vec::new(alloc)),
            text: Some(Octets::from_vec(Vec::new(alloc))),
            tags: Octets::from_vec(Vec::new(alloc)),
        });
    }
    let text = Octets::copy_of(alloc, text)?;
    Ok(new_send(alloc, Verb::Notice, list, Some(text), tag_data)?)
}

/// What TAGMSG asks for (IRCv3 message-tags).
pub fn read_tagmsg(alloc: Global, message: LineMessage<'_>) -> Result<TalkCommand, ReadFault>
    ensures { IsRead (tagmsg_command message.entry.tags message.entry.params) result }
{
    let tag_data = message.tags();
    let list = into_first(alloc, message);
    if list.is_empty() {
        return Err(ReadFault::NoRecipient {
            command: CommandName::Tagmsg,
        });
    }
    Ok(new_send(alloc, Verb::Tagmsg, list, None, tag_data)?)
}

/// What AWAY asks for (RFC 2812, section 4.1).
pub fn read_away(alloc: Global, params: &LineParameters<'_>) -> Result<TalkCommand, ReadFault>
    ensures { IsRead (away_command params.now) result }
{
    let text = Octets::copy_of(alloc, first(params))?;
    Ok(TalkCommand::Away { text })
}

/// Does what a command asks for that sends something.
pub fn serve_talk(
    tx: &mut Transaction,
    session: SessionId,
    command: &TalkCommand,
) -> Result<(), AllocError>
    requires opened { IsOpened tx.old.facts session }
    requires first { tx.old.facts ≡ tx.old.base }
    ensures { OnOk result (tx.new
        ≡ grown tx.old (serves_talk tx.old.settings tx.old.facts session command.now)) }
{
    match command {
        TalkCommand::Send {
            verb,
            targets,
            text,
            tags,
        } => {
            let sending = Sending {
                verb: *verb,
                text: text.as_ref(),
                tags,
            };
            send(tx, session, &sending, targets.as_slice())
        }
        TalkCommand::Away { text } => go_away(tx, session, text),
    }
}

/// Whether nothing answers a command in any case.
pub fn is_unanswered(command: &TalkCommand) -> bool
    ensures { result ≡ is_unanswered command.now }
{
    match command {
        TalkCommand::Send { verb, .. } => match verb {
            Verb::Notice => true,
            Verb::Privmsg | Verb::Tagmsg => false,
        },
        TalkCommand::Away { .. } => false,
    }
}
