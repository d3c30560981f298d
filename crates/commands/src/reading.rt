//! What a message asks for.
ghost use Rattle.std.specs.Prelude.{◌≡◌, ◌⊎◌, IfOk, IfErr, IsErrOf, IsOk};
ghost use Rattle.command_params.specs.Params.{IsRead};
ghost use Rattle.commands.specs.Commands.{command_by, command_of};
ghost use Rattle.commands.specs.Named.{NoneIsMisnamed};

use crate::Command;
use channel_commands::{read_invite, read_join, read_kick, read_part, read_topic};
use command_params::{CommandName, ReadFault};
use line_grammar::LineMessage;
use mode_commands::read_mode;
use query_commands::{read_list, read_motd, read_names, read_who, read_whois};
use session_commands::{
    SessionCommand, read_authenticate, read_cap, read_nick, read_pass, read_ping, read_quit,
    read_user,
};
use std::alloc::Global;
use talk_commands::{read_away, read_notice, read_privmsg, read_tagmsg};

/// The table: what each command asks for by its message.
#[tactic(auto, unfolding(crate::specs::Commands::command_by))]
fn read_by(alloc: Global, name: CommandName, message: LineMessage<'_>) -> Result<Command, ReadFault>
    ensures { IsRead (command_by name message.entry) result }
{
    let params = message.params();
    match name {
        CommandName::Quit => Ok(Command::Session(read_quit(alloc, message)?)),
        CommandName::Ping => Ok(Command::Session(read_ping(alloc, message)?)),
        CommandName::Pong => Ok(Command::Session(SessionCommand::Pong)),
        CommandName::Privmsg => Ok(Command::Talk(read_privmsg(alloc, message)?)),
        CommandName::Notice => Ok(Command::Talk(read_notice(alloc, message)?)),
        CommandName::Tagmsg => Ok(Command::Talk(read_tagmsg(alloc, message)?)),
        CommandName::Away => Ok(Command::Talk(read_away(alloc, &params)?)),
        CommandName::Join => Ok(Command::Channel(read_join(alloc, &params)?)),
        CommandName::Part => Ok(Command::Channel(read_part(alloc, &params)?)),
        CommandName::Kick => Ok(Command::Channel(read_kick(alloc, &params)?)),
        CommandName::Invite => Ok(Command::Channel(read_invite(alloc, &params)?)),
        CommandName::Topic => Ok(Command::Channel(read_topic(alloc, &params)?)),
        CommandName::Mode => Ok(Command::Mode(read_mode(alloc, &params)?)),
        CommandName::Names => Ok(Command::Query(read_names(alloc, &params)?)),
        CommandName::List => Ok(Command::Query(read_list(alloc, &params)?)),
        CommandName::Who => Ok(Command::Query(read_who(alloc, &params)?)),
        CommandName::Whois => Ok(Command::Query(read_whois(alloc, &params)?)),
        CommandName::Motd => Ok(Command::Query(read_motd(alloc, &params)?)),
        CommandName::Cap => Ok(Command::Session(read_cap(alloc, message)?)),
        CommandName::Authenticate => Ok(Command::Session(read_authenticate(message)?)),
        CommandName::Pass => Ok(Command::Session(read_pass(&params)?)),
        CommandName::Nick => Ok(Command::Session(read_nick(alloc, message)?)),
        CommandName::User => Ok(Command::Session(read_user(alloc, &params)?)),
    }
}

/// What a message asks for, or the numeric that answers it by what it says alone. Names of commands are
/// taken in either case. Checks that look at anything else, as who has a nickname, aren't made here. Memory
/// is wanting only where there is no other fault.
#[tactic(auto, unfolding(crate::specs::Commands::command_of))]
pub fn read(alloc: Global, message: LineMessage<'_>) -> Result<Command, ReadFault>
    ensures ok { IfOk result (λ command. command_of message.entry ≡ Ok command) }
    ensures err { IfErr result
        (λ fault. (fault ≡ ReadFault.Memory) ⊎ (command_of message.entry ≡ Err fault)) }
    ensures memory { IsErrOf result ReadFault.Memory → IsOk (command_of message.entry) }
{
    match CommandName::read(message.command()) {
        Some(name) => read_by(alloc, name, message),
        None => Err(ReadFault::UnknownCommand {
            name: message.into_command(),
        }),
    }
}

/// That none is read by the name of another.
pub fn none_is_misnamed()
    ensures { NoneIsMisnamed }
{}
