//! What comes of a command.
ghost use Rattle.std.specs.Prelude.{◌≡◌, Some, None, option_copied, IfOk, OnOk};
ghost use Rattle.roster.specs.LookBack.{after, opened_in};
ghost use Rattle.roster.specs.Legal.{IsOpened, AreNext};
ghost use Rattle.transactions.specs.Words.{grown};
ghost use Rattle.deeds.specs.Rows.{if_allowed, fault_numeric, is_for_registered, is_silent};
ghost use Rattle.deeds.specs.Rows.{of_asked, of_command, tells_fault, by_itself, turned_away};
ghost use Rattle.transactions.specs.Verdicts.{IsVerdict};

use chronicle::{Moment, SessionId};
use command_params::ReadFault;
use commands::channel_commands::serve_channel;
use commands::mode_commands::serve_mode;
use commands::query_commands::ask;
use commands::session_commands::{complete, serve_session};
use commands::talk_commands::{is_unanswered, serve_talk};
use commands::{Asked, Command};
use line_grammar::Octets;
use numerics::Numeric;
use roster::Roster;
use std::alloc::{AllocError, Global};
use transactions::{Transaction, Verdict, tell};

/// Does what a command asks for by itself.
fn serve(tx: &mut Transaction, session: SessionId, command: &Command) -> Result<(), AllocError>
    requires opened { IsOpened tx.old.facts session }
    requires first { tx.old.facts ≡ tx.old.base }
    ensures { OnOk result (tx.new
        ≡ grown tx.old (by_itself tx.old.settings tx.old.facts session command.now)) }
{
    match command {
        Command::Session(command) => serve_session(tx, session, command),
        Command::Channel(command) => serve_channel(tx, session, command),
        Command::Mode(command) => serve_mode(tx, session, command),
        Command::Talk(command) => serve_talk(tx, session, command),
        Command::Query(query) => ask(tx, session, query),
    }
}

/// Whether a command is for those alone who are registered.
fn is_for_registered(command: &Command) -> bool
    ensures { result ≡ is_for_registered command.now }
{
    match command {
        Command::Session(_) => false,
        Command::Channel(_) | Command::Mode(_) | Command::Talk(_) | Command::Query(_) => true,
    }
}

fn is_silent(command: &Command) -> bool
    ensures { result ≡ is_silent command.now }
{
    match command {
        Command::Talk(command) => is_unanswered(command),
        Command::Session(_) | Command::Channel(_) | Command::Mode(_) | Command::Query(_) => false,
    }
}

/// Tells a session that it isn't registered, but not after NOTICE.
fn turn_away(tx: &mut Transaction, session: SessionId, command: &Command) -> Result<(), AllocError>
    ensures { OnOk result (tx.new
        ≡ grown tx.old (turned_away tx.old.settings tx.old.facts session command.now)) }
{
    if is_silent(command) {
        return Ok(());
    }
    tell(tx, session, Numeric::NotRegistered)
}

/// Does what a command asks for by itself, where its session may.
fn obey(tx: &mut Transaction, session: SessionId, command: &Command) -> Result<(), AllocError>
    requires opened { IsOpened tx.old.facts session }
    requires first { tx.old.facts ≡ tx.old.base }
    ensures { OnOk result (tx.new
        ≡ grown tx.old (if_allowed tx.old.settings tx.old.facts session command.now)) }
{
    if is_for_registered(command) && !tx.is_registered(session) {
        return turn_away(tx, session, command);
    }
    serve(tx, session, command)
}

/// Does what a command asks for, and registers a session that is complete by it.
#[tactic(auto, using(transactions::proofs::Replay::grown_grown))]
fn perform(tx: &mut Transaction, session: SessionId, command: &Command) -> Result<(), AllocError>
    requires opened { IsOpened tx.old.facts session }
    requires first { tx.old.facts ≡ tx.old.base }
    ensures { OnOk result (tx.new
        ≡ grown tx.old (of_command tx.old.settings tx.old.facts session command.now)) }
{
    obey(tx, session, command)?;
    complete(tx, session)
}

/// The numeric that answers a message which asks for nothing that can be done.
fn fault_numeric(alloc: Global, fault: &ReadFault) -> Result<Option<Numeric>, AllocError>
    ensures { IfOk result (λ n. n ≡ fault_numeric fault.now) }
{
    Ok(match fault {
        ReadFault::UnknownCommand { name } => Some(Numeric::UnknownCommand(name.clone()?)),
        ReadFault::NeedMoreParams { command } => {
            Some(Numeric::NeedMoreParams(Octets::copy_of(alloc, command.text())?))
        }
        ReadFault::NoNicknameGiven => Some(Numeric::NoNicknameGiven),
        ReadFault::NoRecipient { command } => {
            Some(Numeric::NoRecipient(Octets::copy_of(alloc, command.text())?))
        }
        ReadFault::NoTextToSend => Some(Numeric::NoTextToSend),
        ReadFault::NoOrigin => Some(Numeric::NoOrigin),
        ReadFault::InvalidCapSubcommand { subcommand } => {
            Some(Numeric::InvalidCapCmd(subcommand.clone()?))
        }
        ReadFault::Memory => None,
    })
}

/// Answers a message which asks for nothing that can be done.
fn refuse(tx: &mut Transaction, session: SessionId, fault: &ReadFault) -> Result<(), AllocError>
    ensures { OnOk result (tx.new ≡ grown tx.old
        (tells_fault tx.old.settings tx.old.facts session (fault_numeric fault.now))) }
{
    match fault_numeric(tx.alloc(), fault)? {
        Some(numeric) => tell(tx, session, numeric),
        None => Ok(()),
    }
}

/// Does what a line asks for.
fn answer(tx: &mut Transaction, session: SessionId, asked: &Asked) -> Result<(), AllocError>
    requires opened { IsOpened tx.old.facts session }
    requires first { tx.old.facts ≡ tx.old.base }
    ensures { OnOk result (tx.new
        ≡ grown tx.old (of_asked tx.old.settings tx.old.facts session asked.now)) }
{
    match asked {
        Asked::Nothing => Ok(()),
        Asked::TooLong => tell(tx, session, Numeric::InputTooLong),
        Asked::Command(command) => perform(tx, session, command),
        Asked::Fault(fault) => refuse(tx, session, fault),
    }
}

/// What comes of a line of a session at a moment: just the effects of its command's row, in their order. Its facts
/// may come next.
pub fn decide(
    alloc: Global,
    roster: &Roster,
    session: SessionId,
    asked: &Asked,
    _moment: Moment,
) -> Result<Verdict, AllocError>
    requires { IsOpened roster.now.facts session }
    ensures verdict { IfOk result (λ v. IsVerdict v session
        (of_asked roster.now.settings roster.now.facts session asked.now)) }
    ensures next { IfOk result (λ v. AreNext roster.now.facts v.deeds.items) }
    ensures opened { IfOk result
        (λ v. opened_in (after roster.now.facts v.deeds.items) ≡ opened_in roster.now.facts) }
{
    let mut tx = Transaction::new(alloc, roster, session);
    answer(&mut tx, session, asked)?;
    Ok(tx.finish())
}
