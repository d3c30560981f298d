//! The commands of a session's own: how each is read, and what it does (RFC 2812, sections 3.1.1 to 3.1.3,
//! 3.1.7, 3.7.2 and 3.7.3; IRCv3 Capability Negotiation and SASL 3.1).
ghost use Rattle.std.specs.Prelude.{◌≡◌, ◌∷◌, ◌≤◌, [], ℕ, List, length, IfOk, OnOk, MatchOption};
ghost use Rattle.std.specs.List.{list_any};
ghost use Rattle.roster.specs.Legal.{IsOpened};
ghost use Rattle.transactions.specs.declared.effect.Effect.TheVariants.{Answer};
ghost use Rattle.transactions.specs.Words.{grown, pong_line};
ghost use Rattle.line_grammar.specs.Parts.{is_present};
ghost use Rattle.command_params.specs.Params.{IsRead};
ghost use Rattle.session_commands.specs.Session.{cap_req, cap_subcommand, cap_command};
ghost use Rattle.session_commands.specs.Session.{authenticate_command, pass_command, nick_command};
ghost use Rattle.session_commands.specs.Session.{is_user_octet, user_name, user_command, ping_command, quit_command};
ghost use Rattle.session_commands.specs.Session.{serves_session, shows_values, user_with};

use crate::enrolling::{introduce, pass, quit, take_nick};
use crate::negotiation::{authenticate, negotiate};
use chronicle::SessionId;
use command_params::{CommandName, ReadFault, first, into_first, is_named, needs_more, read_words};
use line_grammar::{LineMessage, LineParameters, Octets, OctetsList};
use std::alloc::{AllocError, Global};
use transactions::{Transaction, pong_line};

/// What CAP asks for (IRCv3 Capability Negotiation).
#[derive(Drop)]
pub enum CapSubcommand {
    /// The capabilities that there are, with their values where the client's version is 302 or later.
    Ls { shows_values: bool },
    /// The capabilities that are on.
    List,
    /// To turn capabilities on, or off those after `-`. The words are as given.
    Req { words: OctetsList },
    /// To end the negotiation.
    End,
}

/// What a session asks for itself. Names and texts are as given.
#[derive(Drop)]
pub enum SessionCommand {
    /// To end the session, with a text that may be empty (section 3.1.7).
    Quit { text: Octets },
    /// To negotiate capabilities (IRCv3 Capability Negotiation).
    Cap(CapSubcommand),
    /// A mechanism or a piece of an exchange (IRCv3 SASL 3.1).
    Authenticate { piece: Octets },
    /// A password, which isn't looked at (RFC 2812, section 3.1.1).
    Pass,
    /// A nickname, which isn't empty (section 3.1.2).
    Nick { nick: Octets },
    /// The user name, of 1 to 16 octets, none of them `!`, `@` or below 33; and the real name, of 100
    /// octets at most (section 3.1.3).
    User { user: Octets, real: Octets },
    /// An answer with this text, which isn't empty (section 3.7.2).
    Ping { token: Octets },
    /// Nothing (section 3.7.3).
    Pong,
}

/// Octets of a user name, and of a real name.
const USERLEN: usize = 16;

const NAMELEN: usize = 100;

/// The version of Capability Negotiation from which on values are shown.
const VALUES_VERSION: u16 = 302;

/// Whether a version is a number of 302 or more.
fn shows_values(version: &[u8]) -> bool
    ensures { result ≡ shows_values version.now }
{
    let mut number = 0;
    for octet in version {
        if !octet.is_ascii_digit() {
            return false;
        }
        number = (number * 10 + u16::from(*octet - b'0')).min(VALUES_VERSION);
    }
    number == VALUES_VERSION
}

fn read_cap_req(alloc: Global, params: &LineParameters<'_>) -> Result<SessionCommand, ReadFault>
    ensures { IsRead (cap_req params.now) result }
{
    let Some((list, _)) = params.split_first() else {
        return Err(needs_more(CommandName::Cap));
    };
    let words = read_words(alloc, list)?;
    Ok(SessionCommand::Cap(CapSubcommand::Req { words }))
}

fn read_cap_subcommand(
    alloc: Global,
    subcommand: Octets,
    params: &LineParameters<'_>,
) -> Result<SessionCommand, ReadFault>
    ensures { IsRead (cap_subcommand subcommand params.now) result }
{
    let name = subcommand.as_slice();
    if is_named(name, b"LS") {
        let shows_values = shows_values(first(params));
        return Ok(SessionCommand::Cap(CapSubcommand::Ls { shows_values }));
    }
    if is_named(name, b"LIST") {
        return Ok(SessionCommand::Cap(CapSubcommand::List));
    }
    if is_named(name, b"REQ") {
        return read_cap_req(alloc, params);
    }
    if is_named(name, b"END") {
        return Ok(SessionCommand::Cap(CapSubcommand::End));
    }
    Err(ReadFault::InvalidCapSubcommand { subcommand })
}

/// What CAP asks for (IRCv3 Capability Negotiation). A subcommand is kept without taking memory, so that no growth
/// comes before the fault of an unknown one.
pub fn read_cap(alloc: Global, message: LineMessage<'_>) -> Result<SessionCommand, ReadFault>
    ensures { IsRead (cap_command message.entry.params) result }
{
    let Some((_, params)) = message.params().split_first() else {
        return Err(needs_more(CommandName::Cap));
    };
    let subcommand = into_first(alloc, message);
    read_cap_subcommand(alloc, subcommand, &params)
}

/// What AUTHENTICATE asks for (IRCv3 SASL 3.1).
pub fn read_authenticate(message: LineMessage<'_>) -> Result<SessionCommand, ReadFault>
    ensures { IsRead (authenticate_command message.entry.params) result }
{
    match message.into_first_param() {
        Some(piece) => Ok(SessionCommand::Authenticate { piece }),
        None => Err(needs_more(CommandName::Authenticate)),
    }
}

/// What PASS asks for (RFC 2812, section 3.1.1).
pub fn read_pass(params: &LineParameters<'_>) -> Result<SessionCommand, ReadFault>
    ensures { IsRead (pass_command params.now) result }
{
    match params.split_first() {
        Some(_) => Ok(SessionCommand::Pass),
        None => Err(needs_more(CommandName::Pass)),
    }
}

/// What NICK asks for (section 3.1.2).
pub fn read_nick(alloc: Global, message: LineMessage<'_>) -> Result<SessionCommand, ReadFault>
    ensures { IsRead (nick_command message.entry.params) result }
{
    let nick = into_first(alloc, message);
    if nick.is_empty() {
        return Err(ReadFault::NoNicknameGiven);
    }
    Ok(SessionCommand::Nick { nick })
}

/// Whether an octet may stand in a user name.
fn is_user_octet(octet: u8) -> bool
    ensures { result ≡ is_user_octet octet }
{
    octet != b'!' && octet != b'@' && 33 <= octet
}

fn has_user_octet(octets: &[u8]) -> bool
    ensures { result ≡ list_any is_user_octet octets.now }
{
    octets.iter().any(|octet| is_user_octet(*octet))
}

/// Whether something is left of a user name.
fn has_usable(user: &[u8]) -> bool
    ensures { result ≡ is_present (user_name user.now) }
{
    has_user_octet(user)
}

/// What is left of a user name, cut.
fn usable(alloc: Global, user: &[u8]) -> Result<Octets, AllocError>
    ensures { IfOk result (λ u. u ≡ user_name user.now) }
{
    let mut kept: Vec<u8> = user
        .iter()
        .copied()
        .filter(|octet| is_user_octet(*octet))
        .collect(alloc)?;
    kept.truncate(USERLEN);
    Ok(Octets::from_vec(kept))
}

fn new_user(alloc: Global, user: &[u8], real: &[u8]) -> Result<SessionCommand, ReadFault>
    ensures { IsRead (user_with user.now real.now) result }
{
    if !has_usable(user) {
        return Err(needs_more(CommandName::User));
    }
    let user = usable(alloc, user)?;
    let mut real = Vec::from_slice(alloc, real)?;
    real.truncate(NAMELEN);
    let real = Octets::from_vec(real);
    Ok(SessionCommand::User { user, real })
}

/// The user name and the real name. `None` where a parameter is missing.
fn user_and_real<'a>(params: &LineParameters<'a>) -> Option<(&'a [u8], &'a [u8])>
    ensures { MatchOption result (length params.now ≤ 3) (λ p. (second third : List ℕ)
        × (more : List (List ℕ)) × (params.now ≡ p.0.now ∷ second ∷ third ∷ p.1.now ∷ more)) }
{
    let (user, params) = params.split_first()?;
    let (_, params) = params.split_first()?;
    let (_, params) = params.split_first()?;
    let (real, _) = params.split_first()?;
    Some((user, real))
}

/// What USER asks for (section 3.1.3).
pub fn read_user(alloc: Global, params: &LineParameters<'_>) -> Result<SessionCommand, ReadFault>
    ensures { IsRead (user_command params.now) result }
{
    match user_and_real(params) {
        Some((user, real)) => new_user(alloc, user, real),
        None => Err(needs_more(CommandName::User)),
    }
}

/// What PING asks for (section 3.7.2).
pub fn read_ping(alloc: Global, message: LineMessage<'_>) -> Result<SessionCommand, ReadFault>
    ensures { IsRead (ping_command message.entry.params) result }
{
    let token = into_first(alloc, message);
    if token.is_empty() {
        return Err(ReadFault::NoOrigin);
    }
    Ok(SessionCommand::Ping { token })
}

/// What QUIT asks for (section 3.1.7).
pub fn read_quit(alloc: Global, message: LineMessage<'_>) -> Result<SessionCommand, ReadFault>
    ensures { IsRead (quit_command message.entry.params) result }
{
    let text = into_first(alloc, message);
    Ok(SessionCommand::Quit { text })
}

/// Answers PING.
fn pong(tx: &mut Transaction, token: &[u8]) -> Result<(), AllocError>
    ensures { OnOk result (tx.new
        ≡ grown tx.old (Answer (pong_line tx.old.settings.server token.now) ∷ [])) }
{
    let server = tx.before().settings().server.as_slice();
    let line = pong_line(tx.alloc(), server, token)?;
    tx.answer(line)
}

/// Does what a session's own command asks for.
pub fn serve_session(
    tx: &mut Transaction,
    session: SessionId,
    command: &SessionCommand,
) -> Result<(), AllocError>
    requires opened { IsOpened tx.old.facts session }
    requires first { tx.old.facts ≡ tx.old.base }
    ensures { OnOk result (tx.new
        ≡ grown tx.old (serves_session tx.old.settings tx.old.facts session command.now)) }
{
    match command {
        SessionCommand::Cap(subcommand) => negotiate(tx, session, subcommand),
        SessionCommand::Authenticate { piece } => authenticate(tx, session, piece.as_slice()),
        SessionCommand::Pass => pass(tx, session),
        SessionCommand::Nick { nick } => take_nick(tx, session, nick),
        SessionCommand::User { user, real } => introduce(tx, session, user, real),
        SessionCommand::Ping { token } => pong(tx, token.as_slice()),
        SessionCommand::Pong => Ok(()),
        SessionCommand::Quit { text } => quit(tx, session, text),
    }
}
