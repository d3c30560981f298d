//! The command line of `halld`.
ghost use Rattle.std.specs.Prelude.{◌≡◌, ◌≤◌, None, IsSome, IfOk, IfSome};
ghost use Rattle.serving_options.specs.Asked.{IsWithinLimits, IsSomewhere, IsAskedWithinLimits, IsAskedSomewhere};

use clap::builder::ValueParser;
use clap::error::ErrorKind;
use clap::{Arg, ArgAction, ArgMatches, Command, Error};
use std::alloc::{AllocError, Global};
use std::convert::AsStr;
use std::net::SocketAddr;

/// What a command line asks for.
#[derive(Clone, Copy, Debug, PartialEq)]
pub enum Subcommand<'a> {
    /// To play the script on standard input.
    Play,
    /// To serve clients.
    Serve(ServeOptions<'a>),
    /// To say whether a server with these options would start.
    Check(ServeOptions<'a>),
    /// To print the line of an account of this name, of which nothing is checked yet.
    Account(&'a str),
}

/// Options of `halld serve`.
#[derive(Clone, Copy, Debug, PartialEq)]
pub struct ServeOptions<'a> {
    /// Where it listens. There is an address here or for WebSocket.
    pub tcp: Option<SocketAddr>,
    /// Where it listens for clients that come by WebSocket.
    pub ws: Option<SocketAddr>,
    /// The server's name, of which nothing is checked yet.
    pub name: &'a str,
    /// How many lines may be worked on at a time, 1 to 64.
    pub workers: u64,
    /// How many items may wait for a session, 1 to 4,096.
    pub sendq: u64,
    /// How many octets may wait for a session besides its newest item, 65,536 to 1,073,741,824.
    pub sendq_bytes: u64,
    /// How many records the journal keeps, 1 to 10,000,000.
    pub limit: u64,
    /// How many octets are read of clients before the journal drops its records, 65,536 to 68,719,476,736.
    pub journal_bytes: u64,
    /// The file of the accounts.
    pub accounts: Option<&'a str>,
    /// The file of the message of the day.
    pub motd: Option<&'a str>,
    /// Whether it says nothing of where it listens, whom it refuses and why it ends.
    pub is_quiet: bool,
    /// Whether each thing that happens is a line of standard error.
    pub has_log: bool,
}

/// The version. Who builds a commit may put its first eleven digits in the place of the word.
const VERSION: &str = "1 (commit unspecified)";

/// An option that takes a value.
fn option<'a>(alloc: Global, id: &'a str, value: &'a str, help: &'a str) -> Arg<'a> {
    Arg::new(alloc, id)
        .long(id)
        .value_name(value)
        .action(ArgAction::Set)
        .help(help)
}

/// An option that takes a number within limits.
fn number<'a>(
    alloc: Global,
    id: &'a str,
    limits: (u64, u64),
    usual: &'a str,
    help: &'a str,
) -> Arg<'a> {
    option(alloc, id, "N", help)
        .value_parser(ValueParser::unsigned(limits.0, limits.1))
        .default_value(usual)
}

/// An option that is there or not.
fn flag<'a>(alloc: Global, id: &'a str, help: &'a str) -> Arg<'a> {
    Arg::new(alloc, id)
        .long(id)
        .action(ArgAction::SetTrue)
        .help(help)
}

/// A command that takes the options of a server.
fn serve_command<'a>(
    alloc: Global,
    name: &'a str,
    about: &'a str,
) -> Result<Command<'a>, AllocError> {
    let tcp = option(
        alloc,
        "tcp",
        "ADDR",
        "Listen on this address, as 127.0.0.1:6667",
    );
    let ws = option(
        alloc,
        "ws",
        "ADDR",
        "Listen on this address for WebSocket, as 127.0.0.1:8067",
    );
    let host = option(alloc, "name", "HOST", "The server's name");
    let workers = "Threads that serve clients, 1 to 64";
    let sendq = "Items that may wait for a session, 1 to 4096";
    let bytes = "Octets that may wait for a session besides its newest item, 65536 to 1073741824";
    let limit = "Records that the journal keeps, 1 to 10000000";
    let journal = "Octets that are read before the journal's records go, 65536 to 68719476736";
    let accounts = "Accounts, a line NAME SALT DIGEST each";
    let motd = "The message of the day";
    let quiet = "Don't say where it listens, whom it refuses and why it ends";
    let log = "Print a line for each thing that happens, such as who comes and goes";
    Command::new(alloc, name)
        .about(about)
        .arg(tcp)?
        .arg(ws)?
        .arg(host.default_value("irc.example"))?
        .arg(number(alloc, "workers", (1, 64), "2", workers))?
        .arg(number(alloc, "sendq", (1, 4096), "256", sendq))?
        .arg(number(
            alloc,
            "sendq-bytes",
            (65_536, 1_073_741_824),
            "4194304",
            bytes,
        ))?
        .arg(number(alloc, "limit", (1, 10_000_000), "100000", limit))?
        .arg(number(
            alloc,
            "journal-bytes",
            (65_536, 68_719_476_736),
            "67108864",
            journal,
        ))?
        .arg(option(alloc, "accounts", "FILE", accounts))?
        .arg(option(alloc, "motd", "FILE", motd))?
        .arg(flag(alloc, "quiet", quiet))?
        .arg(flag(alloc, "log", log))
}

/// `account` and its name.
fn account_command<'a>(alloc: Global) -> Result<Command<'a>, AllocError> {
    let name = Arg::new(alloc, "NAME")
        .required(true)
        .help("The user's name, a nickname");
    Command::new(alloc, "account")
        .about("Read a password from standard input and print an account's line for --accounts")
        .arg(name)
}

/// The whole command line, where this is told of scripts.
fn whole_command<'a>(alloc: Global, script: &'a str) -> Result<Command<'a>, AllocError> {
    let play = Command::new(alloc, "play")
        .about("Play a script of steps from standard input and print what each step gave")
        .after_help(script);
    let serve = serve_command(alloc, "serve", "Serve clients until standard input ends")?;
    let about = "Say whether a server with these options would start, and listen nowhere";
    let check = serve_command(alloc, "check", about)?;
    Command::new(alloc, "halld")
        .version(VERSION)
        .about("An IRC server whose core is proved")
        .subcommand_required(true)
        .subcommand(play)?
        .subcommand(serve)?
        .subcommand(check)?
        .subcommand(account_command(alloc)?)
}

/// A number where it lies within limits, else the usual one.
fn within(number: Option<u64>, limits: (u64, u64), usual: u64) -> u64
    requires { (limits.0 ≤ usual) × (usual ≤ limits.1) }
    ensures within { (limits.0 ≤ result) × (result ≤ limits.1) }
    ensures given { IfSome number (λ n. limits.0 ≤ n → n ≤ limits.1 → result ≡ n) }
{
    match number {
        Some(number) if limits.0 <= number && number <= limits.1 => number,
        _ => usual,
    }
}

/// A refusal of a command's addresses.
fn refusal(alloc: Global, command: &str, kind: ErrorKind, text: &str) -> Result<Error, AllocError> {
    serve_command(alloc, "serve", "")?
        .bin_name(command)?
        .error(kind, text)
}

/// The address of an option, if there is one.
fn address(
    alloc: Global,
    command: &str,
    matches: &ArgMatches<'_>,
    id: &str,
    refused: &str,
) -> Result<Option<SocketAddr>, Error> {
    match matches.try_get_one::<SocketAddr>(id) {
        Ok(found) => Ok(found),
        Err(_) => Err(refusal(alloc, command, ErrorKind::ValueValidation, refused)?),
    }
}

/// Where to listen, and where for WebSocket: somewhere at least.
fn addresses(
    alloc: Global,
    command: &str,
    matches: &ArgMatches<'_>,
) -> Result<(Option<SocketAddr>, Option<SocketAddr>), Error>
    ensures { IfOk result (λ a. a.0 ≡ None → IsSome a.1) }
{
    let refused = "'--tcp <ADDR>' wants an address and a port, as 127.0.0.1:6667 or [::1]:6667";
    let tcp = address(alloc, command, matches, "tcp", refused)?;
    let refused = "'--ws <ADDR>' wants an address and a port, as 127.0.0.1:8067 or [::1]:8067";
    let ws = address(alloc, command, matches, "ws", refused)?;
    if tcp.is_none() && ws.is_none() {
        let missing = "'--tcp <ADDR>' or '--ws <ADDR>' is wanted";
        let kind = ErrorKind::MissingRequiredArgument;
        return Err(refusal(alloc, command, kind, missing)?);
    }
    Ok((tcp, ws))
}

/// The options of a command that takes those of a server.
fn serve_options<'a>(
    alloc: Global,
    command: &str,
    matches: &ArgMatches<'a>,
) -> Result<ServeOptions<'a>, Error>
    ensures limits { IfOk result IsWithinLimits }
    ensures somewhere { IfOk result IsSomewhere }
{
    let (tcp, ws) = addresses(alloc, command, matches)?;
    Ok(ServeOptions {
        tcp,
        ws,
        name: matches.get_str("name").unwrap_or("irc.example"),
        workers: within(matches.get_one("workers"), (1, 64), 2),
        sendq: within(matches.get_one("sendq"), (1, 4096), 256),
        sendq_bytes: within(
            matches.get_one("sendq-bytes"),
            (65_536, 1_073_741_824),
            4_194_304,
        ),
        limit: within(matches.get_one("limit"), (1, 10_000_000), 100_000),
        journal_bytes: within(
            matches.get_one("journal-bytes"),
            (65_536, 68_719_476_736),
            67_108_864,
        ),
        accounts: matches.get_str("accounts"),
        motd: matches.get_str("motd"),
        is_quiet: matches.get_flag("quiet"),
        has_log: matches.get_flag("log"),
    })
}

/// Reads a command line, whose first word is the program's own name. Help for `play` tells this of scripts.
///
/// An error is also how help and the version are asked for.
pub fn parse<'a, S: AsStr>(
    alloc: Global,
    words: &'a [S],
    script: &'a str,
) -> Result<Subcommand<'a>, Error>
    ensures limits { IfOk result IsAskedWithinLimits }
    ensures somewhere { IfOk result IsAskedSomewhere }
{
    let matches = whole_command(alloc, script)?.try_get_matches_from(words)?;
    match matches.subcommand() {
        Some(("serve", matches)) => {
            Ok(Subcommand::Serve(serve_options(alloc, "halld serve", matches)?))
        }
        Some(("check", matches)) => {
            Ok(Subcommand::Check(serve_options(alloc, "halld check", matches)?))
        }
        Some(("account", matches)) => Ok(Subcommand::Account(
            matches.get_str("NAME").unwrap_or(""),
        )),
        _ => Ok(Subcommand::Play),
    }
}
