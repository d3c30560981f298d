//! Starting a server from its options.
use casemapping::is_host;
use chronicle::Moment;
use line_grammar::{Octets, OctetsList};
use registration::{AccountFault, Accounts, Settings, is_well_set};
use serving::{Clock, OpenGate, Options, ServeFault, SystemClock, listen, serve_with};
use serving_options::{
    FileFault, ServeOptions, TextFault, accounts_of, content_of, fault_of_line, faulty_line,
    motd_of,
};
use std::alloc::{AllocError, Global};
use std::fmt::Display;
use std::fs::Files;
use std::io::Read;
use std::net::{Net, SocketAddr, TcpListener, TcpStream};
use std::random::RandomSource;
use std::sync::Wait;
use std::thread::Threads;
use std::time::Clock as Ticks;
use std::{fmt, io};

/// Who the server says that it is.
const INFO: &[u8] = b"halld";

/// The version that a client is told.
const VERSION: &[u8] = b"halld-1";

/// Sessions at a time.
const SESSIONS: usize = 1024;

/// The fewest records of a journal with which a client is let in.
const FEWEST: u64 = 3;

/// Which setting is out of its limits.
#[derive(Clone, Copy)]
pub(crate) enum Reason<'a> {
    /// The server's name.
    Name(&'a str),
    /// This line of the message of the day.
    Line(usize, TextFault),
    /// The time at which the server is started.
    Time,
    /// A number.
    Number,
}

/// How serving ended. All but the first are faults.
#[derive(Drop)]
pub(crate) enum Ended<'a> {
    /// Standard input ended.
    Well,
    /// A line of the accounts file has a fault.
    Account(u64, AccountFault),
    /// A file can't be read.
    Unreadable(&'a str, io::Error),
    /// The address can't be listened on.
    NotListening(SocketAddr, io::Error),
    /// A setting is out of its limits.
    Settings(Reason<'a>),
    /// A growth was refused.
    Memory,
    /// The journal is full.
    JournalFull,
    /// The system gave no random keys.
    NoKeys,
    /// Standard output can't be written.
    WriteFailed,
}

impl<'a> Display for Ended<'a> {
    fn fmt<W: fmt::Write>(&self, f: &mut fmt::Formatter<W>) -> fmt::Result {
        match self {
            Ended::Well => Ok(()),
            Ended::Account(line, fault) => write!(f, "accounts line {line}: {}", name_of(*fault)),
            Ended::Unreadable(path, _) => write!(f, "cannot read {path}"),
            Ended::NotListening(address, _) => write!(f, "cannot listen on {address}"),
            Ended::Settings(_) => f.write_str("settings"),
            Ended::Memory => f.write_str("out of memory"),
            Ended::JournalFull => f.write_str("journal full"),
            Ended::NoKeys => f.write_str("no random keys"),
            Ended::WriteFailed => f.write_str("output failed"),
        }
    }
}

impl<'a> Display for Reason<'a> {
    fn fmt<W: fmt::Write>(&self, f: &mut fmt::Formatter<W>) -> fmt::Result {
        match self {
            Reason::Name(name) => write!(f, "--name {name}: no host name"),
            Reason::Line(line, fault) => write!(f, "motd line {line} {}", words_of(*fault)),
            Reason::Time => f.write_str("the machine's time is after the year 9998"),
            Reason::Number => f.write_str("a number is out of its limits"),
        }
    }
}

/// What is said of a line of the message of the day.
fn words_of(fault: TextFault) -> &'static str {
    match fault {
        TextFault::TooLong => "has more than 400 octets",
        TextFault::EndsWithCr => "ends with CR",
        TextFault::HasControl => "has NUL or CR",
    }
}

/// Tells the reason of a fault that has one on a line of its own.
pub(crate) fn tell_reason<R: Eprint>(rt: &R, ended: &Ended) {
    let _ = match ended {
        Ended::Unreadable(path, error) => eprintln!(rt; "halld: {path}: {error}"),
        Ended::NotListening(address, error) => eprintln!(rt; "halld: {address}: {error}"),
        Ended::Settings(reason) => eprintln!(rt; "halld: {reason}"),
        _ => Ok(()),
    };
}

impl<'a> From<AllocError> for Ended<'a> {
    fn from(_error: AllocError) -> Ended<'a> {
        Ended::Memory
    }
}

/// What the fault of an account's line is called.
fn name_of(fault: AccountFault) -> &'static str {
    match fault {
        AccountFault::Shape => "Shape",
        AccountFault::BadName => "BadName",
        AccountFault::BadDigest => "BadDigest",
        AccountFault::Twice => "Twice",
        AccountFault::Memory => "Memory",
    }
}

/// What a file holds.
fn content<'a, R: Files + Alloc<A = Global>>(rt: &R, path: &'a str) -> Result<Vec<u8>, Ended<'a>> {
    match content_of(rt, path) {
        Ok(content) => Ok(content),
        Err(error) if error.kind() == io::ErrorKind::OutOfMemory => Err(Ended::Memory),
        Err(error) => Err(Ended::Unreadable(path, error)),
    }
}

/// The accounts of a file, none where there is no file.
fn accounts<'a, R: Files + Alloc<A = Global>>(
    rt: &R,
    path: Option<&'a str>,
) -> Result<Accounts, Ended<'a>> {
    let Some(path) = path else {
        return Ok(Accounts::new(rt.alloc()));
    };
    accounts_of(rt.alloc(), &content(rt, path)?).map_err(|fault| match fault {
        FileFault::Account(line, fault) => Ended::Account(line, fault),
        FileFault::Memory => Ended::Memory,
    })
}

/// The message of the day of a file, none where there is no file.
fn message_of_the_day<'a, R: Files + Alloc<A = Global>>(
    rt: &R,
    path: Option<&'a str>,
) -> Result<Option<OctetsList>, Ended<'a>> {
    let Some(path) = path else {
        return Ok(None);
    };
    Ok(Some(motd_of(rt.alloc(), &content(rt, path)?)?))
}

/// Which of these settings, which aren't well set, is out of its limits: the first in the order in which they are
/// looked at.
fn reason_of<'a>(name: &'a str, settings: &Settings) -> Reason<'a> {
    if !is_host(name.as_bytes()) {
        return Reason::Name(name);
    }
    let Some(motd) = &settings.motd else {
        return Reason::Time;
    };
    let Some(place) = faulty_line(motd) else {
        return Reason::Time;
    };
    match motd.as_slice().get(place) {
        Some(line) => match fault_of_line(line.as_slice()) {
            Some(fault) => Reason::Line(place.saturating_add(1), fault),
            None => Reason::Time,
        },
        None => Reason::Time,
    }
}

/// The settings of a server that starts now.
fn settings<'a, R: Ticks + Copy + Drop + Alloc<A = Global>>(
    rt: &R,
    name: &str,
    accounts: Accounts,
    motd: Option<OctetsList>,
) -> Result<Settings, Ended<'a>> {
    let alloc = rt.alloc();
    Ok(Settings {
        server: Octets::copy_of(alloc, name.as_bytes())?,
        info: Octets::copy_of(alloc, INFO)?,
        version: Octets::copy_of(alloc, VERSION)?,
        created: SystemClock::new(*rt).now(),
        motd,
        accounts,
        sessions: SESSIONS,
    })
}

/// Listens on an address, if there is one.
fn listener<'a, R: Net<Listener = TcpListener, Stream = TcpStream>>(
    rt: &R,
    address: Option<SocketAddr>,
) -> Result<Option<TcpListener>, Ended<'a>> {
    let Some(address) = address else {
        return Ok(None);
    };
    match listen(rt, address) {
        Ok(listener) => Ok(Some(listener)),
        Err(error) => Err(Ended::NotListening(address, error)),
    }
}

/// Tells on which address a listener listens, if there is one: on the one that was wanted, unless the system names
/// another.
fn tell_of<R: Eprint>(rt: &R, listener: Option<&TcpListener>, wanted: Option<SocketAddr>) {
    if let (Some(listener), Some(wanted)) = (listener, wanted) {
        let address = listener.local_addr().unwrap_or(wanted);
        let _ = eprintln!(rt; "halld: listening on {address}");
    }
}

/// What options say that files and the clock are needed for, well set.
fn prepare<'a, R: Files + Ticks + Copy + Drop + Alloc<A = Global>>(
    rt: &R,
    options: &ServeOptions<'a>,
) -> Result<Settings, Ended<'a>> {
    let accounts = accounts(rt, options.accounts)?;
    let motd = message_of_the_day(rt, options.motd)?;
    settings(rt, options.name, accounts, motd)
}

/// These settings, where they are well set.
fn well_set<'a>(name: &'a str, settings: Settings) -> Result<Settings, Ended<'a>> {
    if is_well_set(&settings) {
        Ok(settings)
    } else {
        Err(Ended::Settings(reason_of(name, &settings)))
    }
}

/// Warns where a journal of so many records lets no client in.
fn warn_of<R: Eprint>(rt: &R, limit: u64) {
    if limit < FEWEST {
        let _ = eprintln!(rt;
            "halld: --limit {limit} lets no client in: {FEWEST} is the least that does"
        );
    }
}

/// Says on standard output what a server with these options and settings would do.
fn describe<R: Print>(rt: &R, options: &ServeOptions<'_>, settings: &Settings) -> io::Result<()> {
    if let Some(address) = options.tcp {
        println!(rt; "would listen on {address}")?;
    }
    if let Some(address) = options.ws {
        println!(rt; "would listen on {address} for WebSocket")?;
    }
    println!(rt; "as {}, with {} workers", options.name, options.workers)?;
    println!(rt; "accounts: {}", settings.accounts.len())?;
    match &settings.motd {
        Some(motd) => println!(rt;
            "lines of the message of the day: {}",
            motd.as_slice().len()
        ),
        None => println!(rt; "no message of the day"),
    }
}

/// Says what a server with these options would do, and answers how it would begin. It listens nowhere.
pub(crate) fn check_options<'a, R>(rt: &R, options: ServeOptions<'a>) -> Ended<'a>
where
    R: Ticks + Files + Print + Eprint + Alloc<A = Global> + Copy + Drop,
{
    let settings = match prepare(rt, &options) {
        Ok(settings) => settings,
        Err(ended) => return ended,
    };
    let settings = match well_set(options.name, settings) {
        Ok(settings) => settings,
        Err(ended) => return ended,
    };
    warn_of(rt, options.limit);
    match describe(rt, &options, &settings) {
        Ok(()) => Ended::Well,
        Err(_) => Ended::WriteFailed,
    }
}

/// Listens, tells where on standard error, and serves until standard input ends.
fn serve<'a, R, I>(rt: &R, options: ServeOptions<'a>, stop: I) -> Result<(), Ended<'a>>
where
    R: Threads
        + Wait
        + Ticks
        + Files
        + Net<Listener = TcpListener, Stream = TcpStream>
        + RandomSource
        + Eprint
        + Alloc<A = Global>,
    R: Copy + Drop + Send + Sync + 'static,
    I: Read + Send + Drop + 'static,
{
    let settings = prepare(rt, &options)?;
    let tcp = listener(rt, options.tcp)?;
    let ws = listener(rt, options.ws)?;
    let settings = well_set(options.name, settings)?;
    if !options.is_quiet {
        tell_of(rt, tcp.as_ref(), options.tcp);
        tell_of(rt, ws.as_ref(), options.ws);
    }
    warn_of(rt, options.limit);
    let clock = SystemClock::new(*rt);
    let options = Options {
        tcp,
        ws,
        settings,
        limit: options.limit as usize,
        journal_bytes: options.journal_bytes,
        workers: options.workers as usize,
        sendq: options.sendq as usize,
        sendq_bytes: options.sendq_bytes,
        gate: &OpenGate,
        clock: &clock,
        is_quiet: options.is_quiet,
        has_log: options.has_log,
    };
    serve_with(rt, rt.alloc(), options, stop).map_err(|fault| match fault {
        ServeFault::BadSettings => Ended::Settings(Reason::Number),
        ServeFault::JournalFull => Ended::JournalFull,
        ServeFault::Memory => Ended::Memory,
        ServeFault::NoKeys => Ended::NoKeys,
    })
}

/// Serves as options say, and answers how that ended.
pub(crate) fn serve_options<'a, R, I>(rt: &R, options: ServeOptions<'a>, stop: I) -> Ended<'a>
where
    R: Threads
        + Wait
        + Ticks
        + Files
        + Net<Listener = TcpListener, Stream = TcpStream>
        + RandomSource
        + Eprint
        + Alloc<A = Global>,
    R: Copy + Drop + Send + Sync + 'static,
    I: Read + Send + Drop + 'static,
{
    match serve(rt, options, stop) {
        Ok(()) => Ended::Well,
        Err(ended) => ended,
    }
}
