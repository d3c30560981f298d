//! A server from its start to its end.
ghost use Rattle.std.specs.Prelude.{◌≡◌, ◌<◌, [], false, Err};
ghost use Rattle.serving.specs.declared.serve.ServeFault.TheVariants.{BadSettings, Memory};

mod event_sources;
mod shared;

use crate::clock::SystemClock;
use crate::connections::Connections;
use crate::events::Events;
use crate::news::Teller;
use chronicle::SessionId;
use event_sources::{EventSources, doors_of, has_stop};
use session_io::Gate;
use session_io::book::outbox::{ChannelName, Sender};
use session_io::book::{BookFault, Hall, Naming, Register, Settings};
use shared::{Config, Shared, run_on};
use std::alloc::{AllocError, Global};
use std::hash::RandomState;
use std::io::Read;
use std::marker::Brand;
use std::net::Net;
use std::random::RandomSource;
use std::sync::{Arc, Mutex, Wait};
use std::thread::Threads;
use std::time::Clock;
use std::{mem, net};

/// How many octets may wait for a session besides its newest delivery, where nothing is said.
const SENDQ_BYTES: u64 = 4_194_304;

/// The least and the most that may be said of it.
const SENDQ_LIMITS: (u64, u64) = (65_536, 1_073_741_824);

/// How many octets are read of clients before the journal is rolled, where nothing is said.
const JOURNAL_BYTES: u64 = 67_108_864;

/// The least and the most that may be said of it.
const JOURNAL_LIMITS: (u64, u64) = (65_536, 68_719_476_736);

/// Why a server didn't start, or ended by itself.
#[derive(Clone, Copy, Debug, PartialEq)]
pub enum ServeFault {
    /// A setting is beyond its limits, or a text of the settings has not its shape.
    BadSettings,
    /// The journal is full.
    JournalFull,
    /// A growth was refused, or the listener can't be shared.
    Memory,
    /// The system gave no random keys, by which names are hashed.
    NoKeys,
}

impl From<AllocError> for ServeFault {
    ghost from_gives = { λ _ b. b ≡ Memory };

    fn from(_error: AllocError) -> ServeFault {
        ServeFault::Memory
    }
}

impl From<BookFault> for ServeFault {
    fn from(fault: BookFault) -> ServeFault {
        match fault {
            BookFault::BadSettings => ServeFault::BadSettings,
            BookFault::Memory => ServeFault::Memory,
        }
    }
}

/// What a server is started with.
#[derive(Drop)]
pub struct Options<'a, G: Gate, C: crate::Clock> {
    /// Where clients connect; nobody does where there is none.
    pub tcp: Option<net::TcpListener>,
    /// Where clients connect that come by WebSocket; nobody does where there is none.
    pub ws: Option<net::TcpListener>,
    pub settings: Settings,
    /// How many records its journal keeps, 1 to 10,000,000.
    pub limit: usize,
    /// How many octets are read of clients before the journal is rolled, 65,536 to 68,719,476,736.
    pub journal_bytes: u64,
    /// How many threads do its clients' lines, 1 to 64.
    pub workers: usize,
    /// How many deliveries may wait for a session, 1 to 4,096.
    pub sendq: usize,
    /// How many octets may wait for a session besides its newest delivery, 65,536 to 1,073,741,824.
    pub sendq_bytes: u64,
    /// What stands round the lines that are done in one hold of the lock.
    pub gate: &'a G,
    pub clock: &'a C,
    /// Whether nothing is said of connections that are refused or wait, of rolls, and of the end of `stop`.
    pub is_quiet: bool,
    /// Whether each thing that happens is a line of standard error, whatever `is_quiet` says.
    pub has_log: bool,
}

/// A gate that is always open.
#[derive(Clone, Copy, Debug, Drop)]
pub struct OpenGate;

impl Gate for OpenGate {
    fn enter(&self, _session: SessionId) {}

    fn leave(&self, _session: SessionId) {}
}

/// A hall that has this register, whose names are hashed by random keys.
fn hall_of<L: Naming, R: Wait + RandomSource + Drop>(
    rt: &R,
    alloc: Global,
    register: Register<ChannelName>,
    settings: Settings,
    limit: usize,
) -> Result<Hall<L, Sender<R>>, ServeFault>
    requires named { register.table ≡ L.table }
    requires new { register.rows ≡ [] }
{
    let Ok(state) = RandomState::new(rt) else {
        return Err(ServeFault::NoKeys);
    };
    Ok(Hall::with_hasher(alloc, register, settings, limit, state)?)
}

/// Who tells on standard error what happens, unless the server is to be quiet and has no log.
fn teller_of<R: Threads + Wait + Eprint + Copy + Drop + Send + 'static, G: Gate, C: crate::Clock>(
    rt: &R,
    alloc: Global,
    config: &Config<'_, G, C>,
) -> Result<Option<Teller>, ServeFault> {
    if config.is_quiet && !config.has_log {
        return Ok(None);
    }
    match Teller::start(rt, alloc, config.has_log)? {
        Some(teller) => Ok(Some(teller)),
        None => Err(ServeFault::Memory),
    }
}

/// Where what happens is left for the log, if there is one.
fn log_of<R: Wait + Clock + Copy + Drop>(
    rt: &R,
    teller: Option<&Teller>,
    has_log: bool,
) -> Result<Option<Events<R>>, ServeFault> {
    match teller {
        Some(teller) if has_log => Ok(Some(Events::new(*rt, teller.sender()?))),
        _ => Ok(None),
    }
}

/// The connections of a server that nobody is connected to yet.
fn connections_of<L: Naming, R: Wait + Clock + Copy + Drop, G: Gate, C: crate::Clock>(
    rt: &R,
    alloc: Global,
    doors: &mut EventSources,
    config: &Config<'_, G, C>,
    teller: Option<&Teller>,
) -> Result<Connections<L, R>, ServeFault> {
    let log = log_of(rt, teller, config.has_log)?;
    let stopping = Arc::try_clone(&doors.stopping)?;
    let posts = mem::replace(&mut doors.posts, Vec::new(alloc));
    let (most, journal) = (config.sendq_bytes, config.journal_bytes);
    Ok(Connections::new(*rt, alloc, log, posts, stopping, most, journal))
}

/// How a server ended whose threads could all be started or not.
fn end_of(is_run: bool, is_full: bool) -> Result<(), ServeFault> {
    if !is_run {
        Err(ServeFault::Memory)
    } else if is_full {
        Err(ServeFault::JournalFull)
    } else {
        Ok(())
    }
}

/// Serves in this hall whoever connects, and has it told what happens.
fn serve_told<
    L: Naming + Send + Sync,
    R: Threads + Wait + Clock + Copy + Drop + Send + Sync + 'static,
    G: Gate + Sync,
    C: crate::Clock + Sync,
    I: Read + Send + Drop + 'static,
>(
    rt: &R,
    alloc: Global,
    hall: &Mutex<Hall<L, Sender<R>>>,
    doors: &mut EventSources,
    config: &Config<'_, G, C>,
    teller: Option<&Teller>,
    stop: I,
) -> Result<(), ServeFault> {
    let connections = connections_of(rt, alloc, doors, config, teller)?;
    let shared = Shared {
        hall,
        connections: &connections,
        config,
    };
    let is_run = has_stop(rt, stop, &doors.stopping) && run_on(rt, alloc, &shared, doors, teller);
    end_of(is_run, connections.is_full())
}

/// Serves in this hall whoever connects by these doors.
fn serve_by<
    L: Naming + Send + Sync,
    R: Threads + Wait + Clock + Eprint + Copy + Drop + Send + Sync + 'static,
    G: Gate + Sync,
    C: crate::Clock + Sync,
    I: Read + Send + Drop + 'static,
>(
    rt: &R,
    alloc: Global,
    hall: &Mutex<Hall<L, Sender<R>>>,
    doors: &mut EventSources,
    config: &Config<'_, G, C>,
    stop: I,
) -> Result<(), ServeFault> {
    let teller = teller_of(rt, alloc, config)?;
    let served = serve_told(rt, alloc, hall, doors, config, teller.as_ref(), stop);
    if let Some(teller) = teller {
        teller.finish(rt);
    }
    served
}

/// Serves in this hall whoever connects to these listeners.
fn serve_in<
    L: Naming + Send + Sync,
    R: Threads + Wait + Clock + Net + Eprint + Copy + Drop + Send + Sync + 'static,
    G: Gate + Sync,
    C: crate::Clock + Sync,
    I: Read + Send + Drop + 'static,
>(
    rt: &R,
    alloc: Global,
    hall: &Mutex<Hall<L, Sender<R>>>,
    tcp: Option<net::TcpListener>,
    ws: Option<net::TcpListener>,
    config: &Config<'_, G, C>,
    stop: I,
) -> Result<(), ServeFault> {
    match doors_of(rt, alloc, tcp, ws, config.workers) {
        Ok(mut doors) => serve_by(rt, alloc, hall, &mut doors, config, stop),
        Err(_) => Err(ServeFault::Memory),
    }
}

/// Serves by a register of its own.
fn serve_named<
    L: Naming + Send + Sync,
    R: Threads + Wait + Clock + Net + RandomSource + Eprint + Copy + Drop + Send + Sync + 'static,
    G: Gate + Sync,
    C: crate::Clock + Sync,
    I: Read + Send + Drop + 'static,
>(
    rt: &R,
    alloc: Global,
    register: Register<ChannelName>,
    options: Options<'_, G, C>,
    stop: I,
) -> Result<(), ServeFault>
    requires named { register.table ≡ L.table }
    requires new { register.rows ≡ [] }
{
    let config = Config::of(&options);
    let Options {
        tcp,
        ws,
        settings,
        limit,
        ..
    } = options;
    let hall: Hall<L, Sender<R>> = hall_of(rt, alloc, register, settings, limit)?;
    let hall = Mutex::new(hall);
    let served = serve_in(rt, alloc, &hall, tcp, ws, &config, stop);
    drop(hall);
    served
}

/// Whether a number is within limits.
fn is_within(number: u64, limits: (u64, u64)) -> bool
    ensures low { number < limits.0 → result ≡ false }
    ensures high { limits.1 < number → result ≡ false }
{
    limits.0 <= number && number <= limits.1
}

/// Serves whoever connects, until `stop` ends or fails.
///
/// Names are hashed by keys that nobody outside knows. Each line is done by one of the workers, between two calls of
/// the gate. Who connects is a session, by WebSocket after its handshake, whose host is its address. A connection
/// that isn't taken is closed without a line, and told of on standard error: how many there were, at most once a
/// second, unless the server is to be quiet; so are the times that the journal was rolled, and that connections wait
/// for want of descriptors. With a log each of these is a line, and so is who comes and goes. At the end every session
/// is told that the server shuts down, and all threads are joined but the one that reads `stop`, and the one that
/// writes to standard error, for which it waits a second at most.
///
/// # Errors
///
/// Where settings or numbers are beyond their limits, where a journal that was rolled is full still, and where a
/// growth was refused or there were no random keys at the start.
pub fn serve_with<
    R: Threads + Wait + Clock + Net + RandomSource + Eprint + Copy + Drop + Send + Sync + 'static,
    G: Gate + Sync,
    C: crate::Clock + Sync,
    I: Read + Send + Drop + 'static,
>(rt: &R, alloc: Global, options: Options<'_, G, C>, stop: I) -> Result<(), ServeFault>
    ensures no_worker { options.entry.workers ≡ 0 → result ≡ Err BadSettings }
    ensures many_workers { 64 < options.entry.workers → result ≡ Err BadSettings }
    ensures no_room { options.entry.sendq ≡ 0 → result ≡ Err BadSettings }
    ensures much_room { 4096 < options.entry.sendq → result ≡ Err BadSettings }
    ensures few_octets { options.entry.sendq_bytes < 65536 → result ≡ Err BadSettings }
    ensures many_octets { 1073741824 < options.entry.sendq_bytes → result ≡ Err BadSettings }
    ensures small_journal { options.entry.journal_bytes < 65536 → result ≡ Err BadSettings }
    ensures large_journal { 68719476736 < options.entry.journal_bytes → result ≡ Err BadSettings }
{
    let (workers, sendq) = (options.workers, options.sendq);
    let (sendq_bytes, journal_bytes) = (options.sendq_bytes, options.journal_bytes);
    let are_counts_within = 1 <= workers && workers <= 64 && 1 <= sendq && sendq <= 4096;
    let are_octets_within = is_within(sendq_bytes, SENDQ_LIMITS)
        && is_within(journal_bytes, JOURNAL_LIMITS);
    if !are_counts_within || !are_octets_within {
        return Err(ServeFault::BadSettings);
    }
    let register = Register::new(alloc)?;
    serve_named::<Brand, R, G, C, I>(rt, alloc, register, options, stop)
}

/// Serves whoever connects to `tcp`, or to `ws` by WebSocket, as `serve_with` does by the machine's clock.
///
/// # Errors
///
/// Those of `serve_with`.
pub fn serve_on<
    R: Threads + Wait + Clock + Net + RandomSource + Eprint + Copy + Drop + Send + Sync + 'static,
    G: Gate + Sync,
    I: Read + Send + Drop + 'static,
>(
    rt: &R,
    alloc: Global,
    tcp: Option<net::TcpListener>,
    ws: Option<net::TcpListener>,
    settings: Settings,
    limit: usize,
    workers: usize,
    sendq: usize,
    gate: &G,
    stop: I,
) -> Result<(), ServeFault> {
    let clock = SystemClock::new(*rt);
    let options = Options {
        tcp,
        ws,
        settings,
        limit,
        journal_bytes: JOURNAL_BYTES,
        workers,
        sendq,
        sendq_bytes: SENDQ_BYTES,
        gate,
        clock: &clock,
        is_quiet: false,
        has_log: false,
    };
    serve_with(rt, alloc, options, stop)
}
