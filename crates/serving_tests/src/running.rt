//! A server that runs while its clients talk.
use crate::client::Until;
use crate::clocks::Dial;
use crate::gates::Turnstile;
use crate::talks::{Story, talk};
use chronicle::Moment;
use line_grammar::Octets;
use registration::{Accounts, Settings};
use serving::{Options, serve_on, serve_with};
use std::alloc::{AllocError, Global};
use std::net::{IpAddr, Ipv4Addr, Net, TcpListener, TcpStream};
use std::random::RandomSource;
use std::sync::atomic::{AtomicBool, Ordering};
use std::sync::{Arc, Wait};
use std::thread::Threads;
use std::time::Clock;
use std::{io, thread};

/// The settings of a server for 16 sessions.
fn settings(alloc: Global) -> Result<Settings, AllocError> {
    Ok(Settings {
        server: Octets::copy_of(alloc, b"irc.example")?,
        info: Octets::copy_of(alloc, b"halld")?,
        version: Octets::copy_of(alloc, b"halld-1")?,
        created: Moment::new(0),
        motd: None,
        accounts: Accounts::new(alloc),
        sessions: 16,
    })
}

/// Serves with two workers, by the machine's clock, or by a clock that is set by hand where a story tells of time.
/// Whether that ends well.
fn serves<R>(
    rt: &R,
    alloc: Global,
    listener: TcpListener,
    settings: Settings,
    gate: &Turnstile<R>,
    clock: &Dial,
    story: Story,
    stop: Until<R>,
) -> bool
where
    R: Threads + Wait + Clock + Net<Listener = TcpListener, Stream = TcpStream> + Eprint,
    R: RandomSource + Copy + Drop + Send + Sync + 'static,
{
    let (tcp, ws) = match story {
        Story::ByWebSocket => (None, Some(listener)),
        _ => (Some(listener), None),
    };
    if !matches!(story, Story::Silence | Story::Jump) {
        return serve_on(rt, alloc, tcp, ws, settings, 1000, 2, 16, gate, stop).is_ok();
    }
    let options = Options {
        tcp,
        ws,
        settings,
        limit: 1000,
        journal_bytes: 65_536,
        workers: 2,
        sendq: 16,
        sendq_bytes: 65_536,
        gate,
        clock,
        is_quiet: false,
        has_log: false,
    };
    serve_with(rt, alloc, options, stop).is_ok()
}

/// Whether a server with two workers ends well, after clients heard what they should.
pub(crate) fn is_served<R>(
    rt: &R,
    alloc: Global,
    gate: &Turnstile<R>,
    story: Story,
) -> io::Result<bool>
where
    R: Threads + Wait + Clock + Net<Listener = TcpListener, Stream = TcpStream> + Eprint,
    R: RandomSource + Copy + Drop + Send + Sync + 'static,
{
    let listener = TcpListener::bind(rt, (IpAddr::V4(Ipv4Addr::new(127, 0, 0, 1)), 0))?;
    let address = listener.local_addr()?;
    let settings = settings(alloc)?;
    let Ok(has_ended) = Arc::new(alloc, AtomicBool::new(false)) else {
        return Ok(false);
    };
    let Ok(again) = Arc::try_clone(&has_ended) else {
        return Ok(false);
    };
    let stop = Until {
        rt: *rt,
        has_ended: again,
    };
    let clock = Dial::new();
    let dial = &clock;
    let served = thread::scope(thread::scope_env(), rt, |scope| {
        let serving = scope.spawn(move || {
            serves(rt, alloc, listener, settings, gate, dial, story, stop)
        });
        let heard = talk(rt, alloc, address, gate, dial, story).unwrap_or(false);
        has_ended.store(true, Ordering::SeqCst);
        match serving {
            Ok(serving) => serving.join(rt) && heard,
            Err(_) => false,
        }
    });
    Ok(served)
}
