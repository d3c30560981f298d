//! Writing what waits for a session on a thread of its own.
ghost use Rattle.crew.specs.Writing.{IsOver};
ghost use Rattle.session_io.specs.Wired.{IsSameWire};

use chronicle::Why;
use session_io::book::{FlushList, Naming};
use session_io::wire::{Flow, Sink, Wire};
use session_io::{Host, Server, flush, hang};
use std::alloc::Global;
use std::sync::Wait;
use std::time::Duration;

/// Seconds of the longest rest.
const REST: u64 = 5;

/// How often a shut session is written to that takes nothing, with a pause after each.
const TRIES: u32 = 250;

/// Writes what waits for a session that has a thread of its own for it, and rests until its bell is rung where
/// nothing waits. It ends after the session's last item went out, once the session is shut and nothing waits or its
/// stream takes nothing any more, or after a fault of the stream, with which the session is ended.
///
/// The wire that comes back is the one given: its writer is that of the session's outbox, and what went out is the
/// texts of the items that it took, in order, but for a rest (`Wire::in_step`).
pub fn write_on<L: Naming, W: Sink + Drop, R: Wait + Drop, H: Host>(
    rt: &R,
    alloc: Global,
    server: &Server<'_, L, R, H>,
    wire: Wire<L, W>,
) -> Wire<L, W>
    ensures same { IsSameWire wire result }
    ensures over { IsOver (H.finds_shut server.now.host.now wire.session) wire result }
{
    let session = wire.session();
    let mut wire = wire;
    let mut tries = 0;
    for _ in rt.forever() {
        let is_shut = server.host.is_shut(session);
        match wire.pump(rt) {
            Ok(Flow::Ended) => return wire,
            Ok(Flow::Idle) if is_shut => return wire,
            Ok(Flow::Idle) => wire.bell().rest(rt, Duration::from_secs(REST)),
            Ok(Flow::More) => {}
            Ok(Flow::Behind) if is_shut && TRIES <= tries => return wire,
            Ok(Flow::Behind) => {
                if is_shut {
                    tries += 1;
                }
                server.host.pause();
            }
            Err(_) => {
                let mut flushes = FlushList::new(alloc);
                let _ = hang(rt, server, session, Why::WriteFailed, &mut flushes);
                flush(server, &mut flushes);
                return wire;
            }
        }
    }
    unreachable!()
}
