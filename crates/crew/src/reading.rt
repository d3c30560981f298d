//! Reading a session's lines on a thread of its own.
ghost use Rattle.std.specs.Prelude.{◌≡◌};
ghost use Rattle.crew.specs.Doing.{DoesLines};

use crate::backlog::NoBacklog;
use crate::desk::{AtDesk, Desk};
use crate::working::Worked;
use chronicle::Why;
use session_io::book::outbox::Sender;
use session_io::book::{Baton, FlushList, Naming};
use session_io::{Host, Next, ReceiveBuffer, Server, Sockets, flush, hang, read_some};
use std::alloc::Global;
use std::cell::Cell;
use std::io::Read;
use std::sync::Wait;

/// Waits a little where nothing was there to be read.
fn rest_after<S: Sockets>(sockets: &S, next: Next) {
    if next == Next::Nothing {
        sockets.pause();
    }
}

/// Has lines done as they come, until no more come, one is refused or the session is shut. It answers whether all
/// were done, and why the session is ended then, if it is still open.
fn read_lines<L: Naming, I: Read, R: Wait + Drop, H: Host>(
    rt: &R,
    alloc: Global,
    server: &Server<'_, L, R, H>,
    baton: &mut Baton<L, Sender<R>>,
    input: &mut I,
    flushes: &mut FlushList,
) -> (bool, Why)
    ensures lines { DoesLines (I.remaining input.old)
        (I.remaining input.new) baton.old.pieces baton.new.pieces result.0 }
    ensures session { baton.new.session ≡ baton.old.session }
{
    let session = baton.session();
    let Ok(mut intake) = ReceiveBuffer::new(alloc) else {
        return (false, Why::Memory);
    };
    for _ in rt.forever() {
        if server.host.is_shut(session) {
            break;
        }
        let took = read_some(rt, server, &mut intake, baton, &NoBacklog, input, flushes);
        flush(server, flushes);
        rest_after(server.host, took.next);
        match took.next {
            Next::Over(why) => return (took.all, why),
            Next::More | Next::Short | Next::Nothing | Next::Left => {}
        }
    }
    (true, Why::ReadFailed)
}

/// Reads a session's lines and has them done by `work`, until its input ends or fails, a line isn't done, or the
/// session is shut. It pauses where nothing is there now. Then the session, where it is still open, is ended: with
/// ReadEnded where its input ended, with Memory where memory was wanting, else with ReadFailed.
///
/// The pieces done with the baton that comes back are those done before, then the first of the lines that end in the
/// octets that were read, in order; all of them where `all` is true.
pub fn read_on<'a, L: Naming, I: Read, R: Wait + Drop, H: Host>(
    rt: &R,
    alloc: Global,
    server: &Server<'a, L, R, H>,
    desk: &'a Desk,
    baton: Baton<L, Sender<R>>,
    input: &mut I,
) -> Worked<L, R>
    ensures lines { DoesLines (I.remaining input.old)
        (I.remaining input.new) baton.pieces result.baton.pieces result.all }
    ensures session { result.baton.session ≡ baton.session }
{
    let mut baton = baton;
    let session = baton.session();
    let mut flushes = FlushList::new(alloc);
    let host = AtDesk {
        rt,
        host: server.host,
        desk,
        slot: Cell::new(None),
    };
    let seated = Server {
        hall: server.hall,
        host: &host,
        burst: server.burst,
    };
    let (all, why) = read_lines(rt, alloc, &seated, &mut baton, input, &mut flushes);
    let _ = hang(rt, server, session, why, &mut flushes);
    flush(server, &mut flushes);
    Worked { baton, all }
}
