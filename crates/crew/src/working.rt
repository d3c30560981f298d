//! Doing lines under a slot.
ghost use Rattle.std.specs.Prelude.{◌≡◌, ◌++◌, ◌∷◌, [], true, IfOk, OnOk, OnErr};
ghost use Rattle.session_io.specs.Doing.{TellsOfNewest, IsNewestSeenTo, DoesFront};
ghost use Rattle.session_io.specs.Timing.{IsAt};

use crate::backlog::NoBacklog;
use crate::desk::{AtDesk, Desk};
use chronicle::{Moment, Why};
use line_grammar::Piece;
use session_io::book::outbox::Sender;
use session_io::book::{Baton, Done, FlushList, Hall, LineRefusal, Naming, ReadLine};
use session_io::{Gate, Host, PendingLines, Server, Until, do_lines, hang, line_at, lock_soon};
use std::cell::Cell;
use std::sync::{Mutex, Wait};

/// A line to do.
#[derive(Drop)]
pub struct Job<L: Naming, R: Wait + Drop> {
    pub baton: Baton<L, Sender<R>>,
    pub piece: Piece,
}

/// What comes back of a line: its baton, and what is told of it where it was done, or why it was refused.
#[derive(Drop)]
pub struct Back<L: Naming, R: Wait + Drop> {
    pub baton: Baton<L, Sender<R>>,
    pub outcome: Result<Done, LineRefusal>,
}

/// What comes back of many lines: their baton, and whether all were done.
#[derive(Drop)]
pub struct Worked<L: Naming, R: Wait + Drop> {
    pub baton: Baton<L, Sender<R>>,
    pub all: bool,
}

/// Does a line, at this moment or at that of the newest record where that is later. Where the journal has no room
/// for it, that is rolled first. It adds to `flushes` who got something, for whom what waits is still to be written.
///
/// Where the line was done, its piece is the newest of those done with the baton that comes back. Where it was
/// refused, the baton is the one that was given, unchanged. What is told of a line that was done, and its moment, is
/// what its own record says, which is the newest of the history that the baton shows.
pub fn work_one<L: Naming, R: Wait + Drop, G: Gate>(
    rt: &R,
    hall: &Mutex<Hall<L, Sender<R>>>,
    job: Job<L, R>,
    moment: Moment,
    gate: &G,
    flushes: &mut FlushList,
) -> Back<L, R>
    ensures done { OnOk result.outcome (result.baton.pieces ≡ job.baton.pieces ++ job.piece ∷ []) }
    ensures refused { OnErr result.outcome (result.baton ≡ job.baton) }
    ensures session { result.baton.session ≡ job.baton.session }
    ensures told { IfOk result.outcome
        (λ d. TellsOfNewest d result.baton.front result.baton.session) }
    ensures moment { OnOk result.outcome (IsAt moment result.baton.front) }
{
    let Job { mut baton, piece } = job;
    let session = baton.session();
    let Ok(mut line) = ReadLine::of(flushes.allocator(), piece) else {
        return Back {
            baton,
            outcome: Err(LineRefusal::Memory),
        };
    };
    let mut dropped = 0;
    gate.enter(session);
    let outcome = line_at(
        &mut *lock_soon(rt, hall),
        &mut baton,
        &mut line,
        moment,
        flushes,
        &mut dropped,
    );
    gate.leave(session);
    Back { baton, outcome }
}

/// Does pieces of a session in turn, until one is refused, under one slot and one hold of the lock but where somebody
/// is to be shut or many are to be told, which is done with both given back. Who got something and wasn't told stands
/// in `flushes` at the end, with those who stood there before, for the caller to tell them (`flush`) when it has no
/// more lines to do. Where there is no room for a record the journal is rolled; where there is none after that, the
/// session is ended with Shutdown, and the server is asked to stop. Where memory is wanting it is ended with that
/// reason.
///
/// The pieces done with the baton that comes back are those done before, then the first of these pieces, in order;
/// all of them where `all` is true. The newest line that was done was done at a moment that the clock showed, or at
/// that of the newest record where that is later, and whom it shut was shut.
pub fn work<'a, L: Naming, R: Wait + Drop, H: Host>(
    rt: &R,
    server: &Server<'a, L, R, H>,
    desk: &'a Desk,
    baton: Baton<L, Sender<R>>,
    pieces: &[Piece],
    flushes: &mut FlushList,
) -> Worked<L, R>
    ensures front { DoesFront baton.pieces result.baton.pieces pieces.now }
    ensures whole { result.all ≡ true → result.baton.pieces ≡ baton.pieces ++ pieces.now }
    ensures session { result.baton.session ≡ baton.session }
    ensures newest { IsNewestSeenTo (H.shows server.now.host.now)
        (H.shuts server.now.host.now) baton result.baton }
{
    let mut baton = baton;
    let Ok(mut lines) = PendingLines::copy_of(flushes.allocator(), pieces) else {
        let _ = hang(rt, server, baton.session(), Why::Memory, flushes);
        return Worked { baton, all: false };
    };
    let host = AtDesk {
        rt,
        host: server.host,
        desk,
        slot: Cell::new(None),
    };
    let seated = Server {
        hall: server.hall,
        host: &host,
        burst: server.burst,
    };
    let count = do_lines(rt, &seated, &NoBacklog, &mut baton, &mut lines, flushes);
    Worked {
        baton,
        all: count.until == Until::Done,
    }
}
