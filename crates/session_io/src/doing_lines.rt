//! Doing lines.
//!
//! What was done under a lock is known by values that come out of it: a line's record is the newest of the history
//! that its baton shows, so what is told of it, and its moment, are compared with that.
//!
//! No call holds the hall's lock while it waits for a bell, a stream or a client, and the gate is passed before the
//! lock is asked for. The hall is held from one line of a read to the next, and given back when somebody is to be
//! shut, many are to be written to, or a line was refused. Who got something is written to after so many lines
//! (`burst`), so that the answers of one read don't fill their own session's outbox, and otherwise by the caller.
ghost use Rattle.std.specs.Prelude.{◌≡◌, ◌≢◌, ◌≤◌, ◌++◌, ◌∷◌, [], length, take, drop, true, false};
ghost use Rattle.std.specs.Prelude.{IfOk, IfSome, OnOk, OnErr};
ghost use Rattle.session_io.specs.Doing.{TellsOfNewest, IsSeenTo, IsNewestSeenTo};
ghost use Rattle.session_io.specs.Filling.{IsFront};
ghost use Rattle.session_ends.specs.Timing.{IsAt};

use crate::backlog::Backlog;
use crate::read_ahead::{ReadAhead, line_of};
use chronicle::{Moment, SessionId};
use line_grammar::Piece;
use receive_buffer::PendingLines;
use session_ends::book::outbox::Sender;
use session_ends::book::{
    Baton, Done, FlushList, Hall, LineRefusal, Naming, ReadLine, RollRefusal,
};
use session_ends::{Host, Server, are_many, end_refused, flush, flush_many, later, shut_after};
use std::alloc::AllocError;
use std::hint::spin_loop;
use std::mem;
use std::sync::{Mutex, MutexGuard, Wait};

/// Why no further line was done.
#[derive(Clone, Copy, Debug, Drop, PartialEq)]
pub enum Until {
    /// All were done.
    Done,
    /// One wasn't.
    Refused,
    /// Much waits for the session.
    Much,
}

/// How many of some lines were done, and why no more.
#[derive(Clone, Copy, Drop)]
pub struct Count {
    pub done: usize,
    pub until: Until,
}

/// How often a thread looks whether the hall is free before it sleeps.
const LOOKS: u32 = 50;

/// Pauses of the processor between two looks.
const PAUSES: u32 = 8;

/// Takes the lock of the hall. It looks for a while whether it is free before it sleeps until it is, since a line is
/// done in less time than it takes to wake a thread, and only as many threads as there are workers ask for the lock
/// at a time.
pub fn lock_soon<'a, L: Naming, R: Wait + Drop>(
    rt: &R,
    hall: &'a Mutex<Hall<L, Sender<R>>>,
) -> MutexGuard<'a, Hall<L, Sender<R>>> {
    for _ in 0..LOOKS {
        if let Some(guard) = hall.try_lock() {
            return guard;
        }
        for _ in 0..PAUSES {
            spin_loop();
        }
    }
    hall.lock(rt)
}

/// Makes room in the hall's journal for a line, if it may come: where there is none the journal is rolled. It answers
/// how many records were dropped, and nobody else takes the room, since the hall is held.
fn make_room<L: Naming, R: Wait + Drop>(
    hall: &mut Hall<L, Sender<R>>,
    baton: &Baton<L, Sender<R>>,
    moment: Moment,
) -> Result<usize, LineRefusal>
    ensures { hall.new.history ≡ hall.old.history }
{
    match hall.may_line(baton, moment) {
        Ok(()) => return Ok(0),
        Err(LineRefusal::JournalFull) => {}
        Err(refusal) => return Err(refusal),
    }
    match hall.roll() {
        Ok(rolled) => Ok(rolled.dropped),
        Err(RollRefusal::Memory) => Err(LineRefusal::Memory),
        Err(RollRefusal::Busy) => Err(LineRefusal::Busy),
    }
}

/// Does a line in the hall, at this moment or at that of the newest record where that is later, and adds who got
/// something, for whom what waits is still to be written. Where the journal has no room for it, that is rolled first,
/// and so many records are dropped.
///
/// Where the line was done, its piece is the newest of those done with the baton. Where it was refused, the baton and
/// the line are unchanged. What is told of a line that was done, and its moment, is what its own record says, which is
/// the newest of the history that the baton shows.
pub fn line_at<L: Naming, R: Wait + Drop>(
    hall: &mut Hall<L, Sender<R>>,
    baton: &mut Baton<L, Sender<R>>,
    line: &mut ReadLine,
    moment: Moment,
    flushes: &mut FlushList,
    dropped: &mut usize,
) -> Result<Done, LineRefusal>
    ensures done { OnOk result (baton.new.pieces ≡ baton.old.pieces ++ line.old ∷ []) }
    ensures refused { OnErr result (baton.new ≡ baton.old) }
    ensures left { OnErr result (line.new ≡ line.old) }
    ensures session { baton.new.session ≡ baton.old.session }
    ensures told { IfOk result (λ d. TellsOfNewest d baton.new.front baton.new.session) }
    ensures moment { OnOk result (IsAt moment baton.new.front) }
{
    flushes.begin();
    let moment = later(moment, hall.last_moment());
    *dropped = make_room(hall, &*baton, moment)?;
    hall.line_read(baton, line, moment, flushes)
}

/// The hall while a thread has it, from one line of a session to the next, and the moment of what is done in it.
#[derive(Drop)]
struct HallGuard<'a, L: Naming, R: Wait + Drop> {
    hall: Option<MutexGuard<'a, Hall<L, Sender<R>>>>,
    moment: Moment,
    /// Whether the hall wasn't taken since the clock showed the moment.
    is_new: bool,
}

impl<'a, L: Naming, R: Wait + Drop> HallGuard<'a, L, R> {
    /// The hall, which is taken where the thread has it not.
    fn take<H: Host>(
        &mut self,
        rt: &R,
        server: &Server<'a, L, R, H>,
        session: SessionId,
    ) -> MutexGuard<'a, Hall<L, Sender<R>>>
        requires { H.shows server.now.host.now self.old.moment }
        ensures { H.shows server.now.host.now self.new.moment }
    {
        if let Some(hall) = self.hall.take() {
            return hall;
        }
        server.host.enter(session);
        if !mem::replace(&mut self.is_new, false) {
            self.moment = server.host.now();
        }
        lock_soon(rt, server.hall)
    }

    /// Reads more of these pieces, of which the first are read, as many as may be done in one hold, where the thread
    /// hasn't the hall. A sole piece is read where it is done, just before the hall is taken.
    fn read_ahead(&self, ahead: &mut ReadAhead, pieces: &[Piece], burst: usize)
        requires { IsFront ahead.old pieces.now }
        ensures { IsFront ahead.new pieces.now }
    {
        if self.hall.is_none() && 1 < pieces.len() {
            ahead.read(pieces, burst.max(1));
        }
    }

    /// Gives the hall back, where the thread has it.
    fn give_back<H: Host>(&mut self, server: &Server<'a, L, R, H>, session: SessionId)
        ensures { self.new.moment ≡ self.old.moment }
    {
        if let Some(hall) = self.hall.take() {
            drop(hall);
            server.host.leave(session);
        }
    }

    /// Gives the hall back and ends a session whose line was refused for want of memory or of room.
    fn refuse<H: Host>(
        &mut self,
        rt: &R,
        server: &Server<'a, L, R, H>,
        session: SessionId,
        refusal: LineRefusal,
        flushes: &mut FlushList,
    )
        ensures { self.new.moment ≡ self.old.moment }
    {
        self.give_back(server, session);
        let _ = end_refused(rt, server, session, refusal, flushes);
    }

    /// Does a line in the hall, which it takes where the thread has it not, and answers whether it was done. Where it
    /// shut somebody, many are to be told, or it was refused, this gives the hall back and sees to that.
    fn line<H: Host>(
        &mut self,
        rt: &R,
        server: &Server<'a, L, R, H>,
        baton: &mut Baton<L, Sender<R>>,
        line: &mut ReadLine,
        flushes: &mut FlushList,
    ) -> bool
        requires { H.shows server.now.host.now self.old.moment }
        ensures done { result ≡ true → baton.new.pieces ≡ baton.old.pieces ++ line.old ∷ [] }
        ensures not_done { result ≡ false → baton.new ≡ baton.old }
        ensures session { baton.new.session ≡ baton.old.session }
        ensures seen_to { result ≡ true
            → IsSeenTo (H.shows server.now.host.now) (H.shuts server.now.host.now) baton.new }
        ensures shown { H.shows server.now.host.now self.new.moment }
    {
        let session = baton.session();
        let mut hall = self.take(rt, server, session);
        let mut dropped = 0;
        let outcome = line_at(&mut *hall, baton, line, self.moment, flushes, &mut dropped);
        if dropped != 0 {
            server.host.note_roll(dropped);
        }
        self.hall = Some(hall);
        match outcome {
            Ok(done) => {
                let shuts = done.shut || !done.missed.as_slice().is_empty();
                if shuts || are_many(flushes, server.burst) {
                    self.give_back(server, session);
                    flush_many(server, flushes);
                }
                shut_after(server.host, session, &done);
                true
            }
            Err(refusal) => {
                self.refuse(rt, server, session, refusal, flushes);
                false
            }
        }
    }

    /// Does one piece, as it was read before, where it was, and answers whether it was done. One that wasn't is gone.
    fn do_piece<H: Host>(
        &mut self,
        rt: &R,
        server: &Server<'a, L, R, H>,
        baton: &mut Baton<L, Sender<R>>,
        piece: Piece,
        line: Option<ReadLine>,
        flushes: &mut FlushList,
    ) -> bool
        requires shown { H.shows server.now.host.now self.old.moment }
        requires read { IfSome line (λ r. r ≡ piece) }
        ensures done { result ≡ true → baton.new.pieces ≡ baton.old.pieces ++ piece ∷ [] }
        ensures not_done { result ≡ false → baton.new ≡ baton.old }
        ensures session { baton.new.session ≡ baton.old.session }
        ensures seen_to { result ≡ true
            → IsSeenTo (H.shows server.now.host.now) (H.shuts server.now.host.now) baton.new }
        ensures shown { H.shows server.now.host.now self.new.moment }
    {
        match line_of(flushes.allocator(), piece, line) {
            Ok(mut line) => self.line(rt, server, baton, &mut line, flushes),
            Err(AllocError) => {
                self.refuse(rt, server, baton.session(), LineRefusal::Memory, flushes);
                false
            }
        }
    }

    /// Whether much waits for the session. Where it does, this gives the hall back, has all told who got something,
    /// by which what waits is written as far as the stream takes it, and looks again.
    fn finds_much<H: Host, B: Backlog>(
        &mut self,
        server: &Server<'a, L, R, H>,
        session: SessionId,
        backlog: &B,
        flushes: &mut FlushList,
    ) -> bool
        ensures moment { self.new.moment ≡ self.old.moment }
        ensures much { result ≡ true → B.finds_much backlog.now }
    {
        if !backlog.is_much() {
            return false;
        }
        self.give_back(server, session);
        flush(server, flushes);
        backlog.is_much()
    }
}

/// Does lines of a session in turn, until one is refused or much waits for the session, under one hold of the lock
/// but where somebody is to be shut or many are to be told, which is done with the hall given back. Those of one hold
/// are read before it. A line is taken out when it is its turn, also one that is refused. Who got something and
/// wasn't told stands in `flushes` at the end, with those who stood there before, for the caller to tell them
/// (`flush`) when it has no more lines to do. Where there is no room for a record the journal is rolled; where there
/// is none after that, the session is ended with Shutdown, and the server is asked to stop. Where memory is wanting it
/// is ended with that reason.
///
/// The pieces done with the baton are those done before, then the first of these lines, in order; where none was
/// refused the others are left. The newest line that was done was done at a moment that the clock showed, or at that
/// of the newest record where that is later, and whom it shut was shut.
pub fn do_lines<'a, L: Naming, R: Wait + Drop, H: Host, B: Backlog>(
    rt: &R,
    server: &Server<'a, L, R, H>,
    backlog: &B,
    baton: &mut Baton<L, Sender<R>>,
    lines: &mut PendingLines,
    flushes: &mut FlushList,
) -> Count
    ensures count { result.done ≤ length lines.old }
    ensures front { baton.new.pieces ≡ baton.old.pieces ++ take result.done lines.old }
    ensures left { result.until ≢ Until.Refused → lines.new ≡ drop result.done lines.old }
    ensures whole { result.until ≡ Until.Done → result.done ≡ length lines.old }
    ensures much { result.until ≡ Until.Much → B.finds_much backlog.now }
    ensures session { baton.new.session ≡ baton.old.session }
    ensures newest { IsNewestSeenTo (H.shows server.now.host.now)
        (H.shuts server.now.host.now) baton.old baton.new }
{
    let session = baton.session();
    let mut held = HallGuard {
        hall: None,
        moment: server.host.now(),
        is_new: true,
    };
    let mut ahead = ReadAhead::new(flushes.allocator());
    let count = lines.as_slice().len();
    for done in 0..count {
        held.read_ahead(&mut ahead, lines.as_slice(), server.burst);
        let Some(piece) = lines.take_first() else {
            unreachable!();
        };
        if !held.do_piece(rt, server, baton, piece, ahead.next(), flushes) {
            return Count {
                done,
                until: Until::Refused,
            };
        }
        if held.finds_much(server, session, backlog, flushes) {
            return Count {
                done: done + 1,
                until: Until::Much,
            };
        }
    }
    held.give_back(server, session);
    Count {
        done: count,
        until: Until::Done,
    }
}
