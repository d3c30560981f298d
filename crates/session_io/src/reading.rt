//! Reading a session's lines.
ghost use Rattle.std.specs.Prelude.{◌≡◌, ◌≢◌, List, [], true, false, IfErr, OnOk, OnErr};
ghost use Rattle.line_grammar.specs.declared.splitter.Piece.{Piece};
ghost use Rattle.session_io.specs.Doing.{DoesRead, is_left, is_over};
ghost use Rattle.session_io.specs.Filling.{Fills};

use crate::backlog::Backlog;
use crate::doing_lines::{Until, do_lines};
use chronicle::Why;
use receive_buffer::{ReceiveBuffer, Unread};
use session_ends::book::outbox::Sender;
use session_ends::book::{Baton, FlushList, Naming};
use session_ends::{Host, Server};
use std::io::Read;
use std::sync::Wait;

/// How a session's reading goes on after a read.
#[derive(Clone, Copy, Debug, Drop, PartialEq)]
pub enum Next {
    /// More may be there.
    More,
    /// All that was there was read.
    Short,
    /// Nothing was there.
    Nothing,
    /// Much waits for the session: nothing is read until less does, and lines may be left in the intake.
    Left,
    /// No more is read. The session, if it is still open, is to be ended for this reason.
    Over(Why),
}

/// What came of a read: whether all lines were done, and how the session's reading goes on.
#[derive(Clone, Copy, Drop)]
pub struct Took {
    pub all: bool,
    pub next: Next,
}

/// What came of a read that brought no lines.
fn took_of(unread: Unread) -> Took
    requires { unread.why ≡ None → unread.all ≡ true }
    ensures all { result.all ≡ unread.all }
    ensures goes_on { is_over result.next ≡ false → result.all ≡ true }
    ensures not_left { is_left result.next ≡ false }
{
    let next = match unread.why {
        Some(why) => Next::Over(why),
        None => Next::Nothing,
    };
    Took {
        all: unread.all,
        next,
    }
}

/// What came of a read whose lines were done until here. `then` says how reading goes on where all were.
fn took_after(until: Until, then: Next) -> Took
    requires { is_left then ≡ false }
    ensures goes_on { is_over result.next ≡ false → result.all ≡ true }
    ensures whole { result.all ≡ true → is_left result.next ≡ false → until ≡ Until.Done }
    ensures much { is_left result.next ≡ true → until ≡ Until.Much }
    ensures refused { result.all ≡ true → until ≢ Until.Refused }
{
    let (all, next) = match until {
        Until::Done => (true, then),
        Until::Refused => (false, Next::Over(Why::ReadFailed)),
        Until::Much => (true, Next::Left),
    };
    Took { all, next }
}

/// Reads once, where the intake has no lines left. It answers whether more may be there at once, or why no lines came.
fn fill<I: Read>(intake: &mut ReceiveBuffer, input: &mut I) -> Result<bool, Unread>
    ensures fills { OnOk result (Fills (I.remaining input.old)
        (I.remaining input.new) intake.old intake.new) }
    ensures lines { IfErr result (λ u. (done : List Piece) → DoesRead (I.remaining input.old)
        (I.remaining input.new) intake.old intake.new done done u.all) }
    ensures none_left { OnErr result (intake.new.pieces ≡ []) }
    ensures nothing { IfErr result (λ u. u.why ≡ None → u.all ≡ true) }
{
    if intake.has_lines() {
        return Ok(true);
    }
    match intake.take_in(input) {
        Ok(()) => Ok(intake.is_full()),
        Err(unread) => Err(unread),
    }
}

/// Has the lines done that the intake has left, if there are any, and else reads once and has the lines done that
/// end in what that brings, as `do_lines` does. While much waits for the session, by its backlog, nothing is read and
/// no further line is done: `Next::Left`; before that, all who got something are told. Else who got something stands
/// in `flushes`, as after `do_lines`. A stream that has nothing now is no fault: `Next::Nothing`.
///
/// Whatever stream came before, of which the intake kept what is unfinished: of the lines that were left in the
/// intake, and then of those that end in the octets that were read, the first were done with the baton, in order.
/// Where `all` is true, which it is where reading goes on, the others are left in the intake, in order, and there are
/// none unless much was found to wait.
pub fn read_some<L: Naming, I: Read, B: Backlog, R: Wait + Drop, H: Host>(
    rt: &R,
    server: &Server<'_, L, R, H>,
    intake: &mut ReceiveBuffer,
    baton: &mut Baton<L, Sender<R>>,
    backlog: &B,
    input: &mut I,
    flushes: &mut FlushList,
) -> Took
    ensures lines { DoesRead (I.remaining input.old)
        (I.remaining input.new) intake.old intake.new baton.old.pieces baton.new.pieces result.all }
    ensures goes_on { is_over result.next ≡ false → result.all ≡ true }
    ensures none_left { result.all ≡ true → is_left result.next ≡ false → intake.new.pieces ≡ [] }
    ensures much { is_left result.next ≡ true → B.finds_much backlog.now }
    ensures session { baton.new.session ≡ baton.old.session }
{
    if backlog.is_much() {
        return Took {
            all: true,
            next: Next::Left,
        };
    }
    let is_full = match fill(intake, input) {
        Ok(is_full) => is_full,
        Err(unread) => return took_of(unread),
    };
    let then = if is_full { Next::More } else { Next::Short };
    let mut lines = intake.take_lines();
    let count = do_lines(rt, server, backlog, baton, &mut lines, flushes);
    intake.put_back(lines);
    took_after(count.until, then)
}
