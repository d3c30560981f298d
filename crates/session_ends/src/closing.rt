//! The end of a session.
ghost use Rattle.std.specs.Prelude.{◌≡◌, ℤ, All, Some, IfOk, IfErr, IfSome, OnOk, OnErr};
ghost use Rattle.book.specs.Ledger.{after_reap};
ghost use Rattle.book.specs.Reaping.{IsReapRefusal};
ghost use Rattle.chronicle.specs.History.{last_moment};
ghost use Rattle.session_ends.specs.Sweeping.{Sweeps, ended_next};
ghost use Rattle.session_ends.specs.Timing.{IsLater};

use crate::disconnecting::shut_missed;
use crate::flushing::{flush, flush_many};
use crate::server::{Host, Server, later};
use book::outbox::{ChannelName, Sender, Writer};
use book::{Baton, Done, FlushList, Hall, Left, Naming, ReapRefusal, Stub, SweepRefusal};
use chronicle::{Moment, SessionId, Why};
use snapshots::Snapshot;
use std::alloc::Global;
use std::sync::Wait;

/// What came of a sweep, with the hall before that and after it, which exist for clauses alone.
#[derive(Drop)]
pub struct SweepOutcome<L: Naming, R: Wait + Drop> {
    pub answer: Result<Option<Done>, SweepRefusal>,
    /// Who was to be swept next, if anybody was, and why that session ended.
    pub ended: Option<(SessionId, Why)>,
    pub moment: Moment,
    pub before: Snapshot<Hall<L, Sender<R>>>,
    pub after: Snapshot<Hall<L, Sender<R>>>,
}

/// Sweeps one session in the hall, at this moment or at that of the newest record where that is later, and adds who
/// got something.
fn sweep_in<L: Naming, R: Wait + Drop>(
    hall: &mut Hall<L, Sender<R>>,
    moment: Moment,
    flushes: &mut FlushList,
) -> SweepOutcome<L, R>
    ensures sweeps { Sweeps result.before.value result.after.value result.moment result.answer }
    ensures ended { result.ended ≡ ended_next result.before.value }
    ensures moment { IsLater moment (last_moment result.before.value.history) result.moment }
{
    let moment = later(moment, hall.last_moment());
    flushes.begin();
    let ended = match hall.next_to_sweep() {
        Some(session) => Some((session, hall.why_of(session))),
        None => None,
    };
    let before = Snapshot::of(&*hall);
    let answer = hall.sweep_with_flushes(moment, flushes);
    let after = Snapshot::of(&*hall);
    SweepOutcome {
        answer,
        ended,
        moment,
        before,
        after,
    }
}

/// Sweeps the first session that is shut and isn't gone, by a record that tells those who share a channel with it,
/// and shuts whoever missed that. Who got something is added to `flushes`.
///
/// The answer tells what came of it in the server's hall, at a moment that the clock showed or at that of the newest
/// record where that is later: the record; that nobody was to be swept; or why there is none. It tells, too, whom that
/// is of, and why that session ended.
pub fn sweep<L: Naming, R: Wait + Drop, H: Host>(
    rt: &R,
    server: &Server<'_, L, R, H>,
    flushes: &mut FlushList,
) -> SweepOutcome<L, R>
    ensures sweeps { Sweeps result.before.value result.after.value result.moment result.answer }
    ensures ended { result.ended ≡ ended_next result.before.value }
    ensures moment { (t : ℤ) × H.shows server.now.host.now t
        × IsLater t (last_moment result.before.value.history) result.moment }
    ensures shut { IfOk result.answer
        (λ o. IfSome o (λ d. All (H.shuts server.now.host.now) d.missed)) }
{
    let moment = server.host.now();
    let swept = sweep_in(&mut *server.hall.lock(rt), moment, flushes);
    flush_many(server, flushes);
    if let Ok(Some(done)) = &swept.answer {
        shut_missed(server.host, done);
    }
    swept
}

/// Sweeps until nobody is to be swept, or memory is wanting.
fn sweep_all<L: Naming, R: Wait + Drop, H: Host>(
    rt: &R,
    server: &Server<'_, L, R, H>,
    flushes: &mut FlushList,
) {
    for _ in rt.forever() {
        if !matches!(sweep(rt, server, flushes).answer, Ok(Some(_))) {
            break;
        }
    }
    flush(server, flushes);
}

/// What came of giving a session up: what is left of it, or why it can't be given up yet, with its three tokens. The
/// halls before and after exist for clauses alone.
#[derive(Drop)]
pub struct ReapOutcome<L: Naming, R: Wait + Drop> {
    pub left: Result<
        Left<L>,
        (
            ReapRefusal,
            Baton<L, Sender<R>>,
            Stub<L, ChannelName>,
            Writer,
        ),
    >,
    pub before: Snapshot<Hall<L, Sender<R>>>,
    pub after: Snapshot<Hall<L, Sender<R>>>,
}

/// Gives a session up with its tokens, which are all of that session. It waits for nothing but the lock: where the
/// session isn't gone yet, since it wasn't swept, the tokens come back, to be tried with again.
///
/// What comes back is of the baton's session, which so was swept and reaped in the server's hall; or why it wasn't,
/// and the tokens that were given.
pub fn give_up<L: Naming, R: Wait + Drop, H: Host>(
    rt: &R,
    server: &Server<'_, L, R, H>,
    baton: Baton<L, Sender<R>>,
    stub: Stub<L, ChannelName>,
    writer: Writer,
) -> ReapOutcome<L, R>
    requires one { stub.session ≡ baton.session }
    requires own { stub.outbox ≡ Some writer.channel }
    ensures ok { OnOk result.left
        (result.after.value ≡ after_reap result.before.value baton.session) }
    ensures session { IfOk result.left (λ left. left.session ≡ baton.session) }
    ensures refusal { IfErr result.left
        (λ e. IsReapRefusal result.before.value baton.session stub.session e.0) }
    ensures same { OnErr result.left (result.after.value ≡ result.before.value) }
    ensures back { IfErr result.left (λ e. (e.1 ≡ baton) × (e.2 ≡ stub) × (e.3 ≡ writer)) }
{
    let mut hall = server.hall.lock(rt);
    let hall = &mut *hall;
    let before = Snapshot::of(&*hall);
    let left = hall.reap(baton, stub, writer);
    let after = Snapshot::of(&*hall);
    ReapOutcome {
        left,
        before,
        after,
    }
}

/// Sweeps all who are shut, and gives a session up with its tokens, as `give_up` does. Who got something stands in
/// `flushes` then, or was told.
///
/// What comes back is of the baton's session, which so was swept and reaped; or the tokens are those that were given.
pub fn close_now<L: Naming, R: Wait + Drop, H: Host>(
    rt: &R,
    server: &Server<'_, L, R, H>,
    baton: Baton<L, Sender<R>>,
    stub: Stub<L, ChannelName>,
    writer: Writer,
    flushes: &mut FlushList,
) -> Result<Left<L>, (Baton<L, Sender<R>>, Stub<L, ChannelName>, Writer)>
    requires one { stub.session ≡ baton.session }
    requires own { stub.outbox ≡ Some writer.channel }
    ensures session { IfOk result (λ left. left.session ≡ baton.session) }
    ensures back { IfErr result
        (λ tokens. (tokens.0 ≡ baton) × (tokens.1 ≡ stub) × (tokens.2 ≡ writer)) }
{
    sweep_all(rt, server, flushes);
    let ReapOutcome { left, .. } = give_up(rt, server, baton, stub, writer);
    match left {
        Ok(left) => Ok(left),
        Err((_, baton, stub, writer)) => Err((baton, stub, writer)),
    }
}

/// Sweeps all who are shut, and gives a session up with its tokens, which are all of that session. Where it isn't
/// gone yet, or memory was wanting, it pauses and tries again.
///
/// What comes back is of the baton's session, which so was swept and reaped.
pub fn close_up<L: Naming, R: Wait + Drop, H: Host>(
    rt: &R,
    alloc: Global,
    server: &Server<'_, L, R, H>,
    baton: Baton<L, Sender<R>>,
    stub: Stub<L, ChannelName>,
    writer: Writer,
) -> Left<L>
    requires one { stub.session ≡ baton.session }
    requires own { stub.outbox ≡ Some writer.channel }
    ensures session { result.session ≡ baton.session }
{
    let mut flushes = FlushList::new(alloc);
    let mut tokens = (baton, stub, writer);
    for _ in rt.forever() {
        let (baton, stub, writer) = tokens;
        match close_now(rt, server, baton, stub, writer, &mut flushes) {
            Ok(left) => return left,
            Err(again) => tokens = again,
        }
        server.host.pause();
    }
    unreachable!()
}
