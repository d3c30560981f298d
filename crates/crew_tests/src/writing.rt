//! What waits for a session is written while the hall is locked.
use crate::acts::Act;
use crate::fakes::{Stream, TURNS, rest};
use crate::making::Guest;
use crate::scene::Scene;
use crate::trial::{Story, Who, WhoActs, try_out};
use book::{FlushList, Naming};
use chronicle::{SessionId, Why};
use crew::session_io::{Outlet, Sockets, Standing, write_some};
use outbox::Waker;
use std::sync::Wait;
use std::sync::atomic::{AtomicBool, Ordering};
use std::thread::{Threads, join};
use std::time::Clock;
use wire::Flow;

/// How many octets the answer of a `PING x` has.
const PONG: u64 = 33;

/// How an outlet's writing stands after it was written to, if it was.
pub(crate) fn writes<L: Naming, R: Wait>(rt: &R, outlet: &Outlet<L, Stream<'_>>) -> Option<Flow> {
    match &outlet.write_now(rt)?.flow {
        Ok(flow) => Some(*flow),
        Err(_) => None,
    }
}

/// The same where its stream is told to take more.
pub(crate) fn goes_on<L: Naming, R: Wait>(rt: &R, outlet: &Outlet<L, Stream<'_>>) -> Option<Flow> {
    match &outlet.go_on(rt)?.flow {
        Ok(flow) => Some(*flow),
        Err(_) => None,
    }
}

/// Looks until this is set, so many times at most.
fn wait_for<R: Clock>(rt: &R, is_set: &AtomicBool) {
    for _ in 0..TURNS {
        if is_set.load(Ordering::SeqCst) {
            return;
        }
        rest(rt);
    }
}

/// Looks until the answer is written, so many times at most, and answers whether it is.
fn is_written<L: Naming, R: Wait + Clock + Drop>(scene: &Scene<'_, L, R>) -> bool {
    for _ in 0..TURNS {
        if scene.around.tally.octets.load(Ordering::SeqCst) == PONG {
            return true;
        }
        rest(scene.rt);
    }
    false
}

/// Whether what waits is written by the session's own thread while this thread has the hall. Then
/// that thread ends, for the session is shut, and has its wire.
fn is_written_meanwhile<
    L: Naming + Send + Sync,
    R: Threads + Wait + Clock + Copy + Drop + Send + Sync,
>(scene: &Scene<'_, L, R>, al: &mut Guest<L, R>, bell: &Waker) -> bool {
    let session = al.session;
    let is_held = AtomicBool::new(false);
    let (comes_back, is_written) = join(
        scene.rt,
        || {
            wait_for(scene.rt, &is_held);
            al.writes_on(scene, scene.stream(0, false))
        },
        || {
            let hall = scene.stage.hall.lock(scene.rt);
            is_held.store(true, Ordering::SeqCst);
            let is_written = is_written(scene);
            drop(hall);
            scene.stage.host.shut(session);
            bell.ring();
            is_written
        },
    );
    comes_back && is_written
}

/// Whether a line is done, and its answer is written by the session's own thread while another has the hall.
pub(crate) fn write_alone<
    L: Naming + Send + Sync,
    R: Threads + Wait + Clock + Copy + Drop + Send + Sync,
>(scene: &Scene<'_, L, R>, al: &mut Guest<L, R>) -> bool {
    if al.does(scene, b"PING x").is_err() {
        return false;
    }
    match al.bell() {
        Some(bell) => is_written_meanwhile(scene, al, &bell),
        None => false,
    }
}

/// Writes what waits, and answers whether the session's writing is over.
pub(crate) fn is_over<L: Naming, R: Wait + Drop>(
    scene: &Scene<'_, L, R>,
    session: SessionId,
    outlet: &Outlet<L, Stream<'_>>,
    is_shut: bool,
) -> bool {
    let mut flushes = FlushList::new(scene.alloc);
    let written = write_some(
        scene.rt,
        &scene.stage,
        session,
        outlet,
        is_shut,
        &mut flushes,
    );
    written.standing == Standing::Over
}

/// The same while another thread has the hall.
pub(crate) fn is_over_meanwhile<
    L: Naming + Send + Sync,
    R: Threads + Wait + Clock + Copy + Drop + Send + Sync,
>(
    scene: &Scene<'_, L, R>,
    session: SessionId,
    outlet: &Outlet<L, Stream<'_>>,
    is_shut: bool,
) -> bool {
    let hall = scene.stage.hall.lock(scene.rt);
    let (is_over, ()) = join(scene.rt, || is_over(scene, session, outlet, is_shut), || {});
    drop(hall);
    is_over
}

/// A line is answered, and its answer is written by one thread while another has the hall. Once the session is shut
/// and nothing waits its writing is over. The outlet gives its wire to its own session, once.
const BESIDE: [WhoActs; 9] = [
    (Who::Al, Act::Comes),
    (Who::Al, Act::Does(b"PING x")),
    (Who::Al, Act::Opens(0, false)),
    (Who::Al, Act::OverMeanwhile(false, false)),
    (Who::Al, Act::Took(PONG)),
    (Who::Al, Act::OverMeanwhile(true, true)),
    (Who::Al, Act::GivesTo(2, false)),
    (Who::Al, Act::Gives(true)),
    (Who::Al, Act::Gives(false)),
];

/// A line is answered, and its answer is written by the session's own thread while another has the hall.
const ALONE: [WhoActs; 3] = [
    (Who::Al, Act::Comes),
    (Who::Al, Act::WritesAlone),
    (Who::Al, Act::Took(PONG)),
];

/// A stream fails: the session is ended for that, once, and its connection is shut; by a worker, or
/// by the session's own thread.
const BY_A_WORKER: [WhoActs; 5] = [
    (Who::Al, Act::Comes),
    (Who::Al, Act::Does(b"PING x")),
    (Who::Al, Act::Opens(0, true)),
    (Who::Al, Act::Over(false, true)),
    (Who::Al, Act::IsEnded(3, Why::WriteFailed)),
];

const BY_ITS_OWN: [WhoActs; 4] = [
    (Who::Al, Act::Comes),
    (Who::Al, Act::Does(b"PING x")),
    (Who::Al, Act::WritesOn),
    (Who::Al, Act::IsEnded(3, Why::WriteFailed)),
];

/// A session's stream fails: it is hung with WriteFailed, once, and shut, whether a worker or a thread of its own
/// writes.
#[test]
fn a_session_is_hung_where_its_stream_fails(rt: HostRuntime) {
    try_out(&rt, rt.alloc(), &Story::of(&[(1, &BY_A_WORKER)]));
    try_out(&rt, rt.alloc(), &Story::of(&[(1, &BY_ITS_OWN)]));
}

/// What waits for a session is written by one thread while another has the hall; once the session is shut and
/// nothing waits, its writing is over; its outlet keeps its wire from another session, gives it up once, and then
/// has none.
#[test]
fn what_waits_is_written_while_the_hall_is_locked(rt: HostRuntime) {
    try_out(&rt, rt.alloc(), &Story::of(&[(1, &BESIDE)]));
}

/// The same by a thread of the session's own, which ends once the session is shut and nothing waits, and gives the
/// session's wire back.
#[test]
fn what_waits_is_written_by_the_sessions_own_thread(rt: HostRuntime) {
    try_out(&rt, rt.alloc(), &Story::of(&[(1, &ALONE)]));
}
