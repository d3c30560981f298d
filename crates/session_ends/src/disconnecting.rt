//! Sessions are ended, and connections shut.
ghost use Rattle.std.specs.Prelude.{◌≡◌, ℤ, All, true, OnOk, IsSomeAnd};
ghost use Rattle.chronicle.specs.History.{last_moment};
ghost use Rattle.session_ends.specs.Hanging.{Hangs};
ghost use Rattle.session_ends.specs.Timing.{IsLater};

use crate::flushing::flush_many;
use crate::server::{Host, Server, Sockets, later};
use book::outbox::Sender;
use book::{Done, FlushList, Hall, HangRefusal, Hung, LineRefusal, Naming};
use chronicle::{Moment, SessionId, Why};
use snapshots::Snapshot;
use std::sync::Wait;

/// What came of ending a session, with the hall before that and after it, which exist for clauses alone: there is
/// one hall for all that `L` names, so it is the server's.
#[derive(Drop)]
pub struct HangOutcome<L: Naming, R: Wait + Drop> {
    pub hung: Result<Hung, HangRefusal>,
    pub moment: Moment,
    pub before: Snapshot<Hall<L, Sender<R>>>,
    pub after: Snapshot<Hall<L, Sender<R>>>,
}

/// Ends a session in the hall, at this moment, and adds who got something.
pub fn hang_at<L: Naming, R: Wait + Drop>(
    hall: &mut Hall<L, Sender<R>>,
    session: SessionId,
    why: Why,
    moment: Moment,
    flushes: &mut FlushList,
) -> HangOutcome<L, R>
    ensures hangs { Hangs result.before.value result.after.value session why
        result.moment result.hung }
    ensures moment { result.moment ≡ moment }
    ensures before { result.before.value ≡ hall.old }
{
    flushes.begin();
    let before = Snapshot::of(&*hall);
    let hung = hall.hang_with_flushes(session, why, moment, flushes);
    let after = Snapshot::of(&*hall);
    HangOutcome {
        hung,
        moment,
        before,
        after,
    }
}

/// Ends a session in the hall, at this moment or at that of the newest record where that is later, and adds who got
/// something.
fn hang_in<L: Naming, R: Wait + Drop>(
    hall: &mut Hall<L, Sender<R>>,
    session: SessionId,
    why: Why,
    moment: Moment,
    flushes: &mut FlushList,
) -> HangOutcome<L, R>
    ensures hangs { Hangs result.before.value result.after.value session why
        result.moment result.hung }
    ensures moment { IsLater moment (last_moment result.before.value.history) result.moment }
{
    let moment = later(moment, hall.last_moment());
    hang_at(hall, session, why, moment, flushes)
}

/// Ends a session for a reason, where it is open, and shuts its connection. Who got something is added to `flushes`.
///
/// The answer tells what came of it in the server's hall: the record that ends the session, at a moment that the
/// clock showed or at that of the newest record where that is later; or why there is none.
pub fn hang<L: Naming, R: Wait + Drop, H: Host>(
    rt: &R,
    server: &Server<'_, L, R, H>,
    session: SessionId,
    why: Why,
    flushes: &mut FlushList,
) -> HangOutcome<L, R>
    ensures hangs { Hangs result.before.value result.after.value session why
        result.moment result.hung }
    ensures moment { (t : ℤ) × H.shows server.now.host.now t
        × IsLater t (last_moment result.before.value.history) result.moment }
    ensures shut { OnOk result.hung (H.shuts server.now.host.now session) }
{
    let moment = server.host.now();
    let ending = hang_in(&mut *server.hall.lock(rt), session, why, moment, flushes);
    flush_many(server, flushes);
    match ending.hung {
        Ok(_) => {
            server.host.shut(session);
            ending
        }
        Err(_) => ending,
    }
}

/// Shuts the connections of all who missed a record.
pub fn shut_missed<S: Sockets>(sockets: &S, done: &Done)
    ensures { All (S.shuts sockets.now) done.now.missed }
{
    for missed in done.missed.as_slice() {
        sockets.shut(*missed);
    }
}

/// Shuts the connections of all whom a record of this session shut.
pub fn shut_after<S: Sockets>(sockets: &S, session: SessionId, done: &Done)
    ensures missed { All (S.shuts sockets.now) done.now.missed }
    ensures own { done.now.shut ≡ true → S.shuts sockets.now session }
{
    shut_missed(sockets, done);
    if !done.shut {
        return;
    }
    sockets.shut(session);
}

/// Ends a session whose line was refused for want of memory, or of room for its record: then the server is asked to
/// stop, too. It answers what came of that.
pub fn end_refused<L: Naming, R: Wait + Drop, H: Host>(
    rt: &R,
    server: &Server<'_, L, R, H>,
    session: SessionId,
    refusal: LineRefusal,
    flushes: &mut FlushList,
) -> Option<HangOutcome<L, R>>
    ensures memory { refusal ≡ LineRefusal.Memory → IsSomeAnd result
        (λ e. Hangs e.before.value e.after.value session Why.Memory e.moment e.hung) }
    ensures full { refusal ≡ LineRefusal.JournalFull → IsSomeAnd result
        (λ e. Hangs e.before.value e.after.value session Why.Shutdown e.moment e.hung) }
    ensures stops { refusal ≡ LineRefusal.JournalFull → H.stops server.now.host.now }
{
    match refusal {
        LineRefusal::Memory => Some(hang(rt, server, session, Why::Memory, flushes)),
        LineRefusal::JournalFull => {
            let ending = hang(rt, server, session, Why::Shutdown, flushes);
            server.host.stop();
            Some(ending)
        }
        LineRefusal::Busy | LineRefusal::WrongTurn | LineRefusal::Shut | LineRefusal::BadMoment =>
            None,
    }
}
