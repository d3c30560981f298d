//! Who is idle is pinged, and who is idle for too long is ended.
//!
//! The lock is held for the tick, and anew for each session that is ended, so lines go on between. A tick that is
//! refused, also after a roll, ends the beat and nobody is ended: the next beat tries both again.
ghost use Rattle.std.specs.Prelude.{◌≡◌, ℤ, All, None, IfOk, IfSome, OnOk, OnErr, IsSomeAnd};
ghost use Rattle.chronicle.specs.History.{last_moment};
ghost use Rattle.session_io.specs.Beating.{Ticks, HangsLate, IsLast};
ghost use Rattle.session_ends.specs.Timing.{IsLater};

use chronicle::{Moment, SessionId, Why};
use session_ends::book::outbox::Sender;
use session_ends::book::{Done, FlushList, Hall, HangRefusal, Hung, Naming, TickRefusal};
use session_ends::{Host, Server, Sockets, flush, flush_many, hang_at, later, shut_missed};
use snapshots::Snapshot;
use std::sync::Wait;

/// What came of a tick, with the hall before that and after it, which exist for clauses alone.
#[derive(Drop)]
pub struct TickOutcome<L: Naming, R: Wait + Drop> {
    pub answer: Result<Option<Done>, TickRefusal>,
    pub moment: Moment,
    pub before: Snapshot<Hall<L, Sender<R>>>,
    pub after: Snapshot<Hall<L, Sender<R>>>,
}

/// The session that was late at a moment, if there was one, and what came of ending it, with the hall before that
/// and after it, which exist for clauses alone.
#[derive(Drop)]
pub struct LateOutcome<L: Naming, R: Wait + Drop> {
    pub ended: Option<(SessionId, Result<Hung, HangRefusal>)>,
    pub moment: Moment,
    pub before: Snapshot<Hall<L, Sender<R>>>,
    pub after: Snapshot<Hall<L, Sender<R>>>,
}

/// What came of a beat: of its tick, and of the last look for who is late, where there was one.
#[derive(Drop)]
pub struct BeatOutcome<L: Naming, R: Wait + Drop> {
    pub ticked: TickOutcome<L, R>,
    pub last: Option<LateOutcome<L, R>>,
}

/// Ticks in the hall at this moment, and adds who got something.
fn tick_once<L: Naming, R: Wait + Drop>(
    hall: &mut Hall<L, Sender<R>>,
    moment: Moment,
    flushes: &mut FlushList,
) -> TickOutcome<L, R>
    ensures ticks { Ticks result.before.value result.after.value result.moment result.answer }
    ensures moment { result.moment ≡ moment }
    ensures before { result.before.value ≡ hall.old }
    ensures refused { OnErr result.answer (hall.new ≡ hall.old) }
{
    let before = Snapshot::of(&*hall);
    let answer = hall.tick_with_flushes(moment, flushes);
    let after = Snapshot::of(&*hall);
    TickOutcome {
        answer,
        moment,
        before,
        after,
    }
}

/// Ticks in the hall at this moment, and adds who got something. Where its journal has no room for the record, that is
/// rolled first.
fn tick_or_roll<L: Naming, R: Wait + Drop, S: Sockets>(
    sockets: &S,
    hall: &mut Hall<L, Sender<R>>,
    moment: Moment,
    flushes: &mut FlushList,
) -> TickOutcome<L, R>
    ensures ticks { Ticks result.before.value result.after.value result.moment result.answer }
    ensures moment { result.moment ≡ moment }
    ensures before { result.before.value.history ≡ hall.old.history }
{
    make_room(sockets, hall, moment);
    tick_once(hall, moment, flushes)
}

/// Makes room in the hall's journal for a tick, if it may come and there is memory for that: where there is none the
/// journal is rolled.
fn make_room<L: Naming, R: Wait + Drop, S: Sockets>(
    sockets: &S,
    hall: &mut Hall<L, Sender<R>>,
    moment: Moment,
)
    ensures { hall.new.history ≡ hall.old.history }
{
    if let Err(TickRefusal::JournalFull) = hall.may_tick(moment) {
        if let Ok(rolled) = hall.roll() {
            sockets.note_roll(rolled.dropped);
        }
    }
}

/// Ticks in the hall, at this moment or at that of the newest record where that is later, and adds who got something.
fn tick_in<L: Naming, R: Wait + Drop, S: Sockets>(
    sockets: &S,
    hall: &mut Hall<L, Sender<R>>,
    moment: Moment,
    flushes: &mut FlushList,
) -> TickOutcome<L, R>
    ensures ticks { Ticks result.before.value result.after.value result.moment result.answer }
    ensures moment { IsLater moment (last_moment result.before.value.history) result.moment }
{
    let moment = later(moment, hall.last_moment());
    flushes.begin();
    tick_or_roll(sockets, hall, moment, flushes)
}

/// Pings whoever is idle for long enough and wasn't pinged since it was heard of, by one record, and shuts whoever
/// missed that. Where the journal has no room for it, that is rolled first. Who got something is added to `flushes`.
///
/// The answer tells what came of it in the server's hall, at a moment that the clock showed or at that of the newest
/// record where that is later: the record; that nobody was to be pinged; or why there is none.
pub fn tick<L: Naming, R: Wait + Drop, H: Host>(
    rt: &R,
    server: &Server<'_, L, R, H>,
    flushes: &mut FlushList,
) -> TickOutcome<L, R>
    ensures ticks { Ticks result.before.value result.after.value result.moment result.answer }
    ensures moment { (t : ℤ) × H.shows server.now.host.now t
        × IsLater t (last_moment result.before.value.history) result.moment }
    ensures shut { IfOk result.answer
        (λ o. IfSome o (λ d. All (H.shuts server.now.host.now) d.missed)) }
{
    let moment = server.host.now();
    let ticked = tick_in(server.host, &mut *server.hall.lock(rt), moment, flushes);
    flush_many(server, flushes);
    if let Ok(Some(done)) = &ticked.answer {
        shut_missed(server.host, done);
    }
    ticked
}

/// Ends the late session of the lowest number in the hall, if there is one, at this moment or at that of the newest
/// record where that is later, and adds who got something.
fn hang_late_in<L: Naming, R: Wait + Drop>(
    hall: &mut Hall<L, Sender<R>>,
    moment: Moment,
    flushes: &mut FlushList,
) -> LateOutcome<L, R>
    ensures hangs { HangsLate result.before.value result.after.value result.moment result.ended }
    ensures moment { IsLater moment (last_moment result.before.value.history) result.moment }
{
    let moment = later(moment, hall.last_moment());
    let Some(session) = hall.late(moment) else {
        return LateOutcome {
            ended: None,
            moment,
            before: Snapshot::of(&*hall),
            after: Snapshot::of(&*hall),
        };
    };
    let ending = hang_at(hall, session, Why::PingTimeout, moment, flushes);
    LateOutcome {
        ended: Some((session, ending.hung)),
        moment,
        before: ending.before,
        after: ending.after,
    }
}

/// Ends the session of the lowest number that is idle for too long, if there is one, and shuts its connection. Who
/// got something is added to `flushes`.
///
/// The answer tells what came of it in the server's hall, at a moment that the clock showed or at that of the newest
/// record where that is later.
pub fn hang_late<L: Naming, R: Wait + Drop, H: Host>(
    rt: &R,
    server: &Server<'_, L, R, H>,
    flushes: &mut FlushList,
) -> LateOutcome<L, R>
    ensures hangs { HangsLate result.before.value result.after.value result.moment result.ended }
    ensures moment { (t : ℤ) × H.shows server.now.host.now t
        × IsLater t (last_moment result.before.value.history) result.moment }
    ensures shut { IfSome result.ended (λ e. OnOk e.1 (H.shuts server.now.host.now e.0)) }
{
    let moment = server.host.now();
    let late = hang_late_in(&mut *server.hall.lock(rt), moment, flushes);
    flush_many(server, flushes);
    if let Some((session, Ok(_))) = &late.ended {
        server.host.shut(*session);
    }
    late
}

/// Ends one session after another that is idle for too long, each under a hold of the lock of its own, until nobody
/// is.
fn hang_all_late<L: Naming, R: Wait + Drop, H: Host>(
    rt: &R,
    server: &Server<'_, L, R, H>,
    flushes: &mut FlushList,
) -> LateOutcome<L, R>
    ensures hangs { HangsLate result.before.value result.after.value result.moment result.ended }
    ensures last { IsLast result.ended }
{
    for _ in rt.forever() {
        let late = hang_late(rt, server, flushes);
        if !matches!(late.ended, Some((_, Ok(_)))) {
            return late;
        }
    }
    unreachable!()
}

/// Pings whoever is idle for long enough, then ends whoever is idle for too long, and tells who got something. A
/// tick that is refused waits for the next beat, and nobody is ended then.
///
/// After a tick that wasn't refused, the last look found nobody who is late; or ending somebody was refused.
pub fn beat<L: Naming, R: Wait + Drop, H: Host>(
    rt: &R,
    server: &Server<'_, L, R, H>,
    flushes: &mut FlushList,
) -> BeatOutcome<L, R>
    ensures ticks { Ticks result.ticked.before.value result.ticked.after.value result.ticked.moment
        result.ticked.answer }
    ensures shut { IfOk result.ticked.answer
        (λ o. IfSome o (λ d. All (H.shuts server.now.host.now) d.missed)) }
    ensures late { OnOk result.ticked.answer (IsSomeAnd result.last
        (λ l. HangsLate l.before.value l.after.value l.moment l.ended × IsLast l.ended)) }
    ensures refused { OnErr result.ticked.answer (result.last ≡ None) }
{
    let ticked = tick(rt, server, flushes);
    flush(server, flushes);
    if ticked.answer.is_err() {
        return BeatOutcome { ticked, last: None };
    }
    let last = hang_all_late(rt, server, flushes);
    flush(server, flushes);
    BeatOutcome {
        ticked,
        last: Some(last),
    }
}
