//! Two sessions work on two threads.
use crate::acts::Act;
use crate::fakes::Turnstile;
use crate::making::{Guest, work_two};
use crate::scene::Scene;
use crate::trial::{Story, Who, WhoActs, try_out};
use book::Naming;
use crew::Desk;
use std::sync::Wait;
use std::sync::atomic::Ordering;
use std::thread::Threads;
use std::time::Clock;

/// Whether both work at once: the second session enters the gate when the first is about to leave it, and the first
/// leaves it when the second was answered, so nobody has the hall at the gate.
pub(crate) fn work_at_once<
    L: Naming + Send + Sync,
    R: Threads + Wait + Clock + Copy + Drop + Send + Sync,
>(scene: &Scene<'_, L, R>, al: &mut Guest<L, R>, bo: &mut Guest<L, R>) -> bool {
    let Ok(desk) = Desk::new(scene.rt, scene.alloc, 2) else {
        return false;
    };
    let gate = Turnstile::new(*scene.rt, al.session);
    work_two(scene, &desk, &gate, al, bo) && !gate.has_given_up.load(Ordering::SeqCst)
}

/// Two come and work at once. Then both quit, are swept and reaped, each with its answer and its end left.
const WORK: [WhoActs; 7] = [
    (Who::Al, Act::Comes),
    (Who::Bo, Act::Comes),
    (Who::Al, Act::BothWork),
    (Who::Al, Act::Says(b"QUIT")),
    (Who::Al, Act::ClosesUp(2)),
    (Who::Bo, Act::Says(b"QUIT")),
    (Who::Bo, Act::ClosesUp(2)),
];

/// Lines of two sessions are done at once by two workers, the first of which leaves its gate when the second was
/// answered; then both quit, are swept and reaped.
#[test]
fn two_sessions_work_at_once(rt: HostRuntime) {
    try_out(&rt, rt.alloc(), &Story::of(&[(1, &WORK)]));
}
