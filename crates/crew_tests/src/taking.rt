//! A writer takes while the hall is locked.
use crate::acts::Act;
use crate::fakes::{TURNS, rest};
use crate::making::{Guest, is_text};
use crate::scene::Scene;
use crate::trial::{Story, Who, WhoActs, try_out};
use book::Naming;
use std::sync::Wait;
use std::thread::{Threads, join};
use std::time::Clock;

/// Whether an item comes within so many looks, and is these lines.
fn hears_soon<L: Naming, R: Wait + Clock + Drop>(
    rt: &R,
    guest: &mut Guest<L, R>,
    lines: &[u8],
) -> bool {
    for _ in 0..TURNS {
        if let Some(item) = guest.takes(rt) {
            return is_text(&item, lines);
        }
        rest(rt);
    }
    false
}

/// Whether a line of a session is done, and just this session is told.
pub(crate) fn is_told<L: Naming, R: Wait + Drop>(
    scene: &Scene<'_, L, R>,
    al: &mut Guest<L, R>,
) -> bool {
    al.does(scene, b"PING x").is_ok()
        && al.flushes.sessions() == [al.session].as_slice()
        && !al.flushes.is_all()
}

/// Whether a line is done, and what it owes is taken by another thread while this one has the hall: these lines.
pub(crate) fn take_meanwhile<
    L: Naming + Send + Sync,
    R: Threads + Wait + Clock + Copy + Drop + Send + Sync,
>(scene: &Scene<'_, L, R>, al: &mut Guest<L, R>, lines: &[u8]) -> bool {
    if !is_told(scene, al) {
        return false;
    }
    let hall = scene.stage.hall.lock(scene.rt);
    let (is_heard, ()) = join(scene.rt, || hears_soon(scene.rt, al, lines), || {});
    drop(hall);
    is_heard
}

/// An outbox is empty, and what a line owes is taken by another thread while this one has the hall.
const MEANWHILE: [WhoActs; 3] = [
    (Who::Al, Act::Comes),
    (Who::Al, Act::HearsNothing),
    (
        Who::Al,
        Act::TakesMeanwhile(b":irc.example PONG irc.example x\r\n"),
    ),
];

/// An item is taken by another thread while the hall is locked.
#[test]
fn an_item_is_taken_while_the_hall_is_locked(rt: HostRuntime) {
    try_out(&rt, rt.alloc(), &Story::of(&[(1, &MEANWHILE)]));
}
