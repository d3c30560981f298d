//! A server pings who is silent and ends who is so for too long, in beats of a clock that is set by hand.
use crate::acts::Act;
use crate::scene::Scene;
use crate::trial::{Story, Who, WhoActs, try_out};
use book::{FlushList, Naming, TickRefusal};
use chronicle::Why;
use crew::session_io::{BeatOutcome, beat};
use std::sync::Wait;

/// What a beat came to.
#[derive(Clone, Copy, PartialEq)]
pub(crate) enum Came {
    /// A record of this number pinged somebody.
    Pinged(u64),
    /// Nobody was to be pinged.
    Nobody,
    /// The tick was refused.
    Refused(TickRefusal),
    /// Somebody who is late is left.
    Late,
}

/// What a beat came to, by its tick, and by the last look for who is late.
fn answer_of<L: Naming, R: Wait + Drop>(beaten: &BeatOutcome<L, R>) -> Came {
    let is_nobody_left = match &beaten.last {
        Some(last) => last.ended.is_none(),
        None => false,
    };
    match &beaten.ticked.answer {
        Err(refusal) if beaten.last.is_none() => Came::Refused(*refusal),
        Ok(Some(done)) if is_nobody_left => Came::Pinged(done.number.number()),
        Ok(None) if is_nobody_left => Came::Nobody,
        _ => Came::Late,
    }
}

/// Has a beat at a moment.
pub(crate) fn beats<L: Naming, R: Wait + Drop>(scene: &Scene<'_, L, R>, moment: i64) -> Came {
    scene.stage.host.set(moment);
    let mut flushes = FlushList::new(scene.alloc);
    answer_of(&beat(scene.rt, &scene.stage, &mut flushes))
}

/// Two come, and are pinged once they were silent for two minutes.
const PINGED: [WhoActs; 13] = [
    (Who::Al, Act::Comes),
    (Who::Bo, Act::Comes),
    (Who::Al, Act::Beats(119_999, Came::Nobody)),
    (Who::Al, Act::WasTold(false)),
    (Who::Bo, Act::WasTold(false)),
    (Who::Al, Act::Beats(120_000, Came::Pinged(3))),
    (Who::Al, Act::WasTold(true)),
    (Who::Bo, Act::WasTold(true)),
    (Who::Al, Act::IsShut(false)),
    (Who::Bo, Act::IsShut(false)),
    (Who::Al, Act::Hears(1)),
    (Who::Bo, Act::Hears(1)),
    (Who::Al, Act::Clock(200_000)),
];

/// Bo answers. Al doesn't, and is ended after two minutes more; bo isn't, also not once the clock is set back.
const ENDED: [WhoActs; 17] = [
    (Who::Bo, Act::Says(b"PONG x")),
    (Who::Al, Act::Beats(239_999, Came::Nobody)),
    (Who::Al, Act::WasTold(false)),
    (Who::Bo, Act::WasTold(false)),
    (Who::Al, Act::IsShut(false)),
    (Who::Bo, Act::IsShut(false)),
    (Who::Al, Act::Beats(240_000, Came::Nobody)),
    (Who::Al, Act::WasTold(true)),
    (Who::Bo, Act::WasTold(false)),
    (Who::Al, Act::IsShut(true)),
    (Who::Bo, Act::IsShut(false)),
    (Who::Al, Act::Beats(0, Came::Nobody)),
    (Who::Al, Act::WasTold(false)),
    (Who::Bo, Act::WasTold(false)),
    (Who::Al, Act::IsShut(true)),
    (Who::Bo, Act::IsShut(false)),
    (Who::Al, Act::IsHung(5, Why::PingTimeout)),
];

/// Bo says a line, which is answered: 56 times until the journal for sixty-four records is full, where two records are
/// kept free for al and one for bo.
const FILLS: [WhoActs; 2] = [(Who::Bo, Act::Says(b"PING x")), (Who::Bo, Act::Hears(1))];

/// The clock is far ahead: a journal that is full is rolled by a beat, and one whose tick is refused ends nobody.
const ROLLED: [WhoActs; 13] = [
    (Who::Al, Act::Has(61)),
    (Who::Al, Act::Beats(400_000, Came::Pinged(62))),
    (Who::Al, Act::WasTold(false)),
    (Who::Bo, Act::WasTold(true)),
    (Who::Al, Act::IsShut(true)),
    (Who::Bo, Act::IsShut(false)),
    (
        Who::Al,
        Act::Beats(i64::MAX, Came::Refused(TickRefusal::BadMoment)),
    ),
    (Who::Al, Act::WasTold(false)),
    (Who::Bo, Act::WasTold(false)),
    (Who::Al, Act::IsShut(true)),
    (Who::Bo, Act::IsShut(false)),
    (Who::Al, Act::Dropped(61)),
    (Who::Bo, Act::Hears(1)),
];

/// A beat pings, ends who is late, tells and shuts those whom it should; rolls a full journal; and does nothing
/// where its tick is refused.
#[test]
fn who_is_silent_is_pinged_and_then_ended(rt: HostRuntime) {
    let parts: [(u32, &[WhoActs]); 4] = [(1, &PINGED), (1, &ENDED), (56, &FILLS), (1, &ROLLED)];
    try_out(&rt, rt.alloc(), &Story::of(&parts));
}
