//! A stream that took nothing is left alone until it takes more.
use crate::acts::Act;
use crate::trial::{Story, Who, WhoActs, try_out};
use wire::Flow;

/// The first write finds the stream behind; then it isn't written to before it takes more, and is
/// once, and has nothing more to go on with.
const BEHIND: [WhoActs; 14] = [
    (Who::Al, Act::Comes),
    (Who::Al, Act::Does(b"PING x")),
    (Who::Al, Act::Opens(1, false)),
    (Who::Al, Act::Writes(Some(Flow::Behind))),
    (Who::Al, Act::Writes(None)),
    (Who::Al, Act::Wrote(1)),
    (Who::Al, Act::Writes(None)),
    (Who::Al, Act::Wrote(1)),
    (Who::Al, Act::Writes(None)),
    (Who::Al, Act::Wrote(1)),
    (Who::Al, Act::GoesOn(Some(Flow::Idle))),
    (Who::Al, Act::Wrote(2)),
    (Who::Al, Act::GoesOn(None)),
    (Who::Al, Act::Writes(Some(Flow::Idle))),
];

/// A stream takes nothing at its first write: it is left alone, whoever writes, until it is told to take more; then
/// all goes out in one write.
#[test]
fn a_stream_that_took_nothing_is_left_alone(rt: HostRuntime) {
    try_out(&rt, rt.alloc(), &Story::of(&[(1, &BEHIND)]));
}
