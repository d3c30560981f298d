//! A line is done though the clock shows a moment before that of the newest record: another thread read it later and
//! had the hall first.
use crate::acts::Act;
use crate::trial::{Story, Who, WhoActs, try_out};

/// A line is done at 1,000 ms, and the next when the clock shows 999: it is done at 1,000 ms, too.
const LATER: [WhoActs; 9] = [
    (Who::Al, Act::Comes),
    (Who::Al, Act::Clock(1000)),
    (Who::Al, Act::Says(b"PING x")),
    (Who::Al, Act::IsAt(1000)),
    (Who::Al, Act::Clock(999)),
    (Who::Al, Act::Says(b"PING y")),
    (Who::Al, Act::IsAt(1000)),
    (Who::Al, Act::Has(3)),
    (Who::Al, Act::IsShut(false)),
];

/// The clock shows 1,000 ms and then 999: both lines are done, at 1,000 ms, and nobody is ended.
#[test]
fn a_line_is_done_at_the_moment_of_a_later_record(rt: HostRuntime) {
    try_out(&rt, rt.alloc(), &Story::of(&[(1, &LATER)]));
}
