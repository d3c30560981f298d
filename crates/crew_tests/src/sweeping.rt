//! A session that was ended is swept before it is given up.
use crate::acts::Act;
use crate::trial::{Story, Who, WhoActs, try_out};
use chronicle::Why;

/// Nobody is swept while a session is open; once it was ended it is, once, and only then it can be given up, with its
/// end left.
const SWEEPING: [WhoActs; 7] = [
    (Who::Al, Act::Comes),
    (Who::Al, Act::Sweeps(false)),
    (Who::Al, Act::Hangs(Why::ReadEnded)),
    (Who::Al, Act::Stays),
    (Who::Al, Act::Sweeps(true)),
    (Who::Al, Act::Sweeps(false)),
    (Who::Al, Act::Leaves(1)),
];

/// A session is swept once after it was ended and not before, and is given up only then.
#[test]
fn who_was_ended_is_swept_and_given_up(rt: HostRuntime) {
    try_out(&rt, rt.alloc(), &Story::of(&[(1, &SWEEPING)]));
}
