//! A line is refused after one that was done.
use crate::acts::Act;
use crate::trial::{Story, Who, WhoActs, try_out};

/// A session quits, and its line after that is refused: that isn't all, the session is shut, and
/// the hall and the only slot are there again.
const REFUSED: [WhoActs; 5] = [
    (Who::Al, Act::Comes),
    (Who::Al, Act::SaysTwo(b"QUIT", b"PING x")),
    (Who::Al, Act::IsShut(true)),
    (Who::Al, Act::IsFree),
    (Who::Al, Act::Has(2)),
];

/// A session quits, and a line that was read with it is refused: the session is shut, and the only slot is there
/// again.
#[test]
fn a_slot_comes_back_where_a_line_is_refused(rt: HostRuntime) {
    try_out(&rt, rt.alloc(), &Story::of(&[(1, &REFUSED)]));
}
