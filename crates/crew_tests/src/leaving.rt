//! While much waits for a client, its own lines wait for it.
use crate::acts::Act;
use crate::trial::{Story, Who, WhoActs, try_out};
use chronicle::Why;
use crew::session_io::Next;
use wire::Flow;

/// Five lines, which one read brings.
const SAID: &[u8; 40] = b"PING a\r\nPING b\r\nPING c\r\nPING d\r\nPING e\r\n";

/// What is told of them.
const OUTPUT: &[u8; 165] = b":irc.example PONG irc.example a\r\n\
    :irc.example PONG irc.example b\r\n\
    :irc.example PONG irc.example c\r\n\
    :irc.example PONG irc.example d\r\n\
    :irc.example PONG irc.example e\r\n";

/// One line is done in each call, whether lines are left after it or not, and nothing while much waits at once.
const ONE_BY_ONE: [WhoActs; 41] = [
    (Who::Al, Act::Comes),
    (Who::Al, Act::Reads(&[true], Next::Left)),
    (Who::Al, Act::Unread(40)),
    (Who::Al, Act::Has(1)),
    (Who::Al, Act::HasLines(false)),
    (Who::Al, Act::Told(0)),
    (Who::Al, Act::Reads(&[false, true, true], Next::Left)),
    (Who::Al, Act::Unread(0)),
    (Who::Al, Act::Has(2)),
    (Who::Al, Act::HasLines(true)),
    (Who::Al, Act::Told(0)),
    (Who::Al, Act::Reads(&[false, true, true], Next::Left)),
    (Who::Al, Act::Unread(0)),
    (Who::Al, Act::Has(3)),
    (Who::Al, Act::HasLines(true)),
    (Who::Al, Act::Told(0)),
    (Who::Al, Act::Reads(&[true], Next::Left)),
    (Who::Al, Act::Unread(0)),
    (Who::Al, Act::Has(3)),
    (Who::Al, Act::HasLines(true)),
    (Who::Al, Act::Told(0)),
    (Who::Al, Act::Reads(&[false, true, true], Next::Left)),
    (Who::Al, Act::Unread(0)),
    (Who::Al, Act::Has(4)),
    (Who::Al, Act::HasLines(true)),
    (Who::Al, Act::Told(0)),
    (Who::Al, Act::Reads(&[false, true, true], Next::Left)),
    (Who::Al, Act::Unread(0)),
    (Who::Al, Act::Has(5)),
    (Who::Al, Act::HasLines(true)),
    (Who::Al, Act::Told(0)),
    (Who::Al, Act::Reads(&[false, true, true], Next::Left)),
    (Who::Al, Act::Unread(0)),
    (Who::Al, Act::Has(6)),
    (Who::Al, Act::HasLines(false)),
    (Who::Al, Act::Told(0)),
    (Who::Al, Act::Reads(&[], Next::Over(Why::ReadEnded))),
    (Who::Al, Act::Unread(0)),
    (Who::Al, Act::Has(6)),
    (Who::Al, Act::HasLines(false)),
    (Who::Al, Act::IsTold(Flow::Idle)),
];

/// What waits is written after the second line, so the third is done; after that one it isn't,
/// until the next call, by which the rest is done.
const LESS_AND_LESS: [WhoActs; 15] = [
    (Who::Al, Act::Comes),
    (
        Who::Al,
        Act::Reads(&[false, false, true, false, true, true], Next::Left),
    ),
    (Who::Al, Act::Unread(0)),
    (Who::Al, Act::Has(4)),
    (Who::Al, Act::HasLines(true)),
    (Who::Al, Act::Told(0)),
    (Who::Al, Act::Reads(&[], Next::More)),
    (Who::Al, Act::Unread(0)),
    (Who::Al, Act::Has(6)),
    (Who::Al, Act::HasLines(false)),
    (Who::Al, Act::Reads(&[], Next::Over(Why::ReadEnded))),
    (Who::Al, Act::Unread(0)),
    (Who::Al, Act::Has(6)),
    (Who::Al, Act::HasLines(false)),
    (Who::Al, Act::IsTold(Flow::Idle)),
];

/// Five lines that come in one read.
fn five<'a>(parts: &'a [(u32, &'a [WhoActs])]) -> Story<'a> {
    Story {
        input: SAID,
        most: 4096,
        ends: true,
        waits: false,
        output: OUTPUT,
        number: 0,
        parts,
    }
}

/// Five lines come in one read of a client for which much waits after each: one is done a call, in order, and the
/// others stay; once little waits the rest are done, and then the end of the input is told.
#[test]
fn lines_wait_while_much_waits(rt: HostRuntime) {
    try_out(&rt, rt.alloc(), &five(&[(1, &ONE_BY_ONE)]));
}

/// Five lines come in one read of a client for which much waits after each: one is done a call, in order, and the
/// others stay; once little waits the rest are done, and then the end of the input is told.
#[test]
fn lines_go_on_once_less_waits(rt: HostRuntime) {
    try_out(&rt, rt.alloc(), &five(&[(1, &LESS_AND_LESS)]));
}
