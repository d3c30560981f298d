//! Who misses a delivery is shut, and a journal that is full is rolled.
use crate::acts::Act;
use crate::trial::{Story, Who, WhoActs, try_out};

/// Two come, and are on one channel.
const MEET: [WhoActs; 8] = [
    (Who::Al, Act::Comes),
    (Who::Bo, Act::Comes),
    (Who::Al, Act::Says(b"NICK al")),
    (Who::Al, Act::Says(b"USER a 0 * :Al")),
    (Who::Al, Act::Says(b"JOIN #a")),
    (Who::Bo, Act::Says(b"NICK bo")),
    (Who::Bo, Act::Says(b"USER b 0 * :Bo")),
    (Who::Bo, Act::Says(b"JOIN #a")),
];

/// A text to the channel, for which bo has room fourteen times.
const TEXT: [WhoActs; 1] = [(Who::Al, Act::Says(b"PRIVMSG #a :x"))];

/// Bo has an outbox for sixteen and takes nothing: the fifteenth text that it is shown is missed, and it is shut.
const MISSED: [WhoActs; 4] = [
    (Who::Bo, Act::IsShut(false)),
    (Who::Al, Act::Says(b"PRIVMSG #a :x")),
    (Who::Bo, Act::IsShut(true)),
    (Who::Al, Act::IsShut(false)),
];

const COMES: [WhoActs; 1] = [(Who::Al, Act::Comes)];

/// Ten lines that are answered and shown to nobody else.
const PINGS: [WhoActs; 11] = [
    (Who::Al, Act::Says(b"PING x")),
    (Who::Al, Act::Says(b"PING x")),
    (Who::Al, Act::Says(b"PING x")),
    (Who::Al, Act::Says(b"PING x")),
    (Who::Al, Act::Says(b"PING x")),
    (Who::Al, Act::Says(b"PING x")),
    (Who::Al, Act::Says(b"PING x")),
    (Who::Al, Act::Says(b"PING x")),
    (Who::Al, Act::Says(b"PING x")),
    (Who::Al, Act::Says(b"PING x")),
    (Who::Al, Act::Hears(10)),
];

/// Two hundred lines are done in a journal for sixty-four records, since it is rolled; each roll was told.
const ROLLED: [WhoActs; 3] = [
    (Who::Al, Act::IsRolled),
    (Who::Al, Act::HasMade(201)),
    (Who::Al, Act::ServerGoesOn),
];

/// One of two on a channel takes nothing of its outbox for sixteen: the fifteenth text is missed, it is shut, and
/// nobody else is.
#[test]
fn who_misses_a_text_is_shut(rt: HostRuntime) {
    let parts: [(u32, &[WhoActs]); 3] = [(1, &MEET), (14, &TEXT), (1, &MISSED)];
    try_out(&rt, rt.alloc(), &Story::of(&parts));
}

/// Two hundred lines of one session in a journal for sixty-four records: each is done and answered, the journal was
/// rolled, and the server goes on.
#[test]
fn a_full_journal_is_rolled(rt: HostRuntime) {
    let parts: [(u32, &[WhoActs]); 3] = [(1, &COMES), (20, &PINGS), (1, &ROLLED)];
    try_out(&rt, rt.alloc(), &Story::of(&parts));
}
