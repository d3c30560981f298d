//! A session for one of whose lines memory is wanting is ended for that, and nobody else is; a line by itself, a beat
//! and the giving up of a session change nothing then, and go when they are tried again. With all memory each goes at
//! once; `checks/growths --tests` refuses one allocation after another.
use crate::acts::Act;
use crate::beating::{Came, beats};
use crate::fakes::Input;
use crate::making::{Guest, is_text};
use crate::scene::Scene;
use crate::trial::{Story, Who, WhoActs, try_out};
use book::{LineRefusal, Naming, TickRefusal};
use chronicle::{SessionId, Why};
use crew::NoBacklog;
use crew::session_io::Next;
use std::sync::Wait;

/// What a person says, in one read.
const SAID: &[u8] =
    b"NICK al\r\nUSER a 0 * :Al\r\nJOIN #a\r\nPRIVMSG #a,al :x\r\nWHOIS al\r\nPING x\r\n";

/// Ten lines that aren't answered.
const UNANSWERED: &[u8] =
    b"PONG a\r\nPONG b\r\nPONG c\r\nPONG d\r\nPONG e\r\nPONG f\r\nPONG g\r\nPONG h\r\nPONG i\r\nPONG j\r\n";

/// What who is ended for want of memory is told.
const ERROR: &[u8] = b"ERROR :Closing Link: h1 (Out of memory)\r\n";

/// Reads all that is said, ends the session where its reading is over, and answers whether all lines were done.
fn says<L: Naming, R: Wait + Drop>(
    scene: &Scene<'_, L, R>,
    al: &mut Guest<L, R>,
    octets: &[u8],
) -> bool {
    let mut input = Input {
        octets,
        most: 512,
        ends: false,
        waits: false,
        is_there: false,
    };
    let (all, next) = al.reads(scene, &NoBacklog, &mut input);
    if let Next::Over(why) = next {
        let _ = al.hangs(scene, why);
    }
    all
}

/// Whether the newest record ends this session for want of memory.
fn is_ended<L: Naming, R: Wait + Drop>(scene: &Scene<'_, L, R>, session: SessionId) -> bool {
    let newest = scene.dropped_count().saturating_add(scene.records() as u64);
    scene.is_hung(newest, session, Why::Memory)
}

/// Takes all that waits, and answers whether this is the last of it.
fn takes_last<L: Naming, R: Wait + Drop>(rt: &R, al: &mut Guest<L, R>, octets: &[u8]) -> bool {
    let mut is_last = false;
    for _ in 0..16u32 {
        if let Some(item) = al.takes(rt) {
            is_last = is_text(&item, octets);
        }
    }
    is_last
}

/// Whether a session says this so often, by which so many records are dropped; or it finds no memory for a line and is
/// ended for that, and nobody else is. Then the server goes on, and the hall is given back.
pub(crate) fn finds_none<L: Naming, R: Wait + Drop>(
    scene: &Scene<'_, L, R>,
    al: &mut Guest<L, R>,
    other: SessionId,
    octets: &[u8],
    times: u32,
    dropped: u64,
) -> bool {
    let mut all = true;
    for _ in 0..times {
        all = all && says(scene, al, octets);
    }
    is_ended(scene, al.session) != all
        && scene.is_shut(al.session) != all
        && takes_last(scene.rt, al, ERROR) != all
        && (scene.dropped_count() == dropped || !all)
        && !scene.is_shut(other)
        && scene.goes_on()
        && scene.is_free()
}

/// With all memory six lines are done.
const SIX: [WhoActs; 3] = [
    (Who::Al, Act::Comes),
    (Who::Bo, Act::Comes),
    (Who::Al, Act::FindsNone(SAID, 1, 0)),
];

/// With all memory seventy lines are done, for which the journal is rolled once.
const SEVENTY: [WhoActs; 3] = [
    (Who::Al, Act::Comes),
    (Who::Bo, Act::Comes),
    (Who::Al, Act::FindsNone(UNANSWERED, 7, 60)),
];

/// Somebody says six lines in one read: with all memory each is done. If memory is wanting for a line, its session
/// is ended for that, shut, and takes `ERROR :Closing Link: h1 (Out of memory)`; nobody else is, the server goes on,
/// and the hall is given back (`checks/growths` fails each allocation in turn).
#[test]
fn who_finds_no_memory_is_ended(rt: HostRuntime) {
    try_out(&rt, rt.alloc(), &Story::of(&[(1, &SIX)]));
}

/// Somebody says seventy lines over a journal for sixty-four records, of which two are kept free for each of two
/// sessions: with all memory it is rolled once, which drops sixty, and each line is done. If memory is wanting for a
/// line or for the roll, the session is ended for that.
#[test]
fn who_finds_no_memory_for_a_roll_is_ended(rt: HostRuntime) {
    try_out(&rt, rt.alloc(), &Story::of(&[(1, &SEVENTY)]));
}

/// Does a line, and once more where memory was wanting: then there was no record, and nobody was put anything.
pub(crate) fn does_again<L: Naming, R: Wait + Drop>(
    scene: &Scene<'_, L, R>,
    guest: &mut Guest<L, R>,
    octets: &[u8],
) -> bool {
    guest.flushes.clear();
    let records = scene.records();
    match guest.does(scene, octets) {
        Ok(()) => true,
        Err(refusal) => {
            refusal == LineRefusal::Memory
                && scene.records() == records
                && guest.flushes.sessions().is_empty()
                && !guest.flushes.is_all()
                && guest.does(scene, octets).is_ok()
        }
    }
}

/// What al and bo are told, who meet on a channel where al speaks.
const ALS: [&[u8]; 2] = [
    b":al!a@h1 JOIN #a\r\n:irc.example 353 al = #a :@al\r\n:irc.example 366 al #a :End of NAMES list\r\n",
    b":bo!b@h1 JOIN #a\r\n",
];

const BOS: [&[u8]; 2] = [
    b":bo!b@h1 JOIN #a\r\n:irc.example 353 bo = #a :@al bo\r\n:irc.example 366 bo #a :End of NAMES list\r\n",
    b":al!a@h1 PRIVMSG #a :hi\r\n",
];

/// Two register, meet on a channel, and one speaks there.
const AGAIN: [WhoActs; 14] = [
    (Who::Al, Act::Comes),
    (Who::Bo, Act::Comes),
    (Who::Al, Act::DoesAgain(b"NICK al")),
    (Who::Al, Act::DoesAgain(b"USER a 0 * :Al")),
    (Who::Bo, Act::DoesAgain(b"NICK bo")),
    (Who::Bo, Act::DoesAgain(b"USER b 0 * :Bo")),
    (Who::Al, Act::Hears(1)),
    (Who::Bo, Act::Hears(1)),
    (Who::Al, Act::DoesAgain(b"JOIN #a")),
    (Who::Bo, Act::DoesAgain(b"JOIN #a")),
    (Who::Al, Act::DoesAgain(b"PRIVMSG #a :hi")),
    (Who::Al, Act::Takes(&ALS)),
    (Who::Bo, Act::Takes(&BOS)),
    (Who::Al, Act::Has(9)),
];

/// Al and bo register, join a channel, and al says `hi` there, by nine records in all. A line for which memory is
/// wanting has no record and nobody is told of it; done once more, each is answered as with all memory, once.
#[test]
fn a_line_without_memory_is_done_when_it_comes_again(rt: HostRuntime) {
    try_out(&rt, rt.alloc(), &Story::of(&[(1, &AGAIN)]));
}

/// Whether a beat at a moment comes to this, at once or, where memory was wanting, when it is tried once more: then
/// there was no record, and nobody was told or shut.
pub(crate) fn beats_again<L: Naming, R: Wait + Drop>(
    scene: &Scene<'_, L, R>,
    moment: i64,
    came: Came,
) -> bool {
    let (records, host) = (scene.records(), scene.stage.host);
    let first = beats(scene, moment);
    if first != Came::Refused(TickRefusal::Memory) {
        return first == came;
    }
    let mut is_same = scene.records() == records;
    for session in [SessionId::new(1), SessionId::new(2)] {
        is_same = is_same && !host.was_told(session) && !scene.is_shut(session);
    }
    is_same && beats(scene, moment) == came
}

/// Whether a session that was ended is given up, and so many items are left. It is tried again where memory was
/// wanting: then somebody was left to be swept, by both of whom there would be seven records.
pub(crate) fn closes_again<L: Naming, R: Wait + Drop>(
    scene: &Scene<'_, L, R>,
    guest: &mut Guest<L, R>,
    left: u64,
) -> bool {
    match guest.closes(scene) {
        Some(count) => count == left,
        None => scene.records() < 7 && guest.closes(scene) == Some(left),
    }
}

/// Two say nothing, are pinged, ended and given up.
const SILENT: [WhoActs; 10] = [
    (Who::Al, Act::Comes),
    (Who::Bo, Act::Comes),
    (Who::Al, Act::BeatsAgain(120_000, Came::Pinged(3))),
    (Who::Al, Act::WasTold(true)),
    (Who::Bo, Act::WasTold(true)),
    (Who::Al, Act::BeatsAgain(240_000, Came::Nobody)),
    (Who::Al, Act::Has(5)),
    (Who::Al, Act::ClosesAgain(2)),
    (Who::Bo, Act::ClosesAgain(2)),
    (Who::Al, Act::Has(7)),
];

/// Two who say nothing are pinged by record 3 at 120 s, ended by records 4 and 5 at 240 s, swept by two more and
/// given up, each with a PING and its end left. A beat for which memory is wanting pings, ends and shuts nobody, and a
/// session that can't be given up for want of memory stays; done once more, each goes.
#[test]
fn who_is_silent_goes_though_memory_is_wanting(rt: HostRuntime) {
    try_out(&rt, rt.alloc(), &Story::of(&[(1, &SILENT)]));
}
