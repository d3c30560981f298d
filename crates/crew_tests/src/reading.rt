//! A session is read to the end of its input.
use crate::acts::Act;
use crate::trial::{Story, Who, WhoActs, try_out};
use chronicle::Why;
use crew::session_io::Next;
use std::alloc::{AllocError, Global};
use std::process::Abort;
use std::sync::Wait;
use std::test::Fail;
use std::thread::Threads;
use std::time::Clock;

/// Two lines, and one that isn't ended.
const INPUT: &[u8; 24] = b"PING x\r\nPING y\r\nPING zzz";

/// What is told of the first line, and of both.
const FIRST: &[u8] = b":irc.example PONG irc.example x\r\n";

const BOTH: &[u8] = b":irc.example PONG irc.example x\r\n:irc.example PONG irc.example y\r\n";

/// An input is over: the lines before that are done and told so, the session is hung, and the hall and the only slot
/// are there again. The session is given up, and nothing of it is left.
const OVER: [WhoActs; 5] = [
    (Who::Al, Act::Comes),
    (Who::Al, Act::ReadsOn),
    (Who::Al, Act::IsFree),
    (Who::Al, Act::IsOver),
    (Who::Al, Act::ClosesUp(0)),
];

/// An input that has nothing for now between its lines: what comes is done, and reading goes on.
/// While the session isn't ended it can't be given up.
const WAITING: [WhoActs; 13] = [
    (Who::Al, Act::Comes),
    (Who::Al, Act::ReadsFreely(Next::Nothing)),
    (Who::Al, Act::Told(0)),
    (Who::Al, Act::ReadsFreely(Next::Short)),
    (Who::Al, Act::Told(2)),
    (Who::Al, Act::ReadsFreely(Next::Nothing)),
    (Who::Al, Act::Told(2)),
    (Who::Al, Act::ReadsFreely(Next::Over(Why::ReadEnded))),
    (Who::Al, Act::Told(2)),
    (Who::Al, Act::Has(3)),
    (Who::Al, Act::Closes(None)),
    (Who::Al, Act::HangsTold),
    (Who::Al, Act::Closes(Some(3))),
];

/// The same input, read by a thread of the session's own: it pauses where nothing is there, and the
/// session ends with its input.
const RESTING: [WhoActs; 4] = [
    (Who::Al, Act::Comes),
    (Who::Al, Act::ReadsOn),
    (Who::Al, Act::Paused(2)),
    (Who::Al, Act::IsHung(4, Why::ReadEnded)),
];

/// Two lines, and an end; nothing is there before each.
fn two_lines<'a>(parts: &'a [(u32, &'a [WhoActs])]) -> Story<'a> {
    Story {
        input: b"PING x\r\nPING y\r\n",
        most: 4096,
        ends: true,
        waits: true,
        output: BOTH,
        number: 0,
        parts,
    }
}

/// The same input by a thread of the session's own: it pauses where nothing is there, twice, and the session ends
/// with its input.
#[test]
fn a_thread_of_its_own_rests_where_nothing_is_there(rt: HostRuntime) {
    try_out(&rt, rt.alloc(), &two_lines(&[(1, &RESTING)]));
}

/// A client that has nothing to say for now is no fault: its lines are done as they come, each by one read, and the
/// end of its input is told as that; its session can't be given up before it is ended, and is reaped once it is.
#[test]
fn a_client_that_says_nothing_now_is_read_on(rt: HostRuntime) {
    try_out(&rt, rt.alloc(), &two_lines(&[(1, &WAITING)]));
}

/// What is told of so many octets of the input, and the number of the record that hangs the session. The CR of the
/// first line is octet 7, and that of the second octet 15.
fn told_of(count: usize) -> (&'static [u8], u64) {
    if count < 7 {
        (b"", 2)
    } else if count < 15 {
        (FIRST, 3)
    } else {
        (BOTH, 4)
    }
}

/// So many octets of the input come, which ends or fails then.
fn read_so_many<R: Threads + Wait + Clock + Abort + Copy + Drop + Send + Sync>(
    rt: &R,
    alloc: Global,
    count: usize,
    ends: bool,
) {
    let (output, number) = told_of(count);
    let story = Story {
        input: &INPUT[..count.min(INPUT.len())],
        most: 7,
        ends,
        waits: false,
        output,
        number,
        parts: &[(1, &OVER)],
    };
    try_out(rt, alloc, &story);
}

/// A client's input, of two lines and a third one that isn't ended, fails or ends after each number of octets, from
/// none to all 24: the lines that were ended by then, by their CR, are done and answered, the session is ended with
/// `Read error` or `Connection closed`, and its baton comes back.
#[test]
fn an_input_may_be_over_after_any_octet(rt: HostRuntime) {
    for count in 0..=INPUT.len() {
        read_so_many(&rt, rt.alloc(), count, false);
        read_so_many(&rt, rt.alloc(), count, true);
    }
}

/// How often the long line comes: more octets than are read at first.
const LONG_LINES: u64 = 4;

/// Octets that are said so often, each time with a long parameter.
fn long_lines(alloc: Global, front: &[u8]) -> Result<Vec<u8>, AllocError> {
    let mut octets = Vec::new(alloc);
    for _ in 0..LONG_LINES {
        octets.extend_from_slice(front)?;
        octets.resize(octets.len() + 400, b'a')?;
        octets.extend_from_slice(b"\r\n")?;
    }
    Ok(octets)
}

/// Lines that come in parts of so many octets, and what is told of them.
fn are_read<R: Threads + Wait + Clock + Abort + Copy + Drop + Send + Sync>(
    rt: &R,
    alloc: Global,
    input: &[u8],
    output: &[u8],
    most: usize,
) {
    let story = Story {
        input,
        most,
        ends: false,
        waits: false,
        output,
        number: LONG_LINES + 2,
        parts: &[(1, &OVER)],
    };
    try_out(rt, alloc, &story);
}

/// Four lines of 407 octets come in parts of 1, 511, 512, 513 or 4,096 octets: all are done and answered, then the
/// session is ended, and the hall and the only slot are free again.
#[test]
fn a_client_that_sends_much_is_read_whole(rt: HostRuntime) -> Result<(), Fail> {
    let alloc = rt.alloc();
    let said = long_lines(alloc, b"PING ")?;
    let told = long_lines(alloc, b":irc.example PONG irc.example ")?;
    for most in [1, 511, 512, 513, 4096] {
        are_read(&rt, alloc, said.as_slice(), told.as_slice(), most);
    }
    Ok(())
}
