//! Messages in lines by the public standard's grammar, and what is held of a line that has no end yet.
use line_grammar::{
    LineFault, LineMessage, LineParameters, Message, Octets, OctetsList, Piece, Splitter,
    WriteFault, is_writable, parse, split_all, write,
};
use numerics::copy_all;
use std::alloc::{AllocError, Global};
use std::process::Abort;
use std::test::Fail;

/// Whether the pieces are these lines, where `None` stands for one that is too long.
fn are_lines(pieces: &[Piece], lines: &[Option<&[u8]>]) -> bool {
    if pieces.len() != lines.len() {
        return false;
    }
    for (piece, line) in pieces.iter().zip(lines.iter()) {
        let same = match (piece, line) {
            (Piece::Line(octets), Some(line)) => octets.as_slice() == *line,
            (Piece::TooLong, None) => true,
            _ => false,
        };
        if !same {
            return false;
        }
    }
    true
}

/// What is held of a million octets of one line, what is held after its end, and how many pieces came of it.
fn held_of_a_million(alloc: Global) -> Result<(usize, usize, usize), AllocError> {
    let mut splitter = Splitter::new(alloc);
    let mut out = Vec::new(alloc);
    for _ in 0..1000u16 {
        splitter.feed(&[b'x'; 1000], &mut out)?;
    }
    let held = splitter.held_len();
    splitter.feed(b"\r\nab", &mut out)?;
    Ok((held, splitter.held_len(), out.len()))
}

/// A million octets without a line's end are not held.
#[test]
fn a_million_octets_are_not_held(rt: HostRuntime) -> Result<(), Fail> {
    assert_eq!(rt; held_of_a_million(rt.alloc())?, (0, 2, 1));
    Ok(())
}

/// Whether a million octets that come in one feed are no piece before their line ends, one that is too long then, and
/// not held at any time.
fn is_one_too_long(alloc: Global) -> Result<bool, AllocError> {
    let octets = vec![in alloc; b'x'; 1_000_000]?;
    let mut splitter = Splitter::new(alloc);
    let mut out = Vec::new(alloc);
    splitter.feed(&octets, &mut out)?;
    let is_dropped = out.is_empty() && splitter.held_len() == 0;
    splitter.feed(b"\r", &mut out)?;
    Ok(is_dropped && are_lines(&out, &[None]) && splitter.held_len() == 0)
}

/// What is held of a line of so many octets before its end, where the first begins its tags.
fn held_of(alloc: Global, tags: usize, rest: usize) -> Result<usize, AllocError> {
    let mut splitter = Splitter::new(alloc);
    let mut out = Vec::new(alloc);
    splitter.feed(b"@", &mut out)?;
    splitter.feed(&vec![in alloc; b'a'; tags]?, &mut out)?;
    splitter.feed(b" ", &mut out)?;
    splitter.feed(&vec![in alloc; b'x'; rest]?, &mut out)?;
    Ok(splitter.held_len())
}

/// A million octets in one feed are one line that is too long, and the longest line with tags is held whole.
#[test]
fn a_million_octets_in_one_feed_are_one_line(rt: HostRuntime) -> Result<(), Fail> {
    assert!(rt; is_one_too_long(rt.alloc())?);
    assert_eq!(rt; held_of(rt.alloc(), 4094, 510)?, 4606);
    Ok(())
}

/// Feeds, and once more where a growth was refused. Answers whether the refusal changed nothing.
fn feed_again(
    splitter: &mut Splitter,
    octets: &[u8],
    out: &mut Vec<Piece>,
) -> Result<bool, AllocError> {
    let before = (splitter.held_len(), out.len());
    if splitter.feed(octets, out).is_ok() {
        return Ok(true);
    }
    let after = (splitter.held_len(), out.len());
    splitter.feed(octets, out)?;
    Ok(after == before)
}

/// What is fed, so that lines end in it, go on in it and begin in it.
const FEEDS: [&[u8]; 5] = [b"one\r\n@tw", b"o", b" x", b"\nthree\n\nfour\n", b"\rend"];

const FED_LINES: [Option<&[u8]>; 4] = [
    Some(b"one"),
    Some(b"@two x"),
    Some(b"three"),
    Some(b"four"),
];

/// Whether these lines come of what is fed, and its last three octets are held.
fn are_fed(alloc: Global) -> Result<bool, AllocError> {
    let mut splitter = Splitter::new(alloc);
    let mut out = Vec::new(alloc);
    for octets in &FEEDS {
        if !feed_again(&mut splitter, octets, &mut out)? {
            return Ok(false);
        }
    }
    Ok(are_lines(&out, &FED_LINES) && splitter.held_len() == 3)
}

/// A line that comes in pieces is the line that comes at once.
#[test]
fn feeds_after_a_refused_growth(rt: HostRuntime) -> Result<(), Fail> {
    assert!(rt; are_fed(rt.alloc())?);
    Ok(())
}

/// A line that comes in pieces is the line that comes at once.
#[test]
fn what_is_fed_in_turn_is_split_at_once(rt: HostRuntime) -> Result<(), Fail> {
    let pieces = copy_all(rt.alloc(), &FEEDS)?;
    let out = split_all(rt.alloc(), &pieces)?;
    assert!(rt; are_lines(&out, &FED_LINES));
    Ok(())
}

const FILL: [u8; 4095] = [b'x'; 4095];

/// What stands before so many `x`, what stands after them, and how many octets the line has, `None` where it is too
/// long.
const LIMITS: [(&[u8], usize, &[u8], Option<usize>); 14] = [
    (b"", 510, b"", Some(510)),
    (b"", 511, b"", None),
    (b"PING :", 504, b"", Some(510)),
    (b"PING :", 505, b"", None),
    (b"@", 4094, b" PING x", Some(4102)),
    (b"@", 4095, b" PING x", None),
    (b"@", 4094, b"", Some(4095)),
    (b"@", 4095, b"", None),
    (b"@a ", 510, b"", Some(513)),
    (b"@a ", 511, b"", None),
    (b"@ ", 510, b"", Some(512)),
    (b"@ ", 511, b"", None),
    (b" @", 508, b"", Some(510)),
    (b" @", 509, b"", None),
];

/// How many octets a line has that is fed in three pieces, `None` where it is too long or isn't given.
fn length_of(
    alloc: Global,
    front: &[u8],
    count: usize,
    back: &[u8],
) -> Result<Option<usize>, AllocError> {
    let mut splitter = Splitter::new(alloc);
    let mut out = Vec::new(alloc);
    splitter.feed(front, &mut out)?;
    splitter.feed(&FILL[..count.min(FILL.len())], &mut out)?;
    splitter.feed(back, &mut out)?;
    splitter.feed(b"\r\n", &mut out)?;
    match out.as_slice() {
        [Piece::Line(line)] => Ok(Some(line.len())),
        _ => Ok(None),
    }
}

/// A piece of 510 octets is a line, one of 511 is too long. Tag data of 4,094 octets and a rest stand as a line,
/// 4,095 are too long, with or without a rest.
#[test]
fn lines_have_limits(rt: HostRuntime) -> Result<(), Fail> {
    for (front, count, back, want) in &LIMITS {
        assert_eq!(rt;
            length_of(rt.alloc(), front, *count, back)?,
            *want,
            "{front:?} {count}"
        );
    }
    Ok(())
}

/// A line, its tags, source, command and parameters, and whether the last of these stands after a colon.
type Reading = (
    &'static [u8],
    &'static [u8],
    Option<&'static [u8]>,
    &'static [u8],
    &'static [&'static [u8]],
    bool,
);

/// Commands and parameters.
const COMMANDS: [Reading; 13] = [
    (b"PING", b"", None, b"PING", &[], false),
    (b"PING x", b"", None, b"PING", &[b"x"], false),
    (b"   PING  x   ", b"", None, b"PING", &[b"x"], false),
    (b"ping x", b"", None, b"ping", &[b"x"], false),
    (b"pInG", b"", None, b"pInG", &[], false),
    (b"001 nick", b"", None, b"001", &[b"nick"], false),
    (
        b"PRIVMSG #a :hi there",
        b"",
        None,
        b"PRIVMSG",
        &[b"#a", b"hi there"],
        true,
    ),
    (
        b"PRIVMSG #a :hi there  ",
        b"",
        None,
        b"PRIVMSG",
        &[b"#a", b"hi there  "],
        true,
    ),
    (b"PRIVMSG #a :", b"", None, b"PRIVMSG", &[b"#a", b""], true),
    (
        b"PRIVMSG #a ::)",
        b"",
        None,
        b"PRIVMSG",
        &[b"#a", b":)"],
        true,
    ),
    (
        b"PRIVMSG  #a  : hi",
        b"",
        None,
        b"PRIVMSG",
        &[b"#a", b" hi"],
        true,
    ),
    (b"PRIVMSG :#a b", b"", None, b"PRIVMSG", &[b"#a b"], true),
    (b"MODE a:b c:", b"", None, b"MODE", &[b"a:b", b"c:"], false),
];

/// Sources and tags.
const SOURCES: [Reading; 9] = [
    (b":nick PING", b"", Some(b"nick"), b"PING", &[], false),
    (
        b":nick!user@host PRIVMSG #a :x",
        b"",
        Some(b"nick!user@host"),
        b"PRIVMSG",
        &[b"#a", b"x"],
        true,
    ),
    (
        b":nick   PING   x",
        b"",
        Some(b"nick"),
        b"PING",
        &[b"x"],
        false,
    ),
    (b": PING", b"", Some(b""), b"PING", &[], false),
    (b"  :nick PING", b"", Some(b"nick"), b"PING", &[], false),
    (b"@a=b PING", b"a=b", None, b"PING", &[], false),
    (
        b"@a=b;c :nick PING x",
        b"a=b;c",
        Some(b"nick"),
        b"PING",
        &[b"x"],
        false,
    ),
    (
        b"@a   :nick   PING",
        b"a",
        Some(b"nick"),
        b"PING",
        &[],
        false,
    ),
    (b"@ PING x", b"", None, b"PING", &[b"x"], false),
];

/// As many parameters as a line has, and more.
const FULL: [Reading; 5] = [
    (
        b"X 1 2 3 4 5 6 7 8 9 10 11 12 13",
        b"",
        None,
        b"X",
        &[
            b"1", b"2", b"3", b"4", b"5", b"6", b"7", b"8", b"9", b"10", b"11", b"12", b"13",
        ],
        false,
    ),
    (
        b"X 1 2 3 4 5 6 7 8 9 10 11 12 13 14  ",
        b"",
        None,
        b"X",
        &[
            b"1", b"2", b"3", b"4", b"5", b"6", b"7", b"8", b"9", b"10", b"11", b"12", b"13", b"14",
        ],
        false,
    ),
    (
        b"X 1 2 3 4 5 6 7 8 9 10 11 12 13 14 15",
        b"",
        None,
        b"X",
        &[
            b"1", b"2", b"3", b"4", b"5", b"6", b"7", b"8", b"9", b"10", b"11", b"12", b"13",
            b"14", b"15",
        ],
        false,
    ),
    (
        b"X 1 2 3 4 5 6 7 8 9 10 11 12 13 14  15 :16 ",
        b"",
        None,
        b"X",
        &[
            b"1", b"2", b"3", b"4", b"5", b"6", b"7", b"8", b"9", b"10", b"11", b"12", b"13",
            b"14", b"15 :16 ",
        ],
        false,
    ),
    (
        b"X 1 2 3 4 5 6 7 8 9 10 11 12 13 14 :15 16",
        b"",
        None,
        b"X",
        &[
            b"1", b"2", b"3", b"4", b"5", b"6", b"7", b"8", b"9", b"10", b"11", b"12", b"13",
            b"14", b"15 16",
        ],
        true,
    ),
];

/// Whether parameters are these.
fn are_parameters(parameters: &[Octets], want: &[&[u8]]) -> bool {
    if parameters.len() != want.len() {
        return false;
    }
    for (parameter, octets) in parameters.iter().zip(want.iter()) {
        if parameter.as_slice() != *octets {
            return false;
        }
    }
    true
}

/// Whether a source is this, or none as well.
fn is_source(source: &Option<Octets>, want: Option<&[u8]>) -> bool {
    match (source, want) {
        (Some(source), Some(octets)) => source.as_slice() == octets,
        (source, want) => source.is_none() && want.is_none(),
    }
}

/// Whether a message is what its line says.
fn is_message(message: &Message, reading: &Reading) -> bool {
    let (_, tags, source, command, parameters, colon) = *reading;
    message.tags.as_slice() == tags
        && is_source(&message.source, source)
        && message.command.as_slice() == command
        && are_parameters(message.params.as_slice(), parameters)
        && message.colon == colon
}

/// The message of a line, with copies of its parts.
fn message_once(alloc: Global, line: &[u8]) -> Result<Message, LineFault> {
    match parse(alloc, line) {
        Ok(message) => Ok(message.to_message(alloc)?),
        Err(fault) => Err(fault),
    }
}

/// The same, once more where a growth was refused.
fn message_of(alloc: Global, line: &[u8]) -> Result<Message, LineFault> {
    match message_once(alloc, line) {
        Err(LineFault::Memory) => message_once(alloc, line),
        answer => answer,
    }
}

/// A line that is read, once more where a growth was refused.
fn parse_again(alloc: Global, line: &[u8]) -> Result<LineMessage<'_>, LineFault> {
    match parse(alloc, line) {
        Err(LineFault::Memory) => parse(alloc, line),
        answer => answer,
    }
}

/// Whether a line is read so.
fn is_read(alloc: Global, reading: &Reading) -> bool {
    match message_of(alloc, reading.0) {
        Ok(message) => is_message(&message, reading),
        Err(_) => false,
    }
}

/// Compares how lines are read.
fn compare_readings(rt: &impl Abort, alloc: Global, readings: &[Reading]) {
    for reading in readings {
        assert!(rt; is_read(alloc, reading), "{:?}", reading.0);
    }
}

/// A command is letters or three digits; its parameters end with the one behind a colon (RFC 2812, section 2.3.1).
#[test]
fn reads_commands(rt: HostRuntime) -> Result<(), Fail> {
    compare_readings(&rt, rt.alloc(), &COMMANDS);
    Ok(())
}

/// A line may begin with tags and a source, each with a space behind it (IRCv3 message-tags; RFC 2812, section
/// 2.3.1).
#[test]
fn reads_sources_and_tags(rt: HostRuntime) -> Result<(), Fail> {
    compare_readings(&rt, rt.alloc(), &SOURCES);
    Ok(())
}

/// A message has at most fifteen parameters: what stands behind the fourteenth is one (RFC 2812, section 2.3.1).
#[test]
fn reads_as_many_parameters_as_a_line_has(rt: HostRuntime) -> Result<(), Fail> {
    compare_readings(&rt, rt.alloc(), &FULL);
    Ok(())
}

/// Whether parameters are found one by one, and no more.
fn are_found(params: &LineParameters<'_>, want: &[&[u8]]) -> bool {
    let mut rest = params.split_first();
    for octets in want {
        let Some((param, others)) = rest else {
            return false;
        };
        if param != *octets {
            return false;
        }
        rest = others.split_first();
    }
    rest.is_none()
}

/// Whether the parts of a message are found in its line.
fn is_found(message: &LineMessage<'_>, reading: &Reading) -> bool {
    let (_, tags, _, command, parameters, _) = *reading;
    message.tags() == tags
        && message.command() == command
        && are_found(&message.params(), parameters)
}

/// Whether a parameter that is kept is the first.
fn is_first(kept: &Option<Octets>, parameters: &[&[u8]]) -> bool {
    match (kept, parameters.first()) {
        (Some(kept), Some(first)) => kept.as_slice() == *first,
        (kept, first) => kept.is_none() && first.is_none(),
    }
}

/// Whether a message is found in its line, and keeps its command.
fn keeps_command(alloc: Global, reading: &Reading) -> bool {
    match parse_again(alloc, reading.0) {
        Ok(message) => {
            is_found(&message, reading) && message.into_command().as_slice() == reading.3
        }
        Err(_) => false,
    }
}

/// Whether a message keeps its first parameter.
fn keeps_parameter(alloc: Global, reading: &Reading) -> bool {
    match parse_again(alloc, reading.0) {
        Ok(message) => is_first(&message.into_first_param(), reading.4),
        Err(_) => false,
    }
}

/// Compares what is found and kept of lines.
fn compare_parts(rt: &impl Abort, alloc: Global, readings: &[Reading]) {
    for reading in readings {
        let keeps = keeps_command(alloc, reading) && keeps_parameter(alloc, reading);
        assert!(rt; keeps, "{:?}", reading.0);
    }
}

/// The parts of a message are found where they lie in the line, and kept as they are.
#[test]
fn finds_and_keeps_the_parts_of_messages(rt: HostRuntime) -> Result<(), Fail> {
    compare_parts(&rt, rt.alloc(), &COMMANDS);
    compare_parts(&rt, rt.alloc(), &SOURCES);
    compare_parts(&rt, rt.alloc(), &FULL);
    Ok(())
}

/// Lines that are no messages, and why.
const FAULTS: [(&[u8], LineFault); 17] = [
    (b"01 nick", LineFault::NoCommand),
    (b"0011 nick", LineFault::NoCommand),
    (b"00a nick", LineFault::NoCommand),
    (b"PING1", LineFault::NoCommand),
    (b"", LineFault::NoCommand),
    (b"   ", LineFault::NoCommand),
    (b"PING:x", LineFault::NoCommand),
    (b":nick", LineFault::NoCommand),
    (b":nick ", LineFault::NoCommand),
    (b":a :b PING", LineFault::NoCommand),
    (b" @a PING", LineFault::NoCommand),
    (b"@a", LineFault::NoCommand),
    (b"@a ", LineFault::NoCommand),
    (b"@a @b PING", LineFault::NoCommand),
    (b"PING\tx", LineFault::NoCommand),
    (b"PING \x00", LineFault::HasNul),
    (b"\x00", LineFault::HasNul),
];

/// A line with NUL, or without a command, is no message.
#[test]
fn reads_no_message(rt: HostRuntime) -> Result<(), Fail> {
    for (line, fault) in &FAULTS {
        assert_eq!(rt; parse(rt.alloc(), line).err(), Some(*fault), "{line:?}");
    }
    Ok(())
}

/// Lines that are spelled as they are read.
const SPELLINGS: [&[u8]; 8] = [
    b"PING",
    b"PRIVMSG #a :hi there",
    b"PRIVMSG #a hi",
    b"TOPIC #a :",
    b"TOPIC #a ::)",
    b":n!u@h 001 nick a:b",
    b": QUIT",
    b"@a=b;c :n ping :x",
];

/// Whether a message is spelled so.
fn is_spelled(alloc: Global, message: &Message, line: &[u8]) -> bool {
    if !is_writable(message) {
        return false;
    }
    let octets = match write(alloc, message) {
        Err(WriteFault::Memory) => write(alloc, message),
        answer => answer,
    };
    match octets {
        Ok(octets) => octets.as_slice() == line,
        Err(_) => false,
    }
}

/// Whether the message of a line is spelled as the line.
fn is_respelled(alloc: Global, line: &[u8]) -> bool {
    match message_of(alloc, line) {
        Ok(message) => is_spelled(alloc, &message, line),
        Err(_) => false,
    }
}

/// A message is written as it is read; `PRIVMSG` with `#a` and `hi there` has a colon before its text.
#[test]
fn a_line_that_is_read_is_written(rt: HostRuntime) -> Result<(), Fail> {
    for line in &SPELLINGS {
        assert!(rt; is_respelled(rt.alloc(), line), "{line:?}");
    }
    Ok(())
}

/// Parameters, whether the last is spelled with a colon, and the line, `None` where it can't be spelled.
type Writing = (&'static [&'static [u8]], bool, Option<&'static [u8]>);

const WRITINGS: [Writing; 9] = [
    (&[b"#a", b"hi there"], true, Some(b"PRIVMSG #a :hi there")),
    (&[b"", b"x"], false, None),
    (&[b"", b"x"], true, None),
    (&[b"x", b""], false, None),
    (&[b"x", b""], true, Some(b"PRIVMSG x :")),
    (&[b"#a", b"b c"], false, None),
    (&[b"#a", b":b"], false, None),
    (&[b"#a", b":b", b"c"], true, None),
    (&[b"#a", b":b"], true, Some(b"PRIVMSG #a ::b")),
];

/// A PRIVMSG with these parameters.
fn privmsg(alloc: Global, params: &[&[u8]], colon: bool) -> Result<Message, AllocError> {
    Ok(Message {
        tags: Octets::copy_of(alloc, b"")?,
        source: None,
        command: Octets::copy_of(alloc, b"PRIVMSG")?,
        params: OctetsList::from_vec(copy_all(alloc, params)?),
        colon,
    })
}

/// Whether a message is spelled so, or can't be.
fn is_written(alloc: Global, row: &Writing) -> Result<bool, AllocError> {
    let (params, colon, want) = *row;
    let message = privmsg(alloc, params, colon)?;
    if !is_writable(&message) {
        return Ok(false);
    }
    match (write(alloc, &message), want) {
        (Ok(line), Some(want)) => Ok(line.as_slice() == want),
        (Err(fault), None) => Ok(fault == WriteFault::CannotSpell),
        _ => Ok(false),
    }
}

/// A message is written as it is read; `PRIVMSG` with `#a` and `hi there` has a colon before its text. A parameter
/// that is empty, has a space or begins with a colon can't be spelled before the last.
#[test]
fn what_needs_a_colon_stands_last(rt: HostRuntime) -> Result<(), Fail> {
    for row in &WRITINGS {
        assert!(rt; is_written(rt.alloc(), row)?, "{:?}", row.0);
    }
    Ok(())
}
