//! A line that was read before it is done is done as one that is read then, and its label counts by the capabilities
//! that its session has when it is done.
use crate::acts::Act;
use crate::making::{Story, over_channels};
use crate::saying::TOO_LONG;
use book::LineRefusal;
use chronicle::Why;

/// Al asks for labels, and registers, by records 1 to 5.
const LABELLING: [Act; 6] = [
    Act::Come(1, 8),
    Act::Says(1, "CAP REQ :batch labeled-response", &[]),
    Act::Says(1, "NICK al", &[]),
    Act::Says(1, "USER a 0 * :Al", &[]),
    Act::Says(1, "CAP END", &[]),
    Act::TakesSome(1, 2),
];

const WHOIS: &str =
    ":irc.example 311 al al a h1 * :Al\r\n:irc.example 312 al al irc.example :halld\r\n\
    :irc.example 318 al al :End of WHOIS list\r\n";

const UNKNOWN: &str = ":irc.example 421 al FOO :Unknown command\r\n";

const REGISTERED: &str = ":irc.example 462 al :Unauthorized command (already registered)\r\n";

const LONG: &str = ":irc.example 417 al :Input line was too long\r\n";

/// Lines whose answers say nothing of what was said before: al says each, and then once more, read before.
const ALIKE: [Act; 40] = [
    Act::Says(1, "PING x", &[]),
    Act::Takes(1, &[":irc.example PONG irc.example x\r\n"]),
    Act::Reads("PING x"),
    Act::Does(1, "PING x", Ok(7)),
    Act::Takes(1, &[":irc.example PONG irc.example x\r\n"]),
    Act::Says(1, "@label=a PING x", &[]),
    Act::Takes(1, &["@label=a :irc.example PONG irc.example x\r\n"]),
    Act::Reads("@label=a PING x"),
    Act::Does(1, "@label=a PING x", Ok(9)),
    Act::Takes(1, &["@label=a :irc.example PONG irc.example x\r\n"]),
    Act::Says(1, "@label=b PONG x", &[]),
    Act::Takes(1, &["@label=b :irc.example ACK\r\n"]),
    Act::Reads("@label=b PONG x"),
    Act::Does(1, "@label=b PONG x", Ok(11)),
    Act::Takes(1, &["@label=b :irc.example ACK\r\n"]),
    Act::Says(1, "FOO", &[]),
    Act::Takes(1, &[UNKNOWN]),
    Act::Reads("FOO"),
    Act::Does(1, "FOO", Ok(13)),
    Act::Takes(1, &[UNKNOWN]),
    Act::Says(1, "PRIVMSG al :hi", &[]),
    Act::Takes(1, &[":al!a@h1 PRIVMSG al :hi\r\n"]),
    Act::Reads("PRIVMSG al :hi"),
    Act::Does(1, "PRIVMSG al :hi", Ok(15)),
    Act::Takes(1, &[":al!a@h1 PRIVMSG al :hi\r\n"]),
    Act::Says(1, "WHOIS al", &[]),
    Act::Takes(1, &[WHOIS]),
    Act::Reads("WHOIS al"),
    Act::Does(1, "WHOIS al", Ok(17)),
    Act::Takes(1, &[WHOIS]),
    Act::Says(1, "USER b 0 * :Bo", &[]),
    Act::Takes(1, &[REGISTERED]),
    Act::Reads("USER b 0 * :Bo"),
    Act::Does(1, "USER b 0 * :Bo", Ok(19)),
    Act::Takes(1, &[REGISTERED]),
    Act::Says(1, TOO_LONG, &[]),
    Act::Takes(1, &[LONG]),
    Act::Reads(TOO_LONG),
    Act::Does(1, TOO_LONG, Ok(21)),
    Act::Takes(1, &[LONG]),
];

/// Al's labels are off when the first line is done, and on when the second is.
const LABELLED: [Act; 10] = [
    Act::Reads("@label=a PING x"),
    Act::Says(1, "CAP REQ :-labeled-response", &[]),
    Act::TakesSome(1, 1),
    Act::Does(1, "@label=a PING x", Ok(7)),
    Act::Takes(1, &[":irc.example PONG irc.example x\r\n"]),
    Act::Reads("@label=a PING x"),
    Act::Says(1, "CAP REQ :labeled-response", &[]),
    Act::TakesSome(1, 1),
    Act::Does(1, "@label=a PING x", Ok(9)),
    Act::Takes(1, &["@label=a :irc.example PONG irc.example x\r\n"]),
];

/// Al's lines, each read before, come before the newest record, in a full journal, and after al was hung.
const REFUSED: [Act; 22] = [
    Act::Come(1, 16),
    Act::Says(1, "NICK al", &[]),
    Act::Says(1, "USER a 0 * :Al", &[]),
    Act::Says(1, "PING x", &[]),
    Act::Says(1, "PING x", &[]),
    Act::TakesSome(1, 3),
    Act::At(-1),
    Act::Reads(TOO_LONG),
    Act::Does(1, TOO_LONG, Err(LineRefusal::BadMoment)),
    Act::Has(5),
    Act::At(0),
    Act::Reads("PING x"),
    Act::Does(1, "PING x", Ok(6)),
    Act::Reads("PING x"),
    Act::Does(1, "PING x", Err(LineRefusal::JournalFull)),
    Act::Has(6),
    Act::TakesSome(1, 1),
    Act::Hung(1, Why::Shutdown, false),
    Act::Reads("PING x"),
    Act::Does(1, "PING x", Err(LineRefusal::Shut)),
    Act::Has(7),
    Act::TakesSome(1, 1),
];

const READ_AND_DONE: Story = Story {
    size: (1, 32),
    rounds: 1,
    parts: &[&LABELLING, &ALIKE],
};

const OFF_AND_ON: Story = Story {
    size: (1, 16),
    rounds: 1,
    parts: &[&LABELLING, &LABELLED],
};

const READ_AND_REFUSED: Story = Story {
    size: (1, 8),
    rounds: 1,
    parts: &[&REFUSED],
};

/// A line that was read before it is done leaves the same record and the same text as one that is read then: a
/// PING, one with a label, an ACK, an unknown command, a text to oneself, several lines, a fault, and a line that
/// is too long.
#[test]
fn a_line_that_was_read_leaves_the_same(rt: HostRuntime) {
    over_channels(&rt, rt.alloc(), &READ_AND_DONE);
}

/// A label counts by the capabilities before its line is done, whatever they were when it was read.
#[test]
fn a_label_counts_when_its_line_is_done(rt: HostRuntime) {
    over_channels(&rt, rt.alloc(), &OFF_AND_ON);
}

/// A line that was read is refused before the moment of the newest record, in a full journal, and once its session
/// is shut; nothing changes, and the next goes where it may.
#[test]
fn a_refused_line_that_was_read_changes_nothing(rt: HostRuntime) {
    over_channels(&rt, rt.alloc(), &READ_AND_REFUSED);
}
