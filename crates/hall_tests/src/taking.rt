//! What people take of outboxes between threads, octet by octet: the first item by who waits for it, the others by
//! who doesn't. Over rings `crates/scenarios` has the same items.
use crate::acts::Act;
use crate::making::{Story, over_channels};
use book::LineRefusal;
use chronicle::Why;

const AL: &str = ":irc.example 001 al :Welcome to the Internet Relay Network al!a@h1\r\n\
    :irc.example 002 al :Your host is irc.example, running version halld-1\r\n\
    :irc.example 003 al :This server was created 1970-01-01T00:00:00.000Z\r\n\
    :irc.example 004 al irc.example halld-1 i biklmnostv\r\n\
    :irc.example 005 al AWAYLEN=200 CASEMAPPING=rfc1459 CHANLIMIT=#&:20 CHANMODES=b,k,l,imnst CHANNELLEN=50 \
    CHANTYPES=#& KICKLEN=200 MAXLIST=b:60 MODES=4 NICKLEN=30 PREFIX=(ov)@+ TOPICLEN=300 \
    :are supported by this server\r\n\
    :irc.example 422 al :MOTD File is missing\r\n";

const BO: &str = ":irc.example 001 bo :Welcome to the Internet Relay Network bo!b@h1\r\n\
    :irc.example 002 bo :Your host is irc.example, running version halld-1\r\n\
    :irc.example 003 bo :This server was created 1970-01-01T00:00:00.000Z\r\n\
    :irc.example 004 bo irc.example halld-1 i biklmnostv\r\n\
    :irc.example 005 bo AWAYLEN=200 CASEMAPPING=rfc1459 CHANLIMIT=#&:20 CHANMODES=b,k,l,imnst CHANNELLEN=50 \
    CHANTYPES=#& KICKLEN=200 MAXLIST=b:60 MODES=4 NICKLEN=30 PREFIX=(ov)@+ TOPICLEN=300 \
    :are supported by this server\r\n\
    :irc.example 422 bo :MOTD File is missing\r\n";

const CY: &str = ":irc.example 001 cy :Welcome to the Internet Relay Network cy!c@h1\r\n\
    :irc.example 002 cy :Your host is irc.example, running version halld-1\r\n\
    :irc.example 003 cy :This server was created 1970-01-01T00:00:00.000Z\r\n\
    :irc.example 004 cy irc.example halld-1 i biklmnostv\r\n\
    :irc.example 005 cy AWAYLEN=200 CASEMAPPING=rfc1459 CHANLIMIT=#&:20 CHANMODES=b,k,l,imnst CHANNELLEN=50 \
    CHANTYPES=#& KICKLEN=200 MAXLIST=b:60 MODES=4 NICKLEN=30 PREFIX=(ov)@+ TOPICLEN=300 \
    :are supported by this server\r\n\
    :irc.example 422 cy :MOTD File is missing\r\n";

/// What al is told when it makes a channel, and bo when it joins it.
const AL_IN: &str =
    ":al!a@h1 JOIN #a\r\n:irc.example 353 al = #a :@al\r\n:irc.example 366 al #a :End of NAMES list\r\n";

const BO_IN: &str =
    ":bo!b@h1 JOIN #a\r\n:irc.example 353 bo = #a :@al bo\r\n:irc.example 366 bo #a :End of NAMES list\r\n";

/// Al and bo register, and al makes a channel that bo joins, by records 1 to 8. Al takes all that it is sent, and bo
/// its welcome alone.
const TWO: [Act; 12] = [
    Act::Says(1, "NICK al", &[]),
    Act::Says(1, "USER a 0 * :Al", &[]),
    Act::TakesFirst(1, AL),
    Act::Says(2, "NICK bo", &[]),
    Act::Says(2, "USER b 0 * :Bo", &[]),
    Act::TakesFirst(2, BO),
    Act::Takes(1, &[]),
    Act::Takes(2, &[]),
    Act::Says(1, "JOIN #a", &[]),
    Act::Takes(1, &[AL_IN]),
    Act::Says(2, "JOIN #a", &[]),
    Act::Takes(1, &[":bo!b@h1 JOIN #a\r\n"]),
];

/// Bo's outbox is full by its join, so it misses al's text.
const ONE_ITEM: [Act; 7] = [
    Act::Says(1, "PRIVMSG #a :hi", &[2]),
    Act::Has(9),
    Act::Takes(2, &[BO_IN]),
    Act::Swept(&[]),
    Act::Has(10),
    Act::Takes(1, &[":bo!b@h1 QUIT :Max SendQ exceeded\r\n"]),
    Act::Leaves(2, 0),
];

/// Bo is told a text, and quits; its line after that is refused. Al is told of the end once bo is swept.
const A_QUIT: [Act; 11] = [
    Act::Takes(2, &[BO_IN]),
    Act::Says(1, "PRIVMSG #a :hi", &[]),
    Act::Says(2, "QUIT :bye", &[]),
    Act::Refused(2, "PING x", LineRefusal::Shut),
    Act::Takes(
        2,
        &[
            ":al!a@h1 PRIVMSG #a :hi\r\n",
            "ERROR :Closing Link: h1 (Client Quit)\r\n",
        ],
    ),
    Act::Takes(1, &[]),
    Act::Swept(&[]),
    Act::Has(11),
    Act::Takes(1, &[":bo!b@h1 QUIT :bye\r\n"]),
    Act::Takes(2, &[]),
    Act::Leaves(2, 0),
];

/// Cy registers too, and all three are on two channels. Bo is put out of one of them, which each is told, also bo; and
/// al's end is told bo and cy once, by the other channel or by both.
const A_KICK: [Act; 25] = [
    Act::Takes(2, &[BO_IN]),
    Act::Says(3, "NICK cy", &[]),
    Act::Says(3, "USER c 0 * :Cy", &[]),
    Act::TakesFirst(3, CY),
    Act::Says(3, "JOIN #a", &[]),
    Act::Takes(
        3,
        &[
            ":cy!c@h1 JOIN #a\r\n:irc.example 353 cy = #a :@al bo cy\r\n:irc.example 366 cy #a :End of NAMES list\r\n",
        ],
    ),
    Act::Says(1, "JOIN #b", &[]),
    Act::Says(2, "JOIN #b", &[]),
    Act::Says(3, "JOIN #b", &[]),
    Act::Takes(
        1,
        &[
            ":cy!c@h1 JOIN #a\r\n",
            ":al!a@h1 JOIN #b\r\n:irc.example 353 al = #b :@al\r\n:irc.example 366 al #b :End of NAMES list\r\n",
            ":bo!b@h1 JOIN #b\r\n",
            ":cy!c@h1 JOIN #b\r\n",
        ],
    ),
    Act::Takes(
        2,
        &[
            ":cy!c@h1 JOIN #a\r\n",
            ":bo!b@h1 JOIN #b\r\n:irc.example 353 bo = #b :@al bo\r\n:irc.example 366 bo #b :End of NAMES list\r\n",
            ":cy!c@h1 JOIN #b\r\n",
        ],
    ),
    Act::Takes(
        3,
        &[
            ":cy!c@h1 JOIN #b\r\n:irc.example 353 cy = #b :@al bo cy\r\n:irc.example 366 cy #b :End of NAMES list\r\n",
        ],
    ),
    Act::Says(1, "KICK #a bo :out", &[]),
    Act::Takes(1, &[":al!a@h1 KICK #a bo :out\r\n"]),
    Act::Takes(2, &[":al!a@h1 KICK #a bo :out\r\n"]),
    Act::Takes(3, &[":al!a@h1 KICK #a bo :out\r\n"]),
    Act::Says(1, "QUIT", &[]),
    Act::Takes(1, &["ERROR :Closing Link: h1 (Client Quit)\r\n"]),
    Act::Takes(2, &[]),
    Act::Takes(3, &[]),
    Act::Swept(&[]),
    Act::Takes(1, &[]),
    Act::Takes(2, &[":al!a@h1 QUIT :Client Quit\r\n"]),
    Act::Takes(3, &[":al!a@h1 QUIT :Client Quit\r\n"]),
    Act::Leaves(1, 0),
];

/// A journal for four records has room for a line, and for the end of its session.
const FOUR_RECORDS: [Act; 9] = [
    Act::Come(1, 8),
    Act::Says(1, "NICK al", &[]),
    Act::Refused(1, "PING x", LineRefusal::JournalFull),
    Act::Hung(1, Why::Shutdown, false),
    Act::TakesFirst(1, "ERROR :Closing Link: h1 (Server shutting down)\r\n"),
    Act::Takes(1, &[]),
    Act::Swept(&[]),
    Act::Has(4),
    Act::Leaves(1, 0),
];

/// The same, where nothing is taken.
const FOUR_RECORDS_LEFT: [Act; 5] = [
    Act::Come(1, 8),
    Act::Says(1, "NICK al", &[]),
    Act::Hung(1, Why::Shutdown, false),
    Act::Swept(&[]),
    Act::Leaves(1, 1),
];

/// Al, who has asked for echoes and labels, sends itself a text: the echo has the label, and the copy hasn't.
const AN_ECHO: [Act; 10] = [
    Act::Come(1, 8),
    Act::Says(1, "CAP REQ :batch echo-message labeled-response", &[]),
    Act::TakesFirst(
        1,
        ":irc.example CAP * ACK :batch echo-message labeled-response\r\n",
    ),
    Act::Says(1, "NICK al", &[]),
    Act::Says(1, "USER a 0 * :Al", &[]),
    Act::Says(1, "CAP END", &[]),
    Act::Takes(1, &[AL]),
    Act::Says(1, "@label=s PRIVMSG al :hi", &[]),
    Act::Takes(
        1,
        &["@label=s :al!a@h1 PRIVMSG al :hi\r\n:al!a@h1 PRIVMSG al :hi\r\n"],
    ),
    Act::Has(6),
];

/// What al is told of itself.
const WHOIS: &str =
    ":irc.example 311 al al a h1 * :Al\r\n:irc.example 319 al al :@#a\r\n:irc.example 312 al al irc.example :halld\r\n\
    :irc.example 318 al al :End of WHOIS list\r\n";

/// Al asks for itself before the journal is rolled, and after that, when bo has quit and was forgotten, too.
const A_ROLL: [Act; 14] = [
    Act::Takes(2, &[BO_IN]),
    Act::Says(1, "WHOIS al", &[]),
    Act::Takes(1, &[WHOIS]),
    Act::Rolled(9, 10),
    Act::Has(0),
    Act::Says(1, "WHOIS al", &[]),
    Act::Takes(1, &[WHOIS]),
    Act::Has(1),
    Act::Says(2, "QUIT", &[]),
    Act::Swept(&[]),
    Act::Rolled(3, 13),
    Act::Says(1, "WHOIS al", &[]),
    Act::Takes(1, &[":bo!b@h1 QUIT :Client Quit\r\n", WHOIS]),
    Act::Leaves(2, 1),
];

/// So many come, each with an outbox for so many items.
const ONE_EACH: [Act; 1] = [Act::Come(2, 1)];

const EIGHT_EACH: [Act; 1] = [Act::Come(2, 8)];

const THREE_COME: [Act; 1] = [Act::Come(3, 8)];

const FOR_ONE_ITEM: Story = Story {
    size: (3, 40),
    rounds: 1,
    parts: &[&ONE_EACH, &TWO, &ONE_ITEM],
};

const A_QUIT_IS_TAKEN: Story = Story {
    size: (3, 40),
    rounds: 1,
    parts: &[&EIGHT_EACH, &TWO, &A_QUIT],
};

const A_KICK_IS_TAKEN: Story = Story {
    size: (3, 40),
    rounds: 1,
    parts: &[&THREE_COME, &TWO, &A_KICK],
};

const ROOM_FOR_AN_END: Story = Story {
    size: (3, 4),
    rounds: 1,
    parts: &[&FOUR_RECORDS],
};

const AN_END_IS_LEFT: Story = Story {
    size: (3, 4),
    rounds: 1,
    parts: &[&FOUR_RECORDS_LEFT],
};

const AN_ECHO_IS_TAKEN: Story = Story {
    size: (3, 40),
    rounds: 1,
    parts: &[&AN_ECHO],
};

const BEFORE_AND_AFTER: Story = Story {
    size: (3, 40),
    rounds: 1,
    parts: &[&EIGHT_EACH, &TWO, &A_ROLL],
};

/// With outboxes for one item, bo's is full by its join: it misses al's text by record 9, takes its join, and nothing
/// else waits. It is swept by record 10, al is told `Max SendQ exceeded`, and nothing is left for bo.
#[test]
fn who_has_one_item_takes_it(rt: HostRuntime) {
    over_channels(&rt, rt.alloc(), &FOR_ONE_ITEM);
}

/// Bo is told a text and quits with `bye`; its `PING x` after that is refused. It takes the text and
/// `ERROR :Closing Link: h1 (Client Quit)`, and nothing else. Al is told `QUIT :bye` once bo is swept.
#[test]
fn who_quits_takes_what_was_owed(rt: HostRuntime) {
    over_channels(&rt, rt.alloc(), &A_QUIT_IS_TAKEN);
}

/// Al, bo and cy share two channels. Al puts bo out of one, which all three take, and quits, which bo and cy each take
/// once, when al is swept.
#[test]
fn a_kick_and_a_quit_are_taken_once(rt: HostRuntime) {
    over_channels(&rt, rt.alloc(), &A_KICK_IS_TAKEN);
}

/// A journal for four records has no room for al's `PING x` after its connection and its `NICK`, and has it for its
/// end: al takes `ERROR :Closing Link: h1 (Server shutting down)`, is swept by record 4, and nothing is left for it.
/// If it takes nothing, one item is left.
#[test]
fn four_records_have_room_for_an_end(rt: HostRuntime) {
    over_channels(&rt, rt.alloc(), &ROOM_FOR_AN_END);
    over_channels(&rt, rt.alloc(), &AN_END_IS_LEFT);
}

/// Who has echoes and labels and sends a text to itself takes one item: the echo with its label, then the copy without
/// one.
#[test]
fn an_echo_and_its_copy_are_one_item(rt: HostRuntime) {
    over_channels(&rt, rt.alloc(), &AN_ECHO_IS_TAKEN);
}

/// `WHOIS al` is answered by the same four lines before the journal is rolled, after nine records were dropped, and
/// after three more, one of which was the end of bo.
#[test]
fn whois_is_answered_as_before_a_roll(rt: HostRuntime) {
    over_channels(&rt, rt.alloc(), &BEFORE_AND_AFTER);
}
