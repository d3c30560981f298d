//! A hall whose journal is rolled: numbers go on, and there is room again.
use crate::acts::Act;
use crate::making::{Story, over_both};
use book::LineRefusal;
use chronicle::Why;

/// Six records, after which there is no room for a line.
const SIX: [Act; 6] = [
    Act::Come(1, 256),
    Act::Says(1, "NICK al", &[]),
    Act::Says(1, "USER a 0 * :Al", &[]),
    Act::Says(1, "PING x", &[]),
    Act::Says(1, "PING x", &[]),
    Act::Says(1, "PING x", &[]),
];

/// Six records are dropped, and it is known of them that one session came, its lines and its items.
const ROLLED: [Act; 5] = [
    Act::NotRolled,
    Act::Rolled(6, 7),
    Act::Counted(1, Some(5), Some(4)),
    Act::Counted(2, None, None),
    Act::Came(1),
];

/// The next record is kept, and the one before isn't. Al goes, and isn't counted any more once the journal is rolled
/// again. Why it ended is known until it is gone.
const GONE: [Act; 11] = [
    Act::IsKept(6, false),
    Act::IsKept(7, true),
    Act::Has(1),
    Act::Hung(1, Why::Shutdown, false),
    Act::Ended(1, Why::Shutdown),
    Act::Swept(&[]),
    Act::IsKept(9, true),
    Act::Has(3),
    Act::Leaves(1, 6),
    Act::Rolled(3, 10),
    Act::Counted(1, None, None),
];

/// No record is dropped, and it is known that nobody came.
const NOTHING: [Act; 5] = [
    Act::NotRolled,
    Act::Rolled(0, 1),
    Act::Counted(1, None, None),
    Act::Came(0),
    Act::Has(0),
];

const NOTHING_AT_FIRST: Story = Story {
    size: (4, 8),
    rounds: 1,
    parts: &[&NOTHING, &SIX, &NO_PING],
};

/// The line for which there is no room at first.
const NO_PING: [Act; 1] = [Act::Refused(1, "PING x", LineRefusal::JournalFull)];

const PING: [Act; 1] = [Act::Says(1, "PING x", &[])];

const NO_WHOIS: [Act; 1] = [Act::Refused(1, "WHOIS al", LineRefusal::JournalFull)];

const WHOIS: [Act; 1] = [Act::Says(1, "WHOIS al", &[])];

const A_PING_LATER: Story = Story {
    size: (4, 8),
    rounds: 1,
    parts: &[&SIX, &NO_PING, &ROLLED, &PING, &GONE],
};

const A_WHOIS_LATER: Story = Story {
    size: (4, 8),
    rounds: 1,
    parts: &[&SIX, &NO_WHOIS, &ROLLED, &WHOIS, &GONE],
};

/// With a journal for eight records: Al registers by three, and `PING x` is recorded as 4, 5 and 6; the next is
/// refused, since two are kept free. It is rolled: six are dropped, and the next is 7; five of Al's lines were
/// accepted, and four deliveries owed. `PING x` is record 7, and the only one that is kept, while record 6 isn't
/// found any more. Al is hung by record 8 and swept by 9, and the six deliveries that it never took are what it
/// leaves. Before the roll there is no base, and then it has no counts of a session that never came; over both
/// outboxes.
#[test]
fn a_rolled_hall_goes_on(rt: HostRuntime) {
    over_both(&rt, rt.alloc(), &A_PING_LATER);
    over_both(&rt, rt.alloc(), &A_WHOIS_LATER);
}

/// Before the first record a hall's journal is rolled: no record is dropped and the next is 1, and there is a base,
/// which knows of no session. Then there is room for as many records as without; over both outboxes.
#[test]
fn a_hall_without_records_is_rolled(rt: HostRuntime) {
    over_both(&rt, rt.alloc(), &NOTHING_AT_FIRST);
}
