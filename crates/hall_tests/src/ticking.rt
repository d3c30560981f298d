//! Who is silent in a hall is pinged and is late, also where its journal is rolled.
use crate::acts::Act;
use crate::making::{Story, over_both};
use book::TickRefusal;
use chronicle::Why;

const COMES: [Act; 1] = [Act::Come(1, 4)];

/// Nobody was silent for long enough.
const EARLY: [Act; 2] = [Act::At(119_999), Act::Ticks(Ok(None))];

/// The session is pinged by the second record, and is told.
const PINGED: [Act; 3] = [Act::At(120_000), Act::TickTells(2), Act::Listed(&[1], 1)];

/// It is pinged once, is late, and is ended; then it is neither late nor pinged. A PING and its end are left for it.
const LATE: [Act; 15] = [
    Act::At(239_999),
    Act::Ticks(Ok(None)),
    Act::Late(0),
    Act::At(240_000),
    Act::Late(1),
    Act::At(-1),
    Act::Ticks(Err(TickRefusal::BadMoment)),
    Act::At(240_000),
    Act::Hung(1, Why::PingTimeout, false),
    Act::At(900_000),
    Act::Late(0),
    Act::Ticks(Ok(None)),
    Act::At(240_000),
    Act::Swept(&[]),
    Act::Leaves(1, 2),
];

/// The journal is rolled, which drops the session's opening, or its PING.
const OPENING_DROPPED: [Act; 1] = [Act::Rolled(1, 2)];

const PING_DROPPED: [Act; 1] = [Act::Rolled(1, 3)];

const SILENT: Story = Story {
    size: (2, 8),
    rounds: 1,
    parts: &[&COMES, &EARLY, &EARLY, &PINGED, &LATE],
};

const SILENT_AND_ROLLED: Story = Story {
    size: (2, 8),
    rounds: 1,
    parts: &[
        &COMES,
        &EARLY,
        &OPENING_DROPPED,
        &EARLY,
        &PINGED,
        &PING_DROPPED,
        &LATE,
    ],
};

/// A tick that has no room changes nothing, and pings once the journal is rolled.
const NO_ROOM: [Act; 6] = [
    Act::At(120_000),
    Act::Ticks(Err(TickRefusal::JournalFull)),
    Act::Has(1),
    Act::Rolled(1, 2),
    Act::Ticks(Ok(Some(2))),
    Act::IsOpen(1, true),
];

/// A journal that has room for a session and its end alone: a tick has none, until it is rolled.
const FULL: Story = Story {
    size: (1, 3),
    rounds: 1,
    parts: &[&COMES, &EARLY, &NO_ROOM],
};

/// The same over both kinds of outbox, and where the journal is rolled before the PING and after it; who is pinged
/// is on the list of those to be written to.
#[test]
fn who_is_silent_is_pinged(rt: HostRuntime) {
    over_both(&rt, rt.alloc(), &SILENT);
    over_both(&rt, rt.alloc(), &SILENT_AND_ROLLED);
}

/// A tick's moment is looked at before who is silent, and want of room only after that.
#[test]
fn a_tick_needs_room(rt: HostRuntime) {
    over_both(&rt, rt.alloc(), &FULL);
}
