//! Ends: who misses an item, who goes, and how many items each leaves.
use crate::acts::Act;
use crate::making::{Story, over_both, over_channels};
use book::LineRefusal;
use chronicle::Why;

/// Al and bo meet on a channel, by records 1 to 8: three items are put for al, and two for bo.
const TWO: [Act; 6] = [
    Act::Says(1, "NICK al", &[]),
    Act::Says(1, "USER a 0 * :Al", &[]),
    Act::Says(2, "NICK bo", &[]),
    Act::Says(2, "USER b 0 * :Bo", &[]),
    Act::Says(1, "JOIN #a", &[]),
    Act::Says(2, "JOIN #a", &[]),
];

/// Bo, who takes nothing, has room for two texts, and misses the third. Nothing is put for it later.
const TEXTS: [Act; 11] = [
    Act::Says(1, "PRIVMSG #a :one", &[]),
    Act::Says(1, "PRIVMSG #a :two", &[]),
    Act::Says(1, "PRIVMSG #a :three", &[2]),
    Act::Says(1, "PRIVMSG #a :four", &[]),
    Act::Refused(2, "PING x", LineRefusal::Shut),
    Act::Swept(&[]),
    Act::NobodyToSweep,
    Act::Leaves(2, 4),
    Act::Says(1, "QUIT", &[]),
    Act::Swept(&[]),
    Act::Leaves(1, 5),
];

/// Al, who has room for two texts, isn't told that bo quit, and then is shut too.
const AT_A_SWEEP: [Act; 9] = [
    Act::Says(2, "PRIVMSG #a :one", &[]),
    Act::Says(2, "PRIVMSG #a :two", &[]),
    Act::Says(2, "QUIT", &[]),
    Act::Swept(&[1]),
    Act::Refused(1, "PING x", LineRefusal::Shut),
    Act::Swept(&[]),
    Act::NobodyToSweep,
    Act::Leaves(1, 5),
    Act::Leaves(2, 3),
];

/// Al is hung, and has no room for its last item. Bo is told.
const AT_A_HANG: [Act; 8] = [
    Act::Says(2, "PRIVMSG #a :one", &[]),
    Act::Says(2, "PRIVMSG #a :two", &[]),
    Act::Hung(1, Why::Shutdown, true),
    Act::Swept(&[]),
    Act::Leaves(1, 5),
    Act::Says(2, "QUIT", &[]),
    Act::Swept(&[]),
    Act::Leaves(2, 4),
];

/// A journal for twelve records has no room for a line, and has it for the ends of both.
const FULL_JOURNAL: [Act; 10] = [
    Act::Refused(1, "PRIVMSG #a :hi", LineRefusal::JournalFull),
    Act::Refused(2, "QUIT", LineRefusal::JournalFull),
    Act::Hung(1, Why::ReadEnded, false),
    Act::Refused(1, "PING x", LineRefusal::Shut),
    Act::Swept(&[]),
    Act::Refused(2, "PING x", LineRefusal::JournalFull),
    Act::Hung(2, Why::WriteFailed, false),
    Act::Swept(&[]),
    Act::Leaves(1, 4),
    Act::Leaves(2, 4),
];

/// What takes bo's items goes, and later what takes al's.
const CUTS: [Act; 9] = [
    Act::Cut(2),
    Act::Says(1, "PRIVMSG #a :hi", &[2]),
    Act::Says(1, "PRIVMSG #a :there", &[]),
    Act::Swept(&[]),
    Act::NobodyToSweep,
    Act::Cut(1),
    Act::Hung(1, Why::WriteFailed, true),
    Act::Swept(&[]),
    Act::NobodyToSweep,
];

/// Al, bo and cy meet on two channels: four items are put for al, three for bo, and two for cy.
const THREE: [Act; 9] = [
    Act::Says(1, "NICK al", &[]),
    Act::Says(1, "USER a 0 * :Al", &[]),
    Act::Says(2, "NICK bo", &[]),
    Act::Says(2, "USER b 0 * :Bo", &[]),
    Act::Says(3, "NICK cy", &[]),
    Act::Says(3, "USER c 0 * :Cy", &[]),
    Act::Says(1, "JOIN #a,#b", &[]),
    Act::Says(2, "JOIN #a,#b", &[]),
    Act::Says(3, "JOIN #a,#b", &[]),
];

/// Al puts bo out of one channel, which all are told, and quits, which bo and cy are told once. Bo, who isn't on the
/// one channel any more, is refused there, and hears cy on the other alone.
const KICK_AND_QUIT: [Act; 13] = [
    Act::Says(1, "KICK #a bo :out", &[]),
    Act::Says(2, "PRIVMSG #a :hi", &[]),
    Act::Says(1, "QUIT", &[]),
    Act::Swept(&[]),
    Act::Leaves(1, 6),
    Act::Says(3, "PRIVMSG #a :alone", &[]),
    Act::Says(3, "PRIVMSG #b :hi", &[]),
    Act::Says(2, "QUIT", &[]),
    Act::Swept(&[]),
    Act::Leaves(2, 8),
    Act::Hung(3, Why::Shutdown, false),
    Act::Swept(&[]),
    Act::Leaves(3, 6),
];

/// Al and bo come, for whom so many items may wait.
const FIVE_AND_EIGHT: [Act; 2] = [Act::Come(1, 5), Act::Come(1, 8)];

const EIGHT_AND_FOUR: [Act; 2] = [Act::Come(1, 8), Act::Come(1, 4)];

const EIGHT_EACH: [Act; 1] = [Act::Come(2, 8)];

const TWELVE_EACH: [Act; 1] = [Act::Come(3, 12)];

/// Bo, for whom one item may wait, takes its welcome, and its `JOIN` only after the next record was missed; then it is
/// shut, and no text came.
const ONE_ITEM: [Act; 14] = [
    Act::Come(1, 8),
    Act::Come(1, 1),
    Act::Says(1, "NICK al", &[]),
    Act::Says(1, "USER a 0 * :Al", &[]),
    Act::Says(1, "JOIN #a", &[]),
    Act::Says(2, "NICK bo", &[]),
    Act::Says(2, "USER b 0 * :Bo", &[]),
    Act::TakesSome(2, 1),
    Act::Says(2, "JOIN #a", &[]),
    Act::Says(1, "PRIVMSG #a :hi", &[2]),
    Act::IsOpen(2, false),
    Act::TakesSome(2, 1),
    Act::Swept(&[]),
    Act::Leaves(2, 0),
];

const AN_OUTBOX_FOR_ONE: Story = Story {
    size: (2, 40),
    rounds: 1,
    parts: &[&ONE_ITEM],
};

const A_FULL_OUTBOX: Story = Story {
    size: (2, 40),
    rounds: 1,
    parts: &[&EIGHT_AND_FOUR, &TWO, &TEXTS],
};

const A_MISSED_SWEEP: Story = Story {
    size: (2, 40),
    rounds: 1,
    parts: &[&FIVE_AND_EIGHT, &TWO, &AT_A_SWEEP],
};

const A_MISSED_HANG: Story = Story {
    size: (2, 40),
    rounds: 1,
    parts: &[&FIVE_AND_EIGHT, &TWO, &AT_A_HANG],
};

const A_FULL_JOURNAL: Story = Story {
    size: (2, 12),
    rounds: 1,
    parts: &[&EIGHT_EACH, &TWO, &FULL_JOURNAL],
};

const A_KICK: Story = Story {
    size: (3, 40),
    rounds: 1,
    parts: &[&TWELVE_EACH, &THREE, &KICK_AND_QUIT],
};

const CUT_OFF: Story = Story {
    size: (2, 40),
    rounds: 1,
    parts: &[&EIGHT_EACH, &TWO, &CUTS],
};

/// An outbox of one item is full, its session misses the next record, is swept with the reason, and leaves nothing,
/// over both outboxes.
#[test]
fn an_outbox_for_one_item_is_full(rt: HostRuntime) {
    over_channels(&rt, rt.alloc(), &AN_OUTBOX_FOR_ONE);
}

/// Who takes no item while another speaks is missed when its outbox is full, and shut; what it was sent before
/// stands, and nothing comes later, over both outboxes.
#[test]
fn who_takes_nothing_is_shut(rt: HostRuntime) {
    over_both(&rt, rt.alloc(), &A_FULL_OUTBOX);
}

/// A full outbox misses the end of another, and its own last item.
#[test]
fn an_end_may_be_missed(rt: HostRuntime) {
    over_both(&rt, rt.alloc(), &A_MISSED_SWEEP);
    over_both(&rt, rt.alloc(), &A_MISSED_HANG);
}

/// A full journal refuses lines and has room for the ends of all who are there, over both outboxes.
#[test]
fn a_full_journal_has_room_for_the_ends(rt: HostRuntime) {
    over_both(&rt, rt.alloc(), &A_FULL_JOURNAL);
}

/// Who is kicked is told, and who shares two channels with one that quits is told of it once, over both outboxes.
#[test]
fn a_quit_is_told_once(rt: HostRuntime) {
    over_both(&rt, rt.alloc(), &A_KICK);
}

/// Whose writer went is missed by the next record that is put for it, and shut.
#[test]
fn who_is_cut_off_is_shut(rt: HostRuntime) {
    over_channels(&rt, rt.alloc(), &CUT_OFF);
}
