//! A growth that is refused is told as want of memory, and changes nothing: the same call is made once more, and goes.
use crate::acts::Act;
use crate::making::{Story, over_both};

/// Al comes and makes a channel. Bo comes to it, quits, and goes: its welcome, its own join and its last item are left
/// for it. Then al goes, for whom its welcome, its own join, bo's join, bo's end and its own are left.
const MEETING: [Act; 15] = [
    Act::Come(1, 8),
    Act::Says(1, "NICK al", &[]),
    Act::Says(1, "USER a 0 * :Al", &[]),
    Act::Says(1, "JOIN #a", &[]),
    Act::Come(1, 8),
    Act::Says(2, "NICK bo", &[]),
    Act::Says(2, "USER b 0 * :Bo", &[]),
    Act::Says(2, "JOIN #a", &[]),
    Act::Says(2, "QUIT", &[]),
    Act::Swept(&[]),
    Act::Leaves(2, 3),
    Act::Says(1, "QUIT", &[]),
    Act::Swept(&[]),
    Act::Leaves(1, 5),
    Act::Has(12),
];

const A_MEETING: Story = Story {
    size: (2, 16),
    rounds: 1,
    parts: &[&MEETING],
};

/// An allocation that fails while a register, a hall or an outbox is made, a session is opened, a line is said or a
/// session swept, reports Memory and changes nothing; the same call then goes. Who quits takes what was owed before
/// and its last item; others are told when it is swept, and what is left is counted when it is reaped, over both
/// outboxes. An allocation that fails while a session is opened, a line is begun or a sweep is, reports Memory and
/// changes nothing; the outbox comes back, and the same call then goes.
#[test]
fn a_refused_growth_changes_nothing(rt: HostRuntime) {
    over_both(&rt, rt.alloc(), &A_MEETING);
}
