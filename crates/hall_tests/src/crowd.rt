//! Sessions that come and go one after the other, each with the nickname of the one before.
use crate::acts::Act;
use crate::making::{Story, over_channels, over_rings};
use chronicle::Why;

/// Four come and go, and say one line that is answered, two, three and none. Two are hung, and two quit. Each leaves
/// its answers, and its last item.
const FOUR: [Act; 31] = [
    Act::Come(1, 8),
    Act::Says(1, "NICK al", &[]),
    Act::Says(1, "PING x", &[]),
    Act::Hung(1, Why::ReadEnded, false),
    Act::Swept(&[]),
    Act::Leaves(1, 2),
    Act::Away(1),
    Act::Come(1, 8),
    Act::Says(2, "NICK al", &[]),
    Act::Says(2, "PING x", &[]),
    Act::Says(2, "PING x", &[]),
    Act::Says(2, "QUIT", &[]),
    Act::Swept(&[]),
    Act::Leaves(2, 3),
    Act::Away(2),
    Act::Come(1, 8),
    Act::Says(3, "NICK al", &[]),
    Act::Says(3, "PING x", &[]),
    Act::Says(3, "PING x", &[]),
    Act::Says(3, "PING x", &[]),
    Act::Hung(3, Why::ReadEnded, false),
    Act::Swept(&[]),
    Act::Leaves(3, 4),
    Act::Away(3),
    Act::Come(1, 8),
    Act::Says(4, "NICK al", &[]),
    Act::Says(4, "QUIT", &[]),
    Act::Swept(&[]),
    Act::Leaves(4, 1),
    Act::Away(4),
    Act::NobodyToSweep,
];

/// Seven records a session at most.
const COME_AND_GO: Story = Story {
    size: (2, 700_000),
    rounds: 25_000,
    parts: &[&FOUR],
};

/// 100,000 sessions come, take the nickname of the one before, end, are swept and reaped one after the other in a
/// hall, each with its answers and its last item left, over both outboxes. A hundred thousand sessions come and go
/// one after another, each with the count of what it left, and a number that was given up answers as one that isn't
/// there.
#[test]
fn a_hundred_thousand_come_and_go_over_rings(rt: HostRuntime) {
    over_rings(&rt, rt.alloc(), &COME_AND_GO);
}

/// 100,000 sessions come, take the nickname of the one before, end, are swept and reaped one after the other in a
/// hall, each with its answers and its last item left, over both outboxes. A hundred thousand sessions come and go
/// one after another, each with the count of what it left, and a number that was given up answers as one that isn't
/// there.
#[test]
fn a_hundred_thousand_come_and_go_over_channels(rt: HostRuntime) {
    over_channels(&rt, rt.alloc(), &COME_AND_GO);
}
