//! As many sessions as may be are there.
use crate::acts::Act;
use crate::making::{Story, over_both};
use book::OpenRefusal;
use chronicle::Why;

/// So many come; one more is turned away, with its outbox. One is gone, which makes no room until it is reaped; then
/// one more comes.
const FULL: [Act; 8] = [
    Act::Come(1024, 4),
    Act::TurnedAway(OpenRefusal::TooManySessions),
    Act::Hung(1024, Why::Shutdown, false),
    Act::Swept(&[]),
    Act::TurnedAway(OpenRefusal::TooManySessions),
    Act::Leaves(1024, 1),
    Act::Come(1, 4),
    Act::TurnedAway(OpenRefusal::TooManySessions),
];

const A_FULL_HALL: Story = Story {
    size: (1024, 8192),
    rounds: 1,
    parts: &[&FULL],
};

/// 1,024 sessions are there, and one more is refused with its outbox handed back, also when one is gone; when that
/// one is reaped one more comes, over both outboxes.
#[test]
fn a_full_hall_turns_away(rt: HostRuntime) {
    over_both(&rt, rt.alloc(), &A_FULL_HALL);
}
