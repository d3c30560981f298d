//! A session is reaped by its own tokens alone.
use crate::acts::Act;
use crate::making::{Story, over_both};
use book::ReapRefusal;
use chronicle::Why;

/// Two come, of whom the first says two lines that are answered. Each is given up by its own tokens alone, once it is
/// gone.
const TWO: [Act; 14] = [
    Act::Come(2, 4),
    Act::Says(1, "PING x", &[]),
    Act::Says(1, "PING y", &[]),
    Act::Swap,
    Act::Stays(1, ReapRefusal::Stranger),
    Act::Swap,
    Act::Stays(1, ReapRefusal::NotGone),
    Act::Hung(1, Why::Shutdown, false),
    Act::Swept(&[]),
    Act::Leaves(1, 3),
    Act::Stays(2, ReapRefusal::NotGone),
    Act::Hung(2, Why::Shutdown, false),
    Act::Swept(&[]),
    Act::Leaves(2, 1),
];

const STRANGERS: Story = Story {
    size: (2, 16),
    rounds: 1,
    parts: &[&TWO],
};

/// One session's baton with another's stub and taker is a stranger's, and all three are handed back; a session that
/// isn't gone isn't reaped; then each ends with its own, with its answers and its last item left, over both
/// outboxes.
#[test]
fn strangers_are_handed_back(rt: HostRuntime) {
    over_both(&rt, rt.alloc(), &STRANGERS);
}
