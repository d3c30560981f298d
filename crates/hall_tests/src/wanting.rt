//! A session for whose line memory is wanting is hung for that, and is told so without any more memory.
use crate::acts::Act;
use crate::making::{Story, over_channels};
use chronicle::Why;

/// What who makes a channel is told.
const JOINED: &str =
    ":al!a@h1 JOIN #a\r\n:irc.example 353 al = #a :@al\r\n:irc.example 366 al #a :End of NAMES list\r\n";

/// What who is hung for want of memory is told.
const ERROR: &str = "ERROR :Closing Link: h1 (Out of memory)\r\n";

/// Al makes a channel, if there is memory, and is hung for want of it. Between the marks no memory is asked for.
const ENDED: [Act; 10] = [
    Act::Come(1, 8),
    Act::Says(1, "NICK al", &[]),
    Act::Says(1, "USER a 0 * :Al", &[]),
    Act::TakesSome(1, 1),
    Act::MaySay(1, "JOIN #a"),
    Act::Mark,
    Act::Hung(1, Why::Memory, false),
    Act::TakesIfSaid(1, JOINED),
    Act::Takes(1, &[ERROR]),
    Act::Mark,
];

const WANTING: Story = Story {
    size: (2, 16),
    rounds: 1,
    parts: &[&ENDED],
};

/// Al registers and says `JOIN #a`, for which there may be no memory; then nothing is put. Al is hung with Memory, its
/// writer takes what was put and then the last item, and `ERROR :Closing Link: h1 (Out of memory)` is written. From
/// the hanging to the last octet no memory is asked for (`checks/growths` counts it).
#[test]
fn who_is_hung_for_memory_is_told_without_any(rt: HostRuntime) {
    over_channels(&rt, rt.alloc(), &WANTING);
}
