//! Who got something is listed for whoever writes to them, once for lines that tell the same.
use crate::acts::Act;
use crate::making::{Story, over_both};

/// Two meet on a channel.
const MEET: [Act; 7] = [
    Act::Come(2, 16),
    Act::Says(1, "NICK al", &[]),
    Act::Says(1, "USER a 0 * :Al", &[]),
    Act::Says(1, "JOIN #a", &[]),
    Act::Says(2, "NICK bo", &[]),
    Act::Says(2, "USER b 0 * :Bo", &[]),
    Act::Says(2, "JOIN #a", &[]),
];

/// They talk; then the second is ended, which it is told, and the first sees it leave.
const TALK: [Act; 14] = [
    Act::Tells(2, "PRIVMSG #a :one"),
    Act::Listed(&[1], 1),
    Act::Tells(2, "PRIVMSG #a :two"),
    Act::Tells(2, "PRIVMSG #a :three"),
    Act::Listed(&[1], 2),
    Act::Tells(2, "PRIVMSG #a :four"),
    Act::Tells(1, "PRIVMSG #a :five"),
    Act::Listed(&[1, 2], 2),
    Act::Tells(1, "PING x"),
    Act::Listed(&[1], 1),
    Act::HangTells(2),
    Act::Listed(&[2], 1),
    Act::SweepTells,
    Act::Listed(&[1], 1),
];

const A_TALK: Story = Story {
    size: (2, 40),
    rounds: 1,
    parts: &[&MEET, &TALK],
};

/// Who got something by a line, a sweep or a hang is on the list of those to be written to, and nobody else.
#[test]
fn who_got_something_is_listed(rt: HostRuntime) {
    over_both(&rt, rt.alloc(), &A_TALK);
}
