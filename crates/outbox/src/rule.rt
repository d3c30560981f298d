//! The rule of the channel between the two ends of an outbox.
use crossbeam_channel::Pass;
use crossbeam_channel::protocol::{Join, Lesson, Outcome, Protocol, Split};
use deliveries::Item;
use std::collections::LinkedList;

/// What a pass may do, what it has sent and what it has taken. No value of it is made.
pub struct Log {
    pub sends: bool,
    pub takes: bool,
    pub sent: LinkedList<Item>,
    pub got: LinkedList<Item>,
}

/// The rule itself.
pub struct InOrder;

impl Protocol<Item, Log> for InOrder {
    ghost use Rattle.std.specs.Prelude.{true, []};
    ghost use Rattle.outbox.specs.Rule.{log, Delivers};

    ghost holds = { Delivers };

    ghost first = { log true true [] [] };
}

// How the two ends part, and how they meet at the end.
pub(crate) struct Ends;

impl Split<Log> for Ends {
    ghost use Rattle.outbox.specs.Rule.{send_log, take_log};

    ghost left = { send_log };

    ghost right = { take_log };
}

impl Join<Log> for Ends {
    ghost use Rattle.outbox.specs.Rule.{join_log, spent_log};

    ghost both = { join_log };

    ghost spent = { spent_log };
}

// A put, and what a put learns that was refused.
pub(crate) struct Put;

impl Outcome<Item, Log> for Put {
    ghost use Rattle.outbox.specs.Rule.{Puts};

    ghost then = { Puts };
}

impl Lesson<Item, Log> for Put {
    ghost use Rattle.outbox.specs.Rule.{EndsSent};

    ghost fact = { EndsSent };
}

// A take, and what one learns that finds nothing.
pub(crate) struct Take;

impl Outcome<Item, Log> for Take {
    ghost use Rattle.outbox.specs.Rule.{Takes};

    ghost then = { Takes };
}

impl Lesson<Item, Log> for Take {
    ghost use Rattle.outbox.specs.Rule.{AreSent};

    ghost fact = { AreSent };
}

// A take by who has both ends, and what it learns where nothing is left.
pub(crate) struct Drain;

impl Outcome<Item, Log> for Drain {
    ghost use Rattle.outbox.specs.Rule.{Takes};

    ghost then = { Takes };
}

impl Lesson<Item, Log> for Drain {
    ghost use Rattle.outbox.specs.Rule.{Rests};

    ghost fact = { Rests };
}

/// Which channel an end is of, as the register has it.
pub type ChannelName = Pass<Item, Log>;
