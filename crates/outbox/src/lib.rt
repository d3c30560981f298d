//! Outboxes: a ring for one thread, and a channel under a rule for two.
#![tactic(auto)]

mod bell;
mod counted_ends;
mod ends;
mod gauge;
mod queue;
mod ring;
mod rule;

pub use bell::Waker;
pub use counted_ends::Unsent;
pub use ends::{Closed, Empty, Sender, Writer, pair};
pub use gauge::Gauge;
pub use queue::{NotPut, Outbox, PutFault};
pub use ring::Ring;
pub use rule::ChannelName;
