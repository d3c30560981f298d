//! A channel: who is on it and with which rank, its modes, topic and bans, and who is invited (RFC 2811).
#![tactic(auto)]

mod arrivals;
mod change;
mod hashing;
mod masks;
mod members;
mod modes;
mod state;

pub use change::{Change, Rank};
pub use hashing::{Fnv, Quick};
pub use modes::{Flag, Modes};
pub use state::ChannelState;
