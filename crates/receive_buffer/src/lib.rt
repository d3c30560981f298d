//! What is read of a session's input and isn't done: one read at a time, cut into lines.
#![tactic(auto)]

mod buffer;
mod pending_lines;

pub use buffer::{ReceiveBuffer, Unread};
pub use pending_lines::PendingLines;
