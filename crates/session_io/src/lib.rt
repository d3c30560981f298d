//! What of a session's I/O a server's workers call: reading, with lines done under the hall's lock; writing; and the
//! beat. No call waits for a client.
//!
//! A call that waits owes no return. What is promised of it holds if it returns.
#![tactic(auto)]

mod backlog;
mod doing_lines;
mod keepalive;
mod outlet;
mod read_ahead;
mod reading;
mod writing;

pub use backlog::Backlog;
pub use doing_lines::{Count, Until, do_lines, line_at, lock_soon};
pub use keepalive::{BeatOutcome, LateOutcome, TickOutcome, beat, hang_late, tick};
pub use outlet::{Outlet, Pumped};
pub use reading::{Next, Took, read_some};
pub use receive_buffer::{PendingLines, ReceiveBuffer};
pub use session_ends::{
    Clock, Gate, HangOutcome, Host, ReapOutcome, Server, Sockets, SweepOutcome, book, close_now,
    close_up, flush, give_up, hang, moment_in, sweep,
};
pub use wire;
pub use writing::{Standing, Written, write_some};
