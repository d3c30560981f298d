//! What all calls of a server's threads work with, and the end of a session: who got something is told, a session is
//! ended and its connection shut, and its tokens are given up.
//!
//! A call that waits owes no return. What is promised of it holds if it returns.
#![tactic(auto)]

mod closing;
mod disconnecting;
mod flushing;
mod server;

pub use book;
pub use closing::{ReapOutcome, SweepOutcome, close_now, close_up, give_up, sweep};
pub use disconnecting::{HangOutcome, end_refused, hang, hang_at, shut_after, shut_missed};
pub use flushing::{are_many, flush, flush_many};
pub use server::{Clock, Gate, Host, Server, Sockets, later, moment_in};
