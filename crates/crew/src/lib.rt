//! A server's calls for who gives each stream threads of its own: loops over `session_io`, with lines done under the
//! slots of a desk.
//!
//! A call that waits owes no return. What is promised of it holds if it returns.
#![tactic(auto)]

mod backlog;
mod desk;
mod reading;
mod working;
mod writing;

pub use backlog::NoBacklog;
pub use desk::Desk;
pub use reading::read_on;
pub use session_io;
pub use session_io::{Clock, Gate, Host, Server, Sockets, book, close_up, wire};
pub use working::{Back, Job, Worked, work, work_one};
pub use writing::write_on;
