//! A server on sockets: who connects is a session, whose lines one of a few threads does; whoever puts something for
//! it writes it.
#![tactic(auto)]

mod accepting;
mod clock;
mod connections;
mod events;
mod handshakes;
mod journal_size;
mod mailbox;
mod news;
mod serve;
mod stopping;
mod worker;

pub use accepting::listen;
pub use clock::SystemClock;
pub use serve::{OpenGate, Options, ServeFault, serve_on, serve_with};
pub use session_io::{Clock, Gate};
