//! The commands of a session's own, CAP to QUIT: how each is read, and what it does; and when a session is
//! registered (RFC 2812, sections 3.1, 3.7.2 and 3.7.3; IRCv3 Capability Negotiation and SASL 3.1).
#![tactic(auto)]

mod enrolling;
mod laws;
mod negotiation;
mod session;
mod welcome;

pub use enrolling::complete;
pub use laws::support_is_whole;
pub use session::{
    CapSubcommand, SessionCommand, read_authenticate, read_cap, read_nick, read_pass, read_ping,
    read_quit, read_user, serve_session,
};
