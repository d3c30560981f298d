//! A session's WebSocket: the opening handshake, its client's payloads, and its items as messages, a line each (RFC
//! 6455 and the IRCv3 WebSocket specification).
#![tactic(auto)]

mod counted_socket;
mod front;
mod greeting;
mod handshake;
mod handshake_request;
mod handshake_stream;
mod laws;
mod sending;
mod subprotocol;

pub use counted_socket::Causes;
pub use front::{Front, FrontFault, Got, close_for_memory};
pub use greeting::{GreetFault, Greeted, greet};
pub use handshake::{Handshake, HandshakeRefusal};
pub use laws::lines_stay;
pub use subprotocol::Subprotocol;
pub use tungstenite::CloseCode;
