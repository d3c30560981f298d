//! A client's stream beside its session: its WebSocket, the handshake before, and the wait for its close after.
#![tactic(auto)]

mod frame_places;
mod lingering;
mod pending_handshakes;
mod semaphore;
mod web;

pub use lingering::{LINGER_TRIES, Lingerers, MOST_LINGERING};
pub use pending_handshakes::{
    HandshakeOutcome, MOST_GREETING, PendingHandshake, PendingHandshakes, end_guest,
};
pub use semaphore::Semaphore;
pub use web::{Framing, Payloads, Web, WebStream};
pub use websocket_front;
