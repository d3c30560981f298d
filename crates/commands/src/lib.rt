//! What a message asks for (RFC 2812, section 3; IRCv3 Capability Negotiation, SASL 3.1 and message-tags).
#![tactic(auto)]

mod asked;
mod command;
mod reading;

pub use asked::{Asked, ReadPiece, read_message, read_piece};
pub use channel_commands;
pub use command::Command;
pub use mode_commands;
pub use query_commands;
pub use reading::{none_is_misnamed, read};
pub use session_commands;
pub use talk_commands;
