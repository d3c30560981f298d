//! The commands about channels: JOIN, PART, KICK, INVITE and TOPIC, how each is read, and what it does
//! (RFC 2812, section 3.2).
#![tactic(auto)]

mod arriving;
mod bars;
mod channel;
mod channel_lines;
mod each_name;
mod finding;
mod inviting;
mod joined;
mod joining;
mod kicking;
mod leaving;
mod topics;

pub use channel::{
    ChannelCommand, read_invite, read_join, read_kick, read_part, read_topic, serve_channel,
};
pub use inviting::invite;
pub use joining::join;
pub use kicking::kick;
pub use leaving::part;
pub use topics::set_topic;
