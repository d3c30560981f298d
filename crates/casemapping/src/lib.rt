//! Names of an IRC server and when two of them are the same: the case mapping `rfc1459` (RFC 2812,
//! section 2.2), the shapes of nicknames, channel names and host names (sections 1.3 and 2.3.1), and
//! masks (section 2.5).
#![tactic(auto)]

mod folded_name;
mod mapping;
mod mask;
mod names;

pub use folded_name::Folded;
pub use mapping::{fold, is_same};
pub use mask::matches;
pub use names::{CHANNELLEN, HOSTLEN, NICKLEN, is_channel, is_host, is_nick};
