//! The tags of a message, as they stand in a line and as they are meant (IRCv3 message-tags).
#![tactic(auto)]

mod client;
mod escaping;
mod key;
mod list;
mod reading;
mod tag;

pub use client::client_only;
pub use escaping::{escape, push_escaped, unescape, unescape_undoes_escape, unescaped_len};
pub use list::Tags;
pub use reading::{last_raw_value, tags_of};
pub use tag::Tag;
