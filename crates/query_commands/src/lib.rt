//! The commands that only ask: NAMES, LIST, WHO, WHOIS and MOTD (RFC 2812, sections 3.2.5, 3.2.6, 3.4.1, 3.6.1
//! and 3.6.2).
#![tactic(auto)]

mod each_item;
mod listing;
mod motd;
mod name_line;
mod names;
mod query;
mod reply_builder;
mod visible;
mod who;
mod whois;

pub use listing::read_list;
pub use motd::{push_motd, read_motd};
pub use names::{push_members, read_names};
pub use query::{Query, ask};
pub use reply_builder::ReplyBuilder;
pub use who::read_who;
pub use whois::read_whois;
