//! What is known of sessions and channels: a list of facts, kept in tables.
#![tactic(auto)]

mod boxed_channel;
mod channel_lists;
mod channels;
mod checked_settings;
mod deed;
mod ends_of_sessions;
mod folded_keys;
mod hashing;
mod laws;
mod nicks;
mod people;
mod preallocated;
mod reserving;
mod roster;
mod sessions;
mod sharing;
mod tables;
mod touched_tables;

pub use deed::Deed;
pub use laws::{
    bans_are_the_last, channels_have_one_name, flags_are_the_last, invitations_are_the_last,
    keys_are_the_last, limits_are_the_last, members_are_on_it, members_are_there_once,
    operators_are_the_last, own_channels_are_there_once, sharers_are_there_once,
    spelled_names_are_names, topics_are_the_last, voices_are_the_last,
};
pub use roster::Roster;
pub use sessions::Sessions;
