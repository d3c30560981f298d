//! How a member leaves a channel, by itself or put out (RFC 2812, sections 3.2.2 and 3.2.8), and how all members of a
//! channel are shown a line.
#![tactic(auto)]

mod leaving;
mod members;

pub use leaving::leave;
pub use members::show_members;
