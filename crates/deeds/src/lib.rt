//! What a record does: facts that it establishes, and lines that it shows.
#![tactic(auto)]

mod departure;
mod pings;
mod rows;

pub use commands::session_commands::support_is_whole;
pub use departure::decide_gone;
pub use pings::ping;
pub use rows::decide;
pub use transactions::{Effect, ShownLine, Verdict};
