//! What a server's thread can't do: a line in another hall than its own. Each function has a mutant that does so.
#![tactic(auto)]

mod halls;
mod lines;

pub use halls::line_apart;
pub use lines::{hall, work_under_slot};
