//! MODE: modes of channels and users, told and changed (RFC 2812, sections 3.1.5 and 3.2.3).
#![tactic(auto)]

mod channel_modes;
mod letters;
mod mode_lines;
mod modes;
mod parameters;
mod steps;
mod user_modes;

pub use letters::ModeChange;
pub use modes::{ModeCommand, change_modes, read_mode, serve_mode};
pub use steps::ModeStep;
