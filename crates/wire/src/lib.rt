//! A session's wire: what its writer takes, on its way to a stream.
#![tactic(auto)]

mod item_write;
mod sink;
mod stream;
mod wire;
mod write_buffer;

pub use sink::Sink;
pub use wire::{Flow, Wire};
