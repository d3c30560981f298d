//! The names of commands, and their parameters: those that may be left out, lists in one, and the fault of their shape
//! (RFC 2812, sections 2.3 and 2.3.1).
#![tactic(auto)]

mod fault;
mod join_targets;
mod lists;
mod name;
mod params;

pub use fault::{ReadFault, needs_more};
pub use join_targets::{JoinTarget, JoinTargets};
pub use lists::{read_list_given, read_names, read_targets, read_words};
pub use name::{CommandName, each_name_is_read, is_named};
pub use params::{copy_first, copy_of, first, into_first};
