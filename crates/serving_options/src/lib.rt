//! What `halld` is started with: its command line, and the files that this names.
#![tactic(auto)]

mod account;
mod command_line;
mod faults;
mod files;

pub use account::account_line;
pub use command_line::{ServeOptions, Subcommand, parse};
pub use faults::{TextFault, fault_of_line, faulty_line};
pub use files::{FileFault, accounts_of, content_of, motd_of};
