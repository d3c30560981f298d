//! Trials of a server on sockets, with its clients in the same process, and of a session's WebSocket.
#![tactic(auto)]

#[cfg(test)]
mod client;
#[cfg(test)]
mod clocks;
#[cfg(test)]
mod gates;
#[cfg(test)]
mod greetings;
#[cfg(test)]
mod memory;
#[cfg(test)]
mod messages;
#[cfg(test)]
mod running;
#[cfg(test)]
mod talks;

fn main() {}
