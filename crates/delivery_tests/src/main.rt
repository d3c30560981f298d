//! Trials of what a line does, of outboxes and of wires: decisions on a line that does much; what comes out of an
//! outbox is what was put into it, over both kinds of outbox, in one thread and in two; and what goes out of a
//! delivery and on a wire.
#![tactic(auto)]

#[cfg(test)]
mod bells;
#[cfg(test)]
mod deciding;
#[cfg(test)]
mod feeding;
#[cfg(test)]
mod items;
#[cfg(test)]
mod narrow;
#[cfg(test)]
mod one_thread;
#[cfg(test)]
mod shelf;
#[cfg(test)]
mod two_threads;
#[cfg(test)]
mod wires;
#[cfg(test)]
mod writing;

fn main() {}
