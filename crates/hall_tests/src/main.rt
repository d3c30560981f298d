//! Trials of what stands in a lock: who misses what and how sessions end, over both kinds of outbox, and threads
//! that share a hall.
#![tactic(auto)]

#[cfg(test)]
mod acts;
#[cfg(test)]
mod again;
#[cfg(test)]
mod crowd;
#[cfg(test)]
mod ending;
#[cfg(test)]
mod ends;
#[cfg(test)]
mod flush_lists;
#[cfg(test)]
mod growths;
#[cfg(test)]
mod guests;
#[cfg(test)]
mod items;
#[cfg(test)]
mod limits;
#[cfg(test)]
mod looking;
#[cfg(test)]
mod making;
#[cfg(test)]
mod read_ahead;
#[cfg(test)]
mod reaping;
#[cfg(test)]
mod rolled;
#[cfg(test)]
mod rolled_threads;
#[cfg(test)]
mod saying;
#[cfg(test)]
mod stage;
#[cfg(test)]
mod taking;
#[cfg(test)]
mod threads;
#[cfg(test)]
mod ticking;
#[cfg(test)]
mod ticking_threads;
#[cfg(test)]
mod wanting;

fn main() {}
