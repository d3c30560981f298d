//! Trials of a server's threads, over readers and writers in memory.
#![tactic(auto)]

#[cfg(test)]
mod acts;
#[cfg(test)]
mod beating;
#[cfg(test)]
mod behind;
#[cfg(test)]
mod fakes;
#[cfg(test)]
mod later;
#[cfg(test)]
mod leaving;
#[cfg(test)]
mod making;
#[cfg(test)]
mod missing;
#[cfg(test)]
mod reading;
#[cfg(test)]
mod refusing;
#[cfg(test)]
mod scene;
#[cfg(test)]
mod sweeping;
#[cfg(test)]
mod taking;
#[cfg(test)]
mod threads;
#[cfg(test)]
mod trial;
#[cfg(test)]
mod wanting;
#[cfg(test)]
mod writing;

fn main() {}
