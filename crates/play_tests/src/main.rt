//! Tests of `book` and `interleave` that no script can say. They stand apart from the crates that they test, so that
//! neither is proved once more with its tests.
#![tactic(auto)]

#[cfg(test)]
mod acts;
#[cfg(test)]
mod again;
#[cfg(test)]
mod books;
#[cfg(test)]
mod growths;
#[cfg(test)]
mod plays;
#[cfg(test)]
mod runs;
#[cfg(test)]
mod slow;
#[cfg(test)]
mod thousand;

fn main() {}
