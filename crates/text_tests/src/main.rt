//! Tests of the crates that know lines, tags, names, moments, items and the command line: worked examples of the
//! public standard, and what no clause says. They stand apart from the crates that they test, so that none of those is
//! proved once more with its tests.
#![tactic(auto)]

#[cfg(test)]
mod again;
#[cfg(test)]
mod enrolling;
#[cfg(test)]
mod finding;
#[cfg(test)]
mod growths;
#[cfg(test)]
mod lines;
#[cfg(test)]
mod moments;
#[cfg(test)]
mod names;
#[cfg(test)]
mod options;
#[cfg(test)]
mod tags;

fn main() {}
