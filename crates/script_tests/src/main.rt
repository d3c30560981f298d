//! Tests of `halld`: readers and writers that give or take little, or fail. What a script says stands in `scenarios`.
#![tactic(auto)]

#[cfg(test)]
mod again;
#[cfg(test)]
mod streams;

fn main() {}
