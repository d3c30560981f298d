//! Calls that are made again where a growth was refused: one is refused at most.
use line_grammar::Octets;
use std::alloc::{AllocError, Global};

/// A copy, once more where a growth was refused.
pub(crate) fn copy_of(alloc: Global, octets: &[u8]) -> Result<Octets, AllocError> {
    match Octets::copy_of(alloc, octets) {
        Ok(copy) => Ok(copy),
        Err(_) => Octets::copy_of(alloc, octets),
    }
}
