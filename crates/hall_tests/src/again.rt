//! Calls that are made again where a growth was refused: one is refused at most.
ghost use Rattle.std.specs.Prelude.{◌≡◌, [], IfOk};

use book::Register;
use line_grammar::{Octets, Piece};
use std::alloc::{AllocError, Global};

/// A copy, once more where a growth was refused.
pub(crate) fn copy_of(alloc: Global, octets: &[u8]) -> Result<Octets, AllocError> {
    match Octets::copy_of(alloc, octets) {
        Ok(copy) => Ok(copy),
        Err(_) => Octets::copy_of(alloc, octets),
    }
}

/// A line.
pub(crate) fn line(alloc: Global, text: &str) -> Result<Piece, AllocError> {
    Ok(Piece::Line(copy_of(alloc, text.as_bytes())?))
}

/// A register of no session, once more where its growth was refused.
pub(crate) fn new_register<N>(alloc: Global) -> Result<Register<N>, AllocError>
    ensures { IfOk result (λ r. r.rows ≡ []) }
{
    match Register::new(alloc) {
        Ok(register) => Ok(register),
        Err(_) => Register::new(alloc),
    }
}
