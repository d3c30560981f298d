//! Calls that are made again where a growth was refused: one is refused at most.
use std::alloc::{AllocError, Global};

/// Calls again where the first call finds no memory.
pub(crate) fn twice<T, F: Fn() -> Result<T, AllocError>>(call: F) -> Result<T, AllocError>
    requires { F.IsAlwaysCallable call }
{
    match call() {
        Ok(value) => Ok(value),
        Err(_) => call(),
    }
}

/// Room for the notes of a short script, which are written into it without another growth.
pub(crate) fn room(alloc: Global) -> Result<Vec<u8>, AllocError> {
    twice(|| Vec::with_capacity(alloc, 256))
}
