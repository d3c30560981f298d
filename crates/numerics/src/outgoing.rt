//! Outgoing lines (RFC 2812, section 2.3).
ghost use Rattle.std.specs.Prelude.{◌≡◌, map, IfOk};

use line_grammar::{Octets, OctetsList};
use std::alloc::{AllocError, Global};

/// An outgoing line before its server's tags, in its parts, as clauses see a [`Line`](crate::Line).
#[derive(Drop)]
pub struct Out {
    /// The client's tags, as tag data without `@`. Empty where there are none.
    pub tags: Octets,
    /// Whom it comes from, without the colon. `None` where it names nobody.
    pub source: Option<Octets>,
    /// A command's name, or a numeric's three digits.
    pub command: Octets,
    /// The parameters, in order.
    pub params: OctetsList,
    /// Whether the last parameter is spelled with a colon.
    pub colon: bool,
}

/// A copy of each of some slices, in order.
pub fn copy_all(alloc: Global, slices: &[&[u8]]) -> Result<Vec<Octets>, AllocError>
    ensures { IfOk result (λ all. all.items ≡ map (λ s. s.now) slices.now) }
{
    let mut copies = Vec::with_capacity(alloc, slices.len())?;
    for slice in slices {
        copies.push(Octets::copy_of(alloc, slice)?)?;
    }
    Ok(copies)
}
