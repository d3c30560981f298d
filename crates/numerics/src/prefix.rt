//! The marks before nicknames (`PREFIX=(ov)@+`).
ghost use Rattle.std.specs.Prelude.{◌≡◌, ◌++◌, IfOk};
ghost use Rattle.numerics.specs.Numerics.{mark, marks};

use line_grammar::Octets;
use std::alloc::{AllocError, Global};

/// What is shown of a member's rank: the higher one where a member has both.
#[derive(Clone, Copy)]
pub enum Prefix {
    /// `@`.
    Operator,
    /// `+`.
    Voice,
}

impl Prefix {
    /// The mark.
    pub fn mark(self) -> u8
        ensures { result ≡ mark self }
    {
        match self {
            Prefix::Operator => b'@',
            Prefix::Voice => b'+',
        }
    }
}

/// A nickname after its mark, where it has one, as [`NamReply`](crate::Numeric::NamReply) shows it.
pub fn with_prefix(alloc: Global, prefix: Option<Prefix>, nick: &[u8]) -> Result<Octets, AllocError>
    ensures { IfOk result (λ name. name ≡ marks prefix ++ nick.now) }
{
    let mut name = Vec::with_capacity(alloc, nick.len().saturating_add(1))?;
    if let Some(prefix) = prefix {
        name.push(prefix.mark())?;
    }
    name.extend_from_slice(nick)?;
    Ok(Octets::from_vec(name))
}
