//! The octets of a delivery, which several deliveries may share.
ghost use Rattle.std.specs.Prelude.{◌≡◌, ◌↔◌, [], IfOk, IsTrue};

use line_grammar::Octets;
use std::alloc::{AllocError, Global};
use std::fmt;
use std::fmt::{Debug, Formatter};
use std::marker::Model;
use std::sync::Arc;

/// Octets that several owners may share. A copy takes no memory.
#[derive(Drop)]
pub struct Text {
    octets: Arc<Octets>,
}

impl Model for Text {
    ghost use Rattle.std.specs.Prelude.{ℕ, List};
    ghost use Rattle.std.specs.Arc.{arc_value};

    ghost Value = { List ℕ };

    ghost view = { λ a. arc_value a.octets };
}

impl Text {
    /// A text of these octets.
    pub fn new(alloc: Global, octets: Octets) -> Result<Text, AllocError>
        ensures { IfOk result (λ t. t ≡ octets) }
    {
        match Arc::new(alloc, octets) {
            Ok(octets) => Ok(Text { octets }),
            Err(_) => Err(AllocError),
        }
    }

    /// The octets as a slice.
    pub fn as_slice(&self) -> &[u8]
        ensures { result.now ≡ self.now }
    {
        self.octets.as_slice()
    }

    /// Whether there is none.
    pub fn is_empty(&self) -> bool
        ensures { IsTrue result ↔ (self.now ≡ []) }
    {
        self.octets.is_empty()
    }
}

impl Clone for Text {
    ghost is_clone = { λ a b. b ≡ a };

    fn clone(&self) -> Result<Text, AllocError> {
        Ok(Text {
            octets: Arc::try_clone(&self.octets)?,
        })
    }
}

impl PartialEq for Text {
    ghost use Rattle.std.specs.Str.{bytes_eq};
    ghost use Rattle.std.proofs.Common.{rules};

    ghost eq = { bytes_eq };

    fn eq(&self, other: &Text) -> bool {
        self.as_slice() == other.as_slice()
    }

    ghost laws = { Prim.search rules };
}

impl Debug for Text {
    fn fmt<W: fmt::Write>(&self, f: &mut Formatter<W>) -> fmt::Result {
        Debug::fmt(self.as_slice(), f)
    }
}
