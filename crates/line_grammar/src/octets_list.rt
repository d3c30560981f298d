//! Lists of octets that a clause sees as a list of lists.
ghost use Rattle.std.specs.Prelude.{◌≡◌, ◌↔◌, [], length, IsTrue};

use crate::Octets;
use std::alloc::AllocError;
use std::marker::Model;

/// Runs of octets, in order: the parameters of a message, words of a line, or lines.
#[derive(Debug, Drop)]
pub struct OctetsList {
    runs: Vec<Octets>,
}

impl Model for OctetsList {
    ghost use Rattle.std.specs.Prelude.{ℕ, List};

    ghost Value = { List (List ℕ) };

    ghost view = { λ a. a.runs.items };
}

impl OctetsList {
    /// The runs of octets that a vector holds.
    pub fn from_vec(runs: Vec<Octets>) -> OctetsList
        ensures { result ≡ runs.items }
    {
        OctetsList { runs }
    }

    /// How many runs there are.
    pub fn len(&self) -> usize
        ensures { result ≡ length self.now }
    {
        self.runs.len()
    }

    /// Whether there is none.
    pub fn is_empty(&self) -> bool
        ensures { IsTrue result ↔ (self.now ≡ []) }
    {
        self.runs.is_empty()
    }

    /// The runs as a vector.
    pub fn into_vec(self) -> Vec<Octets>
        ensures { result.items ≡ self }
    {
        self.runs
    }

    /// The runs as a slice.
    pub fn as_slice(&self) -> &[Octets]
        ensures { result.now ≡ self.now }
    {
        &self.runs
    }
}

impl Clone for OctetsList {
    ghost is_clone = { λ a b. b ≡ a };

    fn clone(&self) -> Result<OctetsList, AllocError> {
        Ok(OctetsList {
            runs: self.runs.clone()?,
        })
    }
}
