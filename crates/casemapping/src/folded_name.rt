//! A name that compares without regard to case.
ghost use Rattle.std.specs.Prelude.{◌≡◌, IfOk};
ghost use Rattle.std.proofs.Common.{rules};
ghost use Rattle.casemapping.specs.Fold.{name_fold};

use crate::fold;
use smallvec::SmallVec;
use std::alloc::{AllocError, Global};
use std::cmp::Ordering;
use std::hash::{Hash, Hasher};
use std::marker::Model;

/// How many octets of a name lie in the value itself: a name that a server takes has no more.
const IN_PLACE: usize = 64;

/// A name in lower case, so that names which differ in case at most are equal (RFC 2812, section 2.2).
/// It is compared, ordered and hashed as its octets are. Up to 64 octets take no memory of their own.
#[derive(Debug, Drop)]
pub struct Folded {
    octets: SmallVec<u8, IN_PLACE>,
}

impl Model for Folded {
    ghost use Rattle.std.specs.Prelude.{◌≡◌, ℕ, List};
    ghost use Rattle.casemapping.specs.Fold.{name_fold};

    ghost Value = { List ℕ };

    ghost view = { λ a. a.octets.items };

    ghost invariant = { λ a. name_fold a.octets.items ≡ a.octets.items };
}

/// Puts octets into lower case.
fn fold_all(octets: &mut Vec<u8>)
    ensures { octets.new.items ≡ name_fold octets.old.items }
{
    for octet in octets.iter_mut() {
        *octet = fold(*octet);
    }
}

impl Folded {
    /// The lower case of a name.
    pub fn new(alloc: Global, name: &[u8]) -> Result<Folded, AllocError>
        ensures { IfOk result (λ f. f ≡ name_fold name.now) }
    {
        let mut octets = SmallVec::with_capacity(alloc, name.len())?;
        for octet in name {
            octets.push_reserved(fold(*octet));
        }
        Ok(Folded { octets })
    }

    /// The lower case of a name. It takes no memory: more than 64 octets stay where they are.
    pub fn from_vec(octets: Vec<u8>) -> Folded
        ensures { result ≡ name_fold octets.items }
    {
        let mut lower = octets;
        fold_all(&mut lower);
        Folded {
            octets: SmallVec::from_vec(lower),
        }
    }

    /// The octets of the lower case.
    pub fn as_slice(&self) -> &[u8]
        ensures octets { result.now ≡ self.now }
        ensures lower_case { name_fold result.now ≡ result.now }
    {
        self.octets.as_slice()
    }
}

impl Clone for Folded {
    ghost is_clone = { λ a b. b ≡ a };

    fn clone(&self) -> Result<Folded, AllocError> {
        Ok(Folded {
            octets: SmallVec::from_slice(*self.octets.allocator(), self.octets.as_slice())?,
        })
    }
}

impl PartialEq for Folded {
    ghost use Rattle.std.specs.Str.{bytes_eq};

    ghost eq = { bytes_eq };

    ghost laws = { Prim.search rules };

    fn eq(&self, other: &Folded) -> bool {
        self.octets.as_slice() == other.octets.as_slice()
    }
}

impl Eq for Folded {
    ghost use Rattle.std.specs.Cmp.Lexicographic.{nat_list_eq_equiv};

    ghost laws = { nat_list_eq_equiv };
}

impl PartialOrd for Folded {
    ghost use Rattle.std.specs.Prelude.{Some};
    ghost use Rattle.std.specs.Ordering.{nat_cmp};
    ghost use Rattle.std.specs.Cmp.Lexicographic.{slice_cmp, texts_po};

    ghost partial_cmp = { λ a b. Some (slice_cmp nat_cmp a b) };

    ghost laws = { texts_po };

    fn partial_cmp(&self, other: &Folded) -> Option<Ordering> {
        Some(self.cmp(other))
    }
}

impl Ord for Folded {
    ghost use Rattle.std.specs.Prelude.{refl};
    ghost use Rattle.std.specs.Ordering.{nat_cmp};
    ghost use Rattle.std.specs.Cmp.Lexicographic.{slice_cmp, nat_list_cmp_total, texts_ties};

    ghost cmp = { slice_cmp nat_cmp };

    ghost total = { nat_list_cmp_total };

    ghost matches_partial_cmp = { λ a b. refl };

    ghost matches_eq = { texts_ties };

    fn cmp(&self, other: &Folded) -> Ordering {
        self.octets.as_slice().cmp(&other.octets.as_slice())
    }
}

impl Hash for Folded {
    ghost use Rattle.std.specs.Prelude.{[], ◌∷◌};
    ghost use Rattle.std.specs.Cmp.Rules.{hashing};
    ghost use Rattle.std.proofs.Common.{rules};

    ghost hash_input = { λ a. a ∷ [] };

    ghost respects_eq = { Prim.search (hashing, rules) };

    fn hash<H: Hasher>(&self, state: &mut H) {
        state.write(self.octets.as_slice());
    }
}
