//! The case mapping `rfc1459` (RFC 2812, section 2.2).
ghost use Rattle.std.specs.Prelude.{◌≡◌, ◌↔◌, IsTrue, length, slice_index, EachIndex};
ghost use Rattle.casemapping.specs.Fold.{fold_of, name_fold, is_same};

/// The lower case of an octet. `A` to `Z` become `a` to `z`, and `[`, `]`, `\` and `~` become `{`,
/// `}`, `|` and `^`; any other octet is its own lower case (RFC 2812, section 2.2).
#[tactic(auto, unfolding(crate::specs::Fold::fold_of))]
pub fn fold(octet: u8) -> u8
    ensures { result ≡ fold_of octet }
{
    match octet {
        b'A'..=b'Z' => octet + (b'a' - b'A'),
        b'[' => b'{',
        b']' => b'}',
        b'\\' => b'|',
        b'~' => b'^',
        _ => octet,
    }
}

fn agree(a: &[u8], b: &[u8]) -> bool
    requires { length a.now ≡ length b.now }
    ensures { IsTrue result
        ↔ EachIndex a.now (λ k. fold_of (slice_index a.now k) ≡ fold_of (slice_index b.now k)) }
{
    a.iter().zip(b).all(|(x, y)| fold(*x) == fold(*y))
}

fn agree_in_all(a: &[u8], b: &[u8]) -> bool
    ensures { IsTrue result ↔ (name_fold a.now ≡ name_fold b.now) }
{
    a.len() == b.len() && agree(a, b)
}

/// Whether two names differ in case at most (RFC 2812, section 2.2).
pub fn is_same(a: &[u8], b: &[u8]) -> bool
    ensures folds { IsTrue result ↔ (name_fold a.now ≡ name_fold b.now) }
    ensures test { result ≡ is_same a.now b.now }
{
    agree_in_all(a, b)
}
