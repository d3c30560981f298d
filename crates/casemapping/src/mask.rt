//! Masks (RFC 2812, section 2.5, without its escape).
ghost use Rattle.std.specs.Prelude.{◌≡◌, ◌≢◌, ◌↔◌, List, ℕ, ◌∷◌, IsTrue, MatchOption};
ghost use Rattle.casemapping.specs.Mask.{Matches, fits};
ghost use Rattle.casemapping.specs.MaskSteps.{AgreesOnFirst, DiffersOnFirst};

use crate::fold;

fn after_star(mask: &[u8]) -> Option<&[u8]>
    ensures { MatchOption result ((after : List ℕ) → mask.now ≢ 42 ∷ after)
        (λ after. mask.now ≡ 42 ∷ after.now) }
{
    match mask.split_first() {
        Some((b'*', after)) => Some(after),
        _ => None,
    }
}

fn after_octet<'a>(mask: &'a [u8], text: &'a [u8]) -> Option<(&'a [u8], &'a [u8])>
    ensures { MatchOption result (DiffersOnFirst mask.now text.now)
        (λ left. AgreesOnFirst mask.now text.now left.0.now left.1.now) }
{
    let (letter, others) = mask.split_first()?;
    let (octet, more) = text.split_first()?;
    if *letter == b'?' || fold(*letter) == fold(*octet) {
        Some((others, more))
    } else {
        None
    }
}

fn is_match(mask: &[u8], text: &[u8]) -> bool
    ensures { IsTrue result ↔ Matches mask.now text.now }
{
    let mut pattern = mask;
    let mut rest = text;
    // The mask after the last star that was reached, and the text where it was last tried.
    let mut last_star: Option<(&[u8], &[u8])> = None;
    'places: loop {
        if let Some(after) = after_star(pattern) {
            last_star = Some((after, rest));
            pattern = after;
        } else if let Some((others, more)) = after_octet(pattern, rest) {
            pattern = others;
            rest = more;
        } else if rest.is_empty() {
            return pattern.is_empty();
        } else if let Some((after, from)) = last_star {
            let next = &from[1..];
            last_star = Some((after, next));
            pattern = after;
            rest = next;
        } else {
            return false;
        }
    }
}

/// Whether a mask fits a text. In the mask `*` stands for any octets, none too, `?` for any one octet,
/// and another octet for itself in either case (RFC 2812, section 2.5, without its escape).
///
/// It takes no memory, and at most about as many steps as the mask's length times the text's.
pub fn matches(mask: &[u8], text: &[u8]) -> bool
    ensures relation { IsTrue result ↔ Matches mask.now text.now }
    ensures test { result ≡ fits mask.now text.now }
{
    is_match(mask, text)
}
