//! Parameters of modes: masks, keys and limits (RFC 2811, sections 4.2.9, 4.2.10 and 4.3).
ghost use Rattle.std.specs.Prelude.{◌≡◌, ◌++◌, IfOk, OnOk};
ghost use Rattle.std.specs.Option.{option_map};
ghost use Rattle.mode_commands.specs.Parameters.{after_bang, full_mask, completed_by, is_key, limit_of};

use line_grammar::{Octets, needs_colon};
use std::alloc::{AllocError, Global};

/// The largest limit of a channel.
const MAX_LIMIT: u64 = 65_535;

/// What follows the first `!`.
fn after_bang(mask: &[u8]) -> Option<&[u8]>
    ensures { option_map (λ r. r.now) result ≡ after_bang mask.now }
{
    for (place, octet) in mask.iter().enumerate() {
        if *octet == b'!' {
            return Some(&mask[place + 1..]);
        }
    }
    None
}

/// A text of three parts.
fn join(alloc: Global, first: &[u8], middle: &[u8], last: &[u8]) -> Result<Octets, AllocError>
    ensures { IfOk result (λ o. o ≡ first.now ++ middle.now ++ last.now) }
{
    let mut text = Vec::new(alloc);
    text.extend_from_slice(first)?;
    text.extend_from_slice(middle)?;
    text.extend_from_slice(last)?;
    Ok(Octets::from_vec(text))
}

/// A mask with all its parts: `x` becomes `x!*@*`, `x@y` becomes `*!x@y`, and `x!y` becomes `x!y@*`.
#[tactic(auto, unfolding(crate::specs::Parameters::full_mask))]
pub(crate) fn full_mask_of(alloc: Global, mask: &[u8]) -> Result<Octets, AllocError>
    ensures { IfOk result (λ o. o ≡ full_mask mask.now) }
{
    match after_bang(mask) {
        Some(rest) if rest.contains(&b'@') => join(alloc, b"", mask, b""),
        Some(_) => join(alloc, b"", mask, b"@*"),
        None if mask.contains(&b'@') => join(alloc, b"*!", mask, b""),
        None => join(alloc, b"", mask, b"!*@*"),
    }
}

/// Whether the octets are a key: they can be a parameter by themselves, and have no comma.
#[tactic(auto, unfolding(crate::specs::Parameters::is_key))]
pub(crate) fn is_key(key: &[u8]) -> bool
    ensures { result ≡ is_key key.now }
{
    !(needs_colon(key) || key.contains(&b','))
}

/// The limit that decimal digits say, where it is one from 1 to 65535.
pub(crate) fn limit_of(text: &[u8]) -> Option<u64>
    ensures { result ≡ limit_of text.now }
{
    let mut limit = 0;
    for digit in text {
        if !matches!(*digit, b'0'..=b'9') {
            return None;
        }
        limit = limit * 10 + u64::from(*digit - b'0');
        if limit > MAX_LIMIT {
            return None;
        }
    }
    if limit == 0 { None } else { Some(limit) }
}
