//! Values as they stand in a line (IRCv3 message-tags, "Escaping values").
ghost use Rattle.std.specs.Prelude.{◌≡◌, ◌+◌, ◌∷◌, ◌++◌, List, ℕ, length, if◌then◌else◌, IfOk, OnOk};
ghost use Rattle.message_tags.specs.Value.{value, left_of, escapes_of, meaning_of, escape_of};

use line_grammar::Octets;
use std::alloc::{AllocError, Global};

fn meaning(octet: u8) -> u8
    ensures { result ≡ meaning_of octet }
{
    match octet {
        b':' => b';',
        b's' => b' ',
        b'r' => b'\r',
        b'n' => b'\n',
        _ => octet,
    }
}

/// Adds what an octet of a value means, and says whether the next stands behind a backslash.
#[tactic(auto, using(crate::proofs::ValueLemmas::value_at_plain, std::proofs::lemmas::List::append_assoc))]
fn push_meant(octets: &mut Vec<u8>, after_backslash: bool, octet: u8) -> Result<bool, AllocError>
    ensures { IfOk result (λ after. (rest : List ℕ) → octets.new.items ++ value (left_of after rest)
        ≡ octets.old.items ++ value (left_of after_backslash (octet ∷ rest))) }
{
    if after_backslash {
        octets.push(meaning(octet))?;
        Ok(false)
    } else if octet == b'\\' {
        Ok(true)
    } else {
        octets.push(octet)?;
        Ok(false)
    }
}

/// What a value means as it stands in a line: `\:` is `;`, `\s` a space, `\r` CR, `\n` LF and `\\` a
/// backslash. A backslash before another octet is dropped, and so is a lone one at the end (IRCv3
/// message-tags, "Escaping values").
pub fn unescape(alloc: Global, escaped: &[u8]) -> Result<Octets, AllocError>
    ensures { IfOk result (λ octets. octets ≡ value escaped.now) }
{
    let mut octets = Vec::with_capacity(alloc, escaped.len())?;
    let mut after_backslash = false;
    for octet in escaped {
        after_backslash = push_meant(&mut octets, after_backslash, *octet)?;
    }
    Ok(Octets::from_vec(octets))
}

/// Whether the octet after this one stands behind a backslash.
#[tactic(auto, using(crate::proofs::ValueLemmas::length_left_of))]
fn is_escape(after_backslash: bool, octet: u8) -> bool
    ensures { (rest : List ℕ) → length (value (left_of after_backslash (octet ∷ rest)))
        ≡ (if result then 0 else 1) + length (value (left_of result rest)) }
{
    !after_backslash && octet == b'\\'
}

/// How many octets a value means as it stands in a line.
pub fn unescaped_len(escaped: &[u8]) -> usize
    ensures { result ≡ length (value escaped.now) }
{
    let mut len = 0;
    let mut after_backslash = false;
    for octet in escaped {
        after_backslash = is_escape(after_backslash, *octet);
        len += usize::from(!after_backslash);
    }
    len
}

fn push_octet(line: &mut Vec<u8>, octet: u8) -> Result<(), AllocError>
    ensures { OnOk result (line.new.items ≡ line.old.items ++ escape_of octet) }
{
    match octet {
        b';' => line.extend_from_slice(b"\\:")?,
        b' ' => line.extend_from_slice(b"\\s")?,
        b'\\' => line.extend_from_slice(b"\\\\")?,
        b'\r' => line.extend_from_slice(b"\\r")?,
        b'\n' => line.extend_from_slice(b"\\n")?,
        _ => line.push(octet)?,
    }
    Ok(())
}

/// Adds a value at the end as it may stand in a line.
pub fn push_escaped(line: &mut Vec<u8>, value: &[u8]) -> Result<(), AllocError>
    ensures { OnOk result (line.new.items ≡ line.old.items ++ escapes_of value.now) }
{
    for octet in value {
        push_octet(line, *octet)?;
    }
    Ok(())
}

/// A value as it may stand in a line: each `;`, space, backslash, CR and LF as its escape (IRCv3
/// message-tags, "Escaping values").
pub fn escape(alloc: Global, value: &[u8]) -> Result<Octets, AllocError>
    ensures { IfOk result (λ octets. octets ≡ escapes_of value.now) }
{
    let mut octets = Vec::new(alloc);
    push_escaped(&mut octets, value)?;
    Ok(Octets::from_vec(octets))
}

/// What an escaped value means is the value.
pub fn unescape_undoes_escape()
    ensures { (v : List ℕ) → value (escapes_of v) ≡ v }
{}
