//! Texts put together.
ghost use Rattle.std.specs.Prelude.{◌≡◌, ◌∷◌, ◌++◌, IfOk, OnOk};
ghost use Rattle.std.specs.List.{flat_map};
ghost use Rattle.numerics.specs.Numerics.{names_text};

use crate::pushing::length_of;
use line_grammar::Octets;
use std::alloc::{AllocError, Global};

/// Adds pieces, in order.
pub(crate) fn push_joined(text: &mut Vec<u8>, pieces: &[&[u8]]) -> Result<(), AllocError>
    ensures { OnOk result (text.new.items ≡ text.old.items ++ flat_map (λ p. p.now) pieces.now) }
{
    for piece in pieces {
        text.extend_from_slice(piece)?;
    }
    Ok(())
}

/// Pieces put together.
pub(crate) fn concat(alloc: Global, pieces: &[&[u8]]) -> Result<Vec<u8>, AllocError>
    ensures { IfOk result (λ t. t.items ≡ flat_map (λ p. p.now) pieces.now) }
{
    let mut text = Vec::with_capacity(alloc, length_of(pieces))?;
    push_joined(&mut text, pieces)?;
    Ok(text)
}

/// Adds words, each after a space.
fn push_each_spaced(text: &mut Vec<u8>, words: &[Octets]) -> Result<(), AllocError>
    ensures { OnOk result
        (text.new.items ≡ text.old.items ++ flat_map (λ word. 32 ∷ word) words.now) }
{
    for word in words {
        text.push(b' ')?;
        text.extend_from_slice(word.as_slice())?;
    }
    Ok(())
}

/// Adds words, with a space between each two.
pub(crate) fn push_spaced(text: &mut Vec<u8>, words: &[Octets]) -> Result<(), AllocError>
    ensures { OnOk result (text.new.items ≡ text.old.items ++ names_text words.now) }
{
    let Some((first, more)) = words.split_first() else {
        return Ok(());
    };
    text.extend_from_slice(first.as_slice())?;
    push_each_spaced(text, more)
}

/// Words put together, with a space between each two.
pub fn joined_by_spaces(alloc: Global, words: &[Octets]) -> Result<Vec<u8>, AllocError>
    ensures { IfOk result (λ t. t.items ≡ names_text words.now) }
{
    let mut text = Vec::new(alloc);
    push_spaced(&mut text, words)?;
    Ok(text)
}
