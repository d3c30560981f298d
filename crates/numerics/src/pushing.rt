//! A line spelled word by word, from parts that are borrowed (RFC 2812, section 2.3).
ghost use Rattle.std.specs.Prelude.{◌≡◌, ◌++◌, ◌∷◌, map, Some, OnOk};
ghost use Rattle.std.specs.List.{flat_map};
ghost use Rattle.line_grammar.specs.Spelling.{spelled_source};

use line_grammar::Octets;
use std::alloc::AllocError;

/// How many octets these have in all, or as many as can be counted.
pub(crate) fn length_of(parts: &[&[u8]]) -> usize {
    let mut length = 0usize;
    for part in parts {
        length = length.saturating_add(part.len());
    }
    length
}

/// Adds whom a line comes from and its command.
pub(crate) fn push_start(
    text: &mut Vec<u8>,
    source: &[u8],
    command: &[u8],
) -> Result<(), AllocError>
    ensures { OnOk result
        (text.new.items ≡ text.old.items ++ (spelled_source (Some source.now) ++ command.now)) }
{
    text.push(b':')?;
    text.extend_from_slice(source)?;
    text.push(b' ')?;
    text.extend_from_slice(command)
}

/// Adds a word.
pub(crate) fn push_word(text: &mut Vec<u8>, word: &[u8]) -> Result<(), AllocError>
    ensures { OnOk result (text.new.items ≡ text.old.items ++ 32 ∷ word.now) }
{
    text.push(b' ')?;
    text.extend_from_slice(word)
}

/// Adds words, in order.
pub(crate) fn push_words(text: &mut Vec<u8>, words: &[&[u8]]) -> Result<(), AllocError>
    ensures { OnOk result
        (text.new.items ≡ text.old.items ++ flat_map (λ w. 32 ∷ w) (map (λ w. w.now) words.now)) }
{
    for word in words {
        push_word(text, word)?;
    }
    Ok(())
}

/// Adds parameters, in order.
pub(crate) fn push_params(text: &mut Vec<u8>, params: &[Octets]) -> Result<(), AllocError>
    ensures { OnOk result (text.new.items ≡ text.old.items ++ flat_map (λ p. 32 ∷ p) params.now) }
{
    for param in params {
        push_word(text, param.as_slice())?;
    }
    Ok(())
}

/// Adds a text after a colon.
pub(crate) fn push_text(text: &mut Vec<u8>, after: &[u8]) -> Result<(), AllocError>
    ensures { OnOk result (text.new.items ≡ text.old.items ++ 32 ∷ 58 ∷ after.now) }
{
    text.extend_from_slice(b" :")?;
    text.extend_from_slice(after)
}
