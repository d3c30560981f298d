//! Writing a message as a line (RFC 2812, section 2.3.1; IRCv3 message-tags).
ghost use Rattle.std.specs.Prelude.{◌≡◌, ◌↔◌, ◌==◌, ◌∷◌, ◌++◌, [], Some, true, false, List, ℕ};
ghost use Rattle.std.specs.Prelude.{OnOk, IfOk, IsErrOf, IsTrue, IfSome, drop, length};
ghost use Rattle.std.specs.List.{flat_map, list_all, list_any};
ghost use Rattle.line_grammar.specs.Grammar.{Reads};
ghost use Rattle.line_grammar.specs.Reading.{reading};
ghost use Rattle.line_grammar.specs.Spelling.{IsWritable, is_text_octet, is_word_octet, needs_colon, plain_count};
ghost use Rattle.line_grammar.specs.Spelling.{plain_parameters, spelled_source, spelled_tags, spelling, bare_line};
ghost use Rattle.line_grammar.specs.declared.spelling.WriteFault.TheVariants.{Memory};

use crate::grammar::{MAX_PARAMETERS, is_command};
use crate::{Message, Octets};
use std::alloc::{AllocError, Global};

/// Why a message is not written.
#[derive(Clone, Copy, Debug, PartialEq)]
pub enum WriteFault {
    /// A parameter that is to stand without a colon is empty, has a space in it or begins with a colon.
    CannotSpell,
    /// A growth was refused.
    Memory,
}

impl From<AllocError> for WriteFault {
    ghost from_gives = { λ _ e. e ≡ Memory };

    fn from(_error: AllocError) -> WriteFault {
        WriteFault::Memory
    }
}

/// Whether a message is read again as it was from what [`write`] makes of it.
pub fn is_writable(message: &Message) -> bool
    ensures { IsTrue result ↔ IsWritable message.now }
{
    let count = message.params.len();
    is_command(message.command.as_slice())
        && count <= MAX_PARAMETERS
        && (!message.colon || count > 0)
        && is_word(message.tags.as_slice())
        && is_word_or_none(&message.source)
        && are_texts(message.params.as_slice())
}

fn is_word(octets: &[u8]) -> bool
    ensures { result ≡ list_all is_word_octet octets.now }
{
    octets
        .iter()
        .all(|octet| !matches!(*octet, b' ' | b'\0' | b'\r' | b'\n'))
}

fn is_word_or_none(source: &Option<Octets>) -> bool
    ensures { IsTrue result ↔ IfSome source.now (λ s. list_all is_word_octet s ≡ true) }
{
    match source {
        Some(source) => is_word(source.as_slice()),
        None => true,
    }
}

fn are_texts(parameters: &[Octets]) -> bool
    ensures { result ≡ list_all (λ p. list_all is_text_octet p) parameters.now }
{
    parameters
        .iter()
        .all(|parameter| is_text(parameter.as_slice()))
}

fn is_text(octets: &[u8]) -> bool
    ensures { result ≡ list_all is_text_octet octets.now }
{
    octets
        .iter()
        .all(|octet| !matches!(*octet, b'\0' | b'\r' | b'\n'))
}

/// Writes a message as a line, without what ends it. It may be longer than the limits of a line.
/// Empty tag data is written as no tags. `CannotSpell` comes before `Memory`. What isn't [`is_writable`] is
/// written by the same rule, and may be read otherwise or as no message.
pub fn write(alloc: Global, message: &Message) -> Result<Octets, WriteFault>
    ensures spelled { IfOk result (λ line. line ≡ spelling message.now) }
    ensures is_read { IsWritable message.now
        → IfOk result (λ line. reading line ≡ Some message.now) }
    ensures spells { IsWritable message.now → IfOk result (λ line. Reads line message.now) }
    ensures text { IsWritable message.now
        → IfOk result (λ line. list_all is_text_octet line ≡ true) }
    ensures cannot { IsErrOf result WriteFault.CannotSpell
        ↔ (list_any needs_colon (plain_parameters message.now.params message.now.colon) ≡ true) }
{
    let params = message.params.as_slice();
    let (plain, _) = params.split_at(count_plain(params, message.colon));
    if any_needs_colon(plain) {
        return Err(WriteFault::CannotSpell);
    }
    let line = spell(alloc, message)?;
    Ok(line)
}

/// Writes a message whose parameters can be spelled.
#[tactic(auto, unfolding(crate::specs::Spelling::spelling))]
fn spell(alloc: Global, message: &Message) -> Result<Octets, AllocError>
    ensures { IfOk result (λ line. line ≡ spelling message.now) }
{
    let mut line = Vec::new(alloc);
    push_tags(&mut line, message.tags.as_slice())?;
    push_untagged(
        &mut line,
        &message.source,
        message.command.as_slice(),
        message.params.as_slice(),
        message.colon,
    )?;
    Ok(Octets::from_vec(line))
}

/// Adds a line of these parts without tags, and without what ends it (RFC 2812, section 2.3.1). With `colon`
/// the last parameter is spelled with one. Nothing is checked: that the line reads as these parts is the caller's
/// to see. Where a growth is refused, some of it may have been added.
#[tactic(auto, unfolding(crate::specs::Spelling::bare_line))]
pub fn push_untagged(
    line: &mut Vec<u8>,
    source: &Option<Octets>,
    command: &[u8],
    params: &[Octets],
    colon: bool,
) -> Result<(), AllocError>
    ensures { OnOk result
        (line.new.items ≡ line.old.items ++ bare_line source.now command.now params.now colon) }
{
    let (plain, trailing) = params.split_at(count_plain(params, colon));
    push_source(line, source)?;
    line.extend_from_slice(command)?;
    push_each(line, b" ", plain)?;
    push_each(line, b" :", trailing)
}

/// How many parameters stand without a colon.
fn count_plain(params: &[Octets], colon: bool) -> usize
    ensures { result ≡ plain_count params.now colon }
{
    if colon {
        params.len().saturating_sub(1)
    } else {
        params.len()
    }
}

fn any_needs_colon(parameters: &[Octets]) -> bool
    ensures { result ≡ list_any needs_colon parameters.now }
{
    parameters
        .iter()
        .any(|parameter| needs_colon(parameter.as_slice()))
}

/// Whether a parameter can be spelled after a colon alone: it is empty, has a space in it or begins with a colon
/// (RFC 2812, section 2.3.1).
pub fn needs_colon(parameter: &[u8]) -> bool
    ensures { result ≡ needs_colon parameter.now }
{
    matches!(parameter, [] | [b':', ..]) || parameter.contains(&b' ')
}

/// Adds the tags, where there are some.
fn push_tags(line: &mut Vec<u8>, tags: &[u8]) -> Result<(), AllocError>
    ensures { OnOk result (line.new.items ≡ line.old.items ++ spelled_tags tags.now) }
{
    if !tags.is_empty() {
        push_enclosed(line, b"@", tags)?;
    }
    Ok(())
}

/// Adds the source, where there is one.
fn push_source(line: &mut Vec<u8>, source: &Option<Octets>) -> Result<(), AllocError>
    ensures { OnOk result (line.new.items ≡ line.old.items ++ spelled_source source.now) }
{
    if let Some(source) = source {
        push_enclosed(line, b":", source.as_slice())?;
    }
    Ok(())
}

/// Adds a word between what announces it and a space.
fn push_enclosed(line: &mut Vec<u8>, front: &[u8], word: &[u8]) -> Result<(), AllocError>
    ensures { OnOk result
        (line.new.items ≡ line.old.items ++ (front.now ++ (word.now ++ 32 ∷ []))) }
{
    line.extend_from_slice(front)?;
    line.extend_from_slice(word)?;
    line.push(b' ')?;
    Ok(())
}

/// Adds parameters, each after what announces it.
fn push_each(line: &mut Vec<u8>, front: &[u8], parameters: &[Octets]) -> Result<(), AllocError>
    ensures { OnOk result
        (line.new.items ≡ line.old.items ++ flat_map (λ p. front.now ++ p) parameters.now) }
{
    for parameter in parameters {
        line.extend_from_slice(front)?;
        line.extend_from_slice(parameter.as_slice())?;
    }
    Ok(())
}
