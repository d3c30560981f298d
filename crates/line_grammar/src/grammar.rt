//! Reading a line as a message (RFC 2812, section 2.3.1).
ghost use Rattle.std.specs.Prelude.{◌≡◌, ◌↔◌, None, Some, IfOk, IsErrOf, IsSome, IsTrue};
ghost use Rattle.std.specs.Prelude.{Contains, ◌++◌, not, ◌||◌, ◌==◌, length};
ghost use Rattle.std.specs.List.{list_all, list_any};
ghost use Rattle.std.specs.Option.{option_map};
ghost use Rattle.line_grammar.specs.declared.message.Message.{Message};
ghost use Rattle.line_grammar.specs.Grammar.{Reads};
ghost use Rattle.line_grammar.specs.Reading.{after_source, after_tags, begins_with, is_command, is_digit, is_letter};
ghost use Rattle.line_grammar.specs.Reading.{last_parameter, parameters, reading, source_of, tags_of};
ghost use Rattle.line_grammar.specs.declared.grammar.LineFault.TheVariants.{Memory};

use crate::words::{skip_spaces, split_word};
use crate::{LineMessage, Octets, OctetsList};
use memchr::memchr;
use std::alloc::{AllocError, Global};

/// The most parameters of a message (RFC 2812, section 2.3).
pub const MAX_PARAMETERS: usize = 15;

/// Why a line is no message.
#[derive(Clone, Copy, Debug, PartialEq)]
pub enum LineFault {
    /// It holds NUL.
    HasNul,
    /// It has no command of one or more letters, or three digits.
    NoCommand,
    /// A growth was refused.
    Memory,
}

impl From<AllocError> for LineFault {
    ghost from_gives = { λ _ e. e ≡ Memory };

    fn from(_error: AllocError) -> LineFault {
        LineFault::Memory
    }
}

/// Reads a line, without what ended it, as a message. Spaces at either end count for nothing, but for those in a
/// parameter that runs to the end. A line of any length is read. The parts of the message are slices of the line.
#[tactic(auto, unfolding(crate::specs::Reading::reading, crate::specs::Reading::with_command))]
pub fn parse(alloc: Global, line: &[u8]) -> Result<LineMessage<'_>, LineFault>
    ensures ok { IfOk result (λ m. reading line.now ≡ Some m) }
    ensures spelled { IfOk result (λ m. Reads line.now m) }

    // A line with NUL is reported as such, whatever else is wrong with it.
    ensures nul { IsErrOf result LineFault.HasNul ↔ Contains line.now 0 }
    ensures none { IsErrOf result LineFault.NoCommand → reading line.now ≡ None }
    ensures nul_is_no_message { IsErrOf result LineFault.HasNul → reading line.now ≡ None }
    ensures unspelled { IsErrOf result LineFault.NoCommand → (m : Message) → Reads line.now m → ⊥ }
    ensures memory { IsErrOf result LineFault.Memory → IsSome (reading line.now) }
{
    if has_nul(line) {
        return Err(LineFault::HasNul);
    }
    let (tags, rest) = split_tags(line);
    let (source, rest) = split_source(rest);
    let (command, rest) = split_word(rest);
    if !is_command(command) {
        return Err(LineFault::NoCommand);
    }
    let room = Vec::with_capacity(alloc, command.len().max(rest.len()))?;
    Ok(LineMessage {
        tags,
        source,
        command,
        rest,
        room,
    })
}

fn has_nul(line: &[u8]) -> bool
    ensures any { result ≡ list_any (λ b. b == 0) line.now }
    ensures there { IsTrue result ↔ Contains line.now 0 }
{
    memchr(0, line).is_some()
}

/// The tag data, without its `@`, and what comes after it.
fn split_tags(line: &[u8]) -> (&[u8], &[u8])
    ensures tags { result.0.now ≡ tags_of line.now }
    ensures rest { result.1.now ≡ after_tags line.now }
{
    if let [b'@', ..] = line {
        let (tags, rest) = split_word(line);
        (&tags[1..], skip_spaces(rest))
    } else {
        (&[], skip_spaces(line))
    }
}

/// The source, without its colon, and what comes after it.
fn split_source(octets: &[u8]) -> (Option<&[u8]>, &[u8])
    ensures source { option_map (λ s. s.now) result.0 ≡ source_of octets.now }
    ensures rest { result.1.now ≡ after_source octets.now }
{
    if let [b':', ..] = octets {
        let (source, rest) = split_word(octets);
        (Some(&source[1..]), skip_spaces(rest))
    } else {
        (None, octets)
    }
}

/// Whether a word is one or more letters, or three digits.
pub fn is_command(word: &[u8]) -> bool
    ensures { result ≡ is_command word.now }
{
    !word.is_empty() && all_letters(word) || word.len() == 3 && all_digits(word)
}

fn all_letters(word: &[u8]) -> bool
    ensures { result ≡ list_all is_letter word.now }
{
    word.iter()
        .all(|octet| matches!(*octet, b'A'..=b'Z' | b'a'..=b'z'))
}

fn all_digits(word: &[u8]) -> bool
    ensures { result ≡ list_all is_digit word.now }
{
    word.iter().all(|octet| matches!(*octet, b'0'..=b'9'))
}

/// The parameters, and whether the last is spelled with a colon.
pub(crate) fn read_parameters(
    alloc: Global,
    octets: &[u8],
) -> Result<(OctetsList, bool), AllocError>
    ensures { IfOk result (λ read. read ≡ parameters 14 octets.now) }
{
    let mut found = Vec::new(alloc);
    let mut rest = skip_spaces(octets);
    while found.len() + 1 < MAX_PARAMETERS && begins_middle(rest) {
        let (middle, more) = split_word(rest);
        found.push(Octets::copy_of(alloc, middle)?)?;
        rest = skip_spaces(more);
    }
    let colon = push_last(&mut found, alloc, rest)?;
    Ok((OctetsList::from_vec(found), colon))
}

/// Whether a parameter comes here that ends at a space, where it isn't the fifteenth.
pub(crate) fn begins_middle(octets: &[u8]) -> bool
    ensures { result ≡ not (begins_with 58 octets.now || length octets.now == 0) }
{
    !matches!(octets, [] | [b':', ..])
}

/// Adds the last parameter, where there is one, and says whether it is spelled with a colon.
fn push_last(found: &mut Vec<Octets>, alloc: Global, octets: &[u8]) -> Result<bool, AllocError>
    ensures last { IfOk result
        (λ colon. found.new.items ≡ found.old.items ++ (last_parameter octets.now).0) }
    ensures colon { IfOk result (λ colon. colon ≡ (last_parameter octets.now).1) }
{
    let (last, colon) = match octets {
        [] => return Ok(false),
        [b':', last @ ..] => (last, true),
        last => (last, false),
    };
    found.push(Octets::copy_of(alloc, last)?)?;
    Ok(colon)
}
