//! A message in the line in which it stands: its parts are slices of the line.
ghost use Rattle.std.specs.Prelude.{◌≡◌, ◌∷◌, ◌-◌, ◌≤◌, [], length, slice_get};
ghost use Rattle.std.specs.Prelude.{vec_capacity, IfOk, IfSome, MatchOption};
ghost use Rattle.std.specs.Option.{option_map};
ghost use Rattle.line_grammar.specs.Reading.{last_parameter, parameters};

use crate::grammar::{MAX_PARAMETERS, begins_middle, read_parameters};
use crate::words::{skip_spaces, split_word};
use crate::{Message, Octets};
use std::alloc::{AllocError, Global};
use std::marker::Model;

/// The parameters of a message, in order, which are found as they are asked for. Nothing is copied.
#[derive(Drop)]
pub struct LineParameters<'a> {
    octets: &'a [u8],
    /// How many may still come of those that end at a space.
    middles: usize,
}

impl<'a> Model for LineParameters<'a> {
    ghost use Rattle.std.specs.Prelude.{ℕ, List};
    ghost use Rattle.line_grammar.specs.Reading.{parameters};

    ghost Value = { List (List ℕ) };

    ghost view = { λ a. (parameters a.middles a.octets.now).0 };
}

impl<'a> LineParameters<'a> {
    /// The first parameter, and those after it. `None` where there is none.
    pub fn split_first(&self) -> Option<(&'a [u8], LineParameters<'a>)>
        ensures { MatchOption result (self.now ≡ []) (λ p. self.now ≡ p.0.now ∷ p.1) }
    {
        let (first, octets) = split_parameter(self.octets, self.middles)?;
        let middles = self.middles.saturating_sub(1);
        Some((first, LineParameters { octets, middles }))
    }
}

/// The first parameter, where at most so many end at a space before the last, and what stands after it.
#[tactic(auto, using(crate::proofs::Firsts::firsts))]
fn split_parameter(octets: &[u8], middles: usize) -> Option<(&[u8], &[u8])>
    ensures parts { MatchOption result ((parameters middles octets.now).0 ≡ [])
        (λ p. (parameters middles octets.now).0 ≡ p.0.now ∷ (parameters (middles - 1) p.1.now).0) }
    ensures within { IfSome result (λ p. length p.0.now ≤ length octets.now) }
{
    let rest = skip_spaces(octets);
    if middles > 0 && begins_middle(rest) {
        return Some(split_word(rest));
    }
    let last = last_parameter(rest)?;
    Some((last, &[]))
}

/// The last parameter, without the colon that it may be spelled with. `None` where there is none.
fn last_parameter(octets: &[u8]) -> Option<&[u8]>
    ensures last { MatchOption result ((last_parameter octets.now).0 ≡ [])
        (λ p. (last_parameter octets.now).0 ≡ p.now ∷ []) }
    ensures within { IfSome result (λ p. length p.now ≤ length octets.now) }
{
    match octets {
        [] => None,
        [b':', last @ ..] => Some(last),
        last => Some(last),
    }
}

/// A message in its line, with room for one of its parts: its command or its first parameter can be kept without
/// taking memory.
#[derive(Drop)]
pub struct LineMessage<'a> {
    pub(crate) tags: &'a [u8],
    pub(crate) source: Option<&'a [u8]>,
    pub(crate) command: &'a [u8],
    /// What stands after the command.
    pub(crate) rest: &'a [u8],
    /// Nothing, with room for the command, and for what stands after it.
    pub(crate) room: Vec<u8>,
}

impl<'a> Model for LineMessage<'a> {
    ghost use Rattle.std.specs.Prelude.{◌≡◌, ◌≤◌, [], length, vec_capacity};
    ghost use Rattle.std.specs.Option.{option_map};
    ghost use Rattle.line_grammar.specs.declared.message.Message.{Message};
    ghost use Rattle.line_grammar.specs.Reading.{parameters};

    ghost Value = { Message };

    ghost view = { λ a. record {
      tags = a.tags.now;
      source = option_map (λ s. s.now) a.source;
      command = a.command.now;
      params = (parameters 14 a.rest.now).0;
      colon = (parameters 14 a.rest.now).1;
    } };

    ghost invariant = { λ a. (a.room.items ≡ []) × (length a.command.now ≤ vec_capacity a.room)
        × (length a.rest.now ≤ vec_capacity a.room) };
}

impl<'a> LineMessage<'a> {
    /// The tag data, without `@` and as spelled. Empty where the line has no tags.
    pub fn tags(&self) -> &'a [u8]
        ensures { result.now ≡ self.now.tags }
    {
        self.tags
    }

    /// The command.
    pub fn command(&self) -> &'a [u8]
        ensures { result.now ≡ self.now.command }
    {
        self.command
    }

    /// The parameters.
    pub fn params(&self) -> LineParameters<'a>
        ensures { result ≡ self.now.params }
    {
        LineParameters {
            octets: self.rest,
            middles: MAX_PARAMETERS - 1,
        }
    }

    /// The command alone.
    pub fn into_command(self) -> Octets
        ensures { result ≡ self.entry.command }
    {
        fill(self.room, self.command)
    }

    /// The first parameter alone. `None` where there is none.
    pub fn into_first_param(self) -> Option<Octets>
        ensures { result ≡ slice_get self.entry.params 0 }
    {
        let (first, _) = split_parameter(self.rest, MAX_PARAMETERS - 1)?;
        Some(fill(self.room, first))
    }

    /// The message with copies of its parts.
    pub fn to_message(&self, alloc: Global) -> Result<Message, AllocError>
        ensures { IfOk result (λ m. m ≡ self.now) }
    {
        let (params, colon) = read_parameters(alloc, self.rest)?;
        Ok(Message {
            tags: Octets::copy_of(alloc, self.tags)?,
            source: copy_of(alloc, self.source)?,
            command: Octets::copy_of(alloc, self.command)?,
            params,
            colon,
        })
    }
}

/// Octets in what has room for them.
fn fill(room: Vec<u8>, octets: &[u8]) -> Octets
    requires empty { room.items ≡ [] }
    requires room { length octets.now ≤ vec_capacity room }
    ensures { result ≡ octets.now }
{
    let mut filled = room;
    let Ok(()) = filled.extend_from_slice(octets) else {
        unreachable!();
    };
    Octets::from_vec(filled)
}

fn copy_of(alloc: Global, octets: Option<&[u8]>) -> Result<Option<Octets>, AllocError>
    ensures { IfOk result (λ o. o ≡ option_map (λ s. s.now) octets.entry) }
{
    match octets {
        Some(octets) => Ok(Some(Octets::copy_of(alloc, octets)?)),
        None => Ok(None),
    }
}
