//! Lists in one parameter (RFC 2812, section 2.3.1; IRCv3 Capability Negotiation).
ghost use Rattle.std.specs.Prelude.{◌≡◌, ◌↔◌, ◌==◌, ◌&&◌, ◌++◌, ◌∷◌, ◌+◌, ◌<◌, [], length};
ghost use Rattle.std.specs.Prelude.{not, cond, position, IfOk, OnOk, IsTrue};
ghost use Rattle.std.specs.List.{slice_split, list_any};
ghost use Rattle.casemapping.specs.Fold.{is_same};
ghost use Rattle.line_grammar.specs.Parts.{is_empty, octets_left, parts, parts_left};
ghost use Rattle.command_params.specs.Lists.{is_comma, list_given, names_of, targets_of, words_of};
ghost use Rattle.command_params.specs.ListSteps.{first_of, others_of, with_name, with_target, with_word};

use crate::{JoinTarget, JoinTargets};
use casemapping::is_same;
use line_grammar::{LineParameters, Octets, OctetsList, split_first};
use std::alloc::{AllocError, Global};

/// The first of the keys that are left, which is empty where there is none, and those after it.
fn take_key(keys: Option<&[u8]>) -> (&[u8], Option<&[u8]>)
    ensures key { result.0.now ≡ first_of (parts_left 44 keys.entry) }
    ensures others { parts_left 44 result.1 ≡ others_of (parts_left 44 keys.entry) }
{
    match keys {
        Some(keys) => split_first(keys, b','),
        None => (&[], None),
    }
}

fn is_among(names: &[Octets], name: &[u8]) -> bool
    ensures { result ≡ list_any (λ other. is_same other name.now) names.now }
{
    names.iter().any(|other| is_same(other.as_slice(), name))
}

fn is_target(targets: &[JoinTarget], channel: &[u8]) -> bool
    ensures { result ≡ list_any (λ target. is_same target.channel channel.now) targets.now }
{
    targets
        .iter()
        .any(|target| is_same(target.channel.as_slice(), channel))
}

fn add_name(names: &mut Vec<Octets>, alloc: Global, name: &[u8]) -> Result<(), AllocError>
    ensures { OnOk result (names.new.items ≡ with_name names.old.items name.now) }
{
    if !name.is_empty() && !is_among(names, name) {
        names.push(Octets::copy_of(alloc, name)?)?;
    }
    Ok(())
}

fn add_word(words: &mut Vec<Octets>, alloc: Global, word: &[u8]) -> Result<(), AllocError>
    ensures { OnOk result (words.new.items ≡ with_word words.old.items word.now) }
{
    if !word.is_empty() {
        words.push(Octets::copy_of(alloc, word)?)?;
    }
    Ok(())
}

fn add_target(
    targets: &mut Vec<JoinTarget>,
    alloc: Global,
    channel: &[u8],
    key: &[u8],
) -> Result<(), AllocError>
    ensures { OnOk result (targets.new.items
        ≡ with_target targets.old.items (record { channel = channel.now; key = key.now })) }
{
    if !channel.is_empty() && !is_target(targets, channel) {
        let channel = Octets::copy_of(alloc, channel)?;
        let key = Octets::copy_of(alloc, key)?;
        targets.push(JoinTarget { channel, key })?;
    }
    Ok(())
}

/// The names between commas. Empty ones are left out, and so is what repeats a name in either case.
pub fn read_names(alloc: Global, list: &[u8]) -> Result<OctetsList, AllocError>
    ensures { IfOk result (λ names. names ≡ names_of list.now) }
{
    let mut names = Vec::new(alloc);
    let mut rest = Some(list);
    while let Some(left) = rest {
        let (name, more) = split_first(left, b',');
        add_name(&mut names, alloc, name)?;
        rest = more;
    }
    Ok(OctetsList::from_vec(names))
}

/// The names of the first parameter, where there is one.
pub fn read_list_given(
    alloc: Global,
    params: &LineParameters<'_>,
) -> Result<Option<OctetsList>, AllocError>
    ensures { IfOk result (λ names. names ≡ list_given params.now) }
{
    match params.split_first() {
        Some((list, _)) => Ok(Some(read_names(alloc, list)?)),
        None => Ok(None),
    }
}

/// The words between spaces.
pub fn read_words(alloc: Global, list: &[u8]) -> Result<OctetsList, AllocError>
    ensures { IfOk result (λ words. words ≡ words_of list.now) }
{
    let mut words = Vec::new(alloc);
    let mut rest = Some(list);
    while let Some(left) = rest {
        let (word, more) = split_first(left, b' ');
        add_word(&mut words, alloc, word)?;
        rest = more;
    }
    Ok(OctetsList::from_vec(words))
}

/// The channels between commas, each with the key at its place.
pub fn read_targets(alloc: Global, channels: &[u8], keys: &[u8]) -> Result<JoinTargets, AllocError>
    ensures { IfOk result (λ targets. targets ≡ targets_of channels.now keys.now) }
{
    let mut targets = Vec::new(alloc);
    let mut rest = Some(channels);
    let mut keys_left = Some(keys);
    while let Some(left) = rest {
        let (channel, more) = split_first(left, b',');
        let (key, others) = take_key(keys_left);
        add_target(&mut targets, alloc, channel, key)?;
        rest = more;
        keys_left = others;
    }
    Ok(JoinTargets::from_vec(targets))
}
