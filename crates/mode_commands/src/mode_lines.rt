//! The lines and texts that show modes (RFC 2812, sections 3.1.5, 3.2.3 and 5.1).
ghost use Rattle.std.specs.Prelude.{◌≡◌, ◌∷◌, ◌++◌, [], IfOk, OnOk, None, option_to_list};
ghost use Rattle.mode_commands.specs.Lines.{key_told, letter_where, letters_after, letters_set, limit_told};
ghost use Rattle.mode_commands.specs.Lines.{mode_line, params_of, params_set, sign, sign_after};

use crate::letters::ModeChange;
use crate::steps::{agree, decimal};
use channel_state::Modes;
use line_grammar::Octets;
use numerics::Line;
use std::alloc::{AllocError, Global};

fn sign(on: bool) -> &'static [u8]
    ensures { result.now ≡ sign on }
{
    if on { b"+" } else { b"-" }
}

/// The sign of a letter, where it differs from the one before.
fn sign_after(was: Option<bool>, on: bool) -> &'static [u8]
    ensures { result.now ≡ sign_after was on }
{
    match was {
        Some(was) if agree(was, on) => b"",
        _ => sign(on),
    }
}

/// Adds a letter, after one with a sign.
fn push_letter(text: &mut Vec<u8>, was: Option<bool>, shown: &ModeChange) -> Result<(), AllocError>
    ensures { OnOk result (text.new.items
        ≡ text.old.items ++ (sign_after was shown.now.on ++ shown.now.letter ∷ [])) }
{
    text.extend_from_slice(sign_after(was, shown.on))?;
    text.push(shown.letter)?;
    Ok(())
}

/// The letters of changes, in order.
fn letters_of(alloc: Global, changes: &[ModeChange]) -> Result<Octets, AllocError>
    ensures { IfOk result (λ o. o ≡ letters_after None changes.now) }
{
    let mut text = Vec::new(alloc);
    let mut was = None;
    for change in changes {
        push_letter(&mut text, was, change)?;
        was = Some(change.on);
    }
    Ok(Octets::from_vec(text))
}

/// Adds the parameter of a change, where it has one.
fn push_param(params: &mut Vec<Octets>, change: &ModeChange) -> Result<(), AllocError>
    ensures { OnOk result (params.new.items ≡ params.old.items ++ option_to_list change.now.param) }
{
    if let Some(param) = &change.param {
        params.push(param.clone()?)?;
    }
    Ok(())
}

/// Adds the parameters of changes, in order.
fn push_params(params: &mut Vec<Octets>, changes: &[ModeChange]) -> Result<(), AllocError>
    ensures { OnOk result (params.new.items ≡ params.old.items ++ params_of changes.now) }
{
    for change in changes {
        push_param(params, change)?;
    }
    Ok(())
}

/// The line that shows changes of modes.
pub(crate) fn mode_line(
    alloc: Global,
    from: &[u8],
    target: &[u8],
    changes: &[ModeChange],
) -> Result<Line, AllocError>
    ensures { IfOk result (λ l. l ≡ mode_line from.now target.now changes.now) }
{
    let mut params = Vec::new(alloc);
    params.push(Octets::copy_of(alloc, target)?)?;
    params.push(letters_of(alloc, changes)?)?;
    push_params(&mut params, changes)?;
    Line::with_list(alloc, from, b"MODE", &params)
}

// ---- what is set on a channel

fn push_where(text: &mut Vec<u8>, is: bool, letter: &[u8]) -> Result<(), AllocError>
    ensures { OnOk result (text.new.items ≡ text.old.items ++ letter_where is letter.now) }
{
    if is {
        text.extend_from_slice(letter)?;
    }
    Ok(())
}

/// `+` and the letters that are set, sorted.
#[tactic(auto, unfolding(crate::specs::Lines::letters_set))]
pub(crate) fn letters_set(alloc: Global, modes: &Modes) -> Result<Octets, AllocError>
    ensures { IfOk result (λ o. o ≡ letters_set modes.now) }
{
    let mut text = Vec::new(alloc);
    text.extend_from_slice(b"+")?;
    push_where(&mut text, modes.invite_only, b"i")?;
    push_where(&mut text, modes.key.is_some(), b"k")?;
    push_where(&mut text, modes.limit.is_some(), b"l")?;
    push_where(&mut text, modes.moderated, b"m")?;
    push_where(&mut text, modes.no_outside, b"n")?;
    push_where(&mut text, modes.secret, b"s")?;
    push_where(&mut text, modes.topic_locked, b"t")?;
    Ok(Octets::from_vec(text))
}

/// Adds the key, which is told members alone.
fn push_key(
    params: &mut Vec<Octets>,
    alloc: Global,
    is_member: bool,
    key: &Option<Octets>,
) -> Result<(), AllocError>
    ensures { OnOk result (params.new.items ≡ params.old.items ++ key_told is_member key.now) }
{
    match key {
        Some(key) if is_member => params.push(key.clone()?)?,
        Some(_) => params.push(Octets::copy_of(alloc, b"*")?)?,
        None => {}
    }
    Ok(())
}

fn push_limit(params: &mut Vec<Octets>, alloc: Global, limit: Option<u64>) -> Result<(), AllocError>
    ensures { OnOk result (params.new.items ≡ params.old.items ++ limit_told limit) }
{
    if let Some(limit) = limit {
        params.push(decimal(alloc, limit)?)?;
    }
    Ok(())
}

/// The parameters of what is set, in the order of their letters.
pub(crate) fn params_set(
    alloc: Global,
    is_member: bool,
    modes: &Modes,
) -> Result<Vec<Octets>, AllocError>
    ensures { IfOk result (λ v. v.items ≡ params_set is_member modes.now) }
{
    let mut params = Vec::new(alloc);
    push_key(&mut params, alloc, is_member, &modes.key)?;
    push_limit(&mut params, alloc, modes.limit)?;
    Ok(params)
}
