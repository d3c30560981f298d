//! Parameters that may be left out (RFC 2812, section 2.3.1).
ghost use Rattle.std.specs.Prelude.{◌≡◌, IfOk};
ghost use Rattle.command_params.specs.Params.{first_or_empty, first_or_none};

use line_grammar::{LineMessage, LineParameters, Octets, OctetsList};
use std::alloc::{AllocError, Global};

/// The first parameter. Empty where there is none.
pub fn first<'a>(params: &LineParameters<'a>) -> &'a [u8]
    ensures { result.now ≡ first_or_empty params.now }
{
    match params.split_first() {
        Some((first, _)) => first,
        None => &[],
    }
}

/// The first parameter of a message, which is kept without taking memory. Empty where there is none.
pub fn into_first(alloc: Global, message: LineMessage<'_>) -> Octets
    ensures { result ≡ first_or_empty message.entry.params }
{
    match message.into_first_param() {
        Some(first) => first,
        None => Octets::from_vec(Vec::new(alloc)),
    }
}

/// A copy of the first parameter, where there is one.
pub fn copy_first(alloc: Global, params: &LineParameters<'_>) -> Result<Option<Octets>, AllocError>
    ensures { IfOk result (λ o. o ≡ first_or_none params.now) }
{
    match params.split_first() {
        Some((first, _)) => Ok(Some(Octets::copy_of(alloc, first)?)),
        None => Ok(None),
    }
}

/// A copy of the parameters.
pub fn copy_of(alloc: Global, params: &LineParameters<'_>) -> Result<OctetsList, AllocError>
    ensures { IfOk result (λ texts. texts ≡ params.now) }
{
    let mut texts = Vec::new(alloc);
    let mut rest = params.split_first();
    while let Some((param, more)) = rest {
        texts.push(Octets::copy_of(alloc, param)?)?;
        rest = more.split_first();
    }
    Ok(OctetsList::from_vec(texts))
}
