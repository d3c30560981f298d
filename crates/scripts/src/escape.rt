//! Octets as a script's text spells them, and as a note prints them.
ghost use Rattle.std.specs.Prelude.{◌≡◌, ◌++◌, None, Some, IfOk, IsErrOf, OnOk};
ghost use Rattle.std.specs.Prelude.{ℕ, List, ◌∷◌, ◌<◌};
ghost use Rattle.std.specs.Char.{digit_char};
ghost use Rattle.std.specs.Io.KnownBytes.{prepend_known};
ghost use Rattle.scripts.specs.Escapes.{printed_octet, text_octets, octets_from, hexadecimal, escaped_octet, HasDigit};

use crate::script::StepFault;
use std::alloc::{AllocError, Global};

/// Where the reading of a text stands.
#[derive(Clone, Copy)]
pub(crate) enum EscapePlace {
    /// Between two octets.
    Between,
    /// After a backslash.
    Escape,
    /// After `\x`.
    FirstDigit,
    /// After `\x` and a digit of this value.
    SecondDigit(u8),
}

/// The value of a hexadecimal digit of either case.
fn hexadecimal(octet: u8) -> Option<u8>
    ensures { result ≡ hexadecimal octet }
{
    match octet {
        b'0'..=b'9' => Some(octet - b'0'),
        b'a'..=b'f' => Some(octet - b'a' + 10),
        b'A'..=b'F' => Some(octet - b'A' + 10),
        _ => None,
    }
}

/// The octet that a letter after a backslash stands for, `x` apart.
fn escaped_octet(octet: u8) -> Option<u8>
    ensures { result ≡ escaped_octet octet }
{
    match octet {
        b'r' => Some(b'\r'),
        b'n' => Some(b'\n'),
        b'\\' | b'"' => Some(octet),
        _ => None,
    }
}

/// Reads one more octet of a text and adds the octet that ends there, if one does, to `octets`.
#[tactic(auto, using(crate::proofs::Reading::plain, crate::proofs::Reading::some_letter, crate::proofs::Reading::second_digit))]
fn next_place(place: EscapePlace, octet: u8, octets: &mut Vec<u8>) -> Result<EscapePlace, StepFault>
    requires { HasDigit place }
    ensures digit { IfOk result HasDigit }
    ensures ok { IfOk result (λ after. (rest : List ℕ) → prepend_known octets.new.items
        (octets_from after rest)
        ≡ prepend_known octets.old.items (octets_from place (octet ∷ rest))) }
    ensures bad { IsErrOf result StepFault.Bad → (rest : List ℕ)
        → octets_from place (octet ∷ rest) ≡ None }
{
    match place {
        EscapePlace::Between => match octet {
            b'\\' => Ok(EscapePlace::Escape),
            b'"' => Err(StepFault::Bad),
            _ => {
                octets.push(octet)?;
                Ok(EscapePlace::Between)
            }
        },
        EscapePlace::Escape => {
            if octet == b'x' {
                return Ok(EscapePlace::FirstDigit);
            }
            let Some(escaped) = escaped_octet(octet) else {
                return Err(StepFault::Bad);
            };
            octets.push(escaped)?;
            Ok(EscapePlace::Between)
        }
        EscapePlace::FirstDigit => match hexadecimal(octet) {
            Some(digit) => Ok(EscapePlace::SecondDigit(digit)),
            None => Err(StepFault::Bad),
        },
        EscapePlace::SecondDigit(high) => {
            let Some(low) = hexadecimal(octet) else {
                return Err(StepFault::Bad);
            };
            octets.push(16 * high + low)?;
            Ok(EscapePlace::Between)
        }
    }
}

/// The octets that a text between quotes spells.
pub(crate) fn unescape(alloc: Global, text: &[u8]) -> Result<Vec<u8>, StepFault>
    ensures ok { IfOk result (λ octets. text_octets text.now ≡ Some octets.items) }
    ensures bad { IsErrOf result StepFault.Bad → text_octets text.now ≡ None }
{
    let mut octets = Vec::new(alloc);
    let mut place = EscapePlace::Between;
    for octet in text {
        place = next_place(place, *octet, &mut octets)?;
    }
    match place {
        EscapePlace::Between => Ok(octets),
        EscapePlace::Escape | EscapePlace::FirstDigit | EscapePlace::SecondDigit(_) => Err(
            StepFault::Bad,
        ),
    }
}

/// The digit of a value below 16, in lower case.
fn hexadecimal_digit(value: u8) -> u8
    requires { value < 16 }
    ensures { result ≡ digit_char value }
{
    if value < 10 {
        b'0' + value
    } else {
        b'a' + (value - 10)
    }
}

/// Adds an octet as a note prints it.
pub(crate) fn print_octet(out: &mut Vec<u8>, octet: u8) -> Result<(), AllocError>
    ensures { OnOk result (out.new.items ≡ out.old.items ++ printed_octet octet) }
{
    if (32..=126).contains(&octet) && octet != b'\\' {
        out.push(octet)?;
        return Ok(());
    }
    let escape = [
        b'\\',
        b'x',
        hexadecimal_digit(octet / 16),
        hexadecimal_digit(octet % 16),
    ];
    out.extend_from_slice(&escape)
}
