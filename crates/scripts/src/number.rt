//! Numbers of a script.
ghost use Rattle.std.specs.Prelude.{◌≡◌, ◌^◌};
ghost use Rattle.scripts.specs.Numbers.{number_below, moment_of, with_digit};

use interleave::Moment;

/// A number with one more decimal digit at its end. `None` if the octet is no digit, or from 2^64 on.
fn with_digit(value: u64, octet: u8) -> Option<u64>
    ensures { result ≡ with_digit value octet }
{
    if !octet.is_ascii_digit() {
        return None;
    }
    value.checked_mul(10)?.checked_add(u64::from(octet - b'0'))
}

/// The number that a text of decimal digits writes. `None` if there is another octet or none, or from 2^64 on.
pub(crate) fn number(text: &[u8]) -> Option<u64>
    ensures { result ≡ number_below (2 ^ 64) text.now }
{
    if text.is_empty() {
        return None;
    }
    let mut value = 0;
    for octet in text {
        value = with_digit(value, *octet)?;
    }
    Some(value)
}

/// The moment that a text of decimal digits writes. `None` if there is another octet or none, or from 2^63 on.
pub(crate) fn moment(text: &[u8]) -> Option<Moment>
    ensures { result ≡ moment_of text.now }
{
    let milliseconds = i64::try_from(number(text)?).ok()?;
    Some(Moment::new(milliseconds))
}
