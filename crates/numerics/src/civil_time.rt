//! Moments as texts (RFC 3339, section 5.6; IRCv3 server-time).
ghost use Rattle.std.specs.Prelude.{◌≡◌, ◌↔◌, ℕ, ◌+◌, ◌<◌, ◌≤◌, ◌/◌, ◌%◌, pos, unsigned_abs, IfOk, IsErrOf};
ghost use Rattle.numerics.specs.CivilTime.{IsDateOf, LiesOutside, civil_date, clock_text, date_text, time_text};
ghost use Rattle.numerics.specs.declared.civil_time.TimeFault.TheVariants.{Memory};

use crate::texts::concat;
use jiff::Timestamp;
use jiff::civil::Date;
use jiff::tz::Offset;
use line_grammar::Octets;
use std::alloc::{AllocError, Global};

/// The last millisecond of the year 9998.
const LATEST: i64 = 253370764799999;

const MILLISECONDS_OF_DAY: u64 = 86_400_000;

/// Why a moment has no text.
#[derive(Clone, Copy, Debug, PartialEq)]
pub enum TimeFault {
    /// It lies before 1970 or after the year 9998.
    OutOfRange,
    /// A growth was refused.
    Memory,
}

impl From<AllocError> for TimeFault {
    ghost from_gives = { λ _ e. e ≡ Memory };

    fn from(_error: AllocError) -> TimeFault {
        TimeFault::Memory
    }
}

/// A moment, in milliseconds since 1970-01-01T00:00:00Z, as `YYYY-MM-DDThh:mm:ss.sssZ` (RFC 3339, section 5.6;
/// IRCv3 server-time). `OutOfRange` comes before `Memory`.
#[tactic(auto, unfolding(crate::specs::CivilTime::time_text))]
pub fn time_text(alloc: Global, milliseconds: i64) -> Result<Octets, TimeFault>
    ensures text { IfOk result (λ text. text ≡ time_text milliseconds) }
    ensures out_of_range { IsErrOf result TimeFault.OutOfRange ↔ LiesOutside milliseconds }
{
    if milliseconds < 0 || milliseconds > LATEST {
        return Err(TimeFault::OutOfRange);
    }
    let milliseconds = milliseconds.unsigned_abs();
    let date = date_octets(date_of(milliseconds));
    let clock = clock_octets(milliseconds % MILLISECONDS_OF_DAY);
    let text = concat(alloc, &[&date, b"T", &clock, b"Z"])?;
    Ok(Octets::from_vec(text))
}

/// The date of a moment that has a text.
fn date_of(milliseconds: u64) -> Date
    requires { milliseconds ≤ 253370764799999 }
    ensures { IsDateOf (civil_date (milliseconds / 86_400_000)) result }
{
    let moment = Timestamp::from_millisecond(milliseconds as i64).unwrap();
    Offset::UTC.to_datetime(moment).date()
}

/// `YYYY-MM-DD`.
fn date_octets(date: Date) -> [u8; 10]
    ensures { result
        ≡ date_text (record { year = unsigned_abs date.year; month = date.month; day = date.day }) }
{
    let year = u64::from(date.year().unsigned_abs());
    let month = u64::from(date.month().unsigned_abs());
    let day = u64::from(date.day().unsigned_abs());
    [
        tens(year / 100),
        ones(year / 100),
        tens(year % 100),
        ones(year % 100),
        b'-',
        tens(month),
        ones(month),
        b'-',
        tens(day),
        ones(day),
    ]
}

/// `hh:mm:ss.sss` of the milliseconds of a day.
fn clock_octets(milliseconds: u64) -> [u8; 12]
    requires { milliseconds < 86_400_000 }
    ensures { result ≡ clock_text milliseconds }
{
    let hour = milliseconds / 3_600_000;
    let minute = milliseconds / 60_000 % 60;
    let second = milliseconds / 1_000 % 60;
    let rest = milliseconds % 1_000;
    [
        tens(hour),
        ones(hour),
        b':',
        tens(minute),
        ones(minute),
        b':',
        tens(second),
        ones(second),
        b'.',
        b'0' + (rest / 100) as u8,
        tens(rest % 100),
        ones(rest % 100),
    ]
}

fn tens(number: u64) -> u8
    requires { number < 100 }
    ensures { result ≡ 48 + number / 10 }
{
    b'0' + (number / 10) as u8
}

fn ones(number: u64) -> u8
    ensures { result ≡ 48 + number % 10 }
{
    b'0' + (number % 10) as u8
}
