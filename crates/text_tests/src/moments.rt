//! What moments are spelled out as, and which of them a record may have.
use chronicle::{Moment, RecordMoment};
use numerics::{TimeFault, time_text};
use std::alloc::Global;
use std::test::Fail;

/// Moments, and their texts, empty where they have none.
const MOMENTS: [(i64, &str); 5] = [
    (0, "1970-01-01T00:00:00.000Z"),
    (951782400123, "2000-02-29T00:00:00.123Z"),
    (253370764799999, "9998-12-31T23:59:59.999Z"),
    (-1, ""),
    (253370764800000, ""),
];

/// Whether a moment has this text, or none. Where there is no memory it is asked for once more.
fn is_told(alloc: Global, moment: i64, want: &str) -> bool {
    let first = time_text(alloc, moment);
    let answer = match first {
        Err(TimeFault::Memory) => time_text(alloc, moment),
        answer => answer,
    };
    match answer {
        Ok(text) => text.as_slice() == want.as_bytes(),
        Err(fault) => want.is_empty() && fault == TimeFault::OutOfRange,
    }
}

/// The moment of a leap day is told to the millisecond, and one below 0 isn't told.
#[test]
fn moments_are_told(rt: HostRuntime) -> Result<(), Fail> {
    for (moment, want) in &MOMENTS {
        assert!(rt; is_told(rt.alloc(), *moment, want), "{moment}");
    }
    Ok(())
}

/// Whether a record may have a moment, as it is told to, and has just this one.
fn is_of_record(moment: i64, want: bool) -> bool {
    match RecordMoment::of(Moment::new(moment)) {
        Some(of_record) => want && of_record.moment().milliseconds() == moment,
        None => !want,
    }
}

/// A record may have just the moments that can be printed.
#[test]
fn records_have_moments_that_have_texts(rt: HostRuntime) -> Result<(), Fail> {
    for (moment, want) in &MOMENTS {
        assert!(rt; is_of_record(*moment, !want.is_empty()), "{moment}");
    }
    Ok(())
}
