//! The machine's clock.
use chronicle::Moment;
use std::time::{Clock as Ticks, Instant, SystemTime, UNIX_EPOCH};

/// The machine's time when this was made, in milliseconds since 1970, and since then by a clock that nobody sets: so
/// it is set neither forward nor back. A machine's time that can't be read, or is before 1970, is taken for 0.
#[derive(Clone, Copy, Drop)]
pub struct SystemClock<R: Ticks + Copy + Drop> {
    rt: R,
    start: i64,
    since: Option<Instant>,
}

/// Milliseconds since 1970, by the machine's clock.
fn since_1970<R: Ticks>(rt: &R) -> i64 {
    let Ok(now) = SystemTime::now(rt) else {
        return 0;
    };
    match now.duration_since(UNIX_EPOCH) {
        Ok(since) => i64::try_from(since.as_millis()).unwrap_or(0),
        Err(_) => 0,
    }
}

impl<R: Ticks + Copy + Drop> SystemClock<R> {
    /// A clock that begins now.
    pub fn new(rt: R) -> SystemClock<R> {
        SystemClock {
            rt,
            start: since_1970(&rt),
            since: Instant::now(&rt).ok(),
        }
    }
}

impl<R: Ticks + Copy + Drop> crate::Clock for SystemClock<R> {
    fn now(&self) -> Moment {
        let passed = match (self.since, Instant::now(&self.rt)) {
            (Some(since), Ok(now)) => now.duration_since(since).as_millis(),
            _ => 0,
        };
        let passed = i64::try_from(passed).unwrap_or(0);
        Moment::new(self.start.saturating_add(passed))
    }
}
