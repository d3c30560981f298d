//! Names of sessions and records, and moments in time.
ghost use Rattle.std.specs.Prelude.{◌≡◌};

use std::marker::Model;

/// The number of a session. Sessions are numbered from 1 in the order in which they were opened; the default, 0, is
/// no session's.
#[derive(Clone, Copy, Debug, Default, PartialEq, Eq)]
pub struct SessionId {
    number: u64,
}

impl Model for SessionId {
    ghost use Rattle.std.specs.Prelude.{ℕ};

    ghost Value = { ℕ };

    ghost view = { λ a. a.number };

    ghost inverse = { λ n. record { number = n } };
}

impl SessionId {
    /// The session of this number.
    pub fn new(number: u64) -> SessionId
        ensures { result ≡ number }
    {
        SessionId { number }
    }

    /// Its number, from 1.
    pub fn number(self) -> u64
        ensures { result ≡ self }
    {
        self.number
    }
}

/// The number of a record. Records are numbered from 1.
#[derive(Clone, Copy, Debug, PartialEq, Eq)]
pub struct RecordNumber {
    number: u64,
}

impl Model for RecordNumber {
    ghost use Rattle.std.specs.Prelude.{ℕ};

    ghost Value = { ℕ };

    ghost view = { λ a. a.number };

    ghost inverse = { λ n. record { number = n } };
}

impl RecordNumber {
    /// The record of this number.
    pub fn new(number: u64) -> RecordNumber
        ensures { result ≡ number }
    {
        RecordNumber { number }
    }

    /// Its number, from 1.
    pub fn number(self) -> u64
        ensures { result ≡ self }
    {
        self.number
    }
}

/// A moment: milliseconds since 1970 began, in UTC.
#[derive(Clone, Copy, Debug, PartialEq, Eq)]
pub struct Moment {
    milliseconds: i64,
}

impl Model for Moment {
    ghost use Rattle.std.specs.Prelude.{ℤ};

    ghost Value = { ℤ };

    ghost view = { λ a. a.milliseconds };

    ghost inverse = { λ n. record { milliseconds = n } };
}

impl Moment {
    ghost use Rattle.std.specs.Prelude.{pos, IsTrue, ◌↔◌};
    ghost use Rattle.chronicle.specs.History.{IsMomentAfter};

    /// The end of the year 9998, the latest moment that a record may have.
    pub const LATEST: i64 = 253370764799999;

    /// The moment so many milliseconds after 1970 began.
    pub fn new(milliseconds: i64) -> Moment
        ensures { result ≡ milliseconds }
    {
        Moment { milliseconds }
    }

    /// Milliseconds since 1970 began.
    pub fn milliseconds(self) -> i64
        ensures { result ≡ self }
    {
        self.milliseconds
    }

    /// Whether a record may have this moment after one of the moment `last`.
    pub fn may_follow(self, last: Moment) -> bool
        ensures { IsTrue result ↔ IsMomentAfter last self }
    {
        0 <= self.milliseconds
            && self.milliseconds <= Moment::LATEST
            && last.milliseconds <= self.milliseconds
    }
}

/// A moment that a record may have: from 1970 to the end of the year 9998.
#[derive(Clone, Copy, Debug, PartialEq, Eq)]
pub struct RecordMoment {
    moment: Moment,
}

impl Model for RecordMoment {
    ghost use Rattle.std.specs.Prelude.{◌≤ℤ◌, ℤ, pos};

    ghost Value = { ℤ };

    ghost view = { λ a. a.moment };

    ghost inverse = { λ n. record { moment = n } };

    ghost invariant = { λ a. (pos 0 ≤ℤ a.moment) × (a.moment ≤ℤ pos 253370764799999) };
}

impl RecordMoment {
    ghost use Rattle.std.specs.Prelude.{pos, None, IfSome, ◌≤ℤ◌};

    /// A moment, if a record may have it.
    pub fn of(moment: Moment) -> Option<RecordMoment>
        ensures some { IfSome result (λ m. m ≡ moment) }
        ensures none { result ≡ None → (pos 0 ≤ℤ moment) × (moment ≤ℤ pos 253370764799999) → ⊥ }
    {
        if 0 <= moment.milliseconds && moment.milliseconds <= Moment::LATEST {
            Some(RecordMoment { moment })
        } else {
            None
        }
    }

    /// The moment.
    pub fn moment(self) -> Moment
        ensures { result ≡ self }
    {
        self.moment
    }
}
