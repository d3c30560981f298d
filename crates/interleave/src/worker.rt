//! Workers, and where a session's baton is.
//!
//! A worker's job is kept by the worker, and the place of the baton by the session. One could be found from the other
//! by a search; the promise says that they agree.
ghost use Rattle.std.specs.Prelude.{◌≡◌};

use std::marker::Model;

/// The number of a worker. Workers are numbered from 1.
#[derive(Clone, Copy, Debug, PartialEq, Eq)]
pub struct WorkerId {
    number: u64,
}

impl Model for WorkerId {
    ghost use Rattle.std.specs.Prelude.{ℕ};

    ghost Value = { ℕ };

    ghost view = { λ a. a.number };

    ghost inverse = { λ n. record { number = n } };
}

impl WorkerId {
    /// The worker of this number.
    pub fn new(number: u64) -> WorkerId
        ensures { result ≡ number }
    {
        WorkerId { number }
    }

    /// Its number, from 1.
    pub fn number(self) -> u64
        ensures { result ≡ self }
    {
        self.number
    }
}

/// Where a session's baton is.
#[derive(Clone, Copy, Debug, PartialEq)]
pub(crate) enum Place {
    /// With the session: no worker has a line of it.
    Home,
    /// With a worker, who also has the first line that isn't accepted, and hasn't begun it.
    Hand(WorkerId),
    /// With a worker who began a line and hasn't ended it.
    Begun(WorkerId),
}
