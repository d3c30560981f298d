//! Why a call of the book was refused. Of several causes the first in the order of an enum is told.
ghost use Rattle.std.specs.Prelude.{◌≡◌};
ghost use Rattle.ledger.specs.declared.refusals.OpenRefusal.TheVariants as opening;
ghost use Rattle.ledger.specs.declared.refusals.LineRefusal.TheVariants as accepting;
ghost use Rattle.ledger.specs.declared.refusals.SweepRefusal.TheVariants as sweeping;
ghost use Rattle.ledger.specs.declared.refusals.TickRefusal.TheVariants as ticking;
ghost use Rattle.ledger.specs.declared.refusals.RollRefusal.TheVariants as rolling;

use std::alloc::AllocError;

/// Why no book was made.
#[derive(Clone, Copy, Debug, PartialEq)]
pub enum BookFault {
    /// A setting is out of its limits.
    BadSettings,
    /// A growth was refused.
    Memory,
}

/// Why a session wasn't opened.
#[derive(Clone, Copy, Debug, PartialEq)]
pub enum OpenRefusal {
    /// A plan is out.
    Busy,
    /// As many sessions are there as may be.
    TooManySessions,
    /// The journal has no room for a session.
    JournalFull,
    /// The moment is out of range, or before that of the newest record.
    BadMoment,
    /// A growth was refused.
    Memory,
}

/// Why a line wasn't accepted.
#[derive(Clone, Copy, Debug, PartialEq)]
pub enum LineRefusal {
    /// A plan is out.
    Busy,
    /// There is no such session, or another line of it is next.
    WrongTurn,
    /// The session is shut.
    Shut,
    /// The journal has no room for a line.
    JournalFull,
    /// The moment is out of range, or before that of the newest record.
    BadMoment,
    /// A growth was refused.
    Memory,
}

/// Why a session wasn't hung.
#[derive(Clone, Copy, Debug, PartialEq)]
pub enum HangRefusal {
    /// A plan is out.
    Busy,
    /// There is no such session.
    NoSession,
    /// The session is shut.
    Shut,
    /// The moment is out of range, or before that of the newest record.
    BadMoment,
}

/// Why nobody was swept.
#[derive(Clone, Copy, Debug, PartialEq)]
pub enum SweepRefusal {
    /// A plan is out.
    Busy,
    /// The moment is out of range, or before that of the newest record.
    BadMoment,
    /// A growth was refused.
    Memory,
}

/// Why nobody was pinged.
#[derive(Clone, Copy, Debug, PartialEq)]
pub enum TickRefusal {
    /// A plan is out.
    Busy,
    /// The moment is out of range, or before that of the newest record.
    BadMoment,
    /// The journal has no room for a record.
    JournalFull,
    /// A growth was refused.
    Memory,
}

/// Why no records were dropped.
#[derive(Clone, Copy, Debug, PartialEq)]
pub enum RollRefusal {
    /// A plan is out.
    Busy,
    /// A growth was refused.
    Memory,
}

/// Why a session wasn't reaped.
#[derive(Clone, Copy, Debug, PartialEq)]
pub enum ReapRefusal {
    /// A plan is out.
    Busy,
    /// There is no such session.
    Stranger,
    /// The session isn't gone.
    NotGone,
}

/// Why nothing was taken.
#[derive(Clone, Copy, Debug, PartialEq)]
pub enum TakeRefusal {
    /// There is no such session.
    NoSession,
    /// Its outbox is empty.
    Empty,
}

impl From<AllocError> for OpenRefusal {
    ghost from_gives = { λ _ e. e ≡ opening.Memory };

    fn from(_: AllocError) -> OpenRefusal {
        OpenRefusal::Memory
    }
}

impl From<AllocError> for LineRefusal {
    ghost from_gives = { λ _ e. e ≡ accepting.Memory };

    fn from(_: AllocError) -> LineRefusal {
        LineRefusal::Memory
    }
}

impl From<AllocError> for RollRefusal {
    ghost from_gives = { λ _ e. e ≡ rolling.Memory };

    fn from(_: AllocError) -> RollRefusal {
        RollRefusal::Memory
    }
}

impl From<AllocError> for TickRefusal {
    ghost from_gives = { λ _ e. e ≡ ticking.Memory };

    fn from(_: AllocError) -> TickRefusal {
        TickRefusal::Memory
    }
}

impl From<AllocError> for SweepRefusal {
    ghost from_gives = { λ _ e. e ≡ sweeping.Memory };

    fn from(_: AllocError) -> SweepRefusal {
        SweepRefusal::Memory
    }
}
