//! Events, what a step notes, and why one is refused.
ghost use Rattle.std.specs.Prelude.{◌≡◌};
ghost use Rattle.interleave.specs.declared.event.StepRefusal.TheVariants as refused;
ghost use Rattle.interleave.specs.Refusals.{of_open, of_line, of_sweep, of_tick};
ghost use Rattle.interleave.specs.Steps.{note_of};

use crate::worker::WorkerId;
use book::{
    Delivery, Done, HangRefusal, Hung, LineRefusal, OpenRefusal, ReapRefusal, Step, SweepRefusal,
    TickRefusal,
};
use chronicle::{Moment, RecordNumber, SessionId, Why};
use line_grammar::Octets;
use std::alloc::AllocError;

/// One step of a reader, a worker, a writer or a closer.
#[derive(Drop)]
pub enum Event {
    /// A client of this host connects.
    Connect {
        host: Octets,
        moment: Moment,
    },
    /// Octets of a session are read.
    Feed {
        session: SessionId,
        octets: Octets,
    },
    /// A worker takes a session's baton and its next line.
    Pick {
        worker: WorkerId,
        session: SessionId,
    },
    /// A worker takes the lock, and its line is accepted.
    Begin {
        worker: WorkerId,
        moment: Moment,
    },
    /// The worker who holds the lock puts one delivery.
    Put {
        worker: WorkerId,
    },
    /// The worker who holds the lock gives it back.
    End {
        worker: WorkerId,
    },
    /// A worker gives a line that it hasn't begun and its baton back.
    Back {
        worker: WorkerId,
    },
    /// The item that waits longest for a session is taken.
    Take {
        session: SessionId,
    },
    /// A worker ends a session.
    Hang {
        worker: WorkerId,
        session: SessionId,
        why: Why,
        moment: Moment,
    },
    /// A worker takes the lock to sweep a session that is shut, if there is one.
    Sweep {
        worker: WorkerId,
        moment: Moment,
    },
    /// A worker takes the lock to ping whoever is idle, if there is somebody.
    Tick {
        worker: WorkerId,
        moment: Moment,
    },
    /// A session that is gone is given up.
    Reap {
        session: SessionId,
    },
}

/// What became of an event.
#[derive(Drop)]
pub enum Note {
    /// The number of the new session.
    Session(SessionId),
    /// How many lines ended in the octets.
    Read(usize),
    /// The worker has the line.
    Picked,
    /// The number of the record that accepts the line.
    Record(RecordNumber),
    /// The delivery was put into this session's outbox.
    Put(SessionId),
    /// This session's outbox was full, so it missed the record and is shut.
    Missed(SessionId),
    /// What became of the record whose deliveries are put.
    Done(Done),
    /// The line and the baton are back.
    Back,
    /// What the item delivers that was taken.
    Item(Delivery),
    /// Nothing waits for the session.
    Empty,
    /// What became of the session that was hung.
    Hung(Hung),
    /// The number of the record that says that a session is gone, or that there was none to sweep.
    Swept(Option<RecordNumber>),
    /// The number of the record that pings whoever is idle, or that there was nobody to ping.
    Ticked(Option<RecordNumber>),
    /// How many items were left for the session.
    Left(u64),
}

/// Why the book refused a step, want of memory apart.
#[derive(Clone, Copy, Debug, PartialEq)]
pub enum BookRefusal {
    /// It opened no session.
    Open(OpenRefusal),
    /// It accepted no line.
    Line(LineRefusal),
    /// It hung no session.
    Hang(HangRefusal),
    /// It swept no session.
    Sweep(SweepRefusal),
    /// It pinged nobody.
    Tick(TickRefusal),
    /// It gave no session up.
    Reap(ReapRefusal),
}

/// Why a step was refused.
#[derive(Clone, Copy, Debug, PartialEq)]
pub enum StepRefusal {
    /// There is no such session.
    NoSession,
    /// There is no such worker.
    NoWorker,
    /// A worker holds the lock.
    Locked,
    /// The worker doesn't hold the lock.
    NotHolding,
    /// The worker has a line, or holds the lock.
    HasJob,
    /// The worker has no line.
    NoJob,
    /// The session's baton is with a worker.
    InFlight,
    /// No line of the session is unread.
    NothingRead,
    /// No delivery is left to be put.
    NothingLeft,
    /// A delivery is left to be put.
    PutsLeft,
    /// The book refused it.
    Book(BookRefusal),
    /// A growth was refused.
    Memory,
}

/// Why no play was made.
#[derive(Clone, Copy, Debug, PartialEq)]
pub enum PlayRefusal {
    /// A setting is out of its limits.
    BadSettings,
    /// A growth was refused.
    Memory,
}

impl From<AllocError> for StepRefusal {
    ghost from_gives = { λ _ e. e ≡ refused.Memory };

    fn from(_: AllocError) -> StepRefusal {
        StepRefusal::Memory
    }
}

/// The book accepted no line.
pub(crate) fn of_line(refusal: LineRefusal) -> StepRefusal
    ensures { result ≡ of_line refusal }
{
    match refusal {
        LineRefusal::Memory => StepRefusal::Memory,
        LineRefusal::Busy
        | LineRefusal::WrongTurn
        | LineRefusal::Shut
        | LineRefusal::JournalFull
        | LineRefusal::BadMoment => StepRefusal::Book(BookRefusal::Line(refusal)),
    }
}

/// The book opened no session.
pub(crate) fn of_open(refusal: OpenRefusal) -> StepRefusal
    ensures { result ≡ of_open refusal }
{
    match refusal {
        OpenRefusal::Memory => StepRefusal::Memory,
        OpenRefusal::Busy
        | OpenRefusal::TooManySessions
        | OpenRefusal::JournalFull
        | OpenRefusal::BadMoment => StepRefusal::Book(BookRefusal::Open(refusal)),
    }
}

/// The book swept no session.
pub(crate) fn of_sweep(refusal: SweepRefusal) -> StepRefusal
    ensures { result ≡ of_sweep refusal }
{
    match refusal {
        SweepRefusal::Memory => StepRefusal::Memory,
        SweepRefusal::Busy | SweepRefusal::BadMoment => {
            StepRefusal::Book(BookRefusal::Sweep(refusal))
        }
    }
}

/// The book pinged nobody.
pub(crate) fn of_tick(refusal: TickRefusal) -> StepRefusal
    ensures { result ≡ of_tick refusal }
{
    match refusal {
        TickRefusal::Memory => StepRefusal::Memory,
        TickRefusal::Busy | TickRefusal::BadMoment | TickRefusal::JournalFull => {
            StepRefusal::Book(BookRefusal::Tick(refusal))
        }
    }
}

/// What became of a delivery.
pub(crate) fn of_put(step: Step) -> Note
    ensures { result ≡ note_of step }
{
    match step {
        Step::Put(session) => Note::Put(session),
        Step::Missed(session) => Note::Missed(session),
    }
}
