//! What the threads of a server share.
ghost use Rattle.chronicle.specs.History.{last_moment};
ghost use Rattle.session_ends.specs.Timing.{IsLater};

use book::outbox::Sender;
use book::{FlushList, Hall, Naming};
use chronicle::{Moment, SessionId};
use std::sync::{Mutex, Wait};

/// Stands before the lock of the hall.
pub trait Gate {
    /// Lines of this session are about to ask for the lock.
    fn enter(&self, session: SessionId);

    /// Lines of this session have given the lock back.
    fn leave(&self, session: SessionId);
}

/// The connections of a server's sessions. A clause that says that a session was shut, that those on a list were
/// told, or that the server was asked to stop, says that this was called for them. What the call does is for its
/// implementation to say.
pub trait Sockets {
    ghost use Rattle.std.specs.Prelude.{◌≡◌, ℕ, true};
    ghost use Rattle.book.specs.Flushes.{FlushView};

    /// That a session was shut here.
    ghost shuts: { Self → ℕ → Type 0 } = { λ s t. Unit {0} };

    /// That a session was found to be shut here.
    ghost finds_shut: { Self → ℕ → Type 0 } = { λ s t. Unit {0} };

    /// That all on a list were told here.
    ghost tells: { Self → FlushView → Type 0 } = { λ s w. Unit {0} };

    /// That the server was asked to stop.
    ghost stops: { Self → Type 0 } = { λ s. Unit {0} };

    /// A session is shut: what waits for it is still written, and nothing is read of it any more.
    fn shut(&self, session: SessionId)
        ensures { shuts self.now session };

    /// Whether a session was shut here.
    fn is_shut(&self, session: SessionId) -> bool
        ensures { result ≡ true → finds_shut self.now session };

    /// Sees to it that what waits for all who are told is written.
    fn flush(&self, flushes: &FlushList)
        ensures { tells self.now flushes.now };

    /// Waits a little.
    fn pause(&self);

    /// The journal was rolled for a record, and so many records were dropped. The hall is held meanwhile.
    fn note_roll(&self, dropped: usize);

    /// Asks the server to stop.
    fn stop(&self)
        ensures { stops self.now };
}

/// What time it is.
pub trait Clock {
    ghost use Rattle.std.specs.Prelude.{ℤ};

    /// That the clock showed this moment.
    ghost shows: { Self → ℤ → Type 0 } = { λ c t. Unit {0} };

    /// The present moment.
    fn now(&self) -> Moment
        ensures { shows self.now result };
}

/// What a server hands in: what stands before the lock of its hall, its connections, and its clock.
pub trait Host: Gate + Sockets + Clock {}

/// What all calls of a server's threads work with.
#[derive(Drop)]
pub struct Server<'a, L: Naming, R: Wait + Drop, H: Host> {
    pub hall: &'a Mutex<Hall<L, Sender<R>>>,
    pub host: &'a H,
    /// How many lines a thread may do before what they put is written.
    pub burst: usize,
}

/// The later of two moments.
pub fn later(a: Moment, b: Moment) -> Moment
    ensures { IsLater a b result }
{
    if a.milliseconds() < b.milliseconds() {
        b
    } else {
        a
    }
}

/// A moment, or that of the newest record of a hall where that is later.
pub fn moment_in<L: Naming, R: Wait + Drop>(hall: &Hall<L, Sender<R>>, moment: Moment) -> Moment
    ensures { IsLater moment (last_moment hall.now.history) result }
{
    later(moment, hall.last_moment())
}
