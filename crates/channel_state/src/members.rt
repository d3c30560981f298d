//! Sessions on a channel.
ghost use Rattle.std.specs.Prelude.{◌≡◌, ◌∷◌, ◌++◌, ◌-◌, ◌<◌, ◌≤◌, [], slice_get, Some, IfOk, IfSome, OnOk};
ghost use Rattle.smallvec.specs.SmallVec.{small_vec_len};
ghost use Rattle.channel_state.specs.State.{among, is_some_one, with_rank, with_last, without};
ghost use Rattle.channel_state.specs.Held.{AreOnce};

use crate::arrivals::Arrivals;
use chronicle::SessionId;
use smallvec::SmallVec;
use std::alloc::{AllocError, Global};
use std::marker::Model;

/// From so many sessions on it is kept when each came.
const MANY: usize = 16;

/// Below so many it isn't kept any more.
const FEW: usize = 8;

/// Takes a session out that is there once, at this place if one is given.
fn take_out(sessions: &mut SmallVec<SessionId, 4>, session: SessionId, place: Option<usize>)
    requires once { AreOnce sessions.old.items }
    requires place { IfSome place (λ i. slice_get sessions.old.items i ≡ Some session) }
    ensures items { sessions.new.items ≡ without session sessions.old.items }
    ensures fewer { small_vec_len sessions.new ≤ small_vec_len sessions.old }
    ensures capacity { sessions.new.capacity ≡ sessions.old.capacity }
{
    match place {
        Some(place) => {
            let _ = sessions.remove(place);
        }
        None => sessions.retain(|other| *other != session),
    }
}

/// Sessions, in order, and room for more. Few of them take no memory, and are searched; of many it is kept when each
/// came.
#[derive(Drop)]
pub(crate) struct Members {
    sessions: SmallVec<SessionId, 4>,
    /// Of all of them, or of none.
    arrivals: Arrivals,
    /// Whether these are looked up, where there are many. Those of a copy are searched: it is soon let go.
    is_looked_up: bool,
}

impl Model for Members {
    ghost use Rattle.std.specs.Prelude.{◌-◌};
    ghost use Rattle.smallvec.specs.SmallVec.{small_vec_len};
    ghost use Rattle.channel_state.specs.Held.{Seats, AreKept};

    ghost Value = { Seats };

    ghost view = { λ a. record {
      list = a.sessions.items;
      room = a.sessions.capacity - small_vec_len a.sessions;
    } };

    ghost invariant = { λ a. AreKept a.sessions.items a.arrivals };
}

impl Members {
    /// Nobody.
    pub(crate) fn new(alloc: Global) -> Members
        ensures { result.list ≡ [] }
    {
        Members {
            sessions: SmallVec::new(alloc),
            arrivals: Arrivals::new(),
            is_looked_up: true,
        }
    }

    /// Where it takes memory.
    fn alloc(&self) -> Global {
        *self.sessions.allocator()
    }

    /// A copy, with room for no more, which is searched.
    pub(crate) fn try_clone(&self) -> Result<Members, AllocError>
        ensures { IfOk result (λ m. m.list ≡ self.now.list) }
    {
        Ok(Members {
            sessions: SmallVec::from_slice(self.alloc(), self.sessions.as_slice())?,
            arrivals: Arrivals::new(),
            is_looked_up: false,
        })
    }

    /// Where many are looked up it is kept when each came, with room for so many more.
    fn keep_arrivals(&mut self, more: usize) -> Result<(), AllocError>
        ensures { self.new ≡ self.old }
    {
        let count = self.sessions.len();
        if !self.is_looked_up || count < FEW {
            self.arrivals.clear();
            return Ok(());
        }
        if self.arrivals.is_empty() {
            if count < MANY {
                return Ok(());
            }
            self.arrivals = Arrivals::of(self.alloc(), self.sessions.as_slice())?;
        }
        self.arrivals.reserve(more)
    }

    /// Makes room for so many more.
    pub(crate) fn reserve(&mut self, more: usize) -> Result<(), AllocError>
        ensures list { self.new.list ≡ self.old.list }
        ensures room { self.old.room ≤ self.new.room }
        ensures made { OnOk result (more ≤ self.new.room) }
    {
        self.sessions.reserve(more)?;
        self.keep_arrivals(more)
    }

    /// The place of a session, where it is kept when each came: those before it came before it.
    fn place(&self, session: SessionId) -> Option<usize>
        ensures { IfSome result (λ i. slice_get self.now.list i ≡ Some session) }
    {
        let turn = self.arrivals.turn(session)?;
        let sessions = self.sessions.as_slice();
        let place = sessions.partition_point(|other| self.arrivals.turn(*other) < Some(turn));
        if *sessions.get(place)? == session {
            Some(place)
        } else {
            None
        }
    }

    /// Adds a session at the end, or moves it there. It takes no memory.
    pub(crate) fn add(&mut self, session: SessionId)
        requires { 0 < self.old.room }
        ensures list { self.new.list ≡ with_last session self.old.list }
        ensures room { self.old.room - 1 ≤ self.new.room }
    {
        self.remove(session);
        self.sessions.push_reserved(session);
        if !self.arrivals.is_empty() {
            self.arrivals.add(session);
        }
    }

    /// Takes a session out. It takes no memory.
    pub(crate) fn remove(&mut self, session: SessionId)
        ensures list { self.new.list ≡ without session self.old.list }
        ensures room { self.old.room ≤ self.new.room }
    {
        if !self.has(session) {
            return;
        }
        let place = self.place(session);
        take_out(&mut self.sessions, session, place);
        self.arrivals.remove(session);
    }

    /// Adds a session, or takes it out. It takes no memory.
    pub(crate) fn set(&mut self, session: SessionId, on: bool)
        requires { 0 < self.old.room }
        ensures list { self.new.list ≡ with_rank session on self.old.list }
        ensures room { self.old.room - 1 ≤ self.new.room }
    {
        if on {
            self.add(session);
        } else {
            self.remove(session);
        }
    }

    /// Takes all out. It takes no memory.
    pub(crate) fn clear(&mut self)
        ensures list { self.new.list ≡ [] }
        ensures room { self.old.room ≤ self.new.room }
    {
        self.sessions.clear();
        self.arrivals.clear();
    }

    /// Whether there is somebody.
    pub(crate) fn is_some_one(&self) -> bool
        ensures { result ≡ is_some_one self.now.list }
    {
        !self.sessions.is_empty()
    }

    /// Whether a session is among them.
    pub(crate) fn has(&self, session: SessionId) -> bool
        ensures { result ≡ among session self.now.list }
    {
        if self.arrivals.is_empty() {
            self.sessions.as_slice().contains(&session)
        } else {
            self.arrivals.has(session)
        }
    }

    /// The sessions as a slice.
    pub(crate) fn as_slice(&self) -> &[SessionId]
        ensures { result.now ≡ self.now.list }
    {
        self.sessions.as_slice()
    }
}
