//! Lists of sessions that a clause sees as numbers.
ghost use Rattle.std.specs.Prelude.{◌≡◌, ◌↔◌, ◌++◌, ◌∷◌, [], IfOk, OnOk, OnErr, IsTrue};
ghost use Rattle.channel_state.specs.State.{without};

use chronicle::SessionId;
use smallvec::SmallVec;
use std::alloc::{AllocError, Global};
use std::marker::Model;

/// Sessions, in order. The first few take no memory of their own.
#[derive(Drop)]
pub struct Sessions {
    sessions: SmallVec<SessionId, 2>,
}

impl Model for Sessions {
    ghost use Rattle.std.specs.Prelude.{ℕ, List};

    ghost Value = { List ℕ };

    ghost view = { λ a. a.sessions.items };
}

impl Sessions {
    /// The sessions of a vector.
    pub fn from_vec(sessions: Vec<SessionId>) -> Sessions
        ensures { result ≡ sessions.items }
    {
        Sessions {
            sessions: SmallVec::from_vec(sessions),
        }
    }

    /// The sessions of a small vector. It takes no memory.
    pub fn from_small_vec(sessions: SmallVec<SessionId, 2>) -> Sessions
        ensures { result ≡ sessions.items }
    {
        Sessions { sessions }
    }

    /// A copy of a slice.
    pub fn copy_of(alloc: Global, sessions: &[SessionId]) -> Result<Sessions, AllocError>
        ensures { IfOk result (λ s. s ≡ sessions.now) }
    {
        Ok(Sessions {
            sessions: SmallVec::from_slice(alloc, sessions)?,
        })
    }

    /// Adds a session at the end.
    pub fn push(&mut self, session: SessionId) -> Result<(), AllocError>
        ensures ok { OnOk result (self.new ≡ self.old ++ session ∷ []) }
        ensures err { OnErr result (self.new ≡ self.old) }
    {
        self.sessions.push(session)?;
        Ok(())
    }

    /// Takes all sessions out. It takes no memory.
    pub fn clear(&mut self)
        ensures { self.new ≡ [] }
    {
        self.sessions.clear();
    }

    /// Takes a session out. It takes no memory.
    pub fn remove(&mut self, session: SessionId)
        ensures { self.new ≡ without session self.old }
    {
        self.sessions.retain(|other| *other != session);
    }

    /// Whether there is none.
    pub fn is_empty(&self) -> bool
        ensures { IsTrue result ↔ (self.now ≡ []) }
    {
        self.sessions.is_empty()
    }

    /// The sessions as a slice.
    pub fn as_slice(&self) -> &[SessionId]
        ensures { result.now ≡ self.now }
    {
        self.sessions.as_slice()
    }
}
