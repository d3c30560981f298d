//! When each of many sessions came.
ghost use Rattle.std.specs.Prelude.{◌≡◌, ◌<◌, ◌≤◌, ◌||◌, ◌==◌, ℕ, [], cond, false, length, IfOk};
ghost use Rattle.channel_state.specs.State.{among};
ghost use Rattle.channel_state.specs.Held.{has_come};

use crate::hashing::Quick;
use chronicle::SessionId;
use indexmap::IndexMap;
use std::alloc::{AllocError, Global};
use std::marker::Model;

/// Sessions by their numbers, each with the turn in which it came. Clauses see who came, and no turns.
#[derive(Drop)]
struct Turns {
    turns: IndexMap<u64, u64, Quick>,
    /// The turn of the next.
    next: u64,
}

impl Model for Turns {
    ghost use Rattle.std.specs.Prelude.{ℕ, List};

    ghost Value = { List (ℕ × ℕ) };

    ghost view = { λ a. a.turns.entries };
}

impl Turns {
    /// These sessions came, one after the other.
    fn of(alloc: Global, sessions: &[SessionId]) -> Result<Turns, AllocError>
        ensures { IfOk result (λ a. (t : ℕ) → has_come a t ≡ among t sessions.now) }
    {
        let mut turns = IndexMap::with_hasher(alloc, Quick::new());
        turns.reserve(sessions.len())?;
        let mut next = 0_u64;
        for session in sessions {
            turns.insert(session.number(), next)?;
            next = next.wrapping_add(1);
        }
        Ok(Turns { turns, next })
    }

    /// Makes room for so many more.
    fn reserve(&mut self, more: usize) -> Result<(), AllocError>
        ensures { self.new ≡ self.old }
    {
        self.turns.reserve(more)
    }

    /// How many came.
    fn len(&self) -> usize
        ensures { result ≡ length self.now }
    {
        self.turns.len()
    }

    /// Whether a session came.
    fn has(&self, session: SessionId) -> bool
        ensures { result ≡ has_come self.now session }
    {
        self.turns.contains_key(&session.number())
    }

    /// The turn in which a session came, if it did.
    fn turn(&self, session: SessionId) -> Option<u64> {
        self.turns.get(&session.number()).copied()
    }

    /// A session comes, after all others. It takes no memory: where there is no room for it all are forgotten.
    fn add(&mut self, session: SessionId)
        ensures { 0 < length self.new → (t : ℕ) → has_come self.new t
            ≡ (session == t || has_come self.old t) }
    {
        if self.turns.len() == self.turns.capacity() {
            self.turns.clear();
            return;
        }
        let _ = self.turns.insert(session.number(), self.next).unwrap();
        self.next = self.next.wrapping_add(1);
    }

    /// A session goes. It takes no memory.
    fn remove(&mut self, session: SessionId)
        ensures others { (t : ℕ) → has_come self.new t
            ≡ cond (session == t) false (has_come self.old t) }
        ensures count { length self.new ≤ length self.old }
    {
        self.turns.swap_remove(&session.number());
    }
}

/// When each of many sessions came. Where that isn't kept it takes no memory.
#[derive(Drop)]
pub(crate) struct Arrivals {
    turns: Option<Box<Turns>>,
}

impl Model for Arrivals {
    ghost use Rattle.std.specs.Prelude.{ℕ, List, []};
    ghost use Rattle.std.specs.Option.{option_map_or};

    ghost Value = { List (ℕ × ℕ) };

    ghost view = { λ a. option_map_or (λ t. t.value) a.turns [] };
}

impl Arrivals {
    /// Nobody came.
    pub(crate) fn new() -> Arrivals
        ensures { result ≡ [] }
    {
        Arrivals { turns: None }
    }

    /// These sessions came, one after the other.
    pub(crate) fn of(alloc: Global, sessions: &[SessionId]) -> Result<Arrivals, AllocError>
        ensures { IfOk result (λ a. (t : ℕ) → has_come a t ≡ among t sessions.now) }
    {
        let turns = Turns::of(alloc, sessions)?;
        Ok(Arrivals {
            turns: Some(Box::new(alloc, turns)?),
        })
    }

    /// Makes room for so many more, where anybody came.
    pub(crate) fn reserve(&mut self, more: usize) -> Result<(), AllocError>
        ensures { self.new ≡ self.old }
    {
        match &mut self.turns {
            Some(turns) => turns.reserve(more),
            None => Ok(()),
        }
    }

    /// Whether nobody came.
    pub(crate) fn is_empty(&self) -> bool
        ensures { result ≡ (length self.now == 0) }
    {
        match &self.turns {
            Some(turns) => turns.len() == 0,
            None => true,
        }
    }

    /// Whether a session came.
    pub(crate) fn has(&self, session: SessionId) -> bool
        ensures { result ≡ has_come self.now session }
    {
        match &self.turns {
            Some(turns) => turns.has(session),
            None => false,
        }
    }

    /// The turn in which a session came, if it did.
    pub(crate) fn turn(&self, session: SessionId) -> Option<u64> {
        match &self.turns {
            Some(turns) => turns.turn(session),
            None => None,
        }
    }

    /// A session comes, after all others, where anybody came before. It takes no memory: where there is no room for
    /// it all are forgotten.
    pub(crate) fn add(&mut self, session: SessionId)
        ensures { 0 < length self.new → (t : ℕ) → has_come self.new t
            ≡ (session == t || has_come self.old t) }
    {
        if let Some(turns) = &mut self.turns {
            turns.add(session);
        }
    }

    /// A session goes. It takes no memory.
    pub(crate) fn remove(&mut self, session: SessionId)
        ensures others { (t : ℕ) → has_come self.new t
            ≡ cond (session == t) false (has_come self.old t) }
        ensures count { length self.new ≤ length self.old }
    {
        if let Some(turns) = &mut self.turns {
            turns.remove(session);
        }
    }

    /// All go. It takes no memory, and gives back what was taken.
    pub(crate) fn clear(&mut self)
        ensures { self.new ≡ [] }
    {
        self.turns = None;
    }
}
