//! Who holds which nickname.
ghost use Rattle.std.specs.Prelude.{◌≡◌, ◌+◌, ◌<◌, ◌≤◌, ℕ, List, [], cond, Some, None, IfOk, OnOk};
ghost use Rattle.std.specs.Map.{lookup};
ghost use Rattle.std.specs.Str.{bytes_eq};
ghost use Rattle.casemapping.specs.Fold.{name_fold};
ghost use Rattle.roster.specs.Tables.{held_by, Frees};

use crate::hashing::NameHashing;
use casemapping::{Folded, is_same};
use chronicle::SessionId;
use indexmap::IndexMap;
use line_grammar::Octets;
use std::alloc::{AllocError, Global};
use std::marker::Model;

/// The sessions that have nicknames, each found by its nickname however that is spelled.
#[derive(Drop)]
pub(crate) struct Nicks {
    alloc: Global,
    holders: IndexMap<Folded, SessionId, NameHashing>,
}

impl Model for Nicks {
    ghost use Rattle.std.specs.Prelude.{ℕ, List};
    ghost use Rattle.indexmap.specs.IndexMap.{spare};
    ghost use Rattle.roster.specs.Table.{Table};

    ghost Value = { Table (List ℕ × ℕ) };

    ghost view = { λ a. record { list = a.holders.entries; room = spare a.holders } };
}

impl Nicks {
    /// Nobody has a nickname.
    pub(crate) fn new(alloc: Global, hashing: NameHashing) -> Nicks
        ensures { result.list ≡ [] }
    {
        Nicks {
            alloc,
            holders: IndexMap::with_hasher(alloc, hashing),
        }
    }

    /// A copy.
    pub(crate) fn try_clone(&self) -> Result<Nicks, AllocError>
        ensures { IfOk result (λ r. r.list ≡ self.now.list) }
    {
        Ok(Nicks {
            alloc: self.alloc,
            holders: self.holders.clone()?,
        })
    }

    /// Makes room for so many more.
    pub(crate) fn reserve(&mut self, more: usize) -> Result<(), AllocError>
        ensures list { self.new.list ≡ self.old.list }
        ensures kept { self.old.room ≤ self.new.room }
        ensures room { OnOk result (more ≤ self.new.room) }
    {
        self.holders.reserve(more)
    }

    /// The session that has a nickname, where there is no memory to fold that.
    fn search(&self, nick: &[u8]) -> Option<SessionId>
        ensures { result ≡ held_by self.now.list (name_fold nick.now) }
    {
        for (key, session) in &self.holders {
            if is_same(key.as_slice(), nick) {
                return Some(*session);
            }
        }
        None
    }

    /// The session that has a nickname.
    pub(crate) fn find(&self, nick: &[u8]) -> Option<SessionId>
        ensures { result ≡ held_by self.now.list (name_fold nick.now) }
    {
        match Folded::new(self.alloc, nick) {
            Ok(key) => self.holders.get(&key).copied(),
            Err(_) => self.search(nick),
        }
    }

    /// Nobody has a nickname any more that somebody had. It takes no memory.
    pub(crate) fn give_back(&mut self, nick: Option<Octets>)
        ensures freed { Frees self.old.list self.new.list nick }
        ensures room { self.old.room ≤ self.new.room }
    {
        if let Some(nick) = nick {
            let key = Folded::from_vec(nick.into_vec());
            self.holders.swap_remove(&key);
        }
    }

    /// A session has a nickname from now on, which is folded. There has to be room for it, and it takes no memory.
    pub(crate) fn take(&mut self, key: Folded, session: SessionId)
        requires { 0 < self.old.room }
        ensures taken { (k : List ℕ) → held_by self.new.list k
            ≡ cond (bytes_eq key k) (Some session) (held_by self.old.list k) }
        ensures room { self.old.room ≤ self.new.room + 1 }
    {
        let _ = self.holders.insert(key, session).unwrap();
    }
}
