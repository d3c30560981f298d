//! The masks that a channel bans (RFC 2811, section 4.3.1).
ghost use Rattle.std.specs.Prelude.{◌≡◌, ◌∷◌, ◌++◌, ◌-◌, ◌<◌, ◌≤◌, [], not, filter, IfOk, OnOk};
ghost use Rattle.std.specs.List.{list_any};
ghost use Rattle.casemapping.specs.Fold.{is_same};
ghost use Rattle.casemapping.specs.Mask.{fits};

use casemapping::{is_same, matches};
use line_grammar::Octets;
use std::alloc::{AllocError, Global};
use std::marker::Model;

/// Masks, in the order of setting, and room for more.
#[derive(Drop)]
pub(crate) struct Masks {
    masks: Vec<Octets>,
}

impl Model for Masks {
    ghost use Rattle.std.specs.Prelude.{◌-◌, vec_len, vec_capacity};
    ghost use Rattle.channel_state.specs.Held.{Rows};

    ghost Value = { Rows };

    ghost view = { λ a. record {
      list = a.masks.items;
      room = vec_capacity a.masks - vec_len a.masks;
    } };
}

impl Masks {
    /// None.
    pub(crate) fn new(alloc: Global) -> Masks
        ensures { result.list ≡ [] }
    {
        Masks {
            masks: Vec::new(alloc),
        }
    }

    /// Where it takes memory.
    pub(crate) fn alloc(&self) -> Global {
        *self.masks.allocator()
    }

    /// A copy.
    pub(crate) fn try_clone(&self) -> Result<Masks, AllocError>
        ensures { IfOk result (λ m. m.list ≡ self.now.list) }
    {
        Ok(Masks {
            masks: self.masks.clone()?,
        })
    }

    /// Makes room for so many more.
    pub(crate) fn reserve(&mut self, more: usize) -> Result<(), AllocError>
        ensures list { self.new.list ≡ self.old.list }
        ensures room { self.old.room ≤ self.new.room }
        ensures made { OnOk result (more ≤ self.new.room) }
    {
        self.masks.reserve(more)
    }

    /// Adds a mask at the end. It takes no memory.
    pub(crate) fn add(&mut self, mask: Octets)
        requires { 0 < self.old.room }
        ensures list { self.new.list ≡ self.old.list ++ mask ∷ [] }
        ensures room { self.old.room - 1 ≤ self.new.room }
    {
        self.masks.push_reserved(mask);
    }

    /// Takes a mask out, however it is spelled. It takes no memory.
    pub(crate) fn remove(&mut self, mask: &[u8])
        ensures list { self.new.list ≡ filter (λ m. not (is_same m mask.now)) self.old.list }
        ensures room { self.old.room ≤ self.new.room }
    {
        self.masks.retain(|other| !is_same(other.as_slice(), mask));
    }

    /// Takes all out. It takes no memory.
    pub(crate) fn clear(&mut self)
        ensures list { self.new.list ≡ [] }
        ensures room { self.old.room ≤ self.new.room }
    {
        self.masks.clear();
    }

    /// Whether one of them fits a text.
    pub(crate) fn fits(&self, text: &[u8]) -> bool
        ensures { result ≡ list_any (λ mask. fits mask text.now) self.now.list }
    {
        self.masks.iter().any(|mask| matches(mask.as_slice(), text))
    }

    /// The masks as a slice.
    pub(crate) fn as_slice(&self) -> &[Octets]
        ensures { result.now ≡ self.now.list }
    {
        &self.masks
    }
}
