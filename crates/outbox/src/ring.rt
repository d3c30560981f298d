//! A session's outbox as a ring of items.
ghost use Rattle.std.specs.Prelude.{◌≡◌, IfOk, length, slice_get};

use crate::counted_ends::Unsent;
use crate::queue::{NotPut, Outbox, PutFault};
use circular_buffer::HeapCircularBuffer;
use deliveries::Item;
use snapshots::{Snapshot, append, blank};
use std::alloc::{AllocError, Global};
use std::collections::LinkedList;
use std::marker::Model;

/// An outbox of one thread, for a bounded number of items. A clause sees the items that wait, how many may, and all
/// that were ever taken.
#[derive(Drop)]
pub struct Ring {
    items: HeapCircularBuffer<Item>,
    taken: Snapshot<LinkedList<Item>>,
}

impl Model for Ring {
    ghost use Rattle.outbox.specs.Ring.{Waiting};

    ghost Value = { Waiting };

    ghost view = { λ a. record {
      queue = a.items.items;
      cap = a.items.capacity;
      taken = a.taken.value;
    } };
}

impl Ring {
    ghost use Rattle.outbox.specs.Ring.{empty_ring, with_taken};

    /// An empty outbox for at most `cap` items, 1 to 4,096.
    pub fn new(alloc: Global, cap: usize) -> Result<Ring, AllocError>
        ensures { IfOk result (λ b. b ≡ empty_ring cap) }
    {
        Ok(Ring {
            items: HeapCircularBuffer::with_capacity(alloc, cap)?,
            taken: blank(alloc),
        })
    }

    /// How many items wait.
    pub fn len(&self) -> usize
        ensures { result ≡ length self.now.queue }
    {
        self.items.len()
    }

    /// Takes the item that waits longest. It takes no memory.
    pub fn take_now(&mut self) -> Option<Item>
        ensures value { result ≡ slice_get self.old.queue 0 }
        ensures taken { self.new ≡ with_taken self.old }
    {
        let item = self.items.pop_front()?;
        append(&mut self.taken, &item);
        Some(item)
    }
}

impl Outbox for Ring {
    ghost use Rattle.std.specs.Prelude.{◌≡◌, ◌<◌, ◌↔◌, ◌++◌, false, length, IsOk, OnOk, IfErr};
    ghost use Rattle.outbox.specs.Ring.{with_put, put_into, accepts, refuses};
    ghost use Rattle.outbox.specs.declared.queue.PutFault.TheVariants.{Full};

    type Taker = ();

    type Name = ();

    ghost sent = { put_into };

    ghost room = { λ b. b.cap };

    ghost name = { λ b. tt };

    ghost taker_of = { λ w. tt };

    ghost taken = { λ b w. b.taken };

    ghost may_be_cut = { false };

    ghost accepts = { accepts };

    ghost refuses = { refuses };

    ghost shows = { λ b e full. Unit {0} };

    fn put(&mut self, item: Item) -> Result<(), (PutFault, NotPut)>
        ensures room { IsOk result ↔ (length self.old.queue < self.old.cap) }
        ensures ok { OnOk result (self.new ≡ with_put self.old item) }
        ensures err { IfErr result (λ e. (e.0 ≡ Full) × (e.1.message ≡ item)
            × (self.new ≡ self.old)) }
    {
        match self.items.try_push_back(item) {
            Ok(()) => Ok(()),
            Err(item) => Err((PutFault::Full, Unsent::new(item))),
        }
    }

    fn close(self, _taker: ()) -> u64
        ensures { result ≡ length self.queue }
    {
        self.items.len() as u64
    }
}
