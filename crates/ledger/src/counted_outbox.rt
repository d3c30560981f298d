//! An outbox that counts what is put into it.
ghost use Rattle.std.specs.Prelude.{◌≡◌, ◌<◌, ◌+◌, ◌^◌, ◌++◌, ◌∷◌, [], List, true, false, length, slice_get};
ghost use Rattle.deliveries.specs.declared.item.Item.{Item};
ghost use Rattle.deliveries.specs.Items.{Continues};
ghost use Rattle.outbox.specs.declared.queue.PutFault.{PutFault};
ghost use Rattle.outbox.specs.Ring.{with_taken};

use deliveries::Item;
use outbox::{Outbox, Ring};
use std::marker::Model;

/// An outbox, and how many items were ever put into it. A clause sees the outbox.
#[derive(Drop)]
pub(crate) struct CountedOutbox<O: Outbox> {
    outbox: O,
    count: u64,
}

impl<O: Outbox> Model for CountedOutbox<O> {
    ghost use Rattle.std.specs.Prelude.{◌≡◌, length};

    ghost Value = { O };

    ghost view = { λ a. a.outbox };

    ghost invariant = { λ a. a.count ≡ length (O.sent a.outbox) };
}

impl<O: Outbox> CountedOutbox<O> {
    /// An outbox into which nothing was put.
    pub(crate) fn new(outbox: O) -> CountedOutbox<O>
        requires { O.sent outbox ≡ [] }
        ensures { result ≡ outbox }
    {
        CountedOutbox { outbox, count: 0 }
    }

    /// How many items were ever put.
    pub(crate) fn count(&self) -> u64
        ensures { result ≡ length (O.sent self.now) }
    {
        self.count
    }

    /// Puts an item at the end, and answers whether the outbox took it.
    pub(crate) fn put(&mut self, item: Item) -> bool
        requires next { Continues (O.sent self.old) item }
        requires few { length (O.sent self.old) + 1 < 2 ^ 64 }
        ensures accepted { result ≡ true → O.accepts self.old item self.new }
        ensures longer { result ≡ true → O.sent self.new ≡ O.sent self.old ++ item ∷ [] }
        ensures same { result ≡ false → self.new ≡ self.old }
        ensures refused { result ≡ false → (cause : PutFault) × O.refuses self.old cause }
    {
        match self.outbox.put(item) {
            Ok(()) => {
                self.count += 1;
                true
            }
            Err(_) => false,
        }
    }

    /// Ends the outbox, and answers how many items are left in it.
    pub(crate) fn close(self, taker: O::Taker) -> u64
        requires { O.name self ≡ O.taker_of taker }
        ensures { (left : List Item) × (O.sent self ≡ O.taken self taker ++ left)
            × (result ≡ length left) }
    {
        self.outbox.close(taker)
    }
}

impl CountedOutbox<Ring> {
    /// Takes the item that waits longest.
    pub(crate) fn take_now(&mut self) -> Option<Item>
        ensures value { result ≡ slice_get self.old.queue 0 }
        ensures taken { self.new ≡ with_taken self.old }
    {
        self.outbox.take_now()
    }
}
