//! What is left of an outbox that was given away: its name.
//!
//! A stub is given for an outbox that the book has by then, and a session is let into a register with an outbox: this
//! one has the name, no octets, and nothing can be put into it.
use deliveries::Item;
use outbox::{NotPut, Outbox, PutFault, Unsent};
use snapshots::Snapshot;

/// An outbox of which the name alone is known, in proofs. It has no bytes, and nothing can be put into it.
#[derive(Drop)]
pub(crate) struct GhostOutbox<O: Outbox> {
    of: Snapshot<O>,
}

impl<O: Outbox> GhostOutbox<O> {
    ghost use Rattle.std.specs.Prelude.{◌≡◌};

    /// The namesake of an outbox.
    pub(crate) fn of(outbox: &O) -> GhostOutbox<O>
        ensures { result.of.value ≡ outbox.now }
    {
        GhostOutbox {
            of: Snapshot::of(outbox),
        }
    }
}

impl<O: Outbox> Outbox for GhostOutbox<O> {
    ghost use Rattle.std.specs.Prelude.{[], false};

    type Taker = Snapshot<O>;

    type Name = O::Name;

    ghost sent = { λ a. [] };

    ghost room = { λ a. 0 };

    ghost name = { λ a. O.name a.of.value };

    ghost taker_of = { λ w. O.name w.value };

    ghost taken = { λ a w. [] };

    ghost may_be_cut = { false };

    ghost accepts = { λ a x b. ⊥ };

    ghost refuses = { λ a e. Unit {0} };

    ghost shows = { λ a e full. Unit {0} };

    fn put(&mut self, item: Item) -> Result<(), (PutFault, NotPut)> {
        Err((PutFault::Full, Unsent::new(item)))
    }

    fn close(self, _taker: Snapshot<O>) -> u64 {
        0
    }
}
