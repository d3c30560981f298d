//! Outboxes that keep their names.
//!
//! Whatever such an outbox accepts, it has the same name afterwards. The book's clauses describe a put by that
//! relation alone, so a register that has the names needs this law.
use outbox::{Outbox, Ring, Sender};
use std::sync::Wait;

/// An outbox that keeps its name, whatever is put into it. It has nothing to do but to say so.
pub trait StableName: Outbox {
    ghost use Rattle.std.specs.Prelude.{◌≡◌};
    ghost use Rattle.deliveries.specs.declared.item.Item.{Item};

    ghost stays: { (a : Self) (x : Item) (b : Self) → Self.accepts a x b
        → Self.name b ≡ Self.name a };
}

impl StableName for Ring {
    ghost use Rattle.std.specs.Prelude.{refl};

    ghost stays = { λ a x b e. refl };
}

impl<R: Wait + Drop> StableName for Sender<R> {
    ghost use Rattle.std.proofs.Common.{ap};
    ghost use Rattle.outbox.specs.Ends.{Puttings};

    ghost stays = { λ a x b e. ap (λ (s : Puttings). s.channel) e };
}
