//! What is left in an outbox at its end.
ghost use Rattle.std.specs.Prelude.{◌≡◌, ◌++◌, true, List, length};
ghost use Rattle.crossbeam_channel.specs.Claims.{IsSeatAt};
ghost use Rattle.crossbeam_channel.specs.Ends.{receives_on};
ghost use Rattle.deliveries.specs.declared.item.Item.{Item as Delivered};
ghost use Rattle.outbox.specs.Ends.{known_by};

use crate::rule::{Drain, InOrder, Log};
use crossbeam_channel::{Pass, RuledReceiver};
use deliveries::Item;
use std::sync::Wait;

/// Drops what is left in an outbox, and counts it.
pub(super) fn drain<R: Wait>(
    rt: &R,
    receiver: &RuledReceiver<Item, Log, InOrder>,
    mut pass: Pass<Item, Log>,
) -> u64
    requires channel { IsSeatAt (receives_on receiver.now) pass }
    requires sends { (known_by pass).sends ≡ true }
    requires takes { (known_by pass).takes ≡ true }
    ensures { (left : List Delivered) × ((known_by pass).sent ≡ (known_by pass).got ++ left)
        × (result ≡ length left) }
{
    for count in 0..u64::MAX {
        match receiver.try_recv_as::<Drain, R>(rt, &mut pass) {
            Ok(item) => drop(item),
            Err(_) => return count,
        }
    }
    for _ in rt.forever() {}
    unreachable!()
}
