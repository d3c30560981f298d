//! What goes out on a wire to what takes items is each item once, in order, and no octets besides.
ghost use Rattle.std.specs.Prelude.{◌≡◌, []};

use crate::shelf::Shelf;
use crate::wires::{CALLS, ITEMS, OCTETS, feed_wire, is_front, pump_all};
use deliveries::WriteFault;
use outbox::ChannelName;
use register::{Naming, Register};
use std::alloc::Global;
use std::marker::Brand;
use std::process::Abort;
use std::sync::Wait;
use std::test::Fail;
use wire::{Flow, Sink, Wire};

/// How often a shelf takes nothing.
const PERIODS: [u32; 4] = [0, 2, 3, 7];

/// Whether so many items stand on a shelf, with their octets, and none were written to it.
fn has_taken(shelf: &Shelf, items: u64) -> bool {
    let octets = shelf.octets.as_slice();
    shelf.items == items
        && octets.len() as u64 == items.wrapping_mul(45)
        && is_front(octets)
        && shelf.writes == 0
}

/// Whether all items go out to a shelf that takes nothing at each so many puts.
fn is_put<L: Naming, R: Wait + Abort + Drop + Copy>(
    rt: &R,
    alloc: Global,
    register: Register<ChannelName>,
    period: u32,
) -> bool
    requires named { register.table ≡ L.table }
    requires new { register.rows ≡ [] }
{
    let shelf = Shelf::new(alloc, period, ITEMS);
    let (_feed, mut wire) = feed_wire::<L, R, Shelf>(rt, alloc, register, shelf, ITEMS);
    pump_all(rt, &mut wire) == Ok(Flow::Idle) && has_taken(wire.stream(), ITEMS)
}

/// 400 items of 45 octets each stand on the shelf once, in order, also where each second put takes nothing; no octets
/// were written to it.
#[test]
fn items_are_put_one_by_one(rt: HostRuntime) -> Result<(), Fail> {
    for period in PERIODS {
        let register = Register::new(rt.alloc())?;
        assert!(rt;
            is_put::<Brand, _>(&rt, rt.alloc(), register, period),
            "{period}"
        );
    }
    Ok(())
}

/// Whether the gauge of a wire tells of the items that its shelf hasn't, before each call and after the last.
fn is_told_always<L: Naming, R: Wait>(rt: &R, wire: &mut Wire<L, Shelf>) -> bool {
    for _ in 0..CALLS {
        let waiting = OCTETS.saturating_sub(wire.stream().octets.len());
        if wire.gauge().waiting_octets() != waiting as u64 {
            return false;
        }
        match wire.pump(rt) {
            Ok(Flow::Idle) => return wire.gauge().waiting_octets() == 0,
            Ok(_) => {}
            Err(_) => return false,
        }
    }
    false
}

/// Whether the gauge of a wire to a shelf that takes nothing at each so many puts tells what waits.
fn is_gauged<L: Naming, R: Wait + Abort + Drop + Copy>(
    rt: &R,
    alloc: Global,
    register: Register<ChannelName>,
    period: u32,
) -> bool
    requires named { register.table ≡ L.table }
    requires new { register.rows ≡ [] }
{
    let shelf = Shelf::new(alloc, period, ITEMS);
    let (_feed, mut wire) = feed_wire::<L, R, Shelf>(rt, alloc, register, shelf, ITEMS);
    is_told_always(rt, &mut wire)
}

/// An item counts as waiting until it was put: 18,000 octets at first, 45 fewer with each item.
#[test]
fn a_gauge_tells_which_items_wait(rt: HostRuntime) -> Result<(), Fail> {
    for period in PERIODS {
        let register = Register::new(rt.alloc())?;
        assert!(rt;
            is_gauged::<Brand, _>(&rt, rt.alloc(), register, period),
            "{period}"
        );
    }
    Ok(())
}

/// Whether a shelf with room for so many items has just these, and the fault is told then and later.
fn is_full_at<L: Naming, R: Wait + Abort + Drop + Copy>(
    rt: &R,
    alloc: Global,
    register: Register<ChannelName>,
    items: u64,
) -> bool
    requires named { register.table ≡ L.table }
    requires new { register.rows ≡ [] }
{
    let shelf = Shelf::new(alloc, 5, items);
    let (_feed, mut wire) = feed_wire::<L, R, Shelf>(rt, alloc, register, shelf, ITEMS);
    pump_all(rt, &mut wire) == Err(WriteFault::Failed)
        && wire.pump(rt) == Err(WriteFault::Failed)
        && has_taken(wire.stream(), items)
}

/// A shelf that fails was given the items before, and is given nothing later.
#[test]
fn a_fault_leaves_the_items_before(rt: HostRuntime) -> Result<(), Fail> {
    for items in [0, 1, 7, 399] {
        let register = Register::new(rt.alloc())?;
        assert!(rt;
            is_full_at::<Brand, _>(&rt, rt.alloc(), register, items),
            "{items}"
        );
    }
    Ok(())
}

/// A list of octets takes no items.
#[test]
fn a_stream_takes_no_items(rt: HostRuntime) -> Result<(), Fail> {
    let stream: Vec<u8> = Vec::new(rt.alloc());
    assert!(rt; !stream.takes_items());
    Ok(())
}
