//! What goes out on a wire is what its writer took, in order, over streams that take little, wait or fail.
ghost use Rattle.std.specs.Prelude.{◌≡◌, []};

use crate::feeding::Feed;
use crate::narrow::{Narrow, Shape};
use chronicle::SessionId;
use deliveries::WriteFault;
use line_grammar::Octets;
use outbox::{ChannelName, Sender, pair};
use register::{Naming, Register};
use std::alloc::Global;
use std::marker::Brand;
use std::process::Abort;
use std::sync::Wait;
use std::test::Fail;
use wire::{Flow, Sink, Wire};

/// What each item delivers.
pub(crate) const TOLD: &[u8; 45] = b":irc.example 417 * :Input line was too long\r\n";

/// How many items wait: more than one call takes.
pub(crate) const ITEMS: u64 = 400;

/// Their octets.
pub(crate) const OCTETS: usize = 18_000;

/// More items than a wire writes at once.
const MANY_ITEMS: u64 = 1500;

/// Their octets.
const MANY_OCTETS: usize = 67_500;

/// More than any call takes.
pub(crate) const CALLS: u32 = 100_000;

/// A wire over a stream, for which so many items wait, and what feeds it.
pub(crate) fn feed_wire<L: Naming, R: Wait + Abort + Drop + Copy, W: Sink + Drop>(
    rt: &R,
    alloc: Global,
    mut register: Register<ChannelName>,
    stream: W,
    items: u64,
) -> (Feed<Sender<R>>, Wire<L, W>)
    requires named { register.table ≡ L.table }
    requires new { register.rows ≡ [] }
{
    let (sender, writer) = pair(*rt, alloc, 2048).expect(rt, "memory");
    let (_, stub) = register.admit::<L, Sender<R>>(SessionId::new(1), &sender);
    let mut feed = Feed::new(alloc, sender).expect(rt, "memory");
    for _ in 0..items {
        let _ = feed.feed(alloc);
    }
    let host = Octets::from_vec(Vec::new(alloc));
    match Wire::new(alloc, writer, stub, stream, host) {
        Ok(wire) => (feed, wire),
        Err(_) => rt.abort(),
    }
}

/// Pumps until nothing waits or the stream is at its end.
pub(crate) fn pump_all<L: Naming, R: Wait, W: Sink + Drop>(
    rt: &R,
    wire: &mut Wire<L, W>,
) -> Result<Flow, WriteFault> {
    for _ in 0..CALLS {
        match wire.pump(rt)? {
            Flow::Idle => return Ok(Flow::Idle),
            Flow::Ended => return Ok(Flow::Ended),
            Flow::More | Flow::Behind => {}
        }
    }
    Ok(Flow::More)
}

/// Whether octets are the front of what the items deliver.
pub(crate) fn is_front(octets: &[u8]) -> bool {
    let mut place = 0;
    for octet in octets {
        if TOLD.get(place) != Some(octet) {
            return false;
        }
        place = if place == 44 { 0 } else { place + 1 };
    }
    true
}

/// Streams that take all, in time.
const SLOW: [(usize, u32); 8] = [
    (1, 0),
    (7, 0),
    (8192, 0),
    (99_999, 0),
    (1, 2),
    (100, 3),
    (5000, 2),
    (99_999, 2),
];

/// The same of more items than a wire writes at once.
const WIDE: [(usize, u32); 3] = [(700, 2), (65_519, 3), (65_520, 2)];

/// Whether all these octets of so many items go out to a stream of this shape.
fn goes_out<L: Naming, R: Wait + Abort + Drop + Copy>(
    rt: &R,
    alloc: Global,
    register: Register<ChannelName>,
    shape: Shape,
    items: u64,
    octets: usize,
) -> bool
    requires named { register.table ≡ L.table }
    requires new { register.rows ≡ [] }
{
    let narrow = Narrow::new(alloc, shape);
    let (_feed, mut wire) = feed_wire::<L, R, Narrow>(rt, alloc, register, narrow, items);
    pump_all(rt, &mut wire) == Ok(Flow::Idle)
        && wire.stream().octets.len() == octets
        && is_front(wire.stream().octets.as_slice())
}

/// Over a stream that takes an octet at a time, or little, or nothing at every second or third write, all items go
/// out whole and in order.
#[test]
fn all_goes_out_in_order(rt: HostRuntime) -> Result<(), Fail> {
    for (most, period) in SLOW {
        let shape = Shape {
            most,
            left: 99_999,
            period,
            fails: true,
        };
        let register = Register::new(rt.alloc())?;
        assert!(rt;
            goes_out::<Brand, _>(&rt, rt.alloc(), register, shape, ITEMS, OCTETS),
            "{most} at a time"
        );
    }
    Ok(())
}

/// Over a stream that takes an octet at a time, or little, or nothing at every second or third write, all items go
/// out whole and in order.
#[test]
fn more_than_a_write_goes_out_in_order(rt: HostRuntime) -> Result<(), Fail> {
    for (most, period) in WIDE {
        let shape = Shape {
            most,
            left: 99_999,
            period,
            fails: true,
        };
        let register = Register::new(rt.alloc())?;
        assert!(rt;
            goes_out::<Brand, _>(&rt, rt.alloc(), register, shape, MANY_ITEMS, MANY_OCTETS),
            "{most} at a time"
        );
    }
    Ok(())
}

/// In how many writes so many items go out to a stream that takes all; 0 where they don't.
fn writes_for<L: Naming, R: Wait + Abort + Drop + Copy>(
    rt: &R,
    alloc: Global,
    register: Register<ChannelName>,
    items: u64,
) -> u32
    requires named { register.table ≡ L.table }
    requires new { register.rows ≡ [] }
{
    let shape = Shape {
        most: 99_999,
        left: 99_999,
        period: 0,
        fails: true,
    };
    let narrow = Narrow::new(alloc, shape);
    let (_feed, mut wire) = feed_wire::<L, R, Narrow>(rt, alloc, register, narrow, items);
    match pump_all(rt, &mut wire) {
        Ok(Flow::Idle) => wire.stream().writes,
        _ => 0,
    }
}

/// Whether the gauge of a wire, for which so many octets were put, tells of all that its stream hasn't.
fn is_told<L: Naming>(wire: &Wire<L, Narrow>) -> bool {
    let waiting = OCTETS.saturating_sub(wire.stream().octets.len());
    wire.gauge().waiting_octets() == waiting as u64
}

/// Whether the gauge of a wire tells so before each call and after the last, by which all is out.
fn is_told_always<L: Naming, R: Wait>(rt: &R, wire: &mut Wire<L, Narrow>) -> bool {
    for _ in 0..CALLS {
        if !is_told(&*wire) {
            return false;
        }
        match wire.pump(rt) {
            Ok(Flow::Idle) => return wire.gauge().waiting_octets() == 0,
            Ok(_) => {}
            Err(_) => return false,
        }
    }
    false
}

/// Whether the gauge of a wire over a stream of this shape tells what waits, with and without the newest item.
fn is_gauged<L: Naming, R: Wait + Abort + Drop + Copy>(
    rt: &R,
    alloc: Global,
    register: Register<ChannelName>,
    shape: Shape,
) -> bool
    requires named { register.table ≡ L.table }
    requires new { register.rows ≡ [] }
{
    let narrow = Narrow::new(alloc, shape);
    let (_feed, mut wire) = feed_wire::<L, R, Narrow>(rt, alloc, register, narrow, ITEMS);
    let besides = OCTETS - TOLD.len();
    wire.gauge().waiting_besides_newest() == besides as u64 && is_told_always(rt, &mut wire)
}

/// 400 items of 45 octets wait: the gauge tells of 18,000, and of 17,955 besides the newest; after each call, over
/// streams that take little or pause, it tells of all that the stream hasn't.
#[test]
fn a_gauge_tells_what_waits(rt: HostRuntime) -> Result<(), Fail> {
    for (most, period) in SLOW {
        let shape = Shape {
            most,
            left: 99_999,
            period,
            fails: true,
        };
        let register = Register::new(rt.alloc())?;
        assert!(rt;
            is_gauged::<Brand, _>(&rt, rt.alloc(), register, shape),
            "{most} at a time"
        );
    }
    Ok(())
}

/// Items, and the writes in which they go out: 1,456 items have 65,520 octets, and one more would have more than
/// 65,536.
const WRITES: [(u64, u32); 5] = [(0, 0), (1, 1), (100, 1), (1456, 1), (1457, 2)];

/// All items that wait go out in one write, in however many calls: 100 of 45 octets each, and 1,456, which have
/// 65,520; one more goes in a second.
#[test]
fn all_that_waits_goes_out_in_one_write(rt: HostRuntime) -> Result<(), Fail> {
    for (items, writes) in WRITES {
        let register = Register::new(rt.alloc())?;
        assert_eq!(rt;
            writes_for::<Brand, _>(&rt, rt.alloc(), register, items),
            writes,
            "{items} items"
        );
    }
    Ok(())
}

/// How much a stream takes before it is at its end, and how many items wait.
const ENDS: [(usize, u64); 8] = [
    (0, ITEMS),
    (1, ITEMS),
    (44, ITEMS),
    (45, ITEMS),
    (512, ITEMS),
    (17_999, ITEMS),
    (65_520, MANY_ITEMS),
    (65_521, MANY_ITEMS),
];

/// Whether a stream that takes so much is given just that, and the fault is told then and later.
fn is_front_at<L: Naming, R: Wait + Abort + Drop + Copy>(
    rt: &R,
    alloc: Global,
    register: Register<ChannelName>,
    left: usize,
    items: u64,
    fault: WriteFault,
) -> bool
    requires named { register.table ≡ L.table }
    requires new { register.rows ≡ [] }
{
    let shape = Shape {
        most: 700,
        left,
        period: 5,
        fails: fault == WriteFault::Failed,
    };
    let narrow = Narrow::new(alloc, shape);
    let (_feed, mut wire) = feed_wire::<L, R, Narrow>(rt, alloc, register, narrow, items);
    pump_all(rt, &mut wire) == Err(fault)
        && wire.pump(rt) == Err(WriteFault::Failed)
        && wire.stream().octets.len() == left
        && is_front(wire.stream().octets.as_slice())
}

/// A stream that fails, or takes no octet any more, was given the front of the items and is given nothing later.
#[test]
fn a_fault_leaves_the_front(rt: HostRuntime) -> Result<(), Fail> {
    for (left, items) in ENDS {
        for fault in [WriteFault::Failed, WriteFault::Zero] {
            let register = Register::new(rt.alloc())?;
            assert!(rt;
                is_front_at::<Brand, _>(&rt, rt.alloc(), register, left, items, fault),
                "{left} octets"
            );
        }
    }
    Ok(())
}

/// Whether an item that comes when all went out goes out, too.
fn goes_on<L: Naming, R: Wait + Abort + Drop + Copy>(
    rt: &R,
    alloc: Global,
    register: Register<ChannelName>,
) -> bool
    requires named { register.table ≡ L.table }
    requires new { register.rows ≡ [] }
{
    let shape = Shape {
        most: 99_999,
        left: 99_999,
        period: 0,
        fails: true,
    };
    let narrow = Narrow::new(alloc, shape);
    let (mut feed, mut wire) = feed_wire::<L, R, Narrow>(rt, alloc, register, narrow, ITEMS);
    let is_first = pump_all(rt, &mut wire) == Ok(Flow::Idle)
        && pump_all(rt, &mut wire) == Ok(Flow::Idle)
        && wire.stream().octets.len() == OCTETS;
    is_first
        && feed.feed(alloc).is_ok()
        && pump_all(rt, &mut wire) == Ok(Flow::Idle)
        && wire.stream().octets.len() == OCTETS + 45
        && is_front(wire.stream().octets.as_slice())
}

/// An item that is put after a wire was pumped goes out when it is pumped again.
#[test]
fn items_that_come_later_go_out_later(rt: HostRuntime) -> Result<(), Fail> {
    let register = Register::new(rt.alloc())?;
    assert!(rt; goes_on::<Brand, _>(&rt, rt.alloc(), register));
    Ok(())
}
