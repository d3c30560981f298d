//! Both outboxes in one thread. What finds no memory is tried once more.
ghost use Rattle.std.specs.Prelude.{◌≡◌, ◌<◌};

use crate::feeding::{Feed, number_of};
use deliveries::Item;
use outbox::{Closed, Empty, Outbox, PutFault, Ring, Sender, Writer, pair};
use std::alloc::Global;
use std::process::Abort;
use std::sync::Wait;

/// Puts the next delivery.
pub(crate) fn put<O: Outbox, R: Abort>(
    rt: &R,
    alloc: Global,
    feed: &mut Feed<O>,
) -> Option<PutFault>
    ensures { O.name feed.new.0 ≡ O.name feed.old.0 }
{
    match feed.feed(alloc) {
        Ok(fault) => fault,
        Err(_) => feed.feed(alloc).expect(rt, "memory"),
    }
}

fn number(item: Option<Item>) -> Option<u64> {
    number_of(&item?)
}

/// What is done, and what it is answered: a put why it wasn't, a take the number of an item.
enum Call {
    Put(Option<PutFault>),
    TakeFirst(Option<u64>),
    Take(Option<u64>),
}

const IN_ORDER: [Call; 8] = [
    Call::Put(None),
    Call::Put(None),
    Call::Put(None),
    Call::TakeFirst(Some(2)),
    Call::Take(Some(3)),
    Call::Take(Some(4)),
    Call::Take(None),
    Call::Take(None),
];

const FULL: [Call; 11] = [
    Call::Put(None),
    Call::Put(None),
    Call::Put(None),
    Call::Put(None),
    Call::Put(Some(PutFault::Full)),
    Call::TakeFirst(Some(2)),
    Call::Put(None),
    Call::Put(Some(PutFault::Full)),
    Call::Take(Some(3)),
    Call::Take(Some(4)),
    Call::Take(Some(5)),
];

/// An empty ring for four items.
fn ring<R: Abort>(rt: &R, alloc: Global) -> Feed<Ring> {
    let ring = match Ring::new(alloc, 4) {
        Ok(ring) => ring,
        Err(_) => Ring::new(alloc, 4).expect(rt, "memory"),
    };
    Feed::new(alloc, ring).expect(rt, "memory")
}

/// Whether calls on a ring are answered so.
fn are_answered_by_ring<R: Abort>(rt: &R, alloc: Global, calls: &[Call]) -> bool {
    let mut feed = ring(rt, alloc);
    for call in calls {
        let is_right = match call {
            Call::Put(fault) => put(rt, alloc, &mut feed) == *fault,
            Call::TakeFirst(want) | Call::Take(want) => number(feed.take()) == *want,
        };
        if !is_right {
            return false;
        }
    }
    true
}

/// An outbox with as many items as may wait is full, and gives the item back; one that was taken from isn't.
#[test]
fn a_ring_gives_its_items_in_order(rt: HostRuntime) {
    assert!(rt; are_answered_by_ring(&rt, rt.alloc(), &IN_ORDER));
    assert!(rt; are_answered_by_ring(&rt, rt.alloc(), &FULL));
}

/// What is left at the end is counted.
#[test]
fn a_ring_counts_what_is_left(rt: HostRuntime) {
    let mut feed = ring(&rt, rt.alloc());
    assert_eq!(rt; put(&rt, rt.alloc(), &mut feed), None);
    assert_eq!(rt; put(&rt, rt.alloc(), &mut feed), None);
    assert_eq!(rt; number(feed.take()), Some(2));
    assert_eq!(rt; feed.into_outbox().close(()), 1);
}

/// An empty channel, by its two ends.
pub(crate) fn channel<R: Wait + Abort + Drop + Copy>(
    rt: &R,
    alloc: Global,
    cap: usize,
) -> (Feed<Sender<R>>, Writer)
    requires { 0 < cap }
    ensures { result.0.0.channel ≡ result.1.channel }
{
    let (sender, writer) = match pair(*rt, alloc, cap) {
        Ok(ends) => ends,
        Err(_) => pair(*rt, alloc, cap).expect(rt, "memory"),
    };
    (Feed::new(alloc, sender).expect(rt, "memory"), writer)
}

/// Whether calls on a channel for four items are answered so.
fn are_answered_by_channel<R: Wait + Abort + Drop + Copy>(
    rt: &R,
    alloc: Global,
    calls: &[Call],
) -> bool {
    let (mut feed, mut writer) = channel(rt, alloc, 4);
    for call in calls {
        let is_right = match call {
            Call::Put(fault) => put(rt, alloc, &mut feed) == *fault,
            Call::TakeFirst(want) => number(writer.take(rt).ok()) == *want,
            Call::Take(want) => number(writer.take_now(rt).ok()) == *want,
        };
        if !is_right {
            return false;
        }
    }
    true
}

/// The first item is taken by who waits for it, the others by who doesn't; then there is none.
#[test]
fn the_first_is_taken_and_the_others_are_taken_now(rt: HostRuntime) {
    assert!(rt; are_answered_by_channel(&rt, rt.alloc(), &IN_ORDER));
}

/// An outbox with as many items as may wait is full, and gives the item back; one that was taken from isn't.
#[test]
fn a_full_channel_gives_the_item_back(rt: HostRuntime) {
    assert!(rt; are_answered_by_channel(&rt, rt.alloc(), &FULL));
}

/// Where the side that puts went, what was put is taken, and then it is closed; where the other went, a put answers
/// that it is cut.
#[test]
fn what_was_put_is_taken_after_the_sender_went(rt: HostRuntime) {
    let (mut feed, mut writer) = channel(&rt, rt.alloc(), 4);
    assert_eq!(rt; put(&rt, rt.alloc(), &mut feed), None);
    drop(feed);
    assert_eq!(rt; number(writer.take(&rt).ok()), Some(2));
    assert_eq!(rt; writer.take(&rt).err(), Some(Closed));
    assert_eq!(rt; writer.take_now(&rt).err(), Some(Empty));
}

/// Where the side that puts went, what was put is taken, and then it is closed; where the other went, a put answers
/// that it is cut.
#[test]
fn an_outbox_is_cut_when_its_writer_went(rt: HostRuntime) {
    let (mut feed, writer) = channel(&rt, rt.alloc(), 4);
    assert_eq!(rt; put(&rt, rt.alloc(), &mut feed), None);
    drop(writer);
    assert_eq!(rt; put(&rt, rt.alloc(), &mut feed), Some(PutFault::Cut));
}

/// What is left at the end is counted.
#[test]
fn a_channel_counts_what_is_left(rt: HostRuntime) {
    let (mut feed, mut writer) = channel(&rt, rt.alloc(), 4);
    assert_eq!(rt; put(&rt, rt.alloc(), &mut feed), None);
    assert_eq!(rt; put(&rt, rt.alloc(), &mut feed), None);
    assert_eq!(rt; number(writer.take(&rt).ok()), Some(2));
    assert_eq!(rt; feed.into_outbox().close(writer), 1);
}

/// An outbox of more places than there is memory for isn't made.
#[test]
fn a_channel_for_which_there_is_no_memory_is_not_made(rt: HostRuntime) {
    for power in [50u32, 60, 63] {
        assert!(rt; pair(rt, rt.alloc(), 1 << power).is_err());
    }
}
