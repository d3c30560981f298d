//! The bell beside a channel. No clause says that a ring ends a rest; a test that rests too long fails for its time.
use crate::feeding::Feed;
use crate::one_thread::{channel, put};
use outbox::{PutFault, Sender, Writer};
use std::alloc::Global;
use std::sync::Wait;
use std::sync::atomic::{AtomicU64, Ordering};
use std::thread;
use std::thread::Threads;
use std::time::Duration;

/// Seconds, more than a test may take.
const LONG: u64 = 600;

const ROUNDS: u64 = 100_000;

/// Waits until so many were taken.
fn wait_for<R: Wait>(rt: &R, taken: &AtomicU64, count: u64) {
    for _ in rt.forever() {
        if count <= taken.load(Ordering::SeqCst) {
            break;
        }
        thread::yield_now();
    }
}

/// Puts so many deliveries and rings after each, the next when the one before was taken.
fn put_in_turn<R: Wait + Drop>(
    rt: &R,
    alloc: Global,
    feed: &mut Feed<Sender<R>>,
    taken: &AtomicU64,
    count: u64,
) {
    for _ in rt.forever() {
        if count <= feed.count() {
            break;
        }
        if let Ok(None) = feed.feed(alloc) {
            feed.outbox().bell().ring();
        }
        wait_for(rt, taken, feed.count());
    }
}

/// Takes so many deliveries, and rests where there is none.
fn take_in_turn<R: Wait>(rt: &R, writer: &mut Writer, taken: &AtomicU64, count: u64) {
    for _ in rt.forever() {
        if count <= taken.load(Ordering::SeqCst) {
            break;
        }
        match writer.take_now(rt) {
            Ok(_) => {
                taken.fetch_add(1, Ordering::SeqCst);
            }
            Err(_) => writer.rest(rt, Duration::from_secs(LONG)),
        }
    }
}

fn take_turns<R: Threads + Wait + Drop + Copy + Send + Sync>(
    rt: &R,
    alloc: Global,
    feed: Feed<Sender<R>>,
    writer: Writer,
) -> u64 {
    let mut feed = feed;
    let mut writer = writer;
    let taken = AtomicU64::new(0);
    thread::join(
        rt,
        || put_in_turn(rt, alloc, &mut feed, &taken, ROUNDS),
        || take_in_turn(rt, &mut writer, &taken, ROUNDS),
    );
    taken.load(Ordering::SeqCst)
}

/// An item that is put while its writer is about to rest wakes it, 100,000 times.
#[test]
fn a_writer_that_is_about_to_rest_is_woken(rt: HostRuntime) {
    let (feed, writer) = channel(&rt, rt.alloc(), 4);
    assert_eq!(rt; take_turns(&rt, rt.alloc(), feed, writer), ROUNDS);
}

/// A ring before a rest ends it, two end one rest, and a bell may be rung after its writer went.
#[test]
fn a_ring_before_a_rest_ends_it(rt: HostRuntime) {
    let (feed, mut writer) = channel(&rt, rt.alloc(), 4);
    assert!(rt; !writer.bell().is_rung());
    feed.outbox().bell().ring();
    assert!(rt; writer.bell().is_rung());
    writer.rest(&rt, Duration::from_secs(LONG));
    assert!(rt; !writer.bell().is_rung());
}

/// A ring before a rest ends it, two end one rest, and a bell may be rung after its writer went.
#[test]
fn two_rings_end_one_rest(rt: HostRuntime) {
    let (feed, mut writer) = channel(&rt, rt.alloc(), 4);
    feed.outbox().bell().ring();
    feed.outbox().bell().ring();
    writer.rest(&rt, Duration::from_secs(LONG));
    assert!(rt; !writer.bell().is_rung());
    writer.rest(&rt, Duration::from_millis(1));
    assert!(rt; !writer.bell().is_rung());
}

/// A ring before a rest ends it, two end one rest, and a bell may be rung after its writer went.
#[test]
fn a_bell_is_rung_after_the_writer_went(rt: HostRuntime) {
    let alloc = rt.alloc();
    let (mut feed, writer) = channel(&rt, alloc, 4);
    let bell = writer.bell().again().expect(&rt, "a count");
    drop(writer);
    feed.outbox().bell().ring();
    assert!(rt; bell.is_rung());
    bell.ring();
    assert_eq!(rt; put(&rt, alloc, &mut feed), Some(PutFault::Cut));
}
