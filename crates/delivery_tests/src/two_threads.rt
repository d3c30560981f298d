//! One thread puts, another takes.
use crate::feeding::{Feed, number_of};
use crate::one_thread::channel;
use outbox::{Sender, Writer};
use std::alloc::Global;
use std::sync::Wait;
use std::thread;
use std::thread::Threads;
use std::time::Duration;

const COUNT: u64 = 1_000_000;

/// Puts so many deliveries, and rings where there is no room for more.
fn put_all<R: Wait + Drop>(rt: &R, alloc: Global, feed: &mut Feed<Sender<R>>, count: u64) {
    for _ in rt.forever() {
        if count <= feed.count() {
            break;
        }
        if !matches!(&feed.feed(alloc), Ok(None)) {
            feed.outbox().bell().ring();
            thread::yield_now();
        }
    }
}

/// Takes so many deliveries, and answers whether each was the next.
fn take_all<R: Wait>(rt: &R, writer: &mut Writer, count: u64) -> bool {
    let mut taken = 1;
    let mut is_right = match writer.take(rt) {
        Ok(item) => number_of(&item) == Some(2),
        Err(_) => false,
    };
    for _ in rt.forever() {
        if count <= taken {
            break;
        }
        match writer.take_now(rt) {
            Ok(item) => {
                taken += 1;
                is_right = is_right && number_of(&item) == taken.checked_add(1);
            }
            Err(_) => writer.rest(rt, Duration::from_millis(1)),
        }
    }
    is_right
}

/// Whether another thread takes what one puts.
fn is_handed_over<R: Threads + Wait + Drop + Copy + Send + Sync>(
    rt: &R,
    alloc: Global,
    feed: Feed<Sender<R>>,
    writer: Writer,
) -> bool {
    let mut feed = feed;
    let mut writer = writer;
    let (_, is_right) = thread::join(
        rt,
        || put_all(rt, alloc, &mut feed, COUNT),
        || take_all(rt, &mut writer, COUNT),
    );
    is_right && writer.take_now(rt).is_err()
}

/// 1,000,000 items that one thread puts come to another in order.
#[test]
fn a_million_items_come_in_order(rt: HostRuntime) {
    let (feed, writer) = channel(&rt, rt.alloc(), 4096);
    assert!(rt; is_handed_over(&rt, rt.alloc(), feed, writer));
}
