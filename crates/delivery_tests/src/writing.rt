//! What goes out of a delivery, octet by octet, also where a writer fails, takes nothing or takes little at a time.
use crate::narrow::{Narrow, Shape};
use chronicle::{RecordNumber, Why};
use deliveries::{Delivery, Text, WriteFault, write_out};
use line_grammar::Octets;
use std::alloc::{AllocError, Global};
use std::test::Fail;

const JOINED: &[u8] = b":al!u@h1 JOIN :#rust\r\n:irc.example 332 al #rust :Words\r\n";

/// Each reason for an end, and what is told of it to who has the host h2.
const ENDS: [(Why, &str); 7] = [
    (Why::Quit, "ERROR :Closing Link: h2 (Client Quit)\r\n"),
    (
        Why::SendQ,
        "ERROR :Closing Link: h2 (Max SendQ exceeded)\r\n",
    ),
    (
        Why::ReadEnded,
        "ERROR :Closing Link: h2 (Connection closed)\r\n",
    ),
    (Why::ReadFailed, "ERROR :Closing Link: h2 (Read error)\r\n"),
    (
        Why::WriteFailed,
        "ERROR :Closing Link: h2 (Write error)\r\n",
    ),
    (Why::Memory, "ERROR :Closing Link: h2 (Out of memory)\r\n"),
    (
        Why::Shutdown,
        "ERROR :Closing Link: h2 (Server shutting down)\r\n",
    ),
];

/// The lines of a record.
fn lines(alloc: Global) -> Result<Delivery, AllocError> {
    Ok(Delivery::Lines {
        number: RecordNumber::new(1),
        text: Text::new(alloc, Octets::copy_of(alloc, JOINED)?)?,
    })
}

/// The end of a session.
fn last(why: Why) -> Delivery {
    Delivery::Last {
        number: RecordNumber::new(2),
        why,
    }
}

/// Whether a delivery goes out whole to a writer that takes `most` octets at a time.
fn is_whole(alloc: Global, delivery: &Delivery, want: &[u8], most: usize) -> bool {
    let shape = Shape {
        most,
        left: 99,
        period: 0,
        fails: true,
    };
    let mut out = Narrow::new(alloc, shape);
    write_out(delivery, b"h2", &mut out) == (want.len(), Ok(())) && out.octets.as_slice() == want
}

/// A delivery of several lines goes out whole, however few octets the writer takes at a time.
#[test]
fn lines_go_out_whole(rt: HostRuntime) -> Result<(), Fail> {
    let lines = lines(rt.alloc())?;
    for most in [1, 2, 7, 99] {
        assert!(rt;
            is_whole(rt.alloc(), &lines, JOINED, most),
            "{most} at a time"
        );
    }
    Ok(())
}

/// The `ERROR` line goes out whole for each reason, however few octets the writer takes at a time.
#[test]
fn the_end_of_a_session_goes_out_whole(rt: HostRuntime) {
    for (why, want) in ENDS {
        for most in [1, 2, 7, 99] {
            assert!(rt;
                is_whole(rt.alloc(), &last(why), want.as_bytes(), most),
                "{most} at a time of {want}"
            );
        }
    }
}

/// Whether the front of a delivery goes out to a writer that takes `left` octets, and then fails or takes none.
fn is_front(
    alloc: Global,
    delivery: &Delivery,
    want: &[u8],
    left: usize,
    fault: WriteFault,
) -> bool {
    let shape = Shape {
        most: 5,
        left,
        period: 0,
        fails: fault == WriteFault::Failed,
    };
    let mut out = Narrow::new(alloc, shape);
    write_out(delivery, b"h2", &mut out) == (left, Err(fault))
        && want.get(..left) == Some(out.octets.as_slice())
}

/// A writer that fails, or takes no octet any more, after any number of octets was given that front of a delivery,
/// and the fault is the one that it had.
#[test]
fn a_fault_leaves_the_front(rt: HostRuntime) -> Result<(), Fail> {
    let (why, want) = ENDS[0];
    for left in 0..want.len() {
        for fault in [WriteFault::Failed, WriteFault::Zero] {
            assert!(rt;
                is_front(rt.alloc(), &last(why), want.as_bytes(), left, fault),
                "{left} octets"
            );
        }
    }
    Ok(())
}

/// Whether of two deliveries that go out one after the other just the front goes out to a writer that takes `left`
/// octets in all, so many at a time, and then fails or takes none: the counts add up, and the first went out whole
/// where there was room for it.
fn are_front(
    alloc: Global,
    deliveries: (&Delivery, &Delivery),
    want: &[u8],
    shape: Shape,
    fault: WriteFault,
) -> bool {
    let left = shape.left;
    let mut out = Narrow::new(alloc, shape);
    let (first, told) = write_out(deliveries.0, b"h2", &mut out);
    let (second, end) = match told {
        Ok(()) => write_out(deliveries.1, b"h2", &mut out),
        Err(fault) => (0, Err(fault)),
    };
    let is_first_whole = told.is_ok() == (JOINED.len() <= left);
    first.saturating_add(second) == left
        && end == Err(fault)
        && is_first_whole
        && want.get(..left) == Some(out.octets.as_slice())
}

/// What who quits after a line is sent.
const TWO: &[u8] = b":al!u@h1 JOIN :#rust\r\n:irc.example 332 al #rust :Words\r\n\
    ERROR :Closing Link: h2 (Client Quit)\r\n";

/// Of two deliveries, one after the other, just the front goes out to a writer that fails or takes none: the counts
/// add up, and the first went out whole where there was room for it.
#[test]
fn a_fault_leaves_the_front_of_two(rt: HostRuntime) -> Result<(), Fail> {
    let (lines, last) = (lines(rt.alloc())?, last(Why::Quit));
    for left in 0..TWO.len() {
        for (most, fails) in [(1, true), (99, true), (1, false)] {
            let shape = Shape {
                most,
                left,
                period: 0,
                fails,
            };
            let fault = if fails {
                WriteFault::Failed
            } else {
                WriteFault::Zero
            };
            assert!(rt;
                are_front(rt.alloc(), (&lines, &last), TWO, shape, fault),
                "{left} octets, {most} at a time"
            );
        }
    }
    Ok(())
}
