//! What is read of a client, and what is sent to one.
ghost use Rattle.std.specs.Prelude.{IfOk};
ghost use Rattle.websocket_front.specs.Fronted.{IsGreeted};

use crate::memory::{
    BINARY, HELLO, Memory, RESPONSE, TEXT, front, is_nothing, is_payload, request, written_to,
};
use chronicle::{Journal, Moment, RecordNumber, SessionId, Why};
use deliveries::{Delivery, Item, Text};
use line_grammar::Octets;
use registration::{Accounts, Settings};
use std::alloc::{AllocError, Global};
use std::process::Abort;
use std::test::Fail;
use websocket_front::{CloseCode, Front, FrontFault, Got, greet};

fn settings(alloc: Global) -> Settings {
    Settings {
        server: Octets::from_vec(Vec::new(alloc)),
        info: Octets::from_vec(Vec::new(alloc)),
        version: Octets::from_vec(Vec::new(alloc)),
        created: Moment::new(0),
        motd: None,
        accounts: Accounts::new(alloc),
        sessions: 1,
    }
}

fn item(alloc: Global, delivery: Delivery) -> Result<Item, AllocError> {
    let journal = Journal::with_limit(alloc, 1)?;
    let settings = settings(alloc);
    Ok(Item::new(delivery, SessionId::new(1), &journal, &settings))
}

/// An item of these octets.
fn lines(alloc: Global, octets: &[u8]) -> Result<Item, AllocError> {
    let text = Text::new(alloc, Octets::copy_of(alloc, octets)?)?;
    item(
        alloc,
        Delivery::Lines {
            number: RecordNumber::new(1),
            text,
        },
    )
}

/// What a client sends first, what is given and what is sent to it.
const READ: &[(&[u8], &[u8], &[u8])] = &[
    // 'Hello' in one frame, and in two (RFC 6455, section 5.7)
    (HELLO, b"Hello", b""),
    (
        b"\x01\x83\x00\x00\x00\x00Hel\x80\x82\x00\x00\x00\x00lo",
        b"Hello",
        b"",
    ),
    // a binary message
    (b"\x82\x82\x00\x00\x00\x00\xff\xfe", b"\xff\xfe", b""),
    // a ping of 'Hello' is answered
    (
        b"\x89\x85\x37\xfa\x21\x3d\x7f\x9f\x4d\x51\x58\x81\x81\x00\x00\x00\x00x",
        b"x",
        b"\x8a\x05Hello",
    ),
    // and a pong isn't
    (
        b"\x8a\x80\x00\x00\x00\x00\x81\x80\x00\x00\x00\x00",
        b"",
        b"",
    ),
];

/// Whether a client that sends this gives this payload and no other, and is sent this.
fn is_given(alloc: Global, sent: &[u8], payload: &[u8], answer: &[u8]) -> Result<bool, Fail> {
    let mut front = front(alloc, b"", sent)?;
    Ok(
        is_payload(&front.next(), payload)
            && written_to(&front, b"") == answer
            && is_nothing(&front.next()),
    )
}

/// `Hello` is read from one frame and from two (RFC 6455, section 5.7); a ping is answered with its own octets, a
/// pong isn't.
#[test]
fn payloads_are_given(rt: HostRuntime) -> Result<(), Fail> {
    for (sent, payload, answer) in READ {
        assert!(rt; is_given(rt.alloc(), sent, payload, answer)?);
    }
    Ok(())
}

/// What a client sends that breaks the protocol, and the close that it is sent.
const BROKEN: &[(&[u8], &[u8])] = &[
    // no mask
    (b"\x81\x05Hello", b"\x88\x02\x03\xea"),
    // a text that isn't UTF-8
    (b"\x81\x82\x00\x00\x00\x00\xff\xfe", b"\x88\x02\x03\xef"),
    // 8,193 octets
    (b"\x82\xfe\x20\x01\x00\x00\x00\x00", b"\x88\x02\x03\xf1"),
    // a continuation of nothing
    (b"\x80\x80\x00\x00\x00\x00", b"\x88\x02\x03\xea"),
];

/// Whether what a client sends is a fault of the protocol, at each call.
fn is_breach(front: &mut Front<Memory>) -> bool {
    matches!(front.next(), Err(FrontFault::Protocol))
}

/// Whether a client that sends this is sent this close, and nothing is read of it.
fn is_closed(alloc: Global, sent: &[u8], close: &[u8]) -> Result<bool, Fail> {
    let mut front = front(alloc, b"", sent)?;
    Ok(is_breach(&mut front) && written_to(&front, b"") == close && is_breach(&mut front))
}

/// A frame without a mask and a continuation of nothing are closed with 1002, text that isn't UTF-8 with 1007,
/// 8,193 octets with 1009; nothing is read after that.
#[test]
fn breaches_are_answered_by_a_close(rt: HostRuntime) -> Result<(), Fail> {
    for (sent, close) in BROKEN {
        assert!(rt; is_closed(rt.alloc(), sent, close)?);
    }
    Ok(())
}

/// Whether a client has closed.
fn has_closed(front: &mut Front<Memory>) -> bool {
    matches!(front.next(), Ok(Got::Closed))
}

/// A close is answered with its code; after one of our own the client's answer ends it.
#[test]
fn closes_are_answered(rt: HostRuntime) -> Result<(), Fail> {
    let mut front = front(rt.alloc(), b"", b"\x88\x82\x00\x00\x00\x00\x03\xe8")?;
    assert!(rt; has_closed(&mut front));
    assert!(rt; written_to(&front, b"") == b"\x88\x02\x03\xe8".as_slice());
    assert!(rt; has_closed(&mut front));
    Ok(())
}

/// A close is answered with its code; after one of our own the client's answer ends it.
#[test]
fn answer_to_a_close_of_our_own_ends_it(rt: HostRuntime) -> Result<(), Fail> {
    let mut front = front(rt.alloc(), b"", b"\x88\x82\x00\x00\x00\x00\x03\xe9")?;
    assert!(rt; front.close(CloseCode::Away) == Ok(()));
    assert!(rt; front.flush() == Ok(true));
    assert!(rt; written_to(&front, b"") == b"\x88\x02\x03\xe9".as_slice());
    assert!(rt; has_closed(&mut front));
    assert!(rt; written_to(&front, b"") == b"\x88\x02\x03\xe9".as_slice());
    Ok(())
}

/// An item's text, and what a text client and a binary one are sent.
const SENT: &[(&[u8], &[u8], &[u8])] = &[
    (
        b":bo!b@h2 PRIVMSG al :\xff\xfe\r\n",
        b"\x81\x1b:bo!b@h2 PRIVMSG al :\xef\xbf\xbd\xef\xbf\xbd",
        b"\x82\x17:bo!b@h2 PRIVMSG al :\xff\xfe",
    ),
    (
        b"a\r\nbc\r\n",
        b"\x81\x01a\x81\x02bc",
        b"\x82\x01a\x82\x02bc",
    ),
    (b"\r\n\r\n", b"\x81\x00\x81\x00", b"\x82\x00\x82\x00"),
    (
        b"a\rb\nc\r\r\nd",
        b"\x81\x06a\rb\nc\r\x81\x01d",
        b"\x82\x06a\rb\nc\r\x82\x01d",
    ),
    (b"", b"", b""),
];

/// Whether a client that was answered with this header is sent an item as these octets.
fn is_sent(alloc: Global, header: &[u8], item: &Item, wanted: &[u8]) -> Result<bool, Fail> {
    let mut front = front(alloc, header, b"")?;
    Ok(front.send_item(item, b"h1").is_ok() && written_to(&front, header) == wanted)
}

/// `:bo!b@h2 PRIVMSG al :` with the octets FF FE is 81 1B with U+FFFD twice on text, and 82 17 unchanged on binary;
/// a line a message, without CR LF; the last item is its ERROR line.
#[test]
fn each_line_is_a_message(rt: HostRuntime) -> Result<(), Fail> {
    let alloc = rt.alloc();
    for (text, as_text, as_binary) in SENT {
        let item = lines(alloc, text)?;
        assert!(rt; is_sent(alloc, TEXT, &item, as_text)?);
        assert!(rt; is_sent(alloc, BINARY, &item, as_binary)?);
    }
    Ok(())
}

/// `:bo!b@h2 PRIVMSG al :` with the octets FF FE is 81 1B with U+FFFD twice on text, and 82 17 unchanged on binary;
/// a line a message, without CR LF; the last item is its ERROR line.
#[test]
fn last_item_is_its_error_line(rt: HostRuntime) -> Result<(), Fail> {
    let alloc = rt.alloc();
    let delivery = Delivery::Last {
        number: RecordNumber::new(1),
        why: Why::ReadEnded,
    };
    let last = item(alloc, delivery)?;
    let wanted = b"\x81\x2bERROR :Closing Link: h1 (Connection closed)";
    assert!(rt; is_sent(alloc, b"", &last, wanted)?);
    Ok(())
}

/// Items that are put one after another wait in order, each line in a frame of its own, and go out by one flush.
#[test]
fn items_that_are_put_go_out_together(rt: HostRuntime) -> Result<(), Fail> {
    let alloc = rt.alloc();
    let (first, second) = (lines(alloc, b"a\r\nbc\r\n")?, lines(alloc, b"d\r\n")?);
    let mut front = front(alloc, BINARY, b"")?;
    assert!(rt; front.put_item(&first, b"h").is_ok());
    assert!(rt; front.is_ready());
    assert!(rt; front.put_item(&second, b"h").is_ok());
    assert!(rt; written_to(&front, BINARY) == b"".as_slice());
    assert!(rt; front.flush() == Ok(true));
    assert!(rt; written_to(&front, BINARY) == b"\x82\x01a\x82\x02bc\x82\x01d".as_slice());
    Ok(())
}

/// Some octets 2,000 times.
fn repeat(alloc: Global, octets: &[u8]) -> Result<Vec<u8>, AllocError> {
    let mut all = Vec::new(alloc);
    for _ in 0..2000 {
        all.extend_from_slice(octets)?;
    }
    Ok(all)
}

/// An item of 2,000 lines goes out whole and in order through 64 KiB of output.
#[test]
fn large_items_go_out_as_the_stream_takes_them(rt: HostRuntime) -> Result<(), Fail> {
    let alloc = rt.alloc();
    let text = repeat(
        alloc,
        b"0123456789012345678901234567890123456789012345678901234567890123456789\r\n",
    )?;
    let wanted = repeat(
        alloc,
        b"\x82\x460123456789012345678901234567890123456789012345678901234567890123456789",
    )?;
    let item = lines(alloc, &text)?;
    let mut front = front(alloc, BINARY, b"")?;
    assert!(rt; front.put_item(&item, b"h").is_ok());
    assert!(rt; !front.is_ready());
    assert!(rt; front.flush() == Ok(true));
    assert!(rt; front.is_ready());
    assert!(rt; written_to(&front, BINARY) == wanted.as_slice());
    Ok(())
}

/// A front whose stream takes so many octets more, and then nothing.
fn front_with_room(alloc: Global, room: usize) -> Result<Front<Memory>, Fail>
    ensures { IfOk result IsGreeted }
{
    let mut stream = request(alloc, b"", b"")?;
    stream.room = RESPONSE.len().saturating_add(2).saturating_add(room);
    match greet(alloc, stream) {
        Ok(front) => Ok(front),
        Err(_) => Err(Fail::from("refused")),
    }
}

/// Over a stream that takes three octets more, those go out and the rest waits; a call that waits gives up after
/// 1,024 tries.
#[test]
fn stream_that_takes_nothing_is_gone_on_with_later(rt: HostRuntime) -> Result<(), Fail> {
    let alloc = rt.alloc();
    let (first, second) = (lines(alloc, b"a\r\nbc\r\n")?, lines(alloc, b"d\r\n")?);
    let mut front = front_with_room(alloc, 3)?;
    assert!(rt; front.put_item(&first, b"h").is_ok());
    assert!(rt; front.flush() == Ok(false));
    assert!(rt; written_to(&front, b"") == b"\x81\x01a".as_slice());
    assert!(rt; front.is_ready());
    assert!(rt; front.send_item(&second, b"h") == Err(FrontFault::Io));
    assert!(rt; front.flush() == Err(FrontFault::Io));
    Ok(())
}
