//! Handshakes.

use crate::memory::{
    BINARY, HELLO, Memory, REQUEST, RESPONSE, TEXT, front, is_nothing, is_payload, request,
};
use std::alloc::Global;
use std::process::Abort;
use std::test::Fail;
use websocket_front::{Front, GreetFault, Greeted, Handshake, Subprotocol, greet};

/// Offers, and what is answered to them.
const OFFERS: &[(&[u8], &[u8], Subprotocol)] = &[
    (b"", b"", Subprotocol::Text),
    (
        b"Sec-WebSocket-Protocol: text.ircv3.net\r\n",
        TEXT,
        Subprotocol::Text,
    ),
    (
        b"Sec-WebSocket-Protocol: binary.ircv3.net\r\n",
        BINARY,
        Subprotocol::Binary,
    ),
    (b"Sec-WebSocket-Protocol: chat\r\n", b"", Subprotocol::Text),
    (
        b"Sec-WebSocket-Protocol: binary.ircv3.net, text.ircv3.net\r\n",
        BINARY,
        Subprotocol::Binary,
    ),
    (
        b"Sec-WebSocket-Protocol: text.ircv3.net,binary.ircv3.net\r\n",
        TEXT,
        Subprotocol::Text,
    ),
    (
        b"sec-websocket-protocol: chat\r\nSEC-WEBSOCKET-PROTOCOL: superchat ,\tbinary.ircv3.net\r\n",
        BINARY,
        Subprotocol::Binary,
    ),
    (
        b"Sec-WebSocket-Protocol: Text.ircv3.net\r\nSec-WebSocket-Protocol: text.ircv3.net\r\n\
            Sec-WebSocket-Protocol: binary.ircv3.net\r\n",
        TEXT,
        Subprotocol::Text,
    ),
];

/// Whether a request with these headers is answered with this one, and so served.
fn is_answered(
    alloc: Global,
    headers: &[u8],
    answer: &[u8],
    subprotocol: Subprotocol,
) -> Result<bool, Fail> {
    let mut wanted = RESPONSE.to_vec(alloc)?;
    wanted.extend_from_slice(answer)?;
    wanted.extend_from_slice(b"\r\n")?;
    let front = front(alloc, headers, b"")?;
    let is_answered = front.stream().output.as_slice() == wanted.as_slice();
    Ok(is_answered && front.subprotocol() == subprotocol)
}

/// A request is answered as in RFC 6455, section 1.3; the first offer that is served is chosen and answered, also
/// of several headers, whatever else is offered; with none, text is served.
#[test]
fn first_offer_that_is_served_is_chosen(rt: HostRuntime) -> Result<(), Fail> {
    for (headers, answer, subprotocol) in OFFERS {
        assert!(rt; is_answered(rt.alloc(), headers, answer, *subprotocol)?);
    }
    Ok(())
}

/// Requests that open no WebSocket: one that asks for none, one with a short key, one of another version, and one with
/// a frame after it.
const REFUSED: &[&[u8]] = &[
    b"GET / HTTP/1.1\r\nHost: a\r\n\r\n",
    b"GET /chat HTTP/1.1\r\nUpgrade: websocket\r\nConnection: Upgrade\r\n\
        Sec-WebSocket-Key: dGhl\r\nSec-WebSocket-Version: 13\r\n\r\n",
    b"GET /chat HTTP/1.1\r\nUpgrade: websocket\r\nConnection: Upgrade\r\n\
        Sec-WebSocket-Key: dGhlIHNhbXBsZSBub25jZQ==\r\nSec-WebSocket-Version: 8\r\n\r\n",
    b"GET /chat HTTP/1.1\r\nUpgrade: websocket\r\nConnection: Upgrade\r\n\
        Sec-WebSocket-Key: dGhlIHNhbXBsZSBub25jZQ==\r\nSec-WebSocket-Version: 13\r\n\r\n\
        \x89\x80\x00\x00\x00\x00",
];

/// Why the client of a stream isn't greeted, if it isn't.
fn fault_of(alloc: Global, stream: Memory) -> Option<GreetFault> {
    match greet(alloc, stream) {
        Ok(_) => None,
        Err(why) => Some(why.fault()),
    }
}

/// A request that isn't one, one without upgrade, with a short key or of another version, one that a frame follows,
/// and one that comes an octet at a time are refused.
#[test]
fn requests_that_open_none_are_refused(rt: HostRuntime) -> Result<(), Fail> {
    let alloc = rt.alloc();
    for octets in REFUSED {
        let stream = Memory::new(alloc, &[octets])?;
        assert!(rt; fault_of(alloc, stream) == Some(GreetFault::Handshake));
    }
    Ok(())
}

/// Heads without shape: no request, and one with a space in a header's name.
const SHAPELESS: &[&[u8]] = &[b"NICK bo\r\n", b"GET / HTTP/1.1\r\nHo st: a\r\n\r\n"];

/// A request that isn't one, one without upgrade, with a short key or of another version, one that a frame follows,
/// and one that comes an octet at a time are refused.
#[test]
fn heads_without_shape_are_told_apart(rt: HostRuntime) -> Result<(), Fail> {
    let alloc = rt.alloc();
    for octets in SHAPELESS {
        let stream = Memory::new(alloc, &[octets])?;
        assert!(rt; fault_of(alloc, stream) == Some(GreetFault::Head));
    }
    Ok(())
}

/// A request that isn't one, one without upgrade, with a short key or of another version, one that a frame follows,
/// and one that comes an octet at a time are refused.
#[test]
fn request_an_octet_at_a_time_is_refused(rt: HostRuntime) -> Result<(), Fail> {
    let alloc = rt.alloc();
    let mut slow = request(alloc, b"", b"")?;
    slow.give = 1;
    assert!(rt; fault_of(alloc, slow) == Some(GreetFault::Handshake));
    Ok(())
}

/// A stream that ends, or has nothing, in the middle of a request is its own fault.
#[test]
fn streams_that_end_or_stop_are_faults_of_theirs(rt: HostRuntime) -> Result<(), Fail> {
    let alloc = rt.alloc();
    let mut ended = Memory::new(alloc, &[REQUEST])?;
    ended.ends = true;
    assert!(rt; fault_of(alloc, ended) == Some(GreetFault::Io));
    let waits = Memory::new(alloc, &[REQUEST])?;
    assert!(rt; fault_of(alloc, waits) == Some(GreetFault::Io));
    Ok(())
}

/// A front by as many calls as a stream wants that would block once; nothing where it is refused.
fn greet_slowly(greeting: Handshake<Memory>) -> Option<Front<Memory>> {
    let later = match greeting.go_on() {
        Ok(Greeted::Done(front)) => return Some(front),
        Ok(Greeted::Later(greeting)) => greeting,
        Err(_) => return None,
    };
    match later.go_on() {
        Ok(Greeted::Done(front)) => Some(front),
        _ => None,
    }
}

/// Whether the next payload is 'Hello', at once or after a stream that has nothing.
fn hears_hello(front: &mut Front<Memory>) -> bool {
    let first = front.next();
    if is_nothing(&first) {
        return is_payload(&front.next(), b"Hello");
    }
    is_payload(&first, b"Hello")
}

/// Whether a client is greeted and heard whose stream would block once at this octet, and takes seven at a time.
fn is_heard_when_cut(alloc: Global, cut: usize) -> Result<bool, Fail> {
    let mut stream = request(alloc, b"", HELLO)?;
    stream.cut = cut;
    stream.most = 7;
    let Some(mut front) = greet_slowly(Handshake::new(alloc, stream)) else {
        return Ok(false);
    };
    Ok(hears_hello(&mut front) && is_nothing(&front.next()))
}

/// A handshake and a frame go on after a stream that would block at any octet, over one that takes seven octets at
/// a time.
#[test]
fn handshake_and_frames_may_be_cut_anywhere(rt: HostRuntime) -> Result<(), Fail> {
    let whole = REQUEST.len().saturating_add(13);
    for cut in 0..whole {
        assert!(rt; is_heard_when_cut(rt.alloc(), cut)?);
    }
    Ok(())
}
