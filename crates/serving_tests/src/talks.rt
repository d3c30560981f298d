//! What clients say, and what they have to hear.
use crate::client::Client;
use crate::clocks::Dial;
use crate::gates::Turnstile;
use crate::running::is_served;
use std::alloc::Global;
use std::io;
use std::net::{Net, SocketAddr, TcpStream};
use std::test::Fail;
use std::time::Clock;

/// What is talked about.
#[derive(Clone, Copy)]
pub(crate) enum Story {
    /// Two people are in a channel; one speaks, the other leaves.
    TwoPeople,
    /// Two ask at once, each of whose lines has to wait for the other's.
    AtOnce,
    /// One comes by WebSocket, asks and leaves.
    ByWebSocket,
    /// One is silent by a clock that is set by hand, answers a PING, and is silent once more.
    Silence,
    /// An hour passes at once by such a clock; of two who were silent meanwhile one answers a PING.
    Jump,
}

/// A client that has registered.
fn register<R: Net<Stream = TcpStream>>(
    rt: &R,
    alloc: Global,
    address: SocketAddr,
    lines: &[u8],
) -> io::Result<Option<Client>> {
    let mut client = Client::connect(rt, alloc, address)?;
    client.send(lines)?;
    if client.hears_end(alloc, b":MOTD File is missing\r\n")? {
        Ok(Some(client))
    } else {
        Ok(None)
    }
}

/// Whether two people in a channel hear each other, octet for octet, and who leaves is seen to.
fn two_people(alloc: Global, al: &mut Client, bo: &mut Client) -> io::Result<bool> {
    al.send(b"JOIN #a\r\n")?;
    let al_is_in = al.hears(alloc, b":al!a@127.0.0.1 JOIN #a")?
        && al.hears(alloc, b":irc.example 353 al = #a :@al")?
        && al.hears(alloc, b":irc.example 366 al #a :End of NAMES list")?;
    bo.send(b"JOIN #a\r\n")?;
    let bo_is_in = bo.hears(alloc, b":bo!b@127.0.0.1 JOIN #a")?
        && bo.hears(alloc, b":irc.example 353 bo = #a :@al bo")?
        && bo.hears(alloc, b":irc.example 366 bo #a :End of NAMES list")?
        && al.hears(alloc, b":bo!b@127.0.0.1 JOIN #a")?;
    bo.send(b"PRIVMSG #a :hi \xFF\xFE\r\n")?;
    let is_heard = al.hears(alloc, b":bo!b@127.0.0.1 PRIVMSG #a :hi \xFF\xFE")?;
    al.send(b"QUIT\r\n")?;
    let is_told = al.hears(alloc, b"ERROR :Closing Link: 127.0.0.1 (Client Quit)")?;
    let is_seen = bo.hears(alloc, b":al!a@127.0.0.1 QUIT :Client Quit")?;
    Ok(al_is_in && bo_is_in && is_heard && is_told && is_seen)
}

/// Whether both are answered, though a gate lets the line of one go only with that of the other.
fn at_once<R: Clock + Drop>(
    alloc: Global,
    gate: &Turnstile<R>,
    al: &mut Client,
    bo: &mut Client,
) -> io::Result<bool> {
    gate.close();
    al.send(b"PING x\r\n")?;
    bo.send(b"PING y\r\n")?;
    let are_answered = al.hears(alloc, b":irc.example PONG irc.example x")?
        && bo.hears(alloc, b":irc.example PONG irc.example y")?;
    Ok(are_answered && gate.has_served())
}

/// A request that opens a WebSocket, as RFC 6455 has it in section 1.3.
const REQUEST: &[u8] = b"GET /chat HTTP/1.1\r\nHost: server.example.com\r\nUpgrade: websocket\r\n\
        Connection: Upgrade\r\nSec-WebSocket-Key: dGhlIHNhbXBsZSBub25jZQ==\r\n\
        Sec-WebSocket-Version: 13\r\n\r\n";

/// Whether a session that comes by WebSocket and isn't registered is answered, and told of its end.
fn by_websocket<R: Net<Stream = TcpStream>>(
    rt: &R,
    alloc: Global,
    address: SocketAddr,
) -> io::Result<bool> {
    let mut client = Client::connect(rt, alloc, address)?;
    client.send(REQUEST)?;
    let is_greeted = client.hears(alloc, b"HTTP/1.1 101 Switching Protocols")?
        && client.hears_end(alloc, b": s3pPLMBiTxaQ9kYGzzhZRbK+xOo=\r\n")?
        && client.hears(alloc, b"")?;
    client.send(b"\x81\x86\x00\x00\x00\x00PING x")?;
    let is_answered = client.receives(alloc, b"\x81\x1f:irc.example PONG irc.example x")?;
    client.send(b"\x81\x84\x00\x00\x00\x00QUIT")?;
    let is_told = client.receives(
        alloc,
        b"\x81\x2cERROR :Closing Link: 127.0.0.1 (Client Quit)\x88\x02\x03\xe8",
    )?;
    Ok(is_greeted && is_answered && is_told)
}

/// So many milliseconds pass, and somebody connects, which wakes the thread that accepts. Whether a client then hears
/// a line.
fn hears_after<R: Net<Stream = TcpStream>>(
    rt: &R,
    alloc: Global,
    address: SocketAddr,
    dial: &Dial,
    passed: i64,
    client: &mut Client,
    line: &[u8],
) -> io::Result<bool> {
    dial.move_on(passed);
    let knocks = Client::connect(rt, alloc, address)?;
    let is_heard = client.hears(alloc, line)?;
    drop(knocks);
    Ok(is_heard)
}

/// What a client is sent that is silent, and at last.
const PING: &[u8] = b":irc.example PING irc.example";

const END: &[u8] = b"ERROR :Closing Link: 127.0.0.1 (Ping timeout)";

/// A client whose PING was answered.
fn answer_to<R: Net<Stream = TcpStream>>(
    rt: &R,
    alloc: Global,
    address: SocketAddr,
) -> io::Result<Option<Client>> {
    let mut client = Client::connect(rt, alloc, address)?;
    client.send(b"PING x\r\n")?;
    if client.hears(alloc, b":irc.example PONG irc.example x")? {
        Ok(Some(client))
    } else {
        Ok(None)
    }
}

/// Whether a session that is silent for two minutes is pinged, once more two minutes after it answered, and ended
/// after four: by the beat after that of which another hears, since one that comes so late ends nobody.
fn silence<R: Net<Stream = TcpStream>>(
    rt: &R,
    alloc: Global,
    address: SocketAddr,
    dial: &Dial,
) -> io::Result<bool> {
    let Some(mut client) = answer_to(rt, alloc, address)? else {
        return Ok(false);
    };
    let is_pinged = hears_after(rt, alloc, address, dial, 120_000, &mut client, PING)?;
    client.send(b"PONG irc.example\r\nPING y\r\n")?;
    let is_heard = client.hears(alloc, b":irc.example PONG irc.example y")?;
    let again = hears_after(rt, alloc, address, dial, 120_000, &mut client, PING)?;
    let Some(mut other) = answer_to(rt, alloc, address)? else {
        return Ok(false);
    };
    let is_late = hears_after(rt, alloc, address, dial, 120_000, &mut other, PING)?;
    let is_ended = hears_after(rt, alloc, address, dial, 10_000, &mut client, END)?;
    Ok(is_pinged && is_heard && again && is_late && is_ended)
}

/// Whether after an hour in which nobody could be heard who answers a PING goes on, and who doesn't is ended by the
/// beat after that.
fn jump<R: Net<Stream = TcpStream>>(
    rt: &R,
    alloc: Global,
    address: SocketAddr,
    dial: &Dial,
    al: &mut Client,
    bo: &mut Client,
) -> io::Result<bool> {
    let are_pinged = hears_after(rt, alloc, address, dial, 3_600_000, al, PING)?
        && bo.hears(alloc, PING)?;
    al.send(b"PING x\r\n")?;
    let is_heard = al.hears(alloc, b":irc.example PONG irc.example x")?;
    let is_ended = hears_after(rt, alloc, address, dial, 10_000, bo, END)?;
    al.send(b"PING y\r\n")?;
    let goes_on = al.hears(alloc, b":irc.example PONG irc.example y")?;
    Ok(are_pinged && is_heard && is_ended && goes_on)
}

/// Two clients that have registered.
fn both<R: Net<Stream = TcpStream>>(
    rt: &R,
    alloc: Global,
    address: SocketAddr,
) -> io::Result<Option<(Client, Client)>> {
    let al = register(rt, alloc, address, b"NICK al\r\nUSER a 0 * :Al\r\n")?;
    let bo = register(rt, alloc, address, b"NICK bo\r\nUSER b 0 * :Bo\r\n")?;
    match (al, bo) {
        (Some(al), Some(bo)) => Ok(Some((al, bo))),
        _ => Ok(None),
    }
}

/// Whether all is heard as it should be.
pub(crate) fn talk<R: Clock + Drop + Net<Stream = TcpStream>>(
    rt: &R,
    alloc: Global,
    address: SocketAddr,
    gate: &Turnstile<R>,
    dial: &Dial,
    story: Story,
) -> io::Result<bool> {
    match story {
        Story::ByWebSocket => return by_websocket(rt, alloc, address),
        Story::Silence => return silence(rt, alloc, address, dial),
        Story::TwoPeople | Story::AtOnce | Story::Jump => {}
    }
    let Some((mut al, mut bo)) = both(rt, alloc, address)? else {
        return Ok(false);
    };
    match story {
        Story::AtOnce => at_once(alloc, gate, &mut al, &mut bo),
        Story::Jump => jump(rt, alloc, address, dial, &mut al, &mut bo),
        _ => two_people(alloc, &mut al, &mut bo),
    }
}

/// Over the loopback two people are on a channel, octets that are no UTF-8 arrive unchanged, who quits reads
/// `ERROR`, and the other reads its `QUIT`.
#[test]
fn two_people_talk_over_the_loopback(rt: HostRuntime) -> Result<(), Fail> {
    let gate = Turnstile::new(rt);
    assert!(rt; is_served(&rt, rt.alloc(), &gate, Story::TwoPeople)?);
    Ok(())
}

/// Over the loopback a message `PING x` of a session that isn't registered is answered by the message `:irc.example
/// PONG irc.example x`; `QUIT` by its ERROR line and a close with 1000.
#[test]
fn ping_by_websocket_is_answered(rt: HostRuntime) -> Result<(), Fail> {
    let gate = Turnstile::new(rt);
    assert!(rt; is_served(&rt, rt.alloc(), &gate, Story::ByWebSocket)?);
    Ok(())
}

/// Over the loopback a client that is silent is pinged, pinged again after an answer, and ended.
#[test]
fn who_is_silent_is_pinged_and_then_ended(rt: HostRuntime) -> Result<(), Fail> {
    let gate = Turnstile::new(rt);
    assert!(rt; is_served(&rt, rt.alloc(), &gate, Story::Silence)?);
    Ok(())
}

/// After an hour in which nobody could be heard who answers a PING goes on, and who doesn't is ended by a later beat.
#[test]
fn who_answers_after_an_hour_that_jumped_by_goes_on(rt: HostRuntime) -> Result<(), Fail> {
    let gate = Turnstile::new(rt);
    assert!(rt; is_served(&rt, rt.alloc(), &gate, Story::Jump)?);
    Ok(())
}

/// A server with two workers answers two clients at once, each of whose lines waits for the other's.
#[test]
fn lines_of_two_are_done_at_once(rt: HostRuntime) -> Result<(), Fail> {
    let gate = Turnstile::new(rt);
    assert!(rt; is_served(&rt, rt.alloc(), &gate, Story::AtOnce)?);
    Ok(())
}
