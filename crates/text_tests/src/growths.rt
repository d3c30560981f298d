//! Growths that are refused while an answer is wrapped and rendered, or a moment is told: the same call with memory
//! answers what it is to.
use crate::again::twice;
use chronicle::{Moment, RecordMoment, RecordNumber};
use labels_batches::{Receiver, Tagged, answer_text, render, wrap};
use line_grammar::Octets;
use numerics::{Line, TimeFault, time_text};
use registration::{Cap, Caps};
use std::alloc::{AllocError, Global};
use std::test::Fail;

/// A line `:x PONG y` with a tag of another client.
fn line(alloc: Global) -> Result<Line, AllocError> {
    let line = Line::new(alloc, b"x", b"PONG", &[b"y"])?;
    Ok(line.with_tags(Octets::copy_of(alloc, b"+k=v")?))
}

/// So many of it.
fn lines(alloc: Global, count: usize) -> Result<Vec<Line>, AllocError> {
    let mut lines = Vec::new(alloc);
    for _ in 0..count {
        lines.push(line(alloc)?)?;
    }
    Ok(lines)
}

/// So many lines that answer the label `l;`, and so many copies, in record 10.
fn wrap_lines(alloc: Global, reply: usize, copies: usize) -> Result<Vec<Tagged>, AllocError> {
    let label = Octets::copy_of(alloc, b"l;")?;
    let reply = lines(alloc, reply)?;
    let copies = lines(alloc, copies)?;
    wrap(
        alloc,
        b"x",
        Some(&label),
        RecordNumber::new(10),
        reply,
        copies,
    )
}

/// How many lines an answer has and how many copies there are, and all as a receiver of tags and moments takes it.
const ANSWERS: [(usize, usize, &str); 4] = [
    (0, 0, "@label=l\\:;time=2000-02-29T00:00:00.123Z :x ACK\r\n"),
    (
        1,
        0,
        "@label=l\\:;time=2000-02-29T00:00:00.123Z;+k=v :x PONG y\r\n",
    ),
    (
        1,
        1,
        "@label=l\\:;time=2000-02-29T00:00:00.123Z;+k=v :x PONG y\r\n\
         @time=2000-02-29T00:00:00.123Z;+k=v :x PONG y\r\n",
    ),
    (
        2,
        1,
        "@label=l\\:;time=2000-02-29T00:00:00.123Z :x BATCH +10 labeled-response\r\n\
         @batch=10;time=2000-02-29T00:00:00.123Z;+k=v :x PONG y\r\n\
         @batch=10;time=2000-02-29T00:00:00.123Z;+k=v :x PONG y\r\n\
         @time=2000-02-29T00:00:00.123Z :x BATCH -10\r\n\
         @time=2000-02-29T00:00:00.123Z;+k=v :x PONG y\r\n",
    ),
];

/// The moment of the record.
fn moment() -> RecordMoment {
    match RecordMoment::of(Moment::new(951782400123)) {
        Some(moment) => moment,
        None => unreachable!(),
    }
}

/// The text of an answer.
fn text(alloc: Global, reply: usize, copies: usize) -> Result<Octets, AllocError> {
    let caps = Caps::none().with(Cap::ServerTime).with(Cap::MessageTags);
    let tagged = twice(|| wrap_lines(alloc, reply, copies))?;
    twice(|| render(alloc, &tagged, caps, moment()))
}

/// The same, spelled from its lines.
fn spell(alloc: Global, reply: usize, copies: usize) -> Result<Octets, AllocError> {
    let to = Receiver {
        caps: Caps::none().with(Cap::ServerTime).with(Cap::MessageTags),
        moment: moment(),
    };
    let label = Octets::copy_of(alloc, b"l;")?;
    let reply = lines(alloc, reply)?;
    let copies = lines(alloc, copies)?;
    let number = RecordNumber::new(10);
    answer_text(alloc, b"x", Some(label), number, reply, &copies, &to)
}

/// An answer is spelled with its label, and its copies without one, also where an allocation failed before.
#[test]
fn answers_are_spelled_whole(rt: HostRuntime) -> Result<(), Fail> {
    for (reply, copies, want) in &ANSWERS {
        let text = twice(|| spell(rt.alloc(), *reply, *copies))?;
        assert_eq!(rt; text.as_slice(), want.as_bytes(), "{reply} {copies}");
    }
    Ok(())
}

/// The same in two steps, wrapped and then rendered.
#[test]
fn answers_are_whole(rt: HostRuntime) -> Result<(), Fail> {
    for (reply, copies, want) in &ANSWERS {
        let text = text(rt.alloc(), *reply, *copies)?;
        assert_eq!(rt; text.as_slice(), want.as_bytes(), "{reply} {copies}");
    }
    Ok(())
}

/// The text of a moment, once more where a growth was refused.
fn time(alloc: Global, at: i64) -> Result<Octets, TimeFault> {
    match time_text(alloc, at) {
        Err(TimeFault::Memory) => time_text(alloc, at),
        answer => answer,
    }
}

/// A leap day is printed to the millisecond, a moment below 0 isn't, also where an allocation failed before.
#[test]
fn moments_are_texts(rt: HostRuntime) -> Result<(), Fail> {
    let text = time(rt.alloc(), 951782400123).ok().ok_or("a text")?;
    assert_eq!(rt; text.as_slice(), b"2000-02-29T00:00:00.123Z".as_slice());
    assert_eq!(rt; time(rt.alloc(), -1).err(), Some(TimeFault::OutOfRange));
    Ok(())
}
