//! The steps that tests take, each as a small value, and what became of each as another.
ghost use Rattle.std.specs.Prelude.{IfOk};
ghost use Rattle.interleave.specs.Steps.{IsWellShaped};

use crate::again::copy_of;
use crate::plays::Steps;
use casemapping::is_host;
use interleave::{
    Delivery, Done, Event, Moment, Naming, Note, Play, SessionId, StepRefusal, Why, WorkerId,
};
use std::alloc::{AllocError, Global};

/// An event by the numbers of its worker and its session.
#[derive(Clone, Copy)]
pub(crate) enum Act {
    Connect,
    Feed(u64, &'static str),
    Pick(u64, u64),
    Begin(u64),
    Put(u64),
    End(u64),
    Back(u64),
    Take(u64),
    Hang(u64, u64, Why),
    Sweep(u64),
    Tick(u64),
    Reap(u64),
}

/// What became of an event, by numbers.
#[derive(Clone, Copy, Debug, PartialEq)]
pub(crate) enum Outcome {
    Session(u64),
    Read(usize),
    Picked,
    Record(u64),
    Put(u64),
    Missed(u64),
    Done(u64),
    Back,
    Item(u64),
    Empty,
    Hung(u64),
    Swept(Option<u64>),
    Ticked(Option<u64>),
    Left(u64),
    Refused(StepRefusal),
}

/// The event by which a client connects.
fn connect(alloc: Global, moment: Moment) -> Result<Event, AllocError>
    ensures { IfOk result IsWellShaped }
{
    match copy_of(alloc, b"one.example") {
        Ok(host) if is_host(host.as_slice()) => Ok(Event::Connect { host, moment }),
        _ => Err(AllocError),
    }
}

/// The event of a reader.
fn feed(alloc: Global, session: SessionId, text: &str) -> Result<Event, AllocError>
    ensures { IfOk result IsWellShaped }
{
    match copy_of(alloc, text.as_bytes()) {
        Ok(octets) => Ok(Event::Feed { session, octets }),
        Err(_) => Err(AllocError),
    }
}

/// The event of a session's step that brings no octets. (Who comes has no number yet.)
fn session_event(act: Act) -> Event
    ensures { IsWellShaped result }
{
    match act {
        Act::Reap(session) => Event::Reap {
            session: SessionId::new(session),
        },
        Act::Take(session) | Act::Feed(session, _) => Event::Take {
            session: SessionId::new(session),
        },
        _ => Event::Take {
            session: SessionId::new(0),
        },
    }
}

/// The event of a step that brings no octets.
pub(crate) fn plain_event(act: Act, moment: Moment) -> Event
    ensures { IsWellShaped result }
{
    match act {
        Act::Pick(worker, session) => Event::Pick {
            worker: WorkerId::new(worker),
            session: SessionId::new(session),
        },
        Act::Begin(worker) => Event::Begin {
            worker: WorkerId::new(worker),
            moment,
        },
        Act::Put(worker) => Event::Put {
            worker: WorkerId::new(worker),
        },
        Act::End(worker) => Event::End {
            worker: WorkerId::new(worker),
        },
        Act::Back(worker) => Event::Back {
            worker: WorkerId::new(worker),
        },
        Act::Hang(worker, session, why) => Event::Hang {
            worker: WorkerId::new(worker),
            session: SessionId::new(session),
            why,
            moment,
        },
        Act::Sweep(worker) => Event::Sweep {
            worker: WorkerId::new(worker),
            moment,
        },
        Act::Tick(worker) => Event::Tick {
            worker: WorkerId::new(worker),
            moment,
        },
        _ => session_event(act),
    }
}

/// The event of a step.
fn event_of(alloc: Global, act: Act, at: i64) -> Result<Event, AllocError>
    ensures { IfOk result IsWellShaped }
{
    match act {
        Act::Connect => connect(alloc, Moment::new(at)),
        Act::Feed(session, text) => feed(alloc, SessionId::new(session), text),
        _ => Ok(plain_event(act, Moment::new(at))),
    }
}

/// The number of an item's record.
fn number_of(item: &Delivery) -> u64 {
    match item {
        Delivery::Lines { number, text: _ } => number.number(),
        Delivery::Last { number, why: _ } => number.number(),
    }
}

/// An answer by its numbers.
pub(crate) fn brief(answer: &Result<Note, StepRefusal>) -> Outcome {
    match answer {
        Ok(Note::Session(session)) => Outcome::Session(session.number()),
        Ok(Note::Read(lines)) => Outcome::Read(*lines),
        Ok(Note::Picked) => Outcome::Picked,
        Ok(Note::Record(number)) => Outcome::Record(number.number()),
        Ok(Note::Put(session)) => Outcome::Put(session.number()),
        Ok(Note::Missed(session)) => Outcome::Missed(session.number()),
        Ok(Note::Done(Done { number, .. })) => Outcome::Done(number.number()),
        Ok(Note::Back) => Outcome::Back,
        Ok(Note::Item(item)) => Outcome::Item(number_of(item)),
        Ok(Note::Empty) => Outcome::Empty,
        Ok(Note::Hung(hung)) => Outcome::Hung(hung.number.number()),
        Ok(Note::Swept(None)) => Outcome::Swept(None),
        Ok(Note::Swept(Some(number))) => Outcome::Swept(Some(number.number())),
        Ok(Note::Ticked(None)) => Outcome::Ticked(None),
        Ok(Note::Ticked(Some(number))) => Outcome::Ticked(Some(number.number())),
        Ok(Note::Left(count)) => Outcome::Left(*count),
        Err(refusal) => Outcome::Refused(*refusal),
    }
}

/// Takes a step, once more where there was no memory: one growth is refused at most.
fn step<L: Naming>(play: &mut Play<L>, event: &Event) -> Outcome
    requires { IsWellShaped event.now }
{
    match brief(&play.step(event)) {
        Outcome::Refused(StepRefusal::Memory) => brief(&play.step(event)),
        outcome => outcome,
    }
}

/// Takes a step. Where there is no memory for what it brings it is refused for that.
pub(crate) fn take_step<L: Naming>(
    alloc: Global,
    play: &mut Play<L>,
    act: Act,
    at: i64,
) -> Outcome {
    match event_of(alloc, act, at) {
        Ok(event) => step(play, &event),
        Err(_) => Outcome::Refused(StepRefusal::Memory),
    }
}

/// Takes steps in turn, and notes whether each came to what it is to.
pub(crate) fn compare<L: Naming>(
    alloc: Global,
    play: &mut Play<L>,
    table: &[(Act, Outcome)],
    steps: &mut Steps,
) {
    for (act, want) in table {
        steps.note(take_step(alloc, play, *act, 2000) == *want);
    }
}
