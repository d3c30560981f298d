//! A run: each of its events is answered as if it had come alone.
ghost use Rattle.interleave.specs.Steps.{IsWellShaped};

use crate::acts::{Act, Outcome, brief, compare, plain_event};
use crate::plays::{Steps, Story, tell_story};
use interleave::{Event, Moment, Naming, Note, Play, StepRefusal};
use std::alloc::{AllocError, Global};

/// Al and bo register by the records 3 to 6, and each has a line that nobody picked.
const START: [(Act, Outcome); 18] = [
    (Act::Connect, Outcome::Session(1)),
    (Act::Connect, Outcome::Session(2)),
    (
        Act::Feed(1, "NICK al\r\nUSER a 0 * :Al\r\nPING x\r\n"),
        Outcome::Read(3),
    ),
    (
        Act::Feed(2, "NICK bo\r\nUSER b 0 * :Bo\r\nPING y\r\n"),
        Outcome::Read(3),
    ),
    (Act::Pick(1, 1), Outcome::Picked),
    (Act::Begin(1), Outcome::Record(3)),
    (Act::End(1), Outcome::Done(3)),
    (Act::Pick(1, 1), Outcome::Picked),
    (Act::Begin(1), Outcome::Record(4)),
    (Act::Put(1), Outcome::Put(1)),
    (Act::End(1), Outcome::Done(4)),
    (Act::Pick(1, 2), Outcome::Picked),
    (Act::Begin(1), Outcome::Record(5)),
    (Act::End(1), Outcome::Done(5)),
    (Act::Pick(1, 2), Outcome::Picked),
    (Act::Begin(1), Outcome::Record(6)),
    (Act::Put(1), Outcome::Put(2)),
    (Act::End(1), Outcome::Done(6)),
];

/// Two workers share the lock, in three runs.
const RUNS: [[(Act, Outcome); 6]; 3] = [
    [
        (Act::Pick(1, 1), Outcome::Picked),
        (Act::Pick(2, 1), Outcome::Refused(StepRefusal::InFlight)),
        (Act::Pick(1, 2), Outcome::Refused(StepRefusal::HasJob)),
        (Act::Pick(2, 2), Outcome::Picked),
        (Act::Begin(1), Outcome::Record(7)),
        (Act::Begin(2), Outcome::Refused(StepRefusal::Locked)),
    ],
    [
        (Act::End(1), Outcome::Refused(StepRefusal::PutsLeft)),
        (Act::Put(2), Outcome::Refused(StepRefusal::NotHolding)),
        (Act::Put(1), Outcome::Put(1)),
        (Act::Put(1), Outcome::Refused(StepRefusal::NothingLeft)),
        (Act::End(1), Outcome::Done(7)),
        (Act::Begin(2), Outcome::Record(8)),
    ],
    [
        (Act::Put(2), Outcome::Put(2)),
        (Act::End(2), Outcome::Done(8)),
        (Act::Begin(2), Outcome::Refused(StepRefusal::NoJob)),
        (Act::Pick(1, 1), Outcome::Refused(StepRefusal::NothingRead)),
        (Act::Pick(3, 1), Outcome::Refused(StepRefusal::NoWorker)),
        (Act::Take(9), Outcome::Refused(StepRefusal::NoSession)),
    ],
];

/// The event of a step.
fn event(step: (Act, Outcome)) -> Event
    ensures { IsWellShaped result }
{
    plain_event(step.0, Moment::new(2000))
}

/// Takes the events of a run at once.
fn run<L: Naming>(
    play: &mut Play<L>,
    [one, two, three, four, five, six]: [(Act, Outcome); 6],
) -> Result<Vec<Result<Note, StepRefusal>>, AllocError> {
    let events = [
        event(one),
        event(two),
        event(three),
        event(four),
        event(five),
        event(six),
    ];
    play.run(&events)
}

/// Whether each event of a run came to what it is to; nothing where there was no memory for one.
fn are_answered(notes: &[Result<Note, StepRefusal>], events: &[(Act, Outcome); 6]) -> Option<bool> {
    let mut is_right = notes.len() == events.len();
    for (note, (_, want)) in notes.iter().zip(events.iter()) {
        let outcome = brief(note);
        if outcome == Outcome::Refused(StepRefusal::Memory) {
            return None;
        }
        is_right = outcome == *want && is_right;
    }
    Some(is_right)
}

/// Takes a run, and notes whether its events came to what they are to. It answers whether there was memory for all.
fn compare_run<L: Naming>(
    play: &mut Play<L>,
    events: &[(Act, Outcome); 6],
    steps: &mut Steps,
) -> bool {
    match run(play, *events) {
        Ok(notes) => match are_answered(notes.as_slice(), events) {
            Some(is_right) => {
                steps.note(is_right);
                true
            }
            None => false,
        },
        Err(_) => false,
    }
}

/// Al and bo come, and two workers take their lines.
pub(crate) fn tell<L: Naming>(alloc: Global, play: &mut Play<L>, steps: &mut Steps) -> bool {
    compare(alloc, play, &START, steps);
    for events in &RUNS {
        if !compare_run(play, events, steps) {
            return false;
        }
    }
    true
}

/// Two workers share the lock; each refusal comes by its name, also where the events are taken in runs.
#[test]
fn each_event_of_a_run_is_answered(rt: HostRuntime) {
    tell_story(&rt, rt.alloc(), Story::Run);
}
