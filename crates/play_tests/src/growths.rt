//! Growths that are refused: a labelled line for which there is no memory changes nothing, and is accepted when it
//! comes again.
ghost use Rattle.interleave.specs.Steps.{IsWellShaped};

use crate::acts::{Act, Outcome, brief, compare};
use crate::again::copy_of;
use crate::plays::{Steps, Story, tell_story};
use interleave::{Delivery, Event, Moment, Naming, Note, Play, SessionId, StepRefusal, WorkerId};
use std::alloc::Global;

/// Al asks for labels and moments, and registers: records 1 to 5.
const AL: [(Act, Outcome); 20] = [
    (Act::Connect, Outcome::Session(1)),
    (
        Act::Feed(
            1,
            "CAP REQ :batch labeled-response server-time\r\nNICK al\r\nUSER a 0 * :Al\r\nCAP END\r\n",
        ),
        Outcome::Read(4),
    ),
    (Act::Pick(1, 1), Outcome::Picked),
    (Act::Begin(1), Outcome::Record(2)),
    (Act::Put(1), Outcome::Put(1)),
    (Act::End(1), Outcome::Done(2)),
    (Act::Take(1), Outcome::Item(2)),
    (Act::Pick(1, 1), Outcome::Picked),
    (Act::Begin(1), Outcome::Record(3)),
    (Act::End(1), Outcome::Done(3)),
    (Act::Pick(1, 1), Outcome::Picked),
    (Act::Begin(1), Outcome::Record(4)),
    (Act::End(1), Outcome::Done(4)),
    (Act::Pick(1, 1), Outcome::Picked),
    (Act::Begin(1), Outcome::Record(5)),
    (Act::Put(1), Outcome::Put(1)),
    (Act::End(1), Outcome::Done(5)),
    (Act::Take(1), Outcome::Item(5)),
    (Act::Take(1), Outcome::Empty),
    (Act::Put(1), Outcome::Refused(StepRefusal::NotHolding)),
];

/// Bo registers and makes a channel: records 6 to 9.
const BO: [(Act, Outcome); 17] = [
    (Act::Connect, Outcome::Session(2)),
    (
        Act::Feed(2, "NICK bo\r\nUSER b 0 * :Bo\r\nJOIN #a\r\n"),
        Outcome::Read(3),
    ),
    (Act::Pick(1, 2), Outcome::Picked),
    (Act::Begin(1), Outcome::Record(7)),
    (Act::End(1), Outcome::Done(7)),
    (Act::Pick(1, 2), Outcome::Picked),
    (Act::Begin(1), Outcome::Record(8)),
    (Act::Put(1), Outcome::Put(2)),
    (Act::End(1), Outcome::Done(8)),
    (Act::Take(2), Outcome::Item(8)),
    (Act::Pick(1, 2), Outcome::Picked),
    (Act::Begin(1), Outcome::Record(9)),
    (Act::Put(1), Outcome::Put(2)),
    (Act::End(1), Outcome::Done(9)),
    (Act::Take(2), Outcome::Item(9)),
    (Act::Take(1), Outcome::Empty),
    (Act::Take(2), Outcome::Empty),
];

const PICK: [(Act, Outcome); 1] = [(Act::Pick(1, 1), Outcome::Picked)];

/// What the record owes is put.
const PUTS: [(Act, Outcome); 4] = [
    (Act::Put(1), Outcome::Put(1)),
    (Act::Put(1), Outcome::Put(2)),
    (Act::Put(1), Outcome::Refused(StepRefusal::NothingLeft)),
    (Act::End(1), Outcome::Done(10)),
];

const TO_AL: &str = "\
@label=j;time=1970-01-01T00:00:02.000Z :irc.example BATCH +10 labeled-response\r\n\
@batch=10;time=1970-01-01T00:00:02.000Z :al!a@one.example JOIN #a\r\n\
@batch=10;time=1970-01-01T00:00:02.000Z :irc.example 353 al = #a :@bo al\r\n\
@batch=10;time=1970-01-01T00:00:02.000Z :irc.example 366 al #a :End of NAMES list\r\n\
@time=1970-01-01T00:00:02.000Z :irc.example BATCH -10\r\n";

const TO_BO: &str = ":al!a@one.example JOIN #a\r\n";

/// Whether nothing waits for a session.
fn has_nothing<L: Naming>(play: &mut Play<L>, session: u64) -> bool {
    let session = SessionId::new(session);
    matches!(play.step(&Event::Take { session }), Ok(Note::Empty))
}

/// Whether nobody holds the lock.
fn is_free<L: Naming>(play: &mut Play<L>) -> bool {
    let worker = WorkerId::new(1);
    matches!(
        play.step(&Event::Put { worker }),
        Err(StepRefusal::NotHolding)
    )
}

/// What becomes of a step, which is taken once more where a growth was refused: then there are as many records as
/// before, and nothing was put.
fn step_again<L: Naming>(play: &mut Play<L>, event: &Event, steps: &mut Steps) -> Outcome
    requires { IsWellShaped event.now }
{
    let records = play.ledger().len();
    let outcome = brief(&play.step(event));
    if outcome != Outcome::Refused(StepRefusal::Memory) {
        return outcome;
    }
    let is_same = play.ledger().len() == records;
    steps.note(is_same && is_free(play) && has_nothing(play, 1) && has_nothing(play, 2));
    brief(&play.step(event))
}

/// Al's line is read.
fn read<L: Naming>(alloc: Global, play: &mut Play<L>, steps: &mut Steps) {
    let session = SessionId::new(1);
    match copy_of(alloc, b"@label=j JOIN #a\r\n") {
        Ok(octets) => {
            let outcome = step_again(play, &Event::Feed { session, octets }, steps);
            steps.note(outcome == Outcome::Read(1));
        }
        Err(_) => steps.note(false),
    }
}

/// It is accepted.
fn begin<L: Naming>(play: &mut Play<L>, steps: &mut Steps) {
    let worker = WorkerId::new(1);
    let moment = Moment::new(2000);
    let outcome = step_again(play, &Event::Begin { worker, moment }, steps);
    steps.note(outcome == Outcome::Record(10));
}

/// Whether a session takes this text.
fn takes<L: Naming>(play: &mut Play<L>, session: u64, want: &str) -> bool {
    let session = SessionId::new(session);
    match play.step(&Event::Take { session }) {
        Ok(Note::Item(Delivery::Lines { number: _, text })) => text.as_slice() == want.as_bytes(),
        _ => false,
    }
}

/// Al and bo come, and al joins the channel.
pub(crate) fn tell<L: Naming>(alloc: Global, play: &mut Play<L>, steps: &mut Steps) -> bool {
    compare(alloc, play, &AL, steps);
    compare(alloc, play, &BO, steps);
    read(alloc, play, steps);
    compare(alloc, play, &PICK, steps);
    begin(play, steps);
    compare(alloc, play, &PUTS, steps);
    steps.note(takes(play, 1, TO_AL) && takes(play, 2, TO_BO));
    true
}

/// A labelled line for which there is no memory, when it is read or when it is begun, changes nothing, and is
/// answered when it comes again.
#[test]
fn a_labelled_line_without_memory_changes_nothing(rt: HostRuntime) {
    tell_story(&rt, rt.alloc(), Story::Growths);
}
