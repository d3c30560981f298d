//! A thousand steps from a fixed list of numbers. After each the book says of its sessions, of its last moment and
//! of who is late what a walk over its records says.
use crate::acts::{Act, Outcome, take_step};
use crate::again::copy_of;
use crate::plays::{SESSIONS, Steps, Story, tell_story};
use crate::slow::{LINES, People, read_back, slow_late, slow_nick, slow_on, slow_open};
use chronicle::{Moment, RecordNumber};
use interleave::{Naming, Octets, Play, SessionId, Why};
use ledger::{Ledger, Ring};
use std::alloc::{AllocError, Global};

/// A hundred turns of ten steps each.
const TURNS: usize = 100;

const STEPS: usize = 10;

/// The number from which the others follow.
const FIRST: u64 = 51;

/// A place for a session: its number, or 0 where nobody is, and how many lines it said.
#[derive(Clone, Copy)]
struct Slot {
    session: u64,
    said: u64,
}

/// Milliseconds from one step to the next.
const APART: i64 = 3000;

/// The sessions that aren't reaped, how many came, at which moment the next step is, and whether somebody was late.
#[derive(Clone, Copy)]
struct Here {
    slots: [Slot; SESSIONS],
    came: u64,
    moment: i64,
    has_late: bool,
}

/// The next number of a linear congruential sequence.
fn after(number: u64) -> u64 {
    number
        .wrapping_mul(6_364_136_223_846_793_005)
        .wrapping_add(1_442_695_040_888_963_407)
}

/// Keeps who came and who was reaped.
fn note(here: &mut Here, act: Act, outcome: Outcome) {
    here.moment = here.moment.saturating_add(APART);
    let (from, to) = match (act, outcome) {
        (_, Outcome::Session(session)) => (0, session),
        (Act::Reap(session), Outcome::Left(_)) => (session, 0),
        _ => return,
    };
    here.came = here.came.max(to);
    for slot in &mut here.slots {
        if slot.session == from {
            *slot = Slot {
                session: to,
                said: 0,
            };
            return;
        }
    }
}

/// A session says a line, which is done, and takes an item.
fn says(session: u64, text: &'static str) -> [Act; STEPS] {
    [
        Act::Feed(session, text),
        Act::Pick(1, session),
        Act::Begin(1),
        Act::Put(1),
        Act::Put(1),
        Act::Put(1),
        Act::Put(1),
        Act::End(1),
        Act::Back(1),
        Act::Take(session),
    ]
}

/// A session ends, who is shut is swept, it and another are given up where they are gone, and one comes.
fn ends(session: u64, other: u64) -> [Act; STEPS] {
    [
        Act::Hang(1, session, Why::ReadEnded),
        Act::Sweep(1),
        Act::Put(1),
        Act::Put(1),
        Act::Put(1),
        Act::End(1),
        Act::Take(other),
        Act::Reap(session),
        Act::Reap(other),
        Act::Connect,
    ]
}

/// Who is silent is pinged, and two sessions take an item.
fn ticks(session: u64, other: u64) -> [Act; STEPS] {
    [
        Act::Tick(1),
        Act::Put(1),
        Act::Put(1),
        Act::Put(1),
        Act::Put(1),
        Act::End(1),
        Act::Take(session),
        Act::Take(other),
        Act::Take(session),
        Act::Take(other),
    ]
}

/// The line that a number says. A session registers and joins a channel first.
fn line_of(draw: u64, said: u64) -> &'static str {
    let place = match said {
        0 => draw % 4,
        1 => 4,
        2 => 5,
        _ => draw / 1024 % 20,
    };
    let (text, _) = LINES[(place % 20) as usize];
    text
}

/// The steps that a number says. In the first turns all sessions come.
fn turn(number: u64, here: &mut Here) -> [Act; STEPS] {
    let draw = number >> 33;
    let other = here.slots[(draw / 4 % 4) as usize].session;
    let is_early = here.came < 4;
    let slot = &mut here.slots[(draw % 4) as usize];
    if is_early || draw / 16 % 10 == 0 {
        return ends(slot.session, other);
    }
    if draw / 16 % 10 < 3 {
        return ticks(slot.session, other);
    }
    let text = line_of(draw, slot.said);
    slot.said = slot.said.saturating_add(1);
    says(slot.session, text)
}

/// Whether a book says of a session's nickname what the records say.
fn is_named(book: &Ledger<Ring>, people: &People, session: SessionId) -> bool {
    match (book.nick_of(session), slow_nick(people, session)) {
        (Some(nick), Some(want)) => nick.as_slice() == want.as_bytes(),
        (None, None) => true,
        _ => false,
    }
}

/// Whether a book says of a session what the records say.
fn is_known(book: &Ledger<Ring>, people: &People, session: SessionId, channels: &[Octets]) -> bool {
    let mut is_right = book.is_open(session) == slow_open(people, session);
    for (place, channel) in channels.iter().enumerate() {
        is_right = book.is_on(session, channel) == slow_on(people, session, place) && is_right;
    }
    is_right && is_named(book, people, session)
}

/// The moment of the newest record of a book, 0 before the first.
fn last_moment(book: &Ledger<Ring>) -> Moment {
    match book.record(RecordNumber::new(book.len() as u64)) {
        Some(record) => record.moment,
        None => Moment::new(0),
    }
}

/// Whether a book says of each session that came what the records say, and of its last moment.
fn are_known(book: &Ledger<Ring>, people: &People, came: u64, channels: &[Octets]) -> bool {
    let mut is_right = book.last_moment() == last_moment(book);
    for session in 0..=came {
        is_right = is_known(book, people, SessionId::new(session), channels) && is_right;
    }
    is_right
}

/// Whether who is late a while after the newest record is who the records say.
fn is_late<L: Naming>(play: &Play<L>, people: &People, ahead: i64) -> bool {
    let last = play.ledger().last_moment().milliseconds();
    let moment = Moment::new(last.saturating_add(ahead));
    play.late(moment) == slow_late(people, moment)
}

/// Whether a book says of each session that came what the records say, of its last moment, and of who is late then and
/// two minutes later.
fn compare<L: Naming>(play: &Play<L>, here: &mut Here, channels: &[Octets]) -> bool {
    let people = read_back(play.ledger());
    here.has_late = here.has_late || slow_late(&people, play.ledger().last_moment()).is_some();
    are_known(play.ledger(), &people, here.came, channels)
        && is_late(play, &people, 120_000)
        && is_late(play, &people, 0)
}

/// Takes the steps of a turn, and notes whether each leaves what the records say.
fn take_turn<L: Naming>(
    alloc: Global,
    play: &mut Play<L>,
    here: &mut Here,
    acts: &[Act; STEPS],
    channels: &[Octets],
    steps: &mut Steps,
) {
    for act in acts {
        let outcome = take_step(alloc, play, *act, here.moment);
        note(here, *act, outcome);
        steps.note(compare(play, here, channels));
    }
}

/// Takes all turns, and answers whether somebody was late.
fn take_turns<L: Naming>(
    alloc: Global,
    play: &mut Play<L>,
    channels: &[Octets],
    steps: &mut Steps,
) -> bool {
    let mut here = Here {
        slots: [Slot {
            session: 0,
            said: 0,
        }; SESSIONS],
        came: 0,
        moment: 0,
        has_late: false,
    };
    let mut number = FIRST;
    for _ in 0..TURNS {
        number = after(number);
        let acts = turn(number, &mut here);
        take_turn(alloc, play, &mut here, &acts, channels, steps);
    }
    here.has_late
}

/// The two channels.
fn channels(alloc: Global) -> Result<[Octets; 2], AllocError> {
    Ok([copy_of(alloc, b"#A")?, copy_of(alloc, b"#b")?])
}

/// Takes the steps, in which each kind of what records say is met.
pub(crate) fn tell<L: Naming>(alloc: Global, play: &mut Play<L>, steps: &mut Steps) -> bool {
    let is_late = match channels(alloc) {
        Ok(channels) => take_turns(alloc, play, &channels, steps),
        Err(_) => false,
    };
    steps.note(is_late);
    let people = read_back(play.ledger());
    for count in people.met.iter() {
        steps.note(*count > 0);
    }
    true
}

/// After each of 1,000 steps from a fixed list of numbers a book says of nicknames, channels and who is open what a
/// walk over its records finds, by a plain list, and of who is late.
#[test]
fn look_ups_are_those_of_the_records(rt: HostRuntime) {
    tell_story(&rt, rt.alloc(), Story::Thousand);
}
