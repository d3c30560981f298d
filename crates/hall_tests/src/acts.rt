//! Acts: what is done in a hall or looked at, one after another, and what each comes to.
use crate::guests::{Made, is_turned_away};
use crate::looking::{has_record, opened_count, rolls};
use crate::saying::mark;
use crate::stage::Stage;
use book::{Hall, LineRefusal, Naming, OpenRefusal, ReapRefusal, StableName, TickRefusal};
use chronicle::Why;
use std::alloc::Global;

/// What is done or looked at, and what it comes to. The first number is that of a session, of which 1 is the first
/// that came in this round.
#[derive(Clone, Copy)]
pub(crate) enum Act {
    /// What follows is at this moment, in milliseconds.
    At(i64),
    /// So many come, each with an outbox for so many items.
    Come(u64, usize),
    /// Who comes is turned away, with an outbox into which nothing was put.
    TurnedAway(OpenRefusal),
    /// It says a line, whose record these miss.
    Says(u64, &'static str, &'static [u64]),
    /// It says a line, which is refused.
    Refused(u64, &'static str, LineRefusal),
    /// It says a line, for which there may be no memory.
    MaySay(u64, &'static str),
    /// It says a line, for which the journal is rolled where that is full.
    SaysWithRoom(u64, &'static str),
    /// A line is read.
    Reads(&'static str),
    /// This line, which was read, is done as one of it: by this record, or it is refused so.
    Does(u64, &'static str, Result<u64, LineRefusal>),
    /// It says a line, which adds its hearers to the list.
    Tells(u64, &'static str),
    /// It is hung, and this says whether it misses its last item.
    Hung(u64, Why, bool),
    /// It is hung, which adds it to the list.
    HangTells(u64),
    /// Who is shut and has the lowest number is swept, and these miss the record.
    Swept(&'static [u64]),
    /// The same, which adds who sees it leave to the list.
    SweepTells,
    /// Nobody is to be swept.
    NobodyToSweep,
    /// It isn't given up, for this reason.
    Stays(u64, ReapRefusal),
    /// The first two have what is held of the other besides its baton.
    Swap,
    /// It is given up, and so many items are left for it.
    Leaves(u64, u64),
    /// It was given up, and isn't there any more.
    Away(u64),
    /// What takes its items is let go.
    Cut(u64),
    /// It takes these items, and no more wait.
    Takes(u64, &'static [&'static str]),
    /// It takes an item with these lines, which it waits for.
    TakesFirst(u64, &'static str),
    /// It takes an item with these lines, if there was memory for the line that it may have said.
    TakesIfSaid(u64, &'static str),
    /// It takes so many items, and no more wait.
    TakesSome(u64, u64),
    /// Who is silent is pinged, by this record, or nobody is, or it is refused so.
    Ticks(Result<Option<u64>, TickRefusal>),
    /// The same by this record, which adds who is pinged to the list.
    TickTells(u64),
    /// It is late; nobody is where this is 0.
    Late(u64),
    /// These are on the list, by so many records; then nobody is.
    Listed(&'static [u64], usize),
    /// The journal is rolled: so many records are dropped, and this is the next.
    Rolled(usize, u64),
    /// The journal wasn't rolled.
    NotRolled,
    /// Of the records that were dropped so many of its lines and of its items are known, if it is.
    Counted(u64, Option<u64>, Option<u64>),
    /// Of the records that were dropped it is known that so many sessions came.
    Came(usize),
    /// It ended for this reason.
    Ended(u64, Why),
    /// So many records are there.
    Has(usize),
    /// This record is there, or isn't.
    IsKept(u64, bool),
    /// It is open, or isn't.
    IsOpen(u64, bool),
    /// Requests for memory are counted from here on, or no more.
    Mark,
}

/// Whether an act comes to what it says: who comes, and what is taken.
pub(crate) fn is_so<L: Naming, O: Made<R, T>, R, T: Drop>(
    rt: &R,
    alloc: Global,
    hall: &mut Hall<L, O>,
    stage: &mut Stage<L, O, T>,
    act: &Act,
) -> bool {
    match *act {
        Act::Come(count, cap) => stage.come(rt, alloc, hall, count, cap),
        Act::TurnedAway(refusal) => is_turned_away(rt, alloc, hall, refusal),
        Act::Takes(session, items) => stage.takes(rt, session, items),
        Act::TakesFirst(session, lines) => stage.takes_one(rt, session, lines, true),
        Act::TakesIfSaid(session, lines) => {
            !stage.was_said || stage.takes_one(rt, session, lines, false)
        }
        Act::TakesSome(session, count) => stage.takes_some(rt, session, count),
        _ => is_said_so(alloc, hall, stage, act),
    }
}

/// The same of what is said.
fn is_said_so<L: Naming, O: StableName<Taker = T>, T: Drop>(
    alloc: Global,
    hall: &mut Hall<L, O>,
    stage: &mut Stage<L, O, T>,
    act: &Act,
) -> bool {
    match *act {
        Act::Says(session, text, missed) => stage.says(alloc, hall, session, text, missed),
        Act::Refused(session, text, refusal) => {
            stage.is_refused(alloc, hall, session, text, refusal)
        }
        Act::MaySay(session, text) => stage.may_say(alloc, hall, session, text),
        Act::SaysWithRoom(session, text) => stage.says_with_room(alloc, hall, session, text),
        Act::Reads(text) => stage.reads(alloc, text),
        Act::Does(session, text, answer) => stage.does(alloc, hall, session, text, answer),
        Act::Tells(session, text) => stage.tells(alloc, hall, session, text),
        Act::Mark => mark(alloc),
        _ => is_ended_so(hall, stage, act),
    }
}

/// The same of ends.
fn is_ended_so<L: Naming, O: StableName<Taker = T>, T: Drop>(
    hall: &mut Hall<L, O>,
    stage: &mut Stage<L, O, T>,
    act: &Act,
) -> bool {
    match *act {
        Act::Hung(session, why, missed) => stage.is_hung(hall, session, why, missed),
        Act::HangTells(session) => stage.hang_tells(hall, session),
        Act::Swept(missed) => stage.sweeps(hall, Some(missed)),
        Act::SweepTells => stage.sweep_tells(hall),
        Act::NobodyToSweep => stage.sweeps(hall, None),
        Act::Stays(session, why) => stage.stays(hall, session, why),
        Act::Swap => stage.swap(),
        Act::Leaves(session, left) => stage.leaves(hall, session, left),
        Act::Away(session) => stage.is_away(hall, session),
        Act::Cut(session) => stage.is_cut(session),
        _ => is_kept_so(hall, stage, act),
    }
}

/// The same of the clock, the journal and the list.
fn is_kept_so<L: Naming, O: StableName<Taker = T>, T: Drop>(
    hall: &mut Hall<L, O>,
    stage: &mut Stage<L, O, T>,
    act: &Act,
) -> bool {
    match *act {
        Act::At(moment) => stage.at(moment),
        Act::Ticks(answer) => stage.ticks(hall, answer),
        Act::TickTells(number) => stage.tick_tells(hall, number),
        Act::Listed(numbers, records) => stage.is_listed(numbers, records),
        Act::Rolled(dropped, next) => rolls(hall, dropped, next),
        _ => is_seen_so(hall, stage, act),
    }
}

/// The same of what a hall tells who looks.
fn is_seen_so<L: Naming, O: StableName<Taker = T>, T: Drop>(
    hall: &Hall<L, O>,
    stage: &Stage<L, O, T>,
    act: &Act,
) -> bool {
    match *act {
        Act::Late(session) => stage.late(hall) == session,
        Act::NotRolled => hall.base().is_none(),
        Act::Counted(session, lines, items) => stage.counts(hall, session, lines, items),
        Act::Came(count) => opened_count(hall) == count,
        Act::Has(records) => hall.len() == records,
        Act::IsKept(number, is_kept) => has_record(hall, number) == is_kept,
        Act::IsOpen(session, is_open) => hall.is_open(stage.id(session)) == is_open,
        Act::Ended(session, why) => hall.why_of(stage.id(session)) == why,
        _ => false,
    }
}
