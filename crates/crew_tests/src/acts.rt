//! Acts: what a session's threads do or what is looked at, one after another, and what each comes to.
use crate::beating::{Came, beats};
use crate::fakes::{Heap, Input, Stream};
use crate::making::{Guest, line};
use crate::scene::Scene;
use crate::taking::take_meanwhile;
use crate::threads::work_at_once;
use crate::wanting::{beats_again, closes_again, does_again, finds_none};
use crate::writing::{goes_on, is_over, is_over_meanwhile, write_alone, writes};
use book::{Naming, ReapRefusal};
use chronicle::{SessionId, Why};
use crew::NoBacklog;
use crew::session_io::{Next, Outlet, Sockets, flush, sweep};
use std::sync::Wait;
use std::sync::atomic::Ordering;
use std::thread::Threads;
use std::time::Clock;
use wire::Flow;

/// What is done or looked at, and what it comes to. What it is told of a session is of the one whose act it is.
#[derive(Clone, Copy)]
pub(crate) enum Act {
    /// It is opened.
    Comes,
    /// The clock shows this moment, in milliseconds.
    Clock(i64),
    /// It says a line, which is done under a slot.
    Says(&'static [u8]),
    /// It says two lines at once, of which one isn't done.
    SaysTwo(&'static [u8], &'static [u8]),
    /// It does a line by itself.
    Does(&'static [u8]),
    /// The same, where the line may come again for want of memory.
    DoesAgain(&'static [u8]),
    /// It says this so often while memory lasts, by which so many records are dropped.
    FindsNone(&'static [u8], u32, u64),
    /// It takes so many items.
    Hears(u32),
    /// It takes these items, and no more wait.
    Takes(&'static [&'static [u8]]),
    /// No item waits.
    HearsNothing,
    /// A beat at this moment comes to this.
    Beats(i64, Came),
    /// The same, where the beat may come again for want of memory.
    BeatsAgain(i64, Came),
    /// It was told, or wasn't, since that was last looked at.
    WasTold(bool),
    /// It was shut, or wasn't.
    IsShut(bool),
    /// This record ended it for this reason.
    IsHung(u64, Why),
    /// The same, which is the newest, and it is shut.
    IsEnded(u64, Why),
    /// It is ended for this reason.
    Hangs(Why),
    /// It is ended since its input was over, and is the only one who is told.
    HangsTold,
    /// Somebody is swept, or nobody is.
    Sweeps(bool),
    /// It isn't given up, since it isn't gone.
    Stays,
    /// It is given up, and so many items are left for it.
    Leaves(u64),
    /// It is swept and given up, and so many items are left for it, or it isn't gone.
    Closes(Option<u64>),
    /// It is swept and given up, which may come again for want of memory, and so many items are left for it.
    ClosesAgain(u64),
    /// It is swept and given up as soon as it may be, and so many items are left for it.
    ClosesUp(u64),
    /// It does what was read or reads once, while much waits at those of the looks that say so, and reading goes on
    /// so.
    Reads(&'static [bool], Next),
    /// The same, while nothing is looked at.
    ReadsFreely(Next),
    /// So many octets of the input aren't read.
    Unread(usize),
    /// Lines that were read aren't done, or all are.
    HasLines(bool),
    /// So many records are told of.
    Told(usize),
    /// A thread that found nothing to read paused so often.
    Paused(u64),
    /// It reads until its input is over.
    ReadsOn,
    /// What is told of the input waits for it, and its writing stands so.
    IsTold(Flow),
    /// What is told of the input and of its end waits for it, and it was ended for that.
    IsOver,
    /// Its outlet is opened, with a stream that takes nothing so many times, or that fails.
    Opens(u64, bool),
    /// Its outlet is written to, and its writing stands so then.
    Writes(Option<Flow>),
    /// Its stream takes more, and its writing stands so then.
    GoesOn(Option<Flow>),
    /// Its stream was written to so often.
    Wrote(u64),
    /// Its stream took so many octets.
    Took(u64),
    /// A worker writes, once it is shut or before, and its writing is over or isn't.
    Over(bool, bool),
    /// The same while another thread has the hall.
    OverMeanwhile(bool, bool),
    /// A thread of its own writes to a stream that fails.
    WritesOn,
    /// Its outlet gives its wire to it, or doesn't.
    Gives(bool),
    /// Its outlet gives its wire to another, or doesn't.
    GivesTo(u64, bool),
    /// It does a line, and what that is answered is written by a thread of its own.
    WritesAlone,
    /// These lines are taken by another thread while this one has the hall.
    TakesMeanwhile(&'static [u8]),
    /// Both do a line at once.
    BothWork,
    /// So many records are there.
    Has(usize),
    /// So many records were made, of which some may be dropped.
    HasMade(u64),
    /// So many records were dropped.
    Dropped(u64),
    /// The newest record is of this moment.
    IsAt(i64),
    /// The journal was rolled.
    IsRolled,
    /// The server goes on.
    ServerGoesOn,
    /// The hall and the only slot are there.
    IsFree,
}

/// What is fed to a session and told it, and what is written for it.
#[derive(Drop)]
pub(crate) struct Props<'a, L: Naming> {
    pub(crate) input: Input<'a>,
    /// What is told of the lines of the input.
    pub(crate) output: &'a [u8],
    /// The number of the record by which the session is ended once its input is over.
    pub(crate) number: u64,
    pub(crate) outlet: Outlet<L, Stream<'a>>,
}

/// Whether an act comes to what it says: what is done by threads, or by two.
pub(crate) fn is_so<
    'a,
    L: Naming + Send + Sync,
    R: Threads + Wait + Clock + Copy + Drop + Send + Sync,
>(
    scene: &Scene<'a, L, R>,
    guest: &mut Guest<L, R>,
    other: &mut Guest<L, R>,
    props: &mut Props<'a, L>,
    act: &Act,
) -> bool {
    match *act {
        Act::Comes => guest.comes(scene),
        Act::WritesAlone => write_alone(scene, guest),
        Act::TakesMeanwhile(lines) => take_meanwhile(scene, guest, lines),
        Act::OverMeanwhile(is_shut, over) => {
            is_over_meanwhile(scene, guest.session, &props.outlet, is_shut) == over
        }
        Act::BothWork => work_at_once(scene, guest, other),
        Act::FindsNone(octets, times, dropped) => {
            finds_none(scene, guest, other.session, octets, times, dropped)
        }
        _ => is_read_so(scene, guest, props, act),
    }
}

/// The same of what is read.
fn is_read_so<'a, L: Naming, R: Wait + Drop>(
    scene: &Scene<'a, L, R>,
    guest: &mut Guest<L, R>,
    props: &mut Props<'a, L>,
    act: &Act,
) -> bool {
    match *act {
        Act::Reads(looks, next) => {
            guest.reads(scene, &Heap::new(looks), &mut props.input) == (true, next)
        }
        Act::ReadsFreely(next) => {
            guest.reads(scene, &NoBacklog, &mut props.input) == (true, next)
        }
        Act::Unread(octets) => props.input.octets.len() == octets,
        Act::HasLines(has_lines) => guest.has_lines() == has_lines,
        Act::Told(records) => guest.flushes.records() == records,
        Act::ReadsOn => guest.reads_on(scene, &mut props.input),
        Act::IsTold(flow) => guest.is_told(scene, flow, (props.output, b"")),
        Act::IsOver => is_ended_so(scene, guest, props),
        _ => is_written_so(scene, guest, &props.outlet, act),
    }
}

/// The same of what is written.
fn is_written_so<'a, L: Naming, R: Wait + Drop>(
    scene: &Scene<'a, L, R>,
    guest: &mut Guest<L, R>,
    outlet: &Outlet<L, Stream<'a>>,
    act: &Act,
) -> bool {
    match *act {
        Act::Opens(left, is_broken) => guest.opens(scene, scene.stream(left, is_broken), outlet),
        Act::Writes(flow) => writes(scene.rt, outlet) == flow,
        Act::GoesOn(flow) => goes_on(scene.rt, outlet) == flow,
        Act::Over(is_shut, over) => is_over(scene, guest.session, outlet, is_shut) == over,
        Act::WritesOn => guest.writes_on(scene, scene.stream(0, true)),
        Act::Gives(gives) => outlet.end(scene.rt, guest.session).is_some() == gives,
        Act::GivesTo(session, gives) => {
            outlet.end(scene.rt, SessionId::new(session)).is_some() == gives
        }
        _ => is_said_so(scene, guest, act),
    }
}

/// The same of what is said and taken.
fn is_said_so<L: Naming, R: Wait + Drop>(
    scene: &Scene<'_, L, R>,
    guest: &mut Guest<L, R>,
    act: &Act,
) -> bool {
    match *act {
        Act::Says(octets) => guest.says(scene, octets),
        Act::SaysTwo(one, two) => says_two(scene, guest, one, two) == Some(false),
        Act::Does(octets) => guest.does(scene, octets).is_ok(),
        Act::DoesAgain(octets) => does_again(scene, guest, octets),
        Act::Hears(count) => guest.hears(scene.rt, count),
        Act::Takes(texts) => guest.takes_all(scene.rt, texts),
        Act::HearsNothing => guest.takes(scene.rt).is_none(),
        _ => is_gone_so(scene, guest, act),
    }
}

/// The same of ends.
fn is_gone_so<L: Naming, R: Wait + Drop>(
    scene: &Scene<'_, L, R>,
    guest: &mut Guest<L, R>,
    act: &Act,
) -> bool {
    match *act {
        Act::Hangs(why) => guest.hangs(scene, why),
        Act::HangsTold => hangs_told(scene, guest),
        Act::Sweeps(sweeps) => is_swept(scene, guest) == sweeps,
        Act::Stays => guest.gives_up(scene) == Err(ReapRefusal::NotGone),
        Act::Leaves(left) => guest.gives_up(scene) == Ok(Some(left)),
        Act::Closes(left) => guest.closes(scene) == left,
        Act::ClosesAgain(left) => closes_again(scene, guest, left),
        Act::ClosesUp(left) => guest.closes_up(scene) == Some(left),
        _ => is_beaten_so(scene, guest.session, act),
    }
}

/// The same of beats, and of who is told and shut.
fn is_beaten_so<L: Naming, R: Wait + Drop>(
    scene: &Scene<'_, L, R>,
    session: SessionId,
    act: &Act,
) -> bool {
    match *act {
        Act::Clock(moment) => scene.sets_clock(moment),
        Act::Beats(moment, came) => beats(scene, moment) == came,
        Act::BeatsAgain(moment, came) => beats_again(scene, moment, came),
        Act::WasTold(told) => scene.stage.host.was_told(session) == told,
        Act::IsShut(shut) => scene.is_shut(session) == shut,
        Act::IsHung(number, why) => scene.is_hung(number, session, why),
        Act::IsEnded(number, why) => scene.is_ended(number, session, why),
        _ => is_seen_so(scene, act),
    }
}

/// The same of what whoever looks sees.
fn is_seen_so<L: Naming, R: Wait + Drop>(scene: &Scene<'_, L, R>, act: &Act) -> bool {
    match *act {
        Act::Wrote(writes) => scene.around.tally.writes.load(Ordering::SeqCst) == writes,
        Act::Took(octets) => scene.around.tally.octets.load(Ordering::SeqCst) == octets,
        Act::Paused(count) => scene.stage.host.paused.load(Ordering::SeqCst) == count,
        Act::Has(records) => scene.records() == records,
        Act::HasMade(records) => scene.has_made(records),
        Act::Dropped(records) => scene.dropped_count() == records,
        Act::IsAt(moment) => scene.last_moment() == moment,
        Act::IsRolled => scene.is_rolled(),
        Act::ServerGoesOn => scene.goes_on(),
        Act::IsFree => scene.is_free(),
        _ => false,
    }
}

/// Whether what is told of the input and of its end waits for a session, and it was ended for that.
fn is_ended_so<L: Naming, R: Wait + Drop>(
    scene: &Scene<'_, L, R>,
    guest: &mut Guest<L, R>,
    props: &Props<'_, L>,
) -> bool {
    let (why, error): (Why, &[u8]) = if props.input.ends {
        (
            Why::ReadEnded,
            b"ERROR :Closing Link: h1 (Connection closed)\r\n",
        )
    } else {
        (Why::ReadFailed, b"ERROR :Closing Link: h1 (Read error)\r\n")
    };
    guest.is_told(scene, Flow::Ended, (props.output, error))
        && scene.is_ended(props.number, guest.session, why)
}

/// Whether two lines that are said at once are both done; nothing where there is no memory for them.
fn says_two<L: Naming, R: Wait + Drop>(
    scene: &Scene<'_, L, R>,
    guest: &mut Guest<L, R>,
    one: &[u8],
    two: &[u8],
) -> Option<bool> {
    let lines = [line(scene.alloc, one)?, line(scene.alloc, two)?];
    Some(guest.works(scene, &lines))
}

/// Whether a session is ended where its input is at its end, and just it is told so.
fn hangs_told<L: Naming, R: Wait + Drop>(scene: &Scene<'_, L, R>, guest: &mut Guest<L, R>) -> bool {
    flush(&scene.stage, &mut guest.flushes);
    guest.hangs(scene, Why::ReadEnded) && guest.flushes.sessions() == [guest.session].as_slice()
}

/// Whether somebody is swept.
fn is_swept<L: Naming, R: Wait + Drop>(scene: &Scene<'_, L, R>, guest: &mut Guest<L, R>) -> bool {
    matches!(
        sweep(scene.rt, &scene.stage, &mut guest.flushes).answer,
        Ok(Some(_))
    )
}
