//! Four threads share a hall by a lock: two say lines of a session each, two take what comes of them.
ghost use Rattle.std.specs.Prelude.{◌≡◌, []};

use crate::acts::Act;
use crate::again::{line, new_register};
use crate::guests::{Ends, Guest, is_said};
use crate::making::{Steps, hall_of};
use crate::rolled_threads::{Said, Speaker, are_counted, are_each_once};
use crate::stage::Stage;
use book::{Baton, Hall, Naming, Register};
use chronicle::SessionId;
use deliveries::{Delivery, Item};
use line_grammar::Piece;
use outbox::{Outbox, Sender, Writer};
use std::alloc::{AllocError, Global};
use std::marker::Brand;
use std::process::Abort;
use std::sync::{Condvar, Mutex, Wait};
use std::thread::{Threads, join};

/// How many lines each says.
pub(crate) const LINES: u64 = 100_000;

/// How many records there are when both have met.
const MET: u64 = 8;

/// How far threads get, what they have room for, and how all begins and ends.
#[derive(Drop)]
pub(crate) struct Run {
    /// How many items of the other each takes; the rest is left.
    pub(crate) taken: usize,
    /// How many items who says lines may be ahead of who takes them.
    pub(crate) ahead: u64,
    /// How many records the journal has room for.
    pub(crate) records: usize,
    /// Both come, with room for so many items that nobody is missed however the threads run.
    pub(crate) come: &'static [Act],
    /// Both go.
    pub(crate) go: &'static [Act],
}

/// Al and bo meet on a channel by eight records, and each takes what it is sent: its welcome and its join, and al bo's
/// join too.
const MEET: [Act; 8] = [
    Act::Says(1, "NICK al", &[]),
    Act::Says(1, "USER a 0 * :Al", &[]),
    Act::Says(1, "JOIN #a", &[]),
    Act::Says(2, "NICK bo", &[]),
    Act::Says(2, "USER b 0 * :Bo", &[]),
    Act::Says(2, "JOIN #a", &[]),
    Act::TakesSome(1, 3),
    Act::TakesSome(2, 2),
];

type Name<R> = <Sender<R> as Outbox>::Name;

/// A hall that threads share.
pub(crate) type Shared<L, R> = Mutex<Hall<L, Sender<R>>>;

/// How many items were taken, for who waits until few are left.
#[derive(Drop)]
struct Pace {
    count: Mutex<u64>,
    more: Condvar,
}

impl Pace {
    fn new() -> Pace {
        Pace {
            count: Mutex::new(0),
            more: Condvar::new(),
        }
    }

    /// Notes one more.
    fn note<R: Wait>(&self, rt: &R) {
        let mut count = self.count.lock(rt);
        *count = u64::saturating_add(*count, 1);
        self.more.notify_one();
    }

    /// Waits until of so many fewer are left than this.
    fn wait<R: Wait>(&self, rt: &R, said: u64, ahead: u64) {
        let count = self.count.lock(rt);
        let _ = self.more.wait_while(rt, count, |count: &mut u64| {
            u64::saturating_sub(said, *count) >= ahead
        });
    }
}

/// Has a line done so often, each time under the lock, while the other takes what comes of it.
fn work_often<L: Naming, R: Wait + Drop>(
    rt: &R,
    alloc: Global,
    hall: &Shared<L, R>,
    baton: &mut Baton<L, Sender<R>>,
    speaker: &Speaker<'_>,
    (pace, ahead): (&Pace, u64),
) -> Said {
    let mut said = Said::new(alloc);
    for count in 0..LINES {
        pace.wait(rt, count, ahead);
        said.line(&mut hall.lock(rt), baton, speaker);
    }
    said
}

/// The number of an item's record.
pub(crate) fn number_of(item: &Item) -> u64 {
    match item.delivery() {
        Delivery::Lines { number, .. } | Delivery::Last { number, .. } => number.number(),
    }
}

/// The number of the record of the next item, which is waited for.
fn take_next<L: Naming, R: Wait + Drop>(
    rt: &R,
    ends: &mut Ends<L, Sender<R>, Writer>,
) -> Option<u64> {
    match ends.taker.take(rt) {
        Ok(item) => Some(number_of(&item)),
        Err(_) => None,
    }
}

/// Takes so many items as they come, and answers the numbers of their records.
fn take_often<L: Naming, R: Wait + Drop>(
    rt: &R,
    alloc: Global,
    ends: &mut Ends<L, Sender<R>, Writer>,
    taken: usize,
    pace: &Pace,
) -> Vec<u64> {
    let mut numbers = Vec::new(alloc);
    for _ in 0..taken {
        if let Some(number) = take_next(rt, ends) {
            let _ = numbers.push(number);
            pace.note(rt);
        }
    }
    numbers
}

/// What came of a session's lines, and the numbers of the records whose items it took.
#[derive(Drop)]
struct Served {
    said: Said,
    numbers: Vec<u64>,
}

/// Two threads serve a session: one says its lines, another takes its items.
fn serve<L: Naming + Send + Sync, R: Threads + Wait + Drop + Send + Sync>(
    rt: &R,
    alloc: Global,
    hall: &Shared<L, R>,
    guest: &mut Guest<L, Sender<R>, Writer>,
    speaker: &Speaker<'_>,
    run: &Run,
    paces: (&Pace, &Pace),
) -> Served {
    let Guest { baton, ends } = guest;
    let (own, other) = paces;
    let (said, numbers) = join(
        rt,
        || work_often(rt, alloc, hall, baton, speaker, (other, run.ahead)),
        || take_often(rt, alloc, ends, run.taken, own),
    );
    Served { said, numbers }
}

/// How many records say a line of a session after those of these numbers, if these are the first that do.
fn said_since<L: Naming, R: Wait + Drop>(
    hall: &Hall<L, Sender<R>>,
    by: SessionId,
    line: &Piece,
    numbers: &[u64],
) -> Option<u64> {
    let (mut place, mut since, mut is_right) = (0usize, 0u64, true);
    for number in MET + 1..=hall.len() as u64 {
        if is_said(hall, number, by, line) {
            match numbers.get(place) {
                Some(taken) => {
                    is_right = *taken == number && is_right;
                    place = place.saturating_add(1);
                }
                None => since = since.saturating_add(1),
            }
        }
    }
    if is_right && place == numbers.len() {
        Some(since)
    } else {
        None
    }
}

/// Of a journal that wasn't rolled: whether the items are those of the other's lines, and as many are left as lines
/// follow.
fn are_owed<L: Naming, R: Wait + Drop>(
    hall: &Hall<L, Sender<R>>,
    served: &Served,
    speaker: &Speaker<'_>,
) -> bool {
    let numbers = served.numbers.as_slice();
    let left = LINES.saturating_sub(numbers.len() as u64);
    said_since(hall, speaker.session, speaker.piece, numbers) == Some(left)
}

/// Each base had the counts, and what was taken are the first items of the other's records, in their order.
fn is_served(one: &Served, other: &Served, run: &Run) -> bool {
    one.said.numbers.len() as u64 == LINES
        && one.said.is_counted
        && one.numbers.len() == run.taken
        && other.said.numbers.starts_with(one.numbers.as_slice())
}

/// Each says its lines while what comes of them is taken.
fn serve_both<L: Naming + Send + Sync, R: Threads + Wait + Drop + Send + Sync>(
    rt: &R,
    alloc: Global,
    hall: &Shared<L, R>,
    (al, bo): (
        &mut Guest<L, Sender<R>, Writer>,
        &mut Guest<L, Sender<R>, Writer>,
    ),
    (one, two): (&Speaker<'_>, &Speaker<'_>),
    run: &Run,
) -> (Served, Served) {
    let (als, bos) = (Pace::new(), Pace::new());
    join(
        rt,
        || serve(rt, alloc, hall, al, one, run, (&als, &bos)),
        || serve(rt, alloc, hall, bo, two, run, (&bos, &als)),
    )
}

/// Each line has a record, each record of a line that is kept is as it was said, and a base has the counts of the
/// others.
fn look_back<L: Naming, R: Wait + Drop>(
    hall: &Hall<L, Sender<R>>,
    (al, bo): (&Served, &Served),
    (one, two): (&Speaker<'_>, &Speaker<'_>),
    steps: &mut Steps,
) {
    let (als, bos) = (&al.said, &bo.said);
    let dropped = als.dropped.saturating_add(bos.dropped);
    steps.note(are_each_once(als.numbers.as_slice(), bos.numbers.as_slice(), MET + 1));
    steps.note(dropped.saturating_add(hall.len() as u64) == MET + 2 * LINES);
    let is_rolled = hall.base().is_some();
    steps.note(is_rolled || are_owed(hall, al, two) && are_owed(hall, bo, one));
    steps.note(are_counted(hall, one, dropped) && are_counted(hall, two, dropped));
}

/// Each says its lines while what comes of them is taken, and what came of all is looked at.
fn speak<L: Naming + Send + Sync, R: Threads + Wait + Drop + Send + Sync>(
    rt: &R,
    alloc: Global,
    hall: &Shared<L, R>,
    callers: (
        &mut Guest<L, Sender<R>, Writer>,
        &mut Guest<L, Sender<R>, Writer>,
    ),
    speakers: (&Speaker<'_>, &Speaker<'_>),
    run: &Run,
    steps: &mut Steps,
) {
    let (al, bo) = serve_both(rt, alloc, hall, callers, speakers, run);
    steps.note(is_served(&al, &bo, run));
    steps.note(is_served(&bo, &al, run));
    look_back(&hall.lock(rt), (&al, &bo), speakers, steps);
}

/// What is said.
#[derive(Drop)]
struct Lines {
    one: Piece,
    two: Piece,
}

impl Lines {
    fn new(alloc: Global) -> Result<Lines, AllocError> {
        Ok(Lines {
            one: line(alloc, "PRIVMSG #a :one")?,
            two: line(alloc, "PRIVMSG #a :two")?,
        })
    }
}

/// A guest that may be held.
pub(crate) type MaybeGuest<L, R> = Option<Guest<L, Sender<R>, Writer>>;

/// Both speak, if they came.
fn both_speak<L: Naming + Send + Sync, R: Threads + Wait + Drop + Send + Sync>(
    rt: &R,
    alloc: Global,
    hall: &Shared<L, R>,
    (al, bo): (&mut MaybeGuest<L, R>, &mut MaybeGuest<L, R>),
    speakers: (&Speaker<'_>, &Speaker<'_>),
    run: &Run,
    steps: &mut Steps,
) {
    match al {
        Some(al) => match bo {
            Some(bo) => speak(rt, alloc, hall, (al, bo), speakers, run, steps),
            None => steps.note(false),
        },
        None => steps.note(false),
    }
}

/// Two who came speak.
fn two_speak<L: Naming + Send + Sync, R: Threads + Wait + Drop + Send + Sync>(
    rt: &R,
    alloc: Global,
    hall: &Shared<L, R>,
    guests: &mut [MaybeGuest<L, R>],
    speakers: (&Speaker<'_>, &Speaker<'_>),
    run: &Run,
    steps: &mut Steps,
) {
    match guests {
        [al, bo] => both_speak(rt, alloc, hall, (al, bo), speakers, run, steps),
        _ => steps.note(false),
    }
}

/// Acts follow under the lock.
pub(crate) fn goes<L: Naming, R: Wait + Copy + Drop>(
    rt: &R,
    alloc: Global,
    hall: &Shared<L, R>,
    stage: &mut Stage<L, Sender<R>, Writer>,
    acts: &[Act],
    steps: &mut Steps,
) {
    stage.goes(rt, alloc, &mut hall.lock(rt), acts, steps);
}

/// Two come and meet, speak, and go.
fn meet<L: Naming + Send + Sync, R: Threads + Wait + Copy + Drop + Send + Sync>(
    rt: &R,
    alloc: Global,
    hall: &Shared<L, R>,
    lines: &Lines,
    run: &Run,
    steps: &mut Steps,
) {
    let mut stage = Stage::new(alloc);
    goes(rt, alloc, hall, &mut stage, run.come, steps);
    goes(rt, alloc, hall, &mut stage, &MEET, steps);
    let one = Speaker::new((1, 2), &lines.one, 2);
    let two = Speaker::new((2, 1), &lines.two, 3);
    let guests = stage.guests.as_mut_slice();
    two_speak(rt, alloc, hall, guests, (&one, &two), run, steps);
    goes(rt, alloc, hall, &mut stage, run.go, steps);
}

/// They meet in a hall for two, whose journal is full then or isn't, and whose sessions this register has.
fn meet_in<L: Naming + Send + Sync, R: Threads + Wait + Copy + Drop + Send + Sync>(
    rt: &R,
    alloc: Global,
    register: Register<Name<R>>,
    lines: &Lines,
    run: &Run,
    steps: &mut Steps,
)
    requires named { register.table ≡ L.table }
    requires empty { register.rows ≡ [] }
{
    match hall_of::<L, Sender<R>>(alloc, register, (2, run.records)) {
        Ok(hall) => meet(rt, alloc, &Mutex::new(hall), lines, run, steps),
        Err(_) => steps.note(false),
    }
}

/// They meet in a hall with a register of its own.
pub(crate) fn four_threads<R: Threads + Wait + Abort + Copy + Drop + Send + Sync>(
    rt: &R,
    alloc: Global,
    run: &Run,
) {
    let mut steps = Steps::new();
    match (new_register(alloc), Lines::new(alloc)) {
        (Ok(register), Ok(lines)) => {
            meet_in::<Brand, R>(rt, alloc, register, &lines, run, &mut steps);
        }
        _ => steps.note(false),
    }
    steps.assert_right(rt);
}

/// Both come, and both go: what wasn't taken and the last item are left for each.
const COME: [Act; 1] = [Act::Come(2, 100_010)];

const GO: [Act; 7] = [
    Act::Says(1, "QUIT", &[]),
    Act::Says(2, "QUIT", &[]),
    Act::Swept(&[]),
    Act::Swept(&[]),
    Act::NobodyToSweep,
    Act::Leaves(1, 10_001),
    Act::Leaves(2, 10_001),
];

/// There is room for all items and all records, and for those that are kept free for the ends while both quit.
/// Two threads say 100,000 lines each of two sessions under one lock while two more take what comes of them; then
/// both quit, are swept and reaped, and what each took and left is what the other's records owe it, and its last
/// item.
#[test]
fn four_threads_share_a_hall(rt: HostRuntime) {
    let run = Run {
        taken: 90_000,
        ahead: LINES,
        records: 200_016,
        come: &COME,
        go: &GO,
    };
    four_threads(&rt, rt.alloc(), &run);
}
