//! Threads share a hall by a lock and a clock: two say lines, a third pings and ends who is silent, and a fourth has
//! sessions come that say nothing, which it ends where the third didn't. What each session took is what the journal
//! owes it.
ghost use Rattle.std.specs.Prelude.{◌≡◌, []};

use crate::acts::Act;
use crate::again::{line, new_register};
use crate::ending::gives_up;
use crate::guests::{Guest, Made, enter};
use crate::making::{Steps, hall_of};
use crate::stage::Stage;
use crate::threads::{MaybeGuest, Shared, goes, number_of};
use book::{Hall, Naming, Register};
use chronicle::{Kind, Moment, Record, RecordNumber, SessionId, Why};
use line_grammar::Piece;
use outbox::{Outbox, Sender, Writer};
use std::alloc::Global;
use std::marker::Brand;
use std::process::Abort;
use std::sync::atomic::{AtomicBool, AtomicI64, Ordering};
use std::sync::{Mutex, Wait};
use std::thread;
use std::thread::{Threads, join};

/// How many lines each says, and how often it is looked who is silent.
const ROUNDS: u64 = 100_000;

/// Milliseconds from one look to the next, and after how many of silence a session is pinged, and is late.
const STEP: i64 = 40_000;

const PING_AFTER: i64 = 120_000;

const LATE_AFTER: i64 = 240_000;

/// How many items an outbox has room for.
const CAP: usize = 64;

/// How many records the journal has room for: more than are made.
const RECORDS: usize = 1_000_000;

type Name<R> = <Sender<R> as Outbox>::Name;

/// A guest of a hall that threads share.
type Caller<L, R> = Guest<L, Sender<R>, Writer>;

/// An item of a session: the numbers of both.
type Numbered = (u64, u64);

/// A clock that is moved by hand, and when each of two who say lines was last heard.
#[derive(Drop)]
struct Hands {
    now: AtomicI64,
    heard: [AtomicI64; 2],
    is_over: AtomicBool,
}

impl Hands {
    fn new() -> Hands {
        Hands {
            now: AtomicI64::new(0),
            heard: [AtomicI64::new(0), AtomicI64::new(0)],
            is_over: AtomicBool::new(false),
        }
    }

    fn now(&self) -> i64 {
        self.now.load(Ordering::SeqCst)
    }

    /// The moment at which all are late who are silent from now on.
    fn end(&self) -> i64 {
        self.now().saturating_add(LATE_AFTER)
    }

    fn is_over(&self) -> bool {
        self.is_over.load(Ordering::SeqCst)
    }

    /// One of the two was heard at a moment; at the end of time, where it says nothing any more.
    fn hear(&self, which: usize, moment: i64) {
        if let Some(heard) = self.heard.get(which) {
            heard.store(moment, Ordering::SeqCst);
        }
    }

    /// Whether nobody who still says lines is late after another step.
    fn may_move(&self) -> bool {
        let next = self.now().saturating_add(STEP);
        for heard in &self.heard {
            if LATE_AFTER <= next.saturating_sub(heard.load(Ordering::SeqCst)) {
                return false;
            }
        }
        true
    }

    /// Waits until that is so, and moves the clock by a step.
    fn move_on<R: Wait>(&self, rt: &R) {
        for _ in rt.forever() {
            if self.may_move() {
                break;
            }
            thread::yield_now();
        }
        self.now.fetch_add(STEP, Ordering::SeqCst);
    }

    /// Waits until it shows this moment, or all is over.
    fn wait_until<R: Wait>(&self, rt: &R, moment: i64) {
        for _ in rt.forever() {
            if moment <= self.now() || self.is_over() {
                break;
            }
            thread::yield_now();
        }
    }
}

/// The number of the record of the next item, if one waits.
fn take_next<L: Naming, R: Wait + Drop>(rt: &R, guest: &mut Caller<L, R>) -> Option<u64> {
    match guest.ends.taker.take_now(rt) {
        Ok(item) => Some(number_of(&item)),
        Err(_) => None,
    }
}

/// Takes what waits for a session.
fn take_all<L: Naming, R: Wait + Drop>(
    rt: &R,
    guest: &mut Caller<L, R>,
    taken: &mut Vec<Numbered>,
) {
    let session = guest.baton.session().number();
    for _ in 0..CAP {
        match take_next(rt, guest) {
            Some(number) => {
                let _ = taken.push((session, number));
            }
            None => break,
        }
    }
}

/// What who said lines took, and how many of its lines were accepted.
#[derive(Drop)]
struct Talked {
    taken: Vec<Numbered>,
    said: u64,
}

/// Whether a line is accepted at the present moment, at which its session is heard then.
fn says_now<L: Naming, R: Wait + Drop>(
    hall: &mut Hall<L, Sender<R>>,
    guest: &mut Caller<L, R>,
    piece: &Piece,
    hands: &Hands,
    which: usize,
) -> bool {
    let now = hands.now();
    let is_said = hall.line(&mut guest.baton, piece, Moment::new(now)).is_ok();
    if is_said {
        hands.hear(which, now);
    }
    is_said
}

/// Says a line so often, each time under the lock, and takes what comes.
fn talk<L: Naming, R: Wait + Drop>(
    rt: &R,
    alloc: Global,
    hall: &Shared<L, R>,
    guest: &mut Caller<L, R>,
    piece: &Piece,
    hands: &Hands,
    which: usize,
) -> Talked {
    let (mut taken, mut said) = (Vec::new(alloc), 0u64);
    for _ in 0..ROUNDS {
        if says_now(&mut hall.lock(rt), guest, piece, hands, which) {
            said = said.saturating_add(1);
        }
        take_all(rt, guest, &mut taken);
    }
    hands.hear(which, i64::MAX);
    Talked { taken, said }
}

/// Whether somebody is pinged.
fn pings<L: Naming, R: Wait + Drop>(hall: &mut Hall<L, Sender<R>>, moment: Moment) -> bool {
    matches!(hall.tick(moment), Ok(Some(_)))
}

/// Whether somebody is late, and is ended.
fn ends_late<L: Naming, R: Wait + Drop>(hall: &mut Hall<L, Sender<R>>, moment: Moment) -> bool {
    match hall.late(moment) {
        Some(session) => hall.hang(session, Why::PingTimeout, moment).is_ok(),
        None => false,
    }
}

/// Pings and ends who is silent at a moment, and answers whether somebody was pinged.
fn beat<L: Naming, R: Wait + Drop>(rt: &R, hall: &Shared<L, R>, now: i64) -> bool {
    let moment = Moment::new(now);
    let is_pinged = pings(&mut hall.lock(rt), moment);
    for _ in rt.forever() {
        if !ends_late(&mut hall.lock(rt), moment) {
            break;
        }
    }
    is_pinged
}

/// Moves the clock so often, and pings and ends who is silent then. It answers how often somebody was pinged.
fn beat_often<L: Naming, R: Wait + Drop>(rt: &R, hall: &Shared<L, R>, hands: &Hands) -> u64 {
    let mut pings = 0u64;
    for _ in 0..ROUNDS {
        hands.move_on(rt);
        if beat(rt, hall, hands.now()) {
            pings = pings.saturating_add(1);
        }
    }
    hands.is_over.store(true, Ordering::SeqCst);
    pings
}

/// Who came and said nothing: how many, how many of them weren't ended for their silence, what they took, and
/// whether none left anything.
#[derive(Drop)]
struct Came {
    count: u64,
    hung: u64,
    taken: Vec<Numbered>,
    is_well: bool,
}

/// One comes at the present moment, which is noted.
fn comes<L: Naming, R: Wait + Copy + Drop>(
    rt: &R,
    alloc: Global,
    hall: &mut Hall<L, Sender<R>>,
    hands: &Hands,
    moment: &mut i64,
) -> Option<Caller<L, R>> {
    *moment = hands.now();
    enter(rt, alloc, hall, CAP, Moment::new(*moment))
}

impl Came {
    /// One is ended where it isn't yet, and takes all.
    fn end<L: Naming, R: Wait + Drop>(
        &mut self,
        rt: &R,
        hall: &mut Hall<L, Sender<R>>,
        guest: &mut Caller<L, R>,
        moment: Moment,
    ) {
        let session = guest.baton.session();
        if hall.hang(session, Why::ReadEnded, moment).is_ok() {
            self.hung = self.hung.saturating_add(1);
        }
        take_all(rt, guest, &mut self.taken);
    }

    /// One goes: it is ended, swept and given up. Others may be to be swept, too.
    fn leave<L: Naming, R: Wait + Drop>(
        &mut self,
        rt: &R,
        hall: &mut Hall<L, Sender<R>>,
        held: &mut Option<Caller<L, R>>,
        hands: &Hands,
    ) {
        let moment = Moment::new(hands.now());
        if let Some(guest) = held {
            self.end(rt, hall, guest, moment);
        }
        for _ in 0..3u32 {
            let _ = hall.sweep(moment).is_ok();
        }
        self.count = self.count.saturating_add(1);
        self.is_well = gives_up(hall, held) == Some(Ok(0)) && self.is_well;
    }

    /// A session that stays until the clock was moved so often, is ended where it isn't yet, takes all, and is given
    /// up.
    fn one<L: Naming, R: Wait + Copy + Drop>(
        &mut self,
        rt: &R,
        alloc: Global,
        hall: &Shared<L, R>,
        hands: &Hands,
        steps: i64,
    ) {
        let mut came = 0i64;
        let mut held = comes(rt, alloc, &mut hall.lock(rt), hands, &mut came);
        hands.wait_until(rt, came.saturating_add(steps.saturating_mul(STEP)));
        self.leave(rt, &mut hall.lock(rt), &mut held, hands);
    }
}

/// Sessions come one after another and say nothing, until it is over. Each stays for as many steps of the clock as
/// another number says, too few to be pinged at first, and enough to be late at last.
fn come_often<L: Naming, R: Wait + Copy + Drop>(
    rt: &R,
    alloc: Global,
    hall: &Shared<L, R>,
    hands: &Hands,
) -> Came {
    let mut came = Came {
        count: 0,
        hung: 0,
        taken: Vec::new(alloc),
        is_well: true,
    };
    for _ in rt.forever() {
        if hands.is_over() {
            break;
        }
        let steps = came.count % 8;
        came.one(rt, alloc, hall, hands, steps as i64);
    }
    came
}

/// A session that is open, when it was last heard, and whether it was pinged since.
#[derive(Clone, Copy)]
struct Watched {
    session: SessionId,
    heard: i64,
    is_pinged: bool,
}

/// What the journal owes, record by record, by a walk over it.
#[derive(Drop)]
struct Owed {
    open: Vec<Watched>,
    items: Vec<Numbered>,
    is_well: bool,
}

impl Owed {
    fn add(&mut self, session: SessionId, number: RecordNumber) {
        let _ = self.items.push((session.number(), number.number()));
    }

    /// A session was heard at a moment.
    fn hear(&mut self, session: SessionId, heard: i64) {
        self.open.retain(|watched| watched.session != session);
        let _ = self.open.push(Watched {
            session,
            heard,
            is_pinged: false,
        });
    }

    /// Each who is silent is owed a PING, once.
    fn ping(&mut self, number: RecordNumber, moment: i64) {
        for watched in self.open.iter_mut() {
            if !watched.is_pinged && PING_AFTER <= moment.saturating_sub(watched.heard) {
                watched.is_pinged = true;
                let _ = self.items.push((watched.session.number(), number.number()));
            }
        }
    }

    /// What another record owes: a line an answer, an end the last item.
    fn read(&mut self, record: &Record) {
        let moment = record.moment.milliseconds();
        match &record.kind {
            Kind::Opened { session, .. } => self.hear(*session, moment),
            Kind::Said { session, .. } => {
                self.hear(*session, moment);
                self.add(*session, record.number);
            }
            Kind::Hung { session, .. } => {
                let session = *session;
                self.open.retain(|watched| watched.session != session);
                self.add(session, record.number);
            }
            Kind::Gone { .. } => {}
            Kind::Ticked => self.ping(record.number, moment),
        }
        if !record.missed.as_slice().is_empty() {
            self.is_well = false;
        }
    }

    /// Whether these are the items of the sessions from the first to the last, in order.
    fn is_of(&self, first: u64, last: u64, taken: &[Numbered]) -> bool {
        let mut place = 0usize;
        for item in self.items.iter() {
            if first <= item.0 && item.0 <= last {
                if taken.get(place) != Some(item) {
                    return false;
                }
                place = place.saturating_add(1);
            }
        }
        place == taken.len()
    }
}

/// What a hall's journal owes.
fn owed_by<L: Naming, R: Wait + Drop>(alloc: Global, hall: &Hall<L, Sender<R>>) -> Owed {
    let mut owed = Owed {
        open: Vec::new(alloc),
        items: Vec::new(alloc),
        is_well: true,
    };
    for place in 0..hall.len() as u64 {
        if let Some(record) = hall.record(RecordNumber::new(place.saturating_add(1))) {
            owed.read(record);
        }
    }
    owed
}

/// Two say lines side by side.
fn talk_both<L: Naming + Send + Sync, R: Threads + Wait + Copy + Drop + Send + Sync>(
    rt: &R,
    alloc: Global,
    hall: &Shared<L, R>,
    (al, bo): (&mut Caller<L, R>, &mut Caller<L, R>),
    piece: &Piece,
    hands: &Hands,
) -> (Talked, Talked) {
    join(
        rt,
        || talk(rt, alloc, hall, al, piece, hands, 0),
        || talk(rt, alloc, hall, bo, piece, hands, 1),
    )
}

/// One looks who is silent, while another has sessions come.
fn beat_beside<L: Naming + Send + Sync, R: Threads + Wait + Copy + Drop + Send + Sync>(
    rt: &R,
    alloc: Global,
    hall: &Shared<L, R>,
    hands: &Hands,
) -> (u64, Came) {
    join(
        rt,
        || beat_often(rt, hall, hands),
        || come_often(rt, alloc, hall, hands),
    )
}

/// The two who said lines, and those who came beside them.
#[derive(Drop)]
struct Met {
    al: Talked,
    bo: Talked,
    pings: u64,
    came: Came,
}

/// Two say lines while a third looks who is silent and a fourth has others come.
fn meet<L: Naming + Send + Sync, R: Threads + Wait + Copy + Drop + Send + Sync>(
    rt: &R,
    alloc: Global,
    hall: &Shared<L, R>,
    (al, bo): (&mut Caller<L, R>, &mut Caller<L, R>),
    piece: &Piece,
    hands: &Hands,
) -> Met {
    let ((al, bo), (pings, came)) = join(
        rt,
        || talk_both(rt, alloc, hall, (al, bo), piece, hands),
        || beat_beside(rt, alloc, hall, hands),
    );
    Met {
        al,
        bo,
        pings,
        came,
    }
}

/// Whether who said lines took what the journal owes it.
fn is_owed<L: Naming, R: Wait + Drop>(
    rt: &R,
    guest: &mut Caller<L, R>,
    talked: &mut Talked,
    owed: &Owed,
) -> bool {
    take_all(rt, guest, &mut talked.taken);
    let session = guest.baton.session().number();
    talked.said == ROUNDS && owed.is_of(session, session, talked.taken.as_slice())
}

/// Somebody was pinged, some of those who came were late, and all took what the journal owes them.
fn look_back<L: Naming, R: Wait + Drop>(
    rt: &R,
    alloc: Global,
    hall: &Hall<L, Sender<R>>,
    (al, bo): (&mut Caller<L, R>, &mut Caller<L, R>),
    met: &mut Met,
    steps: &mut Steps,
) {
    let owed = owed_by(alloc, hall);
    let came = &met.came;
    steps.note(met.pings > 0 && 0 < came.hung && came.hung < came.count);
    steps.note(owed.is_well && came.is_well);
    steps.note(owed.is_of(3, u64::MAX, came.taken.as_slice()));
    steps.note(is_owed(rt, al, &mut met.al, &owed));
    steps.note(is_owed(rt, bo, &mut met.bo, &owed));
}

/// All meet. Then nobody says anything, all are ended, and what they took is looked at.
fn race<L: Naming + Send + Sync, R: Threads + Wait + Copy + Drop + Send + Sync>(
    rt: &R,
    alloc: Global,
    hall: &Shared<L, R>,
    (al, bo): (&mut Caller<L, R>, &mut Caller<L, R>),
    piece: &Piece,
    hands: &Hands,
    steps: &mut Steps,
) {
    let mut met = meet(rt, alloc, hall, (al, bo), piece, hands);
    let _ = beat(rt, hall, hands.end());
    look_back(rt, alloc, &hall.lock(rt), (al, bo), &mut met, steps);
}

/// Both race, if they came.
fn both_race<L: Naming + Send + Sync, R: Threads + Wait + Copy + Drop + Send + Sync>(
    rt: &R,
    alloc: Global,
    hall: &Shared<L, R>,
    (al, bo): (&mut MaybeGuest<L, R>, &mut MaybeGuest<L, R>),
    piece: &Piece,
    hands: &Hands,
    steps: &mut Steps,
) {
    match al {
        Some(al) => match bo {
            Some(bo) => race(rt, alloc, hall, (al, bo), piece, hands, steps),
            None => steps.note(false),
        },
        None => steps.note(false),
    }
}

/// Two who came race.
fn two_race<L: Naming + Send + Sync, R: Threads + Wait + Copy + Drop + Send + Sync>(
    rt: &R,
    alloc: Global,
    hall: &Shared<L, R>,
    guests: &mut [MaybeGuest<L, R>],
    piece: &Piece,
    hands: &Hands,
    steps: &mut Steps,
) {
    match guests {
        [al, bo] => both_race(rt, alloc, hall, (al, bo), piece, hands, steps),
        _ => steps.note(false),
    }
}

/// Two come.
const COME: [Act; 1] = [Act::Come(2, CAP)];

/// They go, after all others.
const GO: [Act; 3] = [Act::NobodyToSweep, Act::Leaves(1, 0), Act::Leaves(2, 0)];

/// Sweeps whichever of the two isn't swept yet: one that had said all its lines before the others ended may be.
fn sweep_two<L: Naming, R: Wait + Drop>(
    hall: &mut Hall<L, Sender<R>>,
    moment: Moment,
    steps: &mut Steps,
) {
    for _ in 0..2u32 {
        steps.note(hall.sweep(moment).is_ok());
    }
}

/// Two come, race, and go.
fn all_race<L: Naming + Send + Sync, R: Threads + Wait + Copy + Drop + Send + Sync>(
    rt: &R,
    alloc: Global,
    hall: &Shared<L, R>,
    piece: &Piece,
    steps: &mut Steps,
) {
    let (mut stage, hands) = (Stage::new(alloc), Hands::new());
    goes(rt, alloc, hall, &mut stage, &COME, steps);
    let guests = stage.guests.as_mut_slice();
    two_race(rt, alloc, hall, guests, piece, &hands, steps);
    stage.at(hands.end());
    sweep_two(&mut hall.lock(rt), stage.moment(), steps);
    goes(rt, alloc, hall, &mut stage, &GO, steps);
}

/// The same in a hall of its own, whose sessions this register has.
fn race_in<L: Naming + Send + Sync, R: Threads + Wait + Copy + Drop + Send + Sync>(
    rt: &R,
    alloc: Global,
    register: Register<Name<R>>,
    piece: &Piece,
    steps: &mut Steps,
)
    requires named { register.table ≡ L.table }
    requires empty { register.rows ≡ [] }
{
    match hall_of::<L, Sender<R>>(alloc, register, (3, RECORDS)) {
        Ok(hall) => all_race(rt, alloc, &Mutex::new(hall), piece, steps),
        Err(_) => steps.note(false),
    }
}

/// The same with a register of its own.
fn race_alone<R: Threads + Wait + Abort + Copy + Drop + Send + Sync>(rt: &R, alloc: Global) {
    let mut steps = Steps::new();
    match (new_register(alloc), line(alloc, "PING x")) {
        (Ok(register), Ok(piece)) => {
            race_in::<Brand, R>(rt, alloc, register, &piece, &mut steps);
        }
        _ => steps.note(false),
    }
    steps.assert_right(rt);
}

/// While two threads say 100,000 lines each, a third moves the clock, pings and ends 100,000 times, and a fourth
/// has sessions come and ends them: what each took is what the journal owes it.
#[test]
fn ticks_race_with_lines(rt: HostRuntime) {
    race_alone(&rt, rt.alloc());
}
