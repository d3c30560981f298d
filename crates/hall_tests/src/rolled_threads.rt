//! Threads share a hall whose journal is rolled by whoever finds it full: nothing is lost, and each base has the
//! counts.
use crate::acts::Act;
use crate::guests::is_said;
use crate::threads::{LINES, Run, four_threads};
use book::{Baton, Hall, LineRefusal, Naming};
use chronicle::{Moment, SessionId};
use line_grammar::Piece;
use outbox::Sender;
use std::alloc::Global;
use std::sync::Wait;

/// How many lines each says before that of which there are many.
const FIRST: u64 = 3;

/// Who says a line often, who hears it, and how many items were put for that one before.
#[derive(Clone, Copy)]
pub(crate) struct Speaker<'a> {
    pub(crate) session: SessionId,
    hearer: SessionId,
    pub(crate) piece: &'a Piece,
    before: u64,
}

impl<'a> Speaker<'a> {
    /// Who has the first number speaks, and who has the second hears it.
    pub(crate) fn new(numbers: (u64, u64), piece: &'a Piece, before: u64) -> Speaker<'a> {
        Speaker {
            session: SessionId::new(numbers.0),
            hearer: SessionId::new(numbers.1),
            piece,
            before,
        }
    }

    /// Whether what is known of dropped records has the counts of so many lines.
    fn is_counted<L: Naming, R: Wait + Drop>(&self, hall: &Hall<L, Sender<R>>, said: u64) -> bool {
        let Some(base) = hall.base() else {
            return said == 0;
        };
        base.accepted_count(self.session) == Some(u64::saturating_add(FIRST, said))
            && base.owed_count(self.hearer) == Some(self.before.saturating_add(said))
    }
}

/// What came of a session's lines: the numbers of their records, how many records were dropped to make room for
/// them, and whether each base had the counts then.
#[derive(Drop)]
pub(crate) struct Said {
    pub(crate) numbers: Vec<u64>,
    pub(crate) dropped: u64,
    pub(crate) is_counted: bool,
}

impl Said {
    pub(crate) fn new(alloc: Global) -> Said {
        Said {
            numbers: Vec::new(alloc),
            dropped: 0,
            is_counted: true,
        }
    }

    /// Rolls, and looks whether all lines so far are counted, since all are dropped.
    fn roll<L: Naming, R: Wait + Drop>(
        &mut self,
        hall: &mut Hall<L, Sender<R>>,
        speaker: &Speaker<'_>,
    ) {
        if let Ok(rolled) = hall.roll() {
            self.dropped = self.dropped.saturating_add(rolled.dropped as u64);
        }
        if !speaker.is_counted(hall, self.numbers.len() as u64) {
            self.is_counted = false;
        }
    }

    /// Has a line done. Where there is no room for its record the journal is rolled, and the line tried once more.
    pub(crate) fn line<L: Naming, R: Wait + Drop>(
        &mut self,
        hall: &mut Hall<L, Sender<R>>,
        baton: &mut Baton<L, Sender<R>>,
        speaker: &Speaker<'_>,
    ) {
        let mut answer = hall.line(baton, speaker.piece, Moment::new(0));
        if matches!(answer, Err(LineRefusal::JournalFull)) {
            self.roll(hall, speaker);
            answer = hall.line(baton, speaker.piece, Moment::new(0));
        }
        if let Ok(done) = answer {
            let _ = self.numbers.push(done.number.number());
        }
    }
}

/// Whether two lists have each number from this one on once between them, in order.
pub(crate) fn are_each_once(one: &[u64], other: &[u64], first: u64) -> bool {
    let (mut ones, mut others) = (0usize, 0usize);
    let count = one.len().saturating_add(other.len()) as u64;
    for number in first..first.saturating_add(count) {
        if one.get(ones) == Some(&number) {
            ones = ones.saturating_add(1);
        } else if other.get(others) == Some(&number) {
            others = others.saturating_add(1);
        } else {
            return false;
        }
    }
    ones == one.len() && others == other.len()
}

/// Whether a session's lines are counted, but for those whose records are kept after so many that were dropped.
pub(crate) fn are_counted<L: Naming, R: Wait + Drop>(
    hall: &Hall<L, Sender<R>>,
    speaker: &Speaker<'_>,
    dropped: u64,
) -> bool {
    let mut kept = 0u64;
    for place in 0..hall.len() as u64 {
        let number = dropped.saturating_add(place).saturating_add(1);
        if is_said(hall, number, speaker.session, speaker.piece) {
            kept = kept.saturating_add(1);
        }
    }
    speaker.is_counted(hall, LINES.saturating_sub(kept))
}

/// Both come, and both go: what wasn't taken and the last item are left for each. The journal may be full then.
const COME: [Act; 1] = [Act::Come(2, 256)];

const GO: [Act; 7] = [
    Act::SaysWithRoom(1, "QUIT"),
    Act::SaysWithRoom(2, "QUIT"),
    Act::Swept(&[]),
    Act::Swept(&[]),
    Act::NobodyToSweep,
    Act::Leaves(1, 101),
    Act::Leaves(2, 101),
];

/// An outbox has room for 256 items, the journal for 64 records, and four of these are kept free for the ends.
/// Two threads say 100,000 lines each of two sessions under one lock, in a journal for 64 records that each of them
/// rolls where it is full, while two more take; who is 200 items ahead of its taker waits; then both quit, are
/// swept and reaped: the numbers of what each took rise by each record of the other, none twice and none left out.
#[test]
fn threads_share_a_hall_that_is_rolled(rt: HostRuntime) {
    let run = Run {
        taken: 99_900,
        ahead: 200,
        records: 64,
        come: &COME,
        go: &GO,
    };
    four_threads(&rt, rt.alloc(), &run);
}
