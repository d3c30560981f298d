//! The clock, the journal, the list, and what a hall tells who looks.
use crate::guests::have_numbers;
use crate::stage::Stage;
use book::{Done, Hall, Naming, StableName, TickRefusal};
use chronicle::RecordNumber;

/// What a tick gave: the number of its record, or that there is none, or why there is none.
type Ticked = Result<Option<u64>, TickRefusal>;

/// What a tick gave. The number is 0 where somebody misses the record or is shut by it.
fn tick_outcome(answer: Result<Option<Done>, TickRefusal>) -> Ticked {
    match answer {
        Ok(Some(done)) => {
            if done.shut || !done.missed.as_slice().is_empty() {
                Ok(Some(0))
            } else {
                Ok(Some(done.number.number()))
            }
        }
        Ok(None) => Ok(None),
        Err(refusal) => Err(refusal),
    }
}

impl<L: Naming, O: StableName<Taker = T>, T: Drop> Stage<L, O, T> {
    /// Whether a tick gives this, once more where a growth was refused.
    pub(crate) fn ticks(&mut self, hall: &mut Hall<L, O>, wanted: Ticked) -> bool {
        match tick_outcome(hall.tick(self.moment())) {
            Err(TickRefusal::Memory) => tick_outcome(hall.tick(self.moment())) == wanted,
            answer => answer == wanted,
        }
    }

    /// Whether a tick gives a record of this number. Who is pinged is listed.
    pub(crate) fn tick_tells(&mut self, hall: &mut Hall<L, O>, number: u64) -> bool {
        self.flushes.begin();
        let (moment, wanted) = (self.moment(), Ok(Some(number)));
        match tick_outcome(hall.tick_with_flushes(moment, &mut self.flushes)) {
            Err(TickRefusal::Memory) => {
                tick_outcome(hall.tick_with_flushes(moment, &mut self.flushes)) == wanted
            }
            answer => answer == wanted,
        }
    }

    /// Who is late; nobody is 0.
    pub(crate) fn late(&self, hall: &Hall<L, O>) -> u64 {
        match hall.late(self.moment()) {
            Some(session) => session.number(),
            None => 0,
        }
    }

    /// Whether these, and nobody else, are listed by so many records; nobody is any more. There may be no memory for
    /// the list once.
    pub(crate) fn is_listed(&mut self, numbers: &[u64], records: usize) -> bool {
        let is_all = self.flushes.is_all();
        if is_all {
            self.alls = self.alls.saturating_add(1);
        }
        let is_right = is_all || have_numbers(self.flushes.sessions(), numbers);
        let is_counted = self.flushes.records() == records;
        self.flushes.clear();
        is_right && is_counted && self.alls <= 1
    }

    /// Whether so many lines and items of a session are known of the records that were dropped, or none where it isn't
    /// known.
    pub(crate) fn counts(
        &self,
        hall: &Hall<L, O>,
        session: u64,
        lines: Option<u64>,
        items: Option<u64>,
    ) -> bool {
        let session = self.id(session);
        match hall.base() {
            Some(base) => base.accepted_count(session) == lines
                && base.owed_count(session) == items,
            None => false,
        }
    }
}

/// How many sessions are known to have come before the journal was rolled.
pub(crate) fn opened_count<L: Naming, O: StableName>(hall: &Hall<L, O>) -> usize {
    match hall.base() {
        Some(base) => base.roster().opened_count(),
        None => 0,
    }
}

/// Whether so many records are dropped where the journal is rolled, and this is the next; nothing where that is
/// refused.
fn rolls_once<L: Naming, O: StableName>(
    hall: &mut Hall<L, O>,
    dropped: usize,
    next: u64,
) -> Option<bool> {
    match hall.roll() {
        Ok(rolled) => Some(rolled.dropped == dropped && rolled.next.number() == next),
        Err(_) => None,
    }
}

/// The same, once more where a growth was refused, which changed nothing.
pub(crate) fn rolls<L: Naming, O: StableName>(
    hall: &mut Hall<L, O>,
    dropped: usize,
    next: u64,
) -> bool {
    let before = (hall.len(), hall.base().is_some());
    match rolls_once(hall, dropped, next) {
        Some(is_right) => is_right,
        None => {
            (hall.len(), hall.base().is_some()) == before
                && rolls_once(hall, dropped, next) == Some(true)
        }
    }
}

/// Whether the record of this number is there.
pub(crate) fn has_record<L: Naming, O: StableName>(hall: &Hall<L, O>, number: u64) -> bool {
    hall.record(RecordNumber::new(number)).is_some()
}
