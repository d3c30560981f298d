//! Lines: said at once, read before they are done, or refused.
use crate::again::line;
use crate::guests::{Guest, is_said};
use crate::stage::{Stage, place};
use book::{Done, FlushList, Hall, LineRefusal, Naming, ReadLine, StableName};
use chronicle::Moment;
use line_grammar::Piece;
use std::alloc::{AllocError, Global};

/// What is asked for where `checks/growths` begins to count requests for memory, and where it ends.
const MARK: usize = 77_777;

/// A line that is too long.
pub(crate) const TOO_LONG: &str = "";

/// Begins a count of requests for memory, or ends it, whether it gets what it asks for or not.
pub(crate) fn mark(alloc: Global) -> bool {
    let room: Result<Vec<u8>, AllocError> = Vec::with_capacity(alloc, MARK);
    drop(room);
    true
}

/// What a line was answered: the number of its record, or why there is none.
pub(crate) type Answer = Result<u64, LineRefusal>;

/// The number of a line's record.
fn number_of(answer: Result<Done, LineRefusal>) -> Answer {
    match answer {
        Ok(done) => Ok(done.number.number()),
        Err(refusal) => Err(refusal),
    }
}

impl<L: Naming, O: StableName<Taker = T>, T: Drop> Guest<L, O, T> {
    /// What the line is answered that was read, which has no turn where none was. Where it is refused it stays.
    fn does(
        &mut self,
        hall: &mut Hall<L, O>,
        read: &mut Option<ReadLine>,
        moment: Moment,
        flushes: &mut FlushList,
    ) -> Answer {
        let Some(line) = read else {
            return Err(LineRefusal::WrongTurn);
        };
        let answer = number_of(hall.line_read(&mut self.baton, line, moment, flushes));
        if answer.is_ok() {
            *read = None;
        }
        answer
    }

    /// What a line is answered that adds its hearers to a list.
    fn tells(
        &mut self,
        hall: &mut Hall<L, O>,
        piece: &Piece,
        moment: Moment,
        flushes: &mut FlushList,
    ) -> Answer {
        number_of(hall.line_with_flushes(&mut self.baton, piece, moment, flushes))
    }
}

impl<L: Naming, O: StableName<Taker = T>, T: Drop> Stage<L, O, T> {
    /// Brings a line, which is the next.
    fn brings(&mut self, alloc: Global, text: &str) -> bool {
        if text.is_empty() {
            self.piece = Piece::TooLong;
            return true;
        }
        match line(alloc, text) {
            Ok(piece) => {
                self.piece = piece;
                true
            }
            Err(_) => false,
        }
    }

    /// What the next line is answered as one of a session, which has no turn where nothing is held of it: the number
    /// of its record, and whether just these miss that.
    fn answer(
        &mut self,
        hall: &mut Hall<L, O>,
        session: u64,
        missed: &[u64],
    ) -> Result<(u64, bool), LineRefusal> {
        let moment = self.moment();
        match self.guests.get_mut(place(session)) {
            Some(Some(guest)) => guest.answer(hall, &self.piece, moment, missed),
            _ => Err(LineRefusal::WrongTurn),
        }
    }

    /// Whether the record of this number says the next line of a session.
    fn is_next(&self, hall: &Hall<L, O>, number: u64, session: u64) -> bool {
        is_said(hall, number, self.id(session), &self.piece)
    }

    /// Whether a line is accepted, has its record, and just these miss that.
    pub(crate) fn says(
        &mut self,
        alloc: Global,
        hall: &mut Hall<L, O>,
        session: u64,
        text: &str,
        missed: &[u64],
    ) -> bool {
        if !self.brings(alloc, text) {
            return false;
        }
        match self.answer(hall, session, missed) {
            Ok((number, is_right)) => is_right && self.is_next(hall, number, session),
            Err(_) => false,
        }
    }

    /// Whether a line is refused so.
    pub(crate) fn is_refused(
        &mut self,
        alloc: Global,
        hall: &mut Hall<L, O>,
        session: u64,
        text: &str,
        refusal: LineRefusal,
    ) -> bool {
        self.brings(alloc, text) && self.answer(hall, session, &[]) == Err(refusal)
    }

    /// Whether a line is accepted, and nobody misses it. Where the journal is full it is rolled.
    pub(crate) fn says_with_room(
        &mut self,
        alloc: Global,
        hall: &mut Hall<L, O>,
        session: u64,
        text: &str,
    ) -> bool {
        if !self.brings(alloc, text) {
            return false;
        }
        match self.answer(hall, session, &[]) {
            Ok((number, is_right)) => is_right && self.is_next(hall, number, session),
            Err(LineRefusal::JournalFull) => {
                hall.roll().is_ok() && self.says(alloc, hall, session, text, &[])
            }
            Err(_) => false,
        }
    }

    /// Whether a line is accepted, or memory is wanting for it; it isn't said once more.
    pub(crate) fn may_say(
        &mut self,
        alloc: Global,
        hall: &mut Hall<L, O>,
        session: u64,
        text: &str,
    ) -> bool {
        if !self.brings(alloc, text) {
            return false;
        }
        let moment = self.moment();
        let answer = match self.guests.get_mut(place(session)) {
            Some(Some(guest)) => guest.answer_once(hall, &self.piece, moment, &[]),
            _ => Err(LineRefusal::WrongTurn),
        };
        self.was_said = answer.is_ok();
        self.was_said || answer == Err(LineRefusal::Memory)
    }

    /// Whether a line is read, once more where a growth was refused.
    pub(crate) fn reads(&mut self, alloc: Global, text: &str) -> bool {
        if !self.brings(alloc, text) {
            return false;
        }
        self.read = match ReadLine::read(alloc, &self.piece) {
            Ok(line) => Some(line),
            Err(_) => ReadLine::read(alloc, &self.piece).ok(),
        };
        self.read.is_some()
    }

    /// What the line that was read is answered as one of a session.
    fn does_once(&mut self, hall: &mut Hall<L, O>, session: u64) -> Answer {
        let moment = self.moment();
        match self.guests.get_mut(place(session)) {
            Some(Some(guest)) => guest.does(hall, &mut self.read, moment, &mut self.flushes),
            _ => Err(LineRefusal::WrongTurn),
        }
    }

    /// Whether this line, which was read, is answered so, and has its record where it is accepted. Where a growth is
    /// refused the hall has as many records as before, and the line, which is left, is done once more.
    pub(crate) fn does(
        &mut self,
        alloc: Global,
        hall: &mut Hall<L, O>,
        session: u64,
        text: &str,
        wanted: Answer,
    ) -> bool {
        let before = hall.len();
        let mut answer = self.does_once(hall, session);
        if answer == Err(LineRefusal::Memory) && hall.len() == before {
            answer = self.does_once(hall, session);
        }
        answer == wanted && self.brings(alloc, text) && self.is_done(hall, session, wanted)
    }

    /// Whether the next line of a session has its record, where it was accepted.
    fn is_done(&self, hall: &Hall<L, O>, session: u64, answer: Answer) -> bool {
        match answer {
            Ok(number) => self.is_next(hall, number, session),
            Err(_) => true,
        }
    }

    /// What the next line is answered as one of a session, whose hearers are listed.
    fn tells_once(&mut self, hall: &mut Hall<L, O>, session: u64) -> Answer {
        let moment = self.moment();
        match self.guests.get_mut(place(session)) {
            Some(Some(guest)) => guest.tells(hall, &self.piece, moment, &mut self.flushes),
            _ => Err(LineRefusal::WrongTurn),
        }
    }

    /// Whether a line is accepted, once more where a growth was refused. Its hearers are listed.
    pub(crate) fn tells(
        &mut self,
        alloc: Global,
        hall: &mut Hall<L, O>,
        session: u64,
        text: &str,
    ) -> bool {
        self.flushes.begin();
        self.brings(alloc, text)
            && (self.tells_once(hall, session).is_ok() || self.tells_once(hall, session).is_ok())
    }
}
