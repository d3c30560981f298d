//! What the records of a book say of its sessions, by a plain list of them that is searched from its
//! beginning. It is made anew from the first record each time, and shares no code with the book's tables.
use chronicle::{Kind, Moment, Record, RecordNumber, SessionId};
use interleave::Piece;
use ledger::{Ledger, Ring};

/// What a line asks for. Nicknames and channels are told by their places, so those that differ by case are one.
#[derive(Clone, Copy)]
pub(crate) enum Wish {
    Nick(usize, &'static str),
    User,
    Join(usize),
    Part(usize),
    Kick(usize, usize),
    Quit,
    Nothing,
}

/// What sessions say, and what each line asks for.
pub(crate) const LINES: [(&str, Wish); 20] = [
    ("NICK al\n", Wish::Nick(0, "al")),
    ("NICK bo\n", Wish::Nick(1, "bo")),
    ("NICK cy\n", Wish::Nick(2, "cy")),
    ("NICK dee\n", Wish::Nick(3, "dee")),
    ("USER u 0 * :U\n", Wish::User),
    ("JOIN #a\n", Wish::Join(0)),
    ("join #A\n", Wish::Join(0)),
    ("JOIN #a\n", Wish::Join(0)),
    ("JOIN #B\n", Wish::Join(1)),
    ("JOIN #b\n", Wish::Join(1)),
    ("nick AL\n", Wish::Nick(0, "AL")),
    ("NICK Cy\n", Wish::Nick(2, "Cy")),
    ("NICK 1\n", Wish::Nothing),
    ("PART #A\n", Wish::Part(0)),
    ("PART #b :bye\n", Wish::Part(1)),
    ("KICK #a bo\n", Wish::Kick(0, 1)),
    ("KICK #B al :out\n", Wish::Kick(1, 0)),
    ("KICK #A CY\n", Wish::Kick(0, 2)),
    ("KICK #b dee\n", Wish::Kick(1, 3)),
    ("QUIT\n", Wish::Quit),
];

/// What the line of a record asks for.
fn wish_of(piece: &Piece) -> Wish {
    let Piece::Line(line) = piece else {
        return Wish::Nothing;
    };
    for (text, wish) in &LINES {
        let is_same = text.as_bytes().starts_with(line.as_slice());
        if is_same && text.len() == line.len().saturating_add(1) {
            return *wish;
        }
    }
    Wish::Nothing
}

/// Whether a session is on a channel, and as what.
#[derive(Clone, Copy, PartialEq)]
enum Rank {
    Outside,
    Member,
    Operator,
}

/// Milliseconds of silence after which a session is pinged, and after which it is ended.
const PING_AFTER: i64 = 120_000;

const LATE_AFTER: i64 = 240_000;

/// A session: whether it is open, when it was last heard of, whether it was pinged since, its nickname by place and
/// spelling, whether a USER was accepted, and its ranks on `#a` and `#b`.
#[derive(Clone, Copy)]
struct Person {
    is_open: bool,
    heard: i64,
    is_pinged: bool,
    nick: Option<(usize, &'static str)>,
    has_user: bool,
    ranks: [Rank; 2],
}

/// A session that didn't come yet, or is gone.
const NOBODY: Person = Person {
    is_open: false,
    heard: 0,
    is_pinged: false,
    nick: None,
    has_user: false,
    ranks: [Rank::Outside; 2],
};

/// More sessions than come.
const MOST: usize = 32;

/// The place of a session.
fn place_of(session: SessionId) -> usize {
    session.number().wrapping_sub(1) as usize
}

/// What became of lines and ends, so that a test can see what it met.
#[derive(Clone, Copy)]
pub(crate) enum Met {
    Named,
    Held,
    Made,
    Joined,
    Parted,
    Kicked,
    NotKicked,
    Shut,
    Missed,
    Gone,
    Pinged,
}

/// How many kinds of these there are.
const KINDS: usize = 11;

/// All sessions, that of the number 1 first, and how often each kind was met.
#[derive(Clone, Copy)]
pub(crate) struct People {
    people: [Person; MOST],
    pub(crate) met: [u64; KINDS],
}

impl People {
    fn at(&self, place: usize) -> Person {
        match self.people.get(place) {
            Some(person) => *person,
            None => NOBODY,
        }
    }

    fn set(&mut self, place: usize, person: Person) {
        if let Some(own) = self.people.get_mut(place) {
            *own = person;
        }
    }

    fn meet(&mut self, kind: Met) {
        if let Some(count) = self.met.get_mut(kind as usize) {
            *count = count.saturating_add(1);
        }
    }

    fn rank(&self, place: usize, channel: usize) -> Rank {
        match self.at(place).ranks.get(channel) {
            Some(rank) => *rank,
            None => Rank::Outside,
        }
    }

    fn set_rank(&mut self, place: usize, channel: usize, rank: Rank) {
        if let Some(person) = self.people.get_mut(place)
            && let Some(own) = person.ranks.get_mut(channel)
        {
            *own = rank;
        }
    }

    /// The place of the first who has a nickname.
    fn holder(&self, nick: usize) -> Option<usize> {
        for (place, person) in self.people.iter().enumerate() {
            if let Some((own, _)) = person.nick
                && own == nick
            {
                return Some(place);
            }
        }
        None
    }

    fn is_registered(&self, place: usize) -> bool {
        let person = self.at(place);
        person.nick.is_some() && person.has_user
    }

    fn is_empty(&self, channel: usize) -> bool {
        for place in 0..MOST {
            if self.rank(place, channel) != Rank::Outside {
                return false;
            }
        }
        true
    }

    /// A nickname is taken where no other session has it in any case.
    fn take_nick(&mut self, by: usize, nick: usize, spelled: &'static str) {
        match self.holder(nick) {
            Some(holder) if holder != by => self.meet(Met::Held),
            _ => {
                let person = Person {
                    nick: Some((nick, spelled)),
                    ..self.at(by)
                };
                self.set(by, person);
                self.meet(Met::Named);
            }
        }
    }

    /// Who joins a channel on which nobody is makes it, and is its operator.
    fn join(&mut self, by: usize, channel: usize) {
        if self.rank(by, channel) != Rank::Outside {
            return;
        }
        if self.is_empty(channel) {
            self.set_rank(by, channel, Rank::Operator);
            self.meet(Met::Made);
        } else {
            self.set_rank(by, channel, Rank::Member);
            self.meet(Met::Joined);
        }
    }

    fn part(&mut self, by: usize, channel: usize) {
        if self.rank(by, channel) != Rank::Outside {
            self.set_rank(by, channel, Rank::Outside);
            self.meet(Met::Parted);
        }
    }

    /// An operator puts a registered member out.
    fn kick(&mut self, by: usize, channel: usize, nick: usize) {
        match self.holder(nick) {
            Some(place)
                if self.rank(by, channel) == Rank::Operator
                    && self.is_registered(place)
                    && self.rank(place, channel) != Rank::Outside => {
                self.set_rank(place, channel, Rank::Outside);
                self.meet(Met::Kicked);
            }
            _ => self.meet(Met::NotKicked),
        }
    }

    fn set_open(&mut self, place: usize, is_open: bool) {
        let person = Person {
            is_open,
            ..self.at(place)
        };
        self.set(place, person);
    }

    /// A session is heard of at a moment.
    fn hear(&mut self, place: usize, moment: Moment) {
        let person = Person {
            heard: moment.milliseconds(),
            is_pinged: false,
            ..self.at(place)
        };
        self.set(place, person);
    }

    /// Whether a session is open and was silent for so long.
    fn is_silent(&self, place: usize, span: i64, moment: Moment) -> bool {
        let person = self.at(place);
        person.is_open && span <= moment.milliseconds().saturating_sub(person.heard)
    }

    /// Each silent session is pinged that wasn't since it was heard of.
    fn ping(&mut self, moment: Moment) {
        for place in 0..MOST {
            let person = self.at(place);
            if self.is_silent(place, PING_AFTER, moment) && !person.is_pinged {
                let person = Person {
                    is_pinged: true,
                    ..person
                };
                self.set(place, person);
                self.meet(Met::Pinged);
            }
        }
    }

    fn shut(&mut self, place: usize, kind: Met) {
        self.set_open(place, false);
        self.meet(kind);
    }

    fn obey(&mut self, by: usize, wish: Wish) {
        match wish {
            Wish::Nick(nick, spelled) => self.take_nick(by, nick, spelled),
            Wish::User => {
                let person = Person {
                    has_user: true,
                    ..self.at(by)
                };
                self.set(by, person);
            }
            Wish::Join(channel) if self.is_registered(by) => self.join(by, channel),
            Wish::Part(channel) if self.is_registered(by) => self.part(by, channel),
            Wish::Kick(channel, nick) if self.is_registered(by) => self.kick(by, channel, nick),
            Wish::Quit => self.shut(by, Met::Shut),
            Wish::Join(_) | Wish::Part(_) | Wish::Kick(_, _) | Wish::Nothing => {}
        }
    }

    /// What a record says, and who missed it.
    fn read(&mut self, record: &Record) {
        match &record.kind {
            Kind::Opened { session, .. } => {
                self.set_open(place_of(*session), true);
                self.hear(place_of(*session), record.moment);
            }
            Kind::Said { session, piece, .. } => {
                self.obey(place_of(*session), wish_of(piece));
                self.hear(place_of(*session), record.moment);
            }
            Kind::Ticked => self.ping(record.moment),
            Kind::Hung { session, .. } => self.shut(place_of(*session), Met::Shut),
            Kind::Gone { session } => {
                self.set(place_of(*session), NOBODY);
                self.meet(Met::Gone);
            }
        }
        for session in record.missed.as_slice() {
            self.shut(place_of(*session), Met::Missed);
        }
    }
}

/// Reads all records of a book.
pub(crate) fn read_back(book: &Ledger<Ring>) -> People {
    let mut people = People {
        people: [NOBODY; MOST],
        met: [0; KINDS],
    };
    for place in 0..book.len() {
        let number = RecordNumber::new(place as u64 + 1);
        if let Some(record) = book.record(number) {
            people.read(record);
        }
    }
    people
}

/// Whether a session is open: it neither quit nor was hung, and missed nothing.
pub(crate) fn slow_open(people: &People, session: SessionId) -> bool {
    people.at(place_of(session)).is_open
}

/// The nickname of a session: the last that it took, until it is gone.
pub(crate) fn slow_nick(people: &People, session: SessionId) -> Option<&'static str> {
    match people.at(place_of(session)).nick {
        Some((_, spelled)) => Some(spelled),
        None => None,
    }
}

/// Whether a session is on a channel.
pub(crate) fn slow_on(people: &People, session: SessionId, channel: usize) -> bool {
    people.rank(place_of(session), channel) != Rank::Outside
}

/// The first open session that is silent for too long at a moment.
pub(crate) fn slow_late(people: &People, moment: Moment) -> Option<SessionId> {
    for place in 0..MOST {
        if people.is_silent(place, LATE_AFTER, moment) {
            return Some(SessionId::new((place as u64).saturating_add(1)));
        }
    }
    None
}
