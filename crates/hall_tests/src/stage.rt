//! Who is in a hall: sessions with all that is held of each, and what was read and who was told there.
use crate::acts::{Act, is_so};
use crate::guests::{Guest, Made, enter};
use crate::making::{Steps, Story};
use book::{FlushList, Hall, Naming, ReadLine, StableName};
use chronicle::{Moment, SessionId};
use line_grammar::Piece;
use std::alloc::Global;

/// Sessions that came in this round, each until it is given up, and how many came before; the clock; the line that is
/// said next, and one that was read; and the list of who got something.
#[derive(Drop)]
pub(crate) struct Stage<L: Naming, O: StableName<Taker = T>, T: Drop> {
    pub(crate) guests: Vec<Option<Guest<L, O, T>>>,
    before: u64,
    pub(crate) now: i64,
    pub(crate) piece: Piece,
    pub(crate) read: Option<ReadLine>,
    pub(crate) was_said: bool,
    pub(crate) flushes: FlushList,
    /// How often there was no memory for the list.
    pub(crate) alls: u32,
}

/// Where what is held of a session stands.
pub(crate) fn place(session: u64) -> usize {
    session.wrapping_sub(1) as usize
}

impl<L: Naming, O: StableName<Taker = T>, T: Drop> Stage<L, O, T> {
    /// Nobody came, and the clock shows 0.
    pub(crate) fn new(alloc: Global) -> Stage<L, O, T> {
        Stage {
            guests: Vec::new(alloc),
            before: 0,
            now: 0,
            piece: Piece::TooLong,
            read: None,
            was_said: false,
            flushes: FlushList::new(alloc),
            alls: 0,
        }
    }

    /// The clock shows this moment.
    pub(crate) fn at(&mut self, moment: i64) -> bool {
        self.now = moment;
        true
    }

    /// The moment.
    pub(crate) fn moment(&self) -> Moment {
        Moment::new(self.now)
    }

    /// The session of this number in this round.
    pub(crate) fn id(&self, session: u64) -> SessionId {
        SessionId::new(self.before.saturating_add(session))
    }

    /// Whether what is held of a session was there, and is let go.
    pub(crate) fn is_cut(&mut self, session: u64) -> bool {
        match self.guests.get_mut(place(session)) {
            Some(held) => held.take().is_some(),
            None => false,
        }
    }

    /// Makes room for one session more, and answers whether there is.
    fn has_room(&mut self) -> bool {
        self.guests.reserve(1).is_ok() || self.guests.reserve(1).is_ok()
    }

    /// One comes, with an outbox for so many items, and answers whether it has the next number.
    fn comes<R>(&mut self, rt: &R, alloc: Global, hall: &mut Hall<L, O>, cap: usize) -> bool
    where
        O: Made<R, T>,
    {
        let number = self.id(self.guests.len() as u64).number().saturating_add(1);
        match enter(rt, alloc, hall, cap, self.moment()) {
            Some(guest) => {
                let is_next = guest.baton.session().number() == number;
                self.guests.push(Some(guest)).is_ok() && is_next
            }
            None => false,
        }
    }

    /// So many come.
    pub(crate) fn come<R>(
        &mut self,
        rt: &R,
        alloc: Global,
        hall: &mut Hall<L, O>,
        count: u64,
        cap: usize,
    ) -> bool
    where
        O: Made<R, T>,
    {
        let mut is_right = true;
        for _ in 0..count {
            is_right = self.has_room() && self.comes(rt, alloc, hall, cap) && is_right;
        }
        is_right
    }

    /// Acts follow, and whether each comes to what it says is noted.
    pub(crate) fn goes<R>(
        &mut self,
        rt: &R,
        alloc: Global,
        hall: &mut Hall<L, O>,
        acts: &[Act],
        steps: &mut Steps,
    )
    where
        O: Made<R, T>,
    {
        for act in acts {
            steps.note(is_so::<L, O, R, T>(rt, alloc, hall, self, act));
        }
    }

    /// A round begins: who came before is counted, and held no more.
    fn begins(&mut self) {
        self.before = self.before.saturating_add(self.guests.len() as u64);
        self.guests.clear();
    }

    /// Plays a story.
    pub(crate) fn plays<R>(
        &mut self,
        rt: &R,
        alloc: Global,
        hall: &mut Hall<L, O>,
        story: &Story,
        steps: &mut Steps,
    )
    where
        O: Made<R, T>,
    {
        for _ in 0..story.rounds {
            self.begins();
            for acts in story.parts {
                self.goes(rt, alloc, hall, acts, steps);
            }
        }
    }
}
