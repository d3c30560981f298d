//! What is kept of each session that ever came: why it ended, and where its card is.
ghost use Rattle.std.specs.Prelude.{◌≡◌, ◌+◌, ◌-◌, ◌<◌, ◌≤◌, ◌^◌, ◌++◌, ◌∷◌, ◌==◌, ℕ, []};
ghost use Rattle.std.specs.Prelude.{cond, length, unwrap_or, IfOk, OnOk};
ghost use Rattle.chronicle.specs.declared.why.Why.TheVariants.{SendQ};
ghost use Rattle.roster.specs.LookBack.{tells_why};
ghost use Rattle.roster.specs.Tables.{is_opening, why_at, IsOf};

use crate::deed::Deed;
use chronicle::{SessionId, Why};
use std::alloc::{AllocError, Global};
use std::marker::Model;

/// What is kept of one session. Clauses see why it ended, and not the place, since that may be another's by now.
#[derive(Drop)]
struct SessionEnd {
    place: u16,
    why: Why,
}

impl Model for SessionEnd {
    ghost use Rattle.chronicle.specs.declared.why.Why.{Why};

    ghost Value = { Why };

    ghost view = { λ a. a.why };
}

// A copy of the table has its cards at the same places.
impl Clone for SessionEnd {
    ghost is_clone = { λ a b. b ≡ a };

    fn clone(&self) -> Result<SessionEnd, AllocError> {
        Ok(SessionEnd {
            place: self.place,
            why: self.why,
        })
    }
}

impl SessionEnd {
    /// A session that didn't end, and has no card.
    fn new() -> SessionEnd
        ensures { result ≡ SendQ }
    {
        SessionEnd {
            place: 0,
            why: Why::SendQ,
        }
    }

    /// Why it ended.
    fn why(&self) -> Why
        ensures { result ≡ self.now }
    {
        self.why
    }

    /// It ended for this reason.
    fn end(&mut self, why: Why)
        ensures { self.new ≡ why }
    {
        self.why = why;
    }

    /// Its card was put at this place.
    fn put(&mut self, place: u16)
        ensures { self.new ≡ self.old }
    {
        self.place = place;
    }
}

/// What is kept of each session that was opened, by their numbers: why it ended, since a server may find only
/// afterwards that it did, and the place of its card while it has one, so that a look-up needs no hash. Each takes
/// four octets.
#[derive(Drop)]
pub(crate) struct SessionEnds {
    marks: Vec<SessionEnd>,
}

impl Model for SessionEnds {
    ghost use Rattle.std.specs.Prelude.{◌-◌, vec_len, vec_capacity};
    ghost use Rattle.chronicle.specs.declared.why.Why.{Why};
    ghost use Rattle.roster.specs.Table.{Table};

    ghost Value = { Table Why };

    ghost view = { λ a. record {
      list = a.marks.items;
      room = vec_capacity a.marks - vec_len a.marks;
    } };
}

impl SessionEnds {
    /// No session was opened.
    pub(crate) fn new(alloc: Global) -> SessionEnds
        ensures { result.list ≡ [] }
    {
        SessionEnds {
            marks: Vec::new(alloc),
        }
    }

    /// A copy.
    pub(crate) fn try_clone(&self) -> Result<SessionEnds, AllocError>
        ensures { IfOk result (λ r. r.list ≡ self.now.list) }
    {
        Ok(SessionEnds {
            marks: self.marks.clone()?,
        })
    }

    /// Makes room for so many more.
    pub(crate) fn reserve(&mut self, more: usize) -> Result<(), AllocError>
        ensures list { self.new.list ≡ self.old.list }
        ensures kept { self.old.room ≤ self.new.room }
        ensures room { OnOk result (more ≤ self.new.room) }
    {
        self.marks.reserve(more)
    }

    /// How many sessions were opened.
    pub(crate) fn len(&self) -> usize
        ensures count { result ≡ length self.now.list }
        ensures bound { result < 2 ^ 63 }
    {
        self.marks.len()
    }

    /// Why a session ended; where that was never told its outbox was full.
    pub(crate) fn why(&self, session: SessionId) -> Why
        ensures { result ≡ why_at self.now.list session }
    {
        let number = session.number();
        if number == 0 {
            return Why::SendQ;
        }
        match self.marks.get(number as usize - 1) {
            Some(mark) => mark.why(),
            None => Why::SendQ,
        }
    }

    /// The next session is opened. It takes no memory.
    fn open(&mut self)
        requires { 0 < self.old.room }
        ensures list { self.new.list ≡ self.old.list ++ SendQ ∷ [] }
        ensures room { self.new.room ≡ self.old.room - 1 }
    {
        self.marks.push_reserved(SessionEnd::new());
    }

    /// Why a session that was opened ended.
    pub(crate) fn set(&mut self, session: SessionId, why: Why)
        requires from_1 { 0 < session }
        requires opened { session ≤ length self.old.list }
        ensures whys { (t : ℕ) → why_at self.new.list t
            ≡ cond (session == t) why (why_at self.old.list t) }
        ensures count { length self.new.list ≡ length self.old.list }
        ensures room { self.new.room ≡ self.old.room }
    {
        self.marks[session.number() as usize - 1].end(why);
    }

    /// Where the card of a session was put last. It may be another's by now.
    pub(crate) fn place(&self, session: SessionId) -> usize {
        let number = session.number();
        if number == 0 {
            return 0;
        }
        match self.marks.get(number as usize - 1) {
            Some(mark) => usize::from(mark.place),
            None => 0,
        }
    }

    /// The card of a session was put at a place, which is kept if the session was opened and the place is below
    /// 65,536.
    pub(crate) fn put(&mut self, session: SessionId, place: usize)
        ensures { self.new ≡ self.old }
    {
        let number = session.number();
        if number == 0 || place > usize::from(u16::MAX) {
            return;
        }
        if let Some(mark) = self.marks.get_mut(number as usize - 1) {
            mark.put(place as u16);
        }
    }

    /// What a deed tells of it. There has to be room for a session, and it takes no memory.
    pub(crate) fn hear(&mut self, deed: &Deed)
        requires of { IsOf (length self.old.list) deed.now }
        requires room { 0 < self.old.room }
        ensures whys { (t : ℕ) → why_at self.new.list t
            ≡ unwrap_or (tells_why t deed.now) (why_at self.old.list t) }
        ensures count { length self.new.list
            ≡ length self.old.list + cond (is_opening deed.now) 1 0 }
        ensures room { self.old.room - 1 ≤ self.new.room }
    {
        match deed {
            Deed::Opened { .. } => self.open(),
            Deed::Ended { session, why, .. } => self.set(*session, *why),
            Deed::Gone { session } => self.set(*session, Why::SendQ),
            _ => {}
        }
    }
}
