//! Who got something.
//!
//! A thread hands its own list to each step, so it collects over many lines. A record that reaches nearly the same
//! sessions as the one before moves a place along the list, so several lines of a few speakers to one channel cost its
//! members one write each.
ghost use Rattle.std.specs.Prelude.{◌≡◌, ◌≤◌, ℕ, true, false, [], IfSome};
ghost use Rattle.book.specs.Flushes.{is_listed};

use chronicle::SessionId;
use smallvec::SmallVec;
use std::alloc::Global;
use std::marker::Model;

/// How many places of the list are searched for a session that the newest record tells.
const AHEAD: usize = 4;

/// Sessions into whose outboxes something was put, in the order of the puts; or all, where there was no memory for
/// the list. A record that tells those whom one before it told adds nothing, and few where some are left out. Two of
/// them take no memory of their own.
#[derive(Drop)]
pub struct FlushList {
    sessions: SmallVec<SessionId, 2>,
    all: bool,
    records: usize,
    // How many stood in the list when the newest record began: it tells nobody twice.
    known: usize,
    // Where the newest record is in the list: behind the last that it told again.
    place: usize,
}

impl Model for FlushList {
    ghost use Rattle.book.specs.Flushes.{FlushView};

    ghost Value = { FlushView };

    ghost view = { λ a. record { sessions = a.sessions.items; all = a.all; records = a.records } };
}

impl FlushList {
    /// Nobody.
    pub fn new(alloc: Global) -> FlushList
        ensures sessions { result.sessions ≡ [] }
        ensures all { result.all ≡ false }
        ensures records { result.records ≡ 0 }
    {
        FlushList {
            sessions: SmallVec::new(alloc),
            all: false,
            records: 0,
            known: 0,
            place: 0,
        }
    }

    /// Another record begins. Room is made for one session more, as far as there is memory.
    pub fn begin(&mut self)
        ensures sessions { self.new.sessions ≡ self.old.sessions }
        ensures all { self.new.all ≡ self.old.all }
        ensures records { self.old.records ≤ self.new.records }
    {
        self.records = self.records.saturating_add(1);
        self.known = self.sessions.len();
        self.place = 0;
        if self.sessions.capacity() <= self.sessions.len() {
            let _ = self.sessions.reserve(1);
        }
    }

    /// Where a session stands in the list, if that is where the newest record is or little behind, among those of the
    /// records before.
    fn next_place(&self, session: SessionId) -> Option<usize>
        ensures { IfSome result (λ _. is_listed self.now session ≡ true) }
    {
        let sessions = self.sessions.as_slice();
        let most = sessions.len().min(self.known);
        let end = most.min(self.place.saturating_add(AHEAD));
        for place in self.place..end {
            if sessions[place] == session {
                return Some(place);
            }
        }
        None
    }

    /// Notes a session. Where there is no memory for it, all are told.
    pub(crate) fn note(&mut self, session: SessionId)
        ensures flushes { is_listed self.new session ≡ true }
        ensures kept { (t : ℕ) → is_listed self.old t ≡ true → is_listed self.new t ≡ true }
    {
        if let Some(place) = self.next_place(session) {
            self.place = place.saturating_add(1);
        } else if self.sessions.push(session).is_err() {
            self.all = true;
        }
    }

    /// Notes a session, without taking memory. Where no room was made for it, all are told.
    pub(crate) fn note_in_room(&mut self, session: SessionId)
        ensures flushes { is_listed self.new session ≡ true }
        ensures kept { (t : ℕ) → is_listed self.old t ≡ true → is_listed self.new t ≡ true }
    {
        if let Some(place) = self.next_place(session) {
            self.place = place.saturating_add(1);
        } else if self.sessions.len() < self.sessions.capacity() {
            self.sessions.push_reserved(session);
        } else {
            self.all = true;
        }
    }

    /// The allocator of the list.
    pub fn allocator(&self) -> Global {
        *self.sessions.allocator()
    }

    /// The sessions, in the order of the puts.
    pub fn sessions(&self) -> &[SessionId]
        ensures { result.now ≡ self.now.sessions }
    {
        self.sessions.as_slice()
    }

    /// Whether others may have got something, too.
    pub fn is_all(&self) -> bool
        ensures { result ≡ self.now.all }
    {
        self.all
    }

    /// How many records there were.
    pub fn records(&self) -> usize
        ensures { result ≡ self.now.records }
    {
        self.records
    }

    /// Nobody any more.
    pub fn clear(&mut self)
        ensures sessions { self.new.sessions ≡ [] }
        ensures all { self.new.all ≡ false }
        ensures records { self.new.records ≡ 0 }
    {
        self.sessions.clear();
        self.all = false;
        self.records = 0;
        self.known = 0;
        self.place = 0;
    }
}
