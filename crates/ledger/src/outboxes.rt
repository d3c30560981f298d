//! The outboxes of all sessions, and how many there are.
ghost use Rattle.std.specs.Prelude.{◌≡◌, ℕ, ◌<◌, ◌+◌, ◌-◌, ◌^◌, ◌++◌, ◌∷◌, [], true, false, length};
ghost use Rattle.std.specs.Prelude.{slice_get, slice_set, Some, None, is_some, IfSome, IfOk, OnOk};
ghost use Rattle.outbox.specs.Ring.{with_taken};
ghost use Rattle.ledger.specs.Ledger.{box_at, outbox_at, count_here, IsLeft};
ghost use Rattle.ledger.specs.Seats.{stands, seat_at, IsSeated, IsThere, MayFollow, IsTaken, IsNotTaken};
ghost use Rattle.ledger.specs.LastHeard.{since_at};
ghost use Rattle.ledger.specs.Noted.{AreCountsOf};

use crate::base::SessionCounts;
use crate::counted_outbox::CountedOutbox;
use crate::entry_places::{EntryPlaces, is_in, place_in, place_near, take_out};
use crate::last_heard::LastHeard;
use crate::seats::Seats;
use chronicle::SessionId;
use deliveries::Item;
use indexmap::IndexMap;
use outbox::{Outbox, Ring};
use std::alloc::{AllocError, Global};
use std::marker::Model;

/// The outboxes of the sessions that aren't reaped.
#[derive(Drop)]
pub(crate) struct Outboxes<O: Outbox> {
    /// By the numbers of their sessions.
    outboxes: IndexMap<u64, CountedOutbox<O>>,
    places: EntryPlaces,
    opened: u64,
}

impl<O: Outbox> Model for Outboxes<O> {
    ghost use Rattle.std.specs.Prelude.{min};
    ghost use Rattle.indexmap.specs.IndexMap.{spare};
    ghost use Rattle.ledger.specs.Seats.{Boxes, AreBoxes, boxes_of};

    ghost Value = { Boxes O };

    ghost view = { λ a. record {
      boxes = boxes_of a.outboxes.entries a.opened;
      room = min (spare a.outboxes) a.places;
    } };

    ghost invariant = { λ a. AreBoxes a.outboxes.entries a.opened };
}

impl<O: Outbox> Outboxes<O> {
    /// No outbox.
    pub(crate) fn new(alloc: Global) -> Outboxes<O>
        ensures { result.boxes ≡ [] }
    {
        Outboxes {
            outboxes: IndexMap::new(alloc),
            places: EntryPlaces::new(alloc),
            opened: 0,
        }
    }

    /// How many sessions aren't reaped.
    pub(crate) fn here(&self) -> usize
        ensures { result ≡ count_here self.now.boxes }
    {
        self.outboxes.len()
    }

    /// Whether a session was opened and isn't reaped.
    pub(crate) fn is_here(&self, session: SessionId) -> bool
        ensures yes { result ≡ true → IsThere self.now.boxes session }
        ensures no { result ≡ false → IsThere self.now.boxes session → ⊥ }
    {
        is_in(&self.outboxes, &self.places, session)
    }

    /// Makes room for one more.
    pub(crate) fn make_room(&mut self) -> Result<(), AllocError>
        ensures same { self.new.boxes ≡ self.old.boxes }
        ensures ok { OnOk result (0 < self.new.room) }
    {
        self.places.make_room()?;
        self.outboxes.reserve(1)
    }

    /// Adds the outbox of the next session. There has to be room for it.
    pub(crate) fn open(&mut self, session: SessionId, outbox: O)
        requires next { session ≡ length self.old.boxes + 1 }
        requires fresh { O.sent outbox ≡ [] }
        requires room { 0 < self.old.room }
        ensures { self.new.boxes ≡ self.old.boxes ++ Some outbox ∷ [] }
    {
        let number = session.number();
        self.places.open(session, self.outboxes.len());
        let _ = self
            .outboxes
            .insert(number, CountedOutbox::new(outbox))
            .unwrap();
        self.opened = number;
    }

    /// Where the outbox of a session was put last. It may be another's by now.
    pub(crate) fn last_place(&self, session: SessionId) -> usize {
        self.places.last(session)
    }

    /// Puts an item into its session's outbox, which is at this place or elsewhere, and answers whether that took it.
    /// It takes no memory.
    pub(crate) fn offer(&mut self, item: Item, guess: usize) -> bool
        requires there { IsThere self.old.boxes item.session }
        requires next { MayFollow O.sent (box_at self.old.boxes item.session) item }
        requires few { IfSome (box_at self.old.boxes item.session)
            (λ o. length (O.sent o) + 1 < 2 ^ 64) }
        ensures put { result ≡ true → IsTaken O.sent O.accepts self.old.boxes item self.new.boxes }
        ensures fault { result ≡ false → IsNotTaken O.refuses self.old.boxes item }
        ensures same { result ≡ false → self.new.boxes ≡ self.old.boxes }
    {
        let Some(place) = place_near(&self.outboxes, &self.places, item.session(), guess) else {
            unreachable!();
        };
        let Some(outbox) = self.outboxes.get_index_mut(place) else {
            unreachable!();
        };
        outbox.put(item)
    }

    /// What is counted of each session that isn't reaped, by its seat and its outbox, and since when it is idle.
    pub(crate) fn counts(
        &self,
        alloc: Global,
        seats: &Seats,
        last_heard: &LastHeard,
    ) -> Result<IndexMap<u64, SessionCounts>, AllocError>
        requires seated { (t : ℕ) → IsThere self.now.boxes t → IsSeated seats.now t
            × (stands (seat_at seats.now t) ≡ true) }
        requires heard { (t : ℕ) → IsThere self.now.boxes t
            → is_some (since_at last_heard.now t) ≡ true }
        ensures { IfOk result
            (λ m. AreCountsOf O.sent seats.now self.now.boxes last_heard.now m.entries) }
    {
        let mut counts = IndexMap::new(alloc);
        counts.reserve(self.outboxes.len())?;
        for place in 0..self.outboxes.len() {
            let Some((number, outbox)) = self.outboxes.get_index(place) else {
                unreachable!();
            };
            let session = SessionId::new(*number);
            let Some(seat) = seats.seat(session) else {
                unreachable!();
            };
            let Some(since) = last_heard.since(session) else {
                unreachable!();
            };
            let counted = SessionCounts {
                accepted: seat.accepted,
                owed: outbox.count(),
                since,
            };
            counts.insert(*number, counted)?;
        }
        Ok(counts)
    }

    /// Gives up the outbox of a session with its taker, and answers how many items were left in it.
    pub(crate) fn give_up(&mut self, session: SessionId, taker: O::Taker) -> u64
        requires there { IsThere self.old.boxes session }
        requires own { IfSome (box_at self.old.boxes session) (λ o. O.name o ≡ O.taker_of taker) }
        ensures left { IsLeft O.sent O.taken (box_at self.old.boxes session) taker result }
        ensures given { self.new.boxes ≡ slice_set self.old.boxes (session - 1) None }
    {
        let Some(outbox) = take_out(&mut self.outboxes, &mut self.places, session) else {
            unreachable!();
        };
        outbox.close(taker)
    }
}

impl Outboxes<Ring> {
    /// Takes the item that waits longest for a session.
    pub(crate) fn take(&mut self, session: SessionId) -> Option<Item>
        requires there { IsThere self.old.boxes session }
        ensures value { result ≡ slice_get (outbox_at self.old.boxes session).queue 0 }
        ensures none { result ≡ None → self.new.boxes ≡ self.old.boxes }
        ensures taken { self.new.boxes ≡ slice_set self.old.boxes (session - 1)
            (Some (with_taken (outbox_at self.old.boxes session))) }
    {
        let Some(place) = place_in(&self.outboxes, &self.places, session) else {
            unreachable!();
        };
        let Some(outbox) = self.outboxes.get_index_mut(place) else {
            unreachable!();
        };
        outbox.take_now()
    }
}
