//! The seats of all sessions, and what is counted over them.
//!
//! Seats stand apart from outboxes and know nothing of their kind, so the plan and most proofs don't either. Both are
//! in maps until their sessions are reaped. A clause sees lists of all sessions that were opened: a seat that was
//! taken out is `away`, which counts more accepted lines than a number of the program can, so that no seat in the map
//! passes for it.
ghost use Rattle.std.specs.Prelude.{◌≡◌, ◌≢◌, ℕ, ◌<◌, ◌≤◌, ◌+◌, ◌-◌, ◌^◌, ◌++◌, ◌∷◌, [], ◌&&◌, true, false, not};
ghost use Rattle.std.specs.Prelude.{sum_by, length, slice_index_or, slice_set, Some, None, IfSome, OnOk, OnErr};
ghost use Rattle.std.specs.Option.{is_some};
ghost use Rattle.std.specs.VecDeque.{deque_capacity};
ghost use Rattle.roster.specs.LookBack.{numbers};
ghost use Rattle.ledger.specs.Ledger.{first};
ghost use Rattle.ledger.specs.Seats.{no_seat, away, stands, seat_at, kept_by, hears, sweeps, at_its_place, IsSeated};

use crate::entry_places::{EntryPlaces, find_at, find_in, place_in, take_out};
use crate::seat::Seat;
use chronicle::SessionId;
use indexmap::IndexMap;
use std::alloc::{AllocError, Global};
use std::collections::VecDeque;
use std::marker::Model;

/// What a ledger keeps for its sessions beside their outboxes, until they are reaped. How many records are kept free
/// for them and who is to be swept stand ready.
#[derive(Drop)]
pub(crate) struct Seats {
    /// By the numbers of their sessions.
    seats: IndexMap<u64, Seat>,
    places: EntryPlaces,
    opened: u64,
    held: usize,
    /// The numbers of those that are shut and aren't gone, in their order.
    to_sweep: VecDeque<u64>,
}

impl Model for Seats {
    ghost use Rattle.std.specs.Prelude.{List};
    ghost use Rattle.std.specs.VecDeque.{deque_capacity};
    ghost use Rattle.ledger.specs.declared.seat.Seat.{Seat};
    ghost use Rattle.ledger.specs.Seats.{seats_of, AreSeats};

    ghost Value = { List Seat };

    ghost view = { λ a. seats_of a.seats.entries a.opened };

    ghost invariant = { λ a. AreSeats a.seats.entries a.opened a.held a.to_sweep.items
        (deque_capacity a.to_sweep) };
}

/// Puts a number at its place among numbers in their order, of which it isn't one yet. There has to be room for it.
fn add_in_order(numbers: &mut VecDeque<u64>, number: u64)
    requires order { (i j : ℕ) → i ≤ j → j < length numbers.old.items
        → slice_index_or numbers.old.items i 0 ≤ slice_index_or numbers.old.items j 0 }
    requires absent { (i : ℕ) → i < length numbers.old.items
        → slice_index_or numbers.old.items i 0 ≢ number }
    requires room { length numbers.old.items < deque_capacity numbers.old }
    ensures added { numbers.new.items ≡ at_its_place number numbers.old.items }
    ensures room { deque_capacity numbers.old ≤ deque_capacity numbers.new }
{
    let Err(place) = numbers.binary_search(&number) else {
        return;
    };
    match numbers.insert(place, number) {
        Ok(()) => {}
        Err(_) => {}
    }
}

/// Whether a session that stood so is shut now.
fn ends(was: &Seat, shut: bool) -> bool
    ensures { result ≡ (shut && (not was.now.shut && not was.now.gone)) }
{
    shut && (!was.shut && !was.gone)
}

/// A seat as it is. That it stands holds of each: no number is 2 ^ 64.
fn seat_as_it_is(seat: Seat) -> Seat
    ensures same { result ≡ seat }
    ensures stands { stands seat ≡ true }
{
    seat
}

impl Seats {
    /// No seat.
    pub(crate) fn new(alloc: Global) -> Seats
        ensures { result ≡ [] }
    {
        Seats {
            seats: IndexMap::new(alloc),
            places: EntryPlaces::new(alloc),
            opened: 0,
            held: 0,
            to_sweep: VecDeque::new(alloc),
        }
    }

    /// How many sessions were opened.
    pub(crate) fn opened_count(&self) -> u64
        ensures { result ≡ length self.now }
    {
        self.opened
    }

    /// How many records are kept free.
    pub(crate) fn reserve_count(&self) -> usize
        ensures { result ≡ sum_by kept_by self.now }
    {
        self.held
    }

    /// The seat of a session that was opened and isn't reaped.
    pub(crate) fn seat(&self, session: SessionId) -> Option<Seat>
        ensures some { IfSome result
            (λ seat. IsSeated self.now session × (seat ≡ seat_at self.now session)) }
        ensures stands { IfSome result (λ seat. stands seat ≡ true) }
        ensures none { result ≡ None → IsSeated self.now session → seat_at self.now session ≡ away }
    {
        let seat = find_in(&self.seats, &self.places, session)?;
        Some(seat_as_it_is(*seat))
    }

    /// Where the seat of a session is that was opened and isn't shut. The session's outbox is at the same place among
    /// the outboxes: both are added and taken out together.
    pub(crate) fn listening_at(&self, session: SessionId) -> Option<usize>
        ensures { is_some result ≡ hears self.now session }
    {
        let Some((place, seat)) = find_at(&self.seats, &self.places, session) else {
            return None;
        };
        if seat.shut { None } else { Some(place) }
    }

    /// Whether a session was opened and isn't shut.
    pub(crate) fn is_listening(&self, session: SessionId) -> bool
        ensures { result ≡ hears self.now session }
    {
        self.listening_at(session).is_some()
    }

    /// Adds the seat of the next session. A refusal changes nothing.
    pub(crate) fn open(&mut self, session: SessionId) -> Result<(), AllocError>
        requires next { session ≡ length self.old + 1 }
        requires held { sum_by kept_by self.old + 2 < 2 ^ 64 }
        ensures ok { OnOk result (self.new ≡ self.old ++ no_seat ∷ []) }
        ensures err { OnErr result (self.new ≡ self.old) }
    {
        self.seats.reserve(1)?;
        self.places.make_room()?;
        self.to_sweep.reserve(self.held + 2)?;
        let number = session.number();
        let seat = Seat {
            shut: false,
            gone: false,
            accepted: 0,
        };
        self.places.open(session, self.seats.len());
        let _ = self.seats.insert(number, seat).unwrap();
        self.opened = number;
        self.held += 2;
        Ok(())
    }

    /// Notes how a session stands that has a seat and isn't opened again, and that so many more of its lines were
    /// accepted.
    fn change(&mut self, session: SessionId, shut: bool, more: u64)
        requires seated { IsSeated self.old session }
        requires stands { stands (seat_at self.old session) ≡ true }
        requires few { (seat_at self.old session).accepted + more < 2 ^ 64 }
        requires stays { (seat_at self.old session).shut ≡ true → shut ≡ true }
        ensures { self.new ≡ slice_set self.old (session - 1) (record {
          shut = shut;
          gone =
              (seat_at self.old session).gone;
          accepted = (seat_at self.old session).accepted + more;
        }) }
    {
        let number = session.number();
        let Some(place) = place_in(&self.seats, &self.places, session) else {
            unreachable!();
        };
        let Some(seat) = self.seats.get_index_mut(place) else {
            unreachable!();
        };
        let is_end = ends(seat, shut);
        seat.shut = shut;
        seat.accepted += more;
        if !is_end {
            return;
        }
        self.held -= 1;
        add_in_order(&mut self.to_sweep, number);
    }

    /// Notes a line of a session that isn't shut, and whether it quits by it.
    pub(crate) fn say(&mut self, session: SessionId, quits: bool)
        requires seated { IsSeated self.old session }
        requires few { (seat_at self.old session).accepted + 1 < 2 ^ 64 }
        requires not_shut { (seat_at self.old session).shut ≡ false }
        ensures { self.new ≡ slice_set self.old (session - 1) (record {
          shut = quits;
          gone =
              (seat_at self.old session).gone;
          accepted = (seat_at self.old session).accepted + 1;
        }) }
    {
        self.change(session, quits, 1);
    }

    /// Notes that a session is shut. One that was reaped is so already.
    pub(crate) fn set_shut(&mut self, session: SessionId)
        requires from_1 { 0 < session }
        requires opened { session ≤ length self.old }
        ensures { self.new ≡ slice_set self.old (session - 1) (record {
          shut = true;
          gone =
              (seat_at self.old session).gone;
          accepted = (seat_at self.old session).accepted;
        }) }
    {
        if self.seat(session).is_some() {
            self.change(session, true, 0);
        }
    }

    /// Notes that the session that is next to be swept is gone.
    pub(crate) fn leave(&mut self, session: SessionId)
        requires next { first (sweeps self.old) (numbers 1 (length self.old)) ≡ Some session }
        ensures { self.new
            ≡ slice_set self.old (session - 1) (record {
              shut = (seat_at self.old session).shut;
              gone = true;
              accepted = (seat_at self.old session).accepted;
            }) }
    {
        let Some(place) = place_in(&self.seats, &self.places, session) else {
            unreachable!();
        };
        let Some(seat) = self.seats.get_index_mut(place) else {
            unreachable!();
        };
        seat.gone = true;
        self.held -= 1;
        let _ = self.to_sweep.pop_front();
    }

    /// Takes out the seat of a session that is gone.
    pub(crate) fn give_up(&mut self, session: SessionId)
        requires seated { IsSeated self.old session }
        requires gone { (seat_at self.old session).gone ≡ true }
        ensures { self.new ≡ slice_set self.old (session - 1) away }
    {
        let _ = take_out(&mut self.seats, &mut self.places, session);
    }

    /// The shut session of the lowest number that isn't gone.
    pub(crate) fn next_to_sweep(&self) -> Option<SessionId>
        ensures { result ≡ first (sweeps self.now) (numbers 1 (length self.now)) }
    {
        match self.to_sweep.front() {
            Some(number) => Some(SessionId::new(*number)),
            None => None,
        }
    }
}
