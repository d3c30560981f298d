//! Where the entry of each session is in a map, so that a look-up needs no hash.
ghost use Rattle.std.specs.Prelude.{◌≡◌, ◌+◌, ◌<◌, ℕ, cond, nat_eq, length, slice_get, is_some};
ghost use Rattle.std.specs.Prelude.{if◌then◌else◌, None, Some, IfSome, OnOk, option_copied};
ghost use Rattle.std.specs.Map.{lookup};
ghost use Rattle.std.specs.Option.{option_map};
ghost use Rattle.ledger.specs.Seats.{IsPlace};

use chronicle::SessionId;
use indexmap::IndexMap;
use std::alloc::{AllocError, Global};
use std::marker::Model;

/// Where the entry of each session that was opened was put last, by their numbers. Each takes two octets, which is
/// enough for all that may be there at a time. Clauses see no place, since it may be another's by now, but for how
/// many more there is room.
#[derive(Drop)]
pub(crate) struct EntryPlaces {
    places: Vec<u16>,
}

impl Model for EntryPlaces {
    ghost use Rattle.std.specs.Prelude.{◌-◌, ℕ, vec_len, vec_capacity};

    ghost Value = { ℕ };

    ghost view = { λ a. vec_capacity a.places - vec_len a.places };
}

impl EntryPlaces {
    /// No session was opened.
    pub(crate) fn new(alloc: Global) -> EntryPlaces {
        EntryPlaces {
            places: Vec::new(alloc),
        }
    }

    /// Makes room for one more.
    pub(crate) fn make_room(&mut self) -> Result<(), AllocError>
        ensures { OnOk result (0 < self.new) }
    {
        self.places.reserve(1)
    }

    /// The next session is opened, and its entry was put at a place. It takes no memory.
    pub(crate) fn open(&mut self, session: SessionId, place: usize)
        requires { 0 < self.old }
    {
        self.places.push_reserved(0);
        self.put(session, place);
    }

    /// The entry of a session was put at a place, which is kept if the session was opened and the place is below 2 ^
    /// 16.
    fn put(&mut self, session: SessionId, place: usize) {
        let number = session.number();
        if number == 0 || place > u16::MAX as usize {
            return;
        }
        if let Some(last) = self.places.get_mut(number as usize - 1) {
            *last = place as u16;
        }
    }

    /// Where the entry of a session was put last. It may be another's by now.
    pub(crate) fn last(&self, session: SessionId) -> usize {
        let number = session.number();
        if number == 0 {
            return 0;
        }
        match self.places.get(number as usize - 1) {
            Some(place) => *place as usize,
            None => 0,
        }
    }
}

/// The entry at a place, where that is a session's.
fn entry_at<V>(map: &IndexMap<u64, V>, place: usize, session: SessionId) -> Option<&V>
    ensures entry { IfSome result (λ v. slice_get map.now.entries place ≡ Some (session, v.now)) }
    ensures found { IfSome result (λ v. lookup (nat_eq session) map.now.entries ≡ Some v.now) }
{
    let (number, value) = map.get_index(place)?;
    if *number == session.number() {
        Some(value)
    } else {
        None
    }
}

/// The place of a session's entry, searched for by its number. Few look-ups come here, so it stands apart from them.
#[inline(never)]
fn place_by_number<V>(map: &IndexMap<u64, V>, session: SessionId) -> Option<usize>
    ensures there { IfSome result (IsPlace map.now.entries session) }
    ensures absent { result ≡ None → lookup (nat_eq session) map.now.entries ≡ None }
{
    let (place, _, _) = map.get_full(&session.number())?;
    Some(place)
}

/// The entry of a session and its place, searched for by its number, as `place_by_number` does.
#[inline(never)]
fn entry_by_number<V>(map: &IndexMap<u64, V>, session: SessionId) -> Option<(usize, &V)>
    ensures { option_map (λ r. r.1.now) result ≡ lookup (nat_eq session) map.now.entries }
{
    let (place, _, value) = map.get_full(&session.number())?;
    Some((place, value))
}

/// The place of a session's entry: where it was put last, if it is still there, and else by its number.
pub(crate) fn place_in<V>(
    map: &IndexMap<u64, V>,
    places: &EntryPlaces,
    session: SessionId,
) -> Option<usize>
    ensures there { IfSome result (IsPlace map.now.entries session) }
    ensures absent { result ≡ None → lookup (nat_eq session) map.now.entries ≡ None }
{
    let place = places.last(session);
    if entry_at(map, place, session).is_some() {
        return Some(place);
    }
    place_by_number(map, session)
}

/// The place of a session's entry: at a guess, if it is there, and else as `place_in` finds it.
pub(crate) fn place_near<V>(
    map: &IndexMap<u64, V>,
    places: &EntryPlaces,
    session: SessionId,
    guess: usize,
) -> Option<usize>
    ensures there { IfSome result (IsPlace map.now.entries session) }
    ensures absent { result ≡ None → lookup (nat_eq session) map.now.entries ≡ None }
{
    if entry_at(map, guess, session).is_some() {
        return Some(guess);
    }
    place_in(map, places, session)
}

/// The entry of a session and its place: where it was put last, if it is still there, and else by its number.
pub(crate) fn find_at<'a, V>(
    map: &'a IndexMap<u64, V>,
    places: &EntryPlaces,
    session: SessionId,
) -> Option<(usize, &'a V)>
    ensures { option_map (λ r. r.1.now) result ≡ lookup (nat_eq session) map.now.entries }
{
    let place = places.last(session);
    if let Some(value) = entry_at(map, place, session) {
        return Some((place, value));
    }
    entry_by_number(map, session)
}

/// The entry of a session.
pub(crate) fn find_in<'a, V>(
    map: &'a IndexMap<u64, V>,
    places: &EntryPlaces,
    session: SessionId,
) -> Option<&'a V>
    ensures { option_copied result ≡ lookup (nat_eq session) map.now.entries }
{
    let (_, value) = find_at(map, places, session)?;
    Some(value)
}

/// Whether a session has an entry.
pub(crate) fn is_in<V>(map: &IndexMap<u64, V>, places: &EntryPlaces, session: SessionId) -> bool
    ensures { result ≡ is_some (lookup (nat_eq session) map.now.entries) }
{
    find_in(map, places, session).is_some()
}

/// Takes the entry of a session out. The last takes its place: its session is told so.
pub(crate) fn take_out<V>(
    map: &mut IndexMap<u64, V>,
    places: &mut EntryPlaces,
    session: SessionId,
) -> Option<V>
    ensures value { result ≡ lookup (nat_eq session) map.old.entries }
    ensures others { (q : ℕ) → lookup (nat_eq q) map.new.entries
        ≡ cond (nat_eq session q) None (lookup (nat_eq q) map.old.entries) }
    ensures count { length map.new.entries + (if is_some result then 1 else 0)
        ≡ length map.old.entries }
{
    let (place, _, value) = map.swap_remove_full(&session.number())?;
    if let Some((number, _)) = map.get_index(place) {
        places.put(SessionId::new(*number), place);
    }
    Some(value)
}
