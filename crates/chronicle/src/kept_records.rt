//! The records that a journal keeps, in room that stays when they are dropped.
ghost use Rattle.std.specs.Prelude.{◌≡◌, ◌<◌, ◌≤◌, ◌+◌, ◌++◌, ◌∷◌, [], length, map, reverse, slice_get, OnOk};
ghost use Rattle.std.specs.Option.{option_map};
ghost use Rattle.chronicle.specs.History.{rec_of};
ghost use Rattle.chronicle.specs.Journal.{room_left, record_at, miss};

use crate::{Record, SessionId};
use std::alloc::{AllocError, Global};
use std::marker::Model;

/// Records in order, and room for more. One that was dropped is still there until a new one takes its room, so
/// dropping all of them takes no longer than dropping one.
#[derive(Drop)]
pub(crate) struct KeptRecords {
    records: Vec<Record>,
    /// How many of the first of them are kept.
    count: usize,
}

impl Model for KeptRecords {
    ghost use Rattle.std.specs.Prelude.{◌-◌, ◌≤◌, take, vec_len, vec_capacity};
    ghost use Rattle.chronicle.specs.Kept.{RecordList};

    ghost Value = { RecordList };

    ghost view = { λ a. record {
      items = take a.count a.records.items;
      free = vec_capacity a.records - a.count;
    } };

    ghost invariant = { λ a. (a.count ≤ vec_len a.records)
        × (vec_len a.records ≤ vec_capacity a.records) };
}

impl KeptRecords {
    /// No records, and no room.
    pub(crate) fn new(alloc: Global) -> KeptRecords
        ensures { result.items ≡ [] }
    {
        KeptRecords {
            records: Vec::new(alloc),
            count: 0,
        }
    }

    /// How many there are.
    pub(crate) fn len(&self) -> usize
        ensures { result ≡ length self.now.items }
    {
        self.count
    }

    /// Makes room for so many more.
    pub(crate) fn reserve(&mut self, more: usize) -> Result<(), AllocError>
        ensures items { self.new.items ≡ self.old.items }
        ensures free { self.old.free ≤ self.new.free }
        ensures ok { OnOk result (more ≤ self.new.free) }
    {
        let dropped = self.records.len() - self.count;
        if more <= dropped {
            return Ok(());
        }
        self.records.reserve(more - dropped)
    }

    /// Adds a record, in room that was made before. One that was dropped goes for it.
    pub(crate) fn push(&mut self, newest: Record)
        requires { 0 < self.old.free }
        ensures items { self.new.items ≡ self.old.items ++ newest ∷ [] }
        ensures free { self.new.free + 1 ≡ self.old.free }
    {
        if self.count < self.records.len() {
            self.records[self.count] = newest;
        } else {
            self.records.push_reserved(newest);
        }
        self.count += 1;
    }

    /// Notes that a session missed the newest of them, in room that was made before.
    pub(crate) fn miss(&mut self, session: SessionId)
        requires { 0 < room_left (reverse self.old.items) }
        ensures missed { map rec_of (reverse self.new.items)
            ≡ miss (map rec_of (reverse self.old.items)) session }
        ensures count { length self.new.items ≡ length self.old.items }
        ensures room { room_left (reverse self.new.items) + 1 ≡ room_left (reverse self.old.items) }
        ensures free { self.new.free ≡ self.old.free }
    {
        if self.count == 0 {
            return;
        }
        self.records[self.count - 1].missed.push_reserved(session);
    }

    /// Drops all of them, and keeps their room.
    pub(crate) fn clear(&mut self)
        ensures items { self.new.items ≡ [] }
        ensures free { self.old.free ≤ self.new.free }
    {
        self.count = 0;
    }

    /// The one at this place.
    pub(crate) fn get(&self, place: usize) -> Option<&Record>
        ensures { record_at result ≡ option_map rec_of (slice_get self.now.items place) }
    {
        if self.count <= place {
            return None;
        }
        self.records.get(place)
    }
}
