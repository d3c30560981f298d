//! The list of records, and the room that is made before a record is written. Records may be dropped, and still count.
ghost use Rattle.std.specs.Prelude.{◌≡◌, ◌<◌, ◌≤◌, ◌+◌, ◌-◌, ◌^◌, ◌↔◌, ◌∷◌, [], false, length, OnOk, OnErr};
ghost use Rattle.std.specs.Prelude.{IfOk, IsErrOf};

use crate::kept_records::KeptRecords;
use crate::{Kind, Moment, Record, RecordNumber, SessionId};
use smallvec::SmallVec;
use snapshots::{GhostChange, Snapshot, apply};
use std::alloc::{AllocError, Global};
use std::marker::Model;
use std::mem;

/// Why room wasn't made.
#[derive(Clone, Copy, Debug, PartialEq)]
pub enum JournalRefusal {
    /// The journal would go past its limit.
    Full,
    /// A growth was refused.
    Memory,
}

/// No record has a higher number.
const MAX_NUMBER: usize = 1 << 60;

/// The records that were dropped. It has no bytes: clauses alone know them.
#[derive(Drop)]
struct Past {}

impl Model for Past {
    ghost use Rattle.std.specs.Prelude.{List, []};
    ghost use Rattle.chronicle.specs.History.{Rec};

    ghost Value = { List Rec };

    ghost view = { λ _. [] };
}

// The records that were kept are dropped.
struct Drops;

impl GhostChange<Past, KeptRecords> for Drops {
    ghost use Rattle.chronicle.specs.Journal.{with_kept};

    ghost changed = { with_kept };
}

/// A list of records with a limit. Room for a record, and for the sessions that miss it, is made before it is
/// appended.
#[derive(Drop)]
pub struct Journal {
    /// Those that weren't dropped.
    records: KeptRecords,
    limit: usize,
    prepared: SmallVec<SessionId, 1>,
    /// How many were dropped.
    dropped: usize,
    /// Whether it was cut, of however many records.
    is_cut: bool,
    past: Snapshot<Past>,
    /// The moment of the newest record, 0 before the first.
    last: Moment,
}

impl Model for Journal {
    ghost use Rattle.std.specs.Prelude.{◌≡◌, [], reverse, length, min, ◌+◌, ◌-◌, ◌^◌, ◌≤◌};
    ghost use Rattle.chronicle.specs.History.{last_moment};
    ghost use Rattle.chronicle.specs.Journal.{JournalView, room_left, most, history_of};

    ghost Value = { JournalView };

    ghost view = { λ a. record {
      history = history_of a.records.items a.past.value;
      limit = record { records = a.limit; dropped = a.dropped; is_cut = a.is_cut };
      room = min a.records.free (most (record { records = a.limit; dropped = a.dropped; is_cut = a.is_cut })
          - (a.dropped + length a.records.items));
      prepared = a.prepared.capacity
          - length a.prepared.items;
      left = room_left (reverse a.records.items);
    } };

    ghost invariant = { λ a. (length a.records.items ≤ a.limit)
        × (a.dropped + length a.records.items ≤ 2 ^ 60) × (a.dropped ≡ length a.past.value)
        × (a.last ≡ last_moment (history_of a.records.items a.past.value)) × (a.prepared.items ≡ [])
        × (1 ≤ a.prepared.capacity) };
}

impl Journal {
    ghost use Rattle.chronicle.specs.History.{last_moment};
    ghost use Rattle.chronicle.specs.Journal.{Appends, Misses, Cuts, IsRoomier, record_at, nth_record, most};

    /// An empty journal that keeps at most `limit` records.
    pub fn with_limit(alloc: Global, limit: usize) -> Result<Journal, AllocError>
        ensures { IfOk result
            (λ j. (j.history ≡ [])
            × (j.limit ≡ record { records = limit; dropped = 0; is_cut = false })) }
    {
        Ok(Journal {
            records: KeptRecords::new(alloc),
            limit,
            prepared: SmallVec::new(alloc),
            dropped: 0,
            is_cut: false,
            past: Snapshot::of(&Past {}),
            last: Moment::new(0),
        })
    }

    /// The highest number that a record may have.
    pub fn most(&self) -> usize
        ensures value { result ≡ most self.now.limit }
        ensures enough { length self.now.history ≤ result }
    {
        if MAX_NUMBER - self.dropped < self.limit {
            MAX_NUMBER
        } else {
            self.dropped + self.limit
        }
    }

    /// Makes room for so many more records, and for so many sessions that miss the next of them.
    pub fn reserve(&mut self, records: usize, missed: usize) -> Result<(), JournalRefusal>
        ensures same { IsRoomier self.old self.new }
        ensures ok { OnOk result ((records ≤ self.new.room) × (missed ≤ self.new.prepared)) }
        ensures full { IsErrOf result JournalRefusal.Full
            ↔ (most self.old.limit < length self.old.history + records) }
    {
        if self.most() - self.newest() < records {
            return Err(JournalRefusal::Full);
        }
        self.records
            .reserve(records)
            .map_err(|_| JournalRefusal::Memory)?;
        self.prepared
            .reserve(missed)
            .map_err(|_| JournalRefusal::Memory)?;
        Ok(())
    }

    /// Appends a record that nobody missed, in room that was made before. It takes no memory, and one session may
    /// always miss it.
    pub fn append(&mut self, moment: Moment, kind: Kind) -> RecordNumber
        requires { 0 < self.old.room }
        ensures number { result ≡ length self.old.history + 1 }
        ensures appended { Appends self.old self.new moment kind }
        ensures one { 1 ≤ self.new.left }
        ensures kept { self.new.limit.dropped < length self.new.history }
    {
        let number = RecordNumber::new(self.newest() as u64 + 1);
        let fresh = SmallVec::new(*self.prepared.allocator());
        let missed = mem::replace(&mut self.prepared, fresh);
        self.last = moment;
        self.records.push(Record {
            number,
            moment,
            kind,
            missed,
        });
        number
    }

    /// Notes that a session missed the newest record, in room that was made before. It takes no memory.
    pub fn miss(&mut self, session: SessionId)
        requires { 0 < self.old.left }
        ensures { Misses self.old self.new session }
    {
        self.records.miss(session);
    }

    /// Drops all records, and keeps the room that was made. Numbers go on. It takes no memory.
    pub fn cut(&mut self)
        ensures { Cuts self.old self.new }
    {
        apply::<Drops, Past, KeptRecords>(&mut self.past, &self.records);
        self.dropped += self.records.len();
        self.is_cut = true;
        self.records.clear();
    }

    /// The record of this number, if there is one that wasn't dropped.
    pub fn get(&self, number: RecordNumber) -> Option<&Record>
        ensures { record_at result ≡ nth_record self.now.history self.now.limit.dropped number }
    {
        let place = number.number() as usize;
        if place <= self.dropped {
            return None;
        }
        self.records.get(place - self.dropped - 1)
    }

    /// The moment of the newest record, 0 before the first.
    pub fn last_moment(&self) -> Moment
        ensures { result ≡ last_moment self.now.history }
    {
        self.last
    }

    /// The number of the newest record, 0 before the first.
    pub fn newest(&self) -> usize
        ensures { result ≡ length self.now.history }
    {
        self.dropped + self.records.len()
    }

    /// How many records are kept.
    pub fn len(&self) -> usize
        ensures { result + self.now.limit.dropped ≡ length self.now.history }
    {
        self.records.len()
    }
}
