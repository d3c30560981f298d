//! The table of channels.
ghost use Rattle.std.specs.List.{remove};
ghost use Rattle.std.specs.Map.{lookup, remove_entry};
ghost use Rattle.std.specs.Str.{bytes_eq};
ghost use Rattle.indexmap.specs.IndexMap.{spare};
ghost use Rattle.std.specs.Prelude.{◌≡◌, ◌+◌, ◌<◌, ◌≤◌, ◌++◌, ◌∷◌, ℕ, suc, true, false, [], Some};
ghost use Rattle.std.specs.Prelude.{None, length, option_copied, slice_get, IfOk, OnOk, OnErr};
ghost use Rattle.casemapping.specs.Fold.{name_fold, is_same};
ghost use Rattle.channel_state.specs.State.{among, with_change, after_gone};
ghost use Rattle.roster.specs.Tables.{channel_of, state_in, room_in, Reholds, Makes, Changes, IsPlace, Departs};
ghost use Rattle.roster.specs.Stands.{Alike, AreApart, LeavesThose, AreHeld, AreHeldBut, AreSpare, Reserves};

use crate::boxed_channel::BoxedChannel;
use crate::hashing::NameHashing;
use crate::tables::Channel;
use casemapping::{Folded, is_same};
use channel_state::Change;
use chronicle::SessionId;
use indexmap::IndexMap;
use line_grammar::Octets;
use std::alloc::{AllocError, Global};
use std::marker::Model;

/// The channels that are there, in the order of making, each found by its name however that is spelled.
#[derive(Drop)]
pub(crate) struct Channels {
    alloc: Global,
    channels: IndexMap<Folded, Channel, NameHashing>,
}

impl Model for Channels {
    ghost use Rattle.indexmap.specs.IndexMap.{spare, values};
    ghost use Rattle.roster.specs.Table.{Table};
    ghost use Rattle.roster.specs.declared.tables.Channel.{Channel};
    ghost use Rattle.roster.specs.Tables.{AreKeyed};

    ghost Value = { Table Channel };

    ghost view = { λ a. record { list = values a.channels; room = spare a.channels } };

    ghost invariant = { λ a. AreKeyed a.channels.entries };
}

/// Adds a channel under a key that isn't there, in room that was made.
fn push(channels: &mut IndexMap<Folded, Channel, NameHashing>, key: Folded, channel: Channel)
    requires absent { lookup (bytes_eq key) channels.old.entries ≡ None }
    requires room { 0 < spare channels.old }
    ensures entries { channels.new.entries ≡ channels.old.entries ++ (key, channel) ∷ [] }
    ensures room { spare channels.old ≤ spare channels.new + 1 }
{
    let _ = channels.insert(key, channel).unwrap();
}

/// Takes a channel out.
fn take_out(channels: &mut IndexMap<Folded, Channel, NameHashing>, key: &Folded)
    ensures entries { channels.new.entries ≡ remove_entry (bytes_eq key.now) channels.old.entries }
    ensures room { spare channels.old ≤ spare channels.new }
{
    channels.shift_remove(key);
}

/// Takes the channel at a place out.
fn take_out_at(channels: &mut IndexMap<Folded, Channel, NameHashing>, place: usize)
    ensures entries { channels.new.entries ≡ remove channels.old.entries place }
    ensures room { spare channels.old ≤ spare channels.new }
{
    channels.shift_remove_index(place);
}

/// The place of the channel of a name.
fn place_in(channels: &[Channel], name: &[u8]) -> Option<usize>
    ensures { IsPlace channels.now name.now result }
{
    for (place, channel) in channels.iter().enumerate() {
        if is_same(channel.name.as_slice(), name) {
            return Some(place);
        }
    }
    None
}

impl Channels {
    /// No channel is there.
    pub(crate) fn new(alloc: Global, hashing: NameHashing) -> Channels
        ensures { result.list ≡ [] }
    {
        Channels {
            alloc,
            channels: IndexMap::with_hasher(alloc, hashing),
        }
    }

    /// A copy, whose channels have room for no change.
    pub(crate) fn try_clone(&self) -> Result<Channels, AllocError>
        ensures { IfOk result (λ r. Alike self.now.list r.list) }
    {
        Ok(Channels {
            alloc: self.alloc,
            channels: self.channels.clone()?,
        })
    }

    /// Makes room for so many more.
    pub(crate) fn reserve(&mut self, more: usize) -> Result<(), AllocError>
        ensures list { self.new.list ≡ self.old.list }
        ensures kept { self.old.room ≤ self.new.room }
        ensures room { OnOk result (more ≤ self.new.room) }
    {
        self.channels.reserve(more)
    }

    /// The channels, in the order of making.
    pub(crate) fn as_slice(&self) -> &[Channel]
        ensures { result.now ≡ self.now.list }
    {
        self.channels.values().as_slice()
    }

    /// How many channels there are.
    pub(crate) fn len(&self) -> usize
        ensures { result ≡ length self.now.list }
    {
        self.channels.len()
    }

    /// The channel of a name, where there is no memory to fold that.
    fn search(&self, name: &[u8]) -> Option<&Channel>
        ensures { option_copied result ≡ channel_of self.now.list name.now }
    {
        self.as_slice()
            .iter()
            .find(|channel| is_same(channel.name.as_slice(), name))
    }

    /// The channel of a name.
    pub(crate) fn find(&self, name: &[u8]) -> Option<&Channel>
        ensures { option_copied result ≡ channel_of self.now.list name.now }
    {
        match Folded::new(self.alloc, name) {
            Ok(key) => self.channels.get(&key),
            Err(_) => self.search(name),
        }
    }

    /// The channel at a place.
    pub(crate) fn nth(&self, place: usize) -> Option<&Channel>
        ensures { option_copied result ≡ slice_get self.now.list place }
    {
        self.as_slice().get(place)
    }

    /// Makes room for so many changes in the channel of a name, where it is there.
    pub(crate) fn reserve_named(&mut self, name: &[u8], changes: usize) -> Result<(), AllocError>
        ensures alike { Alike self.old.list self.new.list }
        ensures reserved { OnOk result (Reserves self.old.list self.new.list name.now changes) }
        ensures err { OnErr result (self.new.list ≡ self.old.list) }
        ensures room { self.new.room ≡ self.old.room }
    {
        let key = Folded::new(self.alloc, name)?;
        let Some(channel) = self.channels.get_mut(&key) else {
            return Ok(());
        };
        channel.held.reserve(changes)
    }

    /// Adds a channel that isn't there with its first member, under its folded name, in room that was made.
    pub(crate) fn make(
        &mut self,
        spare: &mut Vec<BoxedChannel>,
        key: Folded,
        name: Octets,
        session: SessionId,
    )
        requires key { key ≡ name_fold name }
        requires absent { channel_of self.old.list name ≡ None }
        requires room { 0 < self.old.room }
        requires spare { 0 < length spare.old.items }
        requires empty { AreSpare 1 spare.old.items }
        ensures made { (n : ℕ) → AreSpare (suc n) spare.old.items
            → Makes self.old.list self.new.list name session n × AreSpare n spare.new.items }
        ensures fewer { length spare.new.items + 1 ≡ length spare.old.items }
        ensures room { self.old.room ≤ self.new.room + 1 }
    {
        if let Some(mut held) = spare.pop() {
            held.make(session);
            push(&mut self.channels, key, Channel { name, held });
        }
    }

    /// Changes the channel of a folded name, which has room for that. It takes no memory, and tells whether nobody
    /// is on it.
    fn change_keyed(&mut self, key: &Folded, name: &[u8], change: Change) -> bool
        requires key { key.now ≡ name_fold name.now }
        requires held { AreHeld self.old.list }
        requires room { 0 < room_in self.old.list name.now }
        ensures reholds { Reholds self.old.list self.new.list name.now
            (with_change change (state_in self.old.list name.now)) 1 }
        ensures ended { result ≡ true → AreHeldBut name.now self.new.list }
        ensures held { result ≡ false → AreHeld self.new.list }
        ensures room { self.new.room ≡ self.old.room }
    {
        let Some(channel) = self.channels.get_mut(key) else {
            return false;
        };
        channel.held.change(change);
        !channel.held.get().is_there()
    }

    /// The channel of a folded name changes, and ends where no member is left. It takes no memory.
    pub(crate) fn change(&mut self, key: &Folded, name: &[u8], change: Change)
        requires key { key.now ≡ name_fold name.now }
        requires held { AreHeld self.old.list }
        requires room { 0 < room_in self.old.list name.now }
        ensures changes { Changes self.old.list self.new.list name.now change }
        ensures room { self.old.room ≤ self.new.room }
    {
        if self.change_keyed(key, name, change) {
            take_out(&mut self.channels, key);
        }
    }

    /// The place of the channel of a name.
    fn place_of(&self, name: &[u8]) -> Option<usize>
        ensures { IsPlace self.now.list name.now result }
    {
        match Folded::new(self.alloc, name) {
            Ok(key) => match self.channels.get_full(&key) {
                Some((place, _, _)) => Some(place),
                None => None,
            },
            Err(_) => place_in(self.as_slice(), name),
        }
    }

    /// Whether the channel of a name invites a session.
    pub(crate) fn invites(&self, name: &[u8], session: SessionId) -> bool
        ensures { result ≡ among session (state_in self.now.list name.now).invited }
    {
        match self.find(name) {
            Some(channel) => channel.held.get().is_invited(session),
            None => false,
        }
    }

    /// Takes a session out of the channel of a name, which is at a place, and tells whether nobody is on it.
    fn depart_at(&mut self, place: usize, name: &[u8], session: SessionId) -> bool
        requires at { IsPlace self.old.list name.now (Some place) }
        requires apart { AreApart self.old.list }
        requires held { AreHeld self.old.list }
        ensures reholds { Reholds self.old.list self.new.list name.now
            (after_gone session (state_in self.old.list name.now)) 0 }
        ensures ended { result ≡ true → AreHeldBut name.now self.new.list }
        ensures held { result ≡ false → AreHeld self.new.list }
        ensures room { self.new.room ≡ self.old.room }
    {
        let Some(channel) = self.channels.get_index_mut(place) else {
            unreachable!();
        };
        channel.held.depart(session);
        !channel.held.get().is_there()
    }

    /// A session leaves the channel of a name, which ends where no member is left. It waits for no memory.
    fn leave(&mut self, name: &[u8], session: SessionId)
        requires apart { AreApart self.old.list }
        requires held { AreHeld self.old.list }
        ensures departs { Departs self.old.list self.new.list name.now session }
        ensures room { self.old.room ≤ self.new.room }
    {
        let Some(place) = self.place_of(name) else {
            return;
        };
        if self.depart_at(place, name, session) {
            take_out_at(&mut self.channels, place);
        }
    }

    /// A session leaves the channels of names, and those end where no member is left. It waits for no memory.
    pub(crate) fn leave_each(&mut self, names: &[Octets], session: SessionId)
        requires apart { AreApart self.old.list }
        requires held { AreHeld self.old.list }
        ensures leaves { LeavesThose self.old.list self.new.list names.now session }
        ensures room { self.old.room ≤ self.new.room }
    {
        for name in names {
            self.leave(name.as_slice(), session);
        }
    }
}
