//! The folded names of deeds, which stand ready before these are applied.
ghost use Rattle.std.specs.Prelude.{◌≡◌, ◌+◌, ◌<◌, ◌≤◌, ◌++◌, ℕ, List, suc, cond, drop};
ghost use Rattle.std.specs.Prelude.{length, slice_get, Some, None, OnOk};
ghost use Rattle.std.specs.List.{flat_map};
ghost use Rattle.std.specs.Str.{bytes_eq};
ghost use Rattle.casemapping.specs.Fold.{name_fold};
ghost use Rattle.roster.specs.Tables.{channel_of, room_in, held_by, Changes, Makes};
ghost use Rattle.roster.specs.Lists.{keyed_name};
ghost use Rattle.roster.specs.Stands.{AreHeld, AreSpare};

use crate::boxed_channel::BoxedChannel;
use crate::channels::Channels;
use crate::deed::Deed;
use crate::nicks::Nicks;
use casemapping::Folded;
use channel_state::Change;
use chronicle::SessionId;
use line_grammar::Octets;
use std::alloc::{AllocError, Global};
use std::collections::VecDeque;

/// Adds the folded name that a deed gives of a channel or of a nickname.
fn copy_key(alloc: Global, keys: &mut VecDeque<Folded>, deed: &Deed) -> Result<(), AllocError>
    ensures { OnOk result (keys.new.items ≡ keys.old.items ++ keyed_name deed.now) }
{
    if let Deed::NickSet { nick: name, .. }
    | Deed::ChannelMade { channel: name, .. }
    | Deed::Changed { channel: name, .. } = deed
    {
        keys.push_back(Folded::new(alloc, name.as_slice())?)?;
    }
    Ok(())
}

/// Folds the names that deeds give of channels and of nicknames.
pub(crate) fn copy_keys(
    alloc: Global,
    keys: &mut VecDeque<Folded>,
    deeds: &[Deed],
) -> Result<(), AllocError>
    ensures { OnOk result (keys.new.items ≡ flat_map keyed_name deeds.now) }
{
    keys.clear();
    for deed in deeds {
        copy_key(alloc, keys, deed)?;
    }
    Ok(())
}

/// A channel is made, whose folded name is the first of the keys. It takes no memory.
pub(crate) fn make(
    channels: &mut Channels,
    spare: &mut Vec<BoxedChannel>,
    keys: &mut VecDeque<Folded>,
    name: Octets,
    session: SessionId,
)
    requires key { slice_get keys.old.items 0 ≡ Some (name_fold name) }
    requires absent { channel_of channels.old.list name ≡ None }
    requires room { 0 < channels.old.room }
    requires spare { 0 < length spare.old.items }
    requires empty { AreSpare 1 spare.old.items }
    ensures made { (n : ℕ) → AreSpare (suc n) spare.old.items
        → Makes channels.old.list channels.new.list name session n × AreSpare n spare.new.items }
    ensures fewer { length spare.new.items + 1 ≡ length spare.old.items }
    ensures room { channels.old.room ≤ channels.new.room + 1 }
    ensures keys { keys.new.items ≡ drop 1 keys.old.items }
{
    if let Some(key) = keys.pop_front() {
        channels.make(spare, key, name, session);
    }
}

/// A channel changes, whose folded name is the first of the keys. It takes no memory.
pub(crate) fn change(
    channels: &mut Channels,
    keys: &mut VecDeque<Folded>,
    name: &[u8],
    change: Change,
)
    requires key { slice_get keys.old.items 0 ≡ Some (name_fold name.now) }
    requires held { AreHeld channels.old.list }
    requires room { 0 < room_in channels.old.list name.now }
    ensures changes { Changes channels.old.list channels.new.list name.now change }
    ensures room { channels.old.room ≤ channels.new.room }
    ensures keys { keys.new.items ≡ drop 1 keys.old.items }
{
    if let Some(key) = keys.pop_front() {
        channels.change(&key, name, change);
    }
}

/// A session takes a nickname, which folded is the first of the keys. It takes no memory.
pub(crate) fn take(nicks: &mut Nicks, keys: &mut VecDeque<Folded>, session: SessionId)
    requires key { 0 < length keys.old.items }
    requires room { 0 < nicks.old.room }
    ensures taken { (n : List ℕ) → slice_get keys.old.items 0 ≡ Some n → (k : List ℕ)
        → held_by nicks.new.list k ≡ cond (bytes_eq n k) (Some session) (held_by nicks.old.list k) }
    ensures room { nicks.old.room ≤ nicks.new.room + 1 }
    ensures keys { keys.new.items ≡ drop 1 keys.old.items }
{
    if let Some(key) = keys.pop_front() {
        nicks.take(key, session);
    }
}
