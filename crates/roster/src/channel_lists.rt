//! The channels of each session, in lists.
ghost use Rattle.std.specs.Option.{option_map_or};
ghost use Rattle.std.specs.Prelude.{◌≡◌, ℕ, List, true, false, ◌==◌, cond, ◌<◌, ◌≤◌, ◌-◌, ◌++◌, []};
ghost use Rattle.std.specs.Prelude.{filter, length, drop, slice_get, Some, OnOk};
ghost use Rattle.std.specs.List.{flat_map, list_any};
ghost use Rattle.casemapping.specs.Fold.{is_same};
ghost use Rattle.roster.specs.LookBack.{with_last_name, without_name};
ghost use Rattle.channel_state.specs.State.{among};
ghost use Rattle.roster.specs.Tables.{person_at, state_in, holds_name};
ghost use Rattle.roster.specs.Lists.{row_of, seat_of, is_taken, seat_list, seat_notes, is_joining};
ghost use Rattle.roster.specs.Lists.{joinings, made_name, Relists, Refits};

use crate::channels::Channels;
use crate::deed::Deed;
use crate::ends_of_sessions::SessionEnds;
use crate::people::People;
use casemapping::is_same;
use channel_state::Change;
use chronicle::SessionId;
use line_grammar::Octets;
use std::alloc::{AllocError, Global};
use std::collections::VecDeque;
use std::marker::Model;

/// The channels of a session, in order, and those that may list it among the invited, with room for more of both.
#[derive(Drop)]
pub(crate) struct Names {
    names: Vec<Octets>,
    notes: Vec<Octets>,
}

impl Model for Names {
    ghost use Rattle.std.specs.Prelude.{◌-◌, min, vec_len, vec_capacity};
    ghost use Rattle.roster.specs.Row.{ChannelList};

    ghost Value = { ChannelList };

    ghost view = { λ a. record {
      list = a.names.items;
      notes = a.notes.items;
      room = min
          (vec_capacity a.names - vec_len a.names) (vec_capacity a.notes - vec_len a.notes);
    } };
}

impl Clone for Names {
    ghost is_clone = { λ a b. (b.list ≡ a.list) × (b.notes ≡ a.notes) };

    fn clone(&self) -> Result<Names, AllocError> {
        Ok(Names {
            names: self.names.clone()?,
            notes: self.notes.clone()?,
        })
    }
}

impl Names {
    pub(crate) fn new(alloc: Global) -> Names
        ensures list { result.list ≡ [] }
        ensures notes { result.notes ≡ [] }
    {
        Names {
            names: Vec::new(alloc),
            notes: Vec::new(alloc),
        }
    }

    /// Makes room for so many more.
    fn reserve(&mut self, more: usize) -> Result<(), AllocError>
        ensures list { self.new.list ≡ self.old.list }
        ensures notes { self.new.notes ≡ self.old.notes }
        ensures room { self.old.room ≤ self.new.room }
        ensures made { OnOk result (more ≤ self.new.room) }
    {
        self.names.reserve(more)?;
        self.notes.reserve(more)
    }

    /// Keeps the notes of channels that invite a session. It takes no memory.
    fn prune(&mut self, channels: &Channels, session: SessionId)
        ensures list { self.new.list ≡ self.old.list }
        ensures notes { self.new.notes
            ≡ filter (λ c. among session (state_in channels.now.list c).invited) self.old.notes }
        ensures room { self.old.room ≤ self.new.room }
    {
        self.notes
            .retain(|name| channels.invites(name.as_slice(), session));
    }

    /// Where there is no room for so many more, the notes are taken out whose channels invite a session no more.
    fn thin(&mut self, channels: &Channels, session: SessionId, more: usize)
        ensures list { self.new.list ≡ self.old.list }
        ensures notes { (c : List ℕ) → among session (state_in channels.now.list c).invited ≡ true
            → holds_name c self.old.notes ≡ true → holds_name c self.new.notes ≡ true }
        ensures room { self.old.room ≤ self.new.room }
    {
        if self.notes.capacity() - self.notes.len() >= more {
            return;
        }
        self.prune(channels, session);
    }

    /// Makes room for so many more. Before notes grow those are taken out whose channels invite the session no more.
    pub(crate) fn refit(
        &mut self,
        channels: &Channels,
        session: SessionId,
        more: usize,
    ) -> Result<(), AllocError>
        ensures list { self.new.list ≡ self.old.list }
        ensures notes { (c : List ℕ) → among session (state_in channels.now.list c).invited ≡ true
            → holds_name c self.old.notes ≡ true → holds_name c self.new.notes ≡ true }
        ensures room { self.old.room ≤ self.new.room }
        ensures made { OnOk result (more ≤ self.new.room) }
    {
        self.thin(channels, session, more);
        self.reserve(more)
    }

    /// Adds a name at the end, or moves it there. It takes no memory.
    pub(crate) fn add(&mut self, name: Octets)
        requires { 0 < self.old.room }
        ensures list { self.new.list ≡ with_last_name name self.old.list }
        ensures notes { self.new.notes ≡ self.old.notes }
        ensures room { self.old.room - 1 ≤ self.new.room }
    {
        self.remove(name.as_slice());
        self.names.push_reserved(name);
    }

    /// Takes a name out, however it is spelled. It takes no memory.
    pub(crate) fn remove(&mut self, name: &[u8])
        ensures list { self.new.list ≡ without_name name.now self.old.list }
        ensures notes { self.new.notes ≡ self.old.notes }
        ensures room { self.old.room ≤ self.new.room }
    {
        self.names.retain(|other| !is_same(other.as_slice(), name));
    }

    /// Takes a note out, however it is spelled. It takes no memory.
    fn forget(&mut self, name: &[u8])
        ensures list { self.new.list ≡ self.old.list }
        ensures notes { self.new.notes ≡ without_name name.now self.old.notes }
        ensures room { self.old.room ≤ self.new.room }
    {
        self.notes.retain(|other| !is_same(other.as_slice(), name));
    }

    /// Notes a channel that invites the session. It takes no memory.
    pub(crate) fn note(&mut self, name: Octets)
        requires { 0 < self.old.room }
        ensures list { self.new.list ≡ self.old.list }
        ensures notes { self.new.notes ≡ with_last_name name self.old.notes }
        ensures room { self.old.room - 1 ≤ self.new.room }
    {
        self.forget(name.as_slice());
        self.notes.push_reserved(name);
    }

    /// Takes all out. It takes no memory.
    pub(crate) fn clear(&mut self)
        ensures list { self.new.list ≡ [] }
        ensures notes { self.new.notes ≡ [] }
        ensures room { self.old.room ≤ self.new.room }
    {
        self.names.clear();
        self.notes.clear();
    }

    /// The names as a slice.
    pub(crate) fn as_slice(&self) -> &[Octets]
        ensures { result.now ≡ self.now.list }
    {
        &self.names
    }

    /// The notes as a slice.
    pub(crate) fn notes(&self) -> &[Octets]
        ensures { result.now ≡ self.now.notes }
    {
        &self.notes
    }
}

/// Whether a name is among these, however it is spelled.
pub(crate) fn has_name(names: &[Octets], name: &[u8]) -> bool
    ensures { result ≡ list_any (λ k. is_same k name.now) names.now }
{
    names.iter().any(|other| is_same(other.as_slice(), name))
}

/// Who takes a seat on a channel, leaves one, or is invited to.
pub(crate) enum ListChange {
    Taken { session: SessionId },
    Left { session: SessionId },
    Noted { session: SessionId },
    Same,
}

/// What a change says of seats.
pub(crate) fn seat_of(change: &Change) -> ListChange
    ensures { result ≡ seat_of change.now }
{
    match change {
        Change::Joined { session } => ListChange::Taken { session: *session },
        Change::Left { session } => ListChange::Left { session: *session },
        Change::Invited { session, .. } => ListChange::Noted { session: *session },
        _ => ListChange::Same,
    }
}

/// A session takes a seat, leaves one, or is invited to. It takes no memory.
pub(crate) fn reseat(people: &mut People, seat: ListChange, name: Octets)
    requires { (s : ℕ) → is_taken s seat ≡ true → 0 < (row_of people.old.list s).room }
    ensures people { (t : ℕ) → person_at people.new.list t ≡ person_at people.old.list t }
    ensures lists { Relists people.old.list people.new.list (λ s. seat_list s name seat)
        (λ s. seat_notes s name seat) (λ s. is_taken s seat) }
    ensures room { people.new.room ≡ people.old.room }
{
    match seat {
        ListChange::Taken { session } => people.join(session, name),
        ListChange::Left { session } => people.leave(session, name.as_slice()),
        ListChange::Noted { session } => people.note(session, name),
        ListChange::Same => {}
    }
}

/// A session joins the channel that it made, whose name is the first of the copies. It takes no memory.
pub(crate) fn join_made(people: &mut People, copies: &mut VecDeque<Octets>, session: SessionId)
    requires room { 0 < (row_of people.old.list session).room }
    requires copied { 0 < length copies.old.items }
    ensures people { (t : ℕ) → person_at people.new.list t ≡ person_at people.old.list t }
    ensures joined { (n : List ℕ) → slice_get copies.old.items 0 ≡ Some n
        → Relists people.old.list people.new.list
        (λ s cs. cond (session == s) (with_last_name n cs) cs) (λ s ns. ns) (λ s. session == s) }
    ensures copies { copies.new.items ≡ drop 1 copies.old.items }
    ensures room { people.new.room ≡ people.old.room }
{
    if let Some(name) = copies.pop_front() {
        people.join(session, name);
    }
}

/// Who joins a channel by a deed, or is invited.
fn joiner_of(deed: &Deed) -> Option<SessionId>
    ensures { (s : ℕ) → is_joining s deed.now ≡ option_map_or (λ t. t == s) result false }
{
    match deed {
        Deed::ChannelMade { session, .. } => Some(*session),
        Deed::Changed {
            change: Change::Joined { session },
            ..
        } => Some(*session),
        Deed::Changed {
            change: Change::Invited { session, .. },
            ..
        } => Some(*session),
        _ => None,
    }
}

/// Makes room in the lists of whoever joins a channel by a deed, or is invited.
fn reserve_for(
    people: &mut People,
    marks: &mut SessionEnds,
    channels: &Channels,
    deed: &Deed,
    more: usize,
) -> Result<(), AllocError>
    ensures marks { marks.new ≡ marks.old }
    ensures people { (t : ℕ) → person_at people.new.list t ≡ person_at people.old.list t }
    ensures kept { Refits channels.now.list people.old.list people.new.list }
    ensures spare { people.old.room ≤ people.new.room }
    ensures room { OnOk result ((s : ℕ) → is_joining s deed.now ≡ true
        → more ≤ (row_of people.new.list s).room) }
{
    match joiner_of(deed) {
        Some(session) => people.reserve_names(marks, channels, session, more),
        None => Ok(()),
    }
}

/// Makes room in the lists of those who join a channel by deeds, or are invited.
pub(crate) fn reserve_lists(
    people: &mut People,
    marks: &mut SessionEnds,
    channels: &Channels,
    deeds: &[Deed],
) -> Result<(), AllocError>
    ensures marks { marks.new ≡ marks.old }
    ensures people { (t : ℕ) → person_at people.new.list t ≡ person_at people.old.list t }
    ensures kept { Refits channels.now.list people.old.list people.new.list }
    ensures spare { people.old.room ≤ people.new.room }
    ensures room { OnOk result ((s : ℕ) → joinings s deeds.now ≤ (row_of people.new.list s).room) }
{
    for deed in deeds {
        reserve_for(people, marks, channels, deed, deeds.len())?;
    }
    Ok(())
}

/// Adds a copy of the name of the channel that a deed makes.
fn copy_name(copies: &mut VecDeque<Octets>, deed: &Deed) -> Result<(), AllocError>
    ensures { OnOk result (copies.new.items ≡ copies.old.items ++ made_name deed.now) }
{
    if let Deed::ChannelMade { channel, .. } = deed {
        copies.push_back(channel.clone()?)?;
    }
    Ok(())
}

/// Copies the names of the channels that deeds make.
pub(crate) fn copy_names(copies: &mut VecDeque<Octets>, deeds: &[Deed]) -> Result<(), AllocError>
    ensures { OnOk result (copies.new.items ≡ flat_map made_name deeds.now) }
{
    copies.clear();
    for deed in deeds {
        copy_name(copies, deed)?;
    }
    Ok(())
}
