//! Room for deeds, made before they are applied.
ghost use Rattle.std.specs.Prelude.{◌≡◌, ◌≤◌, length, count_by, option_copied, OnOk, OnErr};
ghost use Rattle.roster.specs.Stands.{is_making, Alike, AreApart, HaveSeats, KeepsSeats, ReservesBy};
ghost use Rattle.roster.specs.Stands.{changed_name, AreSpare};

use crate::boxed_channel::BoxedChannel;
use crate::channels::Channels;
use crate::deed::Deed;
use crate::ends_of_sessions::SessionEnds;
use crate::nicks::Nicks;
use crate::people::People;
use line_grammar::Octets;
use std::alloc::{AllocError, Global};

/// The name of the channel that a deed changes.
fn changed_name(deed: &Deed) -> Option<&Octets>
    ensures { option_copied result ≡ changed_name deed.now }
{
    match deed {
        Deed::Changed { channel, .. } => Some(channel),
        _ => None,
    }
}

/// Makes room for so many changes in the channel that a deed changes.
fn reserve_for(channels: &mut Channels, deed: &Deed, changes: usize) -> Result<(), AllocError>
    ensures alike { Alike channels.old.list channels.new.list }
    ensures reserved { OnOk result
        (ReservesBy (changed_name deed.now) channels.old.list channels.new.list changes) }
    ensures err { OnErr result (channels.new.list ≡ channels.old.list) }
    ensures room { channels.new.room ≡ channels.old.room }
{
    match changed_name(deed) {
        Some(channel) => channels.reserve_named(channel.as_slice(), changes),
        None => Ok(()),
    }
}

/// Makes room for so many changes in each of the channels that deeds change.
fn reserve_seats(channels: &mut Channels, deeds: &[Deed], changes: usize) -> Result<(), AllocError>
    requires apart { AreApart channels.old.list }
    requires enough { length deeds.now ≤ changes }
    ensures alike { Alike channels.old.list channels.new.list }
    ensures kept { KeepsSeats changes channels.old.list channels.new.list }
    ensures seats { OnOk result (HaveSeats deeds.now channels.new.list) }
    ensures room { channels.new.room ≡ channels.old.room }
{
    for deed in deeds {
        reserve_for(channels, deed, changes)?;
    }
    Ok(())
}

/// Whether a deed makes a channel.
fn is_making(deed: &Deed) -> bool
    ensures { result ≡ is_making deed.now }
{
    matches!(deed, Deed::ChannelMade { .. })
}

/// Makes what channels that will be made are kept in.
pub(crate) fn fill_spare(
    alloc: Global,
    spare: &mut Vec<BoxedChannel>,
    deeds: &[Deed],
) -> Result<(), AllocError>
    ensures enough { OnOk result (count_by is_making deeds.now ≤ length spare.new.items) }
    ensures empty { OnOk result (AreSpare (length deeds.now) spare.new.items) }
{
    let makings = deeds.iter().filter(|deed| is_making(deed)).count();
    spare.clear();
    'fill: while spare.len() < makings {
        spare.push(BoxedChannel::with_room(alloc, deeds.len())?)?;
    }
    Ok(())
}

/// Makes room in the tables of sessions.
pub(crate) fn reserve_people(
    people: &mut People,
    marks: &mut SessionEnds,
    nicks: &mut Nicks,
    deeds: usize,
) -> Result<(), AllocError>
    ensures people { people.new.list ≡ people.old.list }
    ensures marks { marks.new.list ≡ marks.old.list }
    ensures nicks { nicks.new.list ≡ nicks.old.list }
    ensures people_kept { people.old.room ≤ people.new.room }
    ensures marks_kept { marks.old.room ≤ marks.new.room }
    ensures nicks_kept { nicks.old.room ≤ nicks.new.room }
    ensures people_room { OnOk result (deeds ≤ people.new.room) }
    ensures marks_room { OnOk result (deeds ≤ marks.new.room) }
    ensures nicks_room { OnOk result (deeds ≤ nicks.new.room) }
{
    people.reserve(deeds)?;
    marks.reserve(deeds)?;
    nicks.reserve(deeds)
}

/// Makes room in the table of channels, and for so many changes in each of those that deeds change.
pub(crate) fn reserve_channels(
    channels: &mut Channels,
    deeds: &[Deed],
    changes: usize,
) -> Result<(), AllocError>
    requires apart { AreApart channels.old.list }
    requires enough { length deeds.now ≤ changes }
    ensures alike { Alike channels.old.list channels.new.list }
    ensures kept { KeepsSeats changes channels.old.list channels.new.list }
    ensures spare { channels.old.room ≤ channels.new.room }
    ensures room { OnOk result (length deeds.now ≤ channels.new.room) }
    ensures seats { OnOk result (HaveSeats deeds.now channels.new.list) }
{
    channels.reserve(deeds.len())?;
    reserve_seats(channels, deeds, changes)
}
