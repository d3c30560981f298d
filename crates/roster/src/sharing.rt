//! Who shares a channel with whom.
ghost use Rattle.std.specs.Prelude.{◌≡◌, ◌&&◌, ◌++◌, not, ◌==◌, ℕ, [], ◌∷◌, cond, nat_le, length, IfOk, OnOk};
ghost use Rattle.std.specs.List.{flat_map};
ghost use Rattle.roster.specs.Lists.{row_of};
ghost use Rattle.roster.specs.Tables.{members_in, mates, is_mate, mates_in};

use crate::channels::Channels;
use crate::ends_of_sessions::SessionEnds;
use crate::people::People;
use crate::sessions::Sessions;
use chronicle::SessionId;
use line_grammar::Octets;
use std::alloc::{AllocError, Global};

/// Adds the numbers of sessions.
fn push_numbers(numbers: &mut Vec<u64>, sessions: &[SessionId]) -> Result<(), AllocError>
    ensures { OnOk result (numbers.new.items ≡ numbers.old.items ++ sessions.now) }
{
    for session in sessions {
        numbers.push(session.number())?;
    }
    Ok(())
}

/// Adds the numbers of those on a channel, where it is there.
fn push_members(numbers: &mut Vec<u64>, channels: &Channels, name: &[u8]) -> Result<(), AllocError>
    ensures { OnOk result
        (numbers.new.items ≡ numbers.old.items ++ members_in channels.now.list name.now) }
{
    match channels.find(name) {
        Some(channel) => push_numbers(numbers, channel.held.get().members()),
        None => Ok(()),
    }
}

/// The numbers of those on channels, as often as they are on one.
fn numbers_on(alloc: Global, channels: &Channels, names: &[Octets]) -> Result<Vec<u64>, AllocError>
    ensures { IfOk result (λ v. v.items ≡ flat_map (members_in channels.now.list) names.now) }
{
    let mut numbers = Vec::new(alloc);
    for name in names {
        push_members(&mut numbers, channels, name.as_slice())?;
    }
    Ok(numbers)
}

/// Adds a session that was opened, but for one.
fn push_mate(
    mates: &mut Sessions,
    number: u64,
    session: SessionId,
    count: usize,
) -> Result<(), AllocError>
    ensures { OnOk result
        (mates.new ≡ mates.old ++ cond (is_mate session count number) (number ∷ []) []) }
{
    let mate = SessionId::new(number);
    if 1 <= number && number <= count as u64 && mate != session {
        mates.push(mate)?;
    }
    Ok(())
}

/// Numbers in order, each once, of which each is that of a session that was opened, but for one.
fn mates_of(
    alloc: Global,
    numbers: &[u64],
    session: SessionId,
    count: usize,
) -> Result<Sessions, AllocError>
    ensures { IfOk result (λ v. v ≡ mates_in session count numbers.now) }
{
    let mut mates = Sessions::from_vec(Vec::new(alloc));
    for number in numbers {
        push_mate(&mut mates, *number, session, count)?;
    }
    Ok(mates)
}

/// The sessions of so many that are on a channel with one, but for itself, each once, in order.
pub(crate) fn find_sharers(
    alloc: Global,
    people: &People,
    marks: &SessionEnds,
    channels: &Channels,
    session: SessionId,
    count: usize,
) -> Result<Sessions, AllocError>
    ensures { IfOk result
        (λ v. v ≡ mates channels.now.list (row_of people.now.list session).list session count) }
{
    let mut numbers = numbers_on(alloc, channels, people.names(marks, session))?;
    numbers.sort_unstable();
    numbers.dedup();
    mates_of(alloc, &numbers, session, count)
}
