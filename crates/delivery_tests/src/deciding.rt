//! What commands establish that do several things in a line, each decided once more where a growth was refused: a
//! refusal changes nothing.
ghost use Rattle.std.specs.Prelude.{◌≡◌, IfOk};
ghost use Rattle.roster.specs.Legal.{IsOpened, AreNext};
ghost use Rattle.roster.specs.LookBack.{after};

use chronicle::{Moment, SessionId};
use commands::{Asked, read_piece};
use deeds::{Verdict, decide};
use line_grammar::{Octets, Piece};
use numerics::Line;
use registration::{Accounts, Settings, is_well_set};
use roster::{Deed, Roster};
use std::alloc::{AllocError, Global};
use std::hash::RandomState;
use std::process::Abort;
use std::test::Fail;

/// A copy, once more where a growth was refused.
fn copy_of(alloc: Global, octets: &[u8]) -> Result<Octets, AllocError> {
    match Octets::copy_of(alloc, octets) {
        Ok(copy) => Ok(copy),
        Err(_) => Octets::copy_of(alloc, octets),
    }
}

/// Applies facts for which room was made.
fn apply_all(roster: &mut Roster, deeds: Vec<Deed>)
    requires { roster.old.ready ≡ deeds.items }
    ensures { roster.new.facts ≡ after roster.old.facts deeds.items }
{
    for deed in deeds {
        roster.apply(deed);
    }
}

/// Establishes facts, with room that is asked for once more where a growth was refused.
fn establish(roster: &mut Roster, deeds: Vec<Deed>) -> Result<(), AllocError>
    requires { AreNext roster.old.facts deeds.items }
{
    if roster.prepare(&deeds).is_err() {
        roster.prepare(&deeds)?;
    }
    apply_all(roster, deeds);
    Ok(())
}

/// Opens the next session.
fn open(alloc: Global, roster: &mut Roster, host: &[u8]) -> Result<(), AllocError> {
    let session = SessionId::new(roster.opened_count() as u64 + 1);
    let host = copy_of(alloc, host)?;
    let mut deeds = Vec::new(alloc);
    if deeds.reserve(1).is_err() {
        deeds.reserve(1)?;
    }
    deeds.push(Deed::Opened { session, host })?;
    establish(roster, deeds)
}

/// What a piece asks for, read once more where a growth was refused.
fn asked_of(alloc: Global, piece: &Piece) -> Result<Asked, AllocError> {
    match read_piece(alloc, piece) {
        Ok(read) => Ok(read.asked),
        Err(_) => Ok(read_piece(alloc, piece)?.asked),
    }
}

/// What comes of what is asked for, decided once more where a growth was refused.
fn decided_asked(
    alloc: Global,
    roster: &Roster,
    session: SessionId,
    asked: &Asked,
) -> Result<Verdict, AllocError>
    requires { IsOpened roster.now.facts session }
    ensures { IfOk result (λ v. AreNext roster.now.facts v.deeds.items) }
{
    match decide(alloc, roster, session, asked, Moment::new(5)) {
        Ok(verdict) => Ok(verdict),
        Err(_) => decide(alloc, roster, session, asked, Moment::new(5)),
    }
}

/// What comes of a line.
fn decide_one(
    alloc: Global,
    roster: &Roster,
    session: SessionId,
    line: &[u8],
) -> Result<Verdict, AllocError>
    requires { IsOpened roster.now.facts session }
    ensures { IfOk result (λ v. AreNext roster.now.facts v.deeds.items) }
{
    let piece = Piece::Line(copy_of(alloc, line)?);
    let asked = asked_of(alloc, &piece)?;
    decided_asked(alloc, roster, session, &asked)
}

/// Whether a line is spelled so.
fn is_spelled(line: &Line, want: &[u8]) -> bool {
    line.octets() == want
}

/// Whether an answer begins with this line, or is none where the line is empty.
fn is_answered(reply: &[Line], want: &[u8]) -> bool {
    match reply {
        [] => want.is_empty(),
        [first, ..] => is_spelled(first, want),
    }
}

/// A line of one of two sessions, how many lines others are shown by it, and how its own session's answer begins.
type Deal = (u64, &'static [u8], usize, &'static [u8]);

/// Lines that do several things at once.
const DEALS: [Deal; 11] = [
    (1, b"NICK al", 0, b""),
    (
        1,
        b"USER a 0 * :Al",
        0,
        b":irc.example 001 al :Welcome to the Internet Relay Network al!a@h1\r\n",
    ),
    (2, b"NICK bo", 0, b""),
    (
        2,
        b"USER b 0 * :Bo",
        0,
        b":irc.example 001 bo :Welcome to the Internet Relay Network bo!b@h2\r\n",
    ),
    (1, b"JOIN #a,#b,#c", 3, b":al!a@h1 JOIN #a\r\n"),
    (2, b"JOIN #A", 1, b":bo!b@h2 JOIN #a\r\n"),
    (
        1,
        b"MODE #a +vlkb bo 9 key x@y",
        1,
        b":al!a@h1 MODE #a +vlkb bo 9 key *!x@y\r\n",
    ),
    (1, b"TOPIC #a :cats", 1, b":al!a@h1 TOPIC #a :cats\r\n"),
    (1, b"INVITE bo #b", 1, b":irc.example 341 al bo #b\r\n"),
    (
        1,
        b"AWAY :out",
        0,
        b":irc.example 306 al :You have been marked as being away\r\n",
    ),
    (
        1,
        b"KICK #a x,bo,al,y :out",
        2,
        b":irc.example 401 al x :No such nick/channel\r\n",
    ),
];

/// Has a line accepted, and counts what it shows.
fn deal(rt: &impl Abort, roster: &mut Roster, alloc: Global, row: &Deal) -> Result<(), AllocError> {
    let (number, line, shown, want) = *row;
    assert!(rt; 0 < number && number as usize <= roster.opened_count());
    let verdict = decide_one(alloc, roster, SessionId::new(number), line)?;
    let Verdict {
        deeds,
        reply,
        others,
        ..
    } = verdict;
    establish(roster, deeds)?;
    assert!(rt; others.len() == shown && is_answered(&reply, want));
    Ok(())
}

/// Opens two sessions, and has their lines accepted.
fn deal_all(rt: &impl Abort, roster: &mut Roster, alloc: Global) -> Result<(), AllocError> {
    open(alloc, roster, b"h1")?;
    open(alloc, roster, b"h2")?;
    for row in &DEALS {
        deal(rt, roster, alloc, row)?;
    }
    Ok(())
}

/// Whether a channel isn't there.
fn is_absent(roster: &Roster, channel: &[u8]) -> bool {
    roster.members(channel).is_empty() && roster.state_of(channel).is_none()
}

/// Whether a session is away, and on so many channels.
fn is_away(roster: &Roster, session: SessionId, channels: usize) -> bool {
    roster.away_of(session).is_some() && roster.channel_count_of(session) == channels
}

/// Whether a channel is found by a name, has that as it was first spelled, and invites a session.
fn invites(roster: &Roster, spelled: &[u8], name: &[u8], session: SessionId) -> bool {
    match roster.channel(spelled) {
        Some((found, state)) => found.as_slice() == name && state.is_invited(session),
        None => false,
    }
}

/// Whether what the lines were to leave is left.
fn are_dealt(roster: &Roster, al: SessionId, bo: SessionId) -> bool {
    roster.channel_count() == 2
        && is_absent(roster, b"#a")
        && invites(roster, b"#B", b"#b", bo)
        && is_away(roster, al, 2)
        && !roster.is_invisible(bo)
}

/// A server's settings.
fn settings(alloc: Global) -> Result<Settings, AllocError> {
    Ok(Settings {
        server: copy_of(alloc, b"irc.example")?,
        info: copy_of(alloc, b"")?,
        version: copy_of(alloc, b"halld-1")?,
        created: Moment::new(0),
        motd: None,
        accounts: Accounts::new(alloc),
        sessions: 2,
    })
}

/// A `JOIN` of three channels, a `MODE` of four parameters and a `KICK` of four are decided whole, also where an
/// allocation failed before.
#[test]
fn a_line_that_does_much_is_done_whole(rt: HostRuntime) -> Result<(), Fail> {
    let settings = settings(rt.alloc())?;
    assert!(rt; is_well_set(&settings));
    let mut roster = Roster::new(rt.alloc(), settings);
    deal_all(&rt, &mut roster, rt.alloc())?;
    assert!(rt; are_dealt(&roster, SessionId::new(1), SessionId::new(2)));
    Ok(())
}

/// A roster whose names are hashed by the keys of a `RandomState` finds the same as one with fixed keys.
#[test]
fn names_are_found_by_the_keys_of_a_state(rt: HostRuntime) -> Result<(), Fail> {
    let settings = settings(rt.alloc())?;
    assert!(rt; is_well_set(&settings));
    let state = RandomState::new(&rt)?;
    let mut roster = Roster::with_hasher(rt.alloc(), settings, state);
    deal_all(&rt, &mut roster, rt.alloc())?;
    assert!(rt; are_dealt(&roster, SessionId::new(1), SessionId::new(2)));
    Ok(())
}
