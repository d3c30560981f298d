//! What each hearer of a record hears.
//!
//! Of each line it is noted who hears it, and by what capabilities. A stable sort puts the lines of one session side
//! by side, by the numbers of the sessions, in the order that they have. Where one line is shown, its hearers are
//! sorted before they hear it.
ghost use Rattle.std.specs.Prelude.{◌≡◌, ◌==◌, ℕ, ℤ, ◌++◌, List, filter, map, true, IfOk, OnOk};
ghost use Rattle.labels_batches.specs.Spellings.{Spelled};
ghost use Rattle.ledger.specs.Seats.{heard_text};
ghost use Rattle.ledger.specs.FanOut.{heard_by, hearing_of, hearings, heard_of, spelled_at};
ghost use Rattle.ledger.specs.FanOut.{text_for, rises, ascends};

use chronicle::SessionId;
use deeds::ShownLine;
use labels_batches::{Spellings, Text};
use registration::Caps;
use roster::{Roster, Sessions};
use std::alloc::{AllocError, Global};

/// A text that a session hears.
#[derive(Drop)]
pub(crate) struct Heard {
    pub(crate) session: SessionId,
    pub(crate) text: Text,
}

/// A line as a session takes it.
pub(crate) fn hear_one(
    roster: &Roster,
    session: SessionId,
    line: &mut Spellings,
) -> Result<Heard, AllocError>
    ensures same { line.new ≡ line.old }
    ensures heard { IfOk result
        (λ x. x ≡ heard_by roster.now.facts line.old.moment line.old.line session) }
{
    let caps = roster.caps_of(session);
    let text = line.text_for(caps)?;
    Ok(Heard { session, text })
}

/// That a session hears a line of a record: which it is, and by what capabilities the session takes it.
#[derive(Clone, Copy)]
pub(crate) struct Hearing {
    pub(crate) session: SessionId,
    pub(crate) caps: Caps,
    pub(crate) line: usize,
}

/// Adds that each of some sessions hears the line of a number.
fn hear_each(
    roster: &Roster,
    heard: &mut Vec<Hearing>,
    hearers: &[SessionId],
    line: usize,
) -> Result<(), AllocError>
    ensures { OnOk result (heard.new.items
        ≡ heard.old.items ++ map (hearing_of roster.now.facts line) hearers.now) }
{
    heard.reserve(hearers.len())?;
    for hearer in hearers {
        let session = *hearer;
        let caps = roster.caps_of(session);
        heard.push(Hearing {
            session,
            caps,
            line,
        })?;
    }
    Ok(())
}

/// Who hears lines, line by line.
fn hear_all(alloc: Global, roster: &Roster, shown: &[ShownLine]) -> Result<Vec<Hearing>, AllocError>
    ensures { IfOk result (λ v. v.items ≡ hearings roster.now.facts 0 shown.now) }
{
    let mut heard = Vec::new(alloc);
    for (line, one) in shown.iter().enumerate() {
        hear_each(roster, &mut heard, one.hearers.as_slice(), line)?;
    }
    Ok(heard)
}

/// Puts what each session hears side by side, by its number, in the order that it has.
fn sort_by_session(heard: &mut Vec<Hearing>) -> Result<(), AllocError>
    ensures texts { (ls : List Spelled) (t : ℕ) → text_for (map (heard_of ls) heard.new.items) t
        ≡ text_for (map (heard_of ls) heard.old.items) t }
    ensures order { OnOk result
        ((ls : List Spelled) → rises 0 (map (heard_of ls) heard.new.items)) }
{
    heard.sort_by_key(
        |one: &Hearing| -> u64
            ensures { result ≡ one.now.session }
        { one.session.number() },
    )?;
    Ok(())
}

/// Whether sessions stand by their numbers, each once.
pub(crate) fn ascend(sessions: &[SessionId]) -> bool
    ensures { result ≡ true → ascends 0 sessions.now }
{
    let mut last = 0;
    for session in sessions {
        if session.number() <= last {
            return false;
        }
        last = session.number();
    }
    true
}

/// Hearers by their numbers. Those that stand so are handed back as they are.
pub(crate) fn by_number(alloc: Global, hearers: Sessions) -> Result<Sessions, AllocError>
    ensures { IfOk result (λ sorted. (t : ℕ)
        → filter (λ h. h == t) sorted ≡ filter (λ h. h == t) hearers) }
{
    if ascend(hearers.as_slice()) {
        return Ok(hearers);
    }
    let mut sorted = Vec::from_slice(alloc, hearers.as_slice())?;
    sorted.sort_by_key(
        |session: &SessionId| -> u64
            ensures { result ≡ session.now }
        { session.number() },
    )?;
    Ok(Sessions::from_vec(sorted))
}

/// Who hears lines, by the numbers of their sessions.
pub(crate) fn heard_in_order(
    alloc: Global,
    roster: &Roster,
    shown: &[ShownLine],
) -> Result<Vec<Hearing>, AllocError>
    ensures texts { IfOk result (λ v. (moment : ℤ) (t : ℕ)
        → text_for (map (heard_of (map (spelled_at moment) shown.now)) v.items) t
        ≡ heard_text roster.now.facts moment shown.now t) }
    ensures order { IfOk result (λ v. (ls : List Spelled) → rises 0 (map (heard_of ls) v.items)) }
{
    let mut heard = hear_all(alloc, roster, shown)?;
    sort_by_session(&mut heard)?;
    Ok(heard)
}
