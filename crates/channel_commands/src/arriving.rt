//! What members are shown of a session that joined (RFC 2812, section 3.2.1; IRCv3 extended-join and away-notify).
ghost use Rattle.std.specs.Prelude.{◌≡◌, ◌∷◌, ◌++◌, [], filter, IfOk, OnOk};
ghost use Rattle.std.specs.List.{list_any};
ghost use Rattle.roster.specs.LookBack.{account, away, real};
ghost use Rattle.transactions.specs.Words.{extended_join_line, grown, join_line, shows_to};
ghost use Rattle.channel_commands.specs.Joining.{absence_shown, arrival_shown, join_shown, takes_extended};
ghost use Rattle.channel_commands.specs.Joining.{takes_plain};

use crate::joined::Joined;
use chronicle::SessionId;
use registration::Cap;
use roster::{Roster, Sessions};
use std::alloc::{AllocError, Global};
use transactions::{Transaction, extended_join_line, join_line, show_away, takers};

// ---- by the form of JOIN that members take

/// Whether a session takes extended-join.
fn takes_extended(roster: &Roster, session: SessionId) -> bool
    ensures { result ≡ takes_extended roster.now.facts session }
{
    roster.caps_of(session).contains(Cap::ExtendedJoin)
}

/// Whether one of some sessions takes extended-join.
fn is_one_extended(roster: &Roster, sessions: &[SessionId]) -> bool
    ensures { result ≡ list_any (takes_extended roster.now.facts) sessions.now }
{
    sessions
        .iter()
        .any(|session| takes_extended(roster, *session))
}

/// Adds a session to those that take extended-join, or to the others.
fn push_by_form(
    roster: &Roster,
    extended: &mut Sessions,
    plain: &mut Sessions,
    session: SessionId,
) -> Result<(), AllocError>
    ensures extended { OnOk result
        (extended.new ≡ extended.old ++ filter (takes_extended roster.now.facts) (session ∷ [])) }
    ensures plain { OnOk result
        (plain.new ≡ plain.old ++ filter (takes_plain roster.now.facts) (session ∷ [])) }
{
    if takes_extended(roster, session) {
        extended.push(session)
    } else {
        plain.push(session)
    }
}

/// Sessions that take extended-join, and the others, each in their order. Where nobody takes it, all are copied at
/// once.
#[tactic(auto, using(crate::proofs::Parted::nobody_extended, crate::proofs::Parted::all_plain))]
fn split_by_form(
    alloc: Global,
    roster: &Roster,
    sessions: &[SessionId],
) -> Result<(Sessions, Sessions), AllocError>
    ensures extended { IfOk result
        (λ p. p.0 ≡ filter (takes_extended roster.now.facts) sessions.now) }
    ensures plain { IfOk result (λ p. p.1 ≡ filter (takes_plain roster.now.facts) sessions.now) }
{
    if !is_one_extended(roster, sessions) {
        let nobody = Sessions::from_vec(Vec::new(alloc));
        return Ok((nobody, Sessions::copy_of(alloc, sessions)?));
    }
    let mut extended = Sessions::from_vec(Vec::new(alloc));
    let mut plain = Sessions::from_vec(Vec::with_capacity(alloc, sessions.len())?);
    for session in sessions {
        push_by_form(roster, &mut extended, &mut plain, *session)?;
    }
    Ok((extended, plain))
}

// ---- what they are shown

/// Shows sessions, where there are any, a join.
#[tactic(auto, unfolding(transactions::specs::Hearers::shows_to))]
fn show_plainly(
    tx: &mut Transaction,
    hearers: Sessions,
    from: &[u8],
    joined: &Joined<'_>,
) -> Result<(), AllocError>
    ensures { OnOk result
        (tx.new ≡ grown tx.old (shows_to hearers (join_line from.now joined.now.name))) }
{
    if hearers.as_slice().is_empty() {
        return Ok(());
    }
    let line = join_line(tx.alloc(), from, joined.name.as_slice())?;
    tx.show(hearers, line)
}

/// Shows sessions, where there are any, a join with the account and the real name.
#[tactic(auto, unfolding(transactions::specs::Hearers::shows_to))]
fn show_extended(
    tx: &mut Transaction,
    hearers: Sessions,
    session: SessionId,
    from: &[u8],
    joined: &Joined<'_>,
) -> Result<(), AllocError>
    ensures { OnOk result (tx.new
        ≡ grown tx.old (shows_to hearers (extended_join_line from.now
        joined.now.name (account tx.old.base session) (real tx.old.base session)))) }
{
    if hearers.as_slice().is_empty() {
        return Ok(());
    }
    let roster = tx.before();
    let account = roster.enrol_of(session).account;
    let real = roster.real_of(session);
    let line = extended_join_line(tx.alloc(), from, joined.name.as_slice(), account, real)?;
    tx.show(hearers, line)
}

/// Shows members a join, each in the form that it takes.
#[tactic(auto, using(transactions::proofs::Replay::grown_grown))]
fn show_join(
    tx: &mut Transaction,
    session: SessionId,
    from: &[u8],
    joined: &Joined<'_>,
) -> Result<(), AllocError>
    ensures { OnOk result
        (tx.new ≡ grown tx.old (join_shown tx.old.base session from.now joined.now)) }
{
    let (extended, plain) = split_by_form(tx.alloc(), tx.before(), joined.members)?;
    show_plainly(tx, plain, from, joined)?;
    show_extended(tx, extended, session, from, joined)
}

/// Shows members, but for who joined, that it is away, where it is.
fn show_absence(
    tx: &mut Transaction,
    session: SessionId,
    from: &[u8],
    joined: &Joined<'_>,
) -> Result<(), AllocError>
    ensures { OnOk result (tx.new ≡ grown tx.old
        (absence_shown tx.old.base session from.now joined.now (away tx.old.base session))) }
{
    let Some(text) = tx.before().away_of(session) else {
        return Ok(());
    };
    let members = joined.members;
    let mut hearers = takers(tx.alloc(), tx.before(), Cap::AwayNotify, members)?;
    hearers.remove(session);
    show_away(tx, hearers, from, Some(text))
}

/// Shows members that a session joined, and that it is away, where it is.
#[tactic(auto, unfolding(crate::specs::Joining::arrival_shown), using(transactions::proofs::Replay::grown_grown))]
pub(crate) fn introduce(
    tx: &mut Transaction,
    session: SessionId,
    from: &[u8],
    joined: &Joined<'_>,
) -> Result<(), AllocError>
    ensures { OnOk result
        (tx.new ≡ grown tx.old (arrival_shown tx.old.base session from.now joined.now)) }
{
    show_join(tx, session, from, joined)?;
    show_absence(tx, session, from, joined)
}
