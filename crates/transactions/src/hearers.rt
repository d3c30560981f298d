//! Whom a line is shown to, by what they take (IRCv3 Capability Negotiation; IRCv3 away-notify).
ghost use Rattle.std.specs.Prelude.{◌≡◌, filter, option_copied, IfOk, OnOk};
ghost use Rattle.transactions.specs.TransactionView.{grown};
ghost use Rattle.transactions.specs.Hearers.{shows_to, takes};
ghost use Rattle.transactions.specs.Lines.{away_line};

use crate::shown_lines::away_line;
use crate::transaction::Transaction;
use chronicle::SessionId;
use line_grammar::Octets;
use registration::Cap;
use roster::{Roster, Sessions};
use std::alloc::{AllocError, Global};

/// Whether a session has a capability.
fn takes(roster: &Roster, cap: Cap, session: SessionId) -> bool
    ensures { result ≡ takes roster.now.facts cap session }
{
    roster.caps_of(session).contains(cap)
}

fn with_cap(
    alloc: Global,
    roster: &Roster,
    cap: Cap,
    sessions: &[SessionId],
) -> Result<Vec<SessionId>, AllocError>
    ensures { IfOk result (λ v. v.items ≡ filter (takes roster.now.facts cap) sessions.now) }
{
    sessions
        .iter()
        .copied()
        .filter(|session| takes(roster, cap, *session))
        .collect(alloc)
}

/// Those of some sessions that have a capability, in order.
pub fn takers(
    alloc: Global,
    roster: &Roster,
    cap: Cap,
    sessions: &[SessionId],
) -> Result<Sessions, AllocError>
    ensures { IfOk result (λ v. v ≡ filter (takes roster.now.facts cap) sessions.now) }
{
    let takers = with_cap(alloc, roster, cap, sessions)?;
    Ok(Sessions::from_vec(takers))
}

/// Shows sessions that one is away with a text, or here again where there is none. Where there is no session, no
/// line is made.
#[tactic(auto, unfolding(crate::specs::Hearers::shows_to))]
pub fn show_away(
    tx: &mut Transaction,
    hearers: Sessions,
    from: &[u8],
    text: Option<&Octets>,
) -> Result<(), AllocError>
    ensures { OnOk result (tx.new
        ≡ grown tx.old (shows_to hearers (away_line from.now (option_copied text.entry)))) }
{
    if hearers.as_slice().is_empty() {
        return Ok(());
    }
    let line = away_line(tx.alloc(), from, text)?;
    tx.show(hearers, line)
}
