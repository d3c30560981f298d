//! AWAY (RFC 2812, section 4.1; IRCv3 away-notify).
ghost use Rattle.std.specs.Prelude.{◌≡◌, ◌∷◌, [], option_copied, IfOk, OnOk};
ghost use Rattle.roster.specs.declared.deed.Deed.TheVariants.{AwaySet};
ghost use Rattle.roster.specs.Legal.{IsOpened};
ghost use Rattle.transactions.specs.declared.effect.Effect.TheVariants.{Establish};
ghost use Rattle.transactions.specs.Words.{away_line, grown, prefix, shows_to, tells};
ghost use Rattle.talk_commands.specs.Away.{away_answer, goes_as, goes_away, is_same_text, new_away, away_hearers};

use chronicle::SessionId;
use line_grammar::Octets;
use numerics::Numeric;
use registration::Cap;
use roster::{Deed, Sessions};
use std::alloc::{AllocError, Global};
use transactions::{Transaction, prefix_of, show_away, takers, tell};

/// The most octets of a text that are kept (`AWAYLEN`).
pub const AWAYLEN: usize = 200;

/// The text that is kept, of which there is none where it is empty.
fn away_text(alloc: Global, text: &Octets) -> Result<Option<Octets>, AllocError>
    ensures { IfOk result (λ t. t ≡ new_away text.now) }
{
    let octets = text.as_slice();
    if octets.is_empty() {
        return Ok(None);
    }
    let mut kept = Vec::from_slice(alloc, octets)?;
    kept.truncate(AWAYLEN);
    Ok(Some(Octets::from_vec(kept)))
}

/// Whether both are one text, or none.
fn is_same_text(a: Option<&Octets>, b: Option<&Octets>) -> bool
    ensures { result ≡ is_same_text (option_copied a.entry) (option_copied b.entry) }
{
    match (a, b) {
        (None, None) => true,
        (Some(a), Some(b)) => a.as_slice() == b.as_slice(),
        (Some(_), None) | (None, Some(_)) => false,
    }
}

/// Whom it is shown that a session is away with a text, or here again.
fn away_notify_hearers(
    tx: &Transaction<'_>,
    session: SessionId,
    text: Option<&Octets>,
) -> Result<Sessions, AllocError>
    ensures { IfOk result (λ v. v
        ≡ away_hearers tx.now.base session (option_copied text.entry)) }
{
    if is_same_text(tx.before().away_of(session), text) {
        return Ok(Sessions::from_vec(Vec::new(tx.alloc())));
    }
    let roster = tx.before();
    let sharers = roster.sharers(session)?;
    takers(tx.alloc(), roster, Cap::AwayNotify, sharers.as_slice())
}

/// A session is away with a text, or here again, and is told so.
#[tactic(auto, using(transactions::proofs::Replay::grown_grown))]
fn set_away(
    tx: &mut Transaction,
    session: SessionId,
    text: Option<Octets>,
) -> Result<(), AllocError>
    requires { IsOpened tx.old.facts session }
    ensures { OnOk result (tx.new ≡ grown tx.old (Establish (AwaySet session text)
        ∷ tells tx.old.settings tx.old.facts session (away_answer text) ∷ [])) }
{
    let answer = match text {
        Some(_) => Numeric::NowAway,
        None => Numeric::UnAway,
    };
    tx.establish(Deed::AwaySet { session, text })?;
    tell(tx, session, answer)
}

/// Shows sessions, where there are any, that one is away with a text, or here again.
#[tactic(auto, unfolding(transactions::specs::Hearers::shows_to))]
fn notify(
    tx: &mut Transaction,
    session: SessionId,
    hearers: Sessions,
    text: Option<&Octets>,
) -> Result<(), AllocError>
    ensures { OnOk result (tx.new ≡ grown tx.old
        (shows_to hearers (away_line (prefix tx.old.facts session)
        (option_copied text.entry)))) }
{
    if hearers.as_slice().is_empty() {
        return Ok(());
    }
    let from = prefix_of(tx, session)?;
    show_away(tx, hearers, from.as_slice(), text)
}

/// A session is away with a text, of which the first 200 octets are kept, or here again where the text is empty. Who
/// shares a channel with it and takes away-notify is shown what changes.
#[tactic(auto, unfolding(transactions::specs::Lines::prefix), using(transactions::proofs::Replay::grown_grown))]
pub fn go_away(tx: &mut Transaction, session: SessionId, text: &Octets) -> Result<(), AllocError>
    requires opened { IsOpened tx.old.facts session }
    requires first { tx.old.facts ≡ tx.old.base }
    ensures { OnOk result (tx.new
        ≡ grown tx.old (goes_away tx.old.settings tx.old.facts session text.now)) }
{
    let text = away_text(tx.alloc(), text)?;
    let same = text.clone()?;
    let hearers = away_notify_hearers(tx, session, text.as_ref())?;
    set_away(tx, session, same)?;
    notify(tx, session, hearers, text.as_ref())
}
