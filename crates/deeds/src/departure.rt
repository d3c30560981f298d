//! What comes of a session being gone (RFC 2812, section 3.1.7).
ghost use Rattle.std.specs.Prelude.{◌≡◌, IfOk, OnOk};
ghost use Rattle.roster.specs.LookBack.{after, opened_in};
ghost use Rattle.roster.specs.Legal.{IsOpened, AreNext};
ghost use Rattle.deeds.specs.Departure.{farewell, departs};
ghost use Rattle.transactions.specs.Words.{grown};
ghost use Rattle.transactions.specs.Verdicts.{IsVerdict};

use chronicle::{SessionId, Why};
use roster::{Deed, Roster};
use std::alloc::{AllocError, Global};
use transactions::{Transaction, Verdict, prefix_of, quit_line};

/// What others are told of a session's end: the text that its client gave, or the reason's own.
fn farewell<'a>(why: Why, parting: &'a [u8]) -> &'a [u8]
    ensures { result.now ≡ farewell why parting.now }
{
    if parting.is_empty() {
        return why.text().as_bytes();
    }
    parting
}

/// A session leaves its channels, which each that shares one with it is shown, and gives its nickname back.
#[tactic(auto, using(transactions::proofs::Replay::grown_grown))]
fn depart(tx: &mut Transaction, session: SessionId) -> Result<(), AllocError>
    requires opened { IsOpened tx.old.facts session }
    requires first { tx.old.facts ≡ tx.old.base }
    ensures { OnOk result (tx.new ≡ grown tx.old (departs tx.old.facts session)) }
{
    let before = tx.before();
    let from = prefix_of(tx, session)?;
    let text = farewell(before.why_of(session), before.parting_of(session));
    let line = quit_line(tx.alloc(), from.as_slice(), text)?;
    let hearers = before.sharers(session)?;
    tx.show(hearers, line)?;
    tx.establish(Deed::Gone { session })
}

/// What comes of a session being gone: it is told to each that shares a channel with it. Its facts may come next.
pub fn decide_gone(
    alloc: Global,
    roster: &Roster,
    session: SessionId,
) -> Result<Verdict, AllocError>
    requires { IsOpened roster.now.facts session }
    ensures verdict { IfOk result (λ v. IsVerdict v session (departs roster.now.facts session)) }
    ensures next { IfOk result (λ v. AreNext roster.now.facts v.deeds.items) }
    ensures opened { IfOk result
        (λ v. opened_in (after roster.now.facts v.deeds.items) ≡ opened_in roster.now.facts) }
{
    let mut tx = Transaction::new(alloc, roster, session);
    depart(&mut tx, session)?;
    Ok(tx.finish())
}
