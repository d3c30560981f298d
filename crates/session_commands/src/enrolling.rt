//! NICK, USER, PASS and QUIT, and when a session is registered (RFC 2812, section 3.1).
ghost use Rattle.std.specs.Prelude.{◌≡◌, ◌∷◌, [], OnOk};
ghost use Rattle.roster.specs.LookBack.{exchange};
ghost use Rattle.roster.specs.Legal.{IsFree, IsOpened};
ghost use Rattle.transactions.specs.Words.{grown, prefix, tells_all};
ghost use Rattle.session_commands.specs.Welcome.{welcome_numerics};
ghost use Rattle.session_commands.specs.Registration.{is_held, shows_nick, renames, takes_nick, introduces, passes};
ghost use Rattle.session_commands.specs.Registration.{quits, aborts, enrolls, registers, if_ready};

use crate::welcome::welcome;
use chronicle::{SessionId, Why};
use line_grammar::Octets;
use numerics::Numeric;
use query_commands::ReplyBuilder;
use registration::{NickAnswer, UserAnswer};
use roster::{Deed, Roster};
use std::alloc::AllocError;
use transactions::{Transaction, nick_line, prefix_of, tell};

// ---- NICK

/// Whether another session holds a nickname.
fn is_held(roster: &Roster, session: SessionId, nick: &[u8]) -> bool
    ensures { result ≡ is_held roster.now.facts session nick.now }
{
    match roster.holder(nick) {
        Some(holder) => holder != session,
        None => false,
    }
}

/// Shows a change of nickname to the session and to each that shares a channel with it.
fn show_nick(tx: &mut Transaction, session: SessionId, nick: &Octets) -> Result<(), AllocError>
    requires first { tx.old.facts ≡ tx.old.base }
    ensures { OnOk result
        (tx.new ≡ grown tx.old (shows_nick tx.old.facts session nick.now ∷ [])) }
{
    let from = prefix_of(tx, session)?;
    let line = nick_line(tx.alloc(), from.as_slice(), nick.as_slice())?;
    let mut hearers = tx.before().sharers(session)?;
    hearers.push(session)?;
    tx.show(hearers, line)
}

/// A session takes a nickname, which is shown once it is registered.
#[tactic(auto, using(transactions::proofs::Replay::grown_grown))]
fn rename(tx: &mut Transaction, session: SessionId, nick: &Octets) -> Result<(), AllocError>
    requires opened { IsOpened tx.old.facts session }
    requires free { IsFree tx.old.facts session nick.now }
    requires first { tx.old.facts ≡ tx.old.base }
    ensures { OnOk result (tx.new ≡ grown tx.old (renames tx.old.facts session nick.now)) }
{
    let new = nick.clone()?;
    if tx.is_registered(session) {
        show_nick(tx, session, nick)?;
    }
    tx.establish(Deed::NickSet { session, nick: new })
}

/// A session takes a nickname that no other holds.
pub(crate) fn take_nick(
    tx: &mut Transaction,
    session: SessionId,
    nick: &Octets,
) -> Result<(), AllocError>
    requires opened { IsOpened tx.old.facts session }
    requires first { tx.old.facts ≡ tx.old.base }
    ensures { OnOk result (tx.new
        ≡ grown tx.old (takes_nick tx.old.settings tx.old.facts session nick.now)) }
{
    let is_held = is_held(tx.before(), session, nick.as_slice());
    match tx.enrol_of(session).nick(nick.as_slice(), is_held) {
        NickAnswer::Erroneous => {
            let nick = nick.clone()?;
            tell(tx, session, Numeric::ErroneousNickname(nick))
        }
        NickAnswer::InUse => {
            let nick = nick.clone()?;
            tell(tx, session, Numeric::NicknameInUse(nick))
        }
        NickAnswer::Same => Ok(()),
        NickAnswer::Taken => rename(tx, session, nick),
    }
}

// ---- USER, PASS and QUIT

/// A session tells its user name and real name, once.
pub(crate) fn introduce(
    tx: &mut Transaction,
    session: SessionId,
    user: &Octets,
    real: &Octets,
) -> Result<(), AllocError>
    requires { IsOpened tx.old.facts session }
    ensures { OnOk result (tx.new ≡ grown tx.old
        (introduces tx.old.settings tx.old.facts session user.now real.now)) }
{
    match tx.enrol_of(session).user() {
        UserAnswer::AlreadyTold => tell(tx, session, Numeric::AlreadyRegistered),
        UserAnswer::Accepted => {
            let user = user.clone()?;
            let real = real.clone()?;
            tx.establish(Deed::UserSet {
                session,
                user,
                real,
            })
        }
    }
}

/// A session tells a password, which isn't looked at.
pub(crate) fn pass(tx: &mut Transaction, session: SessionId) -> Result<(), AllocError>
    ensures { OnOk result
        (tx.new ≡ grown tx.old (passes tx.old.settings tx.old.facts session)) }
{
    if tx.is_registered(session) {
        return tell(tx, session, Numeric::AlreadyRegistered);
    }
    Ok(())
}

/// A session ends as its client asked.
pub(crate) fn quit(
    tx: &mut Transaction,
    session: SessionId,
    text: &Octets,
) -> Result<(), AllocError>
    requires { IsOpened tx.old.facts session }
    ensures { OnOk result (tx.new ≡ grown tx.old (quits session text.now)) }
{
    let text = text.clone()?;
    tx.establish(Deed::Ended {
        session,
        why: Why::Quit,
        text,
    })
}

// ---- registration

/// An exchange of SASL that is open is aborted.
#[tactic(auto, using(transactions::proofs::Replay::grown_grown))]
fn abort(tx: &mut Transaction, session: SessionId) -> Result<(), AllocError>
    requires { IsOpened tx.old.facts session }
    ensures done { OnOk result (tx.new ≡ grown tx.old
        (aborts tx.old.settings tx.old.facts session (exchange tx.old.facts session))) }
{
    if tx.exchange_of(session).is_none() {
        return Ok(());
    }
    tell(tx, session, Numeric::SaslAborted)?;
    tx.establish(Deed::ExchangeSet {
        session,
        exchange: None,
    })
}

/// A session is welcomed.
fn greet(tx: &mut Transaction, session: SessionId) -> Result<(), AllocError>
    ensures { OnOk result (tx.new ≡ grown tx.old (tells_all tx.old.settings tx.old.facts
        session (welcome_numerics tx.old.settings (prefix tx.old.facts session)))) }
{
    let source = prefix_of(tx, session)?;
    let mut telling = ReplyBuilder::new(tx, session)?;
    let settings = tx.before().settings();
    welcome(tx.alloc(), &mut telling, settings, source)?;
    telling.finish(tx)
}

/// A session is welcomed, and registered from then on.
#[tactic(auto, using(transactions::proofs::Replay::grown_grown))]
fn enroll(tx: &mut Transaction, session: SessionId) -> Result<(), AllocError>
    requires { IsOpened tx.old.facts session }
    ensures { OnOk result
        (tx.new ≡ grown tx.old (enrolls tx.old.settings tx.old.facts session)) }
{
    greet(tx, session)?;
    tx.establish(Deed::Enrolled { session })
}

/// A session is registered, and an exchange that is open aborted before.
#[tactic(auto, using(transactions::proofs::Replay::grown_grown))]
fn register(tx: &mut Transaction, session: SessionId) -> Result<(), AllocError>
    requires { IsOpened tx.old.facts session }
    ensures { OnOk result
        (tx.new ≡ grown tx.old (registers tx.old.settings tx.old.facts session)) }
{
    abort(tx, session)?;
    enroll(tx, session)
}

/// A session that is ready, and isn't registered yet, is registered.
pub fn complete(tx: &mut Transaction, session: SessionId) -> Result<(), AllocError>
    requires { IsOpened tx.old.facts session }
    ensures { OnOk result
        (tx.new ≡ grown tx.old (if_ready tx.old.settings tx.old.facts session)) }
{
    if tx.is_registered(session) {
        return Ok(());
    }
    if tx.enrol_of(session).ready() {
        return register(tx, session);
    }
    Ok(())
}
