//! CAP and AUTHENTICATE (IRCv3 Capability Negotiation and SASL 3.1).
ghost use Rattle.std.specs.Prelude.{◌≡◌, ◌∷◌, ◌++◌, [], true, false, map, cond, codes, IfOk, OnOk};
ghost use Rattle.registration.specs.declared.enrol.SaslAnswer.TheVariants.{Opened, LoggedIn};
ghost use Rattle.registration.specs.Caps.{all_caps, list_of};
ghost use Rattle.registration.specs.Enrol.{cap_answer};
ghost use Rattle.roster.specs.LookBack.{caps, enrol};
ghost use Rattle.roster.specs.Legal.{IsOpened};
ghost use Rattle.roster.specs.declared.deed.Deed.TheVariants.{HoldSet};
ghost use Rattle.transactions.specs.declared.effect.Effect.TheVariants.{Establish};
ghost use Rattle.transactions.specs.Words.{grown, tells};
ghost use Rattle.session_commands.specs.Negotiation.{cap_text, cap_list, lists, answers_req, negotiates};
ghost use Rattle.session_commands.specs.Negotiation.{closes, sasl_answered, authenticates};

use crate::session::CapSubcommand;
use chronicle::SessionId;
use line_grammar::Octets;
use numerics::{Numeric, joined_by_spaces};
use registration::{Cap, CapAnswer, SaslAnswer};
use roster::Deed;
use std::alloc::{AllocError, Global};
use transactions::{Transaction, cap_line, go_on_line, prefix_of, tell, title_of};

// ---- CAP

/// A capability with its value, where values are shown.
fn cap_text(cap: Cap, shows_values: bool) -> &'static [u8]
    ensures { result.now ≡ cap_text shows_values cap }
{
    match cap {
        Cap::Sasl if shows_values => b"sasl=PLAIN",
        _ => cap.name(),
    }
}

/// The texts of capabilities, in order.
fn cap_texts(alloc: Global, caps: &[Cap], shows_values: bool) -> Result<Vec<Octets>, AllocError>
    ensures { IfOk result (λ v. v.items ≡ map (cap_text shows_values) caps.now) }
{
    let mut texts = Vec::new(alloc);
    for cap in caps {
        texts.push(Octets::copy_of(alloc, cap_text(*cap, shows_values))?)?;
    }
    Ok(texts)
}

fn cap_list(alloc: Global, caps: &[Cap], shows_values: bool) -> Result<Octets, AllocError>
    ensures { IfOk result (λ l. l ≡ cap_list shows_values caps.now) }
{
    let texts = cap_texts(alloc, caps, shows_values)?;
    Ok(Octets::from_vec(joined_by_spaces(alloc, &texts)?))
}

/// Answers a subcommand with a list.
fn list(
    tx: &mut Transaction,
    session: SessionId,
    subcommand: &[u8],
    list: &[u8],
) -> Result<(), AllocError>
    ensures { OnOk result (tx.new ≡ grown tx.old
        (lists tx.old.settings tx.old.facts session subcommand.now list.now ∷ [])) }
{
    let to = title_of(tx.alloc(), tx.nick_of(session))?;
    let server = tx.before().settings().server.as_slice();
    let line = cap_line(tx.alloc(), server, to.as_slice(), subcommand, list)?;
    tx.answer(line)
}

/// The registration of a session waits for the end of the negotiation, where it is to.
fn wait(tx: &mut Transaction, session: SessionId, is_to: bool) -> Result<(), AllocError>
    requires { IsOpened tx.old.facts session }
    ensures { OnOk result
        (tx.new ≡ grown tx.old (cond is_to (Establish (HoldSet session true) ∷ []) [])) }
{
    if is_to {
        return tx.establish(Deed::HoldSet {
            session,
            held: true,
        });
    }
    Ok(())
}

/// Answers `CAP REQ`.
#[tactic(auto, using(transactions::proofs::Replay::grown_grown))]
fn request(tx: &mut Transaction, session: SessionId, words: &[Octets]) -> Result<(), AllocError>
    requires { IsOpened tx.old.facts session }
    ensures { OnOk result (tx.new
        ≡ grown tx.old (answers_req tx.old.settings tx.old.facts
        session words.now (cap_answer (enrol tx.old.facts session) words.now))) }
{
    let answer = tx.enrol_of(session).cap(words);
    let shown = joined_by_spaces(tx.alloc(), words)?;
    match answer {
        CapAnswer::Acknowledged { caps } => {
            list(tx, session, b"ACK", &shown)?;
            tx.establish(Deed::CapsSet { session, caps })
        }
        CapAnswer::Refused => list(tx, session, b"NAK", &shown),
    }
}

/// Answers `CAP LS`.
fn list_all(tx: &mut Transaction, session: SessionId, shows_values: bool) -> Result<(), AllocError>
    ensures { OnOk result (tx.new ≡ grown tx.old (lists tx.old.settings tx.old.facts
        session (codes "LS") (cap_list shows_values all_caps) ∷ [])) }
{
    let shown = cap_list(tx.alloc(), Cap::all(), shows_values)?;
    list(tx, session, b"LS", shown.as_slice())
}

/// Answers `CAP LIST`.
fn list_on(tx: &mut Transaction, session: SessionId) -> Result<(), AllocError>
    ensures { OnOk result (tx.new ≡ grown tx.old (lists tx.old.settings tx.old.facts
        session (codes "LIST") (cap_list false (list_of (caps tx.old.facts session))) ∷ [])) }
{
    let on = tx.caps_of(session).list(tx.alloc())?;
    let shown = cap_list(tx.alloc(), &on, false)?;
    list(tx, session, b"LIST", shown.as_slice())
}

/// Negotiates capabilities.
#[tactic(auto, using(transactions::proofs::Replay::grown_grown))]
pub(crate) fn negotiate(
    tx: &mut Transaction,
    session: SessionId,
    subcommand: &CapSubcommand,
) -> Result<(), AllocError>
    requires { IsOpened tx.old.facts session }
    ensures { OnOk result (tx.new
        ≡ grown tx.old (negotiates tx.old.settings tx.old.facts session subcommand.now)) }
{
    let holds = tx.enrol_of(session).holds();
    match subcommand {
        CapSubcommand::Ls { shows_values } => {
            list_all(tx, session, *shows_values)?;
            wait(tx, session, holds)
        }
        CapSubcommand::List => list_on(tx, session),
        CapSubcommand::Req { words } => {
            request(tx, session, words.as_slice())?;
            wait(tx, session, holds)
        }
        CapSubcommand::End => tx.establish(Deed::HoldSet {
            session,
            held: false,
        }),
    }
}

// ---- AUTHENTICATE

/// Answers a session with a numeric, and its exchange ends.
#[tactic(auto, using(transactions::proofs::Replay::grown_grown))]
fn close(tx: &mut Transaction, session: SessionId, numeric: Numeric) -> Result<(), AllocError>
    requires { IsOpened tx.old.facts session }
    ensures { OnOk result (tx.new ≡ grown tx.old
        (tells tx.old.settings tx.old.facts session numeric ∷ closes session ∷ [])) }
{
    tell(tx, session, numeric)?;
    tx.establish(Deed::ExchangeSet {
        session,
        exchange: None,
    })
}

/// An exchange is open.
#[tactic(auto, using(transactions::proofs::Replay::grown_grown))]
fn open(tx: &mut Transaction, session: SessionId) -> Result<(), AllocError>
    requires { IsOpened tx.old.facts session }
    ensures { OnOk result (tx.new
        ≡ grown tx.old (sasl_answered tx.old.settings tx.old.facts session Opened)) }
{
    let line = go_on_line(tx.alloc())?;
    tx.answer(line)?;
    let nothing = Octets::from_vec(Vec::new(tx.alloc()));
    tx.establish(Deed::ExchangeSet {
        session,
        exchange: Some(nothing),
    })
}

/// A session is logged in by an account.
#[tactic(auto, using(transactions::proofs::Replay::grown_grown))]
fn log_in(tx: &mut Transaction, session: SessionId, account: Octets) -> Result<(), AllocError>
    requires { IsOpened tx.old.facts session }
    ensures { OnOk result (tx.new ≡ grown tx.old
        (sasl_answered tx.old.settings tx.old.facts session (LoggedIn account))) }
{
    let source = prefix_of(tx, session)?;
    let named = account.clone()?;
    tell(
        tx,
        session,
        Numeric::LoggedIn {
            source,
            account: named,
        },
    )?;
    tell(tx, session, Numeric::SaslSuccess)?;
    tx.establish(Deed::LoggedIn { session, account })?;
    tx.establish(Deed::ExchangeSet {
        session,
        exchange: None,
    })
}

/// Names a mechanism, or sends a piece of an exchange.
#[tactic(auto, using(transactions::proofs::Replay::grown_grown))]
pub(crate) fn authenticate(
    tx: &mut Transaction,
    session: SessionId,
    piece: &[u8],
) -> Result<(), AllocError>
    requires { IsOpened tx.old.facts session }
    ensures { OnOk result (tx.new
        ≡ grown tx.old (authenticates tx.old.settings tx.old.facts session piece.now)) }
{
    let accounts = &tx.before().settings().accounts;
    let answer = tx
        .enrol_of(session)
        .authenticate(tx.alloc(), accounts, piece)?;
    match answer {
        SaslAnswer::AlreadyLoggedIn => tell(tx, session, Numeric::SaslAlready),
        SaslAnswer::Failed => close(tx, session, Numeric::SaslFail),
        SaslAnswer::Opened => open(tx, session),
        SaslAnswer::UnknownMechanism => {
            tell(tx, session, Numeric::SaslMechs)?;
            tell(tx, session, Numeric::SaslFail)
        }
        SaslAnswer::Aborted => close(tx, session, Numeric::SaslAborted),
        SaslAnswer::TooLong => close(tx, session, Numeric::SaslTooLong),
        SaslAnswer::Waits { exchange } => tx.establish(Deed::ExchangeSet {
            session,
            exchange: Some(exchange),
        }),
        SaslAnswer::LoggedIn { account } => log_in(tx, session, account),
    }
}
