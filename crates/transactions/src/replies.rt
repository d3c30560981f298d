//! How a session is answered (RFC 2812, section 2.4).
ghost use Rattle.std.specs.Prelude.{◌≡◌, ◌∷◌, [], option_copied, IfOk, OnOk};
ghost use Rattle.numerics.specs.Numerics.{numeric as numeric_line};
ghost use Rattle.transactions.specs.declared.effect.Effect.TheVariants.{Answer};
ghost use Rattle.transactions.specs.TransactionView.{grown};
ghost use Rattle.transactions.specs.Lines.{title};
ghost use Rattle.transactions.specs.Replies.{away_told, tells, tells_all};

use crate::shown_lines::title_text;
use crate::transaction::Transaction;
use chronicle::SessionId;
use line_grammar::Octets;
use numerics::Numeric;
use std::alloc::{AllocError, Global};

/// A copy of a name, or of a star before it is known.
pub fn title_of(alloc: Global, name: Option<&Octets>) -> Result<Octets, AllocError>
    ensures { IfOk result (λ t. t ≡ title (option_copied name.entry)) }
{
    Octets::copy_of(alloc, title_text(name))
}

/// Answers with a numeric to whom it names.
fn answer_numeric(tx: &mut Transaction, to: &[u8], numeric: &Numeric) -> Result<(), AllocError>
    ensures { OnOk result (tx.new ≡ grown tx.old
        (Answer (numeric_line tx.old.settings.server to.now numeric.now) ∷ [])) }
{
    let server = tx.before().settings().server.as_slice();
    let line = numeric.line(tx.alloc(), server, to)?;
    tx.answer(line)
}

/// Answers a session with a numeric, which is lent: a numeric is large, and each branch that drops one costs a proof.
fn tell_borrowed(
    tx: &mut Transaction,
    session: SessionId,
    numeric: &Numeric,
) -> Result<(), AllocError>
    ensures { OnOk result (tx.new
        ≡ grown tx.old (tells tx.old.settings tx.old.facts session numeric.now ∷ [])) }
{
    let to = title_of(tx.alloc(), tx.nick_of(session))?;
    answer_numeric(tx, to.as_slice(), numeric)
}

/// Answers a session with a numeric, from the server and to the session's nickname.
pub fn tell(tx: &mut Transaction, session: SessionId, numeric: Numeric) -> Result<(), AllocError>
    ensures { OnOk result (tx.new
        ≡ grown tx.old (tells tx.old.settings tx.old.facts session numeric ∷ [])) }
{
    tell_borrowed(tx, session, &numeric)
}

/// Answers a session with several numerics, in order. Its nickname is looked up once, since answers change no facts.
pub fn tell_all(
    tx: &mut Transaction,
    session: SessionId,
    numerics: &[Numeric],
) -> Result<(), AllocError>
    ensures { OnOk result (tx.new
        ≡ grown tx.old (tells_all tx.old.settings tx.old.facts session numerics.now)) }
{
    let to = title_of(tx.alloc(), tx.nick_of(session))?;
    for numeric in numerics {
        answer_numeric(tx, to.as_slice(), numeric)?;
    }
    Ok(())
}

/// Answers a session that a user of this nickname is away, where it is.
pub fn tell_away(
    tx: &mut Transaction,
    session: SessionId,
    nick: &[u8],
    away: Option<&Octets>,
) -> Result<(), AllocError>
    ensures { OnOk result (tx.new ≡ grown tx.old (away_told tx.old.settings tx.old.facts
        session nick.now (option_copied away.entry))) }
{
    let Some(text) = away else {
        return Ok(());
    };
    let nick = Octets::copy_of(tx.alloc(), nick)?;
    let text = text.clone()?;
    tell(tx, session, Numeric::Away { nick, text })
}
