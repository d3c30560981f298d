//! MODE of a user (RFC 2812, section 3.1.5).
ghost use Rattle.std.specs.Prelude.{◌≡◌, ◌∷◌, ◌++◌, ◌==◌, [], not, None, IfOk, OnOk};
ghost use Rattle.std.specs.List.{list_any};
ghost use Rattle.numerics.specs.declared.numeric.Numeric.TheVariants.{UModeIs};
ghost use Rattle.roster.specs.LookBack.{invisible, nick};
ghost use Rattle.roster.specs.Legal.{IsOpened};
ghost use Rattle.transactions.specs.Words.{grown, prefix, tells, title};
ghost use Rattle.mode_commands.specs.Letters.{asked_changes, asks};
ghost use Rattle.mode_commands.specs.Lines.{mode_line};
ghost use Rattle.mode_commands.specs.UserModes.{hides, invisible_after, is_known, modes_text};
ghost use Rattle.mode_commands.specs.UserModes.{own_modes, takes_own, tells_unknown};

use crate::letters::{ModeChange, asked_changes};
use crate::mode_lines::mode_line;
use crate::steps::agree;
use chronicle::SessionId;
use line_grammar::Octets;
use numerics::{Line, Numeric};
use roster::Deed;
use std::alloc::{AllocError, Global};
use transactions::{Transaction, prefix_of, tell, title_of};

/// The text of a user's modes.
fn modes_text(is_invisible: bool) -> &'static [u8]
    ensures { result.now ≡ modes_text is_invisible }
{
    if is_invisible { b"+i" } else { b"+" }
}

/// Whether a session is invisible after letters.
fn invisible_after(was: bool, changes: &[ModeChange]) -> bool
    ensures { result ≡ invisible_after was changes.now }
{
    let mut is = was;
    for change in changes {
        if change.letter == b'i' {
            is = change.on;
        }
    }
    is
}

/// Whether a letter isn't known.
fn has_unknown(changes: &[ModeChange]) -> bool
    ensures { result ≡ list_any (λ a. not (is_known a)) changes.now }
{
    changes.iter().any(|change| change.letter != b'i')
}

/// Tells of letters that aren't known, once.
fn tell_unknown(
    tx: &mut Transaction,
    session: SessionId,
    changes: &[ModeChange],
) -> Result<(), AllocError>
    ensures grown { OnOk result (tx.new
        ≡ grown tx.old (tells_unknown tx.old.settings tx.old.facts session changes.now)) }
    ensures facts { OnOk result (tx.new.facts ≡ tx.old.facts) }
{
    if has_unknown(changes) {
        return tell(tx, session, Numeric::UModeUnknownFlag);
    }
    Ok(())
}

/// The line that shows a session its own mode.
fn own_line(tx: &Transaction, session: SessionId, is: bool) -> Result<Line, AllocError>
    ensures { IfOk result (λ l. l ≡ mode_line (prefix tx.now.facts session)
        (title (nick tx.now.facts session)) (asks is 105 None)) }
{
    let alloc = tx.alloc();
    let from = prefix_of(tx, session)?;
    let nick = title_of(alloc, tx.nick_of(session))?;
    let shown = ModeChange {
        on: is,
        letter: b'i',
        param: None,
    };
    mode_line(alloc, from.as_slice(), nick.as_slice(), &[shown])
}

/// A session is invisible from now on, or isn't.
#[tactic(auto, using(transactions::proofs::Replay::grown_grown))]
fn hide(tx: &mut Transaction, session: SessionId, is: bool) -> Result<(), AllocError>
    requires opened { IsOpened tx.old.facts session }
    requires first { tx.old.facts ≡ tx.old.base }
    ensures { OnOk result (tx.new ≡ grown tx.old (hides tx.old.facts session is)) }
{
    if agree(is, tx.before().is_invisible(session)) {
        return Ok(());
    }
    let line = own_line(tx, session, is)?;
    tx.establish(Deed::InvisibleSet { session, on: is })?;
    tx.answer(line)
}

/// Takes letters of a session's own modes.
#[tactic(auto, using(transactions::proofs::Replay::grown_grown))]
fn take_own(
    tx: &mut Transaction,
    session: SessionId,
    changes: &[ModeChange],
) -> Result<(), AllocError>
    requires opened { IsOpened tx.old.facts session }
    requires first { tx.old.facts ≡ tx.old.base }
    ensures { OnOk result (tx.new
        ≡ grown tx.old (takes_own tx.old.settings tx.old.facts session changes.now)) }
{
    let was = tx.before().is_invisible(session);
    tell_unknown(tx, session, changes)?;
    hide(tx, session, invisible_after(was, changes))
}

/// Tells a session its own modes.
fn tell_own(tx: &mut Transaction, session: SessionId) -> Result<(), AllocError>
    requires { tx.old.facts ≡ tx.old.base }
    ensures { OnOk result (tx.new ≡ grown tx.old (tells tx.old.settings tx.old.facts
        session (UModeIs (modes_text (invisible tx.old.facts session))) ∷ [])) }
{
    let is = tx.before().is_invisible(session);
    let modes = Octets::copy_of(tx.alloc(), modes_text(is))?;
    tell(tx, session, Numeric::UModeIs(modes))
}

/// Changes a session's own modes by letters.
fn change_own(tx: &mut Transaction, session: SessionId, letters: &[u8]) -> Result<(), AllocError>
    requires opened { IsOpened tx.old.facts session }
    requires first { tx.old.facts ≡ tx.old.base }
    ensures { OnOk result (tx.new ≡ grown tx.old
        (takes_own tx.old.settings tx.old.facts session (asked_changes letters.now []))) }
{
    let asked = asked_changes(tx.alloc(), letters, &[])?;
    take_own(tx, session, &asked)
}

/// Tells or changes a session's own modes.
pub(crate) fn own_modes(
    tx: &mut Transaction,
    session: SessionId,
    changes: &[Octets],
) -> Result<(), AllocError>
    requires opened { IsOpened tx.old.facts session }
    requires first { tx.old.facts ≡ tx.old.base }
    ensures { OnOk result (tx.new
        ≡ grown tx.old (own_modes tx.old.settings tx.old.facts session changes.now)) }
{
    match changes.split_first() {
        Some((letters, _)) => change_own(tx, session, letters.as_slice()),
        None => tell_own(tx, session),
    }
}
