//! MODE of a channel (RFC 2812, section 3.2.3).
ghost use Rattle.std.specs.Prelude.{◌≡◌, ◌∷◌, ◌++◌, [], false, map, IfOk, OnOk};
ghost use Rattle.numerics.specs.declared.numeric.Numeric.TheVariants.{BanList};
ghost use Rattle.transactions.specs.Words.{IsSeen, grown, tells, tells_all};
ghost use Rattle.mode_commands.specs.ChannelModes.{asks_bans, ban_numerics, channel_modes, does};
ghost use Rattle.mode_commands.specs.ChannelModes.{does_changes, in_turn, refusal_numeric, shows_changes};
ghost use Rattle.mode_commands.specs.ChannelModes.{takes_changes, takes_steps, tells_modes};
ghost use Rattle.mode_commands.specs.Steps.{IsMild, all_shown, shown_by, step, after_mode, steps};

use crate::letters::{ModeChange, asked_changes};
use crate::mode_lines::{letters_set, mode_line, params_set};
use crate::steps::{ModeStep, Refusal, step_of};
use chronicle::SessionId;
use line_grammar::{Octets, OctetsList};
use numerics::Numeric;
use roster::Sessions;
use std::alloc::{AllocError, Global};
use transactions::{Denial, Seen, Transaction, deny, deny_absent, prefix_of, tell, tell_all};

// ---- what is told

/// Tells the modes of a channel.
fn tell_modes(tx: &mut Transaction, session: SessionId, seen: &Seen) -> Result<(), AllocError>
    ensures { OnOk result (tx.new
        ≡ grown tx.old (tells_modes tx.old.settings tx.old.facts session seen.now ∷ [])) }
{
    let is_member = seen.state().has(session);
    let modes = letters_set(tx.alloc(), seen.state().modes())?;
    let params = params_set(tx.alloc(), is_member, seen.state().modes())?;
    let params = OctetsList::from_vec(params);
    let channel = seen.name().clone()?;
    tell(
        tx,
        session,
        Numeric::ChannelModeIs {
            channel,
            modes,
            params,
        },
    )
}

/// Adds a numeric for each mask.
fn push_bans(
    numerics: &mut Vec<Numeric>,
    channel: &Octets,
    bans: &[Octets],
) -> Result<(), AllocError>
    ensures { OnOk result
        (numerics.new.items ≡ numerics.old.items ++ map (BanList channel.now) bans.now) }
{
    for ban in bans {
        let channel = channel.clone()?;
        let mask = ban.clone()?;
        numerics.push(Numeric::BanList { channel, mask })?;
    }
    Ok(())
}

/// What tells the bans of a channel.
fn ban_numerics(alloc: Global, seen: &Seen) -> Result<Vec<Numeric>, AllocError>
    ensures { IfOk result (λ v. v.items ≡ ban_numerics seen.now) }
{
    let mut numerics = Vec::new(alloc);
    push_bans(&mut numerics, seen.name(), seen.state().bans())?;
    let channel = seen.name().clone()?;
    numerics.push(Numeric::EndOfBanList(channel))?;
    Ok(numerics)
}

/// Tells the bans of a channel.
fn tell_bans(tx: &mut Transaction, session: SessionId, seen: &Seen) -> Result<(), AllocError>
    ensures { OnOk result (tx.new ≡ grown tx.old
        (tells_all tx.old.settings tx.old.facts session (ban_numerics seen.now))) }
{
    let numerics = ban_numerics(tx.alloc(), seen)?;
    tell_all(tx, session, &numerics)
}

// ---- what is changed

/// Answers that a letter is refused.
fn refuse(
    tx: &mut Transaction,
    session: SessionId,
    channel: &Octets,
    refusal: Refusal,
) -> Result<(), AllocError>
    ensures { OnOk result (tx.new ≡ grown tx.old (tells tx.old.settings tx.old.facts
        session (refusal_numeric channel.now refusal) ∷ [])) }
{
    match refusal {
        Refusal::LacksParameter => {
            let command = Octets::copy_of(tx.alloc(), b"MODE")?;
            tell(tx, session, Numeric::NeedMoreParams(command))
        }
        Refusal::Nobody { nick } => deny(tx, session, Denial::NoSuchNick, &nick),
        Refusal::NotMember { nick } => deny_absent(tx, session, &nick, channel),
        Refusal::Unknown { letter } => {
            let channel = channel.clone()?;
            tell(tx, session, Numeric::UnknownMode { letter, channel })
        }
    }
}

/// A letter that changes a channel, has no effect, or is refused. After the last letter nobody looks at the channel
/// that was seen: it stays as it was.
fn take_step(
    tx: &mut Transaction,
    session: SessionId,
    seen: &mut Seen,
    step: ModeStep,
    is_last: bool,
    shown: &mut Vec<ModeChange>,
) -> Result<(), AllocError>
    requires seen { IsSeen tx.old.facts seen.old }
    requires mild { IsMild seen.old.state step }
    ensures grown { OnOk result (tx.new
        ≡ grown tx.old (does tx.old.settings session seen.old.name tx.old.facts step)) }
    ensures seen { OnOk result (is_last ≡ false
        → seen.new ≡ record { name = seen.old.name; state = after_mode step seen.old.state }) }
    ensures known { OnOk result (is_last ≡ false → IsSeen tx.new.facts seen.new) }
    ensures shown { OnOk result (shown.new.items ≡ shown.old.items ++ shown_by step) }
{
    match step {
        ModeStep::Nothing => Ok(()),
        ModeStep::Refused { refusal } => refuse(tx, session, seen.name(), refusal),
        ModeStep::Changes { change, shown: new } => {
            if is_last {
                tx.establish_change(seen, change)?;
            } else {
                tx.change(seen, change)?;
            }
            shown.push(new)?;
            Ok(())
        }
    }
}

/// Takes one letter. The last is taken where the channel is kept, if it is the only one.
#[tactic(auto, using(crate::proofs::Mild::step_mild))]
fn take_change(
    tx: &mut Transaction,
    session: SessionId,
    seen: &mut Seen,
    asked: &ModeChange,
    is_last: bool,
    shown: &mut Vec<ModeChange>,
) -> Result<(), AllocError>
    requires seen { IsSeen tx.old.facts seen.old }
    ensures grown { OnOk result (tx.new ≡ grown tx.old (does tx.old.settings session
        seen.old.name tx.old.facts (step tx.old.base seen.old.state asked.now))) }
    ensures seen { OnOk result (is_last ≡ false → seen.new ≡ record {
      name = seen.old.name;
      state = after_mode (step tx.old.base seen.old.state asked.now) seen.old.state;
    }) }
    ensures known { OnOk result (is_last ≡ false → IsSeen tx.new.facts seen.new) }
    ensures shown { OnOk result (shown.new.items
        ≡ shown.old.items ++ shown_by (step tx.old.base seen.old.state asked.now)) }
{
    let step = step_of(tx.alloc(), tx.before(), seen.state(), asked)?;
    take_step(tx, session, seen, step, is_last, shown)
}

/// Takes letters in turn.
fn take_each(
    tx: &mut Transaction,
    session: SessionId,
    seen: &mut Seen,
    changes: &[ModeChange],
    shown: &mut Vec<ModeChange>,
) -> Result<(), AllocError>
    requires seen { IsSeen tx.old.facts seen.old }
    ensures grown { OnOk result (tx.new ≡ grown tx.old (in_turn tx.old.settings session
        seen.old.name tx.old.facts (steps tx.old.base seen.old.state changes.now))) }
    ensures shown { OnOk result (shown.new.items
        ≡ shown.old.items ++ all_shown (steps tx.old.base seen.old.state changes.now)) }
{
    let Some((last, others)) = changes.split_last() else {
        return Ok(());
    };
    for change in others {
        take_change(tx, session, seen, change, false, shown)?;
    }
    take_change(tx, session, seen, last, true, shown)
}

/// Shows members what changed, where something did.
fn show_changes(
    tx: &mut Transaction,
    from: &[u8],
    channel: &[u8],
    members: Sessions,
    shown: &[ModeChange],
) -> Result<(), AllocError>
    ensures { OnOk result
        (tx.new ≡ grown tx.old (shows_changes from.now channel.now members shown.now)) }
{
    if shown.is_empty() {
        return Ok(());
    }
    let line = mode_line(tx.alloc(), from, channel, shown)?;
    tx.show(members, line)
}

/// Takes letters, and shows what changed.
fn take_and_show(
    tx: &mut Transaction,
    session: SessionId,
    from: &[u8],
    channel: &[u8],
    seen: &mut Seen,
    changes: &[ModeChange],
) -> Result<(), AllocError>
    requires seen { IsSeen tx.old.facts seen.old }
    ensures { OnOk result (tx.new ≡ grown tx.old
        (takes_steps tx.old.settings tx.old.facts session from.now channel.now seen.old
        (steps tx.old.base seen.old.state changes.now))) }
{
    let members = Sessions::copy_of(tx.alloc(), seen.state().members())?;
    let mut shown = Vec::new(tx.alloc());
    take_each(tx, session, seen, changes, &mut shown)?;
    show_changes(tx, from, channel, members, &shown)
}

/// Takes letters of an operator.
fn take_changes(
    tx: &mut Transaction,
    session: SessionId,
    seen: &mut Seen,
    changes: &[ModeChange],
) -> Result<(), AllocError>
    requires seen { IsSeen tx.old.facts seen.old }
    requires first { tx.old.facts ≡ tx.old.base }
    ensures { OnOk result (tx.new ≡ grown tx.old
        (takes_changes tx.old.settings tx.old.facts session seen.old changes.now)) }
{
    let from = prefix_of(tx, session)?;
    let channel = seen.name().clone()?;
    take_and_show(
        tx,
        session,
        from.as_slice(),
        channel.as_slice(),
        seen,
        changes,
    )
}

// ---- the command

/// Whether `b` without a parameter is all that is asked.
fn asks_bans(changes: &[ModeChange]) -> bool
    ensures { result ≡ asks_bans changes.now }
{
    match changes {
        [change] => change.letter == b'b' && change.param.is_none(),
        _ => false,
    }
}

/// Tells the bans, or takes changes of an operator.
fn do_changes(
    tx: &mut Transaction,
    session: SessionId,
    seen: &mut Seen,
    changes: &[ModeChange],
) -> Result<(), AllocError>
    requires seen { IsSeen tx.old.facts seen.old }
    requires first { tx.old.facts ≡ tx.old.base }
    ensures { OnOk result (tx.new ≡ grown tx.old
        (does_changes tx.old.settings tx.old.facts session seen.old changes.now)) }
{
    if asks_bans(changes) {
        return tell_bans(tx, session, seen);
    }
    if seen.state().is_operator(session) {
        return take_changes(tx, session, seen, changes);
    }
    deny(tx, session, Denial::ChanOPrivsNeeded, seen.name())
}

/// Tells or changes the modes of a channel.
pub(crate) fn channel_modes(
    tx: &mut Transaction,
    session: SessionId,
    seen: &mut Seen,
    changes: &[Octets],
) -> Result<(), AllocError>
    requires seen { IsSeen tx.old.facts seen.old }
    requires first { tx.old.facts ≡ tx.old.base }
    ensures { OnOk result (tx.new ≡ grown tx.old
        (channel_modes tx.old.settings tx.old.facts session seen.old changes.now)) }
{
    let Some((letters, params)) = changes.split_first() else {
        return tell_modes(tx, session, seen);
    };
    let asked = asked_changes(tx.alloc(), letters.as_slice(), params)?;
    do_changes(tx, session, seen, &asked)
}
