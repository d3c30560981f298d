//! MODE: how it is read, and what it does (RFC 2812, sections 3.1.5 and 3.2.3).
ghost use Rattle.std.specs.Prelude.{◌≡◌, OnOk};
ghost use Rattle.roster.specs.LookBack.{user_named};
ghost use Rattle.roster.specs.Legal.{IsOpened};
ghost use Rattle.transactions.specs.Words.{grown, seen};
ghost use Rattle.command_params.specs.Params.{IsRead};
ghost use Rattle.mode_commands.specs.Modes.{mode_command, modes};
ghost use Rattle.mode_commands.specs.Modes.{of_channel, of_user, serves_mode};

use crate::channel_modes::channel_modes;
use crate::user_modes::own_modes;
use chronicle::SessionId;
use command_params::{CommandName, ReadFault, copy_of, needs_more};
use line_grammar::{LineParameters, Octets, OctetsList};
use numerics::Numeric;
use std::alloc::{AllocError, Global};
use transactions::{Denial, Transaction, deny, names_channel, tell};

/// The modes of a channel or a user, or changes of them, as given.
#[derive(Drop)]
pub struct ModeCommand {
    pub target: Octets,
    /// The parameters after the target.
    pub changes: OctetsList,
}

/// What MODE asks for.
pub fn read_mode(alloc: Global, params: &LineParameters<'_>) -> Result<ModeCommand, ReadFault>
    ensures { IsRead (mode_command params.now) result }
{
    let Some((target, params)) = params.split_first() else {
        return Err(needs_more(CommandName::Mode));
    };
    let target = Octets::copy_of(alloc, target)?;
    let changes = copy_of(alloc, &params)?;
    Ok(ModeCommand { target, changes })
}

fn of_channel(
    tx: &mut Transaction,
    session: SessionId,
    target: &Octets,
    changes: &[Octets],
) -> Result<(), AllocError>
    requires { tx.old.facts ≡ tx.old.base }
    ensures { OnOk result (tx.new ≡ grown tx.old (of_channel tx.old.settings
        tx.old.facts session target.now changes.now (seen tx.old.facts target.now))) }
{
    match tx.find(target.as_slice())? {
        Some(mut seen) => channel_modes(tx, session, &mut seen, changes),
        None => deny(tx, session, Denial::NoSuchChannel, target),
    }
}

fn of_user(
    tx: &mut Transaction,
    session: SessionId,
    target: &Octets,
    changes: &[Octets],
) -> Result<(), AllocError>
    requires opened { IsOpened tx.old.facts session }
    requires first { tx.old.facts ≡ tx.old.base }
    ensures { OnOk result (tx.new ≡ grown tx.old (of_user tx.old.settings tx.old.facts
        session target.now changes.now (user_named tx.old.facts target.now))) }
{
    match tx.before().find(target.as_slice()) {
        Some(user) if user == session => own_modes(tx, session, changes),
        Some(_) => tell(tx, session, Numeric::UsersDontMatch),
        None => deny(tx, session, Denial::NoSuchNick, target),
    }
}

/// MODE: tells the modes of a channel or of the session itself where no changes are given, and changes them
/// otherwise. The changes are the parameters after the target: signs and letters, and then the letters' parameters.
pub fn change_modes(
    tx: &mut Transaction,
    session: SessionId,
    target: &Octets,
    changes: &[Octets],
) -> Result<(), AllocError>
    requires opened { IsOpened tx.old.facts session }
    requires first { tx.old.facts ≡ tx.old.base }
    ensures { OnOk result (tx.new ≡ grown tx.old
        (modes tx.old.settings tx.old.facts session target.now changes.now)) }
{
    if names_channel(target.as_slice()) {
        return of_channel(tx, session, target, changes);
    }
    of_user(tx, session, target, changes)
}

/// Does what a command about modes asks for.
pub fn serve_mode(
    tx: &mut Transaction,
    session: SessionId,
    command: &ModeCommand,
) -> Result<(), AllocError>
    requires opened { IsOpened tx.old.facts session }
    requires first { tx.old.facts ≡ tx.old.base }
    ensures { OnOk result (tx.new
        ≡ grown tx.old (serves_mode tx.old.settings tx.old.facts session command.now)) }
{
    change_modes(tx, session, &command.target, command.changes.as_slice())
}
