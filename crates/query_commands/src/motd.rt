//! The message of the day (RFC 2812, sections 3.4.1 and 5.1).
ghost use Rattle.std.specs.Prelude.{◌≡◌, map, OnOk};
ghost use Rattle.numerics.specs.declared.numeric.Numeric.TheVariants.{Motd as MotdLine};
ghost use Rattle.command_params.specs.Params.{IsRead};
ghost use Rattle.query_commands.specs.Telling.{telling_more};
ghost use Rattle.query_commands.specs.Motd.{motd_asked, motd_numerics, motd_query};

use crate::Query;
use crate::reply_builder::ReplyBuilder;
use casemapping::is_same;
use command_params::{ReadFault, copy_first};
use line_grammar::{LineParameters, Octets, OctetsList};
use numerics::Numeric;
use std::alloc::{AllocError, Global};
use transactions::Transaction;

/// What MOTD asks for.
pub fn read_motd(alloc: Global, params: &LineParameters<'_>) -> Result<Query, ReadFault>
    ensures { IsRead (motd_query params.now) result }
{
    let server = copy_first(alloc, params)?;
    Ok(Query::Motd { server })
}

/// Adds lines of the message of the day.
#[tactic(auto, using(crate::proofs::Told::more_more))]
fn push_motd_lines(telling: &mut ReplyBuilder<'_>, lines: &[Octets]) -> Result<(), AllocError>
    ensures { OnOk result (telling.new ≡ telling_more telling.old (map MotdLine lines.now)) }
{
    for line in lines {
        telling.push(Numeric::Motd(line.clone()?))?;
    }
    Ok(())
}

/// Adds the message of the day.
#[tactic(auto, using(crate::proofs::Told::more_more))]
pub fn push_motd(
    telling: &mut ReplyBuilder<'_>,
    motd: &Option<OctetsList>,
) -> Result<(), AllocError>
    ensures { OnOk result (telling.new ≡ telling_more telling.old (motd_numerics motd.now)) }
{
    match motd {
        Some(motd) => {
            telling.push(Numeric::MotdStart)?;
            push_motd_lines(telling, motd.as_slice())?;
            telling.push(Numeric::EndOfMotd)?;
        }
        None => telling.push(Numeric::NoMotd)?,
    }
    Ok(())
}

/// MOTD: the message of the day of a server that was asked for, where it is this one.
pub(crate) fn answer(
    tx: &Transaction<'_>,
    telling: &mut ReplyBuilder<'_>,
    server: &Option<Octets>,
) -> Result<(), AllocError>
    ensures { OnOk result
        (telling.new ≡ telling_more telling.old (motd_asked tx.now.settings server.now)) }
{
    let settings = tx.before().settings();
    match server {
        Some(server) if !is_same(server.as_slice(), settings.server.as_slice()) => {
            telling.push(Numeric::NoSuchServer(server.clone()?))
        }
        _ => push_motd(telling, &settings.motd),
    }
}
