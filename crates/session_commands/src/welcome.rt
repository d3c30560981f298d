//! What a session is told when it is registered (RFC 2812, section 5.1).
ghost use Rattle.std.specs.Prelude.{◌≡◌, map, IfOk, OnOk};
ghost use Rattle.numerics.specs.declared.numeric.Numeric.TheVariants.{ISupport};
ghost use Rattle.numerics.specs.CivilTime.{time_text};
ghost use Rattle.registration.specs.Settings.{IsWellSet};
ghost use Rattle.query_commands.specs.Telling.{telling_more};
ghost use Rattle.session_commands.specs.Welcome.{support_numerics, welcome_numerics};

use line_grammar::{Octets, OctetsList};
use numerics::{Numeric, TimeFault, split_tokens, time_text, tokens};
use query_commands::{ReplyBuilder, push_motd};
use registration::Settings;
use std::alloc::{AllocError, Global};

/// Octets of the tokens in a line, at most: so it fits with every server's name and nickname.
const SUPPORT_ROOM: usize = 370;

/// Adds a numeric for each line of tokens.
#[tactic(auto, using(query_commands::proofs::Told::more_more))]
fn push_lines(telling: &mut ReplyBuilder<'_>, lines: Vec<OctetsList>) -> Result<(), AllocError>
    ensures { OnOk result (telling.new ≡ telling_more telling.old (map ISupport lines.items)) }
{
    for words in lines {
        telling.push(Numeric::ISupport(words))?;
    }
    Ok(())
}

/// Adds what the server supports.
fn push_support(alloc: Global, telling: &mut ReplyBuilder<'_>) -> Result<(), AllocError>
    ensures { OnOk result (telling.new ≡ telling_more telling.old support_numerics) }
{
    let tokens = tokens(alloc)?;
    let lines = split_tokens(alloc, tokens, SUPPORT_ROOM)?;
    push_lines(telling, lines)
}

/// The text of the moment at which a server was created.
fn created_text(alloc: Global, settings: &Settings) -> Result<Octets, AllocError>
    requires { IsWellSet settings.now }
    ensures { IfOk result (λ t. t ≡ time_text settings.now.created) }
{
    match time_text(alloc, settings.created.milliseconds()) {
        Ok(text) => Ok(text),
        Err(TimeFault::OutOfRange) => unreachable!(),
        Err(TimeFault::Memory) => Err(AllocError),
    }
}

/// Adds what whoever registers is told.
#[tactic(auto, using(query_commands::proofs::Told::more_more))]
pub(crate) fn welcome(
    alloc: Global,
    telling: &mut ReplyBuilder<'_>,
    settings: &Settings,
    source: Octets,
) -> Result<(), AllocError>
    requires { IsWellSet settings.now }
    ensures { OnOk result
        (telling.new ≡ telling_more telling.old (welcome_numerics settings.now source)) }
{
    telling.push(Numeric::Welcome(source))?;
    telling.push(Numeric::YourHost(settings.version.clone()?))?;
    telling.push(Numeric::Created(created_text(alloc, settings)?))?;
    telling.push(Numeric::MyInfo(settings.version.clone()?))?;
    push_support(alloc, telling)?;
    push_motd(telling, &settings.motd)
}
