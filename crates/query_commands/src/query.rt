//! The commands that only ask, and what each is told.
ghost use Rattle.std.specs.Prelude.{◌≡◌, OnOk};
ghost use Rattle.transactions.specs.Words.{grown};
ghost use Rattle.query_commands.specs.Query.{queries, told};
ghost use Rattle.query_commands.specs.Telling.{telling_more};

use crate::reply_builder::ReplyBuilder;
use crate::{listing, motd, names, who, whois};
use chronicle::SessionId;
use line_grammar::{Octets, OctetsList};
use std::alloc::AllocError;
use transactions::Transaction;

/// What is asked. Names are as given. A list of names has no empty one, and none that repeats another in either
/// case.
#[derive(Drop)]
pub enum Query {
    /// Who is on channels (RFC 2812, section 3.2.5).
    Names { channels: Option<OctetsList> },
    /// Which channels there are (section 3.2.6).
    List { channels: Option<OctetsList> },
    /// Who is on a channel (section 3.6.1).
    Who { name: Option<Octets> },
    /// Who has a nickname, which isn't empty (section 3.6.2).
    Whois { nick: Octets },
    /// The message of the day (section 3.4.1).
    Motd { server: Option<Octets> },
}

/// Adds what a session is told that asks.
fn answer(
    tx: &Transaction<'_>,
    telling: &mut ReplyBuilder<'_>,
    session: SessionId,
    query: &Query,
) -> Result<(), AllocError>
    ensures { OnOk result (telling.new
        ≡ telling_more telling.old (told tx.now.settings tx.now.base session query.now)) }
{
    match query {
        Query::Names { channels } => names::answer(tx, telling, session, channels),
        Query::List { channels } => listing::answer(tx, telling, session, channels),
        Query::Who { name } => who::answer(tx, telling, session, name),
        Query::Whois { nick } => whois::answer(tx, telling, session, nick),
        Query::Motd { server } => motd::answer(tx, telling, server),
    }
}

/// Answers a query by the facts before the record.
pub fn ask(tx: &mut Transaction, session: SessionId, query: &Query) -> Result<(), AllocError>
    requires { tx.old.facts ≡ tx.old.base }
    ensures { OnOk result (tx.new
        ≡ grown tx.old (queries tx.old.settings tx.old.facts session query.now)) }
{
    let mut telling = ReplyBuilder::new(tx, session)?;
    answer(tx, &mut telling, session, query)?;
    telling.finish(tx)
}
