//! An answer of many lines, each spelled as soon as it is told (RFC 2812, section 2.4).
ghost use Rattle.std.specs.Prelude.{◌≡◌, ◌∷◌, [], map, IfOk, OnOk};
ghost use Rattle.transactions.specs.declared.effect.Effect.TheVariants.{Answer};
ghost use Rattle.transactions.specs.Words.{grown};
ghost use Rattle.numerics.specs.declared.numeric.Numeric.TheVariants.{NamReply};

use crate::name_line::NameLine;
use chronicle::SessionId;
use line_grammar::Octets;
use numerics::{Line, Numeric};
use snapshots::{GhostChange, Snapshot, append, apply, blank};
use std::alloc::{AllocError, Global};
use std::collections::LinkedList;
use std::marker::Model;
use transactions::{Transaction, title_of};

/// The lines of an answer so far. Clauses see its numerics, of which none is kept.
#[derive(Drop)]
pub struct ReplyBuilder<'a> {
    alloc: Global,
    server: &'a [u8],
    to: Octets,
    lines: Vec<Line>,
    numerics: Snapshot<LinkedList<Numeric>>,
}

impl<'a> Model for ReplyBuilder<'a> {
    ghost use Rattle.std.specs.Prelude.{◌≡◌, map};
    ghost use Rattle.numerics.specs.Numerics.{numeric};
    ghost use Rattle.query_commands.specs.Telling.{Telling};

    ghost Value = { Telling };

    ghost view = { λ a. record { server = a.server.now; to = a.to; items = a.numerics.value } };

    ghost invariant = { λ a. a.lines.items ≡ map (numeric a.server.now a.to) a.numerics.value };
}

/// The names of a channel that a line tells.
#[derive(Drop)]
struct NamesTold<'a> {
    secret: bool,
    channel: &'a Octets,
    names: &'a Snapshot<LinkedList<Octets>>,
}

// The numeric of these names is told, as the last.
struct TellsNames;

impl<'a> GhostChange<LinkedList<Numeric>, NamesTold<'a>> for TellsNames {
    ghost use Rattle.std.specs.Prelude.{◌++◌, ◌∷◌, []};
    ghost use Rattle.numerics.specs.declared.numeric.Numeric.TheVariants.{NamReply};

    ghost changed = { λ ns t. ns ++ NamReply t.secret t.channel.now t.names.now.value ∷ [] };
}

/// Answers with lines, in order.
fn answer_all(tx: &mut Transaction, lines: Vec<Line>) -> Result<(), AllocError>
    ensures { OnOk result (tx.new ≡ grown tx.old (map Answer lines.items)) }
{
    for line in lines {
        tx.answer(line)?;
    }
    Ok(())
}

impl<'a> ReplyBuilder<'a> {
    ghost use Rattle.query_commands.specs.Telling.{answers, nothing_told, telling_more};

    /// Tells a session nothing yet. Its nickname is looked up once, as it is now.
    pub fn new(tx: &Transaction<'a>, session: SessionId) -> Result<ReplyBuilder<'a>, AllocError>
        ensures { IfOk result (λ t. t ≡ nothing_told tx.now.settings tx.now.facts session) }
    {
        let alloc = tx.alloc();
        let to = title_of(alloc, tx.nick_of(session))?;
        Ok(ReplyBuilder {
            alloc,
            server: tx.before().settings().server.as_slice(),
            to,
            lines: Vec::new(alloc),
            numerics: blank(alloc),
        })
    }

    /// Has room for as many lines more.
    pub(crate) fn reserve(&mut self, count: usize) -> Result<(), AllocError>
        ensures { self.new ≡ self.old }
    {
        self.lines.reserve(count)?;
        Ok(())
    }

    /// Has a line more, which says this numeric.
    fn say(&mut self, numeric: &Numeric) -> Result<(), AllocError>
        ensures { OnOk result (self.new ≡ telling_more self.old (numeric.now ∷ [])) }
    {
        let line = numeric.line(self.alloc, self.server, self.to.as_slice())?;
        self.lines.push(line)?;
        append(&mut self.numerics, numeric);
        Ok(())
    }

    /// Tells a numeric.
    pub fn push(&mut self, numeric: Numeric) -> Result<(), AllocError>
        ensures { OnOk result (self.new ≡ telling_more self.old (numeric ∷ [])) }
    {
        self.say(&numeric)
    }

    /// Tells the names of a channel that one line has.
    pub(crate) fn push_names(
        &mut self,
        secret: bool,
        channel: &Octets,
        line: NameLine,
    ) -> Result<(), AllocError>
        ensures { OnOk result
            (self.new ≡ telling_more self.old (NamReply secret channel.now line ∷ [])) }
    {
        let names = line.names();
        let told = line.numeric(self.alloc, self.server, self.to.as_slice(), secret, channel)?;
        self.lines.push(told)?;
        let told = NamesTold {
            secret,
            channel,
            names: &names,
        };
        apply::<TellsNames, LinkedList<Numeric>, NamesTold<'_>>(&mut self.numerics, &told);
        Ok(())
    }

    /// Answers with all that was told, in order.
    pub fn finish(self, tx: &mut Transaction<'_>) -> Result<(), AllocError>
        ensures { OnOk result (tx.new ≡ grown tx.old (answers self.entry)) }
    {
        answer_all(tx, self.lines)
    }
}
