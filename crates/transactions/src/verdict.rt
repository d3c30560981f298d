//! What comes of a record's effects.
ghost use Rattle.std.specs.Prelude.{ℕ, ◌≡◌, ◌==◌, ◌++◌, ◌∷◌, [], cond, OnOk};
ghost use Rattle.transactions.specs.Effects.{deeds_of, lines_heard, reply_lines, copy_lines};
ghost use Rattle.transactions.specs.Verdicts.{lines_shown, IsVerdict};

use crate::effect::Effect;
use chronicle::SessionId;
use numerics::Line;
use roster::{Deed, Sessions};
use std::alloc::{AllocError, Global};

/// A line, and the sessions that it is shown to.
#[derive(Drop)]
pub struct ShownLine {
    pub hearers: Sessions,
    pub line: Line,
}

/// What comes of a record.
#[derive(Drop)]
pub struct Verdict {
    /// The facts that it establishes, in order.
    pub deeds: Vec<Deed>,
    /// The lines to its own session.
    pub reply: Vec<Line>,
    /// What its session sent to itself, which it is given besides.
    pub copies: Vec<Line>,
    /// The lines that others are shown, in order. Its own session may be among their hearers.
    pub others: Vec<ShownLine>,
}

/// Adds a line where a hearer is this session.
fn push_for(
    lines: &mut Vec<Line>,
    hearer: SessionId,
    line: &Line,
    session: SessionId,
) -> Result<(), AllocError>
    ensures { OnOk result
        (lines.new.items ≡ lines.old.items ++ cond (hearer == session) (line.now ∷ []) []) }
{
    if hearer == session {
        lines.push(line.clone()?)?;
    }
    Ok(())
}

/// Adds a line as often as a session is among its hearers.
fn push_heard(
    lines: &mut Vec<Line>,
    hearers: &[SessionId],
    line: &Line,
    session: SessionId,
) -> Result<(), AllocError>
    ensures { OnOk result
        (lines.new.items ≡ lines.old.items ++ lines_heard hearers.now line.now session) }
{
    for hearer in hearers {
        push_for(lines, *hearer, line, session)?;
    }
    Ok(())
}

impl Verdict {
    /// Nothing comes of it.
    pub(crate) fn nothing(alloc: Global) -> Verdict
        ensures { (s : ℕ) → IsVerdict result s [] }
    {
        Verdict {
            deeds: Vec::new(alloc),
            reply: Vec::new(alloc),
            copies: Vec::new(alloc),
            others: Vec::new(alloc),
        }
    }

    /// Adds what comes of an effect of a session's record.
    pub(crate) fn add(&mut self, effect: Effect, session: SessionId) -> Result<(), AllocError>
        ensures deeds { OnOk result
            (self.new.deeds.items ≡ self.old.deeds.items ++ deeds_of (effect ∷ [])) }
        ensures reply { OnOk result
            (self.new.reply.items ≡ self.old.reply.items ++ reply_lines session effect) }
        ensures copies { OnOk result
            (self.new.copies.items ≡ self.old.copies.items ++ copy_lines effect) }
        ensures others { OnOk result
            (self.new.others.items ≡ self.old.others.items ++ lines_shown (effect ∷ [])) }
    {
        match effect {
            Effect::Establish { deed } => self.deeds.push(deed)?,
            Effect::Answer { line } => self.reply.push(line)?,
            Effect::Copy { line } => self.copies.push(line)?,
            Effect::Show { hearers, line } => {
                push_heard(&mut self.reply, hearers.as_slice(), &line, session)?;
                self.others.push(ShownLine { hearers, line })?;
            }
        }
        Ok(())
    }
}
