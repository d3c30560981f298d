//! Lines that were read before they are begun.
ghost use Rattle.std.specs.Prelude.{◌≡◌, OnOk, OnErr};
ghost use Rattle.chronicle.specs.declared.record.Kind.TheVariants as kind;
ghost use Rattle.line_grammar.specs.declared.splitter.Piece.TheVariants as piece;
ghost use Rattle.book.specs.Reaping.{turn_of};
ghost use Rattle.book.specs.Flushes.{ListsChanged};

use crate::baton::Baton;
use crate::book::Book;
use crate::flush_list::FlushList;
use crate::stable_name::StableName;
use chronicle::Moment;
use ledger::{Done, LineRefusal, Plan, ReadLine};
use register::Naming;

impl<L: Naming, O: StableName> Book<L, O> {
    ghost use Rattle.book.specs.Outcomes.{IsLineOutcome};
    ghost use Rattle.book.specs.Outcomes.{IsLineBegun};
    ghost use Rattle.ledger.specs.Ledger.{after_begin};

    /// Begins the next line of the baton's session, which was read before, as `begin` does. Whether its label counts
    /// is decided here. The line is taken; a refusal leaves it.
    pub fn begin_read(
        &mut self,
        baton: &Baton<L, O>,
        line: &mut ReadLine,
        moment: Moment,
    ) -> Result<Plan, LineRefusal>
        ensures begun { IsLineBegun self.old self.new (turn_of baton.now) line.old moment result }
        ensures taken { OnOk result (line.new ≡ piece.TooLong) }
        ensures left { OnErr result (line.new ≡ line.old) }
    {
        self.ledger.begin(&baton.turn, line, moment)
    }

    /// Accepts the next line of the baton's session, which was read before, as `line` does. The line is taken; a
    /// refusal changes nothing, and leaves it.
    pub fn line_read(
        &mut self,
        baton: &mut Baton<L, O>,
        line: &mut ReadLine,
        moment: Moment,
        flushes: &mut FlushList,
    ) -> Result<Done, LineRefusal>
        ensures outcome { IsLineOutcome O.accepts O.refuses self.old self.new baton.old baton.new
            line.old moment result }
        ensures flushes { OnOk result
            (ListsChanged flushes.old flushes.new self.old.outboxes self.new.outboxes) }
        ensures unlisted { OnErr result (flushes.new ≡ flushes.old) }
        ensures taken { OnOk result (line.new ≡ piece.TooLong) }
        ensures left { OnErr result (line.new ≡ line.old) }
    {
        let mut plan = self.begin_read(baton, line, moment)?;
        self.put_rest(&mut plan, flushes);
        Ok(self.finish(plan, baton))
    }
}
