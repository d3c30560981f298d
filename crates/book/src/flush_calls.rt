//! The calls of a hall that add to a list who got something.
ghost use Rattle.std.specs.Prelude.{◌≡◌, ◌≢◌};
ghost use Rattle.std.specs.Prelude.{IfErr, OnOk, OnErr};
ghost use Rattle.chronicle.specs.declared.record.Kind.TheVariants as kind;
ghost use Rattle.line_grammar.specs.declared.splitter.Piece.TheVariants as piece;
ghost use Rattle.book.specs.Flushes.{ListsChanged};

use crate::baton::Baton;
use crate::flush_list::FlushList;
use crate::hall::Hall;
use crate::stable_name::StableName;
use chronicle::{Moment, SessionId, Why};
use ledger::{Done, HangRefusal, Hung, LineRefusal, ReadLine, SweepRefusal, TickRefusal};
use line_grammar::Piece;
use register::Naming;

impl<L: Naming, O: StableName> Hall<L, O> {
    ghost use Rattle.book.specs.Outcomes.{IsLineOutcome};
    ghost use Rattle.book.specs.Outcomes.{IsHangOutcome, IsSweepOutcome, IsTickOutcome};

    /// Accepts the next line of the baton's session, as [`line`](Hall::line) does, and adds to `flushes` who got
    /// something. A refusal changes nothing.
    pub fn line_with_flushes(
        &mut self,
        baton: &mut Baton<L, O>,
        piece: &Piece,
        moment: Moment,
        flushes: &mut FlushList,
    ) -> Result<Done, LineRefusal>
        ensures outcome { IsLineOutcome O.accepts O.refuses self.old self.new baton.old baton.new
            piece.now moment result }
        ensures flushes { OnOk result
            (ListsChanged flushes.old flushes.new self.old.outboxes self.new.outboxes) }
        ensures unlisted { OnErr result (flushes.new ≡ flushes.old) }
        ensures not_busy { IfErr result (λ e. e ≢ LineRefusal.Busy) }
    {
        self.book.line(baton, piece, moment, flushes)
    }

    /// Accepts the next line of the baton's session, which was read before the hall was taken, as `line_with_flushes`
    /// does. Whether its label counts is decided here, by the capabilities that the session has before the line. The
    /// line is taken; a refusal changes nothing, and leaves it.
    pub fn line_read(
        &mut self,
        baton: &mut Baton<L, O>,
        line: &mut ReadLine,
        moment: Moment,
        flushes: &mut FlushList,
    ) -> Result<Done, LineRefusal>
        ensures outcome { IsLineOutcome O.accepts O.refuses self.old self.new baton.old baton.new
            line.old moment result }
        ensures flushes { OnOk result
            (ListsChanged flushes.old flushes.new self.old.outboxes self.new.outboxes) }
        ensures unlisted { OnErr result (flushes.new ≡ flushes.old) }
        ensures taken { OnOk result (line.new ≡ piece.TooLong) }
        ensures left { OnErr result (line.new ≡ line.old) }
        ensures not_busy { IfErr result (λ e. e ≢ LineRefusal.Busy) }
    {
        self.book.line_read(baton, line, moment, flushes)
    }

    /// Ends a session, as [`hang`](Hall::hang) does, and adds it to `flushes` where it got its last item. A refusal
    /// changes nothing.
    pub fn hang_with_flushes(
        &mut self,
        session: SessionId,
        why: Why,
        moment: Moment,
        flushes: &mut FlushList,
    ) -> Result<Hung, HangRefusal>
        ensures outcome { IsHangOutcome O.accepts O.refuses self.old self.new
            session why moment result }
        ensures flushes { OnOk result
            (ListsChanged flushes.old flushes.new self.old.outboxes self.new.outboxes) }
        ensures unlisted { OnErr result (flushes.new ≡ flushes.old) }
        ensures not_busy { IfErr result (λ e. e ≢ HangRefusal.Busy) }
    {
        self.book.hang_with_flushes(session, why, moment, flushes)
    }

    /// Sweeps up to one session, as [`sweep`](Hall::sweep) does, and adds to `flushes` who got something. A refusal
    /// changes nothing.
    pub fn sweep_with_flushes(
        &mut self,
        moment: Moment,
        flushes: &mut FlushList,
    ) -> Result<Option<Done>, SweepRefusal>
        ensures outcome { IsSweepOutcome O.accepts O.refuses self.old self.new moment result }
        ensures flushes { OnOk result
            (ListsChanged flushes.old flushes.new self.old.outboxes self.new.outboxes) }
        ensures unlisted { OnErr result (flushes.new ≡ flushes.old) }
        ensures not_busy { IfErr result (λ e. e ≢ SweepRefusal.Busy) }
    {
        self.book.sweep(moment, flushes)
    }

    /// Pings whoever is idle for long enough, as [`tick`](Hall::tick) does, and adds to `flushes` who got something. A
    /// refusal changes nothing.
    pub fn tick_with_flushes(
        &mut self,
        moment: Moment,
        flushes: &mut FlushList,
    ) -> Result<Option<Done>, TickRefusal>
        ensures outcome { IsTickOutcome O.accepts O.refuses self.old self.new moment result }
        ensures flushes { OnOk result
            (ListsChanged flushes.old flushes.new self.old.outboxes self.new.outboxes) }
        ensures unlisted { OnErr result (flushes.new ≡ flushes.old) }
        ensures not_busy { IfErr result (λ e. e ≢ TickRefusal.Busy) }
    {
        self.book.tick(moment, flushes)
    }
}
