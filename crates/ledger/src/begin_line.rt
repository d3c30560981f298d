//! Lines, which were read before they are begun.
ghost use Rattle.std.specs.Prelude.{◌≡◌, ◌<◌, ◌+◌, ◌^◌, length, Some, IsSome, IfSome, IfOk, IfErr, OnOk, OnErr};
ghost use Rattle.chronicle.specs.declared.record.Kind.TheVariants as kind;
ghost use Rattle.chronicle.specs.Journal.{most};
ghost use Rattle.line_grammar.specs.declared.splitter.Piece.TheVariants as piece;

use crate::ledger::{Ledger, reserve};
use crate::outcomes::Plan;
use crate::plan::{Planning, Prepared, commit, moment_of_record, prepare_line};
use crate::read_line::ReadLine;
use crate::refusals::LineRefusal;
use crate::turn::Turn;
use chronicle::{Kind, Moment, RecordNumber};
use line_grammar::Piece;
use outbox::Outbox;
use std::alloc::AllocError;

impl<O: Outbox> Ledger<O> {
    ghost use Rattle.ledger.specs.Ledger.{after_begin, newest_line, MayBegin, IsLineRefusal, IsOut};

    /// Begins the next line of a session, which was read before: its record is appended, and a plan of its
    /// deliveries is handed out. Whether its label counts is decided here, by the capabilities that the session has
    /// before the line. The line is taken; a refusal changes nothing, and leaves it.
    pub fn begin(
        &mut self,
        turn: &Turn,
        line: &mut ReadLine,
        moment: Moment,
    ) -> Result<Plan, LineRefusal>
        ensures ok { OnOk result (self.new
            ≡ after_begin self.old (kind.Said turn.now.session turn.now.next line.old) moment) }
        ensures out { IfOk result (λ p. IsOut self.new p) }
        ensures line { IfOk result
            (λ p. (p.session ≡ turn.now.session) × (p.next ≡ Some (turn.now.next + 1))) }
        ensures may { OnOk result (MayBegin self.old turn.now moment) }
        ensures refusal { IfErr result (λ e. IsLineRefusal self.old turn.now moment e) }
        ensures err { OnErr result (self.new ≡ self.old) }
        ensures taken { OnOk result (line.new ≡ piece.TooLong) }
        ensures left { OnErr result (line.new ≡ line.old) }
    {
        self.check_line(turn, moment)?;
        Ok(self.begin_checked(turn, line, moment)?)
    }

    /// Begins a line that was read and may be accepted.
    pub(crate) fn begin_checked(
        &mut self,
        turn: &Turn,
        line: &mut ReadLine,
        moment: Moment,
    ) -> Result<Plan, AllocError>
        requires may { MayBegin self.old turn.now moment }
        requires fits { most self.old.limit < 2 ^ 64 }
        ensures ok { OnOk result (self.new
            ≡ after_begin self.old (kind.Said turn.now.session turn.now.next line.old) moment) }
        ensures out { IfOk result (λ p. IsOut self.new p) }
        ensures line { IfOk result
            (λ p. (p.session ≡ turn.now.session) × (p.next ≡ Some (turn.now.next + 1))) }
        ensures err { OnErr result (self.new ≡ self.old) }
        ensures taken { OnOk result (line.new ≡ piece.TooLong) }
        ensures left { OnErr result (line.new ≡ line.old) }
    {
        let number = RecordNumber::new(self.journal.newest() as u64 + 1);
        let by = Planning {
            alloc: self.alloc,
            roster: &self.roster,
            seats: &self.seats,
            actor: turn.session,
            number,
            moment: moment_of_record(moment),
        };
        let (prepared, quits) = prepare_line(&by, line)?;
        let Prepared {
            deeds,
            plan,
            missed,
        } = prepared;
        self.roster.prepare(&deeds)?;
        let room = self.reserve_count() + 1;
        reserve(&mut self.journal, room, plan.len())?;
        self.journal.append(
            moment,
            Kind::Said {
                session: turn.session,
                index: turn.next,
                piece: line.take(),
            },
        );
        commit(&mut self.roster, deeds);
        self.seats.say(turn.session, quits);
        self.last_heard.hear(turn.session, moment);
        self.plan = plan;
        self.busy = true;
        Ok(Plan {
            number,
            session: turn.session,
            next: Some(turn.next + 1),
            missed,
        })
    }

    /// The line that was accepted by the record of the plan that is out.
    pub fn line_of(&self, plan: &Plan) -> &Piece
        requires out { IsOut self.now plan.now }
        requires line { IsSome plan.now.next }
        ensures { newest_line self.now.history ≡ Some (plan.now.session, result.now) }
    {
        self.newest_said(plan.number)
    }

    /// The line that the newest record says, whose number this is.
    fn newest_said(&self, number: RecordNumber) -> &Piece
        requires newest { number ≡ length self.now.history }
        requires kept { self.now.limit.dropped < length self.now.history }
        requires line { IsSome (newest_line self.now.history) }
        ensures { IfSome (newest_line self.now.history) (λ l. l.1 ≡ result.now) }
    {
        let Some(record) = self.record(number) else {
            unreachable!();
        };
        let Kind::Said { piece, .. } = &record.kind else {
            unreachable!();
        };
        piece
    }
}
