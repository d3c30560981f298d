//! What a session has of its book until it is given up.
//!
//! Clauses see of these whose line is next, as of a baton of `book`. So a play's state, steps and promise don't
//! mention tokens, and the name of its register is a parameter of the type alone.
ghost use Rattle.std.specs.Prelude.{◌≡◌, ◌+◌, [], Some, length, IsSome, IfOk, IfErr, OnOk, OnErr};
ghost use Rattle.chronicle.specs.declared.record.Kind.TheVariants as kind;
ghost use Rattle.chronicle.specs.History.{shut};
ghost use Rattle.book.specs.Ledger.{IsOut, MayBegin, MayReap, IsLineRefusal, IsReapRefusal, after_begin};
ghost use Rattle.book.specs.Ledger.{after_end, newest_missed, outbox_at, after_reap};
ghost use Rattle.book.specs.Reaping.{turn_of};

use book::{Baton, Book, Done, LineRefusal, Naming, Plan, ReapRefusal, Ring, Stub};
use chronicle::{Moment, SessionId};
use line_grammar::Piece;
use std::marker::Model;

/// A session's baton and its stub, which come together when it is given up. A clause sees whose line is next, and
/// which.
#[derive(Drop)]
pub(crate) struct Tokens<L: Naming> {
    baton: Baton<L, Ring>,
    stub: Stub<L, ()>,
}

impl<L: Naming> Model for Tokens<L> {
    ghost use Rattle.std.specs.Prelude.{◌≡◌, IsSome};
    ghost use Rattle.book.specs.Ledger.{Turn};
    ghost use Rattle.book.specs.Reaping.{turn_of};

    ghost Value = { Turn };

    ghost view = { λ t. turn_of t.baton };

    ghost invariant = { λ t. (t.stub.session ≡ t.baton.session) × IsSome t.stub.outbox };
}

impl<L: Naming> Tokens<L> {
    /// The tokens of a session.
    pub(crate) fn new(baton: Baton<L, Ring>, stub: Stub<L, ()>) -> Tokens<L>
        requires one { stub.session ≡ baton.session }
        requires own { IsSome stub.outbox }
        ensures { result ≡ turn_of baton }
    {
        Tokens { baton, stub }
    }

    /// Their session.
    pub(crate) fn session(&self) -> SessionId
        ensures { result ≡ self.now.session }
    {
        self.baton.session()
    }

    /// Has the book begin the session's next line.
    pub(crate) fn begin(
        &self,
        book: &mut Book<L, Ring>,
        piece: &Piece,
        moment: Moment,
    ) -> Result<Plan, LineRefusal>
        ensures ok { OnOk result (book.new
            ≡ after_begin book.old (kind.Said self.now.session self.now.next piece.now) moment) }
        ensures out { IfOk result (λ p. IsOut book.new p) }
        ensures line { IfOk result
            (λ p. (p.session ≡ self.now.session) × (p.next ≡ Some (self.now.next + 1))) }
        ensures may { OnOk result (MayBegin book.old self.now moment) }
        ensures refusal { IfErr result (λ e. IsLineRefusal book.old self.now moment e) }
        ensures err { OnErr result (book.new ≡ book.old) }
    {
        book.begin(&self.baton, piece, moment)
    }

    /// Gives the plan of the session's line back, when the line is done.
    pub(crate) fn finish(&mut self, book: &mut Book<L, Ring>, plan: Plan) -> Done
        requires out { IsOut book.old plan }
        requires none { book.old.plan ≡ [] }
        requires line { (plan.session ≡ self.old.session) × (plan.next ≡ Some (self.old.next + 1)) }
        ensures book { book.new ≡ after_end book.old }
        ensures turn { self.new ≡ record { session = self.old.session; next = self.old.next + 1 } }
        ensures number { result.number ≡ length book.old.history }
        ensures missed { result.missed ≡ newest_missed book.old.history }
        ensures shut { result.shut ≡ shut book.old.history self.old.session }
    {
        book.finish(plan, &mut self.baton)
    }

    /// Gives the session up, and answers how many items are left in its outbox. A refusal gives the tokens back.
    pub(crate) fn reap(self, book: &mut Book<L, Ring>) -> Result<u64, (ReapRefusal, Tokens<L>)>
        ensures ok { OnOk result (book.new ≡ after_reap book.old self.session) }
        ensures left { IfOk result
            (λ n. n ≡ length (outbox_at book.old.outboxes self.session).queue) }
        ensures may { OnOk result (MayReap book.old self.session) }
        ensures refusal { IfErr result (λ e. IsReapRefusal book.old self.session e.0) }
        ensures err { IfErr result (λ e. (book.new ≡ book.old) × (e.1 ≡ self)) }
    {
        let Tokens { baton, stub } = self;
        match book.reap_ring(baton, stub) {
            Ok(left) => Ok(left.count()),
            Err((refusal, baton, stub)) => Err((refusal, Tokens { baton, stub })),
        }
    }
}
