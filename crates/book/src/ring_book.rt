//! What a book with tokens does over rings, of which is known beforehand what they have room for.
ghost use Rattle.std.specs.Prelude.{◌≡◌, ◌+◌, ◌==◌, [], None, length, IsSome, IfOk, IfErr, OnOk, OnErr};
ghost use Rattle.std.specs.List.{list_any};
ghost use Rattle.chronicle.specs.declared.record.Kind.TheVariants as kind;
ghost use Rattle.chronicle.specs.History.{accepted};
ghost use Rattle.outbox.specs.Ring.{put_into};
ghost use Rattle.ledger.specs.Ledger.{outbox_at, put_next, after_all, after_reap, newest_missed};
ghost use Rattle.ledger.specs.Ledger.{IsOut, IsSound, MayHang, IsHangRefusal};
ghost use Rattle.ledger.specs.RingAnswers.{told_of};
ghost use Rattle.book.specs.Reaping.{MayReap, IsReapRefusal};

use crate::baton::Baton;
use crate::book::Book;
use crate::leftover::Left;
use chronicle::{Moment, SessionId, Why};
use ledger::{
    HangRefusal, Hung, Plan, ReapRefusal, Step, rings_take_each_record, rings_take_what_fits,
};
use outbox::Ring;
use register::{Naming, Stub};

impl<L: Naming> Book<L, Ring> {
    /// Puts the first delivery of the plan that is out into its session's ring where that has room, and notes that
    /// the session missed the record where it has none. It answers `None` where nothing is left, and takes no
    /// memory.
    pub fn put_next_ring(&mut self, plan: &mut Plan) -> Option<Step>
        requires out { IsOut self.old plan.old }
        ensures flushes { result ≡ told_of self.old self.old.plan }
        ensures put { self.new ≡ put_next self.old self.old.plan }
        ensures none { result ≡ None → self.new.plan ≡ [] }
        ensures out { IsOut self.new plan.new }
        ensures number { plan.new.number ≡ plan.old.number }
        ensures session { plan.new.session ≡ plan.old.session }
        ensures next { plan.new.next ≡ plan.old.next }
    {
        rings_take_what_fits();
        self.put_next(plan)
    }

    /// Ends a session: one record is appended, and its last item is put where its ring has room, and missed where
    /// that has none. It takes no memory; a refusal changes nothing.
    pub fn hang_ring(
        &mut self,
        session: SessionId,
        why: Why,
        moment: Moment,
    ) -> Result<Hung, HangRefusal>
        ensures ok { OnOk result (self.new ≡ after_all self.old (kind.Hung session why) moment) }
        ensures may { OnOk result (MayHang self.old session moment) }
        ensures number { IfOk result (λ d. d.number ≡ length self.old.history + 1) }
        ensures missed { IfOk result
            (λ d. d.missed ≡ list_any (λ u. u == session) (newest_missed self.new.history)) }
        ensures refusal { IfErr result (λ e. IsHangRefusal self.old session moment e) }
        ensures err { OnErr result (self.new ≡ self.old) }
    {
        rings_take_each_record();
        self.hang(session, why, moment)
    }

    /// Gives up a session that is gone, with its tokens and with what is left in its ring. It takes no memory; a
    /// refusal gives both back, and changes nothing.
    pub fn reap_ring(
        &mut self,
        baton: Baton<L, Ring>,
        stub: Stub<L, ()>,
    ) -> Result<Left<L>, (ReapRefusal, Baton<L, Ring>, Stub<L, ()>)>
        requires own { IsSome stub.outbox }
        ensures ok { OnOk result (self.new ≡ after_reap self.old baton.session) }
        ensures left { IfOk result (λ l. (l.session ≡ baton.session)
            × (l.count ≡ length (outbox_at self.old.outboxes baton.session).queue)) }
        ensures pieces { OnOk result (baton.pieces ≡ accepted self.old.history baton.session) }
        ensures may { OnOk result (MayReap self.old baton.session stub.session) }
        ensures refusal { IfErr result
            (λ e. IsReapRefusal self.old baton.session stub.session e.0) }
        ensures same { OnErr result (self.new ≡ self.old) }
        ensures back { IfErr result (λ e. (e.1 ≡ baton) × (e.2 ≡ stub)) }
    {
        match self.reap(baton, stub, ()) {
            Ok(left) => Ok(left),
            Err((refusal, baton, stub, ())) => Err((refusal, baton, stub)),
        }
    }

    /// What holds of every book of rings: its history is legal, and what was put into each session's ring, with what
    /// is still in the plan that is out, is what the history owes it.
    pub fn sound(&self)
        ensures { IsSound put_into self.now }
    {
        self.ledger().sound();
    }
}
