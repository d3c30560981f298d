//! A book whose sessions have tokens.
//!
//! A book is made with an empty register, since of rows that another left in it nothing could be said. A tick goes by
//! the book's own calls: its record is of no session, so no token changes.
ghost use Rattle.std.specs.Prelude.{◌≡◌, ◌≢◌, ◌<◌, ◌+◌, ◌++◌, [], Some, None, true, false, length, IfOk};
ghost use Rattle.std.specs.Prelude.{IfErr, OnOk, OnErr, slice_get};
ghost use Rattle.casemapping.specs.Names.{host_shape};
ghost use Rattle.chronicle.specs.declared.record.Kind.TheVariants as kind;
ghost use Rattle.chronicle.specs.History.{accepted, shut};
ghost use Rattle.ledger.specs.Settings.{IsWellSet};
ghost use Rattle.ledger.specs.Ledger.{outbox_at};
ghost use Rattle.book.specs.Reaping.{turn_of, newest_said, MayReap, IsReapRefusal, IsAllOwed, AreAllAccepted};
ghost use Rattle.book.specs.Flushes.{ListsChanged};
ghost use Rattle.book.specs.Tied.{IsTied};

use crate::baton::Baton;
use crate::flush_list::FlushList;
use crate::ghost_outbox::GhostOutbox;
use crate::leftover::Left;
use crate::stable_name::StableName;
use chronicle::{Moment, SessionId, Why};
use deliveries::Item;
use ledger::{
    BookFault, Done, HangRefusal, Hung, Ledger, LineRefusal, OpenRefusal, Plan, ReadLine,
    ReapRefusal, RollRefusal, Rolled, Step, SweepRefusal, TakeRefusal, TickRefusal,
};
use line_grammar::{Octets, Piece};
use outbox::{Outbox, Ring};
use register::{Naming, Register, Stub};
use registration::Settings;
use snapshots::Snapshot;
use std::alloc::Global;
use std::hash::RandomState;
use std::marker::{Model, PhantomData};

/// A book, and the register of its sessions' tokens, which `L` names. A clause sees the book.
#[derive(Drop)]
pub struct Book<L: Naming, O: Outbox> {
    pub(crate) ledger: Ledger<O>,
    register: Register<O::Name>,
    of: PhantomData<L>,
}

impl<L: Naming, O: Outbox> Model for Book<L, O> {
    ghost use Rattle.std.specs.Prelude.{◌≡◌};
    ghost use Rattle.ledger.specs.Ledger.{Shown};
    ghost use Rattle.book.specs.Tied.{IsTied};

    ghost Value = { Shown O };

    ghost view = { λ a. a.ledger };

    ghost invariant = { λ a. (a.register.table ≡ L.table) × IsTied O.name a.ledger a.register.rows };
}

impl<L: Naming, O: StableName> Book<L, O> {
    ghost use Rattle.book.specs.Outcomes.{IsLineOutcome, IsOpenOutcome, IsReapOutcome};
    ghost use Rattle.book.specs.Outcomes.{IsHangOutcome, IsLineBegun, IsRollOutcome, IsSweepBegun, IsSweepOutcome};
    ghost use Rattle.book.specs.Outcomes.{IsTickBegun, IsTickOutcome};
    ghost use Rattle.ledger.specs.Ledger.{empty_ledger, after_end, late, newest_missed, after_reap, IsOut, IsPutAll};
    ghost use Rattle.ledger.specs.Ledger.{IsPutNext, MayBegin, MayTick, HasRoom, IsSomebodyIdle, to_ping};
    ghost use Rattle.ledger.specs.Ledger.{IsLineRefusal, IsTickRefusal, IsOpenRefusal, MayOpen};

    /// An empty book for at most `limit` records, whose tokens a register has that is named by `L` and has no
    /// session yet.
    pub fn new(
        alloc: Global,
        register: Register<O::Name>,
        settings: Settings,
        limit: usize,
    ) -> Result<Book<L, O>, BookFault>
        requires named { register.table ≡ L.table }
        requires empty { register.rows ≡ [] }
        ensures ok { IfOk result
            (λ b. (b ≡ empty_ledger limit settings) × IsWellSet settings limit) }
        ensures bad { IfErr result (λ e. e ≡ BookFault.BadSettings → IsWellSet settings limit → ⊥) }
        ensures memory { IfErr result (λ e. e ≡ BookFault.Memory → IsWellSet settings limit) }
    {
        let ledger = Ledger::new(alloc, settings, limit)?;
        Ok(Book {
            ledger,
            register,
            of: PhantomData,
        })
    }

    /// An empty book for at most `limit` records, as `new` makes one. Names are hashed by the keys of a state.
    pub fn with_hasher(
        alloc: Global,
        register: Register<O::Name>,
        settings: Settings,
        limit: usize,
        state: RandomState,
    ) -> Result<Book<L, O>, BookFault>
        requires named { register.table ≡ L.table }
        requires empty { register.rows ≡ [] }
        ensures ok { IfOk result
            (λ b. (b ≡ empty_ledger limit settings) × IsWellSet settings limit) }
        ensures bad { IfErr result (λ e. e ≡ BookFault.BadSettings → IsWellSet settings limit → ⊥) }
        ensures memory { IfErr result (λ e. e ≡ BookFault.Memory → IsWellSet settings limit) }
    {
        let ledger = Ledger::with_hasher(alloc, settings, limit, state)?;
        Ok(Book {
            ledger,
            register,
            of: PhantomData,
        })
    }

    /// The ledger, for every look at it.
    pub fn ledger(&self) -> &Ledger<O>
        ensures { result.now ≡ self.now }
    {
        &self.ledger
    }

    /// The register, whose rows stand for the book.
    pub fn register(&self) -> &Register<O::Name>
        ensures named { result.now.table ≡ L.table }
        ensures tied { IsTied O.name self.now result.now.rows }
    {
        &self.register
    }

    /// Whether a session may be opened at a moment: what `open` would answer, want of memory apart. It takes no
    /// memory.
    pub fn may_open(&self, moment: Moment) -> Result<(), OpenRefusal>
        ensures ok { OnOk result (MayOpen self.now moment) }
        ensures refusal { IfErr result (λ e. IsOpenRefusal self.now moment e) }
        ensures no_memory { IfErr result (λ e. e ≢ OpenRefusal.Memory) }
    {
        self.ledger.may_open(moment)
    }

    /// Opens a session whose host has the shape of one, and gives its baton and its stub. A refusal gives the outbox
    /// back, and changes nothing.
    pub fn open(
        &mut self,
        host: Octets,
        moment: Moment,
        outbox: O,
    ) -> Result<(SessionId, Baton<L, O>, Stub<L, O::Name>), (OpenRefusal, O)>
        requires host { host_shape host ≡ true }
        requires fresh { O.sent outbox ≡ [] }
        ensures outcome { IsOpenOutcome O.name self.old self.new host moment outbox result }
    {
        self.ledger.sound();
        if let Err(refusal) = self.may_open(moment) {
            return Err((refusal, outbox));
        }
        let namesake = GhostOutbox::of(&outbox);
        let (session, turn) = self.ledger.open(host, moment, outbox)?;
        let (mark, stub) = self.register.admit::<L, GhostOutbox<O>>(session, &namesake);
        let front = Snapshot::of(&self.ledger);
        Ok((session, Baton { turn, mark, front }, stub))
    }

    /// Whether a line of the baton's session may be accepted at a moment: what `begin` would answer, want of memory
    /// apart. It takes no memory.
    pub fn may_line(&self, baton: &Baton<L, O>, moment: Moment) -> Result<(), LineRefusal>
        ensures ok { OnOk result (MayBegin self.now (turn_of baton.now) moment) }
        ensures refusal { IfErr result (λ e. IsLineRefusal self.now (turn_of baton.now) moment e) }
        ensures no_memory { IfErr result (λ e. e ≢ LineRefusal.Memory) }
    {
        self.ledger.may_line(&baton.turn, moment)
    }

    /// Begins the next line of the baton's session: its record is appended, and a plan of its deliveries is handed
    /// out. All memory is taken here; a refusal changes nothing. The line isn't done until the plan is given back.
    pub fn begin(
        &mut self,
        baton: &Baton<L, O>,
        piece: &Piece,
        moment: Moment,
    ) -> Result<Plan, LineRefusal>
        ensures begun { IsLineBegun self.old self.new (turn_of baton.now) piece.now moment result }
    {
        self.may_line(baton, moment)?;
        let mut line = ReadLine::read(self.ledger.allocator(), piece)?;
        self.begin_read(baton, &mut line, moment)
    }

    /// Puts the first delivery of the plan that is out into its session's outbox, or notes that the session missed
    /// the record where the outbox doesn't take it. It answers `None` where nothing is left, and takes no memory.
    pub fn put_next(&mut self, plan: &mut Plan) -> Option<Step>
        requires out { IsOut self.old plan.old }
        ensures put { IsPutNext O.accepts O.refuses self.old self.old.plan result self.new }
        ensures none { result ≡ None → self.new.plan ≡ [] }
        ensures out { IsOut self.new plan.new }
        ensures number { plan.new.number ≡ plan.old.number }
        ensures session { plan.new.session ≡ plan.old.session }
        ensures next { plan.new.next ≡ plan.old.next }
    {
        self.ledger.put_next(plan)
    }

    /// Puts or misses the first delivery of the plan that is out, and notes whose it is where it was put.
    fn put_noted(&mut self, plan: &mut Plan, flushes: &mut FlushList) -> Option<Step>
        requires out { IsOut self.old plan.old }
        ensures put { IsPutNext O.accepts O.refuses self.old self.old.plan result self.new }
        ensures none { result ≡ None → self.new.plan ≡ [] }
        ensures out { IsOut self.new plan.new }
        ensures number { plan.new.number ≡ plan.old.number }
        ensures session { plan.new.session ≡ plan.old.session }
        ensures next { plan.new.next ≡ plan.old.next }
        ensures flushes { ListsChanged flushes.old flushes.new self.old.outboxes self.new.outboxes }
    {
        self.ledger().sound();
        match self.put_next(plan)? {
            Step::Put(session) => {
                flushes.note(session);
                Some(Step::Put(session))
            }
            Step::Missed(session) => Some(Step::Missed(session)),
        }
    }

    /// Puts or misses all that is left of a plan, and notes who got something.
    pub(crate) fn put_rest(&mut self, plan: &mut Plan, flushes: &mut FlushList)
        requires out { IsOut self.old plan.old }
        ensures put { IsPutAll O.accepts O.refuses self.old self.old.plan self.new }
        ensures out { IsOut self.new plan.new }
        ensures none { self.new.plan ≡ [] }
        ensures number { plan.new.number ≡ plan.old.number }
        ensures session { plan.new.session ≡ plan.old.session }
        ensures next { plan.new.next ≡ plan.old.next }
        ensures flushes { ListsChanged flushes.old flushes.new self.old.outboxes self.new.outboxes }
    {
        while let Some(_) = self.put_noted(plan, flushes) {}
    }

    /// Gives back the plan of a line, with nothing left in it: now the line is done, and the turn goes on to the
    /// next. It takes no memory.
    pub fn finish(&mut self, plan: Plan, baton: &mut Baton<L, O>) -> Done
        requires out { IsOut self.old plan }
        requires none { self.old.plan ≡ [] }
        requires line { (plan.session ≡ baton.old.session)
            × (plan.next ≡ Some (baton.old.next + 1)) }
        ensures book { self.new ≡ after_end self.old }
        ensures session { baton.new.session ≡ baton.old.session }
        ensures next { baton.new.next ≡ baton.old.next + 1 }
        ensures grown { baton.new.pieces
            ≡ baton.old.pieces ++ newest_said self.old.history baton.old.session }
        ensures accepted { baton.new.pieces ≡ accepted self.new.history baton.old.session }
        ensures front { baton.new.front ≡ self.new.history }
        ensures number { result.number ≡ length self.old.history }
        ensures missed { result.missed ≡ newest_missed self.old.history }
        ensures shut { result.shut ≡ shut self.old.history baton.old.session }
    {
        self.ledger.sound();
        baton.turn.go_on(&plan);
        let line = self.ledger.line_of(&plan);
        self.register.advance(&mut baton.mark, line);
        let done = self.ledger.finish(plan);
        baton.front = Snapshot::of(&self.ledger);
        done
    }

    /// Accepts the next line of the baton's session: begins it, puts or misses all that it owes, and finishes it,
    /// when the line is done. Whoever got something is told of it. A refusal changes nothing.
    pub fn line(
        &mut self,
        baton: &mut Baton<L, O>,
        piece: &Piece,
        moment: Moment,
        flushes: &mut FlushList,
    ) -> Result<Done, LineRefusal>
        ensures outcome { IsLineOutcome O.accepts O.refuses self.old self.new baton.old baton.new
            piece.now moment result }
        ensures flushes { OnOk result
            (ListsChanged flushes.old flushes.new self.old.outboxes self.new.outboxes) }
        ensures unlisted { OnErr result (flushes.new ≡ flushes.old) }
    {
        self.may_line(baton, moment)?;
        let mut line = ReadLine::read(self.ledger.allocator(), piece)?;
        self.line_read(baton, &mut line, moment, flushes)
    }

    /// Ends a session: one record is appended, and its last item is put, or missed where its outbox doesn't take it.
    /// It takes no memory; a refusal changes nothing.
    pub fn hang(
        &mut self,
        session: SessionId,
        why: Why,
        moment: Moment,
    ) -> Result<Hung, HangRefusal>
        ensures outcome { IsHangOutcome O.accepts O.refuses self.old self.new
            session why moment result }
    {
        self.ledger.hang(session, why, moment)
    }

    /// Ends a session, as `hang` does, and notes it where it got its last item. A refusal changes nothing.
    pub fn hang_with_flushes(
        &mut self,
        session: SessionId,
        why: Why,
        moment: Moment,
        flushes: &mut FlushList,
    ) -> Result<Hung, HangRefusal>
        ensures outcome { IsHangOutcome O.accepts O.refuses self.old self.new
            session why moment result }
        ensures flushes { OnOk result
            (ListsChanged flushes.old flushes.new self.old.outboxes self.new.outboxes) }
        ensures unlisted { OnErr result (flushes.new ≡ flushes.old) }
    {
        let hung = self.hang(session, why, moment)?;
        if !hung.missed {
            flushes.note_in_room(session);
        }
        Ok(hung)
    }

    /// Begins to sweep the shut session of the lowest number that isn't gone: its record is appended, and a plan is
    /// handed out of what others are told. It answers `None` where there is no such session. All memory is taken
    /// here; a refusal changes nothing.
    pub fn begin_sweep(&mut self, moment: Moment) -> Result<Option<Plan>, SweepRefusal>
        ensures begun { IsSweepBegun self.old self.new moment result }
    {
        self.ledger.begin_sweep(moment)
    }

    /// Gives back the plan of a sweep, with nothing left in it. It takes no memory.
    pub fn finish_sweep(&mut self, sweep: Plan) -> Done
        requires out { IsOut self.old sweep }
        requires none { self.old.plan ≡ [] }
        requires sweep { (sweep.next ≡ None) × (0 < sweep.session) }
        ensures book { self.new ≡ after_end self.old }
        ensures number { result.number ≡ length self.old.history }
        ensures missed { result.missed ≡ newest_missed self.old.history }
        ensures shut { result.shut ≡ shut self.old.history sweep.session }
    {
        self.ledger.finish(sweep)
    }

    /// Sweeps up to one session: begins, puts or misses all that it owes, and finishes. Whoever got something is
    /// told of it. A refusal changes nothing.
    #[tactic(auto, using(ledger::proofs::Sweeps::swept_is))]
    pub fn sweep(
        &mut self,
        moment: Moment,
        flushes: &mut FlushList,
    ) -> Result<Option<Done>, SweepRefusal>
        ensures outcome { IsSweepOutcome O.accepts O.refuses self.old self.new moment result }
        ensures flushes { OnOk result
            (ListsChanged flushes.old flushes.new self.old.outboxes self.new.outboxes) }
        ensures unlisted { OnErr result (flushes.new ≡ flushes.old) }
    {
        let Some(mut plan) = self.begin_sweep(moment)? else {
            return Ok(None);
        };
        self.put_rest(&mut plan, flushes);
        Ok(Some(self.finish_sweep(plan)))
    }

    /// Begins a tick: its record is appended, and a plan is handed out of the PING that it owes each session that is
    /// idle for long enough and wasn't pinged since it was heard of. It answers `None` where there is no such
    /// session. All memory is taken here; a refusal changes nothing.
    pub fn begin_tick(&mut self, moment: Moment) -> Result<Option<Plan>, TickRefusal>
        ensures begun { IsTickBegun self.old self.new moment result }
    {
        self.ledger.begin_tick(moment)
    }

    /// Whether a tick at a moment pings somebody, or why there may be none: what `begin_tick` would answer, want of
    /// memory apart. It takes no memory.
    pub fn may_tick(&self, moment: Moment) -> Result<bool, TickRefusal>
        ensures some { IfOk result
            (λ b. b ≡ true → IsSomebodyIdle self.now moment × HasRoom self.now) }
        ensures none { IfOk result (λ b. b ≡ false → to_ping self.now.history moment ≡ []) }
        ensures may { OnOk result (MayTick self.now moment) }
        ensures refusal { IfErr result (λ e. IsTickRefusal self.now moment e) }
        ensures no_memory { IfErr result (λ e. e ≢ TickRefusal.Memory) }
    {
        self.ledger.may_tick(moment)
    }

    /// Gives back the plan of a tick, with nothing left in it. It takes no memory.
    pub fn finish_tick(&mut self, tick: Plan) -> Done
        requires out { IsOut self.old tick }
        requires none { self.old.plan ≡ [] }
        requires tick { tick.session ≡ 0 }
        ensures book { self.new ≡ after_end self.old }
        ensures number { result.number ≡ length self.old.history }
        ensures missed { result.missed ≡ newest_missed self.old.history }
        ensures shut { result.shut ≡ false }
    {
        self.ledger.sound();
        self.ledger.finish(tick)
    }

    /// Pings whoever is idle for long enough: begins, puts or misses all that the tick owes, and finishes. Whoever
    /// got something is told of it. It answers `None` where nobody is to be pinged. A refusal changes nothing.
    pub fn tick(
        &mut self,
        moment: Moment,
        flushes: &mut FlushList,
    ) -> Result<Option<Done>, TickRefusal>
        ensures outcome { IsTickOutcome O.accepts O.refuses self.old self.new moment result }
        ensures flushes { OnOk result
            (ListsChanged flushes.old flushes.new self.old.outboxes self.new.outboxes) }
        ensures unlisted { OnErr result (flushes.new ≡ flushes.old) }
    {
        let Some(mut plan) = self.begin_tick(moment)? else {
            return Ok(None);
        };
        self.put_rest(&mut plan, flushes);
        Ok(Some(self.finish_tick(plan)))
    }

    /// The session of the lowest number that isn't shut and is idle for too long at a moment. It takes no memory.
    pub fn late(&self, moment: Moment) -> Option<SessionId>
        ensures { result ≡ late self.now.history moment }
    {
        self.ledger.late(moment)
    }

    /// Drops all records, and keeps what has to be known of them. Numbers go on, and there is room for as many
    /// records as at the start. A refusal changes nothing.
    pub fn roll(&mut self) -> Result<Rolled, RollRefusal>
        ensures outcome { IsRollOutcome self.old self.new result }
    {
        self.ledger.roll()
    }

    /// Whether tokens of these sessions may be given up now.
    fn check_reap(&self, baton: SessionId, stub: SessionId) -> Result<(), ReapRefusal>
        ensures ok { OnOk result (MayReap self.now baton stub) }
        ensures err { IfErr result (λ e. IsReapRefusal self.now baton stub e) }
    {
        match self.ledger.may_reap(baton) {
            Err(ReapRefusal::Busy) => Err(ReapRefusal::Busy),
            Err(ReapRefusal::Stranger) => Err(ReapRefusal::Stranger),
            Err(ReapRefusal::NotGone) if stub == baton => Err(ReapRefusal::NotGone),
            Ok(()) if stub == baton => Ok(()),
            _ => Err(ReapRefusal::Stranger),
        }
    }

    /// Gives up a session that is gone, with its tokens and with what is left in its outbox, whose taker is given up
    /// with it. The taker is that of the outbox for which the stub was given. It takes no memory; a refusal gives
    /// all three back, and changes nothing.
    pub fn reap(
        &mut self,
        baton: Baton<L, O>,
        stub: Stub<L, O::Name>,
        taker: O::Taker,
    ) -> Result<Left<L>, (ReapRefusal, Baton<L, O>, Stub<L, O::Name>, O::Taker)>
    where
        O::Taker: Drop,
        requires own { stub.outbox ≡ Some (O.taker_of taker) }
        ensures outcome { IsReapOutcome O.sent O.taken self.old self.new baton stub taker result }
    {
        match self.check_reap(baton.session(), stub.session()) {
            Ok(()) => Ok(self.give_up(baton, stub, taker)),
            Err(refusal) => Err((refusal, baton, stub, taker)),
        }
    }

    /// Gives up a session whose tokens these are.
    fn give_up(&mut self, baton: Baton<L, O>, stub: Stub<L, O::Name>, taker: O::Taker) -> Left<L>
    where
        O::Taker: Drop,
        requires own { stub.outbox ≡ Some (O.taker_of taker) }
        requires may { MayReap self.old baton.session stub.session }
        ensures book { self.new ≡ after_reap self.old baton.session }
        ensures session { result.session ≡ baton.session }
        ensures left { IsAllOwed O.sent O.taken self.old baton.session taker result.count }
        ensures pieces { AreAllAccepted self.old baton.session baton.pieces }
    {
        self.ledger.sound();
        let Baton { turn, mark, .. } = baton;
        let session = turn.session();
        self.register.retire(mark, stub);
        let Ok(left) = self.ledger.reap(turn, taker) else {
            unreachable!();
        };
        Left {
            left,
            of: PhantomData,
        }
    }
}

impl<L: Naming> Book<L, Ring> {
    ghost use Rattle.ledger.specs.Ledger.{after_take, IsKnown};
    ghost use Rattle.ledger.specs.RingAnswers.{IsTakeRefusal};

    /// Takes the item that waits longest for a session. It takes no memory.
    pub fn take(&mut self, session: SessionId) -> Result<Item, TakeRefusal>
        ensures ok { IfOk result
            (λ x. slice_get (outbox_at self.old.outboxes session).queue 0 ≡ Some x) }
        ensures taken { OnOk result (self.new ≡ after_take self.old session) }
        ensures known { OnOk result (IsKnown self.old session) }
        ensures refusal { IfErr result (λ e. IsTakeRefusal self.old session e) }
        ensures err { OnErr result (self.new ≡ self.old) }
    {
        self.ledger.take(session)
    }
}
