//! What stands in a lock.
ghost use Rattle.std.specs.Prelude.{◌≡◌, ◌≢◌, ◌<◌, ◌≤◌, ◌+◌, ◌↔◌, [], ℕ, Some, None, true, false};
ghost use Rattle.std.specs.Prelude.{length, IsTrue, IfOk, IfErr, IfSome, OnOk, option_copied};
ghost use Rattle.std.specs.Option.{is_some};
ghost use Rattle.casemapping.specs.Names.{host_shape};
ghost use Rattle.chronicle.specs.declared.record.Kind.TheVariants as kind;
ghost use Rattle.chronicle.specs.History.{sessions, last_moment, accepted, shut};
ghost use Rattle.chronicle.specs.Journal.{nth_record, record_at};
ghost use Rattle.register.specs.Rows.{outbox_at, pieces_at};
ghost use Rattle.ledger.specs.Settings.{IsWellSet};
ghost use Rattle.ledger.specs.Ledger.{box_at};

use crate::baton::Baton;
use crate::book::Book;
use crate::flush_list::FlushList;
use crate::leftover::Left;
use crate::stable_name::StableName;
use chronicle::{Moment, Record, RecordNumber, SessionId, Why};
use ledger::{
    Base, BookFault, Done, HangRefusal, Hung, LineRefusal, OpenRefusal, Outbox, ReapRefusal,
    RollRefusal, Rolled, SweepRefusal, TickRefusal,
};
use line_grammar::{Octets, Piece};
use register::{Naming, Register, Stub};
use registration::Settings;
use std::alloc::Global;
use std::hash::RandomState;
use std::marker::Model;

/// A book with no plan out, which is what stands in a lock. Whenever nobody has it, its history is legal, what was
/// put into each session's outbox is what the history owes the session, and the register has each session's outbox
/// and accepted pieces. A clause sees the book.
#[derive(Drop)]
pub struct Hall<L: Naming, O: Outbox> {
    pub(crate) book: Book<L, O>,
    // Who got something by the newest record, for calls whose caller doesn't ask for it.
    flushes: FlushList,
}

impl<L: Naming, O: Outbox> Model for Hall<L, O> {
    ghost use Rattle.std.specs.Prelude.{◌≡◌, false};
    ghost use Rattle.ledger.specs.Ledger.{Shown};

    ghost Value = { Shown O };

    ghost view = { λ a. a.book };

    ghost invariant = { λ a. a.book.busy ≡ false };
}

impl<L: Naming, O: StableName> Hall<L, O> {
    ghost use Rattle.book.specs.Outcomes.{IsLineOutcome, IsOpenOutcome, IsReapOutcome};
    ghost use Rattle.book.specs.Outcomes.{IsHangOutcome, IsRollOutcome, IsSweepOutcome, IsTickOutcome};
    ghost use Rattle.ledger.specs.Ledger.{empty_ledger, after_open, IsSound, late};
    ghost use Rattle.ledger.specs.Ledger.{is_here, base_of, nickname, ended_for, to_ping, to_sweep, MayBegin};
    ghost use Rattle.ledger.specs.Ledger.{MayTick, HasRoom};
    ghost use Rattle.ledger.specs.Ledger.{IsSomebodyIdle, IsLineRefusal, IsTickRefusal, IsOpenRefusal, MayOpen};
    ghost use Rattle.ledger.specs.Noted.{base_by, is_noted};
    ghost use Rattle.book.specs.Reaping.{turn_of};

    /// An empty hall for at most `limit` records, whose tokens a register has that is named by `L` and has no
    /// session yet.
    pub fn new(
        alloc: Global,
        register: Register<O::Name>,
        settings: Settings,
        limit: usize,
    ) -> Result<Hall<L, O>, BookFault>
        requires named { register.table ≡ L.table }
        requires empty { register.rows ≡ [] }
        ensures ok { IfOk result
            (λ b. (b ≡ empty_ledger limit settings) × IsWellSet settings limit) }
        ensures bad { IfErr result (λ e. e ≡ BookFault.BadSettings → IsWellSet settings limit → ⊥) }
        ensures memory { IfErr result (λ e. e ≡ BookFault.Memory → IsWellSet settings limit) }
    {
        let book = Book::new(alloc, register, settings, limit)?;
        Ok(Hall {
            book,
            flushes: FlushList::new(alloc),
        })
    }

    /// An empty hall for at most `limit` records, as `new` makes one. Names are hashed by the keys of a state.
    pub fn with_hasher(
        alloc: Global,
        register: Register<O::Name>,
        settings: Settings,
        limit: usize,
        state: RandomState,
    ) -> Result<Hall<L, O>, BookFault>
        requires named { register.table ≡ L.table }
        requires empty { register.rows ≡ [] }
        ensures ok { IfOk result
            (λ b. (b ≡ empty_ledger limit settings) × IsWellSet settings limit) }
        ensures bad { IfErr result (λ e. e ≡ BookFault.BadSettings → IsWellSet settings limit → ⊥) }
        ensures memory { IfErr result (λ e. e ≡ BookFault.Memory → IsWellSet settings limit) }
    {
        let book = Book::with_hasher(alloc, register, settings, limit, state)?;
        Ok(Hall {
            book,
            flushes: FlushList::new(alloc),
        })
    }

    /// Whether a session may be opened at a moment: what `open` would answer, want of memory apart. It takes no
    /// memory.
    pub fn may_open(&self, moment: Moment) -> Result<(), OpenRefusal>
        ensures ok { OnOk result (MayOpen self.now moment) }
        ensures refusal { IfErr result (λ e. IsOpenRefusal self.now moment e) }
        ensures no_memory { IfErr result (λ e. e ≢ OpenRefusal.Memory) }
        ensures not_busy { IfErr result (λ e. e ≢ OpenRefusal.Busy) }
    {
        self.book.may_open(moment)
    }

    /// Opens a session whose host has the shape of one, and gives its baton and its stub. A refusal gives the outbox
    /// back, and changes nothing.
    pub fn open(
        &mut self,
        host: Octets,
        moment: Moment,
        outbox: O,
    ) -> Result<(SessionId, Baton<L, O>, Stub<L, O::Name>), (OpenRefusal, O)>
        requires host { host_shape host ≡ true }
        requires fresh { O.sent outbox ≡ [] }
        ensures outcome { IsOpenOutcome O.name self.old self.new host moment outbox result }
        ensures not_busy { IfErr result (λ e. e.0 ≢ OpenRefusal.Busy) }
    {
        self.book.open(host, moment, outbox)
    }

    /// Whether a line of the baton's session may be accepted at a moment: what `line` would answer, want of memory
    /// apart. It takes no memory.
    pub fn may_line(&self, baton: &Baton<L, O>, moment: Moment) -> Result<(), LineRefusal>
        ensures ok { OnOk result (MayBegin self.now (turn_of baton.now) moment) }
        ensures refusal { IfErr result (λ e. IsLineRefusal self.now (turn_of baton.now) moment e) }
        ensures no_memory { IfErr result (λ e. e ≢ LineRefusal.Memory) }
        ensures not_busy { IfErr result (λ e. e ≢ LineRefusal.Busy) }
    {
        self.book.may_line(baton, moment)
    }

    /// Accepts the next line of the baton's session: its record is appended, all that it owes is put or missed, and
    /// the line is done. A refusal changes nothing.
    pub fn line(
        &mut self,
        baton: &mut Baton<L, O>,
        piece: &Piece,
        moment: Moment,
    ) -> Result<Done, LineRefusal>
        ensures outcome { IsLineOutcome O.accepts O.refuses self.old self.new baton.old baton.new
            piece.now moment result }
        ensures not_busy { IfErr result (λ e. e ≢ LineRefusal.Busy) }
    {
        self.flushes.clear();
        self.book.line(baton, piece, moment, &mut self.flushes)
    }

    /// Ends a session: one record is appended, and its last item is put, or missed where its outbox doesn't take it.
    /// It takes no memory; a refusal changes nothing.
    pub fn hang(
        &mut self,
        session: SessionId,
        why: Why,
        moment: Moment,
    ) -> Result<Hung, HangRefusal>
        ensures outcome { IsHangOutcome O.accepts O.refuses self.old self.new
            session why moment result }
        ensures not_busy { IfErr result (λ e. e ≢ HangRefusal.Busy) }
    {
        self.book.hang(session, why, moment)
    }

    /// Sweeps up to one session: the shut one of the lowest number that isn't gone. Its record is appended, and all
    /// that it owes is put or missed. It answers `None` where there is no such session. A refusal changes nothing.
    pub fn sweep(&mut self, moment: Moment) -> Result<Option<Done>, SweepRefusal>
        ensures outcome { IsSweepOutcome O.accepts O.refuses self.old self.new moment result }
        ensures not_busy { IfErr result (λ e. e ≢ SweepRefusal.Busy) }
    {
        self.flushes.clear();
        self.book.sweep(moment, &mut self.flushes)
    }

    /// Pings each session that is idle for long enough and wasn't pinged since it was heard of, by one record. It
    /// answers `None` where there is no such session. A refusal changes nothing.
    pub fn tick(&mut self, moment: Moment) -> Result<Option<Done>, TickRefusal>
        ensures outcome { IsTickOutcome O.accepts O.refuses self.old self.new moment result }
        ensures not_busy { IfErr result (λ e. e ≢ TickRefusal.Busy) }
    {
        self.flushes.clear();
        self.book.tick(moment, &mut self.flushes)
    }

    /// Whether a tick at a moment pings somebody, or why there may be none: what `tick` would answer, want of memory
    /// apart. It takes no memory.
    pub fn may_tick(&self, moment: Moment) -> Result<bool, TickRefusal>
        ensures some { IfOk result
            (λ b. b ≡ true → IsSomebodyIdle self.now moment × HasRoom self.now) }
        ensures none { IfOk result (λ b. b ≡ false → to_ping self.now.history moment ≡ []) }
        ensures may { OnOk result (MayTick self.now moment) }
        ensures refusal { IfErr result (λ e. IsTickRefusal self.now moment e) }
        ensures no_memory { IfErr result (λ e. e ≢ TickRefusal.Memory) }
        ensures not_busy { IfErr result (λ e. e ≢ TickRefusal.Busy) }
    {
        self.book.may_tick(moment)
    }

    /// The session of the lowest number that isn't shut and is idle for too long at a moment, which is to be hung.
    /// It takes no memory.
    pub fn late(&self, moment: Moment) -> Option<SessionId>
        ensures { result ≡ late self.now.history moment }
    {
        self.book.late(moment)
    }

    /// Gives up a session that is gone, with its tokens and with what is left in its outbox, whose taker is given up
    /// with it. The taker is that of the outbox for which the stub was given. It takes no memory; a refusal gives
    /// all three back, and changes nothing.
    pub fn reap(
        &mut self,
        baton: Baton<L, O>,
        stub: Stub<L, O::Name>,
        taker: O::Taker,
    ) -> Result<Left<L>, (ReapRefusal, Baton<L, O>, Stub<L, O::Name>, O::Taker)>
    where
        O::Taker: Drop,
        requires own { stub.outbox ≡ Some (O.taker_of taker) }
        ensures outcome { IsReapOutcome O.sent O.taken self.old self.new baton stub taker result }
        ensures not_busy { IfErr result (λ e. e.0 ≢ ReapRefusal.Busy) }
    {
        self.book.reap(baton, stub, taker)
    }

    /// Drops all records, and keeps what has to be known of them. Numbers go on, and there is room for as many
    /// records as at the start. A refusal changes nothing.
    pub fn roll(&mut self) -> Result<Rolled, RollRefusal>
        ensures outcome { IsRollOutcome self.old self.new result }
        ensures not_busy { IfErr result (λ e. e ≢ RollRefusal.Busy) }
    {
        self.book.roll()
    }

    /// What is known of the records that were dropped, none of them if there were none. `None` before the first roll.
    pub fn base(&self) -> Option<&Base>
        ensures base { IfSome result (λ b. base_by b.now ≡ base_of self.now) }
        ensures noted { IfSome result (λ b. (t : ℕ) → 0 < t → t ≤ (base_of self.now).sessions
            → is_noted b.now t ≡ is_here self.now.outboxes t) }
        ensures opened { IfSome result
            (λ b. (t : ℕ) → is_noted b.now t ≡ true → (0 < t) × (t ≤ (base_of self.now).sessions)) }
        ensures rolled { is_some result ≡ self.now.limit.is_cut }
        ensures none { result ≡ None → self.now.limit.dropped ≡ 0 }
    {
        self.book.ledger().base()
    }

    /// The register of the sessions' tokens: it has a row for each session that was opened, with the pieces that the
    /// history accepts of it and the name of its outbox.
    pub fn register(&self) -> &Register<O::Name>
        ensures named { result.now.table ≡ L.table }
        ensures pieces { (t : ℕ) → 0 < t → t ≤ sessions self.now.history
            → pieces_at result.now.rows t ≡ Some (accepted self.now.history t) }
        ensures outboxes { (t : ℕ) → 0 < t → IfSome (box_at self.now.outboxes t)
            (λ o. outbox_at result.now.rows t ≡ Some (O.name o)) }
        ensures others { (t : ℕ) → sessions self.now.history < t
            → outbox_at result.now.rows t ≡ None }
    {
        self.book.register()
    }

    /// The record of this number, if there is one that wasn't dropped.
    pub fn record(&self, number: RecordNumber) -> Option<&Record>
        ensures { record_at result ≡ nth_record self.now.history self.now.limit.dropped number }
    {
        self.book.ledger().record(number)
    }

    /// How many records are kept.
    pub fn len(&self) -> usize
        ensures { result + self.now.limit.dropped ≡ length self.now.history }
    {
        self.book.ledger().len()
    }

    /// The moment of the newest record, 0 before the first.
    pub fn last_moment(&self) -> Moment
        ensures { result ≡ last_moment self.now.history }
    {
        self.book.ledger().last_moment()
    }

    /// Whether a session was opened and isn't shut.
    pub fn is_open(&self, session: SessionId) -> bool
        ensures { IsTrue result ↔ ((0 < session) × (session ≤ sessions self.now.history)
            × (shut self.now.history session ≡ false)) }
    {
        self.book.ledger().is_open(session)
    }

    /// The nickname that a session has: none before its first, and none once it is gone.
    pub fn nick_of(&self, session: SessionId) -> Option<&Octets>
        ensures opened { 0 < session → session ≤ sessions self.now.history
            → option_copied result ≡ nickname self.now session }
        ensures none { (0 < session → session ≤ sessions self.now.history → ⊥)
            → result ≡ None }
    {
        self.book.ledger().nick_of(session)
    }

    /// The shut session of the lowest number that isn't gone, which is swept next.
    pub fn next_to_sweep(&self) -> Option<SessionId>
        ensures { result ≡ to_sweep self.now.history }
    {
        self.book.ledger().next_to_sweep()
    }

    /// Why a session that isn't gone ended, whether or not its records were dropped; where that was never told its
    /// outbox was full.
    pub fn why_of(&self, session: SessionId) -> Why
        ensures { result ≡ ended_for self.now session }
    {
        self.book.ledger().why_of(session)
    }

    /// What holds of every hall: its history is legal, what was put into each session's outbox is what the history
    /// owes it, and no plan is out.
    pub fn sound(&self)
        ensures sound { IsSound O.sent self.now }
        ensures idle { self.now.busy ≡ false }
    {
        self.book.ledger().sound();
    }
}
