//! The ledger: the journal and, for each session, its outbox.
ghost use Rattle.std.specs.Prelude.{◌≡◌, ◌≢◌, ◌<◌, ◌≤◌, ◌+◌, ◌-◌, ◌^◌, ◌↔◌, ◌==◌, [], ℕ};
ghost use Rattle.std.specs.Prelude.{Some, None, true, false, length, slice_get, IsTrue};
ghost use Rattle.std.specs.Prelude.{IfOk, IfErr, IfSome, OnOk, OnErr, option_copied};
ghost use Rattle.std.specs.List.{list_any};
ghost use Rattle.std.specs.Option.{is_some};
ghost use Rattle.casemapping.specs.Names.{host_shape};
ghost use Rattle.chronicle.specs.declared.record.Kind.TheVariants as kind;
ghost use Rattle.chronicle.specs.History.{sessions, last_moment, shut, gone};
ghost use Rattle.chronicle.specs.Journal.{IsRoomier, most, nth_record, record_at};
ghost use Rattle.roster.specs.Legal.{AreLegal};
ghost use Rattle.roster.specs.LookBack.{nick, on};
ghost use Rattle.deeds.specs.Deeds.{facts};
ghost use Rattle.ledger.specs.Settings.{IsWellSet};
ghost use Rattle.ledger.specs.Ledger.{box_at, outbox_at};
ghost use Rattle.ledger.specs.Seats.{IsSeat};

use crate::base::{Base, forget_counts};
use crate::last_heard::LastHeard;
use crate::outboxes::Outboxes;
use crate::outcomes::{Done, Hung, Plan, Reaped, Rolled, Step};
use crate::plan::{Planning, Prepared, commit, moment_of_record, prepare_gone};
use crate::put_queue::PutQueue;
use crate::refusals::{
    BookFault, HangRefusal, LineRefusal, OpenRefusal, ReapRefusal, RollRefusal, SweepRefusal,
    TakeRefusal,
};
use crate::seat::Seat;
use crate::seats::Seats;
use crate::settings::is_well_set;
use crate::turn::Turn;
use chronicle::{Journal, Kind, Moment, Record, RecordNumber, SessionId, Why};
use deliveries::{Delivery, Item};
use line_grammar::Octets;
use outbox::{Outbox, Ring};
use registration::Settings;
use roster::{Deed, Roster, Sessions};
use std::alloc::{AllocError, Global};
use std::hash::RandomState;
use std::marker::Model;
use std::slice;

/// The journal, what is known at its end, and the sessions' outboxes.
#[derive(Drop)]
pub struct Ledger<O: Outbox> {
    pub(crate) alloc: Global,
    pub(crate) journal: Journal,
    pub(crate) roster: Roster,
    pub(crate) seats: Seats,
    pub(crate) outboxes: Outboxes<O>,
    pub(crate) plan: PutQueue,
    pub(crate) busy: bool,
    /// What is known of the records that were dropped.
    pub(crate) base: Option<Base>,
    pub(crate) last_heard: LastHeard,
}

impl<O: Outbox> Model for Ledger<O> {
    ghost use Rattle.ledger.specs.Ledger.{Shown};
    ghost use Rattle.ledger.specs.Kept.{Keeps};

    ghost Value = { Shown O };

    ghost view = { λ a. record {
      history = a.journal.history;
      limit = a.journal.limit;
      settings = a.roster.settings;
      outboxes = a.outboxes.boxes;
      plan = a.plan;
      busy = a.busy;
    } };

    ghost invariant = { λ a. Keeps O.sent a.journal a.roster.settings a.roster.facts a.seats
        a.outboxes.boxes a.plan a.busy a.base a.last_heard };
}

/// Makes room for so many more records, which are within the journal's limit, and for so many sessions that miss the
/// next.
pub(crate) fn reserve(
    journal: &mut Journal,
    records: usize,
    missed: usize,
) -> Result<(), AllocError>
    requires { length journal.old.history + records ≤ most journal.old.limit }
    ensures same { IsRoomier journal.old journal.new }
    ensures ok { OnOk result ((records ≤ journal.new.room) × (missed ≤ journal.new.prepared)) }
{
    journal.reserve(records, missed).map_err(|_| AllocError)
}

impl<O: Outbox> Ledger<O> {
    ghost use Rattle.ledger.specs.Ledger.{empty_ledger, after_open, after_begin, after_end, after_reap, IsPutNext};
    ghost use Rattle.ledger.specs.Ledger.{IsDone, IsLeft, to_sweep, IsKnown, MayOpen, MayBegin, MayHang};
    ghost use Rattle.ledger.specs.Ledger.{MaySweep, MayReap, IsOpenRefusal, IsLineRefusal, IsHangRefusal};
    ghost use Rattle.ledger.specs.Ledger.{IsSweepRefusal, IsReapRefusal, IsSound, IsOut, newest_missed, kept_total};
    ghost use Rattle.ledger.specs.Ledger.{is_here, ended_for, after_roll, base_of, IsRollRefusal};
    ghost use Rattle.ledger.specs.Noted.{base_by, is_noted};

    /// An empty ledger for at most `limit` records. Names are hashed by keys that everybody knows.
    pub fn new(alloc: Global, settings: Settings, limit: usize) -> Result<Ledger<O>, BookFault>
        ensures ok { IfOk result
            (λ b. (b ≡ empty_ledger limit settings) × IsWellSet settings limit) }
        ensures bad { IfErr result (λ e. e ≡ BookFault.BadSettings → IsWellSet settings limit → ⊥) }
        ensures memory { IfErr result (λ e. e ≡ BookFault.Memory → IsWellSet settings limit) }
    {
        if !is_well_set(&settings, limit) {
            return Err(BookFault::BadSettings);
        }
        Ledger::empty(alloc, Roster::new(alloc, settings), limit)
    }

    /// An empty ledger for at most `limit` records. Names are hashed by the keys of a state.
    pub fn with_hasher(
        alloc: Global,
        settings: Settings,
        limit: usize,
        state: RandomState,
    ) -> Result<Ledger<O>, BookFault>
        ensures ok { IfOk result
            (λ b. (b ≡ empty_ledger limit settings) × IsWellSet settings limit) }
        ensures bad { IfErr result (λ e. e ≡ BookFault.BadSettings → IsWellSet settings limit → ⊥) }
        ensures memory { IfErr result (λ e. e ≡ BookFault.Memory → IsWellSet settings limit) }
    {
        if !is_well_set(&settings, limit) {
            return Err(BookFault::BadSettings);
        }
        Ledger::empty(alloc, Roster::with_hasher(alloc, settings, state), limit)
    }

    /// An empty ledger, with a roster of no facts.
    fn empty(alloc: Global, roster: Roster, limit: usize) -> Result<Ledger<O>, BookFault>
        requires set { IsWellSet roster.settings limit }
        requires none { roster.facts ≡ [] }
        ensures ok { IfOk result (λ b. b ≡ empty_ledger limit roster.settings) }
        ensures memory { IfErr result (λ e. e ≡ BookFault.Memory) }
    {
        let Ok(journal) = Journal::with_limit(alloc, limit) else {
            return Err(BookFault::Memory);
        };
        let Ok(last_heard) = LastHeard::new(alloc) else {
            return Err(BookFault::Memory);
        };
        Ok(Ledger {
            alloc,
            journal,
            roster,
            seats: Seats::new(alloc),
            outboxes: Outboxes::new(alloc),
            plan: PutQueue::nothing(alloc),
            busy: false,
            base: None,
            last_heard,
        })
    }

    /// How many more records there may be beside those that are kept free.
    pub(crate) fn free(&self) -> usize
        ensures room { result + length self.now.history + kept_total self.now.history
            ≡ most self.now.limit }
        ensures fits { most self.now.limit < 2 ^ 64 }
    {
        self.journal.most() - self.journal.newest() - self.seats.reserve_count()
    }

    /// How many records are kept free.
    pub(crate) fn reserve_count(&self) -> usize
        ensures kept { result ≡ kept_total self.now.history }
        ensures fits { most self.now.limit < 2 ^ 64 }
    {
        self.journal.most() - self.journal.newest() - self.free()
    }

    /// The seat of a session that was opened and isn't reaped.
    fn seat(&self, session: SessionId) -> Option<Seat>
        ensures known { IfSome result
            (λ seat. IsKnown self.now session × IsSeat seat true self.now.history session) }
        ensures unknown { result ≡ None → IsKnown self.now session → ⊥ }
    {
        let seat = self.seats.seat(session)?;
        Some(seat)
    }

    /// Whether a session may be opened now, memory apart.
    fn check_open(&self, moment: Moment) -> Result<(), OpenRefusal>
        ensures ok { OnOk result (MayOpen self.now moment) }
        ensures fits { OnOk result (most self.now.limit < 2 ^ 64) }
        ensures err { IfErr result (λ e. IsOpenRefusal self.now moment e) }
        ensures no_memory { IfErr result (λ e. e ≢ OpenRefusal.Memory) }
    {
        let free = self.free();
        if self.busy {
            return Err(OpenRefusal::Busy);
        }
        if self.roster.settings().sessions <= self.outboxes.here() {
            return Err(OpenRefusal::TooManySessions);
        }
        if free < 3 {
            return Err(OpenRefusal::JournalFull);
        }
        if !moment.may_follow(self.journal.last_moment()) {
            return Err(OpenRefusal::BadMoment);
        }
        Ok(())
    }

    /// Whether a session may be opened at a moment: what `open` would answer, want of memory apart. It takes no
    /// memory.
    pub fn may_open(&self, moment: Moment) -> Result<(), OpenRefusal>
        ensures ok { OnOk result (MayOpen self.now moment) }
        ensures refusal { IfErr result (λ e. IsOpenRefusal self.now moment e) }
        ensures no_memory { IfErr result (λ e. e ≢ OpenRefusal.Memory) }
    {
        self.check_open(moment)
    }

    /// Opens a session whose host has the shape of one. A refusal gives the outbox back, and changes nothing.
    pub fn open(
        &mut self,
        host: Octets,
        moment: Moment,
        outbox: O,
    ) -> Result<(SessionId, Turn), (OpenRefusal, O)>
        requires host { host_shape host ≡ true }
        requires fresh { O.sent outbox ≡ [] }
        ensures ok { OnOk result (self.new ≡ after_open self.old host moment outbox) }
        ensures may { OnOk result (MayOpen self.old moment) }
        ensures session { IfOk result (λ r. (r.0 ≡ sessions self.old.history + 1)
            × (r.1 ≡ record { session = sessions self.old.history + 1; next = 0 })) }
        ensures refusal { IfErr result (λ e. IsOpenRefusal self.old moment e.0) }
        ensures err { IfErr result (λ e. (self.new ≡ self.old) × (e.1 ≡ outbox)) }
    {
        match self.check_open(moment) {
            Ok(()) => {}
            Err(refusal) => return Err((refusal, outbox)),
        }
        let Ok(told) = host.clone() else {
            return Err((OpenRefusal::Memory, outbox));
        };
        let room = self.reserve_count() + 3;
        let session = SessionId::new(self.seats.opened_count() + 1);
        let deed = Deed::Opened { session, host };
        if self.roster.prepare(slice::from_ref(&deed)).is_err()
            || reserve(&mut self.journal, room, 0).is_err()
            || self.outboxes.make_room().is_err()
            || self.last_heard.open(session, moment).is_err()
        {
            return Err((OpenRefusal::Memory, outbox));
        }
        if self.seats.open(session).is_err() {
            self.last_heard.forget(session);
            return Err((OpenRefusal::Memory, outbox));
        }
        self.outboxes.open(session, outbox);
        self.journal.append(
            moment,
            Kind::Opened {
                session,
                host: told,
            },
        );
        self.roster.apply(deed);
        Ok((session, Turn { session, next: 0 }))
    }

    /// Whether a line of the session whose turn it is may be accepted now, memory apart.
    pub(crate) fn check_line(&self, turn: &Turn, moment: Moment) -> Result<(), LineRefusal>
        ensures ok { OnOk result (MayBegin self.now turn.now moment) }
        ensures fits { OnOk result (most self.now.limit < 2 ^ 64) }
        ensures err { IfErr result (λ e. IsLineRefusal self.now turn.now moment e) }
        ensures no_memory { IfErr result (λ e. e ≢ LineRefusal.Memory) }
    {
        if self.busy {
            return Err(LineRefusal::Busy);
        }
        let Some(seat) = self.seat(turn.session) else {
            return Err(LineRefusal::WrongTurn);
        };
        if seat.accepted != turn.next {
            return Err(LineRefusal::WrongTurn);
        }
        if seat.shut {
            return Err(LineRefusal::Shut);
        }
        if self.free() < 1 {
            return Err(LineRefusal::JournalFull);
        }
        if !moment.may_follow(self.journal.last_moment()) {
            return Err(LineRefusal::BadMoment);
        }
        Ok(())
    }

    /// Whether a line of the session whose turn it is may be accepted at a moment: what `begin` would answer, want
    /// of memory apart. It takes no memory.
    pub fn may_line(&self, turn: &Turn, moment: Moment) -> Result<(), LineRefusal>
        ensures ok { OnOk result (MayBegin self.now turn.now moment) }
        ensures refusal { IfErr result (λ e. IsLineRefusal self.now turn.now moment e) }
        ensures no_memory { IfErr result (λ e. e ≢ LineRefusal.Memory) }
    {
        self.check_line(turn, moment)
    }

    /// Puts the first delivery of the plan that is out into its session's outbox, or notes that the session missed
    /// the record where the outbox doesn't take it. It answers `None` where nothing is left, and takes no memory.
    pub fn put_next(&mut self, plan: &mut Plan) -> Option<Step>
        requires out { IsOut self.old plan.old }
        ensures put { IsPutNext O.accepts O.refuses self.old self.old.plan result self.new }
        ensures none { result ≡ None → self.new.plan ≡ [] }
        ensures out { IsOut self.new plan.new }
        ensures number { plan.new.number ≡ plan.old.number }
        ensures session { plan.new.session ≡ plan.old.session }
        ensures next { plan.new.next ≡ plan.old.next }
    {
        let (put, place) = self.plan.take_first()?;
        let hearer = put.session;
        let settings = self.roster.settings();
        let item = Item::new(put.delivery, hearer, &self.journal, settings);
        if self.outboxes.offer(item, place) {
            return Some(Step::Put(hearer));
        }
        self.seats.set_shut(hearer);
        self.journal.miss(hearer);
        plan.note(hearer);
        Some(Step::Missed(hearer))
    }

    /// Gives back a plan, with nothing left in it. It takes no memory.
    pub fn finish(&mut self, plan: Plan) -> Done
        requires out { IsOut self.old plan }
        requires none { self.old.plan ≡ [] }
        ensures book { self.new ≡ after_end self.old }
        ensures number { result.number ≡ length self.old.history }
        ensures missed { result.missed ≡ newest_missed self.old.history }
        ensures shut { 0 < plan.session → result.shut ≡ shut self.old.history plan.session }
        ensures tick { plan.session ≡ 0 → result.shut ≡ false }
    {
        let Plan {
            number,
            session,
            next: _,
            missed,
        } = plan;
        let shut = 0 < session.number() && self.is_shut(session);
        self.busy = false;
        Done {
            number,
            missed: Sessions::from_small_vec(missed),
            shut,
        }
    }

    /// Whether a session may be hung now.
    fn check_hang(&self, session: SessionId, moment: Moment) -> Result<(), HangRefusal>
        ensures ok { OnOk result (MayHang self.now session moment) }
        ensures err { IfErr result (λ e. IsHangRefusal self.now session moment e) }
    {
        if self.busy {
            return Err(HangRefusal::Busy);
        }
        let Some(found) = self.seat(session) else {
            return Err(HangRefusal::NoSession);
        };
        if found.shut {
            return Err(HangRefusal::Shut);
        }
        if !moment.may_follow(self.journal.last_moment()) {
            return Err(HangRefusal::BadMoment);
        }
        Ok(())
    }

    /// Ends a session: one record is appended, and its last item is put, or missed where its outbox doesn't take it.
    /// It takes no memory; a refusal changes nothing.
    pub fn hang(
        &mut self,
        session: SessionId,
        why: Why,
        moment: Moment,
    ) -> Result<Hung, HangRefusal>
        ensures ok { OnOk result
            (IsDone O.accepts O.refuses self.old (kind.Hung session why) moment self.new) }
        ensures may { OnOk result (MayHang self.old session moment) }
        ensures number { IfOk result (λ d. d.number ≡ length self.old.history + 1) }
        ensures missed { IfOk result
            (λ d. d.missed ≡ list_any (λ u. u == session) (newest_missed self.new.history)) }
        ensures refusal { IfErr result (λ e. IsHangRefusal self.old session moment e) }
        ensures err { OnErr result (self.new ≡ self.old) }
    {
        self.check_hang(session, moment)?;
        let number = self.journal.append(moment, Kind::Hung { session, why });
        self.roster.end(session, why);
        self.seats.set_shut(session);
        let last = Delivery::Last { number, why };
        let item = Item::new(last, session, &self.journal, self.roster.settings());
        let place = self.outboxes.last_place(session);
        if self.outboxes.offer(item, place) {
            return Ok(Hung {
                number,
                missed: false,
            });
        }
        self.journal.miss(session);
        Ok(Hung {
            number,
            missed: true,
        })
    }

    /// The shut session of the lowest number that isn't gone, which is swept next.
    pub fn next_to_sweep(&self) -> Option<SessionId>
        ensures { result ≡ to_sweep self.now.history }
    {
        self.seats.next_to_sweep()
    }

    /// Begins to sweep the shut session of the lowest number that isn't gone: its record is appended, and a plan is
    /// handed out of what others are told. It answers `None` where there is no such session. All memory is taken
    /// here; a refusal changes nothing.
    pub fn begin_sweep(&mut self, moment: Moment) -> Result<Option<Plan>, SweepRefusal>
        ensures some { IfOk result (λ o. IfSome o (λ p. (to_sweep self.old.history ≡ Some p.session)
            × (self.new ≡ after_begin self.old (kind.Gone p.session) moment) × IsOut self.new p
            × (p.next ≡ None))) }
        ensures none { IfOk result
            (λ o. o ≡ None → (to_sweep self.old.history ≡ None) × (self.new ≡ self.old)) }
        ensures may { OnOk result (MaySweep self.old moment) }
        ensures refusal { IfErr result (λ e. IsSweepRefusal self.old moment e) }
        ensures err { OnErr result (self.new ≡ self.old) }
    {
        if self.busy {
            return Err(SweepRefusal::Busy);
        }
        if !moment.may_follow(self.journal.last_moment()) {
            return Err(SweepRefusal::BadMoment);
        }
        match self.next_to_sweep() {
            Some(session) => Ok(Some(self.sweep_one(session, moment)?)),
            None => Ok(None),
        }
    }

    /// Begins to sweep a session, which is the one to sweep.
    fn sweep_one(&mut self, session: SessionId, moment: Moment) -> Result<Plan, AllocError>
        requires may { MaySweep self.old moment }
        requires next { to_sweep self.old.history ≡ Some session }
        ensures ok { OnOk result (self.new ≡ after_begin self.old (kind.Gone session) moment) }
        ensures out { IfOk result (λ p. IsOut self.new p) }
        ensures line { IfOk result (λ p. (p.session ≡ session) × (p.next ≡ None)) }
        ensures err { OnErr result (self.new ≡ self.old) }
    {
        let room = self.reserve_count();
        let number = RecordNumber::new(self.journal.newest() as u64 + 1);
        let by = Planning {
            alloc: self.alloc,
            roster: &self.roster,
            seats: &self.seats,
            actor: session,
            number,
            moment: moment_of_record(moment),
        };
        let prepared = prepare_gone(&by)?;
        let Prepared {
            deeds,
            plan,
            missed,
        } = prepared;
        self.roster.prepare(&deeds)?;
        reserve(&mut self.journal, room, plan.len())?;
        self.journal.append(moment, Kind::Gone { session });
        commit(&mut self.roster, deeds);
        self.seats.leave(session);
        self.plan = plan;
        self.busy = true;
        Ok(Plan {
            number,
            session,
            next: None,
            missed,
        })
    }

    /// Whether a session may be reaped now: what `reap` would answer. It takes no memory.
    pub fn may_reap(&self, session: SessionId) -> Result<(), ReapRefusal>
        ensures ok { OnOk result (MayReap self.now session) }
        ensures refusal { IfErr result (λ e. IsReapRefusal self.now session e) }
    {
        if self.busy {
            return Err(ReapRefusal::Busy);
        }
        let Some(seat) = self.seat(session) else {
            return Err(ReapRefusal::Stranger);
        };
        if !seat.gone {
            return Err(ReapRefusal::NotGone);
        }
        Ok(())
    }

    /// Gives up a session that is gone, with what is left in its outbox, whose taker is given up with it. It takes
    /// no memory; a refusal gives the turn and the taker back, and changes nothing.
    pub fn reap(
        &mut self,
        turn: Turn,
        taker: O::Taker,
    ) -> Result<Reaped, (ReapRefusal, Turn, O::Taker)>
        requires own { IfSome (box_at self.old.outboxes turn.session)
            (λ o. O.name o ≡ O.taker_of taker) }
        ensures ok { OnOk result (self.new ≡ after_reap self.old turn.session) }
        ensures session { IfOk result (λ l. l.session ≡ turn.session) }
        ensures left { IfOk result
            (λ l. IsLeft O.sent O.taken (box_at self.old.outboxes turn.session) taker l.count) }
        ensures may { OnOk result (MayReap self.old turn.session) }
        ensures refusal { IfErr result (λ e. IsReapRefusal self.old turn.session e.0) }
        ensures err { IfErr result (λ e. (self.new ≡ self.old) × (e.1 ≡ turn) × (e.2 ≡ taker)) }
    {
        match self.may_reap(turn.session) {
            Ok(()) => {
                self.seats.give_up(turn.session);
                self.last_heard.forget(turn.session);
                forget_counts(&mut self.base, turn.session);
                let count = self.outboxes.give_up(turn.session, taker);
                Ok(Reaped {
                    session: turn.session,
                    count,
                })
            }
            Err(refusal) => Err((refusal, turn, taker)),
        }
    }

    /// The base of all records. No plan is out.
    fn note_base(&self) -> Result<Base, AllocError>
        requires idle { self.now.busy ≡ false }
        ensures front { IfOk result
            (λ b. (b.front ≡ self.now.history) × (b.settings ≡ self.now.settings)) }
        ensures noted { IfOk result (λ b. (t : ℕ) → 0 < t → t ≤ sessions self.now.history
            → is_noted b t ≡ is_here self.now.outboxes t) }
        ensures opened { IfOk result
            (λ b. (t : ℕ) → is_noted b t ≡ true → (0 < t) × (t ≤ sessions self.now.history)) }
    {
        let roster = self.roster.copy()?;
        let counts = self
            .outboxes
            .counts(self.alloc, &self.seats, &self.last_heard)?;
        Ok(Base::new(roster, counts, &self.journal))
    }

    /// Drops all records, and keeps what has to be known of them. Numbers go on, and there is room for as many
    /// records as at the start. A refusal changes nothing.
    pub fn roll(&mut self) -> Result<Rolled, RollRefusal>
        ensures ok { OnOk result (self.new ≡ after_roll self.old) }
        ensures dropped { IfOk result
            (λ r. r.dropped + self.old.limit.dropped ≡ length self.old.history) }
        ensures next { IfOk result (λ r. r.next ≡ length self.old.history + 1) }
        ensures idle { OnOk result (self.old.busy ≡ false) }
        ensures refusal { IfErr result (λ e. IsRollRefusal self.old e) }
        ensures err { OnErr result (self.new ≡ self.old) }
    {
        if self.busy {
            return Err(RollRefusal::Busy);
        }
        let base = self.note_base()?;
        let dropped = self.journal.len();
        let next = RecordNumber::new(self.journal.newest() as u64 + 1);
        self.journal.cut();
        self.base = Some(base);
        Ok(Rolled { dropped, next })
    }

    /// What is known of the records that were dropped, none of them if there were none. `None` before the first roll.
    pub fn base(&self) -> Option<&Base>
        ensures base { IfSome result (λ b. base_by b.now ≡ base_of self.now) }
        ensures noted { IfSome result (λ b. (t : ℕ) → 0 < t → t ≤ (base_of self.now).sessions
            → is_noted b.now t ≡ is_here self.now.outboxes t) }
        ensures opened { IfSome result
            (λ b. (t : ℕ) → is_noted b.now t ≡ true → (0 < t) × (t ≤ (base_of self.now).sessions)) }
        ensures rolled { is_some result ≡ self.now.limit.is_cut }
        ensures none { result ≡ None → self.now.limit.dropped ≡ 0 }
    {
        self.base.as_ref()
    }

    /// The record of this number, if there is one that wasn't dropped.
    pub fn record(&self, number: RecordNumber) -> Option<&Record>
        ensures { record_at result ≡ nth_record self.now.history self.now.limit.dropped number }
    {
        self.journal.get(number)
    }

    /// How many records are kept.
    pub fn len(&self) -> usize
        ensures { result + self.now.limit.dropped ≡ length self.now.history }
    {
        self.journal.len()
    }

    /// The moment of the newest record, 0 before the first.
    pub fn last_moment(&self) -> Moment
        ensures { result ≡ last_moment self.now.history }
    {
        self.journal.last_moment()
    }

    /// Whether a session was opened and isn't shut.
    pub fn is_open(&self, session: SessionId) -> bool
        ensures { IsTrue result ↔ ((0 < session) × (session ≤ sessions self.now.history)
            × (shut self.now.history session ≡ false)) }
    {
        self.seats.is_listening(session)
    }

    /// The allocator of all that it makes.
    pub fn allocator(&self) -> Global {
        self.alloc
    }

    /// How many deliveries of the plan that is out aren't put yet, 0 where none is out.
    pub fn puts_left(&self) -> usize
        ensures { result ≡ length self.now.plan }
    {
        self.plan.len()
    }

    /// The server's settings.
    pub fn settings(&self) -> &Settings
        ensures { result.now ≡ self.now.settings }
    {
        self.roster.settings()
    }

    /// The nickname that a session has by the history.
    pub fn nick_of(&self, session: SessionId) -> Option<&Octets>
        ensures opened { 0 < session → session ≤ sessions self.now.history
            → option_copied result ≡ nick (facts self.now.settings self.now.history) session }
        ensures none { (0 < session → session ≤ sessions self.now.history → ⊥) → result ≡ None }
    {
        self.roster.nick_of(session)
    }

    /// Why a session that isn't gone ended by the history; where that was never told its outbox was full.
    pub fn why_of(&self, session: SessionId) -> Why
        ensures { result ≡ ended_for self.now session }
    {
        self.roster.why_of(session)
    }

    /// Whether a session is on a channel by the history.
    pub fn is_on(&self, session: SessionId, channel: &Octets) -> bool
        ensures { result ≡ on (facts self.now.settings self.now.history) session channel.now }
    {
        self.roster.is_on(session, channel.as_slice())
    }

    /// Whether a session that was opened is shut.
    fn is_shut(&self, session: SessionId) -> bool
        requires { (0 < session) × (session ≤ sessions self.now.history) }
        ensures { result ≡ shut self.now.history session }
    {
        !self.seats.is_listening(session)
    }

    /// What holds of every ledger: its history is legal, and what was put into each session's outbox, with what is
    /// still in the plan, is what the history owes it.
    pub fn sound(&self)
        ensures { IsSound O.sent self.now }
    {
        let _ = &self.plan;
    }

    /// Each fact of the history might come when it did, so what follows of legal lists of facts holds of it.
    pub fn facts_are_legal(&self)
        ensures { AreLegal (facts self.now.settings self.now.history) }
    {
        self.roster.sound();
    }
}

impl Ledger<Ring> {
    ghost use Rattle.ledger.specs.Ledger.{after_take, IsKnown};
    ghost use Rattle.ledger.specs.RingAnswers.{IsTakeRefusal};

    /// Takes the item that waits longest for a session. It takes no memory.
    pub fn take(&mut self, session: SessionId) -> Result<Item, TakeRefusal>
        ensures ok { IfOk result
            (λ x. slice_get (outbox_at self.old.outboxes session).queue 0 ≡ Some x) }
        ensures taken { OnOk result (self.new ≡ after_take self.old session) }
        ensures known { OnOk result (IsKnown self.old session) }
        ensures refusal { IfErr result (λ e. IsTakeRefusal self.old session e) }
        ensures err { OnErr result (self.new ≡ self.old) }
    {
        if !self.outboxes.is_here(session) {
            return Err(TakeRefusal::NoSession);
        }
        match self.outboxes.take(session) {
            Some(item) => Ok(item),
            None => Err(TakeRefusal::Empty),
        }
    }
}
