//! Steps, and whole runs.
//!
//! A step's own causes of refusal are a table (`own_refusal`), looked up before anything is done; after that a step
//! has to do with the book's causes and memory alone. `Connect` asks the book before it makes anything, so that
//! running out of memory hides no other cause. A plan without a line is a sweep's or a tick's: a tick's is of session
//! 0.
ghost use Rattle.std.specs.Prelude.{◌≡◌, ◌<◌, ◌≤◌, ◌+◌, ◌-◌, ◌++◌, ◌∷◌, [], ℕ, true, false, length, replicate};
ghost use Rattle.std.specs.Prelude.{slice_set, Some, None, IfOk, IfErr, IfSome, IsTrue, OnErr, All, ◌||◌, ◌↔◌};
ghost use Rattle.std.specs.Option.{is_some};
ghost use Rattle.chronicle.specs.History.{accepted};
ghost use Rattle.line_grammar.specs.Lines.{lines};
ghost use Rattle.book.specs.Legal.{IsLegal};
ghost use Rattle.deliveries.specs.Owed.{owed};
ghost use Rattle.casemapping.specs.Names.{host_shape};
ghost use Rattle.book.specs.Ledger.{IsOut, empty_ledger, after_end, late, newest_missed};
ghost use Rattle.book.specs.Settings.{IsWellSet as IsBookSet};
ghost use Rattle.interleave.specs.Limits.{IsWellSet};
ghost use Rattle.interleave.specs.Steps.{is_actor_shut};

use crate::event::{
    BookRefusal, Event, Note, PlayRefusal, StepRefusal, of_open, of_put, of_sweep, of_tick,
};
use crate::inbox;
use crate::inbox::{Inbox, move_to, tell_taken};
use crate::laws::{
    accepted_is_prefix_of_sent, answered_once_and_whole, batch_closed,
    error_at_most_after_the_close, labelled_first, labelled_once, lone_line_unbatched,
    taken_in_order,
};
use crate::tokens::Tokens;
use crate::worker::{Place, WorkerId};
use book::{Book, BookFault, Done, Ledger, Naming, Plan, Register, Ring, Settings, TakeRefusal};
use chronicle::{Moment, SessionId, Why};
use line_grammar::Octets;
use std::alloc::{AllocError, Global};
use std::hash::RandomState;
use std::marker::Model;

/// Workers that a server may have, at most.
const MAX_WORKERS: usize = 64;

/// Items that an outbox may have room for, at most.
const MAX_SENDQ: usize = 4096;

/// Who holds the lock, with the plan that is out.
#[derive(Drop)]
struct Holder {
    worker: WorkerId,
    plan: Plan,
}

/// A book with what was read of each session, and what each worker does.
#[derive(Drop)]
pub struct Play<L: Naming> {
    alloc: Global,
    book: Book<L, Ring>,
    sendq: usize,
    inboxes: Vec<Inbox<L>>,
    jobs: Vec<Option<SessionId>>,
    holder: Option<Holder>,
}

impl<L: Naming> Model for Play<L> {
    ghost use Rattle.interleave.specs.State.{State};
    ghost use Rattle.interleave.specs.Kept.{IsKept, state_of};

    ghost Value = { State };

    ghost view = { λ a. state_of a.book a.sendq a.inboxes.items a.jobs.items a.holder };

    ghost invariant = { λ a. IsKept a.book a.sendq a.inboxes.items a.jobs.items a.holder };
}

/// Whether a number is within its limits.
fn is_within(least: usize, number: usize, most: usize) -> bool
    ensures { IsTrue result ↔ ((least ≤ number) × (number ≤ most)) }
{
    least <= number && number <= most
}

/// Whether so many workers and items are within their limits.
fn are_well_set(workers: usize, sendq: usize) -> bool
    ensures { IsTrue result ↔ ((1 ≤ workers) × (workers ≤ 64) × (1 ≤ sendq) × (sendq ≤ 4096)) }
{
    is_within(1, workers, MAX_WORKERS) && is_within(1, sendq, MAX_SENDQ)
}

/// A book with no sessions, of which names are hashed by the keys of a state, where one is given.
fn book_of<L: Naming>(
    alloc: Global,
    register: Register<()>,
    settings: Settings,
    limit: usize,
    state: Option<RandomState>,
) -> Result<Book<L, Ring>, BookFault>
    requires named { register.table ≡ L.table }
    requires empty { register.rows ≡ [] }
    ensures ok { IfOk result (λ b. (b ≡ empty_ledger limit settings) × IsBookSet settings limit) }
    ensures bad { IfErr result (λ e. e ≡ BookFault.BadSettings → IsBookSet settings limit → ⊥) }
    ensures memory { IfErr result (λ e. e ≡ BookFault.Memory → IsBookSet settings limit) }
{
    match state {
        Some(state) => Book::with_hasher(alloc, register, settings, limit, state),
        None => Book::new(alloc, register, settings, limit),
    }
}

/// So many workers without a line.
fn idle(alloc: Global, workers: usize) -> Result<Vec<Option<SessionId>>, AllocError>
    ensures { IfOk result (λ jobs. jobs.items ≡ replicate workers None) }
{
    vec![in alloc; None; workers]
}

/// Gives a worker a session's line, or none.
fn set_job(jobs: &mut Vec<Option<SessionId>>, worker: WorkerId, job: Option<SessionId>)
    requires from_1 { 0 < worker }
    requires there { worker ≤ length jobs.old.items }
    ensures { jobs.new.items ≡ slice_set jobs.old.items (worker - 1) job }
{
    jobs[worker.number() as usize - 1] = job;
}

/// Gives back the plan of a sweep or of a tick, which has no session, with nothing left in it.
#[tactic(auto, using(crate::proofs::Ended::tick_shuts_nobody, crate::proofs::Ended::session_is_shut))]
fn finish<L: Naming>(book: &mut Book<L, Ring>, plan: Plan) -> Done
    requires out { IsOut book.old plan }
    requires none { book.old.plan ≡ [] }
    requires no_line { plan.next ≡ None }
    ensures book { book.new ≡ after_end book.old }
    ensures number { result.number ≡ length book.old.history }
    ensures missed { result.missed ≡ newest_missed book.old.history }
    ensures shut { result.shut ≡ is_actor_shut book.old.history }
{
    book.sound();
    if plan.session().number() == 0 {
        return book.finish_tick(plan);
    }
    book.finish_sweep(plan)
}

impl<L: Naming> Play<L> {
    ghost use Rattle.interleave.specs.declared.event.Event.TheVariants as event;
    ghost use Rattle.interleave.specs.State.{IsSound, ForEach, empty_state, inbox_at, in_hand, unread, taken_of};
    ghost use Rattle.interleave.specs.State.{queue_of, planned_for, is_known, is_worker, job_of, holds, is_home};
    ghost use Rattle.interleave.specs.Refusals.{own_refusal, no_session, no_worker, not_free, not_holding, has_job};
    ghost use Rattle.interleave.specs.Refusals.{no_job, in_flight, nothing_left, puts_left, holds_lock};
    ghost use Rattle.interleave.specs.Steps.{IsWellShaped, IsStep, IsDone};
    ghost use Rattle.interleave.specs.Runs.{IsRun, sent_in, taken_in};
    ghost use Rattle.interleave.specs.Order.{IsPrefix, IsRising};
    ghost use Rattle.interleave.specs.Laws.{IsAnsweredOnce, IsBatchClosed, IsLabelledFirst, IsLoneUnbatched};
    ghost use Rattle.interleave.specs.Laws.{IsQuietAfterTheClose};
    ghost use Rattle.interleave.specs.Whole.{IsAnsweredOnceAndWhole};
    ghost use Rattle.clean_records.specs.Clean.{AreNamed};

    /// A play with no sessions. Names are hashed by the keys of a state, where one is given.
    fn new_in(
        alloc: Global,
        register: Register<()>,
        settings: Settings,
        limit: usize,
        workers: usize,
        sendq: usize,
        state: Option<RandomState>,
    ) -> Result<Play<L>, PlayRefusal>
        requires named { register.table ≡ L.table }
        requires empty { register.rows ≡ [] }
        ensures ok { IfOk result (λ p. (p ≡ empty_state limit settings sendq workers)
            × IsWellSet settings limit workers sendq) }
        ensures bad { IfErr result
            (λ e. e ≡ PlayRefusal.BadSettings → IsWellSet settings limit workers sendq → ⊥) }
        ensures memory { IfErr result
            (λ e. e ≡ PlayRefusal.Memory → IsWellSet settings limit workers sendq) }
    {
        if !are_well_set(workers, sendq) {
            return Err(PlayRefusal::BadSettings);
        }
        let book = match book_of(alloc, register, settings, limit, state) {
            Ok(book) => book,
            Err(BookFault::BadSettings) => return Err(PlayRefusal::BadSettings),
            Err(BookFault::Memory) => return Err(PlayRefusal::Memory),
        };
        let Ok(jobs) = idle(alloc, workers) else {
            return Err(PlayRefusal::Memory);
        };
        Ok(Play {
            alloc,
            book,
            sendq,
            inboxes: Vec::new(alloc),
            jobs,
            holder: None,
        })
    }

    /// A play with no sessions, for at most `limit` records, 1 to 64 workers, and outboxes for `sendq` items, 1 to
    /// 4,096. Its sessions' tokens a register has that is named by `L` and has no session yet.
    pub fn new(
        alloc: Global,
        register: Register<()>,
        settings: Settings,
        limit: usize,
        workers: usize,
        sendq: usize,
    ) -> Result<Play<L>, PlayRefusal>
        requires named { register.table ≡ L.table }
        requires empty { register.rows ≡ [] }
        ensures ok { IfOk result (λ p. (p ≡ empty_state limit settings sendq workers)
            × IsWellSet settings limit workers sendq) }
        ensures bad { IfErr result
            (λ e. e ≡ PlayRefusal.BadSettings → IsWellSet settings limit workers sendq → ⊥) }
        ensures memory { IfErr result
            (λ e. e ≡ PlayRefusal.Memory → IsWellSet settings limit workers sendq) }
    {
        Play::new_in(alloc, register, settings, limit, workers, sendq, None)
    }

    /// A play with no sessions, as `new` makes one. Names are hashed by the keys of a state.
    pub fn with_hasher(
        alloc: Global,
        register: Register<()>,
        settings: Settings,
        limit: usize,
        workers: usize,
        sendq: usize,
        state: RandomState,
    ) -> Result<Play<L>, PlayRefusal>
        requires named { register.table ≡ L.table }
        requires empty { register.rows ≡ [] }
        ensures ok { IfOk result (λ p. (p ≡ empty_state limit settings sendq workers)
            × IsWellSet settings limit workers sendq) }
        ensures bad { IfErr result
            (λ e. e ≡ PlayRefusal.BadSettings → IsWellSet settings limit workers sendq → ⊥) }
        ensures memory { IfErr result
            (λ e. e ≡ PlayRefusal.Memory → IsWellSet settings limit workers sendq) }
    {
        Play::new_in(
            alloc,
            register,
            settings,
            limit,
            workers,
            sendq,
            Some(state),
        )
    }

    /// What holds of every play: what was taken of a session, what waits for it and what a plan still has for it is
    /// what the history owes it; the accepted lines, with those that aren't begun, are the lines of what was fed; a
    /// worker who has a line has the baton of its session; settings are within their limits, hosts have their shape,
    /// and lines no CR or LF.
    pub fn sound(&self)
        ensures { IsSound self.now }
    {
        let _ = &self.book;
    }

    fn accounts_are_named(&self)
        ensures { AreNamed self.now.book.settings.accounts }
    {
        self.book.ledger().settings().accounts.are_named();
    }

    /// The session of the lowest number that isn't shut and is idle for too long at a moment, if there is one.
    pub fn late(&self, moment: Moment) -> Option<SessionId>
        ensures { result ≡ late self.now.book.history moment }
    {
        self.book.late(moment)
    }

    /// The book as it stands, without its tokens.
    pub fn ledger(&self) -> &Ledger<Ring>
        ensures { result.now ≡ self.now.book }
    {
        self.book.ledger()
    }

    // ---- why a step is refused

    fn is_known(&self, session: SessionId) -> bool
        ensures { result ≡ is_known self.now session }
    {
        let number = session.number();
        1 <= number
            && number <= self.inboxes.len() as u64
            && self.inboxes[number as usize - 1].has_tokens()
    }

    fn is_worker(&self, worker: WorkerId) -> bool
        ensures { result ≡ is_worker self.now worker }
    {
        let number = worker.number();
        1 <= number && number <= self.jobs.len() as u64
    }

    fn holds(&self, worker: WorkerId) -> bool
        ensures { result ≡ holds self.now.holder worker }
    {
        match &self.holder {
            Some(holder) => holder.worker == worker,
            None => false,
        }
    }

    /// The session whose line a worker has.
    fn job(&self, worker: WorkerId) -> Option<SessionId>
        requires { is_worker self.now worker ≡ true }
        ensures { result ≡ job_of self.now worker }
    {
        self.jobs[worker.number() as usize - 1]
    }

    fn inbox(&self, session: SessionId) -> &Inbox<L>
        requires { is_known self.now session ≡ true }
        ensures { result.now.seen ≡ inbox_at self.now session }
    {
        &self.inboxes[session.number() as usize - 1]
    }

    fn is_home(&self, session: SessionId) -> bool
        requires { is_known self.now session ≡ true }
        ensures { result ≡ is_home (inbox_at self.now session).place }
    {
        self.inbox(session).place() == Place::Home
    }

    fn refuses_pick(&self, worker: WorkerId, session: SessionId) -> Option<StepRefusal>
        ensures { result ≡ own_refusal self.now (event.Pick worker session) }
    {
        if !self.is_worker(worker) {
            return Some(StepRefusal::NoWorker);
        }
        if !self.is_known(session) {
            return Some(StepRefusal::NoSession);
        }
        if self.job(worker).is_some() || self.holds(worker) {
            return Some(StepRefusal::HasJob);
        }
        if !self.is_home(session) {
            return Some(StepRefusal::InFlight);
        }
        if self.inbox(session).is_empty() {
            return Some(StepRefusal::NothingRead);
        }
        None
    }

    fn refuses_begin(&self, worker: WorkerId) -> Option<StepRefusal>
        ensures { result
            ≡ no_worker self.now worker (not_free self.now (no_job self.now worker None)) }
    {
        if !self.is_worker(worker) {
            return Some(StepRefusal::NoWorker);
        }
        if self.holder.is_some() {
            return Some(StepRefusal::Locked);
        }
        if self.job(worker).is_none() {
            return Some(StepRefusal::NoJob);
        }
        None
    }

    fn refuses_put(&self, worker: WorkerId) -> Option<StepRefusal>
        ensures { result
            ≡ no_worker self.now worker (not_holding self.now worker (nothing_left self.now)) }
    {
        if !self.is_worker(worker) {
            return Some(StepRefusal::NoWorker);
        }
        if !self.holds(worker) {
            return Some(StepRefusal::NotHolding);
        }
        if self.book.ledger().puts_left() == 0 {
            return Some(StepRefusal::NothingLeft);
        }
        None
    }

    fn refuses_end(&self, worker: WorkerId) -> Option<StepRefusal>
        ensures { result
            ≡ no_worker self.now worker (not_holding self.now worker (puts_left self.now)) }
    {
        if !self.is_worker(worker) {
            return Some(StepRefusal::NoWorker);
        }
        if !self.holds(worker) {
            return Some(StepRefusal::NotHolding);
        }
        if self.book.ledger().puts_left() != 0 {
            return Some(StepRefusal::PutsLeft);
        }
        None
    }

    fn refuses_back(&self, worker: WorkerId) -> Option<StepRefusal>
        ensures { result
            ≡ no_worker self.now worker (no_job self.now worker (holds_lock self.now worker)) }
    {
        if !self.is_worker(worker) {
            return Some(StepRefusal::NoWorker);
        }
        if self.job(worker).is_none() {
            return Some(StepRefusal::NoJob);
        }
        if self.holds(worker) {
            return Some(StepRefusal::Locked);
        }
        None
    }

    fn refuses_hang(&self, worker: WorkerId) -> Option<StepRefusal>
        ensures { result ≡ no_worker self.now worker (not_free self.now None) }
    {
        if !self.is_worker(worker) {
            return Some(StepRefusal::NoWorker);
        }
        if self.holder.is_some() {
            return Some(StepRefusal::Locked);
        }
        None
    }

    /// Why a worker without a line can't take the lock.
    fn refuses_lock(&self, worker: WorkerId) -> Option<StepRefusal>
        ensures { result
            ≡ no_worker self.now worker (not_free self.now (has_job self.now worker None)) }
    {
        if !self.is_worker(worker) {
            return Some(StepRefusal::NoWorker);
        }
        if self.holder.is_some() {
            return Some(StepRefusal::Locked);
        }
        if self.job(worker).is_some() {
            return Some(StepRefusal::HasJob);
        }
        None
    }

    fn refuses_reap(&self, session: SessionId) -> Option<StepRefusal>
        ensures { result
            ≡ no_session self.now session (not_free self.now (in_flight self.now session None)) }
    {
        if !self.is_known(session) {
            return Some(StepRefusal::NoSession);
        }
        if self.holder.is_some() {
            return Some(StepRefusal::Locked);
        }
        if !self.is_home(session) {
            return Some(StepRefusal::InFlight);
        }
        None
    }

    /// Why a step is refused, before the book is asked.
    fn refuses(&self, event: &Event) -> Option<StepRefusal>
        ensures { result ≡ own_refusal self.now event.now }
    {
        match event {
            Event::Connect { .. } if self.holder.is_some() => Some(StepRefusal::Locked),
            Event::Connect { .. } => None,
            Event::Feed { session, .. } | Event::Take { session } if self.is_known(*session) =>
                None,
            Event::Feed { .. } | Event::Take { .. } => Some(StepRefusal::NoSession),
            Event::Pick { worker, session } => self.refuses_pick(*worker, *session),
            Event::Begin { worker, .. } => self.refuses_begin(*worker),
            Event::Put { worker } => self.refuses_put(*worker),
            Event::End { worker } => self.refuses_end(*worker),
            Event::Back { worker } => self.refuses_back(*worker),
            Event::Hang { worker, .. } => self.refuses_hang(*worker),
            Event::Sweep { worker, .. } | Event::Tick { worker, .. } => self.refuses_lock(*worker),
            Event::Reap { session } => self.refuses_reap(*session),
        }
    }

    // ---- steps that nothing of this refuses

    fn connect(&mut self, host: &Octets, moment: Moment) -> Result<Note, StepRefusal>
        requires shape { host_shape host.now ≡ true }
        requires free { own_refusal self.old (event.Connect host.now moment) ≡ None }
        ensures { IsStep self.old (event.Connect host.now moment) result self.new }
    {
        if let Err(refusal) = self.book.ledger().may_open(moment) {
            return Err(of_open(refusal));
        }
        let outbox = Ring::new(self.alloc, self.sendq)?;
        let host = host.clone()?;
        self.inboxes.reserve(1)?;
        let opened = self.book.open(host, moment, outbox);
        self.book.sound();
        match opened {
            Ok((session, baton, stub)) => {
                let inbox = Inbox::new(self.alloc, Tokens::new(baton, stub));
                self.inboxes.push_reserved(inbox);
                Ok(Note::Session(session))
            }
            Err((refusal, _outbox)) => Err(of_open(refusal)),
        }
    }

    fn feed(&mut self, session: SessionId, octets: &Octets) -> Result<Note, StepRefusal>
        requires free { own_refusal self.old (event.Feed session octets.now) ≡ None }
        ensures { IsStep self.old (event.Feed session octets.now) result self.new }
    {
        let read = inbox::feed(&mut self.inboxes, session, octets.as_slice())?;
        Ok(Note::Read(read))
    }

    fn pick(&mut self, worker: WorkerId, session: SessionId) -> Result<Note, StepRefusal>
        requires free { own_refusal self.old (event.Pick worker session) ≡ None }
        ensures { IsStep self.old (event.Pick worker session) result self.new }
    {
        move_to(&mut self.inboxes, session, Place::Hand(worker));
        set_job(&mut self.jobs, worker, Some(session));
        Ok(Note::Picked)
    }

    fn begin(&mut self, worker: WorkerId, moment: Moment) -> Result<Note, StepRefusal>
        requires free { own_refusal self.old (event.Begin worker moment) ≡ None }
        ensures { IsStep self.old (event.Begin worker moment) result self.new }
    {
        let Some(session) = self.job(worker) else {
            unreachable!();
        };
        let plan = inbox::begin(&mut self.inboxes, &mut self.book, session, worker, moment)?;
        self.book.sound();
        let number = plan.number();
        self.holder = Some(Holder { worker, plan });
        Ok(Note::Record(number))
    }

    fn put(&mut self, worker: WorkerId) -> Result<Note, StepRefusal>
        requires free { own_refusal self.old (event.Put worker) ≡ None }
        ensures { IsStep self.old (event.Put worker) result self.new }
    {
        let Some(
            Holder {
                worker: _,
                mut plan,
            },
        ) = self.holder.take()
        else {
            unreachable!();
        };
        let step = self.book.put_next_ring(&mut plan);
        self.book.sound();
        self.holder = Some(Holder { worker, plan });
        match step {
            Some(step) => Ok(of_put(step)),
            None => unreachable!(),
        }
    }

    fn end(&mut self, worker: WorkerId) -> Result<Note, StepRefusal>
        requires free { own_refusal self.old (event.End worker) ≡ None }
        ensures { IsStep self.old (event.End worker) result self.new }
    {
        let job = self.job(worker);
        let Some(Holder { worker: _, plan }) = self.holder.take() else {
            unreachable!();
        };
        let Some(session) = job else {
            let done = finish(&mut self.book, plan);
            self.book.sound();
            return Ok(Note::Done(done));
        };
        set_job(&mut self.jobs, worker, None);
        let done = inbox::end(&mut self.inboxes, &mut self.book, session, plan);
        self.book.sound();
        Ok(Note::Done(done))
    }

    fn back(&mut self, worker: WorkerId) -> Result<Note, StepRefusal>
        requires free { own_refusal self.old (event.Back worker) ≡ None }
        ensures { IsStep self.old (event.Back worker) result self.new }
    {
        let Some(session) = self.job(worker) else {
            unreachable!();
        };
        move_to(&mut self.inboxes, session, Place::Home);
        set_job(&mut self.jobs, worker, None);
        Ok(Note::Back)
    }

    fn take(&mut self, session: SessionId) -> Result<Note, StepRefusal>
        requires free { own_refusal self.old (event.Take session) ≡ None }
        ensures { IsStep self.old (event.Take session) result self.new }
    {
        let taken = self.book.take(session);
        self.book.sound();
        match taken {
            Ok(item) => {
                tell_taken(&mut self.inboxes, session, item.delivery());
                Ok(Note::Item(item.into_delivery()))
            }
            Err(TakeRefusal::Empty) => Ok(Note::Empty),
            Err(TakeRefusal::NoSession) => Err(StepRefusal::NoSession),
        }
    }

    fn hang(
        &mut self,
        worker: WorkerId,
        session: SessionId,
        why: Why,
        moment: Moment,
    ) -> Result<Note, StepRefusal>
        requires free { own_refusal self.old (event.Hang worker session why moment) ≡ None }
        ensures { IsStep self.old (event.Hang worker session why moment) result self.new }
    {
        let hung = self.book.hang_ring(session, why, moment);
        self.book.sound();
        match hung {
            Ok(hung) => Ok(Note::Hung(hung)),
            Err(refusal) => Err(StepRefusal::Book(BookRefusal::Hang(refusal))),
        }
    }

    fn sweep(&mut self, worker: WorkerId, moment: Moment) -> Result<Note, StepRefusal>
        requires free { own_refusal self.old (event.Sweep worker moment) ≡ None }
        ensures { IsStep self.old (event.Sweep worker moment) result self.new }
    {
        let begun = self.book.begin_sweep(moment);
        self.book.sound();
        match begun {
            Ok(Some(plan)) => {
                let number = plan.number();
                self.holder = Some(Holder { worker, plan });
                Ok(Note::Swept(Some(number)))
            }
            Ok(None) => Ok(Note::Swept(None)),
            Err(refusal) => Err(of_sweep(refusal)),
        }
    }

    #[tactic(auto, using(crate::proofs::Does::pings))]
    fn tick(&mut self, worker: WorkerId, moment: Moment) -> Result<Note, StepRefusal>
        requires free { own_refusal self.old (event.Tick worker moment) ≡ None }
        ensures { IsStep self.old (event.Tick worker moment) result self.new }
    {
        let begun = self.book.begin_tick(moment);
        self.book.sound();
        match begun {
            Ok(Some(plan)) => {
                let number = plan.number();
                self.holder = Some(Holder { worker, plan });
                Ok(Note::Ticked(Some(number)))
            }
            Ok(None) => Ok(Note::Ticked(None)),
            Err(refusal) => Err(of_tick(refusal)),
        }
    }

    fn reap(&mut self, session: SessionId) -> Result<Note, StepRefusal>
        requires free { own_refusal self.old (event.Reap session) ≡ None }
        ensures { IsStep self.old (event.Reap session) result self.new }
    {
        let reaped = inbox::reap(&mut self.inboxes, &mut self.book, session);
        self.book.sound();
        match reaped {
            Ok(count) => Ok(Note::Left(count)),
            Err(refusal) => Err(StepRefusal::Book(BookRefusal::Reap(refusal))),
        }
    }

    fn perform(&mut self, event: &Event) -> Result<Note, StepRefusal>
        requires shape { IsWellShaped event.now }
        requires free { own_refusal self.old event.now ≡ None }
        ensures { IsStep self.old event.now result self.new }
    {
        match event {
            Event::Connect { host, moment } => self.connect(host, *moment),
            Event::Feed { session, octets } => self.feed(*session, octets),
            Event::Pick { worker, session } => self.pick(*worker, *session),
            Event::Begin { worker, moment } => self.begin(*worker, *moment),
            Event::Put { worker } => self.put(*worker),
            Event::End { worker } => self.end(*worker),
            Event::Back { worker } => self.back(*worker),
            Event::Take { session } => self.take(*session),
            Event::Hang {
                worker,
                session,
                why,
                moment,
            } => self.hang(*worker, *session, *why, *moment),
            Event::Sweep { worker, moment } => self.sweep(*worker, *moment),
            Event::Tick { worker, moment } => self.tick(*worker, *moment),
            Event::Reap { session } => self.reap(*session),
        }
    }

    /// Takes one event. A refusal changes nothing. After each: what was taken of a session, then what waits for it
    /// or was left, then what the plan still has for it, is what the history owes it; the accepted lines, then the
    /// line in a worker's hand, then the unread ones, are the lines of what was fed; after the close of a session
    /// comes the ERROR line at most; and each accepted line with a label that counts is answered once, whole, as a
    /// client reads the octets.
    pub fn step(&mut self, event: &Event) -> Result<Note, StepRefusal>
        requires { IsWellShaped event.now }
        ensures step { IsStep self.old event.now result self.new }
        ensures sound { IsSound self.new }
        ensures legal { IsLegal self.new.book.settings self.new.book.history }
        ensures taken_is_owed { ForEach self.new (λ t. taken_of self.new t ++ queue_of self.new t
            ++ planned_for self.new t ≡ owed self.new.book.settings self.new.book.history t) }
        ensures accepted_is_sent { ForEach self.new (λ t. accepted self.new.book.history t
            ++ in_hand self.new t ++ unread self.new t ≡ lines (inbox_at self.new t).fed) }
        ensures taken_is_prefix { ForEach self.new (λ t. IsPrefix (taken_of self.new t)
            (owed self.new.book.settings self.new.book.history t)) }
        ensures accepted_is_prefix { ForEach self.new
            (λ t. IsPrefix (accepted self.new.book.history t) (lines (inbox_at self.new t).fed)) }
        ensures in_order { ForEach self.new (λ t. IsRising (taken_of self.new t)) }
        ensures error_at_most { IsQuietAfterTheClose self.new.book.settings self.new.book.history }
        ensures answered_once { IsAnsweredOnce self.new.book.settings self.new.book.history }
        ensures labelled_first { IsLabelledFirst self.new.book.settings self.new.book.history }
        ensures lone_unbatched { IsLoneUnbatched self.new.book.settings self.new.book.history }
        ensures batch_closed { IsBatchClosed self.new.book.settings self.new.book.history }
        ensures answered_whole { IsAnsweredOnceAndWhole self.new.book.settings
            self.new.book.history }
    {
        taken_in_order();
        accepted_is_prefix_of_sent();
        error_at_most_after_the_close();
        labelled_once();
        labelled_first();
        lone_line_unbatched();
        batch_closed();
        answered_once_and_whole();
        let answer = match self.refuses(event) {
            Some(refusal) => Err(refusal),
            None => self.perform(event),
        };
        self.sound();
        self.accounts_are_named();
        answer
    }

    /// Takes the events in turn, and goes on from the unchanged state after a refused one. An `Err` says that there
    /// was no room for the answers, and nothing changed.
    pub fn run(&mut self, events: &[Event]) -> Result<Vec<Result<Note, StepRefusal>>, AllocError>
        requires { All IsWellShaped events.now }
        ensures run { IfOk result (λ notes. IsRun self.old events.now notes.items self.new) }
        ensures err { OnErr result (self.new ≡ self.old) }
        ensures sound { IsSound self.new }
        ensures legal { IsLegal self.new.book.settings self.new.book.history }
        ensures taken_is_owed { IfOk result (λ notes. ForEach self.new
            (λ t. (taken_of self.old t ++ taken_in t events.now notes.items) ++ queue_of self.new t
            ++ planned_for self.new t ≡ owed self.new.book.settings self.new.book.history t)) }
        ensures accepted_is_sent { IfOk result (λ notes. ForEach self.new
            (λ t. accepted self.new.book.history t ++ in_hand self.new t ++ unread self.new t
            ≡ lines ((inbox_at self.old t).fed ++ sent_in t events.now notes.items))) }
        ensures taken_is_prefix { IfOk result (λ notes. ForEach self.new
            (λ t. IsPrefix (taken_of self.old t ++ taken_in t events.now notes.items)
            (owed self.new.book.settings self.new.book.history t))) }
        ensures accepted_is_prefix { IfOk result
            (λ notes. ForEach self.new (λ t. IsPrefix (accepted self.new.book.history t)
            (lines ((inbox_at self.old t).fed ++ sent_in t events.now notes.items)))) }
        ensures in_order { IfOk result (λ notes. ForEach self.new
            (λ t. IsRising (taken_of self.old t ++ taken_in t events.now notes.items))) }
        ensures error_at_most { IsQuietAfterTheClose self.new.book.settings self.new.book.history }
        ensures answered_once { IsAnsweredOnce self.new.book.settings self.new.book.history }
        ensures labelled_first { IsLabelledFirst self.new.book.settings self.new.book.history }
        ensures lone_unbatched { IsLoneUnbatched self.new.book.settings self.new.book.history }
        ensures batch_closed { IsBatchClosed self.new.book.settings self.new.book.history }
        ensures answered_whole { IsAnsweredOnceAndWhole self.new.book.settings
            self.new.book.history }
    {
        self.sound();
        self.accounts_are_named();
        error_at_most_after_the_close();
        labelled_once();
        labelled_first();
        lone_line_unbatched();
        batch_closed();
        answered_once_and_whole();
        let mut notes = Vec::new(self.alloc);
        notes.reserve(events.len())?;
        for event in events {
            let note = self.step(event);
            notes.push_reserved(note);
        }
        self.sound();
        self.accounts_are_named();
        Ok(notes)
    }
}
