//! What is read of a session and not accepted yet.
//!
//! The lines that no worker has begun are one list, so giving a line back needs no memory, and nothing is lost between
//! two lists.
ghost use Rattle.std.specs.Prelude.{◌≡◌, ◌≢◌, ◌+◌, ◌<◌, ◌≤◌, ◌++◌, [], length, Some, None};
ghost use Rattle.std.specs.Prelude.{IfOk, IfErr, IfSome, IsSome, OnErr, OnOk};
ghost use Rattle.std.specs.Option.{is_some};
ghost use Rattle.chronicle.specs.History.{shut};
ghost use Rattle.deliveries.specs.Items.{deliveries};
ghost use Rattle.book.specs.Ledger.{IsOut, MayReap, IsReapRefusal, after_end, newest_missed, outbox_at, after_reap};
ghost use Rattle.interleave.specs.Refusals.{IsLineRefused};
ghost use Rattle.interleave.specs.Steps.{with_taken};
ghost use Rattle.interleave.specs.Inbox.{Held, IsRead, IsBegun, held_at, with_held};
ghost use Rattle.interleave.specs.Inbox.{with_seen, moved_to, ended_at, reaped_at};

use crate::event::{StepRefusal, of_line};
use crate::tokens::Tokens;
use crate::worker::{Place, WorkerId};
use book::{Book, Delivery, Done, Naming, Plan, ReapRefusal, Ring};
use chronicle::{Moment, SessionId};
use line_grammar::{Piece, Splitter};
use snapshots::{GhostChange, Snapshot, append, append_all, apply, blank, copy_of};
use std::alloc::{AllocError, Global};
use std::collections::{LinkedList, VecDeque};
use std::marker::Model;
use std::mem;

/// A session's lines that no worker has begun, and its tokens. The first of them is in a worker's hand where the
/// baton is. They stand in two halves, so that no line is moved where one is taken: what comes next, and what
/// arrived since. A clause sees all octets that were ever fed, all items that were ever taken, and those that were
/// left, which aren't kept.
#[derive(Drop)]
pub(crate) struct Inbox<L: Naming> {
    alloc: Global,
    splitter: Splitter,
    next: VecDeque<Piece>,
    arrived: Vec<Piece>,
    place: Place,
    tokens: Option<Tokens<L>>,
    fed: Snapshot<LinkedList<u8>>,
    taken: Snapshot<LinkedList<Delivery>>,
    left: Snapshot<LinkedList<Delivery>>,
}

impl<L: Naming> Model for Inbox<L> {
    ghost use Rattle.std.specs.Prelude.{◌≡◌, ◌++◌};
    ghost use Rattle.line_grammar.specs.Lines.{left_by};
    ghost use Rattle.interleave.specs.Inbox.{Held};

    ghost Value = { Held };

    ghost view = { λ a. record {
      seen = record {
        fed = a.fed.value;
        pending = a.next.items
            ++ a.arrived.items;
        place = a.place;
        taken = a.taken.value;
        left = a.left.value;
      };
      turn = a.tokens;
    } };

    ghost invariant = { λ a. a.splitter ≡ left_by a.fed.value };
}

// Where nothing comes next, what arrived does.
fn move_up(alloc: Global, next: &mut VecDeque<Piece>, arrived: &mut Vec<Piece>)
    ensures order { next.new.items ++ arrived.new.items ≡ next.old.items ++ arrived.old.items }
    ensures next { next.old.items ++ arrived.old.items ≢ [] → next.new.items ≢ [] }
{
    if next.is_empty() {
        *next = VecDeque::from(mem::replace(arrived, Vec::new(alloc)));
    }
}

// What waits in the outbox of a session.
struct LeftIn;

impl<'a, L: Naming> GhostChange<LinkedList<Delivery>, (&'a Book<L, Ring>, SessionId)> for LeftIn {
    ghost use Rattle.book.specs.Ledger.{outbox_at};

    ghost changed = { λ xs by. deliveries (outbox_at by.0.now.outboxes by.1).queue };
}

impl<L: Naming> Inbox<L> {
    ghost use Rattle.interleave.specs.State.{nothing_fed};
    ghost use Rattle.interleave.specs.Refusals.{is_empty};

    /// An inbox at the start of a session's stream.
    pub(crate) fn new(alloc: Global, tokens: Tokens<L>) -> Inbox<L>
        ensures { result ≡ record { seen = nothing_fed; turn = Some tokens } }
    {
        Inbox {
            alloc,
            splitter: Splitter::new(alloc),
            next: VecDeque::new(alloc),
            arrived: Vec::new(alloc),
            place: Place::Home,
            tokens: Some(tokens),
            fed: blank(alloc),
            taken: blank(alloc),
            left: blank(alloc),
        }
    }

    /// Reads octets, and answers how many lines ended in them.
    pub(crate) fn feed(&mut self, octets: &[u8]) -> Result<usize, AllocError>
        ensures ok { IfOk result (λ n. IsRead self.old octets.now n self.new) }
        ensures err { OnErr result (self.new ≡ self.old) }
    {
        let before = self.arrived.len();
        self.splitter.feed(octets, &mut self.arrived)?;
        append_all(&mut self.fed, octets);
        Ok(self.arrived.len() - before)
    }

    /// Where the baton is.
    pub(crate) fn place(&self) -> Place
        ensures { result ≡ self.now.seen.place }
    {
        self.place
    }

    /// Whether the session isn't given up.
    pub(crate) fn has_tokens(&self) -> bool
        ensures { result ≡ is_some self.now.turn }
    {
        self.tokens.is_some()
    }

    /// Whether no line is left that isn't begun.
    pub(crate) fn is_empty(&self) -> bool
        ensures { result ≡ is_empty self.now.seen.pending }
    {
        self.next.is_empty() && self.arrived.is_empty()
    }

    /// Brings the baton elsewhere.
    pub(crate) fn move_to(&mut self, place: Place)
        ensures { self.new ≡ moved_to self.old place }
    {
        self.place = place;
    }

    /// Tells clauses of a delivery that was taken of the session.
    pub(crate) fn tell_taken(&mut self, delivery: &Delivery)
        ensures { self.new ≡ with_seen self.old (with_taken self.old.seen delivery.now) }
    {
        append(&mut self.taken, delivery);
    }

    /// Has the book begin the line in a worker's hand.
    pub(crate) fn begin(
        &mut self,
        book: &mut Book<L, Ring>,
        worker: WorkerId,
        moment: Moment,
    ) -> Result<Plan, StepRefusal>
        requires baton { IsSome self.old.turn }
        requires hand { self.old.seen.pending ≢ [] }
        ensures ok { IfOk result
            (λ p. IsBegun self.old book.old worker moment p self.new book.new) }
        ensures refusal { IfErr result
            (λ e. IfSome self.old.turn (λ turn. IsLineRefused book.old turn moment e)) }
        ensures inbox { OnErr result (self.new ≡ self.old) }
        ensures book { OnErr result (book.new ≡ book.old) }
    {
        let Some(tokens) = &self.tokens else {
            unreachable!();
        };
        move_up(self.alloc, &mut self.next, &mut self.arrived);
        let Some(piece) = self.next.front() else {
            unreachable!();
        };
        match tokens.begin(book, piece, moment) {
            Ok(plan) => {
                let _ = self.next.pop_front();
                self.place = Place::Begun(worker);
                Ok(plan)
            }
            Err(refusal) => Err(of_line(refusal)),
        }
    }

    /// Gives the plan of its line back, and the baton home.
    pub(crate) fn end(&mut self, book: &mut Book<L, Ring>, plan: Plan) -> Done
        requires out { IsOut book.old plan }
        requires none { book.old.plan ≡ [] }
        requires baton { IsSome self.old.turn }
        requires line { IfSome self.old.turn
            (λ turn. (plan.session ≡ turn.session) × (plan.next ≡ Some (turn.next + 1))) }
        ensures inbox { IfSome self.old.turn (λ turn. self.new ≡ ended_at self.old turn) }
        ensures book { book.new ≡ after_end book.old }
        ensures number { result.number ≡ length book.old.history }
        ensures missed { result.missed ≡ newest_missed book.old.history }
        ensures shut { IfSome self.old.turn
            (λ turn. result.shut ≡ shut book.old.history turn.session) }
    {
        self.place = Place::Home;
        let Some(tokens) = &mut self.tokens else {
            unreachable!();
        };
        tokens.finish(book, plan)
    }

    /// Gives the session up, and tells clauses of what was left for it. It answers how many items that were.
    pub(crate) fn reap(&mut self, book: &mut Book<L, Ring>) -> Result<u64, ReapRefusal>
        requires baton { IsSome self.old.turn }
        ensures ok { IfSome self.old.turn (λ turn. OnOk result (self.new
            ≡ reaped_at self.old (deliveries (outbox_at book.old.outboxes turn.session).queue))) }
        ensures book { IfSome self.old.turn
            (λ turn. OnOk result (book.new ≡ after_reap book.old turn.session)) }
        ensures left { IfSome self.old.turn (λ turn. IfOk result
            (λ n. n ≡ length (outbox_at book.old.outboxes turn.session).queue)) }
        ensures may { IfSome self.old.turn (λ turn. OnOk result (MayReap book.old turn.session)) }
        ensures refusal { IfSome self.old.turn
            (λ turn. IfErr result (λ e. IsReapRefusal book.old turn.session e)) }
        ensures same { OnErr result ((self.new ≡ self.old) × (book.new ≡ book.old)) }
    {
        let Some(tokens) = self.tokens.take() else {
            unreachable!();
        };
        let mut left = copy_of(&self.left);
        let session = tokens.session();
        apply::<LeftIn, LinkedList<Delivery>, (&Book<L, Ring>, SessionId)>(
            &mut left,
            &(&*book, session),
        );
        match tokens.reap(book) {
            Ok(count) => {
                self.left = left;
                Ok(count)
            }
            Err((refusal, tokens)) => {
                self.tokens = Some(tokens);
                Err(refusal)
            }
        }
    }
}

// ---- the inboxes of all sessions, by their numbers

/// Reads octets of a session, and answers how many lines ended in them.
pub(crate) fn feed<L: Naming>(
    inboxes: &mut Vec<Inbox<L>>,
    session: SessionId,
    octets: &[u8],
) -> Result<usize, AllocError>
    requires from_1 { 0 < session }
    requires opened { session ≤ length inboxes.old.items }
    ensures ok { IfOk result (λ n. (c : Held) × IsRead (held_at inboxes.old.items session)
        octets.now n c × (inboxes.new.items ≡ with_held inboxes.old.items session c)) }
    ensures err { OnErr result (inboxes.new.items ≡ inboxes.old.items) }
{
    inboxes[session.number() as usize - 1].feed(octets)
}

/// Brings the baton of a session elsewhere.
pub(crate) fn move_to<L: Naming>(inboxes: &mut Vec<Inbox<L>>, session: SessionId, place: Place)
    requires from_1 { 0 < session }
    requires opened { session ≤ length inboxes.old.items }
    ensures { inboxes.new.items
        ≡ with_held inboxes.old.items session (moved_to (held_at inboxes.old.items session) place) }
{
    inboxes[session.number() as usize - 1].move_to(place);
}

/// Tells clauses of a delivery that was taken of a session.
pub(crate) fn tell_taken<L: Naming>(
    inboxes: &mut Vec<Inbox<L>>,
    session: SessionId,
    delivery: &Delivery,
)
    requires from_1 { 0 < session }
    requires opened { session ≤ length inboxes.old.items }
    ensures { inboxes.new.items
        ≡ with_held inboxes.old.items session (with_seen (held_at inboxes.old.items session)
        (with_taken (held_at inboxes.old.items session).seen delivery.now)) }
{
    inboxes[session.number() as usize - 1].tell_taken(delivery);
}

/// Has the book begin the line of a session that is in a worker's hand.
pub(crate) fn begin<L: Naming>(
    inboxes: &mut Vec<Inbox<L>>,
    book: &mut Book<L, Ring>,
    session: SessionId,
    worker: WorkerId,
    moment: Moment,
) -> Result<Plan, StepRefusal>
    requires from_1 { 0 < session }
    requires opened { session ≤ length inboxes.old.items }
    requires baton { IsSome (held_at inboxes.old.items session).turn }
    requires hand { (held_at inboxes.old.items session).seen.pending ≢ [] }
    ensures ok { IfOk result (λ p. (c : Held) × IsBegun (held_at inboxes.old.items session) book.old
        worker moment p c book.new × (inboxes.new.items ≡ with_held inboxes.old.items session c)) }
    ensures refusal { IfErr result (λ e. IfSome (held_at inboxes.old.items session).turn
        (λ turn. IsLineRefused book.old turn moment e)) }
    ensures inboxes { OnErr result (inboxes.new.items ≡ inboxes.old.items) }
    ensures book { OnErr result (book.new ≡ book.old) }
{
    inboxes[session.number() as usize - 1].begin(book, worker, moment)
}

/// Gives the plan of a session's line back, and the baton home.
pub(crate) fn end<L: Naming>(
    inboxes: &mut Vec<Inbox<L>>,
    book: &mut Book<L, Ring>,
    session: SessionId,
    plan: Plan,
) -> Done
    requires from_1 { 0 < session }
    requires opened { session ≤ length inboxes.old.items }
    requires out { IsOut book.old plan }
    requires none { book.old.plan ≡ [] }
    requires baton { IsSome (held_at inboxes.old.items session).turn }
    requires line { IfSome (held_at inboxes.old.items session).turn
        (λ turn. (plan.session ≡ turn.session) × (plan.next ≡ Some (turn.next + 1))) }
    ensures inboxes { IfSome (held_at inboxes.old.items session).turn (λ turn. inboxes.new.items
        ≡ with_held inboxes.old.items session (ended_at (held_at inboxes.old.items session) turn)) }
    ensures book { book.new ≡ after_end book.old }
    ensures number { result.number ≡ length book.old.history }
    ensures missed { result.missed ≡ newest_missed book.old.history }
    ensures shut { IfSome (held_at inboxes.old.items session).turn
        (λ turn. result.shut ≡ shut book.old.history turn.session) }
{
    inboxes[session.number() as usize - 1].end(book, plan)
}

/// Gives a session up, and answers how many items were left for it.
pub(crate) fn reap<L: Naming>(
    inboxes: &mut Vec<Inbox<L>>,
    book: &mut Book<L, Ring>,
    session: SessionId,
) -> Result<u64, ReapRefusal>
    requires from_1 { 0 < session }
    requires opened { session ≤ length inboxes.old.items }
    requires baton { IsSome (held_at inboxes.old.items session).turn }
    ensures ok { IfSome (held_at inboxes.old.items session).turn
        (λ turn. OnOk result (inboxes.new.items
        ≡ with_held inboxes.old.items session (reaped_at (held_at inboxes.old.items session)
        (deliveries (outbox_at book.old.outboxes turn.session).queue)))) }
    ensures book { IfSome (held_at inboxes.old.items session).turn
        (λ turn. OnOk result (book.new ≡ after_reap book.old turn.session)) }
    ensures left { IfSome (held_at inboxes.old.items session).turn
        (λ turn. IfOk result (λ n. n ≡ length (outbox_at book.old.outboxes turn.session).queue)) }
    ensures may { IfSome (held_at inboxes.old.items session).turn
        (λ turn. OnOk result (MayReap book.old turn.session)) }
    ensures refusal { IfSome (held_at inboxes.old.items session).turn
        (λ turn. IfErr result (λ e. IsReapRefusal book.old turn.session e)) }
    ensures same { OnErr result ((inboxes.new.items ≡ inboxes.old.items) × (book.new ≡ book.old)) }
{
    inboxes[session.number() as usize - 1].reap(book)
}
