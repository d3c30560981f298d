//! The deliveries of a record, before they are put.
//!
//! The actor's own text is planned last, put first, and stands apart from the others', so no list takes memory where
//! only the actor is told. Where one line is shown, as of most records, its hearers are planned in one pass.
ghost use Rattle.std.specs.Prelude.{◌≡◌, ◌≢◌, ℕ, ◌≤◌, ◌<◌, ◌≤ℤ◌, ◌++◌, ◌∷◌, [], false, map, not, length, pos};
ghost use Rattle.std.specs.Prelude.{◌+◌, slice_index_or};
ghost use Rattle.std.specs.VecDeque.{deque_capacity};
ghost use Rattle.std.specs.Prelude.{None, OnOk, IfOk, option_to_list};
ghost use Rattle.chronicle.specs.History.{is_quit};
ghost use Rattle.roster.specs.LookBack.{after, caps, opened_in};
ghost use Rattle.roster.specs.Legal.{IsOpened, AreNext};
ghost use Rattle.commands.specs.Asked.{asked_of, asks_for_quit};
ghost use Rattle.labels_batches.specs.Labels.{label_of};
ghost use Rattle.labels_batches.specs.Answers.{whole_answer};
ghost use Rattle.labels_batches.specs.Rendered.{text_as};
ghost use Rattle.transactions.specs.Words.{deeds_of};
ghost use Rattle.deeds.specs.Departure.{departs};
ghost use Rattle.deeds.specs.Rows.{of_asked};
ghost use Rattle.deeds.specs.Deeds.{octets_for};
ghost use Rattle.transactions.specs.Verdicts.{IsVerdict};
ghost use Rattle.ledger.specs.Ledger.{others, puts};
ghost use Rattle.ledger.specs.Seats.{hears, told_own, told_to, heard_text, pinged_text, planned_from, planned_with};
ghost use Rattle.ledger.specs.FanOut.{delivery_of, deliveries_of, heard_by, heard_of, one_each};
ghost use Rattle.ledger.specs.Read.{label_for};
ghost use Rattle.ledger.specs.declared.fan_out.Hearing.{Hearing};

use crate::fan_out::{Heard, Hearing, ascend, by_number, hear_one, heard_in_order};
use crate::line_texts::LineTexts;
use crate::put_queue::PutQueue;
use crate::read_line::ReadLine;
use crate::seats::Seats;
use chronicle::{Moment, RecordMoment, RecordNumber, SessionId, Why};
use deeds::{ShownLine, Verdict, decide, decide_gone, ping};
use deliveries::Delivery;
use labels_batches::{Receiver, Spellings, Text, answer_text, takes_labels};
use line_grammar::Octets;
use numerics::Line;
use roster::{Deed, Roster, Sessions};
use smallvec::SmallVec;
use std::alloc::{AllocError, Global};
use std::collections::VecDeque;
use std::marker::Model;

/// A delivery that is still to be put.
#[derive(Drop)]
pub(crate) struct Planned {
    pub(crate) session: SessionId,
    pub(crate) delivery: Delivery,
}

/// A delivery that is still to be put, and where its session's outbox was when it was planned. A clause sees the
/// delivery.
#[derive(Drop)]
pub(crate) struct Placed {
    pub(crate) planned: Planned,
    pub(crate) place: usize,
}

impl Model for Placed {
    ghost use Rattle.ledger.specs.declared.plan.Planned.{Planned};

    ghost Value = { Planned };

    ghost view = { λ a. a.planned };
}

impl Placed {
    /// The delivery, and the place.
    pub(crate) fn into_parts(self) -> (Planned, usize)
        ensures { result.0 ≡ self }
    {
        let Placed { planned, place } = self;
        (planned, place)
    }
}

/// The facts that a record establishes and its deliveries, with room for those who miss it.
#[derive(Drop)]
pub(crate) struct Prepared {
    pub(crate) deeds: Vec<Deed>,
    pub(crate) plan: PutQueue,
    pub(crate) missed: SmallVec<SessionId, 2>,
}

/// What a record is planned by: whose it is, its number and moment, and what is known before it.
#[derive(Drop)]
pub(crate) struct Planning<'a> {
    pub(crate) alloc: Global,
    pub(crate) roster: &'a Roster,
    pub(crate) seats: &'a Seats,
    pub(crate) actor: SessionId,
    pub(crate) number: RecordNumber,
    pub(crate) moment: RecordMoment,
}

/// The moment of a record, where it may have it.
pub(crate) fn moment_of_record(moment: Moment) -> RecordMoment
    requires from_1970 { pos 0 ≤ℤ moment }
    requires to_9998 { moment ≤ℤ pos 253370764799999 }
    ensures { result ≡ moment }
{
    let Some(moment) = RecordMoment::of(moment) else {
        unreachable!()
    };
    moment
}

/// What the actor of a record is told: the answer, under the label of its line, and what it sent to itself.
fn own_text(
    by: &Planning<'_>,
    label: Option<Octets>,
    reply: Vec<Line>,
    copies: &[Line],
) -> Result<Octets, AllocError>
    ensures { IfOk result
        (λ t. t ≡ text_as (caps by.now.roster.now.facts by.now.actor) by.now.moment (whole_answer
        by.now.roster.now.settings.server label by.now.number reply.items copies.now)) }
{
    let server = by.roster.settings().server.as_slice();
    let caps = by.roster.caps_of(by.actor);
    let to = Receiver {
        caps,
        moment: by.moment,
    };
    answer_text(by.alloc, server, label, by.number, reply, copies, &to)
}

/// Plans, after all others, the delivery of a text to a session that isn't the actor. There has to be room for it.
fn plan_one(
    plan: &mut VecDeque<Placed>,
    seats: &Seats,
    actor: SessionId,
    number: RecordNumber,
    heard: Heard,
)
    requires { length plan.old.items < deque_capacity plan.old }
    ensures planned { plan.new.items
        ≡ plan.old.items ++ delivery_of seats.now actor number heard }
    ensures few { length plan.new.items ≤ length plan.old.items + 1 }
    ensures room { deque_capacity plan.old ≤ deque_capacity plan.new }
{
    let Heard { session, text } = heard;
    if session == actor || text.is_empty() {
        return;
    }
    let Some(place) = seats.listening_at(session) else {
        return;
    };
    let delivery = Delivery::Lines { number, text };
    plan.push_back_reserved(Placed {
        planned: Planned { session, delivery },
        place,
    });
}

/// Where what the session at a place hears ends.
fn run_end(heard: &[Hearing], from: usize) -> usize
    requires there { from < length heard.now }
    ensures after { from < result }
    ensures within { result ≤ length heard.now }
    ensures run { (d : Hearing) (i : ℕ) → from ≤ i → i < result
        → (slice_index_or heard.now i d).session ≡ (slice_index_or heard.now from d).session }
    ensures next { (d : Hearing) → result < length heard.now
        → (slice_index_or heard.now result d).session
        ≢ (slice_index_or heard.now from d).session }
{
    let session = heard[from].session;
    let mut end = from + 1;
    while end < heard.len() {
        if heard[end].session != session {
            return end;
        }
        end += 1;
    }
    end
}

/// The deliveries of lines to their hearers, who stand by the numbers of their sessions: one a session, but for the
/// actor's.
fn plan_others(
    by: &Planning<'_>,
    heard: &[Hearing],
    lines: &mut LineTexts,
) -> Result<VecDeque<Placed>, AllocError>
    ensures { IfOk result (λ plan. plan.items ≡ deliveries_of by.now.seats.now by.now.actor
        by.now.number (one_each (map (heard_of lines.old) heard.now))) }
{
    let least = heard.len() / lines.len().max(1);
    let mut plan = VecDeque::with_capacity(by.alloc, least)?;
    let mut from = 0;
    while from < heard.len() {
        let end = run_end(heard, from);
        let text = lines.text_for(&heard[from..end])?;
        let session = heard[from].session;
        let whole = Heard { session, text };
        plan.reserve(1)?;
        plan_one(&mut plan, by.seats, by.actor, by.number, whole);
        from = end;
    }
    Ok(plan)
}

/// The deliveries of a line to hearers that stand by their numbers, each once.
fn plan_line(
    by: &Planning<'_>,
    hearers: &[SessionId],
    line: &mut Spellings,
) -> Result<VecDeque<Placed>, AllocError>
    ensures { IfOk result
        (λ plan. plan.items ≡ deliveries_of by.now.seats.now by.now.actor by.now.number
        (map (heard_by by.now.roster.now.facts line.old.moment line.old.line) hearers.now)) }
{
    let mut plan = VecDeque::with_capacity(by.alloc, hearers.len())?;
    for hearer in hearers {
        let heard = hear_one(by.roster, *hearer, line)?;
        plan_one(&mut plan, by.seats, by.actor, by.number, heard);
    }
    Ok(plan)
}

/// The deliveries of lines, by session number.
fn plan_lines(by: &Planning<'_>, shown: Vec<ShownLine>) -> Result<VecDeque<Placed>, AllocError>
    ensures { IfOk result (λ plan. plan.items ≡ others (told_to by.now.seats.now by.now.number
        (heard_text by.now.roster.now.facts by.now.moment shown.items)) by.now.actor 1
        (length by.now.seats.now)) }
{
    let heard = heard_in_order(by.alloc, by.roster, &shown)?;
    let mut lines = LineTexts::new(by.alloc, shown, by.moment)?;
    plan_others(by, &heard, &mut lines)
}

/// The deliveries of one line, by session number.
fn plan_sole(by: &Planning<'_>, shown: ShownLine) -> Result<VecDeque<Placed>, AllocError>
    ensures { IfOk result (λ plan. plan.items ≡ others (told_to by.now.seats.now by.now.number
        (heard_text by.now.roster.now.facts by.now.moment (shown ∷ []))) by.now.actor 1
        (length by.now.seats.now)) }
{
    let ShownLine { hearers, line } = shown;
    let hearers = by_number(by.alloc, hearers)?;
    if ascend(hearers.as_slice()) {
        let mut line = Spellings::new(by.alloc, line, by.moment)?;
        return plan_line(by, hearers.as_slice(), &mut line);
    }
    let mut shown = Vec::new(by.alloc);
    shown.push(ShownLine { hearers, line })?;
    plan_lines(by, shown)
}

/// The deliveries of what others are shown, by session number.
fn plan_shown(by: &Planning<'_>, shown: Vec<ShownLine>) -> Result<VecDeque<Placed>, AllocError>
    ensures { IfOk result (λ plan. plan.items ≡ others (told_to by.now.seats.now by.now.number
        (heard_text by.now.roster.now.facts by.now.moment shown.items)) by.now.actor 1
        (length by.now.seats.now)) }
{
    let mut shown = shown;
    if shown.is_empty() {
        return Ok(VecDeque::new(by.alloc));
    }
    if shown.len() != 1 {
        return plan_lines(by, shown);
    }
    match shown.pop() {
        Some(sole) => plan_sole(by, sole),
        None => plan_lines(by, shown),
    }
}

/// Plans what the actor is told: where it quits by the record, its last item.
fn plan_own(by: &Planning<'_>, text: Octets, quits: bool) -> Result<Option<Placed>, AllocError>
    ensures { IfOk result (λ own. option_to_list own ≡ puts by.now.actor
        (told_own (not (hears by.now.seats.now by.now.actor)) by.now.number text quits)) }
{
    let (session, number) = (by.actor, by.number);
    let Some(place) = by.seats.listening_at(session) else {
        return Ok(None);
    };
    if !quits && text.is_empty() {
        return Ok(None);
    }
    let delivery = if quits {
        Delivery::Last {
            number,
            why: Why::Quit,
        }
    } else {
        Delivery::Lines {
            number,
            text: Text::new(by.alloc, text)?,
        }
    };
    Ok(Some(Placed {
        planned: Planned { session, delivery },
        place,
    }))
}

/// The deliveries of a record: the actor's text first, then what others hear, by session number.
fn plan_for(
    by: &Planning<'_>,
    own: Octets,
    shown: Vec<ShownLine>,
    quits: bool,
) -> Result<PutQueue, AllocError>
    ensures { IfOk result (λ plan. plan ≡ planned_with by.now.seats.now by.now.actor by.now.number
        own (heard_text by.now.roster.now.facts by.now.moment shown.items) quits) }
{
    let others = plan_shown(by, shown)?;
    let first = plan_own(by, own, quits)?;
    Ok(PutQueue::new(first, others))
}

/// Plans what a verdict on a record tells, and makes room for those who miss it.
fn with_room(
    by: &Planning<'_>,
    label: Option<Octets>,
    verdict: Verdict,
    quits: bool,
) -> Result<Prepared, AllocError>
    ensures deeds { IfOk result (λ p. p.deeds.items ≡ verdict.deeds.items) }
    ensures plan { IfOk result (λ p. p.plan ≡ planned_with by.now.seats.now by.now.actor
        by.now.number (text_as (caps by.now.roster.now.facts by.now.actor) by.now.moment
        (whole_answer by.now.roster.now.settings.server label
        by.now.number verdict.reply.items verdict.copies.items))
        (heard_text by.now.roster.now.facts by.now.moment verdict.others.items) quits) }
    ensures missed { IfOk result
        (λ p. (p.missed.items ≡ []) × (length p.plan ≤ p.missed.capacity)) }
{
    let Verdict {
        deeds,
        reply,
        copies,
        others,
    } = verdict;
    let own = own_text(by, label, reply, &copies)?;
    let plan = plan_for(by, own, others, quits)?;
    let missed = SmallVec::with_capacity(by.alloc, plan.len())?;
    Ok(Prepared {
        deeds,
        plan,
        missed,
    })
}

/// The label of a line as it counts for the actor, by the capabilities that it has before the line.
fn counted_label(by: &Planning<'_>, label: &Option<Octets>) -> Result<Option<Octets>, AllocError>
    ensures { IfOk result
        (λ l. l ≡ label_for (caps by.now.roster.now.facts by.now.actor) label.now) }
{
    match label {
        Some(label) if takes_labels(by.roster.caps_of(by.actor)) => Ok(Some(label.clone()?)),
        _ => Ok(None),
    }
}

/// Decides what a line of a session does, and plans its deliveries.
pub(crate) fn prepare_line(
    by: &Planning<'_>,
    line: &ReadLine,
) -> Result<(Prepared, bool), AllocError>
    requires known { IsOpened by.now.roster.now.facts by.now.actor }
    ensures deeds { IfOk result (λ p. p.0.deeds.items ≡ deeds_of (of_asked
        by.now.roster.now.settings by.now.roster.now.facts by.now.actor (asked_of line.now))) }
    ensures next { IfOk result (λ p. AreNext by.now.roster.now.facts p.0.deeds.items) }
    ensures opened { IfOk result (λ p. opened_in (after by.now.roster.now.facts p.0.deeds.items)
        ≡ opened_in by.now.roster.now.facts) }
    ensures quits { IfOk result (λ p. p.1 ≡ is_quit line.now) }
    ensures plan { IfOk result (λ p. p.0.plan ≡ planned_from by.now.seats.now by.now.actor
        by.now.number (octets_for by.now.roster.now.settings by.now.roster.now.facts by.now.actor
        (label_of (caps by.now.roster.now.facts by.now.actor) line.now)
        (of_asked by.now.roster.now.settings by.now.roster.now.facts by.now.actor
        (asked_of line.now)) by.now.moment by.now.number) p.1) }
    ensures missed { IfOk result
        (λ p. (p.0.missed.items ≡ []) × (length p.0.plan ≤ p.0.missed.capacity)) }
{
    let label = counted_label(by, &line.label)?;
    let quits = line.asked.is_quit();
    let verdict = decide(
        by.alloc,
        by.roster,
        by.actor,
        &line.asked,
        by.moment.moment(),
    )?;
    Ok((with_room(by, label, verdict, quits)?, quits))
}

/// Decides what it does that a session is gone, and plans who is told.
pub(crate) fn prepare_gone(by: &Planning<'_>) -> Result<Prepared, AllocError>
    requires known { IsOpened by.now.roster.now.facts by.now.actor }
    ensures deeds { IfOk result
        (λ p. p.deeds.items ≡ deeds_of (departs by.now.roster.now.facts by.now.actor)) }
    ensures next { IfOk result (λ p. AreNext by.now.roster.now.facts p.deeds.items) }
    ensures opened { IfOk result (λ p. opened_in (after by.now.roster.now.facts p.deeds.items)
        ≡ opened_in by.now.roster.now.facts) }
    ensures plan { IfOk result (λ p. p.plan ≡ planned_from by.now.seats.now by.now.actor
        by.now.number (octets_for by.now.roster.now.settings by.now.roster.now.facts by.now.actor
        None
        (departs by.now.roster.now.facts by.now.actor) by.now.moment by.now.number) false) }
    ensures missed { IfOk result
        (λ p. (p.missed.items ≡ []) × (length p.plan ≤ p.missed.capacity)) }
{
    let verdict = decide_gone(by.alloc, by.roster, by.actor)?;
    with_room(by, None, verdict, false)
}

/// Plans that a tick pings these sessions, of whom each stands once, and makes room for those who miss it.
pub(crate) fn prepare_tick(
    by: &Planning<'_>,
    sessions: &[SessionId],
) -> Result<(PutQueue, SmallVec<SessionId, 2>), AllocError>
    ensures plan { IfOk result (λ p. p.0 ≡ planned_with by.now.seats.now by.now.actor
        by.now.number [] (pinged_text by.now.roster.now.settings by.now.roster.now.facts
        by.now.moment sessions.now) false) }
    ensures missed { IfOk result (λ p. (p.1.items ≡ []) × (length p.0 ≤ p.1.capacity)) }
{
    let line = ping(by.alloc, by.roster.settings().server.as_slice())?;
    let mut shown = Vec::new(by.alloc);
    shown.push(ShownLine {
        hearers: Sessions::from_vec(Vec::from_slice(by.alloc, sessions)?),
        line,
    })?;
    let nothing = Octets::from_vec(Vec::new(by.alloc));
    let plan = plan_for(by, nothing, shown, false)?;
    let missed = SmallVec::with_capacity(by.alloc, plan.len())?;
    Ok((plan, missed))
}

/// Establishes the facts of a record, for which room was made. It takes no memory.
pub(crate) fn commit(roster: &mut Roster, deeds: Vec<Deed>)
    requires { roster.old.ready ≡ deeds.items }
    ensures settings { roster.new.settings ≡ roster.old.settings }
    ensures facts { roster.new.facts ≡ after roster.old.facts deeds.items }
{
    for deed in deeds {
        roster.apply(deed);
    }
}
