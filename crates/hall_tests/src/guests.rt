//! Sessions, each with all that is held of it.
ghost use Rattle.std.specs.Prelude.{◌≡◌, ◌<◌, [], IfOk, IfSome, IfErr, Some, true};
ghost use Rattle.casemapping.specs.Names.{host_shape};

use crate::again::copy_of;
use book::{Baton, Done, Hall, LineRefusal, Naming, OpenRefusal, Outbox, Ring, StableName, Stub};
use casemapping::is_host;
use chronicle::{Kind, Moment, RecordNumber, SessionId};
use deliveries::Item;
use line_grammar::{Octets, Piece};
use outbox::{Sender, Writer, pair};
use std::alloc::{AllocError, Global};
use std::sync::Wait;

/// An outbox that stories make.
pub(crate) trait Made<R, T>: StableName<Taker = T> {
    ghost use Rattle.std.specs.Prelude.{◌≡◌, ◌<◌, [], IfOk};

    /// An empty outbox for so many items, and what takes them.
    fn make(rt: &R, alloc: Global, cap: usize) -> Result<(Self, T), AllocError>
        requires { 0 < cap }
        ensures fresh { IfOk result (λ p. Self.sent p.0 ≡ []) }
        ensures own { IfOk result (λ p. Self.name p.0 ≡ Self.taker_of p.1) };

    /// Takes an item. Where none is there, it is waited for or it isn't. Of a ring nobody takes.
    fn take(rt: &R, taker: &mut T, waits: bool) -> Option<Item>
        ensures { Self.taker_of taker.new ≡ Self.taker_of taker.old };
}

impl<R> Made<R, ()> for Ring {
    fn make(_rt: &R, alloc: Global, cap: usize) -> Result<(Ring, ()), AllocError> {
        Ok((Ring::new(alloc, cap)?, ()))
    }

    fn take(_rt: &R, _taker: &mut (), _waits: bool) -> Option<Item> {
        None
    }
}

impl<R: Wait + Drop + Copy> Made<R, Writer> for Sender<R> {
    fn make(rt: &R, alloc: Global, cap: usize) -> Result<(Sender<R>, Writer), AllocError> {
        pair(*rt, alloc, cap)
    }

    fn take(rt: &R, taker: &mut Writer, waits: bool) -> Option<Item> {
        if waits {
            taker.take(rt).ok()
        } else {
            taker.take_now(rt).ok()
        }
    }
}

/// An empty outbox for so many items, and what takes them. It is made once more where a growth was refused.
fn outbox_of<O: Made<R, T>, R, T>(rt: &R, alloc: Global, cap: usize) -> Option<(O, T)>
    requires { 0 < cap }
    ensures fresh { IfSome result (λ p. O.sent p.0 ≡ []) }
    ensures own { IfSome result (λ p. O.name p.0 ≡ O.taker_of p.1) }
{
    match O::make(rt, alloc, cap) {
        Ok(made) => Some(made),
        Err(_) => O::make(rt, alloc, cap).ok(),
    }
}

/// A session's stub, and what takes its items: that of the outbox for which the stub was given.
#[derive(Drop)]
pub(crate) struct Ends<L: Naming, O: StableName<Taker = T>, T: Drop> {
    pub(crate) stub: Stub<L, O::Name>,
    pub(crate) taker: T,
    ghost own: { stub.outbox ≡ Some (O.taker_of taker) },
}

/// All that is held of a session.
#[derive(Drop)]
pub(crate) struct Guest<L: Naming, O: StableName<Taker = T>, T: Drop> {
    pub(crate) baton: Baton<L, O>,
    pub(crate) ends: Ends<L, O, T>,
}

/// What a hall tells who asks it: how many records there are, and whether each of two sessions is open.
#[derive(Clone, Copy, PartialEq)]
pub(crate) struct Seen {
    records: usize,
    first: bool,
    second: bool,
}

/// What a hall tells now.
pub(crate) fn look<L: Naming, O: StableName>(hall: &Hall<L, O>) -> Seen {
    Seen {
        records: hall.len(),
        first: hall.is_open(SessionId::new(1)),
        second: hall.is_open(SessionId::new(2)),
    }
}

/// A host, once more where a growth was refused.
fn host(alloc: Global) -> Option<Octets>
    ensures { IfSome result (λ h. host_shape h ≡ true) }
{
    match copy_of(alloc, b"h1") {
        Ok(host) if is_host(host.as_slice()) => Some(host),
        _ => None,
    }
}

type Opened<L, O> = (SessionId, Baton<L, O>, Stub<L, <O as Outbox>::Name>);

/// Opens a session.
fn opened_once<L: Naming, O: StableName>(
    alloc: Global,
    hall: &mut Hall<L, O>,
    outbox: O,
    moment: Moment,
) -> Result<Opened<L, O>, (OpenRefusal, O)>
    requires fresh { O.sent outbox ≡ [] }
    ensures stub { IfOk result (λ t. t.2.outbox ≡ Some (O.name outbox)) }
    ensures back { IfErr result (λ e. e.1 ≡ outbox) }
{
    match host(alloc) {
        Some(host) => hall.open(host, moment, outbox),
        None => Err((OpenRefusal::Busy, outbox)),
    }
}

/// Opens a session. Where a growth is refused the hall answers as before, and opens it with the outbox that came back.
fn opened<L: Naming, O: StableName>(
    alloc: Global,
    hall: &mut Hall<L, O>,
    outbox: O,
    moment: Moment,
) -> Result<Opened<L, O>, (OpenRefusal, O)>
    requires fresh { O.sent outbox ≡ [] }
    ensures stub { IfOk result (λ t. t.2.outbox ≡ Some (O.name outbox)) }
    ensures back { IfErr result (λ e. e.1 ≡ outbox) }
{
    let before = look(hall);
    match opened_once(alloc, hall, outbox, moment) {
        Err((OpenRefusal::Memory, outbox)) if look(hall) == before => {
            opened_once(alloc, hall, outbox, moment)
        }
        answer => answer,
    }
}

/// Opens a session at a moment, with an outbox for so many items.
pub(crate) fn enter<L: Naming, O: Made<R, T>, R, T: Drop>(
    rt: &R,
    alloc: Global,
    hall: &mut Hall<L, O>,
    cap: usize,
    moment: Moment,
) -> Option<Guest<L, O, T>> {
    if cap == 0 {
        return None;
    }
    let (outbox, taker) = outbox_of(rt, alloc, cap)?;
    match opened(alloc, hall, outbox, moment) {
        Ok((_, baton, stub)) => Some(Guest {
            baton,
            ends: Ends { stub, taker },
        }),
        Err(_) => None,
    }
}

/// Whether no session is opened, for this reason, and nothing was put into the outbox that comes back.
pub(crate) fn is_turned_away<L: Naming, O: Made<R, T>, R, T: Drop>(
    rt: &R,
    alloc: Global,
    hall: &mut Hall<L, O>,
    refusal: OpenRefusal,
) -> bool {
    let Some((outbox, taker)) = outbox_of::<O, R, T>(rt, alloc, 4) else {
        return false;
    };
    match opened(alloc, hall, outbox, Moment::new(0)) {
        Ok(_) => false,
        Err((other, outbox)) => outbox.close(taker) == 0 && other == refusal,
    }
}

/// Whether these sessions have these numbers.
pub(crate) fn have_numbers(sessions: &[SessionId], numbers: &[u64]) -> bool {
    let mut is_right = sessions.len() == numbers.len();
    for (session, number) in sessions.iter().zip(numbers) {
        is_right = session.number() == *number && is_right;
    }
    is_right
}

/// Whether just these sessions missed a record.
pub(crate) fn are_missed(done: &Done, missed: &[u64]) -> bool {
    have_numbers(done.missed.as_slice(), missed)
}

/// Whether a record says this piece of a session.
pub(crate) fn is_said<L: Naming, O: StableName>(
    hall: &Hall<L, O>,
    number: u64,
    by: SessionId,
    said: &Piece,
) -> bool {
    match hall.record(RecordNumber::new(number)) {
        Some(record) => match &record.kind {
            Kind::Said { session, piece, .. } => *session == by && piece == said,
            _ => false,
        },
        None => false,
    }
}

impl<L: Naming, O: StableName<Taker = T>, T: Drop> Guest<L, O, T> {
    /// What a line is answered: the number of its record, and whether just these miss that, or why there is none.
    pub(crate) fn answer_once(
        &mut self,
        hall: &mut Hall<L, O>,
        piece: &Piece,
        moment: Moment,
        missed: &[u64],
    ) -> Result<(u64, bool), LineRefusal> {
        match hall.line(&mut self.baton, piece, moment) {
            Ok(done) => Ok((done.number.number(), are_missed(&done, missed))),
            Err(refusal) => Err(refusal),
        }
    }

    /// What a line is answered. Where a growth is refused the hall answers as before, and the line is said once more.
    pub(crate) fn answer(
        &mut self,
        hall: &mut Hall<L, O>,
        piece: &Piece,
        moment: Moment,
        missed: &[u64],
    ) -> Result<(u64, bool), LineRefusal> {
        let before = look(hall);
        match self.answer_once(hall, piece, moment, missed) {
            Err(LineRefusal::Memory) if look(hall) == before => {
                self.answer_once(hall, piece, moment, missed)
            }
            answer => answer,
        }
    }
}
