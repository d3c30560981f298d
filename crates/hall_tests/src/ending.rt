//! Ends: who is hung, who is swept, and who is given up.
use crate::guests::{Ends, Guest, are_missed, look};
use crate::stage::{Stage, place};
use book::{Baton, Done, Hall, HangRefusal, Naming, ReapRefusal, StableName, SweepRefusal};
use chronicle::Why;
use std::mem;

/// Whether a sweep ended one who is shut, and just these missed its record, or there was nobody to sweep where these
/// are nothing; or why it was refused.
fn swept(
    answer: Result<Option<Done>, SweepRefusal>,
    missed: Option<&[u64]>,
) -> Result<bool, SweepRefusal> {
    match answer {
        Ok(Some(done)) => match missed {
            Some(missed) => Ok(done.shut && are_missed(&done, missed)),
            None => Ok(false),
        },
        Ok(None) => Ok(missed.is_none()),
        Err(refusal) => Err(refusal),
    }
}

/// Gives up a session by its baton and what is held of it or of another besides. It answers how many items were left,
/// or why it isn't given up.
fn reap_one<L: Naming, O: StableName<Taker = T>, T: Drop>(
    hall: &mut Hall<L, O>,
    baton: Baton<L, O>,
    ends: Ends<L, O, T>,
) -> Result<u64, (ReapRefusal, Guest<L, O, T>)> {
    let Ends { stub, taker } = ends;
    match hall.reap(baton, stub, taker) {
        Ok(left) => Ok(left.count()),
        Err((refusal, baton, stub, taker)) => {
            let ends = Ends { stub, taker };
            Err((refusal, Guest { baton, ends }))
        }
    }
}

/// Gives up a session, or tells why it isn't given up; then it is held as before.
pub(crate) fn gives_up<L: Naming, O: StableName<Taker = T>, T: Drop>(
    hall: &mut Hall<L, O>,
    held: &mut Option<Guest<L, O, T>>,
) -> Option<Result<u64, ReapRefusal>> {
    match held.take() {
        Some(guest) => match reap_one(hall, guest.baton, guest.ends) {
            Ok(left) => Some(Ok(left)),
            Err((refusal, guest)) => {
                *held = Some(guest);
                Some(Err(refusal))
            }
        },
        None => None,
    }
}

/// Each of two has what is held of the other besides its baton, if both are there.
fn swap_takers<L: Naming, O: StableName<Taker = T>, T: Drop>(
    one: &mut Option<Guest<L, O, T>>,
    other: &mut Option<Guest<L, O, T>>,
) -> bool {
    match one {
        Some(one) => match other {
            Some(other) => {
                mem::swap(&mut one.ends, &mut other.ends);
                true
            }
            None => false,
        },
        None => false,
    }
}

impl<L: Naming, O: StableName<Taker = T>, T: Drop> Stage<L, O, T> {
    /// Whether a session is hung, and misses its last item or doesn't.
    pub(crate) fn is_hung(
        &mut self,
        hall: &mut Hall<L, O>,
        session: u64,
        why: Why,
        missed: bool,
    ) -> bool {
        match hall.hang(self.id(session), why, self.moment()) {
            Ok(hung) => hung.missed == missed,
            Err(_) => false,
        }
    }

    /// Whether a session is hung, which is listed.
    pub(crate) fn hang_tells(&mut self, hall: &mut Hall<L, O>, session: u64) -> bool {
        self.flushes.begin();
        let (session, moment) = (self.id(session), self.moment());
        hall.hang_with_flushes(session, Why::Shutdown, moment, &mut self.flushes)
            .is_ok()
    }

    /// Whether one session is swept, and just these miss that; or, where these are nothing, nobody is to be swept.
    /// Where a growth is refused the hall answers as before, and sweeps then.
    pub(crate) fn sweeps(&mut self, hall: &mut Hall<L, O>, missed: Option<&[u64]>) -> bool {
        let before = look(hall);
        match swept(hall.sweep(self.moment()), missed) {
            Err(SweepRefusal::Memory) if look(hall) == before => {
                swept(hall.sweep(self.moment()), missed) == Ok(true)
            }
            answer => answer == Ok(true),
        }
    }

    /// Whether one session is swept. Who sees it leave is listed.
    fn sweep_tells_once(&mut self, hall: &mut Hall<L, O>) -> bool {
        let moment = self.moment();
        matches!(
            hall.sweep_with_flushes(moment, &mut self.flushes),
            Ok(Some(_))
        )
    }

    /// The same, once more where a growth was refused.
    pub(crate) fn sweep_tells(&mut self, hall: &mut Hall<L, O>) -> bool {
        self.flushes.begin();
        self.sweep_tells_once(hall) || self.sweep_tells_once(hall)
    }

    /// Whether a session is given up, and so many items are left for it.
    pub(crate) fn leaves(&mut self, hall: &mut Hall<L, O>, session: u64, left: u64) -> bool {
        match self.guests.get_mut(place(session)) {
            Some(held) => gives_up(hall, held) == Some(Ok(left)),
            None => false,
        }
    }

    /// Whether a session isn't given up, for this reason.
    pub(crate) fn stays(&mut self, hall: &mut Hall<L, O>, session: u64, why: ReapRefusal) -> bool {
        match self.guests.get_mut(place(session)) {
            Some(held) => gives_up(hall, held) == Some(Err(why)),
            None => false,
        }
    }

    /// The first two have what is held of the other besides its baton.
    pub(crate) fn swap(&mut self) -> bool {
        match self.guests.as_mut_slice() {
            [one, other, ..] => swap_takers(one, other),
            _ => false,
        }
    }

    /// Whether a session that was given up isn't there any more.
    pub(crate) fn is_away(&mut self, hall: &mut Hall<L, O>, session: u64) -> bool {
        let hung = hall.hang(self.id(session), Why::Shutdown, self.moment());
        hung == Err(HangRefusal::NoSession) && !hall.is_open(self.id(session))
    }
}
