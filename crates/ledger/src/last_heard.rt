//! When sessions were last heard of.
//!
//! A line moves its session to the front without memory, so those that are idle stand together at the end: a tick
//! reads from there until one isn't idle for long enough. Who was pinged, or is shut, stays in its place and is
//! passed over. The cache is of the kind that gives up what was used longest ago, and is never full.
ghost use Rattle.std.specs.Prelude.{◌≡◌, ◌≢◌, ℕ, ℤ, ◌<◌, pos, ◌+ℤ◌, int_le, ◌∷◌, [], length, slice_index_or};
ghost use Rattle.std.specs.Prelude.{nat_eq, true, false, is_some, Some, None, IfOk, OnOk, OnErr};
ghost use Rattle.std.specs.List.{IsDistinct};
ghost use Rattle.std.specs.Map.{keys_of, remove_entry};
ghost use Rattle.ledger.specs.LastHeard.{since_at, Falls, is_before, is_due, is_overdue, who_pass};
ghost use Rattle.ledger.specs.LastHeard.{with_ping, with_pings, lower, lowest};

use crate::seats::Seats;
use chronicle::{Moment, SessionId};
use lru::LruCache;
use std::alloc::{AllocError, Global};
use std::marker::Model;

/// For how many milliseconds a session may be idle before it is pinged.
const PING_AFTER: u32 = 120_000;

/// For how many milliseconds a session may be idle before it is late.
const LATE_AFTER: u32 = 240_000;

/// Since when a session is idle, and whether it was pinged since.
#[derive(Clone, Copy)]
pub(crate) struct Since {
    pub(crate) moment: Moment,
    pub(crate) pinged: bool,
}

impl Since {
    /// Whether it is at least so many milliseconds before a moment.
    fn is_before(self, span: u32, moment: Moment) -> bool
        ensures { result ≡ is_before self (pos span) moment }
    {
        match self.moment.milliseconds().checked_add(i64::from(span)) {
            Some(end) => end <= moment.milliseconds(),
            None => false,
        }
    }
}

/// The lower of two sessions, where there is one before.
fn lower(best: Option<SessionId>, session: SessionId) -> Option<SessionId>
    ensures { result ≡ lower best session }
{
    match best {
        Some(best) if best.number() <= session.number() => Some(best),
        _ => Some(session),
    }
}

/// Since when each session is idle until it is reaped, by its number: whoever was heard of last stands first.
#[derive(Drop)]
pub(crate) struct LastHeard {
    sessions: LruCache<u64, Since>,
}

impl Model for LastHeard {
    ghost use Rattle.std.specs.Prelude.{◌≡◌, ◌-◌, ◌^◌, ℕ, List};
    ghost use Rattle.ledger.specs.declared.last_heard.Since.{Since};

    ghost Value = { List (ℕ × Since) };

    ghost view = { λ a. a.sessions.entries };

    ghost invariant = { λ a. a.sessions.cap ≡ 2 ^ 64 - 1 };
}

impl LastHeard {
    /// No session.
    pub(crate) fn new(alloc: Global) -> Result<LastHeard, AllocError>
        ensures { IfOk result (λ r. r ≡ []) }
    {
        Ok(LastHeard {
            sessions: LruCache::unbounded(alloc)?,
        })
    }

    /// Since when a session is idle, unless it is reaped.
    pub(crate) fn since(&self, session: SessionId) -> Option<Since>
        ensures { result ≡ since_at self.now session }
    {
        self.sessions.peek(&session.number()).copied()
    }

    /// Notes that a session was opened, which none was before of that number. A refusal changes nothing.
    pub(crate) fn open(&mut self, session: SessionId, moment: Moment) -> Result<(), AllocError>
        requires { since_at self.old session ≡ None }
        ensures ok { OnOk result
            (self.new ≡ (session, record { moment = moment; pinged = false }) ∷ self.old) }
        ensures err { OnErr result (self.new ≡ self.old) }
    {
        prove!(self.sessions.len() < usize::MAX);
        let since = Since {
            moment,
            pinged: false,
        };
        let Ok(_) = self.sessions.put(session.number(), since) else {
            return Err(AllocError);
        };
        Ok(())
    }

    /// Notes that a session was heard of that isn't reaped. It takes no memory.
    pub(crate) fn hear(&mut self, session: SessionId, moment: Moment)
        requires { is_some (since_at self.old session) ≡ true }
        ensures { self.new ≡ (session, record { moment = moment; pinged = false })
            ∷ remove_entry (nat_eq session) self.old }
    {
        let since = Since {
            moment,
            pinged: false,
        };
        let Ok(_) = self.sessions.put(session.number(), since) else {
            return;
        };
    }

    /// Notes that a session was pinged that isn't reaped.
    pub(crate) fn ping(&mut self, session: SessionId)
        requires { is_some (since_at self.old session) ≡ true }
        ensures { self.new ≡ with_ping session self.old }
    {
        let Some(since) = self.sessions.peek_mut(&session.number()) else {
            return;
        };
        since.pinged = true;
    }

    /// Notes that sessions were pinged that aren't reaped.
    pub(crate) fn ping_each(&mut self, sessions: &[SessionId])
        requires { (i : ℕ) → i < length sessions.now
            → is_some (since_at self.old (slice_index_or sessions.now i 0)) ≡ true }
        ensures { self.new ≡ with_pings self.old sessions.now }
    {
        for session in sessions {
            self.ping(*session);
        }
    }

    /// That each session stands once, which takes nothing.
    fn once(&self)
        ensures { IsDistinct nat_eq (keys_of self.now) }
    {
        prove!(self.sessions.len() < usize::MAX);
    }

    /// Forgets a session.
    pub(crate) fn forget(&mut self, session: SessionId)
        ensures rest { self.new ≡ remove_entry (nat_eq session) self.old }
        ensures once { IsDistinct nat_eq (keys_of self.old) }
    {
        self.once();
        let _ = self.sessions.pop(&session.number());
    }

    /// Whether a tick at a moment pings somebody.
    pub(crate) fn is_somebody_due(&self, seats: &Seats, moment: Moment) -> bool
        requires { (latest : ℤ) × Falls latest self.now }
        ensures yes { result ≡ true → who_pass (is_due seats.now moment) self.now ≢ [] }
        ensures no { result ≡ false → who_pass (is_due seats.now moment) self.now ≡ [] }
        ensures once { IsDistinct nat_eq (keys_of self.now) }
    {
        self.once();
        let mut rest = self.sessions.iter();
        while let Some((number, since)) = rest.next_back() {
            if !since.is_before(PING_AFTER, moment) {
                return false;
            }
            if seats.is_listening(SessionId::new(*number)) && !since.pinged {
                return true;
            }
        }
        false
    }

    /// Whom a tick at a moment pings: who was heard of longest ago first.
    pub(crate) fn due(
        &self,
        alloc: Global,
        seats: &Seats,
        moment: Moment,
    ) -> Result<Vec<SessionId>, AllocError>
        requires { (latest : ℤ) × Falls latest self.now }
        ensures due { IfOk result (λ v. v.items ≡ who_pass (is_due seats.now moment) self.now) }
        ensures once { IsDistinct nat_eq (keys_of self.now) }
    {
        self.once();
        let mut due = Vec::new(alloc);
        let mut rest = self.sessions.iter();
        while let Some((number, since)) = rest.next_back() {
            if !since.is_before(PING_AFTER, moment) {
                return Ok(due);
            }
            let session = SessionId::new(*number);
            if seats.is_listening(session) && !since.pinged {
                due.push(session)?;
            }
        }
        Ok(due)
    }

    /// The late session of the lowest number.
    pub(crate) fn late(&self, seats: &Seats, moment: Moment) -> Option<SessionId>
        requires { (latest : ℤ) × Falls latest self.now }
        ensures late { result ≡ lowest (who_pass (is_overdue seats.now moment) self.now) }
        ensures once { IsDistinct nat_eq (keys_of self.now) }
    {
        self.once();
        let mut late = None;
        let mut rest = self.sessions.iter();
        while let Some((number, since)) = rest.next_back() {
            if !since.is_before(LATE_AFTER, moment) {
                return late;
            }
            let session = SessionId::new(*number);
            if seats.is_listening(session) {
                late = lower(late, session);
            }
        }
        late
    }
}
