//! Ticks: sessions that are idle are pinged, and those that are late are found.
//!
//! A tick is a record of no session, so its plan has session 0, which nobody has. It looks for somebody to ping before
//! it asks for room or memory, so a server where nobody is idle ticks in a full journal. Whom it pings goes by
//! moments, which facts don't have.
ghost use Rattle.std.specs.Prelude.{◌≡◌, ◌≢◌, ◌<◌, ◌≤◌, ◌+◌, [], Some, None, true, false};
ghost use Rattle.std.specs.Prelude.{length, IfOk, IfErr, IfSome, OnOk, OnErr};
ghost use Rattle.chronicle.specs.declared.record.Kind.TheVariants as kind;

use crate::ledger::{Ledger, reserve};
use crate::outcomes::Plan;
use crate::plan::{Planning, moment_of_record, prepare_tick};
use crate::refusals::TickRefusal;
use chronicle::{Kind, Moment, RecordNumber, SessionId};
use outbox::Outbox;
use std::alloc::AllocError;

impl<O: Outbox> Ledger<O> {
    ghost use Rattle.ledger.specs.Ledger.{after_begin, after_end, IsDone, IsOut, newest_missed, MayTick};
    ghost use Rattle.ledger.specs.Ledger.{IsTickRefusal, IsSomebodyIdle, HasRoom, to_ping, late};

    /// Begins a tick: each session that isn't shut, was idle for at least 120,000 milliseconds at the moment, and
    /// wasn't pinged since it was heard of, is sent a PING. Its record is appended, and a plan is handed out. It
    /// answers `None` where there is no such session. All memory is taken here; a refusal changes nothing.
    pub fn begin_tick(&mut self, moment: Moment) -> Result<Option<Plan>, TickRefusal>
        ensures some { IfOk result
            (λ o. IfSome o (λ p. (self.new ≡ after_begin self.old kind.Ticked moment)
            × IsOut self.new p
            × (p.session ≡ 0) × (p.next ≡ None))) }
        ensures idle { IfOk result
            (λ o. IfSome o (λ p. IsSomebodyIdle self.old moment × HasRoom self.old)) }
        ensures none { IfOk result
            (λ o. o ≡ None → (to_ping self.old.history moment ≡ []) × (self.new ≡ self.old)) }
        ensures may { OnOk result (MayTick self.old moment) }
        ensures refusal { IfErr result (λ e. IsTickRefusal self.old moment e) }
        ensures err { OnErr result (self.new ≡ self.old) }
    {
        if !self.may_tick(moment)? {
            return Ok(None);
        }
        Ok(Some(self.ping_all(moment)?))
    }

    /// Whether a tick at a moment pings somebody, or why there may be none: what `begin_tick` would answer, want of
    /// memory apart. It takes no memory.
    pub fn may_tick(&self, moment: Moment) -> Result<bool, TickRefusal>
        ensures some { IfOk result
            (λ b. b ≡ true → IsSomebodyIdle self.now moment × HasRoom self.now) }
        ensures none { IfOk result (λ b. b ≡ false → to_ping self.now.history moment ≡ []) }
        ensures may { OnOk result (MayTick self.now moment) }
        ensures refusal { IfErr result (λ e. IsTickRefusal self.now moment e) }
        ensures no_memory { IfErr result (λ e. e ≢ TickRefusal.Memory) }
    {
        let free = self.free();
        if self.busy {
            return Err(TickRefusal::Busy);
        }
        if !moment.may_follow(self.journal.last_moment()) {
            return Err(TickRefusal::BadMoment);
        }
        if !self.is_somebody_idle(moment) {
            return Ok(false);
        }
        if free < 1 {
            return Err(TickRefusal::JournalFull);
        }
        Ok(true)
    }

    /// Whether a tick at a moment pings somebody.
    fn is_somebody_idle(&self, moment: Moment) -> bool
        ensures yes { result ≡ true → IsSomebodyIdle self.now moment }
        ensures no { result ≡ false → to_ping self.now.history moment ≡ [] }
    {
        self.last_heard.is_somebody_due(&self.seats, moment)
    }

    /// Begins a tick that pings somebody.
    fn ping_all(&mut self, moment: Moment) -> Result<Plan, AllocError>
        requires may { MayTick self.old moment }
        requires room { HasRoom self.old }
        ensures ok { OnOk result (self.new ≡ after_begin self.old kind.Ticked moment) }
        ensures out { IfOk result (λ p. IsOut self.new p) }
        ensures tick { IfOk result (λ p. (p.session ≡ 0) × (p.next ≡ None)) }
        ensures err { OnErr result (self.new ≡ self.old) }
    {
        let room = self.reserve_count() + 1;
        let number = RecordNumber::new(self.journal.newest() as u64 + 1);
        let nobody = SessionId::new(0);
        let due = self.last_heard.due(self.alloc, &self.seats, moment)?;
        let by = Planning {
            alloc: self.alloc,
            roster: &self.roster,
            seats: &self.seats,
            actor: nobody,
            number,
            moment: moment_of_record(moment),
        };
        let (plan, missed) = prepare_tick(&by, &due)?;
        reserve(&mut self.journal, room, plan.len())?;
        self.journal.append(moment, Kind::Ticked);
        self.last_heard.ping_each(&due);
        self.plan = plan;
        self.busy = true;
        Ok(Plan {
            number,
            session: nobody,
            next: None,
            missed,
        })
    }

    /// The session of the lowest number that isn't shut and was idle for at least 240,000 milliseconds at a moment.
    /// It takes no memory.
    pub fn late(&self, moment: Moment) -> Option<SessionId>
        ensures { result ≡ late self.now.history moment }
    {
        self.last_heard.late(&self.seats, moment)
    }
}
