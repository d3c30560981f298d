//! What a ledger keeps of the records that it dropped.
//!
//! A roll notes the counts of those sessions alone that are there, in one walk over their outboxes: one that was
//! reaped leaves nothing, and whoever is reaped later takes its counts along. No clause of `roll` shows the base that
//! it makes, since what clauses see of a ledger has none; that it has just those counts is the contract of
//! `note_base`, which is private.
ghost use Rattle.std.specs.Prelude.{◌≡◌, ℕ, Some, None, IfSome, cond, nat_eq};
ghost use Rattle.deeds.specs.Deeds.{facts};
ghost use Rattle.ledger.specs.Noted.{base_by, counts_at, is_noted, AreCounts, Forgets};

use crate::last_heard::Since;
use chronicle::{Journal, Moment, SessionId};
use indexmap::IndexMap;
use roster::Roster;
use snapshots::Snapshot;
use std::marker::Model;

/// How many pieces of a session were accepted, how many deliveries it was owed, and since when it is idle.
#[derive(Clone, Copy)]
pub(crate) struct SessionCounts {
    pub(crate) accepted: u64,
    pub(crate) owed: u64,
    pub(crate) since: Since,
}

/// What is known at the end of the records that were dropped: all that is looked up in them later.
#[derive(Drop)]
pub struct Base {
    roster: Roster,
    /// By the numbers of the sessions that weren't reaped.
    counts: IndexMap<u64, SessionCounts>,
    history: Snapshot<Journal>,
}

impl Model for Base {
    ghost use Rattle.std.specs.Prelude.{◌≡◌};
    ghost use Rattle.deeds.specs.Deeds.{facts};
    ghost use Rattle.ledger.specs.Noted.{Noted, AreCounts};

    ghost Value = { Noted };

    ghost view = { λ a. record {
      front = a.history.value.history;
      settings = a.roster.settings;
      counts = a.counts.entries;
    } };

    ghost invariant = { λ a. (a.roster.facts ≡ facts a.roster.settings a.history.value.history)
        × AreCounts a.roster.settings a.history.value.history a.counts.entries };
}

/// Forgets the counts of a session that is reaped. It takes no memory.
pub(crate) fn forget_counts(base: &mut Option<Base>, session: SessionId)
    ensures { Forgets base.old base.new session }
{
    if let Some(kept) = base {
        kept.forget(session);
    }
}

/// The counts of a session.
fn find_counts(counts: &IndexMap<u64, SessionCounts>, session: SessionId) -> Option<SessionCounts>
    ensures { result ≡ counts_at counts.now.entries session }
{
    match counts.get(&session.number()) {
        Some(found) => Some(*found),
        None => None,
    }
}

impl Base {
    ghost use Rattle.std.specs.Option.{is_some};

    /// What is known at the end of a journal, by a roster that knows it and by counts of its sessions.
    pub(crate) fn new(
        roster: Roster,
        counts: IndexMap<u64, SessionCounts>,
        journal: &Journal,
    ) -> Base
        requires facts { roster.facts ≡ facts roster.settings journal.now.history }
        requires counts { AreCounts roster.settings journal.now.history counts.entries }
        ensures { result ≡ record {
          front = journal.now.history;
          settings = roster.settings;
          counts = counts.entries;
        } }
    {
        Base {
            roster,
            counts,
            history: Snapshot::of(journal),
        }
    }

    /// Forgets the counts of a session.
    fn forget(&mut self, session: SessionId)
        ensures front { self.new.front ≡ self.old.front }
        ensures settings { self.new.settings ≡ self.old.settings }
        ensures counts { (t : ℕ) → counts_at self.new.counts t
            ≡ cond (nat_eq session t) None (counts_at self.old.counts t) }
    {
        self.counts.swap_remove(&session.number());
    }

    /// What is known of sessions and channels.
    pub fn roster(&self) -> &Roster
        ensures facts { result.now.facts ≡ (base_by self.now).facts }
        ensures settings { result.now.settings ≡ self.now.settings }
    {
        &self.roster
    }

    /// How many pieces of a session were accepted. `None` where it was opened later, or is reaped.
    pub fn accepted_count(&self, session: SessionId) -> Option<u64>
        ensures count { IfSome result (λ n. n ≡ (base_by self.now).accepted session) }
        ensures noted { is_some result ≡ is_noted self.now session }
    {
        match find_counts(&self.counts, session) {
            Some(counts) => Some(counts.accepted),
            None => None,
        }
    }

    /// How many deliveries a session was owed. `None` where it was opened later, or is reaped.
    pub fn owed_count(&self, session: SessionId) -> Option<u64>
        ensures count { IfSome result (λ n. n ≡ (base_by self.now).owed session) }
        ensures noted { is_some result ≡ is_noted self.now session }
    {
        match find_counts(&self.counts, session) {
            Some(counts) => Some(counts.owed),
            None => None,
        }
    }
}
