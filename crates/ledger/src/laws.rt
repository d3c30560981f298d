//! What follows for a ledger of rings, as functions that do nothing.
ghost use Rattle.std.specs.Prelude.{◌≡◌, ℤ, Option};
ghost use Rattle.chronicle.specs.declared.record.Kind.{Kind};
ghost use Rattle.outbox.specs.Ring.{Waiting, accepts, refuses};
ghost use Rattle.ledger.specs.declared.outcomes.Step.{Step};
ghost use Rattle.ledger.specs.Ledger.{Shown, IsPutNext, IsDone, put_next, after_all};
ghost use Rattle.ledger.specs.RingAnswers.{told_of};

/// A delivery is put where its ring has room, and missed where it has none.
pub fn rings_take_what_fits()
    ensures { (m k : Shown Waiting) → (step : Option Step)
        → IsPutNext accepts refuses m m.plan step k → (step ≡ told_of m m.plan)
        × (k ≡ put_next m m.plan) }
{}

/// What a record does to a ledger of rings is known beforehand.
pub fn rings_take_each_record()
    ensures { (m k : Shown Waiting) → (kind : Kind) → (moment : ℤ)
        → IsDone accepts refuses m kind moment k → k ≡ after_all m kind moment }
{}
