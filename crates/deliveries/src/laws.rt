//! That a history goes on from its base alone, as functions that do nothing.
ghost use Rattle.deliveries.specs.Going.{OwedGoesOn, AcceptedGoesOn, FactsGoOn, NumbersGoOn};
ghost use Rattle.deliveries.specs.Going.{ShutGoesOn, IdleGoesOn, PingedGoesOn};

/// What later records owe follows from them and from the base of the history before them, and comes after what that
/// owed.
pub fn owed_goes_on()
    ensures { OwedGoesOn }
{}

/// The pieces that later records accept come after those that were accepted before.
pub fn accepted_goes_on()
    ensures { AcceptedGoesOn }
{}

/// What is known after later records follows from them and from the base of the history before them.
pub fn facts_go_on()
    ensures { FactsGoOn }
{}

/// Numbers of records and of sessions go on from the base.
pub fn numbers_go_on()
    ensures { NumbersGoOn }
{}

/// Who is shut after later records follows from them and from the base.
pub fn shut_goes_on()
    ensures { ShutGoesOn }
{}

/// Since when a session is idle after later records follows from them and from the base.
pub fn idle_goes_on()
    ensures { IdleGoesOn }
{}

/// Whether a session was pinged since it was heard of follows from later records and from the base.
pub fn pinged_goes_on()
    ensures { PingedGoesOn }
{}
