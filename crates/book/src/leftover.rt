//! What a session left.
ghost use Rattle.std.specs.Prelude.{◌≡◌};

use chronicle::SessionId;
use register::Naming;
use std::marker::{Model, PhantomData};

/// A session that was given up, and how many items were left in its outbox. It is made by `reap` alone.
#[derive(Drop)]
pub struct Left<L: Naming> {
    pub(crate) left: ledger::Reaped,
    pub(crate) of: PhantomData<L>,
}

impl<L: Naming> Model for Left<L> {
    ghost use Rattle.ledger.specs.declared.outcomes.Reaped.{Reaped as Given};

    ghost Value = { Given };

    ghost view = { λ a. a.left };
}

impl<L: Naming> Left<L> {
    /// The session.
    pub fn session(&self) -> SessionId
        ensures { result ≡ self.now.session }
    {
        self.left.session
    }

    /// How many items were left in its outbox.
    pub fn count(&self) -> u64
        ensures { result ≡ self.now.count }
    {
        self.left.count
    }
}
