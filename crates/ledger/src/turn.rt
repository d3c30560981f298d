//! Whose line is next.
ghost use Rattle.std.specs.Prelude.{◌≡◌, ◌+◌, Some};

use crate::outcomes::Plan;
use chronicle::SessionId;
use std::marker::Model;

/// Whose line is next, and which: a session has one turn. It is made by `Ledger::open` alone.
#[derive(Drop)]
pub struct Turn {
    pub(crate) session: SessionId,
    pub(crate) next: u64,
}

impl Model for Turn {
    ghost use Rattle.ledger.specs.Ledger.{Turn};

    ghost Value = { Turn };

    ghost view = { λ a. record { session = a.session; next = a.next } };
}

impl Turn {
    /// Its session.
    pub fn session(&self) -> SessionId
        ensures { result ≡ self.now.session }
    {
        self.session
    }

    /// Goes on to the next line, as the plan of this one is given back.
    pub fn go_on(&mut self, plan: &Plan)
        requires line { (plan.now.session ≡ self.old.session)
            × (plan.now.next ≡ Some (self.old.next + 1)) }
        ensures { self.new ≡ record { session = self.old.session; next = self.old.next + 1 } }
    {
        if let Some(next) = plan.next {
            self.next = next;
        }
    }
}
