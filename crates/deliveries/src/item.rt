//! What stands in an outbox.
ghost use Rattle.std.specs.Prelude.{◌≡◌};

use crate::delivery::Delivery;
use chronicle::{Journal, SessionId};
use registration::Settings;
use snapshots::Snapshot;
use std::marker::Model;

/// A delivery and the session that it is for. A clause sees beside these the history in which it is put, and the
/// server's settings.
#[derive(Drop)]
pub struct Item {
    delivery: Delivery,
    session: SessionId,
    front: Snapshot<Journal>,
    settings: Snapshot<Settings>,
}

impl Model for Item {
    ghost use Rattle.deliveries.specs.Shown.{ItemView};

    ghost Value = { ItemView };

    ghost view = { λ x. record {
      delivery = x.delivery;
      session = x.session;
      front = x.front.value.history;
      settings = x.settings.value;
    } };
}

impl Item {
    /// A delivery to a session by this journal, on a server of these settings. It takes no memory.
    pub fn new(
        delivery: Delivery,
        session: SessionId,
        journal: &Journal,
        settings: &Settings,
    ) -> Item
        ensures delivery { result.delivery ≡ delivery }
        ensures session { result.session ≡ session }
        ensures front { result.front ≡ journal.now.history }
        ensures settings { result.settings ≡ settings.now }
    {
        Item {
            delivery,
            session,
            front: Snapshot::of(journal),
            settings: Snapshot::of(settings),
        }
    }

    /// What is delivered.
    pub fn delivery(&self) -> &Delivery
        ensures { result.now ≡ self.now.delivery }
    {
        &self.delivery
    }

    /// The session that it is for.
    pub fn session(&self) -> SessionId
        ensures { result ≡ self.now.session }
    {
        self.session
    }

    /// The delivery alone.
    pub fn into_delivery(self) -> Delivery
        ensures { result ≡ self.delivery }
    {
        self.delivery
    }
}
