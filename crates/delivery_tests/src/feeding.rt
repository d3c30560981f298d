//! A history whose deliveries are put into an outbox one after another.
ghost use Rattle.std.specs.Prelude.{◌≡◌, ◌+◌, [], ◌∷◌, None, pos, IfOk, IfSome, OnErr, slice_get};
ghost use Rattle.outbox.specs.Ring.{with_taken};
ghost use Rattle.chronicle.specs.Journal.{fresh_record};
ghost use Rattle.delivery_tests.specs.Fed.{opens, says, next, server_name};

use chronicle::{Journal, Kind, Moment, RecordNumber, SessionId};
use deliveries::{Delivery, Item, Text};
use line_grammar::{Octets, Piece};
use outbox::{Outbox, PutFault, Ring};
use registration::{Accounts, Settings};
use std::alloc::{AllocError, Global};
use std::marker::Model;

const SERVER: &[u8; 11] = b"irc.example";

/// What a session is told that says a line which is too long.
const TOLD: &[u8; 45] = b":irc.example 417 * :Input line was too long\r\n";

/// An outbox, and the journal by which deliveries were put into it: of its newest record none was put yet. A clause
/// sees the outbox and how many were put.
#[derive(Drop)]
pub(crate) struct Feed<O: Outbox> {
    outbox: O,
    settings: Settings,
    journal: Journal,
    count: u64,
}

impl<O: Outbox> Model for Feed<O> {
    ghost use Rattle.std.specs.Prelude.{ℕ};
    ghost use Rattle.delivery_tests.specs.Fed.{IsReady};

    ghost Value = { O × ℕ };

    ghost view = { λ a. (a.outbox, a.count) };

    ghost invariant = { λ a. IsReady (O.sent a.outbox) a.settings a.journal.history a.count };
}

/// The line that is too long.
fn line() -> Kind
    ensures { result ≡ says }
{
    Kind::Said {
        session: SessionId::new(1),
        index: 0,
        piece: Piece::TooLong,
    }
}

/// A server's settings.
fn settings(alloc: Global) -> Result<Settings, AllocError>
    ensures { IfOk result (λ g. g.server ≡ server_name) }
{
    Ok(Settings {
        server: Octets::copy_of(alloc, SERVER)?,
        info: Octets::from_vec(Vec::new(alloc)),
        version: Octets::from_vec(Vec::new(alloc)),
        created: Moment::new(0),
        motd: None,
        accounts: Accounts::new(alloc),
        sessions: 1,
    })
}

/// A journal in which session 1 was opened, and then said the line.
fn new_journal(alloc: Global) -> Result<Journal, AllocError>
    ensures { IfOk result (λ j. j.history ≡ next (fresh_record [] (pos 0) opens ∷ [])) }
{
    let mut journal = Journal::with_limit(alloc, usize::MAX)?;
    journal.reserve(2, 0).map_err(|_| AllocError)?;
    let opens = Kind::Opened {
        session: SessionId::new(1),
        host: Octets::from_vec(Vec::new(alloc)),
    };
    journal.append(Moment::new(0), opens);
    journal.append(Moment::new(0), line());
    Ok(journal)
}

impl<O: Outbox> Feed<O> {
    /// Begins with an outbox into which nothing was put.
    pub(crate) fn new(alloc: Global, outbox: O) -> Result<Feed<O>, AllocError>
        requires { O.sent outbox ≡ [] }
        ensures { IfOk result (λ f. f ≡ (outbox, 0)) }
    {
        let settings = settings(alloc)?;
        let journal = new_journal(alloc)?;
        Ok(Feed {
            outbox,
            settings,
            journal,
            count: 0,
        })
    }

    /// How many deliveries were put.
    pub(crate) fn count(&self) -> u64
        ensures { result ≡ self.now.1 }
    {
        self.count
    }

    /// The outbox.
    pub(crate) fn outbox(&self) -> &O
        ensures { result.now ≡ self.now.0 }
    {
        &self.outbox
    }

    /// The outbox alone.
    pub(crate) fn into_outbox(self) -> O
        ensures { result ≡ self.0 }
    {
        self.outbox
    }

    /// Puts the next delivery, whose number is two more than how many were put. It answers why it wasn't put: full
    /// also where no number is left.
    pub(crate) fn feed(&mut self, alloc: Global) -> Result<Option<PutFault>, AllocError>
        ensures name { IfOk result (λ _. O.name self.new.0 ≡ O.name self.old.0) }
        ensures put { IfOk result (λ fault. fault ≡ None → self.new.1 ≡ self.old.1 + 1) }
        ensures refused { IfOk result (λ fault. IfSome fault (λ _. self.new ≡ self.old)) }
        ensures memory { OnErr result (self.new ≡ self.old) }
    {
        let Some(number) = self.count.checked_add(2) else {
            return Ok(Some(PutFault::Full));
        };
        let delivery = Delivery::Lines {
            number: RecordNumber::new(number),
            text: Text::new(alloc, Octets::copy_of(alloc, TOLD)?)?,
        };
        self.journal.reserve(1, 0).map_err(|_| AllocError)?;
        let item = Item::new(delivery, SessionId::new(1), &self.journal, &self.settings);
        match self.outbox.put(item) {
            Ok(()) => {
                self.journal.append(Moment::new(0), line());
                self.count += 1;
                Ok(None)
            }
            Err((fault, _)) => Ok(Some(fault)),
        }
    }
}

impl Feed<Ring> {
    /// Takes the item that waits longest.
    pub(crate) fn take(&mut self) -> Option<Item>
        ensures value { result ≡ slice_get self.old.0.queue 0 }
        ensures taken { self.new ≡ (with_taken self.old.0, self.old.1) }
    {
        self.outbox.take_now()
    }
}

/// The number of the record whose lines an item delivers.
pub(crate) fn number_of(item: &Item) -> Option<u64> {
    match item.delivery() {
        Delivery::Lines { number, text } if text.as_slice() == TOLD.as_slice() => {
            Some(number.number())
        }
        _ => None,
    }
}
