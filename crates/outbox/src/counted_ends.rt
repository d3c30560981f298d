//! The two ends of a ruled channel, with what nothing but the channel's own answers changes. They know nothing of the
//! channel's rule, so only the channel can tell them what it holds.
ghost use Rattle.std.specs.Prelude.{◌≡◌, ◌+◌, true, None, Some, OnOk, IfErr, MatchResult};
ghost use Rattle.crossbeam_channel.specs.Claims.{view, IsSeatAt};
ghost use Rattle.crossbeam_channel.specs.Ends.{sends_on, receives_on, ruled_capacity};
ghost use Rattle.crossbeam_channel.specs.Fifo.{Pushes, Pops, Learns, Held};

use crossbeam_channel::protocol::{Lesson, Outcome, Protocol};
use crossbeam_channel::{Pass, RecvError, RuledReceiver, RuledSender, TryRecvError, TrySendError};
use snapshots::{GhostChange, Snapshot, apply};
use std::marker::Model;
use std::sync::Wait;

// The channel was found empty once more.
struct Empties;

impl GhostChange<u64, ()> for Empties {
    ghost use Rattle.std.specs.Prelude.{◌+◌};

    ghost changed = { λ n x. n + 1 };
}

/// The end that takes. How often the channel answered that it is empty exists for clauses alone, and nothing but its
/// answers changes that.
#[derive(Drop)]
pub(crate) struct CountedReceiver<T: Drop, V, P: Protocol<T, V>> {
    receiver: RuledReceiver<T, V, P>,
    pass: Pass<T, V>,
    empties: Snapshot<u64>,
}

impl<T: Drop, V, P: Protocol<T, V>> CountedReceiver<T, V, P> {
    /// An end that wasn't asked yet.
    pub(crate) fn new(
        receiver: RuledReceiver<T, V, P>,
        pass: Pass<T, V>,
    ) -> CountedReceiver<T, V, P>
        ensures receiver { result.receiver ≡ receiver }
        ensures pass { result.pass ≡ pass }
    {
        CountedReceiver {
            receiver,
            pass,
            empties: Snapshot::of(&0),
        }
    }

    /// Takes the message that waits longest, and waits for one where there is none.
    pub(crate) fn take<M: Outcome<T, V> + Lesson<T, V>, R: Wait>(
        &mut self,
        rt: &R,
    ) -> Result<T, RecvError>
        requires seat { IsSeatAt (receives_on self.old.receiver) self.old.pass }
        requires rule { Pops P.holds self.old.pass.id (view self.old.pass)
            (M.then (view self.old.pass))
            × Learns P.holds self.old.pass.id (view self.old.pass) (M.fact (view self.old.pass)) }
        ensures receiver { self.new.receiver ≡ self.old.receiver }
        ensures seat { IsSeatAt (receives_on self.old.receiver) self.new.pass
            × (self.new.pass.id ≡ self.old.pass.id) }
        ensures rule { MatchResult result (λ x. M.then (view self.old.pass) x (view self.new.pass))
            (λ _. (view self.new.pass ≡ view self.old.pass)
            × Held 0 (M.fact (view self.old.pass))) }
        ensures empties { MatchResult result
            (λ _. self.new.empties.value ≡ self.old.empties.value)
            (λ _. self.new.empties.value ≡ self.old.empties.value + 1) }
    {
        match self.receiver.recv_as::<M, R>(rt, &mut self.pass) {
            Ok(message) => Ok(message),
            Err(error) => {
                apply::<Empties, u64, ()>(&mut self.empties, &());
                Err(error)
            }
        }
    }

    /// Takes the message that waits longest, if there is one.
    pub(crate) fn take_now<M: Outcome<T, V> + Lesson<T, V>, R: Wait>(
        &mut self,
        rt: &R,
    ) -> Result<T, TryRecvError>
        requires seat { IsSeatAt (receives_on self.old.receiver) self.old.pass }
        requires rule { Pops P.holds self.old.pass.id (view self.old.pass)
            (M.then (view self.old.pass))
            × Learns P.holds self.old.pass.id (view self.old.pass) (M.fact (view self.old.pass)) }
        ensures receiver { self.new.receiver ≡ self.old.receiver }
        ensures seat { IsSeatAt (receives_on self.old.receiver) self.new.pass
            × (self.new.pass.id ≡ self.old.pass.id) }
        ensures rule { MatchResult result (λ x. M.then (view self.old.pass) x (view self.new.pass))
            (λ _. (view self.new.pass ≡ view self.old.pass)
            × Held 0 (M.fact (view self.old.pass))) }
        ensures empties { MatchResult result
            (λ _. self.new.empties.value ≡ self.old.empties.value)
            (λ _. self.new.empties.value ≡ self.old.empties.value + 1) }
    {
        match self.receiver.try_recv_as::<M, R>(rt, &mut self.pass) {
            Ok(message) => Ok(message),
            Err(error) => {
                apply::<Empties, u64, ()>(&mut self.empties, &());
                Err(error)
            }
        }
    }

    /// The end itself, with its pass.
    pub(crate) fn apart(self) -> (RuledReceiver<T, V, P>, Pass<T, V>)
        ensures receiver { result.0 ≡ self.receiver }
        ensures pass { result.1 ≡ self.pass }
    {
        let CountedReceiver {
            receiver,
            pass,
            empties: _,
        } = self;
        (receiver, pass)
    }
}

// The newest channel that was found full.
struct Found;

impl<T, V> GhostChange<Option<Pass<T, V>>, Pass<T, V>> for Found {
    ghost use Rattle.std.specs.Prelude.{Some};

    ghost changed = { λ o p. Some p };
}

/// What was to be put and comes back. Which channel was found full for it exists for clauses alone, and nothing but
/// that channel's answer changes it.
#[derive(Drop)]
pub struct Unsent<T: Drop, V> {
    message: T,
    full: Snapshot<Option<Pass<T, V>>>,
}

impl<T: Drop, V> Model for Unsent<T, V> {
    ghost use Rattle.outbox.specs.Ends.{Returned};

    ghost Value = { Returned T V };

    ghost view = { λ b. record { message = b.message; full = b.full.value } };
}

impl<T: Drop, V> Unsent<T, V> {
    /// It comes back, and no channel was asked.
    pub fn new(message: T) -> Unsent<T, V>
        ensures message { result.message ≡ message }
        ensures full { result.full ≡ None }
    {
        Unsent {
            message,
            full: Snapshot::of(&None),
        }
    }

    /// What comes back.
    pub fn into_inner(self) -> T
        ensures { result ≡ self.message }
    {
        let Unsent { message, full: _ } = self;
        message
    }

    /// The channel of this pass was found full for it.
    fn found_full(&mut self, pass: &Pass<T, V>)
        ensures message { self.new.message ≡ self.old.message }
        ensures full { self.new.full ≡ Some pass.now }
    {
        apply::<Found, Option<Pass<T, V>>, Pass<T, V>>(&mut self.full, pass);
    }
}

/// The end that puts.
#[derive(Drop)]
pub(crate) struct CountedSender<T: Drop, V, P: Protocol<T, V>> {
    sender: RuledSender<T, V, P>,
    pass: Pass<T, V>,
}

impl<T: Drop, V, P: Protocol<T, V>> CountedSender<T, V, P> {
    /// The end that puts, by its pass.
    pub(crate) fn new(sender: RuledSender<T, V, P>, pass: Pass<T, V>) -> CountedSender<T, V, P>
        ensures sender { result.sender ≡ sender }
        ensures pass { result.pass ≡ pass }
    {
        CountedSender { sender, pass }
    }

    /// Puts a message, and gives it back where that is refused, with whether the channel was full.
    pub(crate) fn put<M: Outcome<T, V> + Lesson<T, V>, R: Wait>(
        &mut self,
        rt: &R,
        message: T,
    ) -> Result<(), (bool, Unsent<T, V>)>
        requires seat { IsSeatAt (sends_on self.old.sender) self.old.pass }
        requires rule { Pushes P.holds (ruled_capacity (sends_on self.old.sender)) self.old.pass.id
            (view self.old.pass) message (M.then (view self.old.pass) message)
            × Learns P.holds self.old.pass.id (view self.old.pass) (M.fact (view self.old.pass)) }
        ensures sender { self.new.sender ≡ self.old.sender }
        ensures seat { IsSeatAt (sends_on self.old.sender) self.new.pass
            × (self.new.pass.id ≡ self.old.pass.id) }
        ensures put { OnOk result (M.then (view self.old.pass) message (view self.new.pass)) }
        ensures back { IfErr result
            (λ e. (e.1.message ≡ message) × (view self.new.pass ≡ view self.old.pass)) }
        ensures full { IfErr result (λ e. e.0 ≡ true
            → Held (ruled_capacity (sends_on self.old.sender)) (M.fact (view self.old.pass))) }
        ensures found { IfErr result (λ e. e.0 ≡ true → e.1.full ≡ Some self.new.pass) }
    {
        match self.sender.try_send_as::<M, R>(rt, &mut self.pass, message) {
            Ok(()) => Ok(()),
            Err(TrySendError::Full(message)) => {
                let mut back = Unsent::new(message);
                back.found_full(&self.pass);
                Err((true, back))
            }
            Err(error) => Err((false, Unsent::new(error.into_inner()))),
        }
    }

    /// The end itself, with its pass.
    pub(crate) fn apart(self) -> (RuledSender<T, V, P>, Pass<T, V>)
        ensures sender { result.0 ≡ self.sender }
        ensures pass { result.1 ≡ self.pass }
    {
        let CountedSender { sender, pass } = self;
        (sender, pass)
    }
}
