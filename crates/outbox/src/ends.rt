//! The two ends of an outbox between two threads.
ghost use Rattle.std.specs.Prelude.{◌≡◌, ◌<◌, [], All, IfOk, OnErr, length};
ghost use Rattle.deliveries.specs.declared.item.Item.{Item as Delivered};
ghost use Rattle.deliveries.specs.Items.{deliveries, front, owed_by_front};
ghost use Rattle.deliveries.specs.Owed.{number_of};
ghost use Rattle.deliveries.specs.Growth.{Grows};
ghost use Rattle.outbox.specs.Ends.{with_empty, with_item};

mod draining;

use crate::bell::Waker;
use crate::counted_ends::{CountedReceiver, CountedSender};
use crate::gauge::{Gauge, octets_of};
use crate::queue::{NotPut, Outbox, PutFault};
use crate::rule::{Ends, InOrder, Log, Put, Take};
use crossbeam_channel::{Pass, bounded_with};
use deliveries::Item;
use draining::drain;
use std::alloc::{AllocError, Global};
use std::marker::Model;
use std::sync::Wait;
use std::time::Duration;

/// There was no item.
#[derive(Clone, Copy, Debug, PartialEq)]
pub struct Empty;

/// There is no item, and none will come.
#[derive(Clone, Copy, Debug, PartialEq)]
pub struct Closed;

/// The end that puts. A clause sees all items that were ever put, how many may wait, and which channel it is.
#[derive(Drop)]
pub struct Sender<R: Wait + Drop> {
    rt: R,
    sender: CountedSender<Item, Log, InOrder>,
    bell: Waker,
    gauge: Gauge,
}

impl<R: Wait + Drop> Model for Sender<R> {
    ghost use Rattle.std.specs.Prelude.{◌≡◌, true};
    ghost use Rattle.crossbeam_channel.specs.Claims.{IsSeatAt};
    ghost use Rattle.crossbeam_channel.specs.Ends.{sends_on, ruled_capacity};
    ghost use Rattle.outbox.specs.Ends.{Puttings, channel_of, known_by};

    ghost Value = { Puttings };

    ghost view = { λ a. record {
      sent = (known_by a.sender.pass).sent;
      cap = ruled_capacity (sends_on a.sender.sender);
      channel = channel_of a.sender.pass;
    } };

    ghost invariant = { λ a. IsSeatAt (sends_on a.sender.sender) a.sender.pass
        × ((known_by a.sender.pass).sends ≡ true) };
}

/// The end that takes. A clause sees all items that were ever taken, how often the channel was found empty, and which
/// channel it is.
#[derive(Drop)]
pub struct Writer {
    receiver: CountedReceiver<Item, Log, InOrder>,
    bell: Waker,
    gauge: Gauge,
}

impl Model for Writer {
    ghost use Rattle.std.specs.Prelude.{◌≡◌, true};
    ghost use Rattle.crossbeam_channel.specs.Claims.{IsSeatAt};
    ghost use Rattle.crossbeam_channel.specs.Ends.{receives_on};
    ghost use Rattle.outbox.specs.Ends.{Takings, channel_of, known_by};

    ghost Value = { Takings };

    ghost view = { λ a. record {
      taken = (known_by a.receiver.pass).got;
      empties = a.receiver.empties.value;
      channel = channel_of a.receiver.pass;
    } };

    ghost invariant = { λ a. IsSeatAt (receives_on a.receiver.receiver) a.receiver.pass
        × ((known_by a.receiver.pass).takes ≡ true) };
}

/// A new outbox for at most `cap` items, by its two ends.
pub fn pair<R: Wait + Drop>(
    rt: R,
    alloc: Global,
    cap: usize,
) -> Result<(Sender<R>, Writer), AllocError>
    requires { 0 < cap }
    ensures sent { IfOk result (λ p. p.0.sent ≡ []) }
    ensures cap { IfOk result (λ p. p.0.cap ≡ cap) }
    ensures taken { IfOk result (λ p. p.1.taken ≡ []) }
    ensures channel { IfOk result (λ p. p.0.channel ≡ p.1.channel) }
{
    let bell = Waker::new(alloc)?;
    let heard = bell.again()?;
    let gauge = Gauge::new(alloc)?;
    let seen = gauge.again()?;
    let (sender, receiver, mut pass) = bounded_with::<Item, Log, InOrder, Global>(alloc, cap)?;
    let other = sender.another::<Ends>(&mut pass);
    Ok((
        Sender {
            rt,
            sender: CountedSender::new(sender, pass),
            bell,
            gauge,
        },
        Writer {
            receiver: CountedReceiver::new(receiver, other),
            bell: heard,
            gauge: seen,
        },
    ))
}

impl<R: Wait + Drop> Sender<R> {
    /// The bell that ends a rest of the other end. A put doesn't ring it.
    pub fn bell(&self) -> &Waker {
        &self.bell
    }
}

impl<R: Wait + Drop> Outbox for Sender<R> {
    ghost use Rattle.std.specs.Prelude.{true};
    ghost use Rattle.outbox.specs.Ends.{accepts, refuses, shows};

    type Taker = Writer;

    type Name = Pass<Item, Log>;

    ghost sent = { λ a. a.sent };

    ghost room = { λ a. a.cap };

    ghost name = { λ a. a.channel };

    ghost taker_of = { λ w. w.channel };

    ghost taken = { λ a w. w.taken };

    ghost may_be_cut = { true };

    ghost accepts = { accepts };

    ghost refuses = { refuses };

    ghost shows = { shows };

    fn put(&mut self, item: Item) -> Result<(), (PutFault, NotPut)> {
        let octets = octets_of(item.delivery());
        match self.sender.put::<Put, R>(&self.rt, item) {
            Ok(()) => {
                self.gauge.put(octets);
                Ok(())
            }
            Err((true, back)) => Err((PutFault::Full, back)),
            Err((false, back)) => Err((PutFault::Cut, back)),
        }
    }

    fn close(self, taker: Writer) -> u64 {
        let Sender {
            rt,
            sender,
            bell: _,
            gauge: _,
        } = self;
        let Writer {
            receiver,
            bell: _,
            gauge: _,
        } = taker;
        let (sender, mut pass) = sender.apart();
        let (receiver, other) = receiver.apart();
        sender.absorb::<Ends>(&mut pass, other);
        drain(&rt, &receiver, pass)
    }
}

impl Writer {
    /// Takes the item that waits longest, and waits for one where there is none. It is of the newest record of the
    /// history in which it was put. There is none, and none comes, only where the channel was found empty in this
    /// call.
    pub fn take<R: Wait>(&mut self, rt: &R) -> Result<Item, Closed>
        ensures took { IfOk result (λ x. self.new ≡ with_item self.old x) }
        ensures owed { IfOk result (λ x. deliveries self.new.taken ≡ owed_by_front x) }
        ensures newest { IfOk result (λ x. number_of x.delivery ≡ length (front x)) }
        ensures whose { IfOk result
            (λ x. All (λ (y : Delivered). y.session ≡ x.session) self.old.taken) }
        ensures settings { IfOk result
            (λ x. All (λ (y : Delivered). y.settings ≡ x.settings) self.old.taken) }
        ensures grows { IfOk result
            (λ x. All (λ (y : Delivered). Grows (front y) (front x)) self.old.taken) }
        ensures none { OnErr result (self.new ≡ with_empty self.old) }
    {
        match self.receiver.take::<Take, R>(rt) {
            Ok(item) => Ok(item),
            Err(_) => Err(Closed),
        }
    }

    /// Takes the item that waits longest. It waits for none, and takes no memory. It is of the newest record of the
    /// history in which it was put. There is none only where the channel was found empty in this call.
    pub fn take_now<R: Wait>(&mut self, rt: &R) -> Result<Item, Empty>
        ensures took { IfOk result (λ x. self.new ≡ with_item self.old x) }
        ensures owed { IfOk result (λ x. deliveries self.new.taken ≡ owed_by_front x) }
        ensures newest { IfOk result (λ x. number_of x.delivery ≡ length (front x)) }
        ensures whose { IfOk result
            (λ x. All (λ (y : Delivered). y.session ≡ x.session) self.old.taken) }
        ensures settings { IfOk result
            (λ x. All (λ (y : Delivered). y.settings ≡ x.settings) self.old.taken) }
        ensures grows { IfOk result
            (λ x. All (λ (y : Delivered). Grows (front y) (front x)) self.old.taken) }
        ensures none { OnErr result (self.new ≡ with_empty self.old) }
    {
        match self.receiver.take_now::<Take, R>(rt) {
            Ok(item) => Ok(item),
            Err(_) => Err(Empty),
        }
    }

    /// The bell that ends a rest.
    pub fn bell(&self) -> &Waker {
        &self.bell
    }

    /// How much waits. Whoever writes what was taken tells it what went out.
    pub fn gauge(&self) -> &Gauge {
        &self.gauge
    }

    /// Rests until the bell is rung, or for so long at most. There may be no item after it, so take again and rest
    /// again.
    pub fn rest<R: Wait>(&mut self, rt: &R, most: Duration)
        ensures { self.new ≡ self.old }
    {
        self.bell.rest(rt, most);
    }
}
