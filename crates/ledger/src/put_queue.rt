//! The deliveries of a record that are still to be put.
ghost use Rattle.std.specs.Prelude.{◌≡◌, ◌++◌, [], None, length, option_to_list};
ghost use Rattle.std.specs.Option.{option_map};

use crate::plan::{Placed, Planned};
use std::alloc::Global;
use std::collections::VecDeque;
use std::marker::Model;

/// Deliveries in the order in which they are put: the actor's own, which has room inside, and then the others.
#[derive(Drop)]
pub(crate) struct PutQueue {
    own: Option<Placed>,
    others: VecDeque<Placed>,
}

impl Model for PutQueue {
    ghost use Rattle.std.specs.Prelude.{◌++◌, List, option_to_list};
    ghost use Rattle.ledger.specs.declared.plan.Planned.{Planned};

    ghost Value = { List Planned };

    ghost view = { λ a. option_to_list a.own ++ a.others.items };
}

impl PutQueue {
    /// The actor's own delivery, if it has one, and then the others. It takes no memory.
    pub(crate) fn new(own: Option<Placed>, others: VecDeque<Placed>) -> PutQueue
        ensures { result ≡ option_to_list own ++ others.items }
    {
        PutQueue { own, others }
    }

    /// Nothing. It takes no memory.
    pub(crate) fn nothing(alloc: Global) -> PutQueue
        ensures { result ≡ [] }
    {
        PutQueue::new(None, VecDeque::new(alloc))
    }

    /// How many there are.
    pub(crate) fn len(&self) -> usize
        ensures { result ≡ length self.now }
    {
        match &self.own {
            Some(_) => self.others.len() + 1,
            None => self.others.len(),
        }
    }

    /// Takes the first out.
    fn take(&mut self) -> Option<Placed>
        ensures items { self.old ≡ option_to_list result ++ self.new }
        ensures none { result ≡ None → self.old ≡ [] }
    {
        match self.own {
            Some(_) => self.own.take(),
            None => self.others.pop_front(),
        }
    }

    /// Takes the first out, with the place of its session's outbox. It takes no memory.
    pub(crate) fn take_first(&mut self) -> Option<(Planned, usize)>
        ensures items { self.old ≡ option_to_list (option_map (λ r. r.0) result) ++ self.new }
        ensures none { result ≡ None → self.old ≡ [] }
    {
        match self.take() {
            Some(first) => Some(first.into_parts()),
            None => None,
        }
    }
}
