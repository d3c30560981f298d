//! Places of a worker's clients.
use super::client::Client;
use super::connecting::SessionTokens;
use client_streams::PendingHandshake;
use session_io::book::Naming;
use std::alloc::{AllocError, Global};
use std::mem;
use std::sync::Wait;

/// A place for a client.
#[derive(Drop)]
pub(crate) enum Slot<L: Naming, R: Wait + Copy + Drop> {
    /// Nobody's.
    Empty,
    /// Of who greets.
    Greeting(PendingHandshake),
    /// A client's.
    Held(Client<L, R>),
    /// Of a session that isn't given up yet.
    Leaving(SessionTokens<L, R>),
}

/// The places of a worker's clients. A place is lent to what is done for its client, who is taken out of it where it
/// ends or becomes of another kind.
#[derive(Drop)]
pub(crate) struct ClientSlab<L: Naming, R: Wait + Copy + Drop> {
    pub(super) all: Vec<Slot<L, R>>,
    free: Vec<usize>,
    /// How many places aren't free.
    live: u64,
}

impl<L: Naming, R: Wait + Copy + Drop> ClientSlab<L, R> {
    /// No place.
    pub(super) fn new(alloc: Global) -> ClientSlab<L, R> {
        ClientSlab {
            all: Vec::new(alloc),
            free: Vec::new(alloc),
            live: 0,
        }
    }

    /// How many places there are.
    pub(super) fn len(&self) -> usize {
        self.all.len()
    }

    /// Whether all places are free.
    pub(super) fn are_free(&self) -> bool {
        self.live == 0
    }

    /// A place for another client. The list of free places has room for all places, so none is lost.
    pub(super) fn take_free(&mut self) -> Result<usize, AllocError> {
        let at = match self.free.pop() {
            Some(at) => at,
            None => self.add()?,
        };
        self.live = self.live.saturating_add(1);
        Ok(at)
    }

    /// A place more.
    fn add(&mut self) -> Result<usize, AllocError> {
        let at = self.all.len();
        self.free.reserve(at.saturating_add(1))?;
        self.all.push(Slot::Empty)?;
        Ok(at)
    }

    /// A place that is empty is free for another client.
    pub(super) fn free(&mut self, at: usize) {
        self.live = self.live.saturating_sub(1);
        let _ = self.free.push(at);
    }

    /// Has this stand at a place. It alone drops what a place has.
    pub(crate) fn put(&mut self, at: usize, what: Slot<L, R>) {
        let mut what = what;
        if let Some(place) = self.all.get_mut(at) {
            mem::swap(place, &mut what);
        }
    }

    /// Takes what stands at a place.
    fn take(&mut self, at: usize) -> Slot<L, R> {
        match self.all.get_mut(at) {
            Some(place) => mem::replace(place, Slot::Empty),
            None => Slot::Empty,
        }
    }

    /// Takes who greets at a place, if somebody does.
    pub(crate) fn take_guest(&mut self, at: usize) -> Option<PendingHandshake> {
        match self.take(at) {
            Slot::Greeting(guest) => Some(guest),
            other => {
                self.put(at, other);
                None
            }
        }
    }

    /// Takes the client at a place, if there is one.
    pub(super) fn take_client(&mut self, at: usize) -> Option<Client<L, R>> {
        match self.take(at) {
            Slot::Held(client) => Some(client),
            other => {
                self.put(at, other);
                None
            }
        }
    }

    /// Takes the tokens of the session at a place that isn't given up yet, if there is one.
    pub(super) fn take_tokens(&mut self, at: usize) -> Option<SessionTokens<L, R>> {
        match self.take(at) {
            Slot::Leaving(tokens) => Some(tokens),
            other => {
                self.put(at, other);
                None
            }
        }
    }
}
