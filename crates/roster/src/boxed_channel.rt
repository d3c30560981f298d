//! A channel's state in memory of its own, so that little moves where a channel that was made earlier ends.
ghost use Rattle.std.specs.Prelude.{◌≡◌, ◌-◌, ◌<◌, IfOk, OnOk, OnErr};
ghost use Rattle.channel_state.specs.State.{with_change, after_gone, made_by, nothing};

use channel_state::{Change, ChannelState};
use chronicle::SessionId;
use std::alloc::{AllocError, Global};
use std::marker::Model;

/// A channel's state, with room for changes.
#[derive(Drop)]
pub struct BoxedChannel {
    alloc: Global,
    state: Box<ChannelState>,
}

impl Model for BoxedChannel {
    ghost use Rattle.channel_state.specs.Held.{ChannelView};

    ghost Value = { ChannelView };

    ghost view = { λ a. a.state.value };
}

impl BoxedChannel {
    /// A channel that isn't there, with room for so many changes.
    pub(crate) fn with_room(alloc: Global, changes: usize) -> Result<BoxedChannel, AllocError>
        ensures { IfOk result (λ k. (k.state ≡ nothing) × (k.room ≡ changes)) }
    {
        let state = ChannelState::with_room(alloc, changes)?;
        Ok(BoxedChannel {
            alloc,
            state: Box::new(alloc, state)?,
        })
    }

    /// A copy, with room for no change.
    pub(crate) fn try_clone(&self) -> Result<BoxedChannel, AllocError>
        ensures { IfOk result (λ k. k.state ≡ self.now.state) }
    {
        let state = self.state.try_clone()?;
        Ok(BoxedChannel {
            alloc: self.alloc,
            state: Box::new(self.alloc, state)?,
        })
    }

    /// The state.
    pub(crate) fn get(&self) -> &ChannelState
        ensures { result.now ≡ self.now }
    {
        &self.state
    }

    /// Makes room for so many changes. An `Err` leaves what room there is.
    pub(crate) fn reserve(&mut self, changes: usize) -> Result<(), AllocError>
        ensures state { self.new.state ≡ self.old.state }
        ensures room { OnOk result (self.new.room ≡ changes) }
        ensures err { OnErr result (self.new ≡ self.old) }
    {
        self.state.reserve(changes)
    }

    /// The channel is one that a session made just now. It takes no memory.
    pub(crate) fn make(&mut self, session: SessionId)
        requires { 0 < self.old.room }
        ensures state { self.new.state ≡ made_by session }
        ensures room { self.new.room ≡ self.old.room - 1 }
    {
        self.state.make(session);
    }

    /// Changes it. It takes no memory.
    pub(crate) fn change(&mut self, change: Change)
        requires { 0 < self.old.room }
        ensures state { self.new.state ≡ with_change change self.old.state }
        ensures room { self.new.room ≡ self.old.room - 1 }
    {
        self.state.change(change);
    }

    /// A session is gone from it. It takes no memory.
    pub(crate) fn depart(&mut self, session: SessionId)
        ensures state { self.new.state ≡ after_gone session self.old.state }
        ensures room { self.new.room ≡ self.old.room }
    {
        self.state.depart(session);
    }
}
