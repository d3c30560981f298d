//! A channel (RFC 2811, sections 2 to 4).
ghost use Rattle.std.specs.Prelude.{◌≡◌, ◌-◌, ◌<◌, ◌≤◌, option_copied, IfOk, OnOk, OnErr};
ghost use Rattle.channel_state.specs.State.{among, with_change, after_gone, is_banned, is_some_one};
ghost use Rattle.channel_state.specs.State.{or_nothing, left_by, made_by, nothing, invite_used};

use crate::masks::Masks;
use crate::members::Members;
use crate::{Change, Flag, Modes, Rank};
use chronicle::SessionId;
use line_grammar::Octets;
use std::alloc::{AllocError, Global};
use std::marker::Model;

/// A channel, with room for changes.
#[derive(Drop)]
pub struct ChannelState {
    members: Members,
    operators: Members,
    voices: Members,
    invited: Members,
    /// Those of the invited whom bans don't stop.
    pardoned: Members,
    modes: Modes,
    topic: Option<Octets>,
    bans: Masks,
    /// How many changes each list has room for.
    room: usize,
}

impl Model for ChannelState {
    ghost use Rattle.channel_state.specs.Held.{ChannelView, HaveRoom};

    ghost Value = { ChannelView };

    ghost view = { λ a. record {
      state = record {
        members = a.members.list;
        operators = a.operators.list;
        voices = a.voices.list;
        invited = a.invited.list;
        pardoned =
            a.pardoned.list;
        modes = a.modes;
        topic = a.topic;
        bans = a.bans.list;
      };
      room = a.room;
    } };

    ghost invariant = { λ a. HaveRoom a.members a.operators a.voices a.invited a.pardoned
        a.bans a.room };
}

impl ChannelState {
    /// A channel that isn't there: nobody is on it.
    pub fn nothing(alloc: Global) -> ChannelState
        ensures state { result.state ≡ nothing }
        ensures room { result.room ≡ 0 }
    {
        ChannelState {
            members: Members::new(alloc),
            operators: Members::new(alloc),
            voices: Members::new(alloc),
            invited: Members::new(alloc),
            pardoned: Members::new(alloc),
            modes: Modes::none(),
            topic: None,
            bans: Masks::new(alloc),
            room: 0,
        }
    }

    /// A channel that isn't there, with room for so many changes.
    pub fn with_room(alloc: Global, changes: usize) -> Result<ChannelState, AllocError>
        ensures { IfOk result (λ k. (k.state ≡ nothing) × (k.room ≡ changes)) }
    {
        let mut state = ChannelState::nothing(alloc);
        state.reserve(changes)?;
        Ok(state)
    }

    /// Has the sessions of another channel in the place of its own.
    fn copy_sessions(&mut self, other: &ChannelState) -> Result<(), AllocError>
        ensures { OnOk result (self.new.state ≡ record other.now.state {
          modes =
              self.old.state.modes;
          topic = self.old.state.topic;
          bans = self.old.state.bans;
        }) }
    {
        self.room = 0;
        self.members = other.members.try_clone()?;
        self.operators = other.operators.try_clone()?;
        self.voices = other.voices.try_clone()?;
        self.invited = other.invited.try_clone()?;
        self.pardoned = other.pardoned.try_clone()?;
        Ok(())
    }

    /// Has the modes, the topic and the bans of another channel in the place of its own.
    fn copy_settings(&mut self, other: &ChannelState) -> Result<(), AllocError>
        ensures { OnOk result (self.new.state ≡ record self.old.state {
          modes =
              other.now.state.modes;
          topic = other.now.state.topic;
          bans = other.now.state.bans;
        }) }
    {
        self.room = 0;
        self.modes = other.modes.clone()?;
        self.topic = other.topic.clone()?;
        self.bans = other.bans.try_clone()?;
        Ok(())
    }

    /// A copy, with room for no change.
    pub fn try_clone(&self) -> Result<ChannelState, AllocError>
        ensures { IfOk result (λ k. k.state ≡ self.now.state) }
    {
        let mut copy = ChannelState::nothing(self.bans.alloc());
        copy.copy_sessions(self)?;
        copy.copy_settings(self)?;
        Ok(copy)
    }

    /// Makes room for so many changes. An `Err` leaves what room there is.
    pub fn reserve(&mut self, changes: usize) -> Result<(), AllocError>
        ensures state { self.new.state ≡ self.old.state }
        ensures room { OnOk result (self.new.room ≡ changes) }
        ensures err { OnErr result (self.new ≡ self.old) }
    {
        self.members.reserve(changes)?;
        self.operators.reserve(changes)?;
        self.voices.reserve(changes)?;
        self.invited.reserve(changes)?;
        self.pardoned.reserve(changes)?;
        self.bans.reserve(changes)?;
        self.room = changes;
        Ok(())
    }

    /// The channel is one that a session made just now. It takes no memory.
    pub fn make(&mut self, session: SessionId)
        requires { 0 < self.old.room }
        ensures state { self.new.state ≡ made_by session }
        ensures room { self.new.room ≡ self.old.room - 1 }
    {
        self.end();
        self.room -= 1;
        self.members.add(session);
        self.operators.add(session);
        self.modes.set(Flag::NoOutside, true);
        self.modes.set(Flag::TopicLocked, true);
    }

    /// The channel isn't there any more.
    fn end(&mut self)
        ensures state { self.new.state ≡ nothing }
        ensures room { self.new.room ≡ self.old.room }
    {
        self.members.clear();
        self.operators.clear();
        self.voices.clear();
        self.invited.clear();
        self.pardoned.clear();
        self.modes = Modes::none();
        self.topic = None;
        self.bans.clear();
    }

    /// It isn't there any more, where nobody is on it. It takes no memory.
    pub fn last(&mut self)
        ensures state { self.new.state ≡ or_nothing self.old.state }
        ensures room { self.new.room ≡ self.old.room }
    {
        if !self.members.is_some_one() {
            self.end();
        }
    }

    /// A session's invitation is used up.
    fn uninvite(&mut self, session: SessionId)
        ensures state { self.new.state ≡ invite_used session self.old.state }
        ensures room { self.new.room ≡ self.old.room }
    {
        self.invited.remove(session);
        self.pardoned.remove(session);
    }

    /// A session is on it no more, and has no rank there.
    fn leave(&mut self, session: SessionId)
        ensures state { self.new.state ≡ left_by session self.old.state }
        ensures room { self.new.room ≡ self.old.room }
    {
        self.members.remove(session);
        self.operators.remove(session);
        self.voices.remove(session);
    }

    /// Changes it. It takes no memory.
    pub fn change(&mut self, change: Change)
        requires { 0 < self.old.room }
        ensures state { self.new.state ≡ with_change change self.old.state }
        ensures room { self.new.room ≡ self.old.room - 1 }
    {
        self.room -= 1;
        match change {
            Change::Joined { session } => {
                self.members.add(session);
                self.uninvite(session);
            }
            Change::Left { session } => self.leave(session),
            Change::RankSet { session, rank, on } => match rank {
                Rank::Operator => self.operators.set(session, on),
                Rank::Voice => self.voices.set(session, on),
            },
            Change::FlagSet { flag, on } => self.modes.set(flag, on),
            Change::KeySet { key } => self.modes.key = key,
            Change::LimitSet { limit } => self.modes.limit = limit,
            Change::TopicSet { topic } => self.topic = topic,
            Change::BanSet { mask } => self.bans.add(mask),
            Change::BanLifted { mask } => self.bans.remove(mask.as_slice()),
            Change::Invited {
                session,
                by_operator,
            } => {
                self.invited.add(session);
                self.pardoned.set(session, by_operator);
            }
        }
    }

    /// A session is gone from it. It takes no memory.
    pub fn depart(&mut self, session: SessionId)
        ensures state { self.new.state ≡ after_gone session self.old.state }
        ensures room { self.new.room ≡ self.old.room }
    {
        self.leave(session);
        self.uninvite(session);
    }

    /// Those who are on it, in the order of joining.
    pub fn members(&self) -> &[SessionId]
        ensures { result.now ≡ self.now.state.members }
    {
        self.members.as_slice()
    }

    /// Whether somebody is on it: where nobody is, it isn't there.
    pub fn is_there(&self) -> bool
        ensures { result ≡ is_some_one self.now.state.members }
    {
        self.members.is_some_one()
    }

    /// Whether a session is on it.
    pub fn has(&self, session: SessionId) -> bool
        ensures { result ≡ among session self.now.state.members }
    {
        self.members.has(session)
    }

    /// Whether a session is an operator of it.
    pub fn is_operator(&self, session: SessionId) -> bool
        ensures { result ≡ among session self.now.state.operators }
    {
        self.operators.has(session)
    }

    /// Whether a session has a voice on it.
    pub fn has_voice(&self, session: SessionId) -> bool
        ensures { result ≡ among session self.now.state.voices }
    {
        self.voices.is_some_one() && self.voices.has(session)
    }

    /// Whether a session is invited.
    pub fn is_invited(&self, session: SessionId) -> bool
        ensures { result ≡ among session self.now.state.invited }
    {
        self.invited.has(session)
    }

    /// Whether a session's last invitation came from an operator.
    pub fn is_pardoned(&self, session: SessionId) -> bool
        ensures { result ≡ among session self.now.state.pardoned }
    {
        self.pardoned.has(session)
    }

    /// Its modes.
    pub fn modes(&self) -> &Modes
        ensures { result.now ≡ self.now.state.modes }
    {
        &self.modes
    }

    /// Its topic.
    pub fn topic(&self) -> Option<&Octets>
        ensures { option_copied result ≡ self.now.state.topic }
    {
        self.topic.as_ref()
    }

    /// Whether a mask that it bans fits a source, `nick!user@host`.
    pub fn is_banned(&self, source: &[u8]) -> bool
        ensures { result ≡ is_banned self.now.state source.now }
    {
        self.bans.fits(source)
    }

    /// The masks that it bans, in the order of setting.
    pub fn bans(&self) -> &[Octets]
        ensures { result.now ≡ self.now.state.bans }
    {
        self.bans.as_slice()
    }
}
