//! A channel as a row sees it.
ghost use Rattle.std.specs.Prelude.{◌≡◌, ◌<◌, OnOk};
ghost use Rattle.channel_state.specs.State.{with_change};
ghost use Rattle.transactions.specs.Look.{look_room, looked_at};

use channel_state::{Change, ChannelState};
use line_grammar::Octets;
use std::alloc::AllocError;
use std::marker::Model;

/// Where a channel is looked at.
#[derive(Drop)]
pub(crate) enum Look<'a> {
    /// In the roster. Of many members each is looked up.
    Kept {
        name: &'a Octets,
        state: &'a ChannelState,
    },
    /// In a copy, whose members are searched.
    Copied {
        name: Octets,
        state: ChannelState,
    },
}

impl<'a> Look<'a> {
    /// Has a copy, with room for a change.
    pub(crate) fn copy(&mut self) -> Result<(), AllocError>
        ensures same { looked_at self.new ≡ looked_at self.old }
        ensures room { OnOk result (0 < look_room self.new) }
    {
        match self {
            Look::Kept { name, state } => {
                let name = name.clone()?;
                let mut state = state.try_clone()?;
                state.reserve(1)?;
                *self = Look::Copied { name, state };
                Ok(())
            }
            Look::Copied { state, .. } => state.reserve(1),
        }
    }

    /// Changes the copy. It takes no memory.
    pub(crate) fn change(&mut self, change: Change)
        requires { 0 < look_room self.old }
        ensures { looked_at self.new ≡ record {
          name = (looked_at self.old).name;
          state = with_change change (looked_at self.old).state;
        } }
    {
        if let Look::Copied { state, .. } = self {
            state.change(change);
        }
    }
}

/// A channel that is there, by its name as it was first spelled. It is looked at where it is kept, until it changes.
#[derive(Drop)]
pub struct Seen<'a> {
    pub(crate) look: Look<'a>,
}

impl<'a> Model for Seen<'a> {
    ghost use Rattle.transactions.specs.Seen.{Seen};

    ghost Value = { Seen };

    ghost use Rattle.transactions.specs.Look.{looked_at};

    ghost view = { λ a. looked_at a.look };
}

impl<'a> Seen<'a> {
    /// The channel that a roster keeps.
    pub(crate) fn of_roster(name: &'a Octets, state: &'a ChannelState) -> Seen<'a>
        ensures { result ≡ record { name = name.now; state = state.now.state } }
    {
        Seen {
            look: Look::Kept { name, state },
        }
    }

    /// A copy of it.
    pub(crate) fn of_copy(name: Octets, state: ChannelState) -> Seen<'a>
        ensures { result ≡ record { name = name; state = state.state } }
    {
        Seen {
            look: Look::Copied { name, state },
        }
    }

    /// Its name, as it was first spelled.
    pub fn name(&self) -> &Octets
        ensures { result.now ≡ self.now.name }
    {
        match &self.look {
            Look::Kept { name, .. } => name,
            Look::Copied { name, .. } => name,
        }
    }

    /// Who is on it and with which rank, its modes, topic and bans, and who is invited.
    pub fn state(&self) -> &ChannelState
        ensures { result.now.state ≡ self.now.state }
    {
        match &self.look {
            Look::Kept { state, .. } => state,
            Look::Copied { state, .. } => state,
        }
    }
}
