//! The modes of a channel (RFC 2811, section 4).
ghost use Rattle.std.specs.Prelude.{◌≡◌};
ghost use Rattle.channel_state.specs.State.{with_flag, is_set, no_modes};

use line_grammar::Octets;

/// A mode that is set or not.
#[derive(Clone, Copy)]
pub enum Flag {
    /// `i`: who isn't invited can't join (section 4.2.2).
    InviteOnly,
    /// `m`: operators and those with a voice speak alone (section 4.2.3).
    Moderated,
    /// `n`: members speak alone (section 4.2.4).
    NoOutside,
    /// `s`: it is hidden from others than its members (section 4.2.6).
    Secret,
    /// `t`: operators set the topic alone (section 4.2.8).
    TopicLocked,
}

/// The modes of a channel.
#[derive(Clone, Drop)]
pub struct Modes {
    pub invite_only: bool,
    pub moderated: bool,
    pub no_outside: bool,
    pub secret: bool,
    pub topic_locked: bool,
    /// The key that who joins has to give (section 4.2.10).
    pub key: Option<Octets>,
    /// How many members stop more from joining (section 4.2.9).
    pub limit: Option<u64>,
}

impl Modes {
    /// No mode is set.
    pub fn none() -> Modes
        ensures { result ≡ no_modes }
    {
        Modes {
            invite_only: false,
            moderated: false,
            no_outside: false,
            secret: false,
            topic_locked: false,
            key: None,
            limit: None,
        }
    }

    /// Whether a flag is set.
    pub fn is_set(&self, flag: Flag) -> bool
        ensures { result ≡ is_set flag self.now }
    {
        match flag {
            Flag::InviteOnly => self.invite_only,
            Flag::Moderated => self.moderated,
            Flag::NoOutside => self.no_outside,
            Flag::Secret => self.secret,
            Flag::TopicLocked => self.topic_locked,
        }
    }

    /// Sets or clears a flag.
    pub(crate) fn set(&mut self, flag: Flag, on: bool)
        ensures { self.new ≡ with_flag flag on self.old }
    {
        match flag {
            Flag::InviteOnly => self.invite_only = on,
            Flag::Moderated => self.moderated = on,
            Flag::NoOutside => self.no_outside = on,
            Flag::Secret => self.secret = on,
            Flag::TopicLocked => self.topic_locked = on,
        }
    }
}
