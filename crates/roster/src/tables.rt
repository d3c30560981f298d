//! The tables' rows.
ghost use Rattle.std.specs.Prelude.{◌≡◌};

use crate::boxed_channel::BoxedChannel;
use crate::channel_lists::Names;
use line_grammar::Octets;
use registration::Caps;
use std::alloc::AllocError;

/// What is known of a session.
#[derive(Drop)]
pub struct Person {
    pub host: Octets,
    pub nick: Option<Octets>,
    pub user: Option<Octets>,
    pub real: Option<Octets>,
    /// Whether registration waits for the end of capability negotiation.
    pub held: bool,
    pub caps: Caps,
    /// What was sent so far of an exchange of SASL that is open.
    pub exchange: Option<Octets>,
    /// The account by which it is logged in.
    pub account: Option<Octets>,
    pub registered: bool,
    /// The text with which it is away.
    pub away: Option<Octets>,
    /// Whether it is hidden from those who aren't on its channels.
    pub invisible: bool,
    /// The text that its client gave when it quit.
    pub parting: Octets,
}

impl Clone for Person {
    ghost is_clone = { λ a b. b ≡ a };

    fn clone(&self) -> Result<Person, AllocError> {
        Ok(Person {
            host: self.host.clone()?,
            nick: self.nick.clone()?,
            user: self.user.clone()?,
            real: self.real.clone()?,
            held: self.held,
            caps: self.caps,
            exchange: self.exchange.clone()?,
            account: self.account.clone()?,
            registered: self.registered,
            away: self.away.clone()?,
            invisible: self.invisible,
            parting: self.parting.clone()?,
        })
    }
}

/// What is known of a session, with the channels that it is on, by its last joins, and those that may invite it.
#[derive(Drop)]
pub(crate) struct Card {
    pub person: Person,
    pub names: Names,
}

// A copy may have room for other numbers of names.
impl Clone for Card {
    ghost is_clone = { λ a b. (b.person ≡ a.person) × (b.names.list ≡ a.names.list)
        × (b.names.notes ≡ a.names.notes) };

    fn clone(&self) -> Result<Card, AllocError> {
        Ok(Card {
            person: self.person.clone()?,
            names: self.names.clone()?,
        })
    }
}

/// A channel and its name, as it was first spelled.
#[derive(Drop)]
pub struct Channel {
    pub name: Octets,
    pub held: BoxedChannel,
}

// A copy has room for no change.
impl Clone for Channel {
    ghost is_clone = { λ a b. (b.name ≡ a.name) × (b.held.state ≡ a.held.state) };

    fn clone(&self) -> Result<Channel, AllocError> {
        Ok(Channel {
            name: self.name.clone()?,
            held: self.held.try_clone()?,
        })
    }
}
