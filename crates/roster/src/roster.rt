//! The roster: a list of facts, kept in tables.
ghost use Rattle.std.specs.Option.{option_map, option_map_or};
ghost use Rattle.std.specs.Prelude.{◌≡◌, ◌<◌, ◌^◌, ◌∷◌, [], Some, None, drop, length, slice_get};
ghost use Rattle.std.specs.Prelude.{option_copied, unwrap_or, IfOk, IfSome, OnOk, OnErr};
ghost use Rattle.roster.specs.declared.deed.Deed.TheVariants.{Ended};

use crate::channel_lists::{has_name, join_made, reseat, reserve_lists, seat_of};
use crate::channels::Channels;
use crate::checked_settings::CheckedSettings;
use crate::deed::Deed;
use crate::ends_of_sessions::SessionEnds;
use crate::folded_keys::{change, make, take};
use crate::hashing::NameHashing;
use crate::nicks::Nicks;
use crate::people::{People, blank_enrol, enrol_of};
use crate::preallocated::Stock;
use crate::reserving::{reserve_channels, reserve_people};
use crate::sessions::Sessions;
use crate::sharing::find_sharers;
use crate::touched_tables::{TouchedTables, touched_by};
use channel_state::ChannelState;
use chronicle::{SessionId, Why};
use line_grammar::Octets;
use registration::{Caps, Enrol, Settings};
use snapshots::{GhostChange, Snapshot, append_all, apply, blank, copy_of};
use std::alloc::{AllocError, Global};
use std::collections::LinkedList;
use std::hash::RandomState;
use std::marker::Model;
use std::mem::swap;

/// What is known of sessions and channels, by all facts that were ever established. A clause sees it as the list of
/// these, with the server's settings and the facts that it is ready for.
#[derive(Drop)]
pub struct Roster {
    alloc: Global,
    given: CheckedSettings,
    people: People,
    marks: SessionEnds,
    nicks: Nicks,
    channels: Channels,
    /// For the facts that it is ready for.
    stock: Stock,
    /// Where that of the next ones is made, before it takes the place of the other.
    fresh: Stock,
    facts: Snapshot<LinkedList<Deed>>,
    ready: Snapshot<LinkedList<Deed>>,
}

impl Model for Roster {
    ghost use Rattle.roster.specs.Known.{Known};
    ghost use Rattle.roster.specs.Lists.{AreListed};
    ghost use Rattle.roster.specs.Stands.{IsKept};

    ghost Value = { Known };

    ghost view = { λ a. record {
      settings = a.given;
      facts = a.facts.value;
      ready = a.ready.value;
    } };

    ghost invariant = { λ a. IsKept a.people a.marks a.nicks a.channels
        a.stock.spare.items a.stock.keys.items a.facts.value a.ready.value
        × AreListed a.people.list a.stock.copies.items a.facts.value a.ready.value };
}

// A fact is added, as the newest.
struct Adds;

impl GhostChange<LinkedList<Deed>, Deed> for Adds {
    ghost changed = { λ fs d. d ∷ fs };
}

// The first fact that was prepared is done.
struct DropsFirst;

impl GhostChange<LinkedList<Deed>, ()> for DropsFirst {
    ghost changed = { λ ds unit. drop 1 ds };
}

impl Roster {
    ghost use Rattle.registration.specs.Settings.{IsWellSet};
    ghost use Rattle.roster.specs.Legal.{IsOpened, AreLegal, AreNext};
    ghost use Rattle.registration.specs.Enrol.{enrolment};
    ghost use Rattle.roster.specs.LookBack.{opened_in, host, nick, user, real, caps, enrol, registered, away};
    ghost use Rattle.roster.specs.LookBack.{invisible, why, parting_text, holder, user_named, on, state, members};
    ghost use Rattle.roster.specs.LookBack.{name_of};
    ghost use Rattle.roster.specs.LookBack.{channels, channel_count, channels_on, sharers};
    ghost use Rattle.channel_state.specs.State.{nothing};

    /// The roster of no facts, on a server whose settings are within their limits. Names are looked up by a hash
    /// that everybody can compute: it is for servers whose clients choose no names that fall into one place, as
    /// those of scripts.
    pub fn new(alloc: Global, settings: Settings) -> Roster
        requires { IsWellSet settings }
        ensures { result ≡ record { settings = settings; facts = []; ready = [] } }
    {
        Roster::with_hashing(alloc, settings, NameHashing::with_fixed_keys())
    }

    /// The same, where names are looked up by a hash that has the keys of a state, which nobody outside knows. No
    /// answer depends on these.
    pub fn with_hasher(alloc: Global, settings: Settings, state: RandomState) -> Roster
        requires { IsWellSet settings }
        ensures { result ≡ record { settings = settings; facts = []; ready = [] } }
    {
        Roster::with_hashing(alloc, settings, NameHashing::with_state(state))
    }

    /// The roster of no facts, where names are hashed so.
    fn with_hashing(alloc: Global, settings: Settings, hashing: NameHashing) -> Roster
        requires { IsWellSet settings }
        ensures { result ≡ record { settings = settings; facts = []; ready = [] } }
    {
        Roster {
            alloc,
            given: CheckedSettings::new(settings),
            people: People::new(alloc),
            marks: SessionEnds::new(alloc),
            nicks: Nicks::new(alloc, hashing),
            channels: Channels::new(alloc, hashing),
            stock: Stock::new(alloc),
            fresh: Stock::new(alloc),
            facts: blank(alloc),
            ready: blank(alloc),
        }
    }

    /// A copy, by which each look-up is answered as by this one. It is ready for no facts.
    pub fn copy(&self) -> Result<Roster, AllocError>
        ensures { IfOk result
            (λ r. r ≡ record { settings = self.now.settings; facts = self.now.facts; ready = [] }) }
    {
        Ok(Roster {
            alloc: self.alloc,
            given: self.given.try_clone()?,
            people: self.people.try_clone()?,
            marks: self.marks.try_clone()?,
            nicks: self.nicks.try_clone()?,
            channels: self.channels.try_clone()?,
            stock: Stock::new(self.alloc),
            fresh: Stock::new(self.alloc),
            facts: copy_of(&self.facts),
            ready: blank(self.alloc),
        })
    }

    /// Makes room for facts that may come next, in the place of those that it is ready for. An `Err` changes nothing:
    /// it is still ready for these.
    pub fn prepare(&mut self, deeds: &[Deed]) -> Result<(), AllocError>
        requires { AreNext self.old.facts deeds.now }
        ensures settings { self.new.settings ≡ self.old.settings }
        ensures facts { self.new.facts ≡ self.old.facts }
        ensures ready { OnOk result (self.new.ready ≡ deeds.now) }
        ensures err { OnErr result (self.new ≡ self.old) }
    {
        if deeds.is_empty() {
            self.ready = blank(self.alloc);
            return Ok(());
        }
        let changes = deeds.len().max(self.stock.keys.len());
        reserve_channels(&mut self.channels, deeds, changes)?;
        reserve_lists(&mut self.people, &mut self.marks, &self.channels, deeds)?;
        reserve_people(
            &mut self.people,
            &mut self.marks,
            &mut self.nicks,
            deeds.len(),
        )?;
        self.fresh.fill(self.alloc, deeds)?;
        swap(&mut self.stock, &mut self.fresh);
        self.ready = blank(self.alloc);
        append_all(&mut self.ready, deeds);
        Ok(())
    }

    /// Establishes the next fact for which room was made. It takes no memory.
    pub fn apply(&mut self, deed: Deed)
        requires { slice_get self.old.ready 0 ≡ Some deed }
        ensures settings { self.new.settings ≡ self.old.settings }
        ensures facts { self.new.facts ≡ deed ∷ self.old.facts }
        ensures ready { self.new.ready ≡ drop 1 self.old.ready }
    {
        apply::<Adds, LinkedList<Deed>, Deed>(&mut self.facts, &deed);
        apply::<DropsFirst, LinkedList<Deed>, ()>(&mut self.ready, &());
        self.marks.hear(&deed);
        match touched_by(deed) {
            TouchedTables::Person { deed } => self.people.tell(&mut self.marks, deed),
            TouchedTables::Nick { session, nick } => {
                let before = self.people.rename(&mut self.marks, session, nick);
                self.nicks.give_back(before);
                take(&mut self.nicks, &mut self.stock.keys, session);
            }
            TouchedTables::NewChannel { session, channel } => {
                make(
                    &mut self.channels,
                    &mut self.stock.spare,
                    &mut self.stock.keys,
                    channel,
                    session,
                );
                join_made(&mut self.people, &mut self.stock.copies, session);
            }
            TouchedTables::Channel {
                channel,
                change: made,
            } => {
                let seat = seat_of(&made);
                change(
                    &mut self.channels,
                    &mut self.stock.keys,
                    channel.as_slice(),
                    made,
                );
                reseat(&mut self.people, seat, channel);
            }
            TouchedTables::All { session } => {
                let names = self.people.names(&self.marks, session);
                self.channels.leave_each(names, session);
                let notes = self.people.notes(&self.marks, session);
                self.channels.leave_each(notes, session);
                let is_last = self.stock.keys.is_empty();
                let nick = self.people.forget(&mut self.marks, session, is_last);
                self.nicks.give_back(nick);
            }
        }
    }

    /// Establishes that the server ended a session, for which no room is needed. It takes no memory, and is ready
    /// for no facts after it.
    pub fn end(&mut self, session: SessionId, reason: Why)
        requires { IsOpened self.old.facts session }
        ensures settings { self.new.settings ≡ self.old.settings }
        ensures facts { self.new.facts ≡ Ended session reason [] ∷ self.old.facts }
        ensures ready { self.new.ready ≡ [] }
    {
        let deed = Deed::Ended {
            session,
            why: reason,
            text: Octets::from_vec(Vec::new(self.alloc)),
        };
        apply::<Adds, LinkedList<Deed>, Deed>(&mut self.facts, &deed);
        self.ready = blank(self.alloc);
        self.marks.set(session, reason);
        self.people.part(session);
    }

    /// What holds of every roster: each of its facts might come when it did, and those that it is ready for may come
    /// next.
    pub fn sound(&self)
        ensures legal { AreLegal self.now.facts }
        ensures next { AreNext self.now.facts self.now.ready }
    {
        let _ = &self.facts;
    }

    /// The server's settings.
    pub fn settings(&self) -> &Settings
        ensures value { result.now ≡ self.now.settings }
        ensures well_set { IsWellSet self.now.settings }
    {
        self.given.get()
    }

    /// How many sessions were opened: they have the numbers from 1.
    pub fn opened_count(&self) -> usize
        ensures count { result ≡ length (opened_in self.now.facts) }
        ensures bound { result < 2 ^ 63 }
    {
        self.marks.len()
    }

    /// The host of a session, empty where it wasn't opened or is gone.
    pub fn host_of(&self, session: SessionId) -> &[u8]
        ensures { result.now ≡ host self.now.facts session }
    {
        match self.people.find(&self.marks, session) {
            Some(person) => person.host.as_slice(),
            None => &[],
        }
    }

    /// The nickname of a session.
    pub fn nick_of(&self, session: SessionId) -> Option<&Octets>
        ensures nick { option_copied result ≡ nick self.now.facts session }
        ensures unknown { (IsOpened self.now.facts session → ⊥) → result ≡ None }
    {
        match self.people.find(&self.marks, session) {
            Some(person) => person.nick.as_ref(),
            None => None,
        }
    }

    /// The user name of a session.
    pub fn user_of(&self, session: SessionId) -> Option<&Octets>
        ensures { option_copied result ≡ user self.now.facts session }
    {
        match self.people.find(&self.marks, session) {
            Some(person) => person.user.as_ref(),
            None => None,
        }
    }

    /// The real name of a session.
    pub fn real_of(&self, session: SessionId) -> Option<&Octets>
        ensures { option_copied result ≡ real self.now.facts session }
    {
        match self.people.find(&self.marks, session) {
            Some(person) => person.real.as_ref(),
            None => None,
        }
    }

    /// What is known of a session while it registers.
    pub fn enrol_of(&self, session: SessionId) -> Enrol<'_>
        ensures { enrolment result ≡ enrol self.now.facts session }
    {
        match self.people.find(&self.marks, session) {
            Some(person) => enrol_of(person),
            None => blank_enrol(),
        }
    }

    /// The nickname, the user name and the host of a session, by one look-up.
    pub fn names_of(&self, session: SessionId) -> (Option<&Octets>, Option<&Octets>, &[u8])
        ensures nick { option_copied result.0 ≡ nick self.now.facts session }
        ensures user { option_copied result.1 ≡ user self.now.facts session }
        ensures host { result.2.now ≡ host self.now.facts session }
    {
        match self.people.find(&self.marks, session) {
            Some(found) => (
                found.nick.as_ref(),
                found.user.as_ref(),
                found.host.as_slice(),
            ),
            None => (None, None, &[]),
        }
    }

    /// The capabilities of a session.
    pub fn caps_of(&self, session: SessionId) -> Caps
        ensures { result ≡ caps self.now.facts session }
    {
        match self.people.find(&self.marks, session) {
            Some(person) => person.caps,
            None => Caps::none(),
        }
    }

    /// Whether a session is registered.
    pub fn is_registered(&self, session: SessionId) -> bool
        ensures { result ≡ registered self.now.facts session }
    {
        match self.people.find(&self.marks, session) {
            Some(person) => person.registered,
            None => false,
        }
    }

    /// The text with which a session is away.
    pub fn away_of(&self, session: SessionId) -> Option<&Octets>
        ensures { option_copied result ≡ away self.now.facts session }
    {
        match self.people.find(&self.marks, session) {
            Some(person) => person.away.as_ref(),
            None => None,
        }
    }

    /// Whether a session is hidden from those who aren't on its channels.
    pub fn is_invisible(&self, session: SessionId) -> bool
        ensures { result ≡ invisible self.now.facts session }
    {
        match self.people.find(&self.marks, session) {
            Some(person) => person.invisible,
            None => false,
        }
    }

    /// Why a session ended; where that was never told its outbox was full.
    pub fn why_of(&self, session: SessionId) -> Why
        ensures { result ≡ why self.now.facts session }
    {
        self.marks.why(session)
    }

    /// The text that a session's client gave when it ended.
    pub fn parting_of(&self, session: SessionId) -> &[u8]
        ensures { result.now ≡ parting_text self.now.facts session }
    {
        match self.people.find(&self.marks, session) {
            Some(person) => person.parting.as_slice(),
            None => &[],
        }
    }

    /// The session that holds a nickname.
    pub fn holder(&self, nick: &[u8]) -> Option<SessionId>
        ensures { result ≡ holder self.now.facts nick.now }
    {
        self.nicks.find(nick)
    }

    /// The user of a nickname: the registered session that holds it.
    pub fn find(&self, nick: &[u8]) -> Option<SessionId>
        ensures { result ≡ user_named self.now.facts nick.now }
    {
        let session = self.holder(nick)?;
        if self.is_registered(session) {
            Some(session)
        } else {
            None
        }
    }

    /// A channel, with who is on it and with which rank, its modes, topic and bans, and who is invited. `None` where
    /// it isn't there.
    pub fn state_of(&self, channel: &[u8]) -> Option<&ChannelState>
        ensures { option_map_or (λ k. k.now.state) result nothing
            ≡ state self.now.facts channel.now }
    {
        match self.channels.find(channel) {
            Some(channel) => Some(channel.held.get()),
            None => None,
        }
    }

    /// A channel that is there: its name as it was first spelled, and the channel, by one look-up.
    pub fn channel(&self, spelled: &[u8]) -> Option<(&Octets, &ChannelState)>
        ensures name { option_map (λ k. k.0.now) result ≡ name_of self.now.facts spelled.now }
        ensures state { option_map_or (λ k. k.1.now.state) result nothing
            ≡ state self.now.facts spelled.now }
    {
        match self.channels.find(spelled) {
            Some(found) => Some((&found.name, found.held.get())),
            None => None,
        }
    }

    /// Those on a channel, in the order of joining.
    pub fn members(&self, channel: &[u8]) -> &[SessionId]
        ensures { result.now ≡ members self.now.facts channel.now }
    {
        match self.channels.find(channel) {
            Some(channel) => channel.held.get().members(),
            None => &[],
        }
    }

    /// Whether a session is on a channel.
    pub fn is_on(&self, session: SessionId, channel: &[u8]) -> bool
        ensures { result ≡ on self.now.facts session channel.now }
    {
        has_name(self.channels_of(session), channel)
    }

    /// The name of a channel that is there, as it was first spelled.
    pub fn name_of(&self, channel: &[u8]) -> Option<&Octets>
        ensures { option_copied result ≡ name_of self.now.facts channel.now }
    {
        match self.channels.find(channel) {
            Some(channel) => Some(&channel.name),
            None => None,
        }
    }

    /// The channels of a session, by its last join of each.
    pub fn channels_of(&self, session: SessionId) -> &[Octets]
        ensures { result.now ≡ channels_on self.now.facts session }
    {
        self.people.names(&self.marks, session)
    }

    /// On how many channels a session is.
    pub fn channel_count_of(&self, session: SessionId) -> usize
        ensures { result ≡ channel_count self.now.facts session }
    {
        self.people.names(&self.marks, session).len()
    }

    /// How many channels there are.
    pub fn channel_count(&self) -> usize
        ensures { result ≡ length (channels self.now.facts) }
    {
        self.channels.len()
    }

    /// The channel at a place, from 0, in the order of making: its name as it was first spelled, and the channel.
    pub fn nth_channel(&self, place: usize) -> Option<(&Octets, &ChannelState)>
        ensures name { option_map (λ k. k.0.now) result
            ≡ slice_get (channels self.now.facts) place }
        ensures spelled { IfSome result (λ k. name_of self.now.facts k.0.now ≡ Some k.0.now) }
        ensures state { IfSome result (λ k. k.1.now.state ≡ state self.now.facts k.0.now) }
    {
        match self.channels.nth(place) {
            Some(channel) => Some((&channel.name, channel.held.get())),
            None => None,
        }
    }

    /// The other sessions that share a channel with one, each once, in order.
    pub fn sharers(&self, session: SessionId) -> Result<Sessions, AllocError>
        ensures { IfOk result (λ v. v ≡ sharers self.now.facts session) }
    {
        find_sharers(
            self.alloc,
            &self.people,
            &self.marks,
            &self.channels,
            session,
            self.marks.len(),
        )
    }
}
