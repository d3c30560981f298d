//! The table of sessions.
ghost use Rattle.std.specs.Prelude.{◌≡◌, ◌+◌, ◌<◌, ◌≤◌, ◌==◌, ℕ, [], cond, false, option_copied};
ghost use Rattle.std.specs.Prelude.{unwrap_or, is_some, Some, IsSome, IfOk, IfSome, OnOk};
ghost use Rattle.registration.specs.Enrol.{enrolment};
ghost use Rattle.roster.specs.LookBack.{with_last_name, without_name};
ghost use Rattle.roster.specs.Tables.{nobody, enrolment_in, after_deed, subject, is_about, card_in, person_at};
ghost use Rattle.roster.specs.Lists.{row_of, Relists, Widens, Refits};

use crate::channel_lists::Names;
use crate::channels::Channels;
use crate::deed::Deed;
use crate::ends_of_sessions::SessionEnds;
use crate::tables::{Card, Person};
use channel_state::Quick;
use chronicle::SessionId;
use indexmap::IndexMap;
use line_grammar::Octets;
use registration::{Caps, Enrol};
use std::alloc::{AllocError, Global};
use std::marker::Model;
use std::mem::replace;

/// A session of which nothing is known but its host, if that.
fn stranger(alloc: Global, host: Octets) -> Person
    ensures { result ≡ record nobody { host = host } }
{
    Person {
        host,
        nick: None,
        user: None,
        real: None,
        held: false,
        caps: Caps::none(),
        exchange: None,
        account: None,
        registered: false,
        away: None,
        invisible: false,
        parting: Octets::from_vec(Vec::new(alloc)),
    }
}

/// A session of which nothing is known.
fn nobody(alloc: Global) -> Person
    ensures { result ≡ nobody }
{
    stranger(alloc, Octets::from_vec(Vec::new(alloc)))
}

/// Nothing is known of a session yet.
pub(crate) fn blank_enrol<'a>() -> Enrol<'a>
    ensures { enrolment result ≡ enrolment_in nobody }
{
    Enrol {
        nick: None,
        user: None,
        hold: false,
        caps: Caps::none(),
        exchange: None,
        account: None,
        registered: false,
    }
}

/// What is known of a session while it registers.
pub(crate) fn enrol_of(person: &Person) -> Enrol<'_>
    ensures { enrolment result ≡ enrolment_in person.now }
{
    Enrol {
        nick: person.nick.as_ref(),
        user: person.user.as_ref(),
        hold: person.held,
        caps: person.caps,
        exchange: person.exchange.as_ref(),
        account: person.account.as_ref(),
        registered: person.registered,
    }
}

/// The session of which a deed tells what is known of it.
fn subject(deed: &Deed) -> Option<SessionId>
    ensures { result ≡ subject deed.now }
{
    match deed {
        Deed::Opened { session, .. }
        | Deed::NickSet { session, .. }
        | Deed::UserSet { session, .. }
        | Deed::HoldSet { session, .. }
        | Deed::CapsSet { session, .. }
        | Deed::ExchangeSet { session, .. }
        | Deed::LoggedIn { session, .. }
        | Deed::Enrolled { session }
        | Deed::AwaySet { session, .. }
        | Deed::InvisibleSet { session, .. }
        | Deed::Ended { session, .. }
        | Deed::Gone { session } => Some(*session),
        Deed::ChannelMade { .. } | Deed::Changed { .. } => None,
    }
}

/// What is known of a session after a deed of it.
fn hear(alloc: Global, person: &mut Person, deed: Deed)
    ensures { person.new ≡ after_deed deed person.old }
{
    match deed {
        Deed::Opened { session: _, host } => *person = stranger(alloc, host),
        Deed::NickSet { session: _, nick } => person.nick = Some(nick),
        Deed::UserSet {
            session: _,
            user,
            real,
        } => {
            person.user = Some(user);
            person.real = Some(real);
        }
        Deed::HoldSet { session: _, held } => person.held = held,
        Deed::CapsSet { session: _, caps } => person.caps = caps,
        Deed::ExchangeSet {
            session: _,
            exchange,
        } => person.exchange = exchange,
        Deed::LoggedIn {
            session: _,
            account,
        } => person.account = Some(account),
        Deed::Enrolled { session: _ } => person.registered = true,
        Deed::AwaySet { session: _, text } => person.away = text,
        Deed::InvisibleSet { session: _, on } => person.invisible = on,
        Deed::Ended {
            session: _,
            why: _,
            text,
        } => person.parting = text,
        Deed::Gone { session: _ } => *person = nobody(alloc),
        Deed::ChannelMade { .. } | Deed::Changed { .. } => {}
    }
}

/// The sessions of which something is known, or that are on a channel, by their numbers.
#[derive(Drop)]
pub(crate) struct People {
    alloc: Global,
    cards: IndexMap<u64, Card, Quick>,
}

impl Model for People {
    ghost use Rattle.std.specs.Prelude.{ℕ};
    ghost use Rattle.indexmap.specs.IndexMap.{spare};
    ghost use Rattle.roster.specs.Table.{Table};
    ghost use Rattle.roster.specs.declared.tables.Card.{Card};

    ghost Value = { Table (ℕ × Card) };

    ghost view = { λ a. record { list = a.cards.entries; room = spare a.cards } };
}

impl People {
    /// Nobody.
    pub(crate) fn new(alloc: Global) -> People
        ensures { result.list ≡ [] }
    {
        People {
            alloc,
            cards: IndexMap::with_hasher(alloc, Quick::new()),
        }
    }

    /// A copy, with room for no more.
    pub(crate) fn try_clone(&self) -> Result<People, AllocError>
        ensures people { IfOk result
            (λ r. (t : ℕ) → person_at r.list t ≡ person_at self.now.list t) }
        ensures lists { IfOk result
            (λ r. (t : ℕ) → (row_of r.list t).list ≡ (row_of self.now.list t).list) }
        ensures notes { IfOk result
            (λ r. (t : ℕ) → (row_of r.list t).notes ≡ (row_of self.now.list t).notes) }
    {
        Ok(People {
            alloc: self.alloc,
            cards: self.cards.clone()?,
        })
    }

    /// Makes room for so many more.
    pub(crate) fn reserve(&mut self, more: usize) -> Result<(), AllocError>
        ensures list { self.new.list ≡ self.old.list }
        ensures kept { self.old.room ≤ self.new.room }
        ensures room { OnOk result (more ≤ self.new.room) }
    {
        self.cards.reserve(more)
    }

    /// The card at a place, where that is a session's.
    fn card_at(&self, place: usize, session: SessionId) -> Option<&Card>
        ensures { IfSome result (λ card. card_in self.now.list session ≡ Some card.now) }
    {
        let (number, card) = self.cards.get_index(place)?;
        if *number == session.number() {
            Some(card)
        } else {
            None
        }
    }

    /// The card of a session: where it was put last, if it is still there, and else by its number.
    fn card(&self, marks: &SessionEnds, session: SessionId) -> Option<&Card>
        ensures { option_copied result ≡ card_in self.now.list session }
    {
        match self.card_at(marks.place(session), session) {
            Some(card) => Some(card),
            None => self.cards.get(&session.number()),
        }
    }

    /// Whether a session has a card.
    fn has(&self, marks: &SessionEnds, session: SessionId) -> bool
        ensures { result ≡ is_some (card_in self.now.list session) }
    {
        self.card(marks, session).is_some()
    }

    /// What is known of a session.
    pub(crate) fn find(&self, marks: &SessionEnds, session: SessionId) -> Option<&Person>
        ensures { unwrap_or (option_copied result) nobody ≡ person_at self.now.list session }
    {
        match self.card(marks, session) {
            Some(card) => Some(&card.person),
            None => None,
        }
    }

    /// The channels of a session.
    pub(crate) fn names(&self, marks: &SessionEnds, session: SessionId) -> &[Octets]
        ensures { result.now ≡ (row_of self.now.list session).list }
    {
        match self.card(marks, session) {
            Some(card) => card.names.as_slice(),
            None => &[],
        }
    }

    /// The channels that may list a session among the invited: all that do are there.
    pub(crate) fn notes(&self, marks: &SessionEnds, session: SessionId) -> &[Octets]
        ensures { result.now ≡ (row_of self.now.list session).notes }
    {
        match self.card(marks, session) {
            Some(card) => card.names.notes(),
            None => &[],
        }
    }

    /// A session of which nothing is known has a card, too. There has to be room for it, and it takes no memory.
    fn open(&mut self, marks: &mut SessionEnds, session: SessionId)
        requires { 0 < self.old.room }
        ensures marks { marks.new ≡ marks.old }
        ensures people { (t : ℕ) → person_at self.new.list t ≡ person_at self.old.list t }
        ensures lists { Widens self.old.list self.new.list }
        ensures there { IsSome (card_in self.new.list session) }
        ensures room { self.old.room ≤ self.new.room + 1 }
    {
        if self.has(marks, session) {
            return;
        }
        marks.put(session, self.cards.len());
        let number = session.number();
        let person = nobody(self.alloc);
        let names = Names::new(self.alloc);
        let _ = self.cards.insert(number, Card { person, names }).unwrap();
    }

    /// What is known of a session that has a card changes by a deed of it.
    fn update(&mut self, session: SessionId, deed: Deed)
        requires { IsSome (card_in self.old.list session) }
        ensures people { (t : ℕ) → person_at self.new.list t ≡ cond (session == t)
            (after_deed deed (person_at self.old.list t)) (person_at self.old.list t) }
        ensures lists { Widens self.old.list self.new.list }
        ensures room { self.new.room ≡ self.old.room }
    {
        let Some(card) = self.cards.get_mut(&session.number()) else {
            unreachable!();
        };
        hear(self.alloc, &mut card.person, deed);
    }

    /// What is known of sessions changes by a deed. There has to be room for a card, and it takes no memory.
    pub(crate) fn tell(&mut self, marks: &mut SessionEnds, deed: Deed)
        requires { 0 < self.old.room }
        ensures marks { marks.new ≡ marks.old }
        ensures people { (t : ℕ) → person_at self.new.list t ≡ cond (is_about t deed)
            (after_deed deed (person_at self.old.list t)) (person_at self.old.list t) }
        ensures lists { Widens self.old.list self.new.list }
        ensures room { self.old.room ≤ self.new.room + 1 }
    {
        let Some(session) = subject(&deed) else {
            return;
        };
        self.open(marks, session);
        self.update(session, deed);
    }

    /// The nickname of a session that has a card becomes another. It returns the one before.
    fn change_nick(&mut self, session: SessionId, nick: Octets) -> Option<Octets>
        requires { IsSome (card_in self.old.list session) }
        ensures people { (t : ℕ) → person_at self.new.list t ≡ cond (session == t)
            (record (person_at self.old.list t) { nick = Some nick }) (person_at self.old.list t) }
        ensures nick { result ≡ (person_at self.old.list session).nick }
        ensures lists { Widens self.old.list self.new.list }
        ensures room { self.new.room ≡ self.old.room }
    {
        let Some(card) = self.cards.get_mut(&session.number()) else {
            unreachable!();
        };
        card.person.nick.replace(nick)
    }

    /// A session has this nickname from now on. It returns the one before. There has to be room for a card, and it
    /// takes no memory.
    pub(crate) fn rename(
        &mut self,
        marks: &mut SessionEnds,
        session: SessionId,
        nick: Octets,
    ) -> Option<Octets>
        requires { 0 < self.old.room }
        ensures marks { marks.new ≡ marks.old }
        ensures people { (t : ℕ) → person_at self.new.list t ≡ cond (session == t)
            (record (person_at self.old.list t) { nick = Some nick }) (person_at self.old.list t) }
        ensures nick { result ≡ (person_at self.old.list session).nick }
        ensures lists { Widens self.old.list self.new.list }
        ensures room { self.old.room ≤ self.new.room + 1 }
    {
        self.open(marks, session);
        self.change_nick(session, nick)
    }

    /// A session's client gave no text when it ended.
    pub(crate) fn part(&mut self, session: SessionId)
        ensures people { (t : ℕ) → person_at self.new.list t ≡ cond (session == t)
            (record (person_at self.old.list t) { parting = [] }) (person_at self.old.list t) }
        ensures lists { Widens self.old.list self.new.list }
        ensures room { self.new.room ≡ self.old.room }
    {
        let text = Octets::from_vec(Vec::new(self.alloc));
        if let Some(card) = self.cards.get_mut(&session.number()) {
            card.person.parting = text;
        }
    }

    /// Nothing is known of a session any more, and it is on no channel. Its card stays, with the room for names that
    /// it has.
    fn empty(&mut self, session: SessionId) -> Option<Octets>
        ensures people { (t : ℕ) → person_at self.new.list t
            ≡ cond (session == t) nobody (person_at self.old.list t) }
        ensures nick { result ≡ (person_at self.old.list session).nick }
        ensures lists { Relists self.old.list self.new.list (λ s cs. cond (session == s) [] cs)
            (λ s ns. cond (session == s) [] ns) (λ s. false) }
        ensures room { self.new.room ≡ self.old.room }
    {
        let stranger = nobody(self.alloc);
        let Some(card) = self.cards.get_mut(&session.number()) else {
            return None;
        };
        card.names.clear();
        let before = replace(&mut card.person, stranger);
        before.nick
    }

    /// The last card takes the place of one that was taken out: its session is told so.
    fn replace_at(&self, marks: &mut SessionEnds, place: usize)
        ensures { marks.new ≡ marks.old }
    {
        if let Some((number, _)) = self.cards.get_index(place) {
            marks.put(SessionId::new(*number), place);
        }
    }

    /// The card of a session is taken out.
    fn remove(&mut self, marks: &mut SessionEnds, session: SessionId) -> Option<Octets>
        ensures marks { marks.new ≡ marks.old }
        ensures people { (t : ℕ) → person_at self.new.list t
            ≡ cond (session == t) nobody (person_at self.old.list t) }
        ensures nick { result ≡ (person_at self.old.list session).nick }
        ensures lists { (t : ℕ) → row_of self.new.list t ≡ cond (session == t)
            (record { list = []; notes = []; room = 0 }) (row_of self.old.list t) }
        ensures room { self.old.room ≤ self.new.room }
    {
        let (place, _, card) = self.cards.swap_remove_full(&session.number())?;
        self.replace_at(marks, place);
        let person = card.person;
        person.nick
    }

    /// Nothing is known of a session any more, and it is on no channel. Its card is taken out, but where room for
    /// names in it may still be wanted. It returns the nickname that it had, and takes no memory.
    pub(crate) fn forget(
        &mut self,
        marks: &mut SessionEnds,
        session: SessionId,
        is_last: bool,
    ) -> Option<Octets>
        ensures marks { marks.new ≡ marks.old }
        ensures people { (t : ℕ) → person_at self.new.list t
            ≡ cond (session == t) nobody (person_at self.old.list t) }
        ensures nick { result ≡ (person_at self.old.list session).nick }
        ensures lists { (t : ℕ) → (row_of self.new.list t).list
            ≡ cond (session == t) [] (row_of self.old.list t).list }
        ensures notes { (t : ℕ) → (row_of self.new.list t).notes
            ≡ cond (session == t) [] (row_of self.old.list t).notes }
        ensures rooms { is_last ≡ false → (t : ℕ)
            → (row_of self.old.list t).room ≤ (row_of self.new.list t).room }
        ensures room { self.old.room ≤ self.new.room }
    {
        if is_last {
            self.remove(marks, session)
        } else {
            self.empty(session)
        }
    }

    /// A session joins a channel. It takes no memory.
    pub(crate) fn join(&mut self, session: SessionId, name: Octets)
        requires { 0 < (row_of self.old.list session).room }
        ensures people { (t : ℕ) → person_at self.new.list t ≡ person_at self.old.list t }
        ensures lists { Relists self.old.list self.new.list
            (λ s cs. cond (session == s) (with_last_name name cs) cs) (λ s ns. ns)
            (λ s. session == s) }
        ensures room { self.new.room ≡ self.old.room }
    {
        let Some(card) = self.cards.get_mut(&session.number()) else {
            unreachable!();
        };
        card.names.add(name);
    }

    /// A session leaves a channel. It takes no memory.
    pub(crate) fn leave(&mut self, session: SessionId, name: &[u8])
        ensures people { (t : ℕ) → person_at self.new.list t ≡ person_at self.old.list t }
        ensures lists { Relists self.old.list self.new.list
            (λ s cs. cond (session == s) (without_name name.now cs) cs) (λ s ns. ns) (λ s. false) }
        ensures room { self.new.room ≡ self.old.room }
    {
        if let Some(card) = self.cards.get_mut(&session.number()) {
            card.names.remove(name);
        }
    }

    /// A channel invites a session. It takes no memory.
    pub(crate) fn note(&mut self, session: SessionId, name: Octets)
        requires { 0 < (row_of self.old.list session).room }
        ensures people { (t : ℕ) → person_at self.new.list t ≡ person_at self.old.list t }
        ensures lists { Relists self.old.list self.new.list (λ s cs. cs)
            (λ s ns. cond (session == s) (with_last_name name ns) ns) (λ s. session == s) }
        ensures room { self.new.room ≡ self.old.room }
    {
        let Some(card) = self.cards.get_mut(&session.number()) else {
            unreachable!();
        };
        card.names.note(name);
    }

    /// Makes room for names in the card of a session.
    fn reserve_card(
        &mut self,
        channels: &Channels,
        session: SessionId,
        more: usize,
    ) -> Result<(), AllocError>
        ensures people { (t : ℕ) → person_at self.new.list t ≡ person_at self.old.list t }
        ensures lists { Refits channels.now.list self.old.list self.new.list }
        ensures names { OnOk result (IsSome (card_in self.old.list session)
            → more ≤ (row_of self.new.list session).room) }
        ensures room { self.new.room ≡ self.old.room }
    {
        let Some(card) = self.cards.get_mut(&session.number()) else {
            return Ok(());
        };
        card.names.refit(channels, session, more)
    }

    /// A session that has no card gets one, and there is room for as many more as before.
    fn add_card(&mut self, marks: &mut SessionEnds, session: SessionId) -> Result<(), AllocError>
        ensures marks { marks.new ≡ marks.old }
        ensures people { (t : ℕ) → person_at self.new.list t ≡ person_at self.old.list t }
        ensures lists { Widens self.old.list self.new.list }
        ensures there { OnOk result (IsSome (card_in self.new.list session)) }
        ensures room { self.old.room ≤ self.new.room }
    {
        if self.has(marks, session) {
            return Ok(());
        }
        let spare = self.cards.capacity() - self.cards.len();
        self.cards.reserve(spare.checked_add(1).ok_or(AllocError)?)?;
        self.open(marks, session);
        Ok(())
    }

    /// Makes room for names of channels of a session, which has a card then. Before its notes grow those are taken
    /// out whose channels invite it no more.
    pub(crate) fn reserve_names(
        &mut self,
        marks: &mut SessionEnds,
        channels: &Channels,
        session: SessionId,
        more: usize,
    ) -> Result<(), AllocError>
        ensures marks { marks.new ≡ marks.old }
        ensures people { (t : ℕ) → person_at self.new.list t ≡ person_at self.old.list t }
        ensures lists { Refits channels.now.list self.old.list self.new.list }
        ensures names { OnOk result (more ≤ (row_of self.new.list session).room) }
        ensures room { self.old.room ≤ self.new.room }
    {
        self.add_card(marks, session)?;
        self.reserve_card(channels, session, more)
    }
}
