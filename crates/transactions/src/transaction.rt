//! A draft: a roster, and what a record does to it so far.
ghost use Rattle.std.specs.Prelude.{◌≡◌, ◌∷◌, ◌++◌, [], true, false, cond, None, Some};
ghost use Rattle.std.specs.Prelude.{option_copied, IfOk, IfSome, OnOk};
ghost use Rattle.registration.specs.Enrol.{enrolment};
ghost use Rattle.roster.specs.LookBack.{after, opened_in, host, nick, caps, exchange};
ghost use Rattle.roster.specs.LookBack.{registered, enrol, state, has_member, name};
ghost use Rattle.roster.specs.declared.deed.Deed.TheVariants.{ChannelMade, Changed};
ghost use Rattle.channel_state.specs.declared.change.Change.TheVariants.{Left};
ghost use Rattle.channel_state.specs.State.{among, with_change, is_some_one, made_by};
ghost use Rattle.roster.specs.Legal.{AreNext, IsFit, IsNext};
ghost use Rattle.transactions.specs.declared.effect.Effect.TheVariants.{Establish, Answer, Show, Copy};
ghost use Rattle.transactions.specs.Effects.{deeds_of};
ghost use Rattle.transactions.specs.Seen.{seen};
ghost use Rattle.transactions.specs.Tells.{touches};
ghost use Rattle.transactions.specs.Verdicts.{IsVerdict};

use crate::effect::Effect;
use crate::seen_channel::Seen;
use crate::verdict::Verdict;
use casemapping::is_same;
use channel_state::{Change, ChannelState};
use chronicle::SessionId;
use line_grammar::Octets;
use numerics::Line;
use registration::{Caps, Enrol};
use roster::{Deed, Roster, Sessions, channels_have_one_name, spelled_names_are_names};
use snapshots::{Snapshot, append, blank};
use std::alloc::{AllocError, Global};
use std::collections::LinkedList;
use std::marker::Model;

/// The facts of a roster with those that a record established so far, and the record's effects.
#[derive(Drop)]
pub struct Transaction<'a> {
    alloc: Global,
    roster: &'a Roster,
    session: SessionId,
    verdict: Verdict,
    effects: Snapshot<LinkedList<Effect>>,
}

impl<'a> Model for Transaction<'a> {
    ghost use Rattle.roster.specs.LookBack.{after};
    ghost use Rattle.transactions.specs.TransactionView.{TransactionView, IsKept};

    ghost Value = { TransactionView };

    ghost view = { λ a. record {
      settings = a.roster.now.settings;
      base = a.roster.now.facts;
      facts = after a.roster.now.facts a.verdict.deeds.items;
      effects = a.effects.value;
      session = a.session;
    } };

    ghost invariant = { λ a. IsKept a.roster.now.facts a.verdict a.session a.effects.value };
}

/// Whether a fact tells of a channel, or may: who is gone may have been on any.
fn touches(deed: &Deed, channel: &[u8]) -> bool
    ensures { result ≡ touches channel.now deed.now }
{
    match deed {
        Deed::ChannelMade { channel: name, .. } => is_same(name.as_slice(), channel),
        Deed::Changed { channel: name, .. } => is_same(name.as_slice(), channel),
        Deed::Gone { .. } => true,
        _ => false,
    }
}

/// A copy of a channel by its name, where somebody is on it.
fn there<'a>(name: Octets, state: ChannelState) -> Option<Seen<'a>>
    ensures { result ≡ cond (is_some_one state.state.members)
        (Some (record { name = name; state = state.state })) None }
{
    let seen = Seen::of_copy(name, state);
    if seen.state().is_there() {
        Some(seen)
    } else {
        None
    }
}

/// The channel of a name in a roster, where it is there.
fn known_channel<'a>(roster: &'a Roster, channel: &[u8]) -> Option<Seen<'a>>
    ensures { result ≡ seen roster.now.facts channel.now }
{
    let (name, state) = roster.channel(channel)?;
    Some(Seen::of_roster(name, state))
}

/// A channel that a session has just made.
fn new_channel(alloc: Global, session: SessionId) -> Result<ChannelState, AllocError>
    ensures { IfOk result (λ k. k.state ≡ made_by session) }
{
    let mut state = ChannelState::with_room(alloc, 1)?;
    state.make(session);
    Ok(state)
}

impl<'a> Transaction<'a> {
    ghost use Rattle.transactions.specs.TransactionView.{TransactionView, IsTransaction, grown};
    ghost use Rattle.transactions.specs.Seen.{IsSeen};

    /// The transaction of a session's record that does nothing yet.
    pub fn new(alloc: Global, roster: &'a Roster, session: SessionId) -> Transaction<'a>
        ensures { result ≡ record {
          settings = roster.now.settings;
          base = roster.now.facts;
          facts = roster.now.facts;
          effects = [];
          session = session;
        } }
    {
        Transaction {
            alloc,
            roster,
            session,
            verdict: Verdict::nothing(alloc),
            effects: blank(alloc),
        }
    }

    /// The allocator of what it makes.
    pub fn alloc(&self) -> Global {
        self.alloc
    }

    /// The roster before the record.
    pub fn before(&self) -> &'a Roster
        ensures facts { result.now.facts ≡ self.now.base }
        ensures settings { result.now.settings ≡ self.now.settings }
    {
        self.roster
    }

    /// What comes of the effects so far. Its facts may come next, and open no session.
    pub fn finish(self) -> Verdict
        ensures verdict { IsVerdict result self.entry.session self.entry.effects }
        ensures next { AreNext self.entry.base result.deeds.items }
        ensures opened { opened_in (after self.entry.base result.deeds.items)
            ≡ opened_in self.entry.base }
    {
        self.verdict
    }

    /// Adds an effect. At an `Err` nothing comes of the record any more.
    fn add(&mut self, effect: Effect) -> Result<(), AllocError>
        requires { IsTransaction self.old.facts (deeds_of (effect ∷ [])) }
        ensures { OnOk result (self.new ≡ grown self.old (effect ∷ [])) }
    {
        append(&mut self.effects, &effect);
        match self.verdict.add(effect, self.session) {
            Ok(()) => Ok(()),
            Err(error) => {
                self.effects = blank(self.alloc);
                self.verdict = Verdict::nothing(self.alloc);
                Err(error)
            }
        }
    }

    /// Establishes a fact that may come next and opens no session. Look-ups know it from here on.
    pub fn establish(&mut self, deed: Deed) -> Result<(), AllocError>
        requires next { IsNext self.old.facts deed }
        requires opened { opened_in (deed ∷ self.old.facts) ≡ opened_in self.old.facts }
        ensures { OnOk result (self.new ≡ grown self.old (Establish deed ∷ [])) }
    {
        self.add(Effect::Establish { deed })
    }

    /// Shows sessions a line, the record's own perhaps among them.
    pub fn show(&mut self, hearers: Sessions, line: Line) -> Result<(), AllocError>
        ensures { OnOk result (self.new ≡ grown self.old (Show hearers line ∷ [])) }
    {
        self.add(Effect::Show { hearers, line })
    }

    /// Answers the record's session with a line.
    pub fn answer(&mut self, line: Line) -> Result<(), AllocError>
        ensures { OnOk result (self.new ≡ grown self.old (Answer line ∷ [])) }
    {
        self.add(Effect::Answer { line })
    }

    /// Gives the record's session what it sent to itself, besides the answer.
    pub fn copy(&mut self, line: Line) -> Result<(), AllocError>
        ensures { OnOk result (self.new ≡ grown self.old (Copy line ∷ [])) }
    {
        self.add(Effect::Copy { line })
    }

    /// Whether the record established no fact so far: what is known is then what was known before it.
    pub(crate) fn tells_nothing(&self) -> bool
        ensures { result ≡ true → self.now.facts ≡ self.now.base }
    {
        self.verdict.deeds.is_empty()
    }

    /// The host of a session.
    pub(crate) fn host_of(&self, session: SessionId) -> &[u8]
        ensures { result.now ≡ host self.now.facts session }
    {
        let mut host = self.roster.host_of(session);
        for deed in &self.verdict.deeds {
            host = deed.tells_host(session).unwrap_or(host);
        }
        host
    }

    /// What is known of a session while it registers.
    pub fn enrol_of(&self, session: SessionId) -> Enrol<'_>
        ensures { enrolment result ≡ enrol self.now.facts session }
    {
        let mut enrol = self.roster.enrol_of(session);
        for deed in &self.verdict.deeds {
            enrol = deed.enroll(session, enrol);
        }
        enrol
    }

    /// The nickname of a session, if it has one.
    pub fn nick_of(&self, session: SessionId) -> Option<&Octets>
        ensures { option_copied result ≡ nick self.now.facts session }
    {
        self.enrol_of(session).nick
    }

    /// What a session sent so far of an exchange of SASL that is open.
    pub fn exchange_of(&self, session: SessionId) -> Option<&Octets>
        ensures { option_copied result ≡ exchange self.now.facts session }
    {
        self.enrol_of(session).exchange
    }

    /// The capabilities of a session.
    pub fn caps_of(&self, session: SessionId) -> Caps
        ensures { result ≡ caps self.now.facts session }
    {
        if self.tells_nothing() {
            return self.roster.caps_of(session);
        }
        self.enrol_of(session).caps
    }

    /// Whether a session is registered.
    pub fn is_registered(&self, session: SessionId) -> bool
        ensures { result ≡ registered self.now.facts session }
    {
        if self.tells_nothing() {
            return self.roster.is_registered(session);
        }
        self.enrol_of(session).registered
    }

    /// A channel, with who is on it and with which rank, its modes, topic and bans, and who is invited. Nobody is on
    /// one that isn't there.
    pub fn state_of(&self, channel: &[u8]) -> Result<ChannelState, AllocError>
        ensures { IfOk result (λ k. k.state ≡ state self.now.facts channel.now) }
    {
        let mut state = match self.roster.state_of(channel) {
            Some(state) => state.try_clone()?,
            None => ChannelState::nothing(self.alloc),
        };
        for deed in &self.verdict.deeds {
            deed.reshape(channel, &mut state)?;
        }
        Ok(state)
    }

    /// The name of a channel that has a member, as it was first spelled.
    fn spelling(&self, channel: &[u8]) -> Option<&Octets>
        ensures { has_member self.now.facts channel.now ≡ true
            → option_copied result ≡ Some (name self.now.facts channel.now) }
    {
        channels_have_one_name();
        let mut spelling = self.roster.name_of(channel);
        for deed in &self.verdict.deeds {
            spelling = deed.tells_name(channel).or(spelling);
        }
        spelling
    }

    /// Whether the record told of a channel, or may have. One that it didn't is as it was before.
    fn touches(&self, channel: &[u8]) -> bool
        ensures { result ≡ false → seen self.now.facts channel.now
            ≡ seen self.now.base channel.now }
    {
        for deed in &self.verdict.deeds {
            if touches(deed, channel) {
                return true;
            }
        }
        false
    }

    /// A copy of the channel of a name, where it is there.
    fn changed_channel(&self, channel: &[u8]) -> Result<Option<Seen<'a>>, AllocError>
        ensures { IfOk result (λ o. o ≡ seen self.now.facts channel.now) }
    {
        let Some(name) = self.spelling(channel) else {
            return Ok(None);
        };
        let name = name.clone()?;
        let state = self.state_of(channel)?;
        Ok(there(name, state))
    }

    /// The channel of a name, where it is there. One of which the record told nothing yet is looked at where it is
    /// kept.
    pub fn find(&self, channel: &[u8]) -> Result<Option<Seen<'a>>, AllocError>
        ensures seen { IfOk result (λ o. o ≡ seen self.now.facts channel.now) }
        ensures known { IfOk result (λ o. IfSome o (IsSeen self.now.facts)) }
    {
        channels_have_one_name();
        spelled_names_are_names();
        if self.touches(channel) {
            return self.changed_channel(channel);
        }
        Ok(known_channel(self.roster, channel))
    }

    /// Establishes that a session makes a channel that isn't there.
    fn establish_made(&mut self, session: SessionId, channel: &Octets) -> Result<(), AllocError>
        requires { has_member self.old.facts channel.now ≡ false }
        ensures { OnOk result
            (self.new ≡ grown self.old (Establish (ChannelMade session channel.now) ∷ [])) }
    {
        let channel = channel.clone()?;
        self.establish(Deed::ChannelMade { session, channel })
    }

    /// A session makes a channel that isn't there: the channel as it is then.
    pub fn make(&mut self, session: SessionId, channel: &Octets) -> Result<Seen<'a>, AllocError>
        requires { has_member self.old.facts channel.now ≡ false }
        ensures grown { OnOk result
            (self.new ≡ grown self.old (Establish (ChannelMade session channel.now) ∷ [])) }
        ensures seen { IfOk result
            (λ k. k ≡ record { name = channel.now; state = made_by session }) }
    {
        self.establish_made(session, channel)?;
        let name = channel.clone()?;
        let state = new_channel(self.alloc, session)?;
        Ok(Seen::of_copy(name, state))
    }

    /// Establishes that a channel changes in a way by which nobody leaves it. What was seen of it stays as it was.
    pub fn establish_change(&mut self, seen: &Seen<'_>, change: Change) -> Result<(), AllocError>
        requires seen { IsSeen self.old.facts seen.now }
        requires fit { IsFit seen.now.state change }
        requires lasts { is_some_one (with_change change seen.now.state).members ≡ true }
        ensures { OnOk result
            (self.new ≡ grown self.old (Establish (Changed seen.now.name change) ∷ [])) }
    {
        let channel = seen.name().clone()?;
        let deed = Deed::Changed { channel, change };
        self.establish(deed)
    }

    /// A channel changes in a way by which nobody leaves it, and is seen as it is then, in a copy.
    pub fn change(&mut self, seen: &mut Seen<'_>, change: Change) -> Result<(), AllocError>
        requires seen { IsSeen self.old.facts seen.old }
        requires fit { IsFit seen.old.state change }
        requires lasts { is_some_one (with_change change seen.old.state).members ≡ true }
        ensures grown { OnOk result
            (self.new ≡ grown self.old (Establish (Changed seen.old.name change) ∷ [])) }
        ensures now { OnOk result
            (seen.new ≡ record {
              name = seen.old.name;
              state =
                  with_change change seen.old.state;
            }) }
        ensures known { OnOk result (IsSeen self.new.facts seen.new) }
    {
        let channel = seen.name().clone()?;
        let same = change.clone()?;
        seen.look.copy()?;
        self.establish(Deed::Changed {
            channel,
            change: same,
        })?;
        seen.look.change(change);
        Ok(())
    }

    /// A member leaves a channel, by itself or put out.
    pub fn leave(&mut self, seen: &Seen<'_>, session: SessionId) -> Result<(), AllocError>
        requires seen { IsSeen self.old.facts seen.now }
        requires member { among session seen.now.state.members ≡ true }
        ensures { OnOk result
            (self.new ≡ grown self.old (Establish (Changed seen.now.name (Left session)) ∷ [])) }
    {
        let channel = seen.name().clone()?;
        let change = Change::Left { session };
        self.establish(Deed::Changed { channel, change })
    }
}
