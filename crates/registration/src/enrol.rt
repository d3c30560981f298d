//! What is known of a session while it registers, and what its commands are answered by that alone.
ghost use Rattle.std.specs.Prelude.{◌≡◌, ◌+◌, ◌≤◌, ◌++◌, length, take, true, option_copied, IfOk, IsErr};
ghost use Rattle.registration.specs.Enrol.{account_by, sasl_octets, sasl_start, cap_answer, ended_by, enrolment};
ghost use Rattle.registration.specs.Enrol.{gone_on, holds, is_own, is_ready, is_too_long, keeps_text};
ghost use Rattle.registration.specs.Enrol.{nick_answer, sasl_answer, user_answer};
ghost use Rattle.registration.specs.Plain.{credentials_of};

use crate::sasl::{EXCHANGELEN, account_by};
use crate::{Accounts, Cap, Caps, after_request};
use casemapping::{is_nick, is_same};
use line_grammar::Octets;
use std::alloc::{AllocError, Global};

/// Octets of a piece of an exchange of SASL, at most. One of just so many is followed by another.
const PIECELEN: usize = 400;

/// What a session has told of itself while it registers.
#[derive(Clone, Copy)]
pub struct Enrol<'a> {
    /// Its nickname.
    pub nick: Option<&'a Octets>,
    /// Its user name, by a USER that was accepted.
    pub user: Option<&'a Octets>,
    /// Whether registration waits for `CAP END`.
    pub hold: bool,
    /// Its capabilities.
    pub caps: Caps,
    /// What was sent so far of an exchange of SASL that is open.
    pub exchange: Option<&'a Octets>,
    /// The account by which it is logged in.
    pub account: Option<&'a Octets>,
    /// Whether it is registered.
    pub registered: bool,
}

/// What NICK is answered by.
#[derive(Clone, Copy, Debug, PartialEq)]
pub enum NickAnswer {
    /// It is no nickname (432).
    Erroneous,
    /// Another session holds it (433).
    InUse,
    /// It is the session's own in the same spelling, and nothing is done.
    Same,
    /// The session takes it.
    Taken,
}

/// What USER is answered by.
#[derive(Clone, Copy, Debug, PartialEq)]
pub enum UserAnswer {
    /// The user name is known from then on.
    Accepted,
    /// A USER was accepted before (462).
    AlreadyTold,
}

/// What `CAP REQ` is answered by.
#[derive(Clone, Copy, Debug, PartialEq)]
pub enum CapAnswer {
    /// These capabilities are on from then on (`ACK`).
    Acknowledged { caps: Caps },
    /// A capability is unknown (`NAK`).
    Refused,
}

/// What AUTHENTICATE is answered by.
#[derive(Drop)]
pub enum SaslAnswer {
    /// The session is logged in already (907).
    AlreadyLoggedIn,
    /// It isn't logged in, and an exchange that is open ends (904).
    Failed,
    /// An exchange is open from then on (`AUTHENTICATE +`).
    Opened,
    /// There is no such mechanism (908, 904).
    UnknownMechanism,
    /// The client ends the exchange (906).
    Aborted,
    /// The piece or the exchange is too long, which ends it (905).
    TooLong,
    /// Another piece is to come. This was sent so far, and nothing is answered.
    Waits { exchange: Octets },
    /// The session is logged in by this account, and the exchange ends (900, 903).
    LoggedIn { account: Octets },
}

impl Enrol<'_> {
    /// What NICK is answered by, where it is known whether another session holds the nickname.
    #[tactic(auto, unfolding(crate::specs::Enrol::nick_answer))]
    pub fn nick(&self, nick: &[u8], is_held: bool) -> NickAnswer
        ensures { result ≡ nick_answer (enrolment self.now) nick.now is_held }
    {
        if !is_nick(nick) {
            NickAnswer::Erroneous
        } else if is_held {
            NickAnswer::InUse
        } else if self.is_own(nick) {
            NickAnswer::Same
        } else {
            NickAnswer::Taken
        }
    }

    fn is_own(&self, nick: &[u8]) -> bool
        ensures { result ≡ is_own (option_copied self.now.nick) nick.now }
    {
        match self.nick {
            Some(own) => own.as_slice() == nick,
            None => false,
        }
    }

    /// What USER is answered by.
    pub fn user(&self) -> UserAnswer
        ensures { result ≡ user_answer (enrolment self.now) }
    {
        match self.user {
            Some(_) => UserAnswer::AlreadyTold,
            None => UserAnswer::Accepted,
        }
    }

    /// What `CAP REQ` is answered by, whose words count one after the other.
    pub fn cap(&self, words: &[Octets]) -> CapAnswer
        ensures { result ≡ cap_answer (enrolment self.now) words.now }
    {
        match after_request(self.caps, words) {
            Some(caps) => CapAnswer::Acknowledged { caps },
            None => CapAnswer::Refused,
        }
    }

    /// Whether `CAP LS` and `CAP REQ` hold the registration until `CAP END`.
    pub fn holds(&self) -> bool
        ensures { result ≡ holds (enrolment self.now) }
    {
        !self.registered
    }

    /// What AUTHENTICATE is answered by.
    #[tactic(auto, unfolding(crate::specs::Enrol::sasl_answer))]
    pub fn authenticate(
        &self,
        alloc: Global,
        accounts: &Accounts,
        piece: &[u8],
    ) -> Result<SaslAnswer, AllocError>
        ensures answer { IfOk result
            (λ answer. answer ≡ sasl_answer accounts.now (enrolment self.now) piece.now) }

        // Memory is wanting only where the exchange goes on or the session is logged in.
        ensures memory { IsErr result
            → keeps_text (sasl_answer accounts.now (enrolment self.now) piece.now) ≡ true }
    {
        if self.account.is_some() {
            return Ok(SaslAnswer::AlreadyLoggedIn);
        }
        if !self.caps.contains(Cap::Sasl) {
            return Ok(SaslAnswer::Failed);
        }
        match self.exchange {
            None => Ok(begin(piece)),
            Some(_) if piece == b"*".as_slice() => Ok(SaslAnswer::Aborted),
            Some(so_far) => go_on(alloc, accounts, so_far.as_slice(), octets_in(piece)),
        }
    }

    /// Whether what was told completes the registration.
    pub fn ready(&self) -> bool
        ensures { result ≡ is_ready (enrolment self.now) }
    {
        self.nick.is_some() && self.user.is_some() && !self.hold && !self.registered
    }
}

/// Outside an exchange a word names a mechanism.
fn begin(word: &[u8]) -> SaslAnswer
    ensures { result ≡ sasl_start word.now }
{
    if is_same(word, b"PLAIN") {
        SaslAnswer::Opened
    } else {
        SaslAnswer::UnknownMechanism
    }
}

/// The octets that a piece adds.
fn octets_in(piece: &[u8]) -> &[u8]
    ensures { result.now ≡ sasl_octets piece.now }
{
    if piece == b"+".as_slice() { &[] } else { piece }
}

fn is_too_long(so_far: &[u8], octets: &[u8]) -> bool
    ensures { result ≡ is_too_long so_far.now octets.now }
{
    octets.len() > PIECELEN || so_far.len() + octets.len() > EXCHANGELEN
}

fn concat(alloc: Global, so_far: &[u8], octets: &[u8]) -> Result<Octets, AllocError>
    ensures { IfOk result (λ whole. whole ≡ so_far.now ++ octets.now) }
{
    let mut whole = Octets::copy_of(alloc, so_far)?;
    whole.extend_from_slice(octets)?;
    Ok(whole)
}

/// Writes what was sent, and what comes after it, to the front of the room, and answers how long it is.
fn join_into(room: &mut [u8], so_far: &[u8], octets: &[u8]) -> usize
    requires { length so_far.now + length octets.now ≤ length room.old }
    ensures len { result ≡ length so_far.now + length octets.now }
    ensures joined { take result room.new ≡ so_far.now ++ octets.now }
{
    let len = so_far.len() + octets.len();
    room[..so_far.len()].copy_from_slice(so_far);
    room[so_far.len()..len].copy_from_slice(octets);
    len
}

fn end(accounts: &Accounts, payload: &[u8]) -> Result<SaslAnswer, AllocError>
    requires { length payload.now ≤ 1200 }
    ensures answer { IfOk result
        (λ answer. answer ≡ ended_by (account_by accounts.now (credentials_of payload.now))) }
    ensures memory { IsErr result
        → keeps_text (ended_by (account_by accounts.now (credentials_of payload.now))) ≡ true }
{
    match account_by(accounts, payload)? {
        Some(account) => Ok(SaslAnswer::LoggedIn { account }),
        None => Ok(SaslAnswer::Failed),
    }
}

/// An exchange that is open takes one piece more. Its last piece is read in room that takes no memory.
fn go_on(
    alloc: Global,
    accounts: &Accounts,
    so_far: &[u8],
    octets: &[u8],
) -> Result<SaslAnswer, AllocError>
    ensures answer { IfOk result (λ answer. answer ≡ gone_on accounts.now so_far.now octets.now) }
    ensures memory { IsErr result → keeps_text (gone_on accounts.now so_far.now octets.now) ≡ true }
{
    if is_too_long(so_far, octets) {
        return Ok(SaslAnswer::TooLong);
    }
    if octets.len() == PIECELEN {
        let exchange = concat(alloc, so_far, octets)?;
        return Ok(SaslAnswer::Waits { exchange });
    }
    let mut payload = [0; EXCHANGELEN];
    let len = join_into(&mut payload, so_far, octets);
    end(accounts, &payload[..len])
}
