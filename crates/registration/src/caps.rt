//! Capabilities (IRCv3 Capability Negotiation).
ghost use Rattle.std.specs.Prelude.{◌≡◌, IfOk, true, false, cond, Some, None};
ghost use Rattle.registration.specs.Caps.{EachCapIsKnown, after_request, after_word, all_caps, cap_name};
ghost use Rattle.registration.specs.Caps.{cap_named, is_known, is_on, list_of, none_on, caps_with};

use line_grammar::Octets;
use std::alloc::{AllocError, Global};

/// A capability.
#[derive(Clone, Copy, Debug, PartialEq)]
pub enum Cap {
    /// Others who go away or come back are shown (IRCv3 away-notify).
    AwayNotify,
    /// Lines that belong together are told so (IRCv3 batch).
    Batch,
    /// Sent texts come back to their sender (IRCv3 echo-message).
    EchoMessage,
    /// A join shows the account and the real name (IRCv3 extended-join).
    ExtendedJoin,
    /// Answers bear the label of their line (IRCv3 labeled-response).
    LabeledResponse,
    /// Tags of other clients are relayed (IRCv3 message-tags).
    MessageTags,
    /// Logging in (IRCv3 SASL 3.1).
    Sasl,
    /// Lines bear their moment (IRCv3 server-time).
    ServerTime,
}

/// How many there are.
const COUNT: usize = 8;

/// Every capability, sorted by name.
const ALL: [Cap; COUNT] = [
    Cap::AwayNotify,
    Cap::Batch,
    Cap::EchoMessage,
    Cap::ExtendedJoin,
    Cap::LabeledResponse,
    Cap::MessageTags,
    Cap::Sasl,
    Cap::ServerTime,
];

/// That no capability is left out among those that are known: each is known by its name.
pub fn each_cap_is_known()
    ensures { EachCapIsKnown }
{}

impl Cap {
    /// Every capability, sorted by name.
    pub fn all() -> &'static [Cap]
        ensures { result.now ≡ all_caps }
    {
        &ALL
    }

    /// Its name.
    pub fn name(&self) -> &'static [u8]
        ensures { result.now ≡ cap_name self.now }
    {
        match self {
            Cap::AwayNotify => b"away-notify",
            Cap::Batch => b"batch",
            Cap::EchoMessage => b"echo-message",
            Cap::ExtendedJoin => b"extended-join",
            Cap::LabeledResponse => b"labeled-response",
            Cap::MessageTags => b"message-tags",
            Cap::Sasl => b"sasl",
            Cap::ServerTime => b"server-time",
        }
    }

    /// The capability of a name. `None` where it is unknown.
    pub fn from_name(name: &[u8]) -> Option<Cap>
        ensures { result ≡ cap_named name.now }
    {
        ALL.iter().copied().find(|known| name == known.name())
    }
}

/// Which capabilities are on, each at its place among all.
#[derive(Clone, Copy, Debug, PartialEq)]
pub struct Caps {
    on: [bool; COUNT],
}

impl Caps {
    /// None is on.
    pub fn none() -> Caps
        ensures { result ≡ none_on }
    {
        Caps { on: [false; COUNT] }
    }

    /// Whether a capability is on.
    pub fn contains(self, cap: Cap) -> bool
        ensures { result ≡ is_on self cap }
    {
        self.on[cap as usize]
    }

    /// These, with one turned on.
    pub fn with(self, cap: Cap) -> Caps
        ensures { result ≡ caps_with self cap true }
    {
        self.set_to(cap, true)
    }

    /// These, with one turned off.
    pub fn without(self, cap: Cap) -> Caps
        ensures { result ≡ caps_with self cap false }
    {
        self.set_to(cap, false)
    }

    fn set_to(self, cap: Cap, on: bool) -> Caps
        ensures { result ≡ caps_with self cap on }
    {
        let mut caps = self;
        caps.on[cap as usize] = on;
        caps
    }

    /// Those that are on, sorted by name.
    pub fn list(self, alloc: Global) -> Result<Vec<Cap>, AllocError>
        ensures { IfOk result (λ list. list.items ≡ list_of self) }
    {
        ALL.iter()
            .copied()
            .filter(|cap| self.contains(*cap))
            .collect(alloc)
    }

    /// These after a word of a request, which turns its name off where it begins with `-`. `None` where
    /// the name is unknown.
    fn after_word(self, word: &[u8]) -> Option<Caps>
        ensures { result ≡ cond (is_known word.now) (Some (after_word self word.now)) None }
    {
        match word {
            [b'-', name @ ..] => Some(self.without(Cap::from_name(name)?)),
            name => Some(self.with(Cap::from_name(name)?)),
        }
    }
}

/// The capabilities after a request (`CAP REQ`), whose words count one after the other: each turns a
/// capability on, or off where it begins with `-`. `None` where one is unknown, which refuses them all.
#[tactic(auto, unfolding(crate::specs::Caps::after_request))]
pub fn after_request(caps: Caps, words: &[Octets]) -> Option<Caps>
    ensures { result ≡ after_request caps words.now }
{
    let mut after = caps;
    for word in words {
        after = after.after_word(word.as_slice())?;
    }
    Some(after)
}
