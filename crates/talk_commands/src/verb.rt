//! The commands that carry a text or tags.
ghost use Rattle.std.specs.Prelude.{◌≡◌, ◌∷◌, is_some, option_copied, option_to_list, IfOk};
ghost use Rattle.numerics.specs.Outgoing.{line};
ghost use Rattle.talk_commands.specs.Lines.{sent_line, verb_name, verb_text};

use command_params::CommandName;
use line_grammar::Octets;
use numerics::Line;
use std::alloc::{AllocError, Global};
use std::marker::Model;

/// A command that carries a text or tags (RFC 2812, section 3.3; IRCv3 message-tags).
#[derive(Clone, Copy, PartialEq)]
pub enum Verb {
    /// What is wrong with it is answered with a numeric.
    Privmsg,
    /// It is never answered with one.
    Notice,
    /// It has no text, and reaches those alone who take tags.
    Tagmsg,
}

impl Verb {
    /// The command.
    fn name(self) -> CommandName
        ensures { result ≡ verb_name self }
    {
        match self {
            Verb::Privmsg => CommandName::Privmsg,
            Verb::Notice => CommandName::Notice,
            Verb::Tagmsg => CommandName::Tagmsg,
        }
    }

    /// The command's name.
    fn text(self) -> &'static [u8]
        ensures { result.now ≡ verb_text self }
    {
        self.name().text()
    }
}

/// What a session sends to users and channels.
#[derive(Drop)]
pub struct Sending<'a> {
    pub verb: Verb,
    /// `None` for TAGMSG.
    pub text: Option<&'a Octets>,
    /// The client's tags that are passed on, as tag data. Empty where there are none.
    pub tags: &'a Octets,
}

impl<'a> Model for Sending<'a> {
    ghost use Rattle.std.specs.Prelude.{option_copied};
    ghost use Rattle.talk_commands.specs.Lines.{Sent};

    ghost Value = { Sent };

    ghost view = { λ a. record { verb = a.verb; text = option_copied a.text; tags = a.tags.now } };
}

/// A line to a target, without a client's tags.
fn line_to(
    alloc: Global,
    from: &[u8],
    verb: Verb,
    target: &[u8],
    text: Option<&Octets>,
) -> Result<Line, AllocError>
    ensures { IfOk result (λ l. l ≡ line from.now (verb_text verb) (target.now
        ∷ option_to_list (option_copied text.entry)) (is_some (option_copied text.entry))) }
{
    match text {
        Some(text) => Line::with_text(alloc, from, verb.text(), &[target], text.as_slice()),
        None => Line::new(alloc, from, verb.text(), &[target]),
    }
}

impl Sending<'_> {
    /// The line that carries it to a target.
    pub(crate) fn line(&self, alloc: Global, from: &[u8], target: &[u8]) -> Result<Line, AllocError>
        ensures { IfOk result (λ l. l ≡ sent_line self.now from.now target.now) }
    {
        let line = line_to(alloc, from, self.verb, target, self.text)?;
        Ok(line.with_tags(self.tags.clone()?))
    }
}
