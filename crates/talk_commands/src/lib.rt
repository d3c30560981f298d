//! What the commands that carry texts or tags do: PRIVMSG, NOTICE, TAGMSG and AWAY (RFC 2812, sections 3.3 and 4.1;
//! IRCv3 message-tags; IRCv3 echo-message).
#![tactic(auto)]

mod away;
mod talk;
mod talking;
mod verb;

pub use away::{AWAYLEN, go_away};
pub use talk::{
    TalkCommand, is_unanswered, read_away, read_notice, read_privmsg, read_tagmsg, serve_talk,
};
pub use talking::send;
pub use verb::{Sending, Verb};
