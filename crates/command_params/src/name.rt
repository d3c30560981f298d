//! The commands that are served, and their names (RFC 2812, section 2.3.1), which are taken in either case.
ghost use Rattle.std.specs.Prelude.{◌≡◌};
ghost use Rattle.std.specs.Str.{str_eq_ignore_ascii_case};
ghost use Rattle.command_params.specs.Names.{EachNameIsRead, name_text, known_name};

/// A command that is served.
#[derive(Clone, Copy)]
pub enum CommandName {
    Quit,
    Ping,
    Pong,
    Privmsg,
    Notice,
    Tagmsg,
    Away,
    Join,
    Part,
    Kick,
    Invite,
    Topic,
    Mode,
    Names,
    List,
    Who,
    Whois,
    Motd,
    Cap,
    Authenticate,
    Pass,
    Nick,
    User,
}

/// Each of them.
const ALL: [CommandName; 23] = [
    CommandName::Quit,
    CommandName::Ping,
    CommandName::Pong,
    CommandName::Privmsg,
    CommandName::Notice,
    CommandName::Tagmsg,
    CommandName::Away,
    CommandName::Join,
    CommandName::Part,
    CommandName::Kick,
    CommandName::Invite,
    CommandName::Topic,
    CommandName::Mode,
    CommandName::Names,
    CommandName::List,
    CommandName::Who,
    CommandName::Whois,
    CommandName::Motd,
    CommandName::Cap,
    CommandName::Authenticate,
    CommandName::Pass,
    CommandName::Nick,
    CommandName::User,
];

impl CommandName {
    /// The command of a name, in either case. `None` where none is served by it.
    #[tactic(auto, unfolding(crate::specs::Names::known_name))]
    pub fn read(name: &[u8]) -> Option<CommandName>
        ensures { result ≡ known_name name.now }
    {
        ALL.iter()
            .copied()
            .find(|known| is_named(name, known.text()))
    }

    /// The name in upper case.
    pub fn text(&self) -> &'static [u8]
        ensures { result.now ≡ name_text self.now }
    {
        match self {
            CommandName::Quit => b"QUIT",
            CommandName::Ping => b"PING",
            CommandName::Pong => b"PONG",
            CommandName::Privmsg => b"PRIVMSG",
            CommandName::Notice => b"NOTICE",
            CommandName::Tagmsg => b"TAGMSG",
            CommandName::Away => b"AWAY",
            CommandName::Join => b"JOIN",
            CommandName::Part => b"PART",
            CommandName::Kick => b"KICK",
            CommandName::Invite => b"INVITE",
            CommandName::Topic => b"TOPIC",
            CommandName::Mode => b"MODE",
            CommandName::Names => b"NAMES",
            CommandName::List => b"LIST",
            CommandName::Who => b"WHO",
            CommandName::Whois => b"WHOIS",
            CommandName::Motd => b"MOTD",
            CommandName::Cap => b"CAP",
            CommandName::Authenticate => b"AUTHENTICATE",
            CommandName::Pass => b"PASS",
            CommandName::Nick => b"NICK",
            CommandName::User => b"USER",
        }
    }
}

/// That each command is read by its own name: none is left out, and no two have one name.
pub fn each_name_is_read()
    ensures { EachNameIsRead }
{}

/// Whether two names are the same in either case.
pub fn is_named(name: &[u8], other: &[u8]) -> bool
    ensures { result ≡ str_eq_ignore_ascii_case name.now other.now }
{
    name == other || name.eq_ignore_ascii_case(other)
}
