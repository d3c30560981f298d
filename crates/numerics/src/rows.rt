//! The numerics as rows (RFC 2812, section 5; IRCv3).
ghost use Rattle.std.specs.Prelude.{◌≡◌, IfOk};
ghost use Rattle.numerics.specs.Numerics.{numeric, row};
ghost use Rattle.numerics.specs.Borrowed.{row_of};

use crate::Numeric::*;
use crate::row_lines::RowText::{Ending, Given, Joined, Said, Spaced, Without};
use crate::row_lines::Word::{Flags, Letter, Number, Of, Plain, Sign};
use crate::row_lines::Words::{Before, Each, Four, No, One, Six, Two};
use crate::row_lines::{NumericRow, line_of};
use crate::{Line, Numeric};
use std::alloc::{AllocError, Global};

impl Numeric {
    /// The line from a server to a nickname, or to `*`.
    #[tactic(auto, unfolding(crate::specs::Numerics::numeric))]
    pub fn line(&self, alloc: Global, server: &[u8], to: &[u8]) -> Result<Line, AllocError>
        ensures { IfOk result (λ o. o ≡ numeric server.now to.now self.now) }
    {
        line_of(alloc, server, to, &row_of(self, server))
    }
}

/// The table: the row of each numeric, one after the other.
fn row_of<'a>(numeric: &'a Numeric, server: &'a [u8]) -> NumericRow<'a>
    ensures { row_of result ≡ row server.now numeric.now }
{
    match numeric {
        Welcome(source) => NumericRow(
            b"001",
            No,
            Ending(b"Welcome to the Internet Relay Network ", source),
        ),
        YourHost(version) => NumericRow(
            b"002",
            No,
            Joined(
                Plain(b"Your host is "),
                Plain(server),
                Plain(b", running version "),
                Of(version),
            ),
        ),
        Created(time) => NumericRow(b"003", No, Ending(b"This server was created ", time)),
        MyInfo(version) => NumericRow(
            b"004",
            Four(
                Plain(server),
                Of(version),
                Plain(b"i"),
                Plain(b"biklmnostv"),
            ),
            Without,
        ),
        ISupport(tokens) => NumericRow(b"005", Each(tokens), Said(b"are supported by this server")),
        UModeIs(modes) => NumericRow(b"221", One(Of(modes)), Without),
        Away { nick, text } => NumericRow(b"301", One(Of(nick)), Given(text)),
        UnAway => NumericRow(b"305", No, Said(b"You are no longer marked as being away")),
        NowAway => NumericRow(b"306", No, Said(b"You have been marked as being away")),
        WhoisUser {
            nick,
            user,
            host,
            real,
        } => NumericRow(
            b"311",
            Four(Of(nick), Of(user), Of(host), Plain(b"*")),
            Given(real),
        ),
        WhoisServer { nick, info } => NumericRow(b"312", Two(Of(nick), Plain(server)), Given(info)),
        EndOfWho(name) => NumericRow(b"315", One(Of(name)), Said(b"End of WHO list")),
        EndOfWhois(nick) => NumericRow(b"318", One(Of(nick)), Said(b"End of WHOIS list")),
        WhoisChannels { nick, channels } => NumericRow(b"319", One(Of(nick)), Spaced(channels)),
        ListReply {
            channel,
            members,
            topic,
        } => NumericRow(b"322", Two(Of(channel), Number(*members)), Given(topic)),
        ListEnd => NumericRow(b"323", No, Said(b"End of LIST")),
        ChannelModeIs {
            channel,
            modes,
            params,
        } => NumericRow(b"324", Before(Of(channel), Of(modes), params), Without),
        NoTopic(channel) => NumericRow(b"331", One(Of(channel)), Said(b"No topic is set")),
        Topic { channel, topic } => NumericRow(b"332", One(Of(channel)), Given(topic)),
        Inviting { nick, channel } => NumericRow(b"341", Two(Of(nick), Of(channel)), Without),
        WhoReply(who) => NumericRow(
            b"352",
            Six(
                Of(&who.channel),
                Of(&who.user),
                Of(&who.host),
                Plain(server),
                Of(&who.nick),
                Flags(who.away, who.prefix),
            ),
            Ending(b"0 ", &who.real),
        ),
        NamReply {
            secret,
            channel,
            names,
        } => NumericRow(b"353", Two(Sign(*secret), Of(channel)), Spaced(names)),
        EndOfNames(channel) => NumericRow(b"366", One(Of(channel)), Said(b"End of NAMES list")),
        BanList { channel, mask } => NumericRow(b"367", Two(Of(channel), Of(mask)), Without),
        EndOfBanList(channel) => NumericRow(
            b"368",
            One(Of(channel)),
            Said(b"End of channel ban list"),
        ),
        Motd(text) => NumericRow(b"372", No, Ending(b"- ", text)),
        MotdStart => NumericRow(
            b"375",
            No,
            Joined(
                Plain(b"- "),
                Plain(server),
                Plain(b" Message of the day - "),
                Plain(b""),
            ),
        ),
        EndOfMotd => NumericRow(b"376", No, Said(b"End of MOTD command")),
        NoSuchNick(name) => NumericRow(b"401", One(Of(name)), Said(b"No such nick/channel")),
        NoSuchServer(name) => NumericRow(b"402", One(Of(name)), Said(b"No such server")),
        NoSuchChannel(channel) => NumericRow(b"403", One(Of(channel)), Said(b"No such channel")),
        CannotSendToChan(channel) => NumericRow(
            b"404",
            One(Of(channel)),
            Said(b"Cannot send to channel"),
        ),
        TooManyChannels(channel) => NumericRow(
            b"405",
            One(Of(channel)),
            Said(b"You have joined too many channels"),
        ),
        TooManyTargets(target) => NumericRow(b"407", One(Of(target)), Said(b"Too many targets")),
        NoOrigin => NumericRow(b"409", No, Said(b"No origin specified")),
        InvalidCapCmd(subcommand) => NumericRow(
            b"410",
            One(Of(subcommand)),
            Said(b"Invalid CAP command"),
        ),
        NoRecipient(command) => NumericRow(
            b"411",
            No,
            Joined(
                Plain(b"No recipient given ("),
                Of(command),
                Plain(b")"),
                Plain(b""),
            ),
        ),
        NoTextToSend => NumericRow(b"412", No, Said(b"No text to send")),
        InputTooLong => NumericRow(b"417", No, Said(b"Input line was too long")),
        UnknownCommand(command) => NumericRow(b"421", One(Of(command)), Said(b"Unknown command")),
        NoMotd => NumericRow(b"422", No, Said(b"MOTD File is missing")),
        NoNicknameGiven => NumericRow(b"431", No, Said(b"No nickname given")),
        ErroneousNickname(nick) => NumericRow(b"432", One(Of(nick)), Said(b"Erroneous nickname")),
        NicknameInUse(nick) => NumericRow(
            b"433",
            One(Of(nick)),
            Said(b"Nickname is already in use"),
        ),
        UserNotInChannel { nick, channel } => NumericRow(
            b"441",
            Two(Of(nick), Of(channel)),
            Said(b"They aren't on that channel"),
        ),
        NotOnChannel(channel) => NumericRow(
            b"442",
            One(Of(channel)),
            Said(b"You're not on that channel"),
        ),
        UserOnChannel { nick, channel } => NumericRow(
            b"443",
            Two(Of(nick), Of(channel)),
            Said(b"is already on channel"),
        ),
        NotRegistered => NumericRow(b"451", No, Said(b"You have not registered")),
        NeedMoreParams(command) => NumericRow(
            b"461",
            One(Of(command)),
            Said(b"Not enough parameters"),
        ),
        AlreadyRegistered => NumericRow(
            b"462",
            No,
            Said(b"Unauthorized command (already registered)"),
        ),
        ChannelIsFull(channel) => NumericRow(
            b"471",
            One(Of(channel)),
            Said(b"Cannot join channel (+l)"),
        ),
        UnknownMode { letter, channel } => NumericRow(
            b"472",
            One(Letter(*letter)),
            Ending(b"is unknown mode char to me for ", channel),
        ),
        InviteOnlyChan(channel) => NumericRow(
            b"473",
            One(Of(channel)),
            Said(b"Cannot join channel (+i)"),
        ),
        BannedFromChan(channel) => NumericRow(
            b"474",
            One(Of(channel)),
            Said(b"Cannot join channel (+b)"),
        ),
        BadChannelKey(channel) => NumericRow(
            b"475",
            One(Of(channel)),
            Said(b"Cannot join channel (+k)"),
        ),
        ChanOPrivsNeeded(channel) => NumericRow(
            b"482",
            One(Of(channel)),
            Said(b"You're not channel operator"),
        ),
        UModeUnknownFlag => NumericRow(b"501", No, Said(b"Unknown MODE flag")),
        UsersDontMatch => NumericRow(b"502", No, Said(b"Cannot change mode for other users")),
        LoggedIn { source, account } => NumericRow(
            b"900",
            Two(Of(source), Of(account)),
            Ending(b"You are now logged in as ", account),
        ),
        SaslSuccess => NumericRow(b"903", No, Said(b"SASL authentication successful")),
        SaslFail => NumericRow(b"904", No, Said(b"SASL authentication failed")),
        SaslTooLong => NumericRow(b"905", No, Said(b"SASL message too long")),
        SaslAborted => NumericRow(b"906", No, Said(b"SASL authentication aborted")),
        SaslAlready => NumericRow(
            b"907",
            No,
            Said(b"You have already authenticated using SASL"),
        ),
        SaslMechs => NumericRow(
            b"908",
            One(Plain(b"PLAIN")),
            Said(b"are available SASL mechanisms"),
        ),
    }
}
