//! The numerics (RFC 2812, section 5; IRCv3).
use crate::Prefix;
use line_grammar::{Octets, OctetsList};

/// A member of a channel.
#[derive(Drop)]
pub struct Who {
    pub channel: Octets,
    pub user: Octets,
    pub host: Octets,
    pub nick: Octets,
    /// Whether the member is away.
    pub away: bool,
    /// The mark of the member's rank.
    pub prefix: Option<Prefix>,
    /// The real name.
    pub real: Octets,
}

/// What the server answers or tells: a reply or an error of RFC 2812, section 5, or of IRCv3.
///
/// A word that can't stand as a middle parameter (it is empty, has a space or begins with a colon) is shown as `*`.
#[derive(Drop)]
pub enum Numeric {
    /// 001. Who has registered, as `nick!user@host`.
    Welcome(Octets),
    /// 002. The version that the server runs.
    YourHost(Octets),
    /// 003. When the server was created.
    Created(Octets),
    /// 004. The version, with the modes of users and channels that the server knows.
    MyInfo(Octets),
    /// 005. What the server supports: RPL_ISUPPORT, in no RFC. See [`tokens`](crate::tokens).
    ISupport(OctetsList),
    /// 221. The receiver's user modes.
    UModeIs(Octets),
    /// 301. Who is away, and why.
    Away {
        nick: Octets,
        text: Octets,
    },
    /// 305. The receiver is back.
    UnAway,
    /// 306. The receiver is away.
    NowAway,
    /// 311. Who a user is.
    WhoisUser {
        nick: Octets,
        user: Octets,
        host: Octets,
        real: Octets,
    },
    /// 312. Which server a user is on, and what it says of itself.
    WhoisServer {
        nick: Octets,
        info: Octets,
    },
    /// 315. What was asked about.
    EndOfWho(Octets),
    /// 318. Who was asked about.
    EndOfWhois(Octets),
    /// 319. Some of the channels that a user is on.
    WhoisChannels {
        nick: Octets,
        channels: OctetsList,
    },
    /// 322. A channel, how many are on it, and its topic.
    ListReply {
        channel: Octets,
        members: usize,
        topic: Octets,
    },
    /// 323. The end of a list of channels.
    ListEnd,
    /// 324. The modes of a channel, and their parameters.
    ChannelModeIs {
        channel: Octets,
        modes: Octets,
        params: OctetsList,
    },
    /// 331. A channel without a topic.
    NoTopic(Octets),
    /// 332. A channel and its topic.
    Topic {
        channel: Octets,
        topic: Octets,
    },
    /// 341. Who has been invited, and to which channel.
    Inviting {
        nick: Octets,
        channel: Octets,
    },
    /// 352. A member of a channel, whether the member is away, and with which mark.
    WhoReply(Who),
    /// 353. Some of the members of a channel, which may be secret; see [`with_prefix`].
    NamReply {
        secret: bool,
        channel: Octets,
        names: OctetsList,
    },
    /// 366. The channel whose members were told.
    EndOfNames(Octets),
    /// 367. A ban of a channel.
    BanList {
        channel: Octets,
        mask: Octets,
    },
    /// 368. The channel whose bans were told.
    EndOfBanList(Octets),
    /// 372. A line of the message of the day.
    Motd(Octets),
    /// 375. The message of the day begins.
    MotdStart,
    /// 376. The message of the day ends.
    EndOfMotd,
    /// 401. A name that nobody has.
    NoSuchNick(Octets),
    /// 402. A name that is no server's.
    NoSuchServer(Octets),
    /// 403. A name that no channel has.
    NoSuchChannel(Octets),
    /// 404. A channel that the receiver may not speak on.
    CannotSendToChan(Octets),
    /// 405. A channel that would be one too many.
    TooManyChannels(Octets),
    /// 407. The first target that is one too many.
    TooManyTargets(Octets),
    /// 409. A PING without a word.
    NoOrigin,
    /// 410. An unknown subcommand of CAP: IRCv3 capability negotiation.
    InvalidCapCmd(Octets),
    /// 411. The command, in upper case, that names nobody.
    NoRecipient(Octets),
    /// 412. A message without a text.
    NoTextToSend,
    /// 417. A line beyond the limits: ERR_INPUTTOOLONG, in no RFC.
    InputTooLong,
    /// 421. A command that the server doesn't know, as it was given.
    UnknownCommand(Octets),
    /// 422. There is no message of the day.
    NoMotd,
    /// 431. A nickname is missing.
    NoNicknameGiven,
    /// 432. What can be no nickname.
    ErroneousNickname(Octets),
    /// 433. A nickname that another has.
    NicknameInUse(Octets),
    /// 441. Who isn't on which channel.
    UserNotInChannel {
        nick: Octets,
        channel: Octets,
    },
    /// 442. A channel that the receiver isn't on.
    NotOnChannel(Octets),
    /// 443. Who is on which channel already.
    UserOnChannel {
        nick: Octets,
        channel: Octets,
    },
    /// 451. The receiver has to register first.
    NotRegistered,
    /// 461. The command, in upper case, that lacks a parameter.
    NeedMoreParams(Octets),
    /// 462. The receiver has registered before.
    AlreadyRegistered,
    /// 471. A channel at its limit of members.
    ChannelIsFull(Octets),
    /// 472. A letter that is no mode, and the channel whose modes were to change.
    UnknownMode {
        letter: u8,
        channel: Octets,
    },
    /// 473. A channel that the receiver isn't invited to.
    InviteOnlyChan(Octets),
    /// 474. A channel that the receiver is banned from.
    BannedFromChan(Octets),
    /// 475. A channel with another key.
    BadChannelKey(Octets),
    /// 482. A channel that the receiver is no operator of.
    ChanOPrivsNeeded(Octets),
    /// 501. A letter that is no user mode.
    UModeUnknownFlag,
    /// 502. Another user's modes.
    UsersDontMatch,
    /// 900. Who is logged in, as `nick!user@host` with `*` for what isn't known, and to which account: IRCv3 SASL,
    /// as all below.
    LoggedIn {
        source: Octets,
        account: Octets,
    },
    /// 903. An exchange has succeeded.
    SaslSuccess,
    /// 904. An exchange has failed.
    SaslFail,
    /// 905. A message of an exchange is too long.
    SaslTooLong,
    /// 906. An exchange has been given up.
    SaslAborted,
    /// 907. The receiver is logged in already.
    SaslAlready,
    /// 908. The mechanisms that there are.
    SaslMechs,
}
