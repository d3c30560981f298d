//! What changes on a channel that is there.
use crate::Flag;
use chronicle::SessionId;
use line_grammar::Octets;

/// The rank of a member (RFC 2811, section 4.1).
#[derive(Clone, Copy)]
pub enum Rank {
    /// `o`: it may change the channel.
    Operator,
    /// `v`: it may speak where others may not.
    Voice,
}

/// What changes on a channel that is there.
#[derive(Clone, Drop)]
pub enum Change {
    /// A session joined.
    Joined {
        session: SessionId,
    },
    /// A member left, by itself or put out.
    Left {
        session: SessionId,
    },
    /// A member has this rank from now on, or hasn't.
    RankSet {
        session: SessionId,
        rank: Rank,
        on: bool,
    },
    /// A flag is set or cleared.
    FlagSet {
        flag: Flag,
        on: bool,
    },
    /// The channel has this key, or none.
    KeySet {
        key: Option<Octets>,
    },
    /// The channel has this limit, or none.
    LimitSet {
        limit: Option<u64>,
    },
    /// The channel has this topic, or none.
    TopicSet {
        topic: Option<Octets>,
    },
    /// A mask is banned.
    BanSet {
        mask: Octets,
    },
    /// A mask isn't banned any more, however it is spelled.
    BanLifted {
        mask: Octets,
    },
    /// A session is invited, by an operator or another member. The last invitation counts.
    Invited {
        session: SessionId,
        by_operator: bool,
    },
}
