//! What follows of facts, as functions that do nothing.
ghost use Rattle.roster.specs.Laws.{ChannelsHaveOneName, SpelledNamesAreNames, MembersAreOnIt, TopicsAreTheLast};
ghost use Rattle.roster.specs.Laws.{FlagsAreTheLast, KeysAreTheLast, LimitsAreTheLast, BansAreTheLast};
ghost use Rattle.roster.specs.Laws.{OperatorsAreTheLast, VoicesAreTheLast, InvitationsAreTheLast};
ghost use Rattle.roster.specs.Laws.{MembersAreThereOnce, SharersAreThereOnce, OwnChannelsAreThereOnce};

/// One name, however it is spelled, is the same channel (RFC 2812, section 2.2).
pub fn channels_have_one_name()
    ensures { ChannelsHaveOneName }
{}

/// A channel's name as it was first spelled is its name.
pub fn spelled_names_are_names()
    ensures { SpelledNamesAreNames }
{}

/// A session is on a channel exactly where it is among the members.
pub fn members_are_on_it()
    ensures { MembersAreOnIt }
{}

/// A channel's topic is the one that was set last, since it was made.
pub fn topics_are_the_last()
    ensures { TopicsAreTheLast }
{}

/// A channel's flag is set where that was told last, since it was made.
pub fn flags_are_the_last()
    ensures { FlagsAreTheLast }
{}

/// A channel's key is the one that was set last, since it was made.
pub fn keys_are_the_last()
    ensures { KeysAreTheLast }
{}

/// A channel's limit is the one that was set last, since it was made.
pub fn limits_are_the_last()
    ensures { LimitsAreTheLast }
{}

/// A mask is banned where it was set and not lifted since, however it is spelled.
pub fn bans_are_the_last()
    ensures { BansAreTheLast }
{}

/// A session is an operator where that was told last, since it joined.
pub fn operators_are_the_last()
    ensures { OperatorsAreTheLast }
{}

/// A session has a voice where that was told last, since it joined.
pub fn voices_are_the_last()
    ensures { VoicesAreTheLast }
{}

/// A session is invited where it was invited after it joined last; the last invitation counts.
pub fn invitations_are_the_last()
    ensures { InvitationsAreTheLast }
{}

/// No session is twice among the members of a channel.
pub fn members_are_there_once()
    ensures { MembersAreThereOnce }
{}

/// No session is twice among those who share a channel with one, nor is that one among them.
pub fn sharers_are_there_once()
    ensures { SharersAreThereOnce }
{}

/// No channel is twice among those of a session.
pub fn own_channels_are_there_once()
    ensures { OwnChannelsAreThereOnce }
{}
