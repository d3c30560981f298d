//! Every line that a record makes is clean, by its topic and then over any history. These functions do nothing: each
//! states a law.
#![tactic(auto)]

ghost use Rattle.clean_records.specs.Laws.{OwnRecordsAreClean, SessionCommandsAreClean, WelcomesAreClean};
ghost use Rattle.clean_records.specs.Laws.{ChannelCommandsAreClean, ModeCommandsAreClean, TalkCommandsAreClean};
ghost use Rattle.clean_records.specs.Laws.{QueriesAreClean, RecordsAreClean, FactsAreClean, LinesAreClean};
ghost use Rattle.clean_records.specs.Laws.{PingIsClean, AnswersAreClean, TextsAreCut};

pub use registration::accounts_are_named;

/// What the program itself records, of clean facts, makes clean lines and facts.
pub fn own_records_are_clean()
    ensures { OwnRecordsAreClean }
{}

/// So does each command of a session's own: CAP, AUTHENTICATE, PASS, NICK, USER, PING, PONG and QUIT.
pub fn session_commands_are_clean()
    ensures { SessionCommandsAreClean }
{}

/// And the welcome of a session that is complete.
pub fn welcomes_are_clean()
    ensures { WelcomesAreClean }
{}

/// So does what is sent: PRIVMSG, NOTICE, TAGMSG and AWAY.
pub fn talk_commands_are_clean()
    ensures { TalkCommandsAreClean }
{}

/// So does each command about channels: JOIN, PART, KICK, INVITE and TOPIC.
pub fn channel_commands_are_clean()
    ensures { ChannelCommandsAreClean }
{}

/// So does MODE, of a channel and of oneself.
pub fn mode_commands_are_clean()
    ensures { ModeCommandsAreClean }
{}

/// So does each command that only asks: NAMES, LIST, WHO, WHOIS and MOTD.
pub fn queries_are_clean()
    ensures { QueriesAreClean }
{}

/// Any record, of clean facts, makes clean lines and facts: a client's, where its piece is one line.
pub fn records_are_clean()
    ensures { RecordsAreClean }
{}

/// So the facts of a history are clean, whose pieces are one line each and whose hosts have their shape.
pub fn facts_are_clean()
    ensures { FactsAreClean }
{}

/// And every line that the next record answers, copies or shows.
pub fn lines_are_clean()
    ensures { LinesAreClean }
{}

/// And the PING of a tick.
pub fn ping_is_clean()
    ensures { PingIsClean }
{}

/// So an answer under a label that counts is clean, as the laws of `answer_octets` ask of it.
pub fn answers_are_clean()
    ensures { AnswersAreClean }
{}

/// And the text of any record to any session is cut into its lines again, none of which has a NUL, a CR or an LF.
pub fn texts_are_cut()
    ensures { TextsAreCut }
{}
