//! What is asked for.
use channel_commands::ChannelCommand;
use mode_commands::ModeCommand;
use query_commands::Query;
use session_commands::SessionCommand;
use talk_commands::TalkCommand;

/// What a message asks for, by its topic.
#[derive(Drop)]
pub enum Command {
    /// For the session itself.
    Session(SessionCommand),
    /// About channels.
    Channel(ChannelCommand),
    /// About modes of channels and users.
    Mode(ModeCommand),
    /// To send something.
    Talk(TalkCommand),
    /// To be told something.
    Query(Query),
}
