//! Why a session ended.
ghost use Rattle.std.specs.Prelude.{◌≡◌};
ghost use Rattle.chronicle.specs.Reasons.{word, text};

/// Why a session ended.
#[derive(Clone, Copy, Debug, PartialEq)]
pub enum Why {
    /// Its client asked to quit.
    Quit,
    /// Its outbox was full.
    SendQ,
    /// Its input ended.
    ReadEnded,
    /// Its input failed.
    ReadFailed,
    /// Its output failed.
    WriteFailed,
    /// A growth was refused.
    Memory,
    /// The server stops.
    Shutdown,
    /// It was idle for too long.
    PingTimeout,
}

impl Why {
    /// The one word that a script says for it.
    pub fn word(self) -> &'static str
        ensures { result.now ≡ word self }
    {
        match self {
            Why::Quit => "quit",
            Why::SendQ => "sendq",
            Why::ReadEnded => "ended",
            Why::ReadFailed => "readfail",
            Why::WriteFailed => "writefail",
            Why::Memory => "memory",
            Why::Shutdown => "shutdown",
            Why::PingTimeout => "timeout",
        }
    }

    /// The text that users are shown.
    pub fn text(self) -> &'static str
        ensures { result.now ≡ text self }
    {
        match self {
            Why::Quit => "Client Quit",
            Why::SendQ => "Max SendQ exceeded",
            Why::ReadEnded => "Connection closed",
            Why::ReadFailed => "Read error",
            Why::WriteFailed => "Write error",
            Why::Memory => "Out of memory",
            Why::Shutdown => "Server shutting down",
            Why::PingTimeout => "Ping timeout",
        }
    }
}
