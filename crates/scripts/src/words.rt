//! Words of a step.
ghost use Rattle.std.specs.Prelude.{◌≡◌};
ghost use Rattle.std.specs.Option.{option_map};
ghost use Rattle.scripts.specs.Script.{session_of, worker_of, why_of, in_quotes};

use crate::number::number;
use interleave::{SessionId, Why, WorkerId};

/// The session that a word names.
pub(crate) fn session(word: &[u8]) -> Option<SessionId>
    ensures { result ≡ session_of word.now }
{
    Some(SessionId::new(number(word)?))
}

/// The worker that a word names.
pub(crate) fn worker(word: &[u8]) -> Option<WorkerId>
    ensures { result ≡ worker_of word.now }
{
    Some(WorkerId::new(number(word)?))
}

/// The reason that a word names.
pub(crate) fn why(word: &[u8]) -> Option<Why>
    ensures { result ≡ why_of word.now }
{
    if word == Why::Quit.word().as_bytes() {
        Some(Why::Quit)
    } else if word == Why::SendQ.word().as_bytes() {
        Some(Why::SendQ)
    } else if word == Why::ReadEnded.word().as_bytes() {
        Some(Why::ReadEnded)
    } else if word == Why::ReadFailed.word().as_bytes() {
        Some(Why::ReadFailed)
    } else if word == Why::WriteFailed.word().as_bytes() {
        Some(Why::WriteFailed)
    } else if word == Why::Memory.word().as_bytes() {
        Some(Why::Memory)
    } else if word == Why::Shutdown.word().as_bytes() {
        Some(Why::Shutdown)
    } else if word == Why::PingTimeout.word().as_bytes() {
        Some(Why::PingTimeout)
    } else {
        None
    }
}

/// What stands between a quote at the front and a quote at the end.
pub(crate) fn inside_quotes(text: &[u8]) -> Option<&[u8]>
    ensures { option_map (λ inner. inner.now) result ≡ in_quotes text.now }
{
    let (first, more) = text.split_first()?;
    let (last, inner) = more.split_last()?;
    if *first == b'"' && *last == b'"' {
        Some(inner)
    } else {
        None
    }
}
