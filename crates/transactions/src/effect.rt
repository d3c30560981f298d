//! What a record does, one thing after another.
use numerics::Line;
use roster::{Deed, Sessions};

/// One thing that a record does.
#[derive(Drop)]
pub enum Effect {
    /// A fact is established, and known to the effects after it.
    Establish { deed: Deed },
    /// The record's session is answered.
    Answer { line: Line },
    /// Sessions are shown a line, the record's own perhaps among them.
    Show { hearers: Sessions, line: Line },
    /// The record's session is given what it sent to itself, besides the answer.
    Copy { line: Line },
}
