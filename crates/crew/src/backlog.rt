//! What waits for a session that has threads of its own.
use session_io::Backlog;

/// The backlog of a session that has threads of its own: it is never much.
#[derive(Drop)]
pub struct NoBacklog;

impl Backlog for NoBacklog {
    ghost finds_much = { λ b. ⊥ };

    fn is_much(&self) -> bool {
        false
    }
}
