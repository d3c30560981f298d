//! What waits to be written for a session.
//!
//! It is asked before a read and after each line. Where much waits, the hall is given back and what waits goes out as
//! far as the stream takes it; where it is still much, the lines that aren't done stay in the intake and nothing is
//! read. So who asks for much and reads none of it has one line's answers beyond the limit and what one read brought.

/// What waits to be written for a session. A clause that says that it was found to be much says that a call of it
/// answered so: it may be less by now.
pub trait Backlog {
    ghost use Rattle.std.specs.Prelude.{◌≡◌, true};

    /// That much was found to wait here.
    ghost finds_much: { Self → Type 0 } = { λ b. Unit {0} };

    /// Whether so much waits that no further line of the session is done for now.
    fn is_much(&self) -> bool
        ensures { result ≡ true → finds_much self.now };
}
