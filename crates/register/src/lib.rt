//! A register of sessions: which outbox each has, and which of its pieces are done. Its rows exist in proofs alone.
#![tactic(auto)]

mod claims;
mod register;
mod rule;
mod steps;
mod tokens;

pub use claims::{Known, MarkClaim, Row, StubClaim};
pub use register::Register;
pub use tokens::{Mark, Naming, Stub};
