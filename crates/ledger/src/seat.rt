//! What a ledger keeps for a session beside its outbox.
/// A session's place in the ledger.
#[derive(Clone, Copy, Debug)]
pub(crate) struct Seat {
    /// Nothing more is owed to it.
    pub(crate) shut: bool,
    /// It left its channels and gave its nickname back.
    pub(crate) gone: bool,
    /// How many of its lines were accepted.
    pub(crate) accepted: u64,
}
