//! What stands in a register, and what a seat of it knows. No value of these is ever made.
//!
//! A claim is three options: all rows, a session's pieces, a session's outbox. A spent claim has none of them, a
//! token's one, the register's own the rows with what it has taken in; so splitting and joining claims move one
//! option, and the rule says one thing of each.
use chronicle::SessionId;
use line_grammar::Piece;
use std::collections::LinkedList;

/// What stands of one session: which outbox it has, and the pieces done.
pub struct Row<N> {
    pub session: SessionId,
    pub outbox: N,
    pub pieces: LinkedList<Piece>,
}

/// The pieces done of a session.
pub struct MarkClaim {
    pub session: SessionId,
    pub pieces: LinkedList<Piece>,
}

/// The outbox of a session.
pub struct StubClaim<N> {
    pub session: SessionId,
    pub outbox: N,
}

/// What a seat knows: the rows, where it is the register's own, what it has with a mark, and what it has with a stub.
pub struct Known<N> {
    pub rows: Option<LinkedList<Row<N>>>,
    pub mark: Option<MarkClaim>,
    pub stub: Option<StubClaim<N>>,
}
