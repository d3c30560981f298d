//! Lines of a session that aren't done.
ghost use Rattle.std.specs.Prelude.{◌≡◌, ◌∷◌, [], None, IfOk, IfSome};

use line_grammar::Piece;
use std::alloc::{AllocError, Global};
use std::marker::Model;
use std::mem::replace;

/// Lines for which room is kept.
const LINES: usize = 16;

/// Lines of a session that aren't done, the first first. A clause sees them.
#[derive(Drop)]
pub struct PendingLines {
    pieces: Vec<Piece>,
    /// How many of the pieces were taken out.
    taken: usize,
}

impl Model for PendingLines {
    ghost use Rattle.std.specs.Prelude.{◌≤◌, List, drop, length};
    ghost use Rattle.line_grammar.specs.declared.splitter.Piece.{Piece};

    ghost Value = { List Piece };

    ghost view = { λ a. drop a.taken a.pieces.items };

    ghost invariant = { λ a. a.taken ≤ length a.pieces.items };
}

impl PendingLines {
    /// None.
    pub fn new(alloc: Global) -> PendingLines
        ensures { result ≡ [] }
    {
        PendingLines::of(Vec::new(alloc))
    }

    /// These.
    pub(crate) fn of(pieces: Vec<Piece>) -> PendingLines
        ensures { result ≡ pieces.items }
    {
        PendingLines { pieces, taken: 0 }
    }

    /// Copies of these.
    pub fn copy_of(alloc: Global, pieces: &[Piece]) -> Result<PendingLines, AllocError>
        ensures { IfOk result (λ lines. lines ≡ pieces.now) }
    {
        let mut copies = Vec::new(alloc);
        for piece in pieces {
            copies.push(piece.copy()?)?;
        }
        Ok(PendingLines::of(copies))
    }

    /// The lines.
    pub fn as_slice(&self) -> &[Piece]
        ensures { result.now ≡ self.now }
    {
        &self.pieces[self.taken..]
    }

    /// Takes the first line out, if there is one.
    pub fn take_first(&mut self) -> Option<Piece>
        ensures some { IfSome result (λ piece. self.old ≡ piece ∷ self.new) }
        ensures none { result ≡ None → (self.old ≡ []) × (self.new ≡ []) }
    {
        let piece = self.pieces.get_mut(self.taken)?;
        let first = replace(piece, Piece::TooLong);
        self.taken += 1;
        Some(first)
    }

    /// Takes all out.
    pub(crate) fn take_all(&mut self) -> PendingLines
        ensures lines { result ≡ self.old }
        ensures none { self.new ≡ [] }
    {
        let alloc = *self.pieces.allocator();
        replace(self, PendingLines::new(alloc))
    }

    /// Forgets all, and gives the room that they had, or room for some.
    pub(crate) fn take_room(&mut self) -> Vec<Piece>
        ensures room { result.items ≡ [] }
        ensures none { self.new ≡ [] }
    {
        let mut pieces = self.take_all().pieces;
        pieces.clear();
        pieces.shrink_to(LINES);
        pieces
    }
}
