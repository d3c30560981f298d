//! A line that was read before it is begun.
ghost use Rattle.std.specs.Prelude.{◌≡◌, IfOk};
ghost use Rattle.line_grammar.specs.declared.splitter.Piece.TheVariants as piece;

use commands::{Asked, ReadPiece, read_piece};
use line_grammar::{Octets, Piece};
use std::alloc::{AllocError, Global};
use std::marker::Model;
use std::mem::replace;

/// An accepted piece with what it asks for and its label, so that nothing is left to be read when its line is begun.
/// Whether the label counts is decided then. A clause sees the piece.
#[derive(Drop)]
pub struct ReadLine {
    pub(crate) piece: Piece,
    pub(crate) asked: Asked,
    /// Whether or not it counts.
    pub(crate) label: Option<Octets>,
}

impl Model for ReadLine {
    ghost use Rattle.line_grammar.specs.declared.splitter.Piece.{Piece};
    ghost use Rattle.ledger.specs.Read.{IsReadOf};

    ghost Value = { Piece };

    ghost view = { λ a. a.piece };

    ghost invariant = { λ a. IsReadOf a.piece a.asked a.label };
}

impl ReadLine {
    /// Reads a piece. It needs no ledger. Where there is no memory for it the piece is gone.
    pub fn of(alloc: Global, piece: Piece) -> Result<ReadLine, AllocError>
        ensures { IfOk result (λ r. r ≡ piece) }
    {
        let ReadPiece { asked, label } = read_piece(alloc, &piece)?;
        Ok(ReadLine {
            piece,
            asked,
            label,
        })
    }

    /// Reads a copy of a piece. It needs no ledger.
    pub fn read(alloc: Global, piece: &Piece) -> Result<ReadLine, AllocError>
        ensures { IfOk result (λ r. r ≡ piece.now) }
    {
        ReadLine::of(alloc, piece.copy()?)
    }

    /// Takes the piece out. What stays is what a line that is too long is read as.
    #[tactic(auto, unfolding(commands::specs::Asked::asked_of, chronicle::specs::History::is_quit))]
    pub(crate) fn take(&mut self) -> Piece
        ensures piece { result ≡ self.old }
        ensures taken { self.new ≡ piece.TooLong }
    {
        self.asked = Asked::TooLong;
        self.label = None;
        replace(&mut self.piece, Piece::TooLong)
    }
}
