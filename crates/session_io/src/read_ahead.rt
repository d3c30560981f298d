//! Lines are read before the hall is taken.
//!
//! As many lines are read as may be done in one hold of the lock. Where there is no memory for that, a line is read
//! when it is done; so want of memory to read ahead refuses nothing.
ghost use Rattle.std.specs.Prelude.{◌≡◌, ◌∷◌, [], None, IfOk, IfSome};
ghost use Rattle.session_io.specs.Filling.{IsFront};

use line_grammar::Piece;
use session_ends::book::ReadLine;
use std::alloc::{AllocError, Global};
use std::collections::VecDeque;
use std::marker::Model;

/// The next lines of a session that were read. A clause sees their pieces.
#[derive(Drop)]
pub(crate) struct ReadAhead {
    lines: VecDeque<ReadLine>,
}

impl Model for ReadAhead {
    ghost use Rattle.std.specs.Prelude.{List};
    ghost use Rattle.line_grammar.specs.declared.splitter.Piece.{Piece};

    ghost Value = { List Piece };

    ghost view = { λ a. a.lines.items };
}

impl ReadAhead {
    /// None is read.
    pub(crate) fn new(alloc: Global) -> ReadAhead
        ensures { result ≡ [] }
    {
        ReadAhead {
            lines: VecDeque::new(alloc),
        }
    }

    /// Reads more of these pieces, of which the first are read, until so many are, as far as there is memory.
    pub(crate) fn read(&mut self, pieces: &[Piece], most: usize)
        requires { IsFront self.old pieces.now }
        ensures { IsFront self.new pieces.now }
    {
        let from = self.lines.len();
        let to = most.min(pieces.len());
        if self.lines.reserve(to.saturating_sub(from)).is_err() {
            return;
        }
        let alloc = *self.lines.allocator();
        for place in from..to {
            let Ok(line) = ReadLine::read(alloc, &pieces[place]) else {
                return;
            };
            if self.lines.push_back(line).is_err() {
                return;
            }
        }
    }

    /// The next line, where it was read.
    pub(crate) fn next(&mut self) -> Option<ReadLine>
        ensures some { IfSome result (λ line. self.old ≡ line ∷ self.new) }
        ensures none { result ≡ None → self.new ≡ [] }
    {
        self.lines.pop_front()
    }
}

/// A line as it was read ahead, or as it is read now where it wasn't.
pub(crate) fn line_of(
    alloc: Global,
    piece: Piece,
    line: Option<ReadLine>,
) -> Result<ReadLine, AllocError>
    requires read { IfSome line (λ r. r ≡ piece) }
    ensures { IfOk result (λ r. r ≡ piece) }
{
    match line {
        Some(line) => Ok(line),
        None => ReadLine::of(alloc, piece),
    }
}
