//! What is read of a session's input.
ghost use Rattle.std.specs.Prelude.{◌≡◌, ◌↔◌, ℕ, List, [], true};
ghost use Rattle.std.specs.Prelude.{false, None, OnOk, OnErr, IfOk, IfErr};
ghost use Rattle.std.specs.Io.KnownBytes.{Consumes};
ghost use Rattle.line_grammar.specs.Lines.{left_by};
ghost use Rattle.receive_buffer.specs.Taking.{TakesIn};

use crate::pending_lines::PendingLines;
use chronicle::Why;
use line_grammar::{Piece, Splitter};
use std::alloc::{AllocError, Global};
use std::io::{Error, ErrorKind, Read};
use std::marker::Model;

/// Octets that are read at a time from a client that sends little.
const LITTLE: usize = 512;

/// Octets that are read at a time from a client that sends much.
const MUCH: usize = 4096;

/// What is read of a session's input and isn't done: the lines of the last read, of which some may be left, the
/// unfinished line, and room for what is read: for much after a read that filled the room, and for little again
/// after one that brought little.
#[derive(Drop)]
pub struct ReceiveBuffer {
    splitter: Splitter,
    lines: PendingLines,
    buffer: Vec<u8>,
    last: usize,
}

impl Model for ReceiveBuffer {
    ghost use Rattle.receive_buffer.specs.Taking.{Taken};

    ghost Value = { Taken };

    ghost view = { λ a. record { kept = a.splitter; pieces = a.lines } };
}

/// Why nothing was read, or nothing more can be, and whether all that was read was cut.
#[derive(Clone, Copy, Drop)]
pub struct Unread {
    /// The reason for which the session is to be ended; `None` where nothing comes now.
    pub why: Option<Why>,
    pub all: bool,
}

/// The reason for which an error of a read ends a session; `None` where it only means that nothing comes now.
fn why_of(error: &Error) -> Option<Why> {
    match error.kind() {
        ErrorKind::WouldBlock | ErrorKind::TimedOut | ErrorKind::Interrupted => None,
        ErrorKind::OutOfMemory => Some(Why::Memory),
        _ => Some(Why::ReadFailed),
    }
}

impl ReceiveBuffer {
    /// Nothing is read yet.
    pub fn new(alloc: Global) -> Result<ReceiveBuffer, AllocError>
        ensures kept { IfOk result (λ i. i.kept ≡ left_by []) }
        ensures none { IfOk result (λ i. i.pieces ≡ []) }
    {
        Ok(ReceiveBuffer {
            splitter: Splitter::new(alloc),
            lines: PendingLines::new(alloc),
            buffer: vec![in alloc; 0u8; LITTLE]?,
            last: 0,
        })
    }

    /// Whether lines were read that aren't done.
    pub fn has_lines(&self) -> bool
        ensures { (result ≡ false) ↔ (self.now.pieces ≡ []) }
    {
        !self.lines.as_slice().is_empty()
    }

    /// Takes out the lines that were read and aren't done.
    pub fn take_lines(&mut self) -> PendingLines
        ensures lines { result ≡ self.old.pieces }
        ensures none { self.new.pieces ≡ [] }
        ensures kept { self.new.kept ≡ self.old.kept }
    {
        self.lines.take_all()
    }

    /// Puts back those lines that aren't done, in place of all that it has.
    pub fn put_back(&mut self, lines: PendingLines)
        ensures lines { self.new.pieces ≡ lines }
        ensures kept { self.new.kept ≡ self.old.kept }
    {
        self.lines = lines;
    }

    /// Whether the last read filled the room, so that more may be there at once.
    pub fn is_full(&self) -> bool {
        self.buffer.len() <= self.last
    }

    /// Makes room for the next read, by how much the last one brought. Where more room is refused there is as much
    /// as before.
    fn make_room(&mut self)
        ensures { self.new.kept ≡ self.old.kept }
    {
        if self.is_full() {
            let _ = self.buffer.resize(MUCH, 0);
        } else if self.last <= LITTLE {
            self.buffer.truncate(LITTLE);
            self.buffer.shrink_to(LITTLE);
        }
    }

    /// Reads once, and adds the lines that end in what that brings.
    fn read_lines<I: Read>(&mut self, input: &mut I, lines: &mut Vec<Piece>) -> Result<(), Unread>
        requires none { lines.old.items ≡ [] }
        ensures ok { OnOk result (TakesIn (I.remaining input.old)
            (I.remaining input.new) self.old.kept self.new.kept lines.new.items) }
        ensures all { IfErr result (λ e. e.all ≡ true → TakesIn (I.remaining input.old)
            (I.remaining input.new) self.old.kept self.new.kept []) }
        ensures nothing { IfErr result (λ e. e.why ≡ None → e.all ≡ true) }
        ensures none { OnErr result (lines.new.items ≡ []) }
        ensures some { OnErr result ((octets : List ℕ)
            × Consumes (I.remaining input.old) (I.remaining input.new) octets) }
    {
        match input.read(&mut self.buffer) {
            Ok(0) => Err(Unread {
                why: Some(Why::ReadEnded),
                all: true,
            }),
            Ok(count) => {
                self.last = count;
                match self.splitter.feed(&self.buffer[..count], lines) {
                    Ok(()) => Ok(()),
                    Err(AllocError) => Err(Unread {
                        why: Some(Why::Memory),
                        all: false,
                    }),
                }
            }
            Err(error) => Err(Unread {
                why: why_of(&error),
                all: true,
            }),
        }
    }

    /// Reads once, and cuts what that brings into lines, which stand in place of those before.
    pub fn take_in<I: Read>(&mut self, input: &mut I) -> Result<(), Unread>
        ensures ok { OnOk result (TakesIn (I.remaining input.old)
            (I.remaining input.new) self.old.kept self.new.kept self.new.pieces) }
        ensures all { IfErr result (λ e. e.all ≡ true → TakesIn (I.remaining input.old)
            (I.remaining input.new) self.old.kept self.new.kept []) }
        ensures nothing { IfErr result (λ e. e.why ≡ None → e.all ≡ true) }
        ensures none { OnErr result (self.new.pieces ≡ []) }
        ensures some { OnErr result ((octets : List ℕ)
            × Consumes (I.remaining input.old) (I.remaining input.new) octets) }
    {
        self.make_room();
        let mut lines = self.lines.take_room();
        let outcome = self.read_lines(input, &mut lines);
        self.lines = PendingLines::of(lines);
        outcome
    }
}
