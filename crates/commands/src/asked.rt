//! What is read of an accepted piece: what it asks for, and its label.
ghost use Rattle.std.specs.Prelude.{◌≡◌, IfOk, IsErr, IsSome, None, Some, true};
ghost use Rattle.chronicle.specs.History.{is_quit};
ghost use Rattle.commands.specs.Asked.{asked_by, asked_of, asks_for_command, asks_for_quit, message_of};
ghost use Rattle.labels_batches.specs.Labels.{message_label, piece_label};
ghost use Rattle.line_grammar.specs.Reading.{reading};

use crate::{Command, read};
use command_params::ReadFault;
use labels_batches::label_in;
use line_grammar::{LineFault, LineMessage, Octets, Piece, parse};
use session_commands::SessionCommand;
use std::alloc::{AllocError, Global};

/// What a piece asks for.
#[derive(Drop)]
pub enum Asked {
    /// Nothing: the line holds NUL, or has no command.
    Nothing,
    /// Nothing, since the line was too long: 417 answers it.
    TooLong,
    /// This command.
    Command(Command),
    /// Nothing that can be done: a numeric answers it.
    Fault(ReadFault),
}

impl Asked {
    /// Whether it asks to end the session.
    pub fn is_quit(&self) -> bool
        ensures { result ≡ asks_for_quit self.now }
    {
        matches!(
            self,
            Asked::Command(Command::Session(SessionCommand::Quit { .. }))
        )
    }
}

/// What a message asks for.
pub fn read_message(alloc: Global, message: LineMessage<'_>) -> Result<Asked, AllocError>
    ensures asked { IfOk result (λ asked. asked ≡ asked_by (Some message.entry)) }

    // Memory is wanting only where the message asks for a command: no fault of it is kept back.
    ensures memory { IsErr result → asks_for_command (asked_by (Some message.entry)) ≡ true }
{
    match read(alloc, message) {
        Ok(command) => Ok(Asked::Command(command)),
        Err(ReadFault::Memory) => Err(AllocError),
        Err(fault) => Ok(Asked::Fault(fault)),
    }
}

/// What is read of an accepted piece.
#[derive(Drop)]
pub struct ReadPiece {
    /// What it asks for.
    pub asked: Asked,
    /// Its label, whether or not that counts for its session.
    pub label: Option<Octets>,
}

/// What has no label.
fn without_label(asked: Asked) -> ReadPiece
    ensures asked { result.asked ≡ asked }
    ensures label { result.label ≡ None }
{
    ReadPiece { asked, label: None }
}

/// What is read of a line that isn't too long, which is split once.
fn read_line(alloc: Global, line: &[u8]) -> Result<ReadPiece, AllocError>
    ensures asked { IfOk result (λ read. read.asked ≡ asked_by (reading line.now)) }
    ensures label { IfOk result (λ read. read.label ≡ message_label (reading line.now)) }
    ensures memory { IsErr result → IsSome (reading line.now) }
{
    match parse(alloc, line) {
        Ok(message) => {
            let label = label_in(alloc, message.tags())?;
            let asked = read_message(alloc, message)?;
            Ok(ReadPiece { asked, label })
        }
        Err(LineFault::Memory) => Err(AllocError),
        Err(LineFault::HasNul | LineFault::NoCommand) => Ok(without_label(Asked::Nothing)),
    }
}

/// What an accepted piece asks for, and its label (IRCv3 labeled-response).
#[tactic(auto, unfolding(crate::specs::Asked::asked_of, chronicle::specs::History::is_quit))]
pub fn read_piece(alloc: Global, piece: &Piece) -> Result<ReadPiece, AllocError>
    ensures asked { IfOk result (λ read. read.asked ≡ asked_of piece.now) }
    ensures label { IfOk result (λ read. read.label ≡ piece_label piece.now) }
    ensures quit { IfOk result (λ read. asks_for_quit read.asked ≡ is_quit piece.now) }

    // Memory is wanting only where the piece is a message.
    ensures memory { IsErr result → IsSome (message_of piece.now) }
{
    match piece {
        Piece::TooLong => Ok(without_label(Asked::TooLong)),
        Piece::Line(line) => read_line(alloc, line.as_slice()),
    }
}
