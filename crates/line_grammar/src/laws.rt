//! What holds of lines and messages, whatever the octets. Each function's clause is a law, and its body does nothing.
ghost use Rattle.std.specs.Prelude.{◌≡◌, ◌↔◌, ◌++◌, Some, List, ℕ, Option};
ghost use Rattle.line_grammar.specs.declared.message.Message.{Message};
ghost use Rattle.line_grammar.specs.declared.splitter.Piece.{Piece};
ghost use Rattle.line_grammar.specs.Grammar.{Reads};
ghost use Rattle.line_grammar.specs.Lines.{Feeds};
ghost use Rattle.line_grammar.specs.Reading.{reading};

/// A line reads as a message exactly where it spells that message.
pub fn reads_what_is_spelled()
    ensures { (line : List ℕ) (message : Message) → (reading line ≡ Some message)
        ↔ Reads line message }
{}

/// A line spells at most one message.
pub fn one_message_a_line()
    ensures { (line : List ℕ) (first second : Message) → Reads line first → Reads line second
        → first ≡ second }
{}

/// To feed a stream in two pieces is to feed it whole, so any cutting gives the same lines.
pub fn any_cutting()
    ensures { (stream first second : List ℕ) (between kept : Option (List ℕ))
        (old more new : List Piece) → Feeds stream first between old more
        → Feeds (stream ++ first) second kept more new
        → Feeds stream (first ++ second) kept old new }
{}
