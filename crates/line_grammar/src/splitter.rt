//! Cutting a byte stream into lines (RFC 2812, section 2.3; IRCv3 message-tags).
ghost use Rattle.std.specs.Prelude.{◌≡◌, [], ◌∷◌, List, ℕ, ◌++◌, ◌≤◌, length, Bool, true, false, not, OnOk, OnErr};
ghost use Rattle.std.specs.Prelude.{IfOk, IsTrue, MatchOption, Some, cond, nat_lt, take, vec_len};
ghost use Rattle.std.specs.Prelude.{◌||◌, ◌-◌, ◌+◌, ◌<◌, ◌^◌};
ghost use Rattle.std.specs.Vec.{vec_capacity};
ghost use Rattle.std.specs.Option.{option_to_list};
ghost use Rattle.std.specs.List.{flat_map, list_any, position};
ghost use Rattle.line_grammar.specs.Reading.{begins_with};
ghost use Rattle.line_grammar.specs.Lines.{is_line_end, is_too_long, lines, piece_of, open_line};
ghost use Rattle.line_grammar.specs.Steps.{EndsLine};

use crate::Octets;
use crate::words::split_word;
use memchr::memchr2;
use std::alloc::{AllocError, Global};
use std::marker::Model;
use std::mem;

/// The most octets of tag data that a line may have (IRCv3 message-tags, "Size limit").
const MAX_TAG_DATA: usize = 4094;

/// The most octets that a line may have after its tags (RFC 2812, section 2.3).
const MAX_REST: usize = 510;

/// A line of the stream, without what ended it.
#[derive(Clone, Debug, Drop, PartialEq)]
pub enum Piece {
    /// A line within the limits.
    Line(Octets),
    /// A line with more than 4094 octets of tag data, or more than 510 of the rest.
    TooLong,
}

impl Piece {
    /// An equal piece.
    pub fn copy(&self) -> Result<Piece, AllocError>
        ensures { IfOk result (λ p. p ≡ self.now) }
    {
        self.clone()
    }
}

/// The octets of a line that isn't too long so far.
#[derive(Drop)]
struct Unfinished {
    octets: Vec<u8>,
    /// How many octets stand before the first space.
    word_length: usize,
}

impl Model for Unfinished {
    ghost use Rattle.std.specs.Prelude.{◌≡◌, ℕ, List, length, false};
    ghost use Rattle.line_grammar.specs.Lines.{before_space, is_too_long};

    ghost Value = { List ℕ };

    ghost view = { λ a. a.octets.items };

    ghost invariant = { λ a. (a.word_length ≡ length (before_space a.octets.items))
        × (is_too_long a.octets.items ≡ false) };
}

impl Unfinished {
    ghost use Rattle.line_grammar.specs.Lines.{before_space, is_too_long};

    fn new(alloc: Global) -> Unfinished
        ensures { result ≡ [] }
    {
        Unfinished {
            octets: Vec::new(alloc),
            word_length: 0,
        }
    }

    fn len(&self) -> usize
        ensures exact { result ≡ length self.now }
        ensures bound { result ≤ 4606 }
    {
        self.octets.len()
    }

    fn into_octets(self) -> Octets
        ensures { result ≡ self }
    {
        Octets::from_vec(self.octets)
    }

    /// How many octets stand before the first space once these have come.
    fn word_length_with(&self, octets: &[u8]) -> usize
        ensures { result ≡ length (before_space (self.now ++ octets.now)) }
    {
        if self.word_length == self.octets.len() {
            self.word_length + split_word(octets).0.len()
        } else {
            self.word_length
        }
    }

    /// Whether the line is too long once these have come, with its first space after so many octets.
    fn is_too_long_with(&self, octets: &[u8], word_length: usize) -> bool
        requires { word_length ≡ length (before_space (self.now ++ octets.now)) }
        ensures { result ≡ is_too_long (self.now ++ octets.now) }
    {
        let length = self.octets.len() + octets.len();
        is_over(is_tagged(&self.octets, octets), length, word_length)
    }

    /// Adds octets at the end, or answers `false` where that makes the line too long.
    fn try_extend(&mut self, octets: &[u8]) -> Result<bool, AllocError>
        ensures fits { IfOk result (λ fits. fits ≡ not (is_too_long (self.old ++ octets.now))) }
        ensures new { IfOk result (λ fits. self.new ≡ cond fits (self.old ++ octets.now) self.old) }
        ensures err { OnErr result (self.new ≡ self.old) }
    {
        let word_length = self.word_length_with(octets);
        if self.is_too_long_with(octets, word_length) {
            return Ok(false);
        }
        self.octets.extend_from_slice(octets)?;
        self.word_length = word_length;
        Ok(true)
    }
}

/// Whether a line in two pieces begins with `@`.
fn is_tagged(front: &[u8], back: &[u8]) -> bool
    ensures { result ≡ begins_with 64 (front.now ++ back.now) }
{
    match front {
        [first, ..] => *first == b'@',
        [] => matches!(back, [b'@', ..]),
    }
}

/// Whether a line of this length is too long, with its first space after so many octets.
fn is_over(is_tagged: bool, length: usize, word_length: usize) -> bool
    ensures { result ≡ cond is_tagged (nat_lt 4095 word_length || nat_lt 511 (length - word_length))
        (nat_lt 510 length) }
{
    if is_tagged {
        word_length > MAX_TAG_DATA + 1 || length.saturating_sub(word_length) > MAX_REST + 1
    } else {
        length > MAX_REST
    }
}

/// Whether a whole line is too long.
#[tactic(auto, using(crate::proofs::Lengths::limits))]
fn is_too_long(line: &[u8]) -> bool
    ensures { result ≡ is_too_long line.now }
{
    if is_tagged(line, &[]) {
        is_over(true, line.len(), split_word(line).0.len())
    } else {
        line.len() > MAX_REST
    }
}

/// What stands before the first line end, and what after it.
#[tactic(auto, using(crate::proofs::Streams::line_ends))]
fn split_line(octets: &[u8]) -> Option<(&[u8], &[u8])>
    ensures { MatchOption result (list_any is_line_end octets.now ≡ false)
        (λ parts. EndsLine octets.now parts.0.now parts.1.now) }
{
    let end = first_line_end(octets)?;
    Some((&octets[..end], &octets[end + 1..]))
}

fn first_line_end(octets: &[u8]) -> Option<usize>
    ensures { result ≡ position is_line_end octets.now }
{
    memchr2(b'\r', b'\n', octets)
}

/// Cuts a stream that comes in any pieces. It keeps the unfinished line, at most 4606 octets of it: `@`, 4094 of tag
/// data, a space and 510 of the rest.
#[derive(Drop)]
pub struct Splitter {
    /// `None` where the line is too long.
    unfinished: Option<Unfinished>,
    alloc: Global,
}

impl Model for Splitter {
    ghost use Rattle.std.specs.Prelude.{ℕ, List, Option};

    ghost Value = { Option (List ℕ) };

    ghost view = { λ a. a.unfinished };
}

impl Splitter {
    ghost use Rattle.line_grammar.specs.Lines.{left_by, lines, open_line, Feeds};
    ghost use Rattle.line_grammar.specs.Steps.{kept_with, ended_piece};

    /// A splitter at the start of a stream.
    pub fn new(alloc: Global) -> Splitter
        ensures { result ≡ left_by [] }
    {
        Splitter {
            unfinished: Some(Unfinished::new(alloc)),
            alloc,
        }
    }

    /// How many octets of the unfinished line are kept: none where it is too long.
    pub fn held_len(&self) -> usize
        ensures exact { MatchOption self.now (result ≡ 0) (λ line. result ≡ length line) }
        ensures bound { result ≤ 4606 }
    {
        match &self.unfinished {
            Some(line) => line.len(),
            None => 0,
        }
    }

    /// Takes octets with no line end in them.
    fn extend(&mut self, octets: &[u8]) -> Result<(), AllocError>
        ensures ok { OnOk result (self.new ≡ kept_with self.old octets.now) }
        ensures err { OnErr result (self.new ≡ self.old) }
    {
        if let Some(line) = &mut self.unfinished {
            if !line.try_extend(octets)? {
                self.unfinished = None;
            }
        }
        Ok(())
    }

    /// The piece that a line end makes of the unfinished line: none where it is empty.
    fn end(self) -> Option<Piece>
        ensures { option_to_list result ≡ ended_piece self }
    {
        match self.unfinished {
            None => Some(Piece::TooLong),
            Some(line) if line.len() == 0 => None,
            Some(line) => Some(Piece::Line(line.into_octets())),
        }
    }

    /// Whether nothing is kept, since no line is unfinished.
    fn is_fresh(&self) -> bool
        ensures { IsTrue result → self.now ≡ Some [] }
    {
        matches!(&self.unfinished, Some(line) if line.len() == 0)
    }

    /// Takes octets where no line is unfinished. Where it fails, lines may have been added.
    fn feed_fresh(&mut self, octets: &[u8], out: &mut Vec<Piece>) -> Result<(), AllocError>
        requires { self.old ≡ Some [] }
        ensures ok { OnOk result ((self.new ≡ left_by octets.now)
            × (out.new.items ≡ out.old.items ++ lines octets.now)) }
        ensures err { OnErr result (self.new ≡ self.old) }
        ensures stays { take (length out.old.items) out.new.items ≡ out.old.items }
    {
        let rest = push_lines(self.alloc, octets, out)?;
        if rest.is_empty() {
            return Ok(());
        }
        self.extend(rest)
    }

    /// Takes the octets that come next in the stream, and adds to `out` each line that ends in them: CR or LF ends a
    /// line, and empty lines are left out (RFC 2812, section 2.3). It fails only where a growth is refused, which
    /// changes neither the splitter nor `out`.
    pub fn feed(&mut self, octets: &[u8], out: &mut Vec<Piece>) -> Result<(), AllocError>
        ensures ok { OnOk result ((stream : List ℕ) → self.old ≡ left_by stream
            → Feeds stream octets.now self.new out.old.items out.new.items) }
        ensures err { OnErr result ((self.new ≡ self.old) × (out.new.items ≡ out.old.items)) }
    {
        if self.is_fresh() {
            let before = out.len();
            let fed = self.feed_fresh(octets, out);
            if fed.is_err() {
                out.truncate(before);
            }
            return fed;
        }
        let Some((front, rest)) = split_line(octets) else {
            return self.extend(octets);
        };
        let mut found = Vec::new(self.alloc);
        let mut next = Splitter::new(self.alloc);
        let last = push_lines(self.alloc, rest, &mut found)?;
        next.extend(last)?;
        out.reserve(found.len() + 1)?;
        self.extend(front)?;
        push_reserved(out, mem::replace(self, next).end(), found);
        Ok(())
    }
}

/// The lines of a stream that comes in these pieces: those of the pieces joined, however it was cut.
pub fn split_all(alloc: Global, pieces: &[Octets]) -> Result<Vec<Piece>, AllocError>
    ensures { IfOk result (λ out. out.items ≡ lines (flat_map (λ piece. piece) pieces.now)) }
{
    let mut splitter = Splitter::new(alloc);
    let mut out = Vec::new(alloc);
    for piece in pieces {
        splitter.feed(piece.as_slice(), &mut out)?;
    }
    Ok(out)
}

/// Adds pieces for which there is room.
fn push_reserved(out: &mut Vec<Piece>, first: Option<Piece>, mut more: Vec<Piece>)
    requires { vec_len out.old + (vec_len more + 1) ≤ vec_capacity out.old }
    ensures { out.new.items ≡ out.old.items ++ (option_to_list first ++ more.items) }
{
    if let Some(piece) = first {
        out.push_reserved(piece);
    }
    out.append(&mut more).unwrap();
}

/// Adds the piece of a whole line: none where it is empty.
fn push_line(alloc: Global, line: &[u8], out: &mut Vec<Piece>) -> Result<(), AllocError>
    ensures ok { OnOk result (out.new.items ≡ out.old.items ++ piece_of line.now) }
    ensures err { OnErr result (out.new.items ≡ out.old.items) }
{
    if line.is_empty() {
        return Ok(());
    }
    let piece = if is_too_long(line) {
        Piece::TooLong
    } else {
        Piece::Line(Octets::copy_of(alloc, line)?)
    };
    out.push(piece)?;
    Ok(())
}

/// Adds each line that ends in the octets to `out`, and gives what stands after the last. Where it fails, lines may
/// have been added.
fn push_lines<'a>(
    alloc: Global,
    octets: &'a [u8],
    out: &mut Vec<Piece>,
) -> Result<&'a [u8], AllocError>
    ensures lines { IfOk result (λ _. out.new.items ≡ out.old.items ++ lines octets.now) }
    ensures rest { IfOk result (λ rest. rest.now ≡ open_line octets.now) }
    ensures stays { take (length out.old.items) out.new.items ≡ out.old.items }
{
    let mut rest = octets;
    while let Some((line, more)) = split_line(rest) {
        push_line(alloc, line, out)?;
        rest = more;
    }
    Ok(rest)
}
