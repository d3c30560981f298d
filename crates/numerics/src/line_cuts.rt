//! Words cut into lines.
ghost use Rattle.std.specs.Prelude.{◌≡◌, ℕ, ◌+◌, ◌<◌, ◌≤◌, ◌^◌, [], ◌∷◌, ◌++◌, length, IfOk, OnOk};
ghost use Rattle.std.specs.List.{All, flat_map};
ghost use Rattle.numerics.specs.Numerics.{names_text};
ghost use Rattle.numerics.specs.Cut.{AreFull, IsWithin, cut_lines, lines_with, most_tokens, takes};

use line_grammar::{Octets, OctetsList};
use std::alloc::{AllocError, Global};
use std::marker::Model;
use std::mem;

/// The most tokens of a line that tells what the server supports: with whom it tells and the text these are
/// the 15 parameters that a line may have (RFC 2812, section 2.3.1).
const MAX_TOKENS: usize = 13;

/// Cuts names into as few lines as their order allows, where names that stand in one line have `room` octets,
/// with a space between each two. Each line is filled before the next is begun. No names make no line. A name
/// that is longer than `room` stands in a line by itself.
pub fn split_names(
    alloc: Global,
    names: Vec<Octets>,
    room: usize,
) -> Result<Vec<OctetsList>, AllocError>
    ensures lines { IfOk result (λ lines. lines.items
        ≡ cut_lines room (length names.items) names.items) }
    ensures joined { IfOk result (λ lines. flat_map (λ line. line) lines.items ≡ names.items) }
    ensures fit { All (λ name. length name ≤ room) names.items
        → IfOk result (λ lines. All (IsWithin room (length names.items)) lines.items) }
    ensures full { IfOk result (λ lines. AreFull room (length names.items) lines.items) }
{
    let most = names.len();
    cut(alloc, names, room, most)
}

/// Cuts tokens into lines as [`split_names`] does names, with at most 13 in a line.
pub fn split_tokens(
    alloc: Global,
    tokens: Vec<Octets>,
    room: usize,
) -> Result<Vec<OctetsList>, AllocError>
    requires { All (λ token. length token ≤ room) tokens.items }
    ensures lines { IfOk result (λ lines. lines.items ≡ cut_lines room most_tokens tokens.items) }
    ensures joined { IfOk result (λ lines. flat_map (λ line. line) lines.items ≡ tokens.items) }
    ensures fit { IfOk result (λ lines. All (IsWithin room most_tokens) lines.items) }
    ensures full { IfOk result (λ lines. AreFull room most_tokens lines.items) }
{
    cut(alloc, tokens, room, MAX_TOKENS)
}

/// A line that is being filled. It has a word at least.
#[derive(Drop)]
struct Line {
    words: Vec<Octets>,
    /// Octets of the words, with a space between each two.
    octets: usize,
}

impl Model for Line {
    ghost use Rattle.std.specs.Prelude.{◌≡◌, ℕ, ◌<◌, List, length};
    ghost use Rattle.numerics.specs.Numerics.{names_text};

    ghost Value = { List (List ℕ) };

    ghost view = { λ a. a.words.items };

    ghost invariant = { λ a. (a.octets ≡ length (names_text a.words.items))
        × (0 < length a.words.items) };
}

impl Line {
    #[tactic(auto, using(crate::proofs::Cuts::one_spaced))]
    fn new(alloc: Global, word: Octets) -> Result<Line, AllocError>
        ensures { IfOk result (λ line. line ≡ word ∷ []) }
    {
        let octets = word.len();
        let mut words = Vec::new(alloc);
        words.push(word)?;
        Ok(Line { words, octets })
    }

    #[tactic(auto, using(crate::proofs::Cuts::more_spaced))]
    fn takes(&self, word: &Octets, room: usize, most: usize) -> bool
        ensures { result ≡ takes room most self.now word.now }
    {
        self.words.len() < most && self.octets < room && word.len() < room - self.octets
    }

    #[tactic(auto, using(crate::proofs::Cuts::more_spaced))]
    fn push(&mut self, word: Octets) -> Result<(), AllocError>
        requires { length (names_text (self.old ++ word ∷ [])) < 2 ^ 64 }
        ensures { OnOk result (self.new ≡ self.old ++ word ∷ []) }
    {
        let octets = self.octets + 1 + word.len();
        self.words.push(word)?;
        self.octets = octets;
        Ok(())
    }

    fn into_words(self) -> OctetsList
        ensures { result ≡ self }
    {
        OctetsList::from_vec(self.words)
    }
}

#[tactic(auto, unfolding(crate::specs::Cut::cut_lines))]
fn cut(
    alloc: Global,
    words: Vec<Octets>,
    room: usize,
    most: usize,
) -> Result<Vec<OctetsList>, AllocError>
    ensures { IfOk result (λ lines. lines.items ≡ cut_lines room most words.items) }
{
    let mut lines = Vec::new(alloc);
    let mut rest = words.into_iter();
    let Some(first) = rest.next() else {
        return Ok(lines);
    };
    let mut line = Line::new(alloc, first)?;
    for word in rest {
        if line.takes(&word, room, most) {
            line.push(word)?;
        } else {
            let full = mem::replace(&mut line, Line::new(alloc, word)?);
            lines.push(full.into_words())?;
        }
    }
    lines.push(line.into_words())?;
    Ok(lines)
}
