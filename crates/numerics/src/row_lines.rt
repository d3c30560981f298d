//! A numeric's row as it is borrowed, and the line that it spells (RFC 2812, section 2.3).
ghost use Rattle.std.specs.Prelude.{◌≡◌, ◌∷◌, ◌++◌, map, decimal, option_to_list, OnOk, IfOk};
ghost use Rattle.std.specs.List.{flat_map};
ghost use Rattle.numerics.specs.Numerics.{flags, middle_of, row_line};
ghost use Rattle.numerics.specs.Borrowed.{word_of, words_of, text_of, row_of};

use crate::line::any_line;
use crate::pushing::{length_of, push_start, push_text, push_word};
use crate::texts::push_spaced;
use crate::{Line, Out, Prefix};
use line_grammar::{Octets, OctetsList, needs_colon};
use snapshots::{GhostChange, Snapshot, apply};
use std::alloc::{AllocError, Global};

/// A word of a row, or a piece of its text.
#[derive(Clone, Copy)]
pub(crate) enum Word<'a> {
    Of(&'a Octets),
    Plain(&'a [u8]),
    Letter(u8),
    Number(usize),
    /// Whether a member is away, and its mark.
    Flags(bool, Option<Prefix>),
    /// Whether a channel is secret.
    Sign(bool),
}

/// The words of a row.
#[derive(Clone, Copy)]
pub(crate) enum Words<'a> {
    No,
    One(Word<'a>),
    Two(Word<'a>, Word<'a>),
    Four(Word<'a>, Word<'a>, Word<'a>, Word<'a>),
    Six(Word<'a>, Word<'a>, Word<'a>, Word<'a>, Word<'a>, Word<'a>),
    /// Those of a list.
    Each(&'a OctetsList),
    /// Two, then those of a list.
    Before(Word<'a>, Word<'a>, &'a OctetsList),
}

/// What stands after a colon.
#[derive(Clone, Copy)]
pub(crate) enum RowText<'a> {
    Without,
    Said(&'a [u8]),
    Given(&'a Octets),
    /// A text that ends with what is given.
    Ending(&'a [u8], &'a Octets),
    /// Pieces, put together.
    Joined(Word<'a>, Word<'a>, Word<'a>, Word<'a>),
    /// Names, parted by spaces.
    Spaced(&'a OctetsList),
}

/// A row: a numeric's three digits, its words, and its text.
#[derive(Clone, Copy)]
pub(crate) struct NumericRow<'a>(
    pub(crate) &'a [u8; 3],
    pub(crate) Words<'a>,
    pub(crate) RowText<'a>,
);

/// A row, with whom it comes from and whom it goes to.
#[derive(Clone, Copy)]
struct RowAnswer<'a> {
    server: &'a [u8],
    to: &'a [u8],
    row: &'a NumericRow<'a>,
}

/// The line of this row.
struct OfRow;

impl<'a> GhostChange<Out, RowAnswer<'a>> for OfRow {
    ghost use Rattle.numerics.specs.Numerics.{row_line};
    ghost use Rattle.numerics.specs.Borrowed.{row_of};

    ghost changed = { λ o t. row_line t.server.now t.to.now (row_of t.row.now) };
}

/// The line of a row from a server to a nickname, or to `*`. It is spelled from what is borrowed.
#[tactic(auto, unfolding(crate::specs::Numerics::row_line), using(crate::proofs::Built::built_row))]
pub(crate) fn line_of<'a>(
    alloc: Global,
    server: &'a [u8],
    to: &'a [u8],
    row: &'a NumericRow<'a>,
) -> Result<Line, AllocError>
    ensures { IfOk result (λ o. o ≡ row_line server.now to.now (row_of row.now)) }
{
    let code = row.0;
    let mut line = Vec::with_capacity(alloc, room_for(server, to, row))?;
    push_start(&mut line, server, code)?;
    push_word(&mut line, to)?;
    push_words(&mut line, &row.1)?;
    push_trailing(&mut line, &row.2)?;
    let told = RowAnswer { server, to, row };
    let mut out = any_line(alloc);
    apply::<OfRow, Out, RowAnswer<'_>>(&mut out, &told);
    Line::of(alloc, line, out)
}

/// Room for the line of a row.
fn room_for(server: &[u8], to: &[u8], row: &NumericRow<'_>) -> usize {
    length_of(&[server, to, b": 000  :\r\n"])
        .saturating_add(row.1.len())
        .saturating_add(row.2.len())
}

/// How many octets words have in all with a space for each, or as many as can be counted.
fn length_of_words(words: &[Word<'_>]) -> usize {
    let mut length = 0usize;
    for word in words {
        length = length.saturating_add(word.len()).saturating_add(1);
    }
    length
}

/// The same of words of a list.
fn length_of_all(words: &[Octets]) -> usize {
    let mut length = 0usize;
    for word in words {
        length = length.saturating_add(word.len()).saturating_add(1);
    }
    length
}

impl Word<'_> {
    /// How many octets it has at most.
    fn len(&self) -> usize {
        match self {
            Word::Of(octets) => octets.len(),
            Word::Plain(octets) => octets.len(),
            Word::Letter(_) | Word::Sign(_) => 1,
            Word::Flags(_, _) => 2,
            Word::Number(_) => 20,
        }
    }

    /// Adds its octets.
    fn push_to(&self, line: &mut Vec<u8>) -> Result<(), AllocError>
        ensures { OnOk result (line.new.items ≡ line.old.items ++ word_of self.now) }
    {
        match self {
            Word::Of(octets) => line.extend_from_slice(octets.as_slice()),
            Word::Plain(octets) => line.extend_from_slice(octets),
            Word::Letter(letter) => line.extend_from_slice(&[*letter]),
            Word::Number(number) => push_number(line, *number),
            Word::Flags(away, prefix) => push_flags(line, *away, *prefix),
            Word::Sign(secret) => line.extend_from_slice(if *secret { b"@" } else { b"=" }),
        }
    }
}

/// Adds a number in decimal.
fn push_number(line: &mut Vec<u8>, number: usize) -> Result<(), AllocError>
    ensures { OnOk result (line.new.items ≡ line.old.items ++ decimal number) }
{
    let alloc = *line.allocator();
    line.extend_from_slice(format!(in alloc; "{number}")?.as_bytes())
}

/// Adds whether a member is here or gone, and its mark.
fn push_flags(line: &mut Vec<u8>, away: bool, prefix: Option<Prefix>) -> Result<(), AllocError>
    ensures { OnOk result (line.new.items ≡ line.old.items ++ flags away prefix) }
{
    line.push(if away { b'G' } else { b'H' })?;
    if let Some(prefix) = prefix {
        line.push(prefix.mark())?;
    }
    Ok(())
}

impl Words<'_> {
    /// How many octets it has at most, with a space for each word, or as many as can be counted.
    fn len(&self) -> usize {
        match self {
            Words::No => 0,
            Words::One(a) => length_of_words(&[*a]),
            Words::Two(a, b) => length_of_words(&[*a, *b]),
            Words::Four(a, b, c, d) => length_of_words(&[*a, *b, *c, *d]),
            Words::Six(a, b, c, d, e, f) => length_of_words(&[*a, *b, *c, *d, *e, *f]),
            Words::Each(words) => length_of_all(words.as_slice()),
            Words::Before(a, b, words) => {
                length_of_words(&[*a, *b]).saturating_add(length_of_all(words.as_slice()))
            }
        }
    }
}

/// Adds a word as a middle parameter, `*` where it can't be one.
#[tactic(auto, using(crate::proofs::Built::after_start, crate::proofs::Built::only_start))]
fn push_shown(line: &mut Vec<u8>, word: &Word<'_>) -> Result<(), AllocError>
    ensures { OnOk result (line.new.items ≡ line.old.items ++ 32 ∷ middle_of (word_of word.now)) }
{
    line.push(b' ')?;
    let start = line.len();
    word.push_to(line)?;
    if needs_colon(&line[start..]) {
        line.truncate(start);
        line.push(b'*')?;
    }
    Ok(())
}

/// Adds words as middle parameters.
#[tactic(auto, using(crate::proofs::Built::shown_append))]
fn push_words(line: &mut Vec<u8>, words: &Words<'_>) -> Result<(), AllocError>
    ensures { OnOk result (line.new.items ≡ line.old.items ++ flat_map
        (λ w. 32 ∷ w) (map middle_of (words_of words.now))) }
{
    match words {
        Words::No => Ok(()),
        Words::One(a) => push_each(line, &[*a]),
        Words::Two(a, b) => push_each(line, &[*a, *b]),
        Words::Four(a, b, c, d) => push_each(line, &[*a, *b, *c, *d]),
        Words::Six(a, b, c, d, e, f) => push_each(line, &[*a, *b, *c, *d, *e, *f]),
        Words::Each(words) => push_each_octets(line, words.as_slice()),
        Words::Before(a, b, words) => {
            push_each(line, &[*a, *b])?;
            push_each_octets(line, words.as_slice())
        }
    }
}

/// Adds words as middle parameters.
fn push_each(line: &mut Vec<u8>, words: &[Word<'_>]) -> Result<(), AllocError>
    ensures { OnOk result (line.new.items ≡ line.old.items ++ flat_map
        (λ w. 32 ∷ w) (map middle_of (map word_of words.now))) }
{
    for word in words {
        push_shown(line, word)?;
    }
    Ok(())
}

/// Adds words of a list as middle parameters.
fn push_each_octets(line: &mut Vec<u8>, words: &[Octets]) -> Result<(), AllocError>
    ensures { OnOk result
        (line.new.items ≡ line.old.items ++ flat_map (λ w. 32 ∷ w) (map middle_of words.now)) }
{
    for word in words {
        push_shown(line, &Word::Of(word))?;
    }
    Ok(())
}

impl RowText<'_> {
    /// How many octets it has at most, or as many as can be counted.
    fn len(&self) -> usize {
        match self {
            RowText::Without => 0,
            RowText::Said(octets) => octets.len(),
            RowText::Given(octets) => octets.len(),
            RowText::Ending(octets, end) => octets.len().saturating_add(end.len()),
            RowText::Joined(a, b, c, d) => length_of_words(&[*a, *b, *c, *d]),
            RowText::Spaced(names) => length_of_all(names.as_slice()),
        }
    }
}

/// Adds what stands after a colon, where there is something.
fn push_trailing(line: &mut Vec<u8>, text: &RowText<'_>) -> Result<(), AllocError>
    ensures { OnOk result (line.new.items ≡ line.old.items ++ flat_map
        (λ t. 32 ∷ 58 ∷ t) (option_to_list (text_of text.now))) }
{
    match text {
        RowText::Without => Ok(()),
        RowText::Said(octets) => push_text(line, octets),
        RowText::Given(octets) => push_text(line, octets.as_slice()),
        RowText::Ending(octets, end) => {
            push_text(line, octets)?;
            line.extend_from_slice(end.as_slice())
        }
        RowText::Joined(a, b, c, d) => {
            push_text(line, b"")?;
            push_pieces(line, &[*a, *b, *c, *d])
        }
        RowText::Spaced(names) => {
            push_text(line, b"")?;
            push_spaced(line, names.as_slice())
        }
    }
}

/// Adds pieces, in order.
fn push_pieces(line: &mut Vec<u8>, pieces: &[Word<'_>]) -> Result<(), AllocError>
    ensures { OnOk result (line.new.items ≡ line.old.items ++ flat_map word_of pieces.now) }
{
    for piece in pieces {
        piece.push_to(line)?;
    }
    Ok(())
}
