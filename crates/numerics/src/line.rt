//! Outgoing lines as they go out (RFC 2812, section 2.3).
ghost use Rattle.std.specs.Prelude.{◌≡◌, ◌++◌, ◌∷◌, [], map, Some, None, true, false, IfOk};
ghost use Rattle.numerics.specs.Outgoing.{line, nameless, octets, room, out_text};

use crate::Out;
use crate::pushing::{length_of, push_params, push_start, push_text, push_word, push_words};
use line_grammar::{Octets, OctetsList};
use snapshots::{GhostChange, Snapshot, apply, copy_of};
use std::alloc::{AllocError, Global};
use std::marker::Model;

/// Octets of an outgoing line without its tags and its CR LF (RFC 2812, section 2.3).
const MAX_LINE: usize = 510;

/// An outgoing line before its server's tags, as it goes out: its octets, and the client's tags. A clause sees its
/// parts.
#[derive(Drop)]
pub struct Line {
    tags: Octets,
    text: Octets,
    out: Snapshot<Out>,
}

impl Model for Line {
    ghost use Rattle.std.specs.Prelude.{◌≡◌};
    ghost use Rattle.numerics.specs.declared.outgoing.Out.{Out};
    ghost use Rattle.numerics.specs.Outgoing.{octets};

    ghost Value = { Out };

    ghost view = { λ a. a.out.value };

    ghost invariant = { λ a. (a.tags ≡ a.out.value.tags) × (a.text ≡ octets a.out.value) };
}

/// Parts of a line that are borrowed.
#[derive(Clone, Copy)]
struct Parts<'a> {
    source: &'a [u8],
    command: &'a [u8],
    words: &'a [&'a [u8]],
    text: &'a [u8],
}

/// The line of these words.
struct OfWords;

impl<'a> GhostChange<Out, Parts<'a>> for OfWords {
    ghost use Rattle.std.specs.Prelude.{map, false};
    ghost use Rattle.numerics.specs.Outgoing.{line};

    ghost changed = { λ o p. line p.source.now p.command.now (map (λ w. w.now) p.words.now) false };
}

/// The line of these words and a text after a colon.
struct OfText;

impl<'a> GhostChange<Out, Parts<'a>> for OfText {
    ghost use Rattle.std.specs.Prelude.{map, true, ◌++◌, ◌∷◌, []};
    ghost use Rattle.numerics.specs.Outgoing.{line};

    ghost changed = { λ o p. line p.source.now p.command.now
        (map (λ w. w.now) p.words.now ++ p.text.now ∷ []) true };
}

/// A source, a command and parameters that are borrowed.
#[derive(Clone, Copy)]
struct ListedParams<'a> {
    source: &'a [u8],
    command: &'a [u8],
    params: &'a [Octets],
}

/// The line of these parameters.
struct OfParams;

impl<'a> GhostChange<Out, ListedParams<'a>> for OfParams {
    ghost use Rattle.std.specs.Prelude.{false};
    ghost use Rattle.numerics.specs.Outgoing.{line};

    ghost changed = { λ o p. line p.source.now p.command.now p.params.now false };
}

/// The line of a command and one word, which names nobody whom it comes from.
struct Nameless;

impl<'a> GhostChange<Out, Parts<'a>> for Nameless {
    ghost use Rattle.numerics.specs.Outgoing.{nameless};

    ghost changed = { λ o p. nameless p.command.now p.text.now };
}

/// A line with other tags of its client.
struct AddsTags;

impl GhostChange<Out, Octets> for AddsTags {
    ghost changed = { λ o tags. record o { tags = tags } };
}

/// Any line, for proofs to change. It takes no memory.
pub(crate) fn any_line(alloc: Global) -> Snapshot<Out> {
    let out = Out {
        tags: Octets::from_vec(Vec::new(alloc)),
        source: None,
        command: Octets::from_vec(Vec::new(alloc)),
        params: OctetsList::from_vec(Vec::new(alloc)),
        colon: false,
    };
    Snapshot::of(&out)
}

/// An empty text with room for a line of these parts, its CR LF included.
fn text_for(
    alloc: Global,
    source: &[u8],
    command: &[u8],
    words: &[&[u8]],
    text: &[u8],
) -> Result<Vec<u8>, AllocError>
    ensures { IfOk result (λ v. v.items ≡ []) }
{
    let names = length_of(&[source, command, text, b":  :\r\n"]);
    let room = names
        .saturating_add(length_of(words))
        .saturating_add(words.len());
    Vec::with_capacity(alloc, room)
}

impl Line {
    /// A line of words, without a client's tags.
    #[tactic(auto, using(crate::proofs::Built::built_words))]
    pub fn new(
        alloc: Global,
        source: &[u8],
        command: &[u8],
        words: &[&[u8]],
    ) -> Result<Line, AllocError>
        ensures { IfOk result
            (λ l. l ≡ line source.now command.now (map (λ w. w.now) words.now) false) }
    {
        let mut text = text_for(alloc, source, command, words, b"")?;
        push_start(&mut text, source, command)?;
        push_words(&mut text, words)?;
        let parts = Parts {
            source,
            command,
            words,
            text: b"",
        };
        let mut out = any_line(alloc);
        apply::<OfWords, Out, Parts<'_>>(&mut out, &parts);
        Line::of(alloc, text, out)
    }

    /// A line of parameters, without a client's tags.
    #[tactic(auto, using(crate::proofs::Built::built_words))]
    pub fn with_list(
        alloc: Global,
        source: &[u8],
        command: &[u8],
        params: &[Octets],
    ) -> Result<Line, AllocError>
        ensures { IfOk result (λ l. l ≡ line source.now command.now params.now false) }
    {
        let mut text = text_for(alloc, source, command, &[], b"")?;
        push_start(&mut text, source, command)?;
        push_params(&mut text, params)?;
        let listed = ListedParams {
            source,
            command,
            params,
        };
        let mut out = any_line(alloc);
        apply::<OfParams, Out, ListedParams<'_>>(&mut out, &listed);
        Line::of(alloc, text, out)
    }

    /// A line of words and a text after a colon, without a client's tags.
    #[tactic(auto, using(crate::proofs::Built::built_text))]
    pub fn with_text(
        alloc: Global,
        source: &[u8],
        command: &[u8],
        words: &[&[u8]],
        text: &[u8],
    ) -> Result<Line, AllocError>
        ensures { IfOk result (λ l. l
            ≡ line source.now command.now (map (λ w. w.now) words.now ++ text.now ∷ []) true) }
    {
        let mut line = text_for(alloc, source, command, words, text)?;
        push_start(&mut line, source, command)?;
        push_words(&mut line, words)?;
        push_text(&mut line, text)?;
        let parts = Parts {
            source,
            command,
            words,
            text,
        };
        let mut out = any_line(alloc);
        apply::<OfText, Out, Parts<'_>>(&mut out, &parts);
        Line::of(alloc, line, out)
    }

    /// A line of a command and one word, which names nobody whom it comes from.
    #[tactic(auto, using(crate::proofs::Built::built_nameless))]
    pub fn nameless(alloc: Global, command: &[u8], word: &[u8]) -> Result<Line, AllocError>
        ensures { IfOk result (λ l. l ≡ nameless command.now word.now) }
    {
        let mut text = text_for(alloc, b"", command, &[word], b"")?;
        text.extend_from_slice(command)?;
        push_word(&mut text, word)?;
        let parts = Parts {
            source: b"",
            command,
            words: &[],
            text: word,
        };
        let mut out = any_line(alloc);
        apply::<Nameless, Out, Parts<'_>>(&mut out, &parts);
        Line::of(alloc, text, out)
    }

    /// A line without a client's tags, by its spelling.
    #[tactic(auto, unfolding(crate::specs::Outgoing::octets))]
    pub(crate) fn of(
        alloc: Global,
        mut text: Vec<u8>,
        out: Snapshot<Out>,
    ) -> Result<Line, AllocError>
        requires text { text.items ≡ out_text out.value }
        requires tags { out.value.tags ≡ [] }
        ensures { IfOk result (λ l. l ≡ out.value) }
    {
        text.truncate(MAX_LINE);
        text.extend_from_slice(b"\r\n")?;
        Ok(Line {
            tags: Octets::from_vec(Vec::new(alloc)),
            text: Octets::from_vec(text),
            out,
        })
    }

    /// The same line with these tags of its client, as tag data without `@`.
    #[tactic(auto, unfolding(crate::specs::Outgoing::octets))]
    pub fn with_tags(self, tags: Octets) -> Line
        ensures { result ≡ record self { tags = tags } }
    {
        let Line { text, mut out, .. } = self;
        apply::<AddsTags, Out, Octets>(&mut out, &tags);
        Line { tags, text, out }
    }

    /// The client's tags, as tag data without `@`. Empty where there are none.
    pub fn tags(&self) -> &[u8]
        ensures { result.now ≡ self.now.tags }
    {
        self.tags.as_slice()
    }

    /// What goes out of it without tags: the first 510 octets of its spelling, then CR LF (RFC 2812, section 2.3).
    pub fn octets(&self) -> &[u8]
        ensures { result.now ≡ octets self.now }
    {
        self.text.as_slice()
    }

    /// The same, without a copy.
    pub fn into_octets(self) -> Octets
        ensures { result ≡ octets self }
    {
        self.text
    }

    /// The client's tags, and what goes out without them.
    pub fn into_parts(self) -> (Octets, Octets)
        ensures tags { result.0 ≡ self.tags }
        ensures octets { result.1 ≡ octets self }
    {
        (self.tags, self.text)
    }

    /// How many octets more it may have before some are cut off (RFC 2812, section 2.3). Its tags don't count.
    #[tactic(auto, using(crate::proofs::Built::room_left))]
    pub fn room(&self) -> usize
        ensures { result ≡ room self.now }
    {
        (MAX_LINE + 2).saturating_sub(self.text.len())
    }
}

impl Clone for Line {
    ghost is_clone = { λ a b. b ≡ a };

    fn clone(&self) -> Result<Line, AllocError> {
        Ok(Line {
            tags: self.tags.clone()?,
            text: self.text.clone()?,
            out: copy_of(&self.out),
        })
    }
}
