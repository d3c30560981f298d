//! A text that is cut at its first separator.
ghost use Rattle.std.specs.Prelude.{◌≡◌, ◌==◌, ◌∷◌, ◌+◌, ◌<◌, length, position};
ghost use Rattle.line_grammar.specs.Parts.{octets_left, parts, parts_left};

fn first_place(text: &[u8], separator: u8) -> Option<usize>
    ensures { result ≡ position (λ b. b == separator) text.now }
{
    text.iter().position(|octet| *octet == separator)
}

/// What stands before the first separator, and what after it: nothing where there is no separator.
#[tactic(auto, using(crate::proofs::Cuts::cuts))]
pub fn split_first(text: &[u8], separator: u8) -> (&[u8], Option<&[u8]>)
    ensures shorter { octets_left result.1 < length text.now + 1 }
    ensures parts { parts separator text.now ≡ result.0.now ∷ parts_left separator result.1 }
{
    match first_place(text, separator) {
        Some(place) => (&text[..place], Some(&text[place + 1..])),
        None => (text, None),
    }
}
