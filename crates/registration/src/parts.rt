//! A text of three parts.
ghost use Rattle.std.specs.Prelude.{◌≡◌};
ghost use Rattle.std.specs.Option.{option_map};
ghost use Rattle.line_grammar.specs.Parts.{parts};
ghost use Rattle.registration.specs.Parts.{three_of};

use line_grammar::split_first;

/// The parts of a text, where there are just three.
#[tactic(auto, using(crate::proofs::Fourth::fourth))]
pub(crate) fn three_parts(text: &[u8], separator: u8) -> Option<(&[u8], &[u8], &[u8])>
    ensures { option_map (λ found. (found.0.now, found.1.now, found.2.now)) result
        ≡ three_of (parts separator text.now) }
{
    let (first, rest) = split_first(text, separator);
    let (second, rest) = split_first(rest?, separator);
    let (third, rest) = split_first(rest?, separator);
    match rest {
        Some(_) => None,
        None => Some((first, second, third)),
    }
}
