//! Pieces of a line that spaces part.
ghost use Rattle.std.specs.Prelude.{◌≡◌, ◌==◌, position};
ghost use Rattle.line_grammar.specs.Lines.{after_space, before_space};
ghost use Rattle.line_grammar.specs.Reading.{without_spaces};

/// What stands before the first space, and what after it. Without a space the second is empty.
#[tactic(auto, using(crate::proofs::Spaces::cuts))]
pub fn split_word(octets: &[u8]) -> (&[u8], &[u8])
    ensures before { result.0.now ≡ before_space octets.now }
    ensures after { result.1.now ≡ after_space octets.now }
{
    match first_space(octets) {
        Some(space) => (&octets[..space], &octets[space + 1..]),
        None => (octets, &[]),
    }
}

fn first_space(octets: &[u8]) -> Option<usize>
    ensures { result ≡ position (λ b. b == 32) octets.now }
{
    octets.iter().position(|octet| *octet == b' ')
}

/// The octets from the first that is no space on.
pub fn skip_spaces(octets: &[u8]) -> &[u8]
    ensures { result.now ≡ without_spaces octets.now }
{
    let mut rest = octets;
    while let [b' ', more @ ..] = rest {
        rest = more;
    }
    rest
}
