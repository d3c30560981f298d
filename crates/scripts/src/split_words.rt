//! Words of a line.
ghost use Rattle.std.specs.Prelude.{◌≡◌};
ghost use Rattle.line_grammar.specs.Lines.{before_space, after_space};

/// What stands before a text's first space and what after it. Where there is no space nothing stands after it.
#[tactic(auto, using(crate::proofs::Spaces::before_first, crate::proofs::Spaces::after_at, crate::proofs::Spaces::before_none, crate::proofs::Spaces::after_none))]
pub(crate) fn split_at_space(text: &[u8]) -> (&[u8], &[u8])
    ensures before { result.0.now ≡ before_space text.now }
    ensures after { result.1.now ≡ after_space text.now }
{
    for i in 0..text.len() {
        if text[i] == b' ' {
            return (&text[..i], &text[i + 1..]);
        }
    }
    (text, &[])
}
