//! What a target is of a text or of MODE (RFC 2812, sections 2.3.1 and 3.1.5; RFC 2811, section 2.1).
ghost use Rattle.std.specs.Prelude.{◌≡◌};
ghost use Rattle.transactions.specs.Targets.{names_channel};

/// Whether a name begins like a channel's.
pub fn names_channel(name: &[u8]) -> bool
    ensures { result ≡ names_channel name.now }
{
    matches!(name, [b'#' | b'&', ..])
}
