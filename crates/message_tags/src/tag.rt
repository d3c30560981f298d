//! One tag.
use line_grammar::Octets;

/// A tag that counts (IRCv3 message-tags, "Format").
#[derive(Clone, Debug, Drop, PartialEq)]
pub struct Tag {
    /// With its vendor and its `+`, where it has them.
    pub key: Octets,
    /// As it is meant, without escapes. Empty where the tag has none.
    pub value: Octets,
}
