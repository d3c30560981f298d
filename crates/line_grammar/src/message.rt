//! A message as its parts (RFC 2812, section 2.3.1; IRCv3 message-tags).

use crate::{Octets, OctetsList};

/// A message as it stands in a line.
#[derive(Clone, Drop)]
pub struct Message {
    /// The tag data, without `@` and as spelled. Empty where the line has no tags.
    pub tags: Octets,
    /// The source, without its colon. `None` where the line names none.
    pub source: Option<Octets>,
    /// One or more letters, or three digits.
    pub command: Octets,
    /// At most 15.
    pub params: OctetsList,
    /// Whether the last parameter is spelled with a colon.
    pub colon: bool,
}
