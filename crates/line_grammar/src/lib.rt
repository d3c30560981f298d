//! Lines of a byte stream, and the grammar of a message in a line (RFC 2812, section 2.3).
#![tactic(auto)]

mod grammar;
mod laws;
mod line_message;
mod message;
mod octets;
mod octets_list;
mod parts;
mod spelling;
mod splitter;
mod words;

pub use grammar::{LineFault, parse};
pub use laws::{any_cutting, one_message_a_line, reads_what_is_spelled};
pub use line_message::{LineMessage, LineParameters};
pub use message::Message;
pub use octets::Octets;
pub use octets_list::OctetsList;
pub use parts::split_first;
pub use spelling::{WriteFault, is_writable, needs_colon, push_untagged, write};
pub use splitter::{Piece, Splitter, split_all};
