//! What a session's items go out on.
//!
//! A stream takes octets, and those of many items are joined, so that they go out in one write. What makes a message
//! of each line of an item, such as a WebSocket, would have to look for the lines in joined octets again: it takes
//! whole items, one after another.
use deliveries::Item;
use std::io;
use std::io::{Error, ErrorKind, Write};

/// A stream of octets, which need say no more; or what takes items, to which no octets are written.
pub trait Sink: Write {
    ghost use Rattle.std.specs.Prelude.{OnOk, OnErr};
    ghost use Rattle.std.specs.Io.KnownBytes.{Appends, Keeps};
    ghost use Rattle.deliveries.specs.Text.{delivery_text};

    /// Whether it takes items, whatever went out before.
    fn takes_items(&self) -> bool {
        false
    }

    /// Takes an item whole, after all that it took before, for a session that has this host. After an error that
    /// passes it is called again with the same item, and no other call but `flush` comes between.
    fn put(&mut self, item: &Item, host: &[u8]) -> io::Result<()>
        ensures whole { OnOk result (Appends (Self.contents self.old) (Self.contents self.new)
            (delivery_text item.now.delivery host.now)) }
        ensures none { OnErr result (Keeps (Self.contents self.old) (Self.contents self.new)) }
    {
        Err(Error::from(ErrorKind::Unsupported))
    }
}

/// A list of octets is a stream that takes all.
impl Sink for Vec<u8> {}
