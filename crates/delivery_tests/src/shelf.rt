//! What takes items, and takes none for a while, or fails.
use deliveries::{Item, write_out};
use std::alloc::Global;
use std::io;
use std::io::{Error, ErrorKind, Write};
use wire::Sink;

/// Keeps the octets of the items that it takes, and counts these and the writes of octets, which it refuses. Of each
/// `period` puts it takes nothing in one, where that isn't 0. After so many items as are left it fails.
#[derive(Drop)]
pub(crate) struct Shelf {
    pub(crate) octets: Vec<u8>,
    pub(crate) items: u64,
    pub(crate) writes: u32,
    puts: u32,
    period: u32,
    left: u64,
}

impl Shelf {
    /// A shelf that has no item, and room for so many.
    pub(crate) fn new(alloc: Global, period: u32, left: u64) -> Shelf {
        Shelf {
            octets: Vec::new(alloc),
            items: 0,
            writes: 0,
            puts: 0,
            period,
            left,
        }
    }
}

impl Write for Shelf {
    fn write(&mut self, _buf: &[u8]) -> io::Result<usize> {
        self.writes = self.writes.wrapping_add(1);
        Err(Error::from(ErrorKind::Unsupported))
    }

    fn flush(&mut self) -> io::Result<()> {
        Ok(())
    }
}

impl Sink for Shelf {
    fn takes_items(&self) -> bool {
        true
    }

    fn put(&mut self, item: &Item, host: &[u8]) -> io::Result<()> {
        self.puts = self.puts.wrapping_add(1);
        if self.period != 0 && self.puts % self.period == 0 {
            return Err(Error::from(ErrorKind::WouldBlock));
        }
        if self.left == 0 {
            return Err(Error::from(ErrorKind::BrokenPipe));
        }
        let (_, written) = write_out(item.delivery(), host, &mut self.octets);
        if written.is_err() {
            return Err(Error::from(ErrorKind::OutOfMemory));
        }
        self.items = self.items.wrapping_add(1);
        self.left -= 1;
        Ok(())
    }
}
