//! A stream that takes little, takes nothing for a while, or fails.
use std::alloc::Global;
use std::io;
use std::io::{ErrorKind, Write};
use wire::Sink;

/// Counts what it is asked to write. It takes `most` octets in one write and `left` in all. Of each `period` writes
/// it takes nothing in one, where that isn't 0. After what is left it takes none, or fails.
#[derive(Drop)]
pub(crate) struct Narrow {
    pub(crate) octets: Vec<u8>,
    pub(crate) shape: Shape,
    pub(crate) writes: u32,
}

/// How narrow a stream is.
#[derive(Clone, Copy, Debug, Drop)]
pub(crate) struct Shape {
    pub(crate) most: usize,
    pub(crate) left: usize,
    pub(crate) period: u32,
    pub(crate) fails: bool,
}

impl Narrow {
    /// A stream of this shape, to which nothing was written.
    pub(crate) fn new(alloc: Global, shape: Shape) -> Narrow {
        Narrow {
            octets: Vec::new(alloc),
            shape,
            writes: 0,
        }
    }
}

impl Write for Narrow {
    fn write(&mut self, buf: &[u8]) -> io::Result<usize> {
        self.writes = self.writes.wrapping_add(1);
        if self.shape.period != 0 && self.writes % self.shape.period == 0 {
            return Err(io::Error::from(ErrorKind::WouldBlock));
        }
        if self.shape.left == 0 && self.shape.fails {
            return Err(io::Error::from(ErrorKind::BrokenPipe));
        }
        let count = buf.len().min(self.shape.most).min(self.shape.left);
        self.octets.extend_from_slice(&buf[..count])?;
        self.shape.left -= count;
        Ok(count)
    }

    fn flush(&mut self) -> io::Result<()> {
        Ok(())
    }
}

impl Sink for Narrow {}
