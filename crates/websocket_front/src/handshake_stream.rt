//! A client's stream during its handshake, and what was read of it.
use std::alloc::Global;
use std::io;
use std::io::{Read, Write};

/// A stream, and the octets that were read of it.
#[derive(Drop)]
pub(crate) struct HandshakeStream<S: Read + Write + Drop> {
    pub(crate) stream: S,
    pub(crate) octets: Vec<u8>,
}

impl<S: Read + Write + Drop> HandshakeStream<S> {
    /// A stream of which nothing was read.
    pub(crate) fn new(alloc: Global, stream: S) -> HandshakeStream<S> {
        HandshakeStream {
            stream,
            octets: Vec::new(alloc),
        }
    }
}

impl<S: Read + Write + Drop> Read for HandshakeStream<S> {
    fn read(&mut self, buf: &mut [u8]) -> io::Result<usize> {
        self.octets.reserve(buf.len())?;
        let count = self.stream.read(buf)?;
        self.octets.extend_from_slice(&buf[..count])?;
        Ok(count)
    }
}

impl<S: Read + Write + Drop> Write for HandshakeStream<S> {
    fn write(&mut self, buf: &[u8]) -> io::Result<usize> {
        self.stream.write(buf)
    }

    fn flush(&mut self) -> io::Result<()> {
        self.stream.flush()
    }
}
