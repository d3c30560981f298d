//! A client, and what stops a server.
use std::alloc::Global;
use std::io::{BufRead, BufReader, Read, Write};
use std::net::{Net, SocketAddr, TcpStream};
use std::sync::Arc;
use std::sync::atomic::{AtomicBool, Ordering};
use std::time::{Clock, Duration};
use std::{io, thread};

/// How often a wait looks before it gives up.
pub(crate) const TURNS: u32 = 10_000;

/// Waits a little between two looks.
pub(crate) fn rest<R: Clock>(rt: &R) {
    thread::sleep(rt, Duration::from_millis(1));
}

/// A connection to a server.
#[derive(Drop)]
pub(crate) struct Client {
    stream: BufReader<TcpStream>,
}

impl Client {
    /// Connects, and gives up on an answer after ten seconds.
    pub(crate) fn connect<R: Net<Stream = TcpStream>>(
        rt: &R,
        alloc: Global,
        address: SocketAddr,
    ) -> io::Result<Client> {
        let stream = TcpStream::connect(rt, address)?;
        stream.set_read_timeout(Some(Duration::from_secs(10)))?;
        Ok(Client {
            stream: BufReader::new(alloc, stream)?,
        })
    }

    /// Sends octets.
    pub(crate) fn send(&mut self, octets: &[u8]) -> io::Result<()> {
        let mut stream = self.stream.get_ref();
        stream.write_all(octets)
    }

    /// Whether the next line is this one.
    pub(crate) fn hears(&mut self, alloc: Global, line: &[u8]) -> io::Result<bool> {
        let mut heard = Vec::new(alloc);
        let _ = self.stream.read_until(b'\n', &mut heard)?;
        Ok(heard.as_slice().strip_suffix(b"\r\n") == Some(line))
    }

    /// Whether these octets come next.
    pub(crate) fn receives(&mut self, alloc: Global, octets: &[u8]) -> io::Result<bool> {
        let mut heard = vec![in alloc; 0u8; octets.len()]?;
        self.stream.read_exact(&mut heard)?;
        Ok(heard.as_slice() == octets)
    }

    /// Reads lines up to one that ends so; whether there is one among the next twenty.
    pub(crate) fn hears_end(&mut self, alloc: Global, end: &[u8]) -> io::Result<bool> {
        for _ in 0..20u32 {
            let mut heard = Vec::new(alloc);
            if self.stream.read_until(b'\n', &mut heard)? == 0 {
                return Ok(false);
            }
            if heard.as_slice().ends_with(end) {
                return Ok(true);
            }
        }
        Ok(false)
    }
}

/// An input that ends when it is told to.
#[derive(Drop)]
pub(crate) struct Until<R: Clock + Drop> {
    pub(crate) rt: R,
    pub(crate) has_ended: Arc<AtomicBool>,
}

impl<R: Clock + Drop> Read for Until<R> {
    fn read(&mut self, _buf: &mut [u8]) -> io::Result<usize> {
        for _ in 0..TURNS {
            if self.has_ended.load(Ordering::SeqCst) {
                break;
            }
            rest(&self.rt);
        }
        Ok(0)
    }
}
