//! Items that sessions take, octet by octet.
use crate::guests::{Guest, Made};
use crate::stage::{Stage, place};
use book::{Naming, StableName};
use deliveries::{Item, write_out};
use std::io;
use std::io::{ErrorKind, Write};

/// A stream that takes just these octets, and fails at others.
#[derive(Drop)]
struct Wanted<'a> {
    left: &'a [u8],
}

impl Write for Wanted<'_> {
    fn write(&mut self, buf: &[u8]) -> io::Result<usize> {
        match self.left.strip_prefix(buf) {
            Some(left) => {
                self.left = left;
                Ok(buf.len())
            }
            None => Err(io::Error::from(ErrorKind::InvalidData)),
        }
    }

    fn flush(&mut self) -> io::Result<()> {
        Ok(())
    }
}

/// Whether an item is just this.
fn is_text(item: &Item, text: &str) -> bool {
    let mut wanted = Wanted {
        left: text.as_bytes(),
    };
    write_out(item.delivery(), b"h1", &mut wanted).1.is_ok() && wanted.left.is_empty()
}

impl<L: Naming, O: StableName<Taker = T>, T: Drop> Guest<L, O, T> {
    /// Takes an item, which it waits for or doesn't, and answers whether it is just this; nothing where there is none.
    fn takes<R>(&mut self, rt: &R, text: Option<&str>, waits: bool) -> Option<bool>
    where
        O: Made<R, T>,
    {
        match (O::take(rt, &mut self.ends.taker, waits), text) {
            (Some(item), Some(text)) => Some(is_text(&item, text)),
            (Some(_), None) => Some(true),
            (None, _) => None,
        }
    }
}

impl<L: Naming, O: StableName<Taker = T>, T: Drop> Stage<L, O, T> {
    /// Takes an item of a session, and answers whether it is just this; nothing where there is none.
    fn take<R>(&mut self, rt: &R, session: u64, text: Option<&str>, waits: bool) -> Option<bool>
    where
        O: Made<R, T>,
    {
        match self.guests.get_mut(place(session)) {
            Some(Some(guest)) => guest.takes(rt, text, waits),
            _ => Some(false),
        }
    }

    /// Whether a session takes an item with these lines, which it waits for or doesn't.
    pub(crate) fn takes_one<R>(&mut self, rt: &R, session: u64, lines: &str, waits: bool) -> bool
    where
        O: Made<R, T>,
    {
        self.take(rt, session, Some(lines), waits) == Some(true)
    }

    /// Whether a session takes these items, and no more wait.
    pub(crate) fn takes<R>(&mut self, rt: &R, session: u64, items: &[&str]) -> bool
    where
        O: Made<R, T>,
    {
        let mut is_right = true;
        for lines in items {
            is_right = self.takes_one(rt, session, lines, false) && is_right;
        }
        self.take(rt, session, None, false).is_none() && is_right
    }

    /// Whether a session takes so many items, and no more wait.
    pub(crate) fn takes_some<R>(&mut self, rt: &R, session: u64, count: u64) -> bool
    where
        O: Made<R, T>,
    {
        let mut is_right = true;
        for _ in 0..count {
            is_right = self.take(rt, session, None, false).is_some() && is_right;
        }
        self.take(rt, session, None, false).is_none() && is_right
    }
}
