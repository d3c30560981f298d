//! What no step of a play can do: a plan is dropped, and then its book takes nothing any more.
ghost use Rattle.std.specs.Prelude.{◌≡◌, [], true, IfSome};
ghost use Rattle.casemapping.specs.Names.{host_shape};

use crate::plays::{new_register, settings};
use book::{Baton, Book, HangRefusal, LineRefusal, Naming, Register, Ring};
use casemapping::is_host;
use chronicle::{Moment, Why};
use line_grammar::{Octets, Piece};
use std::alloc::Global;
use std::marker::Brand;

const NOON: i64 = 43_200_000;

/// A host. `None` where there was no memory.
fn host(alloc: Global) -> Option<Octets>
    ensures { IfSome result (λ h. host_shape h ≡ true) }
{
    let Ok(host) = Octets::copy_of(alloc, b"h1") else {
        return None;
    };
    if is_host(host.as_slice()) {
        Some(host)
    } else {
        None
    }
}

/// The baton of one who comes, with an outbox that holds eight items. `None` where there was no memory.
fn comes<L: Naming>(alloc: Global, book: &mut Book<L, Ring>, host: Octets) -> Option<Baton<L, Ring>>
    requires { host_shape host ≡ true }
{
    let Ok(outbox) = Ring::new(alloc, 8) else {
        return None;
    };
    match book.open(host, Moment::new(NOON), outbox) {
        Ok((_, baton, _)) => Some(baton),
        Err(_) => None,
    }
}

/// Whether a line is begun, whose plan is dropped.
fn is_begun<L: Naming>(book: &mut Book<L, Ring>, baton: &Baton<L, Ring>, piece: &Piece) -> bool {
    book.begin(baton, piece, Moment::new(NOON)).is_ok()
}

/// Whether a book refuses a line and the end of a session as busy.
fn is_busy<L: Naming>(book: &mut Book<L, Ring>, baton: &Baton<L, Ring>, piece: &Piece) -> bool {
    let moment = Moment::new(NOON);
    let line = book.begin(baton, piece, moment).err();
    let end = book.hang(baton.session(), Why::Shutdown, moment).err();
    line == Some(LineRefusal::Busy) && end == Some(HangRefusal::Busy)
}

/// Whether a book in which somebody came is busy after a plan was dropped. `None` where there was no memory.
fn is_busy_after<L: Naming>(
    alloc: Global,
    book: &mut Book<L, Ring>,
    piece: &Piece,
) -> Option<bool> {
    let host = host(alloc)?;
    let baton = comes(alloc, book, host)?;
    if is_begun(book, &baton, piece) {
        Some(is_busy(book, &baton, piece))
    } else {
        None
    }
}

/// Whether a new book is busy after a plan was dropped. `None` where there was no memory.
fn stays_busy<L: Naming>(alloc: Global, register: Register<()>) -> Option<bool>
    requires named { register.table ≡ L.table }
    requires empty { register.rows ≡ [] }
{
    match (settings(alloc, 2), Octets::copy_of(alloc, b"NICK al")) {
        (Ok(settings), Ok(line)) => {
            match Book::<L, Ring>::new(alloc, register, settings, 40) {
                Ok(mut book) => is_busy_after(alloc, &mut book, &Piece::Line(line)),
                Err(_) => None,
            }
        }
        _ => None,
    }
}

/// The same of a book of its own.
fn stays_busy_once(alloc: Global) -> Option<bool> {
    match new_register(alloc) {
        Ok(register) => stays_busy::<Brand>(alloc, register),
        Err(_) => None,
    }
}

/// A line whose plan was dropped leaves its book busy for all that comes later.
#[test]
fn a_plan_that_is_dropped_leaves_the_book_busy(rt: HostRuntime) {
    let alloc = rt.alloc();
    let is_so = match stays_busy_once(alloc) {
        Some(is_so) => Some(is_so),
        None => stays_busy_once(alloc),
    };
    assert_eq!(rt; is_so, Some(true));
}
