//! Lines of a server's thread, which are done in the server's hall.
ghost use Rattle.std.specs.Prelude.{◌≡◌, []};

use chronicle::Moment;
use crew::book::outbox::{ChannelName, Sender};
use crew::book::{Baton, FlushList, Hall, Naming, Register, Settings};
use crew::{Desk, Gate, Job, work_one};
use line_grammar::{Octets, Piece};
use registration::Accounts;
use std::alloc::Global;
use std::sync::{Mutex, Wait};

/// A hall for two sessions and 64 records, or nothing where it is refused.
pub fn hall<L: Naming, R: Wait + Drop>(
    alloc: Global,
    register: Register<ChannelName>,
) -> Option<Hall<L, Sender<R>>>
    requires named { register.table ≡ L.table }
    requires empty { register.rows ≡ [] }
{
    let settings = Settings {
        server: Octets::copy_of(alloc, b"irc.example").ok()?,
        info: Octets::copy_of(alloc, b"halld").ok()?,
        version: Octets::copy_of(alloc, b"halld-1").ok()?,
        created: Moment::new(0),
        motd: None,
        accounts: Accounts::new(alloc),
        sessions: 2,
    };
    Hall::new(alloc, register, settings, 64).ok()
}

/// Does a line under a slot, and answers whether it was done.
pub fn work_under_slot<L: Naming, R: Wait + Drop, G: Gate>(
    rt: &R,
    alloc: Global,
    hall: &Mutex<Hall<L, Sender<R>>>,
    desk: &Desk,
    gate: &G,
    baton: Baton<L, Sender<R>>,
    piece: Piece,
) -> (Baton<L, Sender<R>>, bool)
    ensures { result.0.session ≡ baton.session }
{
    let Some(slot) = desk.slot(rt) else {
        return (baton, false);
    };
    let mut flushes = FlushList::new(alloc);
    let job = Job { baton, piece };
    let back = work_one(rt, hall, job, Moment::new(0), gate, &mut flushes);
    desk.back(rt, slot);
    (back.baton, back.outcome.is_ok())
}
